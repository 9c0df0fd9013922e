//! What follows from the definitions of the graph. Each function has a law as its clause, and does nothing.

ghost use Rattle.rr_space.specs.Laws.{LeavesSuffice, CopiesAreAlike};
ghost use Rattle.rr_space.specs.Laws.{AlikeInside};
ghost use Rattle.rr_space.specs.Laws.{CopiesAreAlikeInTheWhole, EmptyIsRead};
ghost use Rattle.rr_space.specs.Readings.{SpacesAreInside};
ghost use Rattle.rr_space.specs.Laws.{ClosedStaysInside, FrozenIsShareable, PromotedIsPart, EmptiedIsNotShareable};
ghost use Rattle.rr_space.specs.Examples.{Examples};
ghost use Rattle.rr_space.specs.KeyObjects.{KeyIsNamed, OtherIsWritten, ValueIsWritten, PairIsAdded, TextPairIsAdded, PairIsTaken, ObjectIsFrozen, ObjectIsMade, ObjectsArrive, ObjectIsForwarded, ObjectIsEmptied, ObjectIsPutBack, CopiesAreNamed};
ghost use Rattle.rr_space.specs.Readings.{ReadingsAreApart, RootsAreLocal};
ghost use Rattle.rr_space.specs.Laws.{MarksDecide};
ghost use Rattle.rr_space.specs.Moves.{ForwardedIsExact, KeepingAddsUp, PromotingKeeps, OpeningKeeps, PuttingBackKeeps};
ghost use Rattle.rr_space.specs.Sound.{SoundIsSealed, SoundIsShut};
ghost use Rattle.rr_space.specs.Laws.{DeepFreezingKeeps, EmptyingNothing, PromotedIsPublished, ClosedStandsBehind};
ghost use Rattle.rr_space.specs.Steps.{HandsOn, PublishingIsTurning, RemakingIsAStep, DroppingIsAStep};

/// A search that stops at published objects decides who is shareable.
pub fn shown_by_leaves()
    ensures { LeavesSuffice }
{}

/// A copy that matches place by place is alike to what it was copied from.
pub fn shown_by_copying()
    ensures { CopiesAreAlike }
{}

/// What is alike in two graphs is alike in the graphs that they are inside of.
pub fn shown_by_embedding()
    ensures { AlikeInside }
{}

/// A table that goes to another owner is read as the turning of an owner.
pub fn shown_by_handing_on()
    ensures { HandsOn }
{}

/// A published cluster has the names of its slots, and only the owner turns.
pub fn shown_by_publishing()
    ensures { PublishingIsTurning }
{}

/// What two holders both reach is shared.
pub fn shown_by_reading()
    ensures apart { ReadingsAreApart }
    ensures roots { RootsAreLocal }
{}

/// The graph of a space is inside the whole graph.
pub fn shown_by_spaces()
    ensures { SpacesAreInside }
{}

/// A table that is made anew keeps its names, and new slots get fresh ones.
pub fn shown_by_remaking()
    ensures { RemakingIsAStep }
{}

/// What a pack gives is alike in the whole graph, and a world without objects has a reading.
pub fn shown_by_cases()
    ensures copies { CopiesAreAlikeInTheWhole }
    ensures empty { EmptyIsRead }
{}

/// A table that is gone takes its objects with it.
pub fn shown_by_dropping()
    ensures { DroppingIsAStep }
{}

/// Marks that spread backwards from what is not frozen, or is a shell, tell who is shareable.
pub fn shown_by_marks()
    ensures { MarksDecide }
{}

/// Published objects of a sound table are frozen and lead to published ones alone, and no object leads nowhere.
pub fn shown_by_soundness()
    ensures sealed { SoundIsSealed }
    ensures shut { SoundIsShut }
{}

/// The forwards of a plan are a function of its places. They keep what was there, and so do objects that come behind, and
/// objects that were moved away and are put back.
pub fn shown_by_keeping()
    ensures exact { ForwardedIsExact }
    ensures promoting { PromotingKeeps }
    ensures opening { OpeningKeeps }
    ensures putting_back { PuttingBackKeeps }
    ensures adds_up { KeepingAddsUp }
{}

/// Freezing keeps what objects lead to; to empty no slot changes none; what is shareable and promoted leads to no object
/// of the space; a closed message stands behind whatever objects it comes to.
pub fn shown_by_effects()
    ensures freezing { DeepFreezingKeeps }
    ensures emptying { EmptyingNothing }
    ensures promoted { PromotedIsPublished }
    ensures closed { ClosedStandsBehind }
{}

/// What the definitions say of small graphs: cycles, shells, sharing.
pub fn shown_by_examples()
    ensures { Examples }
{}

/// A closed message leads to itself and to published objects; what was frozen throughout is shareable; where what is
/// shareable is published, the rest is the part; and what was emptied is not shareable.
pub fn shown_by_changes()
    ensures closed { ClosedStaysInside }
    ensures frozen { FrozenIsShareable }
    ensures promoted { PromotedIsPart }
    ensures emptied { EmptiedIsNotShareable }
{}

/// That each key of a hash is the key that its key object is stays so where a slot changes as a call changes one, and where
/// objects arrive; and objects that match others and have their keys have it too.
pub fn shown_by_keys()
    ensures key { KeyIsNamed }
    ensures written { OtherIsWritten }
    ensures value { ValueIsWritten }
    ensures pair { PairIsAdded }
    ensures text_pair { TextPairIsAdded }
    ensures taken { PairIsTaken }
    ensures frozen { ObjectIsFrozen }
    ensures made { ObjectIsMade }
    ensures arrive { ObjectsArrive }
    ensures forwarded { ObjectIsForwarded }
    ensures emptied { ObjectIsEmptied }
    ensures put_back { ObjectIsPutBack }
    ensures copied { CopiesAreNamed }
{}
