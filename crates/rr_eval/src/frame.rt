//! What the machine has still to do.

ghost use Rattle.std.specs.Prelude.{◌≡◌, ◌≤◌, ℕ, length, take, drop};
ghost use Rattle.std.specs.List.{All};
ghost use Rattle.rr_eval.specs.Frames.{base_of, stand_of, below_of};
ghost use Rattle.rr_eval.specs.Within.{Reach, IsReached};

use crate::asking::Asking;
use crate::call::{Callee, Passing, Target};
use crate::call_stack::{CallValue, Variable};
use crate::iterating::Iterating;
use crate::problem::{Answer, Problem};
use crate::spot::{Aiming, Assigning, Spot};
use crate::updating::{Combining, Place, Updating};
use rr_base::{ClassId, Sym};
use rr_space::Ref;
use rr_tree::{BinaryOperator, NodeId};

/// A class of a clause that is tried on an exception, and what is tried behind it.
#[derive(Clone, Copy)]
pub struct Trial {
    pub exception: Ref,
    /// The number behind the last class of the clause.
    pub last: NodeId,
    /// How many classes of the clause stand behind this one.
    pub classes: u32,
    /// The number behind the last clause.
    pub end: NodeId,
    /// How many clauses stand behind this one.
    pub clauses: u32,
}

/// A new object of a class, which gets the program's `initialize`.
#[derive(Clone, Copy)]
pub struct Making {
    pub class: ClassId,
    /// The node of the block that stands beside the call.
    pub block: Option<NodeId>,
    /// Which of the values that stand for it are the arguments.
    pub passing: Passing,
    /// Where these values begin.
    pub base: usize,
    /// Whether the object, an exception, is raised then.
    pub raises: bool,
}

/// What waits for the answer of a part.
#[derive(Clone, Copy)]
pub enum Frame {
    /// `!`.
    Not,
    /// Unary minus.
    Negation,
    /// `&&`, with its right operand still to be evaluated.
    And(NodeId),
    /// `||`, with its right operand still to be evaluated.
    Or(NodeId),
    /// An operator, with its right operand still to be evaluated.
    Left(BinaryOperator, NodeId),
    /// An operator, with the value of its left operand.
    Right(BinaryOperator, Ref),
    /// An assignment, with its variable.
    Store(Variable),
    /// An assignment to an instance variable of `self`, with its name.
    SetField(Sym),
    /// The parts for true and for false.
    Branch(NodeId, NodeId),
    /// The condition of a loop: whether the loop goes on until it holds, the body, and the loop itself.
    Condition(bool, NodeId, NodeId),
    /// The body of a loop, and the loop itself.
    Body(NodeId),
    /// `break`.
    Break,
    /// `next`.
    Next,
    /// `return`.
    Return,
    /// The body of a method, whose variables go with it, and what the value of the call is.
    Back(CallValue),
    /// A block that a `yield` calls, whose variables go with it.
    Past,
    /// Statements: the number behind the last one, and how many are still to be evaluated.
    Rest(NodeId, u32),
    /// Values for a target: the number behind the last part, how many parts are still to be evaluated, and where the values
    /// of the others begin.
    Argument(Target, NodeId, u32, usize),
    /// The receiver of a call, and no splat: what `Argument` has, of the arguments.
    Receiver(Target, NodeId, u32, usize),
    /// A part of a list in which splats may stand: what `Argument` has, where the part is the one before those that are still to be
    /// evaluated.
    Item(Target, NodeId, u32, usize),
    /// A part of a target of an assignment to several, which is its receiver or its index.
    Aim(Aiming),
    /// The right side of an assignment to several targets: the number behind the last target, how many there are, and where the values of
    /// their parts begin.
    Several(NodeId, u32, usize),
    /// An assignment to one of several targets, and the targets that are left.
    Assigned(Assigning),
    /// The key of a pair of a new hash: its value, which is evaluated next, the number behind the last pair, how many pairs
    /// are still to be evaluated behind this one, and where the keys and values so far begin.
    Key(NodeId, NodeId, u32, usize),
    /// The value of a pair of a new hash: the number behind the last pair, how many pairs are still to be evaluated, and
    /// where the keys and values so far begin.
    Value(NodeId, u32, usize),
    /// The method by which a value is asked that is printed, whose variables go with it.
    Asking(Asking),
    /// Values that are asked, the last one seen of which gets the answer.
    Asked(Asking),
    /// The receiver of an assignment to an element: the index, and the number behind the value that is assigned.
    Element(NodeId, NodeId),
    /// What an assignment reads, over the values that stand for what is assigned to.
    Read(Updating),
    /// The right side of an assignment with an operator, over the same values.
    Combine(Combining),
    /// What is assigned, and where the values begin that stand for what is assigned to.
    Put(Place, usize),
    /// Statements that clauses rescue: the number behind the last clause, how many there are, and what follows where
    /// nothing is raised.
    Rescue(NodeId, u32, NodeId),
    /// A class of a clause that is tried on an exception.
    Class(Trial),
    /// The statements of a clause, with the exception that was being rescued before.
    Handling(Ref),
    /// Statements, with those that always follow.
    Ensure(NodeId),
    /// Statements that always follow, with what those before came to.
    Kept(Answer),
    /// A turn of an iteration, whose variables go with it.
    Round(Iterating),
    /// An iteration whose turn ends with the answer.
    Turned(Iterating),
    /// An iteration that begins a turn with an array that is made for it.
    Paired(Iterating),
    /// A new object, which is then initialized.
    Initialize(Making),
}

/// What comes next.
#[derive(Clone, Copy)]
pub enum Control {
    Enter(NodeId),
    /// An operator and its operands, which no node has in this place.
    Operate(BinaryOperator, NodeId, NodeId),
    Give(Answer),
    /// An exception that is made and raised, its message first.
    Throw(Problem),
    /// An exception of a class, with the message that was made for it, which is made and raised.
    Raise(ClassId, Ref),
    /// `raise` of a value, with a message where one is given.
    RaiseValue(Ref, Option<Ref>),
    /// The start of a ractor with the block of a node, which is isolated first, and what it comes to then.
    Start(NodeId, Problem),
    /// A new object of a class, for which a frame waits, and its cause, where it is an exception.
    New(ClassId, Ref),
    /// A new array of two values, for which a frame waits.
    Pair(Ref, Ref),
    /// A call of a receiver with one argument or none, for whose value a frame waits.
    Send(Callee, Ref, Option<Ref>),
    /// An assignment to one of several targets, for which a frame waits.
    Assign(Spot, Ref),
}

impl Frame {
    /// Lets so many statements be still to be evaluated, where it waits for statements.
    #[inline(always)]
    pub fn count_statements(&mut self, count: u32)
        ensures { (end n : ℕ) → self.old ≡ Frame.Rest end n → self.new ≡ Frame.Rest end count }
    {
        if let Frame::Rest(_, rest) = self {
            *rest = count;
        }
    }
}

impl Control {
    /// Goes on with a part. Where a part came next before, its number alone is written.
    #[inline(always)]
    pub fn enter(&mut self, part: NodeId)
        ensures { self.new ≡ Control.Enter part }
    {
        match self {
            Control::Enter(place) => *place = part,
            _ => *self = Control::Enter(part),
        }
    }

    /// Goes on with a value. Where a value came next before, it alone is written.
    #[inline(always)]
    pub fn give(&mut self, value: Ref)
        ensures { self.new ≡ Control.Give (Answer.Gave value) }
    {
        match self {
            Control::Give(Answer::Gave(place)) => *place = value,
            _ => *self = Control::Give(Answer::Gave(value)),
        }
    }
}

/// The values that stand for a frame.
#[inline(always)]
pub fn standing(held: &Vec<Ref>, frame: Frame) -> &[Ref]
    requires { base_of frame ≤ length held.now.items }
    ensures is { result.now ≡ stand_of frame held.now.items }
    ensures within { (k : Reach) → All (IsReached k) held.now.items → All (IsReached k) result.now }
{
    match frame {
        Frame::Argument(_, _, _, base) => &held[base..],
        Frame::Receiver(_, _, _, base) => &held[base..],
        Frame::Item(_, _, _, base) => &held[base..],
        Frame::Aim(aiming) => &held[aiming.base..],
        Frame::Several(_, _, base) => &held[base..],
        Frame::Assigned(assigning) => &held[assigning.base..],
        Frame::Key(_, _, _, base) => &held[base..],
        Frame::Value(_, _, base) => &held[base..],
        Frame::Asking(asking) => &held[asking.base..],
        Frame::Asked(asking) => &held[asking.base..],
        Frame::Read(updating) => &held[updating.base..],
        Frame::Combine(combining) => &held[combining.base..],
        Frame::Put(_, base) => &held[base..],
        Frame::Round(iteration) => &held[iteration.base..],
        Frame::Turned(iteration) => &held[iteration.base..],
        Frame::Paired(iteration) => &held[iteration.base..],
        Frame::Initialize(making) => &held[making.base..],
        _ => &[],
    }
}

/// Where the values begin that stand for a frame: behind all of them, where none do.
#[inline(always)]
pub fn first_standing(held: &Vec<Ref>, frame: Frame) -> usize
    requires { base_of frame ≤ length held.now.items }
    ensures inside { result ≤ length held.now.items }
    ensures stand { drop result held.now.items ≡ stand_of frame held.now.items }
    ensures below { take result held.now.items ≡ below_of frame held.now.items }
{
    match frame {
        Frame::Argument(_, _, _, base) => base,
        Frame::Receiver(_, _, _, base) => base,
        Frame::Item(_, _, _, base) => base,
        Frame::Aim(aiming) => aiming.base,
        Frame::Several(_, _, base) => base,
        Frame::Assigned(assigning) => assigning.base,
        Frame::Key(_, _, _, base) => base,
        Frame::Value(_, _, base) => base,
        Frame::Asking(asking) => asking.base,
        Frame::Asked(asking) => asking.base,
        Frame::Read(updating) => updating.base,
        Frame::Combine(combining) => combining.base,
        Frame::Put(_, base) => base,
        Frame::Round(iteration) => iteration.base,
        Frame::Turned(iteration) => iteration.base,
        Frame::Paired(iteration) => iteration.base,
        Frame::Initialize(making) => making.base,
        _ => held.len(),
    }
}

/// Takes away the values that stand for a frame.
#[inline(always)]
pub fn clear(held: &mut Vec<Ref>, frame: Frame)
    ensures { held.new.items ≡ below_of frame held.old.items }
{
    match frame {
        Frame::Argument(_, _, _, base) => held.truncate(base),
        Frame::Receiver(_, _, _, base) => held.truncate(base),
        Frame::Item(_, _, _, base) => held.truncate(base),
        Frame::Aim(aiming) => held.truncate(aiming.base),
        Frame::Several(_, _, base) => held.truncate(base),
        Frame::Assigned(assigning) => held.truncate(assigning.base),
        Frame::Key(_, _, _, base) => held.truncate(base),
        Frame::Value(_, _, base) => held.truncate(base),
        Frame::Asking(asking) => held.truncate(asking.base),
        Frame::Asked(asking) => held.truncate(asking.base),
        Frame::Read(updating) => held.truncate(updating.base),
        Frame::Combine(combining) => held.truncate(combining.base),
        Frame::Put(_, base) => held.truncate(base),
        Frame::Round(iteration) => held.truncate(iteration.base),
        Frame::Turned(iteration) => held.truncate(iteration.base),
        Frame::Paired(iteration) => held.truncate(iteration.base),
        Frame::Initialize(making) => held.truncate(making.base),
        _ => (),
    }
}
