//! A ractor: its space, the values that it holds, and its hand.

ghost use Rattle.std.specs.Prelude.{◌≡◌, ◌<◌, ◌≤◌, ◌↔◌, ◌⊎◌, ◌++◌, ◌∷◌, ℕ, [], true, IsTrue, Some, None};
ghost use Rattle.std.specs.Prelude.{length, IfSome, IfNone, IfOk, IfErr};
ghost use Rattle.std.specs.Option.{ForSome};
ghost use Rattle.std.specs.Bool.{OnTrue, OnFalse};
ghost use Rattle.rr_space.specs.Parts.{IsWithin};
ghost use Rattle.rr_space.specs.Tables.{Here, IsRestKept};
ghost use Rattle.rr_space.specs.Views.{AreFieldsDistinct, IsNodeWithin, below_node, node_keys, object_of};
ghost use Rattle.rr_world.specs.Allocating.{Allocs};
ghost use Rattle.rr_world.specs.ObjectCases.{new_object};
ghost use Rattle.rr_world.specs.Opening.{Opened};
ghost use Rattle.rr_world.specs.Packing.{Packs, named_ref};
ghost use Rattle.rr_world.specs.Views.{AreAway, HasToDrop, IsFree, IsOfAnother, MayHaveBack, waits_under};
ghost use Rattle.rr_world.specs.Getting.{IsOwnRef, IsPublicRef, Joins};
ghost use Rattle.rr_world.specs.Starting.{IsOver};
ghost use Rattle.rr_space.specs.declared.refer.Ref.{Ref};
ghost use Rattle.rr_move.specs.Homes.{IsHomeOf};
ghost use Rattle.rr_world.specs.declared.step.NewObject.TheVariants.{Exception};

use crate::outcome::Outcome;
use crate::packing::copy_of;
use crate::step::{NewObject, Operand};
use rr_base::{ClassId, Fault, LimitKind, Limits, RactorNo, Ticket};
use rr_copy::{Message, open};
use rr_move::{Hand, Home};
use rr_space::{Entries, Items, Node, Raised, Ref, Space};
use std::alloc::Global;
use std::marker::Model;

/// The objects of a ractor, its roots, what is in its hand, and the limits of the run.
#[derive(Drop)]
pub(crate) struct Ractor {
    pub(crate) space: Space,
    pub(crate) roots: Vec<Ref>,
    pub(crate) hand: Hand,
    limits: Limits,
    runs: bool,
}

impl Model for Ractor {
    ghost use Rattle.std.specs.Prelude.{◌≤◌, length};
    ghost use Rattle.rr_move.specs.Hands.{message_in, home_in};
    ghost use Rattle.rr_world.specs.Views.{Member, AreAway, AreRootsWithin, IsHandFit, plan_in, published_in, ticket_in};

    ghost Value = { Member };

    ghost view = { λ r. record { space = r.space; roots = r.roots.items; hand = message_in r.hand; home = home_in r.hand; ticket = ticket_in r.hand; plan = plan_in r.hand; published = published_in r.hand; limits = r.limits; runs = r.runs } };

    ghost invariant = { λ r. AreRootsWithin (length r.space.slots) r.roots.items × (3 ≤ r.limits.events) × IsHandFit r.space r.hand × AreAway r.space.slots (message_in r.hand) (home_in r.hand) };
}

// An exception without message, cause, ractor and fields. `Memory` is the only fault.
fn bare_exception(alloc: Global, class: ClassId) -> Result<Node, Fault>
    ensures object { IfOk result (λ node. object_of node ≡ new_object (Exception class)) }
    ensures below { IfOk result (λ node. below_node node ≡ []) }
    ensures keys { IfOk result (λ node. node_keys node ≡ []) }
    ensures within { (k : ℕ) → IfOk result (λ node. IsNodeWithin k node) }
    ensures fields { IfOk result AreFieldsDistinct }
    ensures fault { IfErr result (λ fault. fault ≡ Fault.Memory) }
{
    let raised = Raised {
        message: Ref::Nil,
        cause: Ref::Nil,
        ractor: Ref::Nil,
        fields: Vec::new(alloc),
    };
    Ok(Node::Exception(class, Box::new(alloc, raised)?))
}

// What a new object is made of. `Memory` is the only fault.
fn empty_node(alloc: Global, new: NewObject) -> Result<Node, Fault>
    ensures object { IfOk result (λ node. object_of node ≡ new_object new) }
    ensures below { IfOk result (λ node. below_node node ≡ []) }
    ensures keys { IfOk result (λ node. node_keys node ≡ []) }
    ensures within { (k : ℕ) → IfOk result (λ node. IsNodeWithin k node) }
    ensures fields { IfOk result AreFieldsDistinct }
    ensures fault { IfErr result (λ fault. fault ≡ Fault.Memory) }
{
    match new {
        NewObject::Text => Ok(Node::Text(Vec::new(alloc))),
        NewObject::Array => Ok(Node::Array(Items::new(alloc))),
        NewObject::Hash => {
            let entries = Box::new(alloc, Entries::new(alloc))?;
            Ok(Node::Hash(entries))
        }
        NewObject::Object(class) => Ok(Node::Object(class, Vec::new(alloc))),
        NewObject::Exception(class) => bare_exception(alloc, class),
    }
}

// A new object in a space.
//
// The faults leave the space as it was: `Limit(Slots)`, where it is full, and `Memory`.
fn alloc_empty(alloc: Global, space: &mut Space, new: NewObject) -> Result<Ref, Fault>
    ensures name { IfOk result (λ root. root ≡ Ref.Local (length space.old.slots)) }
    ensures slots { IfOk result (λ _. space.new.slots ≡ space.old.slots ++ Here (new_object new) ∷ []) }
    ensures below { IfOk result (λ _. space.new.below ≡ space.old.below ++ [] ∷ []) }
    ensures keys { IfOk result (λ _. space.new.keys ≡ space.old.keys ++ [] ∷ []) }
    ensures even { length space.old.keys ≡ length space.old.slots }
    ensures rest { IsRestKept space.old space.new }
    ensures room { IfOk result (λ _. length space.old.slots < space.old.limit) }
    ensures refused { IfErr result (λ _. space.new ≡ space.old) }
    ensures fault { IfErr result (λ fault. (fault ≡ Fault.Memory) ⊎ ((fault ≡ Fault.Limit LimitKind.Slots) × (length space.old.slots ≡ space.old.limit))) }
{
    // With the number of slots comes that there are no more than there may be, and that each has its list of keys.
    let _slots = space.len();
    let node = empty_node(alloc, new)?;
    space.alloc(node)
}

/// Puts something else into a hand. What was in it goes.
pub(crate) fn put_into(hand: &mut Hand, held: Hand)
    ensures { hand.new ≡ held }
{
    *hand = held;
}

impl Ractor {
    /// A ractor without objects, under the limits of the run. Takes no memory.
    pub(crate) fn new(alloc: Global, number: RactorNo, limits: Limits) -> Ractor
        requires { 3 ≤ limits.events }
        ensures slots { result.space.slots ≡ [] }
        ensures below { result.space.below ≡ [] }
        ensures limit { result.space.limit ≡ limits.slots }
        ensures owner { result.space.owner ≡ number.0 }
        ensures next { result.space.next_message ≡ 1 }
        ensures roots { result.roots ≡ [] }
        ensures hand { result.hand ≡ None }
        ensures home { result.home ≡ None }
        ensures ticket { result.ticket ≡ None }
        ensures plan { result.plan ≡ None }
        ensures published { result.published ≡ None }
        ensures limits { result.limits ≡ limits }
        ensures runs { result.runs ≡ true }
    {
        Ractor {
            space: Space::new(alloc, number, limits.slots),
            roots: Vec::new(alloc),
            hand: Hand::Empty,
            limits,
            runs: true,
        }
    }

    /// The limits of the run.
    pub(crate) fn limits(&self) -> Limits
        ensures is { result ≡ self.now.limits }
        ensures events { 3 ≤ result.events }
    {
        self.limits
    }

    /// Whether it has not ended.
    pub(crate) fn runs(&self) -> bool
        ensures { result ≡ self.now.runs }
    {
        self.runs
    }

    /// Ends it: its objects, its roots and what is in its hand go. Takes no memory.
    pub(crate) fn end(&mut self, alloc: Global, number: RactorNo)
        ensures { IsOver self.old.limits number.0 self.new }
    {
        self.space = Space::new(alloc, number, self.limits.slots);
        self.roots = Vec::new(alloc);
        put_into(&mut self.hand, Hand::Empty);
        self.runs = false;
    }

    /// Whether nothing is in the hand.
    pub(crate) fn is_free(&self) -> bool
        ensures { IsTrue result ↔ IsFree self.now }
    {
        self.hand.is_empty()
    }

    /// Takes the message out of the hand, with its home where it was moved.
    pub(crate) fn take(&mut self) -> Option<(Message, Option<Home>)>
        ensures some { IfSome result (λ taken. (self.old.hand ≡ Some taken.0) × (self.old.home ≡ taken.1) × (self.new ≡ record self.old { hand = None; home = None })) }
        ensures shells { IfSome result (λ taken. AreAway self.old.space.slots None taken.1) }
        ensures alone { IfSome result (λ _. self.old.ticket ≡ None) }
        ensures planless { IfSome result (λ _. (self.old.plan ≡ None) × (self.old.published ≡ None)) }
        ensures fits { IfSome result (λ taken. ForSome taken.1 (λ home. IsHomeOf home taken.0) × AreAway self.old.space.slots (Some taken.0) taken.1) }
        ensures none { IfNone result ((self.old.hand ≡ None) × (self.new ≡ self.old)) }
    {
        self.hand.take_message()
    }

    /// Drops a plan, or the message with its home, and answers whether there was one in the hand.
    pub(crate) fn clear(&mut self) -> bool
        ensures gone { OnTrue result (HasToDrop self.old × (self.new ≡ record self.old { hand = None; home = None; plan = None })) }
        ensures kept { OnFalse result ((self.old.hand ≡ None) × (self.old.plan ≡ None) × (self.new ≡ self.old)) }
    {
        self.hand.clear()
    }

    /// Puts a message into the hand, with its home where it was moved.
    pub(crate) fn hold(&mut self, message: Message, home: Option<Home>)
        requires fits { ForSome home (λ home. IsHomeOf home message) }
        requires away { AreAway self.old.space.slots (Some message) home }
        ensures { self.new ≡ record self.old { hand = Some message; home = home; ticket = None; plan = None; published = None } }
    {
        put_into(&mut self.hand, Hand::of_message(message, home));
    }

    /// Keeps the home of a message that is shown under the ticket. Without a home the hand is empty.
    pub(crate) fn wait(&mut self, home: Option<Home>, ticket: Ticket)
        requires shells { AreAway self.old.space.slots None home }
        ensures { self.new ≡ record self.old { hand = None; home = home; ticket = waits_under home ticket; plan = None; published = None } }
    {
        put_into(&mut self.hand, Hand::of_home(home, ticket));
    }

    /// Whether what is shown under the ticket may come into the hand: nothing is in it but the home of that message.
    pub(crate) fn can_take_back(&self, ticket: Ticket) -> bool
        ensures { IsTrue result ↔ MayHaveBack self.now ticket }
    {
        self.hand.can_withdraw(ticket)
    }

    /// Takes back the message that was shown under the ticket, with its home where that is in the hand. A home that is not
    /// the message's goes.
    pub(crate) fn take_back(&mut self, ticket: Ticket, message: Message)
        requires may { MayHaveBack self.old ticket }
        ensures own { (IsOfAnother self.old ticket message → ⊥) → self.new ≡ record self.old { hand = Some message; ticket = None } }
        ensures strange { IsOfAnother self.old ticket message → self.new ≡ record self.old { hand = Some message; home = None; ticket = None } }
    {
        // With the size comes that each object has its list of clusters.
        let _size = message.size();
        if let Err(message) = self.hand.take_back(ticket, message) {
            put_into(&mut self.hand, Hand::Message(message));
        }
    }

    /// Lets go of the home of the message that was shown under the ticket, where that is in the hand.
    pub(crate) fn forget(&mut self, ticket: Ticket)
        ensures waited { self.old.ticket ≡ Some ticket → self.new ≡ record self.old { home = None; ticket = None } }
        ensures kept { (self.old.ticket ≡ Some ticket → ⊥) → self.new ≡ self.old }
    {
        self.hand.forget_home(ticket);
    }

    /// The value that an operand names; none where there is no such root.
    pub(crate) fn named(&self, operand: Operand) -> Option<Ref>
        ensures is { result ≡ named_ref self.now.roots operand }
        ensures within { IfSome result (λ value. IsWithin (length self.now.space.slots) value) }
    {
        match operand {
            Operand::Nil => Some(Ref::Nil),
            Operand::Truth(holds) => Some(Ref::truth(holds)),
            Operand::Int(number) => Some(Ref::Int(number)),
            Operand::Symbol(symbol) => Some(Ref::Symbol(symbol)),
            Operand::Class(class) => Some(Ref::Class(class)),
            Operand::Ractor(ractor) => Some(Ref::Ractor(ractor)),
            Operand::Root(root) => {
                let place = root as usize;
                if place >= self.roots.len() {
                    return None;
                }
                Some(self.roots[place])
            }
        }
    }

    /// The value that an operand names, where every ractor may have it: an immediate, or a published object.
    pub(crate) fn public(&self, operand: Operand) -> Option<Ref>
        ensures some { IfSome result (λ value. IsPublicRef self.now operand value) }
        ensures none { IfNone result ((value : Ref) → named_ref self.now.roots operand ≡ Some value → IsOwnRef self.now value) }
    {
        let Some(named) = self.named(operand) else {
            return None;
        };
        let value = self.space.resolve(named);
        match value {
            Ref::Local(_) => None,
            _ => Some(value),
        }
    }

    /// A value that was got comes last in the roots.
    pub(crate) fn join(&mut self, value: Ref) -> Outcome
        requires { IsWithin (length self.old.space.slots) value }
        ensures { Joins value result self.old self.new }
    {
        if self.roots.reserve(1).is_err() {
            return Outcome::Refused(Fault::Memory);
        }
        self.roots.push_reserved(value);
        Outcome::Done
    }

    /// A new object in the space, which comes last in the roots.
    pub(crate) fn alloc(&mut self, alloc: Global, new: NewObject) -> Outcome
        ensures { Allocs new result self.old self.new }
    {
        if self.roots.reserve(1).is_err() {
            return Outcome::Refused(Fault::Memory);
        }
        match alloc_empty(alloc, &mut self.space, new) {
            Ok(root) => {
                self.roots.push_reserved(root);
                Outcome::Done
            }
            Err(fault) => Outcome::Refused(fault),
        }
    }

    /// Puts a copy of the value into the empty hand.
    pub(crate) fn pack(&mut self, alloc: Global, operand: Operand) -> Outcome
        ensures { Packs operand result self.old self.new }
    {
        if !self.hand.is_empty() {
            return Outcome::NotEnabled;
        }
        let Some(value) = self.named(operand) else {
            return Outcome::NotEnabled;
        };
        match copy_of(alloc, &self.space, value) {
            Ok(Some(message)) => {
                put_into(&mut self.hand, Hand::Message(message));
                Outcome::Done
            }
            Ok(None) => Outcome::NotEnabled,
            Err(fault) => Outcome::Refused(fault),
        }
    }

    /// Opens the message in the hand.
    pub(crate) fn open_held(&mut self) -> Outcome
        ensures { Opened result self.old self.new }
    {
        // With the number of slots comes that each has its list of keys.
        let _before = self.space.len();
        let Some((message, home)) = self.hand.take_message() else {
            return Outcome::NotEnabled;
        };
        if self.roots.reserve(1).is_err() {
            put_into(&mut self.hand, Hand::of_message(message, home));
            return Outcome::Refused(Fault::Memory);
        }
        match open(&mut self.space, message) {
            Ok(root) => {
                self.roots.push_reserved(root);
                // With the number of slots comes that there are no more than there may be.
                let _slots = self.space.len();
                Outcome::Done
            }
            Err((fault, message)) => {
                put_into(&mut self.hand, Hand::of_message(message, home));
                Outcome::Refused(fault)
            }
        }
    }
}
