//! Taking a value out of a space.

ghost use Rattle.std.specs.Prelude.{◌≡◌, ◌+◌, ◌-◌, ◌^◌, ◌<◌, ◌≤◌, ◌⊎◌, ◌++◌, ℕ, List, [], length, slice_get, vec_capacity, Some, Contains, IfOk, IfErr};
ghost use Rattle.std.specs.List.{AllZip};
ghost use Rattle.rr_space.specs.Graph.{At, Label, Object, Own, shell, IsFreeOfShells};
ghost use Rattle.rr_space.specs.Moves.{IsCopy, IsEmptied, IsPromoted};
ghost use Rattle.rr_space.specs.Parts.{value_of, below_ref};
ghost use Rattle.rr_space.specs.Tables.{Here, IsRestKept, joined, resolve, resolve_object, space_graph};
ghost use Rattle.rr_space.specs.Parts.{IsWithin};
ghost use Rattle.rr_share.specs.Plans.{IsFound};
ghost use Rattle.rr_share.specs.Search.{LeadsToShell};
ghost use Rattle.rr_copy.specs.Contents.{IsCarriedFrom};

use crate::home::{Detached, Home};
use rr_base::{Fault, LimitKind};
use rr_copy::{Message, MessageParts};
use rr_share::reached_objects;
use rr_space::{Carried, Ref, SlotSet, Space};
use std::alloc::Global;

// Takes the objects out of these slots, in their order.
fn take_all(space: &mut Space, slots: &SlotSet, objects: &mut Vec<Carried>)
    requires whole { (n : ℕ) → Contains slots.now n → (o : Object) × (slice_get space.old.slots n ≡ Some (Here o)) × (o.kind ≡ shell → ⊥) }
    requires closed { (n m : ℕ) (o : Object) (l : Label) → Contains slots.now n → slice_get space.old.slots n ≡ Some (Here o) → Contains (resolve_object space.old.slots o).triples (l, At (Own m)) → Contains slots.now m }
    requires few { length slots.now ≤ 2 ^ 32 }
    requires none { objects.old.items ≡ [] }
    requires room { length slots.now ≤ vec_capacity objects.old }
    ensures taken { AllZip (IsCarriedFrom space.old slots.now) slots.now objects.new.items }
    ensures emptied { IsEmptied slots.now space.old space.new }
    ensures rest { IsRestKept space.old space.new }
{
    // With the number of slots comes that there are as many lists of clusters and of keys.
    let _slots = space.len();
    for place in 0..slots.len() {
        let object = space.take_object(slots.at(place), slots);
        objects.push_reserved(object);
    }
}

/// Takes what `value` leads to out of the space, as a message of the space's ractor with its home: the slots of the objects
/// are shells then, under their old names, and nothing else changes. `can_pack` tells whether the value may be moved.
///
/// Published objects are not moved: the message refers to them. No text, array or hash is copied. The faults leave the
/// space as it was: `HoldsShell`, where the value leads to an object that was moved away; `Limit(Slots)`, where the space
/// has used all 64 bits of its messages' numbers; and `Memory`.
pub fn detach(alloc: Global, space: &mut Space, value: Ref) -> Result<Detached, Fault>
    requires promoted { IsPromoted space.old (value_of value) }
    requires within { IsWithin (length space.old.slots) value }
    ensures copy { IfOk result (λ d. IsCopy space.old (value_of value) d.home.slots d.message) }
    ensures emptied { IfOk result (λ d. IsEmptied d.home.slots space.old space.new) }
    ensures sender { IfOk result (λ d. d.message.sender ≡ space.old.owner) }
    ensures sequence { IfOk result (λ d. d.message.sequence ≡ space.old.next_message) }
    ensures next { IfOk result (λ d. space.new.next_message ≡ space.old.next_message + 1) }
    ensures below { IfOk result (λ d. (e : ℕ × List Object) → Contains (d.message.root_below ++ joined d.message.below) e → Contains (joined space.old.below ++ below_ref value) e) }
    ensures free { IfOk result (λ _. IsFreeOfShells (space_graph space.old) (resolve space.old.slots (value_of value))) }
    ensures kept { IfErr result (λ _. space.new ≡ space.old) }
    ensures fault { IfErr result (λ fault. (fault ≡ Fault.Memory) ⊎ ((fault ≡ Fault.Limit LimitKind.Slots) × (2 ^ 64 - 1 ≤ space.old.next_message))
        ⊎ ((fault ≡ Fault.HoldsShell) × LeadsToShell (space_graph space.old) (resolve space.old.slots (value_of value)))) }
{
    let found = reached_objects(alloc, space, value)?;
    let detached = detach_found(alloc, space, value, found)?;
    Ok(detached)
}

/// As `detach`, without a search: `found` is what `rr_share::prepare` found for the value, and the objects are still as they
/// were then. The faults leave the space as it was: `Limit(Slots)` and `Memory`, as for `detach`.
pub fn detach_found(
    alloc: Global,
    space: &mut Space,
    value: Ref,
    found: SlotSet,
) -> Result<Detached, Fault>
    requires found { IsFound space.old (value_of value) found }
    requires within { IsWithin (length space.old.slots) value }
    ensures slots { IfOk result (λ d. d.home.slots ≡ found) }
    ensures copy { IfOk result (λ d. IsCopy space.old (value_of value) d.home.slots d.message) }
    ensures emptied { IfOk result (λ d. IsEmptied d.home.slots space.old space.new) }
    ensures sender { IfOk result (λ d. d.message.sender ≡ space.old.owner) }
    ensures sequence { IfOk result (λ d. d.message.sequence ≡ space.old.next_message) }
    ensures next { IfOk result (λ d. space.new.next_message ≡ space.old.next_message + 1) }
    ensures below { IfOk result (λ d. (e : ℕ × List Object) → Contains (d.message.root_below ++ joined d.message.below) e → Contains (joined space.old.below ++ below_ref value) e) }
    ensures kept { IfErr result (λ _. space.new ≡ space.old) }
    ensures fault { IfErr result (λ fault. (fault ≡ Fault.Memory) ⊎ ((fault ≡ Fault.Limit LimitKind.Slots) × (2 ^ 64 - 1 ≤ space.old.next_message))) }
{
    // No slot has two names, so there are no more names than slots, and no more slots than 32 bits count.
    let _slots = space.len();
    if space.next_message() == u64::MAX {
        return Err(Fault::Limit(LimitKind::Slots));
    }
    let mut objects = Vec::new(alloc);
    objects.reserve_exact(found.len())?;
    let root = space.carried(value, &found);
    take_all(space, &found, &mut objects);
    let sender = space.owner();
    let sequence = space.number_message();
    let message = Message::from_parts(MessageParts {
        objects,
        root,
        sender,
        sequence,
    });
    let home = Home {
        slots: found,
        sender,
        sequence,
    };
    Ok(Detached { home, message })
}
