//! Packing a copy of a value into a message.

ghost use Rattle.std.specs.Prelude.{◌≡◌, ◌≤◌, ◌<◌, ◌^◌, ◌⊎◌, ◌++◌, ◌↔◌, ℕ, List, length, slice_get, Some, Contains, IsTrue, IfOk, IfErr};
ghost use Rattle.std.specs.List.{AllZip};
ghost use Rattle.rr_space.specs.Graph.{Object, At, Own, Label, shell, IsFreeOfShells};
ghost use Rattle.rr_space.specs.Moves.{IsCopy, IsPromoted};
ghost use Rattle.rr_space.specs.Parts.{value_of, below_ref};
ghost use Rattle.rr_space.specs.Tables.{Here, joined, space_graph, resolve, resolve_object};
ghost use Rattle.rr_space.specs.Parts.{IsWithin};
ghost use Rattle.rr_share.specs.Plans.{IsFound};
ghost use Rattle.rr_share.specs.Search.{LeadsToShell};
ghost use Rattle.rr_copy.specs.Contents.{IsCarriedFrom};

use crate::message::Message;
use rr_base::Fault;
use rr_share::{reached_objects, shareable_objects};
use rr_space::{Carried, Ref, SlotSet, Space};
use std::alloc::Global;

// The sequence number of a message that is a copy.
const OF_A_COPY: u64 = 0;

/// Whether the value may be packed: each shareable object of this space that it leads to is published. `Memory` is the
/// only fault. A value that is no object of the space takes no memory.
pub fn can_pack(alloc: Global, space: &Space, value: Ref) -> Result<bool, Fault>
    ensures promoted { IfOk result (λ yes. IsTrue yes ↔ IsPromoted space.now (value_of value)) }
    ensures fault { IfErr result (λ fault. fault ≡ Fault.Memory) }
    ensures grows { IfErr result (λ fault. (s : ℕ) × (value ≡ Ref.Local s)) }
{
    // With the number of slots comes that no reference in them leads nowhere.
    let _slots = space.len();
    let Ref::Local(_) = value else {
        return Ok(true);
    };
    let shareable = shareable_objects(alloc, space, value)?;
    Ok(shareable.is_empty())
}

// Copies of the objects in these slots, in their order.
fn copies_of(alloc: Global, space: &Space, names: &SlotSet) -> Result<Vec<Carried>, Fault>
    requires whole { (n : ℕ) → Contains names.now n → (o : Object) × (slice_get space.now.slots n ≡ Some (Here o)) × (o.kind ≡ shell → ⊥) }
    requires closed { (n m : ℕ) (o : Object) (l : Label) → Contains names.now n → slice_get space.now.slots n ≡ Some (Here o) → Contains (resolve_object space.now.slots o).triples (l, At (Own m)) → Contains names.now m }
    requires few { length names.now ≤ 2 ^ 32 }
    ensures copies { IfOk result (λ copies. AllZip (IsCarriedFrom space.now names.now) names.now copies.items) }
    ensures fault { IfErr result (λ fault. fault ≡ Fault.Memory) }
{
    let mut copies = Vec::new(alloc);
    copies.reserve_exact(names.len())?;
    for place in 0..names.len() {
        let copy = space.copy_object(alloc, names.at(place), names)?;
        copies.push(copy)?;
    }
    Ok(copies)
}

/// A copy of what `value` leads to, as a message of the space's ractor. `can_pack` tells whether it may be packed. The space
/// stays as it is.
///
/// Published objects are not copied: the message refers to them. One object that is led to twice is copied once. The
/// faults are `HoldsShell`, where the value leads to an object that was moved away, and `Memory`. A value that is no object
/// of the space is not searched, and takes no memory.
#[inline(always)]
pub fn pack_copy(alloc: Global, space: &Space, value: Ref) -> Result<Message, Fault>
    requires promoted { IsPromoted space.now (value_of value) }
    requires within { IsWithin (length space.now.slots) value }
    ensures copy { IfOk result (λ message. (names : List ℕ) × IsCopy space.now (value_of value) names message) }
    ensures sender { IfOk result (λ message. message.sender ≡ space.now.owner) }
    ensures sequence { IfOk result (λ message. message.sequence ≡ 0) }
    ensures below { IfOk result (λ message. (e : ℕ × List Object) → Contains (message.root_below ++ joined message.below) e → Contains (joined space.now.below ++ below_ref value) e) }
    ensures free { IfOk result (λ _. IsFreeOfShells (space_graph space.now) (resolve space.now.slots (value_of value))) }
    ensures fault { IfErr result (λ fault. (fault ≡ Fault.Memory) ⊎ ((fault ≡ Fault.HoldsShell) × LeadsToShell (space_graph space.now) (resolve space.now.slots (value_of value)))) }
    ensures grows { IfErr result (λ fault. (s : ℕ) × (value ≡ Ref.Local s)) }
{
    // With the number of slots comes that no reference in them leads nowhere.
    let _slots = space.len();
    let Ref::Local(_) = value else {
        return Ok(Message {
            objects: Vec::new(alloc),
            root: value,
            sender: space.owner(),
            sequence: OF_A_COPY,
        });
    };
    let names = reached_objects(alloc, space, value)?;
    let message = pack_found(alloc, space, value, &names)?;
    Ok(message)
}

/// As `pack_copy`, without a search: `found` is what `rr_share::prepare` found for the value, and the objects are still as
/// they were then. `Memory` is the only fault.
pub fn pack_found(
    alloc: Global,
    space: &Space,
    value: Ref,
    found: &SlotSet,
) -> Result<Message, Fault>
    requires found { IsFound space.now (value_of value) found.now }
    requires within { IsWithin (length space.now.slots) value }
    ensures copy { IfOk result (λ message. IsCopy space.now (value_of value) found.now message) }
    ensures sender { IfOk result (λ message. message.sender ≡ space.now.owner) }
    ensures sequence { IfOk result (λ message. message.sequence ≡ 0) }
    ensures below { IfOk result (λ message. (e : ℕ × List Object) → Contains (message.root_below ++ joined message.below) e → Contains (joined space.now.below ++ below_ref value) e) }
    ensures fault { IfErr result (λ fault. fault ≡ Fault.Memory) }
{
    // No slot has two names, so there are no more names than slots, and no more slots than 32 bits count.
    let _slots = space.len();
    let _limit = space.limit();
    let _places = found.len();
    let sender = space.owner();
    let objects = copies_of(alloc, space, found)?;
    Ok(Message {
        objects,
        root: space.carried(value, found),
        sender,
        sequence: OF_A_COPY,
    })
}
