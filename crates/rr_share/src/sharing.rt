//! Who may be shared between ractors.

ghost use Rattle.std.specs.Prelude.{◌≡◌, ◌↔◌, ℕ, length, slice_get, Some, Contains, IsTrue, IfOk, IfErr};
ghost use Rattle.rr_space.specs.Graph.{Own, At, Object, Reaches, IsShareable};
ghost use Rattle.rr_space.specs.Parts.{value_of};
ghost use Rattle.rr_space.specs.Tables.{Here, IsBelow, space_graph, resolve};
ghost use Rattle.rr_share.specs.Marks.{Closed};
ghost use Rattle.rr_share.specs.Search.{IsSettled, IsSolidAt};

use crate::marks::{marked, unmarked};
use crate::search::{is_shell, reached};
use crate::sources::sources_of;
use rr_base::Fault;
use rr_space::{Ref, SlotSet, Space};
use std::alloc::Global;

/// Whether all objects that `root` leads to are frozen, and none of them is a shell. `Memory` is the only fault. A value
/// that is no object of the space takes no memory.
pub fn is_shareable(alloc: Global, space: &Space, root: Ref) -> Result<bool, Fault>
    ensures exact { IfOk result (λ yes. IsTrue yes ↔ IsShareable (space_graph space.now) (resolve space.now.slots (value_of root))) }
    ensures fault { IfErr result (λ e. e ≡ Fault.Memory) }
    ensures grows { IfErr result (λ e. (s : ℕ) × (root ≡ Ref.Local s)) }
{
    // With the number of slots comes that no reference in them leads nowhere.
    let _slots = space.len();
    let found = reached(alloc, space, root)?;
    Ok(are_solid(space, &found))
}

/// Whether the objects of the slots are frozen and no shells.
fn are_solid(space: &Space, found: &SlotSet) -> bool
    requires { (n : ℕ) → Contains found.now n → IsSettled space.now.slots n }
    ensures { IsTrue result ↔ ((n : ℕ) → Contains found.now n → IsSolidAt space.now.slots n) }
{
    for place in 0..found.len() {
        if !is_solid(space, found.at(place)) {
            return false;
        }
    }
    true
}

/// Whether the object of the slot is frozen and no shell.
pub(crate) fn is_solid(space: &Space, slot: u32) -> bool
    requires { IsSettled space.now.slots slot }
    ensures { IsTrue result ↔ IsSolidAt space.now.slots slot }
{
    !space.can_write(Ref::Local(slot)) && !is_shell(space, slot)
}

/// The slots of the shareable objects that `root` leads to, in the order in which they are met. `Memory` is the only
/// fault. A value that is no object of the space takes no memory.
pub fn shareable_objects(alloc: Global, space: &Space, root: Ref) -> Result<SlotSet, Fault>
    ensures exact { IfOk result (λ found. (n : ℕ) → Contains found n ↔ (Reaches (space_graph space.now) (resolve space.now.slots (value_of root)) (Own n) × IsShareable (space_graph space.now) (At (Own n)))) }
    ensures within { IfOk result (λ found. IsBelow (length space.now.slots) (value_of root) → (n : ℕ) → Contains found n → (o : Object) × (slice_get space.now.slots n ≡ Some (Here o))) }
    ensures fault { IfErr result (λ e. e ≡ Fault.Memory) }
    ensures grows { IfErr result (λ e. (s : ℕ) × (root ≡ Ref.Local s)) }
{
    // With the number of slots comes that no reference in them leads nowhere.
    let _slots = space.len();
    let Ref::Local(_) = root else {
        return Ok(SlotSet::new(alloc));
    };
    let found = reached(alloc, space, root)?;
    shareable_among(alloc, space, &found)
}

/// Whether the object of one of the slots is frozen and no shell.
fn has_solid(space: &Space, found: &SlotSet) -> bool
    requires { (n : ℕ) → Contains found.now n → IsSettled space.now.slots n }
    ensures { IsTrue result ↔ ((n : ℕ) × Contains found.now n × IsSolidAt space.now.slots n) }
{
    for place in 0..found.len() {
        if is_solid(space, found.at(place)) {
            return true;
        }
    }
    false
}

/// The slots found whose object is shareable. A shareable object is frozen, so that there are none where none is.
pub(crate) fn shareable_among(
    alloc: Global,
    space: &Space,
    found: &SlotSet,
) -> Result<SlotSet, Fault>
    requires { Closed space.now found.now }
    ensures exact { IfOk result (λ rest. (n : ℕ) → Contains rest n ↔ (Contains found.now n × IsShareable (space_graph space.now) (At (Own n)))) }
    ensures fault { IfErr result (λ e. e ≡ Fault.Memory) }
{
    if !has_solid(space, found) {
        return Ok(SlotSet::new(alloc));
    }
    let sources = sources_of(alloc, space, found)?;
    let marked = marked(alloc, space, found, &sources)?;
    unmarked(alloc, found, marked)
}
