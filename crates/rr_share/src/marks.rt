//! Marks on the objects that lead to one that is not frozen or is a shell.

ghost use Rattle.std.specs.Prelude.{◌≡◌, ◌↔◌, ◌≤◌, ℕ, nat_eq, slice_get, Some, Contains, IfOk, IfErr, OnOk};
ghost use Rattle.std.specs.List.{IsDistinct};
ghost use Rattle.rr_space.specs.Laws.{Marked};
ghost use Rattle.rr_space.specs.Tables.{space_graph};
ghost use Rattle.rr_share.specs.Search.{Adds, IsSolidAt, LeadsOn};
ghost use Rattle.rr_share.specs.Marks.{Closed, Sourced};

use crate::sharing::is_solid;
use crate::sources::Sources;
use rr_base::Fault;
use rr_space::{SlotSet, Space};
use std::alloc::Global;

/// The slots found that lead to an object that is not frozen or is a shell. Marks spread from such objects to their
/// sources, and on to the sources of those.
pub(crate) fn marked(
    alloc: Global,
    space: &Space,
    found: &SlotSet,
    sources: &Sources,
) -> Result<SlotSet, Fault>
    requires closed { Closed space.now found.now }
    requires sourced { Sourced found.now (λ n m. Contains found.now n × LeadsOn (space_graph space.now) n m) sources.now }
    ensures exact { IfOk result (λ marked. Marked (space_graph space.now) found.now marked) }
    ensures fault { IfErr result (λ e. e ≡ Fault.Memory) }
{
    // With the number of slots comes that no reference in them leads nowhere.
    let _slots = space.len();
    let mut marked = unsolid(alloc, space, found)?;
    let mut cursor = 0;
    while cursor < marked.len() {
        let place = found.place_of(marked.at(cursor));
        sources.add_to(place, &mut marked)?;
        cursor += 1;
    }
    Ok(marked)
}

/// The slots whose object is not frozen or is a shell.
fn unsolid(alloc: Global, space: &Space, found: &SlotSet) -> Result<SlotSet, Fault>
    requires { Closed space.now found.now }
    ensures exact { IfOk result (λ unsolid. (n : ℕ) → Contains unsolid n ↔ (Contains found.now n × (IsSolidAt space.now.slots n → ⊥))) }
    ensures fault { IfErr result (λ e. e ≡ Fault.Memory) }
{
    let mut unsolid = SlotSet::new(alloc);
    for place in 0..found.len() {
        let slot = found.at(place);
        if !is_solid(space, slot) {
            unsolid.add(slot)?;
        }
    }
    Ok(unsolid)
}

/// The slots that are found and not marked.
pub(crate) fn unmarked(
    alloc: Global,
    found: &SlotSet,
    mut marked: SlotSet,
) -> Result<SlotSet, Fault>
    ensures exact { IfOk result (λ rest. (n : ℕ) → Contains rest n ↔ (Contains found.now n × (Contains marked n → ⊥))) }
    ensures fault { IfErr result (λ e. e ≡ Fault.Memory) }
{
    let count = marked.len();
    add_set(found, &mut marked)?;
    // What was not marked stands behind what was.
    slots_from(alloc, &marked, count)
}

/// Adds the slots of a set to another.
fn add_set(more: &SlotSet, set: &mut SlotSet) -> Result<(), Fault>
    ensures added { OnOk result (Adds (Contains more.now) set.old set.new) }
    ensures fault { IfErr result (λ e. e ≡ Fault.Memory) }
{
    for place in 0..more.len() {
        set.add(more.at(place))?;
    }
    Ok(())
}

/// The slots of a set from a place on.
fn slots_from(alloc: Global, set: &SlotSet, start: usize) -> Result<SlotSet, Fault>
    ensures exact { IfOk result (λ rest. (n : ℕ) → Contains rest n ↔ ((i : ℕ) × (start ≤ i) × (slice_get set.now i ≡ Some n))) }
    ensures distinct { IsDistinct nat_eq set.now }
    ensures fault { IfErr result (λ e. e ≡ Fault.Memory) }
{
    let mut rest = SlotSet::new(alloc);
    for place in start..set.len() {
        rest.add(set.at(place))?;
    }
    Ok(rest)
}
