//! The objects of a space that a value leads to.

ghost use Rattle.std.specs.Prelude.{◌≡◌, ◌↔◌, ◌⊎◌, ℕ, length, slice_get, Some, Contains, IsTrue, IfSome, IfNone, IfOk, IfErr, OnOk};
ghost use Rattle.rr_space.specs.Graph.{Own, At, Object, Reaches, IsFreeOfShells, shell};
ghost use Rattle.rr_space.specs.Parts.{value_of};
ghost use Rattle.rr_space.specs.Tables.{Here, space_graph, resolve, IsBelow};
ghost use Rattle.rr_share.specs.Search.{Adds, IsSettled, LeadsAt, LeadsOn, LeadsToShell, IsShellAt};

use rr_base::Fault;
use rr_space::{Kind, Ref, SlotSet, Space};
use std::alloc::Global;

/// The slots of the objects that `root` leads to, in the order in which they are met. What is published is not entered:
/// it leads to no object of the space.
///
/// `Memory` is the only fault. A value that is no object of the space takes no memory.
pub fn reached(alloc: Global, space: &Space, root: Ref) -> Result<SlotSet, Fault>
    ensures exact { IfOk result (λ found. (n : ℕ) → Contains found n ↔ Reaches (space_graph space.now) (resolve space.now.slots (value_of root)) (Own n)) }
    ensures within { IfOk result (λ found. IsBelow (length space.now.slots) (value_of root) → (n : ℕ) → Contains found n → (o : Object) × (slice_get space.now.slots n ≡ Some (Here o))) }
    ensures settled { IfOk result (λ found. (n : ℕ) → Contains found n → IsSettled space.now.slots n) }
    ensures local { IfOk result (λ found. (n : ℕ) → Contains found n → (s : ℕ) × (root ≡ Ref.Local s)) }
    ensures fault { IfErr result (λ e. e ≡ Fault.Memory) }
    ensures grows { IfErr result (λ e. (s : ℕ) × (root ≡ Ref.Local s)) }
{
    // With the number of slots comes that no reference in them leads nowhere.
    let _slots = space.len();
    let mut found = only_root(alloc, space, root)?;
    let mut cursor = 0;
    while cursor < found.len() {
        let slot = found.at(cursor);
        add_ends(space, slot, &mut found)?;
        cursor += 1;
    }
    Ok(found)
}

/// As `reached`, where `root` leads to no shell.
///
/// Answers `HoldsShell` where it does, and else `Memory` where a growth was refused.
pub fn reached_objects(alloc: Global, space: &Space, root: Ref) -> Result<SlotSet, Fault>
    ensures exact { IfOk result (λ found. (n : ℕ) → Contains found n ↔ Reaches (space_graph space.now) (resolve space.now.slots (value_of root)) (Own n)) }
    ensures within { IfOk result (λ found. IsBelow (length space.now.slots) (value_of root) → (n : ℕ) → Contains found n → (o : Object) × (slice_get space.now.slots n ≡ Some (Here o)) × (o.kind ≡ shell → ⊥)) }
    ensures free { IfOk result (λ _. IsFreeOfShells (space_graph space.now) (resolve space.now.slots (value_of root))) }
    ensures local { IfOk result (λ found. (n : ℕ) → Contains found n → (s : ℕ) × (root ≡ Ref.Local s)) }
    ensures fault { IfErr result (λ e. (e ≡ Fault.Memory) ⊎ ((e ≡ Fault.HoldsShell) × LeadsToShell (space_graph space.now) (resolve space.now.slots (value_of root)))) }
    ensures grows { IfErr result (λ e. (s : ℕ) × (root ≡ Ref.Local s)) }
{
    // With the number of slots comes that no reference in them leads nowhere.
    let _slots = space.len();
    let found = reached(alloc, space, root)?;
    if has_shell(space, &found) {
        return Err(Fault::HoldsShell);
    }
    Ok(found)
}

/// The slot of `root`, if it is an object of the space.
fn only_root(alloc: Global, space: &Space, root: Ref) -> Result<SlotSet, Fault>
    ensures exact { IfOk result (λ found. (n : ℕ) → Contains found n ↔ (resolve space.now.slots (value_of root) ≡ At (Own n))) }
    ensures fault { IfErr result (λ e. e ≡ Fault.Memory) }
    ensures grows { IfErr result (λ e. (s : ℕ) × (root ≡ Ref.Local s)) }
{
    let mut found = SlotSet::new(alloc);
    if let Ref::Local(slot) = space.resolve(root) {
        found.add(slot)?;
    }
    Ok(found)
}

/// Adds the slots of the objects that the object in `slot` leads to.
fn add_ends(space: &Space, slot: u32, found: &mut SlotSet) -> Result<(), Fault>
    requires { IsSettled space.now.slots slot }
    ensures added { OnOk result (Adds (LeadsOn (space_graph space.now) slot) found.old found.new) }
    ensures fault { IfErr result (λ e. e ≡ Fault.Memory) }
{
    for k in 0..space.arity(Ref::Local(slot)) {
        if let Some(end) = end_at(space, slot, k) {
            found.add(end)?;
        }
    }
    Ok(())
}

/// The slot that the `k`-th reference of the object in `slot` leads to, if it leads to an object of the space.
#[inline(always)]
pub(crate) fn end_at(space: &Space, slot: u32, k: usize) -> Option<u32>
    requires { IsSettled space.now.slots slot }
    ensures some { IfSome result (λ m. LeadsAt (space_graph space.now) slot k m) }
    ensures none { IfNone result ((m : ℕ) → LeadsAt (space_graph space.now) slot k m → ⊥) }
{
    let (_, value) = space.part(Ref::Local(slot), k)?;
    match space.resolve(value) {
        Ref::Local(end) => Some(end),
        _ => None,
    }
}

/// Whether there is a shell in one of the slots.
fn has_shell(space: &Space, found: &SlotSet) -> bool
    requires { (n : ℕ) → Contains found.now n → IsSettled space.now.slots n }
    ensures { IsTrue result ↔ ((n : ℕ) × Contains found.now n × IsShellAt space.now.slots n) }
{
    for place in 0..found.len() {
        if is_shell(space, found.at(place)) {
            return true;
        }
    }
    false
}

/// Whether there is a shell in the slot.
pub(crate) fn is_shell(space: &Space, slot: u32) -> bool
    requires { IsSettled space.now.slots slot }
    ensures { IsTrue result ↔ IsShellAt space.now.slots slot }
{
    space.kind_of(Ref::Local(slot)) == Kind::Shell
}
