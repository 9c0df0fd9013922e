//! What has to be published before a value can be sent.

ghost use Rattle.std.specs.Prelude.{◌≡◌, ◌↔◌, ◌⊎◌, ◌<◌, ℕ, List, true, length, slice_get, Some, Contains, IfOk, IfErr};
ghost use Rattle.rr_space.specs.Graph.{At, Own, Label, Object, Reaches, IsFreeOfShells, IsShareable, shell};
ghost use Rattle.rr_space.specs.Moves.{IsPlanned};
ghost use Rattle.rr_space.specs.Parts.{value_of};
ghost use Rattle.rr_space.specs.Sound.{IsWholeSound};
ghost use Rattle.rr_space.specs.Tables.{Here, IsBelow, joined, resolve, resolve_object, space_graph};
ghost use Rattle.rr_share.specs.Search.{LeadsToShell};

use crate::planned::Plan;
use crate::sealing::sealed_copies;
use crate::search::reached_objects;
use crate::sharing::shareable_among;
use rr_base::Fault;
use rr_space::{Cluster, Ref, SlotSet, Space};
use std::alloc::Global;

/// A cluster of the shareable objects of the space that `root` leads to, and their slots. The space stays as it is.
///
/// Answers `HoldsShell` where `root` leads to an object that was moved away, and `Memory` where a growth was refused. A
/// value that is no object of the space takes no memory.
pub fn plan(alloc: Global, space: &Space, root: Ref) -> Result<Plan, Fault>
    requires { IsBelow (length space.now.slots) (value_of root) }
    ensures planned { IfOk result (λ plan. IsPlanned space.now plan.cluster plan.places) }
    ensures exact { IfOk result (λ plan. (n : ℕ) → Contains plan.places n ↔ (Reaches (space_graph space.now) (resolve space.now.slots (value_of root)) (Own n) × IsShareable (space_graph space.now) (At (Own n)))) }
    ensures number { IfOk result (λ plan. plan.cluster.number ≡ 0) }
    ensures below { IfOk result (λ plan. (e : ℕ × List Object) → Contains plan.cluster.below e → Contains (joined space.now.below) e) }
    ensures sound { IfOk result (λ plan. IsWholeSound plan.cluster) }
    ensures free { IfOk result (λ _. IsFreeOfShells (space_graph space.now) (resolve space.now.slots (value_of root))) }
    ensures fault { IfErr result (λ e. (e ≡ Fault.Memory) ⊎ ((e ≡ Fault.HoldsShell) × LeadsToShell (space_graph space.now) (resolve space.now.slots (value_of root)))) }
    ensures grows { IfErr result (λ e. (s : ℕ) × (root ≡ Ref.Local s)) }
{
    // With the number of slots comes that no reference in them leads nowhere.
    let _slots = space.len();
    let Ref::Local(_) = root else {
        return Ok(Plan::new(Cluster::new(alloc, Vec::new(alloc))?, SlotSet::new(alloc)));
    };
    let found = reached_objects(alloc, space, root)?;
    let places = shareable_among(alloc, space, &found)?;
    let plan = plan_of(alloc, space, places)?;
    Ok(plan)
}

/// The plan of the objects in these slots, which are frozen and lead to one another and to published ones alone.
pub(crate) fn plan_of(alloc: Global, space: &Space, places: SlotSet) -> Result<Plan, Fault>
    requires whole { (n : ℕ) → Contains places n → (o : Object) × (slice_get space.now.slots n ≡ Some (Here o)) × (o.kind ≡ shell → ⊥) × (o.frozen ≡ true) }
    requires closed { (n m : ℕ) (o : Object) (l : Label) → Contains places n → slice_get space.now.slots n ≡ Some (Here o) → Contains (resolve_object space.now.slots o).triples (l, At (Own m)) → Contains places m }
    ensures planned { IfOk result (λ plan. IsPlanned space.now plan.cluster places) }
    ensures places { IfOk result (λ plan. plan.places ≡ places) }
    ensures number { IfOk result (λ plan. plan.cluster.number ≡ 0) }
    ensures below { IfOk result (λ plan. (e : ℕ × List Object) → Contains plan.cluster.below e → Contains (joined space.now.below) e) }
    ensures sound { IfOk result (λ plan. IsWholeSound plan.cluster) }
    ensures fault { IfErr result (λ e. e ≡ Fault.Memory) }
{
    // No slot has two places, so there are no more places than slots, and no more slots than 32 bits count.
    let _slots = space.len();
    let _limit = space.limit();
    let _places = places.len();
    let nodes = sealed_copies(alloc, space, &places)?;
    Ok(Plan::new(Cluster::new(alloc, nodes)?, places))
}
