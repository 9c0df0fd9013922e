//! One search for what has to be published and for what is sent.

ghost use Rattle.std.specs.Prelude.{◌≡◌, ◌⊎◌, ℕ, length, IfOk, IfErr};
ghost use Rattle.rr_space.specs.Graph.{IsFreeOfShells};
ghost use Rattle.rr_space.specs.Parts.{value_of};
ghost use Rattle.rr_space.specs.Tables.{IsBelow, resolve, space_graph};
ghost use Rattle.rr_share.specs.Plans.{IsPreparedFor};
ghost use Rattle.rr_share.specs.Search.{LeadsToShell};

use crate::planned::Plan;
use crate::planning::plan_of;
use crate::search::reached_objects;
use crate::sharing::shareable_among;
use rr_base::Fault;
use rr_space::{Ref, SlotSet, Space};
use std::alloc::Global;

/// What a value waits for before it can be sent.
#[derive(Drop)]
pub enum Prepared {
    /// The shareable objects of the space that it leads to have to be published first.
    Plan(Plan),
    /// Nothing: there are none. These are the slots of the objects that it leads to. Packing and detaching can take them in
    /// place of a search of their own, as long as nothing in the space changes.
    Found(SlotSet),
}

/// As `plan`, but where nothing is to be published it answers what its search found. The space stays as it is.
///
/// Answers `HoldsShell` where `root` leads to an object that was moved away, and `Memory` where a growth was refused. A
/// value that is no object of the space takes no memory.
pub fn prepare(alloc: Global, space: &Space, root: Ref) -> Result<Prepared, Fault>
    requires { IsBelow (length space.now.slots) (value_of root) }
    ensures prepared { IfOk result (λ prepared. IsPreparedFor prepared space.now (value_of root)) }
    ensures free { IfOk result (λ _. IsFreeOfShells (space_graph space.now) (resolve space.now.slots (value_of root))) }
    ensures fault { IfErr result (λ e. (e ≡ Fault.Memory) ⊎ ((e ≡ Fault.HoldsShell) × LeadsToShell (space_graph space.now) (resolve space.now.slots (value_of root)))) }
    ensures grows { IfErr result (λ e. (s : ℕ) × (root ≡ Ref.Local s)) }
{
    // With the number of slots comes that no reference in them leads nowhere.
    let _slots = space.len();
    let Ref::Local(_) = root else {
        return Ok(Prepared::Found(SlotSet::new(alloc)));
    };
    let found = reached_objects(alloc, space, root)?;
    let places = shareable_among(alloc, space, &found)?;
    if places.is_empty() {
        return Ok(Prepared::Found(found));
    }
    let plan = plan_of(alloc, space, places)?;
    Ok(Prepared::Plan(plan))
}
