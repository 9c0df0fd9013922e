//! Freezing all that a value leads to.

ghost use Rattle.std.specs.Prelude.{◌≡◌, ◌⊎◌, ℕ, nat_eq, List, length, slice_get, Contains, IsTrue, OnOk, OnErr, IfErr};
ghost use Rattle.std.specs.List.{IsDistinct};
ghost use Rattle.rr_space.specs.Graph.{IsFreeOfShells};
ghost use Rattle.rr_space.specs.Moves.{IsDeepFrozen};
ghost use Rattle.rr_space.specs.Parts.{value_of};
ghost use Rattle.rr_space.specs.Tables.{IsBelow, IsRestKept, space_graph, resolve};
ghost use Rattle.rr_space.specs.Views.{is_whole};
ghost use Rattle.rr_share.specs.Freezing.{FrozeFirst};
ghost use Rattle.rr_share.specs.Search.{AreReached, LeadsToShell};

use crate::search::reached_objects;
use rr_base::Fault;
use rr_space::{Ref, SlotSet, Space};
use std::alloc::Global;

/// Freezes all objects of the space that `root` leads to. What is published is frozen already.
///
/// Answers `HoldsShell` where one of the objects is a shell, and `Memory` where a growth was refused; then nothing is
/// frozen. A value that is no object of the space takes no memory.
pub fn deep_freeze(alloc: Global, space: &mut Space, root: Ref) -> Result<(), Fault>
    requires { IsBelow (length space.old.slots) (value_of root) }
    ensures frozen { OnOk result ((slots : List ℕ) × AreReached space.old (value_of root) slots × IsDeepFrozen (value_of root) space.old space.new) }
    ensures free { OnOk result (IsFreeOfShells (space_graph space.old) (resolve space.old.slots (value_of root))) }
    ensures keys { space.new.keys ≡ space.old.keys }
    ensures rest { IsRestKept space.old space.new }
    ensures refused { OnErr result (space.new ≡ space.old) }
    ensures fault { IfErr result (λ e. (e ≡ Fault.Memory) ⊎ ((e ≡ Fault.HoldsShell) × LeadsToShell (space_graph space.old) (resolve space.old.slots (value_of root)))) }
    ensures grows { IfErr result (λ e. (s : ℕ) × (root ≡ Ref.Local s)) }
{
    let found = reached_objects(alloc, space, root)?;
    freeze_all(space, &found);
    Ok(())
}

/// Freezes the objects of the slots.
fn freeze_all(space: &mut Space, found: &SlotSet)
    requires { (n : ℕ) → Contains found.now n → IsTrue (is_whole (slice_get space.old.slots n)) }
    ensures slots { FrozeFirst (length found.now) found.now space.old.slots space.new.slots }
    ensures distinct { IsDistinct nat_eq found.now }
    ensures below { space.new.below ≡ space.old.below }
    ensures keys { space.new.keys ≡ space.old.keys }
    ensures rest { IsRestKept space.old space.new }
{
    for place in 0..found.len() {
        space.freeze(Ref::Local(found.at(place)));
    }
}
