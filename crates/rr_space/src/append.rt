//! Objects that come into a space behind those that are there.

ghost use Rattle.rr_space.specs.Tables.{IsRestKept};
ghost use Rattle.std.specs.Prelude.{◌≡◌, ◌+◌, ◌<◌, ◌≤◌, ◌⊎◌, ◌++◌, ◌^◌, length, map, vec_len, vec_capacity, IfOk, IfErr};
ghost use Rattle.rr_space.specs.Views.{IsAppended};
ghost use Rattle.rr_space.specs.Tables.{here_behind};
ghost use Rattle.rr_space.specs.Views.{AllCarriedWithin, carried_object, carried_below, carried_keys};

use crate::carried::Carried;
use crate::node::Held;
use crate::space::Space;
use rr_base::{Fault, LimitKind};

impl Space {
    /// Puts objects into slots of their own, behind those that are there and in their order. A `Ref::Local` in them, which
    /// is a place among them, leads to its slot then.
    ///
    /// A refusal hands back the very objects and leaves the space as it was: `Limit(Slots)` where there would be more
    /// slots than there may be, and `Memory` where a growth was refused. No objects are always taken.
    pub fn append(&mut self, objects: Vec<Carried>) -> Result<(), (Fault, Vec<Carried>)>
        requires { AllCarriedWithin (length objects.items) objects.items }
        ensures slots { IfOk result (λ _. self.new.slots ≡ self.old.slots ++ map (here_behind (length self.old.slots)) (map carried_object objects.items)) }
        ensures below { IfOk result (λ _. self.new.below ≡ self.old.below ++ map carried_below objects.items) }
        ensures keys { IfOk result (λ _. self.new.keys ≡ self.old.keys ++ map carried_keys objects.items) }
        ensures rest { IsRestKept self.old self.new }
        ensures back { IfErr result (λ refusal. (refusal.1 ≡ objects) × (self.new ≡ self.old)) }
        ensures grows { IfErr result (λ refusal. 1 ≤ length objects.items) }
        ensures fault { IfErr result (λ refusal. ((refusal.0 ≡ Fault.Memory) × (length self.old.slots + length objects.items ≤ self.old.limit))
            ⊎ ((refusal.0 ≡ Fault.Limit LimitKind.Slots) × (self.old.limit < length self.old.slots + length objects.items))) }
    {
        if objects.len() > self.limit as usize - self.slots.len() {
            return Err((Fault::Limit(LimitKind::Slots), objects));
        }
        if self.slots.reserve(objects.len()).is_err() {
            return Err((Fault::Memory, objects));
        }
        push_behind(&mut self.slots, objects);
        Ok(())
    }
}

/// Pushes the objects, each with its references behind the slots that are there.
fn push_behind(slots: &mut Vec<Held>, objects: Vec<Carried>)
    requires reserved { vec_len slots.old + length objects.items ≤ vec_capacity slots.old }
    requires fits { length slots.old.items + length objects.items < 2 ^ 32 }
    requires within { AllCarriedWithin (length objects.items) objects.items }
    ensures { IsAppended (length slots.old.items) slots.old.items objects.items slots.new.items }
{
    let count = slots.len() as u32;
    for object in objects {
        let Carried { frozen, node } = object;
        slots.push_reserved(Held::Whole(frozen, node.behind(count)));
    }
}
