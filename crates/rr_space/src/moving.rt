//! Objects that are taken out of their slots, and put back into them. No memory is taken.

ghost use Rattle.std.specs.Prelude.{◌≡◌, ◌<◌, ◌≤◌, ◌^◌, ℕ, [], length, List, Some, slice_get, slice_set, Contains, IsTrue};
ghost use Rattle.rr_space.specs.Graph.{Object, Own, At, Label};
ghost use Rattle.rr_space.specs.Graph.{Matches, IsAt};
ghost use Rattle.rr_space.specs.Tables.{Here, IsRestKept, joined, resolve_object};
ghost use Rattle.rr_space.specs.Moves.{here_home};
ghost use Rattle.rr_space.specs.Views.{below_node, node_keys, is_whole, emptied, IsNodeWithin};
ghost use Rattle.rr_space.specs.Views.{carried_object, carried_below, carried_keys};

use crate::carried::Carried;
use crate::node::Held;
use crate::renumber::{ToHome, ToPlaces};
use crate::slot_set::SlotSet;
use crate::space::Space;

impl Space {
    /// Takes the object in `slot` out and leaves a shell. Its references to objects of this space are their places among
    /// `names`; nothing in it is copied.
    pub fn take_object(&mut self, slot: u32, names: &SlotSet) -> Carried
        requires slot { slot < length self.old.slots }
        requires whole { IsTrue (is_whole (slice_get self.old.slots slot)) }
        requires known { (o : Object) (l : Label) (m : ℕ) → slice_get self.old.slots slot ≡ Some (Here o) → Contains (resolve_object self.old.slots o).triples (l, At (Own m)) → Contains names.now m }
        requires few { length names.now ≤ 2 ^ 32 }
        ensures matches { (o : Object) → slice_get self.old.slots slot ≡ Some (Here o) → Matches (IsAt names.now) (resolve_object self.old.slots o) (carried_object result) }
        ensures within { IsNodeWithin (length names.now) result.node }
        ensures clusters { (e : ℕ × List Object) → Contains (below_node result.node) e → Contains (joined self.old.below) e }
        ensures its_keys { slice_get self.old.keys slot ≡ Some (node_keys result.node) }
        ensures slots { self.new.slots ≡ slice_set self.old.slots slot (Here emptied) }
        ensures below { self.new.below ≡ slice_set self.old.below slot [] }
        ensures keys { self.new.keys ≡ slice_set self.old.keys slot [] }
        ensures rest { IsRestKept self.old self.new }
    {
        match self.take(slot) {
            Held::Whole(frozen, node) => {
                let places = ToPlaces {
                    space: &*self,
                    names,
                };
                let node = node.renumbered(&places);
                Carried { frozen, node }
            }
            _ => unreachable!(),
        }
    }

    /// Puts an object that was taken out of a slot back, in the place of the shell there. A `Ref::Local` in it, which is a
    /// place, leads to the slot of that place in `home` then; nothing in it is copied.
    pub fn put_back(&mut self, slot: u32, object: Carried, home: &SlotSet)
        requires slot { slot < length self.old.slots }
        requires shell { slice_get self.old.slots slot ≡ Some (Here emptied) }
        requires within { IsNodeWithin (length home.now) object.node }
        requires home { (m : ℕ) → Contains home.now m → m < length self.old.slots }
        ensures slots { self.new.slots ≡ slice_set self.old.slots slot (here_home home.now (carried_object object)) }
        ensures below { self.new.below ≡ slice_set self.old.below slot (carried_below object) }
        ensures keys { self.new.keys ≡ slice_set self.old.keys slot (carried_keys object) }
        ensures rest { IsRestKept self.old self.new }
    {
        let Carried { frozen, node } = object;
        let places = ToHome { home };
        let node = node.renumbered(&places);
        self.put(slot, Held::Whole(frozen, node));
    }
}
