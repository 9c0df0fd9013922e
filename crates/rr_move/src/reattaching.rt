//! Putting a message back where it came from.

ghost use Rattle.std.specs.Prelude.{◌≡◌, ℕ, length, map, Some, Contains, slice_get};
ghost use Rattle.rr_space.specs.Moves.{here_home, IsPutAt, IsPutBack};
ghost use Rattle.rr_space.specs.Tables.{Here, IsRestKept};
ghost use Rattle.rr_space.specs.Views.{AllCarriedWithin, carried_object, carried_below, carried_keys};
ghost use Rattle.rr_space.specs.Views.{emptied};

use crate::home::{Detached, Home};
use rr_space::{Carried, SlotSet, Space};

// Puts the objects back into these slots, in their order.
fn put_all(space: &mut Space, slots: &SlotSet, objects: Vec<Carried>)
    requires count { length objects.items ≡ length slots.now }
    requires within { AllCarriedWithin (length objects.items) objects.items }
    requires shells { (n : ℕ) → Contains slots.now n → slice_get space.old.slots n ≡ Some (Here emptied) }
    ensures slots { IsPutAt slots.now (map (here_home slots.now) (map carried_object objects.items)) space.old.slots space.new.slots }
    ensures below { IsPutAt slots.now (map carried_below objects.items) space.old.below space.new.below }
    ensures keys { IsPutAt slots.now (map carried_keys objects.items) space.old.keys space.new.keys }
    ensures rest { IsRestKept space.old space.new }
{
    // With the number of slots comes that there are as many lists of clusters and of keys, and that no slot is there twice.
    let _slots = space.len();
    let _places = slots.len();
    let mut left = objects;
    while let Some(object) = left.pop() {
        space.put_back(slots.at(left.len()), object, slots);
    }
}

/// Puts the objects of a message back into the slots that they were taken out of, in place of the shells there. Nothing
/// else changes, and no memory is taken. The number of the message stays used.
///
/// Each slot of the home has to be a shell of this space still; other objects may have changed since.
pub fn reattach(space: &mut Space, detached: Detached)
    requires { (n : ℕ) → Contains detached.home.slots n → slice_get space.old.slots n ≡ Some (Here emptied) }
    ensures { IsPutBack detached.home.slots detached.message space.old space.new }
{
    let Detached { home, message } = detached;
    let Home { slots, .. } = home;
    put_all(space, &slots, message.into_parts().objects);
}
