//! Forwards in the place of what was published.

ghost use Rattle.std.specs.Prelude.{◌<◌, length};
ghost use Rattle.rr_space.specs.Moves.{IsKept, IsPlanned, IsPromotedTo};

use rr_space::{Published, SlotSet, Space};

/// Turns the slots of a plan into forwards to their places in its cluster, once it is published. The slots are still as the
/// plan found them. Takes no memory and cannot fail.
pub fn promote(space: &mut Space, places: SlotSet, published: Published)
    requires { IsPlanned space.old published.cluster.now places }
    ensures promoted { IsPromotedTo published.cluster.now places space.old space.new }
    ensures kept { IsKept space.old space.new }
{
    // With the number of slots comes that each of them can be counted, and with that of the objects that they are frozen.
    let _slots = space.len();
    let _limit = space.limit();
    let _objects = published.cluster.len();
    for place in 0..places.len() {
        space.forward(places.at(place), place as u32, published.cluster);
    }
}
