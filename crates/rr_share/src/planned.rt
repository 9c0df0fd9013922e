//! A plan.

ghost use Rattle.std.specs.Prelude.{◌≡◌};
ghost use Rattle.rr_space.specs.Sound.{IsWholeSound};

use rr_space::{Cluster, SlotSet};

/// A cluster that is not published yet, and the slots of the objects that it was made of, in the cluster's order.
#[derive(Drop)]
pub struct Plan {
    pub cluster: Cluster,
    pub places: SlotSet,
}

impl Plan {
    pub(crate) fn new(cluster: Cluster, places: SlotSet) -> Plan
        ensures cluster { result.cluster ≡ cluster }
        ensures places { result.places ≡ places }
        ensures sound { IsWholeSound result.cluster }
    {
        // With the number of objects comes that they are frozen, and that no reference in them leads nowhere.
        let _objects = cluster.len();
        Plan { cluster, places }
    }
}
