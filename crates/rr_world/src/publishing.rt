//! The step that publishes a plan.

ghost use Rattle.std.specs.Prelude.{◌<◌, length};
ghost use Rattle.rr_world.specs.Enabling.{StandsAt};
ghost use Rattle.rr_world.specs.Runs.{HasOutcome};
ghost use Rattle.rr_world.specs.declared.step.Action.TheVariants.{Publish};

use crate::step::Reply;
use crate::world::World;
use rr_base::RactorNo;
use rr_share::Plan;
use std::alloc::Global;

impl World {
    /// The cluster of the plan in the hand is published. Its slots stay as they are until they are promoted.
    pub(crate) fn publish(&mut self, alloc: Global, who: RactorNo, place: usize) -> Reply
        requires stands { StandsAt who place }
        requires within { place < length self.old.ractors }
        ensures { HasOutcome (record { who = who; action = Publish }) result self.old self.new }
    {
        let Some(plan) = self.ractors[place].take_plan() else {
            return Reply::NotEnabled;
        };
        let Plan { cluster, places } = plan;
        // With the history comes that each cluster stands under its number.
        let _events = self.store.history();
        match self.store.publish(alloc, who, cluster) {
            Ok(published) => {
                self.ractors[place].keep_published(places, published);
                Reply::Published(published.number())
            }
            Err((fault, cluster)) => {
                self.ractors[place].keep_plan(Plan { cluster, places });
                Reply::Refused(fault)
            }
        }
    }
}
