//! Steps on what a ractor shows in its own port.

ghost use Rattle.std.specs.Prelude.{◌<◌, length};
ghost use Rattle.rr_world.specs.Enabling.{StandsAt};
ghost use Rattle.rr_world.specs.Runs.{HasOutcome};
ghost use Rattle.rr_world.specs.declared.step.Action.TheVariants.{Show, Withdraw, Settle};

use crate::step::Reply;
use crate::world::World;
use rr_base::{RactorNo, Ticket};
use rr_port::Settled;

impl World {
    /// The message in the hand is shown in the ractor's own port, where nothing is shown. Its home stays in the hand.
    pub(crate) fn show(&mut self, who: RactorNo, place: usize) -> Reply
        requires stands { StandsAt who place }
        requires within { place < length self.old.ractors }
        ensures { HasOutcome (record { who = who; action = Show }) result self.old self.new }
    {
        if place >= self.ports.len() {
            return Reply::NotEnabled;
        }
        if !self.ports[place].is_free() {
            return Reply::NotEnabled;
        }
        let Some((message, home)) = self.ractors[place].take() else {
            return Reply::NotEnabled;
        };
        // With the history comes that no message inside has the next ticket.
        let _events = self.ports[place].history();
        match self.ports[place].show(who, message) {
            Ok(ticket) => {
                self.ractors[place].wait(home, ticket);
                Reply::Offered(ticket)
            }
            Err((fault, message)) => {
                self.ractors[place].hold(message, home);
                Reply::Refused(fault)
            }
        }
    }

    /// The message that is shown under the ticket in the ractor's own port comes back into the hand; or, where it is shown
    /// no more, its home goes.
    pub(crate) fn withdraw(&mut self, who: RactorNo, place: usize, ticket: Ticket) -> Reply
        requires stands { StandsAt who place }
        requires within { place < length self.old.ractors }
        ensures { HasOutcome (record { who = who; action = Withdraw ticket }) result self.old self.new }
    {
        if place >= self.ports.len() {
            return Reply::NotEnabled;
        }
        if !self.ractors[place].can_take_back(ticket) {
            return Reply::NotEnabled;
        }
        // With the history comes that the last value has another ticket than the shown message.
        let _events = self.ports[place].history();
        match self.ports[place].withdraw(who, ticket) {
            Ok(message) => {
                self.ractors[place].take_back(ticket, message);
                Reply::Done
            }
            Err(fault) => {
                self.ractors[place].forget(ticket);
                Reply::Refused(fault)
            }
        }
    }

    /// What became of the message that was shown under the ticket in the ractor's own port. Where it was taken, its home
    /// goes.
    pub(crate) fn settle(&mut self, who: RactorNo, place: usize, ticket: Ticket) -> Reply
        requires stands { StandsAt who place }
        requires within { place < length self.old.ractors }
        ensures { HasOutcome (record { who = who; action = Settle ticket }) result self.old self.new }
    {
        if place >= self.ports.len() {
            return Reply::NotEnabled;
        }
        match self.ports[place].settle(ticket) {
            Settled::Taken => {
                self.ractors[place].forget(ticket);
                Reply::Settled(Settled::Taken)
            }
            Settled::Shown => Reply::Settled(Settled::Shown),
            Settled::Closed => Reply::Settled(Settled::Closed),
        }
    }
}
