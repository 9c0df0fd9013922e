//! Steps on ports.

ghost use Rattle.std.specs.Prelude.{◌≡◌, ◌<◌, length};
ghost use Rattle.rr_port.specs.Lasts.{message_of};
ghost use Rattle.rr_world.specs.Enabling.{StandsAt};
ghost use Rattle.rr_world.specs.Leaving.{last_as, told_of_grab};
ghost use Rattle.rr_world.specs.Runs.{HasOutcome};
ghost use Rattle.rr_world.specs.declared.step.Action.TheVariants.{ClosePort, ShowLast, Grab as Grabs};

use crate::step::{LastKind, Reply};
use crate::world::{World, place_of};
use rr_base::RactorNo;
use rr_copy::Message;
use rr_port::{Grab, Last};

// A message as a last value or fault.
fn as_last(kind: LastKind, message: Message) -> Last
    ensures { result ≡ last_as kind message }
{
    match kind {
        LastKind::Value => Last::Value(message),
        LastKind::Fault => Last::Fault(message),
    }
}

// The message of a last value or fault.
fn message_of_last(last: Last) -> Message
    ensures { result ≡ message_of last }
{
    match last {
        Last::Value(message) => message,
        Last::Fault(message) => message,
    }
}

// The message that was grabbed, and what the step answers then; or what it answers where there was none.
fn grabbed_as(grab: Grab) -> Result<(Message, Reply), Reply>
    ensures { result ≡ told_of_grab grab }
{
    match grab {
        Grab::Value(message) => Ok((message, Reply::Done)),
        Grab::LastValue(message) => Ok((message, Reply::GrabbedLast(LastKind::Value))),
        Grab::LastFault(message) => Ok((message, Reply::GrabbedLast(LastKind::Fault))),
        Grab::Nothing => Err(Reply::Empty),
        Grab::Closed => Err(Reply::EmptyAndClosed),
    }
}

impl World {
    // A port is closed.
    fn close_port_at(&mut self, who: RactorNo, place: usize, to: RactorNo, port: usize) -> Reply
        requires stands { StandsAt who place }
        requires within { place < length self.old.ractors }
        requires there { StandsAt to port }
        requires is_port { port < length self.old.channels.ports }
        ensures { HasOutcome (record { who = who; action = ClosePort to }) result self.old self.new }
    {
        Reply::WasClosed(self.ports[port].close(who))
    }

    /// A port is closed, where there is one of this number.
    pub(crate) fn close_port(&mut self, who: RactorNo, place: usize, to: RactorNo) -> Reply
        requires stands { StandsAt who place }
        requires within { place < length self.old.ractors }
        ensures { HasOutcome (record { who = who; action = ClosePort to }) result self.old self.new }
    {
        match place_of(to, self.ports.len()) {
            Some(port) => self.close_port_at(who, place, to, port),
            None => Reply::NotEnabled,
        }
    }

    /// The message in the hand is left in the ractor's own port, which is closed with it.
    pub(crate) fn show_last(&mut self, who: RactorNo, place: usize, kind: LastKind) -> Reply
        requires stands { StandsAt who place }
        requires within { place < length self.old.ractors }
        ensures { HasOutcome (record { who = who; action = ShowLast kind }) result self.old self.new }
    {
        if place >= self.ports.len() {
            return Reply::NotEnabled;
        }
        if self.ports[place].was_given() {
            return Reply::NotEnabled;
        }
        let Some((message, home)) = self.ractors[place].take() else {
            return Reply::NotEnabled;
        };
        // With the history comes that no last value is inside.
        let _events = self.ports[place].history();
        match self.ports[place].show_last(who, as_last(kind, message)) {
            Ok(ticket) => Reply::Offered(ticket),
            Err((fault, last)) => {
                self.ractors[place].hold(message_of_last(last), home);
                Reply::Refused(fault)
            }
        }
    }

    // What a port has comes into the hand.
    fn grab_at(&mut self, who: RactorNo, place: usize, to: RactorNo, port: usize) -> Reply
        requires stands { StandsAt who place }
        requires within { place < length self.old.ractors }
        requires there { StandsAt to port }
        requires is_port { port < length self.old.channels.ports }
        ensures { HasOutcome (record { who = who; action = Grabs to }) result self.old self.new }
    {
        if !self.ractors[place].is_free() {
            return Reply::NotEnabled;
        }
        // With the history comes that no two messages inside have one ticket.
        let _events = self.ports[port].history();
        match grabbed_as(self.ports[port].grab(who)) {
            Ok((message, reply)) => {
                self.ractors[place].hold(message, None);
                reply
            }
            Err(reply) => reply,
        }
    }

    /// What a port has comes into the hand, where there is one of this number.
    pub(crate) fn grab(&mut self, who: RactorNo, place: usize, to: RactorNo) -> Reply
        requires stands { StandsAt who place }
        requires within { place < length self.old.ractors }
        ensures { HasOutcome (record { who = who; action = Grabs to }) result self.old self.new }
    {
        match place_of(to, self.ports.len()) {
            Some(port) => self.grab_at(who, place, to, port),
            None => Reply::NotEnabled,
        }
    }
}
