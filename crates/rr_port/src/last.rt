//! What is inside a port, and what comes out of it.

ghost use Rattle.std.specs.Prelude.{◌≡◌};
ghost use Rattle.rr_copy.specs.Messages.{size_of};
ghost use Rattle.rr_port.specs.Lasts.{last_event, message_of};

use rr_base::{PortEvent, RactorNo, Ticket};
use rr_copy::Message;

/// What a ractor leaves at its end: the value of its block, or the exception that ended it.
#[derive(Drop)]
pub enum Last {
    Value(Message),
    Fault(Message),
}

impl Last {
    /// The number of the message's own objects.
    pub(crate) fn size(&self) -> u32
        ensures { result ≡ size_of (message_of self.now) }
    {
        match self {
            Last::Value(message) => message.size(),
            Last::Fault(message) => message.size(),
        }
    }

    // What a history tells of it.
    pub(crate) fn event(&self, ticket: Ticket, who: RactorNo) -> PortEvent
        ensures { result ≡ last_event ticket who self.now }
    {
        let size = self.size();
        match self {
            Last::Value(_) => PortEvent::Last { ticket, size, who },
            Last::Fault(_) => PortEvent::Fault { ticket, size, who },
        }
    }
}

/// The shown message, with its ticket.
#[derive(Drop)]
pub struct Shown {
    pub ticket: Ticket,
    pub message: Message,
}

/// The last value or fault, with its ticket.
#[derive(Drop)]
pub struct LastGiven {
    pub ticket: Ticket,
    pub last: Last,
}

/// What a taker finds in a port.
#[derive(Drop)]
pub enum Grab {
    /// The shown message, which has left.
    Value(Message),
    /// The last value, which has left.
    LastValue(Message),
    /// The last fault, which has left.
    LastFault(Message),
    /// Nothing is shown; the port is open.
    Nothing,
    /// The port is closed.
    Closed,
}

/// What became of a shown message.
#[derive(Clone, Copy, Debug, PartialEq, Eq, Drop)]
pub enum Settled {
    /// It is shown no more.
    Taken,
    /// It is still shown.
    Shown,
    /// It is still there, and the port is closed: it can only be withdrawn.
    Closed,
}
