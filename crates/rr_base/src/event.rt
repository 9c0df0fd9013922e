//! What happens to channels and to the store, as their histories and a trace tell it.

use crate::name::RactorNo;

/// The number of a message in its channel, from 0.
pub type Ticket = u32;

/// What happened to an inbox. `size` counts the message's own objects, `who` is the ractor that acted.
#[derive(Clone, Copy, Debug, PartialEq, Eq, Drop)]
pub enum InboxEvent {
    /// A message came last in the list.
    Offered {
        ticket: Ticket,
        size: u32,
        who: RactorNo,
    },
    /// The first message left.
    Accepted {
        ticket: Ticket,
        size: u32,
        who: RactorNo,
    },
    /// A message came to the closed inbox and went back.
    Refused {
        size: u32,
        who: RactorNo,
    },
    /// The inbox was closed.
    Closed {
        who: RactorNo,
    },
}

/// What happened to a port.
#[derive(Clone, Copy, Debug, PartialEq, Eq, Drop)]
pub enum PortEvent {
    /// A message was shown.
    Shown {
        ticket: Ticket,
        size: u32,
        who: RactorNo,
    },
    /// The last value or fault, or else the shown message, was taken.
    Grabbed {
        ticket: Ticket,
        size: u32,
        who: RactorNo,
    },
    /// The shown message was taken back.
    Withdrawn {
        ticket: Ticket,
        size: u32,
        who: RactorNo,
    },
    /// The last value came, and the port is closed.
    Last {
        ticket: Ticket,
        size: u32,
        who: RactorNo,
    },
    /// The last fault came, and the port is closed.
    Fault {
        ticket: Ticket,
        size: u32,
        who: RactorNo,
    },
    /// A message came to the closed port and went back.
    Refused {
        size: u32,
        who: RactorNo,
    },
    /// A last value or fault came to the closed port and went back. It counts as given.
    Late {
        size: u32,
        who: RactorNo,
    },
    /// The port was closed.
    Closed {
        who: RactorNo,
    },
}

/// What happened to the store. `N` names a constant: a symbol in a history, a text in a trace.
#[derive(Clone, Copy, Debug, PartialEq, Eq, Drop)]
pub enum StoreEvent<N> {
    /// A cluster came, under the next number.
    Published {
        number: u32,
        size: u32,
        who: RactorNo,
    },
    /// A constant was set to a shareable value.
    Shared {
        name: N,
        who: RactorNo,
    },
    /// A constant was set to a value of the main ractor's own.
    Own {
        name: N,
        who: RactorNo,
    },
}

/// A last value or last fault inside a port.
#[derive(Clone, Copy, Debug, PartialEq, Eq, Drop)]
pub struct Kept {
    pub is_fault: bool,
    pub ticket: Ticket,
    pub size: u32,
}

/// A port with tickets and sizes in place of messages: what its events replay to.
#[derive(Clone, Copy, Debug, PartialEq, Eq, Drop)]
pub struct PortShape {
    /// Ticket and size of the shown message.
    pub shown: Option<(Ticket, u32)>,
    /// The last value or fault, until it is taken.
    pub last: Option<Kept>,
    /// Whether a last value or fault came, in time or late.
    pub given: bool,
    pub closed: bool,
    /// The ticket of the next message.
    pub next: Ticket,
}
