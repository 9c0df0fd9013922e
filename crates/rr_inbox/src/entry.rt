//! What is inside an inbox, and what comes out of it.

use rr_base::Ticket;
use rr_copy::Message;

/// A message inside, with its ticket.
#[derive(Drop)]
pub struct Entry {
    pub ticket: Ticket,
    pub message: Message,
}

/// What is at the front of an inbox.
#[derive(Drop)]
pub enum Front {
    /// The first message, which has left.
    Message(Message),
    /// Nothing; the inbox is open.
    Empty,
    /// Nothing; the inbox is closed, so nothing will come.
    EmptyAndClosed,
}
