//! An inbox as a pure state: a list of messages with tickets, a closed mark, and a history that replays to them.
#![tactic(auto)]

mod entry;
mod state;

pub use entry::{Entry, Front};
pub use state::InboxState;
