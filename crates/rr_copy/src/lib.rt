//! Messages, which carry a copy of a closed graph from one space to another.
#![tactic(auto)]

mod copy;
mod laws;
mod message;
mod opening;

pub use copy::{can_pack, pack_copy, pack_found};
pub use laws::shown_by_messages;
pub use message::{Message, MessageParts};
pub use opening::open;
