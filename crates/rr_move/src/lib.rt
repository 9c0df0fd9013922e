//! Moving a value from one space into a message, putting it back, and what a ractor's hand holds in between.
#![tactic(auto)]

mod detaching;
mod hand;
mod home;
mod laws;
mod reattaching;

pub use detaching::{detach, detach_found};
pub use hand::Hand;
pub use home::{Detached, Home};
pub use laws::shown_by_moving;
pub use reattaching::reattach;
