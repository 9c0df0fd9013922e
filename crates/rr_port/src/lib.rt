//! A port as a pure state: one shown message at most, a last value or fault, a closed mark, and a history that replays to
//! them.
#![tactic(auto)]

mod last;
mod state;

pub use last::{Grab, Last, LastGiven, Settled, Shown};
pub use state::PortState;
