//! What a select does next, from what came of its acts so far.
//!
//! A select tries its entries in order, round by round. The first that gives a value, is closed or holds a fault ends it.
//! If none does, the select's own value is shown, where there is one, and the ractor sleeps. Once woken it takes the value
//! back and begins another round, or, where the value was taken, it is done.
#![tactic(auto)]

mod choice;
mod round;

pub use choice::{Choice, moves_at_most_one, takes_nothing_after_its_own};
pub use round::{Act, Answer, Ending};
