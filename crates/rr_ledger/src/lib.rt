//! Books that count what goes through a channel, and the shares of those that use it.
#![tactic(auto)]

mod book;
mod numbers;

pub use book::{Book, Share};
pub use numbers::{Amount, Numbers, Row};
