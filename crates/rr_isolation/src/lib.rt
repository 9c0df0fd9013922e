//! Which variables of the scopes round it a block uses, and whether it can be the block of a ractor.
#![tactic(auto)]

mod found;
mod isolation;
mod order;
mod parts;
mod search;

pub use isolation::{Isolated, isolate, outer_names};
