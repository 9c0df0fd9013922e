//! The frames of the methods and blocks that run.
#![tactic(auto)]

mod activation;
mod frames;
mod slots;

pub use activation::{Activation, Given, Shape};
pub use frames::Frames;
