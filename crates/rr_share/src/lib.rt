//! What a value leads to in its space, and whether ractors may share it.
#![tactic(auto)]

mod freezing;
mod laws;
mod marks;
mod planned;
mod planning;
mod preparing;
mod promoting;
mod sealing;
mod search;
mod sharing;
mod sources;

pub use freezing::deep_freeze;
pub use laws::shown_by_promoting;
pub use planned::Plan;
pub use planning::plan;
pub use preparing::{Prepared, prepare};
pub use promoting::promote;
pub use search::{reached, reached_objects};
pub use sharing::{is_shareable, shareable_objects};
