//! The store as a pure state: what constants were last set to, the clusters that were published, and a history that
//! replays to them.
#![tactic(auto)]

mod constant;
mod laws;
mod state;

pub use constant::ConstValue;
pub use laws::shown_by_numbers;
pub use state::StoreState;
