//! The World: ractors, their hands and their inboxes, and the atomic steps that they make.
#![tactic(auto)]

mod acting;
mod changing;
mod constants;
mod laws;
mod moving;
mod outcome;
mod packing;
mod pairs;
mod planning;
mod ports;
mod publishing;
mod ractor;
mod showing;
mod step;
mod world;

pub use laws::shown_by_names;
pub use rr_port::Settled;
pub use rr_space::Label;
pub use step::{Action, LastKind, NewObject, Operand, RaisedPart, Reply, Step};
pub use world::World;
