//! What every crate speaks of: names by number, limits, faults and events.
#![tactic(auto)]

mod class;
mod event;
mod fault;
mod laws;
mod limits;
mod name;

pub use class::BuiltInClass;
pub use event::{InboxEvent, Kept, PortEvent, PortShape, StoreEvent, Ticket};
pub use fault::{Fault, SyntaxKind};
pub use laws::{
    class_numbers_differ, default_limits, inbox_conserves, inbox_tickets_rise, port_conserves,
    port_tickets_differ,
};
pub use limits::{LimitKind, Limits};
pub use name::{Channel, ClassId, Place, RactorNo, Sym};
