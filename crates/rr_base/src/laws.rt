//! Laws on histories, over every list of events that replays: what came in is what went out and what is inside, and no two
//! messages inside have one ticket. And laws on class numbers and on the limits of a run.

ghost use Rattle.std.specs.Prelude.{◌≡◌, ◌+◌, ◌-◌, ◌*◌, ◌^◌, ◌<◌, List};
ghost use Rattle.rr_base.specs.declared.class.BuiltInClass.{BuiltInClass};
ghost use Rattle.rr_base.specs.declared.event.InboxEvent.{InboxEvent};
ghost use Rattle.rr_base.specs.declared.event.PortEvent.{PortEvent};
ghost use Rattle.rr_base.specs.declared.event.PortShape.{PortShape};
ghost use Rattle.rr_base.specs.Classes.{class_id};
ghost use Rattle.rr_base.specs.Replay.{Replays};
ghost use Rattle.rr_base.specs.Inbox.{InboxShape, InboxStep, empty_inbox};
ghost use Rattle.rr_base.specs.Port.{PortStep, empty_port};
ghost use Rattle.rr_base.specs.Tickets.{HasRisingTickets, HasOwnTickets};
ghost use Rattle.rr_base.specs.Flow.{came_objects, went_objects, came_messages, went_messages, over_inbox, over_port, inbox_objects, inbox_messages, port_objects, port_messages};

use crate::limits::Limits;
use crate::name::ClassId;

/// What came into an inbox is what went out of it and what is inside, from any state that events lead from.
pub fn inbox_conserves()
    ensures objects { (x y : InboxShape) (events : List InboxEvent) → Replays InboxStep x events y → over_inbox came_objects events + inbox_objects x ≡ over_inbox went_objects events + inbox_objects y }
    ensures messages { (x y : InboxShape) (events : List InboxEvent) → Replays InboxStep x events y → over_inbox came_messages events + inbox_messages x ≡ over_inbox went_messages events + inbox_messages y }
{}

/// What came into a port, last values and faults among it, is what went out of it and what is inside.
pub fn port_conserves()
    ensures objects { (x y : PortShape) (events : List PortEvent) → Replays PortStep x events y → over_port came_objects events + port_objects x ≡ over_port went_objects events + port_objects y }
    ensures messages { (x y : PortShape) (events : List PortEvent) → Replays PortStep x events y → over_port came_messages events + port_messages x ≡ over_port went_messages events + port_messages y }
{}

/// In an inbox the tickets rise from the first message to the last, and the next one is above them.
pub fn inbox_tickets_rise()
    ensures { (x : InboxShape) (events : List InboxEvent) → Replays InboxStep empty_inbox events x → HasRisingTickets x }
{}

/// In a port the tickets are below the next one, and the last value's is another than the shown message's.
pub fn port_tickets_differ()
    ensures { (x : PortShape) (events : List PortEvent) → Replays PortStep empty_port events x → HasOwnTickets x }
{}

/// Each built-in class has a number of its own, below those of a program's classes.
pub fn class_numbers_differ()
    ensures distinct { (a b : BuiltInClass) → class_id a ≡ class_id b → a ≡ b }
    ensures below { (a : BuiltInClass) → (class_id a).0 < ClassId.BUILT_IN }
{}

/// The limits that a script meets.
pub fn default_limits()
    ensures source { Limits.DEFAULT.source ≡ 16 * 2 ^ 20 }
    ensures nesting { Limits.DEFAULT.nesting ≡ 200 }
    ensures frames { Limits.DEFAULT.frames ≡ 10000 }
    ensures levels { Limits.DEFAULT.levels ≡ 10000 }
    ensures ractors { Limits.DEFAULT.ractors ≡ 2 ^ 16 - 1 }
    ensures slots { Limits.DEFAULT.slots ≡ 2 ^ 32 - 1 }
    ensures events { Limits.DEFAULT.events ≡ 2 ^ 32 - 1 }
    ensures steps { Limits.DEFAULT.steps ≡ 10 ^ 8 }
{}
