//! The plain model's steps on ports.

use crate::model::{Holder, Model, Port, Told};
use rr_world::Settled;

/// Whether the history has room for a message: for its coming and its going, beside what it owes.
fn has_room(port: &Port, limit: u32) -> bool {
    let mut owed = 2usize;
    if port.shown.is_some() {
        owed = owed.saturating_add(1);
    }
    if port.last.is_some() {
        owed = owed.saturating_add(1);
    }
    if !port.closed {
        owed = owed.saturating_add(1);
    }
    if !port.given {
        owed = owed.saturating_add(2);
    }
    port.events.saturating_add(owed) <= limit as usize
}

/// Whether the message of this ticket is shown.
fn is_shown_under(port: &Port, ticket: u32) -> bool {
    port.shown.is_some_and(|(shown, _)| shown == ticket)
}

impl Model {
    pub fn close_port(&mut self, to: usize) -> Told {
        let Some(port) = self.ports.get_mut(to) else {
            return Told::NotEnabled;
        };
        let already = port.closed;
        if !already {
            port.closed = true;
            port.events = port.events.saturating_add(1);
        }
        Told::WasClosed(already)
    }

    /// The message in the hand is the last of the ractor's own port.
    pub fn show_last(&mut self, who: usize, is_fault: bool) -> Told {
        let (Some(parcel), Some(port)) = (self.hand(who), self.ports.get_mut(who)) else {
            return Told::NotEnabled;
        };
        if port.given {
            return Told::NotEnabled;
        }
        port.given = true;
        port.events = port.events.saturating_add(1);
        if port.closed {
            return Told::Closed;
        }
        let ticket = port.next;
        port.next = ticket.saturating_add(1);
        port.closed = true;
        port.last = Some((ticket, parcel, is_fault));
        self.hand_on(Holder::Hand(who), Holder::Port(who, ticket));
        self.take_in_hand(who, None, false);
        Told::Offered(ticket)
    }

    pub fn grab(&mut self, who: usize, to: usize) -> Told {
        if !self.is_free(who) {
            return Told::NotEnabled;
        }
        let Some(port) = self.ports.get_mut(to) else {
            return Told::NotEnabled;
        };
        match port.last {
            Some((ticket, parcel, is_fault)) => {
                port.last = None;
                port.events = port.events.saturating_add(1);
                self.hand_on(Holder::Port(to, ticket), Holder::Hand(who));
                self.take_in_hand(who, Some(parcel), false);
                Told::GrabbedLast(is_fault)
            }
            None if port.closed => Told::EmptyAndClosed,
            None => self.grab_shown(who, to),
        }
    }

    /// The message that is shown in an open port comes into the hand.
    fn grab_shown(&mut self, who: usize, to: usize) -> Told {
        let Some(port) = self.ports.get_mut(to) else {
            return Told::NotEnabled;
        };
        let Some((ticket, parcel)) = port.shown else {
            return Told::Empty;
        };
        port.shown = None;
        port.events = port.events.saturating_add(1);
        self.hand_on(Holder::Port(to, ticket), Holder::Hand(who));
        self.take_in_hand(who, Some(parcel), false);
        Told::Done
    }

    /// The message in the hand is shown in the ractor's own port. The home of what was moved stays.
    pub fn show(&mut self, who: usize) -> Told {
        let limit = self.limits.events;
        let (Some(parcel), Some(port)) = (self.hand(who), self.ports.get_mut(who)) else {
            return Told::NotEnabled;
        };
        if port.shown.is_some() {
            return Told::NotEnabled;
        }
        if !has_room(port, limit) {
            return Told::HistoryFull;
        }
        port.events = port.events.saturating_add(1);
        if port.closed {
            return Told::Closed;
        }
        let ticket = port.next;
        port.next = ticket.saturating_add(1);
        port.shown = Some((ticket, parcel));
        self.hand_on(Holder::Hand(who), Holder::Port(who, ticket));
        if let Some(actor) = self.actors.get_mut(who) {
            actor.hand = None;
            actor.waits = if actor.moved { Some(ticket) } else { None };
            actor.moved = false;
        }
        Told::Offered(ticket)
    }

    /// A home goes, where it waits under the ticket.
    fn forget(&mut self, who: usize, ticket: u32) {
        if let Some(actor) = self.actors.get_mut(who)
            && actor.waits == Some(ticket)
        {
            actor.waits = None;
            actor.home.truncate(0);
        }
    }

    /// What is shown under the ticket comes back, with its home.
    pub fn withdraw(&mut self, who: usize, ticket: u32) -> Told {
        let Some(actor) = self.actors.get_mut(who) else {
            return Told::NotEnabled;
        };
        if actor.hand.is_some()
            || !actor.plan.is_empty()
            || actor.waits.is_some_and(|waits| waits != ticket)
        {
            return Told::NotEnabled;
        }
        match self.ports.get_mut(who) {
            Some(port) if is_shown_under(port, ticket) => {
                actor.hand = port.shown.map(|(_, parcel)| parcel);
                actor.moved = actor.waits.is_some();
                actor.waits = None;
                port.shown = None;
                port.events = port.events.saturating_add(1);
                self.hand_on(Holder::Port(who, ticket), Holder::Hand(who));
                Told::Done
            }
            _ => {
                self.forget(who, ticket);
                Told::NotShown
            }
        }
    }

    /// What became of what was shown under the ticket.
    pub fn settle(&mut self, who: usize, ticket: u32) -> Told {
        match self.ports.get(who) {
            Some(port) if is_shown_under(port, ticket) => Told::Settled(if port.closed {
                Settled::Closed
            } else {
                Settled::Shown
            }),
            _ => {
                self.forget(who, ticket);
                Told::Settled(Settled::Taken)
            }
        }
    }
}
