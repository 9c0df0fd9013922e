//! The state of a port.

ghost use Rattle.std.specs.Prelude.{◌≡◌, ◌+◌, ◌≤◌, ◌<◌, ◌^◌, ◌++◌, ◌∷◌, ◌↔◌, [], cond, is_ok, if◌then◌else◌, true, false, IfOk, IfErr, IsTrue, Some, None};
ghost use Rattle.rr_base.specs.Replay.{Replays};
ghost use Rattle.rr_base.specs.Port.{PortStep, empty_port};
ghost use Rattle.rr_base.specs.Flow.{count_of};
ghost use Rattle.rr_base.specs.declared.event.PortEvent.TheVariants.{Closed};
ghost use Rattle.rr_port.specs.Ports.{HasEvents, IsTicketed, new_port, shape_of, told_of_show, told_of_last};
ghost use Rattle.rr_port.specs.Answers.{Refusal, Grabs, IsShownUnder, Settles, Withdraws};

use super::last::{Grab, Last, LastGiven, Settled, Shown};
use rr_base::{Fault, PortEvent, RactorNo, Ticket};
use rr_copy::Message;
use std::alloc::Global;
use std::marker::Model;

/// What a port holds, whether it is closed, and what happened to it.
///
/// The history owes an event for each message inside, one for the close while the port is open, and two for the last value
/// while none was given; room for them is kept, so that no call but `show` takes memory.
#[derive(Drop)]
pub struct PortState {
    shown: Option<Shown>,
    last: Option<LastGiven>,
    given: bool,
    closed: bool,
    next: Ticket,
    history: Vec<PortEvent>,
    limit: u32,
}

impl Model for PortState {
    ghost use Rattle.std.specs.Prelude.{vec_capacity};
    ghost use Rattle.rr_port.specs.Ports.{Port, Kept};

    ghost Value = { Port };

    ghost view = { λ s. record { shown = s.shown; last = s.last; given = s.given; closed = s.closed; next = s.next; history = s.history.items; limit = s.limit } };

    ghost invariant = { λ s. Kept (record { shown = s.shown; last = s.last; given = s.given; closed = s.closed; next = s.next; history = s.history.items; limit = s.limit }) (vec_capacity s.history) };
}

// The events that a history owes for what is inside and for what is still to come.
fn still_owed(shown: &Option<Shown>, last: &Option<LastGiven>, closed: bool, given: bool) -> usize
    ensures { result ≡ count_of shown.now + count_of last.now + cond closed 0 1 + cond given 0 2 }
{
    let inside = match (shown, last) {
        (Some(_), Some(_)) => 2,
        (Some(_), None) | (None, Some(_)) => 1,
        (None, None) => 0,
    };
    inside + if closed { 0 } else { 1 } + if given { 0 } else { 2 }
}

fn is_shown_under(shown: &Option<Shown>, ticket: Ticket) -> bool
    ensures { IsTrue result ↔ IsShownUnder shown.now ticket }
{
    match shown {
        Some(shown) => shown.ticket == ticket,
        None => false,
    }
}

impl PortState {
    /// An open port with nothing inside, whose history may have `limit` events. `Memory` is the only fault.
    pub fn new(alloc: Global, limit: u32) -> Result<PortState, Fault>
        requires { 3 ≤ limit }
        ensures made { IfOk result (λ s. s ≡ new_port limit) }
        ensures fault { IfErr result (λ fault. fault ≡ Fault.Memory) }
    {
        let mut history = Vec::new(alloc);
        history.reserve(3)?;
        Ok(PortState {
            shown: None,
            last: None,
            given: false,
            closed: false,
            next: 0,
            history,
            limit,
        })
    }

    /// Whether no message is shown.
    pub fn is_free(&self) -> bool
        ensures { IsTrue result ↔ self.now.shown ≡ None }
    {
        self.shown.is_none()
    }

    /// Whether a last value or fault came, in time or late.
    pub fn was_given(&self) -> bool
        ensures { result ≡ self.now.given }
    {
        self.given
    }

    /// Shows a message and answers its ticket. A refusal hands back the very message.
    ///
    /// The faults are found in this order. `HistoryFull`: what was written, what is owed and 2 more pass the limit.
    /// `Memory`: room for these was refused. `Closed`: the port is closed; the history tells of it, and nothing else
    /// changes. After the first two all is as it was.
    pub fn show(&mut self, who: RactorNo, message: Message) -> Result<Ticket, (Fault, Message)>
        requires { self.old.shown ≡ None }
        ensures shown { self.new.shown ≡ (if is_ok result then Some (record { ticket = self.old.next; message = message }) else None) }
        ensures next { self.new.next ≡ (if is_ok result then self.old.next + 1 else self.old.next) }
        ensures last { self.new.last ≡ self.old.last }
        ensures given { self.new.given ≡ self.old.given }
        ensures closed { self.new.closed ≡ self.old.closed }
        ensures limit { self.new.limit ≡ self.old.limit }
        ensures history { self.new.history ≡ self.old.history ++ told_of_show result who message }
        ensures ticket { IfOk result (λ ticket. (ticket ≡ self.old.next) × (self.old.closed ≡ false) × HasEvents self.old) }
        ensures back { IfErr result (λ refusal. refusal.1 ≡ message) }
        ensures fault { IfErr result (λ refusal. Refusal refusal.0 self.old) }
        ensures replays { Replays PortStep empty_port self.new.history (shape_of self.new) }
        ensures tickets { IsTicketed self.new }
    {
        let owed = still_owed(&self.shown, &self.last, self.closed, self.given);
        if self.history.len() + owed + 2 > self.limit as usize {
            return Err((Fault::HistoryFull, message));
        }
        if self.history.reserve(owed + 2).is_err() {
            return Err((Fault::Memory, message));
        }
        let size = message.size();
        if self.closed {
            self.history.push_reserved(PortEvent::Refused { size, who });
            return Err((Fault::Closed, message));
        }
        let ticket = self.next;
        self.shown = Some(Shown { ticket, message });
        self.next += 1;
        self.history
            .push_reserved(PortEvent::Shown { ticket, size, who });
        Ok(ticket)
    }

    /// Leaves the last value or fault, closes the port with it, and answers its ticket. `Closed`, with the very value, is
    /// the only fault: the port was closed, and the history tells of it. Either way it counts as given. Takes no memory.
    pub fn show_last(&mut self, who: RactorNo, last: Last) -> Result<Ticket, (Fault, Last)>
        requires { self.old.given ≡ false }
        ensures last { self.new.last ≡ (if is_ok result then Some (record { ticket = self.old.next; last = last }) else self.old.last) }
        ensures next { self.new.next ≡ (if is_ok result then self.old.next + 1 else self.old.next) }
        ensures shown { self.new.shown ≡ self.old.shown }
        ensures given { self.new.given ≡ true }
        ensures closed { self.new.closed ≡ true }
        ensures limit { self.new.limit ≡ self.old.limit }
        ensures history { self.new.history ≡ self.old.history ++ told_of_last result who last }
        ensures ticket { IfOk result (λ ticket. (ticket ≡ self.old.next) × (self.old.closed ≡ false)) }
        ensures refused { IfErr result (λ refusal. (refusal ≡ (Fault.Closed, last)) × (self.old.closed ≡ true)) }
        ensures replays { Replays PortStep empty_port self.new.history (shape_of self.new) }
        ensures tickets { IsTicketed self.new }
    {
        let size = last.size();
        self.given = true;
        if self.closed {
            self.history.push_reserved(PortEvent::Late { size, who });
            return Err((Fault::Closed, last));
        }
        let ticket = self.next;
        let event = last.event(ticket, who);
        self.closed = true;
        self.next += 1;
        self.last = Some(LastGiven { ticket, last });
        self.history.push_reserved(event);
        Ok(ticket)
    }

    /// Takes the last value or fault where there is one, or else the shown message of an open port. Takes no memory.
    pub fn grab(&mut self, who: RactorNo) -> Grab
        ensures grabs { Grabs result self.old self.new who }
        ensures replays { Replays PortStep empty_port self.new.history (shape_of self.new) }
        ensures tickets { IsTicketed self.new }
    {
        if let Some(given) = self.last.take() {
            let ticket = given.ticket;
            let size = given.last.size();
            self.history
                .push_reserved(PortEvent::Grabbed { ticket, size, who });
            return match given.last {
                Last::Value(message) => Grab::LastValue(message),
                Last::Fault(message) => Grab::LastFault(message),
            };
        }
        if self.closed {
            return Grab::Closed;
        }
        match self.shown.take() {
            Some(shown) => {
                let ticket = shown.ticket;
                let size = shown.message.size();
                self.history
                    .push_reserved(PortEvent::Grabbed { ticket, size, who });
                Grab::Value(shown.message)
            }
            None => Grab::Nothing,
        }
    }

    /// What became of the message that was shown under this ticket. Takes no memory.
    pub fn settle(&self, ticket: Ticket) -> Settled
        ensures { Settles result self.now ticket }
    {
        match (is_shown_under(&self.shown, ticket), self.closed) {
            (false, _) => Settled::Taken,
            (true, false) => Settled::Shown,
            (true, true) => Settled::Closed,
        }
    }

    /// Takes back the message that is shown under this ticket. `NotShown`: it was taken, and all is as it was. Takes no
    /// memory.
    pub fn withdraw(&mut self, who: RactorNo, ticket: Ticket) -> Result<Message, Fault>
        ensures withdraws { Withdraws result self.old self.new who ticket }
        ensures replays { Replays PortStep empty_port self.new.history (shape_of self.new) }
        ensures tickets { IsTicketed self.new }
    {
        if !is_shown_under(&self.shown, ticket) {
            return Err(Fault::NotShown);
        }
        let Some(shown) = self.shown.take() else {
            return Err(Fault::NotShown);
        };
        let ticket = shown.ticket;
        let size = shown.message.size();
        self.history
            .push_reserved(PortEvent::Withdrawn { ticket, size, who });
        Ok(shown.message)
    }

    /// Closes the port and answers whether it was closed already. What is inside stays. A second close leaves no event.
    /// Takes no memory.
    pub fn close(&mut self, who: RactorNo) -> bool
        ensures answer { result ≡ self.old.closed }
        ensures after { self.new ≡ record self.old { closed = true; history = self.old.history ++ cond self.old.closed [] (Closed who ∷ []) } }
        ensures replays { Replays PortStep empty_port self.new.history (shape_of self.new) }
        ensures tickets { IsTicketed self.new }
    {
        if self.closed {
            return true;
        }
        self.closed = true;
        self.history.push_reserved(PortEvent::Closed { who });
        false
    }

    /// What happened so far.
    pub fn history(&self) -> &[PortEvent]
        ensures events { result.now ≡ self.now.history }
        ensures replays { Replays PortStep empty_port self.now.history (shape_of self.now) }
        ensures tickets { IsTicketed self.now }
    {
        self.history.as_slice()
    }
}
