//! The state of an inbox.

ghost use Rattle.std.specs.Prelude.{◌≡◌, ◌+◌, ◌≤◌, ◌<◌, ◌^◌, ◌++◌, ◌∷◌, [], cond, length, is_ok, if◌then◌else◌, true, false, IfOk, IfErr};
ghost use Rattle.rr_base.specs.Replay.{Replays};
ghost use Rattle.rr_base.specs.Inbox.{InboxStep, empty_inbox};
ghost use Rattle.rr_base.specs.declared.event.InboxEvent.TheVariants.{Closed};
ghost use Rattle.rr_copy.specs.Messages.{size_of};
ghost use Rattle.rr_inbox.specs.Inboxes.{HasEvents, IsTicketed, new_inbox, shape_of, told_of_offer};
ghost use Rattle.rr_inbox.specs.Answers.{Refusal, Takes};

use super::entry::{Entry, Front};
use rr_base::{Fault, InboxEvent, RactorNo, Ticket};
use rr_copy::Message;
use std::alloc::Global;
use std::collections::VecDeque;
use std::marker::Model;

/// The messages of an inbox in their order, whether it is closed, and what happened to it.
///
/// The history owes an event for each message inside and one for the close while the inbox is open; room for them is
/// kept, so that `accept` and `close` take no memory.
#[derive(Drop)]
pub struct InboxState {
    queue: VecDeque<Entry>,
    closed: bool,
    next: Ticket,
    history: Vec<InboxEvent>,
    limit: u32,
}

impl Model for InboxState {
    ghost use Rattle.std.specs.Prelude.{vec_capacity};
    ghost use Rattle.rr_inbox.specs.Inboxes.{Inbox, Kept};

    ghost Value = { Inbox };

    ghost view = { λ s. record { inside = s.queue.items; closed = s.closed; next = s.next; history = s.history.items; limit = s.limit } };

    ghost invariant = { λ s. Kept (record { inside = s.queue.items; closed = s.closed; next = s.next; history = s.history.items; limit = s.limit }) (vec_capacity s.history) };
}

// The events that a history owes for so many messages and for a close to come.
fn still_owed(queued: usize, closed: bool) -> usize
    requires { queued < 2 ^ 33 }
    ensures { result ≡ queued + cond closed 0 1 }
{
    if closed { queued } else { queued + 1 }
}

impl InboxState {
    /// An open inbox without messages, whose history may have `limit` events. `Memory` is the only fault.
    pub fn new(alloc: Global, limit: u32) -> Result<InboxState, Fault>
        requires { 1 ≤ limit }
        ensures made { IfOk result (λ s. s ≡ new_inbox limit) }
        ensures fault { IfErr result (λ fault. fault ≡ Fault.Memory) }
    {
        let mut history = Vec::new(alloc);
        history.reserve(1)?;
        Ok(InboxState {
            queue: VecDeque::new(alloc),
            closed: false,
            next: 0,
            history,
            limit,
        })
    }

    /// Puts a message behind the others and answers its ticket. A refusal hands back the very message.
    ///
    /// The faults are found in this order. `HistoryFull`: what was written, what is owed and 2 more pass the limit.
    /// `Memory`: room for these was refused. `Closed`: the inbox is closed; the history tells of it, and nothing else
    /// changes. After the first two all is as it was.
    pub fn offer(&mut self, who: RactorNo, message: Message) -> Result<Ticket, (Fault, Message)>
        ensures inside { self.new.inside ≡ (if is_ok result then self.old.inside ++ record { ticket = self.old.next; message = message } ∷ [] else self.old.inside) }
        ensures next { self.new.next ≡ (if is_ok result then self.old.next + 1 else self.old.next) }
        ensures closed { self.new.closed ≡ self.old.closed }
        ensures limit { self.new.limit ≡ self.old.limit }
        ensures history { self.new.history ≡ self.old.history ++ told_of_offer result who message }
        ensures ticket { IfOk result (λ ticket. (ticket ≡ self.old.next) × (self.old.closed ≡ false) × HasEvents self.old) }
        ensures back { IfErr result (λ refusal. refusal.1 ≡ message) }
        ensures fault { IfErr result (λ refusal. Refusal refusal.0 self.old) }
        ensures replays { Replays InboxStep empty_inbox self.new.history (shape_of self.new) }
        ensures tickets { IsTicketed self.new }
    {
        let owed = still_owed(self.queue.len(), self.closed);
        if self.history.len() + owed + 2 > self.limit as usize {
            return Err((Fault::HistoryFull, message));
        }
        if self.history.reserve(owed + 2).is_err() {
            return Err((Fault::Memory, message));
        }
        let size = message.size();
        if self.closed {
            self.history
                .push_reserved(InboxEvent::Refused { size, who });
            return Err((Fault::Closed, message));
        }
        let ticket = self.next;
        if let Err(refused) = self.queue.push_back(Entry { ticket, message }) {
            return Err((Fault::Memory, refused.value.message));
        }
        self.next += 1;
        self.history
            .push_reserved(InboxEvent::Offered { ticket, size, who });
        Ok(ticket)
    }

    /// Takes the first message. Takes no memory.
    pub fn accept(&mut self, who: RactorNo) -> Front
        ensures takes { Takes result self.old self.new who }
        ensures replays { Replays InboxStep empty_inbox self.new.history (shape_of self.new) }
        ensures tickets { IsTicketed self.new }
    {
        match self.queue.pop_front() {
            Some(entry) => {
                let size = entry.message.size();
                self.history.push_reserved(InboxEvent::Accepted {
                    ticket: entry.ticket,
                    size,
                    who,
                });
                Front::Message(entry.message)
            }
            None if self.closed => Front::EmptyAndClosed,
            None => Front::Empty,
        }
    }

    /// Closes the inbox and answers whether it was closed already. The messages inside stay. A second close leaves no
    /// event. Takes no memory.
    pub fn close(&mut self, who: RactorNo) -> bool
        ensures answer { result ≡ self.old.closed }
        ensures after { self.new ≡ record self.old { closed = true; history = self.old.history ++ cond self.old.closed [] (Closed who ∷ []) } }
        ensures replays { Replays InboxStep empty_inbox self.new.history (shape_of self.new) }
        ensures tickets { IsTicketed self.new }
    {
        if self.closed {
            return true;
        }
        self.closed = true;
        self.history.push_reserved(InboxEvent::Closed { who });
        false
    }

    /// What happened so far.
    pub fn history(&self) -> &[InboxEvent]
        ensures events { result.now ≡ self.now.history }
        ensures replays { Replays InboxStep empty_inbox self.now.history (shape_of self.now) }
        ensures tickets { IsTicketed self.now }
    {
        self.history.as_slice()
    }
}
