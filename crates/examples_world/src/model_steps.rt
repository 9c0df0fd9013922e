//! The steps of the plain model.

use crate::model::{
    Holder, Inbox, Kind, Mark, Model, Object, Parcel, Told, Value, mark_of, mark_of_part,
};
use rr_world::{Action, LastKind, Operand, Step};
use std::alloc::{AllocError, Global};

/// The place of a ractor or an inbox of this number, counted from 1.
fn place_of(number: u32, count: usize) -> Option<usize> {
    let place = (number as usize).checked_sub(1)?;
    if place < count { Some(place) } else { None }
}

/// Whether the history has room for a message: for its coming and its going, beside what it owes.
fn has_room(inbox: &Inbox, limit: u32) -> bool {
    let owed = inbox
        .inside
        .len()
        .saturating_add(if inbox.closed { 0 } else { 1 });
    inbox.events.saturating_add(owed).saturating_add(2) <= limit as usize
}

impl Model {
    /// The names that the copies of the objects have that were found: the next ones, in their order.
    fn names_of_copies(&self, alloc: Global, found: &[bool]) -> Result<Vec<usize>, AllocError> {
        let mut names = Vec::new(alloc);
        let mut next = self.objects.len();
        for found in found {
            names.push(next)?;
            if *found {
                next = next.saturating_add(1);
            }
        }
        Ok(names)
    }

    /// The copy of a value among copies of these names.
    fn copied(value: Value, names: &[usize]) -> Value {
        match value {
            Value::At(name) => names.get(name).map_or(value, |name| Value::At(*name)),
            plain => plain,
        }
    }

    /// A copy of an object, which is in a hand.
    fn copy(
        &self,
        alloc: Global,
        name: usize,
        names: &[usize],
        hand: usize,
    ) -> Result<Option<Object>, AllocError> {
        let Some(object) = self.objects.get(name) else {
            return Ok(None);
        };
        let mut parts = Vec::new(alloc);
        for (mark, value) in &object.parts {
            parts.push((*mark, Model::copied(*value, names)))?;
        }
        Ok(Some(Object {
            holder: Holder::Hand(hand),
            kind: object.kind,
            frozen: object.frozen,
            bytes: object.bytes.as_slice().to_vec(alloc)?,
            parts,
        }))
    }

    /// Copies of the objects that were found come into a hand, and answers how many there are.
    fn copy_all(
        &mut self,
        alloc: Global,
        found: &[bool],
        names: &[usize],
        hand: usize,
    ) -> Result<usize, AllocError> {
        let mut size = 0usize;
        for name in 0..found.len() {
            if found.get(name) == Some(&true)
                && let Some(copy) = self.copy(alloc, name, names, hand)?
            {
                self.objects.push(copy)?;
                size = size.saturating_add(1);
            }
        }
        Ok(size)
    }

    /// The objects that were found are shells, and the hand knows whose.
    fn empty_all(
        &mut self,
        alloc: Global,
        found: &[bool],
        names: &[usize],
        who: usize,
    ) -> Result<(), AllocError> {
        for (name, copy) in names.iter().enumerate() {
            if found.get(name) == Some(&true)
                && let Some(object) = self.objects.get_mut(name)
            {
                object.kind = Kind::Shell;
                object.frozen = false;
                object.bytes = Vec::new(alloc);
                object.parts = Vec::new(alloc);
                if let Some(actor) = self.actors.get_mut(who) {
                    actor.home.push((name, *copy))?;
                }
            }
        }
        Ok(())
    }

    /// A copy of a value comes into the hand, or what it leads to is moved there.
    fn pack(
        &mut self,
        alloc: Global,
        who: usize,
        operand: Operand,
        moves: bool,
    ) -> Result<Told, AllocError> {
        let Some(value) = self.named(who, operand) else {
            return Ok(Told::NotEnabled);
        };
        if !self.is_free(who) {
            return Ok(Told::NotEnabled);
        }
        if self.leads_to_shell(alloc, value)? {
            return Ok(Told::HoldsShell);
        }
        if self.leads_to_shareable(alloc, value)? {
            return Ok(Told::NotEnabled);
        }
        let found = self.reached_unshared(alloc, value)?;
        let names = self.names_of_copies(alloc, found.as_slice())?;
        let size = self.copy_all(alloc, found.as_slice(), names.as_slice(), who)?;
        if moves {
            self.empty_all(alloc, found.as_slice(), names.as_slice(), who)?;
        }
        let root = Model::copied(value, names.as_slice());
        self.take_in_hand(who, Some(Parcel { root, size }), moves);
        Ok(Told::Done)
    }

    /// What is in the place of a copy of the home.
    fn returned(value: Value, home: &[(usize, usize)]) -> Value {
        for (name, copy) in home {
            if value == Value::At(*copy) {
                return Value::At(*name);
            }
        }
        value
    }

    /// A shell is again what left it.
    fn refill(
        &mut self,
        alloc: Global,
        name: usize,
        copy: usize,
        home: &[(usize, usize)],
    ) -> Result<(), AllocError> {
        let mut parts = Vec::new(alloc);
        let Some(left) = self.objects.get(copy) else {
            return Ok(());
        };
        let (kind, frozen) = (left.kind, left.frozen);
        let bytes = left.bytes.as_slice().to_vec(alloc)?;
        for (mark, value) in &left.parts {
            parts.push((*mark, Model::returned(*value, home)))?;
        }
        if let Some(object) = self.objects.get_mut(name) {
            object.kind = kind;
            object.frozen = frozen;
            object.bytes = bytes;
            object.parts = parts;
        }
        Ok(())
    }

    fn put_back(&mut self, alloc: Global, who: usize) -> Result<Told, AllocError> {
        let home = match self.actors.get(who) {
            Some(actor) if actor.moved => actor.home.as_slice().to_vec(alloc)?,
            _ => return Ok(Told::NotEnabled),
        };
        for (name, copy) in &home {
            self.refill(alloc, *name, *copy, home.as_slice())?;
        }
        self.hand_on(Holder::Hand(who), Holder::Nobody);
        self.take_in_hand(who, None, false);
        Ok(Told::Done)
    }

    pub fn hand(&self, who: usize) -> Option<Parcel> {
        self.actors.get(who)?.hand
    }

    /// Whether nothing is in the hand, no home and no plan either.
    pub fn is_free(&self, who: usize) -> bool {
        self.actors.get(who).is_some_and(|actor| {
            actor.hand.is_none() && actor.waits.is_none() && actor.plan.is_empty()
        })
    }

    /// What is in the hand is this, which was moved or not; a home stays with what was moved alone.
    pub fn take_in_hand(&mut self, who: usize, hand: Option<Parcel>, moved: bool) {
        if let Some(actor) = self.actors.get_mut(who) {
            actor.hand = hand;
            actor.moved = moved;
            actor.waits = None;
            actor.plan.truncate(0);
            actor.published = false;
            if !moved {
                actor.home.truncate(0);
            }
        }
    }

    fn discard(&mut self, who: usize) -> Told {
        if self.hand(who).is_none() && !self.has_plan(who) {
            return Told::NotEnabled;
        }
        self.hand_on(Holder::Hand(who), Holder::Nobody);
        self.take_in_hand(who, None, false);
        Told::Done
    }

    fn offer(&mut self, who: usize, to: usize) -> Result<Told, AllocError> {
        let Some(parcel) = self.hand(who) else {
            return Ok(Told::NotEnabled);
        };
        let limit = self.limits.events;
        let Some(inbox) = self.inboxes.get_mut(to) else {
            return Ok(Told::NotEnabled);
        };
        if !has_room(inbox, limit) {
            return Ok(Told::HistoryFull);
        }
        inbox.events = inbox.events.saturating_add(1);
        if inbox.closed {
            return Ok(Told::Closed);
        }
        let ticket = inbox.next;
        inbox.next = ticket.saturating_add(1);
        inbox.inside.push((ticket, parcel))?;
        self.hand_on(Holder::Hand(who), Holder::Inbox(to, ticket));
        self.take_in_hand(who, None, false);
        Ok(Told::Offered(ticket))
    }

    fn accept(&mut self, who: usize) -> Told {
        if !self.is_free(who) {
            return Told::NotEnabled;
        }
        let Some(inbox) = self.inboxes.get_mut(who) else {
            return Told::NotEnabled;
        };
        if inbox.inside.is_empty() {
            return if inbox.closed {
                Told::EmptyAndClosed
            } else {
                Told::Empty
            };
        }
        let (ticket, parcel) = inbox.inside.remove(0);
        inbox.events = inbox.events.saturating_add(1);
        self.hand_on(Holder::Inbox(who, ticket), Holder::Hand(who));
        self.take_in_hand(who, Some(parcel), false);
        Told::Done
    }

    fn open_message(&mut self, who: usize) -> Result<Told, AllocError> {
        let limit = self.limits.slots as usize;
        let Some(actor) = self.actors.get_mut(who) else {
            return Ok(Told::NotEnabled);
        };
        let Some(parcel) = actor.hand else {
            return Ok(Told::NotEnabled);
        };
        let slots = actor.slots.saturating_add(parcel.size);
        if slots > limit {
            return Ok(Told::TooManySlots);
        }
        actor.slots = slots;
        actor.roots.push(parcel.root)?;
        self.take_in_hand(who, None, false);
        self.hand_on(Holder::Hand(who), Holder::Ractor(who));
        Ok(Told::Done)
    }

    fn close(&mut self, to: usize) -> Told {
        let Some(inbox) = self.inboxes.get_mut(to) else {
            return Told::NotEnabled;
        };
        let already = inbox.closed;
        if !already {
            inbox.closed = true;
            inbox.events = inbox.events.saturating_add(1);
        }
        Told::WasClosed(already)
    }

    fn start(&mut self, alloc: Global) -> Result<Told, AllocError> {
        let count = self.actors.len();
        if count >= self.limits.ractors as usize {
            return Ok(Told::TooManyRactors);
        }
        self.begin(alloc)?;
        Ok(Told::Started(count.saturating_add(1) as u32))
    }

    /// All that a ractor and its hand hold goes.
    fn end(&mut self, alloc: Global, who: usize) -> Told {
        self.hand_on(Holder::Ractor(who), Holder::Nobody);
        self.hand_on(Holder::Hand(who), Holder::Nobody);
        self.take_in_hand(who, None, false);
        if let Some(actor) = self.actors.get_mut(who) {
            actor.roots = Vec::new(alloc);
            actor.slots = 0;
            actor.runs = false;
        }
        Told::Done
    }

    /// Whether a ractor has not ended.
    fn runs(&self, who: usize) -> bool {
        self.actors.get(who).is_some_and(|actor| actor.runs)
    }

    /// What a step answers, and what it leaves.
    pub fn step(&mut self, alloc: Global, step: &Step) -> Result<Told, AllocError> {
        let count = self.actors.len();
        let Some(who) = place_of(step.who.0, count) else {
            return Ok(Told::NotEnabled);
        };
        if !self.runs(who) {
            return Ok(Told::NotEnabled);
        }
        match step.action {
            Action::Alloc(new) => self.alloc(alloc, who, new),
            Action::Freeze(operand) => Ok(self.freeze(who, operand)),
            Action::Append(text, byte) => self.append(who, text, byte),
            Action::Clear(text) => Ok(self.clear(who, text)),
            Action::SetPair(hash, key, value) => self.set_pair(who, hash, key, value),
            Action::DeletePair(hash, place) => Ok(self.delete_pair(who, hash, place as usize)),
            Action::Take(array, place) => Ok(self.take(who, array, place as usize)),
            Action::SetRaised(exception, part, value) => {
                self.change(
                    who,
                    exception,
                    Kind::Exception,
                    Some(mark_of_part(part)),
                    value,
                )
            }
            Action::Push(array, value) => self.change(who, array, Kind::Array, None, value),
            Action::Write(array, place, value) => {
                self.change(
                    who,
                    array,
                    Kind::Array,
                    Some(Mark::Place(place as usize)),
                    value,
                )
            }
            Action::SetField(object, name, value) => self.set_field(who, object, name.0, value),
            Action::Read(operand, label) => self.read(who, operand, mark_of(label)),
            Action::Pack(operand) => self.pack(alloc, who, operand, false),
            Action::Detach(operand) => self.pack(alloc, who, operand, true),
            Action::Plan(operand) => self.plan(alloc, who, operand),
            Action::Publish => Ok(self.publish(who)),
            Action::Promote => Ok(self.promote(who)),
            Action::PutBack => self.put_back(alloc, who),
            Action::Discard => Ok(self.discard(who)),
            Action::Offer(to) => match place_of(to.0, count) {
                Some(to) => self.offer(who, to),
                None => Ok(Told::NotEnabled),
            },
            Action::Accept => Ok(self.accept(who)),
            Action::Open => self.open_message(who),
            Action::Close(to) => match place_of(to.0, count) {
                Some(to) => Ok(self.close(to)),
                None => Ok(Told::NotEnabled),
            },
            Action::ClosePort(to) => Ok(match place_of(to.0, count) {
                Some(to) => self.close_port(to),
                None => Told::NotEnabled,
            }),
            Action::ShowLast(kind) => Ok(self.show_last(who, matches!(kind, LastKind::Fault))),
            Action::Show => Ok(self.show(who)),
            Action::Withdraw(ticket) => Ok(self.withdraw(who, ticket)),
            Action::Settle(ticket) => Ok(self.settle(who, ticket)),
            Action::Grab(to) => Ok(match place_of(to.0, count) {
                Some(to) => self.grab(who, to),
                None => Told::NotEnabled,
            }),
            Action::Start => self.start(alloc),
            Action::End => Ok(self.end(alloc, who)),
            Action::SetConst(name, value) => match self.public(who, value) {
                Some(value) => self.set_constant(who, name, Some(value)),
                None => Ok(Told::NotEnabled),
            },
            Action::SetOwn(name) => self.set_constant(who, name, None),
            Action::GetConst(name) => self.get_constant(who, name),
        }
    }
}
