//! A slow plain model of the graph machine: the graph is a list of objects with their holders, and each question is
//! answered by passes over all of it.

use rr_base::{Fault, LimitKind, Limits};
use rr_space::Label;
use rr_world::{LastKind, Operand, RaisedPart, Reply, Settled};
use std::alloc::{AllocError, Global};

/// A value: an immediate, or an object by its name.
#[derive(Clone, Copy, Debug, PartialEq, Eq, Drop)]
pub enum Value {
    Nil,
    Truth(bool),
    Int(i64),
    Symbol(u32),
    Class(u32),
    Ractor(u32),
    At(usize),
}

/// Who holds an object. Ractors and inboxes count from 0; a message inside an inbox has its ticket.
#[derive(Clone, Copy, Debug, PartialEq, Eq, Drop)]
pub enum Holder {
    Ractor(usize),
    Hand(usize),
    Inbox(usize, u32),
    Port(usize, u32),
    /// Each ractor may have it: it is in a published cluster.
    Cluster(u32),
    Nobody,
}

#[derive(Clone, Copy, Debug, PartialEq, Eq, Drop)]
pub enum Kind {
    Text,
    Array,
    Hash,
    Plain,
    Exception,
    /// What was moved away leaves it.
    Shell,
}

/// What a value stands under: an element by its place, a field by its name, the key or the value of a pair by its place, or a
/// part of an exception.
#[derive(Clone, Copy, Debug, PartialEq, Eq, Drop)]
pub enum Mark {
    Place(usize),
    Field(u32),
    Key(usize),
    Value(usize),
    Message,
    Cause,
    Ractor,
}

#[derive(Drop)]
pub struct Object {
    pub holder: Holder,
    pub kind: Kind,
    pub frozen: bool,
    /// Of a text.
    pub bytes: Vec<u8>,
    pub parts: Vec<(Mark, Value)>,
}

#[derive(Clone, Copy, Debug, PartialEq, Eq, Drop)]
pub struct Parcel {
    pub root: Value,
    pub size: usize,
}

#[derive(Drop)]
pub struct Actor {
    pub roots: Vec<Value>,
    pub hand: Option<Parcel>,
    /// Whether the message in the hand was moved, and the shells that it left, each with what left it.
    pub moved: bool,
    pub home: Vec<(usize, usize)>,
    /// The ticket under which the moved message is shown that left the home.
    pub waits: Option<u32>,
    /// The objects of the plan in the hand; none where there is no plan.
    pub plan: Vec<usize>,
    /// Whether that plan is published.
    pub published: bool,
    pub slots: usize,
    /// Whether it has not ended.
    pub runs: bool,
}

#[derive(Drop)]
pub struct Inbox {
    pub inside: Vec<(u32, Parcel)>,
    pub closed: bool,
    pub next: u32,
    pub events: usize,
}

/// A port: the shown message, and a last value or a last fault, with their tickets.
#[derive(Drop)]
pub struct Port {
    pub shown: Option<(u32, Parcel)>,
    pub last: Option<(u32, Parcel, bool)>,
    pub given: bool,
    pub closed: bool,
    pub next: u32,
    pub events: usize,
}

/// What a step answers.
#[derive(Clone, Copy, Debug, PartialEq, Eq, Drop)]
pub enum Told {
    NotEnabled,
    Done,
    Offered(u32),
    Empty,
    EmptyAndClosed,
    WasClosed(bool),
    Started(u32),
    Published(u32),
    GrabbedLast(bool),
    Settled(Settled),
    NotShown,
    Closed,
    HistoryFull,
    TooManySlots,
    TooManyRactors,
    HoldsShell,
    NotShareable,
    Unknown,
    NotMain,
    OfMain,
    Other,
}

#[derive(Drop)]
pub struct Model {
    pub objects: Vec<Object>,
    pub actors: Vec<Actor>,
    pub inboxes: Vec<Inbox>,
    pub ports: Vec<Port>,
    /// By the number of its name, what a constant has: a value that each ractor may read, or none of these.
    pub constants: Vec<Option<Option<Value>>>,
    /// How many clusters were published.
    pub clusters: u32,
    /// How many events the store's history has.
    pub events: usize,
    pub limits: Limits,
}

/// What a reply of the World tells.
pub fn what_it_tells(reply: &Reply) -> Told {
    match reply {
        Reply::NotEnabled => Told::NotEnabled,
        Reply::Done => Told::Done,
        Reply::Offered(ticket) => Told::Offered(*ticket),
        Reply::Empty => Told::Empty,
        Reply::EmptyAndClosed => Told::EmptyAndClosed,
        Reply::WasClosed(already) => Told::WasClosed(*already),
        Reply::Started(number) => Told::Started(u32::from(number.0)),
        Reply::Published(number) => Told::Published(*number),
        Reply::GrabbedLast(LastKind::Value) => Told::GrabbedLast(false),
        Reply::GrabbedLast(LastKind::Fault) => Told::GrabbedLast(true),
        Reply::Settled(settled) => Told::Settled(*settled),
        Reply::Refused(Fault::NotShown) => Told::NotShown,
        Reply::Refused(Fault::Closed) => Told::Closed,
        Reply::Refused(Fault::HistoryFull) => Told::HistoryFull,
        Reply::Refused(Fault::Limit(LimitKind::Slots)) => Told::TooManySlots,
        Reply::Refused(Fault::Limit(LimitKind::Ractors)) => Told::TooManyRactors,
        Reply::Refused(Fault::HoldsShell) => Told::HoldsShell,
        Reply::Refused(Fault::NotShareable) => Told::NotShareable,
        Reply::Refused(Fault::Unknown(_)) => Told::Unknown,
        Reply::Refused(Fault::NotMain) => Told::NotMain,
        Reply::OfMain => Told::OfMain,
        _ => Told::Other,
    }
}

/// The label that is read.
pub fn mark_of(label: Label) -> Option<Mark> {
    match label {
        Label::Place(place) => Some(Mark::Place(place)),
        Label::Field(name) => Some(Mark::Field(name.0)),
        Label::Key(place) => Some(Mark::Key(place)),
        Label::Value(place) => Some(Mark::Value(place)),
        Label::Message => Some(Mark::Message),
        Label::Cause => Some(Mark::Cause),
        Label::Ractor => Some(Mark::Ractor),
    }
}

/// What a part of an exception stands under.
pub fn mark_of_part(part: RaisedPart) -> Mark {
    match part {
        RaisedPart::Message => Mark::Message,
        RaisedPart::Cause => Mark::Cause,
        RaisedPart::Ractor => Mark::Ractor,
    }
}

/// The first value under a label.
pub fn first_under(object: &Object, wanted: Mark) -> Option<Value> {
    for (mark, value) in &object.parts {
        if *mark == wanted {
            return Some(*value);
        }
    }
    None
}

/// A value comes in the place of the first under the label, or behind all.
pub fn put(object: &mut Object, wanted: Mark, new: Value) -> Result<(), AllocError> {
    for (mark, value) in &mut object.parts {
        if *mark == wanted {
            *value = new;
            return Ok(());
        }
    }
    object.parts.push((wanted, new))?;
    Ok(())
}

impl Model {
    /// One ractor without objects.
    pub fn new(alloc: Global, limits: Limits) -> Result<Model, AllocError> {
        let mut model = Model {
            objects: Vec::new(alloc),
            actors: Vec::new(alloc),
            inboxes: Vec::new(alloc),
            ports: Vec::new(alloc),
            constants: Vec::new(alloc),
            clusters: 0,
            events: 0,
            limits,
        };
        model.begin(alloc)?;
        Ok(model)
    }

    /// A ractor without objects comes, its inbox and its port.
    pub fn begin(&mut self, alloc: Global) -> Result<(), AllocError> {
        self.actors.push(Actor {
            roots: Vec::new(alloc),
            hand: None,
            moved: false,
            home: Vec::new(alloc),
            waits: None,
            plan: Vec::new(alloc),
            published: false,
            slots: 0,
            runs: true,
        })?;
        self.inboxes.push(Inbox {
            inside: Vec::new(alloc),
            closed: false,
            next: 0,
            events: 0,
        })?;
        self.ports.push(Port {
            shown: None,
            last: None,
            given: false,
            closed: false,
            next: 0,
            events: 0,
        })?;
        Ok(())
    }

    /// The value that an operand is.
    pub fn named(&self, who: usize, operand: Operand) -> Option<Value> {
        match operand {
            Operand::Root(number) => {
                let actor = self.actors.get(who)?;
                actor.roots.get(number as usize).copied()
            }
            Operand::Nil => Some(Value::Nil),
            Operand::Truth(holds) => Some(Value::Truth(holds)),
            Operand::Int(number) => Some(Value::Int(number)),
            Operand::Symbol(symbol) => Some(Value::Symbol(symbol.0)),
            Operand::Class(class) => Some(Value::Class(class.0)),
            Operand::Ractor(ractor) => Some(Value::Ractor(ractor.0)),
        }
    }

    /// The name of the object that an operand is, where the ractor holds it.
    pub fn own(&self, who: usize, operand: Operand) -> Option<usize> {
        match self.named(who, operand)? {
            Value::At(name) if self.objects.get(name)?.holder == Holder::Ractor(who) => Some(name),
            _ => None,
        }
    }

    /// The same, where the object is of a kind and not frozen.
    pub fn open(&self, who: usize, operand: Operand, kind: Kind) -> Option<usize> {
        let name = self.own(who, operand)?;
        let object = self.objects.get(name)?;
        if object.kind == kind && !object.frozen {
            Some(name)
        } else {
            None
        }
    }

    /// Marks what an object leads to, and answers whether that was new.
    fn mark_parts(&self, name: usize, found: &mut [bool]) -> bool {
        let mut more = false;
        let Some(object) = self.objects.get(name) else {
            return false;
        };
        for (_, value) in &object.parts {
            if let Value::At(end) = value
                && let Some(mark) = found.get_mut(*end)
                && !*mark
            {
                *mark = true;
                more = true;
            }
        }
        more
    }

    /// Marks what each marked object leads to, and answers whether that was new.
    fn pass(&self, found: &mut [bool]) -> bool {
        let mut more = false;
        for name in 0..self.objects.len() {
            if found.get(name) == Some(&true) && self.mark_parts(name, found) {
                more = true;
            }
        }
        more
    }

    /// Which objects a value leads to.
    pub fn reached(&self, alloc: Global, value: Value) -> Result<Vec<bool>, AllocError> {
        let mut found = Vec::new(alloc);
        for name in 0..self.objects.len() {
            found.push(value == Value::At(name))?;
        }
        for _ in 0..self.objects.len() {
            if !self.pass(found.as_mut_slice()) {
                break;
            }
        }
        Ok(found)
    }

    /// Whether a value leads to frozen objects alone.
    pub fn is_shareable(&self, alloc: Global, value: Value) -> Result<bool, AllocError> {
        let found = self.reached(alloc, value)?;
        for (object, found) in self.objects.iter().zip(found.iter()) {
            if *found && !object.frozen {
                return Ok(false);
            }
        }
        Ok(true)
    }

    /// Whether an object is in a published cluster.
    pub fn is_shared(&self, name: usize) -> bool {
        match self.objects.get(name) {
            Some(object) => matches!(object.holder, Holder::Cluster(_)),
            None => false,
        }
    }

    /// Which objects a value leads to that are in no published cluster.
    pub fn reached_unshared(&self, alloc: Global, value: Value) -> Result<Vec<bool>, AllocError> {
        let mut found = self.reached(alloc, value)?;
        for (name, found) in found.iter_mut().enumerate() {
            if self.is_shared(name) {
                *found = false;
            }
        }
        Ok(found)
    }

    /// Whether a value leads to an object that is shareable, and in no published cluster.
    pub fn leads_to_shareable(&self, alloc: Global, value: Value) -> Result<bool, AllocError> {
        let found = self.reached_unshared(alloc, value)?;
        for name in 0..self.objects.len() {
            if found.get(name) == Some(&true) && self.is_shareable(alloc, Value::At(name))? {
                return Ok(true);
            }
        }
        Ok(false)
    }

    /// Whether a value leads to a shell.
    pub fn leads_to_shell(&self, alloc: Global, value: Value) -> Result<bool, AllocError> {
        let found = self.reached(alloc, value)?;
        for (object, found) in self.objects.iter().zip(found.iter()) {
            if *found && object.kind == Kind::Shell {
                return Ok(true);
            }
        }
        Ok(false)
    }

    /// All that one holds is held by another.
    pub fn hand_on(&mut self, from: Holder, to: Holder) {
        for object in &mut self.objects {
            if object.holder == from {
                object.holder = to;
            }
        }
    }
}

/// The kinds of answers, of which there are as many as this.
pub const KINDS: usize = 24;

impl Told {
    /// The number of its kind.
    pub fn kind(self) -> usize {
        match self {
            Told::NotEnabled => 0,
            Told::Done => 1,
            Told::Offered(_) => 2,
            Told::Empty => 3,
            Told::EmptyAndClosed => 4,
            Told::WasClosed(false) => 5,
            Told::WasClosed(true) => 6,
            Told::Started(_) => 7,
            Told::Closed => 8,
            Told::HistoryFull => 9,
            Told::TooManySlots => 10,
            Told::TooManyRactors => 11,
            Told::HoldsShell => 12,
            Told::NotShareable => 13,
            Told::Unknown => 14,
            Told::NotMain => 15,
            Told::OfMain => 16,
            Told::GrabbedLast(false) => 17,
            Told::GrabbedLast(true) => 18,
            Told::NotShown => 19,
            Told::Settled(Settled::Taken) => 20,
            Told::Settled(Settled::Shown) => 21,
            Told::Settled(Settled::Closed) => 22,
            Told::Published(_) => 23,
            Told::Other => 24,
        }
    }
}
