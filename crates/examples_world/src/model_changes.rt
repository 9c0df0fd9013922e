//! The plain model's steps that change objects, and that read them.

use crate::model::{Holder, Kind, Mark, Model, Object, Told, Value, first_under, put};
use rr_world::{NewObject, Operand};
use std::alloc::{AllocError, Global};

fn kind_of(new: NewObject) -> Kind {
    match new {
        NewObject::Text => Kind::Text,
        NewObject::Array => Kind::Array,
        NewObject::Hash => Kind::Hash,
        NewObject::Object(_) => Kind::Plain,
        NewObject::Exception(_) => Kind::Exception,
    }
}

/// What a new object has: an exception its three parts, and all else nothing.
fn parts_of(alloc: Global, new: NewObject) -> Result<Vec<(Mark, Value)>, AllocError> {
    let mut parts = Vec::new(alloc);
    if let NewObject::Exception(_) = new {
        parts.push((Mark::Message, Value::Nil))?;
        parts.push((Mark::Cause, Value::Nil))?;
        parts.push((Mark::Ractor, Value::Nil))?;
    }
    Ok(parts)
}

impl Model {
    pub fn alloc(&mut self, alloc: Global, who: usize, new: NewObject) -> Result<Told, AllocError> {
        let name = self.objects.len();
        let Some(actor) = self.actors.get_mut(who) else {
            return Ok(Told::NotEnabled);
        };
        if actor.slots >= self.limits.slots as usize {
            return Ok(Told::TooManySlots);
        }
        actor.slots = actor.slots.saturating_add(1);
        actor.roots.push(Value::At(name))?;
        self.objects.push(Object {
            holder: Holder::Ractor(who),
            kind: kind_of(new),
            frozen: false,
            bytes: Vec::new(alloc),
            parts: parts_of(alloc, new)?,
        })?;
        Ok(Told::Done)
    }

    pub fn freeze(&mut self, who: usize, operand: Operand) -> Told {
        let Some(name) = self.own(who, operand) else {
            return Told::NotEnabled;
        };
        match self.objects.get_mut(name) {
            Some(object) if object.kind != Kind::Shell => {
                object.frozen = true;
                Told::Done
            }
            _ => Told::NotEnabled,
        }
    }

    /// A byte comes behind those of a text.
    pub fn append(&mut self, who: usize, text: Operand, byte: u8) -> Result<Told, AllocError> {
        let Some(name) = self.open(who, text, Kind::Text) else {
            return Ok(Told::NotEnabled);
        };
        if let Some(object) = self.objects.get_mut(name) {
            object.bytes.push(byte)?;
        }
        Ok(Told::Done)
    }

    /// A text has no bytes any more.
    pub fn clear(&mut self, who: usize, text: Operand) -> Told {
        let Some(name) = self.open(who, text, Kind::Text) else {
            return Told::NotEnabled;
        };
        if let Some(object) = self.objects.get_mut(name) {
            object.bytes.truncate(0);
        }
        Told::Done
    }

    /// A value comes under the next place of an array, under one of its places, into a field, or in the place of a part of
    /// an exception.
    pub fn change(
        &mut self,
        who: usize,
        operand: Operand,
        kind: Kind,
        mark: Option<Mark>,
        value: Operand,
    ) -> Result<Told, AllocError> {
        let (Some(name), Some(value)) = (self.open(who, operand, kind), self.named(who, value))
        else {
            return Ok(Told::NotEnabled);
        };
        let Some(object) = self.objects.get_mut(name) else {
            return Ok(Told::NotEnabled);
        };
        let mark = match mark {
            Some(Mark::Place(place)) if place >= object.parts.len() => return Ok(Told::NotEnabled),
            Some(mark) => mark,
            None => Mark::Place(object.parts.len()),
        };
        put(object, mark, value)?;
        Ok(Told::Done)
    }

    /// A value comes into a field of a plain object or of an exception.
    pub fn set_field(
        &mut self,
        who: usize,
        object: Operand,
        name: u32,
        value: Operand,
    ) -> Result<Told, AllocError> {
        let kind = match self.open(who, object, Kind::Exception) {
            Some(_) => Kind::Exception,
            None => Kind::Plain,
        };
        self.change(who, object, kind, Some(Mark::Field(name)), value)
    }

    /// An element goes from an array, and those behind it close up.
    pub fn take(&mut self, who: usize, array: Operand, place: usize) -> Told {
        let Some(name) = self.open(who, array, Kind::Array) else {
            return Told::NotEnabled;
        };
        let Some(object) = self.objects.get_mut(name) else {
            return Told::NotEnabled;
        };
        if place >= object.parts.len() {
            return Told::NotEnabled;
        }
        let _ = object.parts.remove(place);
        for (next, part) in object.parts.iter_mut().enumerate() {
            part.0 = Mark::Place(next);
        }
        Told::Done
    }

    pub fn read(
        &mut self,
        who: usize,
        operand: Operand,
        mark: Option<Mark>,
    ) -> Result<Told, AllocError> {
        let (Some(Value::At(name)), Some(mark)) = (self.named(who, operand), mark) else {
            return Ok(Told::NotEnabled);
        };
        let Some(object) = self.objects.get(name) else {
            return Ok(Told::NotEnabled);
        };
        let Some(value) = first_under(object, mark) else {
            return Ok(Told::NotEnabled);
        };
        if let Some(actor) = self.actors.get_mut(who) {
            actor.roots.push(value)?;
        }
        Ok(Told::Done)
    }
}
