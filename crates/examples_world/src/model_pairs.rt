//! The plain model's steps on the pairs of a hash.

use crate::model::{Kind, Mark, Model, Object, Told, Value, put};
use rr_world::Operand;
use std::alloc::AllocError;

/// Whether an object is a frozen text.
fn is_frozen_text(object: &Object) -> bool {
    object.kind == Kind::Text && object.frozen
}

impl Model {
    /// Whether a value can be a key: an immediate or a frozen text.
    fn can_be_key(&self, value: Value) -> bool {
        match value {
            Value::At(name) => self.objects.get(name).is_some_and(is_frozen_text),
            _ => true,
        }
    }

    /// Whether two values that can be keys are one key.
    fn is_same_key(&self, one: Value, other: Value) -> bool {
        let (Value::At(one_name), Value::At(other_name)) = (one, other) else {
            return one == other;
        };
        match (self.objects.get(one_name), self.objects.get(other_name)) {
            (Some(one), Some(other)) => one.bytes.as_slice() == other.bytes.as_slice(),
            _ => false,
        }
    }

    /// The place of the pair of a hash that has the key.
    fn place_of_key(&self, hash: usize, key: Value) -> Option<usize> {
        for (mark, value) in &self.objects.get(hash)?.parts {
            if let Mark::Key(place) = mark
                && self.is_same_key(*value, key)
            {
                return Some(*place);
            }
        }
        None
    }

    /// A key has a value in a hash.
    pub fn set_pair(
        &mut self,
        who: usize,
        hash: Operand,
        key: Operand,
        value: Operand,
    ) -> Result<Told, AllocError> {
        let (Some(name), Some(key), Some(value)) = (
            self.open(who, hash, Kind::Hash),
            self.named(who, key),
            self.named(who, value),
        ) else {
            return Ok(Told::NotEnabled);
        };
        if !self.can_be_key(key) {
            return Ok(Told::NotEnabled);
        }
        let found = self.place_of_key(name, key);
        let Some(object) = self.objects.get_mut(name) else {
            return Ok(Told::NotEnabled);
        };
        match found {
            Some(place) => put(object, Mark::Value(place), value)?,
            None => {
                let place = object.parts.len() / 2;
                object.parts.push((Mark::Key(place), key))?;
                object.parts.push((Mark::Value(place), value))?;
            }
        }
        Ok(Told::Done)
    }

    /// A pair goes from a hash, and those behind it close up.
    pub fn delete_pair(&mut self, who: usize, hash: Operand, place: usize) -> Told {
        let Some(name) = self.open(who, hash, Kind::Hash) else {
            return Told::NotEnabled;
        };
        let Some(object) = self.objects.get_mut(name) else {
            return Told::NotEnabled;
        };
        let first = place.saturating_mul(2);
        if first.saturating_add(1) >= object.parts.len() {
            return Told::NotEnabled;
        }
        let _ = object.parts.remove(first);
        let _ = object.parts.remove(first);
        for (next, part) in object.parts.iter_mut().enumerate() {
            part.0 = if next % 2 == 0 {
                Mark::Key(next / 2)
            } else {
                Mark::Value(next / 2)
            };
        }
        Told::Done
    }
}
