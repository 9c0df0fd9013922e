//! The plain model's steps on constants.

use crate::model::{Model, Told, Value};
use rr_base::Sym;
use rr_world::Operand;
use std::alloc::AllocError;

impl Model {
    /// The value that an operand is, where each ractor may have it.
    pub fn public(&self, who: usize, operand: Operand) -> Option<Value> {
        match self.named(who, operand)? {
            Value::At(name) if !self.is_shared(name) => None,
            value => Some(value),
        }
    }

    /// A constant is set to a value that each ractor may read, or to one that the main ractor keeps.
    pub fn set_constant(
        &mut self,
        who: usize,
        name: Sym,
        public: Option<Value>,
    ) -> Result<Told, AllocError> {
        let name = name.0 as usize;
        if self.has_published(who) {
            return Ok(Told::NotEnabled);
        }
        if self.events >= self.limits.events as usize {
            return Ok(Told::HistoryFull);
        }
        if public.is_none() && who != 0 {
            return Ok(Told::NotShareable);
        }
        let missing = name.saturating_add(1).saturating_sub(self.constants.len());
        for _ in 0..missing {
            self.constants.push(None)?;
        }
        if let Some(constant) = self.constants.get_mut(name) {
            *constant = Some(public);
        }
        self.events = self.events.saturating_add(1);
        Ok(Told::Done)
    }

    pub fn get_constant(&mut self, who: usize, name: Sym) -> Result<Told, AllocError> {
        match self.constants.get(name.0 as usize) {
            Some(Some(Some(value))) => {
                if let Some(actor) = self.actors.get_mut(who) {
                    actor.roots.push(*value)?;
                }
                Ok(Told::Done)
            }
            Some(Some(None)) if who == 0 => Ok(Told::OfMain),
            Some(Some(None)) => Ok(Told::NotMain),
            _ => Ok(Told::Unknown),
        }
    }
}
