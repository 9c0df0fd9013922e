//! Plans of the plain model, and what is published of them.

use crate::model::{Holder, Model, Told, Value};
use rr_world::Operand;
use std::alloc::{AllocError, Global};

impl Model {
    /// Whether a plan is in the hand that is not published.
    pub fn has_plan(&self, who: usize) -> bool {
        self.actors
            .get(who)
            .is_some_and(|actor| !actor.plan.is_empty() && !actor.published)
    }

    /// Whether a published plan is in the hand.
    pub fn has_published(&self, who: usize) -> bool {
        self.actors.get(who).is_some_and(|actor| actor.published)
    }

    /// The objects of the plan are of a new cluster.
    pub fn publish(&mut self, who: usize) -> Told {
        if !self.has_plan(who) {
            return Told::NotEnabled;
        }
        if self.events >= self.limits.events as usize {
            return Told::HistoryFull;
        }
        let number = self.clusters;
        let Some(actor) = self.actors.get_mut(who) else {
            return Told::NotEnabled;
        };
        actor.published = true;
        for name in &actor.plan {
            if let Some(object) = self.objects.get_mut(*name) {
                object.holder = Holder::Cluster(number);
            }
        }
        self.clusters = number.saturating_add(1);
        self.events = self.events.saturating_add(1);
        Told::Published(number)
    }

    /// The published plan goes.
    pub fn promote(&mut self, who: usize) -> Told {
        if !self.has_published(who) {
            return Told::NotEnabled;
        }
        self.take_in_hand(who, None, false);
        Told::Done
    }

    /// The shareable objects that a value leads to come into the hand as a plan.
    pub fn plan(
        &mut self,
        alloc: Global,
        who: usize,
        operand: Operand,
    ) -> Result<Told, AllocError> {
        let Some(value) = self.named(who, operand) else {
            return Ok(Told::NotEnabled);
        };
        if !self.is_free(who) {
            return Ok(Told::NotEnabled);
        }
        if self.leads_to_shell(alloc, value)? {
            return Ok(Told::HoldsShell);
        }
        let found = self.reached_unshared(alloc, value)?;
        for (name, found) in found.iter().enumerate() {
            if *found
                && self.is_shareable(alloc, Value::At(name))?
                && let Some(actor) = self.actors.get_mut(who)
            {
                actor.plan.push(name)?;
            }
        }
        Ok(Told::Done)
    }
}
