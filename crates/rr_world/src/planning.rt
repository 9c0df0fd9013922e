//! Planning what is to be published, and what becomes of a plan.

ghost use Rattle.std.specs.Prelude.{◌≡◌, ◌↔◌, length, IsTrue, IfOk, IfErr, IfSome, IfNone, Some, None};
ghost use Rattle.std.specs.Bool.{OnTrue, OnFalse};
ghost use Rattle.rr_space.specs.Moves.{IsPlanned};
ghost use Rattle.rr_space.specs.Parts.{IsWithin};
ghost use Rattle.rr_world.specs.Packing.{IsPackRefused};
ghost use Rattle.rr_world.specs.Planning.{IsInPublished, IsPlanOf, IsPlanTaken, Plans, Promotes};

use crate::outcome::Outcome;
use crate::ractor::{Ractor, put_into};
use crate::step::Operand;
use rr_base::Fault;
use rr_move::Hand;
use rr_share::{Plan, plan, promote};
use rr_space::{Published, Ref, SlotSet, Space};
use std::alloc::Global;

// The plan of the shareable objects of the space that `value` leads to.
//
// The faults are `HoldsShell`, where the value leads to an object that was moved away, and `Memory`.
fn plan_for(alloc: Global, space: &Space, value: Ref) -> Result<Plan, Fault>
    requires { IsWithin (length space.now.slots) value }
    ensures plan { IfOk result (λ plan. IsPlanOf space.now value plan) }
    ensures fault { IfErr result (λ fault. IsPackRefused fault space.now value) }
{
    // With the number of slots comes that no reference in them leads nowhere.
    let _slots = space.len();
    match plan(alloc, space, value) {
        Ok(plan) => Ok(plan),
        Err(fault) => Err(fault),
    }
}

impl Ractor {
    /// Puts a plan of the shareable objects that the value leads to into the empty hand. Where there are none, it stays empty.
    pub(crate) fn plan(&mut self, alloc: Global, operand: Operand) -> Outcome
        ensures { Plans operand result self.old self.new }
    {
        if !self.hand.is_empty() {
            return Outcome::NotEnabled;
        }
        let Some(value) = self.named(operand) else {
            return Outcome::NotEnabled;
        };
        match plan_for(alloc, &self.space, value) {
            Ok(plan) => {
                self.hand = Hand::of_plan(plan);
                Outcome::Done
            }
            Err(fault) => Outcome::Refused(fault),
        }
    }

    /// Takes the plan out of the hand.
    pub(crate) fn take_plan(&mut self) -> Option<Plan>
        ensures some { IfSome result (λ plan. IsPlanTaken plan self.old self.new) }
        ensures none { IfNone result ((self.old.plan ≡ None) × (self.new ≡ self.old)) }
    {
        let plan = self.hand.take_plan()?;
        // With these numbers comes that the plan has no more objects than can be counted, and that they are frozen.
        let _slots = self.space.len();
        let _places = plan.places.len();
        let _objects = plan.cluster.len();
        Some(plan)
    }

    /// Puts a plan of the space into the hand.
    pub(crate) fn keep_plan(&mut self, plan: Plan)
        requires { IsPlanned self.old.space plan.cluster plan.places }
        ensures { self.new ≡ record self.old { hand = None; home = None; ticket = None; plan = Some plan; published = None } }
    {
        put_into(&mut self.hand, Hand::Planned(plan));
    }

    /// Puts a plan of the space into the hand whose cluster is published.
    pub(crate) fn keep_published(&mut self, places: SlotSet, published: Published)
        requires { IsPlanned self.old.space published.cluster.now places }
        ensures { self.new ≡ record self.old { hand = None; home = None; ticket = None; plan = None; published = Some (record { places = places; cluster = published.cluster.now }) } }
    {
        put_into(&mut self.hand, Hand::Published(places, published));
    }

    /// Whether a published plan is in the hand.
    pub(crate) fn has_published(&self) -> bool
        ensures holds { OnTrue result (self.now.published ≡ None → ⊥) }
        ensures none { OnFalse result (self.now.published ≡ None) }
    {
        self.hand.has_published()
    }

    /// Whether the object is one of the published plan in the hand.
    pub(crate) fn is_in_published(&self, object: Ref) -> bool
        ensures { IsTrue result ↔ IsInPublished self.now object }
    {
        let Ref::Local(slot) = object else {
            return false;
        };
        match &self.hand {
            Hand::Published(places, _) => places.contains(slot),
            _ => false,
        }
    }

    /// Turns the slots of the published plan in the hand into forwards.
    pub(crate) fn promote(&mut self) -> Outcome
        ensures { Promotes result self.old self.new }
    {
        let Some((places, published)) = self.hand.take_published() else {
            return Outcome::NotEnabled;
        };
        promote(&mut self.space, places, published);
        Outcome::Done
    }
}
