//! Lists of parts: the first of them that need no frame are evaluated at once, and their values are held.

ghost use Rattle.std.specs.Prelude.{◌≡◌, ◌+◌, ◌-◌, ◌*◌, ◌<◌, ◌≤◌, List, [], ◌∷◌, length, reverse, take, drop, vec_capacity, IfOk, IfErr, OnOk, Option};
ghost use Rattle.rr_base.specs.declared.fault.Fault.{Fault};
ghost use Rattle.rr_space.specs.Tables.{Table, Below};
ghost use Rattle.rr_space.specs.declared.refer.Ref.{Ref};
ghost use Rattle.rr_tree.specs.Nodes.{trees_before};
ghost use Rattle.rr_tree.specs.declared.program.Program.{Program};
ghost use Rattle.rr_eval.specs.Frames.{Nested};
ghost use Rattle.rr_eval.specs.Requests.{Course};
ghost use Rattle.rr_eval.specs.Rules.{arguments, finish};
ghost use Rattle.rr_eval.specs.Script.{Script};
ghost use Rattle.rr_eval.specs.Turns.{context_of, IsNested, remaining, after_values, Stands, size};
ghost use Rattle.rr_eval.specs.Usual.{ComesTo, TakeFirst, HoldsMore};
ghost use Rattle.rr_eval.specs.Views.{view_of};
ghost use Rattle.rr_eval.specs.Within.{Reach, reach, IsReached, AreReached};

use crate::call::Target;
use crate::engine::{Engine, push_within};
use crate::frame::{Control, Frame};
use crate::prepared::Prepared;
use rr_base::Fault;
use rr_space::{Ref, Space};
use rr_tree::{NodeId, Program};

/// How far the parts of a list are evaluated, whose values are held.
#[derive(Clone, Copy)]
pub struct QuickParts {
    /// How many parts are still to be evaluated, the last ones.
    pub rest: u32,
    /// The steps that the others took.
    pub steps: u64,
}

impl Engine {
    /// The sum of steps, where no fewer are left.
    #[inline(always)]
    pub fn steps_together(&self, some: u64, others: u64) -> u64
        requires { some + others ≤ self.now.left }
        ensures { result ≡ some + others }
    {
        self.left - (self.left - some - others)
    }

    /// Evaluates the last `count` parts before `end` from the first one on, up to one that needs a frame or before which the steps
    /// stop, and holds their values, for which there is room.
    #[inline(always)]
    pub fn hold_parts(
        &mut self,
        prepared: &Prepared,
        space: &Space,
        end: NodeId,
        count: u32,
        stop: u64,
    ) -> QuickParts
        requires some { stop < self.old.left }
        requires space { length self.old.held.items + count ≤ vec_capacity self.old.held }
        ensures takes { TakeFirst prepared.now.program (view_of self.old) space.now (trees_before prepared.now.program.nodes.items end count) result.steps (drop (length self.old.held.items) self.new.held.items) (trees_before prepared.now.program.nodes.items end result.rest) }
        ensures rest { length self.new.held.items + result.rest ≡ length self.old.held.items + count }
        ensures fewer { result.rest ≤ count }
        ensures enough { stop + result.steps < self.old.left }
        ensures holds { HoldsMore (view_of self.old) (view_of self.new) }
        ensures within { (clusters : Option Below) → AreReached (reach (length space.now.slots) clusters) (view_of self.old) → AreReached (reach (length space.now.slots) clusters) (view_of self.new) }
        ensures room { vec_capacity self.new.frames ≡ vec_capacity self.old.frames }
    {
        let mut rest = count;
        let mut steps = 0;
        while rest > 0 {
            match self.quick_before(prepared, space, end.saturating_sub(rest), stop + steps) {
                Some(found) => {
                    self.held.push_reserved(found.value);
                    steps += found.steps;
                    rest -= 1;
                }
                None => return QuickParts { rest, steps },
            }
        }
        QuickParts { rest, steps }
    }

    /// Holds the receiver of a call, and the values of its first arguments, which are the last `count` parts before `end`, up to one
    /// that needs a frame or before which the steps stop. There is room for all of them.
    #[inline(always)]
    pub fn hold_receiver(
        &mut self,
        prepared: &Prepared,
        space: &Space,
        receiver: Ref,
        end: NodeId,
        count: u32,
        stop: u64,
    ) -> QuickParts
        requires some { stop < self.old.left }
        requires space { length self.old.held.items + count < vec_capacity self.old.held }
        ensures comes { (next : List Ref → Script) → ComesTo prepared.now.program (view_of self.old) space.now (arguments (context_of prepared.now.program) (trees_before prepared.now.program.nodes.items end count) (receiver ∷ []) next) result.steps (arguments (context_of prepared.now.program) (trees_before prepared.now.program.nodes.items end result.rest) (drop (length self.old.held.items) self.new.held.items) next) }
        ensures first { receiver ∷ drop (length self.old.held.items + 1) self.new.held.items ≡ drop (length self.old.held.items) self.new.held.items }
        ensures rest { length self.new.held.items + result.rest ≡ length self.old.held.items + count + 1 }
        ensures fewer { result.rest ≤ count }
        ensures enough { stop + result.steps < self.old.left }
        ensures holds { HoldsMore (view_of self.old) (view_of self.new) }
        ensures within { (clusters : Option Below) → AreReached (reach (length space.now.slots) clusters) (view_of self.old) → IsReached (reach (length space.now.slots) clusters) receiver → AreReached (reach (length space.now.slots) clusters) (view_of self.new) }
        ensures room { vec_capacity self.new.frames ≡ vec_capacity self.old.frames }
    {
        self.held.push_reserved(receiver);
        self.hold_parts(prepared, space, end, count, stop)
    }

    /// Holds the receiver of a call, and the values of its first arguments, which are the last `count` parts before `end`, up to one
    /// that needs a frame or before which the steps stop. A refused growth leaves all as it is.
    #[inline(always)]
    pub fn hold_sent(
        &mut self,
        prepared: &Prepared,
        space: &Space,
        receiver: Ref,
        end: NodeId,
        count: u32,
        stop: u64,
    ) -> Result<QuickParts, Fault>
        requires some { stop < self.old.left }
        ensures comes { IfOk result (λ parts. (next : List Ref → Script) → ComesTo prepared.now.program (view_of self.old) space.now (arguments (context_of prepared.now.program) (trees_before prepared.now.program.nodes.items end count) (receiver ∷ []) next) parts.steps (arguments (context_of prepared.now.program) (trees_before prepared.now.program.nodes.items end parts.rest) (drop (length self.old.held.items) self.new.held.items) next)) }
        ensures rest { IfOk result (λ parts. length self.new.held.items + parts.rest ≡ length self.old.held.items + count + 1) }
        ensures fewer { IfOk result (λ parts. parts.rest ≤ count) }
        ensures enough { IfOk result (λ parts. stop + parts.steps < self.old.left) }
        ensures holds { OnOk result (HoldsMore (view_of self.old) (view_of self.new)) }
        ensures within { (clusters : Option Below) → AreReached (reach (length space.now.slots) clusters) (view_of self.old) → IsReached (reach (length space.now.slots) clusters) receiver → AreReached (reach (length space.now.slots) clusters) (view_of self.new) }
        ensures room { vec_capacity self.new.frames ≡ vec_capacity self.old.frames }
        ensures err { (t : Table) → IfErr result (λ f. Stands (view_of self.old) (view_of self.new) t t f) }
        ensures fault { IfErr result (λ f. f ≡ Fault.Memory) }
    {
        self.held.reserve(count as usize + 1)?;
        Ok(self.hold_receiver(prepared, space, receiver, end, count, stop))
    }

    /// Evaluates the next part of a list, behind a frame that waits for it over the values that are held from `base` on. The
    /// steps of these are spent, and that of the node to which the parts belong.
    #[tactic(auto, unfolding(crate::specs::Within::AreReached))]
    pub fn enter_part(&mut self, target: Target, end: NodeId, base: usize, parts: QuickParts)
        requires some { 0 < parts.rest }
        requires enough { parts.steps < self.old.left }
        requires room { length self.old.frames.items < vec_capacity self.old.frames }
        requires base { base ≤ length self.old.held.items }
        requires nested { Nested (reverse self.old.frames.items) (take base self.old.held.items) }
        ensures goes { (p : Program) (t : Table) (h : Course) → after_values p (view_of self.old) t (Frame.Argument target end 0 base) (arguments (context_of p) (trees_before p.nodes.items end parts.rest) (drop base self.old.held.items) (finish (context_of p) target)) h (self.old.left - (parts.steps + 1)) ≡ remaining p (view_of self.new) t h }
        ensures nested { IsNested (view_of self.new) }
        ensures within { (k : Reach) → AreReached k (view_of self.old) → AreReached k (view_of self.new) }
        ensures left { self.new.left + parts.steps + 1 ≡ self.old.left }
        ensures size { size (view_of self.new) ≤ 3 * length self.old.frames.items + 4 }
    {
        push_within(
            &mut self.frames,
            Frame::Item(target, end, parts.rest - 1, base),
        );
        self.control = Control::Enter(end.saturating_sub(parts.rest));
        self.left = self.left - parts.steps - 1;
    }
}
