//! Turns of iterations that a `break` ends with which their block begins: the iteration ends without a frame for the turn.

ghost use Rattle.std.specs.Prelude.{◌≡◌, ◌+◌, ◌*◌, ◌≤◌, drop, length, reverse, take, Option, IfSome, IsTrue, IsFalse};
ghost use Rattle.rr_space.specs.Tables.{Below};
ghost use Rattle.rr_space.specs.declared.refer.Ref.{Ref};
ghost use Rattle.rr_tree.specs.Tree.{tree_at};
ghost use Rattle.rr_eval.specs.declared.frame.Frame.{Frame};
ghost use Rattle.rr_eval.specs.Endings.{BreaksInside};
ghost use Rattle.rr_eval.specs.Frames.{iterated, Nested};
ghost use Rattle.rr_eval.specs.Iterating.{continued_with};
ghost use Rattle.rr_eval.specs.Requests.{Course};
ghost use Rattle.rr_eval.specs.Turns.{context_of, code_of, remaining, IsNested, after_values, size};
ghost use Rattle.rr_eval.specs.Views.{view_of};
ghost use Rattle.rr_eval.specs.Within.{Reach, reach, AreReached, IsReached};

use crate::engine::Engine;
use crate::frame::{Frame, clear, standing};
use crate::iterating::{Ahead, Iterating};
use crate::prepared::Prepared;
use crate::straight_statements::chosen_part;
use crate::usual::Quick;
use crate::usual_rounds::ahead_often;
use crate::value::is_object;
use rr_space::{Ref, Space};
use rr_tree::{Node, NodeId};

/// No such turn takes more steps.
const STEPS: u64 = 38;

impl Engine {
    /// The value of a `break`, which is nil or taken for an integer.
    #[inline(always)]
    fn break_value(
        &self,
        prepared: &Prepared,
        values: &[Ref],
        home: u32,
        place: NodeId,
    ) -> Option<Quick>
        ensures breaks { IfSome result (λ q. BreaksInside prepared.now.program (view_of self.now) values.now home (tree_at prepared.now.program.nodes.items place) q.steps q.value) }
        ensures few { IfSome result (λ q. q.steps ≤ 4) }
        ensures within { (k : Reach) → IfSome result (λ q. IsReached k q.value) }
    {
        let Some(&Node::Break(value)) = prepared.node(place) else {
            return None;
        };
        if let Some(&Node::Nil) = prepared.node(value) {
            return Some(Quick {
                value: Ref::Nil,
                steps: 2,
            });
        }
        let found = self.operand_unframed(prepared, values, home, value)?;
        Some(Quick {
            value: found.value,
            steps: found.steps + 1,
        })
    }

    /// The value of the `break` that the choice chooses with which a block begins.
    #[inline(always)]
    fn break_unframed(
        &self,
        prepared: &Prepared,
        values: &[Ref],
        home: u32,
        place: NodeId,
    ) -> Option<Quick>
        ensures breaks { IfSome result (λ q. BreaksInside prepared.now.program (view_of self.now) values.now home (tree_at prepared.now.program.nodes.items place) q.steps q.value) }
        ensures few { IfSome result (λ q. q.steps ≤ 38) }
        ensures within { (k : Reach) → IfSome result (λ q. IsReached k q.value) }
    {
        let Some(&Node::Block { body, .. }) = prepared.node(place) else {
            return None;
        };
        let Some(&Node::Sequence { first, count }) = prepared.node(body) else {
            return None;
        };
        if count == 0 {
            return None;
        }
        let Some(&Node::Choose(condition, yes, no)) = prepared.node(first) else {
            return None;
        };
        let tested = self.value_unframed(prepared, values, home, condition)?;
        let chosen = chosen_part(tested.value, yes, no);
        let found = self.break_value(prepared, values, home, chosen)?;
        Some(Quick {
            value: found.value,
            steps: tested.steps + found.steps + 3,
        })
    }

    /// Ends an iteration behind a turn that had a value, and whose frame is gone, where the next turn begins with a `break`: it answers
    /// whether it did. It is called, and not compiled in place, for the registers of the turns around it.
    #[cold]
    #[inline(never)]
    fn break_turn(
        &mut self,
        prepared: &Prepared,
        space: &Space,
        iteration: Iterating,
        stop: u64,
    ) -> bool
        requires base { iteration.base ≤ length self.old.held.items }
        requires nested { Nested (reverse self.old.frames.items) (take iteration.base self.old.held.items) }
        requires left { stop ≤ self.old.left }
        ensures goes { IsTrue result → (value : Ref) (h : Course) → after_values prepared.now.program (view_of self.old) space.now (Frame.Turned iteration) (continued_with (context_of prepared.now.program) (iterated (code_of prepared.now.program h.world) iteration (drop iteration.base self.old.held.items)) value) h self.old.left ≡ remaining prepared.now.program (view_of self.new) space.now h }
        ensures nested { IsTrue result → IsNested (view_of self.new) }
        ensures within { (clusters : Option Below) → AreReached (reach (length space.now.slots) clusters) (view_of self.old) → AreReached (reach (length space.now.slots) clusters) (view_of self.new) }
        ensures left { stop ≤ self.new.left }
        ensures kept { self.new.left ≤ self.old.left }
        ensures size { IsTrue result → size (view_of self.new) ≤ 3 * length self.old.frames.items + 2 }
        ensures same { IsFalse result → self.new ≡ self.old }
    {
        if self.left - stop <= STEPS {
            return false;
        }
        let Some(_) = self.calls.next_number() else {
            return false;
        };
        let Some(
            &Node::Block {
                parameters: 1,
                size,
                ..
            },
        ) = prepared.node(iteration.block)
        else {
            return false;
        };
        if size == 0 {
            return false;
        }
        let stand = standing(&self.held, Frame::Turned(iteration));
        let Some(Ahead::Another(Some(given), None, _)) = ahead_often(space, iteration.visits, stand)
        else {
            return false;
        };
        let home = self.calls.top();
        let Some(broken) = self.break_unframed(prepared, &[given], home, iteration.block) else {
            return false;
        };
        self.left -= broken.steps;
        clear(&mut self.held, Frame::Turned(iteration));
        self.control.give(broken.value);
        true
    }

    /// The same, where turns may be done so at all.
    #[inline(always)]
    pub fn break_often(
        &mut self,
        prepared: &Prepared,
        space: &Space,
        iteration: Iterating,
        value: Ref,
        stop: u64,
    ) -> bool
        requires base { iteration.base ≤ length self.old.held.items }
        requires nested { Nested (reverse self.old.frames.items) (take iteration.base self.old.held.items) }
        requires left { stop ≤ self.old.left }
        ensures goes { IsTrue result → (value : Ref) (h : Course) → after_values prepared.now.program (view_of self.old) space.now (Frame.Turned iteration) (continued_with (context_of prepared.now.program) (iterated (code_of prepared.now.program h.world) iteration (drop iteration.base self.old.held.items)) value) h self.old.left ≡ remaining prepared.now.program (view_of self.new) space.now h }
        ensures nested { IsTrue result → IsNested (view_of self.new) }
        ensures within { (clusters : Option Below) → AreReached (reach (length space.now.slots) clusters) (view_of self.old) → AreReached (reach (length space.now.slots) clusters) (view_of self.new) }
        ensures left { stop ≤ self.new.left }
        ensures kept { self.new.left ≤ self.old.left }
        ensures size { IsTrue result → size (view_of self.new) ≤ 3 * length self.old.frames.items + 2 }
        ensures same { IsFalse result → self.new ≡ self.old }
    {
        if is_object(value) || prepared.straight_from(iteration.block).is_none() {
            return false;
        }
        self.break_turn(prepared, space, iteration, stop)
    }
}
