//! Turns of iterations that are done one after the other without frames, where the statements of the block need none.

ghost use Rattle.std.specs.Prelude.{◌≡◌, ◌+◌, ◌<◌, ◌≤◌, true, drop, length, nat_lt, Some, Option, IfSome, IfNone};
ghost use Rattle.rr_frames.specs.declared.activation.Shape.{Shape};
ghost use Rattle.rr_space.specs.Tables.{Below};
ghost use Rattle.rr_tree.specs.Tree.{tree_at};
ghost use Rattle.rr_eval.specs.declared.frame.Frame.{Frame};
ghost use Rattle.rr_eval.specs.Blocks.{shape_in};
ghost use Rattle.rr_eval.specs.Frames.{iterated};
ghost use Rattle.rr_eval.specs.Iterating.{continued_with};
ghost use Rattle.rr_eval.specs.Requests.{Course};
ghost use Rattle.rr_eval.specs.Turns.{context_of, code_of, after_values};
ghost use Rattle.rr_eval.specs.Unframed.{AsMany};
ghost use Rattle.rr_eval.specs.Variables.{top};
ghost use Rattle.rr_eval.specs.Views.{view_of};
ghost use Rattle.rr_eval.specs.Within.{reach, AreReached, IsReached};

use crate::engine::Engine;
use crate::frame::{Frame, standing};
use crate::iterating::{Ahead, Iterating, Visits, value_at};
use crate::prepared::Prepared;
use crate::usual_rounds::ahead_often;
use crate::value::is_object;
use rr_space::{Ref, Space};
use rr_tree::Node;

/// A turn that is done: its value, and what its iteration still visits.
#[derive(Clone, Copy)]
pub struct DoneTurn {
    pub visits: Visits,
    pub value: Ref,
}

/// No turn takes more steps.
const STEPS: u64 = 168;

impl Engine {
    /// The next turn of an iteration, where its block is given one value and the statements need no frame.
    #[inline(always)]
    fn go_turn(
        &mut self,
        prepared: &Prepared,
        space: &Space,
        iteration: Iterating,
        size: u32,
        home: u32,
    ) -> Option<DoneTurn>
        requires base { iteration.base ≤ length self.old.held.items }
        requires shape { shape_in (Some (tree_at prepared.now.program.nodes.items iteration.block)) ≡ Some (record { parameters = 1; size = size }) }
        requires size { 0 < size }
        requires home { home ≡ top self.old.calls.frames }
        requires frames { nat_lt (length self.old.calls.frames) self.old.calls.limit ≡ true }
        requires steps { 168 < self.old.left }
        ensures goes { IfSome result (λ d. (v : Ref) (h : Course) → after_values prepared.now.program (view_of self.old) space.now (Frame.Turned iteration) (continued_with (context_of prepared.now.program) (iterated (code_of prepared.now.program h.world) iteration (drop iteration.base self.old.held.items)) v) h self.old.left ≡ after_values prepared.now.program (view_of self.new) space.now (Frame.Turned (record iteration { visits = d.visits })) (continued_with (context_of prepared.now.program) (iterated (code_of prepared.now.program h.world) (record iteration { visits = d.visits }) (drop iteration.base self.new.held.items)) d.value) h self.new.left) }
        ensures within { (clusters : Option Below) → AreReached (reach (length space.now.slots) clusters) (view_of self.old) → AreReached (reach (length space.now.slots) clusters) (view_of self.new) }
        ensures value { (clusters : Option Below) → IfSome result (λ d. IsReached (reach (length space.now.slots) clusters) d.value) }
        ensures others { self.new ≡ record self.old { calls = self.new.calls; left = self.new.left } }
        ensures many { AsMany self.old.calls self.new.calls }
        ensures left { self.old.left ≤ self.new.left + 168 }
        ensures kept { self.new.left ≤ self.old.left }
        ensures spends { IfSome result (λ _. self.new.left < self.old.left) }
        ensures none { IfNone result (self.new ≡ self.old) }
    {
        let stand = standing(&self.held, Frame::Turned(iteration));
        let Some(Ahead::Another(Some(given), None, visits)) = ahead_often(
            space,
            iteration.visits,
            stand,
        ) else {
            return None;
        };
        let done = self.block_unframed(prepared, &[given], home, iteration.block)?;
        self.left -= done.steps;
        Some(DoneTurn {
            visits,
            value: done.value,
        })
    }

    /// Turns of an iteration, one after the other, up to one that needs a frame: the last one that is done, or the one before, which had
    /// this value.
    #[inline(never)]
    fn run_turns(
        &mut self,
        prepared: &Prepared,
        space: &Space,
        iteration: Iterating,
        value: Ref,
        size: u32,
        stop: u64,
    ) -> DoneTurn
        requires base { iteration.base ≤ length self.old.held.items }
        requires shape { shape_in (Some (tree_at prepared.now.program.nodes.items iteration.block)) ≡ Some (record { parameters = 1; size = size }) }
        requires size { 0 < size }
        requires frames { nat_lt (length self.old.calls.frames) self.old.calls.limit ≡ true }
        requires left { stop ≤ self.old.left }
        ensures goes { (h : Course) → after_values prepared.now.program (view_of self.old) space.now (Frame.Turned iteration) (continued_with (context_of prepared.now.program) (iterated (code_of prepared.now.program h.world) iteration (drop iteration.base self.old.held.items)) value) h self.old.left ≡ after_values prepared.now.program (view_of self.new) space.now (Frame.Turned (record iteration { visits = result.visits })) (continued_with (context_of prepared.now.program) (iterated (code_of prepared.now.program h.world) (record iteration { visits = result.visits }) (drop iteration.base self.new.held.items)) result.value) h self.new.left }
        ensures within { (clusters : Option Below) → AreReached (reach (length space.now.slots) clusters) (view_of self.old) → AreReached (reach (length space.now.slots) clusters) (view_of self.new) }
        ensures value { (clusters : Option Below) → IsReached (reach (length space.now.slots) clusters) value → IsReached (reach (length space.now.slots) clusters) result.value }
        ensures others { self.new ≡ record self.old { calls = self.new.calls; left = self.new.left } }
        ensures left { stop ≤ self.new.left }
        ensures kept { self.new.left ≤ self.old.left }
    {
        let home = self.calls.top();
        let mut next = iteration;
        let mut last = DoneTurn {
            visits: iteration.visits,
            value,
        };
        while self.left - stop > STEPS {
            let Some(done) = self.go_turn(prepared, space, next, size, home) else {
                break;
            };
            next.visits = done.visits;
            last = done;
        }
        last
    }

    /// The same. Those of `times` are compiled apart.
    #[inline(always)]
    fn run_visits(
        &mut self,
        prepared: &Prepared,
        space: &Space,
        iteration: Iterating,
        value: Ref,
        size: u32,
        stop: u64,
    ) -> DoneTurn
        requires base { iteration.base ≤ length self.old.held.items }
        requires shape { shape_in (Some (tree_at prepared.now.program.nodes.items iteration.block)) ≡ Some (record { parameters = 1; size = size }) }
        requires size { 0 < size }
        requires frames { nat_lt (length self.old.calls.frames) self.old.calls.limit ≡ true }
        requires left { stop ≤ self.old.left }
        ensures goes { (h : Course) → after_values prepared.now.program (view_of self.old) space.now (Frame.Turned iteration) (continued_with (context_of prepared.now.program) (iterated (code_of prepared.now.program h.world) iteration (drop iteration.base self.old.held.items)) value) h self.old.left ≡ after_values prepared.now.program (view_of self.new) space.now (Frame.Turned (record iteration { visits = result.visits })) (continued_with (context_of prepared.now.program) (iterated (code_of prepared.now.program h.world) (record iteration { visits = result.visits }) (drop iteration.base self.new.held.items)) result.value) h self.new.left }
        ensures within { (clusters : Option Below) → AreReached (reach (length space.now.slots) clusters) (view_of self.old) → AreReached (reach (length space.now.slots) clusters) (view_of self.new) }
        ensures value { (clusters : Option Below) → IsReached (reach (length space.now.slots) clusters) value → IsReached (reach (length space.now.slots) clusters) result.value }
        ensures others { self.new ≡ record self.old { calls = self.new.calls; left = self.new.left } }
        ensures left { stop ≤ self.new.left }
        ensures kept { self.new.left ≤ self.old.left }
    {
        if let Visits::Times(here) = iteration.visits
            && let Some(statements) = prepared.block_statements(iteration.block)
        {
            let bound = value_at(standing(&self.held, Frame::Turned(iteration)), 0);
            return self.run_times(
                prepared, iteration, here, bound, value, statements, size, stop,
            );
        }
        self.run_turns(prepared, space, iteration, value, size, stop)
    }

    /// The same, where turns may be done so at all. A turn that has an object is most likely followed by another such one, which cannot.
    #[inline(always)]
    pub fn try_turns(
        &mut self,
        prepared: &Prepared,
        space: &Space,
        iteration: Iterating,
        value: Ref,
        stop: u64,
    ) -> DoneTurn
        requires base { iteration.base ≤ length self.old.held.items }
        requires left { stop ≤ self.old.left }
        ensures goes { (h : Course) → after_values prepared.now.program (view_of self.old) space.now (Frame.Turned iteration) (continued_with (context_of prepared.now.program) (iterated (code_of prepared.now.program h.world) iteration (drop iteration.base self.old.held.items)) value) h self.old.left ≡ after_values prepared.now.program (view_of self.new) space.now (Frame.Turned (record iteration { visits = result.visits })) (continued_with (context_of prepared.now.program) (iterated (code_of prepared.now.program h.world) (record iteration { visits = result.visits }) (drop iteration.base self.new.held.items)) result.value) h self.new.left }
        ensures within { (clusters : Option Below) → AreReached (reach (length space.now.slots) clusters) (view_of self.old) → AreReached (reach (length space.now.slots) clusters) (view_of self.new) }
        ensures value { (clusters : Option Below) → IsReached (reach (length space.now.slots) clusters) value → IsReached (reach (length space.now.slots) clusters) result.value }
        ensures others { self.new ≡ record self.old { calls = self.new.calls; left = self.new.left } }
        ensures left { stop ≤ self.new.left }
        ensures kept { self.new.left ≤ self.old.left }
    {
        if !is_object(value)
            && prepared.straight_from(iteration.block).is_some()
            && let Some(
                &Node::Block {
                    parameters: 1,
                    size,
                    ..
                },
            ) = prepared.node(iteration.block)
            && size > 0
            && self.calls.next_number().is_some()
        {
            return self.run_visits(prepared, space, iteration, value, size, stop);
        }
        DoneTurn {
            visits: iteration.visits,
            value,
        }
    }
}
