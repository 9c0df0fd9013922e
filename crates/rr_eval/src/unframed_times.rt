//! Turns of `times` that are done one after the other without frames: what is the same in all of them is looked up once.

ghost use Rattle.std.specs.Prelude.{◌≡◌, ◌+◌, ◌<◌, ◌≤◌, ◌^◌, true, drop, length, nat_lt, slice_index_or, Some, IfSome, IfNone};
ghost use Rattle.rr_frames.specs.declared.activation.Shape.{Shape};
ghost use Rattle.rr_space.specs.Tables.{Table};
ghost use Rattle.rr_space.specs.declared.refer.Ref.{Ref};
ghost use Rattle.rr_tree.specs.Tree.{tree_at};
ghost use Rattle.rr_eval.specs.declared.frame.Frame.{Frame};
ghost use Rattle.rr_eval.specs.declared.iterating.Visits.{Visits};
ghost use Rattle.rr_eval.specs.Blocks.{shape_in};
ghost use Rattle.rr_eval.specs.Frames.{iterated};
ghost use Rattle.rr_eval.specs.Iterating.{continued_with};
ghost use Rattle.rr_eval.specs.Requests.{Course};
ghost use Rattle.rr_eval.specs.Turns.{context_of, code_of, after_values};
ghost use Rattle.rr_eval.specs.Unframed.{AsMany, HasStatements};
ghost use Rattle.rr_eval.specs.Variables.{top};
ghost use Rattle.rr_eval.specs.Views.{view_of};
ghost use Rattle.rr_eval.specs.Within.{Reach, AreReached, IsReached};

use crate::engine::Engine;
use crate::iterating::{Ahead, Iterating, Visits, below};
use crate::prepared::Prepared;
use crate::unframed_blocks::Statements;
use crate::unframed_turns::DoneTurn;
use rr_space::Ref;

/// A turn of `times` that is done: the integer of the next one, and its value.
#[derive(Clone, Copy)]
struct DoneTime {
    next: i64,
    value: Ref,
}

/// No turn takes more steps.
const STEPS: u64 = 168;

impl Engine {
    /// The next turn of `times`, where there is one and the statements of the block need no frame.
    #[inline(always)]
    fn go_time(
        &mut self,
        prepared: &Prepared,
        iteration: Iterating,
        here: i64,
        bound: Ref,
        statements: Statements,
        size: u32,
        home: u32,
    ) -> Option<DoneTime>
        requires visits { iteration.visits ≡ Visits.Times here }
        requires bound { slice_index_or (drop iteration.base self.old.held.items) 0 Ref.Nil ≡ bound }
        requires small { statements.first + statements.count < 2 ^ 32 }
        requires has { HasStatements prepared.now.program.nodes.items iteration.block statements.first statements.count }
        requires base { iteration.base ≤ length self.old.held.items }
        requires shape { shape_in (Some (tree_at prepared.now.program.nodes.items iteration.block)) ≡ Some (record { parameters = 1; size = size }) }
        requires size { 0 < size }
        requires home { home ≡ top self.old.calls.frames }
        requires frames { nat_lt (length self.old.calls.frames) self.old.calls.limit ≡ true }
        requires steps { 168 < self.old.left }
        ensures goes { IfSome result (λ d. (v : Ref) (t : Table) (h : Course) → after_values prepared.now.program (view_of self.old) t (Frame.Turned iteration) (continued_with (context_of prepared.now.program) (iterated (code_of prepared.now.program h.world) iteration (drop iteration.base self.old.held.items)) v) h self.old.left ≡ after_values prepared.now.program (view_of self.new) t (Frame.Turned (record iteration { visits = Visits.Times d.next })) (continued_with (context_of prepared.now.program) (iterated (code_of prepared.now.program h.world) (record iteration { visits = Visits.Times d.next }) (drop iteration.base self.new.held.items)) d.value) h self.new.left) }
        ensures within { (k : Reach) → AreReached k (view_of self.old) → AreReached k (view_of self.new) }
        ensures value { (k : Reach) → IfSome result (λ d. IsReached k d.value) }
        ensures others { self.new ≡ record self.old { calls = self.new.calls; left = self.new.left } }
        ensures many { AsMany self.old.calls self.new.calls }
        ensures left { self.old.left ≤ self.new.left + 168 }
        ensures kept { self.new.left ≤ self.old.left }
        ensures spends { IfSome result (λ _. self.new.left < self.old.left) }
        ensures none { IfNone result (self.new ≡ self.old) }
    {
        let Ahead::Another(Some(given), None, Visits::Times(next)) = below(here, bound) else {
            return None;
        };
        let block = iteration.block;
        let done = self.statements_unframed(prepared, &[given], home, block, statements)?;
        self.left -= done.steps;
        Some(DoneTime {
            next,
            value: done.value,
        })
    }

    /// Turns of `times`, one after the other, up to one that needs a frame: the last one that is done, or the one before, which had this
    /// value.
    #[inline(never)]
    pub fn run_times(
        &mut self,
        prepared: &Prepared,
        iteration: Iterating,
        from: i64,
        bound: Ref,
        value: Ref,
        statements: Statements,
        size: u32,
        stop: u64,
    ) -> DoneTurn
        requires visits { iteration.visits ≡ Visits.Times from }
        requires bound { slice_index_or (drop iteration.base self.old.held.items) 0 Ref.Nil ≡ bound }
        requires small { statements.first + statements.count < 2 ^ 32 }
        requires has { HasStatements prepared.now.program.nodes.items iteration.block statements.first statements.count }
        requires base { iteration.base ≤ length self.old.held.items }
        requires shape { shape_in (Some (tree_at prepared.now.program.nodes.items iteration.block)) ≡ Some (record { parameters = 1; size = size }) }
        requires size { 0 < size }
        requires frames { nat_lt (length self.old.calls.frames) self.old.calls.limit ≡ true }
        requires left { stop ≤ self.old.left }
        ensures goes { (t : Table) (h : Course) → after_values prepared.now.program (view_of self.old) t (Frame.Turned iteration) (continued_with (context_of prepared.now.program) (iterated (code_of prepared.now.program h.world) iteration (drop iteration.base self.old.held.items)) value) h self.old.left ≡ after_values prepared.now.program (view_of self.new) t (Frame.Turned (record iteration { visits = result.visits })) (continued_with (context_of prepared.now.program) (iterated (code_of prepared.now.program h.world) (record iteration { visits = result.visits }) (drop iteration.base self.new.held.items)) result.value) h self.new.left }
        ensures within { (k : Reach) → AreReached k (view_of self.old) → AreReached k (view_of self.new) }
        ensures value { (k : Reach) → IsReached k value → IsReached k result.value }
        ensures others { self.new ≡ record self.old { calls = self.new.calls; left = self.new.left } }
        ensures left { stop ≤ self.new.left }
        ensures kept { self.new.left ≤ self.old.left }
    {
        let home = self.calls.top();
        let mut next = iteration;
        let mut here = from;
        let mut last = DoneTurn {
            visits: iteration.visits,
            value,
        };
        while self.left - stop > STEPS {
            let Some(done) = self.go_time(prepared, next, here, bound, statements, size, home)
            else {
                break;
            };
            here = done.next;
            next.visits = Visits::Times(done.next);
            last = DoneTurn {
                visits: next.visits,
                value: done.value,
            };
        }
        last
    }
}
