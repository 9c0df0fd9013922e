//! Turns of iterations that are usual: over integers, over the elements of an array, and of `loop`, where they take no memory.

ghost use Rattle.std.specs.Prelude.{◌≡◌, ◌+◌, ◌*◌, ◌<◌, ◌≤◌, ℕ, ◌++◌, length, reverse, take, drop, vec_capacity, Bool, List, Option, None, Some, Ok, IfSome, IsTrue, IsFalse};
ghost use Rattle.std.specs.List.{All};
ghost use Rattle.rr_frames.specs.Frames.{list_of};
ghost use Rattle.rr_space.specs.Tables.{Table, Below};
ghost use Rattle.rr_space.specs.declared.refer.Ref.{Ref};
ghost use Rattle.rr_tree.specs.Tree.{tree_at};
ghost use Rattle.rr_tree.specs.declared.program.Program.{Program};
ghost use Rattle.rr_eval.specs.declared.call_stack.Entry.{Entry};
ghost use Rattle.rr_eval.specs.declared.frame.Control.{Control};
ghost use Rattle.rr_eval.specs.declared.frame.Frame.{Frame};
ghost use Rattle.rr_eval.specs.declared.iterating.Ahead.{Ahead};
ghost use Rattle.rr_eval.specs.declared.iterating.Visits.{Visits};
ghost use Rattle.rr_frames.specs.declared.activation.Shape.{Shape};
ghost use Rattle.rr_eval.specs.declared.problem.Answer.{Answer};
ghost use Rattle.rr_eval.specs.Blocks.{shape_in, opened};
ghost use Rattle.rr_eval.specs.Frames.{iterated, Nested};
ghost use Rattle.rr_eval.specs.Iterating.{ahead, kept, stand_of_first, takes_array, turn_of, continued, continued_with};
ghost use Rattle.rr_eval.specs.Requests.{Course};
ghost use Rattle.rr_eval.specs.Script.{Ret, Evaluate, TurnPart};
ghost use Rattle.rr_eval.specs.Turns.{context_of, code_of, state_of, remaining, remaining_with, IsNested, after_values, size};
ghost use Rattle.rr_eval.specs.Usual.{IsTop};
ghost use Rattle.rr_eval.specs.Variables.{top};
ghost use Rattle.rr_eval.specs.Views.{view_of};
ghost use Rattle.rr_eval.specs.Within.{Reach, reach, AreReached, IsReached, IsAheadReached};

use crate::blocks::shape_at;
use crate::call_stack::Entry;
use crate::engine::{Engine, push_within};
use crate::frame::{Control, Frame, standing};
use crate::iterating::{Ahead, Iterating, Visits, below, element_ahead, kept, up_to, value_at};
use crate::iterations::spreads_few;
use crate::prepared::Prepared;
use crate::problem::Answer;
use rr_builtin::Iteration;
use rr_frames::Shape;
use rr_space::{Ref, Space};
use rr_tree::Program;

/// Whether an iteration over an array keeps values.
fn keeps(iteration: Iteration) -> bool
    ensures { IsFalse result → (next : ℕ) (v : Ref) (stand : List Ref) (t : Table) → kept (Visits.Elements iteration next) v stand t ≡ Ok None }
{
    match iteration {
        Iteration::Map => true,
        Iteration::Select => true,
        Iteration::Times => false,
        Iteration::Upto => false,
        Iteration::Each => false,
        Iteration::EachWithIndex => false,
    }
}

/// What is ahead of an iteration that keeps nothing, over what is no hash.
#[inline(always)]
pub fn ahead_often(space: &Space, visits: Visits, stand: &[Ref]) -> Option<Ahead>
    ensures is { IfSome result (λ a. a ≡ ahead visits stand.now space.now) }
    ensures keeps { IfSome result (λ _. (v : Ref) → kept visits v stand.now space.now ≡ Ok None) }
    ensures first { IfSome result (λ _. (vs : List Ref) (t : Table) → stand_of_first visits vs t ≡ Some vs) }
    ensures apart { IfSome result (λ a. (first last : Option Ref) (more : Visits) (shape : Option Shape) → a ≡ Ahead.Another first last more → takes_array more shape ≡ Bool.false) }
    ensures within { (clusters : Option Below) → All (IsReached (reach (length space.now.slots) clusters)) stand.now → IfSome result (IsAheadReached (reach (length space.now.slots) clusters)) }
{
    match visits {
        Visits::Times(here) => Some(below(here, value_at(stand, 0))),
        Visits::Upto(here) => Some(up_to(here, value_at(stand, 1))),
        Visits::Elements(iteration, place) => {
            if keeps(iteration) {
                return None;
            }
            let array = value_at(stand, 0);
            Some(element_ahead(space, iteration, array, place))
        }
        Visits::Forever => Some(Ahead::Another(None, None, Visits::Forever)),
        _ => None,
    }
}

/// What is ahead of an iteration over an array.
#[inline(always)]
fn elements_ahead(space: &Space, visits: Visits, stand: &[Ref]) -> Option<Ahead>
    ensures is { IfSome result (λ a. a ≡ ahead visits stand.now space.now) }
    ensures apart { IfSome result (λ a. (first last : Option Ref) (more : Visits) (shape : Option Shape) → a ≡ Ahead.Another first last more → takes_array more shape ≡ Bool.false) }
    ensures within { (clusters : Option Below) → IfSome result (IsAheadReached (reach (length space.now.slots) clusters)) }
{
    match visits {
        Visits::Elements(iteration, place) => {
            let array = value_at(stand, 0);
            Some(element_ahead(space, iteration, array, place))
        }
        _ => None,
    }
}

impl Engine {
    /// Evaluates the block of an iteration for a turn, in a frame of its own, whose parameters have up to two values, where that takes
    /// no memory.
    #[tactic(auto, unfolding(crate::specs::Within::AreReached))]
    #[inline(always)]
    fn begin_turn(
        &mut self,
        iteration: Iterating,
        shape: Shape,
        first: Option<Ref>,
        last: Option<Ref>,
    ) -> bool
        requires room { length self.old.frames.items < vec_capacity self.old.frames }
        requires base { iteration.base ≤ length self.old.held.items }
        requires nested { Nested (reverse self.old.frames.items) (take iteration.base self.old.held.items) }
        ensures goes { IsTrue result → (p : Program) (t : Table) (h : Course) (n : ℕ) → shape_in (Some (tree_at p.nodes.items iteration.block)) ≡ Some shape → after_values p (view_of self.old) t (Frame.Round iteration) (opened (context_of p) (Entry.OfBlock (top self.old.calls.frames)) shape.parameters shape.size (list_of first ++ list_of last) None self.old.calls (Evaluate (TurnPart (iterated (code_of p h.world) iteration (drop iteration.base self.old.held.items))) Ret)) h n ≡ remaining_with p (view_of self.new) t h n }
        ensures nested { IsTrue result → IsNested (view_of self.new) }
        ensures within { (k : Reach) → AreReached k (view_of self.old) → All (IsReached k) (list_of first ++ list_of last) → AreReached k (view_of self.new) }
        ensures left { self.new.left ≡ self.old.left }
        ensures size { IsTrue result → size (view_of self.new) ≤ 3 * length self.old.frames.items + 4 }
        ensures same { IsFalse result → self.new ≡ self.old }
    {
        if self.blocks.len() >= self.blocks.capacity() {
            return false;
        }
        let home = self.calls.top();
        let entry = Entry::OfBlock(home);
        if self.calls.push_two(first, last, shape, entry) {
            push_within(&mut self.blocks, None);
            push_within(&mut self.frames, Frame::Round(iteration));
            self.control.enter(iteration.block);
            return true;
        }
        false
    }

    /// Calls the block of an iteration for a turn, with up to two values, where no array is spread and that takes no memory.
    #[inline(always)]
    fn begin_round(
        &mut self,
        program: &Program,
        space: &Space,
        iteration: Iterating,
        first: Option<Ref>,
        last: Option<Ref>,
    ) -> bool
        requires room { length self.old.frames.items < vec_capacity self.old.frames }
        requires base { iteration.base ≤ length self.old.held.items }
        requires nested { Nested (reverse self.old.frames.items) (take iteration.base self.old.held.items) }
        ensures goes { IsTrue result → (h : Course) (n : ℕ) → after_values program.now (view_of self.old) space.now (Frame.Round iteration) (turn_of (context_of program.now) (iterated (code_of program.now h.world) iteration (drop iteration.base self.old.held.items)) (shape_in (Some (tree_at program.now.nodes.items iteration.block))) (list_of first ++ list_of last) (state_of program.now (view_of self.old) space.now h).memory) h n ≡ remaining_with program.now (view_of self.new) space.now h n }
        ensures nested { IsTrue result → IsNested (view_of self.new) }
        ensures within { (k : Reach) → AreReached k (view_of self.old) → All (IsReached k) (list_of first ++ list_of last) → AreReached k (view_of self.new) }
        ensures left { self.new.left ≡ self.old.left }
        ensures size { IsTrue result → size (view_of self.new) ≤ 3 * length self.old.frames.items + 4 }
        ensures same { IsFalse result → self.new ≡ self.old }
    {
        let Some(shape) = shape_at(program, iteration.block) else {
            return false;
        };
        if spreads_few(space, shape.parameters, first, last) {
            return false;
        }
        self.begin_turn(iteration, shape, first, last)
    }

    /// Goes on behind a turn that had a value, and whose frame is gone, where another turn is ahead that takes no memory.
    #[tactic(auto, unfolding(crate::specs::Within::AreReached))]
    #[inline(always)]
    fn begin_ahead(
        &mut self,
        program: &Program,
        space: &Space,
        iteration: Iterating,
        value: Ref,
    ) -> bool
        requires room { length self.old.frames.items < vec_capacity self.old.frames }
        requires base { iteration.base ≤ length self.old.held.items }
        requires nested { Nested (reverse self.old.frames.items) (take iteration.base self.old.held.items) }
        ensures goes { IsTrue result → (h : Course) (n : ℕ) → after_values program.now (view_of self.old) space.now (Frame.Turned iteration) (continued_with (context_of program.now) (iterated (code_of program.now h.world) iteration (drop iteration.base self.old.held.items)) value) h n ≡ remaining_with program.now (view_of self.new) space.now h n }
        ensures nested { IsTrue result → IsNested (view_of self.new) }
        ensures within { (clusters : Option Below) → AreReached (reach (length space.now.slots) clusters) (view_of self.old) → AreReached (reach (length space.now.slots) clusters) (view_of self.new) }
        ensures left { self.new.left ≡ self.old.left }
        ensures size { IsTrue result → size (view_of self.new) ≤ 3 * length self.old.frames.items + 4 }
        ensures same { IsFalse result → self.new ≡ self.old }
    {
        let stand = standing(&self.held, Frame::Turned(iteration));
        match ahead_often(space, iteration.visits, stand) {
            Some(Ahead::Another(first, last, visits)) => {
                let next = Iterating {
                    visits,
                    ..iteration
                };
                self.begin_round(program, space, next, first, last)
            }
            _ => false,
        }
    }

    /// The same. A turn of `times` is compiled apart, so that what is ahead of it is known there.
    #[inline(always)]
    fn begin_next(
        &mut self,
        program: &Program,
        space: &Space,
        iteration: Iterating,
        value: Ref,
    ) -> bool
        requires room { length self.old.frames.items < vec_capacity self.old.frames }
        requires base { iteration.base ≤ length self.old.held.items }
        requires nested { Nested (reverse self.old.frames.items) (take iteration.base self.old.held.items) }
        ensures goes { IsTrue result → (h : Course) (n : ℕ) → after_values program.now (view_of self.old) space.now (Frame.Turned iteration) (continued_with (context_of program.now) (iterated (code_of program.now h.world) iteration (drop iteration.base self.old.held.items)) value) h n ≡ remaining_with program.now (view_of self.new) space.now h n }
        ensures nested { IsTrue result → IsNested (view_of self.new) }
        ensures within { (clusters : Option Below) → AreReached (reach (length space.now.slots) clusters) (view_of self.old) → AreReached (reach (length space.now.slots) clusters) (view_of self.new) }
        ensures left { self.new.left ≡ self.old.left }
        ensures size { IsTrue result → size (view_of self.new) ≤ 3 * length self.old.frames.items + 4 }
        ensures same { IsFalse result → self.new ≡ self.old }
    {
        match iteration.visits {
            Visits::Times(_) => self.begin_ahead(program, space, iteration, value),
            _ => self.begin_ahead(program, space, iteration, value),
        }
    }

    /// Goes on with what is ahead of an iteration over an array, where that is another turn that takes no memory.
    #[tactic(auto, unfolding(crate::specs::Within::AreReached))]
    #[inline(always)]
    fn begin_element(&mut self, program: &Program, space: &Space, iteration: Iterating) -> bool
        requires room { length self.old.frames.items < vec_capacity self.old.frames }
        requires base { iteration.base ≤ length self.old.held.items }
        requires nested { Nested (reverse self.old.frames.items) (take iteration.base self.old.held.items) }
        ensures goes { IsTrue result → (h : Course) (n : ℕ) → after_values program.now (view_of self.old) space.now (Frame.Turned iteration) (continued (context_of program.now) (iterated (code_of program.now h.world) iteration (drop iteration.base self.old.held.items))) h n ≡ remaining_with program.now (view_of self.new) space.now h n }
        ensures nested { IsTrue result → IsNested (view_of self.new) }
        ensures within { (clusters : Option Below) → AreReached (reach (length space.now.slots) clusters) (view_of self.old) → AreReached (reach (length space.now.slots) clusters) (view_of self.new) }
        ensures left { self.new.left ≡ self.old.left }
        ensures size { IsTrue result → size (view_of self.new) ≤ 3 * length self.old.frames.items + 4 }
        ensures same { IsFalse result → self.new ≡ self.old }
    {
        let stand = standing(&self.held, Frame::Turned(iteration));
        match elements_ahead(space, iteration.visits, stand) {
            Some(Ahead::Another(first, last, visits)) => {
                let next = Iterating {
                    visits,
                    ..iteration
                };
                self.begin_round(program, space, next, first, last)
            }
            _ => false,
        }
    }

    /// The same, where a value is kept before, if there is one and there is room for it.
    #[tactic(auto, unfolding(crate::specs::Within::AreReached))]
    fn begin_element_with(
        &mut self,
        program: &Program,
        space: &Space,
        iteration: Iterating,
        found: Option<Ref>,
    ) -> bool
        requires room { length self.old.frames.items < vec_capacity self.old.frames }
        requires base { iteration.base ≤ length self.old.held.items }
        requires nested { Nested (reverse self.old.frames.items) (take iteration.base self.old.held.items) }
        ensures goes { IsTrue result → (h : Course) (n : ℕ) → after_values program.now (view_of self.old) space.now (Frame.Turned iteration) (continued (context_of program.now) (iterated (code_of program.now h.world) iteration (drop iteration.base self.old.held.items ++ list_of found))) h n ≡ remaining_with program.now (view_of self.new) space.now h n }
        ensures nested { IsTrue result → IsNested (view_of self.new) }
        ensures within { (clusters : Option Below) → AreReached (reach (length space.now.slots) clusters) (view_of self.old) → All (IsReached (reach (length space.now.slots) clusters)) (list_of found) → AreReached (reach (length space.now.slots) clusters) (view_of self.new) }
        ensures left { self.new.left ≡ self.old.left }
        ensures size { IsTrue result → size (view_of self.new) ≤ 3 * length self.old.frames.items + 4 }
        ensures same { IsFalse result → view_of self.new ≡ view_of self.old }
        ensures still { IsFalse result → length self.new.frames.items < vec_capacity self.new.frames }
    {
        let Some(value) = found else {
            return self.begin_element(program, space, iteration);
        };
        if self.held.len() >= self.held.capacity() {
            return false;
        }
        let count = self.held.len();
        self.held.push_reserved(value);
        if self.begin_element(program, space, iteration) {
            return true;
        }
        self.held.truncate(count);
        false
    }

    /// Goes on behind a turn of an iteration over an array that had a value, and whose frame is gone, where the iteration may keep a value
    /// of it and another turn is ahead that takes no memory.
    #[tactic(auto, unfolding(crate::specs::Within::AreReached))]
    fn begin_kept(
        &mut self,
        program: &Program,
        space: &Space,
        iteration: Iterating,
        value: Ref,
    ) -> bool
        requires room { length self.old.frames.items < vec_capacity self.old.frames }
        requires base { iteration.base ≤ length self.old.held.items }
        requires nested { Nested (reverse self.old.frames.items) (take iteration.base self.old.held.items) }
        ensures goes { IsTrue result → (h : Course) (n : ℕ) → after_values program.now (view_of self.old) space.now (Frame.Turned iteration) (continued_with (context_of program.now) (iterated (code_of program.now h.world) iteration (drop iteration.base self.old.held.items)) value) h n ≡ remaining_with program.now (view_of self.new) space.now h n }
        ensures nested { IsTrue result → IsNested (view_of self.new) }
        ensures within { (clusters : Option Below) → AreReached (reach (length space.now.slots) clusters) (view_of self.old) → IsReached (reach (length space.now.slots) clusters) value → AreReached (reach (length space.now.slots) clusters) (view_of self.new) }
        ensures left { self.new.left ≡ self.old.left }
        ensures size { IsTrue result → size (view_of self.new) ≤ 3 * length self.old.frames.items + 4 }
        ensures same { IsFalse result → view_of self.new ≡ view_of self.old }
        ensures still { IsFalse result → length self.new.frames.items < vec_capacity self.new.frames }
    {
        let stand = standing(&self.held, Frame::Turned(iteration));
        match kept(space, iteration.visits, value, stand) {
            Ok(found) => self.begin_element_with(program, space, iteration, found),
            Err(_) => false,
        }
    }

    /// Goes on behind a turn of an iteration that had a value, and whose frame is gone, in a frame again: it answers whether another turn
    /// began. Where none did, the iteration waits behind its turn.
    #[tactic(auto, unfolding(crate::specs::Within::AreReached))]
    #[inline(always)]
    fn begin_or_wait(
        &mut self,
        prepared: &Prepared,
        space: &Space,
        iteration: Iterating,
        value: Ref,
        stop: u64,
    ) -> bool
        requires room { length self.old.frames.items < vec_capacity self.old.frames }
        requires base { iteration.base ≤ length self.old.held.items }
        requires nested { Nested (reverse self.old.frames.items) (take iteration.base self.old.held.items) }
        requires left { stop ≤ self.old.left }
        ensures goes { (h : Course) → after_values prepared.now.program (view_of self.old) space.now (Frame.Turned iteration) (continued_with (context_of prepared.now.program) (iterated (code_of prepared.now.program h.world) iteration (drop iteration.base self.old.held.items)) value) h self.old.left ≡ remaining prepared.now.program (view_of self.new) space.now h }
        ensures nested { IsNested (view_of self.new) }
        ensures within { (clusters : Option Below) → AreReached (reach (length space.now.slots) clusters) (view_of self.old) → IsReached (reach (length space.now.slots) clusters) value → AreReached (reach (length space.now.slots) clusters) (view_of self.new) }
        ensures left { stop ≤ self.new.left }
        ensures kept { self.new.left ≤ self.old.left }
        ensures size { size (view_of self.new) ≤ 3 * length self.old.frames.items + 5 }
        ensures falls { IsTrue result → size (view_of self.new) ≤ 3 * length self.old.frames.items + 4 }
    {
        let program = &prepared.program;
        if self.begin_next(program, space, iteration, value) {
            self.enter_body(program, stop);
            return true;
        }
        push_within(&mut self.frames, Frame::Turned(iteration));
        self.control = Control::Give(Answer::Gave(value));
        false
    }

    /// Goes on behind a turn of an iteration that had a value, and whose frame is gone: it answers whether another turn began, or a `break`
    /// ended the iteration. Where neither did, the iteration waits behind its turn.
    #[tactic(auto, unfolding(crate::specs::Within::AreReached))]
    #[inline(always)]
    pub fn go_on_often(
        &mut self,
        prepared: &Prepared,
        space: &Space,
        iteration: Iterating,
        value: Ref,
        stop: u64,
    ) -> bool
        requires room { length self.old.frames.items < vec_capacity self.old.frames }
        requires base { iteration.base ≤ length self.old.held.items }
        requires nested { Nested (reverse self.old.frames.items) (take iteration.base self.old.held.items) }
        requires left { stop ≤ self.old.left }
        ensures goes { (h : Course) → after_values prepared.now.program (view_of self.old) space.now (Frame.Turned iteration) (continued_with (context_of prepared.now.program) (iterated (code_of prepared.now.program h.world) iteration (drop iteration.base self.old.held.items)) value) h self.old.left ≡ remaining prepared.now.program (view_of self.new) space.now h }
        ensures nested { IsNested (view_of self.new) }
        ensures within { (clusters : Option Below) → AreReached (reach (length space.now.slots) clusters) (view_of self.old) → IsReached (reach (length space.now.slots) clusters) value → AreReached (reach (length space.now.slots) clusters) (view_of self.new) }
        ensures left { stop ≤ self.new.left }
        ensures kept { self.new.left ≤ self.old.left }
        ensures size { size (view_of self.new) ≤ 3 * length self.old.frames.items + 5 }
        ensures falls { IsTrue result → size (view_of self.new) ≤ 3 * length self.old.frames.items + 4 }
    {
        let done = self.try_turns(prepared, space, iteration, value, stop);
        let next = Iterating {
            visits: done.visits,
            ..iteration
        };
        if self.break_often(prepared, space, next, done.value, stop) {
            return true;
        }
        self.begin_or_wait(prepared, space, next, done.value, stop)
    }

    /// Goes on behind a turn of an iteration, whose frame goes: it answers whether another turn began. Where none did, the iteration
    /// waits behind its turn.
    #[tactic(auto, unfolding(crate::specs::Within::AreReached))]
    #[inline(always)]
    pub fn resume_turn(
        &mut self,
        prepared: &Prepared,
        space: &Space,
        iteration: Iterating,
        value: Ref,
        stop: u64,
    ) -> bool
        requires control { self.old.control ≡ Control.Give (Answer.Gave value) }
        requires top { IsTop self.old.frames.items (Frame.Round iteration) }
        requires nested { IsNested (view_of self.old) }
        requires within { stop ≤ self.old.left }
        ensures goes { (h : Course) → remaining prepared.now.program (view_of self.old) space.now h ≡ remaining prepared.now.program (view_of self.new) space.now h }
        ensures nested { IsNested (view_of self.new) }
        ensures within { (clusters : Option Below) → AreReached (reach (length space.now.slots) clusters) (view_of self.old) → AreReached (reach (length space.now.slots) clusters) (view_of self.new) }
        ensures left { stop ≤ self.new.left }
        ensures spends { self.new.left ≤ self.old.left }
        ensures kept { size (view_of self.new) ≤ size (view_of self.old) }
        ensures falls { IsTrue result → size (view_of self.new) < size (view_of self.old) }
    {
        self.take_top(Frame::Round(iteration), Answer::Gave(value));
        self.pop_call();
        self.go_on_often(prepared, space, iteration, value, stop)
    }

    /// The same of an iteration over an array that may keep a value of its turn.
    #[tactic(auto, unfolding(crate::specs::Within::AreReached))]
    pub fn resume_kept(
        &mut self,
        program: &Program,
        space: &Space,
        iteration: Iterating,
        value: Ref,
        stop: u64,
    ) -> bool
        requires control { self.old.control ≡ Control.Give (Answer.Gave value) }
        requires top { IsTop self.old.frames.items (Frame.Round iteration) }
        requires nested { IsNested (view_of self.old) }
        requires within { stop ≤ self.old.left }
        ensures goes { (h : Course) → remaining program.now (view_of self.old) space.now h ≡ remaining program.now (view_of self.new) space.now h }
        ensures nested { IsNested (view_of self.new) }
        ensures within { (clusters : Option Below) → AreReached (reach (length space.now.slots) clusters) (view_of self.old) → AreReached (reach (length space.now.slots) clusters) (view_of self.new) }
        ensures left { stop ≤ self.new.left }
        ensures spends { self.new.left ≤ self.old.left }
        ensures kept { size (view_of self.new) ≤ size (view_of self.old) }
        ensures falls { IsTrue result → size (view_of self.new) < size (view_of self.old) }
    {
        self.take_top(Frame::Round(iteration), Answer::Gave(value));
        self.pop_call();
        if self.begin_kept(program, space, iteration, value) {
            self.enter_body(program, stop);
            return true;
        }
        push_within(&mut self.frames, Frame::Turned(iteration));
        false
    }
}
