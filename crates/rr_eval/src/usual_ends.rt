//! What ends with a value in a usual way: a round of a loop, statements that clauses rescue, and a block.

ghost use Rattle.std.specs.Prelude.{◌≡◌, ◌+◌, ◌*◌, ◌≤◌, ℕ, length, Option};
ghost use Rattle.rr_space.specs.Tables.{Table, Below};
ghost use Rattle.rr_tree.specs.declared.program.Program.{Program};
ghost use Rattle.rr_eval.specs.declared.frame.Control.{Control};
ghost use Rattle.rr_eval.specs.declared.frame.Frame.{Frame};
ghost use Rattle.rr_eval.specs.declared.problem.Answer.{Answer};
ghost use Rattle.rr_eval.specs.Requests.{Course};
ghost use Rattle.rr_eval.specs.Turns.{IsNested, remaining, remaining_with, after_answer, power, size};
ghost use Rattle.rr_eval.specs.Usual.{IsTop};
ghost use Rattle.rr_eval.specs.Views.{view_of};
ghost use Rattle.rr_eval.specs.Within.{Reach, reach, IsReached, AreReached};

use crate::call_stack::Variable;
use crate::engine::Engine;
use crate::frame::Frame;
use crate::prepared::Prepared;
use crate::problem::Answer;
use rr_space::{Ref, Space};
use rr_tree::{NodeId, Program};

impl Engine {
    /// Ends a round of a loop, for which the topmost frame waits, which is this one, and begins the next one, where its condition needs
    /// no frame and the steps do not stop before.
    #[inline(always)]
    fn end_round(&mut self, prepared: &Prepared, space: &Space, here: NodeId, value: Ref, stop: u64)
        requires top { IsTop self.old.frames.items (Frame.Body here) }
        requires nested { IsNested (view_of self.old) }
        requires stop { stop ≤ self.old.left }
        ensures goes { (h : Course) → remaining_with prepared.now.program (record (view_of self.old) { control = Control.Give (Answer.Gave value) }) space.now h self.old.left ≡ remaining prepared.now.program (view_of self.new) space.now h }
        ensures nested { IsNested (view_of self.new) }
        ensures within { (clusters : Option Below) → AreReached (reach (length space.now.slots) clusters) (view_of self.old) → AreReached (reach (length space.now.slots) clusters) (view_of self.new) }
        ensures left { stop ≤ self.new.left }
        ensures kept { self.new.left ≤ self.old.left }
        ensures falls { power (view_of self.new) ≤ 8 * self.old.left + self.new.left + 3 * length self.old.frames.items + 1 }
    {
        self.drop_top(Frame::Body(here), Answer::Gave(value));
        self.control.enter(here);
        // A loop whose rounds need no frames is begun again as a whole.
        if prepared.straight_from(here).is_some() && self.is_promising(prepared, here) {
            return;
        }
        if self.left > stop {
            self.visit_again(prepared, space, here, stop);
        }
        self.enter_statements(prepared, stop);
    }

    /// Ends statements that clauses rescue, for which the topmost frame waits, which is this one.
    #[inline(always)]
    fn end_rescued(
        &mut self,
        program: &Program,
        end: NodeId,
        count: u32,
        otherwise: NodeId,
        value: Ref,
    )
        requires top { IsTop self.old.frames.items (Frame.Rescue end count otherwise) }
        requires nested { IsNested (view_of self.old) }
        ensures goes { (t : Table) (h : Course) (n : ℕ) → remaining_with program.now (record (view_of self.old) { control = Control.Give (Answer.Gave value) }) t h n ≡ remaining_with program.now (view_of self.new) t h n }
        ensures nested { IsNested (view_of self.new) }
        ensures within { (k : Reach) → AreReached k (view_of self.old) → IsReached k value → AreReached k (view_of self.new) }
        ensures left { self.new.left ≡ self.old.left }
        ensures size { size (view_of self.new) ≤ 3 * length self.old.frames.items + 1 }
    {
        self.drop_top(Frame::Rescue(end, count, otherwise), Answer::Gave(value));
        self.go_else(program, otherwise, value);
    }

    /// Ends a block that a `yield` calls, for which the topmost frame waits, which is this one.
    #[inline(always)]
    fn end_yielded(&mut self, value: Ref)
        requires top { IsTop self.old.frames.items (Frame.Past) }
        requires nested { IsNested (view_of self.old) }
        ensures goes { (p : Program) (t : Table) (h : Course) (n : ℕ) → remaining_with p (record (view_of self.old) { control = Control.Give (Answer.Gave value) }) t h n ≡ remaining_with p (view_of self.new) t h n }
        ensures nested { IsNested (view_of self.new) }
        ensures within { (k : Reach) → AreReached k (view_of self.old) → IsReached k value → AreReached k (view_of self.new) }
        ensures left { self.new.left ≡ self.old.left }
        ensures size { size (view_of self.new) ≤ 3 * length self.old.frames.items + 1 }
    {
        self.drop_top(Frame::Past, Answer::Gave(value));
        self.end_block(value);
    }

    /// Gives the topmost frame a value, and ends at once what usually ends with one.
    #[inline(always)]
    fn end_usual(&mut self, prepared: &Prepared, space: &Space, value: Ref, stop: u64)
        requires nested { IsNested (view_of self.old) }
        requires stop { stop ≤ self.old.left }
        ensures goes { (h : Course) → remaining_with prepared.now.program (record (view_of self.old) { control = Control.Give (Answer.Gave value) }) space.now h self.old.left ≡ remaining prepared.now.program (view_of self.new) space.now h }
        ensures nested { IsNested (view_of self.new) }
        ensures within { (clusters : Option Below) → AreReached (reach (length space.now.slots) clusters) (view_of self.old) → IsReached (reach (length space.now.slots) clusters) value → AreReached (reach (length space.now.slots) clusters) (view_of self.new) }
        ensures left { stop ≤ self.new.left }
        ensures kept { self.new.left ≤ self.old.left }
        ensures falls { power (view_of self.new) ≤ 8 * self.old.left + self.new.left + 3 * length self.old.frames.items + 4 }
    {
        match self.frames.last() {
            Some(&Frame::Body(here)) => self.end_round(prepared, space, here, value, stop),
            Some(&Frame::Rescue(end, count, otherwise)) => {
                self.end_rescued(&prepared.program, end, count, otherwise, value);
            }
            Some(&Frame::Past) => self.end_yielded(value),
            _ => self.give_top(value),
        }
    }

    /// Assigns to a local variable, and ends at once what usually ends with that.
    #[tactic(auto, unfolding(crate::specs::Within::AreReached))]
    #[inline(always)]
    pub fn store_usual(
        &mut self,
        prepared: &Prepared,
        space: &Space,
        variable: Variable,
        value: Ref,
        stop: u64,
    )
        requires nested { IsNested (view_of self.old) }
        requires stop { stop ≤ self.old.left }
        ensures goes { (h : Course) → after_answer prepared.now.program (view_of self.old) space.now (Frame.Store variable) (Answer.Gave value) h self.old.left ≡ remaining prepared.now.program (view_of self.new) space.now h }
        ensures nested { IsNested (view_of self.new) }
        ensures within { (clusters : Option Below) → AreReached (reach (length space.now.slots) clusters) (view_of self.old) → IsReached (reach (length space.now.slots) clusters) value → AreReached (reach (length space.now.slots) clusters) (view_of self.new) }
        ensures left { stop ≤ self.new.left }
        ensures kept { self.new.left ≤ self.old.left }
        ensures falls { power (view_of self.new) ≤ 8 * self.old.left + self.new.left + 3 * length self.old.frames.items + 4 }
    {
        self.calls.write(variable, value);
        self.end_usual(prepared, space, value, stop);
    }
}
