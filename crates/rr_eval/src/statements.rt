//! Statements, one behind the other.

ghost use Rattle.std.specs.Prelude.{◌≡◌, ◌+◌, ◌*◌, ◌<◌, ◌≤◌, ℕ, length};
ghost use Rattle.rr_space.specs.Tables.{Table};
ghost use Rattle.rr_tree.specs.declared.program.Program.{Program};
ghost use Rattle.rr_eval.specs.declared.frame.Control.{Control};
ghost use Rattle.rr_eval.specs.declared.frame.Frame.{Frame};
ghost use Rattle.rr_eval.specs.declared.problem.Answer.{Answer};
ghost use Rattle.rr_eval.specs.Requests.{Course};
ghost use Rattle.rr_eval.specs.Turns.{IsNested, remaining, remaining_with, size};
ghost use Rattle.rr_eval.specs.Usual.{IsTop};
ghost use Rattle.rr_eval.specs.Views.{view_of};
ghost use Rattle.rr_eval.specs.Within.{Reach, IsReached, AreReached};

use crate::engine::{Engine, count_statements};
use crate::frame::{Control, Frame};
use crate::problem::Answer;
use rr_space::Ref;
use rr_tree::{NodeId, Program};

impl Engine {
    /// Goes on behind a statement that has a value, where the topmost frame, which is this one, waits for that: with the statement that
    /// comes next. The frame is changed where it lies.
    #[inline(always)]
    fn next_statement(&mut self, end: NodeId, count: u32, value: Ref)
        requires top { IsTop self.old.frames.items (Frame.Rest end count) }
        requires nested { IsNested (view_of self.old) }
        ensures goes { (p : Program) (t : Table) (h : Course) (n : ℕ) → remaining_with p (record (view_of self.old) { control = Control.Give (Answer.Gave value) }) t h n ≡ remaining_with p (view_of self.new) t h n }
        ensures nested { IsNested (view_of self.new) }
        ensures within { (k : Reach) → AreReached k (view_of self.old) → AreReached k (view_of self.new) }
        ensures left { self.new.left ≡ self.old.left }
        ensures size { size (view_of self.new) ≤ 3 * length self.old.frames.items + 1 }
    {
        if count > 1 {
            let top = self.frames.len().saturating_sub(1);
            count_statements(&mut self.frames, top, count - 1);
            self.control.enter(end.saturating_sub(count));
        } else {
            self.drop_top(Frame::Rest(end, count), Answer::Gave(value));
            self.begin(end, count);
        }
    }

    /// Gives the topmost frame a value: a list of statements goes on at once.
    #[tactic(auto, unfolding(crate::specs::Within::AreReached))]
    #[inline(always)]
    pub fn give_top(&mut self, value: Ref)
        requires nested { IsNested (view_of self.old) }
        ensures goes { (p : Program) (t : Table) (h : Course) (n : ℕ) → remaining_with p (record (view_of self.old) { control = Control.Give (Answer.Gave value) }) t h n ≡ remaining_with p (view_of self.new) t h n }
        ensures nested { IsNested (view_of self.new) }
        ensures within { (k : Reach) → AreReached k (view_of self.old) → IsReached k value → AreReached k (view_of self.new) }
        ensures left { self.new.left ≡ self.old.left }
        ensures size { size (view_of self.new) ≤ 3 * length self.old.frames.items + 4 }
    {
        match self.frames.last() {
            Some(&Frame::Rest(end, count)) => self.next_statement(end, count, value),
            _ => self.control.give(value),
        }
    }

    /// Goes on with the next statement.
    #[inline(always)]
    pub fn resume_rest(&mut self, end: NodeId, count: u32, value: Ref)
        requires control { self.old.control ≡ Control.Give (Answer.Gave value) }
        requires top { IsTop self.old.frames.items (Frame.Rest end count) }
        requires nested { IsNested (view_of self.old) }
        ensures goes { (p : Program) (t : Table) (h : Course) → remaining p (view_of self.old) t h ≡ remaining p (view_of self.new) t h }
        ensures nested { IsNested (view_of self.new) }
        ensures within { (k : Reach) → AreReached k (view_of self.old) → AreReached k (view_of self.new) }
        ensures left { self.new.left ≡ self.old.left }
        ensures falls { size (view_of self.new) < size (view_of self.old) }
    {
        self.next_statement(end, count, value);
    }
}
