//! How methods and blocks end.

ghost use Rattle.std.specs.Prelude.{◌≡◌, ◌+◌, ◌*◌, ◌≤◌, ℕ, length};
ghost use Rattle.rr_space.specs.Tables.{Table};
ghost use Rattle.rr_tree.specs.declared.program.Program.{Program};
ghost use Rattle.rr_eval.specs.declared.frame.Control.{Control};
ghost use Rattle.rr_eval.specs.declared.problem.Answer.{Answer};
ghost use Rattle.rr_eval.specs.Blocks.{back, past, return_rule, valued};
ghost use Rattle.rr_eval.specs.Requests.{Course};
ghost use Rattle.rr_eval.specs.Turns.{context_of, IsNested, after_script, more_of, remaining_with, size};
ghost use Rattle.rr_eval.specs.Views.{view_of};
ghost use Rattle.rr_eval.specs.Within.{Reach, IsAnswerReached, IsReached, AreReached, IsCallValueReached};

use crate::call_stack::{CallValue, is_outside};
use crate::engine::Engine;
use crate::frame::{Control, Frame};
use crate::problem::{Answer, Problem, valued};
use rr_space::Ref;

/// What a call gives whose value is neither that of the method nor another value.
#[cold]
#[inline(never)]
fn rare_value(by: CallValue, value: Ref) -> Answer
    ensures is { result ≡ valued by (Answer.Gave value) }
    ensures more { more_of result ≤ 0 }
    ensures within { (k : Reach) → IsCallValueReached k by → IsReached k value → IsAnswerReached k result }
{
    valued(by, Answer::Gave(value))
}

impl Engine {
    /// A method ends with a value, and its variables go.
    #[tactic(auto, unfolding(crate::specs::Within::AreReached))]
    #[inline(always)]
    pub fn end_method(&mut self, by: CallValue, value: Ref)
        requires nested { IsNested (view_of self.old) }
        ensures goes { (p : Program) (t : Table) (h : Course) (n : ℕ) → after_script p (view_of self.old) t (back by (Answer.Gave value)) h n ≡ remaining_with p (view_of self.new) t h n }
        ensures nested { IsNested (view_of self.new) }
        ensures within { (k : Reach) → AreReached k (view_of self.old) → IsCallValueReached k by → IsReached k value → AreReached k (view_of self.new) }
        ensures left { self.new.left ≡ self.old.left }
        ensures size { size (view_of self.new) ≡ 3 * length self.old.frames.items + 2 }
    {
        self.drop_frame();
        match by {
            CallValue::Method => self.control.give(value),
            CallValue::Other(other) => self.control.give(other),
            _ => self.control = Control::Give(rare_value(by, value)),
        }
    }

    /// A block that a `yield` calls ends with a value, and its variables go.
    #[tactic(auto, unfolding(crate::specs::Within::AreReached))]
    #[inline(always)]
    pub fn end_block(&mut self, value: Ref)
        requires nested { IsNested (view_of self.old) }
        ensures goes { (p : Program) (t : Table) (h : Course) (n : ℕ) → after_script p (view_of self.old) t (past (context_of p) (Answer.Gave value)) h n ≡ remaining_with p (view_of self.new) t h n }
        ensures nested { IsNested (view_of self.new) }
        ensures within { (k : Reach) → AreReached k (view_of self.old) → IsReached k value → AreReached k (view_of self.new) }
        ensures left { self.new.left ≡ self.old.left }
        ensures size { size (view_of self.new) ≡ 3 * length self.old.frames.items + 2 }
    {
        self.drop_frame();
        self.control.give(value);
    }

    /// Gives the topmost frame a `return` with a value. A method ends with it at once.
    #[inline(always)]
    fn return_to(&mut self, value: Ref)
        requires nested { IsNested (view_of self.old) }
        ensures goes { (p : Program) (t : Table) (h : Course) (n : ℕ) → remaining_with p (record (view_of self.old) { control = Control.Give (Answer.Returned value) }) t h n ≡ remaining_with p (view_of self.new) t h n }
        ensures nested { IsNested (view_of self.new) }
        ensures within { (k : Reach) → AreReached k (view_of self.old) → IsReached k value → AreReached k (view_of self.new) }
        ensures left { self.new.left ≡ self.old.left }
        ensures size { size (view_of self.new) ≤ 3 * length self.old.frames.items + 4 }
    {
        match self.frames.last() {
            Some(&Frame::Back(by)) => {
                self.drop_top(Frame::Back(by), Answer::Returned(value));
                self.end_method(by, value);
            }
            _ => self.control = Control::Give(Answer::Returned(value)),
        }
    }

    /// Gives the topmost frame a `return` with a value. Statements let it pass at once.
    #[inline(always)]
    fn return_past(&mut self, value: Ref)
        requires nested { IsNested (view_of self.old) }
        ensures goes { (p : Program) (t : Table) (h : Course) (n : ℕ) → remaining_with p (record (view_of self.old) { control = Control.Give (Answer.Returned value) }) t h n ≡ remaining_with p (view_of self.new) t h n }
        ensures nested { IsNested (view_of self.new) }
        ensures within { (k : Reach) → AreReached k (view_of self.old) → IsReached k value → AreReached k (view_of self.new) }
        ensures left { self.new.left ≡ self.old.left }
        ensures size { size (view_of self.new) ≤ 3 * length self.old.frames.items + 4 }
    {
        if let Some(&Frame::Rest(end, count)) = self.frames.last() {
            self.drop_top(Frame::Rest(end, count), Answer::Returned(value));
        }
        self.return_to(value);
    }

    /// `return` with a value.
    #[tactic(auto, unfolding(crate::specs::Within::AreReached))]
    #[inline(always)]
    pub fn leave_method(&mut self, value: Ref)
        requires nested { IsNested (view_of self.old) }
        ensures goes { (p : Program) (t : Table) (h : Course) (n : ℕ) → after_script p (view_of self.old) t (return_rule (context_of p) value) h n ≡ remaining_with p (view_of self.new) t h n }
        ensures nested { IsNested (view_of self.new) }
        ensures within { (k : Reach) → AreReached k (view_of self.old) → IsReached k value → AreReached k (view_of self.new) }
        ensures left { self.new.left ≡ self.old.left }
        ensures size { size (view_of self.new) ≤ 3 * length self.old.frames.items + 4 }
    {
        if is_outside(&self.calls) {
            self.control = Control::Throw(Problem::Jump);
        } else {
            self.return_past(value);
        }
    }
}
