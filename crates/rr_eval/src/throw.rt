//! What an operation came to, and the exceptions that are made.

ghost use Rattle.std.specs.Prelude.{◌≡◌, ◌+◌, ◌*◌, ◌<◌, ◌≤◌, ℕ, length, IfErr, OnOk};
ghost use Rattle.rr_space.specs.Tables.{Table};
ghost use Rattle.rr_tree.specs.declared.program.Program.{Program};
ghost use Rattle.rr_eval.specs.declared.frame.Control.{Control};
ghost use Rattle.rr_eval.specs.Acts.{Passes};
ghost use Rattle.rr_eval.specs.Script.{objects_of};
ghost use Rattle.rr_eval.specs.Requests.{Course, Adds};
ghost use Rattle.rr_eval.specs.Changes.{Changes};
ghost use Rattle.rr_eval.specs.Operators.{integers};
ghost use Rattle.rr_eval.specs.Rules.{settled};
ghost use Rattle.rr_eval.specs.Turns.{context_of, remaining, remaining_with, after_script, answered, IsNested, Stands, size};
ghost use Rattle.rr_eval.specs.Views.{view_of};
ghost use Rattle.rr_eval.specs.Within.{Reach, AreReached, AreWithin, IsResponseReached, KeepsReach, KeepsRead};

use crate::engine::Engine;
use crate::exception::{exception_class, make_exception};
use crate::frame::Control;
use crate::message::message;
use crate::operator::{computed, failed, make_text};
use crate::problem::{Answer, Problem, Response};
use rr_base::{ClassId, Fault};
use rr_space::{Ref, Space};
use rr_tree::{BinaryOperator, Program};

impl Engine {
    /// Goes on with what an operation came to.
    #[tactic(auto, unfolding(crate::specs::Within::AreReached))]
    #[inline(always)]
    pub fn settle(&mut self, what: Response)
        requires nested { IsNested (view_of self.old) }
        ensures goes { (p : Program) (t : Table) (h : Course) (n : ℕ) → after_script p (view_of self.old) t (settled (context_of p) what) h n ≡ remaining_with p (view_of self.new) t h n }
        ensures nested { IsNested (view_of self.new) }
        ensures within { (k : Reach) → AreReached k (view_of self.old) → IsResponseReached k what → AreReached k (view_of self.new) }
        ensures left { self.new.left ≡ self.old.left }
        ensures frames { self.new.frames ≡ self.old.frames }
        ensures answered { view_of self.new ≡ answered (view_of self.old) what }
        ensures size { size (view_of self.new) ≤ 3 * length self.old.frames.items + 4 }
    {
        match what {
            Response::Gives(value) => self.control = Control::Give(Answer::Gave(value)),
            Response::Throws(exception) => self.control = Control::Give(Answer::Raised(exception)),
            Response::Fails(problem) => self.control = Control::Throw(problem),
        }
    }

    /// Does an operation on two integers.
    #[tactic(auto, unfolding(crate::specs::Within::AreReached))]
    #[inline(always)]
    pub fn compute(&mut self, op: BinaryOperator, x: i64, y: i64)
        requires nested { IsNested (view_of self.old) }
        ensures goes { (p : Program) (t : Table) (h : Course) (n : ℕ) → after_script p (view_of self.old) t (settled (context_of p) (integers op x y)) h n ≡ remaining_with p (view_of self.new) t h n }
        ensures nested { IsNested (view_of self.new) }
        ensures within { (k : Reach) → AreReached k (view_of self.old) → AreReached k (view_of self.new) }
        ensures left { self.new.left ≡ self.old.left }
        ensures frames { self.new.frames ≡ self.old.frames }
        ensures answered { view_of self.new ≡ answered (view_of self.old) (integers op x y) }
        ensures size { size (view_of self.new) ≤ 3 * length self.old.frames.items + 4 }
    {
        match computed(op, x, y) {
            // An integer stands apart, since its kind, which is known here, is then not looked at again.
            Ok(Ref::Int(z)) => self.control.give(Ref::Int(z)),
            Ok(value) => self.control.give(value),
            Err(problem) => self.settle(failed(problem)),
        }
    }

    /// Makes the message of an exception. A refused growth leaves all as it is.
    #[tactic(auto, unfolding(crate::specs::Within::AreReached))]
    #[inline(never)]
    pub fn throw(
        &mut self,
        program: &Program,
        space: &mut Space,
        problem: Problem,
    ) -> Result<(), Fault>
        requires control { self.old.control ≡ Control.Throw problem }
        requires nested { IsNested (view_of self.old) }
        requires within { AreWithin (length space.old.slots) (view_of self.old) }
        ensures goes { OnOk result ((h : Course) → remaining program.now (view_of self.old) space.old h ≡ remaining program.now (view_of self.new) space.new h) }
        ensures nested { IsNested (view_of self.new) }
        ensures within { KeepsReach (view_of self.old) space.old (view_of self.new) space.new }
        ensures read { KeepsRead (view_of self.old) space.old space.new }
        ensures left { self.new.left ≡ self.old.left }
        ensures size { OnOk result (size (view_of self.new) < size (view_of self.old)) }
        ensures err { IfErr result (λ f. Stands (view_of self.old) (view_of self.new) space.old space.new f) }
        ensures limit { space.new.limit ≡ space.old.limit }
        ensures changed { Changes space.old space.new }
        ensures full { IfErr result (λ f. (h : Course) → Adds h.world → Passes f space.old.limit (objects_of (remaining program.now (view_of self.old) space.old h))) }
    {
        let text = message(self.alloc, program, problem)?;
        match make_text(space, text) {
            Ok(message) => {
                self.control = Control::Raise(exception_class(problem).id(), message);
                Ok(())
            }
            Err(fault) => Err(fault),
        }
    }

    /// Makes an exception, whose message is there, and raises it. Its cause is the exception that is being rescued. A refused growth leaves all as it is.
    #[tactic(auto, unfolding(crate::specs::Within::AreReached))]
    #[inline(never)]
    pub fn raise(&mut self, space: &mut Space, class: ClassId, message: Ref) -> Result<(), Fault>
        requires control { self.old.control ≡ Control.Raise class message }
        requires nested { IsNested (view_of self.old) }
        requires within { AreWithin (length space.old.slots) (view_of self.old) }
        ensures goes { OnOk result ((p : Program) (h : Course) → remaining p (view_of self.old) space.old h ≡ remaining p (view_of self.new) space.new h) }
        ensures nested { IsNested (view_of self.new) }
        ensures within { KeepsReach (view_of self.old) space.old (view_of self.new) space.new }
        ensures read { KeepsRead (view_of self.old) space.old space.new }
        ensures left { self.new.left ≡ self.old.left }
        ensures size { OnOk result (size (view_of self.new) < size (view_of self.old)) }
        ensures err { IfErr result (λ f. Stands (view_of self.old) (view_of self.new) space.old space.new f) }
        ensures limit { space.new.limit ≡ space.old.limit }
        ensures changed { Changes space.old space.new }
        ensures full { IfErr result (λ f. (p : Program) (h : Course) → Adds h.world → Passes f space.old.limit (objects_of (remaining p (view_of self.old) space.old h))) }
    {
        match make_exception(self.alloc, space, class, message, self.rescuing) {
            Ok(exception) => {
                self.control = Control::Give(Answer::Raised(exception));
                Ok(())
            }
            Err(fault) => Err(fault),
        }
    }
}
