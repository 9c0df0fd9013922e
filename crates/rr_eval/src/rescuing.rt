//! Exceptions that are rescued, and what always follows.

ghost use Rattle.std.specs.Prelude.{◌≡◌, ◌+◌, ◌-◌, ◌*◌, ◌<◌, ◌≤◌, ℕ, [], length, true, vec_capacity};
ghost use Rattle.rr_base.specs.declared.name.TheConstants.ClassId.{STANDARD_ERROR};
ghost use Rattle.rr_space.specs.Kinds.{class_at};
ghost use Rattle.rr_space.specs.Tables.{Table};
ghost use Rattle.rr_tree.specs.Nodes.{trees_before};
ghost use Rattle.rr_tree.specs.Tree.{tree_at};
ghost use Rattle.rr_tree.specs.declared.program.Program.{Program};
ghost use Rattle.rr_eval.specs.Script.{Script, Do};
ghost use Rattle.rr_tree.specs.Ancestors.{descends};
ghost use Rattle.rr_eval.specs.Frames.{taker, behind_class};
ghost use Rattle.rr_eval.specs.Requests.{Course};
ghost use Rattle.rr_eval.specs.Rescuing.{class_parts, with_caught, taken_by, fitted, tried, else_rule};
ghost use Rattle.rr_eval.specs.Turns.{context_of, code_of, IsNested, after_script, remaining_with, size};
ghost use Rattle.rr_eval.specs.Views.{view_of};
ghost use Rattle.rr_eval.specs.Within.{Reach, IsReached, AreReached};

use crate::call_stack::Variable;
use crate::clauses::{clause_at, clauses_left};
use crate::engine::Engine;
use crate::frame::{Control, Frame, Trial};
use crate::nodes::evaluated_node;
use crate::problem::{Answer, Problem};
use rr_builtin::Problem as BuiltInProblem;
use rr_space::{Ref, Space};
use rr_tree::{Node, NodeId, Program};

impl Engine {
    /// From now on an exception is being rescued, which is also the value of a variable, where one is given.
    #[tactic(auto, unfolding(crate::specs::Within::AreReached))]
    fn catch(&mut self, variable: Option<Variable>, exception: Ref)
        requires nested { IsNested (view_of self.old) }
        ensures goes { (p : Program) (script : Script) (t : Table) (h : Course) (n : ℕ) → after_script p (view_of self.old) t (Do (with_caught variable exception) script) h n ≡ after_script p (view_of self.new) t script h n }
        ensures nested { IsNested (view_of self.new) }
        ensures frames { self.new.frames ≡ self.old.frames }
        ensures within { (k : Reach) → AreReached k (view_of self.old) → IsReached k exception → AreReached k (view_of self.new) }
        ensures left { self.new.left ≡ self.old.left }
    {
        self.rescuing = exception;
        match variable {
            Some(variable) => self.calls.write(variable, exception),
            None => (),
        }
    }

    /// Evaluates the statements of a clause that takes an exception.
    #[tactic(auto, unfolding(crate::specs::Within::AreReached))]
    fn take(&mut self, program: &Program, place: NodeId, exception: Ref)
        requires room { length self.old.frames.items < vec_capacity self.old.frames }
        requires nested { IsNested (view_of self.old) }
        ensures goes { (t : Table) (h : Course) (n : ℕ) → after_script program.now (view_of self.old) t (taken_by (tree_at program.now.nodes.items place) exception) h n ≡ remaining_with program.now (view_of self.new) t h n }
        ensures nested { IsNested (view_of self.new) }
        ensures within { (k : Reach) → AreReached k (view_of self.old) → IsReached k exception → AreReached k (view_of self.new) }
        ensures left { self.new.left ≡ self.old.left }
        ensures size { size (view_of self.new) ≤ 3 * length self.old.frames.items + 4 }
    {
        let clause = clause_at(program, place);
        let old = self.rescuing;
        self.catch(clause.variable, exception);
        self.enter_above(Frame::Handling(old), clause.body);
    }

    /// Tries the first of the last `count` clauses before `end` on an exception, where it has classes or takes the exception.
    #[tactic(auto, unfolding(crate::specs::Within::AreReached))]
    fn try_clause(
        &mut self,
        program: &Program,
        space: &Space,
        exception: Ref,
        end: NodeId,
        count: u32,
    )
        requires some { 0 < count }
        requires takes { class_parts (tree_at program.now.nodes.items (end - count)) ≡ [] → descends program.now (class_at space.now exception).0 STANDARD_ERROR.0 ≡ true }
        requires room { length self.old.frames.items < vec_capacity self.old.frames }
        requires nested { IsNested (view_of self.old) }
        ensures goes { (h : Course) (n : ℕ) → after_script program.now (view_of self.old) space.now (tried (context_of program.now) exception (trees_before program.now.nodes.items end count)) h n ≡ remaining_with program.now (view_of self.new) space.now h n }
        ensures nested { IsNested (view_of self.new) }
        ensures within { (k : Reach) → AreReached k (view_of self.old) → IsReached k exception → AreReached k (view_of self.new) }
        ensures left { self.new.left ≡ self.old.left }
        ensures size { size (view_of self.new) ≤ 3 * length self.old.frames.items + 4 }
    {
        let place = end.saturating_sub(count);
        let clause = clause_at(program, place);
        match clause.count {
            0 => self.take(program, place, exception),
            _ => {
                let trial = Trial {
                    exception,
                    last: clause.first + clause.count,
                    classes: clause.count - 1,
                    end,
                    clauses: count - 1,
                };
                self.enter_above(Frame::Class(trial), clause.first);
            }
        }
    }

    /// Tries the last `count` clauses before `end` on an exception, which stays raised where none takes it.
    #[tactic(auto, unfolding(crate::specs::Within::AreReached))]
    pub fn try_clauses(
        &mut self,
        program: &Program,
        space: &Space,
        exception: Ref,
        end: NodeId,
        count: u32,
    )
        requires room { length self.old.frames.items < vec_capacity self.old.frames }
        requires nested { IsNested (view_of self.old) }
        ensures goes { (h : Course) (n : ℕ) → after_script program.now (view_of self.old) space.now (tried (context_of program.now) exception (trees_before program.now.nodes.items end count)) h n ≡ remaining_with program.now (view_of self.new) space.now h n }
        ensures nested { IsNested (view_of self.new) }
        ensures within { (k : Reach) → AreReached k (view_of self.old) → IsReached k exception → AreReached k (view_of self.new) }
        ensures left { self.new.left ≡ self.old.left }
        ensures size { size (view_of self.new) ≤ 3 * length self.old.frames.items + 4 }
    {
        match clauses_left(program, space, exception, end, count) {
            0 => self.control = Control::Give(Answer::Raised(exception)),
            left => self.try_clause(program, space, exception, end, left),
        }
    }

    /// Tries what stands behind a class that does not fit: the next class of the clause, or the next clause.
    #[tactic(auto, unfolding(crate::specs::Within::AreReached))]
    fn try_behind(&mut self, program: &Program, space: &Space, trial: Trial)
        requires room { length self.old.frames.items < vec_capacity self.old.frames }
        requires nested { IsNested (view_of self.old) }
        ensures goes { (h : Course) (n : ℕ) → after_script program.now (view_of self.old) space.now (behind_class (code_of program.now h.world) trial) h n ≡ remaining_with program.now (view_of self.new) space.now h n }
        ensures nested { IsNested (view_of self.new) }
        ensures within { (k : Reach) → AreReached k (view_of self.old) → IsReached k trial.exception → AreReached k (view_of self.new) }
        ensures left { self.new.left ≡ self.old.left }
        ensures size { size (view_of self.new) ≤ 3 * length self.old.frames.items + 4 }
    {
        match trial.classes {
            0 => self.try_clauses(program, space, trial.exception, trial.end, trial.clauses),
            left => {
                let next = Trial {
                    classes: left - 1,
                    ..trial
                };
                self.enter_above(Frame::Class(next), trial.last.saturating_sub(left));
            }
        }
    }

    /// Goes on with the value of a class that is tried: its clause takes the exception, or what stands behind it is tried.
    #[tactic(auto, unfolding(crate::specs::Within::AreReached))]
    pub fn resume_class(&mut self, program: &Program, space: &Space, trial: Trial, value: Ref)
        requires room { length self.old.frames.items < vec_capacity self.old.frames }
        requires nested { IsNested (view_of self.old) }
        ensures goes { (h : Course) (n : ℕ) → after_script program.now (view_of self.old) space.now (fitted (context_of program.now) trial.exception value (taker (code_of program.now h.world) trial) (behind_class (code_of program.now h.world) trial)) h n ≡ remaining_with program.now (view_of self.new) space.now h n }
        ensures nested { IsNested (view_of self.new) }
        ensures within { (k : Reach) → AreReached k (view_of self.old) → IsReached k trial.exception → AreReached k (view_of self.new) }
        ensures left { self.new.left ≡ self.old.left }
        ensures size { size (view_of self.new) ≤ 3 * length self.old.frames.items + 4 }
    {
        match value {
            Ref::Class(class) => {
                if program.descends(space.class_of(trial.exception), class) {
                    let place = trial.end.saturating_sub(trial.clauses).saturating_sub(1);
                    self.take(program, place, trial.exception);
                } else {
                    self.try_behind(program, space, trial);
                }
            }
            _ => {
                let problem = BuiltInProblem::WrongType(space.class_of(value));
                self.control = Control::Throw(Problem::BuiltIn(problem));
            }
        }
    }

    /// Goes on behind statements that raised nothing.
    #[tactic(auto, unfolding(crate::specs::Within::AreReached))]
    #[inline(always)]
    pub fn go_else(&mut self, program: &Program, otherwise: NodeId, value: Ref)
        requires nested { IsNested (view_of self.old) }
        ensures goes { (t : Table) (h : Course) (n : ℕ) → after_script program.now (view_of self.old) t (else_rule (tree_at program.now.nodes.items otherwise) value) h n ≡ remaining_with program.now (view_of self.new) t h n }
        ensures nested { IsNested (view_of self.new) }
        ensures within { (k : Reach) → AreReached k (view_of self.old) → IsReached k value → AreReached k (view_of self.new) }
        ensures left { self.new.left ≡ self.old.left }
        ensures size { size (view_of self.new) ≤ 3 * length self.old.frames.items + 4 }
    {
        match evaluated_node(program, otherwise) {
            Node::Nil => self.give_top(value),
            _ => self.control.enter(otherwise),
        }
    }
}
