//! Assignments to several targets that are usual: they begin without an act of any kind, and local variables get their values at once.

ghost use Rattle.std.specs.Prelude.{◌≡◌, ◌+◌, ◌-◌, ◌<◌, ◌≤◌, ◌^◌, ℕ, length, vec_capacity, Option, None, IsTrue, IsFalse};
ghost use Rattle.rr_space.specs.Tables.{Table, Below};
ghost use Rattle.rr_tree.specs.Tree.{tree_at};
ghost use Rattle.rr_tree.specs.declared.node.Node.{Node as Nodes};
ghost use Rattle.rr_eval.specs.declared.frame.Control.{Control};
ghost use Rattle.rr_eval.specs.declared.frame.Frame.{Frame as Waiting};
ghost use Rattle.rr_eval.specs.declared.problem.Answer.{Answer as Answers};
ghost use Rattle.rr_eval.specs.Basics.{variable_of};
ghost use Rattle.rr_eval.specs.Nodes.{evaluated_tree};
ghost use Rattle.rr_eval.specs.Requests.{Course};
ghost use Rattle.rr_eval.specs.Turns.{IsNested, remaining, power, size};
ghost use Rattle.rr_eval.specs.Usual.{IsTop};
ghost use Rattle.rr_eval.specs.Views.{view_of};
ghost use Rattle.rr_eval.specs.Within.{Reach, reach, AreReached};

use crate::engine::Engine;
use crate::frame::Frame;
use crate::problem::Answer;
use crate::several::{assign_variables, right_values};
use crate::update::variable_of;
use rr_space::{Ref, Space};
use rr_tree::{NodeId, Program};

/// Whether the last `count` targets before `end` are local variables.
fn are_variables(program: &Program, end: NodeId, count: u32) -> bool
    ensures { IsTrue result → (left : ℕ) → 0 < left → left ≤ count → variable_of (tree_at program.now.nodes.items (end - left)) ≡ None → ⊥ }
{
    let mut left = count;
    while left > 0 {
        match variable_of(program, end.saturating_sub(left)) {
            Some(_) => left -= 1,
            None => return false,
        }
    }
    true
}

impl Engine {
    /// Begins an assignment to several targets.
    #[inline(always)]
    pub fn visit_several(
        &mut self,
        program: &Program,
        here: NodeId,
        first: NodeId,
        count: u32,
        value: NodeId,
        stop: u64,
    )
        requires control { self.old.control ≡ Control.Enter here }
        requires tree { tree_at program.now.nodes.items here ≡ evaluated_tree program.now.nodes.items (Nodes.MultipleAssign first count value) }
        requires small { first + count < 2 ^ 32 }
        requires some { stop < self.old.left }
        requires room { length self.old.frames.items < vec_capacity self.old.frames }
        requires nested { IsNested (view_of self.old) }
        ensures goes { (t : Table) (h : Course) → remaining program.now (view_of self.old) t h ≡ remaining program.now (view_of self.new) t h }
        ensures nested { IsNested (view_of self.new) }
        ensures within { (k : Reach) → AreReached k (view_of self.old) → AreReached k (view_of self.new) }
        ensures left { stop ≤ self.new.left }
        ensures spends { self.new.left < self.old.left }
        ensures falls { power (view_of self.new) + self.old.left ≤ power (view_of self.old) + self.new.left }
    {
        self.open_several(program, first + count, count, value);
        self.left -= 1;
    }

    /// Gives local variables what the right side has for them, where they are the only targets and there is memory for a list of it: it
    /// answers whether it did.
    #[inline(always)]
    pub fn resume_variables(
        &mut self,
        program: &Program,
        space: &Space,
        end: NodeId,
        count: u32,
        base: usize,
        value: Ref,
    ) -> bool
        requires control { self.old.control ≡ Control.Give (Answers.Gave value) }
        requires top { IsTop self.old.frames.items (Waiting.Several end count base) }
        requires nested { IsNested (view_of self.old) }
        ensures goes { (h : Course) → remaining program.now (view_of self.old) space.now h ≡ remaining program.now (view_of self.new) space.now h }
        ensures nested { IsNested (view_of self.new) }
        ensures within { (clusters : Option Below) → AreReached (reach (length space.now.slots) clusters) (view_of self.old) → AreReached (reach (length space.now.slots) clusters) (view_of self.new) }
        ensures left { self.new.left ≡ self.old.left }
        ensures falls { IsTrue result → size (view_of self.new) < size (view_of self.old) }
        ensures same { IsFalse result → self.new ≡ self.old }
    {
        if !are_variables(program, end, count) {
            return false;
        }
        let Ok(given) = right_values(self.alloc, space, value) else {
            return false;
        };
        let Some(values) = given else {
            return false;
        };
        let frame = Frame::Several(end, count, base);
        self.take_top(frame, Answer::Gave(value));
        assign_variables(&mut self.calls, program, end, count, values.as_slice(), 0);
        self.give_over(frame, value);
        true
    }
}
