//! Assignments to instance variables whose values need no frame, told apart from all other requests.

ghost use Rattle.std.specs.Prelude.{◌≡◌, ◌+◌, ◌*◌, ◌<◌, ◌≤◌, length, Option, IfSome, IfNone};
ghost use Rattle.rr_space.specs.Tables.{Below};
ghost use Rattle.rr_tree.specs.Tree.{tree_at, binary};
ghost use Rattle.rr_tree.specs.declared.node.Node.{Node as Nodes};
ghost use Rattle.rr_eval.specs.declared.frame.Control.{Control};
ghost use Rattle.rr_eval.specs.Apart.{assignment_asked};
ghost use Rattle.rr_eval.specs.Fields.{set_field_rule};
ghost use Rattle.rr_eval.specs.Nodes.{evaluated_tree};
ghost use Rattle.rr_eval.specs.Requests.{Course, asked_of};
ghost use Rattle.rr_eval.specs.Rules.{rule, with_value};
ghost use Rattle.rr_eval.specs.Turns.{context_of, IsNested, remaining, asking_then, power, sized};
ghost use Rattle.rr_eval.specs.Views.{view_of};
ghost use Rattle.rr_eval.specs.Within.{reach, AreReached, IsRequestReached};

use crate::engine::Engine;
use crate::fields::FieldAssignment;
use crate::frame::Control;
use crate::prepared::Prepared;
use rr_base::Sym;
use rr_space::Space;
use rr_tree::{BinaryOperator, Node, NodeId};

impl Engine {
    /// An assignment to an instance variable of `self` of what a part is.
    #[tactic(auto, unfolding(crate::specs::Within::AreReached))]
    #[inline(always)]
    fn assign_part(
        &mut self,
        prepared: &Prepared,
        space: &Space,
        here: NodeId,
        name: Sym,
        value: NodeId,
        stop: u64,
    ) -> Option<FieldAssignment>
        requires control { self.old.control ≡ Control.Enter here }
        requires script { rule (context_of prepared.now.program) (tree_at prepared.now.program.nodes.items here) ≡ with_value (tree_at prepared.now.program.nodes.items value) (set_field_rule (context_of prepared.now.program) name) }
        requires some { stop < self.old.left }
        requires nested { IsNested (view_of self.old) }
        ensures goes { IfSome result (λ a. (h : Course) → remaining prepared.now.program (view_of self.old) space.now h ≡ asking_then prepared.now.program (view_of self.new) space.now (asked_of space.now (assignment_asked a)) h) }
        ensures nested { IsNested (view_of self.new) }
        ensures within { (clusters : Option Below) → AreReached (reach (length space.now.slots) clusters) (view_of self.old) → AreReached (reach (length space.now.slots) clusters) (view_of self.new) }
        ensures asks { (clusters : Option Below) → AreReached (reach (length space.now.slots) clusters) (view_of self.old) → IfSome result (λ a. IsRequestReached (reach (length space.now.slots) clusters) (assignment_asked a)) }
        ensures left { stop ≤ self.new.left }
        ensures falls { IfSome result (λ a. 9 * self.new.left + sized (Option.Some (assignment_asked a)) (view_of self.new) < power (view_of self.old)) }
        ensures none { IfNone result (view_of self.new ≡ view_of self.old) }
    {
        let Some(found) = self.quick_before(prepared, space, value, stop) else {
            return None;
        };
        self.left = self.left - found.steps - 1;
        Some(self.field_assignment(name, found.value))
    }

    /// An assignment to an instance variable of `self` of the value of an operator on two parts, where these are integers.
    #[tactic(auto, unfolding(crate::specs::Within::AreReached))]
    #[inline(always)]
    fn assign_combined(
        &mut self,
        prepared: &Prepared,
        space: &Space,
        here: NodeId,
        name: Sym,
        op: BinaryOperator,
        a: NodeId,
        b: NodeId,
        stop: u64,
    ) -> Option<FieldAssignment>
        requires control { self.old.control ≡ Control.Enter here }
        requires script { rule (context_of prepared.now.program) (tree_at prepared.now.program.nodes.items here) ≡ with_value (binary op (tree_at prepared.now.program.nodes.items a) (tree_at prepared.now.program.nodes.items b)) (set_field_rule (context_of prepared.now.program) name) }
        requires some { stop < self.old.left }
        requires nested { IsNested (view_of self.old) }
        ensures goes { IfSome result (λ a. (h : Course) → remaining prepared.now.program (view_of self.old) space.now h ≡ asking_then prepared.now.program (view_of self.new) space.now (asked_of space.now (assignment_asked a)) h) }
        ensures nested { IsNested (view_of self.new) }
        ensures within { (clusters : Option Below) → AreReached (reach (length space.now.slots) clusters) (view_of self.old) → AreReached (reach (length space.now.slots) clusters) (view_of self.new) }
        ensures asks { (clusters : Option Below) → AreReached (reach (length space.now.slots) clusters) (view_of self.old) → IfSome result (λ a. IsRequestReached (reach (length space.now.slots) clusters) (assignment_asked a)) }
        ensures left { stop ≤ self.new.left }
        ensures falls { IfSome result (λ a. 9 * self.new.left + sized (Option.Some (assignment_asked a)) (view_of self.new) < power (view_of self.old)) }
        ensures none { IfNone result (view_of self.new ≡ view_of self.old) }
    {
        let Some(found) = self.combined(prepared, space, op, a, b, stop) else {
            return None;
        };
        self.left = self.left - found.steps - 1;
        Some(self.field_assignment(name, found.value))
    }

    /// An assignment with an operator to an instance variable of `self`, where that is one of integers.
    #[inline(always)]
    fn assign_update(
        &mut self,
        prepared: &Prepared,
        space: &Space,
        here: NodeId,
        op: BinaryOperator,
        target: NodeId,
        value: NodeId,
        stop: u64,
    ) -> Option<FieldAssignment>
        requires control { self.old.control ≡ Control.Enter here }
        requires tree { tree_at prepared.now.program.nodes.items here ≡ evaluated_tree prepared.now.program.nodes.items (Nodes.OperatorAssign op target value) }
        requires some { stop < self.old.left }
        requires nested { IsNested (view_of self.old) }
        ensures goes { IfSome result (λ a. (h : Course) → remaining prepared.now.program (view_of self.old) space.now h ≡ asking_then prepared.now.program (view_of self.new) space.now (asked_of space.now (assignment_asked a)) h) }
        ensures nested { IsNested (view_of self.new) }
        ensures within { (clusters : Option Below) → AreReached (reach (length space.now.slots) clusters) (view_of self.old) → AreReached (reach (length space.now.slots) clusters) (view_of self.new) }
        ensures asks { (clusters : Option Below) → AreReached (reach (length space.now.slots) clusters) (view_of self.old) → IfSome result (λ a. IsRequestReached (reach (length space.now.slots) clusters) (assignment_asked a)) }
        ensures left { stop ≤ self.new.left }
        ensures falls { IfSome result (λ a. 9 * self.new.left + sized (Option.Some (assignment_asked a)) (view_of self.new) < power (view_of self.old)) }
        ensures none { IfNone result (view_of self.new ≡ view_of self.old) }
    {
        match prepared.node(target) {
            Some(&Node::Field(name)) => {
                self.assign_combined(prepared, space, here, name, op, target, value, stop)
            }
            _ => None,
        }
    }

    /// The assignment to an instance variable of `self` that comes next, where its value needs no frame and the steps do not stop before.
    #[tactic(auto, unfolding(crate::specs::Within::AreReached))]
    #[inline(always)]
    pub fn assignment_next(
        &mut self,
        prepared: &Prepared,
        space: &Space,
        stop: u64,
    ) -> Option<FieldAssignment>
        requires within { stop ≤ self.old.left }
        requires nested { IsNested (view_of self.old) }
        ensures goes { IfSome result (λ a. (h : Course) → remaining prepared.now.program (view_of self.old) space.now h ≡ asking_then prepared.now.program (view_of self.new) space.now (asked_of space.now (assignment_asked a)) h) }
        ensures nested { IsNested (view_of self.new) }
        ensures within { (clusters : Option Below) → AreReached (reach (length space.now.slots) clusters) (view_of self.old) → AreReached (reach (length space.now.slots) clusters) (view_of self.new) }
        ensures asks { (clusters : Option Below) → AreReached (reach (length space.now.slots) clusters) (view_of self.old) → IfSome result (λ a. IsRequestReached (reach (length space.now.slots) clusters) (assignment_asked a)) }
        ensures left { stop ≤ self.new.left }
        ensures falls { IfSome result (λ a. 9 * self.new.left + sized (Option.Some (assignment_asked a)) (view_of self.new) < power (view_of self.old)) }
        ensures none { IfNone result (view_of self.new ≡ view_of self.old) }
    {
        if self.left <= stop {
            return None;
        }
        let Control::Enter(here) = self.control else {
            return None;
        };
        match prepared.node(here) {
            Some(&Node::SetField(name, value)) => {
                self.assign_part(prepared, space, here, name, value, stop)
            }
            Some(&Node::OperatorAssign(op, target, value)) => {
                self.assign_update(prepared, space, here, op, target, value, stop)
            }
            _ => None,
        }
    }
}
