//! Nodes that are usual: what they do needs neither memory nor the objects.

ghost use Rattle.std.specs.Prelude.{◌≡◌, ◌+◌, ◌*◌, ◌<◌, ◌≤◌, ◌^◌, [], length, reverse, vec_capacity, Option, Some, IfSome, IsTrue, IsFalse, MatchOption};
ghost use Rattle.rr_space.specs.Tables.{Table, Below};
ghost use Rattle.rr_tree.specs.Tree.{tree_at};
ghost use Rattle.rr_tree.specs.declared.node.Node.{Node};
ghost use Rattle.rr_eval.specs.declared.frame.Control.{Control};
ghost use Rattle.rr_eval.specs.declared.frame.Frame.{Frame};
ghost use Rattle.rr_eval.specs.declared.problem.Answer.{Answer};
ghost use Rattle.rr_eval.specs.Frames.{below_of, base_of, resumed, IsNew, Nested};
ghost use Rattle.rr_eval.specs.Nodes.{evaluated_tree, IsEvaluated};
ghost use Rattle.rr_eval.specs.Requests.{Course};
ghost use Rattle.rr_eval.specs.Rules.{rule};
ghost use Rattle.rr_eval.specs.Script.{Go, World};
ghost use Rattle.rr_eval.specs.Turns.{context_of, code_of, IsNested, remaining, after_answer, power, size};
ghost use Rattle.rr_eval.specs.Views.{view_of};
ghost use Rattle.rr_eval.specs.Within.{Reach, reach, IsReached, IsFrameReached, AreReached};

use crate::call_stack::Variable;
use crate::engine::Engine;
use crate::frame::{Control, Frame};
use crate::nodes::evaluated_node;
use crate::prepared::Prepared;
use crate::problem::Answer;
use rr_builtin::is_truthy;
use rr_space::{Ref, Space};
use rr_tree::{BinaryOperator, Node, NodeId, Program};

impl Engine {
    /// Evaluates the part that a node evaluates first: its value, where it needs no frame. Otherwise a frame waits for it.
    #[inline(always)]
    pub fn first_value(
        &mut self,
        prepared: &Prepared,
        space: &Space,
        here: NodeId,
        frame: Frame,
        part: NodeId,
        stop: u64,
    ) -> Option<Ref>
        requires control { self.old.control ≡ Control.Enter here }
        requires script { (w : World) → rule (context_of prepared.now.program) (tree_at prepared.now.program.nodes.items here) ≡ Go (tree_at prepared.now.program.nodes.items part) (resumed (code_of prepared.now.program w) frame []) }
        requires new { IsNew frame (length self.old.held.items) }
        requires some { stop < self.old.left }
        requires room { length self.old.frames.items < vec_capacity self.old.frames }
        requires nested { IsNested (view_of self.old) }
        ensures goes { (h : Course) → MatchOption result (remaining prepared.now.program (view_of self.old) space.now h ≡ remaining prepared.now.program (view_of self.new) space.now h) (λ v. remaining prepared.now.program (view_of self.old) space.now h ≡ after_answer prepared.now.program (view_of self.new) space.now frame (Answer.Gave v) h self.new.left) }
        ensures nested { MatchOption result (IsNested (view_of self.new)) (λ _. Nested (reverse self.new.frames.items) (below_of frame self.new.held.items)) }
        ensures within { (clusters : Option Below) → AreReached (reach (length space.now.slots) clusters) (view_of self.old) → IsFrameReached (reach (length space.now.slots) clusters) frame → AreReached (reach (length space.now.slots) clusters) (view_of self.new) }
        ensures value { (clusters : Option Below) → AreReached (reach (length space.now.slots) clusters) (view_of self.old) → IfSome result (IsReached (reach (length space.now.slots) clusters)) }
        ensures base { IfSome result (λ _. base_of frame ≤ length self.new.held.items) }
        ensures frames { IfSome result (λ _. self.new.frames ≡ self.old.frames) }
        ensures left { stop ≤ self.new.left }
        ensures spends { self.new.left < self.old.left }
        ensures size { MatchOption result (size (view_of self.new) ≤ 3 * length self.old.frames.items + 4) (λ _. self.new.left + 2 ≤ self.old.left) }
    {
        match self.quick_before(prepared, space, part, stop) {
            Some(found) => {
                self.left -= found.steps + 1;
                Some(found.value)
            }
            None => {
                self.enter_above(frame, part);
                self.left -= 1;
                None
            }
        }
    }

    /// Evaluates a node that needs no frame, where the steps do not stop before what follows.
    #[inline(always)]
    fn visit_quick(&mut self, prepared: &Prepared, space: &Space, here: NodeId, stop: u64) -> bool
        requires control { self.old.control ≡ Control.Enter here }
        requires some { stop < self.old.left }
        requires nested { IsNested (view_of self.old) }
        ensures goes { (h : Course) → remaining prepared.now.program (view_of self.old) space.now h ≡ remaining prepared.now.program (view_of self.new) space.now h }
        ensures nested { IsNested (view_of self.new) }
        ensures within { (clusters : Option Below) → AreReached (reach (length space.now.slots) clusters) (view_of self.old) → AreReached (reach (length space.now.slots) clusters) (view_of self.new) }
        ensures left { stop ≤ self.new.left }
        ensures kept { self.new.left ≤ self.old.left }
        ensures spends { IsTrue result → self.new.left < self.old.left }
        ensures falls { power (view_of self.new) + self.old.left ≤ power (view_of self.old) + self.new.left }
        ensures same { IsFalse result → self.new ≡ self.old }
    {
        match self.quick_before(prepared, space, here, stop) {
            Some(found) => {
                self.left -= found.steps;
                self.control = Control::Give(Answer::Gave(found.value));
                true
            }
            None => false,
        }
    }

    /// Goes on with a part of a choice: with nil at once, which a choice without an `else` comes to most of the time, where the steps do
    /// not stop before.
    #[tactic(auto, unfolding(crate::specs::Within::AreReached))]
    #[inline(always)]
    fn go_into(&mut self, prepared: &Prepared, part: NodeId, stop: u64)
        requires within { stop ≤ self.old.left }
        requires nested { IsNested (view_of self.old) }
        ensures goes { (t : Table) (h : Course) → remaining prepared.now.program (record (view_of self.old) { control = Control.Enter part }) t h ≡ remaining prepared.now.program (view_of self.new) t h }
        ensures nested { IsNested (view_of self.new) }
        ensures within { (k : Reach) → AreReached k (view_of self.old) → AreReached k (view_of self.new) }
        ensures left { stop ≤ self.new.left }
        ensures kept { self.new.left ≤ self.old.left }
        ensures size { size (view_of self.new) ≤ 3 * length self.old.frames.items + 4 }
    {
        if self.left > stop
            && let Some(&Node::Nil) = prepared.node(part)
        {
            self.left -= 1;
            self.give_top(Ref::Nil);
        } else {
            self.control.enter(part);
        }
    }

    /// Evaluates a choice.
    #[inline(always)]
    fn visit_choice(
        &mut self,
        prepared: &Prepared,
        space: &Space,
        here: NodeId,
        condition: NodeId,
        yes: NodeId,
        no: NodeId,
        stop: u64,
    )
        requires control { self.old.control ≡ Control.Enter here }
        requires tree { tree_at prepared.now.program.nodes.items here ≡ evaluated_tree prepared.now.program.nodes.items (Node.Choose condition yes no) }
        requires some { stop < self.old.left }
        requires room { length self.old.frames.items < vec_capacity self.old.frames }
        requires nested { IsNested (view_of self.old) }
        ensures goes { (h : Course) → remaining prepared.now.program (view_of self.old) space.now h ≡ remaining prepared.now.program (view_of self.new) space.now h }
        ensures nested { IsNested (view_of self.new) }
        ensures within { (clusters : Option Below) → AreReached (reach (length space.now.slots) clusters) (view_of self.old) → AreReached (reach (length space.now.slots) clusters) (view_of self.new) }
        ensures left { stop ≤ self.new.left }
        ensures spends { self.new.left < self.old.left }
        ensures falls { power (view_of self.new) + self.old.left ≤ power (view_of self.old) + self.new.left }
    {
        let frame = Frame::Branch(yes, no);
        if let Some(value) = self.first_value(prepared, space, here, frame, condition, stop) {
            if is_truthy(value) {
                self.control.enter(yes);
            } else {
                self.go_into(prepared, no, stop);
            }
        }
    }

    /// Evaluates a loop.
    #[inline(always)]
    pub fn visit_loop(
        &mut self,
        prepared: &Prepared,
        space: &Space,
        here: NodeId,
        until: bool,
        condition: NodeId,
        body: NodeId,
        stop: u64,
    )
        requires control { self.old.control ≡ Control.Enter here }
        requires tree { tree_at prepared.now.program.nodes.items here ≡ evaluated_tree prepared.now.program.nodes.items (Node.Loop until condition body) }
        requires some { stop < self.old.left }
        requires room { length self.old.frames.items < vec_capacity self.old.frames }
        requires nested { IsNested (view_of self.old) }
        ensures goes { (h : Course) → remaining prepared.now.program (view_of self.old) space.now h ≡ remaining prepared.now.program (view_of self.new) space.now h }
        ensures nested { IsNested (view_of self.new) }
        ensures within { (clusters : Option Below) → AreReached (reach (length space.now.slots) clusters) (view_of self.old) → AreReached (reach (length space.now.slots) clusters) (view_of self.new) }
        ensures left { stop ≤ self.new.left }
        ensures spends { self.new.left < self.old.left }
        ensures falls { power (view_of self.new) + self.old.left ≤ power (view_of self.old) + self.new.left }
        ensures size { size (view_of self.new) ≤ 3 * length self.old.frames.items + 4 }
    {
        let frame = Frame::Condition(until, body, here);
        if let Some(value) = self.first_value(prepared, space, here, frame, condition, stop) {
            self.go_round(until, body, here, value);
        }
    }

    /// Evaluates a loop once more, where a loop comes next.
    #[inline(always)]
    pub fn visit_again(&mut self, prepared: &Prepared, space: &Space, here: NodeId, stop: u64)
        requires control { self.old.control ≡ Control.Enter here }
        requires some { stop < self.old.left }
        requires room { length self.old.frames.items < vec_capacity self.old.frames }
        requires nested { IsNested (view_of self.old) }
        ensures goes { (h : Course) → remaining prepared.now.program (view_of self.old) space.now h ≡ remaining prepared.now.program (view_of self.new) space.now h }
        ensures nested { IsNested (view_of self.new) }
        ensures within { (clusters : Option Below) → AreReached (reach (length space.now.slots) clusters) (view_of self.old) → AreReached (reach (length space.now.slots) clusters) (view_of self.new) }
        ensures left { stop ≤ self.new.left }
        ensures kept { self.new.left ≤ self.old.left }
        ensures size { size (view_of self.new) ≤ 3 * length self.old.frames.items + 4 }
    {
        match prepared.node(here) {
            Some(
                &Node::Loop {
                    until,
                    condition,
                    body,
                },
            ) => self.visit_loop(prepared, space, here, until, condition, body, stop),
            _ => (),
        }
    }

    /// Evaluates an assignment to a local variable, whose name it has and how many words stand behind it.
    #[inline(always)]
    fn visit_store(
        &mut self,
        prepared: &Prepared,
        space: &Space,
        here: NodeId,
        variable: Variable,
        value: NodeId,
        stop: u64,
    )
        requires control { self.old.control ≡ Control.Enter here }
        requires script { (w : World) → rule (context_of prepared.now.program) (tree_at prepared.now.program.nodes.items here) ≡ Go (tree_at prepared.now.program.nodes.items value) (resumed (code_of prepared.now.program w) (Frame.Store variable) []) }
        requires some { stop < self.old.left }
        requires room { length self.old.frames.items < vec_capacity self.old.frames }
        requires nested { IsNested (view_of self.old) }
        ensures goes { (h : Course) → remaining prepared.now.program (view_of self.old) space.now h ≡ remaining prepared.now.program (view_of self.new) space.now h }
        ensures nested { IsNested (view_of self.new) }
        ensures within { (clusters : Option Below) → AreReached (reach (length space.now.slots) clusters) (view_of self.old) → AreReached (reach (length space.now.slots) clusters) (view_of self.new) }
        ensures left { stop ≤ self.new.left }
        ensures spends { self.new.left < self.old.left }
        ensures falls { power (view_of self.new) + self.old.left ≤ power (view_of self.old) + self.new.left }
    {
        let frame = Frame::Store(variable);
        if let Some(value) = self.first_value(prepared, space, here, frame, value, stop) {
            self.store_usual(prepared, space, variable, value, stop);
        }
    }

    /// Evaluates an operator and its operands.
    #[inline(always)]
    fn visit_operands(
        &mut self,
        prepared: &Prepared,
        space: &Space,
        here: NodeId,
        op: BinaryOperator,
        a: NodeId,
        b: NodeId,
        stop: u64,
    )
        requires control { self.old.control ≡ Control.Enter here }
        requires tree { tree_at prepared.now.program.nodes.items here ≡ evaluated_tree prepared.now.program.nodes.items (Node.Binary op a b) }
        requires some { stop < self.old.left }
        requires room { length self.old.frames.items < vec_capacity self.old.frames }
        requires nested { IsNested (view_of self.old) }
        ensures goes { (h : Course) → remaining prepared.now.program (view_of self.old) space.now h ≡ remaining prepared.now.program (view_of self.new) space.now h }
        ensures nested { IsNested (view_of self.new) }
        ensures within { (clusters : Option Below) → AreReached (reach (length space.now.slots) clusters) (view_of self.old) → AreReached (reach (length space.now.slots) clusters) (view_of self.new) }
        ensures left { stop ≤ self.new.left }
        ensures spends { self.new.left < self.old.left }
        ensures falls { power (view_of self.new) + self.old.left ≤ power (view_of self.old) + self.new.left }
    {
        let frame = Frame::Left(op, b);
        if let Some(value) = self.first_value(prepared, space, here, frame, a, stop) {
            self.operate_left(prepared, space, op, value, b, stop);
        }
    }

    /// Evaluates statements.
    #[inline(always)]
    pub fn visit_statements(
        &mut self,
        program: &Program,
        here: NodeId,
        first: NodeId,
        count: u32,
        stop: u64,
    )
        requires control { self.old.control ≡ Control.Enter here }
        requires tree { tree_at program.now.nodes.items here ≡ evaluated_tree program.now.nodes.items (Node.Sequence first count) }
        requires small { first + count < 2 ^ 32 }
        requires some { stop < self.old.left }
        requires room { length self.old.frames.items < vec_capacity self.old.frames }
        requires nested { IsNested (view_of self.old) }
        ensures goes { (t : Table) (h : Course) → remaining program.now (view_of self.old) t h ≡ remaining program.now (view_of self.new) t h }
        ensures nested { IsNested (view_of self.new) }
        ensures within { (k : Reach) → AreReached k (view_of self.old) → AreReached k (view_of self.new) }
        ensures left { stop ≤ self.new.left }
        ensures spends { self.new.left < self.old.left }
        ensures falls { power (view_of self.new) + self.old.left ≤ power (view_of self.old) + self.new.left }
    {
        self.begin_list(first, count);
        self.left -= 1;
    }

    /// Evaluates statements at once, where a list of them comes next, there is room for a frame, and the steps do not stop before.
    #[inline(always)]
    pub fn enter_statements(&mut self, prepared: &Prepared, stop: u64)
        requires within { stop ≤ self.old.left }
        requires nested { IsNested (view_of self.old) }
        ensures goes { (t : Table) (h : Course) → remaining prepared.now.program (view_of self.old) t h ≡ remaining prepared.now.program (view_of self.new) t h }
        ensures nested { IsNested (view_of self.new) }
        ensures within { (k : Reach) → AreReached k (view_of self.old) → AreReached k (view_of self.new) }
        ensures left { stop ≤ self.new.left }
        ensures kept { self.new.left ≤ self.old.left }
        ensures falls { power (view_of self.new) + self.old.left ≤ power (view_of self.old) + self.new.left }
    {
        if let Control::Enter(here) = self.control
            && self.left > stop
            && self.frames.len() < self.frames.capacity()
        {
            if let Some(&Node::Sequence { first, count }) = prepared.node(here) {
                self.visit_statements(&prepared.program, here, first, count, stop);
            }
        }
    }

    /// Evaluates a node of another kind, where that is usual: it answers whether it was done.
    #[cold]
    #[inline(never)]
    pub fn visit_apart(
        &mut self,
        prepared: &Prepared,
        space: &Space,
        here: NodeId,
        stop: u64,
    ) -> bool
        requires control { self.old.control ≡ Control.Enter here }
        requires some { stop < self.old.left }
        requires room { length self.old.frames.items < vec_capacity self.old.frames }
        requires nested { IsNested (view_of self.old) }
        ensures goes { (h : Course) → remaining prepared.now.program (view_of self.old) space.now h ≡ remaining prepared.now.program (view_of self.new) space.now h }
        ensures nested { IsNested (view_of self.new) }
        ensures within { (clusters : Option Below) → AreReached (reach (length space.now.slots) clusters) (view_of self.old) → AreReached (reach (length space.now.slots) clusters) (view_of self.new) }
        ensures left { stop ≤ self.new.left }
        ensures kept { self.new.left ≤ self.old.left }
        ensures spends { IsTrue result → self.new.left < self.old.left }
        ensures falls { power (view_of self.new) + self.old.left ≤ power (view_of self.old) + self.new.left }
    {
        if self.visit_quick(prepared, space, here, stop) {
            return true;
        }
        let node = evaluated_node(&prepared.program, here);
        if let Node::MultipleAssign {
            first,
            count,
            value,
        } = node
        {
            self.visit_several(&prepared.program, here, first, count, value, stop);
            return true;
        }
        if let Node::OrAssign(target, part) = node
            && self.visit_or(prepared, space, here, target, part, stop)
        {
            return true;
        }
        self.visit_first(prepared, space, here, node, stop)
    }

    /// Evaluates a call of a receiver, or a node of another kind, where that is usual: it answers whether it was done.
    #[inline(always)]
    fn visit_called(
        &mut self,
        prepared: &Prepared,
        space: &Space,
        here: NodeId,
        node: &Node,
        stop: u64,
    ) -> bool
        requires control { self.old.control ≡ Control.Enter here }
        requires tree { tree_at prepared.now.program.nodes.items here ≡ evaluated_tree prepared.now.program.nodes.items node.now }
        requires evaluated { IsEvaluated node.now }
        requires some { stop < self.old.left }
        requires room { length self.old.frames.items < vec_capacity self.old.frames }
        requires nested { IsNested (view_of self.old) }
        ensures goes { (h : Course) → remaining prepared.now.program (view_of self.old) space.now h ≡ remaining prepared.now.program (view_of self.new) space.now h }
        ensures nested { IsNested (view_of self.new) }
        ensures within { (clusters : Option Below) → AreReached (reach (length space.now.slots) clusters) (view_of self.old) → AreReached (reach (length space.now.slots) clusters) (view_of self.new) }
        ensures left { stop ≤ self.new.left }
        ensures kept { self.new.left ≤ self.old.left }
        ensures spends { IsTrue result → self.new.left < self.old.left }
        ensures falls { power (view_of self.new) + self.old.left ≤ power (view_of self.old) + self.new.left }
    {
        match node {
            &Node::Send {
                receiver,
                name,
                first,
                count,
                ..
            } => {
                return self.send_usual(prepared, space, here, name, receiver, first, count, stop);
            }
            &Node::Bare { name, .. } => return self.bare_usual(prepared, space, here, name, stop),
            &Node::Yield { first, count } => {
                return self.yield_usual(prepared, space, here, first, count, stop);
            }
            &Node::Field(name) => self.visit_field(&prepared.program, space, here, name, stop),
            &Node::Loop {
                until,
                condition,
                body,
            } => self.visit_rounds(prepared, space, here, until, condition, body, stop),
            &Node::Sequence { first, count } => {
                self.visit_statements(&prepared.program, here, first, count, stop);
            }
            &Node::Return(value) => self.visit_return(prepared, space, here, value, stop),
            &Node::SetField(name, value) => {
                return self.visit_set_field(prepared, here, name, value, stop);
            }
            &Node::OperatorAssign(op, target, value) => {
                return self.update_usual(prepared, space, here, op, target, value, stop);
            }
            &Node::Text(_)
            | &Node::Interpolation { .. }
            | &Node::Array { .. }
            | &Node::Hash { .. }
            | &Node::WithBlock(_, _) => return false,
            _ => return self.visit_waiting(prepared, space, here, node, stop),
        }
        true
    }

    /// Evaluates a node, where that is usual: it answers whether it was done.
    #[inline(always)]
    pub fn visit_often(
        &mut self,
        prepared: &Prepared,
        space: &Space,
        here: NodeId,
        stop: u64,
    ) -> bool
        requires control { self.old.control ≡ Control.Enter here }
        requires some { stop < self.old.left }
        requires room { length self.old.frames.items < vec_capacity self.old.frames }
        requires nested { IsNested (view_of self.old) }
        ensures goes { (h : Course) → remaining prepared.now.program (view_of self.old) space.now h ≡ remaining prepared.now.program (view_of self.new) space.now h }
        ensures nested { IsNested (view_of self.new) }
        ensures within { (clusters : Option Below) → AreReached (reach (length space.now.slots) clusters) (view_of self.old) → AreReached (reach (length space.now.slots) clusters) (view_of self.new) }
        ensures left { stop ≤ self.new.left }
        ensures kept { self.new.left ≤ self.old.left }
        ensures spends { IsTrue result → self.new.left < self.old.left }
        ensures falls { power (view_of self.new) + self.old.left ≤ power (view_of self.old) + self.new.left }
    {
        let Some(node) = prepared.node(here) else {
            return false;
        };
        // Tests one after the other are one jump table with that of the other kinds; a match would be a table of its own in front of it.
        if let &Node::Choose(condition, yes, no) = node {
            self.visit_choice(prepared, space, here, condition, yes, no, stop);
            return true;
        }
        if let &Node::Assign {
            depth,
            slot,
            value,
            ..
        } = node
        {
            let variable = Variable { depth, slot };
            self.visit_store(prepared, space, here, variable, value, stop);
            return true;
        }
        if let &Node::Binary(op, a, b) = node {
            self.visit_operands(prepared, space, here, op, a, b, stop);
            return true;
        }
        if let &Node::Call {
            name,
            first,
            count,
            ..
        } = node
        {
            return self.call_usual(prepared, space, here, name, first, count, stop);
        }
        self.visit_called(prepared, space, here, node, stop)
    }
}
