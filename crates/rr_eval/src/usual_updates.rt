//! Assignments with an operator, as they begin in a usual way; where `x` is a local variable or an instance variable of `self`, `x += y` goes
//! on at once.

ghost use Rattle.std.specs.Prelude.{◌≡◌, ◌+◌, ◌*◌, ◌<◌, ◌≤◌, ℕ, true, [], ◌∷◌, length, vec_capacity, Option, Some, IfSome, IsTrue, IsFalse};
ghost use Rattle.rr_space.specs.Tables.{Below, Table};
ghost use Rattle.rr_space.specs.declared.refer.Ref.{Ref as Reference};
ghost use Rattle.rr_builtin.specs.Objects.{is_truthy};
ghost use Rattle.rr_tree.specs.Tree.{binary, tree_at};
ghost use Rattle.rr_tree.specs.declared.program.Program.{Program};
ghost use Rattle.rr_tree.specs.declared.node.Node.{Node};
ghost use Rattle.rr_eval.specs.declared.call.Callee.{Callee as Called};
ghost use Rattle.rr_eval.specs.declared.call.Target.{Target};
ghost use Rattle.rr_eval.specs.declared.frame.Control.{Control as Controls};
ghost use Rattle.rr_eval.specs.declared.frame.Frame.{Frame as Frames};
ghost use Rattle.rr_eval.specs.declared.problem.Answer.{Answer as Answers};
ghost use Rattle.rr_eval.specs.declared.updating.Update.{Update as Updates};
ghost use Rattle.rr_eval.specs.Frames.{resumed, IsNew};
ghost use Rattle.rr_eval.specs.Nodes.{evaluated_tree};
ghost use Rattle.rr_eval.specs.Requests.{Course};
ghost use Rattle.rr_eval.specs.Rules.{rule, values, finish};
ghost use Rattle.rr_eval.specs.Script.{Go, Ret, World};
ghost use Rattle.rr_eval.specs.Turns.{context_of, code_of, IsNested, after_script, remaining, remaining_with, power, size};
ghost use Rattle.rr_eval.specs.Usual.{TakesNow, ComesTo};
ghost use Rattle.rr_eval.specs.View.{View};
ghost use Rattle.rr_eval.specs.Views.{view_of};
ghost use Rattle.rr_eval.specs.Within.{Reach, reach, IsReached, IsFrameReached, AreReached};

use crate::call::Callee;
use crate::call_stack::Variable;
use crate::engine::{Engine, push_within};
use crate::frame::{Control, Frame};
use crate::prepared::Prepared;
use crate::problem::Answer;
use crate::updating::{Place, Update, Updating};
use crate::usual::{Quick, operated};
use rr_builtin::is_truthy;
use rr_space::{Ref, Space};
use rr_tree::{BinaryOperator, Node, NodeId};

impl Engine {
    /// The value of an operator on two parts that need no frame and are integers, where the steps do not stop before what follows.
    #[inline(always)]
    pub(crate) fn combined(
        &self,
        prepared: &Prepared,
        space: &Space,
        op: BinaryOperator,
        a: NodeId,
        b: NodeId,
        stop: u64,
    ) -> Option<Quick>
        requires some { stop < self.now.left }
        ensures takes { IfSome result (λ q. TakesNow prepared.now.program (view_of self.now) space.now (binary op (tree_at prepared.now.program.nodes.items a) (tree_at prepared.now.program.nodes.items b)) q.steps q.value) }
        ensures few { IfSome result (λ q. q.steps ≤ 63) }
        ensures enough { IfSome result (λ q. stop + q.steps < self.now.left) }
        ensures within { (clusters : Option Below) → AreReached (reach (length space.now.slots) clusters) (view_of self.now) → IfSome result (λ q. IsReached (reach (length space.now.slots) clusters) q.value) }
    {
        if self.left - stop <= 63 {
            return None;
        }
        let Some(left) = self.quick(prepared, space, a) else {
            return None;
        };
        let Some(right) = self.quick(prepared, space, b) else {
            return None;
        };
        match operated(op, left.value, right.value) {
            Some(value) => Some(Quick {
                value,
                steps: left.steps + right.steps + 1,
            }),
            None => None,
        }
    }

    /// Puts a frame over an operator, which is evaluated next.
    #[tactic(auto, unfolding(crate::specs::Within::AreReached))]
    #[inline(always)]
    fn operate_above(&mut self, frame: Frame, op: BinaryOperator, a: NodeId, b: NodeId)
        requires room { length self.old.frames.items < vec_capacity self.old.frames }
        requires new { IsNew frame (length self.old.held.items) }
        requires nested { IsNested (view_of self.old) }
        ensures goes { (p : Program) (t : Table) (h : Course) (n : ℕ) → after_script p (view_of self.old) t (Go (binary op (tree_at p.nodes.items a) (tree_at p.nodes.items b)) (resumed (code_of p h.world) frame [])) h n ≡ remaining_with p (view_of self.new) t h n }
        ensures control { self.new.control ≡ Controls.Operate op a b }
        ensures nested { IsNested (view_of self.new) }
        ensures within { (k : Reach) → AreReached k (view_of self.old) → IsFrameReached k frame → AreReached k (view_of self.new) }
        ensures left { self.new.left ≡ self.old.left }
        ensures size { size (view_of self.new) ≤ 3 * length self.old.frames.items + 4 }
    {
        self.control = Control::Operate(op, a, b);
        push_within(&mut self.frames, frame);
    }

    /// Goes on with an operator that comes next, where its left operand needs no frame.
    #[inline(always)]
    fn operate_first(
        &mut self,
        prepared: &Prepared,
        space: &Space,
        op: BinaryOperator,
        a: NodeId,
        b: NodeId,
        stop: u64,
    )
        requires control { self.old.control ≡ Controls.Operate op a b }
        requires within { stop ≤ self.old.left }
        requires nested { IsNested (view_of self.old) }
        ensures goes { (h : Course) → remaining prepared.now.program (view_of self.old) space.now h ≡ remaining prepared.now.program (view_of self.new) space.now h }
        ensures nested { IsNested (view_of self.new) }
        ensures within { (clusters : Option Below) → AreReached (reach (length space.now.slots) clusters) (view_of self.old) → AreReached (reach (length space.now.slots) clusters) (view_of self.new) }
        ensures left { stop ≤ self.new.left }
        ensures kept { self.new.left ≤ self.old.left }
        ensures size { size (view_of self.new) ≤ 3 * length self.old.frames.items + 4 }
    {
        if self.left > stop
            && self.frames.len() < self.frames.capacity()
            && let Some(found) = self.quick_before(prepared, space, a, stop)
        {
            self.left -= found.steps + 1;
            self.operate_left(prepared, space, op, found.value, b, stop);
        }
    }

    /// Gives a local variable the value of an operator on it and another part, where these need no frame and are integers: it answers
    /// whether it did.
    #[inline(always)]
    fn update_variable(
        &mut self,
        prepared: &Prepared,
        space: &Space,
        here: NodeId,
        variable: Variable,
        op: BinaryOperator,
        a: NodeId,
        b: NodeId,
        stop: u64,
    ) -> bool
        requires control { self.old.control ≡ Controls.Enter here }
        requires script { (w : World) → rule (context_of prepared.now.program) (tree_at prepared.now.program.nodes.items here) ≡ Go (binary op (tree_at prepared.now.program.nodes.items a) (tree_at prepared.now.program.nodes.items b)) (resumed (code_of prepared.now.program w) (Frames.Store variable) []) }
        requires some { stop < self.old.left }
        requires nested { IsNested (view_of self.old) }
        ensures goes { IsTrue result → (h : Course) → remaining prepared.now.program (view_of self.old) space.now h ≡ remaining prepared.now.program (view_of self.new) space.now h }
        ensures nested { IsNested (view_of self.new) }
        ensures within { (clusters : Option Below) → AreReached (reach (length space.now.slots) clusters) (view_of self.old) → AreReached (reach (length space.now.slots) clusters) (view_of self.new) }
        ensures left { stop ≤ self.new.left }
        ensures kept { self.new.left ≤ self.old.left }
        ensures spends { IsTrue result → self.new.left < self.old.left }
        ensures falls { IsTrue result → power (view_of self.new) + self.old.left ≤ 9 * self.old.left + self.new.left + 3 * length self.old.frames.items }
        ensures same { IsFalse result → self.new ≡ self.old }
    {
        match self.combined(prepared, space, op, a, b, stop) {
            Some(found) => {
                self.left -= found.steps + 1;
                self.store_usual(prepared, space, variable, found.value, stop);
                true
            }
            None => false,
        }
    }

    /// Evaluates an assignment with an operator, whose value a frame gets.
    #[inline(always)]
    fn update_under(
        &mut self,
        prepared: &Prepared,
        space: &Space,
        here: NodeId,
        frame: Frame,
        op: BinaryOperator,
        a: NodeId,
        b: NodeId,
        stop: u64,
    )
        requires control { self.old.control ≡ Controls.Enter here }
        requires script { (w : World) → rule (context_of prepared.now.program) (tree_at prepared.now.program.nodes.items here) ≡ Go (binary op (tree_at prepared.now.program.nodes.items a) (tree_at prepared.now.program.nodes.items b)) (resumed (code_of prepared.now.program w) frame []) }
        requires new { IsNew frame (length self.old.held.items) }
        requires some { stop < self.old.left }
        requires room { length self.old.frames.items < vec_capacity self.old.frames }
        requires nested { IsNested (view_of self.old) }
        ensures goes { (h : Course) → remaining prepared.now.program (view_of self.old) space.now h ≡ remaining prepared.now.program (view_of self.new) space.now h }
        ensures nested { IsNested (view_of self.new) }
        ensures within { (clusters : Option Below) → AreReached (reach (length space.now.slots) clusters) (view_of self.old) → IsFrameReached (reach (length space.now.slots) clusters) frame → AreReached (reach (length space.now.slots) clusters) (view_of self.new) }
        ensures left { stop ≤ self.new.left }
        ensures spends { self.new.left < self.old.left }
        ensures falls { power (view_of self.new) + self.old.left ≤ power (view_of self.old) + self.new.left }
    {
        self.operate_above(frame, op, a, b);
        self.left -= 1;
        self.operate_first(prepared, space, op, a, b, stop);
    }

    /// Begins an assignment with an operator.
    fn update_any(
        &mut self,
        prepared: &Prepared,
        here: NodeId,
        op: BinaryOperator,
        target: NodeId,
        value: NodeId,
        stop: u64,
    )
        requires control { self.old.control ≡ Controls.Enter here }
        requires tree { tree_at prepared.now.program.nodes.items here ≡ evaluated_tree prepared.now.program.nodes.items (Node.OperatorAssign op target value) }
        requires some { stop < self.old.left }
        requires room { length self.old.frames.items < vec_capacity self.old.frames }
        requires nested { IsNested (view_of self.old) }
        ensures goes { (t : Table) (h : Course) → remaining prepared.now.program (view_of self.old) t h ≡ remaining prepared.now.program (view_of self.new) t h }
        ensures nested { IsNested (view_of self.new) }
        ensures within { (k : Reach) → AreReached k (view_of self.old) → AreReached k (view_of self.new) }
        ensures left { stop ≤ self.new.left }
        ensures spends { self.new.left < self.old.left }
        ensures falls { power (view_of self.new) + self.old.left ≤ power (view_of self.old) + self.new.left }
    {
        self.open_operator(&prepared.program, op, target, value);
        self.left -= 1;
    }

    /// Reads an element that an operator assigns to, where its receiver and its index need no frame: it answers whether it does.
    #[inline(always)]
    fn update_element(
        &mut self,
        prepared: &Prepared,
        space: &Space,
        here: NodeId,
        op: BinaryOperator,
        receiver: NodeId,
        index: NodeId,
        part: NodeId,
        stop: u64,
    ) -> bool
        requires control { self.old.control ≡ Controls.Enter here }
        requires script { rule (context_of prepared.now.program) (tree_at prepared.now.program.nodes.items here) ≡ values (tree_at prepared.now.program.nodes.items receiver ∷ tree_at prepared.now.program.nodes.items index ∷ []) [] (finish (context_of prepared.now.program) (Target.Update Called.Index Called.SetIndex (Updates.Combine (Called.Operator op)) part)) }
        requires some { stop < self.old.left }
        requires room { length self.old.frames.items < vec_capacity self.old.frames }
        requires nested { IsNested (view_of self.old) }
        ensures goes { IsTrue result → (h : Course) → remaining prepared.now.program (view_of self.old) space.now h ≡ remaining prepared.now.program (view_of self.new) space.now h }
        ensures nested { IsNested (view_of self.new) }
        ensures within { (clusters : Option Below) → AreReached (reach (length space.now.slots) clusters) (view_of self.old) → AreReached (reach (length space.now.slots) clusters) (view_of self.new) }
        ensures left { stop ≤ self.new.left }
        ensures kept { self.new.left ≤ self.old.left }
        ensures spends { IsTrue result → self.new.left < self.old.left }
        ensures size { IsTrue result → size (view_of self.new) ≤ 3 * length self.old.frames.items + 4 }
        ensures same { IsFalse result → self.new ≡ self.old }
    {
        if self.held.capacity().saturating_sub(self.held.len()) < 2 {
            return false;
        }
        let Some(found) = self.quick_before(prepared, space, receiver, stop) else {
            return false;
        };
        let before = self.steps_together(stop, found.steps);
        let Some(last) = self.quick_before(prepared, space, index, before) else {
            return false;
        };
        let base = self.held.len();
        self.held.push_reserved(found.value);
        self.held.push_reserved(last.value);
        let reading = Frame::Read(Updating {
            place: Place::Sent(Callee::SetIndex),
            how: Update::Combine(Callee::Operator(op)),
            value: part,
            base,
        });
        self.send_over(reading, Callee::Index, found.value, Some(last.value));
        self.left = self.left - found.steps - last.steps - 1;
        true
    }

    /// Evaluates an assignment with an operator: it answers whether it was done. One to an instance variable of a part that needs no frame is
    /// asked for at once, where it is one of integers.
    #[cold]
    #[inline(never)]
    pub fn update_usual(
        &mut self,
        prepared: &Prepared,
        space: &Space,
        here: NodeId,
        op: BinaryOperator,
        target: NodeId,
        value: NodeId,
        stop: u64,
    ) -> bool
        requires control { self.old.control ≡ Controls.Enter here }
        requires tree { tree_at prepared.now.program.nodes.items here ≡ evaluated_tree prepared.now.program.nodes.items (Node.OperatorAssign op target value) }
        requires some { stop < self.old.left }
        requires room { length self.old.frames.items < vec_capacity self.old.frames }
        requires nested { IsNested (view_of self.old) }
        ensures goes { (h : Course) → remaining prepared.now.program (view_of self.old) space.now h ≡ remaining prepared.now.program (view_of self.new) space.now h }
        ensures nested { IsNested (view_of self.new) }
        ensures within { (clusters : Option Below) → AreReached (reach (length space.now.slots) clusters) (view_of self.old) → AreReached (reach (length space.now.slots) clusters) (view_of self.new) }
        ensures left { stop ≤ self.new.left }
        ensures kept { self.new.left ≤ self.old.left }
        ensures spends { IsTrue result → self.new.left < self.old.left }
        ensures falls { power (view_of self.new) + self.old.left ≤ power (view_of self.old) + self.new.left }
    {
        match prepared.node(target) {
            Some(&Node::Local { depth, slot, .. }) => {
                let variable = Variable { depth, slot };
                if !self.update_variable(prepared, space, here, variable, op, target, value, stop) {
                    let frame = Frame::Store(variable);
                    self.update_under(prepared, space, here, frame, op, target, value, stop);
                }
            }
            Some(&Node::Field(name)) => {
                if prepared.is_simple(value) {
                    return false;
                }
                let frame = Frame::SetField(name);
                self.update_under(prepared, space, here, frame, op, target, value, stop);
            }
            Some(&Node::Index(receiver, index)) => {
                if !self.update_element(prepared, space, here, op, receiver, index, value, stop) {
                    self.update_any(prepared, here, op, target, value, stop);
                }
            }
            Some(&Node::Send { receiver, name, .. }) => {
                if !self.update_attribute(prepared, space, here, op, receiver, name, value, stop) {
                    self.update_any(prepared, here, op, target, value, stop);
                }
            }
            _ => self.update_any(prepared, here, op, target, value, stop),
        }
        true
    }

    /// Leaves a variable that is true, as an assignment to it does that is made unless it is: it answers whether it did.
    #[inline(always)]
    fn leave_true(
        &mut self,
        prepared: &Prepared,
        space: &Space,
        here: NodeId,
        target: NodeId,
        stop: u64,
    ) -> bool
        requires control { self.old.control ≡ Controls.Enter here }
        requires leaves { (m : View) (t : Table) (steps : ℕ) (v : Reference) → TakesNow prepared.now.program m t (tree_at prepared.now.program.nodes.items target) steps v → is_truthy v ≡ true → ComesTo prepared.now.program m t (rule (context_of prepared.now.program) (tree_at prepared.now.program.nodes.items here)) steps (Ret (Answers.Gave v)) }
        requires some { stop < self.old.left }
        requires nested { IsNested (view_of self.old) }
        ensures goes { IsTrue result → (h : Course) → remaining prepared.now.program (view_of self.old) space.now h ≡ remaining prepared.now.program (view_of self.new) space.now h }
        ensures nested { IsNested (view_of self.new) }
        ensures within { (clusters : Option Below) → AreReached (reach (length space.now.slots) clusters) (view_of self.old) → AreReached (reach (length space.now.slots) clusters) (view_of self.new) }
        ensures left { stop ≤ self.new.left }
        ensures kept { self.new.left ≤ self.old.left }
        ensures spends { IsTrue result → self.new.left < self.old.left }
        ensures falls { power (view_of self.new) + self.old.left ≤ power (view_of self.old) + self.new.left }
        ensures same { IsFalse result → self.new ≡ self.old }
    {
        let Some(found) = self.quick_before(prepared, space, target, stop) else {
            return false;
        };
        if !is_truthy(found.value) {
            return false;
        }
        self.left = self.left - found.steps - 1;
        self.control = Control::Give(Answer::Gave(found.value));
        true
    }

    /// Evaluates `x ||= y`, where `x` is a local variable or an instance variable that is true: it answers whether it was done.
    #[inline(always)]
    pub fn visit_or(
        &mut self,
        prepared: &Prepared,
        space: &Space,
        here: NodeId,
        target: NodeId,
        part: NodeId,
        stop: u64,
    ) -> bool
        requires control { self.old.control ≡ Controls.Enter here }
        requires tree { tree_at prepared.now.program.nodes.items here ≡ evaluated_tree prepared.now.program.nodes.items (Node.OrAssign target part) }
        requires some { stop < self.old.left }
        requires nested { IsNested (view_of self.old) }
        ensures goes { IsTrue result → (h : Course) → remaining prepared.now.program (view_of self.old) space.now h ≡ remaining prepared.now.program (view_of self.new) space.now h }
        ensures nested { IsNested (view_of self.new) }
        ensures within { (clusters : Option Below) → AreReached (reach (length space.now.slots) clusters) (view_of self.old) → AreReached (reach (length space.now.slots) clusters) (view_of self.new) }
        ensures left { stop ≤ self.new.left }
        ensures kept { self.new.left ≤ self.old.left }
        ensures spends { IsTrue result → self.new.left < self.old.left }
        ensures falls { power (view_of self.new) + self.old.left ≤ power (view_of self.old) + self.new.left }
        ensures same { IsFalse result → self.new ≡ self.old }
    {
        match prepared.node(target) {
            Some(&Node::Local { .. }) => self.leave_true(prepared, space, here, target, stop),
            Some(&Node::Field(_)) => self.leave_true(prepared, space, here, target, stop),
            _ => false,
        }
    }

    /// Does an operator that comes next as a call, where its operands are integers: it answers whether it did.
    #[inline(always)]
    fn operate_both(&mut self, op: BinaryOperator, left: Ref, argument: Option<Ref>) -> bool
        requires control { self.old.control ≡ Controls.Send (Called.Operator op) left argument }
        requires some { 0 < self.old.left }
        requires nested { IsNested (view_of self.old) }
        ensures goes { (p : Program) (t : Table) (h : Course) → remaining p (view_of self.old) t h ≡ remaining p (view_of self.new) t h }
        ensures nested { IsNested (view_of self.new) }
        ensures within { (k : Reach) → AreReached k (view_of self.old) → AreReached k (view_of self.new) }
        ensures left { self.old.left ≤ self.new.left + 1 }
        ensures kept { self.new.left ≤ self.old.left }
        ensures spends { IsTrue result → self.new.left < self.old.left }
        ensures falls { power (view_of self.new) + self.old.left ≤ power (view_of self.old) + self.new.left }
    {
        let Some(right) = argument else {
            return false;
        };
        if !self.operate_integers(op, left, right) {
            return false;
        }
        self.left -= 1;
        true
    }

    /// Does a call that comes next where it is an operator on integers, or reads an attribute: it answers whether it did.
    #[cold]
    #[inline(never)]
    pub fn operate_sent(&mut self, prepared: &Prepared, space: &Space, stop: u64) -> bool
        requires within { stop ≤ self.old.left }
        requires nested { IsNested (view_of self.old) }
        ensures goes { (h : Course) → remaining prepared.now.program (view_of self.old) space.now h ≡ remaining prepared.now.program (view_of self.new) space.now h }
        ensures nested { IsNested (view_of self.new) }
        ensures within { (clusters : Option Below) → AreReached (reach (length space.now.slots) clusters) (view_of self.old) → AreReached (reach (length space.now.slots) clusters) (view_of self.new) }
        ensures left { stop ≤ self.new.left }
        ensures kept { self.new.left ≤ self.old.left }
        ensures spends { IsTrue result → self.new.left < self.old.left }
        ensures falls { power (view_of self.new) + self.old.left ≤ power (view_of self.old) + self.new.left }
    {
        if self.left <= stop {
            return false;
        }
        let Control::Send(callee, receiver, argument) = self.control else {
            return false;
        };
        match callee {
            Callee::Operator(op) => self.operate_both(op, receiver, argument),
            Callee::Name(name) => match argument {
                None => self.read_sent(prepared, space, name, receiver, stop),
                Some(_) => false,
            },
            _ => false,
        }
    }
}
