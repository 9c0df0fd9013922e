//! What is usual, in front of what there is of all kinds: a part whose value needs no frame is evaluated at once, with what waits for it.

ghost use Rattle.std.specs.Prelude.{◌≡◌, ◌+◌, ◌*◌, ◌<◌, ◌≤◌, ℕ, [], false, length, vec_capacity, Option, IfSome, IfNone, IsTrue, IsFalse};
ghost use Rattle.rr_parser.specs.Grammar.Names.{is_splat};
ghost use Rattle.rr_space.specs.Tables.{Table, Below};
ghost use Rattle.rr_tree.specs.Tree.{tree_at};
ghost use Rattle.rr_eval.specs.declared.frame.Control.{Control};
ghost use Rattle.rr_tree.specs.declared.program.Program.{Program};
ghost use Rattle.rr_eval.specs.declared.problem.Answer.{Answer};
ghost use Rattle.rr_eval.specs.Context.{Context};
ghost use Rattle.rr_eval.specs.Script.{Go, Ret, World};
ghost use Rattle.rr_eval.specs.Requests.{Course};
ghost use Rattle.rr_eval.specs.Rules.{operation, rule};
ghost use Rattle.rr_eval.specs.Frames.{resumed, IsNew};
ghost use Rattle.rr_eval.specs.Nodes.{evaluated_tree, IsEvaluated, IsFirstNode};
ghost use Rattle.rr_eval.specs.Turns.{context_of, code_of, IsNested, remaining, remaining_with, after_answer, power, size};
ghost use Rattle.rr_eval.specs.Usual.{TakesNow};
ghost use Rattle.rr_eval.specs.Views.{view_of};
ghost use Rattle.rr_eval.specs.Within.{Reach, reach, IsReached, IsFrameReached, AreReached};

use crate::call_stack::Variable;
use crate::engine::{Engine, push_within};
use crate::frame::{Control, Frame};
use crate::operator::computed;
use crate::prepared::Prepared;
use crate::problem::Answer;
use crate::simple_parts::SimplePart;
use rr_space::{Ref, Space};
use rr_tree::{BinaryOperator, Node, NodeId, Program};

/// The value of a part that leaves all as it is, and how many steps the part takes.
#[derive(Clone, Copy)]
pub struct Quick {
    pub value: Ref,
    pub steps: u64,
}

impl Quick {
    /// A value that takes one step.
    #[inline(always)]
    fn one(value: Ref) -> Quick
        ensures value { result.value ≡ value }
        ensures steps { result.steps ≡ 1 }
    {
        Quick { value, steps: 1 }
    }

    /// The value of an operator and two operands, each of which takes a step.
    #[inline(always)]
    fn three(value: Ref) -> Quick
        ensures value { result.value ≡ value }
        ensures steps { result.steps ≡ 3 }
    {
        Quick { value, steps: 3 }
    }
}

/// The part that a node evaluates first, behind the frame that waits for it, where that is one part and no receiver.
#[inline(always)]
pub fn awaited_part(here: NodeId, node: Node) -> Option<(Frame, NodeId)>
    requires { IsEvaluated node }
    ensures script { IfSome result (λ x. (p : Program) (w : World) → tree_at p.nodes.items here ≡ evaluated_tree p.nodes.items node → rule (context_of p) (tree_at p.nodes.items here) ≡ Go (tree_at p.nodes.items x.1) (resumed (code_of p w) x.0 [])) }
    ensures new { (n : ℕ) → IfSome result (λ x. IsNew x.0 n) }
    ensures within { (k : Reach) → IfSome result (λ x. IsFrameReached k x.0) }
    ensures none { IfNone result (IsFirstNode node → ⊥) }
{
    match node {
        Node::And(a, b) => Some((Frame::And(b), a)),
        Node::Or(a, b) => Some((Frame::Or(b), a)),
        Node::Not(a) => Some((Frame::Not, a)),
        Node::Negate(a) => Some((Frame::Negation, a)),
        Node::Binary(op, a, b) => Some((Frame::Left(op, b), a)),
        Node::Choose(a, b, d) => Some((Frame::Branch(b, d), a)),
        Node::Assign {
            depth,
            slot,
            value,
            ..
        } => Some((Frame::Store(Variable { depth, slot }), value)),
        Node::SetField(name, value) => Some((Frame::SetField(name), value)),
        Node::Loop {
            until,
            condition,
            body,
        } => Some((Frame::Condition(until, body, here), condition)),
        Node::Break(value) => Some((Frame::Break, value)),
        Node::Next(value) => Some((Frame::Next, value)),
        Node::Return(value) => Some((Frame::Return, value)),
        Node::Rescue {
            body,
            first,
            count,
            otherwise,
        } => Some((Frame::Rescue(first + count, count, otherwise), body)),
        Node::Ensure(body, part) => Some((Frame::Ensure(part), body)),
        _ => None,
    }
}

/// The value of an operator on two values, where they are integers and it has one.
#[inline(always)]
pub fn operated(op: BinaryOperator, left: Ref, right: Ref) -> Option<Ref>
    ensures gives { IfSome result (λ v. (c : Context) → operation c op left right ≡ Ret (Answer.Gave v)) }
    ensures within { (k : Reach) → IfSome result (IsReached k) }
{
    match (left, right) {
        (Ref::Int(x), Ref::Int(y)) => match computed(op, x, y) {
            Ok(value) => Some(value),
            Err(_) => None,
        },
        _ => None,
    }
}

impl Engine {
    /// The value of a part, where that is a literal, a class of the program, a variable, `self`, or an operator on a variable and a leaf
    /// that are integers.
    #[inline(always)]
    pub fn quick_simple(&self, prepared: &Prepared, place: NodeId) -> Option<Quick>
        ensures takes { (t : Table) → IfSome result (λ q. TakesNow prepared.now.program (view_of self.now) t (tree_at prepared.now.program.nodes.items place) q.steps q.value) }
        ensures plain { IfSome result (λ _. is_splat (tree_at prepared.now.program.nodes.items place) ≡ false) }
        ensures some { IfSome result (λ q. 0 < q.steps) }
        ensures few { IfSome result (λ q. q.steps ≤ 3) }
        ensures within { (k : Reach) → AreReached k (view_of self.now) → IfSome result (λ q. IsReached k q.value) }
    {
        match prepared.part(place) {
            Some(&SimplePart::Variable(variable)) => Some(Quick::one(self.variable(variable))),
            Some(&SimplePart::Int(z)) => Some(Quick::one(Ref::Int(z))),
            Some(&SimplePart::WithInt(op, variable, z)) => {
                match operated(op, self.variable(variable), Ref::Int(z)) {
                    Some(value) => Some(Quick::three(value)),
                    None => None,
                }
            }
            Some(&SimplePart::WithVariable(op, variable, other)) => {
                match operated(op, self.variable(variable), self.variable(other)) {
                    Some(value) => Some(Quick::three(value)),
                    None => None,
                }
            }
            Some(&SimplePart::Value(value)) => Some(Quick::one(value)),
            Some(&SimplePart::Itself) => Some(Quick::one(self.itself())),
            _ => None,
        }
    }

    /// The value of such a part, or of one for which a function of its own is called.
    #[inline(always)]
    pub fn quick(&self, prepared: &Prepared, space: &Space, place: NodeId) -> Option<Quick>
        ensures takes { IfSome result (λ q. TakesNow prepared.now.program (view_of self.now) space.now (tree_at prepared.now.program.nodes.items place) q.steps q.value) }
        ensures plain { IfSome result (λ _. is_splat (tree_at prepared.now.program.nodes.items place) ≡ false) }
        ensures some { IfSome result (λ q. 0 < q.steps) }
        ensures few { IfSome result (λ q. q.steps ≤ 31) }
        ensures within { (clusters : Option Below) → AreReached (reach (length space.now.slots) clusters) (view_of self.now) → IfSome result (λ q. IsReached (reach (length space.now.slots) clusters) q.value) }
    {
        match prepared.part(place) {
            Some(&SimplePart::Apart(_)) => self.quick_apart(prepared, space, place),
            _ => self.quick_simple(prepared, place),
        }
    }

    /// The same, where they may stop at once.
    #[inline(always)]
    pub fn quick_soon(
        &self,
        prepared: &Prepared,
        space: &Space,
        place: NodeId,
        stop: u64,
    ) -> Option<Quick>
        requires within { stop ≤ self.now.left }
        ensures takes { IfSome result (λ q. TakesNow prepared.now.program (view_of self.now) space.now (tree_at prepared.now.program.nodes.items place) q.steps q.value) }
        ensures plain { IfSome result (λ _. is_splat (tree_at prepared.now.program.nodes.items place) ≡ false) }
        ensures some { IfSome result (λ q. 0 < q.steps) }
        ensures few { IfSome result (λ q. q.steps ≤ 31) }
        ensures enough { IfSome result (λ q. stop + q.steps < self.now.left) }
        ensures within { (clusters : Option Below) → AreReached (reach (length space.now.slots) clusters) (view_of self.now) → IfSome result (λ q. IsReached (reach (length space.now.slots) clusters) q.value) }
    {
        if self.left - stop <= 31 {
            return None;
        }
        match self.quick(prepared, space, place) {
            Some(found) => Some(found),
            None => None,
        }
    }

    /// The value of such a part, where the steps do not stop before the one that follows it.
    #[inline(always)]
    pub fn quick_before(
        &self,
        prepared: &Prepared,
        space: &Space,
        place: NodeId,
        stop: u64,
    ) -> Option<Quick>
        requires some { stop < self.now.left }
        ensures takes { IfSome result (λ q. TakesNow prepared.now.program (view_of self.now) space.now (tree_at prepared.now.program.nodes.items place) q.steps q.value) }
        ensures plain { IfSome result (λ _. is_splat (tree_at prepared.now.program.nodes.items place) ≡ false) }
        ensures some { IfSome result (λ q. 0 < q.steps) }
        ensures few { IfSome result (λ q. q.steps ≤ 31) }
        ensures enough { IfSome result (λ q. stop + q.steps < self.now.left) }
        ensures within { (clusters : Option Below) → AreReached (reach (length space.now.slots) clusters) (view_of self.now) → IfSome result (λ q. IsReached (reach (length space.now.slots) clusters) q.value) }
    {
        match self.quick_soon(prepared, space, place, stop) {
            Some(found) => Some(found),
            None => None,
        }
    }

    /// Puts a frame that has no values yet over all, and gives it a value.
    #[tactic(auto, unfolding(crate::specs::Within::AreReached))]
    #[inline(always)]
    pub fn give_above(&mut self, frame: Frame, value: Ref)
        requires room { length self.old.frames.items < vec_capacity self.old.frames }
        requires new { IsNew frame (length self.old.held.items) }
        requires nested { IsNested (view_of self.old) }
        ensures goes { (p : Program) (t : Table) (h : Course) (n : ℕ) → after_answer p (view_of self.old) t frame (Answer.Gave value) h n ≡ remaining_with p (view_of self.new) t h n }
        ensures nested { IsNested (view_of self.new) }
        ensures within { (k : Reach) → AreReached k (view_of self.old) → IsFrameReached k frame → IsReached k value → AreReached k (view_of self.new) }
        ensures left { self.new.left ≡ self.old.left }
        ensures size { size (view_of self.new) ≤ 3 * length self.old.frames.items + 5 }
    {
        push_within(&mut self.frames, frame);
        self.control = Control::Give(Answer::Gave(value));
    }

    /// Evaluates a node that evaluates a part first. The frame that waits for the part gets its value at once, where the part needs
    /// no frame.
    #[inline(always)]
    fn visit_under(
        &mut self,
        prepared: &Prepared,
        space: &Space,
        here: NodeId,
        frame: Frame,
        part: NodeId,
        stop: u64,
    )
        requires control { self.old.control ≡ Control.Enter here }
        requires script { (w : World) → rule (context_of prepared.now.program) (tree_at prepared.now.program.nodes.items here) ≡ Go (tree_at prepared.now.program.nodes.items part) (resumed (code_of prepared.now.program w) frame []) }
        requires new { IsNew frame (length self.old.held.items) }
        requires some { stop < self.old.left }
        requires room { length self.old.frames.items < vec_capacity self.old.frames }
        requires nested { IsNested (view_of self.old) }
        ensures goes { (h : Course) → remaining prepared.now.program (view_of self.old) space.now h ≡ remaining prepared.now.program (view_of self.new) space.now h }
        ensures nested { IsNested (view_of self.new) }
        ensures within { (clusters : Option Below) → AreReached (reach (length space.now.slots) clusters) (view_of self.old) → IsFrameReached (reach (length space.now.slots) clusters) frame → AreReached (reach (length space.now.slots) clusters) (view_of self.new) }
        ensures left { stop ≤ self.new.left }
        ensures spends { self.new.left < self.old.left }
        ensures falls { power (view_of self.new) + self.old.left ≤ power (view_of self.old) + self.new.left }
    {
        match self.quick_before(prepared, space, part, stop) {
            Some(found) => {
                self.left -= found.steps + 1;
                if !self.resume(prepared, space, frame, found.value, stop) {
                    self.give_above(frame, found.value);
                }
            }
            None => {
                self.enter_above(frame, part);
                self.left -= 1;
            }
        }
    }

    /// Evaluates a node that evaluates a part first, where that is one part and no receiver.
    #[inline(always)]
    pub fn visit_first(
        &mut self,
        prepared: &Prepared,
        space: &Space,
        here: NodeId,
        node: Node,
        stop: u64,
    ) -> bool
        requires control { self.old.control ≡ Control.Enter here }
        requires tree { tree_at prepared.now.program.nodes.items here ≡ evaluated_tree prepared.now.program.nodes.items node }
        requires evaluated { IsEvaluated node }
        requires some { stop < self.old.left }
        requires room { length self.old.frames.items < vec_capacity self.old.frames }
        requires nested { IsNested (view_of self.old) }
        ensures goes { IsTrue result → (h : Course) → remaining prepared.now.program (view_of self.old) space.now h ≡ remaining prepared.now.program (view_of self.new) space.now h }
        ensures nested { IsNested (view_of self.new) }
        ensures within { (clusters : Option Below) → AreReached (reach (length space.now.slots) clusters) (view_of self.old) → AreReached (reach (length space.now.slots) clusters) (view_of self.new) }
        ensures left { stop ≤ self.new.left }
        ensures spends { IsTrue result → self.new.left < self.old.left }
        ensures falls { IsTrue result → power (view_of self.new) + self.old.left ≤ power (view_of self.old) + self.new.left }
        ensures same { IsFalse result → self.new ≡ self.old }
    {
        match awaited_part(here, node) {
            Some((frame, part)) => {
                self.visit_under(prepared, space, here, frame, part, stop);
                true
            }
            None => false,
        }
    }
}
