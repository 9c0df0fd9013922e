//! What a node does first.

ghost use Rattle.std.specs.Prelude.{◌≡◌, ◌+◌, ◌-◌, ◌*◌, ◌<◌, ◌≤◌, ◌^◌, ℕ, [], ◌∷◌, true, false, length, slice_index_or, vec_capacity, Option, None, Some, IfOk, IfErr, IfSome, IfNone, IsTrue, IsFalse};
ghost use Rattle.rr_base.specs.declared.fault.Fault.{Fault};
ghost use Rattle.rr_space.specs.Tables.{Table, Below};
ghost use Rattle.rr_tree.specs.Tree.{tree_at};
ghost use Rattle.rr_tree.specs.declared.node.Node.{Node};
ghost use Rattle.rr_tree.specs.declared.program.Program.{Program};
ghost use Rattle.rr_eval.specs.declared.frame.Control.{Control};
ghost use Rattle.rr_eval.specs.Acts.{Passes};
ghost use Rattle.rr_eval.specs.Script.{Go, Ret, objects_of};
ghost use Rattle.rr_eval.specs.declared.problem.Answer.{Answer as Answered};
ghost use Rattle.rr_eval.specs.Requests.{Course, Adds};
ghost use Rattle.rr_eval.specs.Changes.{Changes};
ghost use Rattle.rr_eval.specs.Operators.{make};
ghost use Rattle.rr_eval.specs.Rules.{rule, statements, values, arguments, on_table, finish};
ghost use Rattle.rr_tree.specs.Nodes.{trees_before};
ghost use Rattle.rr_eval.specs.Nodes.{evaluated_tree, IsEvaluated, IsValueNode, IsFirstNode, IsSendNode, IsAssignNode, IsRareNode, is_unknown};
ghost use Rattle.rr_eval.specs.Frames.{resumed, IsNew};
ghost use Rattle.rr_eval.specs.Turns.{context_of, code_of, IsNested, after_script, remaining_with, continuing, Stands, size, sized};
ghost use Rattle.rr_eval.specs.Views.{view_of};
ghost use Rattle.rr_eval.specs.Within.{Reach, reach, AreReached, AreWithin, IsReached, IsFrameReached, IsAskedReached, KeepsReach, KeepsRead};

use crate::call::{Arguments, Callee, Target, Task};
use crate::call_stack::Variable;
use crate::engine::{Engine, push_within};
use crate::frame::{Control, Frame};
use crate::operator::make;
use crate::prepared::Prepared;
use crate::problem::{Answer, Problem};
use crate::request::Request;
use crate::updating::{Place, Update};
use crate::usual::awaited_part;
use rr_base::Fault;
use rr_space::{Ref, Space};
use rr_tree::{Node, NodeId, Program};
use std::alloc::{AllocError, Global};

/// A copy of a text literal; empty past the table.
pub fn literal(alloc: Global, program: &Program, i: u32) -> Result<Vec<u8>, AllocError>
    ensures { IfOk result (λ text. text.items ≡ slice_index_or (context_of program.now).texts i []) }
{
    match program.texts.get(i as usize) {
        Some(text) => Vec::from_slice(alloc, text.as_slice()),
        None => Ok(Vec::new(alloc)),
    }
}

impl Engine {
    /// Answers at once.
    #[inline(always)]
    pub fn answer(&mut self, answer: Answer)
        ensures { self.new ≡ record self.old { control = Control.Give answer } }
    {
        self.control = Control::Give(answer);
    }

    /// Puts a frame over a part that is evaluated next.
    #[tactic(auto, unfolding(crate::specs::Within::AreReached))]
    #[inline(always)]
    pub fn enter_above(&mut self, frame: Frame, part: NodeId)
        requires room { length self.old.frames.items < vec_capacity self.old.frames }
        requires new { IsNew frame (length self.old.held.items) }
        requires nested { IsNested (view_of self.old) }
        ensures goes { (p : Program) (t : Table) (h : Course) (n : ℕ) → after_script p (view_of self.old) t (Go (tree_at p.nodes.items part) (resumed (code_of p h.world) frame [])) h n ≡ remaining_with p (view_of self.new) t h n }
        ensures nested { IsNested (view_of self.new) }
        ensures within { (k : Reach) → AreReached k (view_of self.old) → IsFrameReached k frame → AreReached k (view_of self.new) }
        ensures left { self.new.left ≡ self.old.left }
        ensures size { size (view_of self.new) ≤ 3 * length self.old.frames.items + 4 }
    {
        self.control.enter(part);
        push_within(&mut self.frames, frame);
    }

    /// Begins with the last `count` statements before `end`.
    #[tactic(auto, unfolding(crate::specs::Within::AreReached))]
    #[inline(always)]
    pub fn begin(&mut self, end: NodeId, count: u32)
        requires room { length self.old.frames.items < vec_capacity self.old.frames }
        requires nested { IsNested (view_of self.old) }
        ensures goes { (p : Program) (t : Table) (h : Course) (n : ℕ) → after_script p (view_of self.old) t (statements (trees_before p.nodes.items end count)) h n ≡ remaining_with p (view_of self.new) t h n }
        ensures nested { IsNested (view_of self.new) }
        ensures within { (k : Reach) → AreReached k (view_of self.old) → AreReached k (view_of self.new) }
        ensures left { self.new.left ≡ self.old.left }
        ensures size { size (view_of self.new) ≤ 3 * length self.old.frames.items + 4 }
    {
        match count {
            0 => self.control = Control::Give(Answer::Gave(Ref::Nil)),
            1 => self.control.enter(end.saturating_sub(1)),
            _ => self.enter_above(Frame::Rest(end, count - 1), end.saturating_sub(count)),
        }
    }

    /// Begins with the `count` statements from `first` on.
    #[tactic(auto, unfolding(crate::specs::Within::AreReached))]
    #[inline(always)]
    pub fn begin_list(&mut self, first: NodeId, count: u32)
        requires small { first + count < 2 ^ 32 }
        requires room { length self.old.frames.items < vec_capacity self.old.frames }
        requires nested { IsNested (view_of self.old) }
        ensures goes { (p : Program) (t : Table) (h : Course) (n : ℕ) → after_script p (view_of self.old) t (statements (trees_before p.nodes.items (first + count) count)) h n ≡ remaining_with p (view_of self.new) t h n }
        ensures nested { IsNested (view_of self.new) }
        ensures within { (k : Reach) → AreReached k (view_of self.old) → AreReached k (view_of self.new) }
        ensures left { self.new.left ≡ self.old.left }
        ensures size { size (view_of self.new) ≤ 3 * length self.old.frames.items + 4 }
    {
        match count {
            0 => self.control = Control::Give(Answer::Gave(Ref::Nil)),
            1 => self.control.enter(first),
            _ => self.enter_above(Frame::Rest(first + count, count - 1), first),
        }
    }

    /// Evaluates the receiver of a call, and then its arguments, the last `count` parts before `end`.
    #[tactic(auto, unfolding(crate::specs::Within::AreReached))]
    #[inline(always)]
    pub fn open_send(&mut self, callee: Callee, receiver: NodeId, end: NodeId, count: u32)
        requires room { length self.old.frames.items < vec_capacity self.old.frames }
        requires nested { IsNested (view_of self.old) }
        ensures goes { (p : Program) (t : Table) (h : Course) (n : ℕ) → after_script p (view_of self.old) t (values (tree_at p.nodes.items receiver ∷ trees_before p.nodes.items end count) [] (finish (context_of p) (Target.Call callee))) h n ≡ remaining_with p (view_of self.new) t h n }
        ensures nested { IsNested (view_of self.new) }
        ensures within { (k : Reach) → AreReached k (view_of self.old) → AreReached k (view_of self.new) }
        ensures left { self.new.left ≡ self.old.left }
        ensures size { size (view_of self.new) ≤ 3 * length self.old.frames.items + 4 }
    {
        let frame = Frame::Argument(Target::Call(callee), end, count, self.held.len());
        self.enter_above(frame, receiver);
    }

    /// Evaluates a text literal: a new text, which a comment at the head of the program may freeze.
    #[inline(never)]
    fn open_text(
        &mut self,
        program: &Program,
        space: &mut Space,
        i: u32,
    ) -> Result<Option<Request>, Fault>
        requires nested { IsNested (view_of self.old) }
        requires within { AreWithin (length space.old.slots) (view_of self.old) }
        ensures goes { IfOk result (λ q. (h : Course) (n : ℕ) → after_script program.now (view_of self.old) space.old (on_table (context_of program.now) (make program.now.freezes (slice_index_or (context_of program.now).texts i []))) h n ≡ continuing program.now (view_of self.new) space.new q h n) }
        ensures nested { IsNested (view_of self.new) }
        ensures within { KeepsReach (view_of self.old) space.old (view_of self.new) space.new }
        ensures read { KeepsRead (view_of self.old) space.old space.new }
        ensures left { self.new.left ≡ self.old.left }
        ensures asks { (k : Reach) → IfOk result (IsAskedReached k) }
        ensures err { IfErr result (λ f. Stands (view_of self.old) (view_of self.new) space.old space.new f) }
        ensures size { IfOk result (λ q. sized q (view_of self.new) ≤ 3 * length self.old.frames.items + 4) }
        ensures limit { space.new.limit ≡ space.old.limit }
        ensures changed { Changes space.old space.new }
        ensures full { IfErr result (λ f. (h : Course) (n : ℕ) → Adds h.world → Passes f space.old.limit (objects_of (after_script program.now (view_of self.old) space.old (on_table (context_of program.now) (make program.now.freezes (slice_index_or (context_of program.now).texts i []))) h n))) }
    {
        let text = literal(self.alloc, program, i)?;
        match make(space, program.freezes, text) {
            Ok(what) => {
                self.settle(what);
                Ok(None)
            }
            Err(fault) => Err(fault),
        }
    }

    /// Evaluates values, the last `count` parts before `first + count`, with which a task is done.
    pub fn open_values(
        &mut self,
        task: Task,
        first: NodeId,
        count: u32,
    ) -> Result<Option<Request>, Fault>
        requires small { first + count < 2 ^ 32 }
        requires nested { IsNested (view_of self.old) }
        ensures goes { IfOk result (λ q. (p : Program) (t : Table) (h : Course) (n : ℕ) → after_script p (view_of self.old) t (arguments (context_of p) (trees_before p.nodes.items (first + count) count) [] (finish (context_of p) (Target.Do task))) h n ≡ continuing p (view_of self.new) t q h n) }
        ensures nested { IsNested (view_of self.new) }
        ensures within { (k : Reach) → AreReached k (view_of self.old) → AreReached k (view_of self.new) }
        ensures left { self.new.left ≡ self.old.left }
        ensures asks { (k : Reach) → IfOk result (IsAskedReached k) }
        ensures err { (t : Table) → IfErr result (λ f. Stands (view_of self.old) (view_of self.new) t t f) }
        ensures size { IfOk result (λ q. sized q (view_of self.new) ≤ 3 * length self.old.frames.items + 4) }
        ensures fault { IfErr result (λ f. f ≡ Fault.Memory) }
    {
        match count {
            0 => Ok(Some(Request::Do(task, Arguments::Without))),
            _ => {
                self.frames.reserve(1)?;
                // So that the next list of as many parts finds room for its values.
                self.held.reserve(count as usize)?;
                let frame = Frame::Item(
                    Target::Do(task),
                    first + count,
                    count - 1,
                    self.held.len(),
                );
                self.enter_above(frame, first);
                Ok(None)
            }
        }
    }

    /// Does what a node does that is not evaluated yet.
    #[tactic(auto, unfolding(crate::specs::Within::AreReached))]
    fn open_unknown(&mut self, node: Node)
        requires unknown { is_unknown node ≡ true }
        requires nested { IsNested (view_of self.old) }
        ensures goes { (p : Program) (t : Table) (h : Course) (n : ℕ) → after_script p (view_of self.old) t (rule (context_of p) (evaluated_tree p.nodes.items node)) h n ≡ remaining_with p (view_of self.new) t h n }
        ensures nested { IsNested (view_of self.new) }
        ensures within { (k : Reach) → AreReached k (view_of self.old) → AreReached k (view_of self.new) }
        ensures left { self.new.left ≡ self.old.left }
        ensures size { size (view_of self.new) ≤ 3 * length self.old.frames.items + 4 }
    {
        self.control = Control::Throw(Problem::NotHere);
    }

    /// Does what a node does first that needs the objects or memory.
    pub fn open_rare(
        &mut self,
        prepared: &Prepared,
        space: &mut Space,
        node: Node,
    ) -> Result<Option<Request>, Fault>
        requires evaluated { IsEvaluated node }
        requires rare { IsRareNode node }
        requires nested { IsNested (view_of self.old) }
        requires within { AreWithin (length space.old.slots) (view_of self.old) }
        ensures goes { IfOk result (λ q. (h : Course) (n : ℕ) → after_script prepared.now.program (view_of self.old) space.old (rule (context_of prepared.now.program) (evaluated_tree prepared.now.program.nodes.items node)) h n ≡ continuing prepared.now.program (view_of self.new) space.new q h n) }
        ensures nested { IsNested (view_of self.new) }
        ensures within { KeepsReach (view_of self.old) space.old (view_of self.new) space.new }
        ensures read { KeepsRead (view_of self.old) space.old space.new }
        ensures left { self.new.left ≡ self.old.left }
        ensures asks { (clusters : Option Below) → AreReached (reach (length space.old.slots) clusters) (view_of self.old) → IfOk result (IsAskedReached (reach (length space.new.slots) clusters)) }
        ensures err { IfErr result (λ f. Stands (view_of self.old) (view_of self.new) space.old space.new f) }
        ensures size { IfOk result (λ q. sized q (view_of self.new) ≤ 3 * length self.old.frames.items + 7) }
        ensures limit { space.new.limit ≡ space.old.limit }
        ensures changed { Changes space.old space.new }
        ensures full { IfErr result (λ f. (h : Course) (n : ℕ) → Adds h.world → Passes f space.old.limit (objects_of (after_script prepared.now.program (view_of self.old) space.old (rule (context_of prepared.now.program) (evaluated_tree prepared.now.program.nodes.items node)) h n))) }
    {
        match node {
            Node::Text(i) => self.open_text(&prepared.program, space, i),
            Node::Array { first, count } => self.open_values(Task::MakeArray, first, count),
            Node::Interpolation { first, count } => self.open_values(Task::MakeText, first, count),
            Node::Hash { first, count } => self.open_pairs(&prepared.program, first, count),
            Node::Pairs { first, count } => self.open_pairs(&prepared.program, first, count),
            Node::Field(name) => {
                self.open_field(space, name);
                Ok(None)
            }
            Node::Global(name) => {
                self.open_global(space, name);
                Ok(None)
            }
            Node::Constant(path) => Ok(self.open_path(&prepared.program, space, path)),
            Node::OrAssign(target, value) => {
                self.open_or(&prepared.program, space, target, value)
            }
            Node::Bare { name, .. } => self.open_bare(prepared, space, name),
            Node::Call {
                name,
                first,
                count,
                ..
            } => self.open_call(prepared, space, name, first, count),
            Node::WithBlock(call, block) => self.open_block(prepared, space, call, block),
            Node::Super { first, count } => self.open_super(prepared, space, first, count),
            Node::ForwardingSuper => self.open_forwarding(prepared, space),
            Node::Yield { first, count } => {
                match self.open_yield(&prepared.program, space, first, count) {
                    Ok(()) => Ok(None),
                    Err(fault) => Err(fault),
                }
            }
            _ => unreachable!(),
        }
    }

    /// The value of a node that has one at once.
    #[tactic(auto, unfolding(crate::specs::Within::AreReached))]
    #[inline(always)]
    fn value_at_once(&self, node: Node) -> Option<Ref>
        ensures value { IfSome result (λ v. (p : Program) (t : Table) (h : Course) (n : ℕ) → after_script p (view_of self.now) t (rule (context_of p) (evaluated_tree p.nodes.items node)) h n ≡ after_script p (view_of self.now) t (Ret (Answered.Gave v)) h n) }
        ensures within { (k : Reach) → AreReached k (view_of self.now) → IfSome result (IsReached k) }
        ensures none { IfNone result (IsValueNode node → ⊥) }
    {
        match node {
            Node::Nil => Some(Ref::Nil),
            Node::Symbol(symbol) => Some(Ref::Symbol(symbol)),
            Node::Class(class) => Some(Ref::Class(class)),
            Node::Truth(truth) => Some(Ref::truth(truth)),
            Node::Int(z) => Some(Ref::Int(z)),
            Node::Itself => Some(self.itself()),
            Node::Local { depth, slot, .. } => Some(self.variable(Variable { depth, slot })),
            _ => None,
        }
    }

    /// Evaluates the receiver of a call.
    fn open_sent(&mut self, node: Node)
        requires send { IsSendNode node }
        requires evaluated { IsEvaluated node }
        requires room { length self.old.frames.items < vec_capacity self.old.frames }
        requires nested { IsNested (view_of self.old) }
        ensures goes { (p : Program) (t : Table) (h : Course) (n : ℕ) → after_script p (view_of self.old) t (rule (context_of p) (evaluated_tree p.nodes.items node)) h n ≡ remaining_with p (view_of self.new) t h n }
        ensures nested { IsNested (view_of self.new) }
        ensures within { (k : Reach) → AreReached k (view_of self.old) → AreReached k (view_of self.new) }
        ensures left { self.new.left ≡ self.old.left }
        ensures size { size (view_of self.new) ≤ 3 * length self.old.frames.items + 4 }
    {
        match node {
            Node::Send {
                receiver,
                name,
                first,
                count,
                ..
            } => self.open_receiver(Callee::Name(name), receiver, first + count, count),
            Node::SetAttribute {
                receiver,
                name,
                value,
                ..
            } => self.open_send(Callee::Setter(name), receiver, value + 1, 1),
            Node::Index(a, b) => self.open_send(Callee::Index, a, b + 1, 1),
            Node::Append(a, b) => self.open_send(Callee::Append, a, b + 1, 1),
            Node::SetIndex {
                receiver,
                index,
                value,
            } => self.enter_above(Frame::Element(index, value + 1), receiver),
            _ => unreachable!(),
        }
    }

    /// Begins an assignment to several targets, to a global or a constant, or with an operator.
    fn open_assigned(&mut self, program: &Program, node: Node)
        requires assigns { IsAssignNode node }
        requires evaluated { IsEvaluated node }
        requires room { length self.old.frames.items < vec_capacity self.old.frames }
        requires nested { IsNested (view_of self.old) }
        ensures goes { (t : Table) (h : Course) (n : ℕ) → after_script program.now (view_of self.old) t (rule (context_of program.now) (evaluated_tree program.now.nodes.items node)) h n ≡ remaining_with program.now (view_of self.new) t h n }
        ensures nested { IsNested (view_of self.new) }
        ensures within { (k : Reach) → AreReached k (view_of self.old) → AreReached k (view_of self.new) }
        ensures left { self.new.left ≡ self.old.left }
        ensures size { size (view_of self.new) ≤ 3 * length self.old.frames.items + 4 }
    {
        match node {
            Node::MultipleAssign {
                first,
                count,
                value,
            } => self.open_several(program, first + count, count, value),
            Node::SetGlobal(name, value) => self.open_assignment(Place::Global(name), value),
            Node::SetConstant(name, value) => {
                self.open_assignment(Place::Constant(name), value);
            }
            Node::OperatorAssign(op, target, value) => {
                self.open_operator(program, op, target, value);
            }
            Node::AppendAssign(target, value) => {
                self.open_update(program, Update::Combine(Callee::Append), target, value);
            }
            Node::AndAssign(target, value) => {
                self.open_update(program, Update::And, target, value);
            }
            _ => unreachable!(),
        }
    }

    /// Does what a node does first that has no value at once and evaluates no part first, unless that needs the objects or memory.
    #[tactic(auto, unfolding(crate::specs::Within::AreReached))]
    fn open_apart(&mut self, program: &Program, node: Node) -> bool
        requires evaluated { IsEvaluated node }
        requires value { IsValueNode node → ⊥ }
        requires first { IsFirstNode node → ⊥ }
        requires room { length self.old.frames.items < vec_capacity self.old.frames }
        requires nested { IsNested (view_of self.old) }
        ensures goes { IsTrue result → (t : Table) (h : Course) (n : ℕ) → after_script program.now (view_of self.old) t (rule (context_of program.now) (evaluated_tree program.now.nodes.items node)) h n ≡ remaining_with program.now (view_of self.new) t h n }
        ensures nested { IsNested (view_of self.new) }
        ensures within { (k : Reach) → AreReached k (view_of self.old) → AreReached k (view_of self.new) }
        ensures left { self.new.left ≡ self.old.left }
        ensures size { size (view_of self.new) ≤ 3 * length self.old.frames.items + 4 }
        ensures same { IsFalse result → self.new ≡ self.old }
        ensures rare { IsFalse result → IsRareNode node }
    {
        match node {
            Node::Sequence { first, count } => self.begin(first + count, count),
            Node::Splat(part) => self.control = Control::Enter(part),
            Node::Block { body, .. } => self.control = Control::Enter(body),
            Node::Send { .. }
            | Node::SetAttribute { .. }
            | Node::Index(_, _)
            | Node::Append(_, _)
            | Node::SetIndex { .. } => self.open_sent(node),
            Node::MultipleAssign { .. }
            | Node::SetGlobal(_, _)
            | Node::SetConstant(_, _)
            | Node::OperatorAssign(_, _, _)
            | Node::AppendAssign(_, _)
            | Node::AndAssign(_, _) => self.open_assigned(program, node),
            Node::Text(_)
            | Node::Array { .. }
            | Node::Interpolation { .. }
            | Node::Hash { .. }
            | Node::Pairs { .. }
            | Node::Field(_)
            | Node::Global(_)
            | Node::Constant(_)
            | Node::OrAssign(_, _)
            | Node::Bare { .. }
            | Node::Call { .. }
            | Node::WithBlock(_, _)
            | Node::Super { .. }
            | Node::ForwardingSuper
            | Node::Yield { .. } => return false,
            Node::Item(_) => unreachable!(),
            _ => self.open_unknown(node),
        }
        true
    }

    /// Does what a node does first, unless that needs the objects or memory.
    #[tactic(auto, unfolding(crate::specs::Within::AreReached))]
    #[inline(always)]
    pub fn open(&mut self, program: &Program, here: NodeId, node: Node) -> bool
        requires tree { tree_at program.now.nodes.items here ≡ evaluated_tree program.now.nodes.items node }
        requires evaluated { IsEvaluated node }
        requires room { length self.old.frames.items < vec_capacity self.old.frames }
        requires nested { IsNested (view_of self.old) }
        ensures goes { IsTrue result → (t : Table) (h : Course) (n : ℕ) → after_script program.now (view_of self.old) t (rule (context_of program.now) (evaluated_tree program.now.nodes.items node)) h n ≡ remaining_with program.now (view_of self.new) t h n }
        ensures nested { IsNested (view_of self.new) }
        ensures within { (k : Reach) → AreReached k (view_of self.old) → AreReached k (view_of self.new) }
        ensures left { self.new.left ≡ self.old.left }
        ensures size { size (view_of self.new) ≤ 3 * length self.old.frames.items + 4 }
        ensures same { IsFalse result → self.new ≡ self.old }
        ensures rare { IsFalse result → IsRareNode node }
    {
        if let Some(value) = self.value_at_once(node) {
            self.answer(Answer::Gave(value));
            return true;
        }
        if let Some((frame, part)) = awaited_part(here, node) {
            self.enter_above(frame, part);
            return true;
        }
        self.open_apart(program, node)
    }
}
