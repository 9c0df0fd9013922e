//! Calls of a receiver that are usual: the receiver and the arguments that need no frame are evaluated at once.

ghost use Rattle.std.specs.Prelude.{◌≡◌, ◌+◌, ◌-◌, ◌*◌, ◌<◌, ◌≤◌, ◌^◌, ℕ, [], ◌∷◌, ◌++◌, length, reverse, take, drop, vec_capacity, Option, IfOk, IfErr, OnOk, IsTrue};
ghost use Rattle.rr_base.specs.declared.fault.Fault.{Fault};
ghost use Rattle.rr_space.specs.Tables.{Table, Below};
ghost use Rattle.rr_tree.specs.Nodes.{trees_before};
ghost use Rattle.rr_tree.specs.Tree.{tree_at};
ghost use Rattle.rr_eval.specs.declared.call.Callee.{Callee as Called};
ghost use Rattle.rr_eval.specs.declared.call.Target.{Target};
ghost use Rattle.rr_eval.specs.declared.frame.Control.{Control};
ghost use Rattle.rr_eval.specs.Acts.{Passes};
ghost use Rattle.rr_eval.specs.Changes.{Changes};
ghost use Rattle.rr_eval.specs.Frames.{Nested};
ghost use Rattle.rr_eval.specs.Nodes.{evaluated_tree, IsEvaluated, IsRareNode, IsSendNode};
ghost use Rattle.rr_eval.specs.Requests.{Course, Adds};
ghost use Rattle.rr_eval.specs.Rules.{rule, with_value, values, arguments, finish};
ghost use Rattle.rr_eval.specs.Script.{objects_of};
ghost use Rattle.rr_eval.specs.Turns.{context_of, IsNested, remaining, after_values, continuing, Stands, size, sized};
ghost use Rattle.rr_eval.specs.Usual.{ComesTo};
ghost use Rattle.rr_eval.specs.Views.{view_of};
ghost use Rattle.rr_eval.specs.Within.{reach, IsReached, IsAskedReached, AreReached, AreWithin, KeepsReach, KeepsRead};

use crate::call::{Callee, Target};
use crate::engine::{Engine, push_within};
use crate::frame::{Control, Frame};
use crate::prepared::Prepared;
use crate::quick_parts::QuickParts;
use crate::request::Request;
use crate::usual::Quick;
use rr_base::Fault;
use rr_space::{Ref, Space};
use rr_tree::{Node, NodeId};

/// Whether a node is a call of a receiver.
#[inline(always)]
pub fn is_send(node: Node) -> bool
    ensures { IsTrue result → IsSendNode node }
{
    match node {
        Node::Send { .. }
        | Node::Index(_, _)
        | Node::Append(_, _)
        | Node::SetAttribute { .. }
        | Node::SetIndex { .. } => { true }
        _ => false,
    }
}

impl Engine {
    /// Calls the first of the values that are held from `base` on and of one more, with the others. The steps of these are spent, and
    /// that of the node to which they belong. A refused growth lets the values go.
    #[inline(always)]
    fn send_held(
        &mut self,
        prepared: &Prepared,
        space: &Space,
        callee: Callee,
        base: usize,
        last: Ref,
        steps: u64,
    ) -> Result<Option<Request>, Fault>
        requires enough { steps < self.old.left }
        requires room { length self.old.frames.items < vec_capacity self.old.frames }
        requires base { base ≤ length self.old.held.items }
        requires nested { Nested (reverse self.old.frames.items) (take base self.old.held.items) }
        ensures goes { IfOk result (λ q. (end : ℕ) (h : Course) → after_values prepared.now.program (view_of self.old) space.now (Frame.Argument (Target.Call callee) end 0 base) (finish (context_of prepared.now.program) (Target.Call callee) (drop base self.old.held.items ++ last ∷ [])) h (self.old.left - (steps + 1)) ≡ continuing prepared.now.program (view_of self.new) space.now q h self.new.left) }
        ensures nested { IsNested (view_of self.new) }
        ensures within { (clusters : Option Below) → AreReached (reach (length space.now.slots) clusters) (view_of self.old) → IsReached (reach (length space.now.slots) clusters) last → AreReached (reach (length space.now.slots) clusters) (view_of self.new) }
        ensures asks { (clusters : Option Below) → AreReached (reach (length space.now.slots) clusters) (view_of self.old) → IsReached (reach (length space.now.slots) clusters) last → IfOk result (IsAskedReached (reach (length space.now.slots) clusters)) }
        ensures left { OnOk result (self.new.left + steps + 1 ≡ self.old.left) }
        ensures size { IfOk result (λ q. sized q (view_of self.new) ≤ 3 * length self.old.frames.items + 4) }
        ensures err { (t : Table) → IfErr result (λ f. Stands (record (view_of self.old) { held = take base self.old.held.items }) (view_of self.new) t t f) }
        ensures fault { IfErr result (λ f. f ≡ Fault.Memory) }
    {
        let frame = Frame::Argument(Target::Call(callee), 0, 0, base);
        match self.call_first(prepared, space, callee, frame, last) {
            Ok(request) => {
                self.left = self.left - steps - 1;
                Ok(request)
            }
            Err(fault) => {
                self.held.truncate(base);
                Err(fault)
            }
        }
    }

    /// Evaluates the last part of a call over the others, which are held from `base` on and took these steps: at once, where it needs no
    /// frame and the steps do not stop before. A refused growth lets the values go.
    #[tactic(auto, unfolding(crate::specs::Within::AreReached))]
    #[inline(always)]
    fn call_last(
        &mut self,
        prepared: &Prepared,
        space: &Space,
        callee: Callee,
        base: usize,
        part: NodeId,
        steps: u64,
        stop: u64,
    ) -> Result<Option<Request>, Fault>
        requires small { part + 1 < 2 ^ 32 }
        requires enough { stop + steps < self.old.left }
        requires room { length self.old.frames.items < vec_capacity self.old.frames }
        requires base { base ≤ length self.old.held.items }
        requires nested { Nested (reverse self.old.frames.items) (take base self.old.held.items) }
        ensures goes { IfOk result (λ q. (h : Course) → after_values prepared.now.program (view_of self.old) space.now (Frame.Argument (Target.Call callee) 0 0 base) (values (tree_at prepared.now.program.nodes.items part ∷ []) (drop base self.old.held.items) (finish (context_of prepared.now.program) (Target.Call callee))) h (self.old.left - (steps + 1)) ≡ continuing prepared.now.program (view_of self.new) space.now q h self.new.left) }
        ensures nested { IsNested (view_of self.new) }
        ensures within { (clusters : Option Below) → AreReached (reach (length space.now.slots) clusters) (view_of self.old) → AreReached (reach (length space.now.slots) clusters) (view_of self.new) }
        ensures asks { (clusters : Option Below) → AreReached (reach (length space.now.slots) clusters) (view_of self.old) → IfOk result (IsAskedReached (reach (length space.now.slots) clusters)) }
        ensures left { OnOk result (stop ≤ self.new.left) }
        ensures spends { OnOk result (self.new.left < self.old.left) }
        ensures size { IfOk result (λ q. sized q (view_of self.new) ≤ 3 * length self.old.frames.items + 4) }
        ensures err { (t : Table) → IfErr result (λ f. Stands (record (view_of self.old) { held = take base self.old.held.items }) (view_of self.new) t t f) }
        ensures fault { IfErr result (λ f. f ≡ Fault.Memory) }
    {
        let before = self.steps_together(stop, steps);
        match self.quick_before(prepared, space, part, before) {
            Some(last) => {
                let all = self.steps_together(steps, last.steps);
                self.send_held(prepared, space, callee, base, last.value, all)
            }
            None => {
                let frame = Frame::Argument(Target::Call(callee), part + 1, 0, base);
                push_within(&mut self.frames, frame);
                self.control = Control::Enter(part);
                self.left = self.left - steps - 1;
                Ok(None)
            }
        }
    }

    /// Evaluates a call with a receiver and one argument that is not spread: one step, and those of the parts that need no frame where
    /// the steps do not stop before.
    #[inline(always)]
    fn call_pair(
        &mut self,
        prepared: &Prepared,
        space: &Space,
        here: NodeId,
        callee: Callee,
        receiver: NodeId,
        argument: NodeId,
        stop: u64,
    ) -> Result<Option<Request>, Fault>
        requires control { self.old.control ≡ Control.Enter here }
        requires script { rule (context_of prepared.now.program) (tree_at prepared.now.program.nodes.items here) ≡ values (tree_at prepared.now.program.nodes.items receiver ∷ tree_at prepared.now.program.nodes.items argument ∷ []) [] (finish (context_of prepared.now.program) (Target.Call callee)) }
        requires small { argument + 1 < 2 ^ 32 }
        requires some { stop < self.old.left }
        requires room { length self.old.frames.items < vec_capacity self.old.frames }
        requires nested { IsNested (view_of self.old) }
        ensures goes { IfOk result (λ q. (h : Course) → remaining prepared.now.program (view_of self.old) space.now h ≡ continuing prepared.now.program (view_of self.new) space.now q h self.new.left) }
        ensures nested { IsNested (view_of self.new) }
        ensures within { (clusters : Option Below) → AreReached (reach (length space.now.slots) clusters) (view_of self.old) → AreReached (reach (length space.now.slots) clusters) (view_of self.new) }
        ensures asks { (clusters : Option Below) → AreReached (reach (length space.now.slots) clusters) (view_of self.old) → IfOk result (IsAskedReached (reach (length space.now.slots) clusters)) }
        ensures left { OnOk result (stop ≤ self.new.left) }
        ensures spends { OnOk result (self.new.left < self.old.left) }
        ensures size { IfOk result (λ q. sized q (view_of self.new) ≤ 3 * length self.old.frames.items + 4) }
        ensures err { (t : Table) → IfErr result (λ f. Stands (view_of self.old) (view_of self.new) t t f) }
        ensures fault { IfErr result (λ f. f ≡ Fault.Memory) }
    {
        let base = self.held.len();
        match self.quick_before(prepared, space, receiver, stop) {
            Some(found) => {
                self.held.push(found.value)?;
                self.call_last(prepared, space, callee, base, argument, found.steps, stop)
            }
            None => {
                self.open_send(callee, receiver, argument + 1, 1);
                self.left -= 1;
                Ok(None)
            }
        }
    }

    /// Goes on with a call whose receiver is evaluated at once.
    #[inline(always)]
    fn call_found(
        &mut self,
        prepared: &Prepared,
        space: &Space,
        here: NodeId,
        callee: Callee,
        found: Quick,
        end: NodeId,
        count: u32,
        stop: u64,
    ) -> Result<Option<Request>, Fault>
        requires control { self.old.control ≡ Control.Enter here }
        requires comes { ComesTo prepared.now.program (view_of self.old) space.now (rule (context_of prepared.now.program) (tree_at prepared.now.program.nodes.items here)) found.steps (arguments (context_of prepared.now.program) (trees_before prepared.now.program.nodes.items end count) (found.value ∷ []) (finish (context_of prepared.now.program) (Target.Call callee))) }
        requires enough { stop + found.steps < self.old.left }
        requires value { (clusters : Option Below) → AreReached (reach (length space.now.slots) clusters) (view_of self.old) → IsReached (reach (length space.now.slots) clusters) found.value }
        requires room { length self.old.frames.items < vec_capacity self.old.frames }
        requires nested { IsNested (view_of self.old) }
        ensures goes { IfOk result (λ q. (h : Course) → remaining prepared.now.program (view_of self.old) space.now h ≡ continuing prepared.now.program (view_of self.new) space.now q h self.new.left) }
        ensures nested { IsNested (view_of self.new) }
        ensures within { (clusters : Option Below) → AreReached (reach (length space.now.slots) clusters) (view_of self.old) → AreReached (reach (length space.now.slots) clusters) (view_of self.new) }
        ensures asks { (clusters : Option Below) → AreReached (reach (length space.now.slots) clusters) (view_of self.old) → IfOk result (IsAskedReached (reach (length space.now.slots) clusters)) }
        ensures left { OnOk result (stop ≤ self.new.left) }
        ensures spends { OnOk result (self.new.left < self.old.left) }
        ensures size { IfOk result (λ q. sized q (view_of self.new) ≤ 3 * length self.old.frames.items + 4) }
        ensures err { (t : Table) → IfErr result (λ f. Stands (view_of self.old) (view_of self.new) t t f) }
        ensures fault { IfErr result (λ f. f ≡ Fault.Memory) }
    {
        let base = self.held.len();
        let before = self.steps_together(stop, found.steps);
        let parts = self.hold_sent(prepared, space, found.value, end, count, before)?;
        let steps = self.steps_together(found.steps, parts.steps);
        if parts.rest > 0 {
            let rest = parts.rest;
            self.enter_part(Target::Call(callee), end, base, QuickParts { rest, steps });
            return Ok(None);
        }
        match self.held.pop() {
            Some(last) => self.send_held(prepared, space, callee, base, last, steps),
            None => unreachable!(),
        }
    }

    /// Evaluates a call with a receiver: one step, and those of the receiver and of the first arguments, the last `count` parts before
    /// `end`, where they need no frame and the steps do not stop before.
    #[inline(always)]
    fn call_sent(
        &mut self,
        prepared: &Prepared,
        space: &Space,
        here: NodeId,
        callee: Callee,
        receiver: NodeId,
        end: NodeId,
        count: u32,
        stop: u64,
    ) -> Result<Option<Request>, Fault>
        requires control { self.old.control ≡ Control.Enter here }
        requires script { rule (context_of prepared.now.program) (tree_at prepared.now.program.nodes.items here) ≡ with_value (tree_at prepared.now.program.nodes.items receiver) (λ v. arguments (context_of prepared.now.program) (trees_before prepared.now.program.nodes.items end count) (v ∷ []) (finish (context_of prepared.now.program) (Target.Call callee))) }
        requires some { stop < self.old.left }
        requires room { length self.old.frames.items < vec_capacity self.old.frames }
        requires nested { IsNested (view_of self.old) }
        ensures goes { IfOk result (λ q. (h : Course) → remaining prepared.now.program (view_of self.old) space.now h ≡ continuing prepared.now.program (view_of self.new) space.now q h self.new.left) }
        ensures nested { IsNested (view_of self.new) }
        ensures within { (clusters : Option Below) → AreReached (reach (length space.now.slots) clusters) (view_of self.old) → AreReached (reach (length space.now.slots) clusters) (view_of self.new) }
        ensures asks { (clusters : Option Below) → AreReached (reach (length space.now.slots) clusters) (view_of self.old) → IfOk result (IsAskedReached (reach (length space.now.slots) clusters)) }
        ensures left { OnOk result (stop ≤ self.new.left) }
        ensures spends { OnOk result (self.new.left < self.old.left) }
        ensures size { IfOk result (λ q. sized q (view_of self.new) ≤ 3 * length self.old.frames.items + 4) }
        ensures err { (t : Table) → IfErr result (λ f. Stands (view_of self.old) (view_of self.new) t t f) }
        ensures fault { IfErr result (λ f. f ≡ Fault.Memory) }
    {
        match self.quick_before(prepared, space, receiver, stop) {
            Some(found) => {
                self.call_found(prepared, space, here, callee, found, end, count, stop)
            }
            None => {
                self.open_receiver(callee, receiver, end, count);
                self.left -= 1;
                Ok(None)
            }
        }
    }

    /// Goes on with an assignment to an element whose receiver is evaluated at once.
    fn set_found(
        &mut self,
        prepared: &Prepared,
        space: &Space,
        here: NodeId,
        found: Quick,
        index: NodeId,
        value: NodeId,
        stop: u64,
    ) -> Result<Option<Request>, Fault>
        requires control { self.old.control ≡ Control.Enter here }
        requires comes { ComesTo prepared.now.program (view_of self.old) space.now (rule (context_of prepared.now.program) (tree_at prepared.now.program.nodes.items here)) found.steps (values (tree_at prepared.now.program.nodes.items index ∷ tree_at prepared.now.program.nodes.items value ∷ []) (found.value ∷ []) (finish (context_of prepared.now.program) (Target.Call Called.SetIndex))) }
        requires small { value + 1 < 2 ^ 32 }
        requires enough { stop + found.steps < self.old.left }
        requires value { (clusters : Option Below) → AreReached (reach (length space.now.slots) clusters) (view_of self.old) → IsReached (reach (length space.now.slots) clusters) found.value }
        requires room { length self.old.frames.items < vec_capacity self.old.frames }
        requires nested { IsNested (view_of self.old) }
        ensures goes { IfOk result (λ q. (h : Course) → remaining prepared.now.program (view_of self.old) space.now h ≡ continuing prepared.now.program (view_of self.new) space.now q h self.new.left) }
        ensures nested { IsNested (view_of self.new) }
        ensures within { (clusters : Option Below) → AreReached (reach (length space.now.slots) clusters) (view_of self.old) → AreReached (reach (length space.now.slots) clusters) (view_of self.new) }
        ensures asks { (clusters : Option Below) → AreReached (reach (length space.now.slots) clusters) (view_of self.old) → IfOk result (IsAskedReached (reach (length space.now.slots) clusters)) }
        ensures left { OnOk result (stop ≤ self.new.left) }
        ensures spends { OnOk result (self.new.left < self.old.left) }
        ensures size { IfOk result (λ q. sized q (view_of self.new) ≤ 3 * length self.old.frames.items + 4) }
        ensures err { (t : Table) → IfErr result (λ f. Stands (view_of self.old) (view_of self.new) t t f) }
        ensures fault { IfErr result (λ f. f ≡ Fault.Memory) }
    {
        let base = self.held.len();
        let before = self.steps_together(stop, found.steps);
        match self.quick_before(prepared, space, index, before) {
            Some(at) => {
                let steps = self.steps_together(found.steps, at.steps);
                self.held.reserve(2)?;
                self.held.push_reserved(found.value);
                self.held.push_reserved(at.value);
                self.call_last(prepared, space, Callee::SetIndex, base, value, steps, stop)
            }
            None => match self.keep_receiver(index, value + 1, found.value) {
                Ok(request) => {
                    self.left = self.left - found.steps - 1;
                    Ok(request)
                }
                Err(fault) => Err(fault),
            },
        }
    }

    /// Evaluates an assignment to an element: one step, and those of the parts that need no frame where the steps do not stop before.
    fn set_element(
        &mut self,
        prepared: &Prepared,
        space: &Space,
        here: NodeId,
        receiver: NodeId,
        index: NodeId,
        value: NodeId,
        stop: u64,
    ) -> Result<Option<Request>, Fault>
        requires control { self.old.control ≡ Control.Enter here }
        requires script { rule (context_of prepared.now.program) (tree_at prepared.now.program.nodes.items here) ≡ values (tree_at prepared.now.program.nodes.items receiver ∷ tree_at prepared.now.program.nodes.items index ∷ tree_at prepared.now.program.nodes.items value ∷ []) [] (finish (context_of prepared.now.program) (Target.Call Called.SetIndex)) }
        requires small { value + 1 < 2 ^ 32 }
        requires some { stop < self.old.left }
        requires room { length self.old.frames.items < vec_capacity self.old.frames }
        requires nested { IsNested (view_of self.old) }
        ensures goes { IfOk result (λ q. (h : Course) → remaining prepared.now.program (view_of self.old) space.now h ≡ continuing prepared.now.program (view_of self.new) space.now q h self.new.left) }
        ensures nested { IsNested (view_of self.new) }
        ensures within { (clusters : Option Below) → AreReached (reach (length space.now.slots) clusters) (view_of self.old) → AreReached (reach (length space.now.slots) clusters) (view_of self.new) }
        ensures asks { (clusters : Option Below) → AreReached (reach (length space.now.slots) clusters) (view_of self.old) → IfOk result (IsAskedReached (reach (length space.now.slots) clusters)) }
        ensures left { OnOk result (stop ≤ self.new.left) }
        ensures spends { OnOk result (self.new.left < self.old.left) }
        ensures size { IfOk result (λ q. sized q (view_of self.new) ≤ 3 * length self.old.frames.items + 4) }
        ensures err { (t : Table) → IfErr result (λ f. Stands (view_of self.old) (view_of self.new) t t f) }
        ensures fault { IfErr result (λ f. f ≡ Fault.Memory) }
    {
        match self.quick_before(prepared, space, receiver, stop) {
            Some(found) => self.set_found(prepared, space, here, found, index, value, stop),
            None => {
                self.enter_above(Frame::Element(index, value + 1), receiver);
                self.left -= 1;
                Ok(None)
            }
        }
    }

    /// Evaluates a call of a receiver: one step, and those of the receiver and of the first arguments where they need no frame and the
    /// steps do not stop before.
    pub fn visit_send(
        &mut self,
        prepared: &Prepared,
        space: &Space,
        here: NodeId,
        node: Node,
        stop: u64,
    ) -> Result<Option<Request>, Fault>
        requires control { self.old.control ≡ Control.Enter here }
        requires tree { tree_at prepared.now.program.nodes.items here ≡ evaluated_tree prepared.now.program.nodes.items node }
        requires evaluated { IsEvaluated node }
        requires send { IsSendNode node }
        requires some { stop < self.old.left }
        requires room { length self.old.frames.items < vec_capacity self.old.frames }
        requires nested { IsNested (view_of self.old) }
        ensures goes { IfOk result (λ q. (h : Course) → remaining prepared.now.program (view_of self.old) space.now h ≡ continuing prepared.now.program (view_of self.new) space.now q h self.new.left) }
        ensures nested { IsNested (view_of self.new) }
        ensures within { (clusters : Option Below) → AreReached (reach (length space.now.slots) clusters) (view_of self.old) → AreReached (reach (length space.now.slots) clusters) (view_of self.new) }
        ensures asks { (clusters : Option Below) → AreReached (reach (length space.now.slots) clusters) (view_of self.old) → IfOk result (IsAskedReached (reach (length space.now.slots) clusters)) }
        ensures left { OnOk result (stop ≤ self.new.left) }
        ensures spends { OnOk result (self.new.left < self.old.left) }
        ensures size { IfOk result (λ q. sized q (view_of self.new) ≤ 3 * length self.old.frames.items + 4) }
        ensures err { (t : Table) → IfErr result (λ f. Stands (view_of self.old) (view_of self.new) t t f) }
        ensures fault { IfErr result (λ f. f ≡ Fault.Memory) }
    {
        match node {
            Node::Send {
                receiver,
                name,
                first,
                count,
                ..
            } => {
                let callee = Callee::Name(name);
                let end = first + count;
                self.call_sent(prepared, space, here, callee, receiver, end, count, stop)
            }
            Node::Index(a, b) => {
                self.call_pair(prepared, space, here, Callee::Index, a, b, stop)
            }
            Node::Append(a, b) => {
                self.call_pair(prepared, space, here, Callee::Append, a, b, stop)
            }
            Node::SetAttribute {
                receiver,
                name,
                value,
                ..
            } => {
                let callee = Callee::Setter(name);
                self.call_pair(prepared, space, here, callee, receiver, value, stop)
            }
            Node::SetIndex {
                receiver,
                index,
                value,
            } => self.set_element(prepared, space, here, receiver, index, value, stop),
            _ => unreachable!(),
        }
    }
    /// Evaluates a node that needs the objects or memory, or that calls a receiver: one step, and those of the parts that come first and
    /// need no frame, as long as the steps do not stop before.
    #[inline(never)]
    pub fn visit_node(
        &mut self,
        prepared: &Prepared,
        space: &mut Space,
        here: NodeId,
        node: Node,
        stop: u64,
    ) -> Result<Option<Request>, Fault>
        requires control { self.old.control ≡ Control.Enter here }
        requires tree { tree_at prepared.now.program.nodes.items here ≡ evaluated_tree prepared.now.program.nodes.items node }
        requires evaluated { IsEvaluated node }
        requires rare { (IsSendNode node → ⊥) → IsRareNode node }
        requires some { stop < self.old.left }
        requires room { length self.old.frames.items < vec_capacity self.old.frames }
        requires nested { IsNested (view_of self.old) }
        requires within { AreWithin (length space.old.slots) (view_of self.old) }
        ensures goes { IfOk result (λ q. (h : Course) → remaining prepared.now.program (view_of self.old) space.old h ≡ continuing prepared.now.program (view_of self.new) space.new q h self.new.left) }
        ensures nested { IsNested (view_of self.new) }
        ensures within { KeepsReach (view_of self.old) space.old (view_of self.new) space.new }
        ensures read { KeepsRead (view_of self.old) space.old space.new }
        ensures asks { (clusters : Option Below) → AreReached (reach (length space.old.slots) clusters) (view_of self.old) → IfOk result (IsAskedReached (reach (length space.new.slots) clusters)) }
        ensures left { OnOk result (stop ≤ self.new.left) }
        ensures spends { OnOk result (self.new.left < self.old.left) }
        ensures size { IfOk result (λ q. sized q (view_of self.new) ≤ size (view_of self.old) + 7) }
        ensures err { IfErr result (λ f. Stands (view_of self.old) (view_of self.new) space.old space.new f) }
        ensures limit { space.new.limit ≡ space.old.limit }
        ensures changed { Changes space.old space.new }
        ensures full { IfErr result (λ f. (h : Course) → Adds h.world → Passes f space.old.limit (objects_of (remaining prepared.now.program (view_of self.old) space.old h))) }
    {
        match node {
            Node::Send { .. }
            | Node::Index(_, _)
            | Node::Append(_, _)
            | Node::SetAttribute { .. }
            | Node::SetIndex { .. } => self.visit_send(prepared, space, here, node, stop),
            Node::WithBlock(call, block) => {
                self.visit_block(prepared, space, here, node, call, block, stop)
            }
            _ => self.visit_rare(prepared, space, here, node),
        }
    }
}
