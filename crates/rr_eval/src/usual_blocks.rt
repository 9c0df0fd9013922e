//! Calls of a receiver with a block whose receiver needs no frame: they begin at once.

ghost use Rattle.std.specs.Prelude.{◌≡◌, ◌+◌, ◌*◌, ◌<◌, ◌≤◌, List, [], ◌∷◌, length, vec_capacity, Option, None, Some, Ok, IfOk, IfErr, IfSome, IsTrue, IsFalse, OnOk};
ghost use Rattle.rr_base.specs.declared.fault.Fault.{Fault};
ghost use Rattle.rr_space.specs.Tables.{Table, Below};
ghost use Rattle.rr_tree.specs.Tree.{Tree, tree_at};
ghost use Rattle.rr_tree.specs.declared.node.Node.{Node as TableNode};
ghost use Rattle.rr_space.specs.declared.refer.Ref.{Ref};
ghost use Rattle.rr_eval.specs.declared.call.Callee.{Callee as Called};
ghost use Rattle.rr_eval.specs.declared.frame.Control.{Control};
ghost use Rattle.rr_eval.specs.Acts.{Passes};
ghost use Rattle.rr_eval.specs.Changes.{Changes};
ghost use Rattle.rr_eval.specs.Context.{Context};
ghost use Rattle.rr_eval.specs.Dispatch.{method_for, iteration_of};
ghost use Rattle.rr_eval.specs.Iterating.{beginning, kept, stand_of_first};
ghost use Rattle.rr_eval.specs.Nodes.{evaluated_tree};
ghost use Rattle.rr_eval.specs.Requests.{Course, Adds};
ghost use Rattle.rr_eval.specs.Rules.{rule, finish, with_value, block_rule, sent_block};
ghost use Rattle.rr_eval.specs.Script.{objects_of};
ghost use Rattle.rr_eval.specs.Turns.{context_of, IsNested, remaining, continuing, Stands, size, sized};
ghost use Rattle.rr_eval.specs.Usual.{ComesTo};
ghost use Rattle.rr_eval.specs.Views.{view_of};
ghost use Rattle.rr_eval.specs.Within.{reach, IsReached, AreReached, AreWithin, IsAskedReached, KeepsReach, KeepsRead};

use crate::call::{Callee, Target};
use crate::engine::Engine;
use crate::frame::Frame;
use crate::iterating::{Iterating, Visits, beginning};
use crate::prepared::Prepared;
use crate::request::Request;
use crate::usual::Quick;
use crate::usual_rounds::ahead_often;
use rr_base::{Fault, Sym};
use rr_space::{Ref, Space};
use rr_tree::{Node, NodeId};

impl Prepared {
    /// The receiver and the name of a call without arguments.
    #[inline(always)]
    fn bare_send(&self, call: NodeId) -> Option<(NodeId, Sym)>
        ensures { IfSome result (λ send. (c : Context) (b : Tree) → block_rule c (tree_at self.now.program.nodes.items call) b ≡ with_value (tree_at self.now.program.nodes.items send.0) (λ v. sent_block c send.1 b (v ∷ []))) }
    {
        match self.node(call) {
            Some(
                &Node::Send {
                    receiver,
                    name,
                    count,
                    ..
                },
            ) => match count {
                0 => Some((receiver, name)),
                _ => None,
            },
            _ => None,
        }
    }

    /// What an iteration of this name begins to visit, on a receiver without arguments, where its turns are usual.
    #[inline(always)]
    fn visits_often(&self, space: &Space, name: Sym, receiver: Ref) -> Option<Visits>
        ensures method { IfSome result (λ _. method_for (context_of self.now.program) space.now receiver (Called.Name name) ≡ None) }
        ensures begins { IfSome result (λ visits. beginning name (iteration_of (context_of self.now.program) (Called.Name name)) (receiver ∷ []) space.now ≡ Ok visits) }
        ensures first { IfSome result (λ visits. (vs : List Ref) (t : Table) → stand_of_first visits vs t ≡ Some vs) }
        ensures keeps { IfSome result (λ visits. (v : Ref) → kept visits v (receiver ∷ []) space.now ≡ Ok None) }
    {
        if self
            .method_for(space, receiver, Callee::Name(name))
            .is_some()
        {
            return None;
        }
        let Ok(visits) = beginning(space, name, self.iteration(name), &[receiver]) else {
            return None;
        };
        match ahead_often(space, visits, &[receiver]) {
            Some(_) => Some(visits),
            None => None,
        }
    }
}

impl Engine {
    /// Calls a receiver that is evaluated at once with a block and no arguments: one step, and those of the receiver.
    fn call_with_block(
        &mut self,
        prepared: &Prepared,
        space: &Space,
        here: NodeId,
        name: Sym,
        block: NodeId,
        found: Quick,
        stop: u64,
    ) -> Result<Option<Request>, Fault>
        requires control { self.old.control ≡ Control.Enter here }
        requires comes { ComesTo prepared.now.program (view_of self.old) space.now (rule (context_of prepared.now.program) (tree_at prepared.now.program.nodes.items here)) found.steps (finish (context_of prepared.now.program) (Target.Iterate name block) (found.value ∷ [])) }
        requires enough { stop + found.steps < self.old.left }
        requires value { (clusters : Option Below) → AreReached (reach (length space.now.slots) clusters) (view_of self.old) → IsReached (reach (length space.now.slots) clusters) found.value }
        requires room { length self.old.frames.items < vec_capacity self.old.frames }
        requires nested { IsNested (view_of self.old) }
        ensures goes { IfOk result (λ q. (h : Course) → remaining prepared.now.program (view_of self.old) space.now h ≡ continuing prepared.now.program (view_of self.new) space.now q h self.new.left) }
        ensures nested { IsNested (view_of self.new) }
        ensures within { (clusters : Option Below) → AreReached (reach (length space.now.slots) clusters) (view_of self.old) → AreReached (reach (length space.now.slots) clusters) (view_of self.new) }
        ensures asks { (clusters : Option Below) → AreReached (reach (length space.now.slots) clusters) (view_of self.old) → IfOk result (IsAskedReached (reach (length space.now.slots) clusters)) }
        ensures left { OnOk result (stop ≤ self.new.left) }
        ensures spends { OnOk result (self.new.left < self.old.left) }
        ensures size { IfOk result (λ q. sized q (view_of self.new) ≤ 3 * length self.old.frames.items + 4) }
        ensures err { (t : Table) → IfErr result (λ f. Stands (view_of self.old) (view_of self.new) t t f) }
        ensures fault { IfErr result (λ f. f ≡ Fault.Memory) }
    {
        let frame = Frame::Argument(Target::Iterate(name, block), 0, 0, self.held.len());
        match self.send_block(prepared, space, name, block, frame, found.value) {
            Ok(request) => {
                self.left = self.left - found.steps - 1;
                Ok(request)
            }
            Err(fault) => Err(fault),
        }
    }

    /// Begins an iteration whose turns are usual and may need no frame, where it takes no memory: it answers whether it did.
    #[tactic(auto, unfolding(crate::specs::Within::AreReached))]
    #[inline(always)]
    fn start_turns(
        &mut self,
        prepared: &Prepared,
        space: &Space,
        here: NodeId,
        name: Sym,
        block: NodeId,
        found: Quick,
        stop: u64,
    ) -> bool
        requires control { self.old.control ≡ Control.Enter here }
        requires comes { ComesTo prepared.now.program (view_of self.old) space.now (rule (context_of prepared.now.program) (tree_at prepared.now.program.nodes.items here)) found.steps (finish (context_of prepared.now.program) (Target.Iterate name block) (found.value ∷ [])) }
        requires enough { stop + found.steps < self.old.left }
        requires value { (clusters : Option Below) → AreReached (reach (length space.now.slots) clusters) (view_of self.old) → IsReached (reach (length space.now.slots) clusters) found.value }
        requires room { length self.old.frames.items < vec_capacity self.old.frames }
        requires nested { IsNested (view_of self.old) }
        ensures goes { IsTrue result → (h : Course) → remaining prepared.now.program (view_of self.old) space.now h ≡ remaining prepared.now.program (view_of self.new) space.now h }
        ensures nested { IsNested (view_of self.new) }
        ensures within { (clusters : Option Below) → AreReached (reach (length space.now.slots) clusters) (view_of self.old) → AreReached (reach (length space.now.slots) clusters) (view_of self.new) }
        ensures left { IsTrue result → stop ≤ self.new.left }
        ensures spends { IsTrue result → self.new.left < self.old.left }
        ensures size { IsTrue result → size (view_of self.new) ≤ 3 * length self.old.frames.items + 5 }
        ensures same { IsFalse result → self.new ≡ self.old }
    {
        if self.held.len() >= self.held.capacity() || prepared.straight_from(block).is_none() {
            return false;
        }
        let Some(visits) = prepared.visits_often(space, name, found.value) else {
            return false;
        };
        let base = self.held.len();
        self.held.push_reserved(found.value);
        self.left = self.left - found.steps - 1;
        let iteration = Iterating {
            visits,
            block,
            base,
        };
        self.go_on_often(prepared, space, iteration, Ref::Nil, stop);
        true
    }

    /// Calls a receiver that is evaluated at once with a block and no arguments: one step, those of the receiver, and those of turns that
    /// need no frame.
    fn begin_with_block(
        &mut self,
        prepared: &Prepared,
        space: &Space,
        here: NodeId,
        name: Sym,
        block: NodeId,
        found: Quick,
        stop: u64,
    ) -> Result<Option<Request>, Fault>
        requires control { self.old.control ≡ Control.Enter here }
        requires comes { ComesTo prepared.now.program (view_of self.old) space.now (rule (context_of prepared.now.program) (tree_at prepared.now.program.nodes.items here)) found.steps (finish (context_of prepared.now.program) (Target.Iterate name block) (found.value ∷ [])) }
        requires enough { stop + found.steps < self.old.left }
        requires value { (clusters : Option Below) → AreReached (reach (length space.now.slots) clusters) (view_of self.old) → IsReached (reach (length space.now.slots) clusters) found.value }
        requires room { length self.old.frames.items < vec_capacity self.old.frames }
        requires nested { IsNested (view_of self.old) }
        ensures goes { IfOk result (λ q. (h : Course) → remaining prepared.now.program (view_of self.old) space.now h ≡ continuing prepared.now.program (view_of self.new) space.now q h self.new.left) }
        ensures nested { IsNested (view_of self.new) }
        ensures within { (clusters : Option Below) → AreReached (reach (length space.now.slots) clusters) (view_of self.old) → AreReached (reach (length space.now.slots) clusters) (view_of self.new) }
        ensures asks { (clusters : Option Below) → AreReached (reach (length space.now.slots) clusters) (view_of self.old) → IfOk result (IsAskedReached (reach (length space.now.slots) clusters)) }
        ensures left { OnOk result (stop ≤ self.new.left) }
        ensures spends { OnOk result (self.new.left < self.old.left) }
        ensures size { IfOk result (λ q. sized q (view_of self.new) ≤ 3 * length self.old.frames.items + 5) }
        ensures err { (t : Table) → IfErr result (λ f. Stands (view_of self.old) (view_of self.new) t t f) }
        ensures fault { IfErr result (λ f. f ≡ Fault.Memory) }
    {
        if self.start_turns(prepared, space, here, name, block, found, stop) {
            return Ok(None);
        }
        self.call_with_block(prepared, space, here, name, block, found, stop)
    }

    /// Evaluates a call with a block: one step, and those of a receiver that needs no frame where there are no arguments and the steps do
    /// not stop before.
    pub fn visit_block(
        &mut self,
        prepared: &Prepared,
        space: &mut Space,
        here: NodeId,
        node: Node,
        call: NodeId,
        block: NodeId,
        stop: u64,
    ) -> Result<Option<Request>, Fault>
        requires node { node ≡ TableNode.WithBlock call block }
        requires control { self.old.control ≡ Control.Enter here }
        requires tree { tree_at prepared.now.program.nodes.items here ≡ evaluated_tree prepared.now.program.nodes.items node }
        requires some { stop < self.old.left }
        requires room { length self.old.frames.items < vec_capacity self.old.frames }
        requires nested { IsNested (view_of self.old) }
        requires within { AreWithin (length space.old.slots) (view_of self.old) }
        ensures goes { IfOk result (λ q. (h : Course) → remaining prepared.now.program (view_of self.old) space.old h ≡ continuing prepared.now.program (view_of self.new) space.new q h self.new.left) }
        ensures nested { IsNested (view_of self.new) }
        ensures within { KeepsReach (view_of self.old) space.old (view_of self.new) space.new }
        ensures read { KeepsRead (view_of self.old) space.old space.new }
        ensures asks { (clusters : Option Below) → AreReached (reach (length space.old.slots) clusters) (view_of self.old) → IfOk result (IsAskedReached (reach (length space.new.slots) clusters)) }
        ensures left { OnOk result (stop ≤ self.new.left) }
        ensures spends { OnOk result (self.new.left < self.old.left) }
        ensures size { IfOk result (λ q. sized q (view_of self.new) ≤ size (view_of self.old) + 7) }
        ensures err { IfErr result (λ f. Stands (view_of self.old) (view_of self.new) space.old space.new f) }
        ensures limit { space.new.limit ≡ space.old.limit }
        ensures changed { Changes space.old space.new }
        ensures full { IfErr result (λ f. (h : Course) → Adds h.world → Passes f space.old.limit (objects_of (remaining prepared.now.program (view_of self.old) space.old h))) }
    {
        let Some((receiver, name)) = prepared.bare_send(call) else {
            return self.visit_rare(prepared, space, here, node);
        };
        match self.quick_before(prepared, space, receiver, stop) {
            Some(found) => self.begin_with_block(prepared, space, here, name, block, found, stop),
            None => self.visit_rare(prepared, space, here, node),
        }
    }
}
