//! Nodes that are usual and wait for one part: what they do needs neither memory nor the objects.

ghost use Rattle.std.specs.Prelude.{◌≡◌, ◌+◌, ◌<◌, ◌≤◌, [], length, vec_capacity, IsTrue, Option};
ghost use Rattle.rr_space.specs.Tables.{Table, Below};
ghost use Rattle.rr_tree.specs.Tree.{tree_at};
ghost use Rattle.rr_tree.specs.declared.node.Node.{Node};
ghost use Rattle.rr_eval.specs.declared.frame.Control.{Control};
ghost use Rattle.rr_eval.specs.declared.frame.Frame.{Frame};
ghost use Rattle.rr_eval.specs.Frames.{resumed};
ghost use Rattle.rr_eval.specs.Nodes.{evaluated_tree, IsEvaluated};
ghost use Rattle.rr_eval.specs.Requests.{Course};
ghost use Rattle.rr_eval.specs.Rules.{rule};
ghost use Rattle.rr_eval.specs.Script.{Go, Ret, World};
ghost use Rattle.rr_eval.specs.Turns.{context_of, code_of, IsNested, remaining, power, size};
ghost use Rattle.rr_eval.specs.Views.{view_of};
ghost use Rattle.rr_eval.specs.Within.{Reach, reach, AreReached};

use crate::engine::Engine;
use crate::frame::{Control, Frame};
use crate::nodes::node_at;
use crate::prepared::Prepared;
use rr_base::Sym;
use rr_space::Space;
use rr_tree::{Node, NodeId, Program};

impl Engine {
    /// Evaluates the statements of a block.
    #[inline(always)]
    fn visit_body(&mut self, program: &Program, here: NodeId, body: NodeId, stop: u64)
        requires control { self.old.control ≡ Control.Enter here }
        requires script { rule (context_of program.now) (tree_at program.now.nodes.items here) ≡ Go (tree_at program.now.nodes.items body) Ret }
        requires some { stop < self.old.left }
        requires nested { IsNested (view_of self.old) }
        ensures goes { (t : Table) (h : Course) → remaining program.now (view_of self.old) t h ≡ remaining program.now (view_of self.new) t h }
        ensures nested { IsNested (view_of self.new) }
        ensures within { (k : Reach) → AreReached k (view_of self.old) → AreReached k (view_of self.new) }
        ensures left { stop ≤ self.new.left }
        ensures spends { self.new.left < self.old.left }
        ensures less { size (view_of self.new) ≤ size (view_of self.old) }
        ensures falls { power (view_of self.new) + self.old.left ≤ power (view_of self.old) + self.new.left }
    {
        self.control.enter(body);
        self.left -= 1;
    }

    /// Evaluates the statements of a block at once, where a block comes next and the steps do not stop before.
    #[inline(always)]
    fn enter_statement_list(&mut self, program: &Program, stop: u64)
        requires within { stop ≤ self.old.left }
        requires nested { IsNested (view_of self.old) }
        ensures goes { (t : Table) (h : Course) → remaining program.now (view_of self.old) t h ≡ remaining program.now (view_of self.new) t h }
        ensures nested { IsNested (view_of self.new) }
        ensures within { (k : Reach) → AreReached k (view_of self.old) → AreReached k (view_of self.new) }
        ensures left { stop ≤ self.new.left }
        ensures kept { self.new.left ≤ self.old.left }
        ensures less { size (view_of self.new) ≤ size (view_of self.old) }
    {
        if let Control::Enter(here) = self.control
            && self.left > stop
            && let Some(&Node::Block { body, .. }) = node_at(program, here)
        {
            self.visit_body(program, here, body, stop);
        }
    }

    /// Evaluates a statement at once, where it comes next as a list of one and the steps do not stop before.
    #[inline(always)]
    pub fn enter_single(&mut self, program: &Program, stop: u64)
        requires within { stop ≤ self.old.left }
        requires nested { IsNested (view_of self.old) }
        ensures goes { (t : Table) (h : Course) → remaining program.now (view_of self.old) t h ≡ remaining program.now (view_of self.new) t h }
        ensures nested { IsNested (view_of self.new) }
        ensures within { (k : Reach) → AreReached k (view_of self.old) → AreReached k (view_of self.new) }
        ensures left { stop ≤ self.new.left }
        ensures kept { self.new.left ≤ self.old.left }
        ensures less { size (view_of self.new) ≤ size (view_of self.old) }
    {
        if let Control::Enter(here) = self.control
            && self.left > stop
            && let Some(&Node::Sequence { first, count: 1 }) = node_at(program, here)
        {
            self.visit_body(program, here, first, stop);
        }
    }

    /// Evaluates the statements of a block at once, where a block comes next and the steps do not stop before, and with them the first
    /// of them, where there is no other.
    #[inline(always)]
    pub fn enter_body(&mut self, program: &Program, stop: u64)
        requires within { stop ≤ self.old.left }
        requires nested { IsNested (view_of self.old) }
        ensures goes { (t : Table) (h : Course) → remaining program.now (view_of self.old) t h ≡ remaining program.now (view_of self.new) t h }
        ensures nested { IsNested (view_of self.new) }
        ensures within { (k : Reach) → AreReached k (view_of self.old) → AreReached k (view_of self.new) }
        ensures left { stop ≤ self.new.left }
        ensures kept { self.new.left ≤ self.old.left }
        ensures less { size (view_of self.new) ≤ size (view_of self.old) }
    {
        self.enter_statement_list(program, stop);
        self.enter_single(program, stop);
    }

    /// Evaluates a `return`. It is called, and not compiled in place, for the registers of the acts around it.
    #[inline(never)]
    pub fn visit_return(
        &mut self,
        prepared: &Prepared,
        space: &Space,
        here: NodeId,
        value: NodeId,
        stop: u64,
    )
        requires control { self.old.control ≡ Control.Enter here }
        requires tree { tree_at prepared.now.program.nodes.items here ≡ evaluated_tree prepared.now.program.nodes.items (Node.Return value) }
        requires some { stop < self.old.left }
        requires room { length self.old.frames.items < vec_capacity self.old.frames }
        requires nested { IsNested (view_of self.old) }
        ensures goes { (h : Course) → remaining prepared.now.program (view_of self.old) space.now h ≡ remaining prepared.now.program (view_of self.new) space.now h }
        ensures nested { IsNested (view_of self.new) }
        ensures within { (clusters : Option Below) → AreReached (reach (length space.now.slots) clusters) (view_of self.old) → AreReached (reach (length space.now.slots) clusters) (view_of self.new) }
        ensures left { stop ≤ self.new.left }
        ensures spends { self.new.left < self.old.left }
        ensures falls { power (view_of self.new) + self.old.left ≤ power (view_of self.old) + self.new.left }
    {
        if let Some(found) = self.first_value(prepared, space, here, Frame::Return, value, stop) {
            self.leave_method(found);
        }
    }

    /// Evaluates statements that clauses rescue: the number behind the last clause, how many there are, and what follows where nothing
    /// is raised.
    #[inline(always)]
    fn visit_rescue(
        &mut self,
        program: &Program,
        here: NodeId,
        body: NodeId,
        end: NodeId,
        count: u32,
        otherwise: NodeId,
        stop: u64,
    )
        requires control { self.old.control ≡ Control.Enter here }
        requires script { (w : World) → rule (context_of program.now) (tree_at program.now.nodes.items here) ≡ Go (tree_at program.now.nodes.items body) (resumed (code_of program.now w) (Frame.Rescue end count otherwise) []) }
        requires some { stop < self.old.left }
        requires room { length self.old.frames.items < vec_capacity self.old.frames }
        requires nested { IsNested (view_of self.old) }
        ensures goes { (t : Table) (h : Course) → remaining program.now (view_of self.old) t h ≡ remaining program.now (view_of self.new) t h }
        ensures nested { IsNested (view_of self.new) }
        ensures within { (k : Reach) → AreReached k (view_of self.old) → AreReached k (view_of self.new) }
        ensures left { stop ≤ self.new.left }
        ensures spends { self.new.left < self.old.left }
        ensures falls { power (view_of self.new) + self.old.left ≤ power (view_of self.old) + self.new.left }
    {
        self.enter_above(Frame::Rescue(end, count, otherwise), body);
        self.left -= 1;
    }

    /// Evaluates an instance variable of `self`.
    #[inline(always)]
    pub fn visit_field(
        &mut self,
        program: &Program,
        space: &Space,
        here: NodeId,
        name: Sym,
        stop: u64,
    )
        requires control { self.old.control ≡ Control.Enter here }
        requires tree { tree_at program.now.nodes.items here ≡ evaluated_tree program.now.nodes.items (Node.Field name) }
        requires some { stop < self.old.left }
        requires nested { IsNested (view_of self.old) }
        ensures goes { (h : Course) → remaining program.now (view_of self.old) space.now h ≡ remaining program.now (view_of self.new) space.now h }
        ensures nested { IsNested (view_of self.new) }
        ensures within { (clusters : Option Below) → AreReached (reach (length space.now.slots) clusters) (view_of self.old) → AreReached (reach (length space.now.slots) clusters) (view_of self.new) }
        ensures left { stop ≤ self.new.left }
        ensures spends { self.new.left < self.old.left }
        ensures falls { power (view_of self.new) + self.old.left ≤ power (view_of self.old) + self.new.left }
    {
        self.open_field(space, name);
        self.left -= 1;
    }

    /// Evaluates what is assigned to an instance variable of `self`, where it needs a frame: it answers whether it was done. Of another
    /// value the assignment is asked for at once.
    #[inline(always)]
    pub fn visit_set_field(
        &mut self,
        prepared: &Prepared,
        here: NodeId,
        name: Sym,
        value: NodeId,
        stop: u64,
    ) -> bool
        requires control { self.old.control ≡ Control.Enter here }
        requires tree { tree_at prepared.now.program.nodes.items here ≡ evaluated_tree prepared.now.program.nodes.items (Node.SetField name value) }
        requires some { stop < self.old.left }
        requires room { length self.old.frames.items < vec_capacity self.old.frames }
        requires nested { IsNested (view_of self.old) }
        ensures goes { (t : Table) (h : Course) → remaining prepared.now.program (view_of self.old) t h ≡ remaining prepared.now.program (view_of self.new) t h }
        ensures nested { IsNested (view_of self.new) }
        ensures within { (k : Reach) → AreReached k (view_of self.old) → AreReached k (view_of self.new) }
        ensures left { stop ≤ self.new.left }
        ensures kept { self.new.left ≤ self.old.left }
        ensures spends { IsTrue result → self.new.left < self.old.left }
        ensures falls { power (view_of self.new) + self.old.left ≤ power (view_of self.old) + self.new.left }
    {
        if prepared.is_simple(value) {
            return false;
        }
        self.enter_above(Frame::SetField(name), value);
        self.left -= 1;
        true
    }

    /// Evaluates a node that waits for one part, or a node of another kind, where that is usual: it answers whether it was done.
    #[inline(always)]
    pub fn visit_waiting(
        &mut self,
        prepared: &Prepared,
        space: &Space,
        here: NodeId,
        node: &Node,
        stop: u64,
    ) -> bool
        requires control { self.old.control ≡ Control.Enter here }
        requires tree { tree_at prepared.now.program.nodes.items here ≡ evaluated_tree prepared.now.program.nodes.items node.now }
        requires evaluated { IsEvaluated node.now }
        requires some { stop < self.old.left }
        requires room { length self.old.frames.items < vec_capacity self.old.frames }
        requires nested { IsNested (view_of self.old) }
        ensures goes { (h : Course) → remaining prepared.now.program (view_of self.old) space.now h ≡ remaining prepared.now.program (view_of self.new) space.now h }
        ensures nested { IsNested (view_of self.new) }
        ensures within { (clusters : Option Below) → AreReached (reach (length space.now.slots) clusters) (view_of self.old) → AreReached (reach (length space.now.slots) clusters) (view_of self.new) }
        ensures left { stop ≤ self.new.left }
        ensures kept { self.new.left ≤ self.old.left }
        ensures spends { IsTrue result → self.new.left < self.old.left }
        ensures falls { power (view_of self.new) + self.old.left ≤ power (view_of self.old) + self.new.left }
    {
        if let &Node::Block { body, .. } = node {
            self.visit_body(&prepared.program, here, body, stop);
            return true;
        }
        if let &Node::Rescue {
            body,
            first,
            count,
            otherwise,
        } = node
        {
            let program = &prepared.program;
            let end = first + count;
            self.visit_rescue(program, here, body, end, count, otherwise, stop);
            return true;
        }
        match node {
            &Node::Index(_, _)
            | &Node::Append(_, _)
            | &Node::SetIndex { .. }
            | &Node::SetAttribute { .. }
            | &Node::Text(_)
            | &Node::Array { .. }
            | &Node::Interpolation { .. }
            | &Node::Hash { .. } => false,
            _ => self.visit_apart(prepared, space, here, stop),
        }
    }
}
