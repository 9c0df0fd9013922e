//! Calls of methods on `self` that begin with a choice which may end them: what it ends is done at once, and else the choice is passed over.

ghost use Rattle.std.specs.Prelude.{◌≡◌, ◌+◌, ◌*◌, ◌<◌, ◌≤◌, ◌^◌, [], false, length, vec_capacity, Some, IfSome, IsTrue, IsFalse, Option};
ghost use Rattle.rr_parser.specs.Grammar.Names.{is_splat};
ghost use Rattle.rr_builtin.specs.Objects.{is_truthy};
ghost use Rattle.rr_space.specs.Tables.{Table, Below};
ghost use Rattle.rr_space.specs.declared.refer.Ref.{Ref as Value};
ghost use Rattle.rr_tree.specs.Nodes.{trees_before};
ghost use Rattle.rr_tree.specs.Tree.{tree_at};
ghost use Rattle.rr_eval.specs.declared.frame.Control.{Control};
ghost use Rattle.rr_eval.specs.declared.problem.Answer.{Answer};
ghost use Rattle.rr_eval.specs.BaseCases.{IsBase};
ghost use Rattle.rr_eval.specs.Context.{Context};
ghost use Rattle.rr_eval.specs.Nodes.{evaluated_tree};
ghost use Rattle.rr_eval.specs.Prepared.{callable_of};
ghost use Rattle.rr_eval.specs.Requests.{Course};
ghost use Rattle.rr_eval.specs.Rules.{rule, call_rule, own_method, printing, raises, awaited, operation};
ghost use Rattle.rr_eval.specs.Script.{See, Ret};
ghost use Rattle.rr_eval.specs.Turns.{context_of, state_of, IsNested, remaining, power, size};
ghost use Rattle.rr_eval.specs.Usual.{TakesNow};
ghost use Rattle.rr_eval.specs.Variables.{read_variable};
ghost use Rattle.rr_eval.specs.Views.{view_of};
ghost use Rattle.rr_eval.specs.Within.{Reach, reach, IsReached, AreReached};

use crate::base_cases::BaseCase;
use crate::call_stack::Variable;
use crate::engine::Engine;
use crate::frame::Control;
use crate::prepared::{Definition, Prepared};
use crate::usual::{Quick, operated};
use rr_base::Sym;
use rr_builtin::is_truthy;
use rr_space::{Ref, Space};
use rr_tree::{Node, NodeId};

impl Engine {
    /// The value of a call of a method on `self`, with an argument that is evaluated at once, where the choice with which the method begins
    /// ends it.
    #[inline(always)]
    fn called_early(
        &self,
        prepared: &Prepared,
        space: &Space,
        here: NodeId,
        name: Sym,
        first: NodeId,
        definition: &Definition,
        base: &BaseCase,
        found: Quick,
    ) -> Option<Quick>
        requires script { rule (context_of prepared.now.program) (tree_at prepared.now.program.nodes.items here) ≡ See (λ m. call_rule (context_of prepared.now.program) (own_method (context_of prepared.now.program) name.0 m) (printing (context_of prepared.now.program) name.0) (raises (context_of prepared.now.program) name.0) (awaited (context_of prepared.now.program) name.0) name (trees_before prepared.now.program.nodes.items (first + 1) 1)) }
        requires method { (h : Course) → Some (callable_of prepared.now.program.nodes.items definition.now) ≡ own_method (context_of prepared.now.program) name.0 (state_of prepared.now.program (view_of self.now) space.now h).memory }
        requires is { IsBase prepared.now.program.nodes.items base.now }
        requires takes { TakesNow prepared.now.program (view_of self.now) space.now (tree_at prepared.now.program.nodes.items first) found.steps found.value }
        requires plain { is_splat (tree_at prepared.now.program.nodes.items first) ≡ false }
        requires few { found.steps ≤ 31 }
        ensures takes { IfSome result (λ q. TakesNow prepared.now.program (view_of self.now) space.now (tree_at prepared.now.program.nodes.items here) q.steps q.value) }
        ensures some { IfSome result (λ q. 0 < q.steps) }
        ensures few { IfSome result (λ q. q.steps ≤ 42) }
        ensures within { (k : Reach) → IfSome result (λ q. IsReached k q.value) }
    {
        let ended = self.base_value(prepared, definition, base, &[found.value])?;
        Some(Quick {
            value: ended.value,
            steps: ended.steps + found.steps + 1,
        })
    }

    /// Does such a call, where the steps do not stop before what follows it: it answers whether it was done.
    #[inline(always)]
    pub fn call_early(
        &mut self,
        prepared: &Prepared,
        space: &Space,
        here: NodeId,
        name: Sym,
        first: NodeId,
        definition: &Definition,
        base: &BaseCase,
        found: Quick,
        stop: u64,
    ) -> bool
        requires control { self.old.control ≡ Control.Enter here }
        requires script { rule (context_of prepared.now.program) (tree_at prepared.now.program.nodes.items here) ≡ See (λ m. call_rule (context_of prepared.now.program) (own_method (context_of prepared.now.program) name.0 m) (printing (context_of prepared.now.program) name.0) (raises (context_of prepared.now.program) name.0) (awaited (context_of prepared.now.program) name.0) name (trees_before prepared.now.program.nodes.items (first + 1) 1)) }
        requires method { (h : Course) → Some (callable_of prepared.now.program.nodes.items definition.now) ≡ own_method (context_of prepared.now.program) name.0 (state_of prepared.now.program (view_of self.old) space.now h).memory }
        requires is { IsBase prepared.now.program.nodes.items base.now }
        requires takes { TakesNow prepared.now.program (view_of self.old) space.now (tree_at prepared.now.program.nodes.items first) found.steps found.value }
        requires plain { is_splat (tree_at prepared.now.program.nodes.items first) ≡ false }
        requires few { found.steps ≤ 31 }
        requires within { stop ≤ self.old.left }
        requires nested { IsNested (view_of self.old) }
        ensures goes { IsTrue result → (h : Course) → remaining prepared.now.program (view_of self.old) space.now h ≡ remaining prepared.now.program (view_of self.new) space.now h }
        ensures nested { IsNested (view_of self.new) }
        ensures within { (clusters : Option Below) → AreReached (reach (length space.now.slots) clusters) (view_of self.old) → AreReached (reach (length space.now.slots) clusters) (view_of self.new) }
        ensures left { stop ≤ self.new.left }
        ensures spends { IsTrue result → self.new.left < self.old.left }
        ensures falls { power (view_of self.new) + self.old.left ≤ power (view_of self.old) + self.new.left }
        ensures same { IsFalse result → self.new ≡ self.old }
    {
        let Some(ended) = self.called_early(
            prepared, space, here, name, first, definition, base, found,
        ) else {
            return false;
        };
        if self.left - stop <= ended.steps {
            return false;
        }
        self.left -= ended.steps;
        self.control.give(ended.value);
        true
    }

    /// Whether the condition of a choice by a parameter of the method that runs does not hold.
    #[inline(always)]
    fn fails(&self, base: &BaseCase) -> bool
        ensures { IsTrue result → (r : Value) × ((c : Context) → operation c base.now.op (read_variable (record { depth = 0; slot = base.now.parameter }) self.now.calls.frames) (Value.Int base.now.integer) ≡ Ret (Answer.Gave r)) × (is_truthy r ≡ false) }
    {
        let variable = Variable {
            depth: 0,
            slot: base.parameter,
        };
        match operated(base.op, self.variable(variable), Ref::Int(base.integer)) {
            Some(tested) => !is_truthy(tested),
            None => false,
        }
    }

    /// Goes on behind the condition of the choice with which some statements begin, which does not hold.
    #[inline(always)]
    fn pass_base(
        &mut self,
        prepared: &Prepared,
        here: NodeId,
        base: &BaseCase,
        first: NodeId,
        count: u32,
        stop: u64,
    )
        requires control { self.old.control ≡ Control.Enter here }
        requires tree { tree_at prepared.now.program.nodes.items here ≡ evaluated_tree prepared.now.program.nodes.items (Node.Sequence first count) }
        requires small { first + count < 2 ^ 32 }
        requires is { IsBase prepared.now.program.nodes.items base.now }
        requires first { first ≡ base.now.place }
        requires fails { (r : Value) × ((c : Context) → operation c base.now.op (read_variable (record { depth = 0; slot = base.now.parameter }) self.old.calls.frames) (Value.Int base.now.integer) ≡ Ret (Answer.Gave r)) × (is_truthy r ≡ false) }
        requires some { stop + 6 < self.old.left }
        requires room { length self.old.frames.items < vec_capacity self.old.frames }
        requires nested { IsNested (view_of self.old) }
        ensures goes { (t : Table) (h : Course) → remaining prepared.now.program (view_of self.old) t h ≡ remaining prepared.now.program (view_of self.new) t h }
        ensures nested { IsNested (view_of self.new) }
        ensures within { (k : Reach) → AreReached k (view_of self.old) → AreReached k (view_of self.new) }
        ensures left { stop ≤ self.new.left }
        ensures kept { self.new.left ≤ self.old.left }
        ensures falls { power (view_of self.new) + self.old.left ≤ power (view_of self.old) + self.new.left }
    {
        if let None = base.otherwise
            && count > 1
        {
            self.begin_list(first + 1, count - 1);
            self.left -= 6;
            return;
        }
        if let Some(other) = base.otherwise
            && count == 1
        {
            self.control.enter(other);
            self.left -= 5;
            return;
        }
        self.visit_statements(&prepared.program, here, first, count, stop);
    }

    /// Evaluates the statements of a method that begins with a choice by a parameter at once, where a list of them comes next, there is room
    /// for a frame, and the steps do not stop before: from the second one on, where the choice chooses nothing, or its other part.
    #[inline(always)]
    pub fn enter_behind(&mut self, prepared: &Prepared, base: &BaseCase, stop: u64)
        requires is { IsBase prepared.now.program.nodes.items base.now }
        requires within { stop ≤ self.old.left }
        requires nested { IsNested (view_of self.old) }
        ensures goes { (t : Table) (h : Course) → remaining prepared.now.program (view_of self.old) t h ≡ remaining prepared.now.program (view_of self.new) t h }
        ensures nested { IsNested (view_of self.new) }
        ensures within { (k : Reach) → AreReached k (view_of self.old) → AreReached k (view_of self.new) }
        ensures left { stop ≤ self.new.left }
        ensures kept { self.new.left ≤ self.old.left }
        ensures falls { power (view_of self.new) + self.old.left ≤ power (view_of self.old) + self.new.left }
    {
        if let Control::Enter(here) = self.control
            && self.left - stop > 6
            && self.frames.len() < self.frames.capacity()
        {
            if let Some(&Node::Sequence { first, count }) = prepared.node(here) {
                if first == base.place && self.fails(base) {
                    self.pass_base(prepared, here, base, first, count, stop);
                } else {
                    self.visit_statements(&prepared.program, here, first, count, stop);
                }
            }
        }
    }
}
