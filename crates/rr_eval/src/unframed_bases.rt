//! Calls of methods that their first statement ends: they are done without a frame.

ghost use Rattle.std.specs.Prelude.{◌≡◌, ◌+◌, ◌<◌, ◌≤◌, [], false, None, length, Option, IfSome, IsTrue};
ghost use Rattle.rr_base.specs.declared.name.Sym.{Sym};
ghost use Rattle.rr_parser.specs.Grammar.Names.{is_splat};
ghost use Rattle.rr_space.specs.Tables.{Table, Below};
ghost use Rattle.rr_tree.specs.Nodes.{trees_before};
ghost use Rattle.rr_tree.specs.Tree.{tree_at};
ghost use Rattle.rr_eval.specs.declared.call.Callee.{Callee};
ghost use Rattle.rr_eval.specs.declared.problem.Answer.{Answer};
ghost use Rattle.rr_eval.specs.BaseCases.{IsBase};
ghost use Rattle.rr_eval.specs.Blocks.{running};
ghost use Rattle.rr_eval.specs.Dispatch.{run_method, way_of};
ghost use Rattle.rr_eval.specs.Prepared.{callable_of};
ghost use Rattle.rr_eval.specs.Script.{Ret};
ghost use Rattle.rr_eval.specs.Turns.{context_of};
ghost use Rattle.rr_eval.specs.Usual.{ComesTo};
ghost use Rattle.rr_eval.specs.Views.{view_of};
ghost use Rattle.rr_eval.specs.Within.{Reach, IsReached};

use crate::base_cases::BaseCase;
use crate::engine::Engine;
use crate::prepared::{Definition, Prepared};
use crate::unframed_calls::statements_for;
use crate::usual::{Quick, operated};
use rr_builtin::is_truthy;
use rr_space::Ref;
use rr_tree::{Node, NodeId};

/// Whether a choice that ends what is around it stands first among some statements, and ends them: it returns, or stands alone.
#[inline(always)]
fn ends_statements(base: &BaseCase, first: NodeId, count: u32) -> bool
    ensures first { IsTrue result → first ≡ base.now.place }
    ensures some { IsTrue result → 0 < count }
    ensures single { IsTrue result → base.now.returns ≡ false → count ≡ 1 }
{
    match first == base.place {
        true => count == 1 || count > 1 && base.returns,
        false => false,
    }
}

impl Engine {
    /// The value of a method that is called with these arguments on `self`, where the choice with which it begins ends it.
    #[inline(always)]
    pub fn base_value(
        &self,
        prepared: &Prepared,
        definition: &Definition,
        base: &BaseCase,
        values: &[Ref],
    ) -> Option<Quick>
        requires is { IsBase prepared.now.program.nodes.items base.now }
        ensures comes { IfSome result (λ q. (name : Sym) (t : Table) → ComesTo prepared.now.program (view_of self.now) t (run_method (context_of prepared.now.program) (callable_of prepared.now.program.nodes.items definition.now) (way_of (Callee.Name name) None (running self.now.calls.frames).itself values.now) values.now) q.steps (Ret (Answer.Gave q.value))) }
        ensures few { IfSome result (λ q. q.steps ≤ 10) }
        ensures within { (k : Reach) → IfSome result (λ q. IsReached k q.value) }
    {
        let argument = *values.get(base.parameter as usize)?;
        let tested = operated(base.op, argument, Ref::Int(base.integer))?;
        if !is_truthy(tested) {
            return None;
        }
        let body = statements_for(definition, values.len())?;
        let Some(&Node::Sequence { first, count }) = prepared.node(body.node) else {
            return None;
        };
        if !ends_statements(base, first, count) {
            return None;
        }
        let home = self.calls.next_number()?;
        let found = self.operand_unframed(prepared, values, home, base.value)?;
        Some(Quick {
            value: found.value,
            steps: found.steps + base.steps + 4,
        })
    }
}
