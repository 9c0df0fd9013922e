//! Blocks whose statements need no frame.

ghost use Rattle.std.specs.Prelude.{◌≡◌, ◌+◌, ◌<◌, ◌≤◌, ◌^◌, IfSome, IfNone};
ghost use Rattle.rr_tree.specs.Tree.{tree_at};
ghost use Rattle.rr_eval.specs.Unframed.{AsMany, HasStatements, SetsInside};
ghost use Rattle.rr_eval.specs.Views.{view_of};
ghost use Rattle.rr_eval.specs.Within.{Reach, IsReached, AreReached};

use crate::engine::Engine;
use crate::prepared::Prepared;
use crate::usual::Quick;
use rr_space::Ref;
use rr_tree::{Node, NodeId};

/// The statements of a block: where the first one stands, and how many there are.
#[derive(Clone, Copy)]
pub struct Statements {
    pub first: NodeId,
    pub count: u32,
}

impl Prepared {
    /// The statements of the block that stands at a place, where they are a list.
    #[inline(always)]
    pub(crate) fn block_statements(&self, place: NodeId) -> Option<Statements>
        ensures small { IfSome result (λ s. s.first + s.count < 2 ^ 32) }
        ensures has { IfSome result (λ s. HasStatements self.now.program.nodes.items place s.first s.count) }
    {
        let Some(&Node::Block { body, .. }) = self.node(place) else {
            return None;
        };
        let Some(&Node::Sequence { first, count }) = self.node(body) else {
            return None;
        };
        Some(Statements { first, count })
    }
}

impl Engine {
    /// Does a block, which stands at a place and has these statements: all of them or none.
    #[inline(always)]
    pub fn statements_unframed(
        &mut self,
        prepared: &Prepared,
        values: &[Ref],
        home: u32,
        place: NodeId,
        statements: Statements,
    ) -> Option<Quick>
        requires small { statements.first + statements.count < 2 ^ 32 }
        requires has { HasStatements prepared.now.program.nodes.items place statements.first statements.count }
        ensures sets { IfSome result (λ q. SetsInside prepared.now.program (view_of self.old) values.now home (tree_at prepared.now.program.nodes.items place) q.steps q.value (view_of self.new)) }
        ensures some { IfSome result (λ q. 0 < q.steps) }
        ensures few { IfSome result (λ q. q.steps ≤ 168) }
        ensures within { (k : Reach) → AreReached k (view_of self.old) → AreReached k (view_of self.new) }
        ensures value { (k : Reach) → IfSome result (λ q. IsReached k q.value) }
        ensures others { self.new ≡ record self.old { calls = self.new.calls } }
        ensures many { AsMany self.old.calls self.new.calls }
        ensures none { IfNone result (self.new ≡ self.old) }
    {
        let Statements { first, count } = statements;
        let done = self.body_unframed(prepared, values, home, first, count)?;
        Some(Quick {
            value: done.value,
            steps: done.steps + 2,
        })
    }

    /// Does a block, which stands at a place: all its statements or none.
    #[inline(always)]
    pub fn block_unframed(
        &mut self,
        prepared: &Prepared,
        values: &[Ref],
        home: u32,
        place: NodeId,
    ) -> Option<Quick>
        ensures sets { IfSome result (λ q. SetsInside prepared.now.program (view_of self.old) values.now home (tree_at prepared.now.program.nodes.items place) q.steps q.value (view_of self.new)) }
        ensures some { IfSome result (λ q. 0 < q.steps) }
        ensures few { IfSome result (λ q. q.steps ≤ 168) }
        ensures within { (k : Reach) → AreReached k (view_of self.old) → AreReached k (view_of self.new) }
        ensures value { (k : Reach) → IfSome result (λ q. IsReached k q.value) }
        ensures others { self.new ≡ record self.old { calls = self.new.calls } }
        ensures many { AsMany self.old.calls self.new.calls }
        ensures none { IfNone result (self.new ≡ self.old) }
    {
        let statements = prepared.block_statements(place)?;
        self.statements_unframed(prepared, values, home, place, statements)
    }
}
