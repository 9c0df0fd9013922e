//! Calls of methods on `self` that are chains: the operators of the method are evaluated on the arguments, without its frame.

ghost use Rattle.std.specs.Prelude.{◌≡◌, ◌+◌, ◌*◌, ◌<◌, ◌≤◌, ℕ, List, true, false, length, Option, IfSome, IsTrue};
ghost use Rattle.rr_parser.specs.Grammar.Names.{is_splat};
ghost use Rattle.rr_space.specs.Tables.{Below};
ghost use Rattle.rr_tree.specs.Tree.{Tree, binary, tree_at};
ghost use Rattle.rr_eval.specs.Filled.{FillsInside};
ghost use Rattle.rr_eval.specs.SimpleParts.{are_leaves, linked, links_of};
ghost use Rattle.rr_eval.specs.Turns.{leaf_value};
ghost use Rattle.rr_eval.specs.Usual.{TakesNow};
ghost use Rattle.rr_eval.specs.Views.{view_of};
ghost use Rattle.rr_eval.specs.Within.{Reach, reach, IsReached, AreReached};

use crate::chains::{Chain, Link};
use crate::engine::Engine;
use crate::prepared::Prepared;
use crate::simple_parts::{ApartPart, SimplePart};
use crate::unframed_calls::statements_for;
use crate::usual::{Quick, operated};
use rr_space::{Ref, Space};
use rr_tree::{Node, NodeId};

impl Engine {
    /// The value of an integer or of a variable.
    #[inline(always)]
    fn leaf_at(&self, prepared: &Prepared, place: NodeId) -> Option<Ref>
        ensures is { IfSome result (λ v. leaf_value (tree_at prepared.now.program.nodes.items place) self.now.calls.frames ≡ Some v) }
        ensures within { (k : Reach) → AreReached k (view_of self.now) → IfSome result (IsReached k) }
    {
        match prepared.part(place) {
            Some(&SimplePart::Variable(variable)) => Some(self.variable(variable)),
            Some(&SimplePart::Int(z)) => Some(Ref::Int(z)),
            _ => None,
        }
    }

    /// The value of a link behind what has a value.
    #[inline(always)]
    fn fill_link(&self, prepared: &Prepared, found: Quick, link: Link) -> Option<Quick>
        requires few { found.steps ≤ 64 }
        ensures fills { IfSome result (λ q. (trees : List Tree) (home : ℕ) (whole : Tree) → are_leaves trees ≡ true → FillsInside prepared.now.program (view_of self.now) trees home whole found.steps found.value → FillsInside prepared.now.program (view_of self.now) trees home (binary link.op whole (tree_at prepared.now.program.nodes.items link.right)) q.steps q.value) }
        ensures few { IfSome result (λ q. q.steps ≡ found.steps + 2) }
        ensures within { (k : Reach) → IfSome result (λ q. IsReached k q.value) }
    {
        let right = self.leaf_at(prepared, link.right)?;
        Some(Quick {
            value: operated(link.op, found.value, right)?,
            steps: found.steps + 2,
        })
    }

    /// The value of a chain whose operands are leaves.
    #[inline(always)]
    fn fill_chain(&self, prepared: &Prepared, chain: Chain) -> Option<Quick>
        requires short { chain.count ≤ 4 }
        ensures fills { IfSome result (λ q. (trees : List Tree) (home : ℕ) → are_leaves trees ≡ true → FillsInside prepared.now.program (view_of self.now) trees home (linked prepared.now.program (tree_at prepared.now.program.nodes.items chain.first) (links_of prepared.now.simple.links.items chain)) q.steps q.value) }
        ensures few { IfSome result (λ q. q.steps ≤ 9) }
        ensures within { (k : Reach) → AreReached k (view_of self.now) → IfSome result (λ q. IsReached k q.value) }
    {
        let mut links = prepared.links(chain)?;
        let mut found = Quick {
            value: self.leaf_at(prepared, chain.first)?,
            steps: 1,
        };
        while let [link, more @ ..] = links {
            let link = *link;
            links = more;
            found = self.fill_link(prepared, found, link)?;
        }
        Some(found)
    }

    /// The value of a call on `self` that is a chain, where the method runs whose operators it has. It is called, and not compiled in place, for
    /// the registers of what is around it.
    #[cold]
    #[inline(never)]
    pub fn short_call(&self, prepared: &Prepared, space: &Space, place: NodeId) -> Option<Quick>
        ensures takes { IfSome result (λ q. TakesNow prepared.now.program (view_of self.now) space.now (tree_at prepared.now.program.nodes.items place) q.steps q.value) }
        ensures plain { IfSome result (λ _. is_splat (tree_at prepared.now.program.nodes.items place) ≡ false) }
        ensures some { IfSome result (λ q. 0 < q.steps) }
        ensures few { IfSome result (λ q. q.steps ≤ 15) }
        ensures within { (k : Reach) → AreReached k (view_of self.now) → IfSome result (λ q. IsReached k q.value) }
    {
        let Some(&SimplePart::Apart(ApartPart::Call(chain, body))) = prepared.part(place) else {
            return None;
        };
        let Some(&Node::Call { name, count, .. }) = prepared.node(place) else {
            return None;
        };
        let Some(Some(definition)) = prepared.method_of_plain(space, self.itself(), name) else {
            return None;
        };
        let statements = statements_for(definition, count as usize)?;
        if statements.node != body {
            return None;
        }
        self.calls.next_number()?;
        let found = self.fill_chain(prepared, chain)?;
        Some(Quick {
            value: found.value,
            steps: found.steps + count as u64 + 2,
        })
    }
}
