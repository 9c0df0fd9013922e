//! What a search through a block has found.

ghost use Rattle.std.specs.Prelude.{◌≡◌, ◌↔◌, ℕ, ◌+◌, ◌≤◌, ◌⊎◌, List, Some, None, IfErr, IfSome, IfNone, IsTrue, IsFalse, OnOk};
ghost use Rattle.rr_tree.specs.Tree.{Tree};
ghost use Rattle.rr_tree.specs.Nodes.{node_tree, IsNoItem};
ghost use Rattle.rr_tree.specs.declared.node.Node.{Node};
ghost use Rattle.rr_isolation.specs.Outer.{LeadsOut, IsYield};
ghost use Rattle.rr_isolation.specs.Finds.{first_of, Knows, HasUse};

use indexmap::IndexMap;
use rr_base::{Fault, Sym};
use rr_tree::Node;
use std::alloc::Global;

/// What was found.
#[derive(Drop)]
pub(crate) struct Found {
    /// Each outer name, and how many words stand behind its first use.
    pub(crate) first: IndexMap<u32, u32>,
    /// Whether `yield` or `super` was found.
    pub(crate) yields: bool,
}

/// The name and the words behind it, where a node with this many blocks round it uses a variable outside them all.
fn outer_use(node: Node, blocks: u32) -> Option<(Sym, u32)>
    ensures some { IfSome result (λ u. (ns : List Node) → LeadsOut blocks (node_tree ns node) u.0.0 u.1) }
    ensures same { IfSome result (λ u. (ns : List Node) (name behind : ℕ) → LeadsOut blocks (node_tree ns node) name behind → (u.0.0 ≡ name) × (u.1 ≡ behind)) }
    ensures none { IfNone result ((ns : List Node) (name behind : ℕ) → IsNoItem node → LeadsOut blocks (node_tree ns node) name behind → ⊥) }
{
    match node {
        Node::Local {
            depth,
            name,
            behind,
            ..
        }
        | Node::Assign {
            depth,
            name,
            behind,
            ..
        } => (blocks <= depth).then_some((name, behind)),
        _ => None,
    }
}

/// Whether a node is `yield` or `super`.
fn is_yield(node: Node) -> bool
    ensures yes { IsTrue result → (ns : List Node) → IsYield (node_tree ns node) }
    ensures no { IsFalse result → (ns : List Node) → IsNoItem node → IsYield (node_tree ns node) → ⊥ }
{
    matches!(
        node,
        Node::Yield { .. } | Node::Super { .. } | Node::ForwardingSuper
    )
}

impl Found {
    /// Nothing. Takes no memory.
    pub(crate) fn new(alloc: Global) -> Found
        ensures names { (name : ℕ) → first_of result name ≡ None }
        ensures yields { IsFalse result.yields }
    {
        Found {
            first: IndexMap::new(alloc),
            yields: false,
        }
    }

    /// Keeps a use of an outer name, unless the use that is kept stands before it.
    fn keep_use(&mut self, name: Sym, behind: u32) -> Result<(), Fault>
        ensures kept { OnOk result (HasUse self.new name.0 behind) }
        ensures others { OnOk result ((x b : ℕ) → HasUse self.old x b → HasUse self.new x b) }
        ensures nothing_else { (x b : ℕ) → first_of self.new x ≡ Some b → (first_of self.old x ≡ Some b) ⊎ ((name.0 ≡ x) × (behind ≡ b)) }
        ensures yields { self.new.yields ≡ self.old.yields }
        ensures fault { IfErr result (λ e. e ≡ Fault.Memory) }
    {
        if let Some(first) = self.first.get(&name.0) {
            if behind <= *first {
                return Ok(());
            }
        }
        self.first.insert(name.0, behind)?;
        Ok(())
    }

    /// Keeps what a node tells that has this many blocks round it. `Memory` is the only fault.
    pub(crate) fn note(&mut self, node: Node, blocks: u32) -> Result<(), Fault>
        ensures knows { OnOk result ((ns : List Node) → IsNoItem node → Knows self.new blocks (node_tree ns node)) }
        ensures keeps { OnOk result ((k : ℕ) (t : Tree) → Knows self.old k t → Knows self.new k t) }
        ensures names { (x b : ℕ) → first_of self.new x ≡ Some b → (first_of self.old x ≡ Some b) ⊎ ((ns : List Node) → LeadsOut blocks (node_tree ns node) x b) }
        ensures yields { IsTrue self.new.yields → IsTrue self.old.yields ⊎ ((ns : List Node) → IsYield (node_tree ns node)) }
        ensures fault { IfErr result (λ e. e ≡ Fault.Memory) }
    {
        if is_yield(node) {
            self.yields = true;
        }
        match outer_use(node, blocks) {
            Some((name, behind)) => self.keep_use(name, behind),
            None => Ok(()),
        }
    }
}
