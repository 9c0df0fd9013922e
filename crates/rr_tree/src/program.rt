//! A program, as its parser made it.

ghost use Rattle.std.specs.Prelude.{◌≡◌, slice_index_or};
ghost use Rattle.rr_tree.specs.Tree.{tree_at, HasPartsBefore, IsOrdered};
ghost use Rattle.rr_tree.specs.Nodes.{node_tree};
ghost use Rattle.rr_tree.specs.Order.{IsOrdered-prop};

use crate::class::Class;
use crate::node::{Node, NodeId};

/// A program.
#[derive(Drop)]
pub struct Program {
    /// Each node stands after its parts.
    pub nodes: Vec<Node>,
    /// The node of the program's statements.
    pub root: NodeId,
    /// The nodes of its definitions, classes and methods outside of classes, in the order in which they stand in the source.
    pub definitions: Vec<NodeId>,
    /// The bytes of each name, by its `Sym`.
    pub symbols: Vec<Vec<u8>>,
    /// The bytes of each text literal.
    pub texts: Vec<Vec<u8>>,
    /// Whether text literals without parts that are evaluated are frozen.
    pub freezes: bool,
    /// The classes of the program, in the order in which they first stand in the source.
    pub classes: Vec<Class>,
    /// How many calls are numbered.
    pub sites: u32,
    ghost ordered: { IsOrdered nodes.items } by { IsOrdered-prop nodes.items },
}

impl Program {
    #[inline(always)]
    fn entry(&self, id: NodeId) -> Node
        ensures { result ≡ slice_index_or self.now.nodes.items id Node.Nil }
    {
        match self.nodes.get(id as usize) {
            Some(node) => *node,
            None => Node::Nil,
        }
    }

    /// The node with a number; nil where there is none.
    #[inline(always)]
    pub fn node(&self, id: NodeId) -> Node
        ensures node { result ≡ slice_index_or self.now.nodes.items id Node.Nil }
        // Its tree is made of its parts' trees.
        ensures tree { tree_at self.now.nodes.items id ≡ node_tree self.now.nodes.items result }
        ensures parts { HasPartsBefore id result }
    {
        self.entry(id)
    }
}
