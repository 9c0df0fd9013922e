//! The search through a block.

ghost use Rattle.std.specs.Prelude.{◌≡◌, ◌+◌, ◌^◌, ◌<◌, ◌≤◌, ◌++◌, ℕ, List, ◌↔◌, IfErr, IfOk, IsTrue, OnOk, option_to_list};
ghost use Rattle.std.specs.List.{range_with_len};
ghost use Rattle.rr_tree.specs.Tree.{tree_at, HasPartsBefore};
ghost use Rattle.rr_tree.specs.Nodes.{node_tree, IsNoItem};
ghost use Rattle.rr_tree.specs.declared.node.Node.{Node};
ghost use Rattle.rr_isolation.specs.Parts.{opened};
ghost use Rattle.rr_isolation.specs.Outer.{IsBlock};
ghost use Rattle.rr_isolation.specs.Numbers.{numbers, spots};
ghost use Rattle.rr_isolation.specs.Finds.{Describes};

use crate::found::Found;
use crate::parts::PartNumbers;
use rr_base::Fault;
use rr_tree::{BlockId, Node, NodeId, Program};
use std::alloc::Global;

/// A node, and how many blocks stand round it.
#[derive(Clone, Copy, Drop)]
pub(crate) struct Spot {
    pub(crate) node: NodeId,
    pub(crate) blocks: u32,
}

/// Puts a part of a node behind what is left to look at.
fn push_part(pending: &mut Vec<Spot>, part: Option<NodeId>, blocks: u32) -> Result<(), Fault>
    ensures items { OnOk result (pending.new.items ≡ pending.old.items ++ spots blocks (option_to_list part)) }
    ensures fault { IfErr result (λ e. e ≡ Fault.Memory) }
{
    if let Some(node) = part {
        pending.push(Spot { node, blocks })?;
    }
    Ok(())
}

/// Puts the items of a list behind what is left to look at.
fn push_items(pending: &mut Vec<Spot>, first: NodeId, count: u32, blocks: u32) -> Result<(), Fault>
    requires { first + count < 2 ^ 32 }
    ensures items { OnOk result (pending.new.items ≡ pending.old.items ++ spots blocks (range_with_len first count)) }
    ensures fault { IfErr result (λ e. e ≡ Fault.Memory) }
{
    for node in first..first + count {
        pending.push(Spot { node, blocks })?;
    }
    Ok(())
}

/// Puts the parts of a node behind what is left to look at.
fn push_parts(pending: &mut Vec<Spot>, parts: PartNumbers, blocks: u32) -> Result<(), Fault>
    requires { parts.first + parts.count < 2 ^ 32 }
    ensures items { OnOk result (pending.new.items ≡ pending.old.items ++ spots blocks (numbers parts)) }
    ensures fault { IfErr result (λ e. e ≡ Fault.Memory) }
{
    push_part(pending, parts.one, blocks)?;
    push_part(pending, parts.two, blocks)?;
    push_part(pending, parts.three, blocks)?;
    push_items(pending, parts.first, parts.count, blocks)
}

/// How many blocks stand round the parts of the node at a spot.
fn blocks_inside(spot: Spot, node: Node) -> u32
    requires parts { HasPartsBefore spot.node node }
    requires fits { spot.node + spot.blocks < 2 ^ 32 }
    ensures most { result ≤ spot.blocks + 1 }
    ensures item { (a : ℕ) → node ≡ Node.Item a → result ≡ spot.blocks }
    ensures opened { (ns : List Node) → IsNoItem node → result ≡ opened (node_tree ns node) + spot.blocks }
{
    match node {
        Node::Block { .. } => spot.blocks + 1,
        _ => spot.blocks,
    }
}

/// Whether a node other than an item of a list is a block.
fn is_block_node(node: Node) -> bool
    ensures { (ns : List Node) → IsNoItem node → IsTrue result ↔ IsBlock (node_tree ns node) }
{
    matches!(node, Node::Block { .. })
}

/// Whether a number is that of a block, or of an item that stands for one.
fn is_block(program: &Program, id: NodeId) -> bool
    ensures { IsTrue result ↔ IsBlock (tree_at program.now.nodes.items id) }
{
    let mut here = id;
    while let Node::Item(part) = program.node(here) {
        here = part;
    }
    is_block_node(program.node(here))
}

/// What the trees in a block tell, the block's own included.
fn look_through(alloc: Global, program: &Program, block: BlockId) -> Result<Found, Fault>
    ensures all { IfOk result (λ f. IsBlock (tree_at program.now.nodes.items block) → Describes f (tree_at program.now.nodes.items block)) }
    ensures fault { IfErr result (λ e. e ≡ Fault.Memory) }
{
    let mut found = Found::new(alloc);
    let mut pending = Vec::new(alloc);
    pending.push(Spot {
        node: block,
        blocks: 0,
    })?;
    while let Some(spot) = pending.pop() {
        let node = program.node(spot.node);
        found.note(node, spot.blocks)?;
        let inside = blocks_inside(spot, node);
        push_parts(&mut pending, PartNumbers::of(node), inside)?;
    }
    Ok(found)
}

/// What a block tells: its outer names, and whether it yields. `Memory` is the only fault.
pub(crate) fn search(alloc: Global, program: &Program, block: BlockId) -> Result<Found, Fault>
    ensures all { IfOk result (λ f. Describes f (tree_at program.now.nodes.items block)) }
    ensures fault { IfErr result (λ e. e ≡ Fault.Memory) }
{
    if is_block(program, block) {
        look_through(alloc, program, block)
    } else {
        Ok(Found::new(alloc))
    }
}
