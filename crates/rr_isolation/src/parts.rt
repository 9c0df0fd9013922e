//! The parts of a node, by number.

ghost use Rattle.std.specs.Prelude.{◌≡◌, ◌+◌, ◌<◌, ◌≤◌, ◌∷◌, [], ℕ, List, length, map, All};
ghost use Rattle.rr_tree.specs.Tree.{tree_at, HasPartsBefore};
ghost use Rattle.rr_tree.specs.Nodes.{node_tree, IsNoItem};
ghost use Rattle.rr_tree.specs.declared.node.Node.{Node};
ghost use Rattle.rr_isolation.specs.Parts.{parts};
ghost use Rattle.rr_isolation.specs.Numbers.{numbers, ArePartsOf, HasList, HasSeveral};

use rr_tree::{Node, NodeId};

/// The numbers of a node's parts: some that stand alone, and those of a list, which stand side by side.
#[derive(Clone, Copy, Drop)]
pub(crate) struct PartNumbers {
    pub(crate) one: Option<NodeId>,
    pub(crate) two: Option<NodeId>,
    pub(crate) three: Option<NodeId>,
    pub(crate) first: NodeId,
    pub(crate) count: u32,
}

impl PartNumbers {
    fn alone(one: Option<NodeId>, two: Option<NodeId>, three: Option<NodeId>) -> PartNumbers
        ensures { result ≡ record { one = one; two = two; three = three; first = 0; count = 0 } }
    {
        PartNumbers {
            one,
            two,
            three,
            first: 0,
            count: 0,
        }
    }

    fn list(one: Option<NodeId>, two: Option<NodeId>, first: NodeId, count: u32) -> PartNumbers
        ensures { result ≡ record { one = one; two = two; three = None; first = first; count = count } }
    {
        PartNumbers {
            one,
            two,
            three: None,
            first,
            count,
        }
    }

    /// The parts of a node that has a list.
    #[tactic(auto, using(crate::proofs::Tables::listed_parts, crate::proofs::Tables::range_below))]
    fn listed(node: Node) -> PartNumbers
        ensures { HasList node → ArePartsOf node result }
    {
        match node {
            Node::Array { first, count }
            | Node::Hash { first, count }
            | Node::Pairs { first, count }
            | Node::Interpolation { first, count }
            | Node::Sequence { first, count }
            | Node::Call { first, count, .. }
            | Node::Super { first, count }
            | Node::Yield { first, count } => PartNumbers::list(None, None, first, count),
            Node::Send {
                receiver: a,
                first,
                count,
                ..
            }
            | Node::MultipleAssign {
                first,
                count,
                value: a,
            } => PartNumbers::list(Some(a), None, first, count),
            Node::Rescue {
                body: a,
                first,
                count,
                otherwise: b,
            }
            | Node::Clause {
                first,
                count,
                target: a,
                body: b,
            } => PartNumbers::list(Some(a), Some(b), first, count),
            _ => PartNumbers::alone(None, None, None),
        }
    }

    /// The parts of a node that has several, or a list.
    fn several(node: Node) -> PartNumbers
        ensures { HasSeveral node → ArePartsOf node result }
    {
        match node {
            Node::And(a, b)
            | Node::Or(a, b)
            | Node::Binary(_, a, b)
            | Node::Append(a, b)
            | Node::Loop {
                condition: a,
                body: b,
                ..
            }
            | Node::WithBlock(a, b)
            | Node::Ensure(a, b)
            | Node::OperatorAssign(_, a, b)
            | Node::AppendAssign(a, b)
            | Node::OrAssign(a, b)
            | Node::AndAssign(a, b)
            | Node::Index(a, b)
            | Node::SetAttribute {
                receiver: a,
                value: b,
                ..
            }
            | Node::Pair(a, b) => PartNumbers::alone(Some(a), Some(b), None),
            Node::Choose(a, b, c)
            | Node::SetIndex {
                receiver: a,
                index: b,
                value: c,
            } => PartNumbers::alone(Some(a), Some(b), Some(c)),
            _ => PartNumbers::listed(node),
        }
    }

    /// The parts of a node, and of a block its statements. Those of a method and of a class are left out: they see no
    /// variable of what stands round them.
    pub(crate) fn of(node: Node) -> PartNumbers
        ensures trees { (ns : List Node) (i : ℕ) → IsNoItem node → HasPartsBefore i node → i ≤ length ns → map (tree_at ns) (numbers result) ≡ parts (node_tree ns node) }
        ensures item { (a : ℕ) → node ≡ Node.Item a → numbers result ≡ a ∷ [] }
        ensures before { (i : ℕ) → HasPartsBefore i node → All (λ k. k < i) (numbers result) }
        ensures list_before { (i : ℕ) → HasPartsBefore i node → result.first + result.count ≤ i }
    {
        match node {
            Node::SetConstant(_, a)
            | Node::Assign { value: a, .. }
            | Node::SetField(_, a)
            | Node::SetGlobal(_, a)
            | Node::Not(a)
            | Node::Negate(a)
            | Node::Block { body: a, .. }
            | Node::Break(a)
            | Node::Next(a)
            | Node::Return(a)
            | Node::Splat(a)
            | Node::Item(a) => PartNumbers::alone(Some(a), None, None),
            Node::Nil
            | Node::Truth(_)
            | Node::Int(_)
            | Node::Text(_)
            | Node::Symbol(_)
            | Node::Itself
            | Node::Class(_)
            | Node::Constant(_)
            | Node::Local { .. }
            | Node::Field(_)
            | Node::Global(_)
            | Node::Bare { .. }
            | Node::ForwardingSuper
            | Node::Method { .. }
            | Node::Reader(_)
            | Node::Writer(_)
            | Node::ClassBody { .. } => PartNumbers::alone(None, None, None),
            _ => PartNumbers::several(node),
        }
    }
}
