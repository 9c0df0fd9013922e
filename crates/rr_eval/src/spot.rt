//! The targets of an assignment to several.

ghost use Rattle.std.specs.Prelude.{◌≡◌, ◌-◌, ◌≤◌, ◌∷◌, ◌++◌, [], ℕ, length, take, drop, Option, None, Some, IfSome};
ghost use Rattle.std.specs.List.{All};
ghost use Rattle.std.specs.Option.{option_map};
ghost use Rattle.rr_tree.specs.Nodes.{trees_before};
ghost use Rattle.rr_tree.specs.Tree.{tree_at};
ghost use Rattle.rr_eval.specs.Frames.{option_trees};
ghost use Rattle.rr_eval.specs.Several.{parts_of, all_parts, spot_of, next_value};
ghost use Rattle.rr_eval.specs.Within.{Reach, IsReached, IsSpotReached};

use crate::iterating::value_at;
use crate::nodes::evaluated_node;
use rr_base::Sym;
use rr_space::Ref;
use rr_tree::{Node, NodeId, Path, Program};

/// What a target other than a local variable is.
#[derive(Clone, Copy)]
pub enum Spot {
    /// An instance variable of `self`.
    Field(Sym),
    /// A global variable.
    Global(Sym),
    /// A constant.
    Constant(Sym),
    /// An attribute of a receiver.
    Attribute(Sym, Ref),
    /// An element of a receiver, by its index.
    Element(Ref, Ref),
}

/// The targets of an assignment, while their parts, which are receivers and indices, are evaluated.
#[derive(Clone, Copy)]
pub struct Aiming {
    /// The index that is evaluated next, where the part at hand is the receiver of an element.
    pub index: Option<NodeId>,
    /// How many targets stand behind the one at hand.
    pub left: u32,
    /// The number behind the last target.
    pub end: NodeId,
    /// How many targets there are.
    pub count: u32,
    /// The node of the right side.
    pub value: NodeId,
    /// Where the values of the parts begin.
    pub base: usize,
}

/// The targets of an assignment, while they get their values. The values of their parts stand for it, and behind them the value of the
/// right side, and behind it what it gives to the targets.
#[derive(Clone, Copy)]
pub struct Assigning {
    /// The number behind the last target.
    pub end: NodeId,
    /// How many targets are still to get their values.
    pub left: u32,
    /// Where the values begin that stand for it.
    pub base: usize,
    /// How many parts there are.
    pub parts: usize,
    /// How many of them belong to targets that have their values.
    pub used: usize,
    /// The place of the next value that a target gets.
    pub place: usize,
}

/// The part of a target that is evaluated next.
#[derive(Clone, Copy)]
pub struct NextPart {
    pub receiver: NodeId,
    /// The index behind it, where there is one.
    pub index: Option<NodeId>,
    /// How many targets stand behind its own.
    pub left: u32,
}

/// The receiver of an element or an attribute, and the index of an element.
fn parts_at(program: &Program, target: NodeId) -> Option<(NodeId, Option<NodeId>)>
    ensures some { IfSome result (λ r. parts_of (tree_at program.now.nodes.items target) ≡ tree_at program.now.nodes.items r.0 ∷ option_trees program.now.nodes.items r.1) }
    ensures none { result ≡ None → parts_of (tree_at program.now.nodes.items target) ≡ [] }
{
    match evaluated_node(program, target) {
        Node::Index(receiver, index) => Some((receiver, Some(index))),
        Node::Send { receiver, .. } => Some((receiver, None)),
        _ => None,
    }
}

/// The first part of the last `count` targets before `end`, where there is one.
pub fn first_part(program: &Program, end: NodeId, count: u32) -> Option<NextPart>
    ensures some { IfSome result (λ x. all_parts (trees_before program.now.nodes.items end count) ≡ tree_at program.now.nodes.items x.receiver ∷ option_trees program.now.nodes.items x.index ++ all_parts (trees_before program.now.nodes.items end x.left)) }
    ensures none { result ≡ None → all_parts (trees_before program.now.nodes.items end count) ≡ [] }
{
    let mut left = count;
    while left > 0 {
        match parts_at(program, end.saturating_sub(left)) {
            Some((receiver, index)) => {
                return Some(NextPart {
                    receiver,
                    index,
                    left: left - 1,
                });
            }
            None => left -= 1,
        }
    }
    None
}

/// The values of parts that belong to targets without their values.
pub fn parts_left(stand: &[Ref], parts: usize, used: usize) -> &[Ref]
    requires inside { parts ≤ length stand.now }
    ensures are { result.now ≡ drop used (take parts stand.now) }
    ensures within { (k : Reach) → All (IsReached k) stand.now → All (IsReached k) result.now }
{
    if used < parts {
        &stand[used..parts]
    } else {
        &[]
    }
}

/// What a target other than a local variable is, by the values of parts that are left, and how many of them are its own.
pub fn spot_of(program: &Program, target: NodeId, parts: &[Ref]) -> Option<(Spot, usize)>
    ensures is { option_map (λ r. r.0) result ≡ spot_of (tree_at program.now.nodes.items target) parts.now }
    ensures own { IfSome result (λ r. r.1 ≡ length (parts_of (tree_at program.now.nodes.items target))) }
    ensures inside { IfSome result (λ r. r.1 ≤ length parts.now) }
    ensures within { (k : Reach) → All (IsReached k) parts.now → IfSome result (λ r. IsSpotReached k r.0) }
{
    match evaluated_node(program, target) {
        Node::Field(name) => Some((Spot::Field(name), 0)),
        Node::Global(name) => Some((Spot::Global(name), 0)),
        Node::Constant(Path::Plain(name)) => Some((Spot::Constant(name), 0)),
        Node::Send { name, .. } => match parts {
            [receiver, ..] => Some((Spot::Attribute(name, *receiver), 1)),
            _ => None,
        },
        Node::Index(_, _) => match parts {
            [receiver, index, ..] => Some((Spot::Element(*receiver, *index), 2)),
            _ => None,
        },
        _ => None,
    }
}

/// The value at a place, and the place behind it. Nil stands for one that is not there.
pub fn next_value(stand: &[Ref], place: usize) -> (Ref, usize)
    ensures value { result.0 ≡ next_value (drop place stand.now) }
    ensures behind { drop result.1 stand.now ≡ drop 1 (drop place stand.now) }
    ensures within { (k : Reach) → All (IsReached k) stand.now → IsReached k result.0 }
{
    let value = value_at(stand, place);
    if place < stand.len() {
        (value, place + 1)
    } else {
        (value, place)
    }
}
