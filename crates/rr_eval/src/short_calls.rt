//! Calls of methods on `self` that are chains, read out of the program beforehand: the operators of the method, with the arguments in the place
//! of its parameters.

ghost use Rattle.std.specs.Prelude.{◌≡◌, ◌+◌, ◌<◌, ◌≤◌, ◌^◌, List, Some, true, length, IfOk, IfSome, IsTrue, OnOk};
ghost use Rattle.rr_tree.specs.Nodes.{trees_before};
ghost use Rattle.rr_tree.specs.Tree.{Tree, call, listed, tree_at};
ghost use Rattle.rr_eval.specs.declared.chains.Link.{Link as Chained};
ghost use Rattle.rr_eval.specs.SimpleParts.{AreSimple, IsApart, are_leaves, filled, is_leaf, linked};

use crate::chains::{Chain, Link, links_in};
use crate::nodes::evaluated_node;
use crate::plain_methods::PlainMethod;
use crate::prepared::{Body, Work};
use crate::simple_parts::{ApartPart, SimplePart};
use rr_base::Sym;
use rr_tree::{Node, NodeId, Program};
use std::alloc::{AllocError, Global};

/// The most arguments of such a call, and the most links: what is done at once has few steps.
const MOST: u32 = 4;

/// The arguments of a call: where the first one stands, and how many there are.
#[derive(Clone, Copy)]
pub struct Given {
    pub first: NodeId,
    pub count: u32,
}

/// A chain that is not among the others yet.
#[derive(Drop)]
struct Filled {
    first: NodeId,
    links: Vec<Link>,
}

/// Whether a part is an integer or a variable.
#[inline(always)]
fn is_leaf(program: &Program, parts: &Vec<SimplePart>, place: NodeId) -> bool
    ensures { IsTrue result → (links : List Chained) → AreSimple program.now links parts.now.items → is_leaf (tree_at program.now.nodes.items place) ≡ true }
{
    match parts.get(place as usize) {
        Some(&SimplePart::Variable(_)) => true,
        Some(&SimplePart::Int(_)) => true,
        _ => false,
    }
}

/// Whether all arguments are.
fn are_leaves(program: &Program, parts: &Vec<SimplePart>, given: Given) -> bool
    requires small { given.first + given.count < 2 ^ 32 }
    ensures { IsTrue result → (links : List Chained) → AreSimple program.now links parts.now.items → are_leaves (trees_before program.now.nodes.items (given.first + given.count) given.count) ≡ true }
{
    let mut done = 0;
    while done < given.count {
        if !is_leaf(program, parts, given.first + (given.count - done - 1)) {
            return false;
        }
        done += 1;
    }
    true
}

/// Where the part stands that an operand becomes: the argument for a parameter, and an integer as it is.
#[inline(always)]
fn filled_place(
    program: &Program,
    parts: &Vec<SimplePart>,
    given: Given,
    place: NodeId,
) -> Option<NodeId>
    requires small { given.first + given.count < 2 ^ 32 }
    ensures { IfSome result (λ to. (links : List Chained) → AreSimple program.now links parts.now.items → filled (trees_before program.now.nodes.items (given.first + given.count) given.count) (tree_at program.now.nodes.items place) ≡ Some (tree_at program.now.nodes.items to)) }
{
    match parts.get(place as usize) {
        Some(&SimplePart::Int(_)) => Some(place),
        Some(&SimplePart::Variable(variable)) => {
            if variable.depth == 0 && variable.slot < given.count {
                Some(given.first + variable.slot)
            } else {
                None
            }
        }
        _ => None,
    }
}

/// The chain that an operand of a method becomes, or an operator on two of them. The only fault is want of memory.
fn filled_operand(
    alloc: Global,
    program: &Program,
    parts: &Vec<SimplePart>,
    given: Given,
    place: NodeId,
) -> Result<Option<Filled>, AllocError>
    requires small { given.first + given.count < 2 ^ 32 }
    ensures { IfOk result (λ o. IfSome o (λ made. (links : List Chained) → AreSimple program.now links parts.now.items → filled (trees_before program.now.nodes.items (given.first + given.count) given.count) (tree_at program.now.nodes.items place) ≡ Some (linked program.now (tree_at program.now.nodes.items made.first) made.links.items))) }
{
    let mut links = Vec::new(alloc);
    let Node::Binary(op, a, b) = evaluated_node(program, place) else {
        return match filled_place(program, parts, given, place) {
            Some(first) => Ok(Some(Filled { first, links })),
            None => Ok(None),
        };
    };
    let Some(first) = filled_place(program, parts, given, a) else {
        return Ok(None);
    };
    let Some(right) = filled_place(program, parts, given, b) else {
        return Ok(None);
    };
    links.push(Link { op, right })?;
    Ok(Some(Filled { first, links }))
}

/// What a chain and the links of a method behind it become. The only fault is want of memory.
fn filled_links(
    program: &Program,
    parts: &Vec<SimplePart>,
    given: Given,
    begun: Filled,
    links: &[Link],
) -> Result<Option<Filled>, AllocError>
    requires small { given.first + given.count < 2 ^ 32 }
    ensures { IfOk result (λ o. IfSome o (λ made. (all : List Chained) (a : Tree) → AreSimple program.now all parts.now.items → filled (trees_before program.now.nodes.items (given.first + given.count) given.count) a ≡ Some (linked program.now (tree_at program.now.nodes.items begun.first) begun.links.items) → filled (trees_before program.now.nodes.items (given.first + given.count) given.count) (linked program.now a links.now) ≡ Some (linked program.now (tree_at program.now.nodes.items made.first) made.links.items))) }
{
    let first = begun.first;
    let mut made = begun.links;
    let mut rest = links;
    while let [link, more @ ..] = rest {
        let link = *link;
        rest = more;
        let Some(right) = filled_place(program, parts, given, link.right) else {
            return Ok(None);
        };
        made.push(Link { op: link.op, right })?;
    }
    Ok(Some(Filled { first, links: made }))
}

/// The chain that a statement of a method becomes, where it is operators on operands. The only fault is want of memory.
fn filled_statement(
    alloc: Global,
    program: &Program,
    parts: &Vec<SimplePart>,
    links: &Vec<Link>,
    given: Given,
    place: NodeId,
) -> Result<Option<Filled>, AllocError>
    requires small { given.first + given.count < 2 ^ 32 }
    requires simple { AreSimple program.now links.now.items parts.now.items }
    ensures { IfOk result (λ o. IfSome o (λ made. filled (trees_before program.now.nodes.items (given.first + given.count) given.count) (tree_at program.now.nodes.items place) ≡ Some (linked program.now (tree_at program.now.nodes.items made.first) made.links.items))) }
{
    let Some(&SimplePart::Apart(ApartPart::Chain(chain))) = parts.get(place as usize) else {
        return filled_operand(alloc, program, parts, given, place);
    };
    let Some(own) = links_in(links, chain) else {
        return Ok(None);
    };
    match filled_operand(alloc, program, parts, given, chain.first)? {
        Some(begun) => filled_links(program, parts, given, begun, own),
        None => Ok(None),
    }
}

/// The statements of the method that calls of plain objects by a name find, where it takes so many arguments.
fn statements_of(plain: &Vec<PlainMethod>, name: Sym, count: u32) -> Option<Body> {
    let Work::Run(body) = plain.get(name.0 as usize)?.definition?.work else {
        return None;
    };
    match body.shape.parameters == count {
        true => Some(body),
        false => None,
    }
}

/// The chain that a call on `self` is, where it is one: its links are put behind the others. The only fault is want of memory.
pub fn short_call(
    alloc: Global,
    program: &Program,
    plain: &Vec<PlainMethod>,
    parts: &Vec<SimplePart>,
    links: &mut Vec<Link>,
    name: Sym,
    given: Given,
) -> Result<Option<ApartPart>, AllocError>
    requires small { given.first + given.count < 2 ^ 32 }
    requires simple { AreSimple program.now links.old.items parts.now.items }
    ensures call { IfOk result (λ found. IfSome found (IsApart program.now links.new.items (call name.0 (listed (trees_before program.now.nodes.items (given.first + given.count) given.count))))) }
    ensures parts { OnOk result (AreSimple program.now links.new.items parts.now.items) }
{
    if given.count > MOST {
        return Ok(None);
    }
    let Some(body) = statements_of(plain, name, given.count) else {
        return Ok(None);
    };
    if !are_leaves(program, parts, given) {
        return Ok(None);
    }
    let Node::Sequence { first, count: 1 } = evaluated_node(program, body.node) else {
        return Ok(None);
    };
    let Some(made) = filled_statement(alloc, program, parts, links, given, first)? else {
        return Ok(None);
    };
    let (Ok(from), Ok(count)) = (u32::try_from(links.len()), u32::try_from(made.links.len())) else {
        return Ok(None);
    };
    if count > MOST {
        return Ok(None);
    }
    links.extend_from_slice(made.links.as_slice())?;
    let chain = Chain {
        first: made.first,
        from,
        count,
    };
    Ok(Some(ApartPart::Call(chain, body.node)))
}
