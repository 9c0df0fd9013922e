//! Methods that begin with a choice that may end them, as those that call themselves do, read out of the program beforehand.

ghost use Rattle.std.specs.Prelude.{◌≡◌, ◌≤◌, IfOk, IfSome};
ghost use Rattle.rr_tree.specs.Tree.{tree_at};
ghost use Rattle.rr_eval.specs.BaseCases.{AreBases, IsBase, ending_of, listed_ending_of, part_of};
ghost use Rattle.rr_eval.specs.SimpleParts.{AreSimple};

use crate::nodes::evaluated_node;
use crate::plain_methods::PlainMethod;
use crate::prepared::{Definition, Work};
use crate::simple_parts::{SimplePart, SimpleParts};
use rr_tree::{BinaryOperator, Node, NodeId, Program};
use std::alloc::{AllocError, Global};

/// The first statement of a method, where that is a choice by an operator on a parameter and an integer: its first part may end the method.
#[derive(Clone, Copy)]
pub struct BaseCase {
    /// Where the choice stands.
    pub place: NodeId,
    /// The operator of the condition.
    pub op: BinaryOperator,
    /// The parameter that is its left operand, by its slot.
    pub parameter: u32,
    /// Its right operand.
    pub integer: i64,
    /// Where the part stands whose value the first part of the choice has, or returns.
    pub value: NodeId,
    /// Whether that is returned.
    pub returns: bool,
    /// The steps of the choice beside those of its condition and of the value.
    pub steps: u64,
    /// The other part, unless it is nil.
    pub otherwise: Option<NodeId>,
}

/// How a part of a choice ends what is around it: where the part stands whose value it has or returns, and the steps beside those of the
/// value.
#[derive(Clone, Copy)]
struct Ending {
    returns: bool,
    value: NodeId,
    steps: u64,
}

/// How the part at a place ends what is around it, where it is no list.
#[inline(always)]
fn ending_at(program: &Program, place: NodeId) -> Ending
    ensures is { (result.returns, (tree_at program.now.nodes.items result.value, result.steps)) ≡ ending_of (tree_at program.now.nodes.items place) }
    ensures few { result.steps ≤ 2 }
{
    match evaluated_node(program, place) {
        Node::Return(value) => Ending {
            returns: true,
            value,
            steps: 2,
        },
        _ => Ending {
            returns: false,
            value: place,
            steps: 1,
        },
    }
}

/// How the part at a place ends what is around it, which may be a list of one, and none of any other number.
fn listed_ending_at(program: &Program, place: NodeId) -> Option<Ending>
    ensures is { IfSome result (λ ending. (ending.returns, (tree_at program.now.nodes.items ending.value, ending.steps)) ≡ listed_ending_of (tree_at program.now.nodes.items place)) }
    ensures few { IfSome result (λ ending. ending.steps ≤ 3) }
{
    match evaluated_node(program, place) {
        Node::Sequence { first, count: 1 } => {
            let ending = ending_at(program, first);
            Some(Ending {
                steps: ending.steps + 1,
                ..ending
            })
        }
        Node::Sequence { .. } => None,
        _ => Some(ending_at(program, place)),
    }
}

/// The part at a place, unless it is nil.
#[inline(always)]
fn unless_nil(program: &Program, place: NodeId) -> Option<NodeId>
    ensures { part_of program.now.nodes.items result ≡ tree_at program.now.nodes.items place }
{
    match evaluated_node(program, place) {
        Node::Nil => None,
        _ => Some(place),
    }
}

/// The choice at a place, where it is such a one.
fn base_case_at(program: &Program, simple: &SimpleParts, place: NodeId) -> Option<BaseCase>
    requires { AreSimple program.now simple.now.links.items simple.now.parts.items }
    ensures { IfSome result (IsBase program.now.nodes.items) }
{
    let Node::Choose(condition, yes, no) = evaluated_node(program, place) else {
        return None;
    };
    let Some(&SimplePart::WithInt(op, variable, integer)) = simple.parts.get(condition as usize)
    else {
        return None;
    };
    if variable.depth != 0 {
        return None;
    }
    let ending = listed_ending_at(program, yes)?;
    Some(BaseCase {
        place,
        op,
        parameter: variable.slot,
        integer,
        value: ending.value,
        returns: ending.returns,
        steps: ending.steps,
        otherwise: unless_nil(program, no),
    })
}

/// The choice with which a method begins, where it is such a one that ends the method.
fn base_case_of(program: &Program, simple: &SimpleParts, method: &PlainMethod) -> Option<BaseCase>
    requires { AreSimple program.now simple.now.links.items simple.now.parts.items }
    ensures { IfSome result (IsBase program.now.nodes.items) }
{
    let Some(
        Definition {
            work: Work::Run(body),
            ..
        },
    ) = method.definition
    else {
        return None;
    };
    let Node::Sequence { first, count } = evaluated_node(program, body.node) else {
        return None;
    };
    let base = base_case_at(program, simple, first)?;
    match base.returns || count == 1 {
        true => Some(base),
        false => None,
    }
}

/// The choices with which methods begin, by the numbers of their names. The only fault is want of memory.
pub fn base_cases(
    alloc: Global,
    program: &Program,
    plain: &Vec<PlainMethod>,
    simple: &SimpleParts,
) -> Result<Vec<Option<BaseCase>>, AllocError>
    requires { AreSimple program.now simple.now.links.items simple.now.parts.items }
    ensures { IfOk result (λ bases. AreBases program.now.nodes.items bases.items) }
{
    let mut bases = Vec::new(alloc);
    for method in plain.as_slice() {
        bases.push(base_case_of(program, simple, method))?;
    }
    Ok(bases)
}
