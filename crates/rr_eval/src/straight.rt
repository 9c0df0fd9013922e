//! Loops whose statements assign integers to local variables, read out of the program beforehand.

ghost use Rattle.std.specs.Prelude.{◌≡◌, IfOk, IfSome};
ghost use Rattle.rr_eval.specs.Straight.{AreStraight, IsStraight};

use crate::call_stack::Variable;
use crate::chains::Link;
use crate::nodes::{evaluated_node, node_at};
use crate::plain_methods::PlainMethod;
use crate::prepared::{Definition, Work};
use crate::simple_parts::{ApartPart, SimplePart, SimpleParts, needs_no_frame};
use rr_tree::{Node, NodeId, Program};
use std::alloc::{AllocError, Global};

/// A statement that assigns the value of a part to a local variable: an assignment, or statements that clauses rescue and that are one.
#[derive(Clone, Copy)]
pub struct Straight {
    /// Where the statement stands.
    pub place: NodeId,
    /// The variable that is assigned to.
    pub variable: Variable,
    /// Where the part stands whose value is assigned.
    pub value: NodeId,
    /// The steps of the statement beside those of the value.
    pub steps: u64,
}

/// The loops of a program that have such statements alone.
#[derive(Drop)]
pub struct StraightLoops {
    /// Where the statements of a loop begin among those of all, by the places of the program, up to that of the last such loop; any number
    /// for a block whose statements need no frame.
    pub starts: Vec<Option<u32>>,
    /// The statements, those of one loop side by side.
    pub statements: Vec<Straight>,
}

/// The statement at a place, where it is an assignment.
fn assignment_at(program: &Program, place: NodeId) -> Option<Straight>
    ensures place { IfSome result (λ s. s.place ≡ place) }
    ensures is { IfSome result (IsStraight program.now.nodes.items) }
{
    match evaluated_node(program, place) {
        Node::Assign {
            depth,
            slot,
            value,
            ..
        } => Some(Straight {
            place,
            variable: Variable { depth, slot },
            value,
            steps: 1,
        }),
        _ => None,
    }
}

/// The statement at a place that clauses rescue, where it is one assignment and nothing follows where nothing is raised.
fn rescued_at(program: &Program, place: NodeId) -> Option<Straight>
    ensures place { IfSome result (λ s. s.place ≡ place) }
    ensures is { IfSome result (IsStraight program.now.nodes.items) }
{
    let Node::Rescue {
        body,
        otherwise,
        ..
    } = evaluated_node(program, place)
    else {
        return None;
    };
    let Node::Nil = evaluated_node(program, otherwise) else {
        return None;
    };
    let Node::Sequence { first, count: 1 } = evaluated_node(program, body) else {
        return None;
    };
    match evaluated_node(program, first) {
        Node::Assign {
            depth,
            slot,
            value,
            ..
        } => Some(Straight {
            place,
            variable: Variable { depth, slot },
            value,
            steps: 3,
        }),
        _ => None,
    }
}

/// The statement at a place, where it is such a one.
fn straight_at(program: &Program, place: NodeId) -> Option<Straight>
    ensures place { IfSome result (λ s. s.place ≡ place) }
    ensures is { IfSome result (IsStraight program.now.nodes.items) }
{
    match assignment_at(program, place) {
        Some(statement) => Some(statement),
        None => rescued_at(program, place),
    }
}

/// Whether a part is taken for an integer for which no function of its own is called.
fn is_plain(simple: &SimpleParts, place: NodeId) -> bool {
    match simple.parts.get(place as usize) {
        Some(SimplePart::Variable(_)) => true,
        Some(SimplePart::Int(_)) => true,
        Some(SimplePart::WithInt(_, _, _)) => true,
        Some(SimplePart::WithVariable(_, _, _)) => true,
        _ => false,
    }
}

/// Whether the right operands of links are taken for such integers.
fn are_plain(simple: &SimpleParts, links: &[Link]) -> bool {
    let mut rest = links;
    while let [link, more @ ..] = rest {
        if !is_plain(simple, link.right) {
            return false;
        }
        rest = more;
    }
    true
}

/// Whether a part is taken for an integer.
fn is_integer(simple: &SimpleParts, place: NodeId) -> bool {
    match simple.parts.get(place as usize) {
        Some(&SimplePart::Apart(ApartPart::Chain(chain))) => {
            let from = chain.from as usize;
            match simple.links.get(from..from + chain.count as usize) {
                Some(links) => is_plain(simple, chain.first) && are_plain(simple, links),
                None => false,
            }
        }
        _ => is_plain(simple, place),
    }
}

/// Whether an assignment with an operator stands at a place, of a part that is taken for an integer to a local variable.
fn is_update(program: &Program, simple: &SimpleParts, place: NodeId) -> bool {
    match evaluated_node(program, place) {
        Node::OperatorAssign(_, target, value) => match evaluated_node(program, target) {
            Node::Local { .. } => is_plain(simple, value),
            _ => false,
        },
        _ => false,
    }
}

/// Whether an assignment of a part that is taken for an integer stands at a place, with an operator or without one.
fn is_single(program: &Program, simple: &SimpleParts, place: NodeId) -> bool {
    match evaluated_node(program, place) {
        Node::Assign { value, .. } => is_integer(simple, value),
        _ => is_update(program, simple, place),
    }
}

/// Whether nothing stands at a place, or such an assignment, alone or as a list.
fn is_part(program: &Program, simple: &SimpleParts, place: NodeId) -> bool {
    match evaluated_node(program, place) {
        Node::Nil => true,
        Node::Sequence { first, count: 1 } => is_single(program, simple, first),
        _ => is_single(program, simple, place),
    }
}

/// Whether a choice stands at a place whose condition and parts need no frame, or one that does nothing or leaves what is around it.
fn is_choice(program: &Program, simple: &SimpleParts, place: NodeId) -> bool {
    match evaluated_node(program, place) {
        Node::Choose(condition, yes, no) => {
            is_exit(program, simple, place)
                || needs_no_frame(simple, condition)
                    && is_part(program, simple, yes)
                    && is_part(program, simple, no)
        }
        _ => false,
    }
}

/// Whether a part leaves what is around it for good, which it does once at most. A `next` is not meant.
fn leaves(program: &Program, place: NodeId) -> bool {
    match evaluated_node(program, place) {
        Node::Break(_) | Node::Return(_) => true,
        _ => false,
    }
}

/// Whether a choice stands at a place whose condition needs no frame, and that does nothing or leaves what is around it for good.
fn is_exit(program: &Program, simple: &SimpleParts, place: NodeId) -> bool {
    let Node::Choose(condition, yes, no) = evaluated_node(program, place) else {
        return false;
    };
    match (evaluated_node(program, yes), evaluated_node(program, no)) {
        (_, Node::Nil) => needs_no_frame(simple, condition) && leaves(program, yes),
        (Node::Nil, _) => needs_no_frame(simple, condition) && leaves(program, no),
        _ => false,
    }
}

/// Whether `count` statements from `first` on are such choices.
fn are_exits(program: &Program, simple: &SimpleParts, first: NodeId, count: u32) -> bool {
    let mut rest = count;
    while rest > 0 {
        rest -= 1;
        if !is_exit(program, simple, first.saturating_add(rest)) {
            return false;
        }
    }
    true
}

/// Whether a statement at a place assigns a part that is taken for an integer to a variable outside of the block, or is a choice.
fn is_outward(program: &Program, simple: &SimpleParts, place: NodeId) -> bool {
    match evaluated_node(program, place) {
        Node::Assign { depth, value, .. } => depth > 0 && is_integer(simple, value),
        Node::OperatorAssign(_, target, value) => match evaluated_node(program, target) {
            Node::Local { depth, .. } => depth > 0 && is_plain(simple, value),
            _ => false,
        },
        _ => is_choice(program, simple, place),
    }
}

/// Whether a block stands at a place whose statements need no frame: the last one assigns, and the others are such choices.
fn is_block(program: &Program, simple: &SimpleParts, place: NodeId) -> bool {
    let Node::Block { body, .. } = evaluated_node(program, place) else {
        return false;
    };
    match evaluated_node(program, body) {
        Node::Sequence { first, count } => {
            count > 0
                && is_outward(program, simple, first.saturating_add(count - 1))
                && are_exits(program, simple, first, count - 1)
        }
        _ => false,
    }
}

/// Whether a `yield` of one such part stands at a place.
fn is_yield(program: &Program, simple: &SimpleParts, place: NodeId) -> bool {
    match evaluated_node(program, place) {
        Node::Yield { first, count: 1 } => is_plain(simple, first),
        _ => false,
    }
}

/// Whether some statements end with a part that is taken for an integer, behind choices that do nothing or leave the method.
fn is_result(program: &Program, simple: &SimpleParts, body: NodeId) -> bool {
    match evaluated_node(program, body) {
        Node::Sequence { first, count } => {
            count > 0
                && is_integer(simple, first.saturating_add(count - 1))
                && are_exits(program, simple, first, count - 1)
        }
        _ => false,
    }
}

/// Whether a call on `self` stands at a place of a method whose value is taken for an integer.
fn is_call(
    program: &Program,
    plain: &Vec<PlainMethod>,
    simple: &SimpleParts,
    place: NodeId,
) -> bool {
    let Node::Call { name, .. } = evaluated_node(program, place) else {
        return false;
    };
    match plain.get(name.0 as usize) {
        Some(found) => match found.definition {
            Some(
                Definition {
                    work: Work::Run(body),
                    ..
                },
            ) => is_result(program, simple, body.node),
            _ => false,
        },
        None => false,
    }
}

/// Whether such a call stands at a place, or an operator on one and a part that is taken for an integer.
fn is_called(
    program: &Program,
    plain: &Vec<PlainMethod>,
    simple: &SimpleParts,
    place: NodeId,
) -> bool {
    match evaluated_node(program, place) {
        Node::Binary(_, left, right) => {
            is_call(program, plain, simple, left) && is_plain(simple, right)
        }
        _ => is_call(program, plain, simple, place),
    }
}

/// Whether a statement without a number stands at a place: an assignment with an operator, a choice, or a `yield`. It is looked at when it
/// is done.
fn is_other(program: &Program, simple: &SimpleParts, place: NodeId) -> bool {
    is_update(program, simple, place)
        || is_choice(program, simple, place)
        || is_yield(program, simple, place)
}

/// Puts the statement at a place behind the others, where it is an assignment whose value is taken for an integer, and passes over another
/// one that needs no frame: it answers whether it is one of them. The only fault is want of memory.
fn put_statement(
    program: &Program,
    plain: &Vec<PlainMethod>,
    simple: &SimpleParts,
    statements: &mut Vec<Straight>,
    place: NodeId,
) -> Result<bool, AllocError>
    requires { AreStraight program.now.nodes.items statements.old.items }
    ensures { IfOk result (λ _. AreStraight program.now.nodes.items statements.new.items) }
{
    let Some(statement) = straight_at(program, place) else {
        return Ok(is_other(program, simple, place));
    };
    if !is_integer(simple, statement.value) {
        return Ok(is_called(program, plain, simple, statement.value));
    }
    statements.push(statement)?;
    Ok(true)
}

/// Puts the assignments among the statements of a list behind the others, up to a statement that needs a frame: it answers whether there is
/// none. The only fault is want of memory.
fn put_statements(
    program: &Program,
    plain: &Vec<PlainMethod>,
    simple: &SimpleParts,
    statements: &mut Vec<Straight>,
    end: NodeId,
    count: u32,
) -> Result<bool, AllocError>
    requires { AreStraight program.now.nodes.items statements.old.items }
    ensures { IfOk result (λ _. AreStraight program.now.nodes.items statements.new.items) }
{
    let mut rest = count;
    while rest > 0 {
        if !put_statement(program, plain, simple, statements, end.saturating_sub(rest))? {
            return Ok(false);
        }
        rest -= 1;
    }
    Ok(true)
}

/// Where the statements of the loop at a place begin, where it is such a loop: they are put behind the others. A block whose statements need
/// no frame has none there. The only fault is want of memory.
fn put_loop(
    program: &Program,
    plain: &Vec<PlainMethod>,
    simple: &SimpleParts,
    statements: &mut Vec<Straight>,
    place: NodeId,
) -> Result<Option<u32>, AllocError>
    requires { AreStraight program.now.nodes.items statements.old.items }
    ensures { IfOk result (λ _. AreStraight program.now.nodes.items statements.new.items) }
{
    let Ok(start) = u32::try_from(statements.len()) else {
        return Ok(None);
    };
    if is_block(program, simple, place) {
        return Ok(Some(start));
    }
    let Node::Loop {
        condition,
        body,
        ..
    } = evaluated_node(program, place)
    else {
        return Ok(None);
    };
    if !needs_no_frame(simple, condition) {
        return Ok(None);
    }
    let Node::Sequence { first, count } = evaluated_node(program, body) else {
        return Ok(None);
    };
    match put_statements(
        program,
        plain,
        simple,
        statements,
        first.saturating_add(count),
        count,
    )? {
        true => Ok(Some(start)),
        false => Ok(None),
    }
}

/// Whether a loop or a block may stand at a place: one does, or an item of a list, which stands for its part.
#[inline(always)]
fn may_be_loop(program: &Program, place: NodeId) -> bool {
    match node_at(program, place) {
        Some(&Node::Loop { .. }) | Some(&Node::Block { .. }) | Some(&Node::Item(_)) => true,
        _ => false,
    }
}

/// Writes down where the statements of the loop at a place begin, and that no such loop stands between that and the last one. The only fault
/// is want of memory.
fn put_start(starts: &mut Vec<Option<u32>>, place: usize, start: u32) -> Result<(), AllocError> {
    while starts.len() < place {
        starts.push(None)?;
    }
    starts.push(Some(start))?;
    Ok(())
}

/// Puts the loop at a place behind the others, where it is such a loop. The only fault is want of memory.
#[inline(always)]
fn put_place(
    program: &Program,
    plain: &Vec<PlainMethod>,
    simple: &SimpleParts,
    loops: &mut StraightLoops,
    place: NodeId,
) -> Result<(), AllocError>
    requires { AreStraight program.now.nodes.items loops.old.statements.items }
    ensures { IfOk result (λ _. AreStraight program.now.nodes.items loops.new.statements.items) }
{
    if !may_be_loop(program, place) {
        return Ok(());
    }
    let Some(start) = put_loop(program, plain, simple, &mut loops.statements, place)? else {
        return Ok(());
    };
    put_start(&mut loops.starts, place as usize, start)?;
    Ok(())
}

/// The loops of a program that have such statements alone. The only fault is want of memory.
pub fn straight_loops(
    alloc: Global,
    program: &Program,
    plain: &Vec<PlainMethod>,
    simple: &SimpleParts,
) -> Result<StraightLoops, AllocError>
    ensures { IfOk result (λ loops. AreStraight program.now.nodes.items loops.statements.items) }
{
    let mut loops = StraightLoops {
        starts: Vec::new(alloc),
        statements: Vec::new(alloc),
    };
    for number in 0..program.nodes.len() {
        let Ok(place) = u32::try_from(number) else {
            return Ok(loops);
        };
        put_place(program, plain, simple, &mut loops, place)?;
    }
    Ok(loops)
}
