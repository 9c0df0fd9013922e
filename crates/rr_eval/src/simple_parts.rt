//! Parts that are evaluated without a frame most often, read out of the program beforehand.

ghost use Rattle.std.specs.Prelude.{◌≡◌, List, Some, IfOk, IfSome, OnOk};
ghost use Rattle.rr_tree.specs.Tree.{constant, empty, send, tree_at};
ghost use Rattle.rr_tree.specs.declared.node.Path.TheVariants.{Plain};
ghost use Rattle.rr_eval.specs.Nodes.{evaluated_tree, IsEvaluated};
ghost use Rattle.rr_eval.specs.SimpleParts.{AreSimple, IsApart, IsSimple, literal_of, operand_of, operation_of, simple_of};
ghost use Rattle.rr_eval.specs.declared.chains.Link.{Link};

use crate::call_stack::Variable;
use crate::chains::{Chain, Link, chain_behind};
use crate::constant::own_class;
use crate::nodes::{evaluated_node, node_at};
use crate::plain_methods::PlainMethod;
use crate::prepared::Work;
use crate::short_calls::{Given, short_call};
use rr_base::{BuiltInClass, Sym};
use rr_space::Ref;
use rr_tree::{BinaryOperator, Node, NodeId, Path, Program};
use std::alloc::{AllocError, Global};

/// What a part is, as far as it is evaluated without a frame.
#[derive(Clone, Copy)]
pub enum SimplePart {
    /// A local variable.
    Variable(Variable),
    /// An integer.
    Int(i64),
    /// An operator on a variable and an integer.
    WithInt(BinaryOperator, Variable, i64),
    /// An operator on two variables.
    WithVariable(BinaryOperator, Variable, Variable),
    /// Another literal, or a class of the program, whose value this is.
    Value(Ref),
    /// `self`.
    Itself,
    /// A part for which a function of its own is called.
    Apart(ApartPart),
    /// A part that needs a frame.
    Other,
}

/// What a part is for which a function of its own is called.
#[derive(Clone, Copy)]
pub enum ApartPart {
    /// A chain of operators.
    Chain(Chain),
    /// An instance variable of `self`.
    Field(Sym),
    /// A call without arguments of what a variable holds.
    Attribute(Variable, Sym),
    /// A call on `self` that is a chain, where the method with the statements at a place runs and as many arguments are given as it takes.
    Call(Chain, NodeId),
    /// A global variable.
    Global(Sym),
    /// A constant that is no class of the program, and the built-in class of its name.
    Constant(Sym, Option<BuiltInClass>),
}

/// What the parts of a program are, by their places, and the links of the chains among them.
#[derive(Drop)]
pub struct SimpleParts {
    pub parts: Vec<SimplePart>,
    pub links: Vec<Link>,
}

/// Whether a part is taken for one that needs no frame.
#[inline(always)]
pub fn needs_no_frame(simple: &SimpleParts, place: NodeId) -> bool {
    match simple.parts.get(place as usize) {
        Some(SimplePart::Other) | None => false,
        Some(_) => true,
    }
}

/// The operand that stands at a place.
fn operand_at(program: &Program, place: NodeId) -> SimplePart
    ensures { result ≡ operand_of (tree_at program.now.nodes.items place) }
{
    match evaluated_node(program, place) {
        Node::Int(z) => SimplePart::Int(z),
        Node::Local { depth, slot, .. } => SimplePart::Variable(Variable { depth, slot }),
        _ => SimplePart::Other,
    }
}

/// An operator on two operands.
fn operation(op: BinaryOperator, left: SimplePart, right: SimplePart) -> SimplePart
    ensures { result ≡ operation_of op left right }
{
    match (left, right) {
        (SimplePart::Variable(variable), SimplePart::Int(z)) => {
            SimplePart::WithInt(op, variable, z)
        }
        (SimplePart::Variable(variable), SimplePart::Variable(other)) => {
            SimplePart::WithVariable(op, variable, other)
        }
        _ => SimplePart::Other,
    }
}

/// What a node is, as far as integers and variables go.
#[inline(always)]
fn simple(program: &Program, node: Node) -> SimplePart
    requires { IsEvaluated node }
    ensures { result ≡ simple_of (evaluated_tree program.now.nodes.items node) }
{
    match node {
        Node::Int(z) => SimplePart::Int(z),
        Node::Local { depth, slot, .. } => SimplePart::Variable(Variable { depth, slot }),
        Node::Binary(op, a, b) => operation(op, operand_at(program, a), operand_at(program, b)),
        _ => SimplePart::Other,
    }
}

/// Whether plain objects have an attribute of the name.
fn is_attribute(plain: &Vec<PlainMethod>, name: Sym) -> bool {
    match plain.get(name.0 as usize) {
        Some(found) => match found.definition {
            Some(definition) => match definition.work {
                Work::Read(_) => true,
                _ => false,
            },
            None => false,
        },
        None => false,
    }
}

/// The value that a node has whatever runs: another literal, or a class of the program.
#[inline(always)]
fn literal(program: &Program, node: Node) -> Option<Ref>
    ensures { IfSome result (λ v. literal_of program.now (evaluated_tree program.now.nodes.items node) ≡ Some v) }
{
    match node {
        Node::Nil => Some(Ref::Nil),
        Node::Truth(truth) => Some(Ref::truth(truth)),
        Node::Symbol(name) => Some(Ref::Symbol(name)),
        Node::Class(class) => Some(Ref::Class(class)),
        Node::Constant(Path::Plain(name)) => match own_class(program, name) {
            Some(class) => Some(Ref::Class(class)),
            None => None,
        },
        _ => None,
    }
}

/// What a call without arguments of what stands at a place reads, where it is taken for one of an attribute.
#[inline(always)]
fn attribute(
    program: &Program,
    plain: &Vec<PlainMethod>,
    receiver: NodeId,
    name: Sym,
) -> Option<ApartPart>
    ensures { (links : List Link) → IfSome result (IsApart program.now links (send (tree_at program.now.nodes.items receiver) name.0 empty)) }
{
    match operand_at(program, receiver) {
        SimplePart::Variable(variable) => match is_attribute(plain, name) {
            true => Some(ApartPart::Attribute(variable, name)),
            false => None,
        },
        _ => None,
    }
}

/// A constant, where no class of the program has its name.
#[inline(always)]
fn constant(program: &Program, name: Sym) -> Option<ApartPart>
    ensures { (links : List Link) → IfSome result (IsApart program.now links (constant (Plain name))) }
{
    match own_class(program, name) {
        Some(_) => None,
        None => {
            let class = BuiltInClass::named(program.symbol_bytes(name));
            Some(ApartPart::Constant(name, class))
        }
    }
}

/// What a node reads, or is taken for one that reads it.
#[inline(always)]
fn reading(program: &Program, plain: &Vec<PlainMethod>, node: Node) -> Option<ApartPart>
    requires { IsEvaluated node }
    ensures { (links : List Link) → IfSome result (IsApart program.now links (evaluated_tree program.now.nodes.items node)) }
{
    match node {
        Node::Field(name) => Some(ApartPart::Field(name)),
        Node::Global(name) => Some(ApartPart::Global(name)),
        Node::Constant(path) => match path {
            Path::Plain(name) => constant(program, name),
            Path::Ractor(_) => None,
        },
        Node::Send {
            receiver,
            name,
            count: 0,
            ..
        } => attribute(program, plain, receiver, name),
        _ => None,
    }
}

/// What the part at a place is, or is taken for, chains left out.
fn part_at(program: &Program, plain: &Vec<PlainMethod>, place: NodeId) -> SimplePart
    ensures { (links : List Link) → IsSimple program.now links (tree_at program.now.nodes.items place) result }
{
    let node = evaluated_node(program, place);
    if let Some(value) = literal(program, node) {
        return SimplePart::Value(value);
    }
    if let Some(read) = reading(program, plain, node) {
        return SimplePart::Apart(read);
    }
    match node {
        Node::Itself => SimplePart::Itself,
        _ => simple(program, node),
    }
}

/// What the part is for which an item of a list stands, where one stands at a place.
fn item_part(program: &Program, parts: &Vec<SimplePart>, place: NodeId) -> Option<SimplePart>
    ensures { (links : List Link) → AreSimple program.now links parts.now.items → IfSome result (IsSimple program.now links (tree_at program.now.nodes.items place)) }
{
    let Some(&Node::Item(whole)) = node_at(program, place) else {
        return None;
    };
    match parts.get(whole as usize) {
        Some(part) => Some(*part),
        None => None,
    }
}

/// The chain that the part at a place is, where it is one: operators, or a call. Its links are put behind the others.
fn chain_part(
    alloc: Global,
    program: &Program,
    plain: &Vec<PlainMethod>,
    parts: &Vec<SimplePart>,
    links: &mut Vec<Link>,
    place: NodeId,
) -> Result<Option<ApartPart>, AllocError>
    requires { AreSimple program.now links.old.items parts.now.items }
    ensures chain { IfOk result (λ found. IfSome found (IsApart program.now links.new.items (tree_at program.now.nodes.items place))) }
    ensures parts { OnOk result (AreSimple program.now links.new.items parts.now.items) }
{
    match evaluated_node(program, place) {
        Node::Binary(op, a, b) => match chain_behind(program, parts, links, op, a, b)? {
            Some(chain) => Ok(Some(ApartPart::Chain(chain))),
            None => Ok(None),
        },
        Node::Call {
            name,
            first,
            count,
            ..
        } => {
            let given = Given { first, count };
            short_call(alloc, program, plain, parts, links, name, given)
        }
        _ => Ok(None),
    }
}

/// What the part at a place is, or is taken for, behind those before it. Links of a chain that ends with it are put behind the others.
fn part_behind(
    alloc: Global,
    program: &Program,
    plain: &Vec<PlainMethod>,
    parts: &Vec<SimplePart>,
    links: &mut Vec<Link>,
    place: NodeId,
) -> Result<SimplePart, AllocError>
    requires { AreSimple program.now links.old.items parts.now.items }
    ensures part { IfOk result (IsSimple program.now links.new.items (tree_at program.now.nodes.items place)) }
    ensures parts { OnOk result (AreSimple program.now links.new.items parts.now.items) }
{
    if let Some(part) = item_part(program, parts, place) {
        return Ok(part);
    }
    let part = part_at(program, plain, place);
    if let SimplePart::Other = part
        && let Some(chain) = chain_part(alloc, program, plain, parts, links, place)?
    {
        return Ok(SimplePart::Apart(chain));
    }
    Ok(part)
}

/// What the parts of a program are. The only fault is want of memory.
pub fn simple_parts(
    alloc: Global,
    program: &Program,
    plain: &Vec<PlainMethod>,
) -> Result<SimpleParts, AllocError>
    ensures { IfOk result (λ simple. AreSimple program.now simple.links.items simple.parts.items) }
{
    let mut parts = Vec::new(alloc);
    let mut links = Vec::new(alloc);
    for number in 0..program.nodes.len() {
        let Ok(place) = u32::try_from(number) else {
            return Ok(SimpleParts { parts, links });
        };
        let part = part_behind(alloc, program, plain, &parts, &mut links, place)?;
        parts.push(part)?;
    }
    Ok(SimpleParts { parts, links })
}
