//! Calls of built-in methods.

ghost use Rattle.std.specs.Prelude.{◌≡◌, ℕ, slice_index_or, IfOk, IfErr, length};
ghost use Rattle.std.specs.List.{All};
ghost use Rattle.rr_space.specs.Tables.{Below, Table};
ghost use Rattle.rr_space.specs.Parts.{IsWithin};
ghost use Rattle.rr_space.specs.Kinds.{kind_at};
ghost use Rattle.rr_text.specs.Names.{names_of};
ghost use Rattle.rr_text.specs.Reads.{IsAmong, IsReadWith};
ghost use Rattle.rr_builtin.specs.Acts.{Acts, IsServed, IsRefAmong, IsBuiltWithin, IsBuiltAmong, outcome_of};
ghost use Rattle.rr_builtin.specs.Deeds.{act_of, IsFit, IsDeedAmong};
ghost use Rattle.rr_builtin.specs.Calls.{compared_at, walked_equality, container_operator, equality, symbol_order, symbol_operator, plain_operator, array_operator, operator_act, number_act, telling_act, method_act, responds, most_of, is_between, call_act, called};

use crate::arrays::sum_of_arrays;
use crate::built::Built;
use crate::contents::{content_deed, element_at};
use crate::deed::{Deed, perform};
use crate::kinds::{count_of, has, is_join, is_new, is_of_remote_errors, is_shell_kind};
use crate::method::{BuiltInMethod, NumberMethod, TellingMethod};
use crate::news::{may_make, new_deed, takes_message};
use crate::numbers::{number_answer, on_integer};
use crate::objects::{is_equal, object_deed, raise, told, truth};
use crate::often::call_content;
use crate::problem::Problem;
use crate::texts::{order_of, ordered, text_operator};
use rr_base::{ClassId, Fault, Sym};
use rr_space::{Kind, Ref, Space};
use rr_text::{Compared, Form, compare, symbol_name};
use rr_tree::{BinaryOperator, Program};
use std::alloc::Global;

/// The argument of that place; nil where there is none.
pub(crate) fn argument_at(arguments: &[Ref], place: usize) -> Ref
    ensures is { result ≡ slice_index_or arguments.now place Ref.Nil }
    ensures within { (k : ℕ) → All (IsWithin k) arguments.now → IsWithin k result }
    ensures among { (below : Below) → All (IsRefAmong below) arguments.now → IsRefAmong below result }
{
    match arguments.get(place) {
        Some(argument) => *argument,
        None => Ref::Nil,
    }
}

/// `==` and `!=` of values that are equal or not.
fn equality(operator: BinaryOperator, same: bool) -> Deed
    ensures act { act_of result ≡ equality operator same }
    ensures fit { (value : Ref) (space : Table) → IsFit space value result }
    ensures among { (below : Below) → IsDeedAmong below result }
{
    match operator {
        BinaryOperator::Equal => truth(same),
        BinaryOperator::NotEqual => truth(!same),
        _ => Deed::Answer(Built::Missing),
    }
}

/// `<=>` of a symbol.
fn symbol_order(space: &Space, program: &Program, symbol: Sym, operand: Ref) -> Built
    ensures is { outcome_of result ≡ symbol_order (names_of program.now) symbol.0 operand space.now }
    ensures plain { (k : ℕ) (below : Below) → IsBuiltWithin k result × IsBuiltAmong below result }
{
    match operand {
        Ref::Symbol(other) => {
            let order = order_of(symbol_name(program, symbol), symbol_name(program, other));
            ordered(BinaryOperator::Compare, order)
        }
        _ => Built::Value(Ref::Nil),
    }
}

/// An operator on a symbol.
fn symbol_operator(
    space: &Space,
    program: &Program,
    operator: BinaryOperator,
    symbol: Sym,
    value: Ref,
    operand: Ref,
) -> Deed
    ensures act { act_of result ≡ symbol_operator (names_of program.now) operator symbol.0 value operand space.now }
    ensures fit { IsFit space.now value result }
    ensures among { (below : Below) → IsDeedAmong below result }
{
    match operator {
        BinaryOperator::Compare => Deed::Answer(symbol_order(space, program, symbol, operand)),
        _ => equality(operator, is_equal(space, value, operand)),
    }
}

/// An operator on a value that is no text.
fn plain_operator(
    space: &Space,
    program: &Program,
    operator: BinaryOperator,
    value: Ref,
    operand: Ref,
) -> Deed
    ensures act { act_of result ≡ plain_operator (names_of program.now) operator value operand space.now }
    ensures fit { IsFit space.now value result }
    ensures among { (below : Below) → IsDeedAmong below result }
{
    match value {
        Ref::Int(x) => Deed::Answer(on_integer(space, operator, x, operand)),
        Ref::Symbol(symbol) => symbol_operator(space, program, operator, symbol, value, operand),
        _ => equality(operator, is_equal(space, value, operand)),
    }
}

/// `==` and `!=` of an array or a hash, which are compared by what is in them.
fn walked_equality(
    alloc: Global,
    space: &Space,
    operator: BinaryOperator,
    value: Ref,
    operand: Ref,
) -> Result<Deed, Fault>
    ensures act { IfOk result (λ deed. (below : Below) → IsReadWith space.now below → IsAmong below value → IsAmong below operand → act_of deed ≡ walked_equality operator (compared_at below space.now value operand)) }
    ensures fit { IfOk result (λ deed. IsFit space.now value deed) }
    ensures among { IfOk result (λ deed. (below : Below) → IsDeedAmong below deed) }
    ensures fault { IfErr result (λ f. f ≡ Fault.Memory) }
{
    match compare(alloc, space, value, operand)? {
        Compared::Same => Ok(equality(operator, true)),
        Compared::Differs => Ok(equality(operator, false)),
        Compared::Deep => Ok(raise(Problem::TooDeep)),
        Compared::Shell => Ok(raise(Problem::Moved)),
    }
}

/// An operator on an array or a hash: both have `==` and `!=`.
fn container_operator(
    alloc: Global,
    space: &Space,
    operator: BinaryOperator,
    value: Ref,
    operand: Ref,
) -> Result<Deed, Fault>
    ensures act { IfOk result (λ deed. (below : Below) → IsReadWith space.now below → IsAmong below value → IsAmong below operand → act_of deed ≡ container_operator below operator value operand space.now) }
    ensures fit { IfOk result (λ deed. IsFit space.now value deed) }
    ensures among { IfOk result (λ deed. (below : Below) → IsDeedAmong below deed) }
    ensures fault { IfErr result (λ f. f ≡ Fault.Memory) }
{
    match operator {
        BinaryOperator::Equal => walked_equality(alloc, space, operator, value, operand),
        BinaryOperator::NotEqual => walked_equality(alloc, space, operator, value, operand),
        _ => Ok(Deed::Answer(Built::Missing)),
    }
}

/// An operator on an array.
fn array_operator(
    alloc: Global,
    space: &Space,
    operator: BinaryOperator,
    value: Ref,
    operand: Ref,
) -> Result<Deed, Fault>
    ensures act { IfOk result (λ deed. (below : Below) → IsReadWith space.now below → IsAmong below value → IsAmong below operand → act_of deed ≡ array_operator below operator value operand space.now) }
    ensures fit { IfOk result (λ deed. IsFit space.now value deed) }
    ensures among { IfOk result (λ deed. (below : Below) → IsReadWith space.now below → IsRefAmong below value → IsRefAmong below operand → IsDeedAmong below deed) }
    ensures fault { IfErr result (λ f. f ≡ Fault.Memory) }
{
    match operator {
        BinaryOperator::Add => sum_of_arrays(alloc, space, value, operand),
        _ => container_operator(alloc, space, operator, value, operand),
    }
}

fn operator_deed(
    alloc: Global,
    space: &Space,
    program: &Program,
    operator: BinaryOperator,
    value: Ref,
    operand: Ref,
) -> Result<Deed, Fault>
    ensures act { IfOk result (λ deed. (below : Below) → IsReadWith space.now below → IsAmong below value → IsAmong below operand → act_of deed ≡ operator_act (names_of program.now) below (kind_at space.now value) operator value operand space.now) }
    ensures fit { IfOk result (λ deed. IsFit space.now value deed) }
    ensures among { IfOk result (λ deed. (below : Below) → IsReadWith space.now below → IsRefAmong below value → IsRefAmong below operand → IsDeedAmong below deed) }
    ensures fault { IfErr result (λ f. f ≡ Fault.Memory) }
{
    match space.kind_of(value) {
        Kind::Text => text_operator(alloc, space, operator, value, operand),
        Kind::Array => array_operator(alloc, space, operator, value, operand),
        Kind::Hash => container_operator(alloc, space, operator, value, operand),
        _ => Ok(plain_operator(space, program, operator, value, operand)),
    }
}

fn number_deed(method: NumberMethod, value: Ref) -> Deed
    ensures act { act_of result ≡ number_act method value }
    ensures fit { (receiver : Ref) (space : Table) → IsFit space receiver result }
    ensures among { (below : Below) → IsDeedAmong below result }
{
    match value {
        Ref::Int(x) => Deed::Answer(number_answer(method, x)),
        _ => Deed::Answer(Built::Missing),
    }
}

/// What a method tells of a class or of an exception.
fn telling_deed(
    alloc: Global,
    space: &Space,
    program: &Program,
    method: TellingMethod,
    value: Ref,
) -> Result<Deed, Fault>
    ensures act { IfOk result (λ deed. (below : Below) → IsReadWith space.now below → IsAmong below value
        → act_of deed ≡ telling_act (names_of program.now) below method value space.now) }
    ensures fit { IfOk result (λ deed. IsFit space.now value deed) }
    ensures among { IfOk result (λ deed. (below : Below) → IsReadWith space.now below → IsRefAmong below value → IsDeedAmong below deed) }
    ensures fault { IfErr result (λ f. f ≡ Fault.Memory) }
{
    match method {
        TellingMethod::Name => told(alloc, space, program, value, Form::ToS),
        TellingMethod::Message => told(alloc, space, program, value, Form::ToS),
        TellingMethod::Cause => Ok(Deed::Answer(element_at(space, value, 1))),
        TellingMethod::Ractor => Ok(Deed::Answer(element_at(space, value, 2))),
    }
}

/// What a method does that the receiver has, with its first two arguments.
fn method_deed(
    alloc: Global,
    space: &Space,
    program: &Program,
    receiver: Ref,
    method: BuiltInMethod,
    argument: Ref,
    second: Ref,
) -> Result<Deed, Fault>
    requires receiver { IsWithin (length space.now.slots) receiver }
    requires argument { IsWithin (length space.now.slots) argument }
    requires second { IsWithin (length space.now.slots) second }
    ensures act { IfOk result (λ deed. (below : Below) → IsReadWith space.now below → IsAmong below receiver → IsAmong below argument
        → act_of deed ≡ method_act program.now below method receiver argument second space.now) }
    ensures fit { IfOk result (λ deed. IsFit space.now receiver deed) }
    ensures among { IfOk result (λ deed. (below : Below) → IsReadWith space.now below → IsRefAmong below receiver → IsRefAmong below argument → IsRefAmong below second → IsDeedAmong below deed) }
    ensures fault { IfErr result (λ f. f ≡ Fault.Memory) }
{
    match method {
        BuiltInMethod::Operator(operator) => {
            operator_deed(alloc, space, program, operator, receiver, argument)
        }
        BuiltInMethod::Number(method) => Ok(number_deed(method, receiver)),
        BuiltInMethod::Object(method) => {
            object_deed(alloc, space, program, method, receiver, argument)
        }
        BuiltInMethod::Content(method) => content_deed(
            alloc, space, program, method, receiver, argument, second,
        ),
        BuiltInMethod::Telling(method) => telling_deed(alloc, space, program, method, receiver),
        BuiltInMethod::New => new_deed(alloc, space, program, receiver, argument),
    }
}

/// Whether a value of the kind has the method.
fn responds(space: &Space, program: &Program, kind: Kind, value: Ref, method: BuiltInMethod) -> bool
    ensures { result ≡ responds program.now space.now kind value method }
{
    has(kind, method)
        && (!is_new(method) || may_make(program, value))
        && (!is_of_remote_errors(method)
            || program.descends(space.class_of(value), ClassId::REMOTE_ERROR))
}

/// How many arguments the method takes at most: `new` of an exception takes a message, and `join` a separator.
fn most_of(program: &Program, value: Ref, method: BuiltInMethod) -> usize
    ensures { result ≡ most_of program.now value method }
{
    if (is_new(method) && takes_message(program, value)) || is_join(method) {
        1
    } else {
        count_of(method)
    }
}

fn is_between(least: usize, most: usize, count: usize) -> bool
    ensures { result ≡ is_between least most count }
{
    least <= count && count <= most
}

/// What a call does.
fn call_deed(
    alloc: Global,
    space: &Space,
    program: &Program,
    receiver: Ref,
    method: BuiltInMethod,
    arguments: &[Ref],
) -> Result<Deed, Fault>
    requires receiver { IsWithin (length space.now.slots) receiver }
    requires arguments { All (IsWithin (length space.now.slots)) arguments.now }
    ensures act { IfOk result (λ deed. (below : Below) → IsReadWith space.now below → IsAmong below receiver → All (IsRefAmong below) arguments.now
        → act_of deed ≡ call_act program.now below receiver method arguments.now space.now) }
    ensures fit { IfOk result (λ deed. IsFit space.now receiver deed) }
    ensures among { IfOk result (λ deed. (below : Below) → IsReadWith space.now below → IsRefAmong below receiver → All (IsRefAmong below) arguments.now → IsDeedAmong below deed) }
    ensures fault { IfErr result (λ f. f ≡ Fault.Memory) }
{
    let kind = space.kind_of(receiver);
    if is_shell_kind(kind) {
        return Ok(raise(Problem::Moved));
    }
    if !responds(space, program, kind, receiver, method) {
        return Ok(Deed::Answer(Built::Missing));
    }
    let least = count_of(method);
    let most = most_of(program, receiver, method);
    if !is_between(least, most, arguments.len()) {
        return Ok(raise(Problem::Count {
            given: arguments.len(),
            least,
            most,
        }));
    }
    let argument = argument_at(arguments, 0);
    let second = argument_at(arguments, 1);
    method_deed(alloc, space, program, receiver, method, argument, second)
}

/// Calls any built-in method: a deed is made, and then done.
// It stays out of `call`, whose frequent calls are then short.
#[inline(never)]
pub(crate) fn call_any(
    alloc: Global,
    space: &mut Space,
    program: &Program,
    receiver: Ref,
    method: BuiltInMethod,
    arguments: &[Ref],
) -> Result<Built, Fault>
    requires receiver { IsWithin (length space.old.slots) receiver }
    requires arguments { All (IsWithin (length space.old.slots)) arguments.now }
    ensures act { (below : Below) → IsReadWith space.old below → IsAmong below receiver → All (IsRefAmong below) arguments.now
        → Acts below (called program.now below receiver method arguments.now) space.old space.new result }
    ensures served { IsServed space.old space.new result }
{
    let deed = call_deed(alloc, space, program, receiver, method, arguments)?;
    perform(alloc, space, receiver, deed)
}

/// Calls a built-in method. A refused growth leaves the objects as they were.
///
/// It is asked in this order whether the receiver was moved away, whether it has the method, whether the number of
/// arguments is right, whether the receiver is frozen where it is changed, and whether the arguments are of the right class.
///
/// What a call does is exact with any clusters among which are all that the space, the receiver and the arguments lead to,
/// and of which no two have one number.
pub fn call(
    alloc: Global,
    space: &mut Space,
    program: &Program,
    receiver: Ref,
    method: BuiltInMethod,
    arguments: &[Ref],
) -> Result<Built, Fault>
    requires receiver { IsWithin (length space.old.slots) receiver }
    requires arguments { All (IsWithin (length space.old.slots)) arguments.now }
    ensures act { (below : Below) → IsReadWith space.old below → IsAmong below receiver → All (IsRefAmong below) arguments.now
        → Acts below (called program.now below receiver method arguments.now) space.old space.new result }
    ensures served { IsServed space.old space.new result }
{
    match method {
        BuiltInMethod::Content(content) => {
            call_content(alloc, space, program, receiver, content, arguments)
        }
        _ => call_any(alloc, space, program, receiver, method, arguments),
    }
}
