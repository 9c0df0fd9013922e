//! Which methods the values of a kind have, and how many arguments they take.

ghost use Rattle.std.specs.Prelude.{◌≡◌};
ghost use Rattle.rr_builtin.specs.Kinds.{is_shell_kind, is_integer_kind, is_array_kind, is_added, has_order, has_operator, has_size, is_text_kind, is_appended, is_joined, is_hash, is_container, has_content, is_class, is_exception, has_telling, has, is_equality, has_own_text, has_own, stands_below_object, object_count, content_count, is_new, is_join, is_of_remote_errors, asks_ractor, count_of};

use crate::method::{BuiltInMethod, ContentMethod, ObjectMethod, TellingMethod};
use rr_space::Kind;
use rr_tree::BinaryOperator;

pub(crate) fn is_shell_kind(kind: Kind) -> bool
    ensures { result ≡ is_shell_kind kind }
{
    match kind {
        Kind::Shell => true,
        _ => false,
    }
}

pub(crate) fn is_integer_kind(kind: Kind) -> bool
    ensures { result ≡ is_integer_kind kind }
{
    match kind {
        Kind::Integer => true,
        _ => false,
    }
}

pub(crate) fn is_array_kind(kind: Kind) -> bool
    ensures { result ≡ is_array_kind kind }
{
    match kind {
        Kind::Array => true,
        _ => false,
    }
}

/// Whether values of the kind have `*`, and `<` and its kin.
fn is_added(kind: Kind) -> bool
    ensures { result ≡ is_added kind }
{
    match kind {
        Kind::Integer => true,
        Kind::Text => true,
        _ => false,
    }
}

/// Whether values of the kind have `+`.
fn is_joined(kind: Kind) -> bool
    ensures { result ≡ is_joined kind }
{
    match kind {
        Kind::Integer => true,
        Kind::Text => true,
        Kind::Array => true,
        _ => false,
    }
}

/// Whether values of the kind have `<=>`.
fn has_order(kind: Kind) -> bool
    ensures { result ≡ has_order kind }
{
    match kind {
        Kind::Integer => true,
        Kind::Text => true,
        Kind::Symbol => true,
        _ => false,
    }
}

fn has_operator(kind: Kind, operator: BinaryOperator) -> bool
    ensures { result ≡ has_operator kind operator }
{
    match operator {
        BinaryOperator::Add => is_joined(kind),
        BinaryOperator::Multiply => is_added(kind),
        BinaryOperator::Subtract => is_integer_kind(kind),
        BinaryOperator::Divide => is_integer_kind(kind),
        BinaryOperator::Remainder => is_integer_kind(kind),
        BinaryOperator::Less => is_added(kind),
        BinaryOperator::LessOrEqual => is_added(kind),
        BinaryOperator::Greater => is_added(kind),
        BinaryOperator::GreaterOrEqual => is_added(kind),
        BinaryOperator::Compare => has_order(kind),
        BinaryOperator::Equal => true,
        BinaryOperator::NotEqual => true,
    }
}

fn has_size(kind: Kind) -> bool
    ensures { result ≡ has_size kind }
{
    match kind {
        Kind::Text => true,
        Kind::Array => true,
        Kind::Hash => true,
        _ => false,
    }
}

pub(crate) fn is_text_kind(kind: Kind) -> bool
    ensures { result ≡ is_text_kind kind }
{
    match kind {
        Kind::Text => true,
        _ => false,
    }
}

/// Whether values of the kind have `<<`.
fn is_appended(kind: Kind) -> bool
    ensures { result ≡ is_appended kind }
{
    match kind {
        Kind::Text => true,
        Kind::Array => true,
        _ => false,
    }
}

pub(crate) fn is_container(kind: Kind) -> bool
    ensures { result ≡ is_container kind }
{
    match kind {
        Kind::Array => true,
        Kind::Hash => true,
        _ => false,
    }
}

#[inline(always)]
pub(crate) fn is_hash(kind: Kind) -> bool
    ensures { result ≡ is_hash kind }
{
    match kind {
        Kind::Hash => true,
        _ => false,
    }
}

fn has_content(kind: Kind, method: ContentMethod) -> bool
    ensures { result ≡ has_content kind method }
{
    match method {
        ContentMethod::Size => has_size(kind),
        ContentMethod::Length => has_size(kind),
        ContentMethod::IsEmpty => has_size(kind),
        ContentMethod::Append => is_appended(kind),
        ContentMethod::First => is_array_kind(kind),
        ContentMethod::Last => is_array_kind(kind),
        ContentMethod::At => has_size(kind),
        ContentMethod::Push => is_array_kind(kind),
        ContentMethod::Pop => is_array_kind(kind),
        ContentMethod::Shift => is_array_kind(kind),
        ContentMethod::Includes => is_appended(kind),
        ContentMethod::SetAt => is_container(kind),
        ContentMethod::Keys => is_hash(kind),
        ContentMethod::Values => is_hash(kind),
        ContentMethod::HasKey => is_hash(kind),
        ContentMethod::Delete => is_hash(kind),
        ContentMethod::Sum => is_array_kind(kind),
        ContentMethod::Sort => is_array_kind(kind),
        ContentMethod::Join => is_array_kind(kind),
    }
}

fn is_class(kind: Kind) -> bool
    ensures { result ≡ is_class kind }
{
    match kind {
        Kind::Class => true,
        _ => false,
    }
}

pub(crate) fn is_exception(kind: Kind) -> bool
    ensures { result ≡ is_exception kind }
{
    match kind {
        Kind::Exception => true,
        _ => false,
    }
}

fn has_telling(kind: Kind, method: TellingMethod) -> bool
    ensures { result ≡ has_telling kind method }
{
    match method {
        TellingMethod::Name => is_class(kind),
        TellingMethod::Message => is_exception(kind),
        TellingMethod::Cause => is_exception(kind),
        TellingMethod::Ractor => is_exception(kind),
    }
}

/// Whether values of the kind have the method.
pub fn has(kind: Kind, method: BuiltInMethod) -> bool
    ensures { result ≡ has kind method }
{
    match method {
        BuiltInMethod::Operator(operator) => has_operator(kind, operator),
        BuiltInMethod::Number(_) => is_integer_kind(kind),
        BuiltInMethod::Object(_) => true,
        BuiltInMethod::Content(method) => has_content(kind, method),
        BuiltInMethod::Telling(method) => has_telling(kind, method),
        BuiltInMethod::New => is_class(kind),
    }
}

fn is_equality(operator: BinaryOperator) -> bool
    ensures { result ≡ is_equality operator }
{
    match operator {
        BinaryOperator::Equal => true,
        BinaryOperator::NotEqual => true,
        _ => false,
    }
}

/// Whether values of the kind have a `to_s` of their own.
fn has_own_text(kind: Kind) -> bool
    ensures { result ≡ has_own_text kind }
{
    match kind {
        Kind::Integer => true,
        Kind::Symbol => true,
        Kind::Class => true,
        Kind::Text => true,
        Kind::Exception => true,
        _ => false,
    }
}

/// Whether a method that all values have stands for the kind in a class of its own.
fn has_own(kind: Kind, method: ObjectMethod) -> bool
    ensures { result ≡ has_own kind method }
{
    match method {
        ObjectMethod::ToS => has_own_text(kind),
        _ => false,
    }
}

/// Whether the method that values of the kind have stands in a class below Object. It then comes before a method of the program
/// that stands in Object.
pub fn stands_below_object(kind: Kind, method: BuiltInMethod) -> bool
    ensures { result ≡ stands_below_object kind method }
{
    match method {
        BuiltInMethod::Operator(operator) => {
            has_operator(kind, operator) && !is_equality(operator)
        }
        BuiltInMethod::Number(_) => is_integer_kind(kind),
        BuiltInMethod::Object(method) => has_own(kind, method),
        BuiltInMethod::Content(method) => has_content(kind, method),
        BuiltInMethod::Telling(method) => has_telling(kind, method),
        BuiltInMethod::New => is_class(kind),
    }
}

fn object_count(method: ObjectMethod) -> usize
    ensures { result ≡ object_count method }
{
    match method {
        ObjectMethod::IsIdentical => 1,
        ObjectMethod::IsA => 1,
        ObjectMethod::KindOf => 1,
        _ => 0,
    }
}

fn content_count(method: ContentMethod) -> usize
    ensures { result ≡ content_count method }
{
    match method {
        ContentMethod::At => 1,
        ContentMethod::Append => 1,
        ContentMethod::Push => 1,
        ContentMethod::Includes => 1,
        ContentMethod::SetAt => 2,
        ContentMethod::HasKey => 1,
        ContentMethod::Delete => 1,
        _ => 0,
    }
}

pub(crate) fn is_new(method: BuiltInMethod) -> bool
    ensures { result ≡ is_new method }
{
    match method {
        BuiltInMethod::Operator(_) => false,
        BuiltInMethod::Number(_) => false,
        BuiltInMethod::Object(_) => false,
        BuiltInMethod::Content(_) => false,
        BuiltInMethod::Telling(_) => false,
        BuiltInMethod::New => true,
    }
}

/// Whether the method joins an array.
pub(crate) fn is_join(method: BuiltInMethod) -> bool
    ensures { result ≡ is_join method }
{
    match method {
        BuiltInMethod::Content(ContentMethod::Join) => true,
        _ => false,
    }
}

/// Whether remote errors alone have the method.
pub(crate) fn is_of_remote_errors(method: BuiltInMethod) -> bool
    ensures { result ≡ is_of_remote_errors method }
{
    match method {
        BuiltInMethod::Operator(_) => false,
        BuiltInMethod::Number(_) => false,
        BuiltInMethod::Object(_) => false,
        BuiltInMethod::Content(_) => false,
        BuiltInMethod::Telling(method) => asks_ractor(method),
        BuiltInMethod::New => false,
    }
}

fn asks_ractor(method: TellingMethod) -> bool
    ensures { result ≡ asks_ractor method }
{
    match method {
        TellingMethod::Name => false,
        TellingMethod::Message => false,
        TellingMethod::Cause => false,
        TellingMethod::Ractor => true,
    }
}

/// How many arguments the method takes at least.
pub(crate) fn count_of(method: BuiltInMethod) -> usize
    ensures { result ≡ count_of method }
{
    match method {
        BuiltInMethod::Operator(_) => 1,
        BuiltInMethod::Number(_) => 0,
        BuiltInMethod::Object(method) => object_count(method),
        BuiltInMethod::Content(method) => content_count(method),
        BuiltInMethod::Telling(_) => 0,
        BuiltInMethod::New => 0,
    }
}
