//! The methods of all values but of what is left of moved objects.

ghost use Rattle.std.specs.Prelude.{◌≡◌, ℕ, IfOk, IfErr, length};
ghost use Rattle.rr_space.specs.Tables.{Below, Table};
ghost use Rattle.rr_space.specs.Parts.{IsWithin};
ghost use Rattle.rr_space.specs.Kinds.{kind_at};
ghost use Rattle.rr_text.specs.Names.{names_of};
ghost use Rattle.rr_text.specs.Ways.{way_of};
ghost use Rattle.rr_text.specs.Reads.{IsAmong, IsReadWith};
ghost use Rattle.rr_builtin.specs.Acts.{IsRefAmong, Answers, Raises};
ghost use Rattle.rr_builtin.specs.Deeds.{act_of, IsFit, IsDeedAmong};
ghost use Rattle.rr_builtin.specs.Objects.{identical, is_truthy, is_nil, answers_frozen, told, printed_text, spoken_act, kind_of_act, copy_act, object_act, equals, truth};

use crate::arrays::elements;
use crate::built::Built;
use crate::copies::{exception_copy, plain_copy};
use crate::deed::Deed;
use crate::hash_copies::hash_copy;
use crate::kinds::is_text_kind;
use crate::method::ObjectMethod;
use crate::problem::Problem;
use rr_base::Fault;
use rr_space::{Kind, Ref, Space};
use rr_text::{Form, Text, text};
use rr_tree::Program;
use std::alloc::Global;

/// Whether two values are one immediate or one object.
fn is_identical(space: &Space, left: Ref, right: Ref) -> bool
    ensures { result ≡ identical space.now left right }
{
    space.same(left, right)
}

/// Whether a value counts as true.
pub fn is_truthy(value: Ref) -> bool
    ensures { result ≡ is_truthy value }
{
    match value {
        Ref::Nil => false,
        Ref::False => false,
        _ => true,
    }
}

fn is_nil(value: Ref) -> bool
    ensures { result ≡ is_nil value }
{
    match value {
        Ref::Nil => true,
        _ => false,
    }
}

/// What `frozen?` answers.
fn answers_frozen(space: &Space, value: Ref) -> bool
    ensures { result ≡ answers_frozen space.now value }
{
    match value {
        Ref::Class(_) => false,
        Ref::Ractor(_) => false,
        _ => space.is_frozen(value),
    }
}

pub(crate) fn truth(holds: bool) -> Deed
    ensures act { act_of result ≡ truth holds }
    ensures fit { (value : Ref) (space : Table) → IsFit space value result }
    ensures among { (below : Below) → IsDeedAmong below result }
{
    Deed::Answer(Built::Value(Ref::truth(holds)))
}

pub(crate) fn raise(problem: Problem) -> Deed
    ensures act { act_of result ≡ Answers (Raises problem) }
    ensures fit { (value : Ref) (space : Table) → IsFit space value result }
    ensures among { (below : Below) → IsDeedAmong below result }
{
    Deed::Answer(Built::Raised(problem))
}

/// The text of a value as a new object.
pub(crate) fn told(
    alloc: Global,
    space: &Space,
    program: &Program,
    value: Ref,
    form: Form,
) -> Result<Deed, Fault>
    ensures act { IfOk result (λ deed. (below : Below) → IsReadWith space.now below → IsAmong below value
        → act_of deed ≡ told (printed_text (names_of program.now) below (way_of form) space.now value)) }
    ensures fit { IfOk result (λ deed. IsFit space.now value deed) }
    ensures among { IfOk result (λ deed. (below : Below) → IsDeedAmong below deed) }
    ensures fault { IfErr result (λ f. f ≡ Fault.Memory) }
{
    match text(alloc, space, program, value, form)? {
        Text::Bytes(bytes) => Ok(Deed::Make(bytes)),
        Text::Deep => Ok(raise(Problem::TooDeep)),
        Text::Shell => Ok(raise(Problem::Moved)),
    }
}

/// `to_s`: a text itself, and the text of anything else.
fn spoken(alloc: Global, space: &Space, program: &Program, value: Ref) -> Result<Deed, Fault>
    requires { IsWithin (length space.now.slots) value }
    ensures act { IfOk result (λ deed. (below : Below) → IsReadWith space.now below → IsAmong below value
        → act_of deed ≡ spoken_act (names_of program.now) below value space.now) }
    ensures fit { IfOk result (λ deed. IsFit space.now value deed) }
    ensures among { IfOk result (λ deed. (below : Below) → IsRefAmong below value → IsDeedAmong below deed) }
    ensures fault { IfErr result (λ f. f ≡ Fault.Memory) }
{
    if is_text_kind(space.kind_of(value)) {
        Ok(Deed::Answer(Built::Value(value)))
    } else {
        told(alloc, space, program, value, Form::ToS)
    }
}

/// `is_a?`: whether the class of a value is the class, or one below it.
fn kind_of_deed(space: &Space, program: &Program, value: Ref, class: Ref) -> Deed
    ensures act { act_of result ≡ kind_of_act program.now value class space.now }
    ensures fit { IsFit space.now value result }
    ensures among { (below : Below) → IsDeedAmong below result }
{
    match class {
        Ref::Class(class) => truth(program.descends(space.class_of(value), class)),
        _ => raise(Problem::WrongType(space.class_of(class))),
    }
}

/// `dup`: a text, an array, a hash, an object or an exception anew, and any other value itself.
fn copy_deed(alloc: Global, space: &Space, value: Ref) -> Result<Deed, Fault>
    requires { IsWithin (length space.now.slots) value }
    ensures act { IfOk result (λ deed. (below : Below) → IsReadWith space.now below → IsAmong below value → act_of deed ≡ copy_act below (kind_at space.now value) value space.now) }
    ensures fit { IfOk result (λ deed. IsFit space.now value deed) }
    ensures among { IfOk result (λ deed. (below : Below) → IsReadWith space.now below → IsRefAmong below value → IsDeedAmong below deed) }
    ensures fault { IfErr result (λ f. f ≡ Fault.Memory) }
{
    match space.kind_of(value) {
        Kind::Text => Ok(Deed::Make(space.text_bytes(value).to_vec(alloc)?)),
        Kind::Array => Ok(Deed::MakeArray(elements(alloc, space, value, 0)?)),
        Kind::Hash => Ok(Deed::MakeNode(hash_copy(alloc, space, value)?)),
        Kind::Object => Ok(Deed::MakeNode(plain_copy(alloc, space, value)?)),
        Kind::Exception => Ok(Deed::MakeNode(exception_copy(alloc, space, value)?)),
        _ => Ok(Deed::Answer(Built::Value(value))),
    }
}

/// A method that all values have.
pub(crate) fn object_deed(
    alloc: Global,
    space: &Space,
    program: &Program,
    method: ObjectMethod,
    value: Ref,
    argument: Ref,
) -> Result<Deed, Fault>
    requires { IsWithin (length space.now.slots) value }
    ensures act { IfOk result (λ deed. (below : Below) → IsReadWith space.now below → IsAmong below value
        → act_of deed ≡ object_act program.now below method value argument space.now) }
    ensures fit { IfOk result (λ deed. IsFit space.now value deed) }
    ensures among { IfOk result (λ deed. (below : Below) → IsReadWith space.now below → IsRefAmong below value → IsDeedAmong below deed) }
    ensures fault { IfErr result (λ f. f ≡ Fault.Memory) }
{
    match method {
        ObjectMethod::Class => Ok(Deed::Answer(Built::Value(Ref::Class(space.class_of(value))))),
        ObjectMethod::IsA => Ok(kind_of_deed(space, program, value, argument)),
        ObjectMethod::KindOf => Ok(kind_of_deed(space, program, value, argument)),
        ObjectMethod::IsNil => Ok(truth(is_nil(value))),
        ObjectMethod::IsIdentical => Ok(truth(is_identical(space, value, argument))),
        ObjectMethod::Not => Ok(truth(!is_truthy(value))),
        ObjectMethod::Freeze => Ok(Deed::Freeze),
        ObjectMethod::IsFrozen => Ok(truth(answers_frozen(space, value))),
        ObjectMethod::ToS => spoken(alloc, space, program, value),
        ObjectMethod::Inspect => told(alloc, space, program, value, Form::Inspect),
        ObjectMethod::Dup => copy_deed(alloc, space, value),
    }
}

/// Whether two values are equal that are no containers: texts by their bytes, and all else where it is the same.
pub(crate) fn is_equal(space: &Space, left: Ref, right: Ref) -> bool
    ensures { result ≡ equals space.now left right }
{
    if is_text_kind(space.kind_of(left)) && is_text_kind(space.kind_of(right)) {
        space.text_bytes(left) == space.text_bytes(right)
    } else {
        is_identical(space, left, right)
    }
}
