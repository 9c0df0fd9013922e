//! Exceptions as objects.

ghost use Rattle.std.specs.Prelude.{◌≡◌, [], length, IfOk, IfErr};
ghost use Rattle.rr_space.specs.Tables.{Below};
ghost use Rattle.rr_space.specs.Parts.{IsWithin};
ghost use Rattle.rr_text.specs.Reads.{IsReadWith};
ghost use Rattle.rr_builtin.specs.Acts.{IsRefAmong};
ghost use Rattle.rr_eval.specs.Acts.{IsRefusal, Passes};
ghost use Rattle.rr_eval.specs.Changes.{Changes};
ghost use Rattle.rr_space.specs.Kinds.{kind_at};
ghost use Rattle.rr_space.specs.Views.{text_at};
ghost use Rattle.rr_eval.specs.Exceptions.{with_exception, told_message, HasMessage, IsTold};
ghost use Rattle.rr_eval.specs.Messages.{exception_class};

use crate::problem::Problem;
use rr_base::{BuiltInClass, ClassId, Fault};
use rr_space::{Kind, Label, Node, Raised, Ref, Space};
use rr_tree::Program;
use std::alloc::{AllocError, Global};

/// The class of the exception that a problem raises.
pub fn exception_class(problem: Problem) -> BuiltInClass
    ensures { result ≡ exception_class problem }
{
    match problem {
        Problem::BuiltIn(problem) => problem.class(),
        Problem::MissingMethod(_, _) => BuiltInClass::NoMethodError,
        Problem::MissingName(_) | Problem::MissingConstant(_) => BuiltInClass::NameError,
        Problem::IsolatedConstant(_) | Problem::IsolatedGlobal(_) => BuiltInClass::IsolationError,
        Problem::UnknownKeyword => BuiltInClass::ArgumentError,
        Problem::NoRactorBlock => BuiltInClass::ArgumentError,
        Problem::UsesYield => BuiltInClass::ArgumentError,
        Problem::NoRactors => BuiltInClass::RactorError,
        Problem::HistoryFull => BuiltInClass::RactorError,
        Problem::NotRaisable => BuiltInClass::TypeError,
        Problem::NoBlock | Problem::Jump => BuiltInClass::LocalJumpError,
        Problem::Unhandled | Problem::NotHere => BuiltInClass::RuntimeError,
    }
}

/// What a new exception leads to: its message, its cause, no ractor.
fn raised_of(alloc: Global, message: Ref, cause: Ref) -> Result<Box<Raised>, AllocError>
    ensures message { IfOk result (λ raised. raised.value.message ≡ message) }
    ensures cause { IfOk result (λ raised. raised.value.cause ≡ cause) }
    ensures ractor { IfOk result (λ raised. raised.value.ractor ≡ Ref.Nil) }
    ensures fields { IfOk result (λ raised. raised.value.fields.items ≡ []) }
{
    let raised = Raised {
        message,
        cause,
        ractor: Ref::Nil,
        fields: Vec::new(alloc),
    };
    Ok(Box::new(alloc, raised)?)
}

/// Makes a new exception. A refused growth leaves the objects as they were.
pub fn make_exception(
    alloc: Global,
    space: &mut Space,
    class: ClassId,
    message: Ref,
    cause: Ref,
) -> Result<Ref, Fault>
    requires message { IsWithin (length space.old.slots) message }
    requires cause { IsWithin (length space.old.slots) cause }
    ensures name { IfOk result (λ exception. exception ≡ Ref.Local (length space.old.slots)) }
    ensures made { IfOk result (λ _. space.new ≡ with_exception class message cause space.old) }
    ensures read { (below : Below) → IsReadWith space.old below → IsRefAmong below message → IsRefAmong below cause → IsReadWith space.new below }
    ensures kept { IfErr result (λ _. space.new ≡ space.old) }
    ensures refused { IfErr result IsRefusal }
    ensures limit { space.new.limit ≡ space.old.limit }
    ensures changed { Changes space.old space.new }
    ensures full { IfErr result (λ f. Passes f space.old.limit (length (with_exception class message cause space.old).slots)) }
{
    let raised = raised_of(alloc, message, cause)?;
    match space.alloc(Node::Exception(class, raised)) {
        Ok(exception) => Ok(exception),
        Err(fault) => Err(fault),
    }
}

/// What is told of a message: its bytes where it is a text, and else the name of the class.
fn told_message<'a>(space: &'a Space, message: Ref, class: &'a [u8]) -> &'a [u8]
    ensures { result.now ≡ told_message class.now (kind_at space.now message) (text_at space.now message) }
{
    match space.kind_of(message) {
        Kind::Text => space.text_bytes(message),
        _ => class,
    }
}

/// What is told of the message of an exception, whose class has this name.
fn message_of<'a>(space: &'a Space, exception: Ref, class: &'a [u8]) -> &'a [u8]
    ensures { HasMessage space.now exception class.now result.now }
{
    match space.read(exception, Label::Message) {
        Some(message) => told_message(space, message, class),
        None => class,
    }
}

/// What is told of an exception that nothing rescues: `MESSAGE (CLASS)`. Without a text its message is its class's name.
pub fn report(
    alloc: Global,
    program: &Program,
    space: &Space,
    exception: Ref,
) -> Result<Vec<u8>, AllocError>
    ensures { IfOk result (λ told. IsTold space.now exception told.items) }
{
    let class = program.class_name(space.class_of(exception));
    let mut told = Vec::from_slice(alloc, message_of(space, exception, class))?;
    told.extend_from_slice(b" (")?;
    told.extend_from_slice(class)?;
    told.extend_from_slice(b")")?;
    Ok(told)
}
