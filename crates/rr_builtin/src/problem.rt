//! The exceptions that built-in methods raise, and their messages.

ghost use Rattle.std.specs.Prelude.{◌≡◌, ◌++◌, codes, IfOk, OnOk};
ghost use Rattle.rr_builtin.specs.Problems.{problem_class, problem_text, count_text, expected_text, receiver_text, missing_text};
ghost use Rattle.rr_text.specs.Names.{names_of};

use itoa::Buffer;
use rr_base::{BuiltInClass, ClassId};
use rr_text::class_name;
use rr_tree::Program;
use std::alloc::AllocError;

/// Why a built-in method raises an exception.
#[derive(Clone, Copy, Drop)]
pub enum Problem {
    /// The divisor is 0.
    DividedByZero,
    /// The result does not fit 64 bits.
    OutOfRange,
    /// Another number of arguments than the method takes.
    Count {
        given: usize,
        least: usize,
        most: usize,
    },
    /// A frozen object of the class would be changed.
    Frozen(ClassId),
    /// Values of these classes have no order.
    Incomparable(ClassId, ClassId),
    /// An operand, or a key of a hash, of this class does not go there.
    WrongType(ClassId),
    /// No element has this place, and none can be put there.
    IndexOutOfRange,
    /// A text cannot be repeated so many times.
    Negative,
    /// The object was moved away.
    Moved,
    /// Containers stand in one another more levels deep than may be entered.
    TooDeep,
    /// An array that would be joined stands inside itself.
    Circular,
}

impl Problem {
    /// The class of the exception.
    pub fn class(self) -> BuiltInClass
        ensures { result ≡ problem_class self }
    {
        match self {
            Problem::DividedByZero => BuiltInClass::ZeroDivisionError,
            Problem::OutOfRange => BuiltInClass::RangeError,
            Problem::Count {
                given: _,
                least: _,
                most: _,
            } => BuiltInClass::ArgumentError,
            Problem::Frozen(_) => BuiltInClass::FrozenError,
            Problem::Incomparable(_, _) => BuiltInClass::ArgumentError,
            Problem::WrongType(_) => BuiltInClass::TypeError,
            Problem::IndexOutOfRange => BuiltInClass::IndexError,
            Problem::Negative => BuiltInClass::ArgumentError,
            Problem::Moved => BuiltInClass::MovedError,
            Problem::TooDeep => BuiltInClass::SystemStackError,
            Problem::Circular => BuiltInClass::ArgumentError,
        }
    }

    /// Writes the message of the exception.
    pub fn write(self, out: &mut Vec<u8>, program: &Program) -> Result<(), AllocError>
        ensures { OnOk result (out.new.items ≡ out.old.items ++ problem_text (names_of program.now) self) }
    {
        match self {
            Problem::DividedByZero => out.extend_from_slice(b"divided by 0"),
            Problem::OutOfRange => out.extend_from_slice(b"integer out of 64 bits"),
            Problem::Count { given, least, most } => write_count(out, given, least, most),
            Problem::Frozen(class) => {
                write_of_class(out, b"can't modify frozen ", class_name(program, class))
            }
            Problem::Incomparable(left, right) => {
                write_incomparable(out, class_name(program, left), class_name(program, right))
            }
            Problem::WrongType(class) => {
                write_of_class(out, b"wrong type ", class_name(program, class))
            }
            Problem::IndexOutOfRange => out.extend_from_slice(b"index out of range"),
            Problem::Negative => out.extend_from_slice(b"argument must be non-negative"),
            Problem::Moved => out.extend_from_slice(b"moved object"),
            Problem::TooDeep => out.extend_from_slice(b"stack level too deep"),
            Problem::Circular => out.extend_from_slice(b"recursive array join"),
        }
    }
}

/// Writes a text and the name of a class.
fn write_of_class(out: &mut Vec<u8>, text: &[u8], class: &[u8]) -> Result<(), AllocError>
    ensures { OnOk result (out.new.items ≡ out.old.items ++ (text.now ++ class.now)) }
{
    out.extend_from_slice(text)?;
    out.extend_from_slice(class)
}

/// Writes three texts.
fn write_three(
    out: &mut Vec<u8>,
    first: &[u8],
    second: &[u8],
    third: &[u8],
) -> Result<(), AllocError>
    ensures { OnOk result (out.new.items ≡ out.old.items ++ (first.now ++ second.now ++ third.now)) }
{
    out.extend_from_slice(first)?;
    out.extend_from_slice(second)?;
    out.extend_from_slice(third)
}

fn write_incomparable(out: &mut Vec<u8>, left: &[u8], right: &[u8]) -> Result<(), AllocError>
    ensures { OnOk result (out.new.items ≡ out.old.items ++ (codes "comparison of " ++ left.now ++ codes " with " ++ right.now ++ codes " failed")) }
{
    write_three(out, b"comparison of ", left, b" with ")?;
    write_of_class(out, right, b" failed")
}

/// Writes how many arguments a method takes.
fn write_expected(out: &mut Vec<u8>, least: usize, most: usize) -> Result<(), AllocError>
    ensures { OnOk result (out.new.items ≡ out.old.items ++ expected_text least most) }
{
    let mut buffer = Buffer::new();
    out.extend_from_slice(buffer.format(least).as_bytes())?;
    if least < most {
        out.extend_from_slice(b"..")?;
        let mut buffer = Buffer::new();
        out.extend_from_slice(buffer.format(most).as_bytes())?;
    }
    Ok(())
}

/// Writes how many arguments a method takes, and the bracket behind it.
fn write_expected_end(out: &mut Vec<u8>, least: usize, most: usize) -> Result<(), AllocError>
    ensures { OnOk result (out.new.items ≡ out.old.items ++ (expected_text least most ++ codes ")")) }
{
    write_expected(out, least, most)?;
    out.extend_from_slice(b")")
}

fn write_count(out: &mut Vec<u8>, given: usize, least: usize, most: usize) -> Result<(), AllocError>
    ensures { OnOk result (out.new.items ≡ out.old.items ++ count_text given least most) }
{
    let mut buffer = Buffer::new();
    let given = buffer.format(given).as_bytes();
    write_three(
        out,
        b"wrong number of arguments (given ",
        given,
        b", expected ",
    )?;
    write_expected_end(out, least, most)
}

/// What a message calls the receiver of a missing method.
#[derive(Clone, Copy, Drop)]
pub enum Receiver {
    Nil,
    Truth(bool),
    Class(ClassId),
    /// Another value, by its class.
    Instance(ClassId),
}

/// Writes what a message calls the receiver of a missing method.
fn write_receiver(
    out: &mut Vec<u8>,
    program: &Program,
    receiver: Receiver,
) -> Result<(), AllocError>
    ensures { OnOk result (out.new.items ≡ out.old.items ++ receiver_text (names_of program.now) receiver) }
{
    match receiver {
        Receiver::Nil => out.extend_from_slice(b"nil"),
        Receiver::Truth(true) => out.extend_from_slice(b"true"),
        Receiver::Truth(false) => out.extend_from_slice(b"false"),
        Receiver::Class(class) => write_of_class(out, b"class ", class_name(program, class)),
        Receiver::Instance(class) => {
            write_of_class(out, b"an instance of ", class_name(program, class))
        }
    }
}

/// Writes the message of the exception that a method is missing.
pub fn write_missing(
    out: &mut Vec<u8>,
    program: &Program,
    method: &[u8],
    receiver: Receiver,
) -> Result<(), AllocError>
    ensures { OnOk result (out.new.items ≡ out.old.items ++ missing_text (names_of program.now) method.now receiver) }
{
    write_three(out, b"undefined method '", method, b"' for ")?;
    write_receiver(out, program, receiver)
}
