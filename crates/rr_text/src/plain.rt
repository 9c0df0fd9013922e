//! What has its text by itself: immediates, texts, plain objects and exceptions.

ghost use Rattle.std.specs.Prelude.{◌≡◌, ◌-◌, ◌==◌, ◌++◌, List, ℕ, codes, length, slice_index, IfOk, OnOk};
ghost use Rattle.std.specs.Fmt.{decimal};
ghost use Rattle.rr_space.specs.Parts.{value_of};
ghost use Rattle.rr_text.specs.Forms.{Names, written, text_written, line_end, truth_text, immediate_spoken, immediate_written, plain_written, exception_written};
ghost use Rattle.rr_text.specs.Names.{names_of};
ghost use Rattle.rr_text.specs.Ways.{way_of, IsWrittenNow};
ghost use Rattle.rr_space.specs.Graph.{Nil, SymbolNo, RactorNo as RactorValue};

use crate::form::Form;
use crate::names::{class_name, symbol_name};
use crate::quote::push_quoted;
use itoa::Buffer;
use rr_base::RactorNo;
use rr_space::Ref;
use rr_tree::Program;
use std::alloc::AllocError;

const LINE_END: u8 = 10;

/// Whether a text ends with a line end.
fn is_ended(bytes: &[u8]) -> bool
    ensures { result ≡ (slice_index bytes.now (length bytes.now - 1) == 10) }
{
    match bytes.last() {
        Some(byte) => *byte == LINE_END,
        None => false,
    }
}

/// Writes the line end of `puts`.
pub(crate) fn push_line_end(out: &mut Vec<u8>, form: Form) -> Result<(), AllocError>
    ensures { OnOk result (out.new.items ≡ out.old.items ++ line_end (way_of form)) }
{
    match form {
        Form::ToS => Ok(()),
        Form::Inspect => Ok(()),
        Form::Puts => {
            out.push(LINE_END)?;
            Ok(())
        }
    }
}

/// Writes a text as it is; `puts` ends it with a line end, unless it has one.
pub(crate) fn push_written(out: &mut Vec<u8>, form: Form, bytes: &[u8]) -> Result<(), AllocError>
    ensures { OnOk result (out.new.items ≡ out.old.items ++ written (way_of form) bytes.now) }
{
    out.extend_from_slice(bytes)?;
    match form {
        Form::ToS => Ok(()),
        Form::Inspect => Ok(()),
        Form::Puts => {
            if !is_ended(bytes) {
                out.push(LINE_END)?;
            }
            Ok(())
        }
    }
}

/// Writes a text; `inspect` writes it between quotes.
pub(crate) fn push_text(out: &mut Vec<u8>, form: Form, bytes: &[u8]) -> Result<(), AllocError>
    ensures { OnOk result (out.new.items ≡ out.old.items ++ text_written (way_of form) bytes.now) }
{
    match form {
        Form::ToS => push_written(out, form, bytes),
        Form::Inspect => push_quoted(out, bytes),
        Form::Puts => push_written(out, form, bytes),
    }
}

fn push_nil(out: &mut Vec<u8>, form: Form) -> Result<(), AllocError>
    ensures { (names : Names) → OnOk result (out.new.items ≡ out.old.items ++ immediate_written names (way_of form) Nil) }
{
    match form {
        Form::ToS => Ok(()),
        Form::Inspect => out.extend_from_slice(b"nil"),
        Form::Puts => push_line_end(out, form),
    }
}

fn push_symbol(out: &mut Vec<u8>, form: Form, name: &[u8]) -> Result<(), AllocError>
    ensures { (names : Names) (n : ℕ) → names.symbol n ≡ name.now → OnOk result (out.new.items ≡ out.old.items ++ immediate_written names (way_of form) (SymbolNo n)) }
{
    match form {
        Form::ToS => push_written(out, form, name),
        Form::Inspect => {
            out.push(58)?;
            out.extend_from_slice(name)
        }
        Form::Puts => push_written(out, form, name),
    }
}

fn push_ractor(out: &mut Vec<u8>, form: Form, ractor: RactorNo) -> Result<(), AllocError>
    ensures { (names : Names) → OnOk result (out.new.items ≡ out.old.items ++ immediate_written names (way_of form) (RactorValue ractor.0)) }
{
    out.extend_from_slice(b"#<Ractor:#")?;
    let mut buffer = Buffer::new();
    out.extend_from_slice(buffer.format(ractor.0).as_bytes())?;
    out.push(62)?;
    push_line_end(out, form)
}

/// The text of true and false.
pub(crate) fn truth_bytes(holds: bool) -> &'static [u8]
    ensures { result.now ≡ truth_text holds }
{
    match holds {
        true => b"true",
        false => b"false",
    }
}

/// Writes a value that is no object, and tells whether it is none.
pub(crate) fn push_immediate(
    out: &mut Vec<u8>,
    program: &Program,
    form: Form,
    value: Ref,
) -> Result<bool, AllocError>
    ensures { IfOk result (λ now. IsWrittenNow (names_of program.now) (way_of form) (value_of value) now out.old.items out.new.items) }
{
    match value {
        Ref::Nil => push_nil(out, form)?,
        Ref::False => push_written(out, form, truth_bytes(false))?,
        Ref::True => push_written(out, form, truth_bytes(true))?,
        Ref::Int(number) => {
            let mut buffer = Buffer::new();
            push_written(out, form, buffer.format(number).as_bytes())?
        }
        Ref::Symbol(symbol) => push_symbol(out, form, symbol_name(program, symbol))?,
        Ref::Class(class) => push_written(out, form, class_name(program, class))?,
        Ref::Ractor(ractor) => push_ractor(out, form, ractor)?,
        Ref::Local(_) => return Ok(false),
        Ref::Shared(_, _) => return Ok(false),
    }
    Ok(true)
}

/// Writes a plain object of the class.
pub(crate) fn push_plain(out: &mut Vec<u8>, form: Form, class: &[u8]) -> Result<(), AllocError>
    ensures { (names : Names) (c : ℕ) → names.class c ≡ class.now → OnOk result (out.new.items ≡ out.old.items ++ plain_written names (way_of form) c) }
{
    out.extend_from_slice(b"#<")?;
    out.extend_from_slice(class)?;
    out.push(62)?;
    push_line_end(out, form)
}

/// Writes an exception of the class, by its message.
pub(crate) fn push_exception(
    out: &mut Vec<u8>,
    form: Form,
    class: &[u8],
    message: &[u8],
) -> Result<(), AllocError>
    ensures { (names : Names) (c : ℕ) → names.class c ≡ class.now → OnOk result (out.new.items ≡ out.old.items ++ exception_written names (way_of form) c message.now) }
{
    match form {
        Form::ToS => push_written(out, form, message),
        Form::Inspect => {
            out.extend_from_slice(b"#<")?;
            out.extend_from_slice(class)?;
            out.extend_from_slice(b": ")?;
            out.extend_from_slice(message)?;
            out.push(62)?;
            Ok(())
        }
        Form::Puts => push_written(out, form, message),
    }
}
