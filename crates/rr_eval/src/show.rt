//! What `p` prints of values that were asked by the program's `inspect`.

ghost use Rattle.std.specs.Prelude.{◌≡◌, [], ◌∷◌, ◌++◌, length, Some, IfOk, IfErr, OnOk};
ghost use Rattle.std.specs.List.{All};
ghost use Rattle.rr_base.specs.declared.fault.Fault.{Fault};
ghost use Rattle.rr_text.specs.Forms.{within_text};
ghost use Rattle.rr_text.specs.Names.{names_of};
ghost use Rattle.rr_text.specs.Reads.{IsReadWith, IsAmong};
ghost use Rattle.rr_text.specs.Ways.{text_of};
ghost use Rattle.rr_eval.specs.Published.{published};
ghost use Rattle.rr_eval.specs.Serves.{IsReplied, IsRefused};
ghost use Rattle.rr_eval.specs.Tasks.{shown_by, texts_shown, values_shown, joined_texts, lack_of, inspected_reply};
ghost use Rattle.rr_eval.specs.Within.{Reach, reach, IsReached};

use crate::call::Task;
use crate::print::{LINE_END, give_inspected, written_text};
use crate::problem::Response;
use rr_base::Fault;
use rr_builtin::Problem as BuiltInProblem;
use rr_space::{Ref, Space};
use rr_store::StoreState;
use rr_text::{Form, Text, text};
use rr_tree::Program;
use std::alloc::{AllocError, Global};

/// A text, and a line end behind it.
fn ended(text: Text) -> Result<Text, AllocError>
    ensures { IfOk result (λ ended. text_of ended ≡ within_text (λ s. s ++ 10 ∷ []) (text_of text)) }
{
    match text {
        Text::Bytes(mut bytes) => {
            bytes.push(LINE_END)?;
            Ok(Text::Bytes(bytes))
        }
        Text::Deep => Ok(Text::Deep),
        Text::Shell => Ok(Text::Shell),
    }
}

/// What is printed of a value for which the program's `inspect` gave this text, or nil where it gave none.
fn shown_text(
    alloc: Global,
    space: &Space,
    store: &StoreState,
    program: &Program,
    value: Ref,
    said: Ref,
) -> Result<Text, Fault>
    requires read { IsReadWith space.now (published store.now) }
    requires value { IsAmong (published store.now) value }
    requires said { IsAmong (published store.now) said }
    ensures text { IfOk result (λ text. text_of text ≡ shown_by (names_of program.now) space.now value said) }
    ensures fault { IfErr result (λ f. f ≡ Fault.Memory) }
{
    if let Ref::Nil = said {
        return written_text(alloc, space, store, program, Task::Inspect, value);
    }
    let text = text(alloc, space, program, said, Form::ToS)?;
    Ok(ended(text)?)
}

/// Writes what is printed of values and what they said, which stand by turns, up to a value that has no text, and answers why it has
/// none.
pub fn write_shown(
    alloc: Global,
    space: &Space,
    store: &StoreState,
    program: &Program,
    values: &[Ref],
    piece: &mut Vec<u8>,
) -> Result<Option<BuiltInProblem>, Fault>
    requires read { IsReadWith space.now (published store.now) }
    requires among { All (IsAmong (published store.now)) values.now }
    ensures piece { OnOk result (piece.new.items ≡ piece.old.items ++ joined_texts (texts_shown (names_of program.now) space.now values.now)) }
    ensures lack { IfOk result (λ lack. lack ≡ lack_of (texts_shown (names_of program.now) space.now values.now)) }
    ensures fault { IfErr result (λ f. f ≡ Fault.Memory) }
{
    let mut rest = values;
    while let [value, said, more @ ..] = rest {
        rest = more;
        match shown_text(alloc, space, store, program, *value, *said)? {
            Text::Bytes(bytes) => piece.extend_from_slice(bytes.as_slice())?,
            Text::Deep => return Ok(Some(BuiltInProblem::TooDeep)),
            Text::Shell => return Ok(Some(BuiltInProblem::Moved)),
        }
    }
    Ok(None)
}

/// The values among values and what they said, which stand by turns.
fn values_shown(alloc: Global, values: &[Ref]) -> Result<Vec<Ref>, AllocError>
    ensures are { IfOk result (λ shown. shown.items ≡ values_shown values.now) }
    ensures within { (k : Reach) → All (IsReached k) values.now → IfOk result (λ shown. All (IsReached k) shown.items) }
{
    let mut shown = Vec::new(alloc);
    let mut rest = values;
    while let [value, _, more @ ..] = rest {
        rest = more;
        shown.push(*value)?;
    }
    Ok(shown)
}

/// What `p` gives for values and what they said, which stand by turns.
pub fn give_shown(
    alloc: Global,
    space: &mut Space,
    store: &StoreState,
    values: &[Ref],
) -> Result<Response, Fault>
    requires read { IsReadWith space.old (published store.now) }
    requires reached { All (IsReached (reach (length space.old.slots) (Some (published store.now)))) values.now }
    ensures replied { IfOk result (λ r. IsReplied (published store.now) (inspected_reply (values_shown values.now) space.old) space.old r space.new) }
    ensures refused { IfErr result (IsRefused (inspected_reply (values_shown values.now) space.old) space.old) }
{
    let shown = values_shown(alloc, values)?;
    give_inspected(alloc, space, store, shown.as_slice())
}
