//! The printed text of a value, behind bytes that are there already.

ghost use Rattle.std.specs.Prelude.{◌≡◌, IfOk, IfErr};
ghost use Rattle.rr_base.specs.declared.limits.TheConstants.Limits.{DEFAULT};
ghost use Rattle.rr_space.specs.Parts.{value_of};
ghost use Rattle.rr_space.specs.Tables.{Below, graph_of, resolve};
ghost use Rattle.rr_text.specs.Forms.{printed};
ghost use Rattle.rr_text.specs.Names.{names_of};
ghost use Rattle.rr_text.specs.Ways.{way_of, IsWrittenBehind};
ghost use Rattle.rr_text.specs.Reads.{IsAmong, IsReadWith};

use crate::form::{Form, Lack, Text};
use crate::plain::{push_immediate, push_text};
use crate::printing::text;
use rr_base::Fault;
use rr_space::{Kind, Ref, Space};
use rr_tree::Program;
use std::alloc::Global;

/// Writes the text of a value, as `text` gives it, behind what was written. Where it has none, what was written stays as it is,
/// and the answer says why. `Memory` is the only fault; after it a part of the text may stand behind what was written.
///
/// A value that is no object, and a text, are written at once; for all else its text is made apart and then copied.
#[inline(always)]
pub fn write_text(
    alloc: Global,
    space: &Space,
    program: &Program,
    value: Ref,
    form: Form,
    out: &mut Vec<u8>,
) -> Result<Option<Lack>, Fault>
    ensures written { IfOk result (λ lack. (below : Below) → IsReadWith space.now below → IsAmong below value
        → IsWrittenBehind lack out.old.items out.new.items (printed (names_of program.now) (graph_of space.now.slots below) DEFAULT.levels (way_of form) (resolve space.now.slots (value_of value)))) }
    ensures fault { IfErr result (λ e. e ≡ Fault.Memory) }
{
    if push_immediate(out, program, form, value)? {
        return Ok(None);
    }
    // No reference in the space leads nowhere, as the clause of the number of slots says.
    let _slots = space.len();
    let object = space.resolve(value);
    match space.kind_of(object) {
        Kind::Text => {
            push_text(out, form, space.text_bytes(object))?;
            Ok(None)
        }
        _ => write_walked(alloc, space, program, value, form, out),
    }
}

/// Writes the text of any value, by a walk of its own.
#[cold]
#[inline(never)]
fn write_walked(
    alloc: Global,
    space: &Space,
    program: &Program,
    value: Ref,
    form: Form,
    out: &mut Vec<u8>,
) -> Result<Option<Lack>, Fault>
    ensures written { IfOk result (λ lack. (below : Below) → IsReadWith space.now below → IsAmong below value
        → IsWrittenBehind lack out.old.items out.new.items (printed (names_of program.now) (graph_of space.now.slots below) DEFAULT.levels (way_of form) (resolve space.now.slots (value_of value)))) }
    ensures fault { IfErr result (λ e. e ≡ Fault.Memory) }
{
    match text(alloc, space, program, value, form)? {
        Text::Bytes(bytes) => {
            out.extend_from_slice(&bytes)?;
            Ok(None)
        }
        Text::Deep => Ok(Some(Lack::Deep)),
        Text::Shell => Ok(Some(Lack::Shell)),
    }
}
