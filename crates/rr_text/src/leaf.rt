//! Objects that have their text by themselves.

ghost use Rattle.std.specs.Prelude.{◌≡◌, ◌≤◌, ℕ, length, map, IfOk};
ghost use Rattle.rr_space.specs.Graph.{array, hash};
ghost use Rattle.rr_space.specs.Tables.{Below, graph_of, resolve_triple};
ghost use Rattle.rr_space.specs.Labels.{triples_at};
ghost use Rattle.rr_space.specs.Kinds.{kind_at};
ghost use Rattle.rr_space.specs.Sound.{IsWell};
ghost use Rattle.rr_text.specs.Forms.{Names, exception_written, message_in, message_text, leaf_text, within_text};
ghost use Rattle.rr_text.specs.Names.{names_of};
ghost use Rattle.rr_text.specs.Reads.{IsAmong, IsReadWith};
ghost use Rattle.rr_text.specs.Told.{told_kind, told_object, IsLeafWritten};
ghost use Rattle.rr_text.specs.Ways.{way_of};

use crate::form::Form;
use crate::names::class_name;
use crate::plain::{push_exception, push_plain, push_text};
use crate::raised::{Told, message_of};
use rr_space::{Kind, Ref, Space};
use rr_tree::Program;
use std::alloc::AllocError;

/// Writes an exception of the class, and tells whether its message was not moved away.
fn write_exception(
    out: &mut Vec<u8>,
    space: &Space,
    form: Form,
    class: &[u8],
    exception: Ref,
) -> Result<bool, AllocError>
    requires { IsWell space.now }
    ensures written { IfOk result (λ now. (names : Names) (c : ℕ) (below : Below) → names.class c ≡ class.now → IsReadWith space.now below → IsAmong below exception
        → IsLeafWritten (within_text (exception_written names (way_of form) c) (message_text names (graph_of space.now.slots below) c (message_in (map (resolve_triple space.now.slots) (triples_at space.now exception))))) now out.old.items out.new.items) }
    ensures longer { IfOk result (λ _. length out.old.items ≤ length out.new.items) }
{
    match message_of(space, exception) {
        Told::Text(message) => {
            push_exception(out, form, class, message)?;
            Ok(true)
        }
        Told::Name => {
            push_exception(out, form, class, class)?;
            Ok(true)
        }
        Told::Shell => Ok(false),
    }
}

/// Writes an object that is no container, and tells whether it is no shell.
pub(crate) fn write_leaf(
    out: &mut Vec<u8>,
    space: &Space,
    program: &Program,
    form: Form,
    object: Ref,
) -> Result<bool, AllocError>
    requires well { IsWell space.now }
    requires array { told_kind (kind_at space.now object) ≡ array → ⊥ }
    requires hash { told_kind (kind_at space.now object) ≡ hash → ⊥ }
    ensures written { IfOk result (λ now. (below : Below) → IsReadWith space.now below → IsAmong below object
        → IsLeafWritten (leaf_text (names_of program.now) (graph_of space.now.slots below) (way_of form) (told_kind (kind_at space.now object)) (told_object space.now object)) now out.old.items out.new.items) }
    ensures longer { IfOk result (λ _. length out.old.items ≤ length out.new.items) }
{
    match space.kind_of(object) {
        Kind::Text => {
            push_text(out, form, space.text_bytes(object))?;
            Ok(true)
        }
        Kind::Object => {
            push_plain(out, form, class_name(program, space.class_of(object)))?;
            Ok(true)
        }
        Kind::Exception => {
            let class = class_name(program, space.class_of(object));
            let written = write_exception(out, space, form, class, object)?;
            Ok(written)
        }
        Kind::Array => Ok(false),
        Kind::Hash => Ok(false),
        Kind::Shell => Ok(false),
        Kind::Nil => Ok(false),
        Kind::Truth => Ok(false),
        Kind::Integer => Ok(false),
        Kind::Symbol => Ok(false),
        Kind::Class => Ok(false),
        Kind::Ractor => Ok(false),
    }
}
