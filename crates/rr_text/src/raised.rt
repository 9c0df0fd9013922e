//! The messages of exceptions.

ghost use Rattle.std.specs.Prelude.{◌≡◌, ℕ, map};
ghost use Rattle.rr_space.specs.Parts.{value_of};
ghost use Rattle.rr_space.specs.Tables.{Below, graph_of, resolve_triple};
ghost use Rattle.rr_space.specs.Labels.{triples_at};
ghost use Rattle.rr_space.specs.Kinds.{kind_at};
ghost use Rattle.rr_space.specs.Sound.{IsWell};
ghost use Rattle.rr_space.specs.Views.{text_at};
ghost use Rattle.rr_text.specs.Forms.{Names, message_in, message_text, told_by};
ghost use Rattle.rr_text.specs.Reads.{IsAmong, IsReadWith};
ghost use Rattle.rr_text.specs.Told.{told_kind, told_text, told_value};

use rr_space::{Kind, Label, Ref, Space};

/// What an exception tells as its message.
#[derive(Clone, Copy)]
pub(crate) enum Told<'a> {
    Text(&'a [u8]),
    /// The name of its class.
    Name,
    /// The message was moved away.
    Shell,
}

/// What an object tells as a message.
fn told_by_object(space: &Space, object: Ref) -> Told<'_>
    ensures { (names : Names) (c : ℕ) → told_text names c result ≡ told_by names c (told_kind (kind_at space.now object)) (text_at space.now object) }
{
    match space.kind_of(object) {
        Kind::Text => Told::Text(space.text_bytes(object)),
        Kind::Array => Told::Name,
        Kind::Hash => Told::Name,
        Kind::Object => Told::Name,
        Kind::Exception => Told::Name,
        Kind::Shell => Told::Shell,
        Kind::Nil => Told::Shell,
        Kind::Truth => Told::Shell,
        Kind::Integer => Told::Shell,
        Kind::Symbol => Told::Shell,
        Kind::Class => Told::Shell,
        Kind::Ractor => Told::Shell,
    }
}

/// What a value tells as a message.
fn told_by_value(space: &Space, value: Ref) -> Told<'_>
    ensures { (names : Names) (c : ℕ) → told_text names c result ≡ told_value names c space.now value (value_of value) }
{
    match value {
        Ref::Nil => Told::Name,
        Ref::False => Told::Name,
        Ref::True => Told::Name,
        Ref::Int(_) => Told::Name,
        Ref::Symbol(_) => Told::Name,
        Ref::Class(_) => Told::Name,
        Ref::Ractor(_) => Told::Name,
        Ref::Local(_) => told_by_object(space, value),
        Ref::Shared(_, _) => told_by_object(space, value),
    }
}

/// What an exception tells as its message.
pub(crate) fn message_of(space: &Space, exception: Ref) -> Told<'_>
    requires { IsWell space.now }
    ensures { (names : Names) (c : ℕ) (below : Below) → IsReadWith space.now below → IsAmong below exception
        → told_text names c result ≡ message_text names (graph_of space.now.slots below) c (message_in (map (resolve_triple space.now.slots) (triples_at space.now exception))) }
{
    match space.read(exception, Label::Message) {
        Some(value) => told_by_value(space, value),
        None => Told::Name,
    }
}
