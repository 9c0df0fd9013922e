//! Instance variables: what one holds, and what sets one.

ghost use Rattle.std.specs.Prelude.{◌≡◌, IsTrue, length};
ghost use Rattle.rr_space.specs.Tables.{Below};
ghost use Rattle.rr_space.specs.Parts.{IsWithin, value_of};
ghost use Rattle.rr_space.specs.Labels.{triples_at};
ghost use Rattle.rr_text.specs.Reads.{IsReadWith};
ghost use Rattle.rr_builtin.specs.Acts.{Acts, Gives, IsServed, IsRefAmong, changed};
ghost use Rattle.rr_builtin.specs.Fields.{field_at, field_in, has_fields, can_set, set_field, with_field};
ghost use Rattle.rr_builtin.specs.Fixed.{KeepsFixed};
ghost use Rattle.rr_builtin.specs.Rounds.{read_of, found, IsRoundWithin, IsRoundAmong};

use crate::built::Built;
use crate::kinds::is_shell_kind;
use crate::problem::Problem;
use crate::rounds::Round;
use rr_base::{Fault, Sym};
use rr_space::{Kind, Label, Ref, Space};

fn has_fields(kind: Kind) -> bool
    ensures { result ≡ has_fields kind }
{
    match kind {
        Kind::Object => true,
        Kind::Exception => true,
        _ => false,
    }
}

/// The value of the first field of the name.
#[inline(always)]
fn field_found(space: &Space, object: Ref, name: Sym) -> Round
    ensures is { read_of result ≡ found (field_in name.0 (triples_at space.now object)) }
    ensures within { IsRoundWithin (length space.now.slots) result }
    ensures among { (below : Below) → IsReadWith space.now below → IsRefAmong below object → IsRoundAmong below result }
{
    match space.read(object, Label::Field(name)) {
        Some(value) => Round::Item(value),
        None => Round::Absent,
    }
}

/// What an instance variable of an object holds.
#[inline(always)]
pub fn field_at(space: &Space, object: Ref, name: Sym) -> Round
    ensures is { read_of result ≡ field_at space.now object name.0 }
    ensures within { IsRoundWithin (length space.now.slots) result }
    ensures among { (below : Below) → IsReadWith space.now below → IsRefAmong below object → IsRoundAmong below result }
{
    let kind = space.kind_of(object);
    if is_shell_kind(kind) {
        Round::Moved
    } else if has_fields(kind) {
        field_found(space, object, name)
    } else {
        Round::Absent
    }
}

/// Whether the instance variables of an object may be set.
fn can_set(space: &Space, object: Ref) -> bool
    ensures { result ≡ can_set space.now object }
{
    has_fields(space.kind_of(object)) && space.can_write(object)
}

/// Sets an instance variable that may be set.
fn put_field(space: &mut Space, object: Ref, name: Sym, value: Ref) -> Result<Built, Fault>
    requires can { IsTrue (can_set space.old object) }
    requires value { IsWithin (length space.old.slots) value }
    ensures act { (below : Below) → IsReadWith space.old below → IsRefAmong below value → Acts below (λ t. (Gives (value_of value), changed (with_field name.0 (value_of value)) object t)) space.old space.new result }
    ensures served { IsServed space.old space.new result }
    ensures fixed { KeepsFixed space.old.slots space.new.slots }
{
    match space.write_field(object, name, value) {
        Ok(()) => Ok(Built::Value(value)),
        Err(fault) => Err(fault),
    }
}

/// Sets an instance variable of an object, and gives the value. `FrozenError` is raised where the object is frozen or published,
/// and where it is neither a plain object nor an exception; a shell raises `MovedError`.
///
/// It is refused with `Memory`. That leaves the objects as they were.
pub fn set_field(space: &mut Space, object: Ref, name: Sym, value: Ref) -> Result<Built, Fault>
    requires { IsWithin (length space.old.slots) value }
    ensures act { (below : Below) → IsReadWith space.old below → IsRefAmong below value → Acts below (set_field name.0 (value_of value) object) space.old space.new result }
    ensures served { IsServed space.old space.new result }
    ensures fixed { KeepsFixed space.old.slots space.new.slots }
{
    if is_shell_kind(space.kind_of(object)) {
        return Ok(Built::Raised(Problem::Moved));
    }
    if can_set(space, object) {
        put_field(space, object, name, value)
    } else {
        Ok(Built::Raised(Problem::Frozen(space.class_of(object))))
    }
}
