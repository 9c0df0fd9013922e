//! The cause of an exception that is raised.

ghost use Rattle.std.specs.Prelude.{◌≡◌, length};
ghost use Rattle.rr_space.specs.Tables.{Below, IsRestKept};
ghost use Rattle.rr_space.specs.Parts.{IsWithin, value_of};
ghost use Rattle.rr_text.specs.Reads.{IsReadWith};
ghost use Rattle.rr_builtin.specs.Acts.{IsRefAmong, element_at};
ghost use Rattle.rr_builtin.specs.Causes.{is_nil, leads, takes_cause, caused};
ghost use Rattle.rr_builtin.specs.Fixed.{KeepsFixed};

use crate::messages::is_open_exception;
use rr_space::{Label, Ref, Space};

fn is_nil(value: Ref) -> bool
    ensures { result ≡ is_nil (value_of value) }
{
    matches!(value, Ref::Nil)
}

/// The cause of an exception, or nil.
fn cause_of(space: &Space, exception: Ref) -> Ref
    ensures { value_of result ≡ element_at space.now exception 1 }
{
    match space.part(exception, 1) {
        Some((_, cause)) => cause,
        None => Ref::Nil,
    }
}

/// Whether an exception is that of a slot, or has it among the causes behind it.
fn leads(space: &Space, exception: Ref, slot: u32) -> bool
    ensures { result ≡ leads (length space.now.slots) space.now (value_of exception) slot }
{
    let mut at = exception;
    for _ in 0..space.len() {
        match at {
            Ref::Local(found) => {
                if found == slot {
                    return true;
                }
                at = cause_of(space, at);
            }
            _ => return false,
        }
    }
    false
}

/// Whether an exception may be written and has no cause yet, and is neither the other one nor behind it.
fn takes_cause(space: &Space, exception: Ref, cause: Ref) -> bool
    ensures { result ≡ takes_cause space.now (value_of cause) exception }
{
    match exception {
        Ref::Local(slot) => {
            is_open_exception(space, exception)
                && is_nil(cause_of(space, exception))
                && !leads(space, cause, slot)
        }
        _ => false,
    }
}

/// Gives an exception a cause, where it may be written and has none, and where no chain of causes leads back to it then.
pub fn set_cause(space: &mut Space, exception: Ref, cause: Ref)
    requires { IsWithin (length space.old.slots) cause }
    ensures slots { space.new.slots ≡ (caused (value_of cause) exception space.old).slots }
    ensures keys { space.new.keys ≡ space.old.keys }
    ensures rest { IsRestKept space.old space.new }
    ensures read { (below : Below) → IsReadWith space.old below → IsRefAmong below cause → IsReadWith space.new below }
    ensures fixed { KeepsFixed space.old.slots space.new.slots }
{
    if takes_cause(space, exception, cause) {
        space.write_raised(exception, Label::Cause, cause);
    }
}
