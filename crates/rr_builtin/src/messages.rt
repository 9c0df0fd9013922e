//! The message of an exception, set anew.

ghost use Rattle.std.specs.Prelude.{◌≡◌, IsTrue, Ok, length};
ghost use Rattle.rr_space.specs.Tables.{Below};
ghost use Rattle.rr_space.specs.Parts.{IsWithin, value_of};
ghost use Rattle.rr_text.specs.Reads.{IsReadWith};
ghost use Rattle.rr_builtin.specs.Acts.{Gives, IsDone, IsServed, IsRefAmong, changed};
ghost use Rattle.rr_builtin.specs.Fixed.{KeepsFixed};
ghost use Rattle.rr_builtin.specs.Messages.{is_open_exception, with_message, write_message};

use crate::built::Built;
use crate::kinds::{is_exception, is_shell_kind};
use crate::problem::Problem;
use rr_space::{Label, Ref, Space};

/// Whether a value is an exception that may be written.
pub(crate) fn is_open_exception(space: &Space, value: Ref) -> bool
    ensures { result ≡ is_open_exception space.now value }
{
    is_exception(space.kind_of(value)) && space.can_write(value)
}

/// Gives an exception, which may be written, another message.
fn put_message(space: &mut Space, exception: Ref, message: Ref) -> Built
    requires can { IsTrue (is_open_exception space.old exception) }
    requires message { IsWithin (length space.old.slots) message }
    ensures act { (below : Below) → IsReadWith space.old below → IsRefAmong below message → IsDone below (Gives (value_of exception), changed (with_message (value_of message)) exception space.old) space.old space.new result }
    ensures served { IsServed space.old space.new (Ok result) }
    ensures fixed { KeepsFixed space.old.slots space.new.slots }
{
    space.write_raised(exception, Label::Message, message);
    Built::Value(exception)
}

/// Gives an exception another message, as the superclass's `initialize` does, and gives the exception. `FrozenError` is raised
/// where it is frozen or published, and where it is no exception; a shell raises `MovedError`.
pub fn write_message(space: &mut Space, exception: Ref, message: Ref) -> Built
    requires { IsWithin (length space.old.slots) message }
    ensures act { (below : Below) → IsReadWith space.old below → IsRefAmong below message → IsDone below (write_message (value_of message) exception space.old) space.old space.new result }
    ensures served { IsServed space.old space.new (Ok result) }
    ensures fixed { KeepsFixed space.old.slots space.new.slots }
{
    if is_shell_kind(space.kind_of(exception)) {
        return Built::Raised(Problem::Moved);
    }
    if is_open_exception(space, exception) {
        put_message(space, exception, message)
    } else {
        Built::Raised(Problem::Frozen(space.class_of(exception)))
    }
}
