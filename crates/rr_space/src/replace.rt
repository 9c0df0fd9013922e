//! One element of a vector, in the place of another or changed where it lies.

ghost use Rattle.std.specs.Prelude.{◌≡◌, ◌<◌, Some, slice_get, slice_set, vec_len};
ghost use Rattle.std.specs.Fn.{FnOnceReturnsAtMut};

use std::mem;

/// Puts `value` in the place of an element, and gives that element.
pub(crate) fn replace_at<T>(items: &mut Vec<T>, index: usize, value: T) -> T
    requires { index < vec_len items.old }
    ensures was { slice_get items.old.items index ≡ Some result }
    ensures items { items.new.items ≡ slice_set items.old.items index value }
{
    mem::replace(&mut items[index], value)
}

/// Changes an element where it lies, and gives what `change` gives. Generic, since what is written through `&mut` into a vector
/// of a type that holds `&'static` is not known afterwards.
#[inline(always)]
pub(crate) fn change_at<T, R, F: FnOnce(&mut T) -> R>(
    items: &mut Vec<T>,
    index: usize,
    change: F,
) -> R
    requires index { index < vec_len items.old }
    requires callable { F.IsAlwaysCallable change }
    ensures { (was now : T) × (slice_get items.old.items index ≡ Some was) × (items.new.items ≡ slice_set items.old.items index now) × FnOnceReturnsAtMut F.FnOnce change was result now }
{
    change(&mut items[index])
}
