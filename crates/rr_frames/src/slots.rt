//! The variables of all frames in one vector.

ghost use Rattle.std.specs.Prelude.{◌≡◌, ◌<◌, ◌≤◌, ◌+◌, ◌-◌, ◌++◌, length, take, replicate, vec_capacity, vec_len, slice_set, IsTrue};
ghost use Rattle.rr_space.specs.declared.refer.Ref.{Ref};
ghost use Rattle.rr_frames.specs.Frames.{laid, list_of};
ghost use Rattle.rr_frames.specs.Layout.{IsLast};

use crate::activation::Shape;
use crate::frames::Row;
use rr_space::Ref;

/// One element in the place of another.
#[inline(always)]
pub(crate) fn replace_at<T: Copy>(items: &mut Vec<T>, place: usize, item: T)
    requires { place < vec_len items.old }
    ensures { items.new.items ≡ slice_set items.old.items place item }
{
    items[place] = item;
}

/// More values, where there is room.
#[inline(always)]
pub(crate) fn append_within(slots: &mut Vec<Ref>, values: &[Ref], last: Option<Ref>)
    requires { length slots.old.items + length values.now + 1 ≤ vec_capacity slots.old }
    ensures items { slots.new.items ≡ slots.old.items ++ values.now ++ list_of last }
    ensures capacity { vec_capacity slots.old ≤ vec_capacity slots.new }
{
    let mut rest = values;
    while let [value, more @ ..] = rest {
        slots.push_reserved(*value);
        rest = more;
    }
    if let Some(value) = last {
        slots.push_reserved(value);
    }
}

// Cut or filled up with nil, where there is room.
fn fill_within(slots: &mut Vec<Ref>, end: usize)
    requires { end ≤ vec_capacity slots.old }
    ensures { slots.new.items ≡ take end slots.old.items ++ replicate (end - length slots.old.items) Ref.Nil }
{
    match slots.resize(end, Ref::Nil) {
        Ok(()) => (),
        Err(_) => unreachable!(),
    }
}

/// Cut or filled up with nil, where there is room; nothing is done where the length is right.
#[inline(always)]
pub(crate) fn cut_within(slots: &mut Vec<Ref>, end: usize)
    requires { end ≤ vec_capacity slots.old }
    ensures { slots.new.items ≡ take end slots.old.items ++ replicate (end - length slots.old.items) Ref.Nil }
{
    if slots.len() != end {
        fill_within(slots, end);
    }
}

/// Whether there is room for the variables of one frame more: for so many, and for these values and one.
#[inline(always)]
pub(crate) fn has_room(slots: &Vec<Ref>, values: &[Ref], size: usize) -> bool
    ensures values { IsTrue result → length slots.now.items + length values.now + 1 ≤ vec_capacity slots.now }
    ensures size { IsTrue result → length slots.now.items + size ≤ vec_capacity slots.now }
{
    let room = slots.capacity() - slots.len();
    values.len() < room && size <= room
}

/// The variables of one frame more, where there is room: its parameters have the first of the values, and all others are nil. `last` stands
/// behind `values`.
#[inline(always)]
pub(crate) fn lay_within(slots: &mut Vec<Ref>, values: &[Ref], last: Option<Ref>, shape: Shape)
    requires values { length slots.old.items + length values.now + 1 ≤ vec_capacity slots.old }
    requires size { length slots.old.items + shape.size ≤ vec_capacity slots.old }
    ensures { slots.new.items ≡ slots.old.items ++ laid shape.parameters shape.size (values.now ++ list_of last) }
{
    let base = slots.len();
    append_within(slots, values, last);
    slots.truncate(base + shape.parameters as usize);
    cut_within(slots, base + shape.size as usize);
}

/// Where the variables of the last frame lie, and how many it has; 0 and 0 where there is no frame.
#[inline(always)]
pub(crate) fn last_of(rows: &[Row]) -> (usize, usize)
    ensures { IsLast rows.now result.0 result.1 }
{
    match rows.last() {
        Some(row) => (row.base, row.size),
        None => (0, 0),
    }
}
