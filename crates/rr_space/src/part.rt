//! The references in objects, one by one, with their labels.

ghost use Rattle.std.specs.Prelude.{◌≡◌, map, slice_get};
ghost use Rattle.std.specs.Option.{option_map};
ghost use Rattle.rr_space.specs.Parts.{places_from, field_part, raised_parts};
ghost use Rattle.rr_space.specs.Labels.{labelled, pair_half};

use crate::label::Label;
use crate::refer::{Raised, Ref};
use rr_base::Sym;

/// The `k`-th element of an array.
pub(crate) fn nth_element(items: &[Ref], k: usize) -> Option<(Label, Ref)>
    ensures { option_map labelled result ≡ slice_get (places_from 0 items.now) k }
{
    if k < items.len() {
        Some((Label::Place(k), items[k]))
    } else {
        None
    }
}

/// The key or the value of `pair`, which is the `k / 2`-th pair of a hash: its keys and values are counted in turn.
pub(crate) fn half_of_pair(pair: Option<(Ref, Ref)>, k: usize) -> Option<(Label, Ref)>
    ensures { option_map labelled result ≡ pair_half k pair }
{
    match pair {
        Some((key, _)) if k % 2 == 0 => Some((Label::Key(k / 2), key)),
        Some((_, value)) => Some((Label::Value(k / 2), value)),
        None => None,
    }
}

/// The `k`-th field of a plain object.
pub(crate) fn nth_field(fields: &[(Sym, Ref)], k: usize) -> Option<(Label, Ref)>
    ensures { option_map labelled result ≡ slice_get (map field_part fields.now) k }
{
    if k < fields.len() {
        Some((Label::Field(fields[k].0), fields[k].1))
    } else {
        None
    }
}

/// The message, the cause, the ractor or a field of an exception.
pub(crate) fn nth_of_raised(raised: &Raised, k: usize) -> Option<(Label, Ref)>
    ensures { option_map labelled result ≡ slice_get (raised_parts raised.now) k }
{
    match k {
        0 => Some((Label::Message, raised.message)),
        1 => Some((Label::Cause, raised.cause)),
        2 => Some((Label::Ractor, raised.ractor)),
        _ => nth_field(&raised.fields, k - 3),
    }
}

/// The `k`-th pair.
pub(crate) fn nth_pair(pairs: &[(Ref, Ref)], k: usize) -> Option<(Ref, Ref)>
    ensures { result ≡ slice_get pairs.now k }
{
    if k < pairs.len() {
        Some(pairs[k])
    } else {
        None
    }
}
