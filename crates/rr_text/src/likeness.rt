//! By what two values are compared.

ghost use Rattle.std.specs.Prelude.{◌≡◌, ◌||◌};
ghost use Rattle.rr_space.specs.Tables.{resolve};
ghost use Rattle.rr_space.specs.Parts.{value_of};
ghost use Rattle.rr_space.specs.Views.{text_at};
ghost use Rattle.rr_space.specs.Kinds.{kind_at};
ghost use Rattle.rr_text.specs.Same.{same_value};
ghost use Rattle.rr_text.specs.Comparing.{text_likeness, array_likeness, hash_likeness, other_likeness, likeness};
ghost use Rattle.rr_text.specs.Beside.{equal_at};

use rr_space::{Kind, Ref, Space};

/// By what two values are compared that are not one.
#[derive(Clone, Copy)]
pub(crate) enum Likeness {
    /// One of them was moved away.
    Moved,
    /// They differ whatever is in them.
    Unlike,
    Texts,
    Arrays,
    Hashes,
}

fn text_likeness(other: Kind) -> Likeness
    ensures { result ≡ text_likeness other }
{
    match other {
        Kind::Text => Likeness::Texts,
        Kind::Shell => Likeness::Moved,
        _ => Likeness::Unlike,
    }
}

fn array_likeness(other: Kind) -> Likeness
    ensures { result ≡ array_likeness other }
{
    match other {
        Kind::Array => Likeness::Arrays,
        Kind::Shell => Likeness::Moved,
        _ => Likeness::Unlike,
    }
}

fn hash_likeness(other: Kind) -> Likeness
    ensures { result ≡ hash_likeness other }
{
    match other {
        Kind::Hash => Likeness::Hashes,
        Kind::Shell => Likeness::Moved,
        _ => Likeness::Unlike,
    }
}

fn other_likeness(other: Kind) -> Likeness
    ensures { result ≡ other_likeness other }
{
    match other {
        Kind::Shell => Likeness::Moved,
        _ => Likeness::Unlike,
    }
}

/// By what values of these kinds are compared.
pub(crate) fn likeness_of(left: Kind, right: Kind) -> Likeness
    ensures { result ≡ likeness left right }
{
    match left {
        Kind::Shell => Likeness::Moved,
        Kind::Text => text_likeness(right),
        Kind::Array => array_likeness(right),
        Kind::Hash => hash_likeness(right),
        _ => other_likeness(right),
    }
}

/// Whether two values are one immediate or one object.
pub(crate) fn is_one(space: &Space, left: Ref, right: Ref) -> bool
    ensures { result ≡ same_value (resolve space.now.slots (value_of left)) (resolve space.now.slots (value_of right)) }
{
    space.same(left, right)
}

/// Whether two values are one, or texts of the same bytes.
pub(crate) fn is_equal(space: &Space, left: Ref, right: Ref) -> bool
    ensures { result ≡ equal_at space.now left right }
{
    if is_one(space, left, right) {
        return true;
    }
    match likeness_of(space.kind_of(left), space.kind_of(right)) {
        Likeness::Texts => space.text_bytes(left) == space.text_bytes(right),
        _ => false,
    }
}
