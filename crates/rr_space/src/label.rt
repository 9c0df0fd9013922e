//! What a value stands under in an object.

use rr_base::Sym;

/// What a value stands under in an object.
#[derive(Clone, Copy, Debug, PartialEq, Eq, Drop)]
pub enum Label {
    /// An element of an array, by its place.
    Place(usize),
    /// A field, by its name.
    Field(Sym),
    /// A key of a hash, by its place in the order of insertion.
    Key(usize),
    /// The value beside that key.
    Value(usize),
    /// The message of an exception.
    Message,
    /// The cause of an exception.
    Cause,
    /// The ractor of a remote error.
    Ractor,
}
