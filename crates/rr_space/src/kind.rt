//! What kind of object, or which immediate, a value is.

/// The kind of an object, or which immediate it is.
#[derive(Clone, Copy, Debug, PartialEq, Eq, Drop)]
pub enum Kind {
    Nil,
    Truth,
    Integer,
    Symbol,
    Class,
    Ractor,
    Text,
    Array,
    Hash,
    Object,
    Exception,
    /// What is left of an object that was moved away.
    Shell,
}
