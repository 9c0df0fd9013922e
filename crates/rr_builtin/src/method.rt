//! The built-in methods, and how a program's names lead to them.

use rr_tree::BinaryOperator;

/// A method of integers without operands.
#[derive(Clone, Copy, Drop)]
pub enum NumberMethod {
    Opposite,
    Absolute,
    IsEven,
    IsOdd,
    IsZero,
}

/// A method that all values have but what is left of moved objects.
#[derive(Clone, Copy, Drop)]
pub enum ObjectMethod {
    Class,
    IsA,
    KindOf,
    IsNil,
    IsIdentical,
    Not,
    Freeze,
    IsFrozen,
    ToS,
    Inspect,
    Dup,
}

/// A method of texts, arrays and hashes.
#[derive(Clone, Copy, Drop)]
pub enum ContentMethod {
    Size,
    Length,
    IsEmpty,
    First,
    Last,
    At,
    Append,
    Push,
    Pop,
    Shift,
    Includes,
    SetAt,
    Keys,
    Values,
    HasKey,
    Delete,
    Sum,
    Sort,
    Join,
}

/// A method of classes or of exceptions, which tells something of them.
#[derive(Clone, Copy, Drop)]
pub enum TellingMethod {
    Name,
    Message,
    Cause,
    /// The ractor that ended by it, of a remote error alone.
    Ractor,
}

/// A built-in method that calls no block.
#[derive(Clone, Copy, Drop)]
pub enum BuiltInMethod {
    Operator(BinaryOperator),
    Number(NumberMethod),
    Object(ObjectMethod),
    Content(ContentMethod),
    Telling(TellingMethod),
    /// `new` of a class.
    New,
}
