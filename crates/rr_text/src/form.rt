//! How a value is written, and what writing it comes to.

/// How a value is written.
#[derive(Clone, Copy, Debug, PartialEq, Eq, Drop)]
pub enum Form {
    /// As `to_s` answers it.
    ToS,
    /// As `inspect` answers it.
    Inspect,
    /// As `puts` prints it, with a line end.
    Puts,
}

/// The text of a value, or why it has none.
#[derive(Drop)]
pub enum Text {
    Bytes(Vec<u8>),
    /// More containers stand inside one another than may be entered.
    Deep,
    /// The value leads to an object that was moved away.
    Shell,
}

/// Why a value has no text.
#[derive(Clone, Copy, Drop)]
pub enum Lack {
    /// More containers stand inside one another than may be entered.
    Deep,
    /// The value leads to an object that was moved away.
    Shell,
}
