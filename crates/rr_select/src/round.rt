//! What a select asks for and is told.

/// What ended a select. An entry is named by its place in the list, from 0.
#[derive(Clone, Copy, Debug, PartialEq, Eq, Drop)]
pub enum Ending {
    /// The entry gave a value.
    Got(u32),
    /// The entry is closed.
    Closed(u32),
    /// The entry holds a fault.
    Failed(u32),
    /// The own value could not be shown.
    Refused,
    /// The own value was taken.
    Yielded,
}

/// What a select does next.
#[derive(Clone, Copy, Debug, PartialEq, Eq, Drop)]
pub enum Act {
    /// Take from the entry at this place, without waiting.
    Try(u32),
    /// Show the own value.
    Offer,
    /// Wait until some channel changed.
    Sleep,
    /// Take the own value back.
    Withdraw,
    /// Nothing more: the select is over.
    End(Ending),
}

/// What came of an act.
#[derive(Clone, Copy, Debug, PartialEq, Eq, Drop)]
pub enum Answer {
    /// The entry gave a value.
    Gave,
    /// The entry has no value now.
    Nothing,
    /// The entry is closed.
    Closed,
    /// The entry holds a fault.
    Failed,
    /// The own value is shown.
    Shown,
    /// The own value could not be shown.
    Refused,
    /// The sleep is over.
    Woken,
    /// The own value is back.
    Back,
    /// The own value was taken.
    Taken,
}
