//! A law on messages.

ghost use Rattle.rr_copy.specs.Messages.{MessageIsShut};

/// Where the clusters that a message knows are the store's, each triple out of an object of its graph ends at an object of
/// its graph or at an immediate, and so does its root.
pub fn shown_by_messages()
    ensures { MessageIsShut }
{}
