//! What a script asks of its environment.

use crate::call::{Arguments, Call, Task};

/// A request of a script to its environment, which replies with a value or an exception.
#[derive(Drop)]
pub enum Request {
    /// To do something with values.
    Do(Task, Arguments),
    /// To call a method.
    Call(Call),
}
