//! What a built-in method comes to.

use crate::problem::Problem;
use rr_space::Ref;

/// What a call of a built-in method comes to.
#[derive(Clone, Copy)]
pub enum Built {
    Value(Ref),
    Raised(Problem),
    /// The receiver has no such method.
    Missing,
}
