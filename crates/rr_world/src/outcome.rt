//! What comes of a step that a ractor makes by itself.

ghost use Rattle.std.specs.Prelude.{◌≡◌};
ghost use Rattle.rr_world.specs.Outcomes.{reply_of};

use crate::step::Reply;
use rr_base::Fault;

/// The step was made, or it is not possible, or it was refused.
#[derive(Drop)]
pub(crate) enum Outcome {
    Done,
    NotEnabled,
    Refused(Fault),
}

impl Outcome {
    /// What the step answers.
    pub(crate) fn reply(self) -> Reply
        ensures { result ≡ reply_of self }
    {
        match self {
            Outcome::Done => Reply::Done,
            Outcome::NotEnabled => Reply::NotEnabled,
            Outcome::Refused(fault) => Reply::Refused(fault),
        }
    }
}
