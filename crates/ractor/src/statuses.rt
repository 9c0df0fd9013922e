//! Exit statuses.

ghost use Rattle.std.specs.Prelude.{◌≡◌};
ghost use Rattle.ractor.specs.Statuses.{status_of, status_of_refusal, status_of_failure, failure_of};

use rr_base::Fault;
use rr_eval::Outcome;
use std::io::ErrorKind;

/// Why no script was run.
#[derive(Clone, Copy, Debug, PartialEq, Eq, Drop)]
pub enum Failure {
    /// The words are no command line.
    Words,
    /// A file cannot be read.
    File,
    /// The allocator refused a growth.
    Memory,
}

/// The exit status where no script was run.
pub fn status_of_failure(failure: Failure) -> u8
    ensures { result ≡ status_of_failure failure }
{
    match failure {
        Failure::Words => 2,
        Failure::File => 4,
        Failure::Memory => 5,
    }
}

/// What an error of the system is told as: want of memory as such, any other one as `other`.
pub fn failure_of(kind: ErrorKind, other: Failure) -> Failure
    ensures { result ≡ failure_of kind other }
{
    match kind {
        ErrorKind::OutOfMemory => Failure::Memory,
        _ => other,
    }
}

/// The exit status for each way in which a run ends.
pub fn status_of(ended: &Result<Outcome, Fault>) -> u8
    ensures { result ≡ status_of ended.now }
{
    match ended {
        Ok(Outcome::Done) => 0,
        Ok(Outcome::Raised(_)) => 1,
        Ok(Outcome::OutputFailed) => 4,
        Ok(Outcome::Stopped(_)) => 5,
        Ok(Outcome::StepLimit) => 6,
        Err(fault) => status_of_refusal(fault),
    }
}

/// The exit status of a source that could not be read.
fn status_of_refusal(fault: &Fault) -> u8
    ensures { result ≡ status_of_refusal fault.now }
{
    match fault {
        Fault::Syntax { .. } | Fault::Limit(_) => 3,
        _ => 5,
    }
}
