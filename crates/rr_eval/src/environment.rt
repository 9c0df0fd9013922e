//! A machine over an environment that serves its requests.

ghost use Rattle.std.specs.Prelude.{◌≡◌, ◌≤◌, List, length, None, IfOk, IfErr, OnErr};
ghost use Rattle.rr_space.specs.Tables.{Table};
ghost use Rattle.rr_eval.specs.Acts.{IsRefusal};
ghost use Rattle.rr_eval.specs.Script.{Asked, Reply};
ghost use Rattle.rr_eval.specs.Requests.{Course, asked_of};
ghost use Rattle.rr_eval.specs.Within.{AreWithin, IsResponseWithin, IsEndingWithin};
ghost use Rattle.rr_eval.specs.Served.{Exchange, Gives, Ran, course_after, world_of};

use crate::engine::Turn;
use crate::machine::Machine;
use crate::prepared::Prepared;
use crate::problem::Response;
use crate::request::Request;
use rr_base::Fault;
use rr_space::{Ref, Space};

/// What serves the requests of a machine.
pub trait Environment {
    // It may go from one state to another by serving a request, made over these objects, with this reply.
    ghost leads: { Self → Asked → Table → Reply → Self → Type 0 };

    /// Serves a request, a call of a method too, and responds with a value or an exception, which lies within the space. It may change the space, and
    /// on a fault it does not.
    fn serve(&mut self, request: Request, space: &mut Space) -> Result<Response, Fault>
        ensures leads { IfOk result (λ r. leads self.old (asked_of space.old request) space.old (record { response = r; table = space.new }) self.new) }
        ensures within { IfOk result (IsResponseWithin (length space.new.slots)) }
        ensures grows { length space.old.slots ≤ length space.new.slots }
        ensures limit { space.new.limit ≡ space.old.limit }
        ensures kept { OnErr result (space.new ≡ space.old) };
}

/// How a run ended.
#[derive(Drop)]
pub enum Ending {
    Done(Ref),
    Raised(Ref),
    StepLimit,
    /// With a request that the environment could not serve.
    Unserved(Fault),
}

/// The steps of one turn.
const BUDGET: u32 = 1_000_000;

/// Runs a machine to its end, over an environment.
///
/// The faults are `Memory` and `Limit(Slots)`, as of a turn: the machine can go on from there. A request that could not be
/// served is an end.
pub fn run_in<E: Environment>(
    environment: &mut E,
    machine: &mut Machine,
    prepared: &Prepared,
    space: &mut Space,
) -> Result<Ending, Fault>
    requires { AreWithin (length space.old.slots) machine.old }
    ensures within { AreWithin (length space.new.slots) machine.new }
    ensures ends_within { IfOk result (IsEndingWithin (length space.new.slots)) }
    ensures refused { IfErr result IsRefusal }
    ensures ran { Ran E.leads prepared.now.program machine.old space.old environment.old result machine.new space.new environment.new }
{
    loop {
        match machine.turn(prepared, space, BUDGET)? {
            Turn::More => {}
            Turn::Ask(request) => match environment.serve(request, space) {
                Ok(response) => machine.answer(response),
                Err(fault) => return Ok(Ending::Unserved(fault)),
            },
            Turn::Done(value) => return Ok(Ending::Done(value)),
            Turn::Raised(exception) => return Ok(Ending::Raised(exception)),
            Turn::StepLimit => return Ok(Ending::StepLimit),
        }
    }
}

/// For all exchanges there is an environment that replies so, and that leaves the next request without a reply.
pub fn replies_hold()
    ensures gives { (asked : List Asked) (xs : List Exchange) → Gives (record { asked = asked; world = world_of (length asked) xs }) xs }
    ensures waits { (asked : List Asked) (xs : List Exchange) (q : Asked) (t : Table) → let h : Course = record { asked = asked; world = world_of (length asked) xs } in (course_after h xs).world (course_after h xs).asked q t ≡ None }
{}
