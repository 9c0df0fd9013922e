//! Iterations that run, and what is ahead of them.

ghost use Rattle.std.specs.Prelude.{◌≡◌, ◌<◌, ◌≤◌, ◌^◌, length, slice_index_or, Option, IfOk, IfErr};
ghost use Rattle.std.specs.List.{All};
ghost use Rattle.rr_frames.specs.Frames.{list_of};
ghost use Rattle.rr_base.specs.declared.fault.Fault.{Fault};
ghost use Rattle.rr_space.specs.Parts.{value_of, IsWithin};
ghost use Rattle.rr_space.specs.Tables.{Below};
ghost use Rattle.rr_builtin.specs.Acts.{outcome_of};
ghost use Rattle.rr_builtin.specs.Rounds.{item_at};
ghost use Rattle.rr_space.specs.declared.refer.Ref.{Ref};
ghost use Rattle.rr_eval.specs.Iterating.{below, up_to, index_of, element_given, element_ahead, ahead, chosen, kept, visits_of, problem_of, beginning, left_turn, is_loop};
ghost use Rattle.rr_eval.specs.Responses.{own_of};
ghost use Rattle.rr_eval.specs.Turns.{context_of, more_of};
ghost use Rattle.rr_eval.specs.Within.{Reach, reach, IsReached, IsAheadReached, IsAnswerReached};

use crate::call::Callee;
use crate::known::known;
use crate::pair_turns::pairs_ahead;
use crate::problem::{Answer, Exit, Problem};
use crate::serve::receiver_of;
use rr_base::{ClassId, Fault, Sym};
use rr_builtin::{Built, Iteration, Problem as BuiltInProblem, Round, is_truthy, item_at, refused};
use rr_space::{Kind, Ref, Space};
use rr_tree::{NodeId, Program};
use std::alloc::Global;

/// What an iteration still visits.
#[derive(Clone, Copy)]
pub enum Visits {
    /// The integers from this one on that are below the receiver.
    Times(i64),
    /// The integers from this one on up to the bound, which is the first argument.
    Upto(i64),
    /// The elements of an array from a place on, which an iteration gives to its block.
    Elements(Iteration, usize),
    /// The pairs of a hash whose keys stand behind the receiver: the place of the next key among the values that stand for it.
    Pairs(usize),
    Nothing,
    /// `loop`: nothing is given to the block, again and again.
    Forever,
}

/// An iteration that runs.
#[derive(Clone, Copy)]
pub struct Iterating {
    pub visits: Visits,
    /// The block, which stands in the frame that runs between the turns.
    pub block: NodeId,
    /// Where the values begin that stand for it: the receiver and the arguments, and then the keys of a hash.
    pub base: usize,
}

/// What is ahead of an iteration.
#[derive(Clone, Copy)]
pub enum Ahead {
    /// A turn, with up to two values that the block is given, and what is visited after it.
    Another(Option<Ref>, Option<Ref>, Visits),
    /// No turn.
    Finished,
    /// An exception.
    Stopped(Problem),
}

/// A value that stands for an iteration; nil where none stands there.
pub fn value_at(stand: &[Ref], place: usize) -> Ref
    ensures is { result ≡ slice_index_or stand.now place Ref.Nil }
    ensures within { (k : Reach) → All (IsReached k) stand.now → IsReached k result }
{
    match stand.get(place) {
        Some(value) => *value,
        None => Ref::Nil,
    }
}

/// The integers below one.
#[inline(always)]
pub fn below(here: i64, bound: Ref) -> Ahead
    ensures is { result ≡ below here bound }
    ensures within { (k : Reach) → IsAheadReached k result }
{
    match bound {
        Ref::Int(past) if here < past => {
            Ahead::Another(Some(Ref::Int(here)), None, Visits::Times(here + 1))
        }
        _ => Ahead::Finished,
    }
}

/// The integers up to one.
pub fn up_to(here: i64, bound: Ref) -> Ahead
    ensures is { result ≡ up_to here bound }
    ensures within { (k : Reach) → IsAheadReached k result }
{
    match bound {
        Ref::Int(last) if here < last => {
            Ahead::Another(Some(Ref::Int(here)), None, Visits::Upto(here + 1))
        }
        Ref::Int(last) if here == last => {
            Ahead::Another(Some(Ref::Int(here)), None, Visits::Nothing)
        }
        _ => Ahead::Finished,
    }
}

/// No place of an element is as great.
const PLACES: usize = 9_223_372_036_854_775_808;

/// A value that the space has: where it is published, the slot that stands for it, if that is known.
#[inline(always)]
pub fn own(space: &Space, value: Ref) -> Option<Ref>
    ensures is { result ≡ own_of space.now (value_of value) }
    ensures within { (clusters : Option Below) → IsWithin (length space.now.slots) value → All (IsReached (reach (length space.now.slots) clusters)) (list_of result) }
{
    match value {
        Ref::Shared(place, cluster) => known(space, cluster.number(), place),
        _ => Some(value),
    }
}

/// The place of an element, where an iteration gives it.
fn index_of(iteration: Iteration, place: usize) -> Option<Ref>
    requires { place < 2 ^ 63 }
    ensures is { result ≡ index_of iteration place }
    ensures within { (k : Reach) → All (IsReached k) (list_of result) }
{
    match iteration {
        Iteration::EachWithIndex => Some(Ref::Int(place as i64)),
        _ => None,
    }
}

/// A turn over an element.
fn element_given(iteration: Iteration, place: usize, element: Option<Ref>) -> Ahead
    ensures is { result ≡ element_given iteration place element }
    ensures within { (k : Reach) → All (IsReached k) (list_of element) → IsAheadReached k result }
{
    match element {
        Some(value) if place < PLACES => {
            let more = Visits::Elements(iteration, place + 1);
            Ahead::Another(Some(value), index_of(iteration, place), more)
        }
        Some(_) => Ahead::Stopped(Problem::BuiltIn(BuiltInProblem::OutOfRange)),
        None => Ahead::Stopped(Problem::NotHere),
    }
}

/// What is ahead of an iteration over an array.
pub fn element_ahead(space: &Space, iteration: Iteration, array: Ref, place: usize) -> Ahead
    ensures is { result ≡ element_ahead space.now iteration place (item_at space.now array place) }
    ensures within { (clusters : Option Below) → IsAheadReached (reach (length space.now.slots) clusters) result }
{
    match item_at(space, array, place) {
        Round::Item(value) => element_given(iteration, place, own(space, value)),
        Round::Absent => Ahead::Finished,
        Round::Moved => Ahead::Stopped(Problem::BuiltIn(BuiltInProblem::Moved)),
    }
}

/// An element that `select` chooses, as it is behind the turn.
fn chosen(space: &Space, array: Ref, place: usize) -> Result<Option<Ref>, Problem>
    ensures is { result ≡ chosen space.now (item_at space.now array place) }
    ensures within { (clusters : Option Below) → IfOk result (λ found. All (IsReached (reach (length space.now.slots) clusters)) (list_of found)) }
{
    match item_at(space, array, place) {
        Round::Item(value) => match own(space, value) {
            Some(value) => Ok(Some(value)),
            None => Err(Problem::NotHere),
        },
        Round::Absent => Ok(Some(Ref::Nil)),
        Round::Moved => Err(Problem::BuiltIn(BuiltInProblem::Moved)),
    }
}

/// What is kept of a turn that had a value.
pub fn kept(
    space: &Space,
    visits: Visits,
    value: Ref,
    stand: &[Ref],
) -> Result<Option<Ref>, Problem>
    ensures is { result ≡ kept visits value stand.now space.now }
    ensures within { (clusters : Option Below) → IsReached (reach (length space.now.slots) clusters) value → IfOk result (λ found. All (IsReached (reach (length space.now.slots) clusters)) (list_of found)) }
{
    match visits {
        Visits::Elements(Iteration::Map, _) => Ok(Some(value)),
        Visits::Elements(Iteration::Select, next) => {
            if is_truthy(value) {
                chosen(space, value_at(stand, 0), next.saturating_sub(1))
            } else {
                Ok(None)
            }
        }
        _ => Ok(None),
    }
}

/// What is ahead of an iteration, by the values that stand for it.
pub fn look_ahead(
    alloc: Global,
    space: &Space,
    visits: Visits,
    stand: &[Ref],
) -> Result<Ahead, Fault>
    ensures is { IfOk result (λ a. a ≡ ahead visits stand.now space.now) }
    ensures within { (clusters : Option Below) → All (IsReached (reach (length space.now.slots) clusters)) stand.now → IfOk result (IsAheadReached (reach (length space.now.slots) clusters)) }
    ensures fault { IfErr result (λ f. f ≡ Fault.Memory) }
{
    match visits {
        Visits::Times(here) => Ok(below(here, value_at(stand, 0))),
        Visits::Upto(here) => Ok(up_to(here, value_at(stand, 1))),
        Visits::Elements(iteration, place) => {
            let array = value_at(stand, 0);
            Ok(element_ahead(space, iteration, array, place))
        }
        Visits::Pairs(place) => pairs_ahead(alloc, space, place, stand),
        Visits::Nothing => Ok(Ahead::Finished),
        Visits::Forever => Ok(Ahead::Another(None, None, Visits::Forever)),
    }
}

/// What an iteration visits that begins.
pub fn visits_of(iteration: Iteration, receiver: Ref, kind: Kind) -> Option<Visits>
    ensures { result ≡ visits_of iteration receiver kind }
{
    match (iteration, receiver, kind) {
        (Iteration::Times, _, _) => Some(Visits::Times(0)),
        (Iteration::Upto, Ref::Int(first), _) => Some(Visits::Upto(first)),
        (_, _, Kind::Array) => Some(Visits::Elements(iteration, 0)),
        (Iteration::Each, _, Kind::Hash) => Some(Visits::Pairs(1)),
        _ => None,
    }
}

/// Why a call of an iteration does not begin, where `missing` is the problem of a method that the receiver lacks.
pub fn problem_of(missing: Problem, refused: Built) -> Problem
    ensures { result ≡ problem_of missing (outcome_of refused) }
{
    match refused {
        Built::Raised(problem) => Problem::BuiltIn(problem),
        Built::Missing => missing,
        Built::Value(_) => Problem::NotHere,
    }
}

/// What a call of an iteration of this name begins to visit, or why it does not begin: the first of the values is its receiver, and the
/// others are its arguments.
pub fn beginning(
    space: &Space,
    name: Sym,
    iteration: Option<Iteration>,
    values: &[Ref],
) -> Result<Visits, Problem>
    ensures { result ≡ beginning name iteration values.now space.now }
{
    match (iteration, values) {
        (Some(iteration), [receiver, arguments @ ..]) => {
            let missing = Problem::MissingMethod(Callee::Name(name), receiver_of(space, *receiver));
            match (
                refused(space, *receiver, iteration, arguments),
                visits_of(iteration, *receiver, space.kind_of(*receiver)),
            ) {
                (Some(built), _) => Err(problem_of(missing, built)),
                (None, Some(visits)) => Ok(visits),
                (None, None) => Err(Problem::NotHere),
            }
        }
        _ => Err(Problem::NotHere),
    }
}

/// What an answer comes to that ends an iteration with the turn: `root` is the frame of the method in which the block stands.
pub fn left_turn(
    program: &Program,
    space: &Space,
    visits: Visits,
    root: u32,
    answer: Answer,
) -> Answer
    ensures is { result ≡ left_turn (context_of program.now) visits root space.now answer }
    ensures more { more_of result ≤ more_of answer }
    ensures within { (k : Reach) → IsAnswerReached k answer → IsAnswerReached k result }
{
    match (answer, visits) {
        (Answer::Gave(value), _) => Answer::Gave(value),
        (Answer::Raised(exception), Visits::Forever) => {
            if program.descends(space.class_of(exception), ClassId::STOP_ITERATION) {
                Answer::Gave(Ref::Nil)
            } else {
                Answer::Raised(exception)
            }
        }
        (Answer::Raised(exception), _) => Answer::Raised(exception),
        (Answer::Broke(value), _) => Answer::Gave(value),
        (Answer::Done(value), _) => Answer::Gave(value),
        (Answer::Returned(value), _) => Answer::Ends(Exit::Method(root), value),
        (Answer::Ends(exit, value), _) => Answer::Ends(exit, value),
    }
}

/// Whether it is `loop`.
pub fn is_loop(name: &[u8]) -> bool
    ensures { result ≡ is_loop name.now }
{
    name == b"loop".as_slice()
}
