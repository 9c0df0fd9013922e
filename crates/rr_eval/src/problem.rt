//! How an evaluation ends, and what an exception says.

ghost use Rattle.std.specs.Prelude.{◌≡◌, ◌≤◌};
ghost use Rattle.rr_eval.specs.Blocks.{returned, passed, value_by, gave_by, valued};
ghost use Rattle.rr_eval.specs.Rules.{ended};
ghost use Rattle.rr_eval.specs.Turns.{more_of};
ghost use Rattle.rr_eval.specs.Within.{Reach, IsReached, IsAnswerReached, IsCallValueReached};

use crate::call::Callee;
use crate::call_stack::CallValue;
use rr_base::Sym;
use rr_builtin::{Problem as BuiltInProblem, Receiver, is_truthy};
use rr_space::Ref;

/// Why an evaluation raised an exception.
#[derive(Clone, Copy)]
pub enum Problem {
    /// A built-in method raised it.
    BuiltIn(BuiltInProblem),
    /// NoMethodError: the receiver has no such method.
    MissingMethod(Callee, Receiver),
    /// NameError: a bare name that is no variable.
    MissingName(Sym),
    /// NameError: a constant that was never set.
    MissingConstant(Sym),
    /// Ractor::IsolationError: a constant that has, or would have, a value which only the main ractor may have.
    IsolatedConstant(Sym),
    /// Ractor::IsolationError: a global variable in another ractor than the main one.
    IsolatedGlobal(Sym),
    /// ArgumentError: a keyword that the method does not take.
    UnknownKeyword,
    /// ArgumentError: `Ractor.new` without a block.
    NoRactorBlock,
    /// ArgumentError: `yield` in the block of a ractor.
    UsesYield,
    /// Ractor::Error: a script on its own has no other ractor, no inbox and no port.
    NoRactors,
    /// Ractor::Error: the history of what is shared has no room for another event.
    HistoryFull,
    /// TypeError: what would be raised is neither an exception nor a class of exceptions.
    NotRaisable,
    /// RuntimeError: nothing is given that would be raised.
    Unhandled,
    /// LocalJumpError: `yield`, where the method was given no block.
    NoBlock,
    /// LocalJumpError: a `return` that has no method to leave, or a `break` that has no call to end.
    Jump,
    /// RuntimeError: what is not evaluated yet.
    NotHere,
}

/// What ends, and with it the frames above it, by the number of a frame.
#[derive(Clone, Copy)]
pub enum Exit {
    /// The method whose frame it is, by a `return` out of a block.
    Method(u32),
    /// The call of that method, by a `break` out of the block that the call has.
    Call(u32),
}

/// How the evaluation of a tree ends.
#[derive(Clone, Copy)]
pub enum Answer {
    Gave(Ref),
    /// With an exception, which is an object.
    Raised(Ref),
    /// With the value of a `break`, which ends the loop, or the call that has the block.
    Broke(Ref),
    /// With the value of a `next`, which ends the turn of the loop or block.
    Done(Ref),
    /// With the value of a `return`, which leaves the method.
    Returned(Ref),
    /// With a value, with which a method or a call ends.
    Ends(Exit, Ref),
}

/// What an operation or a request comes to.
#[derive(Clone, Copy)]
pub enum Response {
    Gives(Ref),
    /// An exception that was made.
    Throws(Ref),
    /// Why it raises an exception, which the machine makes then.
    Fails(Problem),
}

/// What a program ends with, whose statements end so.
pub fn ended(answer: Answer) -> Answer
    ensures is { result ≡ ended answer }
    ensures within { (k : Reach) → IsAnswerReached k answer → IsAnswerReached k result }
{
    match answer {
        Answer::Gave(value) => Answer::Gave(value),
        Answer::Raised(exception) => Answer::Raised(exception),
        Answer::Broke(value) => Answer::Gave(value),
        Answer::Done(value) => Answer::Gave(value),
        Answer::Returned(value) => Answer::Gave(value),
        Answer::Ends(_, value) => Answer::Gave(value),
    }
}

/// What a method ends with, whose frame has the number and whose statements end so: with the value of a `break` where that ends its call.
pub fn returned(number: u32, answer: Answer) -> Answer
    ensures is { result ≡ returned number answer }
    ensures more { more_of result ≤ more_of answer }
    ensures within { (k : Reach) → IsAnswerReached k answer → IsAnswerReached k result }
{
    match answer {
        Answer::Gave(value) => Answer::Gave(value),
        Answer::Raised(exception) => Answer::Raised(exception),
        Answer::Broke(value) => Answer::Gave(value),
        Answer::Done(value) => Answer::Gave(value),
        Answer::Returned(value) => Answer::Gave(value),
        Answer::Ends(Exit::Method(other), value) => {
            if other == number {
                Answer::Gave(value)
            } else {
                Answer::Ends(Exit::Method(other), value)
            }
        }
        Answer::Ends(Exit::Call(other), value) => {
            if other == number {
                Answer::Broke(value)
            } else {
                Answer::Ends(Exit::Call(other), value)
            }
        }
    }
}

/// What the value of a call is, by the method's.
#[inline(always)]
pub fn value_by(by: CallValue, value: Ref) -> Ref
    ensures is { result ≡ value_by by value }
    ensures within { (k : Reach) → IsCallValueReached k by → IsReached k value → IsReached k result }
{
    match by {
        CallValue::Method => value,
        CallValue::Other(other) => other,
        CallValue::Opposite => Ref::truth(!is_truthy(value)),
        CallValue::Raises(exception) => exception,
    }
}

/// What a call ends with whose method has a value: an exception that was made for `raise` is raised.
fn gave_by(by: CallValue, value: Ref) -> Answer
    ensures is { result ≡ gave_by by value }
    ensures more { more_of result ≡ 0 }
    ensures within { (k : Reach) → IsCallValueReached k by → IsReached k value → IsAnswerReached k result }
{
    match by {
        CallValue::Method => Answer::Gave(value),
        CallValue::Other(other) => Answer::Gave(other),
        CallValue::Opposite => Answer::Gave(Ref::truth(!is_truthy(value))),
        CallValue::Raises(exception) => Answer::Raised(exception),
    }
}

/// What a call ends with, whose method ends so.
#[inline(always)]
pub fn valued(by: CallValue, answer: Answer) -> Answer
    ensures is { result ≡ valued by answer }
    ensures more { more_of result ≤ more_of answer }
    ensures within { (k : Reach) → IsCallValueReached k by → IsAnswerReached k answer → IsAnswerReached k result }
{
    match answer {
        Answer::Gave(value) => gave_by(by, value),
        Answer::Raised(exception) => Answer::Raised(exception),
        Answer::Broke(value) => Answer::Gave(value),
        Answer::Done(value) => Answer::Done(value),
        Answer::Returned(value) => Answer::Returned(value),
        Answer::Ends(exit, value) => Answer::Ends(exit, value),
    }
}

/// What a block ends with that a `yield` calls, whose statements end so: `owner` is the frame of the method that has the
/// block, and `root` that of the method in which the block stands.
pub fn passed(owner: u32, root: u32, answer: Answer) -> Answer
    ensures is { result ≡ passed owner root answer }
    ensures more { more_of result ≤ more_of answer }
    ensures within { (k : Reach) → IsAnswerReached k answer → IsAnswerReached k result }
{
    match answer {
        Answer::Gave(value) => Answer::Gave(value),
        Answer::Raised(exception) => Answer::Raised(exception),
        Answer::Broke(value) => Answer::Ends(Exit::Call(owner), value),
        Answer::Done(value) => Answer::Gave(value),
        Answer::Returned(value) => Answer::Ends(Exit::Method(root), value),
        Answer::Ends(exit, value) => Answer::Ends(exit, value),
    }
}
