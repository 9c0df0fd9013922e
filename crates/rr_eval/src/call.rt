//! What a script calls, and with what.

ghost use Rattle.std.specs.Prelude.{◌≡◌, ◌++◌, ◌∷◌, [], IfOk};
ghost use Rattle.std.specs.List.{All};
ghost use Rattle.rr_frames.specs.Frames.{list_of};
ghost use Rattle.rr_eval.specs.Dispatch.{passed_on};
ghost use Rattle.rr_eval.specs.Requests.{arguments_of};
ghost use Rattle.rr_eval.specs.Within.{Reach, IsReached, IsCallReached};

use crate::updating::Update;
use rr_base::Sym;
use rr_space::Ref;
use rr_tree::{BinaryOperator, NodeId};
use std::alloc::{AllocError, Global};

/// What is called.
#[derive(Clone, Copy)]
pub enum Callee {
    Operator(BinaryOperator),
    /// `-@`.
    Opposite,
    /// `[]`.
    Index,
    /// `<<`.
    Append,
    /// `[]=`.
    SetIndex,
    /// `initialize`, which a new object gets.
    Initialize,
    /// An assignment to the attribute of a name.
    Setter(Sym),
    /// A method by its name.
    Name(Sym),
}

/// What an environment does with values.
#[derive(Clone, Copy)]
pub enum Task {
    /// `puts`: each is printed on a line of its own, as `to_s` answers it.
    Puts,
    /// `p`: each is printed on a line of its own, as `inspect` answers it.
    Inspect,
    /// `print`: they are printed one after the other, as `to_s` answers them.
    Print,
    /// As `p`, with each value and, behind it, the text that the program's `inspect` gave for it, or nil.
    Show,
    /// As `puts`, where arrays were taken apart: one that is left stands inside itself.
    Lines,
    /// They become the elements of a new array.
    MakeArray,
    /// A new text is made of what they are spoken as.
    MakeText,
    /// They become the keys and the values of a new hash, by turns, as `hash[key] = value` puts each pair.
    MakeHash,
    /// The second of two values becomes the instance variable of this name of the first one, and is given.
    SetField(Sym),
    /// The second of two values becomes the message of the first one, an exception.
    SetMessage,
    /// The second of two exceptions becomes the cause of the first one, unless that one has a cause, may not be written, or is the second one
    /// or behind it. The first one is raised.
    SetCause,
    /// The value becomes the global variable of this name, and is given.
    SetGlobal(Sym),
    /// The value becomes the constant of this name, and is given.
    SetConstant(Sym),
    /// The value of the constant of this name is given, which another ractor than the main one wants.
    GetConstant(Sym),
    /// The same, and nil where the constant was never set.
    FindConstant(Sym),
}

/// What is done with values that were evaluated from left to right.
#[derive(Clone, Copy)]
pub enum Target {
    Do(Task),
    /// The first of them is the receiver of a call, and the others are its arguments.
    Call(Callee),
    /// They are the receiver, and the index where there is one, of what is assigned to: it is read by the first of these calls, and
    /// assigned to by the second; how its value is made, and the node of the right side.
    Update(Callee, Callee, Update, NodeId),
    /// They are the arguments of a call of this name on `self`, which is given the block of this node, where there is one.
    Own(Sym, Option<NodeId>),
    /// They are the arguments of `super`.
    Super,
    /// They are given to the block of the method that runs.
    Yield,
    /// They are the arguments of `raise`.
    Raise,
    /// The first of them is the receiver of a call of this name, which is given the block of this node.
    Iterate(Sym, NodeId),
}

/// Which of the values of a call are its arguments.
#[derive(Clone, Copy)]
pub enum Passing {
    All,
    /// Those behind the first one, which is the receiver.
    BehindReceiver,
}

/// Values, as the arguments of a call. No more than two of them take no memory.
#[derive(Drop)]
pub enum Arguments {
    Without,
    One(Ref),
    Two(Ref, Ref),
    Many(Vec<Ref>),
}

/// A call of a method.
#[derive(Drop)]
pub struct Call {
    pub receiver: Ref,
    pub callee: Callee,
    pub arguments: Arguments,
}

/// These values and one more.
#[inline(always)]
pub fn arguments_of(alloc: Global, values: &[Ref], last: Ref) -> Result<Arguments, AllocError>
    ensures are { IfOk result (λ arguments. arguments_of arguments ≡ values.now ++ last ∷ []) }
    ensures within { (k : Reach) → All (IsReached k) values.now → IsReached k last → IfOk result (λ arguments. All (IsReached k) (arguments_of arguments)) }
{
    match values {
        [] => Ok(Arguments::One(last)),
        [first] => Ok(Arguments::Two(*first, last)),
        _ => {
            let mut all = Vec::from_slice(alloc, values)?;
            all.push(last)?;
            Ok(Arguments::Many(all))
        }
    }
}

/// These values, and one more, where there is one.
#[inline(always)]
pub fn arguments_with(
    alloc: Global,
    values: &[Ref],
    last: Option<Ref>,
) -> Result<Arguments, AllocError>
    ensures are { IfOk result (λ arguments. arguments_of arguments ≡ values.now ++ list_of last) }
    ensures within { (k : Reach) → All (IsReached k) values.now → All (IsReached k) (list_of last) → IfOk result (λ arguments. All (IsReached k) (arguments_of arguments)) }
{
    match (values, last) {
        (_, Some(last)) => arguments_of(alloc, values, last),
        ([], None) => Ok(Arguments::Without),
        ([first], None) => Ok(Arguments::One(*first)),
        ([first, second], None) => Ok(Arguments::Two(*first, *second)),
        (_, None) => Ok(Arguments::Many(Vec::from_slice(alloc, values)?)),
    }
}

/// The arguments among the values of a call, of which the last one stands apart.
#[inline(always)]
pub fn passed(passing: Passing, values: &[Ref], last: Option<Ref>) -> (&[Ref], Option<Ref>)
    ensures are { result.0.now ++ list_of result.1 ≡ passed_on passing (values.now ++ list_of last) }
    ensures within { (k : Reach) → All (IsReached k) values.now → All (IsReached k) (list_of last) → All (IsReached k) result.0.now × All (IsReached k) (list_of result.1) }
{
    match passing {
        Passing::All => (values, last),
        Passing::BehindReceiver => match values {
            [] => (&[], None),
            [_, others @ ..] => (others, last),
        },
    }
}

/// A call of a receiver with the arguments among these values, of which the last one stands apart.
#[inline(always)]
pub fn call_of(
    alloc: Global,
    receiver: Ref,
    callee: Callee,
    passing: Passing,
    values: &[Ref],
    last: Option<Ref>,
) -> Result<Call, AllocError>
    ensures receiver { IfOk result (λ call. call.receiver ≡ receiver) }
    ensures callee { IfOk result (λ call. call.callee ≡ callee) }
    ensures arguments { IfOk result (λ call. arguments_of call.arguments ≡ passed_on passing (values.now ++ list_of last)) }
    ensures within { (k : Reach) → IsReached k receiver → All (IsReached k) values.now → All (IsReached k) (list_of last) → IfOk result (IsCallReached k) }
{
    let (values, last) = passed(passing, values, last);
    let arguments = arguments_with(alloc, values, last)?;
    Ok(Call {
        receiver,
        callee,
        arguments,
    })
}
