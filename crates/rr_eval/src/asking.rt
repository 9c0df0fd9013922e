//! Values that are asked by the program's `to_s` or `inspect` before they are printed.

ghost use Rattle.std.specs.Prelude.{◌≡◌, ◌++◌, IfErr, OnOk};
ghost use Rattle.rr_eval.specs.Speaking.{saying_of, task_of, may_say, text_in, printed_for};

use crate::call::Task;
use rr_base::Sym;
use rr_space::{Kind, Ref, Space};
use std::alloc::AllocError;

/// What makes texts of values.
#[derive(Clone, Copy)]
pub enum Saying {
    /// `puts`.
    Puts,
    /// `p`.
    Inspect,
    /// `print`.
    Print,
    /// A text with parts.
    Text,
}

/// Values that are asked one after the other. Behind them stands what is printed for those that were asked.
#[derive(Clone, Copy)]
pub struct Asking {
    pub saying: Saying,
    /// The name of the method.
    pub name: Sym,
    /// Where the values begin.
    pub base: usize,
    /// How many values there are.
    pub count: usize,
    /// How many of them were seen, the last of which is asked.
    pub seen: usize,
}

/// What makes texts of values, where the task is to do that.
pub fn saying_of(task: Task) -> Option<Saying>
    ensures { result ≡ saying_of task }
{
    match task {
        Task::Puts => Some(Saying::Puts),
        Task::Inspect => Some(Saying::Inspect),
        Task::Print => Some(Saying::Print),
        Task::MakeText => Some(Saying::Text),
        Task::Show => None,
        Task::Lines => None,
        Task::MakeArray => None,
        Task::MakeHash => None,
        Task::SetField(_) => None,
        Task::SetMessage => None,
        Task::SetCause => None,
        Task::SetGlobal(_) => None,
        Task::SetConstant(_) => None,
        Task::GetConstant(_) => None,
        Task::FindConstant(_) => None,
    }
}

/// What is done with what is printed for the values.
pub fn task_of(saying: Saying) -> Task
    ensures { result ≡ task_of saying }
{
    match saying {
        Saying::Puts => Task::Lines,
        Saying::Inspect => Task::Show,
        Saying::Print => Task::Print,
        Saying::Text => Task::MakeText,
    }
}

/// Whether values of a kind are asked.
pub fn may_say(kind: Kind) -> bool
    ensures { result ≡ may_say kind }
{
    match kind {
        Kind::Object => true,
        Kind::Exception => true,
        Kind::Nil => false,
        Kind::Truth => false,
        Kind::Integer => false,
        Kind::Symbol => false,
        Kind::Class => false,
        Kind::Ractor => false,
        Kind::Text => false,
        Kind::Array => false,
        Kind::Hash => false,
        Kind::Shell => false,
    }
}

/// What a method said: a text, or nothing that counts.
pub fn text_in(space: &Space, value: Ref) -> Option<Ref>
    ensures { result ≡ text_in space.now value }
{
    if matches!(space.kind_of(value), Kind::Text) {
        Some(value)
    } else {
        None
    }
}

/// Holds more values.
fn hold(held: &mut Vec<Ref>, more: &[Ref]) -> Result<(), AllocError>
    ensures held { OnOk result (held.new.items ≡ held.old.items ++ more.now) }
    ensures kept { IfErr result (λ _. held.new.items ≡ held.old.items) }
{
    held.extend_from_slice(more)?;
    Ok(())
}

/// Holds what is printed for a value that said this.
pub fn hold_printed(
    held: &mut Vec<Ref>,
    saying: Saying,
    value: Ref,
    said: Option<Ref>,
) -> Result<(), AllocError>
    ensures held { OnOk result (held.new.items ≡ held.old.items ++ printed_for saying value said) }
    ensures kept { IfErr result (λ _. held.new.items ≡ held.old.items) }
{
    match (saying, said) {
        (Saying::Inspect, None) => hold(held, &[value, Ref::Nil]),
        (Saying::Inspect, Some(text)) => hold(held, &[value, text]),
        (Saying::Puts, None) => hold(held, &[value]),
        (Saying::Puts, Some(text)) => hold(held, &[text]),
        (Saying::Print, None) => hold(held, &[value]),
        (Saying::Print, Some(text)) => hold(held, &[text]),
        (Saying::Text, None) => hold(held, &[value]),
        (Saying::Text, Some(text)) => hold(held, &[text]),
    }
}
