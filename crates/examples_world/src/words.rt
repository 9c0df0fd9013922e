//! Steps by words: the name of an action, and what it is about.

use rr_base::{ClassId, RactorNo, Sym};
use rr_space::Label;
use rr_world::{Action, LastKind, NewObject, Operand, RaisedPart, Step};
use std::alloc::Global;
use std::test::Fail;

/// The words behind the name of an action; those that are not there are empty.
#[derive(Clone, Copy, Drop)]
struct Words<'a> {
    first: &'a str,
    second: &'a str,
    third: &'a str,
}

pub fn number_of(word: &str) -> u32 {
    word.parse::<u32>().unwrap_or(0)
}

fn count(word: &str) -> u32 {
    u32::from(number_of(word))
}

fn ractor(word: &str) -> RactorNo {
    RactorNo(number_of(word))
}

fn name(word: &str) -> Sym {
    Sym(count(word))
}

/// `r3` is a root and `@1` a ractor.
fn operand(word: &str) -> Operand {
    if let Some(root) = word.strip_prefix("r") {
        return Operand::Root(count(root));
    }
    if let Some(number) = word.strip_prefix("@") {
        return Operand::Ractor(ractor(number));
    }
    match word {
        "nil" => Operand::Nil,
        "true" => Operand::Truth(true),
        _ => Operand::Int(i64::from(number_of(word))),
    }
}

fn label(word: &str, place: &str) -> Label {
    match word {
        "place" => Label::Place(count(place) as usize),
        "key" => Label::Key(count(place) as usize),
        "value" => Label::Value(count(place) as usize),
        "field" => Label::Field(name(place)),
        "message" => Label::Message,
        "cause" => Label::Cause,
        _ => Label::Ractor,
    }
}

fn part(word: &str) -> RaisedPart {
    match word {
        "message" => RaisedPart::Message,
        "cause" => RaisedPart::Cause,
        _ => RaisedPart::Ractor,
    }
}

fn new_object(word: &str) -> Option<NewObject> {
    match word {
        "text" => Some(NewObject::Text),
        "array" => Some(NewObject::Array),
        "hash" => Some(NewObject::Hash),
        "object" => Some(NewObject::Object(ClassId::OBJECT)),
        "exception" => Some(NewObject::Exception(ClassId::EXCEPTION)),
        _ => None,
    }
}

/// An action on an object.
fn change(action: &str, words: Words<'_>) -> Option<Action> {
    let object = operand(words.first);
    match action {
        "freeze" => Some(Action::Freeze(object)),
        "append" => Some(Action::Append(object, b'a')),
        "clear" => Some(Action::Clear(object)),
        "push" => Some(Action::Push(object, operand(words.second))),
        "take" => Some(Action::Take(object, count(words.second))),
        "delete" => Some(Action::DeletePair(object, count(words.second))),
        "read" => Some(Action::Read(object, label(words.second, words.third))),
        _ => None,
    }
}

/// An action that puts a value into an object.
fn put(action: &str, words: Words<'_>) -> Option<Action> {
    let object = operand(words.first);
    let value = operand(words.third);
    match action {
        "write" => Some(Action::Write(object, count(words.second), value)),
        "raised" => Some(Action::SetRaised(object, part(words.second), value)),
        "field" => Some(Action::SetField(object, name(words.second), value)),
        "pair" => Some(Action::SetPair(object, operand(words.second), value)),
        _ => None,
    }
}

/// An action with the hand or an inbox.
fn exchange(action: &str, word: &str) -> Option<Action> {
    match action {
        "pack" => Some(Action::Pack(operand(word))),
        "detach" => Some(Action::Detach(operand(word))),
        "plan" => Some(Action::Plan(operand(word))),
        "publish" => Some(Action::Publish),
        "promote" => Some(Action::Promote),
        "put_back" => Some(Action::PutBack),
        "discard" => Some(Action::Discard),
        "offer" => Some(Action::Offer(ractor(word))),
        "accept" => Some(Action::Accept),
        "open" => Some(Action::Open),
        "close" => Some(Action::Close(ractor(word))),
        _ => None,
    }
}

/// An action with a port.
fn show(action: &str, word: &str) -> Option<Action> {
    match action {
        "close_port" => Some(Action::ClosePort(ractor(word))),
        "last_value" => Some(Action::ShowLast(LastKind::Value)),
        "last_fault" => Some(Action::ShowLast(LastKind::Fault)),
        "show" => Some(Action::Show),
        "withdraw" => Some(Action::Withdraw(count(word))),
        "settle" => Some(Action::Settle(count(word))),
        "grab" => Some(Action::Grab(ractor(word))),
        _ => None,
    }
}

/// A ractor that starts or ends, or an action with a constant.
fn other(action: &str, words: Words<'_>) -> Option<Action> {
    match action {
        "start" => Some(Action::Start),
        "end" => Some(Action::End),
        "set" => Some(Action::SetConst(name(words.first), operand(words.second))),
        "own" => Some(Action::SetOwn(name(words.first))),
        "get" => Some(Action::GetConst(name(words.first))),
        _ => None,
    }
}

fn action_of(action: &str, words: Words<'_>) -> Option<Action> {
    if let Some(new) = new_object(action) {
        return Some(Action::Alloc(new));
    }
    change(action, words)
        .or(put(action, words))
        .or(exchange(action, words.first))
        .or(show(action, words.first))
        .or(other(action, words))
}

fn word<'a>(words: &[&'a str], place: usize) -> &'a str {
    words.get(place).copied().unwrap_or("")
}

/// The step of the ractor of this number that the words name.
pub fn step_of(alloc: Global, who: u32, line: &str) -> Result<Step, Fail> {
    let all: Vec<&str> = line.split(" ").collect(alloc)?;
    let words = Words {
        first: word(all.as_slice(), 1),
        second: word(all.as_slice(), 2),
        third: word(all.as_slice(), 3),
    };
    let who = RactorNo(who);
    match action_of(word(all.as_slice(), 0), words) {
        Some(action) => Ok(Step { who, action }),
        None => Err(Fail::from("no action has this name")),
    }
}
