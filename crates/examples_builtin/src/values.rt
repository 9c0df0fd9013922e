//! Values of rows, as they are spelled there.

ghost use Rattle.std.specs.Prelude.{length, IfOk};
ghost use Rattle.rr_space.specs.Parts.{IsWithin};

use rr_base::{ClassId, RactorNo, Sym};
use rr_space::{Entries, Items, Key, Kind, Node, Raised, Ref, Space};
use std::alloc::Global;
use std::test::Fail;

/// The value, if it is an immediate or an object of the space.
pub fn own(space: &Space, value: Ref) -> Result<Ref, Fail>
    ensures { IfOk result (λ r. IsWithin (length space.now.slots) r) }
{
    match value {
        Ref::Local(slot) => {
            if (slot as usize) < space.len() {
                Ok(value)
            } else {
                Err(Fail::from("no such slot"))
            }
        }
        Ref::Shared(_, _) => Err(Fail::from("published")),
        Ref::Nil => Ok(value),
        Ref::False => Ok(value),
        Ref::True => Ok(value),
        Ref::Int(_) => Ok(value),
        Ref::Symbol(_) => Ok(value),
        Ref::Class(_) => Ok(value),
        Ref::Ractor(_) => Ok(value),
    }
}

fn text(alloc: Global, space: &mut Space, bytes: &str) -> Result<Ref, Fail> {
    Ok(space.alloc(Node::Text(bytes.as_bytes().to_vec(alloc)?))?)
}

fn number(word: &str) -> Result<Ref, Fail> {
    match word.parse::<i64>() {
        Ok(number) => Ok(Ref::Int(number)),
        Err(_) => Err(Fail::from("no number")),
    }
}

/// An element of an array: a number, or `'` and the bytes of a text.
fn element(alloc: Global, space: &mut Space, word: &str) -> Result<Ref, Fail> {
    match word.strip_prefix("'") {
        Some(bytes) => text(alloc, space, bytes),
        None => number(word),
    }
}

/// An array of numbers and texts, with commas between them.
fn array(alloc: Global, space: &mut Space, words: &str) -> Result<Ref, Fail> {
    let array = space.alloc(Node::Array(Items::new(alloc)))?;
    for word in words.split(',') {
        if word.is_empty() {
            continue;
        }
        let item = element(alloc, space, word)?;
        if space.can_write(array) && space.kind_of(array) == Kind::Array {
            let item = own(space, item)?;
            space.push_element(array, item)?;
        }
    }
    Ok(array)
}

/// Sets an integer key of a hash.
fn set(space: &mut Space, hash: Ref, key: i64, value: i64) -> Result<(), Fail> {
    if space.can_write(hash) && space.kind_of(hash) == Kind::Hash {
        return Ok(space.write_pair(hash, Key::Int(key), Ref::Int(key), Ref::Int(value))?);
    }
    Err(Fail::from("no hash that may be written"))
}

/// A hash of numbers, with colons between keys and values, and commas between pairs.
fn hash(alloc: Global, space: &mut Space, words: &str) -> Result<Ref, Fail> {
    let entries = Box::new(alloc, Entries::new(alloc))?;
    let hash = space.alloc(Node::Hash(entries))?;
    for word in words.split(',') {
        if let Some((key, value)) = word.split_once(':') {
            if let (Ok(key), Ok(value)) = (key.parse::<i64>(), value.parse::<i64>()) {
                set(space, hash, key, value)?;
            }
        }
    }
    Ok(hash)
}

/// What is left of an object that was moved away.
fn shell(alloc: Global, space: &mut Space) -> Result<Ref, Fail> {
    let value = text(alloc, space, "")?;
    if let Ref::Local(slot) = value {
        if (slot as usize) < space.len() && space.can_freeze(value) {
            space.empty(slot);
        }
    }
    Ok(value)
}

/// An exception of the class, without a message of its own, which says that ractor 3 ended.
fn exception(alloc: Global, space: &mut Space, class: ClassId) -> Result<Ref, Fail> {
    let raised = Raised {
        message: Ref::Nil,
        cause: Ref::Nil,
        ractor: Ref::Ractor(RactorNo(3)),
        fields: Vec::new(alloc),
    };
    Ok(space.alloc(Node::Exception(class, Box::new(alloc, raised)?))?)
}

fn unfrozen(alloc: Global, space: &mut Space, word: &str) -> Result<Ref, Fail> {
    if let Some(rest) = word.strip_prefix("'") {
        return text(alloc, space, rest);
    }
    if let Some(rest) = word.strip_prefix("[") {
        return array(alloc, space, rest);
    }
    if let Some(rest) = word.strip_prefix("{") {
        return hash(alloc, space, rest);
    }
    match word {
        "nil" => Ok(Ref::Nil),
        "true" => Ok(Ref::True),
        "false" => Ok(Ref::False),
        "error" => exception(alloc, space, ClassId::TYPE_ERROR),
        "remote" => exception(alloc, space, ClassId::REMOTE_ERROR),
        "shell" => shell(alloc, space),
        "Integer" => Ok(Ref::Class(ClassId::INTEGER)),
        "String" => Ok(Ref::Class(ClassId::STRING)),
        "Object" => Ok(Ref::Class(ClassId::OBJECT)),
        "TypeError" => Ok(Ref::Class(ClassId::TYPE_ERROR)),
        ":b" => Ok(Ref::Symbol(Sym(1))),
        ":c" => Ok(Ref::Symbol(Sym(2))),
        _ => number(word),
    }
}

/// The value that a word spells: a number, `'` and the bytes of a text, `[` and the elements of an array, `{` and those of a hash, `nil`, `true`,
/// `false`, a symbol or a shell; frozen behind `*`.
pub fn value(alloc: Global, space: &mut Space, word: &str) -> Result<Ref, Fail> {
    let Some(rest) = word.strip_prefix("*") else {
        return unfrozen(alloc, space, word);
    };
    let value = unfrozen(alloc, space, rest)?;
    if space.can_freeze(value) {
        space.freeze(value);
    }
    Ok(value)
}
