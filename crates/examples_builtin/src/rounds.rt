//! Iterations: how calls of them begin, and what their rounds read.

use crate::calls::{called, given, inspected, missing, program, raised, receiver_of, told};
use crate::values::value;
use rr_base::{RactorNo, Sym};
use rr_builtin::{
    Built, BuiltInMethod, ContentMethod, Iterations, Round, item_at, keys_of, pair_at, refused,
};
use rr_space::{Ref, Space};
use rr_tree::Program;
use std::alloc::Global;
use std::test::Fail;

/// A call of an iteration, and what it comes to before its first round.
const BEGUN: &str = "7 times => begins
7 times 1 => wrong number of arguments (given 1, expected 0) (ArgumentError)
7 upto 9 => begins
7 upto => wrong number of arguments (given 0, expected 1) (ArgumentError)
7 upto 8 9 => wrong number of arguments (given 2, expected 1) (ArgumentError)
7 upto 'a => wrong type String (TypeError)
7 upto nil => wrong type NilClass (TypeError)
7 each => undefined method 'each' for an instance of Integer
'a each => undefined method 'each' for an instance of String
'a times => undefined method 'times' for an instance of String
[1,2 each => begins
*[1,2 each => begins
[ each => begins
[ each_with_index => begins
[1 map => begins
[1 select => begins
[1 select 1 => wrong number of arguments (given 1, expected 0) (ArgumentError)
[1 times => undefined method 'times' for an instance of Array
[1 upto 'a => undefined method 'upto' for an instance of Array
[1 size => no iteration
{1:2 each => begins
{ each => begins
{1:2 map => undefined method 'map' for an instance of Hash
{1:2 each 1 => wrong number of arguments (given 1, expected 0) (ArgumentError)
shell each => moved object (Ractor::MovedError)
shell times 1 => moved object (Ractor::MovedError)";

/// A value, and what the rounds over it as an array read.
const ITEMS: &str = "[ => over
[1 => 1 over
[1,'a,3 => 1 \"a\" 3 over
*[1,2 => 1 2 over
{1:2 => over
7 => over
'a => over
shell => moved";

/// A value, and what the rounds over it as a hash read.
const PAIRS: &str = "{ => over
{1:2 => 1 2 over
{1:2,3:4,5:6 => 1 2 3 4 5 6 over
*{1:2,3:4 => 1 2 3 4 over
[ => over";

/// What a call of an iteration comes to before its first round: `RECEIVER ITERATION ARGUMENTS`.
fn begun(alloc: Global, line: &str) -> Result<Vec<u8>, Fail> {
    let mut space = Space::new(alloc, RactorNo(1), 10);
    let mut values = Vec::new(alloc);
    let mut name = b"".as_slice();
    for (place, word) in line.split(' ').enumerate() {
        if place == 1 {
            name = word.as_bytes();
        } else {
            values.push(value(alloc, &mut space, word)?)?;
        }
    }
    let program = program(alloc, name)?;
    let Some(iteration) = Iterations::of(alloc, &program)?.find(Sym(0)) else {
        return Ok(b"no iteration".to_vec(alloc)?);
    };
    let Some((receiver, arguments)) = values.split_first() else {
        return Err(Fail::from("no receiver"));
    };
    match refused(&space, *receiver, iteration, arguments) {
        None => Ok(b"begins".to_vec(alloc)?),
        Some(Built::Raised(problem)) => raised(alloc, &program, problem),
        Some(_) => missing(alloc, &program, receiver_of(&space, *receiver)),
    }
}

/// What the rounds over an array read, to the first that reads no item.
fn items_read(
    alloc: Global,
    space: &Space,
    program: &Program,
    array: Ref,
) -> Result<Vec<u8>, Fail> {
    let mut out = Vec::new(alloc);
    for place in 0..5000 {
        match item_at(space, array, place) {
            Round::Item(item) => out.extend_from_slice(&inspected(alloc, space, program, item)?)?,
            Round::Absent => {
                out.extend_from_slice(b"over")?;
                return Ok(out);
            }
            Round::Moved => {
                out.extend_from_slice(b"moved")?;
                return Ok(out);
            }
        }
        out.push(b' ')?;
    }
    Err(Fail::from("no end"))
}

/// What the rounds over a hash read by these keys.
fn pairs_read(
    alloc: Global,
    space: &Space,
    program: &Program,
    hash: Ref,
    keys: Ref,
) -> Result<Vec<u8>, Fail> {
    let mut out = Vec::new(alloc);
    for place in 0..5000 {
        let Round::Item(key) = item_at(space, keys, place) else {
            out.extend_from_slice(b"over")?;
            return Ok(out);
        };
        out.extend_from_slice(&inspected(alloc, space, program, key)?)?;
        match pair_at(alloc, space, hash, key)? {
            Round::Item(value) => {
                out.push(b' ')?;
                out.extend_from_slice(&inspected(alloc, space, program, value)?)?;
            }
            Round::Absent => out.extend_from_slice(b" gone")?,
            Round::Moved => out.extend_from_slice(b" moved")?,
        }
        out.push(b' ')?;
    }
    Err(Fail::from("no end"))
}

fn items_of(alloc: Global, word: &str) -> Result<Vec<u8>, Fail> {
    let mut space = Space::new(alloc, RactorNo(1), 10);
    let program = program(alloc, b"a")?;
    let array = value(alloc, &mut space, word)?;
    items_read(alloc, &space, &program, array)
}

fn pairs_of(alloc: Global, word: &str) -> Result<Vec<u8>, Fail> {
    let mut space = Space::new(alloc, RactorNo(1), 10);
    let program = program(alloc, b"a")?;
    let hash = value(alloc, &mut space, word)?;
    let keys = given(keys_of(alloc, &mut space, hash)?)?;
    pairs_read(alloc, &space, &program, hash, keys)
}

/// The rounds over a hash of which a key is deleted, and that gets another, after its keys were listed.
fn changed_pairs(alloc: Global) -> Result<Vec<u8>, Fail> {
    let mut space = Space::new(alloc, RactorNo(1), 10);
    let program = program(alloc, b"a")?;
    let hash = value(alloc, &mut space, "{1:2,3:4,5:6")?;
    let keys = given(keys_of(alloc, &mut space, hash)?)?;
    let deleted = [hash, Ref::Int(3)];
    told(alloc, &mut space, &program, ContentMethod::Delete, &deleted)?;
    let set = [hash, Ref::Int(5), Ref::Int(8)];
    told(alloc, &mut space, &program, ContentMethod::SetAt, &set)?;
    let added = [hash, Ref::Int(7), Ref::Int(9)];
    told(alloc, &mut space, &program, ContentMethod::SetAt, &added)?;
    pairs_read(alloc, &space, &program, hash, keys)
}

/// The rounds over a hash by keys that are texts.
fn text_pairs(alloc: Global) -> Result<Vec<u8>, Fail> {
    let mut space = Space::new(alloc, RactorNo(1), 10);
    let program = program(alloc, b"a")?;
    let hash = value(alloc, &mut space, "{")?;
    let first = value(alloc, &mut space, "'a")?;
    let pair = [hash, first, Ref::Int(1)];
    told(alloc, &mut space, &program, ContentMethod::SetAt, &pair)?;
    let second = value(alloc, &mut space, "*'b")?;
    let pair = [hash, second, Ref::Int(2)];
    told(alloc, &mut space, &program, ContentMethod::SetAt, &pair)?;
    let keys = given(keys_of(alloc, &mut space, hash)?)?;
    pairs_read(alloc, &space, &program, hash, keys)
}

/// How many rounds a large array has.
fn rounds_of_large(alloc: Global) -> Result<usize, Fail> {
    let mut space = Space::new(alloc, RactorNo(1), 10);
    let program = program(alloc, b"a")?;
    let array = value(alloc, &mut space, "[")?;
    let push = BuiltInMethod::Content(ContentMethod::Push);
    for number in 0..3000 {
        let values = [array, Ref::Int(number)];
        called(alloc, &mut space, &program, push, &values)?;
    }
    for place in 0..5000 {
        match item_at(&space, array, place) {
            Round::Item(Ref::Int(_)) => (),
            Round::Absent => return Ok(place),
            _ => return Err(Fail::from("another item")),
        }
    }
    Err(Fail::from("no end"))
}

/// How many keys of a large hash are listed and found.
fn keys_of_large(alloc: Global) -> Result<usize, Fail> {
    let mut space = Space::new(alloc, RactorNo(1), 10);
    let program = program(alloc, b"a")?;
    let hash = value(alloc, &mut space, "{")?;
    let put = BuiltInMethod::Content(ContentMethod::SetAt);
    for number in 0..1000 {
        let values = [hash, Ref::Int(number), Ref::Nil];
        called(alloc, &mut space, &program, put, &values)?;
    }
    let keys = given(keys_of(alloc, &mut space, hash)?)?;
    for place in 0..5000 {
        let Round::Item(key) = item_at(&space, keys, place) else {
            return Ok(place);
        };
        let Round::Item(Ref::Nil) = pair_at(alloc, &space, hash, key)? else {
            return Err(Fail::from("another value"));
        };
    }
    Err(Fail::from("no end"))
}

#[test]
fn iterations_begin_as_wanted(rt: HostRuntime) -> Result<(), Fail> {
    for row in BEGUN.lines() {
        let Some((line, wanted)) = row.split_once(" => ") else {
            return Err(Fail::from("no row"));
        };
        if begun(rt.alloc(), line)?.as_slice() != wanted.as_bytes() {
            println!(rt; "{row}")?;
            return Err(Fail::from("another outcome"));
        }
    }
    Ok(())
}

#[test]
fn rounds_over_arrays_read_their_items(rt: HostRuntime) -> Result<(), Fail> {
    for row in ITEMS.lines() {
        let Some((word, wanted)) = row.split_once(" => ") else {
            return Err(Fail::from("no row"));
        };
        if items_of(rt.alloc(), word)?.as_slice() != wanted.as_bytes() {
            println!(rt; "{row}")?;
            return Err(Fail::from("other items"));
        }
    }
    if rounds_of_large(rt.alloc())? != 3000 {
        return Err(Fail::from("another number of rounds"));
    }
    Ok(())
}

#[test]
fn rounds_over_hashes_read_their_pairs(rt: HostRuntime) -> Result<(), Fail> {
    for row in PAIRS.lines() {
        let Some((word, wanted)) = row.split_once(" => ") else {
            return Err(Fail::from("no row"));
        };
        if pairs_of(rt.alloc(), word)?.as_slice() != wanted.as_bytes() {
            println!(rt; "{row}")?;
            return Err(Fail::from("other pairs"));
        }
    }
    if keys_of_large(rt.alloc())? != 1000 {
        return Err(Fail::from("another number of keys"));
    }
    Ok(())
}

#[test]
fn rounds_over_a_changed_hash_read_what_is_there(rt: HostRuntime) -> Result<(), Fail> {
    if changed_pairs(rt.alloc())?.as_slice() != b"1 2 3 gone 5 8 over".as_slice() {
        return Err(Fail::from("other pairs"));
    }
    if text_pairs(rt.alloc())?.as_slice() != b"\"a\" 1 \"b\" 2 over".as_slice() {
        return Err(Fail::from("other pairs of texts"));
    }
    Ok(())
}
