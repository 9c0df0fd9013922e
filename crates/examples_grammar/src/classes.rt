//! Which classes a source may name, open and stand above others.

use crate::reader::{NOTHING, Word};
use rr_lexer::{Keyword, Kind, Op};

/// The names of the built-in classes, but for those behind `Ractor::`.
const CLASSES: &str =
    "BasicObject Object Integer String Symbol Array Hash NilClass TrueClass FalseClass Class Ractor \
    Exception SystemStackError StandardError ArgumentError IndexError StopIteration LocalJumpError NameError \
    NoMethodError RangeError RuntimeError FrozenError TypeError ZeroDivisionError";

/// The names of the built-in classes that may stand above one of the program.
const SUPERCLASSES: &str =
    "Object Exception SystemStackError StandardError ArgumentError IndexError StopIteration LocalJumpError \
    NameError NoMethodError RangeError RuntimeError FrozenError TypeError ZeroDivisionError";

/// The same behind `Ractor::`.
const RACTOR_SUPERCLASSES: &str = "ClosedError Error RemoteError MovedError IsolationError";

fn is_among(names: &str, name: &[u8]) -> bool {
    for known in names.split_whitespace() {
        if known.as_bytes() == name {
            return true;
        }
    }
    false
}

/// Whether a constant names a built-in class.
pub fn is_class(name: &[u8]) -> bool {
    is_among(CLASSES, name)
}

/// Whether a name is a word before attributes.
pub fn is_access(name: &[u8]) -> bool {
    is_among("attr_reader attr_writer attr_accessor", name)
}

/// A class with its superclass, as the words have them.
#[derive(Clone, Copy)]
pub struct Head<'a> {
    pub name: Word<'a>,
    /// The last word of the superclass's path, and whether it stands behind `Ractor::`.
    above: &'a [u8],
    in_ractor: bool,
}

fn word<'a>(words: &[Word<'a>], place: usize) -> Word<'a> {
    match words.get(place) {
        Some(word) => *word,
        None => NOTHING,
    }
}

/// The head whose `class` stands at a place.
fn head_at<'a>(words: &[Word<'a>], place: usize) -> Head<'a> {
    let at = |far: usize| word(words, place.wrapping_add(far));
    let names_above = at(2).kind == Kind::Op(Op::Less);
    let in_ractor = names_above && at(4).kind == Kind::Op(Op::Path);
    let above = match (names_above, in_ractor) {
        (true, true) => at(5).text,
        (true, false) => at(3).text,
        (false, _) => b"Object".as_slice(),
    };
    Head {
        name: at(1),
        above,
        in_ractor,
    }
}

/// The last head before a place.
pub fn last_head<'a>(words: &[Word<'a>], end: usize) -> Option<Head<'a>> {
    let mut found = None;
    for place in 0..end.min(words.len()) {
        if word(words, place).kind == Kind::Keyword(Keyword::Class) {
            found = Some(head_at(words, place));
        }
    }
    found
}

/// The first head of the class of this name.
fn first_head<'a>(words: &[Word<'a>], name: &[u8]) -> Option<Head<'a>> {
    for place in 0..words.len() {
        if word(words, place).kind == Kind::Keyword(Keyword::Class) {
            let head = head_at(words, place);
            if head.name.text == name {
                return Some(head);
            }
        }
    }
    None
}

/// Whether the class of the last head before a place can have its superclass, where the classes of these bits were opened.
pub fn is_fitting(words: &[Word], end: usize, opened: u64) -> bool {
    let Some(head) = last_head(words, end) else {
        return false;
    };
    let Some(first) = first_head(words, head.name.text) else {
        return false;
    };
    let own = word(words, end.wrapping_sub(1)).bit & opened != 0;
    let is_there = if head.in_ractor {
        is_among(RACTOR_SUPERCLASSES, head.above)
    } else {
        own || is_among(SUPERCLASSES, head.above)
    };
    is_there && first.above == head.above && first.in_ractor == head.in_ractor
}
