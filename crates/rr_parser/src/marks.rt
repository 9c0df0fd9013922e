//! The words behind one word of a kind that is asked for often: the kind is a pattern here, which is tried at once, where
//! `behind` compares whole kinds.

ghost use Rattle.rr_parser.specs.declared.word.WordKind.TheVariants.{Comma, Dot, Minus, Bang, NotWord, Separator, Close, CloseSquare, Arrow, CloseBrace, Def};
ghost use Rattle.rr_parser.specs.Places.{word};
ghost use Rattle.rr_parser.specs.Meets.{SeesRest};

use crate::word::{Word, WordKind};

/// The words behind a comma.
#[inline(always)]
pub(crate) fn comma(words: &[Word]) -> Option<&[Word]>
    ensures { SeesRest result (word Comma words.now) }
{
    match words {
        [
            Word {
                kind: WordKind::Comma,
                ..
            },
            rest @ ..,
        ] => Some(rest),
        _ => None,
    }
}

/// The words behind a dot.
#[inline(always)]
pub(crate) fn dot(words: &[Word]) -> Option<&[Word]>
    ensures { SeesRest result (word Dot words.now) }
{
    match words {
        [
            Word {
                kind: WordKind::Dot,
                ..
            },
            rest @ ..,
        ] => Some(rest),
        _ => None,
    }
}

/// The words behind a minus.
#[inline(always)]
pub(crate) fn minus(words: &[Word]) -> Option<&[Word]>
    ensures { SeesRest result (word Minus words.now) }
{
    match words {
        [
            Word {
                kind: WordKind::Minus,
                ..
            },
            rest @ ..,
        ] => Some(rest),
        _ => None,
    }
}

/// The words behind a `!`.
#[inline(always)]
pub(crate) fn bang(words: &[Word]) -> Option<&[Word]>
    ensures { SeesRest result (word Bang words.now) }
{
    match words {
        [
            Word {
                kind: WordKind::Bang,
                ..
            },
            rest @ ..,
        ] => Some(rest),
        _ => None,
    }
}

/// The words behind the word `not`.
#[inline(always)]
pub(crate) fn not_word(words: &[Word]) -> Option<&[Word]>
    ensures { SeesRest result (word NotWord words.now) }
{
    match words {
        [
            Word {
                kind: WordKind::NotWord,
                ..
            },
            rest @ ..,
        ] => Some(rest),
        _ => None,
    }
}

/// The words behind a separator.
#[inline(always)]
pub(crate) fn separator(words: &[Word]) -> Option<&[Word]>
    ensures { SeesRest result (word Separator words.now) }
{
    match words {
        [
            Word {
                kind: WordKind::Separator,
                ..
            },
            rest @ ..,
        ] => Some(rest),
        _ => None,
    }
}

/// The words behind a closing bracket.
#[inline(always)]
pub(crate) fn close(words: &[Word]) -> Option<&[Word]>
    ensures { SeesRest result (word Close words.now) }
{
    match words {
        [
            Word {
                kind: WordKind::Close,
                ..
            },
            rest @ ..,
        ] => Some(rest),
        _ => None,
    }
}

/// The words behind a closing square bracket.
#[inline(always)]
pub(crate) fn close_square(words: &[Word]) -> Option<&[Word]>
    ensures { SeesRest result (word CloseSquare words.now) }
{
    match words {
        [
            Word {
                kind: WordKind::CloseSquare,
                ..
            },
            rest @ ..,
        ] => Some(rest),
        _ => None,
    }
}

/// The words behind a `=>`.
#[inline(always)]
pub(crate) fn arrow(words: &[Word]) -> Option<&[Word]>
    ensures { SeesRest result (word Arrow words.now) }
{
    match words {
        [
            Word {
                kind: WordKind::Arrow,
                ..
            },
            rest @ ..,
        ] => Some(rest),
        _ => None,
    }
}

/// The words behind a closing brace.
#[inline(always)]
pub(crate) fn close_brace(words: &[Word]) -> Option<&[Word]>
    ensures { SeesRest result (word CloseBrace words.now) }
{
    match words {
        [
            Word {
                kind: WordKind::CloseBrace,
                ..
            },
            rest @ ..,
        ] => Some(rest),
        _ => None,
    }
}

/// The words behind the word `def`.
#[inline(always)]
pub(crate) fn def_word(words: &[Word]) -> Option<&[Word]>
    ensures { SeesRest result (word Def words.now) }
{
    match words {
        [
            Word {
                kind: WordKind::Def,
                ..
            },
            rest @ ..,
        ] => Some(rest),
        _ => None,
    }
}
