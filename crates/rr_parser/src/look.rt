//! What stands first among words, and the words behind it.

ghost use Rattle.std.specs.Prelude.{◌≡◌, ◌≤◌};
ghost use Rattle.rr_parser.specs.Places.{word, without_separators, separators};
ghost use Rattle.rr_parser.specs.Grammar.Names.{told_behind, name, head, begins_argument, begins_arguments, bracket, begins_operands, begins_operand, is_tight};
ghost use Rattle.rr_parser.specs.Grammar.Operands.{negated, joined, square, sent, tail, order};
ghost use Rattle.rr_parser.specs.Grammar.Calls.{sign, target_word, target, label, closing, last};
ghost use Rattle.rr_parser.specs.Grammar.Several.{several};
ghost use Rattle.rr_parser.specs.Grammar.Classes.{row_of};
ghost use Rattle.rr_parser.specs.Grammar.Control.{thens, loops};
ghost use Rattle.rr_parser.specs.Reading.Operands.{prefix_minus};
ghost use Rattle.rr_parser.specs.Reading.Calls.{another};
ghost use Rattle.rr_parser.specs.Reading.Several.{ends_target, lone_target};
ghost use Rattle.rr_parser.specs.Reading.Sequences.{ends_at, ends, row};
ghost use Rattle.rr_parser.specs.Meets.{Sees, SeesRest};

use crate::marks::{close, close_brace, close_square, comma, dot, minus, separator};
use crate::word::{Aim, Head, Infix, Listed, NameKind, Sign, Tail, Target, Word, WordKind};
use rr_base::Sym;
use rr_tree::BinaryOperator;

/// How many integers there are from 0 on.
pub(crate) const INTEGERS: u64 = 9_223_372_036_854_775_808;

/// The negative of an integer.
#[inline(always)]
pub(crate) fn negated(n: u64) -> i64
    requires { n ≤ 9223372036854775808 }
    ensures { result ≡ negated n }
{
    match n.checked_sub(1) {
        None => 0,
        Some(less) => -1 - less as i64,
    }
}

/// The words behind a word of this kind.
#[inline(always)]
pub(crate) fn behind(kind: WordKind, words: &[Word]) -> Option<&[Word]>
    ensures { SeesRest result (word kind words.now) }
{
    match words {
        [first, rest @ ..] if first.kind == kind => Some(rest),
        _ => None,
    }
}

/// A name.
#[inline(always)]
pub(crate) fn name(words: &[Word]) -> Option<(Sym, &[Word])>
    ensures { Sees result (name words.now) }
{
    match words {
        [
            Word {
                kind: WordKind::Name(name, _),
                ..
            },
            rest @ ..,
        ] => Some((*name, rest)),
        _ => None,
    }
}

/// What may begin a command.
#[inline(always)]
pub(crate) fn head(words: &[Word]) -> Option<(Head, &[Word])>
    ensures { Sees result (head words.now) }
{
    let (word, rest) = words.split_first()?;
    match word.kind {
        WordKind::Name(name, _) => Some((Head::Call(name), rest)),
        WordKind::Jump(jump) => Some((Head::Jump(jump), rest)),
        WordKind::Passing(passing) => Some((Head::Passing(passing), rest)),
        _ => None,
    }
}

/// What is assigned to.
#[inline(always)]
pub(crate) fn target_word(words: &[Word]) -> Option<(Target, &[Word])>
    ensures { Sees result (target_word words.now) }
{
    let (word, rest) = words.split_first()?;
    match word.kind {
        WordKind::Name(_, NameKind::Marked) => None,
        WordKind::Name(name, _) => Some((Target::Variable(name), rest)),
        WordKind::Field(name) => Some((Target::Field(name), rest)),
        WordKind::Global(name) => Some((Target::Global(name), rest)),
        WordKind::Constant(name, naming) => Some((Target::Constant(name, naming), rest)),
        _ => None,
    }
}

/// The key of a pair.
#[inline(always)]
pub(crate) fn label(words: &[Word]) -> Option<(Sym, &[Word])>
    ensures { Sees result (label words.now) }
{
    match words {
        [
            Word {
                kind: WordKind::Label(name),
                ..
            },
            rest @ ..,
        ] => Some((*name, rest)),
        _ => None,
    }
}

/// The integer that stands first with no blank before it.
#[inline(always)]
pub(crate) fn joined(words: &[Word]) -> Option<(u64, &[Word])>
    ensures { Sees result (joined words.now) }
{
    match words {
        [
            Word {
                kind: WordKind::Int(n),
                blank: false,
            },
            rest @ ..,
        ] => Some((*n, rest)),
        _ => None,
    }
}

/// A minus that belongs to no integer.
#[inline(always)]
pub(crate) fn prefix_minus(words: &[Word]) -> Option<&[Word]>
    ensures { SeesRest result (prefix_minus words.now) }
{
    let rest = minus(words)?;
    match joined(rest) {
        Some(_) => None,
        None => Some(rest),
    }
}

/// The bracket of arguments, which stands directly behind a name.
#[inline(always)]
pub(crate) fn bracket(words: &[Word]) -> Option<&[Word]>
    ensures { SeesRest result (bracket words.now) }
{
    match words {
        [
            Word {
                kind: WordKind::Open,
                blank: false,
            },
            rest @ ..,
        ] => Some(rest),
        _ => None,
    }
}

/// The bracket of an index, which stands directly behind an operand.
#[inline(always)]
fn square(words: &[Word]) -> Option<&[Word]>
    ensures { SeesRest result (square words.now) }
{
    match words {
        [
            Word {
                kind: WordKind::OpenSquare,
                blank: false,
            },
            rest @ ..,
        ] => Some(rest),
        _ => None,
    }
}

/// The call that stands behind a dot, unless it is a command.
#[inline(always)]
fn sent(words: &[Word]) -> Option<(Tail, &[Word])>
    ensures { Sees result (sent (name words.now)) }
{
    let (name, rest) = name(words)?;
    match bracket(rest) {
        Some(behind) => Some((Tail::Call(name), behind)),
        None if begins_operands(rest) => None,
        None => Some((Tail::Send(name), rest)),
    }
}

/// What follows an operand.
#[inline(always)]
pub(crate) fn tail(words: &[Word]) -> Option<(Tail, &[Word])>
    ensures { Sees result (tail words.now) }
{
    if let Some(rest) = dot(words) {
        return sent(rest);
    }
    let rest = square(words)?;
    Some((Tail::Index, rest))
}

/// A dot and the name of a call that operands follow.
#[inline(always)]
pub(crate) fn order(words: &[Word]) -> Option<(Sym, &[Word])>
    ensures { Sees result (order words.now) }
{
    let rest = dot(words)?;
    let (name, rest) = name(rest)?;
    if begins_operands(rest) {
        Some((name, rest))
    } else {
        None
    }
}

/// The word that ends a list.
#[inline(always)]
pub(crate) fn closing(list: Listed, words: &[Word]) -> Option<&[Word]>
    ensures { SeesRest result (closing list words.now) }
{
    match list {
        Listed::Command => None,
        Listed::Call => close(words),
        Listed::Array => close_square(words),
        Listed::Hash => close_brace(words),
    }
}

/// The word that ends a list, before which a comma may stand.
#[inline(always)]
pub(crate) fn last(list: Listed, words: &[Word]) -> Option<&[Word]>
    ensures { SeesRest result (last list words.now) }
{
    match comma(words) {
        Some(rest) => closing(list, rest),
        None => closing(list, words),
    }
}

/// A comma, unless the list ends behind it.
#[inline(always)]
pub(crate) fn another(list: Listed, words: &[Word]) -> Option<&[Word]>
    ensures { SeesRest result (another list words.now) }
{
    let rest = comma(words)?;
    match closing(list, rest) {
        Some(_) => None,
        None => Some(rest),
    }
}

/// The sign of an assignment.
#[inline(always)]
pub(crate) fn sign(words: &[Word]) -> Option<(Sign, &[Word])>
    ensures { Sees result (sign words.now) }
{
    match words {
        [
            Word {
                kind: WordKind::Assign(sign),
                ..
            },
            rest @ ..,
        ] => Some((*sign, rest)),
        _ => None,
    }
}

/// How many words are left, as a use of a variable tells it of those behind it.
#[inline(always)]
pub(crate) fn told_behind(words: &[Word]) -> u32
    ensures { result ≡ told_behind words.now }
{
    words.len().min(4_294_967_295) as u32
}

/// What is assigned to, and the sign of the assignment.
#[inline(always)]
pub(crate) fn target(words: &[Word]) -> Option<(Aim, &[Word])>
    ensures { Sees result (target words.now) }
{
    let (target, rest) = target_word(words)?;
    let behind = told_behind(rest);
    let (sign, rest) = sign(rest)?;
    let aim = Aim {
        target,
        sign,
        behind,
    };
    Some((aim, rest))
}

/// A target that is a word, and a comma.
#[inline(always)]
pub(crate) fn several(words: &[Word]) -> Option<&[Word]>
    ensures { SeesRest result (several words.now) }
{
    let (_, rest) = target_word(words)?;
    comma(rest)
}

/// Whether a comma comes, or the sign of a plain assignment.
#[inline(always)]
fn ends_target(words: &[Word]) -> bool
    ensures { result ≡ ends_target words.now }
{
    comma(words).is_some() || behind(WordKind::Assign(Sign::Plain), words).is_some()
}

/// A target that is a word, of several.
#[inline(always)]
pub(crate) fn lone_target(words: &[Word]) -> Option<(Target, &[Word])>
    ensures { Sees result (lone_target words.now) }
{
    let (target, rest) = target_word(words)?;
    if ends_target(rest) {
        Some((target, rest))
    } else {
        None
    }
}

/// The words from the first on that is no separator.
#[inline(always)]
pub(crate) fn without_separators(words: &[Word]) -> &[Word]
    ensures { result.now ≡ without_separators words.now }
{
    let mut rest = words;
    while let [
        Word {
            kind: WordKind::Separator,
            ..
        },
        after @ ..,
    ] = rest
    {
        rest = after;
    }
    rest
}

/// The words behind one separator or more.
#[inline(always)]
pub(crate) fn separators(words: &[Word]) -> Option<&[Word]>
    ensures { SeesRest result (separators words.now) }
{
    let rest = separator(words)?;
    Some(without_separators(rest))
}

/// The words behind separators and a word of this kind.
#[inline(always)]
pub(crate) fn row_of(kind: WordKind, words: &[Word]) -> Option<&[Word]>
    ensures { SeesRest result (row_of kind words.now) }
{
    let rest = separators(words)?;
    behind(kind, rest)
}

#[inline(always)]
fn ends_at(kind: WordKind) -> bool
    ensures { result ≡ ends_at kind }
{
    match kind {
        WordKind::Close
        | WordKind::CloseBrace
        | WordKind::TextMiddle(_)
        | WordKind::TextTail(_)
        | WordKind::Elsif
        | WordKind::Else
        | WordKind::Rescue
        | WordKind::Ensure
        | WordKind::End => true,
        _ => false,
    }
}

/// Whether what ends a list of statements comes.
#[inline(always)]
pub(crate) fn ends(words: &[Word]) -> bool
    ensures { result ≡ ends words.now }
{
    match words.first() {
        Some(word) => ends_at(word.kind),
        None => true,
    }
}

/// Separators that a statement follows.
#[inline(always)]
pub(crate) fn row(words: &[Word]) -> Option<&[Word]>
    ensures { SeesRest result (row words.now) }
{
    let rest = separators(words)?;
    if ends(rest) { None } else { Some(rest) }
}

/// What stands between a condition and its statements: separators, a `then`, or both.
#[inline(always)]
pub(crate) fn thens(words: &[Word]) -> Option<&[Word]>
    ensures { SeesRest result (thens words.now) }
{
    if let Some(rest) = behind(WordKind::Then, words) {
        return Some(rest);
    }
    let rest = separators(words)?;
    match behind(WordKind::Then, rest) {
        Some(after) => Some(after),
        None => Some(rest),
    }
}

/// What stands between the condition of a loop and its statements: the word `do`, or separators.
#[inline(always)]
pub(crate) fn loops(words: &[Word]) -> Option<&[Word]>
    ensures { SeesRest result (loops words.now) }
{
    match behind(WordKind::Do, words) {
        Some(rest) => Some(rest),
        None => separators(words),
    }
}

/// Whether operands follow a name: a blank, and a word that begins an operand.
#[inline(always)]
pub(crate) fn begins_operands(words: &[Word]) -> bool
    ensures { result ≡ begins_operands words.now }
{
    let Some((word, rest)) = words.split_first() else {
        return false;
    };
    word.blank && begins_operand(word.kind, is_tight(rest))
}

#[inline(always)]
fn begins_operand(kind: WordKind, tight: bool) -> bool
    ensures { result ≡ begins_operand kind tight }
{
    match kind {
        WordKind::Int(_)
        | WordKind::Text(_)
        | WordKind::TextHead(_)
        | WordKind::Name(_, _)
        | WordKind::Nil
        | WordKind::Truth(_)
        | WordKind::Symbol(_)
        | WordKind::Label(_)
        | WordKind::Constant(_, _)
        | WordKind::Field(_)
        | WordKind::Global(_)
        | WordKind::Itself
        | WordKind::Passing(_)
        | WordKind::Begin
        | WordKind::Bang
        | WordKind::Open
        | WordKind::OpenSquare => true,
        WordKind::Minus | WordKind::Operator(Infix::Binary(BinaryOperator::Multiply)) => tight,
        _ => false,
    }
}

#[inline(always)]
fn begins_argument(kind: WordKind) -> bool
    ensures { result ≡ begins_argument kind }
{
    begins_operand(kind, true) || kind == WordKind::OpenBrace
}

/// Whether the value of a jump follows.
#[inline(always)]
pub(crate) fn begins_arguments(words: &[Word]) -> bool
    ensures { result ≡ begins_arguments words.now }
{
    match words.first() {
        Some(word) => begins_argument(word.kind),
        None => false,
    }
}

/// Whether a word follows with no blank before it.
#[inline(always)]
fn is_tight(words: &[Word]) -> bool
    ensures { result ≡ is_tight words.now }
{
    match words.first() {
        Some(word) => !word.blank,
        None => false,
    }
}
