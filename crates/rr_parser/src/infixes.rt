//! What stands between two operands, between two conditions, or between a statement and its condition.

ghost use Rattle.std.specs.Prelude.{◌≡◌, ℕ, ◌≤◌, false, None};
ghost use Rattle.rr_parser.specs.Grammar.Operators.{level_of_binary, level_of, operator_of, at_level, operator, connective_of, connective};
ghost use Rattle.rr_parser.specs.Grammar.Sequences.{modifier};
ghost use Rattle.rr_parser.specs.Meets.{Sees};
ghost use Rattle.rr_parser.specs.Places.{word, is_kind};
ghost use Rattle.rr_parser.specs.declared.word.WordKind.TheVariants.{Question};

use crate::word::{Connective, Infix, Modifier, Word, WordKind};
use rr_tree::BinaryOperator;

#[inline(always)]
fn level_of_binary(operator: BinaryOperator) -> u8
    ensures { result ≡ level_of_binary operator }
{
    match operator {
        BinaryOperator::Multiply | BinaryOperator::Divide | BinaryOperator::Remainder => 1,
        BinaryOperator::Add | BinaryOperator::Subtract => 2,
        BinaryOperator::Less
        | BinaryOperator::LessOrEqual
        | BinaryOperator::Greater
        | BinaryOperator::GreaterOrEqual => 4,
        BinaryOperator::Compare | BinaryOperator::Equal | BinaryOperator::NotEqual => 5,
    }
}

/// The level of an operator. The tightest is 1, and 5 does not associate.
#[inline(always)]
pub(crate) fn level_of(operator: Infix) -> u8
    ensures { result ≡ level_of operator }
{
    match operator {
        Infix::Binary(operator) => level_of_binary(operator),
        Infix::Append => 3,
    }
}

/// The operator of a level that a word is.
#[inline(always)]
fn operator_of(level: u8, kind: WordKind) -> Option<Infix>
    ensures { result ≡ operator_of level kind }
{
    match kind {
        WordKind::Operator(operator) => at_level(level, operator),
        WordKind::Minus => at_level(level, Infix::Binary(BinaryOperator::Subtract)),
        _ => None,
    }
}

#[inline(always)]
fn at_level(level: u8, operator: Infix) -> Option<Infix>
    ensures { result ≡ at_level level operator }
{
    if level_of(operator) == level {
        Some(operator)
    } else {
        None
    }
}

/// An operator of a level.
#[inline(always)]
pub(crate) fn operator(level: u8, words: &[Word]) -> Option<(Infix, &[Word])>
    ensures { Sees result (operator level words.now) }
{
    let (word, rest) = words.split_first()?;
    let operator = operator_of(level, word.kind)?;
    Some((operator, rest))
}

/// Whether a word is an operator of this level or of a tighter one.
#[inline(always)]
fn is_within(level: u8, kind: WordKind) -> bool
    ensures { result ≡ false → (n : ℕ) → n ≤ level → operator_of n kind ≡ None }
{
    match kind {
        WordKind::Operator(operator) => level_of(operator) <= level,
        WordKind::Minus => level >= 2,
        _ => false,
    }
}

/// Whether an operator of this level or of a tighter one comes.
#[inline(always)]
pub(crate) fn binds(level: u8, words: &[Word]) -> bool
    ensures { result ≡ false → (n : ℕ) → n ≤ level → operator n words.now ≡ None }
{
    match words.first() {
        Some(word) => is_within(level, word.kind),
        None => false,
    }
}

/// Whether a word may stand behind an operand and before another one, inside one operand between commas.
#[inline(always)]
fn joins(kind: WordKind) -> bool
    ensures operators { result ≡ false → (n : ℕ) → operator_of n kind ≡ None }
    ensures connectives { result ≡ false → (n : ℕ) → n ≤ 2 → connective_of n kind ≡ None }
    ensures question { result ≡ false → is_kind kind Question ≡ false }
{
    matches!(
        kind,
        WordKind::Operator(_) | WordKind::Minus | WordKind::And | WordKind::Or | WordKind::Question
    )
}

/// Whether an operator comes, or what joins conditions, or a `?`.
#[inline(always)]
pub(crate) fn goes_on(words: &[Word]) -> bool
    ensures operators { result ≡ false → (n : ℕ) → operator n words.now ≡ None }
    ensures connectives { result ≡ false → (n : ℕ) → n ≤ 2 → connective n words.now ≡ None }
    ensures question { result ≡ false → word Question words.now ≡ None }
{
    match words.first() {
        Some(word) => joins(word.kind),
        None => false,
    }
}

/// What joins conditions at a level that a word is. `&&` is level 1, `||` level 2, and the words `and` and `or` are
/// level 3.
#[inline(always)]
fn connective_of(level: u8, kind: WordKind) -> Option<Connective>
    ensures { result ≡ connective_of level kind }
{
    match kind {
        WordKind::And if level == 1 => Some(Connective::And),
        WordKind::Or if level == 2 => Some(Connective::Or),
        WordKind::AndWord if level == 3 => Some(Connective::And),
        WordKind::OrWord if level == 3 => Some(Connective::Or),
        _ => None,
    }
}

/// What joins conditions at a level.
#[inline(always)]
pub(crate) fn connective(level: u8, words: &[Word]) -> Option<(Connective, &[Word])>
    ensures { Sees result (connective level words.now) }
{
    let (word, rest) = words.split_first()?;
    let connective = connective_of(level, word.kind)?;
    Some((connective, rest))
}

/// What says whether, or how often, a statement is done.
#[inline(always)]
pub(crate) fn modifier(words: &[Word]) -> Option<(Modifier, &[Word])>
    ensures { Sees result (modifier words.now) }
{
    let (word, rest) = words.split_first()?;
    match word.kind {
        WordKind::If => Some((Modifier::If, rest)),
        WordKind::Unless => Some((Modifier::Unless, rest)),
        WordKind::Loop { until } => Some((Modifier::Loop { until }, rest)),
        _ => None,
    }
}
