//! Which call takes a block, and what stands round it.

ghost use Rattle.std.specs.Prelude.{◌≡◌};
ghost use Rattle.rr_parser.specs.Grammar.Fences.{takes_word, fence_of, opening, fence_end, within_head};
ghost use Rattle.rr_parser.specs.Grammar.{is_enclosed};
ghost use Rattle.rr_parser.specs.Meets.{Sees};

use crate::word::{Behind, Fence, Head, Part, Word, WordKind};

/// Whether a call or a command takes the word `do`, where calls do.
#[inline(always)]
fn takes_word(behind: Behind) -> bool
    ensures { result ≡ takes_word behind }
{
    match behind {
        Behind::Call | Behind::Command(Head::Call(_)) => true,
        Behind::Command(Head::Jump(_) | Head::Passing(_)) => false,
    }
}

/// What stands round the block that a word begins.
#[inline(always)]
fn fence_of(behind: Behind, takes_do: bool, kind: WordKind) -> Option<Fence>
    ensures { result ≡ fence_of behind takes_do kind }
{
    match kind {
        WordKind::OpenBrace if behind == Behind::Call => Some(Fence::Brace),
        WordKind::Do if takes_word(behind) && takes_do => Some(Fence::Do),
        _ => None,
    }
}

/// The beginning of a block.
#[inline(always)]
pub(crate) fn opening(behind: Behind, takes_do: bool, words: &[Word]) -> Option<(Fence, &[Word])>
    ensures { Sees result (opening behind takes_do words.now) }
{
    let (word, rest) = words.split_first()?;
    let fence = fence_of(behind, takes_do, word.kind)?;
    Some((fence, rest))
}

/// The word that ends a block.
#[inline(always)]
pub(crate) fn fence_end(fence: Fence) -> WordKind
    ensures { result ≡ fence_end fence }
{
    match fence {
        Fence::Brace => WordKind::CloseBrace,
        Fence::Do => WordKind::End,
    }
}

/// Whether calls in the arguments of a command take the word `do`, where calls did before it.
#[inline(always)]
pub(crate) fn within_head(head: Head, takes_do: bool) -> bool
    ensures { result ≡ within_head head takes_do }
{
    match head {
        Head::Call(_) => false,
        Head::Jump(_) | Head::Passing(_) => takes_do,
    }
}

/// Whether a part ends with a word of its own, so that calls in it take the word `do`.
#[inline(always)]
pub(crate) fn is_enclosed(part: Part) -> bool
    ensures { result ≡ is_enclosed part }
{
    match part {
        Part::Minus | Part::Bang | Part::Not | Part::Command | Part::Branch => false,
        _ => true,
    }
}
