//! Reading blocks.

ghost use Rattle.std.specs.Prelude.{◌≡◌};
ghost use Rattle.rr_parser.specs.Grammar.Names.{variable, variable_of_kind};
ghost use Rattle.rr_parser.specs.Grammar.Blocks.{names_to, parameters};
ghost use Rattle.rr_parser.specs.Reading.Blocks.{block_of};
ghost use Rattle.rr_parser.specs.Reading.{readers};
ghost use Rattle.rr_parser.specs.Meets.{ReadsNames, Sees};

use crate::fences::fence_end;
use crate::look::behind;
use crate::parser::{Parsed, Parser};
use crate::refusal::Refusal;
use crate::word::{Fence, NameKind, Word, WordKind};
use rr_base::Sym;
use rr_tree::{Node, NodeId};
use std::alloc::Global;

/// A name that may be a variable.
fn variable_of_kind(kind: WordKind) -> Option<Sym>
    ensures { result ≡ variable_of_kind kind }
{
    match kind {
        WordKind::Name(_, NameKind::Marked) => None,
        WordKind::Name(name, _) => Some(name),
        _ => None,
    }
}

/// A name that may be a variable, and the words behind it.
pub(crate) fn variable(words: &[Word]) -> Option<(Sym, &[Word])>
    ensures { Sees result (variable words.now) }
{
    let (word, rest) = words.split_first()?;
    let name = variable_of_kind(word.kind)?;
    Some((name, rest))
}

/// Names with commas between them, up to a word of this kind.
pub(crate) fn names_to<'w>(alloc: Global, end: WordKind, words: &'w [Word]) -> Parsed<'w, Vec<Sym>>
    ensures { ReadsNames result (names_to end words.now) }
{
    let mut names = Vec::new(alloc);
    let Some((first, mut rest)) = variable(words) else {
        return Err(Refusal::Unexpected(words.len()));
    };
    names.push(first)?;
    while let Some(after) = behind(WordKind::Comma, rest) {
        let Some((next, after)) = variable(after) else {
            return Err(Refusal::Unexpected(after.len()));
        };
        names.push(next)?;
        rest = after;
    }
    match behind(end, rest) {
        Some(rest) => Ok((names, rest)),
        None => Err(Refusal::Unexpected(rest.len())),
    }
}

/// The parameters of a block.
fn parameters<'w>(alloc: Global, words: &'w [Word]) -> Parsed<'w, Vec<Sym>>
    ensures { ReadsNames result (parameters words.now) }
{
    match behind(WordKind::Bar, words) {
        Some(rest) => names_to(alloc, WordKind::Bar, rest),
        None => Ok((Vec::new(alloc), words)),
    }
}

impl Parser {
    ghost use Rattle.rr_parser.specs.Meets.{Gives, place};

    /// A block, behind the word that begins it.
    #[cycle(parser)]
    #[tactic(auto, unfolding(crate::specs::Reading::Blocks::block_of))]
    pub fn block<'w>(
        &mut self,
        fence: Fence,
        inside: bool,
        depth: u32,
        words: &'w [Word],
    ) -> Parsed<'w, NodeId>
        ensures { Gives self.old self.new result (block_of (readers inside depth) fence (place self.old words.now)) }
    {
        let (parameters, rest) = parameters(self.alloc, words)?;
        let scope = self.enter(&parameters)?;
        let (body, rest) = self.held(fence, inside, depth, rest)?;
        let Some(rest) = behind(fence_end(fence), rest) else {
            return Err(Refusal::Unexpected(rest.len()));
        };
        let size = self.known.count;
        self.leave(scope);
        let block = self.put(Node::Block {
            scope: scope.number,
            parameters: scope.parameters,
            size,
            body,
        })?;
        Ok((block, rest))
    }
}
