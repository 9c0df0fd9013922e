//! Reading text literals with parts that are evaluated.

ghost use Rattle.std.specs.Prelude.{◌≡◌};
ghost use Rattle.rr_parser.specs.Grammar.Interpolations.{text_middle, text_tail};
ghost use Rattle.rr_parser.specs.Reading.Interpolations.{pieces_of, interpolation_of};
ghost use Rattle.rr_parser.specs.Reading.{readers};
ghost use Rattle.rr_parser.specs.Meets.{Sees};

use crate::parser::{Parsed, ParsedList, Parser};
use crate::refusal::Refusal;
use crate::word::{Word, WordKind};
use rr_tree::{Node, NodeId};

/// The piece of text between two parts.
fn text_middle(words: &[Word]) -> Option<(u32, &[Word])>
    ensures { Sees result (text_middle words.now) }
{
    match words {
        [
            Word {
                kind: WordKind::TextMiddle(text),
                ..
            },
            rest @ ..,
        ] => Some((*text, rest)),
        _ => None,
    }
}

/// The piece of text that ends the literal.
fn text_tail(words: &[Word]) -> Option<(u32, &[Word])>
    ensures { Sees result (text_tail words.now) }
{
    match words {
        [
            Word {
                kind: WordKind::TextTail(text),
                ..
            },
            rest @ ..,
        ] => Some((*text, rest)),
        _ => None,
    }
}

impl Parser {
    ghost use Rattle.rr_parser.specs.Meets.{Gives, GivesList, place};

    /// The parts of a literal behind its first piece, with the piece that ends it.
    #[cycle(parser)]
    #[tactic(auto, unfolding(crate::specs::Reading::Interpolations::interpolation_of))]
    pub fn interpolation<'w>(
        &mut self,
        head: u32,
        inside: bool,
        depth: u32,
        words: &'w [Word],
    ) -> Parsed<'w, NodeId>
        ensures { Gives self.old self.new result (interpolation_of (readers inside depth) head (place self.old words.now)) }
    {
        let (mut items, rest) = self.pieces(head, inside, depth, words)?;
        let Some((tail, rest)) = text_tail(rest) else {
            return Err(Refusal::Unexpected(rest.len()));
        };
        let piece = self.put(Node::Text(tail))?;
        items.push(piece)?;
        Ok((self.put_interpolation(&items)?, rest))
    }

    /// Pieces of text, each with the statements behind it.
    #[cycle(parser)]
    #[tactic(auto, unfolding(crate::specs::Reading::Interpolations::pieces_of, crate::specs::Reading::Answers::chain))]
    fn pieces<'w>(
        &mut self,
        head: u32,
        inside: bool,
        depth: u32,
        words: &'w [Word],
    ) -> ParsedList<'w>
        ensures { GivesList self.old self.new result (pieces_of (readers inside depth) head (place self.old words.now)) }
    {
        let mut items = Vec::new(self.alloc);
        let (first, mut rest) = self.statements(inside, depth, words)?;
        let piece = self.put(Node::Text(head))?;
        items.push(piece)?;
        items.push(first)?;
        while let Some((middle, after)) = text_middle(rest) {
            let (next, after) = self.statements(inside, depth, after)?;
            let piece = self.put(Node::Text(middle))?;
            items.push(piece)?;
            items.push(next)?;
            rest = after;
        }
        Ok((items, rest))
    }
}
