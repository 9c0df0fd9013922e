//! Reading constants, by their paths.

ghost use Rattle.std.specs.Prelude.{◌≡◌};
ghost use Rattle.rr_parser.specs.Grammar.Operands.{scope_sign, tight_constant, inner_constant};
ghost use Rattle.rr_parser.specs.Reading.Operands.{constant_at};
ghost use Rattle.rr_parser.specs.Meets.{Sees, SeesRest};

use crate::parser::{Parsed, Parser};
use crate::word::{Naming, Word, WordKind};
use rr_base::Sym;
use rr_tree::{Node, NodeId, Path};

/// `::` with no blank before it.
fn scope_sign(words: &[Word]) -> Option<&[Word]>
    ensures { SeesRest result (scope_sign words.now) }
{
    match words {
        [
            Word {
                kind: WordKind::Path,
                blank: false,
            },
            rest @ ..,
        ] => Some(rest),
        _ => None,
    }
}

/// A constant with no blank before it.
fn tight_constant(words: &[Word]) -> Option<(Sym, &[Word])>
    ensures { Sees result (tight_constant words.now) }
{
    match words {
        [
            Word {
                kind: WordKind::Constant(name, _),
                blank: false,
            },
            rest @ ..,
        ] => Some((*name, rest)),
        _ => None,
    }
}

/// `::` and a constant, directly behind a constant that has others.
pub(crate) fn inner_constant(outer: Naming, words: &[Word]) -> Option<(Sym, &[Word])>
    ensures { Sees result (inner_constant outer words.now) }
{
    if outer != Naming::Ractor {
        return None;
    }
    let rest = scope_sign(words)?;
    tight_constant(rest)
}

impl Parser {
    ghost use Rattle.rr_parser.specs.Meets.{Gives, place};

    /// A constant, and the one behind it and `::`.
    #[tactic(auto, unfolding(crate::specs::Reading::Operands::constant_at))]
    pub fn constant<'w>(
        &mut self,
        name: Sym,
        outer: Naming,
        words: &'w [Word],
    ) -> Parsed<'w, NodeId>
        ensures { Gives self.old self.new result (constant_at name outer (place self.old words.now)) }
    {
        match inner_constant(outer, words) {
            Some((inner, rest)) => Ok((self.put(Node::Constant(Path::Ractor(inner)))?, rest)),
            None => Ok((self.put(Node::Constant(Path::Plain(name)))?, words)),
        }
    }
}
