//! Reading the attributes of classes.

ghost use Rattle.std.specs.Prelude.{◌≡◌, ◌<◌, ◌∷◌, [], length, IfOk};
ghost use Rattle.rr_tree.specs.Tree.{HasPartsBefore};
ghost use Rattle.rr_tree.specs.Nodes.{node_tree};
ghost use Rattle.rr_parser.specs.Grammar.Classes.{access_word, symbol, attribute_methods};
ghost use Rattle.rr_parser.specs.Reading.Classes.{attribute_of, attributes_of};
ghost use Rattle.rr_parser.specs.Meets.{Sees};

use crate::look::behind;
use crate::parser::{ParsedList, Parser};
use crate::refusal::{Refusal, Storage};
use crate::word::{Access, NameKind, Word, WordKind};
use rr_base::Sym;
use rr_tree::{Node, NodeId};

/// The word before attributes.
pub(crate) fn access_word(words: &[Word]) -> Option<(Access, &[Word])>
    ensures { Sees result (access_word words.now) }
{
    match words {
        [
            Word {
                kind: WordKind::Name(_, NameKind::Accessor(access)),
                ..
            },
            rest @ ..,
        ] => Some((*access, rest)),
        _ => None,
    }
}

/// A symbol.
fn symbol(words: &[Word]) -> Option<(Sym, &[Word])>
    ensures { Sees result (symbol words.now) }
{
    match words {
        [
            Word {
                kind: WordKind::Symbol(name),
                ..
            },
            rest @ ..,
        ] => Some((*name, rest)),
        _ => None,
    }
}

impl Parser {
    ghost use Rattle.rr_parser.specs.Meets.{GivesList, PutsList, place};

    /// Puts the only method of an attribute.
    fn put_method(&mut self, method: Node) -> Result<Vec<NodeId>, Storage>
        requires { HasPartsBefore (length self.old.nodes.items) method }
        ensures { IfOk result (λ l. PutsList self.old self.new (node_tree self.old.nodes.items method ∷ []) l.items) }
    {
        let method = self.put(method)?;
        let mut methods = Vec::new(self.alloc);
        methods.push(method)?;
        Ok(methods)
    }

    /// Puts both methods of an attribute.
    fn put_methods(&mut self, name: Sym) -> Result<Vec<NodeId>, Storage>
        ensures { IfOk result (λ l. PutsList self.old self.new (attribute_methods Access.Both name) l.items) }
    {
        let reader = self.put(Node::Reader(name))?;
        let writer = self.put(Node::Writer(name))?;
        let mut methods = Vec::new(self.alloc);
        methods.push(reader)?;
        methods.push(writer)?;
        Ok(methods)
    }

    /// Puts the methods of an attribute.
    fn put_attribute(&mut self, access: Access, name: Sym) -> Result<Vec<NodeId>, Storage>
        ensures { IfOk result (λ l. PutsList self.old self.new (attribute_methods access name) l.items) }
    {
        match access {
            Access::Read => self.put_method(Node::Reader(name)),
            Access::Write => self.put_method(Node::Writer(name)),
            Access::Both => self.put_methods(name),
        }
    }

    /// The methods of one attribute, which a symbol names.
    fn attribute<'w>(&mut self, access: Access, words: &'w [Word]) -> ParsedList<'w>
        ensures { GivesList self.old self.new result (attribute_of access (place self.old words.now)) }
    {
        match symbol(words) {
            Some((name, rest)) => Ok((self.put_attribute(access, name)?, rest)),
            None => Err(Refusal::Unexpected(words.len())),
        }
    }

    /// The methods of attributes with commas between them.
    #[tactic(auto, unfolding(crate::specs::Reading::Classes::attributes_of, crate::specs::Reading::Answers::chain))]
    pub fn attributes<'w>(&mut self, access: Access, words: &'w [Word]) -> ParsedList<'w>
        ensures { GivesList self.old self.new result (attributes_of access (place self.old words.now)) }
    {
        let (mut methods, mut rest) = self.attribute(access, words)?;
        while let Some(after) = behind(WordKind::Comma, rest) {
            let (more, after) = self.attribute(access, after)?;
            methods.extend_from_slice(&more)?;
            rest = after;
        }
        Ok((methods, rest))
    }
}
