//! Reading classes.

ghost use Rattle.std.specs.Prelude.{◌≡◌, ◌<◌, length, map, All, IfOk};
ghost use Rattle.rr_tree.specs.Tree.{tree_at, class_body, listed};
ghost use Rattle.rr_parser.specs.Grammar.Classes.{own_name, class_head, class_word, member_row};
ghost use Rattle.rr_parser.specs.Reading.Classes.{class_member_of, methods_of, inner_of, class_body_of};
ghost use Rattle.rr_parser.specs.Reading.{readers};
ghost use Rattle.rr_parser.specs.Reading.Programs.{no_class};
ghost use Rattle.rr_parser.specs.Meets.{Sees, SeesRest, Fails};

use crate::attributes::access_word;
use crate::bodies::path;
use crate::look::{behind, row_of, separators, without_separators};
use crate::parser::{Parsed, ParsedList, Parser};
use crate::refusal::{Refusal, Storage};
use crate::word::{Infix, Naming, Opening, Part, Word, WordKind};
use rr_base::{ClassId, Sym};
use rr_tree::{BinaryOperator, Node, NodeId, Path};

/// The sign between a class and its superclass.
const BELOW: WordKind = WordKind::Operator(Infix::Binary(BinaryOperator::Less));

/// The name of a class of the program.
pub(crate) fn own_name(words: &[Word]) -> Option<(Sym, &[Word])>
    ensures { Sees result (own_name words.now) }
{
    match words {
        [
            Word {
                kind: WordKind::Constant(name, Naming::Opened),
                ..
            },
            rest @ ..,
        ] => Some((*name, rest)),
        _ => None,
    }
}

/// The head of a class: its name, and the path of its superclass, if one is given.
pub(crate) fn class_head(words: &[Word]) -> Option<((Sym, Option<Path>), &[Word])>
    ensures { Sees result (class_head words.now) }
{
    let (name, rest) = own_name(words)?;
    match behind(BELOW, rest) {
        Some(behind) => {
            let (path, behind) = path(behind)?;
            Some(((name, Some(path)), behind))
        }
        None => Some(((name, None), rest)),
    }
}

/// The word `class`, with what is told of the superclass.
pub(crate) fn class_word(words: &[Word]) -> Option<(Opening, &[Word])>
    ensures { Sees result (class_word words.now) }
{
    match words {
        [
            Word {
                kind: WordKind::Class(opening),
                ..
            },
            rest @ ..,
        ] => Some((*opening, rest)),
        _ => None,
    }
}

/// Why no name of a class of the program comes: that of a built-in class is left out.
fn unnamed(words: &[Word]) -> Refusal
    ensures { Fails result no_class }
{
    match words {
        [
            Word {
                kind: WordKind::Constant(_, _),
                ..
            },
            ..
        ] => Refusal::LeftOut(words.len()),
        _ => Refusal::Unexpected(words.len()),
    }
}

/// Why no class is opened, where these words stand behind the word `class`. It is told at the path of the superclass, or
/// where a word of the head is missing.
pub(crate) fn unopened(closed: bool, words: &[Word]) -> Refusal
    ensures { Fails result no_class }
{
    let Some((_, rest)) = own_name(words) else {
        return unnamed(words);
    };
    let Some(rest) = behind(BELOW, rest) else {
        return Refusal::Unexpected(rest.len());
    };
    if path(rest).is_none() {
        return Refusal::Unexpected(rest.len());
    }
    if closed {
        Refusal::LeftOut(rest.len())
    } else {
        Refusal::Constant(rest.len())
    }
}

/// Separators, unless the `end` of a class stands behind them.
fn member_row(words: &[Word]) -> Option<&[Word]>
    ensures { SeesRest result (member_row words.now) }
{
    match row_of(WordKind::End, words) {
        Some(_) => None,
        None => separators(words),
    }
}

impl Parser {
    ghost use Rattle.rr_parser.specs.Meets.{Gives, GivesList, Puts, place};

    /// Puts the definition of a class.
    fn put_class(
        &mut self,
        name: Sym,
        superclass: ClassId,
        methods: &[NodeId],
    ) -> Result<NodeId, Storage>
        requires { All (λ i. i < length self.old.nodes.items) methods.now }
        ensures { IfOk result (λ id. Puts self.old self.new (class_body name.0 superclass (listed (map (tree_at self.old.nodes.items) methods.now))) id) }
    {
        let (first, count) = self.put_items(methods)?;
        self.put(Node::ClassBody {
            name,
            superclass,
            first,
            count,
        })
    }

    /// A member of a class: the definition of a method, or attributes.
    #[cycle(parser)]
    #[tactic(auto, unfolding(crate::specs::Reading::Classes::class_member_of))]
    fn class_member<'w>(&mut self, inside: bool, depth: u32, words: &'w [Word]) -> ParsedList<'w>
        ensures { GivesList self.old self.new result (class_member_of (readers inside depth) (place self.old words.now)) }
    {
        if let Some((access, rest)) = access_word(words) {
            return self.attributes(access, rest);
        }
        let Some(rest) = behind(WordKind::Def, words) else {
            return Err(Refusal::Unexpected(words.len()));
        };
        let (method, rest) = self.part(Part::Definition, inside, depth, rest)?;
        let mut methods = Vec::new(self.alloc);
        methods.push(method)?;
        Ok((methods, rest))
    }

    /// The methods of members with separators between them.
    #[cycle(parser)]
    #[tactic(auto, unfolding(crate::specs::Reading::Classes::methods_of, crate::specs::Reading::Answers::chain))]
    fn methods<'w>(&mut self, inside: bool, depth: u32, words: &'w [Word]) -> ParsedList<'w>
        ensures { GivesList self.old self.new result (methods_of (readers inside depth) (place self.old words.now)) }
    {
        let (mut methods, mut rest) = self.class_member(inside, depth, words)?;
        while let Some(after) = member_row(rest) {
            let (more, after) = self.class_member(inside, depth, after)?;
            methods.extend_from_slice(&more)?;
            rest = after;
        }
        Ok((methods, rest))
    }

    /// The methods of the members of a class, if there are any.
    #[cycle(parser)]
    fn inner<'w>(&mut self, inside: bool, depth: u32, words: &'w [Word]) -> ParsedList<'w>
        ensures { GivesList self.old self.new result (inner_of (readers inside depth) (place self.old words.now)) }
    {
        match member_row(words) {
            Some(rest) => self.methods(inside, depth, rest),
            None => Ok((Vec::new(self.alloc), words)),
        }
    }

    /// What stands behind the head of a class, with its `end`.
    #[cycle(parser)]
    #[tactic(auto, unfolding(crate::specs::Reading::Classes::class_body_of))]
    pub fn class_body<'w>(
        &mut self,
        name: Sym,
        superclass: ClassId,
        inside: bool,
        depth: u32,
        words: &'w [Word],
    ) -> Parsed<'w, NodeId>
        ensures { Gives self.old self.new result (class_body_of (readers inside depth) name superclass (place self.old words.now)) }
    {
        let (methods, rest) = self.inner(inside, depth, words)?;
        let Some(rest) = row_of(WordKind::End, rest) else {
            return Err(Refusal::Unexpected(without_separators(rest).len()));
        };
        Ok((self.put_class(name, superclass, &methods)?, rest))
    }
}
