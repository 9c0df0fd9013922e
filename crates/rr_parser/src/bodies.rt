//! Reading statements with the clauses that rescue them, and with those that always follow.

ghost use Rattle.std.specs.Prelude.{◌≡◌, IfOk};
ghost use Rattle.rr_parser.specs.Grammar.Control.{thens};
ghost use Rattle.rr_parser.specs.Grammar.Bodies.{path_of_kind, path, before_thens, caught, loop_word};
ghost use Rattle.rr_parser.specs.Reading.Bodies.{class_of, several_classes, classes_of, clause_of, clauses_of, rescued_of, body_of, begun_of, held_of};
ghost use Rattle.rr_parser.specs.Reading.{readers};
ghost use Rattle.rr_parser.specs.Meets.{Reads, Sees};

use crate::blocks::variable;
use crate::constants::inner_constant;
use crate::look::{behind, thens, told_behind};
use crate::parser::{Parsed, ParsedList, Parser};
use crate::refusal::{Refusal, Storage};
use crate::word::{Caught, Fence, Word, WordKind};
use rr_tree::{Node, NodeId, Path};

/// The path of the constant that a word begins, and the words behind it.
fn path_of_kind(kind: WordKind, words: &[Word]) -> Option<(Path, &[Word])>
    ensures { Sees result (path_of_kind kind words.now) }
{
    let WordKind::Constant(name, outer) = kind else {
        return None;
    };
    match inner_constant(outer, words) {
        Some((inner, rest)) => Some((Path::Ractor(inner), rest)),
        None => Some((Path::Plain(name), words)),
    }
}

/// The path of a constant.
pub(crate) fn path(words: &[Word]) -> Option<(Path, &[Word])>
    ensures { Sees result (path words.now) }
{
    let (word, rest) = words.split_first()?;
    path_of_kind(word.kind, rest)
}

/// What stands before the statements of a clause.
fn before_thens<'w>(caught: Option<Caught>, words: &'w [Word]) -> Parsed<'w, Option<Caught>>
    ensures { Reads result (before_thens caught (thens words.now)) }
{
    match thens(words) {
        Some(rest) => Ok((caught, rest)),
        None => Err(Refusal::Unexpected(words.len())),
    }
}

/// The variable that gets the exception, if there is one, and what stands before the statements.
fn caught<'w>(words: &'w [Word]) -> Parsed<'w, Option<Caught>>
    ensures { Reads result (caught words.now) }
{
    let Some(rest) = behind(WordKind::Arrow, words) else {
        return before_thens(None, words);
    };
    match variable(rest) {
        Some((name, rest)) => {
            let behind = told_behind(rest);
            before_thens(Some(Caught { name, behind }), rest)
        }
        None => Err(Refusal::Unexpected(rest.len())),
    }
}

/// What begins a loop.
fn loop_word(words: &[Word]) -> Option<(bool, &[Word])>
    ensures { Sees result (loop_word words.now) }
{
    match words {
        [
            Word {
                kind: WordKind::Loop { until },
                ..
            },
            rest @ ..,
        ] => Some((*until, rest)),
        _ => None,
    }
}

impl Parser {
    ghost use Rattle.rr_parser.specs.Meets.{Gives, GivesList, Catches, place};

    /// A class, by its path.
    fn class<'w>(&mut self, words: &'w [Word]) -> Parsed<'w, NodeId>
        ensures { Gives self.old self.new result (class_of (place self.old words.now)) }
    {
        match path(words) {
            Some((path, rest)) => Ok((self.put(Node::Constant(path))?, rest)),
            None => Err(Refusal::Unexpected(words.len())),
        }
    }

    /// Classes with commas between them.
    #[tactic(auto, unfolding(crate::specs::Reading::Bodies::several_classes, crate::specs::Reading::Answers::chain))]
    fn class_list<'w>(&mut self, words: &'w [Word]) -> ParsedList<'w>
        ensures { GivesList self.old self.new result (several_classes (place self.old words.now)) }
    {
        let mut classes = Vec::new(self.alloc);
        let (first, mut rest) = self.class(words)?;
        classes.push(first)?;
        while let Some(after) = behind(WordKind::Comma, rest) {
            let (next, after) = self.class(after)?;
            classes.push(next)?;
            rest = after;
        }
        Ok((classes, rest))
    }

    /// The classes of a clause, if it has any.
    fn classes<'w>(&mut self, words: &'w [Word]) -> ParsedList<'w>
        ensures { GivesList self.old self.new result (classes_of (place self.old words.now)) }
    {
        match path(words) {
            Some(_) => self.class_list(words),
            None => Ok((Vec::new(self.alloc), words)),
        }
    }

    /// From here on the name is a local variable, if there is one.
    fn catch(&mut self, caught: Option<Caught>) -> Result<NodeId, Storage>
        ensures { IfOk result (Catches self.old self.new caught) }
    {
        match caught {
            Some(Caught { name, behind }) => {
                let variable = self.mark(name)?;
                self.put_local(name, variable, behind)
            }
            None => self.put(Node::Nil),
        }
    }

    /// A clause, behind the word `rescue`.
    #[cycle(parser)]
    #[tactic(auto, unfolding(crate::specs::Reading::Bodies::clause_of))]
    fn clause<'w>(&mut self, inside: bool, depth: u32, words: &'w [Word]) -> Parsed<'w, NodeId>
        ensures { Gives self.old self.new result (clause_of (readers inside depth) (place self.old words.now)) }
    {
        let (classes, rest) = self.classes(words)?;
        let (caught, rest) = caught(rest)?;
        let target = self.catch(caught)?;
        let (body, rest) = self.statements(inside, depth, rest)?;
        Ok((self.put_clause(&classes, target, body)?, rest))
    }

    #[cycle(parser)]
    #[tactic(auto, unfolding(crate::specs::Reading::Bodies::clauses_of, crate::specs::Reading::Answers::chain))]
    fn clauses<'w>(&mut self, inside: bool, depth: u32, words: &'w [Word]) -> ParsedList<'w>
        ensures { GivesList self.old self.new result (clauses_of (readers inside depth) (place self.old words.now)) }
    {
        let mut clauses = Vec::new(self.alloc);
        let (first, mut rest) = self.clause(inside, depth, words)?;
        clauses.push(first)?;
        while let Some(after) = behind(WordKind::Rescue, rest) {
            let (next, after) = self.clause(inside, depth, after)?;
            clauses.push(next)?;
            rest = after;
        }
        Ok((clauses, rest))
    }

    /// Statements, and the clauses that rescue them.
    #[cycle(parser)]
    #[tactic(auto, unfolding(crate::specs::Reading::Bodies::rescued_of))]
    fn rescued<'w>(&mut self, inside: bool, depth: u32, words: &'w [Word]) -> Parsed<'w, NodeId>
        ensures { Gives self.old self.new result (rescued_of (readers inside depth) (place self.old words.now)) }
    {
        let (body, rest) = self.statements(inside, depth, words)?;
        let Some(after) = behind(WordKind::Rescue, rest) else {
            return Ok((body, rest));
        };
        let (clauses, rest) = self.clauses(inside, depth, after)?;
        let (otherwise, rest) = self.otherwise(inside, depth, rest)?;
        Ok((self.put_rescue(body, &clauses, otherwise)?, rest))
    }

    /// Statements, the clauses that rescue them, and those that always follow.
    #[cycle(parser)]
    #[tactic(auto, unfolding(crate::specs::Reading::Bodies::body_of))]
    pub fn body<'w>(&mut self, inside: bool, depth: u32, words: &'w [Word]) -> Parsed<'w, NodeId>
        ensures { Gives self.old self.new result (body_of (readers inside depth) (place self.old words.now)) }
    {
        let (body, rest) = self.rescued(inside, depth, words)?;
        let Some(after) = behind(WordKind::Ensure, rest) else {
            return Ok((body, rest));
        };
        let (last, rest) = self.statements(inside, depth, after)?;
        Ok((self.put(Node::Ensure(body, last))?, rest))
    }

    /// What stands behind `begin`, with its `end`. A loop modifier does not stand directly behind that.
    #[cycle(parser)]
    #[tactic(auto, unfolding(crate::specs::Reading::Bodies::begun_of))]
    pub fn begun<'w>(&mut self, inside: bool, depth: u32, words: &'w [Word]) -> Parsed<'w, NodeId>
        ensures { Gives self.old self.new result (begun_of (readers inside depth) (place self.old words.now)) }
    {
        let (body, rest) = self.body(inside, depth, words)?;
        let Some(rest) = behind(WordKind::End, rest) else {
            return Err(Refusal::Unexpected(rest.len()));
        };
        match loop_word(rest) {
            Some(_) => Err(Refusal::LeftOut(rest.len())),
            None => Ok((body, rest)),
        }
    }

    /// What a block holds: between braces nothing is rescued.
    #[cycle(parser)]
    pub fn held<'w>(
        &mut self,
        fence: Fence,
        inside: bool,
        depth: u32,
        words: &'w [Word],
    ) -> Parsed<'w, NodeId>
        ensures { Gives self.old self.new result (held_of (readers inside depth) fence (place self.old words.now)) }
    {
        match fence {
            Fence::Brace => self.statements(inside, depth, words),
            Fence::Do => self.body(inside, depth, words),
        }
    }
}
