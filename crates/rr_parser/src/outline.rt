//! Reading the rows of a program: definitions and statements.

ghost use Rattle.std.specs.Prelude.{◌≡◌, [], false, OnOk};
ghost use Rattle.rr_parser.specs.Places.{at};
ghost use Rattle.rr_parser.specs.Grammar.Classes.{class_head};
ghost use Rattle.rr_parser.specs.Reading.Programs.{class_on, class_under, entry_of, entries_of, outline_of};
ghost use Rattle.rr_parser.specs.Reading.{readers};
ghost use Rattle.rr_parser.specs.Meets.{Adds};

use crate::class_bodies::{class_head, class_word, unopened};
use crate::look::{behind, ends, row, without_separators};
use crate::marks::def_word;
use crate::parser::{Parsed, Parser};
use crate::refusal::Storage;
use crate::word::{Opening, Part, Word, WordKind};
use rr_base::ClassId;
use rr_tree::NodeId;
use std::alloc::Global;

/// A row of a program, by its node.
#[derive(Clone, Copy, Drop)]
pub(crate) enum Entry {
    Definition(NodeId),
    Statement(NodeId),
}

/// The rows of a program, by their nodes.
#[derive(Drop)]
pub(crate) struct Outline {
    pub definitions: Vec<NodeId>,
    pub statements: Vec<NodeId>,
}

impl Outline {
    fn new(alloc: Global) -> Outline
        ensures definitions { result.definitions.items ≡ [] }
        ensures statements { result.statements.items ≡ [] }
    {
        Outline {
            definitions: Vec::new(alloc),
            statements: Vec::new(alloc),
        }
    }

    #[inline(always)]
    fn push(&mut self, entry: Entry) -> Result<(), Storage>
        ensures { OnOk result (Adds self.old self.new entry) }
    {
        match entry {
            Entry::Definition(id) => self.definitions.push(id)?,
            Entry::Statement(id) => self.statements.push(id)?,
        }
        Ok(())
    }
}

impl Parser {
    ghost use Rattle.rr_parser.specs.Meets.{GivesEntry, GivesOutline, place};

    /// The rows of a program.
    #[tactic(auto, unfolding(crate::specs::Reading::Programs::outline_of))]
    pub fn outline<'w>(&mut self, depth: u32, words: &'w [Word]) -> Parsed<'w, Outline>
        ensures { GivesOutline self.old self.new result (outline_of (readers false depth) (place self.old words.now)) }
    {
        let words = without_separators(words);
        if ends(words) {
            return Ok((Outline::new(self.alloc), words));
        }
        let (outline, rest) = self.entries(depth, words)?;
        Ok((outline, without_separators(rest)))
    }

    #[tactic(auto, unfolding(crate::specs::Reading::Programs::entries_of, crate::specs::Reading::Answers::chain))]
    fn entries<'w>(&mut self, depth: u32, words: &'w [Word]) -> Parsed<'w, Outline>
        ensures { GivesOutline self.old self.new result (entries_of (readers false depth) (place self.old words.now)) }
    {
        let mut outline = Outline::new(self.alloc);
        let (first, mut rest) = self.entry(depth, words)?;
        outline.push(first)?;
        while let Some(after) = row(rest) {
            let (next, after) = self.entry(depth, after)?;
            outline.push(next)?;
            rest = after;
        }
        Ok((outline, rest))
    }

    #[tactic(auto, unfolding(crate::specs::Reading::Programs::entry_of))]
    #[inline(always)]
    fn entry<'w>(&mut self, depth: u32, words: &'w [Word]) -> Parsed<'w, Entry>
        ensures { GivesEntry self.old self.new result (entry_of (readers false depth) (place self.old words.now)) }
    {
        if let Some(rest) = def_word(words) {
            let (definition, rest) = self.part(Part::Definition, false, depth, rest)?;
            return Ok((Entry::Definition(definition), rest));
        }
        if let Some((opening, rest)) = class_word(words) {
            return self.class_under(opening, depth, rest);
        }
        let (statement, rest) = self.statement(false, depth, words)?;
        Ok((Entry::Statement(statement), rest))
    }

    /// A class that stands below this one, behind the word `class`.
    fn class_on<'w>(
        &mut self,
        superclass: ClassId,
        depth: u32,
        words: &'w [Word],
    ) -> Parsed<'w, Entry>
        ensures { GivesEntry self.old self.new result (class_on (readers false depth) superclass (at class_head (place self.old words.now))) }
    {
        let Some(((name, _), rest)) = class_head(words) else {
            return Err(unopened(false, words));
        };
        let (class, rest) = self.part(Part::Class(name, superclass), false, depth, rest)?;
        Ok((Entry::Definition(class), rest))
    }

    /// A class of which this is told, behind the word `class`.
    fn class_under<'w>(
        &mut self,
        opening: Opening,
        depth: u32,
        words: &'w [Word],
    ) -> Parsed<'w, Entry>
        ensures { GivesEntry self.old self.new result (class_under (readers false depth) opening (place self.old words.now)) }
    {
        match opening {
            Opening::Below(superclass) => self.class_on(superclass, depth, words),
            Opening::Unknown => Err(unopened(false, words)),
            Opening::Closed => Err(unopened(true, words)),
        }
    }
}
