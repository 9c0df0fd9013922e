//! Reading operators between two operands, from the first operand on.

ghost use Rattle.std.specs.Prelude.{◌≡◌, ◌-◌, ◌<◌, ◌≤◌, length};
ghost use Rattle.rr_tree.specs.Tree.{tree_at, choose};
ghost use Rattle.rr_parser.specs.declared.word.Part.TheVariants.{Branch};
ghost use Rattle.rr_parser.specs.declared.word.WordKind.TheVariants.{Colon};
ghost use Rattle.rr_parser.specs.Places.{word};
ghost use Rattle.rr_parser.specs.Grammar.Operators.{operator, infixed, connective, joined_by};
ghost use Rattle.rr_parser.specs.Reading.Answers.{across, chain_on};
ghost use Rattle.rr_parser.specs.Reading.Operators.{binary_on, binary_of, equality_on, logical_on, logical_of, ternary_on, ternary_of};
ghost use Rattle.rr_parser.specs.Reading.{readers};

use crate::infixes::{binds, connective, goes_on, operator};
use crate::look::behind;
use crate::parser::{Parsed, Parser};
use crate::refusal::Refusal;
use crate::word::{Part, Word, WordKind};
use rr_tree::{Node, NodeId};

impl Parser {
    ghost use Rattle.rr_parser.specs.Meets.{Gives, place};

    #[cycle(parser)]
    #[inline(always)]
    pub fn ternary<'w>(&mut self, inside: bool, depth: u32, words: &'w [Word]) -> Parsed<'w, NodeId>
        ensures { Gives self.old self.new result (ternary_of (readers inside depth) (place self.old words.now)) }
    {
        let (left, rest) = self.minus(inside, depth, words)?;
        self.ternary_on(left, inside, depth, rest)
    }

    #[cycle(parser)]
    #[tactic(auto, unfolding(crate::specs::Reading::Operators::ternary_on))]
    #[inline(always)]
    pub fn ternary_on<'w>(
        &mut self,
        left: NodeId,
        inside: bool,
        depth: u32,
        words: &'w [Word],
    ) -> Parsed<'w, NodeId>
        requires { left < length self.old.nodes.items }
        ensures { Gives self.old self.new result (ternary_on (readers inside depth) (tree_at self.old.nodes.items left) (place self.old words.now)) }
    {
        if !goes_on(words) {
            return Ok((left, words));
        }
        let (condition, rest) = self.logical_on(2, left, inside, depth, words)?;
        match behind(WordKind::Question, rest) {
            Some(after) => self.alternatives(condition, inside, depth, after),
            None => Ok((condition, rest)),
        }
    }

    /// The two operands between which is chosen.
    #[cycle(parser)]
    #[inline(never)]
    fn alternatives<'w>(
        &mut self,
        condition: NodeId,
        inside: bool,
        depth: u32,
        words: &'w [Word],
    ) -> Parsed<'w, NodeId>
        requires { condition < length self.old.nodes.items }
        ensures { Gives self.old self.new result (across (choose (tree_at self.old.nodes.items condition)) (word Colon) ((readers inside depth).part Branch) ((readers inside depth).part Branch (place self.old words.now))) }
    {
        let (then, rest) = self.part(Part::Branch, inside, depth, words)?;
        let Some(after) = behind(WordKind::Colon, rest) else {
            return Err(Refusal::Unexpected(rest.len()));
        };
        let (otherwise, rest) = self.part(Part::Branch, inside, depth, after)?;
        Ok((self.put(Node::Choose(condition, then, otherwise))?, rest))
    }

    #[cycle(parser)]
    #[inline(always)]
    fn logical<'w>(
        &mut self,
        level: u8,
        inside: bool,
        depth: u32,
        words: &'w [Word],
    ) -> Parsed<'w, NodeId>
        requires { level ≤ 2 }
        ensures { Gives self.old self.new result (logical_of (readers inside depth) level (place self.old words.now)) }
    {
        let (left, rest) = self.minus(inside, depth, words)?;
        self.logical_on(level, left, inside, depth, rest)
    }

    #[cycle(parser)]
    #[inline(always)]
    fn logical_on<'w>(
        &mut self,
        level: u8,
        left: NodeId,
        inside: bool,
        depth: u32,
        words: &'w [Word],
    ) -> Parsed<'w, NodeId>
        requires level { level ≤ 2 }
        requires left { left < length self.old.nodes.items }
        ensures { Gives self.old self.new result (logical_on (readers inside depth) level (tree_at self.old.nodes.items left) (place self.old words.now)) }
    {
        let (mut left, mut rest) = self.equality_on(left, inside, depth, words)?;
        let mut under = 0;
        while under < level {
            under += 1;
            let (made, after) = self.joined_on(under, left, inside, depth, rest)?;
            left = made;
            rest = after;
        }
        Ok((left, rest))
    }

    /// What conditions joined at one level make of what stands before them.
    #[cycle(parser)]
    #[inline(always)]
    fn joined_on<'w>(
        &mut self,
        level: u8,
        first: NodeId,
        inside: bool,
        depth: u32,
        words: &'w [Word],
    ) -> Parsed<'w, NodeId>
        requires above { 0 < level }
        requires level { level ≤ 2 }
        requires first { first < length self.old.nodes.items }
        ensures { Gives self.old self.new result (chain_on (connective level) joined_by (logical_of (readers inside depth) (level - 1)) (tree_at self.old.nodes.items first) (place self.old words.now)) }
    {
        let mut left = first;
        let mut rest = words;
        while let Some((connective, after)) = connective(level, rest) {
            let (right, after) = self.logical(level - 1, inside, depth, after)?;
            left = self.put_joined(connective, left, right)?;
            rest = after;
        }
        Ok((left, rest))
    }

    #[cycle(parser)]
    #[tactic(auto, unfolding(crate::specs::Reading::Operators::equality_on))]
    #[inline(always)]
    fn equality_on<'w>(
        &mut self,
        left: NodeId,
        inside: bool,
        depth: u32,
        words: &'w [Word],
    ) -> Parsed<'w, NodeId>
        requires { left < length self.old.nodes.items }
        ensures { Gives self.old self.new result (equality_on (readers inside depth) (tree_at self.old.nodes.items left) (place self.old words.now)) }
    {
        let (left, rest) = self.binary_on(4, left, inside, depth, words)?;
        let Some((operator, after)) = operator(5, rest) else {
            return Ok((left, rest));
        };
        let (right, rest) = self.binary(4, inside, depth, after)?;
        Ok((self.put_infix(operator, left, right)?, rest))
    }

    #[cycle(parser)]
    #[inline(always)]
    fn binary<'w>(
        &mut self,
        level: u8,
        inside: bool,
        depth: u32,
        words: &'w [Word],
    ) -> Parsed<'w, NodeId>
        requires { level ≤ 4 }
        ensures { Gives self.old self.new result (binary_of (readers inside depth) level (place self.old words.now)) }
    {
        let (left, rest) = self.minus(inside, depth, words)?;
        // Mostly no operator as tight comes.
        if !binds(level, rest) {
            return Ok((left, rest));
        }
        self.binary_on(level, left, inside, depth, rest)
    }

    #[cycle(parser)]
    fn binary_on<'w>(
        &mut self,
        level: u8,
        first: NodeId,
        inside: bool,
        depth: u32,
        words: &'w [Word],
    ) -> Parsed<'w, NodeId>
        requires level { level ≤ 4 }
        requires first { first < length self.old.nodes.items }
        ensures { Gives self.old self.new result (binary_on (readers inside depth) level (tree_at self.old.nodes.items first) (place self.old words.now)) }
    {
        let mut left = first;
        let mut rest = words;
        let mut under = 0;
        while under < level {
            // Where no operator as tight comes any more, the levels that are left make nothing.
            if !binds(level, rest) {
                return Ok((left, rest));
            }
            under += 1;
            let (made, after) = self.infixed_on(under, left, inside, depth, rest)?;
            left = made;
            rest = after;
        }
        Ok((left, rest))
    }

    /// What the operators of one level make of what stands before them.
    #[cycle(parser)]
    #[inline(always)]
    fn infixed_on<'w>(
        &mut self,
        level: u8,
        first: NodeId,
        inside: bool,
        depth: u32,
        words: &'w [Word],
    ) -> Parsed<'w, NodeId>
        requires above { 0 < level }
        requires level { level ≤ 4 }
        requires first { first < length self.old.nodes.items }
        ensures { Gives self.old self.new result (chain_on (operator level) infixed (binary_of (readers inside depth) (level - 1)) (tree_at self.old.nodes.items first) (place self.old words.now)) }
    {
        let mut left = first;
        let mut rest = words;
        while let Some((operator, after)) = operator(level, rest) {
            let (right, after) = self.binary(level - 1, inside, depth, after)?;
            left = self.put_infix(operator, left, right)?;
            rest = after;
        }
        Ok((left, rest))
    }
}
