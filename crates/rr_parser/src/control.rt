//! Reading choices and loops.

ghost use Rattle.std.specs.Prelude.{◌≡◌, false};
ghost use Rattle.rr_parser.specs.Reading.Answers.{taking_of};
ghost use Rattle.rr_parser.specs.Reading.Sequences.{expression_of};
ghost use Rattle.rr_parser.specs.Reading.Control.{branch_of, branches_of, otherwise_of, choice_of, unless_of, loop_of, looped_of};
ghost use Rattle.rr_parser.specs.Reading.{readers};

use crate::look::{behind, loops, thens};
use crate::parser::{Parsed, Parser};
use crate::refusal::Refusal;
use crate::word::{Word, WordKind};
use rr_tree::{Node, NodeId};

impl Parser {
    ghost use Rattle.rr_parser.specs.Meets.{Gives, GivesPair, GivesPairs, place};

    #[cycle(parser)]
    #[tactic(auto, unfolding(crate::specs::Reading::Control::choice_of))]
    pub fn choice<'w>(&mut self, inside: bool, depth: u32, words: &'w [Word]) -> Parsed<'w, NodeId>
        ensures { Gives self.old self.new result (choice_of (readers inside depth) (place self.old words.now)) }
    {
        let (branches, rest) = self.branches(inside, depth, words)?;
        let (otherwise, rest) = self.otherwise(inside, depth, rest)?;
        match behind(WordKind::End, rest) {
            Some(rest) => Ok((self.put_choices(branches, otherwise)?, rest)),
            None => Err(Refusal::Unexpected(rest.len())),
        }
    }

    #[cycle(parser)]
    #[tactic(auto, unfolding(crate::specs::Reading::Control::unless_of))]
    pub fn unless<'w>(&mut self, inside: bool, depth: u32, words: &'w [Word]) -> Parsed<'w, NodeId>
        ensures { Gives self.old self.new result (unless_of (readers inside depth) (place self.old words.now)) }
    {
        let ((condition, then), rest) = self.branch(inside, depth, words)?;
        let (otherwise, rest) = self.otherwise(inside, depth, rest)?;
        match behind(WordKind::End, rest) {
            Some(rest) => Ok((self.put(Node::Choose(condition, otherwise, then))?, rest)),
            None => Err(Refusal::Unexpected(rest.len())),
        }
    }

    /// A loop, in which jumps may stand.
    #[cycle(parser)]
    pub fn looped<'w>(
        &mut self,
        until: bool,
        inside: bool,
        depth: u32,
        words: &'w [Word],
    ) -> Parsed<'w, NodeId>
        ensures { Gives self.old self.new result (looped_of (readers inside depth) until (place self.old words.now)) }
    {
        let outside = self.known.in_loop;
        self.set_loop(true);
        let (node, rest) = self.repeat(until, inside, depth, words)?;
        self.set_loop(outside);
        Ok((node, rest))
    }

    /// The condition of a loop: the word `do` behind it is the loop's.
    #[cycle(parser)]
    fn condition<'w>(&mut self, inside: bool, depth: u32, words: &'w [Word]) -> Parsed<'w, NodeId>
        ensures { Gives self.old self.new result (taking_of false (expression_of (readers inside depth)) (place self.old words.now)) }
    {
        let outside = self.known.takes_do;
        self.set_do(false);
        let (condition, rest) = self.expression(inside, depth, words)?;
        self.set_do(outside);
        Ok((condition, rest))
    }

    #[cycle(parser)]
    #[tactic(auto, unfolding(crate::specs::Reading::Control::loop_of))]
    fn repeat<'w>(
        &mut self,
        until: bool,
        inside: bool,
        depth: u32,
        words: &'w [Word],
    ) -> Parsed<'w, NodeId>
        ensures { Gives self.old self.new result (loop_of (readers inside depth) until (place self.old words.now)) }
    {
        let (condition, rest) = self.condition(inside, depth, words)?;
        let Some(after) = loops(rest) else {
            return Err(Refusal::Unexpected(rest.len()));
        };
        let (body, rest) = self.statements(inside, depth, after)?;
        let Some(rest) = behind(WordKind::End, rest) else {
            return Err(Refusal::Unexpected(rest.len()));
        };
        let node = Node::Loop {
            until,
            condition,
            body,
        };
        Ok((self.put(node)?, rest))
    }

    #[cycle(parser)]
    #[tactic(auto, unfolding(crate::specs::Reading::Control::otherwise_of))]
    pub fn otherwise<'w>(
        &mut self,
        inside: bool,
        depth: u32,
        words: &'w [Word],
    ) -> Parsed<'w, NodeId>
        ensures { Gives self.old self.new result (otherwise_of (readers inside depth) (place self.old words.now)) }
    {
        match behind(WordKind::Else, words) {
            Some(rest) => self.statements(inside, depth, rest),
            None => Ok((self.put(Node::Nil)?, words)),
        }
    }

    #[cycle(parser)]
    #[tactic(auto, unfolding(crate::specs::Reading::Control::branches_of, crate::specs::Reading::Answers::chain))]
    fn branches<'w>(
        &mut self,
        inside: bool,
        depth: u32,
        words: &'w [Word],
    ) -> Parsed<'w, Vec<(NodeId, NodeId)>>
        ensures { GivesPairs self.old self.new result (branches_of (readers inside depth) (place self.old words.now)) }
    {
        let mut branches = Vec::new(self.alloc);
        let (first, mut rest) = self.branch(inside, depth, words)?;
        branches.push(first)?;
        while let Some(after) = behind(WordKind::Elsif, rest) {
            let (next, after) = self.branch(inside, depth, after)?;
            branches.push(next)?;
            rest = after;
        }
        Ok((branches, rest))
    }

    #[cycle(parser)]
    #[tactic(auto, unfolding(crate::specs::Reading::Control::branch_of))]
    fn branch<'w>(
        &mut self,
        inside: bool,
        depth: u32,
        words: &'w [Word],
    ) -> Parsed<'w, (NodeId, NodeId)>
        ensures { GivesPair self.old self.new result (branch_of (readers inside depth) (place self.old words.now)) }
    {
        let (condition, rest) = self.expression(inside, depth, words)?;
        let Some(after) = thens(rest) else {
            return Err(Refusal::Unexpected(rest.len()));
        };
        let (then, rest) = self.statements(inside, depth, after)?;
        Ok(((condition, then), rest))
    }
}
