//! Reading expressions and statements.

ghost use Rattle.std.specs.Prelude.{◌≡◌, ◌<◌, length};
ghost use Rattle.rr_tree.specs.Tree.{tree_at};
ghost use Rattle.rr_parser.specs.Reading.Sequences.{negation_of, connected_on, expression_of, expression_on, spotted_on, is_led, simple_of, statement_of, rows_of, statements_of, group_of};
ghost use Rattle.rr_parser.specs.Reading.{readers};

use crate::infixes::{connective, modifier};
use crate::look::{behind, ends, row, several, without_separators};
use crate::marks::{close, comma, not_word};
use crate::parser::{Parsed, ParsedList, Parser};
use crate::refusal::Refusal;
use crate::several::is_prefixed;
use crate::word::{Part, Reached, Word, WordKind};
use rr_tree::{Node, NodeId};

impl Parser {
    ghost use Rattle.rr_parser.specs.Meets.{Gives, GivesList, reaches, known_of, place};

    /// Statements, with the bracket behind them.
    #[cycle(parser)]
    #[tactic(auto, unfolding(crate::specs::Reading::Sequences::group_of))]
    pub fn group<'w>(&mut self, inside: bool, depth: u32, words: &'w [Word]) -> Parsed<'w, NodeId>
        ensures { Gives self.old self.new result (group_of (readers inside depth) (place self.old words.now)) }
    {
        let (group, rest) = self.statements(inside, depth, words)?;
        match close(rest) {
            Some(rest) => Ok((group, rest)),
            None => Err(Refusal::Unexpected(rest.len())),
        }
    }

    #[cycle(parser)]
    #[tactic(auto, unfolding(crate::specs::Reading::Sequences::statements_of))]
    pub fn statements<'w>(
        &mut self,
        inside: bool,
        depth: u32,
        words: &'w [Word],
    ) -> Parsed<'w, NodeId>
        ensures { Gives self.old self.new result (statements_of (readers inside depth) (place self.old words.now)) }
    {
        let words = without_separators(words);
        if ends(words) {
            return Ok((self.put_sequence(&[])?, words));
        }
        let (items, rest) = self.rows(inside, depth, words)?;
        Ok((self.put_sequence(&items)?, without_separators(rest)))
    }

    #[cycle(parser)]
    #[tactic(auto, unfolding(crate::specs::Reading::Sequences::rows_of, crate::specs::Reading::Answers::chain))]
    fn rows<'w>(&mut self, inside: bool, depth: u32, words: &'w [Word]) -> ParsedList<'w>
        ensures { GivesList self.old self.new result (rows_of (readers inside depth) (place self.old words.now)) }
    {
        let mut items = Vec::new(self.alloc);
        let (first, mut rest) = self.statement(inside, depth, words)?;
        items.push(first)?;
        while let Some(after) = row(rest) {
            let (next, after) = self.statement(inside, depth, after)?;
            items.push(next)?;
            rest = after;
        }
        Ok((items, rest))
    }

    #[cycle(parser)]
    #[tactic(auto, unfolding(crate::specs::Reading::Sequences::statement_of))]
    pub fn statement<'w>(
        &mut self,
        inside: bool,
        depth: u32,
        words: &'w [Word],
    ) -> Parsed<'w, NodeId>
        ensures { Gives self.old self.new result (statement_of (readers inside depth) (place self.old words.now)) }
    {
        let (mut statement, mut rest) = self.simple(inside, depth, words)?;
        while let Some((modifier, after)) = modifier(rest) {
            let (condition, after) = self.expression(inside, depth, after)?;
            statement = self.put_modified(modifier, statement, condition)?;
            rest = after;
        }
        Ok((statement, rest))
    }

    /// Whether no operand begins there: `not` comes, a command, a target and a sign, or a word before an operand.
    #[inline(always)]
    fn is_led(&self, words: &[Word]) -> bool
        ensures { result ≡ is_led (known_of self.now) words.now }
    {
        not_word(words).is_some() || self.command_head(words).is_some() || is_prefixed(words)
    }

    /// An assignment to several targets, or an expression.
    #[cycle(parser)]
    #[tactic(auto, unfolding(crate::specs::Reading::Sequences::simple_of))]
    #[inline(always)]
    fn simple<'w>(&mut self, inside: bool, depth: u32, words: &'w [Word]) -> Parsed<'w, NodeId>
        ensures { Gives self.old self.new result (simple_of (readers inside depth) (place self.old words.now)) }
    {
        if let Some(_) = several(words) {
            return self.several(inside, depth, words);
        }
        if let Some((head, rest)) = self.command_head(words) {
            let (command, rest) = self.headed(head, inside, depth, rest)?;
            return self.connected(command, inside, depth, rest);
        }
        if self.is_led(words) {
            return self.expression(inside, depth, words);
        }
        let (operand, rest) = self.postfix(inside, depth, words)?;
        self.spotted(operand, inside, depth, rest)
    }

    /// What stands behind the first operand of a statement. Where it is an element or an attribute, a comma makes it a
    /// target.
    #[cycle(parser)]
    #[tactic(auto, unfolding(crate::specs::Reading::Sequences::spotted_on))]
    #[inline(always)]
    fn spotted<'w>(
        &mut self,
        operand: Reached,
        inside: bool,
        depth: u32,
        words: &'w [Word],
    ) -> Parsed<'w, NodeId>
        requires { reaches.within (length self.old.nodes.items) operand }
        ensures { Gives self.old self.new result (spotted_on (readers inside depth) (reaches.tree self.old.nodes.items operand) (place self.old words.now)) }
    {
        match (operand.spot, comma(words)) {
            (Some(_), Some(rest)) => self.several_on(operand.node, inside, depth, rest),
            _ => self.expression_on(operand, inside, depth, words),
        }
    }

    /// An expression from behind its first operand.
    #[cycle(parser)]
    #[tactic(auto, unfolding(crate::specs::Reading::Sequences::expression_on))]
    #[inline(always)]
    fn expression_on<'w>(
        &mut self,
        operand: Reached,
        inside: bool,
        depth: u32,
        words: &'w [Word],
    ) -> Parsed<'w, NodeId>
        requires { reaches.within (length self.old.nodes.items) operand }
        ensures { Gives self.old self.new result (expression_on (readers inside depth) (reaches.tree self.old.nodes.items operand) (place self.old words.now)) }
    {
        let (left, rest) = self.behind_order(operand, inside, depth, words)?;
        self.connected(left, inside, depth, rest)
    }

    #[cycle(parser)]
    #[tactic(auto, unfolding(crate::specs::Reading::Sequences::expression_of))]
    #[inline(always)]
    pub fn expression<'w>(
        &mut self,
        inside: bool,
        depth: u32,
        words: &'w [Word],
    ) -> Parsed<'w, NodeId>
        ensures { Gives self.old self.new result (expression_of (readers inside depth) (place self.old words.now)) }
    {
        let (left, rest) = self.negation(inside, depth, words)?;
        self.connected(left, inside, depth, rest)
    }

    /// An expression from behind what has come of it.
    #[cycle(parser)]
    #[tactic(auto, unfolding(crate::specs::Reading::Sequences::connected_on))]
    #[inline(always)]
    fn connected<'w>(
        &mut self,
        first: NodeId,
        inside: bool,
        depth: u32,
        words: &'w [Word],
    ) -> Parsed<'w, NodeId>
        requires { first < length self.old.nodes.items }
        ensures { Gives self.old self.new result (connected_on (readers inside depth) (tree_at self.old.nodes.items first) (place self.old words.now)) }
    {
        let mut left = first;
        let mut rest = words;
        while let Some((connective, after)) = connective(3, rest) {
            let (right, after) = self.negation(inside, depth, after)?;
            left = self.put_joined(connective, left, right)?;
            rest = after;
        }
        Ok((left, rest))
    }

    #[cycle(parser)]
    #[tactic(auto, unfolding(crate::specs::Reading::Sequences::negation_of))]
    #[inline(always)]
    pub fn negation<'w>(
        &mut self,
        inside: bool,
        depth: u32,
        words: &'w [Word],
    ) -> Parsed<'w, NodeId>
        ensures { Gives self.old self.new result (negation_of (readers inside depth) (place self.old words.now)) }
    {
        let Some(rest) = not_word(words) else {
            return self.value(true, inside, depth, words);
        };
        let (operand, rest) = self.part(Part::Not, inside, depth, rest)?;
        Ok((self.put(Node::Not(operand))?, rest))
    }
}
