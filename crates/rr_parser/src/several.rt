//! Reading assignments to several targets.

ghost use Rattle.std.specs.Prelude.{◌≡◌, ◌<◌, [], ◌∷◌, length, map, All, IfOk};
ghost use Rattle.rr_tree.specs.Tree.{tree_at};
ghost use Rattle.rr_parser.specs.Grammar.Several.{assigned_to_several};
ghost use Rattle.rr_parser.specs.Reading.Answers.{from};
ghost use Rattle.rr_parser.specs.Reading.Operands.{postfix_of};
ghost use Rattle.rr_parser.specs.Reading.Several.{word_target, reached_target, targeted_of, targets_of, several_on, several_of, values_on, right_on, receiver_on, rights_of};
ghost use Rattle.rr_parser.specs.Reading.Calls.{is_prefixed};
ghost use Rattle.rr_parser.specs.Reading.{readers};

use crate::look::{behind, lone_target, order, prefix_minus, target, told_behind};
use crate::marks::{bang, comma};
use crate::parser::{Parsed, ParsedList, Parser};
use crate::refusal::{Refusal, Storage};
use crate::word::{Reached, Sign, Target, Word, WordKind};
use rr_tree::{Node, NodeId};

/// Whether a target and a sign come, or a word that stands before an operand.
#[inline(always)]
pub(crate) fn is_prefixed(words: &[Word]) -> bool
    ensures { result ≡ is_prefixed words.now }
{
    target(words).is_some() || prefix_minus(words).is_some() || bang(words).is_some()
}

impl Parser {
    ghost use Rattle.rr_parser.specs.Meets.{Gives, GivesList, Puts, reaches, place};

    /// A word as a target, which is known from there on. These words stand behind it.
    #[tactic(auto, unfolding(crate::specs::Reading::Several::word_target))]
    fn targeted_word<'w>(&mut self, target: Target, words: &'w [Word]) -> Parsed<'w, NodeId>
        ensures { Gives self.old self.new result (word_target target (place self.old words.now)) }
    {
        if !self.settable(target) {
            return Err(Refusal::Constant(words.len().saturating_add(1)));
        }
        let behind = told_behind(words);
        let variable = self.aim(target)?;
        Ok((self.put_target(target, variable, behind)?, words))
    }

    /// An operand that is an element or an attribute.
    #[cycle(parser)]
    fn targeted_spot<'w>(
        &mut self,
        inside: bool,
        depth: u32,
        words: &'w [Word],
    ) -> Parsed<'w, NodeId>
        ensures { Gives self.old self.new result (from (postfix_of (readers inside depth)) reached_target (place self.old words.now)) }
    {
        let (operand, rest) = self.postfix(inside, depth, words)?;
        match operand.spot {
            Some(_) => Ok((operand.node, rest)),
            None => Err(Refusal::Unexpected(rest.len())),
        }
    }

    /// A target of several.
    #[cycle(parser)]
    #[tactic(auto, unfolding(crate::specs::Reading::Several::targeted_of))]
    fn targeted<'w>(&mut self, inside: bool, depth: u32, words: &'w [Word]) -> Parsed<'w, NodeId>
        ensures { Gives self.old self.new result (targeted_of (readers inside depth) (place self.old words.now)) }
    {
        match lone_target(words) {
            Some((target, rest)) => self.targeted_word(target, rest),
            None => self.targeted_spot(inside, depth, words),
        }
    }

    /// Targets with commas between them.
    #[cycle(parser)]
    #[tactic(auto, unfolding(crate::specs::Reading::Several::targets_of, crate::specs::Reading::Answers::chain))]
    fn targets<'w>(&mut self, inside: bool, depth: u32, words: &'w [Word]) -> ParsedList<'w>
        ensures { GivesList self.old self.new result (targets_of (readers inside depth) (place self.old words.now)) }
    {
        let mut targets = Vec::new(self.alloc);
        let (first, mut rest) = self.targeted(inside, depth, words)?;
        targets.push(first)?;
        while let Some(after) = comma(rest) {
            let (next, after) = self.targeted(inside, depth, after)?;
            targets.push(next)?;
            rest = after;
        }
        Ok((targets, rest))
    }

    /// Puts an assignment to several targets.
    fn put_several(
        &mut self,
        first: NodeId,
        targets: &[NodeId],
        value: NodeId,
    ) -> Result<NodeId, Storage>
        requires first { first < length self.old.nodes.items }
        requires targets { All (λ i. i < length self.old.nodes.items) targets.now }
        requires value { value < length self.old.nodes.items }
        ensures { IfOk result (λ id. Puts self.old self.new (assigned_to_several (tree_at self.old.nodes.items first ∷ map (tree_at self.old.nodes.items) targets.now) (tree_at self.old.nodes.items value)) id) }
    {
        let mut all = Vec::new(self.alloc);
        all.push(first)?;
        all.extend_from_slice(targets)?;
        let (first, count) = self.put_items(&all)?;
        self.put(Node::MultipleAssign {
            first,
            count,
            value,
        })
    }

    /// What stands behind the first target and its comma: more targets, the sign, and their right side.
    #[cycle(parser)]
    #[tactic(auto, unfolding(crate::specs::Reading::Several::several_on))]
    pub fn several_on<'w>(
        &mut self,
        first: NodeId,
        inside: bool,
        depth: u32,
        words: &'w [Word],
    ) -> Parsed<'w, NodeId>
        requires { first < length self.old.nodes.items }
        ensures { Gives self.old self.new result (several_on (readers inside depth) (tree_at self.old.nodes.items first) (place self.old words.now)) }
    {
        let (targets, rest) = self.targets(inside, depth, words)?;
        let Some(rest) = behind(WordKind::Assign(Sign::Plain), rest) else {
            return Err(Refusal::Unexpected(rest.len()));
        };
        let (value, rest) = self.right_sides(inside, depth, rest)?;
        Ok((self.put_several(first, &targets, value)?, rest))
    }

    /// Several targets, the first of which is a word.
    #[cycle(parser)]
    #[tactic(auto, unfolding(crate::specs::Reading::Several::several_of))]
    pub fn several<'w>(&mut self, inside: bool, depth: u32, words: &'w [Word]) -> Parsed<'w, NodeId>
        ensures { Gives self.old self.new result (several_of (readers inside depth) (place self.old words.now)) }
    {
        let (first, rest) = self.targeted(inside, depth, words)?;
        match comma(rest) {
            Some(rest) => self.several_on(first, inside, depth, rest),
            None => Err(Refusal::Unexpected(rest.len())),
        }
    }

    /// Arguments with commas between them, as one value, or a command.
    #[cycle(parser)]
    #[tactic(auto, unfolding(crate::specs::Reading::Several::rights_of))]
    pub fn rights<'w>(&mut self, inside: bool, depth: u32, words: &'w [Word]) -> Parsed<'w, NodeId>
        ensures { Gives self.old self.new result (rights_of (readers inside depth) (place self.old words.now)) }
    {
        if let Some((head, rest)) = self.command_head(words) {
            return self.headed(head, inside, depth, rest);
        }
        if is_prefixed(words) {
            let (first, rest) = self.value(false, inside, depth, words)?;
            return self.right(first, inside, depth, rest);
        }
        let (operand, rest) = self.postfix(inside, depth, words)?;
        self.behind_receiver(operand, inside, depth, rest)
    }

    /// What stands behind an operand: it may be the receiver of a command.
    #[cycle(parser)]
    #[tactic(auto, unfolding(crate::specs::Reading::Several::receiver_on))]
    fn behind_receiver<'w>(
        &mut self,
        operand: Reached,
        inside: bool,
        depth: u32,
        words: &'w [Word],
    ) -> Parsed<'w, NodeId>
        requires { reaches.within (length self.old.nodes.items) operand }
        ensures { Gives self.old self.new result (receiver_on (readers inside depth) (reaches.tree self.old.nodes.items operand) (place self.old words.now)) }
    {
        if let Some((name, rest)) = order(words) {
            return self.ordered(operand.node, name, inside, depth, rest);
        }
        let (first, rest) = self.reached(operand, false, inside, depth, words)?;
        self.right(first, inside, depth, rest)
    }

    /// What stands behind the first argument, with it, as one value.
    #[cycle(parser)]
    #[tactic(auto, unfolding(crate::specs::Reading::Several::right_on))]
    fn right<'w>(
        &mut self,
        first: NodeId,
        inside: bool,
        depth: u32,
        words: &'w [Word],
    ) -> Parsed<'w, NodeId>
        requires { first < length self.old.nodes.items }
        ensures { Gives self.old self.new result (right_on (readers inside depth) (tree_at self.old.nodes.items first) (place self.old words.now)) }
    {
        let (items, rest) = self.arguments_from(first, inside, depth, words)?;
        Ok((self.put_value(&items)?, rest))
    }

    /// Arguments with commas between them, of which the first has come.
    #[cycle(parser)]
    #[tactic(auto, unfolding(crate::specs::Reading::Several::values_on))]
    fn arguments_from<'w>(
        &mut self,
        first: NodeId,
        inside: bool,
        depth: u32,
        words: &'w [Word],
    ) -> ParsedList<'w>
        requires { first < length self.old.nodes.items }
        ensures { GivesList self.old self.new result (values_on (readers inside depth) (tree_at self.old.nodes.items first ∷ []) (place self.old words.now)) }
    {
        let mut items = Vec::new(self.alloc);
        items.push(first)?;
        let mut rest = words;
        while let Some(after) = comma(rest) {
            let (next, after) = self.value(false, inside, depth, after)?;
            items.push(next)?;
            rest = after;
        }
        Ok((items, rest))
    }
}
