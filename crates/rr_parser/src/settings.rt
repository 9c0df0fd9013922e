//! Reading assignments to elements and attributes.

ghost use Rattle.std.specs.Prelude.{◌≡◌, ◌<◌, length, IfOk};
ghost use Rattle.rr_tree.specs.Tree.{tree_at};
ghost use Rattle.rr_parser.specs.Grammar.Calls.{set_spot, settled};
ghost use Rattle.rr_parser.specs.Reading.Calls.{setting_of, reached_on, settled_by, operand_on};
ghost use Rattle.rr_parser.specs.Reading.{readers};

use crate::look::{behind, prefix_minus, sign};
use crate::marks::bang;
use crate::parser::{Parsed, Parser};
use crate::refusal::Storage;
use crate::word::{Reached, Sign, Spot, Word, WordKind};
use rr_tree::{Node, NodeId};

impl Parser {
    ghost use Rattle.rr_parser.specs.Meets.{Gives, Puts, reaches, spot_tree, spot_within, place};

    /// Puts an assignment to an element or an attribute.
    fn put_spot(&mut self, spot: Spot, value: NodeId) -> Result<NodeId, Storage>
        requires spot { spot_within (length self.old.nodes.items) spot }
        requires value { value < length self.old.nodes.items }
        ensures { IfOk result (λ id. Puts self.old self.new (set_spot (spot_tree self.old.nodes.items spot) (tree_at self.old.nodes.items value)) id) }
    {
        match spot {
            Spot::Element { receiver, index } => self.put(Node::SetIndex {
                receiver,
                index,
                value,
            }),
            Spot::Attribute { receiver, name } => {
                let site = self.site()?;
                self.put(Node::SetAttribute {
                    receiver,
                    name,
                    value,
                    site,
                })
            }
        }
    }

    /// Puts an assignment to what was read, or one with an operator.
    fn put_setting(
        &mut self,
        sign: Sign,
        spot: Spot,
        target: NodeId,
        value: NodeId,
    ) -> Result<NodeId, Storage>
        requires spot { spot_within (length self.old.nodes.items) spot }
        requires target { target < length self.old.nodes.items }
        requires value { value < length self.old.nodes.items }
        ensures { IfOk result (λ id. Puts self.old self.new (settled sign (spot_tree self.old.nodes.items spot) (tree_at self.old.nodes.items target) (tree_at self.old.nodes.items value)) id) }
    {
        match sign {
            Sign::Plain => self.put_spot(spot, value),
            Sign::With(operation) => self.put_operation(operation, target, value),
        }
    }

    /// An operand, or an assignment to it; and a command with a receiver too where commands may stand.
    #[cycle(parser)]
    #[tactic(auto, unfolding(crate::specs::Reading::Calls::settled_by))]
    #[inline(always)]
    pub fn settled<'w>(
        &mut self,
        commands: bool,
        inside: bool,
        depth: u32,
        words: &'w [Word],
    ) -> Parsed<'w, NodeId>
        ensures { Gives self.old self.new result (settled_by (readers inside depth) (operand_on (readers inside depth) commands) (place self.old words.now)) }
    {
        if prefix_minus(words).is_some() {
            return self.ternary(inside, depth, words);
        }
        if bang(words).is_some() {
            return self.ternary(inside, depth, words);
        }
        let (operand, rest) = self.postfix(inside, depth, words)?;
        self.behind_operand(operand, commands, inside, depth, rest)
    }

    /// What stands behind an operand.
    #[cycle(parser)]
    #[inline(always)]
    fn behind_operand<'w>(
        &mut self,
        operand: Reached,
        commands: bool,
        inside: bool,
        depth: u32,
        words: &'w [Word],
    ) -> Parsed<'w, NodeId>
        requires { reaches.within (length self.old.nodes.items) operand }
        ensures { Gives self.old self.new result (operand_on (readers inside depth) commands (reaches.tree self.old.nodes.items operand) (place self.old words.now)) }
    {
        if commands {
            self.behind_order(operand, inside, depth, words)
        } else {
            self.reached(operand, false, inside, depth, words)
        }
    }

    /// What stands behind an operand that is no receiver of a command.
    #[cycle(parser)]
    #[inline(always)]
    pub fn reached<'w>(
        &mut self,
        operand: Reached,
        commands: bool,
        inside: bool,
        depth: u32,
        words: &'w [Word],
    ) -> Parsed<'w, NodeId>
        requires { reaches.within (length self.old.nodes.items) operand }
        ensures { Gives self.old self.new result (reached_on (readers inside depth) commands (reaches.tree self.old.nodes.items operand) (place self.old words.now)) }
    {
        match operand.spot {
            Some(spot) => self.setting(spot, operand.node, commands, inside, depth, words),
            None => self.ternary_on(operand.node, inside, depth, words),
        }
    }

    /// What stands behind what can be assigned to.
    #[cycle(parser)]
    #[tactic(auto, unfolding(crate::specs::Reading::Calls::setting_of))]
    fn setting<'w>(
        &mut self,
        spot: Spot,
        target: NodeId,
        commands: bool,
        inside: bool,
        depth: u32,
        words: &'w [Word],
    ) -> Parsed<'w, NodeId>
        requires spot { spot_within (length self.old.nodes.items) spot }
        requires target { target < length self.old.nodes.items }
        ensures { Gives self.old self.new result (setting_of (readers inside depth) commands (tree_at self.old.nodes.items target) (spot_tree self.old.nodes.items spot) (place self.old words.now)) }
    {
        let Some((sign, rest)) = sign(words) else {
            return self.ternary_on(target, inside, depth, words);
        };
        let (value, rest) = self.right_side(commands, inside, depth, rest)?;
        Ok((self.put_setting(sign, spot, target, value)?, rest))
    }
}
