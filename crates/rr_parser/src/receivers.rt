//! Reading commands with a receiver.

ghost use Rattle.std.specs.Prelude.{◌≡◌, ◌<◌, length};
ghost use Rattle.rr_tree.specs.Tree.{tree_at};
ghost use Rattle.rr_parser.specs.Reading.Calls.{commanded_on, ordered_of, order_on};
ghost use Rattle.rr_parser.specs.Reading.{readers};

use crate::look::order;
use crate::parser::{Parsed, ParsedList, Parser};
use crate::refusal::Refusal;
use crate::word::{Behind, Head, Reached, Word};
use rr_base::Sym;
use rr_tree::NodeId;

impl Parser {
    ghost use Rattle.rr_parser.specs.Meets.{Gives, GivesList, reaches, place};

    /// What stands behind an operand where commands may stand: it may be the receiver of one.
    #[cycle(parser)]
    #[tactic(auto, unfolding(crate::specs::Reading::Calls::order_on))]
    #[inline(always)]
    pub fn behind_order<'w>(
        &mut self,
        operand: Reached,
        inside: bool,
        depth: u32,
        words: &'w [Word],
    ) -> Parsed<'w, NodeId>
        requires { reaches.within (length self.old.nodes.items) operand }
        ensures { Gives self.old self.new result (order_on (readers inside depth) (reaches.tree self.old.nodes.items operand) (place self.old words.now)) }
    {
        match order(words) {
            Some((name, rest)) => self.ordered(operand.node, name, inside, depth, rest),
            None => self.reached(operand, true, inside, depth, words),
        }
    }

    /// What stands behind the operand that the arguments of a command begin with: it may be the receiver of another one.
    #[cycle(parser)]
    #[tactic(auto, unfolding(crate::specs::Reading::Calls::commanded_on))]
    #[inline(always)]
    pub fn commanded_on<'w>(
        &mut self,
        operand: Reached,
        inside: bool,
        depth: u32,
        words: &'w [Word],
    ) -> ParsedList<'w>
        requires { reaches.within (length self.old.nodes.items) operand }
        ensures { GivesList self.old self.new result (commanded_on (readers inside depth) (reaches.tree self.old.nodes.items operand) (place self.old words.now)) }
    {
        let Some((name, rest)) = order(words) else {
            return self.listed_on(operand, inside, depth, words);
        };
        let (command, rest) = self.inner_order(operand.node, name, inside, depth, rest)?;
        let mut items = Vec::new(self.alloc);
        items.push(command)?;
        Ok((items, rest))
    }

    /// A command that is the argument of a command, from behind its receiver and its name on.
    #[cycle(parser)]
    #[tactic(auto, unfolding(crate::specs::Reading::readers_inside, crate::specs::Reading::readers_outside))]
    fn inner_order<'w>(
        &mut self,
        receiver: NodeId,
        name: Sym,
        inside: bool,
        depth: u32,
        words: &'w [Word],
    ) -> Parsed<'w, NodeId>
        requires { receiver < length self.old.nodes.items }
        ensures { Gives self.old self.new result ((readers inside depth).ordered (tree_at self.old.nodes.items receiver) name (place self.old words.now)) }
    {
        if depth == 0 {
            return Err(Refusal::Nesting);
        }
        self.ordered(receiver, name, inside, depth - 1, words)
    }

    /// A command from behind its receiver and its name on, with the block that may stand behind it.
    #[cycle(parser)]
    #[tactic(auto, unfolding(crate::specs::Reading::Calls::ordered_of))]
    pub fn ordered<'w>(
        &mut self,
        receiver: NodeId,
        name: Sym,
        inside: bool,
        depth: u32,
        words: &'w [Word],
    ) -> Parsed<'w, NodeId>
        requires { receiver < length self.old.nodes.items }
        ensures { Gives self.old self.new result (ordered_of (readers inside depth) (tree_at self.old.nodes.items receiver) name (place self.old words.now)) }
    {
        let head = Head::Call(name);
        let (items, rest) = self.arguments(head, inside, depth, words)?;
        let command = self.put_send(receiver, name, &items)?;
        self.blocked(Behind::Command(head), command, inside, depth, rest)
    }
}
