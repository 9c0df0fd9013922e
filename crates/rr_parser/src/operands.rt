//! Reading operands.

ghost use Rattle.std.specs.Prelude.{◌≡◌, ◌<◌, length};
ghost use Rattle.rr_tree.specs.Tree.{tree_at};
ghost use Rattle.rr_parser.specs.Reading.Operands.{jump_at, passing_of, primary_of, sent_of, sent_call_of, element_of, plainly, tailed_of, postfix_of, name_of, variable_or_call, block_behind, blocked_of, bang_of, minus_of};
ghost use Rattle.rr_parser.specs.Reading.{readers};

use crate::fences::opening;
use crate::look::{
    begins_arguments, begins_operands, behind, bracket, prefix_minus, tail, told_behind,
};
use crate::marks::bang;
use crate::parser::{Parsed, Parser};
use crate::refusal::Refusal;
use crate::word::{Behind, Fence, Jump, Part, Passing, Reached, Spot, Tail, Word, WordKind};
use rr_base::Sym;
use rr_tree::{Node, NodeId};

impl Parser {
    ghost use Rattle.rr_parser.specs.Meets.{Gives, GivesReached, reaches, place};

    #[cycle(parser)]
    #[tactic(auto, unfolding(crate::specs::Reading::Operands::minus_of))]
    #[inline(always)]
    pub fn minus<'w>(&mut self, inside: bool, depth: u32, words: &'w [Word]) -> Parsed<'w, NodeId>
        ensures { Gives self.old self.new result (minus_of (readers inside depth) (place self.old words.now)) }
    {
        let Some(rest) = prefix_minus(words) else {
            return self.bang(inside, depth, words);
        };
        let (operand, rest) = self.part(Part::Minus, inside, depth, rest)?;
        Ok((self.put(Node::Negate(operand))?, rest))
    }

    #[cycle(parser)]
    #[tactic(auto, unfolding(crate::specs::Reading::Operands::bang_of))]
    #[inline(always)]
    pub fn bang<'w>(&mut self, inside: bool, depth: u32, words: &'w [Word]) -> Parsed<'w, NodeId>
        ensures { Gives self.old self.new result (bang_of (readers inside depth) (place self.old words.now)) }
    {
        let Some(rest) = bang(words) else {
            let (operand, rest) = self.postfix(inside, depth, words)?;
            return Ok((operand.node, rest));
        };
        let (operand, rest) = self.part(Part::Bang, inside, depth, rest)?;
        Ok((self.put(Node::Not(operand))?, rest))
    }

    /// An operand and what follows it.
    #[cycle(parser)]
    #[tactic(auto, unfolding(crate::specs::Reading::Operands::postfix_of))]
    pub fn postfix<'w>(
        &mut self,
        inside: bool,
        depth: u32,
        words: &'w [Word],
    ) -> Parsed<'w, Reached>
        ensures { GivesReached self.old self.new result (postfix_of (readers inside depth) (place self.old words.now)) }
    {
        let (first, mut rest) = self.primary(inside, depth, words)?;
        let mut operand = Reached {
            node: first,
            spot: None,
        };
        while let Some((tail, after)) = tail(rest) {
            let (made, after) = self.tailed(tail, operand, inside, depth, after)?;
            operand = made;
            rest = after;
        }
        Ok((operand, rest))
    }

    #[cycle(parser)]
    #[inline(always)]
    fn tailed<'w>(
        &mut self,
        tail: Tail,
        operand: Reached,
        inside: bool,
        depth: u32,
        words: &'w [Word],
    ) -> Parsed<'w, Reached>
        requires { operand.node < length self.old.nodes.items }
        ensures { GivesReached self.old self.new result (tailed_of (readers inside depth) tail (reaches.tree self.old.nodes.items operand) (place self.old words.now)) }
    {
        match tail {
            Tail::Send(name) => self.sent(operand.node, name, inside, depth, words),
            Tail::Call(name) => self.sent_call(operand.node, name, inside, depth, words),
            Tail::Index => self.element(operand.node, inside, depth, words),
        }
    }

    /// A call without arguments, with the block that may stand behind it.
    #[cycle(parser)]
    #[tactic(auto, unfolding(crate::specs::Reading::Operands::sent_of))]
    fn sent<'w>(
        &mut self,
        receiver: NodeId,
        name: Sym,
        inside: bool,
        depth: u32,
        words: &'w [Word],
    ) -> Parsed<'w, Reached>
        requires { receiver < length self.old.nodes.items }
        ensures { GivesReached self.old self.new result (sent_of (readers inside depth) (tree_at self.old.nodes.items receiver) name (place self.old words.now)) }
    {
        let call = self.put_send(receiver, name, &[])?;
        let Some((fence, rest)) = opening(Behind::Call, self.known.takes_do, words) else {
            let attribute = Reached {
                node: call,
                spot: Some(Spot::Attribute { receiver, name }),
            };
            return Ok((attribute, words));
        };
        let (node, rest) = self.block_behind(fence, call, inside, depth, rest)?;
        Ok((Reached { node, spot: None }, rest))
    }

    /// A call with arguments in brackets.
    #[cycle(parser)]
    fn sent_call<'w>(
        &mut self,
        receiver: NodeId,
        name: Sym,
        inside: bool,
        depth: u32,
        words: &'w [Word],
    ) -> Parsed<'w, Reached>
        requires { receiver < length self.old.nodes.items }
        ensures { GivesReached self.old self.new result (plainly (sent_call_of (readers inside depth) (tree_at self.old.nodes.items receiver) name) (place self.old words.now)) }
    {
        let (node, rest) = self.sent_arguments(receiver, name, inside, depth, words)?;
        Ok((Reached { node, spot: None }, rest))
    }

    /// The arguments of a call, with the block that may stand behind them.
    #[cycle(parser)]
    #[tactic(auto, unfolding(crate::specs::Reading::Operands::sent_call_of))]
    fn sent_arguments<'w>(
        &mut self,
        receiver: NodeId,
        name: Sym,
        inside: bool,
        depth: u32,
        words: &'w [Word],
    ) -> Parsed<'w, NodeId>
        requires { receiver < length self.old.nodes.items }
        ensures { Gives self.old self.new result (sent_call_of (readers inside depth) (tree_at self.old.nodes.items receiver) name (place self.old words.now)) }
    {
        let (items, rest) = self.inner_arguments(inside, depth, words)?;
        let call = self.put_send(receiver, name, &items)?;
        self.blocked(Behind::Call, call, inside, depth, rest)
    }

    /// An index, with the bracket behind it.
    #[cycle(parser)]
    #[tactic(auto, unfolding(crate::specs::Reading::Operands::element_of))]
    fn element<'w>(
        &mut self,
        receiver: NodeId,
        inside: bool,
        depth: u32,
        words: &'w [Word],
    ) -> Parsed<'w, Reached>
        requires { receiver < length self.old.nodes.items }
        ensures { GivesReached self.old self.new result (element_of (readers inside depth) (tree_at self.old.nodes.items receiver) (place self.old words.now)) }
    {
        let (index, rest) = self.part(Part::Index, inside, depth, words)?;
        let node = self.put(Node::Index(receiver, index))?;
        let element = Reached {
            node,
            spot: Some(Spot::Element { receiver, index }),
        };
        Ok((element, rest))
    }

    #[cycle(parser)]
    #[tactic(auto, unfolding(crate::specs::Reading::Operands::primary_of))]
    #[inline(always)]
    fn primary<'w>(&mut self, inside: bool, depth: u32, words: &'w [Word]) -> Parsed<'w, NodeId>
        ensures { Gives self.old self.new result (primary_of (readers inside depth) (place self.old words.now)) }
    {
        let Some((word, rest)) = words.split_first() else {
            return Err(Refusal::Unexpected(0));
        };
        match word.kind {
            WordKind::Int(n) => self.int(n, rest),
            WordKind::Text(text) => Ok((self.put(Node::Text(text))?, rest)),
            WordKind::Nil => Ok((self.put(Node::Nil)?, rest)),
            WordKind::Truth(truth) => Ok((self.put(Node::Truth(truth))?, rest)),
            WordKind::Symbol(name) => Ok((self.put(Node::Symbol(name))?, rest)),
            WordKind::Constant(name, outer) => self.constant(name, outer, rest),
            WordKind::Field(name) => Ok((self.put(Node::Field(name))?, rest)),
            WordKind::Global(name) => Ok((self.put(Node::Global(name))?, rest)),
            WordKind::Itself => Ok((self.put(Node::Itself)?, rest)),
            WordKind::Minus => self.negative(rest),
            WordKind::Jump(jump) => self.jump(jump, rest),
            WordKind::Passing(passing) => self.passing(passing, inside, depth, rest),
            WordKind::Name(name, _) => self.name(inside, depth, name, rest),
            WordKind::Open => self.part(Part::Group, inside, depth, rest),
            WordKind::OpenSquare => self.part(Part::Array, inside, depth, rest),
            WordKind::OpenBrace => self.part(Part::Hash, inside, depth, rest),
            WordKind::If => self.part(Part::Choice, inside, depth, rest),
            WordKind::Unless => self.part(Part::Unless, inside, depth, rest),
            WordKind::Loop { until } => self.part(Part::Loop { until }, inside, depth, rest),
            WordKind::Begin => self.part(Part::Begin, inside, depth, rest),
            WordKind::TextHead(text) => self.part(Part::Interpolation(text), inside, depth, rest),
            _ => Err(Refusal::Unexpected(words.len())),
        }
    }

    #[cycle(parser)]
    #[tactic(auto, unfolding(crate::specs::Reading::Operands::name_of))]
    #[inline(always)]
    fn name<'w>(
        &mut self,
        inside: bool,
        depth: u32,
        name: Sym,
        words: &'w [Word],
    ) -> Parsed<'w, NodeId>
        ensures { Gives self.old self.new result (name_of (readers inside depth) name (place self.old words.now)) }
    {
        if let Some(rest) = bracket(words) {
            let (items, rest) = self.inner_arguments(inside, depth, rest)?;
            let call = self.put_call(name, &items)?;
            return self.blocked(Behind::Call, call, inside, depth, rest);
        }
        if let Some((fence, rest)) = opening(Behind::Call, self.known.takes_do, words) {
            let call = self.put_call(name, &[])?;
            return self.block_behind(fence, call, inside, depth, rest);
        }
        self.variable_or_call(name, words)
    }

    /// A jump without a value.
    fn jump<'w>(&mut self, jump: Jump, words: &'w [Word]) -> Parsed<'w, NodeId>
        ensures { Gives self.old self.new result (jump_at jump (place self.old words.now)) }
    {
        if !self.allows(jump) {
            return Err(Refusal::Unexpected(words.len().saturating_add(1)));
        }
        if begins_arguments(words) {
            return Err(Refusal::Unexpected(words.len()));
        }
        Ok((self.put_bare_jump(jump)?, words))
    }

    /// What passes arguments on, which stand in brackets or are none.
    #[cycle(parser)]
    #[tactic(auto, unfolding(crate::specs::Reading::Operands::passing_of))]
    fn passing<'w>(
        &mut self,
        passing: Passing,
        inside: bool,
        depth: u32,
        words: &'w [Word],
    ) -> Parsed<'w, NodeId>
        ensures { Gives self.old self.new result (passing_of (readers inside depth) passing (place self.old words.now)) }
    {
        if !self.known.in_method {
            return Err(Refusal::Unexpected(words.len().saturating_add(1)));
        }
        if let Some(rest) = bracket(words) {
            let (items, rest) = self.inner_arguments(inside, depth, rest)?;
            return Ok((self.put_passed(passing, &items)?, rest));
        }
        if begins_operands(words) {
            return Err(Refusal::Unexpected(words.len()));
        }
        Ok((self.put_bare_passed(passing)?, words))
    }

    /// A local variable, or a call without arguments.
    #[inline(always)]
    fn variable_or_call<'w>(&mut self, name: Sym, words: &'w [Word]) -> Parsed<'w, NodeId>
        ensures { Gives self.old self.new result (variable_or_call name (place self.old words.now)) }
    {
        if let Some(variable) = self.known.variable(name) {
            return Ok((self.put_local(name, variable, told_behind(words))?, words));
        }
        if begins_operands(words) {
            return Err(Refusal::Unexpected(words.len()));
        }
        Ok((self.put_bare(name)?, words))
    }

    /// A call or a command, with the block that may stand behind it.
    #[cycle(parser)]
    #[tactic(auto, unfolding(crate::specs::Reading::Operands::blocked_of))]
    #[inline(always)]
    pub fn blocked<'w>(
        &mut self,
        behind: Behind,
        call: NodeId,
        inside: bool,
        depth: u32,
        words: &'w [Word],
    ) -> Parsed<'w, NodeId>
        requires { call < length self.old.nodes.items }
        ensures { Gives self.old self.new result (blocked_of (readers inside depth) behind (tree_at self.old.nodes.items call) (place self.old words.now)) }
    {
        match opening(behind, self.known.takes_do, words) {
            Some((fence, rest)) => self.block_behind(fence, call, inside, depth, rest),
            None => Ok((call, words)),
        }
    }

    /// A call with its block.
    #[cycle(parser)]
    fn block_behind<'w>(
        &mut self,
        fence: Fence,
        call: NodeId,
        inside: bool,
        depth: u32,
        words: &'w [Word],
    ) -> Parsed<'w, NodeId>
        requires { call < length self.old.nodes.items }
        ensures { Gives self.old self.new result (block_behind (readers inside depth) fence (tree_at self.old.nodes.items call) (place self.old words.now)) }
    {
        let (block, rest) = self.part(Part::Block(fence), inside, depth, words)?;
        Ok((self.put(Node::WithBlock(call, block))?, rest))
    }
}
