//! Reading the members of lists: items, and the pairs behind them.

ghost use Rattle.std.specs.Prelude.{◌≡◌, ◌<◌, [], List, length, map, All, IfOk};
ghost use Rattle.rr_tree.specs.declared.node.Node.{Node};
ghost use Rattle.rr_tree.specs.Tree.{tree_at, pairs, listed};
ghost use Rattle.rr_parser.specs.Grammar.Calls.{only_pairs, with_pairs, contents};
ghost use Rattle.rr_parser.specs.Reading.Calls.{star_unless, member_of, key_on, adding_of, members_on, members_of, listed_of, is_introduced, first_on, listed_on};
ghost use Rattle.rr_parser.specs.Reading.{readers};
ghost use Rattle.rr_parser.specs.Meets.{AddsMember, SeesRest, givens};

use crate::look::{another, behind, label};
use crate::marks::arrow;
use crate::parser::{Parsed, ParsedList, Parser};
use crate::refusal::{Refusal, Storage};
use crate::several::is_prefixed;
use crate::word::{Infix, Listed, Reached, Word, WordKind};
use rr_tree::{BinaryOperator, Node, NodeId};
use std::alloc::Global;
use std::mem::replace;

/// A member of a list, by its node.
#[derive(Clone, Copy, Drop)]
pub(crate) enum Member {
    Item(NodeId),
    Pair(NodeId),
}

/// The items of a list, and the pairs behind them, by their nodes.
#[derive(Drop)]
pub(crate) struct Given {
    pub items: Vec<NodeId>,
    pub pairs: Vec<NodeId>,
}

impl Given {
    fn new(alloc: Global) -> Given
        ensures items { result.items.items ≡ [] }
        ensures pairs { result.pairs.items ≡ [] }
    {
        Given {
            items: Vec::new(alloc),
            pairs: Vec::new(alloc),
        }
    }

    /// Whether only pairs may stand behind these members.
    fn only_pairs(&self, list: Listed) -> bool
        ensures { (ns : List Node) → result ≡ only_pairs list (givens.tree ns self.now) }
    {
        match list {
            Listed::Command | Listed::Call | Listed::Array => !self.pairs.is_empty(),
            Listed::Hash => true,
        }
    }

    /// The same with one member more.
    #[inline(always)]
    fn with(self, member: Member) -> Result<Given, Storage>
        ensures { IfOk result (λ g. AddsMember self g member) }
    {
        let Given {
            mut items,
            mut pairs,
        } = self;
        match member {
            Member::Item(id) => items.push(id)?,
            Member::Pair(id) => pairs.push(id)?,
        }
        Ok(Given { items, pairs })
    }
}

impl Parser {
    ghost use Rattle.rr_parser.specs.Meets.{GivesList, GivesMember, GivesGiven, Puts, PutsList, reaches, place};

    /// No members yet, in the room that the arguments of an earlier command have left.
    #[inline(always)]
    fn no_members(&mut self) -> Given
        ensures items { result.items.items ≡ [] }
        ensures pairs { result.pairs.items ≡ [] }
        ensures nodes { self.new.nodes.items ≡ self.old.nodes.items }
        ensures known { self.new.known ≡ self.old.known }
    {
        let mut items = replace(&mut self.room, Vec::new(self.alloc));
        items.clear();
        Given {
            items,
            pairs: Vec::new(self.alloc),
        }
    }

    /// Puts pairs without braces.
    fn put_pairs(&mut self, items: &[NodeId]) -> Result<NodeId, Storage>
        requires { All (λ i. i < length self.old.nodes.items) items.now }
        ensures { IfOk result (λ id. Puts self.old self.new (pairs (listed (map (tree_at self.old.nodes.items) items.now))) id) }
    {
        let (first, count) = self.put_items(items)?;
        self.put(Node::Pairs { first, count })
    }

    /// Items, and the pairs behind them as one more.
    #[inline(always)]
    fn put_packed(&mut self, given: Given) -> Result<Vec<NodeId>, Storage>
        requires { givens.within (length self.old.nodes.items) given }
        ensures { IfOk result (λ l. PutsList self.old self.new (with_pairs (map (tree_at self.old.nodes.items) given.items.items) (map (tree_at self.old.nodes.items) given.pairs.items)) l.items) }
    {
        let Given { mut items, pairs } = given;
        if pairs.is_empty() {
            return Ok(items);
        }
        let last = self.put_pairs(&pairs)?;
        items.push(last)?;
        Ok(items)
    }

    /// What a list has: in a list of arguments the pairs are one, the last.
    #[inline(always)]
    fn put_given(&mut self, list: Listed, given: Given) -> Result<Vec<NodeId>, Storage>
        requires { givens.within (length self.old.nodes.items) given }
        ensures { IfOk result (λ l. PutsList self.old self.new (contents list (givens.tree self.old.nodes.items given)) l.items) }
    {
        match list {
            Listed::Command | Listed::Call | Listed::Array => self.put_packed(given),
            Listed::Hash => Ok(given.pairs),
        }
    }

    /// A pair; and an item too, unless only pairs may stand there.
    #[cycle(parser)]
    #[tactic(auto, unfolding(crate::specs::Reading::Calls::member_of, crate::specs::Reading::Calls::unlabeled_of))]
    fn member<'w>(
        &mut self,
        only: bool,
        inside: bool,
        depth: u32,
        words: &'w [Word],
    ) -> Parsed<'w, Member>
        ensures { GivesMember self.old self.new result (member_of (readers inside depth) only (place self.old words.now)) }
    {
        if let Some((key, rest)) = label(words) {
            let (value, rest) = self.value(false, inside, depth, rest)?;
            return Ok((Member::Pair(self.put_entry(key, value)?), rest));
        }
        if let Some(rest) = star_unless(only, words) {
            let (items, rest) = self.value(false, inside, depth, rest)?;
            return Ok((Member::Item(self.put(Node::Splat(items))?), rest));
        }
        let (argument, rest) = self.value(false, inside, depth, words)?;
        self.behind_key(only, argument, inside, depth, rest)
    }

    /// What stands behind an argument, which may be the key of a pair.
    #[cycle(parser)]
    #[tactic(auto, unfolding(crate::specs::Reading::Calls::key_on))]
    #[inline(always)]
    fn behind_key<'w>(
        &mut self,
        only: bool,
        argument: NodeId,
        inside: bool,
        depth: u32,
        words: &'w [Word],
    ) -> Parsed<'w, Member>
        requires { argument < length self.old.nodes.items }
        ensures { GivesMember self.old self.new result (key_on (readers inside depth) only (tree_at self.old.nodes.items argument) (place self.old words.now)) }
    {
        let Some(rest) = arrow(words) else {
            if only {
                return Err(Refusal::Unexpected(words.len()));
            }
            return Ok((Member::Item(argument), words));
        };
        let (value, rest) = self.value(false, inside, depth, rest)?;
        Ok((Member::Pair(self.put(Node::Pair(argument, value))?), rest))
    }

    /// One member behind those that came.
    #[cycle(parser)]
    #[tactic(auto, unfolding(crate::specs::Reading::Calls::adding_of))]
    fn added<'w>(
        &mut self,
        list: Listed,
        given: Given,
        inside: bool,
        depth: u32,
        words: &'w [Word],
    ) -> Parsed<'w, Given>
        requires { givens.within (length self.old.nodes.items) given }
        ensures { GivesGiven self.old self.new result (adding_of (readers inside depth) list (givens.tree self.old.nodes.items given) (place self.old words.now)) }
    {
        let only = given.only_pairs(list);
        let (member, rest) = self.member(only, inside, depth, words)?;
        let more = given.with(member)?;
        Ok((more, rest))
    }

    /// Members of a list, with commas between them.
    #[cycle(parser)]
    #[tactic(auto, unfolding(crate::specs::Reading::Calls::members_of))]
    fn members<'w>(
        &mut self,
        list: Listed,
        inside: bool,
        depth: u32,
        words: &'w [Word],
    ) -> Parsed<'w, Given>
        ensures { GivesGiven self.old self.new result (members_of (readers inside depth) list (place self.old words.now)) }
    {
        let none = Given::new(self.alloc);
        let (first, rest) = self.added(list, none, inside, depth, words)?;
        self.members_on(list, first, inside, depth, rest)
    }

    /// Members of a list behind those that came, with commas before them.
    #[cycle(parser)]
    #[inline(always)]
    fn members_on<'w>(
        &mut self,
        list: Listed,
        first: Given,
        inside: bool,
        depth: u32,
        words: &'w [Word],
    ) -> Parsed<'w, Given>
        requires { givens.within (length self.old.nodes.items) first }
        ensures { GivesGiven self.old self.new result (members_on (readers inside depth) list (givens.tree self.old.nodes.items first) (place self.old words.now)) }
    {
        let mut given = first;
        let mut rest = words;
        while let Some(after) = another(list, rest) {
            let (more, after) = self.added(list, given, inside, depth, after)?;
            given = more;
            rest = after;
        }
        Ok((given, rest))
    }

    /// The first argument of a command, from behind the operand that it begins with.
    #[cycle(parser)]
    #[tactic(auto, unfolding(crate::specs::Reading::Calls::first_on))]
    #[inline(always)]
    fn first_on<'w>(
        &mut self,
        operand: Reached,
        inside: bool,
        depth: u32,
        words: &'w [Word],
    ) -> Parsed<'w, Given>
        requires { reaches.within (length self.old.nodes.items) operand }
        ensures { GivesGiven self.old self.new result (first_on (readers inside depth) (reaches.tree self.old.nodes.items operand) (place self.old words.now)) }
    {
        let (argument, rest) = self.reached(operand, false, inside, depth, words)?;
        let (member, rest) = self.behind_key(false, argument, inside, depth, rest)?;
        let first = self.no_members().with(member)?;
        Ok((first, rest))
    }

    /// The arguments of a command, from behind the operand that they begin with.
    #[cycle(parser)]
    #[tactic(auto, unfolding(crate::specs::Reading::Calls::listed_on))]
    #[inline(always)]
    pub fn listed_on<'w>(
        &mut self,
        operand: Reached,
        inside: bool,
        depth: u32,
        words: &'w [Word],
    ) -> ParsedList<'w>
        requires { reaches.within (length self.old.nodes.items) operand }
        ensures { GivesList self.old self.new result (listed_on (readers inside depth) (reaches.tree self.old.nodes.items operand) (place self.old words.now)) }
    {
        let (first, rest) = self.first_on(operand, inside, depth, words)?;
        let (given, rest) = self.members_on(Listed::Command, first, inside, depth, rest)?;
        Ok((self.put_given(Listed::Command, given)?, rest))
    }

    /// What a list has by its members.
    #[cycle(parser)]
    #[tactic(auto, unfolding(crate::specs::Reading::Calls::listed_of))]
    pub fn listed<'w>(
        &mut self,
        list: Listed,
        inside: bool,
        depth: u32,
        words: &'w [Word],
    ) -> ParsedList<'w>
        ensures { GivesList self.old self.new result (listed_of (readers inside depth) list (place self.old words.now)) }
    {
        let (given, rest) = self.members(list, inside, depth, words)?;
        Ok((self.put_given(list, given)?, rest))
    }
}

/// Whether no operand begins there: a label or a `*` comes, a target and a sign, or a word before an operand.
#[inline(always)]
pub(crate) fn is_introduced(words: &[Word]) -> bool
    ensures { result ≡ is_introduced words.now }
{
    label(words).is_some() || star_unless(false, words).is_some() || is_prefixed(words)
}

/// A `*` before an argument, where items may stand.
#[inline(always)]
fn star_unless(only: bool, words: &[Word]) -> Option<&[Word]>
    ensures { SeesRest result (star_unless only words.now) }
{
    if only {
        return None;
    }
    behind(
        WordKind::Operator(Infix::Binary(BinaryOperator::Multiply)),
        words,
    )
}
