//! Reading assignments, arguments and commands.

ghost use Rattle.std.specs.Prelude.{◌≡◌, ◌<◌, length, map, All, IfOk};
ghost use Rattle.rr_tree.specs.Tree.{tree_at};
ghost use Rattle.rr_parser.specs.Grammar.Names.{headed};
ghost use Rattle.rr_parser.specs.Reading.Calls.{bracketed_of, array_of, hash_of, index_of, commanded_of, arguments_of, headed_of, command_of, phrase_of, operand_of, value_of};
ghost use Rattle.rr_parser.specs.Reading.{readers};

use crate::fences::within_head;
use crate::look::{behind, closing, last, target};
use crate::marks::close_square;
use crate::members::is_introduced;
use crate::parser::{Parsed, ParsedList, Parser};
use crate::refusal::{Refusal, Storage};
use crate::word::{Behind, Head, Listed, Part, Word, WordKind};
use rr_tree::NodeId;

impl Parser {
    ghost use Rattle.rr_parser.specs.Meets.{Gives, GivesList, Puts, place};

    /// An assignment or an operand, and a command too where commands may stand.
    #[cycle(parser)]
    #[tactic(auto, unfolding(crate::specs::Reading::Calls::assigned_of))]
    pub fn value<'w>(
        &mut self,
        commands: bool,
        inside: bool,
        depth: u32,
        words: &'w [Word],
    ) -> Parsed<'w, NodeId>
        ensures { Gives self.old self.new result (value_of (readers inside depth) commands (place self.old words.now)) }
    {
        let Some((aim, rest)) = target(words) else {
            return self.operand(commands, inside, depth, words);
        };
        if !self.settable(aim.target) {
            return Err(Refusal::Constant(words.len()));
        }
        let variable = self.aim(aim.target)?;
        let (value, rest) = self.right_side(commands, inside, depth, rest)?;
        Ok((self.put_assignment(aim, variable, value)?, rest))
    }

    #[cycle(parser)]
    #[inline(always)]
    fn operand<'w>(
        &mut self,
        commands: bool,
        inside: bool,
        depth: u32,
        words: &'w [Word],
    ) -> Parsed<'w, NodeId>
        ensures { Gives self.old self.new result (operand_of (readers inside depth) commands (place self.old words.now)) }
    {
        if commands {
            self.phrase(inside, depth, words)
        } else {
            self.settled(false, inside, depth, words)
        }
    }

    /// A command, or an operand or an assignment to it.
    #[cycle(parser)]
    #[tactic(auto, unfolding(crate::specs::Reading::Calls::phrase_of))]
    #[inline(always)]
    fn phrase<'w>(&mut self, inside: bool, depth: u32, words: &'w [Word]) -> Parsed<'w, NodeId>
        ensures { Gives self.old self.new result (phrase_of (readers inside depth) (place self.old words.now)) }
    {
        let Some((head, rest)) = self.command_head(words) else {
            return self.settled(true, inside, depth, words);
        };
        self.headed(head, inside, depth, rest)
    }

    #[cycle(parser)]
    #[tactic(auto, unfolding(crate::specs::Reading::Calls::command_of))]
    #[inline(always)]
    pub fn command<'w>(&mut self, inside: bool, depth: u32, words: &'w [Word]) -> Parsed<'w, NodeId>
        ensures { Gives self.old self.new result (command_of (readers inside depth) (place self.old words.now)) }
    {
        let Some((head, rest)) = self.command_head(words) else {
            return Err(Refusal::Unexpected(words.len()));
        };
        self.headed(head, inside, depth, rest)
    }

    /// Puts a command, and leaves the room of its arguments to those of another one.
    #[inline(always)]
    fn put_command(&mut self, head: Head, items: Vec<NodeId>) -> Result<NodeId, Storage>
        requires { All (λ i. i < length self.old.nodes.items) items.items }
        ensures { IfOk result (λ id. Puts self.old self.new (headed head (map (tree_at self.old.nodes.items) items.items)) id) }
    {
        let command = self.put_headed(head, &items)?;
        self.room = items;
        Ok(command)
    }

    /// A command from behind its first word on, with the block that may stand behind it.
    #[cycle(parser)]
    #[tactic(auto, unfolding(crate::specs::Reading::Calls::headed_of))]
    #[inline(always)]
    pub fn headed<'w>(
        &mut self,
        head: Head,
        inside: bool,
        depth: u32,
        words: &'w [Word],
    ) -> Parsed<'w, NodeId>
        ensures { Gives self.old self.new result (headed_of (readers inside depth) head (place self.old words.now)) }
    {
        let (items, rest) = self.arguments(head, inside, depth, words)?;
        let command = self.put_command(head, items)?;
        self.blocked(Behind::Command(head), command, inside, depth, rest)
    }

    /// The arguments of a command: where it is a call, none in them takes the word `do`.
    #[cycle(parser)]
    pub fn arguments<'w>(
        &mut self,
        head: Head,
        inside: bool,
        depth: u32,
        words: &'w [Word],
    ) -> ParsedList<'w>
        ensures { GivesList self.old self.new result (arguments_of (readers inside depth) head (place self.old words.now)) }
    {
        let outside = self.known.takes_do;
        self.set_do(within_head(head, outside));
        let (items, rest) = self.commanded(inside, depth, words)?;
        self.set_do(outside);
        Ok((items, rest))
    }

    /// What stands behind the name of a command.
    #[cycle(parser)]
    #[tactic(auto, unfolding(crate::specs::Reading::Calls::commanded_of))]
    fn commanded<'w>(&mut self, inside: bool, depth: u32, words: &'w [Word]) -> ParsedList<'w>
        ensures { GivesList self.old self.new result (commanded_of (readers inside depth) (place self.old words.now)) }
    {
        if let Some(_) = self.command_head(words) {
            let (command, rest) = self.part(Part::Command, inside, depth, words)?;
            let mut items = Vec::new(self.alloc);
            items.push(command)?;
            return Ok((items, rest));
        }
        if is_introduced(words) {
            return self.listed(Listed::Command, inside, depth, words);
        }
        let (operand, rest) = self.postfix(inside, depth, words)?;
        self.commanded_on(operand, inside, depth, rest)
    }

    /// Members of a list, with the word that ends it.
    #[cycle(parser)]
    #[tactic(auto, unfolding(crate::specs::Reading::Calls::bracketed_of))]
    pub fn bracketed<'w>(
        &mut self,
        list: Listed,
        inside: bool,
        depth: u32,
        words: &'w [Word],
    ) -> ParsedList<'w>
        ensures { GivesList self.old self.new result (bracketed_of (readers inside depth) list (place self.old words.now)) }
    {
        if let Some(rest) = closing(list, words) {
            return Ok((Vec::new(self.alloc), rest));
        }
        let (items, rest) = self.listed(list, inside, depth, words)?;
        match last(list, rest) {
            Some(rest) => Ok((items, rest)),
            None => Err(Refusal::Unexpected(rest.len())),
        }
    }

    #[cycle(parser)]
    #[tactic(auto, unfolding(crate::specs::Reading::Calls::array_of))]
    pub fn array<'w>(&mut self, inside: bool, depth: u32, words: &'w [Word]) -> Parsed<'w, NodeId>
        ensures { Gives self.old self.new result (array_of (readers inside depth) (place self.old words.now)) }
    {
        let (items, rest) = self.bracketed(Listed::Array, inside, depth, words)?;
        Ok((self.put_array(&items)?, rest))
    }

    #[cycle(parser)]
    #[tactic(auto, unfolding(crate::specs::Reading::Calls::hash_of))]
    pub fn hash<'w>(&mut self, inside: bool, depth: u32, words: &'w [Word]) -> Parsed<'w, NodeId>
        ensures { Gives self.old self.new result (hash_of (readers inside depth) (place self.old words.now)) }
    {
        let (items, rest) = self.bracketed(Listed::Hash, inside, depth, words)?;
        Ok((self.put_hash(&items)?, rest))
    }

    /// An index, with the bracket behind it.
    #[cycle(parser)]
    #[tactic(auto, unfolding(crate::specs::Reading::Calls::index_of))]
    pub fn index<'w>(&mut self, inside: bool, depth: u32, words: &'w [Word]) -> Parsed<'w, NodeId>
        ensures { Gives self.old self.new result (index_of (readers inside depth) (place self.old words.now)) }
    {
        let (index, rest) = self.value(false, inside, depth, words)?;
        match close_square(rest) {
            Some(rest) => Ok((index, rest)),
            None => Err(Refusal::Unexpected(rest.len())),
        }
    }
}
