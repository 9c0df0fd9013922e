//! Reading trees from words, from left to right.

ghost use Rattle.std.specs.Prelude.{◌≡◌, true, IfOk};
ghost use Rattle.rr_tree.specs.Tree.{IsOrdered};
ghost use Rattle.rr_tree.specs.Order.{IsOrdered-prop};
ghost use Rattle.rr_parser.specs.Grammar.Calls.{is_settable};
ghost use Rattle.rr_parser.specs.Grammar.Names.{command, begins_head, is_allowed};
ghost use Rattle.rr_parser.specs.declared.word.Listed.TheVariants.{Call};
ghost use Rattle.rr_parser.specs.Reading.Answers.{taking_of};
ghost use Rattle.rr_parser.specs.Reading.Calls.{bracketed_of};
ghost use Rattle.rr_parser.specs.Reading.{readers, form_of, part_of};

use crate::fences::is_enclosed;
use crate::locals::Locals;
use crate::look::{begins_arguments, begins_operands, head};
use crate::refusal::{Refusal, Storage};
use crate::variables::{Scope, Variable, Variables};
use crate::word::{Head, Jump, Listed, Naming, Part, Target, Word};
use rr_base::Sym;
use rr_tree::{Node, NodeId};
use std::alloc::Global;

/// The nodes that were made, and the local variables that are known.
#[derive(Drop)]
pub(crate) struct Parser {
    pub alloc: Global,
    pub nodes: Vec<Node>,
    pub known: Variables,
    /// The table of local variables that the next method gets.
    pub spare: Locals,
    /// The room that the arguments of the last command have left.
    pub room: Vec<NodeId>,
    /// How many calls are numbered.
    pub sites: u32,
    ghost ordered: { IsOrdered nodes.items } by { IsOrdered-prop nodes.items },
}

// What was read, and the words behind it.
pub(crate) type Parsed<'w, T> = Result<(T, &'w [Word]), Refusal>;

pub(crate) type ParsedList<'w> = Parsed<'w, Vec<NodeId>>;

impl Parser {
    ghost use Rattle.rr_parser.specs.Meets.{Gives, GivesList, Marks, Aims, Enters, Leaves, SetsLoop, SetsDo, Sees, place, known_of};

    /// From here on the name is a local variable.
    #[inline(always)]
    pub fn mark(&mut self, name: Sym) -> Result<Variable, Storage>
        ensures { IfOk result (Marks self.old self.new name) }
    {
        self.known.mark(name)
    }

    /// From here on the target is known.
    #[inline(always)]
    pub fn aim(&mut self, target: Target) -> Result<Variable, Storage>
        ensures { IfOk result (Aims self.old self.new target) }
    {
        match target {
            Target::Variable(name) => self.mark(name),
            Target::Field(_) | Target::Global(_) | Target::Constant(_, _) => {
                Ok(Variable { depth: 0, slot: 0 })
            }
        }
    }

    /// Begins a scope.
    pub fn enter(&mut self, parameters: &[Sym]) -> Result<Scope, Storage>
        ensures { IfOk result (Enters self.old self.new parameters.now) }
    {
        self.known.begin(parameters)
    }

    /// Leaves a scope.
    pub fn leave(&mut self, scope: Scope)
        ensures { Leaves self.old self.new scope }
    {
        self.known.leave(scope);
    }

    /// From here on the place is in a loop, or not.
    #[inline(always)]
    pub fn set_loop(&mut self, in_loop: bool)
        ensures { SetsLoop self.old self.new in_loop }
    {
        self.known.set_loop(in_loop);
    }

    /// From here on calls take the word `do`, or not.
    #[inline(always)]
    pub fn set_do(&mut self, takes_do: bool)
        ensures { SetsDo self.old self.new takes_do }
    {
        self.known.set_do(takes_do);
    }

    /// Whether the target is assigned to there.
    #[inline(always)]
    pub fn settable(&self, target: Target) -> bool
        ensures { result ≡ is_settable target (known_of self.now) }
    {
        match target {
            Target::Variable(_) | Target::Field(_) | Target::Global(_) => true,
            Target::Constant(_, naming) => naming == Naming::Free && !self.known.in_method,
        }
    }

    /// Whether a jump may stand there.
    #[inline(always)]
    pub fn allows(&self, jump: Jump) -> bool
        ensures { result ≡ is_allowed jump (known_of self.now) }
    {
        match jump {
            Jump::Return => true,
            Jump::Break | Jump::Next => self.known.in_loop,
        }
    }

    /// Whether a command is begun by it, where these words stand behind it.
    #[inline(always)]
    fn begins(&self, head: Head, words: &[Word]) -> bool
        ensures { result ≡ begins_head head (place self.now words.now) }
    {
        match head {
            Head::Call(name) => self.known.variable(name).is_none() && begins_operands(words),
            Head::Jump(jump) => self.allows(jump) && begins_arguments(words),
            Head::Passing(_) => self.known.in_method && begins_operands(words),
        }
    }

    /// What begins a command.
    #[inline(always)]
    pub fn command_head<'w>(&self, words: &'w [Word]) -> Option<(Head, &'w [Word])>
        ensures { Sees result (command (known_of self.now) words.now) }
    {
        let (head, rest) = head(words)?;
        if self.begins(head, rest) {
            Some((head, rest))
        } else {
            None
        }
    }

    /// One construct more that is open.
    #[cycle(parser)]
    #[tactic(auto, unfolding(crate::specs::Reading::readers_inside, crate::specs::Reading::readers_outside))]
    #[inline(always)]
    pub fn part<'w>(
        &mut self,
        part: Part,
        inside: bool,
        depth: u32,
        words: &'w [Word],
    ) -> Parsed<'w, NodeId>
        ensures { Gives self.old self.new result ((readers inside depth).part part (place self.old words.now)) }
    {
        if depth == 0 {
            return Err(Refusal::Nesting);
        }
        self.part_within(part, inside, depth - 1, words)
    }

    /// A part: calls in it take the word `do` where it ends with a word of its own.
    #[cycle(parser)]
    fn part_within<'w>(
        &mut self,
        part: Part,
        inside: bool,
        depth: u32,
        words: &'w [Word],
    ) -> Parsed<'w, NodeId>
        ensures { Gives self.old self.new result (part_of (readers inside depth) part (place self.old words.now)) }
    {
        if !is_enclosed(part) {
            return self.form(part, inside, depth, words);
        }
        let outside = self.known.takes_do;
        self.set_do(true);
        let (node, rest) = self.form(part, inside, depth, words)?;
        self.set_do(outside);
        Ok((node, rest))
    }

    #[cycle(parser)]
    fn form<'w>(
        &mut self,
        part: Part,
        inside: bool,
        depth: u32,
        words: &'w [Word],
    ) -> Parsed<'w, NodeId>
        ensures { Gives self.old self.new result (form_of (readers inside depth) part (place self.old words.now)) }
    {
        match part {
            Part::Group => self.group(inside, depth, words),
            Part::Array => self.array(inside, depth, words),
            Part::Hash => self.hash(inside, depth, words),
            Part::Index => self.index(inside, depth, words),
            Part::Choice => self.choice(inside, depth, words),
            Part::Unless => self.unless(inside, depth, words),
            Part::Loop { until } => self.looped(until, inside, depth, words),
            Part::Begin => self.begun(inside, depth, words),
            Part::Minus => self.minus(inside, depth, words),
            Part::Bang => self.bang(inside, depth, words),
            Part::Not => self.negation(inside, depth, words),
            Part::Command => self.command(inside, depth, words),
            Part::Branch => self.value(false, inside, depth, words),
            Part::Interpolation(head) => self.interpolation(head, inside, depth, words),
            Part::Block(fence) => self.block(fence, inside, depth, words),
            Part::Definition => self.definition(inside, depth, words),
            Part::Class(name, superclass) => {
                self.class_body(name, superclass, inside, depth, words)
            }
        }
    }

    /// The arguments behind the bracket of a call.
    #[cycle(parser)]
    #[tactic(auto, unfolding(crate::specs::Reading::readers_inside, crate::specs::Reading::readers_outside))]
    #[inline(always)]
    pub fn inner_arguments<'w>(
        &mut self,
        inside: bool,
        depth: u32,
        words: &'w [Word],
    ) -> ParsedList<'w>
        ensures { GivesList self.old self.new result ((readers inside depth).bracketed (place self.old words.now)) }
    {
        if depth == 0 {
            return Err(Refusal::Nesting);
        }
        self.call_arguments(inside, depth - 1, words)
    }

    /// The same where one construct more is open.
    #[cycle(parser)]
    fn call_arguments<'w>(&mut self, inside: bool, depth: u32, words: &'w [Word]) -> ParsedList<'w>
        ensures { GivesList self.old self.new result (taking_of true (bracketed_of (readers inside depth) Call) (place self.old words.now)) }
    {
        let outside = self.known.takes_do;
        self.set_do(true);
        let (items, rest) = self.bracketed(Listed::Call, inside, depth, words)?;
        self.set_do(outside);
        Ok((items, rest))
    }

    /// The right side of an assignment.
    #[cycle(parser)]
    #[tactic(auto, unfolding(crate::specs::Reading::readers_inside, crate::specs::Reading::readers_outside))]
    #[inline(always)]
    pub fn right_side<'w>(
        &mut self,
        commands: bool,
        inside: bool,
        depth: u32,
        words: &'w [Word],
    ) -> Parsed<'w, NodeId>
        ensures { Gives self.old self.new result ((readers inside depth).value commands (place self.old words.now)) }
    {
        if !inside {
            return self.value(commands, true, depth, words);
        }
        if depth == 0 {
            return Err(Refusal::Nesting);
        }
        self.value(commands, true, depth - 1, words)
    }

    /// The right side of several targets.
    #[cycle(parser)]
    #[tactic(auto, unfolding(crate::specs::Reading::readers_inside, crate::specs::Reading::readers_outside))]
    pub fn right_sides<'w>(
        &mut self,
        inside: bool,
        depth: u32,
        words: &'w [Word],
    ) -> Parsed<'w, NodeId>
        ensures { Gives self.old self.new result ((readers inside depth).values (place self.old words.now)) }
    {
        if !inside {
            return self.rights(true, depth, words);
        }
        if depth == 0 {
            return Err(Refusal::Nesting);
        }
        self.rights(true, depth - 1, words)
    }
}
