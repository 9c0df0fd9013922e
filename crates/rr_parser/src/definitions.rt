//! Reading definitions.

ghost use Rattle.std.specs.Prelude.{◌≡◌, drop, IfOk};
ghost use Rattle.rr_parser.specs.Grammar.Definitions.{method_name, some_names, formals};
ghost use Rattle.rr_parser.specs.Reading.Definitions.{definition_of};
ghost use Rattle.rr_parser.specs.Reading.{readers};
ghost use Rattle.rr_parser.specs.Meets.{ReadsNames, Sees};

use crate::blocks::names_to;
use crate::locals::Locals;
use crate::look::behind;
use crate::names::number;
use crate::parser::{Parsed, Parser};
use crate::refusal::{Refusal, Storage};
use crate::variables::Variables;
use crate::word::{Word, WordKind};
use rr_base::Sym;
use rr_tree::{Node, NodeId};
use std::alloc::Global;
use std::mem;

/// A method that is open: its number among the scopes, how many parameters it has, and what was known before it.
#[derive(Drop)]
pub(crate) struct Outside {
    pub number: u32,
    pub parameters: u32,
    pub variables: Variables,
}

/// The words without so many first ones, none where there are fewer.
fn without(count: u32, words: &[Word]) -> &[Word]
    ensures { result.now ≡ drop count words.now }
{
    match words.get(count as usize..) {
        Some(rest) => rest,
        None => &[],
    }
}

/// The name of a method, with all its words.
fn method_name(words: &[Word]) -> Option<(Sym, &[Word])>
    ensures { Sees result (method_name words.now) }
{
    match words {
        [
            Word {
                kind: WordKind::MethodName(name, more),
                ..
            },
            rest @ ..,
        ] => Some((*name, without(*more, rest))),
        _ => None,
    }
}

/// Names with commas between them, or none, up to a word of this kind.
fn some_names<'w>(alloc: Global, end: WordKind, words: &'w [Word]) -> Parsed<'w, Vec<Sym>>
    ensures { ReadsNames result (some_names end words.now) }
{
    match behind(end, words) {
        Some(rest) => Ok((Vec::new(alloc), rest)),
        None => names_to(alloc, end, words),
    }
}

/// The parameters of a method, with the separator behind them.
fn formals<'w>(alloc: Global, words: &'w [Word]) -> Parsed<'w, Vec<Sym>>
    ensures { ReadsNames result (formals words.now) }
{
    let Some(rest) = behind(WordKind::Open, words) else {
        return some_names(alloc, WordKind::Separator, words);
    };
    let (names, rest) = some_names(alloc, WordKind::Close, rest)?;
    match behind(WordKind::Separator, rest) {
        Some(rest) => Ok((names, rest)),
        None => Err(Refusal::Unexpected(rest.len())),
    }
}

impl Parser {
    ghost use Rattle.rr_parser.specs.Meets.{Gives, Defines, Rejoins, place};

    /// Begins a method.
    fn enter_method(&mut self, parameters: &[Sym]) -> Result<Outside, Storage>
        ensures { IfOk result (Defines self.old self.new parameters.now) }
    {
        let given = number(parameters.len())?;
        let Some(begun) = self.known.begun.checked_add(1) else {
            return Err(Storage::Slots);
        };
        let mut locals = mem::replace(&mut self.spare, Locals::new(self.alloc));
        locals.truncate(0);
        let inner = Variables {
            locals,
            level: 0,
            count: 0,
            begun,
            in_loop: false,
            in_method: true,
            takes_do: true,
        };
        let variables = mem::replace(&mut self.known, inner);
        self.known.add_parameters(parameters)?;
        Ok(Outside {
            number: self.known.begun,
            parameters: given,
            variables,
        })
    }

    /// Leaves a method, before which this was known.
    fn leave_method(&mut self, variables: Variables)
        ensures { Rejoins self.old self.new variables }
    {
        let inner = mem::replace(&mut self.known, variables);
        let Variables { locals, begun, .. } = inner;
        self.known.begun = begun;
        self.spare = locals;
    }

    /// The definition of a method, behind the word `def`.
    #[cycle(parser)]
    #[tactic(auto, unfolding(crate::specs::Reading::Definitions::definition_of))]
    pub fn definition<'w>(
        &mut self,
        inside: bool,
        depth: u32,
        words: &'w [Word],
    ) -> Parsed<'w, NodeId>
        ensures { Gives self.old self.new result (definition_of (readers inside depth) (place self.old words.now)) }
    {
        let Some((name, rest)) = method_name(words) else {
            return Err(Refusal::Unexpected(words.len()));
        };
        let (parameters, rest) = formals(self.alloc, rest)?;
        let outside = self.enter_method(&parameters)?;
        let (body, rest) = self.body(inside, depth, rest)?;
        let Some(rest) = behind(WordKind::End, rest) else {
            return Err(Refusal::Unexpected(rest.len()));
        };
        let size = self.known.count;
        let scope = outside.number;
        let parameters = outside.parameters;
        self.leave_method(outside.variables);
        let method = self.put(Node::Method {
            name,
            scope,
            parameters,
            size,
            body,
        })?;
        Ok((method, rest))
    }
}
