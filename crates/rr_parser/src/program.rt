//! Programs, read from tokens.

ghost use Rattle.std.specs.Prelude.{◌≡◌, ℕ, List, map, MatchResult, IfOk, IfErr, Ok, Err};
ghost use Rattle.rr_base.specs.declared.fault.SyntaxKind.{SyntaxKind};
ghost use Rattle.rr_tree.specs.Tree.{Tree, tree_at, IsOrdered};
ghost use Rattle.rr_lexer.specs.Freezes.{freezes};
ghost use Rattle.rr_tree.specs.Order.{IsOrdered-prop};
ghost use Rattle.rr_parser.specs.Words.{words_of, symbols_of, texts_of, classes_of};
ghost use Rattle.rr_parser.specs.Fronts.{NestsBeyond};
ghost use Rattle.rr_parser.specs.Grammar.{Spells, SpellsWithin, SpellsProgram};
ghost use Rattle.rr_parser.specs.Reading.{program_of};
ghost use Rattle.rr_parser.specs.Meets.{Fails};
ghost use Rattle.rr_parser.specs.Faults.{last_tokens, kind_behind_dot, unexpected_kind, IsParseFault, IsFaultOf, IsSyntax};

use crate::locals::Locals;
use crate::names::read_words;
use crate::outline::Outline;
use crate::parser::Parser;
use crate::refusal::{Refusal, Storage};
use crate::variables::Variables;
use crate::word::Word;
use rr_base::{Fault, LimitKind, SyntaxKind};
use rr_lexer::{Kind, Op, Token, freezes_literals, line_and_column};
use rr_tree::{Node, NodeId, Program};
use std::alloc::Global;

/// How many constructs may be open at one place.
const NESTING: u32 = 200;

/// The nodes of a program.
#[derive(Drop)]
struct Nodes {
    /// With no room behind them: a table that has grown by doubling is cut.
    pub nodes: Vec<Node>,
    pub root: NodeId,
    pub definitions: Vec<NodeId>,
    /// How many calls are numbered.
    pub sites: u32,
    ghost ordered: { IsOrdered nodes.items } by { IsOrdered-prop nodes.items },
}

#[tactic(auto, unfolding(crate::specs::Reading::program_of))]
fn read_nodes(alloc: Global, words: &[Word], depth: u32) -> Result<Nodes, Refusal>
    ensures tree { MatchResult result (λ p. program_of depth words.now ≡ Ok (map (tree_at p.nodes.items) p.definitions.items, tree_at p.nodes.items p.root)) (λ e. Fails e (program_of depth words.now)) }
{
    let mut parser = Parser {
        alloc,
        nodes: Vec::new(alloc),
        known: Variables {
            locals: Locals::new(alloc),
            level: 0,
            count: 0,
            begun: 0,
            in_loop: false,
            in_method: false,
            takes_do: true,
        },
        spare: Locals::new(alloc),
        room: Vec::new(alloc),
        sites: 0,
    };
    let (outline, rest) = parser.outline(depth, words)?;
    if !rest.is_empty() {
        return Err(Refusal::Unexpected(rest.len()));
    }
    let Outline {
        definitions,
        statements,
    } = outline;
    let root = parser.put_sequence(&statements)?;
    let Parser {
        alloc: _,
        mut nodes,
        known: _,
        spare: _,
        room: _,
        sites,
    } = parser;
    nodes.shrink_to_fit();
    Ok(Nodes {
        nodes,
        root,
        definitions,
        sites,
    })
}

/// So many tokens, the last ones.
fn last_tokens(left: usize, tokens: &[Token]) -> &[Token]
    ensures { result.now ≡ last_tokens left tokens.now }
{
    let skipped = tokens.len().saturating_sub(left);
    match tokens.get(skipped..) {
        Some(rest) => rest,
        None => &[],
    }
}

/// How a dot is refused with which nothing goes on, where these tokens stand behind it.
fn kind_behind_dot(tokens: &[Token]) -> SyntaxKind
    ensures { result ≡ kind_behind_dot tokens.now }
{
    match tokens {
        [
            Token {
                kind: Kind::Constant,
                ..
            },
            ..
        ] => SyntaxKind::LeftOut,
        _ => SyntaxKind::UnexpectedToken,
    }
}

/// How tokens are refused with which nothing goes on.
fn unexpected_kind(tokens: &[Token]) -> SyntaxKind
    ensures { result ≡ unexpected_kind tokens.now }
{
    let Some((token, rest)) = tokens.split_first() else {
        return SyntaxKind::UnexpectedEnd;
    };
    match token.kind {
        Kind::Op(Op::Path) => SyntaxKind::LeftOut,
        Kind::Op(Op::Dot) => kind_behind_dot(rest),
        _ => SyntaxKind::UnexpectedToken,
    }
}

/// The fault at the first of these tokens, or behind the source.
fn fault_at(source: &[u8], tokens: &[Token], kind: SyntaxKind) -> Fault
    ensures { IsSyntax kind result }
{
    let place = match tokens.first() {
        Some(token) => token.start as usize,
        None => source.len(),
    };
    let (line, column) = line_and_column(source, place);
    Fault::Syntax { line, column, kind }
}

fn fault_of(source: &[u8], tokens: &[Token], refusal: Refusal) -> Fault
    ensures { IsFaultOf tokens.now refusal result }
{
    match refusal {
        Refusal::Storage(Storage::Memory) => Fault::Memory,
        Refusal::Storage(Storage::Slots) => Fault::Limit(LimitKind::Slots),
        Refusal::Nesting => Fault::Limit(LimitKind::Nesting),
        Refusal::Unexpected(left) => {
            let rest = last_tokens(left, tokens);
            fault_at(source, rest, unexpected_kind(rest))
        }
        Refusal::Number(left) => fault_at(source, last_tokens(left, tokens), SyntaxKind::Number),
        Refusal::LeftOut(left) => fault_at(source, last_tokens(left, tokens), SyntaxKind::LeftOut),
        Refusal::Constant(left) => {
            fault_at(source, last_tokens(left, tokens), SyntaxKind::Constant)
        }
    }
}

/// The program that the tokens of a source spell, with constructs nested no deeper than a number.
pub(crate) fn read(
    alloc: Global,
    source: &[u8],
    tokens: &[Token],
    depth: u32,
) -> Result<Program, Refusal>
    ensures tree { MatchResult result (λ p. program_of depth (words_of source.now tokens.now) ≡ Ok (map (tree_at p.nodes.items) p.definitions.items, tree_at p.nodes.items p.root)) (λ e. Fails e (program_of depth (words_of source.now tokens.now))) }
    ensures symbols { IfOk result (λ p. map (λ s. s.items) p.symbols.items ≡ symbols_of source.now tokens.now) }
    ensures texts { IfOk result (λ p. map (λ s. s.items) p.texts.items ≡ texts_of source.now tokens.now) }
    ensures freezes { IfOk result (λ p. p.freezes ≡ freezes source.now tokens.now) }
    ensures classes { IfOk result (λ p. p.classes.items ≡ classes_of source.now tokens.now) }
{
    let words = read_words(alloc, source, tokens)?;
    let Nodes {
        nodes,
        root,
        definitions,
        sites,
    } = read_nodes(alloc, &words.words, depth)?;
    Ok(Program {
        nodes,
        root,
        symbols: words.symbols,
        texts: words.texts,
        freezes: freezes_literals(source, tokens),
        definitions,
        classes: words.classes,
        sites,
    })
}

/// The program that the tokens of a source spell.
///
/// The tokens are those that `lex` gives for the source. A `Syntax` fault stands at the first token that no construct
/// goes on with, or at the end of the source. At most 200 constructs may be open at one place: brackets, a text literal
/// with parts that are evaluated, a construct that an `end` ends, a minus, a `!` or a `not` before an operand, a command
/// that is the argument of a command, a branch of `? :`, and the right side of an assignment inside the right side of
/// another one; past that the fault is `Limit(Nesting)`. A program that needs more than 4,294,967,295 nodes, names or
/// texts is `Limit(Slots)`, and where the allocator refuses a growth the fault is `Memory`.
pub fn parse(alloc: Global, source: &[u8], tokens: &[Token]) -> Result<Program, Fault>
    // What is read is spelled so.
    ensures found { IfOk result (λ p. SpellsWithin 200 source.now tokens.now (tree_at p.nodes.items p.root)) }
    // So are its definitions, which stand in their order.
    ensures program { IfOk result (λ p. SpellsProgram 200 source.now tokens.now (map (tree_at p.nodes.items) p.definitions.items) (tree_at p.nodes.items p.root)) }
    ensures symbols { IfOk result (λ p. map (λ s. s.items) p.symbols.items ≡ symbols_of source.now tokens.now) }
    ensures texts { IfOk result (λ p. map (λ s. s.items) p.texts.items ≡ texts_of source.now tokens.now) }
    ensures freezes { IfOk result (λ p. p.freezes ≡ freezes source.now tokens.now) }
    ensures classes { IfOk result (λ p. p.classes.items ≡ classes_of source.now tokens.now) }
    // Where the tokens are refused, they spell no tree.
    ensures refused { (line column : ℕ) (kind : SyntaxKind) → result ≡ Err (Fault.Syntax line column kind) → (t : Tree) → Spells source.now tokens.now t → ⊥ }
    // Where they nest too deep, they spell none within the limit.
    ensures deep { result ≡ Err (Fault.Limit LimitKind.Nesting) → (t : Tree) → SpellsWithin 200 source.now tokens.now t → ⊥ }
    // And more constructs are begun at some place than may be open there.
    ensures beyond { result ≡ Err (Fault.Limit LimitKind.Nesting) → NestsBeyond 200 source.now tokens.now }
    ensures faults { IfErr result IsParseFault }
{
    match read(alloc, source, tokens, NESTING) {
        Ok(program) => Ok(program),
        Err(refusal) => Err(fault_of(source, tokens, refusal)),
    }
}
