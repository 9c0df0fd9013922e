//! From bytes to tokens.

ghost use Rattle.std.specs.Prelude.{◌≡◌, ℕ, ◌+◌, ◌<◌, ◌≤◌, ◌≢◌, List, length, take, drop, MatchOption, IfOk, IfErr};
ghost use Rattle.rr_lexer.specs.Places.{IsAt};
ghost use Rattle.rr_lexer.specs.Encoding.{refused_from};
ghost use Rattle.rr_lexer.specs.Contexts.{state_of};
ghost use Rattle.rr_lexer.specs.Tokens.{State, Begins, NoneBegins, start_of, source_limit, Spelled, AreTokensOf, Faults};
ghost use Rattle.rr_lexer.specs.declared.kind.Token.{Token};

use crate::context::{Context, is_skipped};
use crate::element::element_at;
use crate::encoding::first_refused;
use crate::kind::{Kind, Token};
use crate::lines::join;
use crate::place::line_and_column;
use crate::refusal::refusal_at;
use rr_base::{Fault, LimitKind, SyntaxKind};
use std::alloc::Global;

const SOURCE_LIMIT: usize = 16_777_216;

/// How many bytes a leading byte order mark takes.
#[tactic(auto, unfolding(crate::specs::Tokens::start_of))]
pub fn start_of(source: &[u8]) -> usize
    ensures is { result ≡ start_of source.now }
    ensures within { result ≤ length source.now }
{
    if source.len() >= 3 && &source[..3] == b"\xEF\xBB\xBF".as_slice() {
        3
    } else {
        0
    }
}

/// A fault at a place.
fn syntax(source: &[u8], place: usize, kind: SyntaxKind) -> Fault
    ensures { (line column : ℕ) × (result ≡ Fault.Syntax line column kind) × IsAt source.now place line column }
{
    let (line, column) = line_and_column(source, place);
    Fault::Syntax { line, column, kind }
}

/// The token, blank, comment or joined line that begins at a place.
fn begins_at(context: &Context, rest: &[u8]) -> Option<(Kind, usize)>
    requires { 0 < length rest.now }
    ensures { MatchOption result (NoneBegins (state_of context.now) rest.now) (λ p. Begins (state_of context.now) rest.now p.0 p.1) }
{
    element_at(context.is_inside(), context.after_dot, rest)
}

/// All tokens of a source, with every line end.
fn all_tokens(alloc: Global, source: &[u8]) -> Result<Vec<Token>, Fault>
    requires { refused_from source.now ≡ length source.now }
    ensures tokens { IfOk result (λ tokens. (length source.now ≤ source_limit) × Spelled source.now tokens.items) }
    ensures fault { IfErr result (λ fault. Faults source.now fault) }
{
    let fits = source.len() <= SOURCE_LIMIT;
    let mut tokens = Vec::new(alloc);
    let mut context = Context::new(alloc);
    let mut place = start_of(source);
    while place < source.len() {
        let rest = &source[place..];
        let Some((kind, n)) = begins_at(&context, rest) else {
            return Err(syntax(source, place, refusal_at(rest)));
        };
        if fits && !is_skipped(kind) {
            tokens.push(Token {
                start: place as u32,
                end: (place + n) as u32,
                kind,
                blank: context.blank,
            })?;
        }
        context.follow(kind)?;
        place += n;
    }
    if fits {
        Ok(tokens)
    } else {
        Err(Fault::Limit(LimitKind::Source))
    }
}

/// The tokens of a source, without the line ends that separate no statements, or why it has none.
///
/// The tokens stand in the order of their spans, which do not overlap. A source that is no UTF-8, or that has a control
/// byte other than tab, line feed and carriage return, is refused at its first such byte, kind `encoding`. Any other
/// source is refused at the first place at which no token begins. One of more than 16,777,216 bytes that has neither is
/// refused by `LimitKind::Source`. `Fault::Memory` means that the allocator refused a growth, and that no byte is refused.
pub fn lex(alloc: Global, source: &[u8]) -> Result<Vec<Token>, Fault>
    ensures tokens { IfOk result (λ tokens. AreTokensOf source.now tokens.items) }
    ensures fault { IfErr result (λ fault. Faults source.now fault) }
    ensures none { IfErr result (λ fault. fault ≢ Fault.Memory → (tokens : List Token) → AreTokensOf source.now tokens → ⊥) }
{
    if let Some(place) = first_refused(source) {
        return Err(syntax(source, place, SyntaxKind::Encoding));
    }
    let mut tokens = all_tokens(alloc, source)?;
    join(&mut tokens);
    Ok(tokens)
}
