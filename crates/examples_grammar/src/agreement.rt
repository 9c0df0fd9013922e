//! The parser accepts what a slow reader of the grammar's text accepts, and refuses what that refuses.

use crate::productions::Grammar;
use crate::reader::reads;
use crate::sources::{Dice, few, keep, list, many, next, seeds};
use rr_base::Fault;
use rr_lexer::{Token, lex};
use rr_parser::parse;
use std::alloc::Global;
use std::process::Abort;
use std::test::Fail;

/// How many lists of at most three pieces there are.
const LISTS: usize = 64_000;

/// How many sources by chance are read.
const SOURCES: u32 = 100_000;

/// Whether both accept a source, where they agree on it.
fn agreed(
    rt: &impl Abort,
    alloc: Global,
    grammar: &Grammar,
    source: &[u8],
    tokens: &[Token],
) -> Result<bool, Fail> {
    let parsed = match parse(alloc, source, tokens) {
        Ok(_) => true,
        Err(Fault::Syntax { .. }) => false,
        Err(_) => Err("neither accepted nor refused")?,
    };
    let read = reads(alloc, grammar, source, tokens)?;
    let text = str::from_utf8(source).unwrap_or("");
    assert!(rt; read == Some(parsed), "{text}");
    Ok(parsed)
}

#[test]
fn the_parser_agrees_on_all_short_lists(rt: HostRuntime) -> Result<(), Fail> {
    let grammar = Grammar::new(rt.alloc())?;
    let few = few(rt.alloc())?;
    for number in 0..LISTS {
        let source = list(rt.alloc(), &few, 3, number)?;
        if let Ok(tokens) = lex(rt.alloc(), &source) {
            let _accepted = agreed(&rt, rt.alloc(), &grammar, &source, &tokens)?;
        }
    }
    Ok(())
}

#[test]
fn the_parser_agrees_on_lists_by_chance(rt: HostRuntime) -> Result<(), Fail> {
    let grammar = Grammar::new(rt.alloc())?;
    let pieces = many(rt.alloc())?;
    let mut kept = seeds(rt.alloc())?;
    let mut dice = Dice { state: 1 };
    let mut accepted = 0u32;
    for _ in 0..SOURCES {
        let (source, tokens) = next(rt.alloc(), &mut dice, &pieces, &kept)?;
        if agreed(&rt, rt.alloc(), &grammar, &source, &tokens)? {
            accepted = accepted.saturating_add(1);
            keep(&mut kept, dice.below(1_000), source)?;
        }
    }
    // Both are common.
    assert!(rt;
        SOURCES / 5 < accepted && accepted < SOURCES / 5 * 4,
        "{accepted} accepted"
    );
    Ok(())
}
