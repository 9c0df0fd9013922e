//! Scripts that are read.

use crate::clock::Laps;
use rr_lexer::lex;
use rr_parser::parse;
use rr_tree::Program;
use std::{fs, io};

/// A script's tree, how many bytes and tokens it was read from, and how many milliseconds each reading took.
#[derive(Drop)]
pub struct Script {
    pub bytes: usize,
    pub tokens: usize,
    pub lexed: u128,
    pub parsed: u128,
    pub program: Program,
}

/// The script in the file. None, where it is refused, which is told.
pub fn read(rt: &HostRuntime, file: &str) -> io::Result<Option<Script>> {
    let source = fs::read(rt, file)?;
    let mut laps = Laps::begin(rt)?;
    let Ok(tokens) = lex(rt.alloc(), source.as_slice()) else {
        println!(rt; "refused by the lexer")?;
        return Ok(None);
    };
    let lexed = laps.each(rt, 1_000_000)?;
    let Ok(program) = parse(rt.alloc(), source.as_slice(), tokens.as_slice()) else {
        println!(rt; "refused by the parser")?;
        return Ok(None);
    };
    let parsed = laps.each(rt, 1_000_000)?;
    Ok(Some(Script {
        bytes: source.len(),
        tokens: tokens.len(),
        lexed,
        parsed,
        program,
    }))
}
