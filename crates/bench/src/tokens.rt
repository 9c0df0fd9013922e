//! A source's tokens.

use crate::clock::Laps;
use rr_lexer::lex;
use std::{fs, io};

pub fn measure(rt: &HostRuntime, file: &str) -> io::Result<()> {
    let source = fs::read(rt, file)?;
    let mut laps = Laps::begin(rt)?;
    let answer = lex(rt.alloc(), source.as_slice());
    let lexed = laps.each(rt, 1_000_000)?;
    let bytes = source.len();
    match answer {
        Ok(tokens) => {
            let count = tokens.len();
            println!(rt; "{bytes} bytes, {count} tokens: {lexed} ms")
        }
        Err(_) => println!(rt; "{bytes} bytes, refused: {lexed} ms"),
    }
}
