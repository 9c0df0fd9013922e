//! Measurements of single layers, in nanoseconds of wall clock. The scripts under bench/ measure the whole program.
#![tactic(auto)]

mod changes;
mod channels;
mod clock;
mod moves;
mod names;
mod objects;
mod pairs;
mod reading;
mod scripts;
mod tokens;
mod world;

use std::{env, io};

/// The words that ask for a measurement, and what each measures.
const MEASUREMENTS: &str = "\
script FILE: its tokens, its tree, its steps
tokens FILE: its tokens alone
names FILE: the outer names of its last block
objects: ten million arrays of two integers, made and read
changes: a text that grows, an array that is shifted, pairs deleted, a published hash
moves: a million arrays and a hundred mebibytes of texts, moved
inbox: a million integers offered and accepted
text: a text of a mebibyte, packed and opened, beside one copy of its bytes
world: a million steps of two hundred ractors";

fn main(rt: HostRuntime) -> io::Result<()> {
    let words: Vec<String> = env::args(&rt)?.collect(rt.alloc())?;
    let name = words.get(1).map_or("", |word| word.as_str());
    let file = words.get(2).map_or("", |word| word.as_str());
    match name {
        "script" => scripts::measure(&rt, file),
        "tokens" => tokens::measure(&rt, file),
        "names" => names::measure(&rt, file),
        "inbox" => channels::measure_inbox(&rt),
        "text" => channels::measure_text(&rt),
        "world" => world::measure(&rt),
        _ => measure_objects(&rt, name),
    }
}

fn measure_objects(rt: &HostRuntime, name: &str) -> io::Result<()> {
    match name {
        "objects" => objects::measure(rt),
        "changes" => changes::measure(rt),
        "moves" => moves::measure(rt),
        _ => println!(rt; "{}", MEASUREMENTS),
    }
}
