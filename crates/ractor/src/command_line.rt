//! Reading the command line.

ghost use Rattle.std.specs.Prelude.{IfErr, IfOk, List, codes, map};
ghost use Rattle.clap.specs.Words.{Text, fault_of, first_value, found_of, subcommand_of, HasKind};
ghost use Rattle.ractor.specs.Grammar.{grammar, run_grammar, IsCommandOf, IsRefused, LacksBy, Reads, ReadsBy};

use crate::words::{Line, LineFault};
use clap::error::ErrorKind;
use clap::{Arg, ArgMatches, Command};
use std::alloc::{AllocError, Global};

fn run_command<'a>(alloc: Global) -> Result<Command<'a>, AllocError>
    ensures { IfOk result (λ c. IsCommandOf c run_grammar) }
{
    let file = Arg::new(alloc, "file").required(true);
    Command::new(alloc, "run").arg(file)
}

// The command as `clap` sees it.
fn command<'a>(alloc: Global) -> Result<Command<'a>, AllocError>
    ensures { IfOk result (λ c. IsCommandOf c grammar) }
{
    let run = run_command(alloc)?;
    Command::new(alloc, "ractor")
        .no_binary_name(true)
        .subcommand(run)
}

fn run_line<'a>(matches: &ArgMatches<'a>) -> Result<Line<'a>, LineFault>
    ensures read { IfOk result (λ l. ReadsBy (codes "run") (first_value (found_of matches.now)) l) }
    ensures lacks { IfErr result (λ e. LacksBy (first_value (found_of matches.now)) e) }
{
    let Some(file) = matches.get_str("file") else {
        return Err(LineFault::Missing("file"));
    };
    Ok(Line::Run { file })
}

// `clap` answers want of memory as an error of its own.
fn refused(error: clap::Error) -> LineFault
    ensures { (words : List Text) → HasKind (fault_of grammar words) error → IsRefused words result }
{
    match error.kind() {
        ErrorKind::OutOfMemory => LineFault::Memory(AllocError),
        _ => LineFault::Words(error),
    }
}

/// Reads the words after the program's name. `Ok` has the values that the words give the command, all of the required
/// ones among them. `Memory` is want of memory, `Words` any other refusal of `clap`, and a wish for help; `NoCommand` comes
/// where the words name no command, and `Missing` where a required value lacks.
pub fn line<'a>(alloc: Global, words: &'a [&'a str]) -> Result<Line<'a>, LineFault>
    ensures read { IfOk result (λ l. Reads (subcommand_of grammar (map (λ w. w.now) words.entry.now)) l) }
    ensures refused { IfErr result (λ e. IsRefused (map (λ w. w.now) words.entry.now) e) }
{
    let Ok(command) = command(alloc) else {
        return Err(LineFault::Memory(AllocError));
    };
    let matches = match command.try_get_matches_from(words) {
        Ok(matches) => matches,
        Err(error) => return Err(refused(error)),
    };
    let Some((name, inner)) = matches.subcommand() else {
        return Err(LineFault::NoCommand);
    };
    match name {
        "run" => run_line(inner),
        _ => Err(LineFault::NoCommand),
    }
}
