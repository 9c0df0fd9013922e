//! The program `ractor`: reads its command line, runs the script in the file that it names, and answers by its exit status.
#![tactic(auto)]

pub mod command_line;
pub mod execute;
pub mod statuses;
pub mod tell;
pub mod words;

use command_line::line;
use execute::execute;
use rr_eval::Counted;
use statuses::{Failure, failure_of, status_of_failure};
use std::alloc::{AllocError, Global};
use std::process::ExitCode;
use std::{env, fs, io};
use words::{Line, LineFault};

fn main(rt: HostRuntime) -> ExitCode {
    ExitCode::from(match run(&rt) {
        Ok(status) => status,
        Err(failure) => {
            tell_failure(&rt, failure);
            status_of_failure(failure)
        }
    })
}

// The line about why no script was run. That of wrong words has been written where they were read.
fn tell_failure(rt: &HostRuntime, failure: Failure) {
    let _ = match failure {
        Failure::Words => Ok(()),
        Failure::File => eprintln!(rt; "ractor: file"),
        Failure::Memory => eprintln!(rt; "ractor: memory"),
    };
}

// The exit status of what the words ask for.
fn run(rt: &HostRuntime) -> Result<u8, Failure> {
    let all = arguments(rt)?;
    let Ok(words) = words_after_name(rt.alloc(), all.as_slice()) else {
        return Err(Failure::Memory);
    };
    match line(rt.alloc(), words.as_slice()) {
        Ok(line) => run_line(rt, &line),
        Err(LineFault::Memory(_)) => Err(Failure::Memory),
        Err(fault) => {
            let _ = eprintln!(rt; "{fault}");
            Err(Failure::Words)
        }
    }
}

fn collect_arguments(rt: &HostRuntime) -> io::Result<Vec<String>> {
    let words = env::args(rt)?.collect(rt.alloc())?;
    Ok(words)
}

fn arguments(rt: &HostRuntime) -> Result<Vec<String>, Failure> {
    match collect_arguments(rt) {
        Ok(all) => Ok(all),
        Err(error) => {
            let failure = failure_of(error.kind(), Failure::Words);
            if failure == Failure::Words {
                let _ = eprintln!(rt; "error: the words are no text");
            }
            Err(failure)
        }
    }
}

fn words_after_name(alloc: Global, all: &[String]) -> Result<Vec<&str>, AllocError> {
    all.iter().skip(1).map(|word| word.as_str()).collect(alloc)
}

fn run_line(rt: &HostRuntime, line: &Line<'_>) -> Result<u8, Failure> {
    let Line::Run { file } = line;
    let bytes = match fs::read(rt, file) {
        Ok(bytes) => bytes,
        Err(error) => return Err(failure_of(error.kind(), Failure::File)),
    };
    let mut output = Counted::new(rt.stdout());
    let mut errors = Counted::new(rt.stderr());
    let mut trace = Vec::new(rt.alloc());
    Ok(execute(
        rt.alloc(),
        line,
        bytes.as_slice(),
        &mut output,
        &mut errors,
        &mut trace,
    ))
}

#[cfg(test)]
mod rows;
#[cfg(test)]
mod tests;
