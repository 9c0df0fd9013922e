//! What a command line asks for.

use std::alloc::AllocError;
use thiserror::Error;

/// What the words after the program's name ask for.
#[derive(Clone, Copy, Debug, PartialEq, Eq, Drop)]
pub enum Line<'a> {
    /// `run FILE`: run the script in the file.
    Run { file: &'a str },
}

/// Why the words ask for nothing.
#[derive(Debug, Drop, Error)]
pub enum LineFault {
    /// The words are no command line, or ask for help.
    #[error(transparent)]
    Words(clap::Error),
    #[error("error: out of memory")]
    Memory(#[from(alloc)] AllocError),
    #[error("error: a command is missing")]
    NoCommand,
    #[error("error: {0} is missing")]
    Missing(&'static str),
}
