//! The tokens of a source.
#![tactic(auto)]

mod class;
mod contents;
mod context;
mod element;
mod encoding;
mod freezes;
mod kind;
mod laws;
mod lexing;
mod lines;
mod numbers;
mod ops;
mod place;
mod refusal;
mod reserved;
mod texts;
mod words;

pub use contents::{int_value, name, text_contents, word};
pub use freezes::freezes_literals;
pub use kind::{Keyword, Kind, Op, Token};
pub use laws::{ints_have_their_values, tokens_are_in_order, tokens_are_one};
pub use lexing::lex;
pub use place::line_and_column;
