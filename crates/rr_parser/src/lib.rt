//! The trees of programs, read from their tokens.
#![tactic(auto)]

mod attributes;
mod blocks;
mod bodies;
mod calls;
mod class_bodies;
mod constants;
mod control;
mod definitions;
mod fences;
mod infixes;
mod interpolations;
mod locals;
mod look;
mod marks;
mod members;
mod method_names;
mod names;
mod nodes;
mod opened;
mod operands;
mod operators;
mod outline;
mod parser;
mod program;
mod receivers;
mod refusal;
mod settings;
mod several;
mod statements;
mod variables;
mod word;

pub use program::parse;
