//! Worked examples of outer names and of isolated blocks. It has only tests.
#![tactic(auto)]

#[cfg(test)]
mod blocks;
