//! Worked examples of frames. It has only tests.
#![tactic(auto)]

#[cfg(test)]
mod calls;
