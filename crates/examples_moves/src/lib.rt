//! Worked examples of moves: what is taken out of one space and opened in another, or put back. It has only tests.
#![tactic(auto)]

#[cfg(test)]
mod graphs;
#[cfg(test)]
mod long;
#[cfg(test)]
mod plans;
#[cfg(test)]
mod short;
#[cfg(test)]
mod spaces;
