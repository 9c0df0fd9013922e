//! Worked examples of the grammar: the parser beside a slow reader of the grammar's text.
#![tactic(auto)]

#[cfg(test)]
mod agreement;
#[cfg(test)]
mod classes;
#[cfg(test)]
mod productions;
#[cfg(test)]
mod reader;
#[cfg(test)]
mod sources;
