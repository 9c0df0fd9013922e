//! Worked examples of the language: tokens, and the programs that they spell.
#![tactic(auto)]

#[cfg(test)]
mod classes;
#[cfg(test)]
mod constants;
#[cfg(test)]
mod contents;
#[cfg(test)]
mod line_rows;
#[cfg(test)]
mod method_names;
#[cfg(test)]
mod methods;
#[cfg(test)]
mod pairs;
#[cfg(test)]
mod programs;
#[cfg(test)]
mod receivers;
#[cfg(test)]
mod several;
#[cfg(test)]
mod table;
#[cfg(test)]
mod targets;
#[cfg(test)]
mod token_rows;
#[cfg(test)]
mod tokens;
