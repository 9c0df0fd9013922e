//! Worked examples of built-in methods. It has only tests.
#![tactic(auto)]

#[cfg(test)]
mod calls;
#[cfg(test)]
mod rounds;
#[cfg(test)]
mod rows;
#[cfg(test)]
mod values;
