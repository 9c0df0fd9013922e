//! Worked examples of machines that run the block of a ractor.
#![tactic(auto)]

#[cfg(test)]
mod block;
#[cfg(test)]
mod rows;
#[cfg(test)]
mod scripts;
#[cfg(test)]
mod setting;
#[cfg(test)]
mod spreading;
#[cfg(test)]
mod tables;
