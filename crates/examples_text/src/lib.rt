//! Worked examples of printed and joined texts and of equality. It has only tests.
#![tactic(auto)]

#[cfg(test)]
mod compared;
#[cfg(test)]
mod joined;
#[cfg(test)]
mod printed;
