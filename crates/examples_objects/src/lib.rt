//! Worked examples of objects: spaces, sharing, messages, and the store. It has only tests.
#![tactic(auto)]

#[cfg(test)]
mod tests_copy;
#[cfg(test)]
mod tests_share;
#[cfg(test)]
mod tests_store;
#[cfg(test)]
mod writes;
