//! Worked examples of channels: inboxes, ports, selects and ledgers.
#![tactic(auto)]

#[cfg(test)]
mod book;
#[cfg(test)]
mod choice;
#[cfg(test)]
mod inbox;
#[cfg(test)]
mod lines;
#[cfg(test)]
mod message;
#[cfg(test)]
mod port;
