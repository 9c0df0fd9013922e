//! Runs of a World.
#![tactic(auto)]

#[cfg(test)]
mod constants;
#[cfg(test)]
mod ends;
#[cfg(test)]
mod hands;
#[cfg(test)]
mod missing;
#[cfg(test)]
mod model;
#[cfg(test)]
mod model_changes;
#[cfg(test)]
mod model_constants;
#[cfg(test)]
mod model_pairs;
#[cfg(test)]
mod model_plans;
#[cfg(test)]
mod model_ports;
#[cfg(test)]
mod model_steps;
#[cfg(test)]
mod moves;
#[cfg(test)]
mod pairs;
#[cfg(test)]
mod plans;
#[cfg(test)]
mod ports;
#[cfg(test)]
mod rows;
#[cfg(test)]
mod steps;
#[cfg(test)]
mod walk;
#[cfg(test)]
mod words;
#[cfg(test)]
mod yields;
