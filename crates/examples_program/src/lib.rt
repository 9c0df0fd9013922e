//! Worked examples of scripts, from their bytes to their printed bytes.
#![tactic(auto)]

#[cfg(test)]
mod above;
#[cfg(test)]
mod apart;
#[cfg(test)]
mod assigning;
#[cfg(test)]
mod attributes;
#[cfg(test)]
mod blocks;
#[cfg(test)]
mod broken;
#[cfg(test)]
mod builtins;
#[cfg(test)]
mod calls;
#[cfg(test)]
mod causes;
#[cfg(test)]
mod chains;
#[cfg(test)]
mod classes;
#[cfg(test)]
mod constants;
#[cfg(test)]
mod containers;
#[cfg(test)]
mod endings;
#[cfg(test)]
mod fields;
#[cfg(test)]
mod globals;
#[cfg(test)]
mod hash_each;
#[cfg(test)]
mod hash_pairs;
#[cfg(test)]
mod hashes;
#[cfg(test)]
mod interpolations;
#[cfg(test)]
mod iterations;
#[cfg(test)]
mod large;
#[cfg(test)]
mod limits;
#[cfg(test)]
mod loops;
#[cfg(test)]
mod methods;
#[cfg(test)]
mod new_breaks;
#[cfg(test)]
mod objects;
#[cfg(test)]
mod operators;
#[cfg(test)]
mod own_messages;
#[cfg(test)]
mod publishing;
#[cfg(test)]
mod raising;
#[cfg(test)]
mod raising_new;
#[cfg(test)]
mod rescuing;
#[cfg(test)]
mod rows;
#[cfg(test)]
mod run;
#[cfg(test)]
mod settable;
#[cfg(test)]
mod several;
#[cfg(test)]
mod sharing;
#[cfg(test)]
mod short_calls;
#[cfg(test)]
mod speaking;
#[cfg(test)]
mod splats;
#[cfg(test)]
mod starting;
#[cfg(test)]
mod straight;
#[cfg(test)]
mod table;
#[cfg(test)]
mod targets;
#[cfg(test)]
mod turn_breaks;
#[cfg(test)]
mod unframed;
#[cfg(test)]
mod updating;
#[cfg(test)]
mod usual;
#[cfg(test)]
mod usual_objects;
#[cfg(test)]
mod usual_requests;
#[cfg(test)]
mod usual_tasks;
#[cfg(test)]
mod usual_texts;
#[cfg(test)]
mod usual_updates;
#[cfg(test)]
mod writers;
