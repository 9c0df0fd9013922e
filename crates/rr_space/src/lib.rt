//! The objects of one ractor, and the definitions of the graph that they are.
#![tactic(auto)]

mod append;
mod behind;
mod carried;
mod elements;
mod entries;
mod fields;
mod indexes;
mod items;
mod kind;
mod label;
mod laws;
mod lookups;
mod moving;
mod node;
mod pairs;
mod part;
mod place_table;
mod published;
mod refer;
mod renumber;
mod replace;
mod shifted;
mod slot_set;
mod space;
mod texts;
mod walk;
mod write;

pub use carried::Carried;
pub use items::Items;
pub use kind::Kind;
pub use label::Label;
pub use laws::{
    shown_by_cases, shown_by_changes, shown_by_copying, shown_by_dropping, shown_by_effects,
    shown_by_embedding, shown_by_examples, shown_by_handing_on, shown_by_keeping, shown_by_keys,
    shown_by_leaves, shown_by_marks, shown_by_publishing, shown_by_reading, shown_by_remaking,
    shown_by_soundness, shown_by_spaces,
};
pub use node::{Entries, Key, Node};
pub use published::Published;
pub use refer::{Cluster, Name, Raised, Ref, Sealed};
pub use slot_set::SlotSet;
pub use space::Space;
