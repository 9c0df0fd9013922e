//! The printed text of values.
#![tactic(auto)]

mod behind;
mod beside;
mod comparing;
mod form;
mod joining;
mod laws;
mod leaf;
mod likeness;
mod names;
mod pairs;
mod parts;
mod plain;
mod printing;
mod quote;
mod raised;
mod searching;
mod sight;
mod walk;
mod writing;

pub use behind::write_text;
pub use comparing::{compare, compare_within};
pub use form::{Form, Lack, Text};
pub use joining::{Joined, join, join_within};
pub use laws::shown_by_rows;
pub use names::{class_name, symbol_name};
pub use pairs::pair_with;
pub use printing::{text, text_within};
pub use searching::search;
pub use sight::Compared;
