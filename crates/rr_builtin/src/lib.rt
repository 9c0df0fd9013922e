//! The built-in methods, each its rule.
#![tactic(auto)]

mod arrays;
mod built;
mod calls;
mod causes;
mod characters;
mod contents;
mod copies;
mod deed;
mod dividing;
mod fields;
mod hash_copies;
mod hashes;
mod integer;
mod iterations;
mod joins;
mod kinds;
mod messages;
mod method;
mod names;
mod news;
mod numbers;
mod objects;
mod often;
mod problem;
mod rounds;
mod sorts;
mod sums;
mod texts;

pub use built::Built;
pub use calls::call;
pub use causes::set_cause;
pub use deed::make_array;
pub use dividing::{division_rounds_down, floor_div, floor_mod};
pub use fields::{field_at, set_field};
pub use integer::{
    NumberProblem, absolute, compare, difference, is_even, is_odd, is_zero, opposite, product,
    quotient, remainder, sum,
};
pub use iterations::{Iteration, Iterations, iterates, iterations_have_names, refused};
pub use kinds::{has, stands_below_object};
pub use messages::write_message;
pub use method::{BuiltInMethod, ContentMethod, NumberMethod, ObjectMethod, TellingMethod};
pub use names::{Methods, methods_have_names};
pub use news::{make_hash, may_make, new_object};
pub use numbers::{number_answer, on_integer};
pub use objects::is_truthy;
pub use problem::{Problem, Receiver, write_missing};
pub use rounds::{Round, is_own_hash, item_at, keys_of, own_pair_at, pair_at};
