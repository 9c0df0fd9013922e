//! Whether an array has an element that is equal to a value.

ghost use Rattle.std.specs.Prelude.{◌≡◌, IfOk, IfErr};
ghost use Rattle.rr_space.specs.Tables.{Below, graph_of, resolve};
ghost use Rattle.rr_space.specs.Parts.{value_of};
ghost use Rattle.rr_space.specs.Kinds.{kind_at};
ghost use Rattle.rr_text.specs.Same.{triples_in};
ghost use Rattle.rr_text.specs.Keys.{reading};
ghost use Rattle.rr_text.specs.Comparing.{values_in, item_compared, searched};
ghost use Rattle.rr_text.specs.Reads.{IsAmong, IsReadWith};
ghost use Rattle.rr_text.specs.Beside.{outcome_of};

use crate::beside::value_at;
use crate::comparing::compare;
use crate::likeness::is_equal;
use crate::sight::{Compared, decided};
use rr_base::{Fault, Limits};
use rr_space::{Kind, Ref, Space};
use std::alloc::Global;

/// Whether an element is equal to a value.
fn compare_item(alloc: Global, space: &Space, item: Ref, value: Ref) -> Result<Compared, Fault>
    ensures is { IfOk result (λ now. (below : Below) → IsReadWith space.now below → IsAmong below item → IsAmong below value
        → outcome_of now ≡ item_compared (reading space.now below) Limits.DEFAULT.levels (kind_at space.now item) (resolve space.now.slots (value_of item)) (resolve space.now.slots (value_of value))) }
    ensures fault { IfErr result (λ e. e ≡ Fault.Memory) }
{
    // No reference leads nowhere, as the clause of the number says.
    let _count = space.len();
    match space.kind_of(item) {
        Kind::Shell => Ok(Compared::Shell),
        Kind::Array => compare(alloc, space, item, value),
        Kind::Hash => compare(alloc, space, item, value),
        _ => Ok(decided(is_equal(space, item, value))),
    }
}

/// Whether an array has an element that is equal to a value, or why that is not told: the first element that does not differ
/// says it. `Deep` where more than 10,000 containers would be begun inside one another; `Shell` where it comes to an object
/// that was moved away. `Memory` is the only fault.
pub fn search(alloc: Global, space: &Space, array: Ref, value: Ref) -> Result<Compared, Fault>
    ensures is { IfOk result (λ now. (below : Below) → IsReadWith space.now below → IsAmong below array → IsAmong below value
        → outcome_of now ≡ searched (reading space.now below) Limits.DEFAULT.levels (resolve space.now.slots (value_of value)) (values_in (triples_in (graph_of space.now.slots below) (resolve space.now.slots (value_of array))))) }
    ensures fault { IfErr result (λ e. e ≡ Fault.Memory) }
{
    let _count = space.len();
    for place in 0..space.arity(array) {
        match compare_item(alloc, space, value_at(space, array, place), value)? {
            Compared::Differs => (),
            Compared::Same => return Ok(Compared::Same),
            Compared::Deep => return Ok(Compared::Deep),
            Compared::Shell => return Ok(Compared::Shell),
        }
    }
    Ok(Compared::Differs)
}
