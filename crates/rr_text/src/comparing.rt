//! Whether two values are equal, by a stack of the containers that are being compared.

ghost use Rattle.std.specs.Prelude.{◌≡◌, ◌<◌, ◌≤◌, ◌∷◌, ◌++◌, [], ℕ, List, length, IfOk, IfErr};
ghost use Rattle.std.specs.List.{list_any};
ghost use Rattle.rr_space.specs.Tables.{Below, Slot, resolve};
ghost use Rattle.rr_space.specs.Parts.{value_of};
ghost use Rattle.rr_text.specs.Keys.{Reading, reading};
ghost use Rattle.rr_text.specs.Comparing.{Pair, same_pair, look_pair, compared};
ghost use Rattle.rr_text.specs.Reads.{IsAmong, IsReadWith};
ghost use Rattle.rr_text.specs.Rest.{load, showing, whole};
ghost use Rattle.rr_text.specs.Frames.{breadth};
ghost use Rattle.rr_text.specs.Beside.{resolved, look_of, outcome_of, key_of, begun_of, sides_of, AreSidesAmong, AreAmong, IsGrown, ahead};
ghost use Rattle.rr_text.specs.declared.sight.Sight.TheVariants as sights;

use crate::beside::Sides;
use crate::likeness::is_one;
use crate::sight::{Compared, Sight, sight_at};
use rr_base::{Fault, Limits};
use rr_space::{Ref, Space};
use std::alloc::{AllocError, Global};

/// Two containers that are being compared, and the values in them.
#[derive(Drop)]
pub(crate) struct Beside {
    pub(crate) left: Ref,
    pub(crate) right: Ref,
    pub(crate) sides: Vec<Sides>,
    /// The place of the next values.
    pub(crate) next: usize,
}

/// Whether a frame compares these two.
fn is_of(space: &Space, frame: &Beside, left: Ref, right: Ref) -> bool
    ensures { result ≡ same_pair (resolved space.now.slots (record { left = left; right = right })) (key_of space.now.slots frame.now) }
{
    is_one(space, left, frame.left) && is_one(space, right, frame.right)
}

/// Whether one of the frames compares these two.
fn is_above(space: &Space, frames: &[Beside], left: Ref, right: Ref) -> bool
    ensures { result ≡ list_any (λ f. same_pair (resolved space.now.slots (record { left = left; right = right })) (key_of space.now.slots f)) frames.now }
{
    frames.iter().any(|frame| is_of(space, frame, left, right))
}

/// Begins two containers, or tells that they are begun already, or that they would be too deep inside others.
fn begin(
    frames: &mut Vec<Beside>,
    space: &Space,
    levels: usize,
    left: Ref,
    right: Ref,
    sides: Vec<Sides>,
) -> Result<Compared, AllocError>
    requires fit { length frames.old.items ≤ levels }
    ensures showed { IfOk result (λ now. (r : Reading) → look_pair r (resolved space.now.slots (record { left = left; right = right })) ≡ look_of space.now.slots (resolved space.now.slots (record { left = left; right = right })) (sights.Inside sides)
        → showing (look_pair r) same_pair (begun_of space.now.slots) levels frames.old.items [] (resolved space.now.slots (record { left = left; right = right })) ≡ ahead r space.now.slots levels now frames.new.items) }
    ensures grown { IfOk result (λ _. IsGrown levels frames.old.items frames.new.items) }
    ensures among { IfOk result (λ _. (below : Below) → AreAmong below frames.old.items → AreSidesAmong below sides.items → AreAmong below frames.new.items) }
{
    if is_above(space, frames, left, right) {
        return Ok(Compared::Same);
    }
    if frames.len() >= levels {
        return Ok(Compared::Deep);
    }
    frames.push(Beside {
        left,
        right,
        sides,
        next: 0,
    })?;
    Ok(Compared::Same)
}

/// Compares two values, or begins to.
fn show(
    alloc: Global,
    frames: &mut Vec<Beside>,
    space: &Space,
    levels: usize,
    values: Sides,
) -> Result<Compared, AllocError>
    requires fit { length frames.old.items ≤ levels }
    ensures showed { IfOk result (λ now. (below : Below) → IsReadWith space.now below → IsAmong below values.left → IsAmong below values.right
        → showing (look_pair (reading space.now below)) same_pair (begun_of space.now.slots) levels frames.old.items [] (resolved space.now.slots values) ≡ ahead (reading space.now below) space.now.slots levels now frames.new.items) }
    ensures grown { IfOk result (λ _. IsGrown levels frames.old.items frames.new.items) }
    ensures among { IfOk result (λ _. (below : Below) → IsReadWith space.now below → AreAmong below frames.old.items → IsAmong below values.left → IsAmong below values.right → AreAmong below frames.new.items) }
{
    match sight_at(alloc, space, values.left, values.right)? {
        Sight::Decided(now) => Ok(now),
        Sight::Inside(sides) => {
            let now = begin(frames, space, levels, values.left, values.right, sides)?;
            Ok(now)
        }
    }
}

/// Goes on with the containers on top, which were taken off.
fn step(
    alloc: Global,
    frames: &mut Vec<Beside>,
    space: &Space,
    levels: usize,
    top: Beside,
) -> Result<Compared, AllocError>
    requires depth { length frames.old.items < levels }
    ensures stepped { IfOk result (λ now. (below : Below) → IsReadWith space.now below → AreSidesAmong below top.sides.items
        → whole (look_pair (reading space.now below)) same_pair (begun_of space.now.slots) levels (frames.old.items ++ top ∷ []) [] ≡ ahead (reading space.now below) space.now.slots levels now frames.new.items) }
    ensures fit { IfOk result (λ _. length frames.new.items ≤ levels) }
    ensures among { IfOk result (λ _. (below : Below) → IsReadWith space.now below → AreAmong below frames.old.items → AreSidesAmong below top.sides.items → AreAmong below frames.new.items) }
    ensures lighter { IfOk result (λ _. load sides_of breadth levels frames.new.items < load sides_of breadth levels (frames.old.items ++ top ∷ [])) }
{
    if top.next >= top.sides.len() {
        return Ok(Compared::Same);
    }
    let values = top.sides[top.next];
    frames.push(Beside {
        left: top.left,
        right: top.right,
        sides: top.sides,
        next: top.next + 1,
    })?;
    let now = show(alloc, frames, space, levels, values)?;
    Ok(now)
}

/// Whether two values are equal, or why that is not told: `Deep`, where more than 10,000 containers would be begun inside
/// one another; or `Shell`, where it comes to an object that was moved away. What comes first counts. `Memory` is the only
/// fault.
///
/// Immediates are compared by value, texts by their bytes, arrays by their elements, hashes by the values under their keys,
/// in any order, and other objects are equal to themselves alone. Two containers that are being compared already count as equal. No method
/// of the program is called. It is exact in the graph of the space with any clusters among which are all that the space and
/// the values lead to, and of which no two have one number.
pub fn compare(alloc: Global, space: &Space, left: Ref, right: Ref) -> Result<Compared, Fault>
    ensures is { IfOk result (λ now. (below : Below) → IsReadWith space.now below → IsAmong below left → IsAmong below right
        → outcome_of now ≡ compared (reading space.now below) Limits.DEFAULT.levels (resolve space.now.slots (value_of left)) (resolve space.now.slots (value_of right))) }
    ensures fault { IfErr result (λ e. e ≡ Fault.Memory) }
{
    let levels = Limits::DEFAULT.levels as usize;
    compare_within(alloc, space, levels, left, right)
}

/// Whether two values are equal, as `compare` tells it, where at most `levels` containers may be begun inside one another.
pub fn compare_within(
    alloc: Global,
    space: &Space,
    levels: usize,
    left: Ref,
    right: Ref,
) -> Result<Compared, Fault>
    ensures is { IfOk result (λ now. (below : Below) → IsReadWith space.now below → IsAmong below left → IsAmong below right
        → outcome_of now ≡ compared (reading space.now below) levels (resolve space.now.slots (value_of left)) (resolve space.now.slots (value_of right))) }
    ensures fault { IfErr result (λ e. e ≡ Fault.Memory) }
{
    let mut frames = Vec::new(alloc);
    match show(alloc, &mut frames, space, levels, Sides { left, right })? {
        Compared::Same => (),
        Compared::Differs => return Ok(Compared::Differs),
        Compared::Deep => return Ok(Compared::Deep),
        Compared::Shell => return Ok(Compared::Shell),
    }
    while let Some(top) = frames.pop() {
        match step(alloc, &mut frames, space, levels, top)? {
            Compared::Same => (),
            Compared::Differs => return Ok(Compared::Differs),
            Compared::Deep => return Ok(Compared::Deep),
            Compared::Shell => return Ok(Compared::Shell),
        }
    }
    Ok(Compared::Same)
}
