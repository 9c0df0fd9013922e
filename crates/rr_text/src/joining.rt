//! The text of an array whose elements are joined, by a stack of the arrays that are being joined.

ghost use Rattle.std.specs.Prelude.{◌≡◌, false, ℕ, Bool, ◌<◌, ◌≤◌, ◌∷◌, ◌++◌, [], List, length, IfOk, IfErr, OnOk};
ghost use Rattle.std.specs.List.{list_any};
ghost use Rattle.rr_space.specs.Graph.{Graph};
ghost use Rattle.rr_space.specs.Tables.{Below, graph_of, resolve};
ghost use Rattle.rr_space.specs.Parts.{value_of};
ghost use Rattle.rr_text.specs.Walk.{Wrote, followed};
ghost use Rattle.rr_text.specs.Forms.{Names, Piece, spelled, spoken, pieced};
ghost use Rattle.rr_text.specs.Same.{same_value, kind_in};
ghost use Rattle.rr_text.specs.Names.{names_of};
ghost use Rattle.rr_text.specs.Reads.{IsAmong, IsReadWith};
ghost use Rattle.rr_text.specs.Rest.{load};
ghost use Rattle.rr_text.specs.Frames.{breadth, lead_at};
ghost use Rattle.rr_text.specs.Joining.{joined, outcome_of, key_of, come_to, whole_of, showing_of, ahead, rest_of, AreAmong, IsGrown, IsEmptied};

use crate::beside::value_at;
use crate::form::Form;
use crate::likeness::is_one;
use crate::walk::{Going as Written, Walk};
use rr_base::{Fault, Limits};
use rr_space::{Kind, Ref, Space};
use rr_tree::Program;
use std::alloc::{AllocError, Global};

/// The text of an array whose elements are joined, or why it has none.
#[derive(Drop)]
pub enum Joined {
    Bytes(Vec<u8>),
    /// More containers stand inside one another than may be entered.
    Deep,
    /// An array stands inside itself.
    Circular,
    /// The array leads to an object that was moved away.
    Shell,
}

/// An array that is being joined, and the place of its next element.
#[derive(Clone, Copy)]
pub(crate) struct Opened {
    pub(crate) array: Ref,
    pub(crate) next: usize,
}

/// Whether the walk goes on.
#[derive(Clone, Copy)]
pub(crate) enum Going {
    On,
    Deep,
    Circular,
    Shell,
}

/// Whether it is the array that is being joined.
fn is_of(space: &Space, opened: &Opened, array: Ref) -> bool
    ensures { result ≡ same_value (resolve space.now.slots (value_of array)) (key_of space.now.slots opened.now) }
{
    is_one(space, array, opened.array)
}

/// Whether the array is one of those that are being joined.
fn is_above(space: &Space, arrays: &[Opened], array: Ref) -> bool
    ensures { result ≡ list_any (λ f. same_value (resolve space.now.slots (value_of array)) (key_of space.now.slots f)) arrays.now }
{
    arrays.iter().any(|opened| is_of(space, opened, array))
}

/// Writes what stands before an element; nothing before the first.
fn push_separator(out: &mut Vec<u8>, separator: &[u8], place: usize) -> Result<(), AllocError>
    ensures { OnOk result (out.new.items ≡ out.old.items ++ lead_at place separator.now) }
{
    if place > 0 {
        out.extend_from_slice(separator)?;
    }
    Ok(())
}

/// Writes a value that is no array.
fn write_value(
    walk: &mut Walk,
    space: &Space,
    program: &Program,
    levels: usize,
    value: Ref,
) -> Result<Going, AllocError>
    requires none { walk.old.frames.items ≡ [] }
    ensures written { IfOk result (λ now. (below : Below) → IsReadWith space.now below → IsAmong below value
        → followed (Wrote (spelled walk.old.out.items)) (pieced (names_of program.now) (graph_of space.now.slots below) (λ _. false) levels spoken (resolve space.now.slots (value_of value)))
        ≡ come_to now (spelled walk.new.out.items)) }
    ensures none { IfOk result (λ now. IsEmptied now walk.new.frames.items) }
{
    match walk.write(space, program, levels, Form::ToS, value)? {
        Written::On => Ok(Going::On),
        Written::Deep => Ok(Going::Deep),
        Written::Shell => Ok(Going::Shell),
    }
}

/// Begins an array, or tells that it is begun already, or that it would be too deep inside others.
fn begin(
    arrays: &mut Vec<Opened>,
    space: &Space,
    levels: usize,
    array: Ref,
) -> Result<Going, AllocError>
    requires fit { length arrays.old.items ≤ levels }
    ensures showed { IfOk result (λ going. (names : Names) (g : Graph) (asks : ℕ → Bool) (separator : List ℕ) (out : List Piece) → kind_in g (resolve space.now.slots (value_of array)) ≡ Kind.Array
        → showing_of names g asks levels separator space.now.slots arrays.old.items out (resolve space.now.slots (value_of array))
        ≡ ahead names g asks levels separator space.now.slots going arrays.new.items out) }
    ensures grown { IfOk result (λ _. IsGrown space.now levels arrays.old.items arrays.new.items) }
    ensures among { IfOk result (λ _. (below : Below) → AreAmong below arrays.old.items → IsAmong below array → AreAmong below arrays.new.items) }
{
    // The number of its elements bounds the turns that the array takes.
    let _count = space.arity(array);
    if is_above(space, arrays, array) {
        return Ok(Going::Circular);
    }
    if arrays.len() >= levels {
        return Ok(Going::Deep);
    }
    arrays.push(Opened { array, next: 0 })?;
    Ok(Going::On)
}

/// The arrays that are being joined, and what was written.
#[derive(Drop)]
pub(crate) struct Joining {
    pub(crate) arrays: Vec<Opened>,
    pub(crate) walk: Walk,
}

impl Joining {
    /// Writes a value, or begins an array.
    fn show(
        &mut self,
        space: &Space,
        program: &Program,
        levels: usize,
        value: Ref,
    ) -> Result<Going, AllocError>
        requires fit { length self.old.arrays.items ≤ levels }
        requires none { self.old.walk.frames.items ≡ [] }
        ensures showed { IfOk result (λ going. (below : Below) (separator : List ℕ) → IsReadWith space.now below → IsAmong below value
            → showing_of (names_of program.now) (graph_of space.now.slots below) (λ _. false) levels separator space.now.slots self.old.arrays.items (spelled self.old.walk.out.items) (resolve space.now.slots (value_of value))
            ≡ ahead (names_of program.now) (graph_of space.now.slots below) (λ _. false) levels separator space.now.slots going self.new.arrays.items (spelled self.new.walk.out.items)) }
        ensures grown { IfOk result (λ _. IsGrown space.now levels self.old.arrays.items self.new.arrays.items) }
        ensures none { IfOk result (λ going. IsEmptied going self.new.walk.frames.items) }
        ensures among { IfOk result (λ _. (below : Below) → AreAmong below self.old.arrays.items → IsAmong below value → AreAmong below self.new.arrays.items) }
    {
        // No reference leads nowhere, as the clause of the number says.
        let _count = space.len();
        match space.kind_of(value) {
            Kind::Array => {
                let going = begin(&mut self.arrays, space, levels, value)?;
                Ok(going)
            }
            _ => {
                let left = levels - self.arrays.len();
                let going = write_value(&mut self.walk, space, program, left, value)?;
                Ok(going)
            }
        }
    }

    /// Goes on with the array on top, which was taken off.
    fn step(
        &mut self,
        space: &Space,
        program: &Program,
        levels: usize,
        separator: &[u8],
        top: Opened,
    ) -> Result<Going, AllocError>
        requires depth { length self.old.arrays.items < levels }
        requires none { self.old.walk.frames.items ≡ [] }
        ensures stepped { IfOk result (λ going. (below : Below) → IsReadWith space.now below → IsAmong below top.array
            → whole_of (names_of program.now) (graph_of space.now.slots below) (λ _. false) levels separator.now space.now.slots (self.old.arrays.items ++ top ∷ []) (spelled self.old.walk.out.items)
            ≡ ahead (names_of program.now) (graph_of space.now.slots below) (λ _. false) levels separator.now space.now.slots going self.new.arrays.items (spelled self.new.walk.out.items)) }
        ensures fit { IfOk result (λ _. length self.new.arrays.items ≤ levels) }
        ensures none { IfOk result (λ going. IsEmptied going self.new.walk.frames.items) }
        ensures among { IfOk result (λ _. (below : Below) → IsReadWith space.now below → AreAmong below self.old.arrays.items → IsAmong below top.array → AreAmong below self.new.arrays.items) }
        ensures lighter { IfOk result (λ _. load (rest_of space.now) breadth levels self.new.arrays.items < load (rest_of space.now) breadth levels (self.old.arrays.items ++ top ∷ [])) }
    {
        let _count = space.len();
        if top.next >= space.arity(top.array) {
            return Ok(Going::On);
        }
        push_separator(&mut self.walk.out, separator, top.next)?;
        let value = value_at(space, top.array, top.next);
        self.arrays.push(Opened {
            array: top.array,
            next: top.next + 1,
        })?;
        let going = self.show(space, program, levels, value)?;
        Ok(going)
    }
}

/// The texts of the elements of an array with a separator between them, the elements of arrays in it among them: its bytes;
/// `Deep`, where more than 10,000 containers would be begun inside one another; `Circular`, where it comes to an array inside
/// itself; or `Shell`, where it comes to an object that was moved away. What comes first counts. `Memory` is the only fault.
///
/// An element that is no array is written as by `to_s`, an empty array as nothing. No method of the program is called: a
/// plain object is `#<Foo>`. It is exact in the graph of the space with any clusters among which are all that the space and
/// the array lead to, and of which no two have one number.
pub fn join(
    alloc: Global,
    space: &Space,
    program: &Program,
    array: Ref,
    separator: &[u8],
) -> Result<Joined, Fault>
    ensures is { IfOk result (λ joint. (below : Below) → IsReadWith space.now below → IsAmong below array
        → outcome_of joint ≡ joined (names_of program.now) (graph_of space.now.slots below) Limits.DEFAULT.levels separator.now (resolve space.now.slots (value_of array))) }
    ensures fault { IfErr result (λ e. e ≡ Fault.Memory) }
{
    let levels = Limits::DEFAULT.levels as usize;
    join_within(alloc, space, program, levels, array, separator)
}

/// The text of an array, as `join` gives it, where at most `levels` containers may be begun inside one another.
pub fn join_within(
    alloc: Global,
    space: &Space,
    program: &Program,
    levels: usize,
    array: Ref,
    separator: &[u8],
) -> Result<Joined, Fault>
    ensures is { IfOk result (λ joint. (below : Below) → IsReadWith space.now below → IsAmong below array
        → outcome_of joint ≡ joined (names_of program.now) (graph_of space.now.slots below) levels separator.now (resolve space.now.slots (value_of array))) }
    ensures fault { IfErr result (λ e. e ≡ Fault.Memory) }
{
    let mut joining = Joining {
        arrays: Vec::new(alloc),
        walk: Walk::new(alloc),
    };
    match joining.show(space, program, levels, array)? {
        Going::On => (),
        Going::Deep => return Ok(Joined::Deep),
        Going::Circular => return Ok(Joined::Circular),
        Going::Shell => return Ok(Joined::Shell),
    }
    while let Some(top) = joining.arrays.pop() {
        match joining.step(space, program, levels, separator, top)? {
            Going::On => (),
            Going::Deep => return Ok(Joined::Deep),
            Going::Circular => return Ok(Joined::Circular),
            Going::Shell => return Ok(Joined::Shell),
        }
    }
    let walk = joining.walk;
    Ok(Joined::Bytes(walk.out))
}
