//! The values that stand in arrays, as `puts` and `join` come to them.

ghost use Rattle.std.specs.Prelude.{◌≡◌, ◌<◌, ◌≤◌, ◌++◌, ◌∷◌, [], length, Option, Some, None, Ok, Err, IfOk, IfErr, IfSome, OnOk};
ghost use Rattle.std.specs.List.{All, list_any};
ghost use Rattle.std.specs.Option.{option_map};
ghost use Rattle.rr_frames.specs.Frames.{list_of};
ghost use Rattle.rr_space.specs.Kinds.{kind_at};
ghost use Rattle.rr_space.specs.Tables.{Below};
ghost use Rattle.rr_builtin.specs.Objects.{identical};
ghost use Rattle.rr_text.specs.Comparing.{all_there};
ghost use Rattle.rr_text.specs.Frames.{breadth};
ghost use Rattle.rr_text.specs.Rest.{load};
ghost use Rattle.rr_eval.specs.Leaves.{element, leaves_in, all_leaves, leaves_of, between, behind_each, found_in, whole_of, showing_of, ahead, rest_of, IsGrown, IsComeAgain, IsItemReached, AreItemsReached, AreOpenedReached, IsFoundReached};
ghost use Rattle.rr_eval.specs.Within.{Reach, reach, IsReached};

use crate::iterating::own;
use crate::problem::Problem;
use rr_base::Limits;
use rr_builtin::{Problem as BuiltInProblem, Round, item_at};
use rr_space::{Kind, Ref, Space};
use std::alloc::{AllocError, Global};

/// What takes arrays apart.
#[derive(Clone, Copy)]
pub enum Taking {
    /// `puts`: an array that it comes to again inside itself stays.
    Lines,
    /// `join`, for which no array may stand inside itself.
    Joint,
}

/// An array that is being taken apart, and the place of its next element.
#[derive(Clone, Copy)]
pub struct Opened {
    pub array: Ref,
    pub next: usize,
}

/// Whether the walk goes on.
#[derive(Clone, Copy)]
pub enum Going {
    On,
    /// More arrays stand inside one another than may be begun.
    Deep,
    /// An array that would be joined stands inside itself.
    Circular,
}

/// The values that were found, or why none are. None stands for a published one that is not known.
#[derive(Drop)]
pub enum Found {
    Items(Vec<Option<Ref>>),
    Deep,
    Circular,
}

/// Whether it is one of the arrays that are being taken apart.
fn is_above(space: &Space, arrays: &[Opened], array: Ref) -> bool
    ensures { result ≡ list_any (λ f. identical space.now array f.array) arrays.now }
{
    arrays
        .iter()
        .any(|opened| is_identical(space, array, opened.array))
}

/// Whether two references lead to one object.
pub fn is_identical(space: &Space, left: Ref, right: Ref) -> bool
    ensures { result ≡ identical space.now left right }
{
    space.same(left, right)
}

/// The element at a place of an array; none where it is published and not known.
fn element(space: &Space, array: Ref, place: usize) -> Option<Ref>
    ensures is { result ≡ element space.now array place }
    ensures within { (clusters : Option Below) → IsItemReached (reach (length space.now.slots) clusters) result }
{
    match item_at(space, array, place) {
        Round::Item(item) => own(space, item),
        Round::Absent => None,
        Round::Moved => None,
    }
}

/// The arrays that are being taken apart, and what was found.
#[derive(Drop)]
struct Taken {
    arrays: Vec<Opened>,
    found: Vec<Option<Ref>>,
}

impl Taken {
    /// Begins an array. For an empty one stands nil.
    fn begin(
        &mut self,
        space: &Space,
        how: Taking,
        levels: usize,
        array: Ref,
    ) -> Result<Going, AllocError>
        requires fit { length self.old.arrays.items ≤ levels }
        requires array { kind_at space.now array ≡ Kind.Array }
        ensures showed { IfOk result (λ going. showing_of how space.now levels self.old.arrays.items self.old.found.items (Some array) ≡ ahead how space.now levels going self.new.arrays.items self.new.found.items) }
        ensures grown { IfOk result (λ _. IsGrown space.now levels self.old.arrays.items self.new.arrays.items) }
        ensures opened { (k : Reach) → AreOpenedReached k self.old.arrays.items → IsReached k array → IfOk result (λ _. AreOpenedReached k self.new.arrays.items) }
        ensures found { (k : Reach) → AreItemsReached k self.old.found.items → IsReached k array → IfOk result (λ _. AreItemsReached k self.new.found.items) }
    {
        if space.arity(array) == 0 {
            self.found.push(Some(Ref::Nil))?;
            return Ok(Going::On);
        }
        if is_above(space, &self.arrays, array) {
            let going = self.come_again(how, array)?;
            return Ok(going);
        }
        if self.arrays.len() >= levels {
            return Ok(Going::Deep);
        }
        self.arrays.push(Opened { array, next: 0 })?;
        Ok(Going::On)
    }

    /// Comes to an array that is being taken apart.
    fn come_again(&mut self, how: Taking, array: Ref) -> Result<Going, AllocError>
        ensures arrays { self.new.arrays.items ≡ self.old.arrays.items }
        ensures found { IfOk result (λ going. IsComeAgain how array going self.old.found.items self.new.found.items) }
    {
        match how {
            Taking::Lines => {
                self.found.push(Some(array))?;
                Ok(Going::On)
            }
            Taking::Joint => Ok(Going::Circular),
        }
    }

    /// Finds a value, or begins an array.
    fn show(
        &mut self,
        space: &Space,
        how: Taking,
        levels: usize,
        item: Option<Ref>,
    ) -> Result<Going, AllocError>
        requires fit { length self.old.arrays.items ≤ levels }
        ensures showed { IfOk result (λ going. showing_of how space.now levels self.old.arrays.items self.old.found.items item ≡ ahead how space.now levels going self.new.arrays.items self.new.found.items) }
        ensures grown { IfOk result (λ _. IsGrown space.now levels self.old.arrays.items self.new.arrays.items) }
        ensures opened { (k : Reach) → AreOpenedReached k self.old.arrays.items → IsItemReached k item → IfOk result (λ _. AreOpenedReached k self.new.arrays.items) }
        ensures found { (k : Reach) → AreItemsReached k self.old.found.items → IsItemReached k item → IfOk result (λ _. AreItemsReached k self.new.found.items) }
    {
        match item {
            None => {
                self.found.push(None)?;
                Ok(Going::On)
            }
            Some(value) => match space.kind_of(value) {
                Kind::Array => {
                    let going = self.begin(space, how, levels, value)?;
                    Ok(going)
                }
                _ => {
                    self.found.push(Some(value))?;
                    Ok(Going::On)
                }
            },
        }
    }

    /// Goes on with the array on top, which was taken off.
    fn step(
        &mut self,
        space: &Space,
        how: Taking,
        levels: usize,
        top: Opened,
    ) -> Result<Going, AllocError>
        requires depth { length self.old.arrays.items < levels }
        ensures stepped { IfOk result (λ going. whole_of how space.now levels (self.old.arrays.items ++ top ∷ []) self.old.found.items ≡ ahead how space.now levels going self.new.arrays.items self.new.found.items) }
        ensures fit { IfOk result (λ _. length self.new.arrays.items ≤ levels) }
        ensures lighter { IfOk result (λ _. load (rest_of space.now) breadth levels self.new.arrays.items < load (rest_of space.now) breadth levels (self.old.arrays.items ++ top ∷ [])) }
        ensures opened { (clusters : Option Below) → AreOpenedReached (reach (length space.now.slots) clusters) self.old.arrays.items → IsReached (reach (length space.now.slots) clusters) top.array → IfOk result (λ _. AreOpenedReached (reach (length space.now.slots) clusters) self.new.arrays.items) }
        ensures found { (clusters : Option Below) → AreItemsReached (reach (length space.now.slots) clusters) self.old.found.items → IfOk result (λ _. AreItemsReached (reach (length space.now.slots) clusters) self.new.found.items) }
    {
        if top.next >= space.arity(top.array) {
            return Ok(Going::On);
        }
        let item = element(space, top.array, top.next);
        self.arrays.push(Opened {
            array: top.array,
            next: top.next + 1,
        })?;
        let going = self.show(space, how, levels, item)?;
        Ok(going)
    }
}

/// The values that stand in a value, where at most `levels` arrays may be begun inside one another.
fn leaves_in(
    alloc: Global,
    space: &Space,
    how: Taking,
    levels: usize,
    value: Ref,
) -> Result<Found, AllocError>
    ensures are { IfOk result (λ found. found_in found ≡ leaves_in how space.now levels value) }
    ensures within { (clusters : Option Below) → IsReached (reach (length space.now.slots) clusters) value → IfOk result (IsFoundReached (reach (length space.now.slots) clusters)) }
{
    let mut leaves = Taken {
        arrays: Vec::new(alloc),
        found: Vec::new(alloc),
    };
    match leaves.show(space, how, levels, Some(value))? {
        Going::On => (),
        Going::Deep => return Ok(Found::Deep),
        Going::Circular => return Ok(Found::Circular),
    }
    while let Some(top) = leaves.arrays.pop() {
        match leaves.step(space, how, levels, top)? {
            Going::On => (),
            Going::Deep => return Ok(Found::Deep),
            Going::Circular => return Ok(Found::Circular),
        }
    }
    Ok(Found::Items(leaves.found))
}

/// The values that stand in values, from left to right.
fn all_leaves(
    alloc: Global,
    space: &Space,
    how: Taking,
    levels: usize,
    values: &[Ref],
) -> Result<Found, AllocError>
    ensures are { IfOk result (λ found. found_in found ≡ all_leaves how space.now levels values.now) }
    ensures within { (clusters : Option Below) → All (IsReached (reach (length space.now.slots) clusters)) values.now → IfOk result (IsFoundReached (reach (length space.now.slots) clusters)) }
{
    let mut items = Vec::new(alloc);
    let mut rest = values;
    while let [value, more @ ..] = rest {
        rest = more;
        match leaves_in(alloc, space, how, levels, *value)? {
            Found::Items(found) => items.extend_from_slice(found.as_slice())?,
            Found::Deep => return Ok(Found::Deep),
            Found::Circular => return Ok(Found::Circular),
        }
    }
    Ok(Found::Items(items))
}

/// The values, where each of them that is published is known.
fn all_own(alloc: Global, items: &[Option<Ref>]) -> Result<Option<Vec<Ref>>, AllocError>
    ensures are { IfOk result (λ values. option_map (λ vs. vs.items) values ≡ all_there items.now) }
    ensures within { (k : Reach) → AreItemsReached k items.now → IfOk result (λ values. IfSome values (λ vs. All (IsReached k) vs.items)) }
{
    let mut values = Vec::new(alloc);
    let mut rest = items;
    while let [item, more @ ..] = rest {
        rest = more;
        match *item {
            Some(value) => values.push(value)?,
            None => return Ok(None),
        }
    }
    Ok(Some(values))
}

/// The values that stand in values, from left to right, or why they are not told.
pub fn leaves(
    alloc: Global,
    space: &Space,
    how: Taking,
    values: &[Ref],
) -> Result<Result<Vec<Ref>, Problem>, AllocError>
    ensures leaves { IfOk result (λ r. IfOk r (λ leaves. leaves_of how space.now values.now ≡ Ok leaves.items)) }
    ensures problem { IfOk result (λ r. IfErr r (λ e. leaves_of how space.now values.now ≡ Err e)) }
    ensures within { (clusters : Option Below) → All (IsReached (reach (length space.now.slots) clusters)) values.now → IfOk result (λ r. IfOk r (λ leaves. All (IsReached (reach (length space.now.slots) clusters)) leaves.items)) }
{
    let levels = Limits::DEFAULT.levels as usize;
    match all_leaves(alloc, space, how, levels, values)? {
        Found::Items(items) => match all_own(alloc, items.as_slice())? {
            Some(leaves) => Ok(Ok(leaves)),
            None => Ok(Err(Problem::NotHere)),
        },
        Found::Deep => Ok(Err(Problem::BuiltIn(BuiltInProblem::TooDeep))),
        Found::Circular => Ok(Err(Problem::BuiltIn(BuiltInProblem::Circular))),
    }
}

/// Values with another one between them.
pub fn between(alloc: Global, separator: Ref, values: &[Ref]) -> Result<Vec<Ref>, AllocError>
    ensures are { IfOk result (λ all. all.items ≡ between separator values.now) }
    ensures within { (k : Reach) → IsReached k separator → All (IsReached k) values.now → IfOk result (λ all. All (IsReached k) all.items) }
{
    let mut all = Vec::new(alloc);
    let [first, others @ ..] = values else {
        return Ok(all);
    };
    all.push(*first)?;
    let mut rest = others;
    while let [value, more @ ..] = rest {
        rest = more;
        all.push(separator)?;
        all.push(*value)?;
    }
    Ok(all)
}
