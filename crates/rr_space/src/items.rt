//! The elements of an array.

ghost use Rattle.std.specs.Prelude.{ℕ, ◌≡◌, ◌-◌, ◌<◌, ◌^◌, [], ◌∷◌, ◌++◌, length, map, remove, slice_get, slice_set, vec_len, Some, IfOk, IfErr};
ghost use Rattle.rr_space.specs.Views.{ref_behind};
ghost use Rattle.rr_space.specs.Parts.{places_from};
ghost use Rattle.rr_space.specs.Parts.{AllWithin};
ghost use Rattle.std.specs.List.{AllZip};
ghost use Rattle.rr_space.specs.declared.refer.Ref.{Ref as RefView};

use crate::behind::refs_behind;
use crate::refer::Ref;
use crate::renumber::{Renumber, renumber_refs};
use crate::replace::replace_at;
use crate::shifted::Shifted;
use rr_base::Fault;
use std::alloc::Global;
use std::marker::Model;
use std::mem;

/// The elements of an array. Up to two of them lie in place, without memory of their own.
#[derive(Drop)]
pub struct Items {
    kept: Kept,
}

#[derive(Drop)]
enum Kept {
    Empty(Global),
    One(Global, Ref),
    Two(Global, Ref, Ref),
    Many(Vec<Ref>),
    /// Many, of which some were taken from the front.
    Late(Shifted),
}

impl Model for Items {
    ghost use Rattle.std.specs.Prelude.{List};
    ghost use Rattle.rr_space.specs.declared.refer.Ref.{Ref};

    ghost Value = { List Ref };

    ghost use Rattle.rr_space.specs.Elements.{kept_items};

    ghost view = { λ a. kept_items a.kept };
}

impl Items {
    /// No elements.
    pub fn new(alloc: Global) -> Items
        ensures { result ≡ [] }
    {
        Items {
            kept: Kept::Empty(alloc),
        }
    }

    /// One element.
    pub fn one(alloc: Global, item: Ref) -> Items
        ensures { result ≡ item ∷ [] }
    {
        Items {
            kept: Kept::One(alloc, item),
        }
    }

    /// Two elements.
    pub fn two(alloc: Global, first: Ref, second: Ref) -> Items
        ensures { result ≡ first ∷ second ∷ [] }
    {
        Items {
            kept: Kept::Two(alloc, first, second),
        }
    }

    /// The elements of a vector.
    pub fn from_vec(items: Vec<Ref>) -> Items
        ensures { result ≡ items.items }
    {
        Items {
            kept: Kept::Many(items),
        }
    }

    /// Elements of which some were taken from the front.
    fn late(items: Shifted) -> Items
        ensures { result ≡ items }
    {
        Items {
            kept: Kept::Late(items),
        }
    }

    /// The number of elements.
    pub fn len(&self) -> usize
        ensures { result ≡ length self.now }
    {
        match &self.kept {
            Kept::Empty(_) => 0,
            Kept::One(_, _) => 1,
            Kept::Two(_, _, _) => 2,
            Kept::Many(items) => items.len(),
            Kept::Late(items) => items.len(),
        }
    }

    /// The `k`-th element.
    #[inline(always)]
    pub fn get(&self, k: usize) -> Option<Ref>
        ensures { result ≡ slice_get self.now k }
    {
        match &self.kept {
            Kept::One(_, item) if k == 0 => Some(*item),
            Kept::Two(_, first, _) if k == 0 => Some(*first),
            Kept::Two(_, _, second) if k == 1 => Some(*second),
            Kept::Many(items) if k < items.len() => Some(items[k]),
            Kept::Late(items) => items.get(k),
            _ => None,
        }
    }

    /// The elements with `item` behind them, and whether there was memory for it; else as they are.
    pub fn with(self, item: Ref) -> (Items, Result<(), Fault>)
        ensures pushed { IfOk result.1 (λ _. result.0 ≡ self ++ item ∷ []) }
        ensures refused { IfErr result.1 (λ _. result.0 ≡ self) }
        ensures fault { IfErr result.1 (λ e. e ≡ Fault.Memory) }
    {
        let Items { kept } = self;
        match kept {
            Kept::Empty(alloc) => (Items::one(alloc, item), Ok(())),
            Kept::One(alloc, first) => (Items::two(alloc, first, item), Ok(())),
            Kept::Two(alloc, first, second) => match three(alloc, first, second, item) {
                Ok(items) => (Items::from_vec(items), Ok(())),
                Err(fault) => (Items::two(alloc, first, second), Err(fault)),
            },
            Kept::Many(mut items) => match items.push(item) {
                Ok(()) => (Items::from_vec(items), Ok(())),
                Err(_) => (Items::from_vec(items), Err(Fault::Memory)),
            },
            Kept::Late(mut items) => match items.push(item) {
                Ok(()) => (Items::late(items), Ok(())),
                Err(fault) => (Items::late(items), Err(fault)),
            },
        }
    }

    /// Puts `item` behind the others.
    #[inline(always)]
    pub(crate) fn push(&mut self, item: Ref) -> Result<(), Fault>
        ensures pushed { IfOk result (λ _. self.new ≡ self.old ++ item ∷ []) }
        ensures refused { IfErr result (λ _. self.new ≡ self.old) }
        ensures fault { IfErr result (λ e. e ≡ Fault.Memory) }
    {
        match &mut self.kept {
            Kept::Many(items) => match items.push(item) {
                Ok(()) => Ok(()),
                Err(_) => Err(Fault::Memory),
            },
            Kept::Late(items) => items.push(item),
            _ => self.remake_with(item),
        }
    }

    /// The same where what is there is kept in another way then. All of it is moved out and in again.
    fn remake_with(&mut self, item: Ref) -> Result<(), Fault>
        ensures pushed { IfOk result (λ _. self.new ≡ self.old ++ item ∷ []) }
        ensures refused { IfErr result (λ _. self.new ≡ self.old) }
        ensures fault { IfErr result (λ e. e ≡ Fault.Memory) }
    {
        let none = Items::new(self.allocator());
        let (items, pushed) = mem::replace(self, none).with(item);
        *self = items;
        pushed
    }

    /// Puts `item` in the place of the `k`-th element.
    #[inline(always)]
    pub(crate) fn set(&mut self, k: usize, item: Ref)
        requires { k < length self.old }
        ensures { self.new ≡ slice_set self.old k item }
    {
        match &mut self.kept {
            Kept::Empty(_) => (),
            Kept::One(_, first) => *first = item,
            Kept::Two(_, first, _) if k == 0 => *first = item,
            Kept::Two(_, _, second) => *second = item,
            Kept::Many(items) => {
                replace_at(items, k, item);
            }
            Kept::Late(items) => items.set(k, item),
        }
    }

    /// The elements, once the slots that they lead to stand behind `count` others. Takes no memory.
    pub(crate) fn behind(self, count: u32) -> Items
        requires { AllWithin (2 ^ 32 - count) (places_from 0 self) }
        ensures { result ≡ map (ref_behind count) self }
    {
        let Items { kept } = self;
        match kept {
            Kept::Empty(alloc) => Items::new(alloc),
            Kept::One(alloc, item) => Items::one(alloc, item.behind(count)),
            Kept::Two(alloc, first, second) => {
                Items::two(alloc, first.behind(count), second.behind(count))
            }
            Kept::Many(mut items) => {
                refs_behind(&mut items, count);
                Items::from_vec(items)
            }
            Kept::Late(items) => {
                let mut items = items.into_vec();
                refs_behind(&mut items, count);
                Items::from_vec(items)
            }
        }
    }

    /// The elements renumbered.
    pub(crate) fn renumbered<R: Renumber>(self, by: &R) -> Items
        requires { (k : ℕ) (r : RefView) → slice_get self k ≡ Some r → R.may by.now r }
        ensures { AllZip (R.gives by.now) self result }
    {
        let Items { kept } = self;
        match kept {
            Kept::Empty(alloc) => Items::new(alloc),
            Kept::One(alloc, item) => Items::one(alloc, by.renumbered(item)),
            Kept::Two(alloc, first, second) => {
                Items::two(alloc, by.renumbered(first), by.renumbered(second))
            }
            Kept::Many(mut items) => {
                renumber_refs(&mut items, by);
                Items::from_vec(items)
            }
            Kept::Late(items) => {
                let mut items = items.into_vec();
                renumber_refs(&mut items, by);
                Items::from_vec(items)
            }
        }
    }

    /// Takes the `k`-th element away. Taking all elements from the front costs a few moves each, however many there are.
    #[inline(always)]
    pub(crate) fn remove(&mut self, k: usize)
        requires { k < length self.old }
        ensures { self.new ≡ remove self.old k }
    {
        match &mut self.kept {
            Kept::Many(items) if k > 0 || items.len() <= FEW => {
                items.remove(k);
            }
            Kept::Late(items) if k == 0 && !items.is_mostly_taken() => items.take_first(),
            _ => self.remake_without(k),
        }
    }

    /// The same where what is left may be kept in another way. All of it is moved out and in again.
    fn remake_without(&mut self, k: usize)
        requires { k < length self.old }
        ensures { self.new ≡ remove self.old k }
    {
        let none = Items::new(self.allocator());
        let items = mem::replace(self, none);
        *self = items.without(k);
    }

    fn allocator(&self) -> Global {
        match &self.kept {
            Kept::Empty(alloc) => *alloc,
            Kept::One(alloc, _) => *alloc,
            Kept::Two(alloc, _, _) => *alloc,
            Kept::Many(items) => *items.allocator(),
            Kept::Late(items) => items.allocator(),
        }
    }

    /// The elements without the `k`-th.
    fn without(self, k: usize) -> Items
        requires { k < length self }
        ensures { result ≡ remove self k }
    {
        let Items { kept } = self;
        match kept {
            Kept::Empty(alloc) => Items::new(alloc),
            Kept::One(alloc, _) => Items::new(alloc),
            Kept::Two(alloc, first, second) => {
                if k == 0 {
                    Items::one(alloc, second)
                } else {
                    Items::one(alloc, first)
                }
            }
            Kept::Many(items) => without_one(items, k),
            Kept::Late(mut items) => {
                if k == 0 {
                    items.take_first();
                    shortened(items)
                } else {
                    without_one(items.into_vec(), k)
                }
            }
        }
    }
}

/// A vector of fewer elements is moved up as a whole where its first is taken.
const FEW: usize = 16;

/// The elements of the vector without the `k`-th.
fn without_one(items: Vec<Ref>, k: usize) -> Items
    requires { k < vec_len items }
    ensures { result ≡ remove items.items k }
{
    if k == 0 && items.len() > FEW {
        return Items::late(Shifted::new(items));
    }
    let mut items = items;
    items.remove(k);
    Items::from_vec(items)
}

/// The elements, in a vector of their own once most of theirs was taken.
fn shortened(items: Shifted) -> Items
    ensures { result ≡ items }
{
    if items.is_mostly_taken() {
        Items::from_vec(items.into_vec())
    } else {
        Items::late(items)
    }
}

/// Three elements in memory of their own, with room for as many again.
fn three(alloc: Global, first: Ref, second: Ref, third: Ref) -> Result<Vec<Ref>, Fault>
    ensures made { IfOk result (λ v. v.items ≡ first ∷ second ∷ third ∷ []) }
    ensures fault { IfErr result (λ e. e ≡ Fault.Memory) }
{
    let mut items = Vec::with_capacity(alloc, 4)?;
    items.push(first)?;
    items.push(second)?;
    items.push(third)?;
    Ok(items)
}
