//! Outer names in the order of their first uses.

ghost use Rattle.std.specs.Prelude.{◌≡◌, ℕ, List, IfErr, IfOk, OnOk, map, nat_eq, IsSortedBy};
ghost use Rattle.std.specs.List.{IsDistinct};
ghost use Rattle.std.specs.Ordering.{is_lt};
ghost use Rattle.indexmap.specs.IndexMap.{get, keys};
ghost use Rattle.rr_tree.specs.Tree.{Tree};
ghost use Rattle.rr_isolation.specs.Finds.{AreUses, Describes};
ghost use Rattle.rr_isolation.specs.Names.{names_used};
ghost use Rattle.rr_isolation.specs.Outer.{AreOuterNames, is_earlier};

use crate::found::Found;
use indexmap::IndexMap;
use rr_base::{Fault, Sym};
use std::alloc::{AllocError, Global};
use std::cmp::Ordering;

/// More words stand behind an earlier use; of two at one place the smaller name comes first. Each use has its name and the words behind it.
fn compare_uses(left: (u32, u32), right: (u32, u32)) -> Ordering
    ensures { is_lt result ≡ is_earlier left right }
{
    match right.1.cmp(&left.1) {
        Ordering::Less => Ordering::Less,
        Ordering::Greater => Ordering::Greater,
        Ordering::Equal => left.0.cmp(&right.0),
    }
}

/// Sorts names by their first uses.
fn sort_by_first_use(first: &mut IndexMap<u32, u32>) -> Result<(), AllocError>
    ensures sorted { OnOk result (IsSortedBy is_earlier first.new.entries) }
    ensures same { (name : ℕ) → get nat_eq first.new name ≡ get nat_eq first.old name }
    ensures once { IsDistinct nat_eq (keys first.new) }
{
    first.sort_by(|x, left, y, right| compare_uses((*x, *left), (*y, *right)))?;
    Ok(())
}

/// The names, in their order.
fn names_of(alloc: Global, first: &IndexMap<u32, u32>) -> Result<Vec<Sym>, AllocError>
    ensures { IfOk result (λ names. names.items ≡ map (λ name. record { 0 = name }) (keys first.now)) }
{
    first.keys().map(|name| Sym(*name)).collect(alloc)
}

/// The outer names of a block in the order of their first uses, as they were found. `Memory` is the only fault.
pub(crate) fn names_in_order(alloc: Global, found: Found) -> Result<Vec<Sym>, Fault>
    ensures names { IfOk result (λ names. (t : Tree) → Describes found t → AreOuterNames t (map (λ s. s.0) names.items)) }
    ensures told { IfOk result (λ names. (t : Tree) (us : List (ℕ × ℕ)) → Describes found t → AreUses t us → map (λ s. s.0) names.items ≡ names_used us) }
    ensures fault { IfErr result (λ e. e ≡ Fault.Memory) }
{
    let mut first = found.first;
    sort_by_first_use(&mut first)?;
    let names = names_of(alloc, &first)?;
    Ok(names)
}
