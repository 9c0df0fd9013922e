//! A place for each of some slots.

ghost use Rattle.std.specs.Prelude.{◌≡◌, ◌<◌, ◌≤◌, ◌*◌, ◌^◌, ℕ, Some, length, slice_get, IfOk, IfErr, OnOk};
ghost use Rattle.rr_space.specs.Places.{ArePaged, Extends, place_in, place_of};

use rr_base::Fault;
use std::alloc::Global;
use std::marker::Model;

/// The number of slots in a page.
const PAGE: usize = 512;

/// A place for each of some slots. Slots that lie together have their places together, so that a table of many of them is
/// read quickly, and one of a few takes little memory, however many slots the space has.
#[derive(Drop)]
pub(crate) struct PlaceTable {
    /// For each page of slots the number of its part of the places, from 1 on; 0 for a page without places.
    pages: Vec<u32>,
    /// Parts of as many places as a page has slots.
    places: Vec<u32>,
}

impl Model for PlaceTable {
    ghost use Rattle.std.specs.Prelude.{ℕ, List};

    ghost Value = { List ℕ × List ℕ };

    ghost use Rattle.rr_space.specs.Places.{ArePaged};

    ghost view = { λ t. (t.pages.items, t.places.items) };

    ghost invariant = { λ t. ArePaged t.pages.items t.places.items };
}

impl PlaceTable {
    /// No places. Takes no memory.
    pub(crate) fn new(alloc: Global) -> PlaceTable {
        PlaceTable {
            pages: Vec::new(alloc),
            places: Vec::new(alloc),
        }
    }

    /// The place of a slot, if it has one. A slot that was given none may have any.
    pub(crate) fn get(&self, slot: u32) -> Option<u32>
        ensures { result ≡ place_of self.now slot }
    {
        let page = slot as usize / PAGE;
        if page >= self.pages.len() {
            return None;
        }
        let number = self.pages[page] as usize;
        if number == 0 {
            return None;
        }
        Some(self.places[(number - 1) * PAGE + slot as usize % PAGE])
    }

    /// Gives a slot a place. The places of other slots stay.
    pub(crate) fn set(&mut self, slot: u32, place: u32) -> Result<(), Fault>
        ensures set { OnOk result (place_of self.new slot ≡ Some place) }
        ensures kept { (n k : ℕ) → (n ≡ slot → ⊥) → place_of self.old n ≡ Some k → place_of self.new n ≡ Some k }
        ensures fault { IfErr result (λ e. e ≡ Fault.Memory) }
    {
        let page = slot as usize / PAGE;
        let number = part_of(&mut self.pages, &mut self.places, page)? as usize;
        self.places[(number - 1) * PAGE + slot as usize % PAGE] = place;
        Ok(())
    }
}

/// The number of the part of the places that a page has, which is a new one where it had none.
fn part_of(pages: &mut Vec<u32>, places: &mut Vec<u32>, page: usize) -> Result<u32, Fault>
    requires paged { ArePaged pages.old.items places.old.items }
    requires small { page < 2 ^ 32 }
    ensures some { IfOk result (λ number. 1 ≤ number) }
    ensures part { IfOk result (λ number. slice_get pages.new.items page ≡ Some number) }
    ensures paged { ArePaged pages.new.items places.new.items }
    ensures kept { (n k : ℕ) → place_in pages.old.items places.old.items n ≡ Some k → place_in pages.new.items places.new.items n ≡ Some k }
    ensures fault { IfErr result (λ e. e ≡ Fault.Memory) }
{
    add_pages(pages, page)?;
    let number = pages[page];
    if number != 0 {
        return Ok(number);
    }
    let number = add_part(places)?;
    pages[page] = number;
    Ok(number)
}

/// Adds pages without places up to the page.
fn add_pages(pages: &mut Vec<u32>, page: usize) -> Result<(), Fault>
    requires { page < 2 ^ 32 }
    ensures kept { Extends pages.old.items pages.new.items }
    ensures none { (p n : ℕ) → 1 ≤ n → slice_get pages.new.items p ≡ Some n → slice_get pages.old.items p ≡ Some n }
    ensures there { OnOk result (page < length pages.new.items) }
    ensures fault { IfErr result (λ e. e ≡ Fault.Memory) }
{
    if page >= pages.len() {
        pages.resize(page + 1, 0)?;
    }
    Ok(())
}

/// Adds a part behind those that are there, and answers its number.
fn add_part(places: &mut Vec<u32>) -> Result<u32, Fault>
    ensures kept { Extends places.old.items places.new.items }
    ensures fresh { IfOk result (λ number. length places.old.items < number * 512) }
    ensures room { IfOk result (λ number. number * 512 ≤ length places.new.items) }
    ensures fault { IfErr result (λ e. e ≡ Fault.Memory) }
{
    // There are fewer pages than 32 bits count, and no more parts.
    let Ok(number) = u32::try_from(places.len() / PAGE + 1) else {
        return Err(Fault::Memory);
    };
    places.resize(number as usize * PAGE, 0)?;
    Ok(number)
}
