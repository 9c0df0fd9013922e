//! What leads to each of some objects.

ghost use Rattle.std.specs.Prelude.{◌≡◌, ◌+◌, ◌<◌, ℕ, List, [], ◌∷◌, nat_eq, length, replicate, slice_get, slice_set, Some, Contains, IfOk, IfErr, OnOk};
ghost use Rattle.std.specs.List.{IsDistinct};
ghost use Rattle.rr_space.specs.Tables.{space_graph};
ghost use Rattle.rr_share.specs.Search.{Adds, LeadsOn};
ghost use Rattle.rr_share.specs.Chains.{chain, AreLinked, Falls};
ghost use Rattle.rr_share.specs.Marks.{Closed, Sourced, LeadsBefore};

use crate::search::end_at;
use rr_base::Fault;
use rr_space::{Ref, SlotSet, Space};
use std::alloc::Global;
use std::marker::Model;

/// One of the slots at a place, and the one that came there before it.
#[derive(Clone, Copy, Drop)]
pub(crate) struct Source {
    slot: u32,
    before: Option<usize>,
}

/// For each place of a list of objects the slots of those that lead to the object there.
#[derive(Drop)]
pub(crate) struct Sources {
    last: Vec<Option<usize>>,
    all: Vec<Source>,
}

impl Model for Sources {
    ghost use Rattle.std.specs.Prelude.{List, ℕ, map, length};
    ghost use Rattle.rr_share.specs.Chains.{chain, IsLinked};

    ghost Value = { List (List ℕ) };

    ghost view = { λ s. map (chain s.all.items (length s.all.items)) s.last.items };

    ghost invariant = { λ s. IsLinked s.last.items s.all.items };
}

impl Sources {
    /// No slots at any of so many places.
    fn new(alloc: Global, count: usize) -> Result<Sources, Fault>
        ensures none { IfOk result (λ s. s ≡ replicate count []) }
        ensures fault { IfErr result (λ e. e ≡ Fault.Memory) }
    {
        let mut last = Vec::with_capacity(alloc, count)?;
        for _ in 0..count {
            last.push(None)?;
        }
        Ok(Sources {
            last,
            all: Vec::new(alloc),
        })
    }

    /// Adds the slots at a place to a set.
    pub(crate) fn add_to(&self, place: usize, set: &mut SlotSet) -> Result<(), Fault>
        requires { place < length self.now }
        ensures added { OnOk result ((list : List ℕ) × (slice_get self.now place ≡ Some list) × Adds (Contains list) set.old set.new) }
        ensures fault { IfErr result (λ e. e ≡ Fault.Memory) }
    {
        add_chain(&self.all, self.last[place], set)
    }

    /// Adds a slot at a place.
    fn add(&mut self, place: usize, slot: u32) -> Result<(), Fault>
        requires { place < length self.old }
        ensures added { OnOk result ((list : List ℕ) × (slice_get self.old place ≡ Some list) × (self.new ≡ slice_set self.old place (slot ∷ list))) }
        ensures fault { IfErr result (λ e. e ≡ Fault.Memory) }
    {
        let before = self.last[place];
        let index = self.all.len();
        self.all.push(Source { slot, before })?;
        self.last[place] = Some(index);
        Ok(())
    }
}

/// Adds the slots from the last one on to a set.
fn add_chain(all: &[Source], last: Option<usize>, set: &mut SlotSet) -> Result<(), Fault>
    requires linked { AreLinked all.now }
    requires falls { Falls (length all.now) last }
    ensures added { OnOk result (Adds (Contains (chain all.now (length all.now) last)) set.old set.new) }
    ensures fault { IfErr result (λ e. e ≡ Fault.Memory) }
{
    let mut at = last;
    while let Some(index) = at {
        let source = all[index];
        set.add(source.slot)?;
        at = source.before;
    }
    Ok(())
}

/// What leads to each of the objects found, among them.
pub(crate) fn sources_of(alloc: Global, space: &Space, found: &SlotSet) -> Result<Sources, Fault>
    requires { Closed space.now found.now }
    ensures exact { IfOk result (λ s. Sourced found.now (λ n m. Contains found.now n × LeadsOn (space_graph space.now) n m) s) }
    ensures fault { IfErr result (λ e. e ≡ Fault.Memory) }
{
    let mut sources = Sources::new(alloc, found.len())?;
    for place in 0..found.len() {
        add_sources(space, found, place, &mut sources)?;
    }
    Ok(sources)
}

/// Adds the object at a place to the sources of each that it leads to.
fn add_sources(
    space: &Space,
    found: &SlotSet,
    place: usize,
    sources: &mut Sources,
) -> Result<(), Fault>
    requires closed { Closed space.now found.now }
    requires distinct { IsDistinct nat_eq found.now }
    requires place { place < length found.now }
    requires before { Sourced found.now (LeadsBefore (space_graph space.now) found.now place 0) sources.old }
    ensures added { OnOk result (Sourced found.now (LeadsBefore (space_graph space.now) found.now (place + 1) 0) sources.new) }
    ensures fault { IfErr result (λ e. e ≡ Fault.Memory) }
{
    let slot = found.at(place);
    for k in 0..space.arity(Ref::Local(slot)) {
        if let Some(end) = end_at(space, slot, k) {
            sources.add(found.place_of(end), slot)?;
        }
    }
    Ok(())
}
