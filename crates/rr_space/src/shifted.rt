//! Elements that are taken from the front one after another.

ghost use Rattle.std.specs.Prelude.{◌≡◌, ◌+◌, ◌*◌, ◌<◌, ◌≤◌, [], ◌∷◌, ◌++◌, drop, length, slice_get, slice_set, vec_len, IfOk, IfErr};

use crate::refer::Ref;
use crate::replace::replace_at;
use rr_base::Fault;
use std::alloc::Global;
use std::marker::Model;

/// The elements of a vector behind those that were taken from its front.
///
/// What was taken stays in the vector until it is half of it, so that taking all elements from the front costs a few moves
/// each, however many there are.
#[derive(Drop)]
pub(crate) struct Shifted {
    items: Vec<Ref>,
    taken: usize,
    ghost fits: { taken ≤ vec_len items },
}

impl Model for Shifted {
    ghost use Rattle.std.specs.Prelude.{List, drop};
    ghost use Rattle.rr_space.specs.declared.refer.Ref.{Ref};

    ghost Value = { List Ref };

    ghost view = { λ s. drop s.taken s.items.items };
}

impl Shifted {
    /// The elements of a vector without the first.
    pub(crate) fn new(items: Vec<Ref>) -> Shifted
        requires { 1 ≤ vec_len items }
        ensures { result ≡ drop 1 items.items }
    {
        Shifted { items, taken: 1 }
    }

    pub(crate) fn len(&self) -> usize
        ensures { result ≡ length self.now }
    {
        self.items.len() - self.taken
    }

    /// The `k`-th element.
    pub(crate) fn get(&self, k: usize) -> Option<Ref>
        ensures { result ≡ slice_get self.now k }
    {
        if k < self.items.len() - self.taken {
            Some(self.items[self.taken + k])
        } else {
            None
        }
    }

    /// Puts `item` behind the others.
    pub(crate) fn push(&mut self, item: Ref) -> Result<(), Fault>
        ensures pushed { IfOk result (λ _. self.new ≡ self.old ++ item ∷ []) }
        ensures refused { IfErr result (λ _. self.new ≡ self.old) }
        ensures fault { IfErr result (λ e. e ≡ Fault.Memory) }
    {
        match self.items.push(item) {
            Ok(()) => Ok(()),
            Err(_) => Err(Fault::Memory),
        }
    }

    /// Puts `item` in the place of the `k`-th element.
    pub(crate) fn set(&mut self, k: usize, item: Ref)
        requires { k < length self.old }
        ensures { self.new ≡ slice_set self.old k item }
    {
        let place = self.taken + k;
        replace_at(&mut self.items, place, item);
    }

    /// Takes the first element away.
    pub(crate) fn take_first(&mut self)
        requires { 1 ≤ length self.old }
        ensures { self.new ≡ drop 1 self.old }
    {
        self.taken += 1;
    }

    pub(crate) fn allocator(&self) -> Global {
        *self.items.allocator()
    }

    /// Whether most of the vector was taken.
    pub(crate) fn is_mostly_taken(&self) -> bool {
        self.items.len() - self.taken < self.taken
    }

    /// The elements, in a vector of their own. Takes no memory.
    pub(crate) fn into_vec(self) -> Vec<Ref>
        ensures { result.items ≡ self }
    {
        let Shifted { mut items, taken } = self;
        let left = items.len() - taken;
        items.rotate_left(taken);
        items.truncate(left);
        items
    }
}
