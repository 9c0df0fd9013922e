//! References that get other numbers where they stand. No memory is taken.

ghost use Rattle.std.specs.Prelude.{◌≡◌, ◌<◌, ◌≤◌, ◌^◌, ℕ, Some, length, slice_get};
ghost use Rattle.std.specs.List.{AllZip};
ghost use Rattle.rr_base.specs.declared.name.Sym.{Sym as SymView};
ghost use Rattle.rr_space.specs.Graph.{Label};
ghost use Rattle.rr_space.specs.Parts.{raised_parts};
ghost use Rattle.rr_space.specs.Views.{node_parts, IsHeadKept, IsWithin};
ghost use Rattle.rr_space.specs.Views.{IsKnown, IsCarried};
ghost use Rattle.rr_space.specs.Views.{IsRenumberedPart, IsRenumberedField, IsRenumberedEntry, ref_home};
ghost use Rattle.rr_space.specs.declared.node.Key.{Key as KeyView};
ghost use Rattle.rr_space.specs.declared.refer.Ref.{Ref as RefView};

use crate::behind::replace_value;
use crate::items::Items;
use crate::node::{Entries, Node};
use crate::refer::{Raised, Ref};
use crate::replace::replace_at;
use crate::slot_set::SlotSet;
use crate::space::Space;
use rr_base::Sym;

/// What number a reference has elsewhere.
pub(crate) trait Renumber {
    ghost may: { Self → RefView → Type 0 };

    ghost gives: { Self → RefView → RefView → Type 0 };

    fn renumbered(&self, value: Ref) -> Ref
        requires { may self.now value }
        ensures { gives self.now value result };
}

/// Slots become their places among the names that go with them; what was published since is the published object.
#[derive(Drop)]
pub(crate) struct ToPlaces<'a> {
    pub space: &'a Space,
    pub names: &'a SlotSet,
}

impl Renumber for ToPlaces<'_> {
    ghost may = { λ s r. (length s.names.now ≤ 2 ^ 32) × IsKnown s.space.now s.names.now r };

    ghost gives = { λ s r q. IsCarried s.space.now s.names.now r q };

    fn renumbered(&self, value: Ref) -> Ref {
        self.space.carried(value, self.names)
    }
}

/// Places become the slots of a home.
#[derive(Drop)]
pub(crate) struct ToHome<'a> {
    pub home: &'a SlotSet,
}

impl Renumber for ToHome<'_> {
    ghost may = { λ s r. IsWithin (length s.home.now) r };

    ghost gives = { λ s r q. q ≡ ref_home s.home.now r };

    fn renumbered(&self, value: Ref) -> Ref {
        match value {
            Ref::Local(place) => Ref::Local(self.home.at(place as usize)),
            other => other,
        }
    }
}

impl Node {
    /// The node with its references renumbered.
    pub(crate) fn renumbered<R: Renumber>(self, by: &R) -> Node
        requires { (k : ℕ) (p : Label × RefView) → slice_get (node_parts self) k ≡ Some p → R.may by.now p.1 }
        ensures parts { AllZip (IsRenumberedPart (R.gives by.now)) (node_parts self) (node_parts result) }
        ensures head { IsHeadKept self result }
    {
        match self {
            Node::Text(bytes) => Node::Text(bytes),
            Node::Array(items) => Node::Array(items.renumbered(by)),
            Node::Hash(mut entries) => {
                renumber_entries(&mut entries, by);
                Node::Hash(entries)
            }
            Node::Object(class, mut fields) => {
                renumber_fields(&mut fields, by);
                Node::Object(class, fields)
            }
            Node::Exception(class, mut raised) => {
                renumber_raised(&mut raised, by);
                Node::Exception(class, raised)
            }
        }
    }
}

/// Renumbers each reference.
pub(crate) fn renumber_refs<R: Renumber>(items: &mut Vec<Ref>, by: &R)
    requires { (k : ℕ) (r : RefView) → slice_get items.old.items k ≡ Some r → R.may by.now r }
    ensures { AllZip (R.gives by.now) items.old.items items.new.items }
{
    for k in 0..items.len() {
        let moved = by.renumbered(items[k]);
        replace_at(items, k, moved);
    }
}

/// Renumbers the references of an exception.
fn renumber_raised<R: Renumber>(raised: &mut Raised, by: &R)
    requires { (k : ℕ) (p : Label × RefView) → slice_get (raised_parts raised.old) k ≡ Some p → R.may by.now p.1 }
    ensures { AllZip (IsRenumberedPart (R.gives by.now)) (raised_parts raised.old) (raised_parts raised.new) }
{
    raised.message = by.renumbered(raised.message);
    raised.cause = by.renumbered(raised.cause);
    raised.ractor = by.renumbered(raised.ractor);
    renumber_fields(&mut raised.fields, by);
}

/// Renumbers the references of fields.
fn renumber_fields<R: Renumber>(fields: &mut Vec<(Sym, Ref)>, by: &R)
    requires { (k : ℕ) (f : SymView × RefView) → slice_get fields.old.items k ≡ Some f → R.may by.now f.1 }
    ensures { AllZip (IsRenumberedField (R.gives by.now)) fields.old.items fields.new.items }
{
    for k in 0..fields.len() {
        let (name, value) = fields[k];
        replace_at(fields, k, (name, by.renumbered(value)));
    }
}

/// Renumbers the references of pairs.
fn renumber_entries<R: Renumber>(entries: &mut Entries, by: &R)
    requires { (k : ℕ) (e : KeyView × (RefView × RefView)) → slice_get entries.old.entries k ≡ Some e → R.may by.now e.1.0 × R.may by.now e.1.1 }
    ensures { AllZip (IsRenumberedEntry (R.gives by.now)) entries.old.entries entries.new.entries }
{
    for k in 0..entries.len() {
        let (name, value) = entries[k];
        replace_value(entries, k, (by.renumbered(name), by.renumbered(value)));
    }
}
