//! References, and the nodes that hold them, once the slots that they lead to stand behind others.

ghost use Rattle.std.specs.Prelude.{◌≡◌, ◌-◌, ◌<◌, ◌^◌, length, map};
ghost use Rattle.rr_space.specs.Views.{ref_behind, part_behind, field_behind, entry_behind};
ghost use Rattle.rr_space.specs.Parts.{places_from, pairs_from, field_part, raised_parts};
ghost use Rattle.rr_space.specs.Views.{node_parts, entry_pair, IsHeadKept, IsNodeWithin};
ghost use Rattle.indexmap.specs.IndexMap.{set_value_at};
ghost use Rattle.rr_space.specs.Parts.{IsWithin, AllWithin};

use crate::node::{Entries, Node};
use crate::refer::{Raised, Ref};
use crate::replace::replace_at;
use indexmap::IndexMap;
use rr_base::Sym;
use std::hash::Hash;

impl Ref {
    /// The reference, once the slots stand behind `count` others.
    pub(crate) fn behind(self, count: u32) -> Ref
        requires { IsWithin (2 ^ 32 - count) self }
        ensures { result ≡ ref_behind count self }
    {
        match self {
            Ref::Local(slot) => Ref::Local(count + slot),
            other => other,
        }
    }
}

impl Node {
    /// The node, once the slots stand behind `count` others. Takes no memory.
    pub(crate) fn behind(self, count: u32) -> Node
        requires { IsNodeWithin (2 ^ 32 - count) self }
        ensures parts { node_parts result ≡ map (part_behind count) (node_parts self) }
        ensures head { IsHeadKept self result }
    {
        match self {
            Node::Text(bytes) => Node::Text(bytes),
            Node::Array(items) => Node::Array(items.behind(count)),
            Node::Hash(mut entries) => {
                entries_behind(&mut entries, count);
                Node::Hash(entries)
            }
            Node::Object(class, mut fields) => {
                fields_behind(&mut fields, count);
                Node::Object(class, fields)
            }
            Node::Exception(class, mut raised) => {
                raised_behind(&mut raised, count);
                Node::Exception(class, raised)
            }
        }
    }
}

/// Each reference, once the slots stand behind `count` others.
pub(crate) fn refs_behind(items: &mut Vec<Ref>, count: u32)
    requires { AllWithin (2 ^ 32 - count) (places_from 0 items.old.items) }
    ensures { items.new.items ≡ map (ref_behind count) items.old.items }
{
    for k in 0..items.len() {
        let moved = items[k].behind(count);
        replace_at(items, k, moved);
    }
}

/// The references of an exception, once the slots stand behind `count` others.
fn raised_behind(raised: &mut Raised, count: u32)
    requires { AllWithin (2 ^ 32 - count) (raised_parts raised.old) }
    ensures { raised_parts raised.new ≡ map (part_behind count) (raised_parts raised.old) }
{
    raised.message = raised.message.behind(count);
    raised.cause = raised.cause.behind(count);
    raised.ractor = raised.ractor.behind(count);
    fields_behind(&mut raised.fields, count);
}

/// The references of fields, once the slots stand behind `count` others.
fn fields_behind(fields: &mut Vec<(Sym, Ref)>, count: u32)
    requires { AllWithin (2 ^ 32 - count) (map field_part fields.old.items) }
    ensures { fields.new.items ≡ map (field_behind count) fields.old.items }
{
    for k in 0..fields.len() {
        let (name, value) = fields[k];
        replace_at(fields, k, (name, value.behind(count)));
    }
}

/// The references of pairs, once the slots stand behind `count` others.
fn entries_behind(entries: &mut Entries, count: u32)
    requires { AllWithin (2 ^ 32 - count) (pairs_from 0 (map entry_pair entries.old.entries)) }
    ensures { entries.new.entries ≡ map (entry_behind count) entries.old.entries }
{
    for k in 0..entries.len() {
        let (key, value) = entries[k];
        replace_value(entries, k, (key.behind(count), value.behind(count)));
    }
}

/// Puts `value` in the place of the value of an entry.
pub(crate) fn replace_value<K: Hash + Eq, V: Copy>(
    entries: &mut IndexMap<K, V>,
    index: usize,
    value: V,
)
    requires { index < length entries.old.entries }
    ensures { entries.new.entries ≡ set_value_at entries.old.entries index value }
{
    entries[index] = value;
}
