//! What an object is made of, and what stands in a slot.

ghost use Rattle.std.specs.Prelude.{◌≡◌, ◌<◌, [], length, map, slice_get, slice_set, IsTrue};
ghost use Rattle.std.specs.Option.{option_map};
ghost use Rattle.rr_space.specs.Views.{object_of, node_kind, node_parts, entry_pair, IsHeadKept};
ghost use Rattle.rr_space.specs.Graph.{array, text, exception, Place as PlaceLabel};
ghost use Rattle.rr_space.specs.Kinds.{kind_named, class_named};
ghost use Rattle.rr_space.specs.Labels.{labelled, label_of, is_raised_label, raised_place};

use crate::items::Items;
use crate::kind::Kind;
use crate::label::Label;
use crate::part::{half_of_pair, nth_field, nth_of_raised};
use crate::refer::{Cluster, Raised, Ref};
use indexmap::IndexMap;
use rr_base::{ClassId, Sym};

/// What finds a pair of a hash: an immediate, or the bytes of a text.
#[derive(PartialEq, Eq, Hash, Drop)]
pub enum Key {
    Nil,
    Truth(bool),
    Int(i64),
    /// A symbol, by its number.
    Symbol(u32),
    /// A class, by its number.
    Class(u32),
    /// A ractor, by its number.
    Ractor(u32),
    Text(Vec<u8>),
}

/// The pairs of a hash, in order of insertion.
pub type Entries = IndexMap<Key, (Ref, Ref)>;

/// A new object: its kind and what it contains.
#[derive(Drop)]
pub enum Node {
    /// A text, by its bytes.
    Text(Vec<u8>),
    /// An array, by its elements.
    Array(Items),
    /// A hash, by its keys, and the object and the value of each.
    Hash(Box<Entries>),
    /// A plain object, by its class and its fields in the order in which they were set first.
    Object(ClassId, Vec<(Sym, Ref)>),
    /// An exception.
    Exception(ClassId, Box<Raised>),
}

/// What stands in a slot of a space.
#[derive(Drop)]
pub(crate) enum Held {
    /// Whether the object is frozen, and the object. The flag lies before it, where a slot has room for it.
    Whole(bool, Node),
    /// What is left of an object that was moved away.
    Shell,
    /// An object that was published since, by its place in its cluster.
    Forward(u32, &'static Cluster),
}

impl Node {
    /// The bytes of a text; none of anything else.
    pub(crate) fn text_bytes(&self) -> &[u8]
        ensures { result.now ≡ (object_of self.now).bytes }
    {
        match self {
            Node::Text(bytes) => bytes,
            _ => &[],
        }
    }

    #[inline(always)]
    pub(crate) fn kind(&self) -> Kind
        ensures { result ≡ kind_named (object_of self.now).kind }
    {
        match self {
            Node::Text(_) => Kind::Text,
            Node::Array(_) => Kind::Array,
            Node::Hash(_) => Kind::Hash,
            Node::Object(_, _) => Kind::Object,
            Node::Exception(_, _) => Kind::Exception,
        }
    }

    #[inline(always)]
    pub(crate) fn class(&self) -> ClassId
        ensures { result ≡ class_named (object_of self.now).class }
    {
        match self {
            Node::Text(_) => ClassId::STRING,
            Node::Array(_) => ClassId::ARRAY,
            Node::Hash(_) => ClassId::HASH,
            Node::Object(class, _) => *class,
            Node::Exception(class, _) => *class,
        }
    }

    /// The `k`-th reference in the node, with its label.
    #[inline(always)]
    pub(crate) fn part(&self, k: usize) -> Option<(Label, Ref)>
        ensures { option_map labelled result ≡ slice_get (node_parts self.now) k }
    {
        match self {
            Node::Text(_) => None,
            Node::Array(items) => place_of_item(k, items.get(k)),
            Node::Hash(entries) => half_of_pair(pair_at(entries, k / 2), k),
            Node::Object(_, fields) => nth_field(fields, k),
            Node::Exception(_, raised) => nth_of_raised(raised, k),
        }
    }

    /// The number of references in the node.
    pub(crate) fn arity(&self) -> usize
        ensures { result ≡ length (node_parts self.now) }
    {
        match self {
            Node::Text(_) => 0,
            Node::Array(items) => items.len(),
            Node::Hash(entries) => 2 * entries.len(),
            Node::Object(_, fields) => fields.len(),
            Node::Exception(_, raised) => raised.fields.len() + 3,
        }
    }
}

impl Node {
    /// The node with `value` in the place of the message, the cause or the ractor of an exception; as it is where it is none.
    pub(crate) fn with_raised(self, label: Label, value: Ref) -> Node
        ensures parts { node_kind self ≡ exception → IsTrue (is_raised_label (label_of label)) → node_parts result ≡ slice_set (node_parts self) (raised_place (label_of label)) (label_of label, value) }
        ensures head { IsHeadKept self result }
    {
        match self {
            Node::Exception(class, mut raised) => {
                match label {
                    Label::Message => raised.message = value,
                    Label::Cause => raised.cause = value,
                    Label::Ractor => raised.ractor = value,
                    _ => (),
                }
                Node::Exception(class, raised)
            }
            other => other,
        }
    }
}

/// The `k`-th element with its place.
#[inline(always)]
fn place_of_item(k: usize, item: Option<Ref>) -> Option<(Label, Ref)>
    ensures { option_map labelled result ≡ option_map (λ r. (PlaceLabel k, r)) item }
{
    match item {
        Some(item) => Some((Label::Place(k), item)),
        None => None,
    }
}

/// The `k`-th pair of a hash, in order of insertion.
fn pair_at(entries: &Entries, k: usize) -> Option<(Ref, Ref)>
    ensures { result ≡ slice_get (map entry_pair entries.now.entries) k }
{
    match entries.get_index(k) {
        Some((_, pair)) => Some(*pair),
        None => None,
    }
}
