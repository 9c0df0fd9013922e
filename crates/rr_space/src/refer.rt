//! References, and the clusters that shared ones lead into.

ghost use Rattle.std.specs.Prelude.{◌≡◌, ℕ, ◌≤◌, List, length, slice_get, map, Contains, IfSome, IfOk, IfErr};
ghost use Rattle.std.specs.Option.{option_map};
ghost use Rattle.rr_space.specs.Parts.{truth_ref, below_ref, bytes_of, sealed_parts, value_of, sealed_object, below_all};
ghost use Rattle.rr_space.specs.Parts.{is_frozen_object};
ghost use Rattle.rr_space.specs.Parts.{IsWithin, AllSealedWithin};
ghost use Rattle.rr_space.specs.Sound.{IsWholeSound};
ghost use Rattle.rr_space.specs.Tables.{below_hold, numbered};
ghost use Rattle.rr_space.specs.Graph.{Object as ObjectView};
ghost use Rattle.rr_space.specs.Names.{value_named};
ghost use Rattle.rr_space.specs.Labels.{labelled, labelled_value, triples_of, AreLabelsPlaced};
ghost use Rattle.rr_space.specs.Kinds.{object_kind, object_class};

use crate::indexes::{Firsts, indexes_of};
use crate::kind::Kind;
use crate::label::Label;
use crate::part::{half_of_pair, nth_element, nth_field, nth_of_raised, nth_pair};
use rr_base::{ClassId, Fault, RactorNo, Sym};
use std::alloc::Global;
use std::marker::Model;

/// A value: an immediate, an object of the ractor's own space by its slot, or an object of a published cluster by its
/// place and that cluster.
#[cycle(graph)]
#[derive(Clone, Copy)]
pub enum Ref {
    Nil,
    False,
    True,
    Int(i64),
    Symbol(Sym),
    Class(ClassId),
    Ractor(RactorNo),
    Local(u32),
    Shared(u32, &'static Cluster),
}

/// A value that can be compared: an object is the same as another where their names are equal.
#[derive(Clone, Copy, Debug, PartialEq, Eq, Drop)]
pub enum Name {
    Nil,
    Truth(bool),
    Int(i64),
    Symbol(Sym),
    Class(ClassId),
    Ractor(RactorNo),
    /// An object of the ractor's own space, by its slot.
    Own(u32),
    /// An object of a published cluster, by the cluster's number and its place there.
    Published(u32, u32),
}

impl Ref {
    /// `true` or `false`.
    #[inline(always)]
    pub fn truth(holds: bool) -> Ref
        ensures { result ≡ truth_ref holds }
    {
        if holds { Ref::True } else { Ref::False }
    }

    /// The value itself, without the cluster behind it.
    pub fn name(self) -> Name
        ensures { value_named result ≡ value_of self }
    {
        match self {
            Ref::Nil => Name::Nil,
            Ref::False => Name::Truth(false),
            Ref::True => Name::Truth(true),
            Ref::Int(number) => Name::Int(number),
            Ref::Symbol(symbol) => Name::Symbol(symbol),
            Ref::Class(class) => Name::Class(class),
            Ref::Ractor(ractor) => Name::Ractor(ractor),
            Ref::Local(slot) => Name::Own(slot),
            Ref::Shared(place, cluster) => Name::Published(cluster.number(), place),
        }
    }
}

/// What an exception has beside its class.
#[cycle(graph)]
#[derive(Drop)]
pub struct Raised {
    pub message: Ref,
    /// The exception that was being rescued, or nil.
    pub cause: Ref,
    /// Of a remote error the ractor that ended by it, or nil.
    pub ractor: Ref,
    /// The fields that the program set, in the order in which they were set first.
    pub fields: Vec<(Sym, Ref)>,
}

/// An object of a cluster. A `Ref::Local` in it is a place of the same cluster.
#[cycle(graph)]
#[derive(Drop)]
pub enum Sealed {
    /// A text, by its bytes.
    Text(Vec<u8>),
    /// An array, by its elements.
    Array(Vec<Ref>),
    /// A hash, by its keys and values in order of insertion.
    Hash(Vec<(Ref, Ref)>),
    /// A plain object, by its class and its fields in the order in which they were set first.
    Object(ClassId, Vec<(Sym, Ref)>),
    /// An exception.
    Exception(ClassId, Box<Raised>),
}

/// A closed and wholly frozen graph, under the number that it was published with.
#[cycle(graph)]
#[derive(Drop)]
pub struct Cluster {
    number: u32,
    pub(crate) nodes: Vec<Sealed>,
    pub(crate) indexes: Vec<Option<Box<Firsts>>>,
}

impl Model for Cluster {
    ghost use Rattle.rr_space.specs.Tables.{Whole};
    ghost use Rattle.std.specs.Prelude.{length, ◌*◌, map};

    ghost Value = { Whole };

    ghost use Rattle.rr_space.specs.Parts.{sealed_object, below_all};

    ghost view = { λ a. record { number = a.number; own = map sealed_object a.nodes.items; below = below_all a.nodes.items } };

    ghost use Rattle.rr_space.specs.Parts.{AllSealedWithin};
    ghost use Rattle.rr_space.specs.Indexes.{AreIndexed};

    ghost invariant = { λ a. AllSealedWithin (length a.nodes.items) a.nodes.items × AreIndexed (λ b. b.value.entries) a.nodes.items a.indexes.items };

    ghost size = { λ v. 2 * length v.below };

    ghost use Rattle.std.proofs.Common.{arith};
    ghost use Rattle.rr_space.specs.Falls.{all_fall};

    ghost size_decreases = { λ a h. Prim.omega (arith, all_fall a.nodes.items) };
}

impl Cluster {
    /// The bytes of the text under `place`; none where another object or none is there.
    pub fn text_bytes(&self, place: u32) -> &[u8]
        ensures { result.now ≡ bytes_of (slice_get self.now.own place) }
    {
        match self.nodes.get(place as usize) {
            Some(Sealed::Text(bytes)) => bytes,
            _ => &[],
        }
    }

    /// The kind of the object under `place`; that of nil where none is there.
    pub fn kind(&self, place: u32) -> Kind
        ensures { result ≡ object_kind (slice_get self.now.own place) }
    {
        match self.nodes.get(place as usize) {
            Some(Sealed::Text(_)) => Kind::Text,
            Some(Sealed::Array(_)) => Kind::Array,
            Some(Sealed::Hash(_)) => Kind::Hash,
            Some(Sealed::Object(_, _)) => Kind::Object,
            Some(Sealed::Exception(_, _)) => Kind::Exception,
            None => Kind::Nil,
        }
    }

    /// The class of the object under `place`; that of nil where none is there.
    pub fn class(&self, place: u32) -> ClassId
        ensures { result ≡ object_class (slice_get self.now.own place) }
    {
        match self.nodes.get(place as usize) {
            Some(Sealed::Text(_)) => ClassId::STRING,
            Some(Sealed::Array(_)) => ClassId::ARRAY,
            Some(Sealed::Hash(_)) => ClassId::HASH,
            Some(Sealed::Object(class, _)) => *class,
            Some(Sealed::Exception(class, _)) => *class,
            None => ClassId::NIL_CLASS,
        }
    }

    /// A cluster of these objects, whose `Ref::Local`s are places among them. It has the number 0 until it is published.
    /// `Memory` is the only fault, and none where there are no objects.
    pub fn new(alloc: Global, nodes: Vec<Sealed>) -> Result<Cluster, Fault>
        requires { AllSealedWithin (length nodes.items) nodes.items }
        ensures own { IfOk result (λ c. c.own ≡ map sealed_object nodes.items) }
        ensures below { IfOk result (λ c. c.below ≡ below_all nodes.items) }
        ensures number { IfOk result (λ c. c.number ≡ 0) }
        ensures grows { IfErr result (λ _. 1 ≤ length nodes.items) }
        ensures fault { IfErr result (λ e. e ≡ Fault.Memory) }
    {
        let indexes = indexes_of(alloc, &nodes)?;
        Ok(Cluster {
            number: 0,
            nodes,
            indexes,
        })
    }

    /// Gives the cluster its number, and the memory that it lies in up for good, so that references to it are copied
    /// freely. Where there is no memory the cluster comes back as it was.
    pub fn publish(self, alloc: Global, number: u32) -> Result<&'static Cluster, Cluster>
        ensures done { IfOk result (λ c. c.now ≡ record self { number = number }) }
        ensures refused { IfErr result (λ c. c ≡ self) }
    {
        let before = self.number;
        let numbered = Cluster {
            number,
            nodes: self.nodes,
            indexes: self.indexes,
        };
        match Box::new(alloc, numbered) {
            Ok(boxed) => Ok(Box::leak(boxed)),
            Err(failed) => {
                let back = failed.value;
                Err(Cluster {
                    number: before,
                    nodes: back.nodes,
                    indexes: back.indexes,
                })
            }
        }
    }

    /// The number that the cluster was published with.
    pub fn number(&self) -> u32
        ensures { result ≡ self.now.number }
    {
        self.number
    }

    /// Whether there is an object under `place`.
    pub fn has(&self, place: u32) -> bool
        ensures { result ≡ is_frozen_object (slice_get self.now.own place) }
    {
        match self.nodes.get(place as usize) {
            Some(_) => true,
            None => false,
        }
    }

    /// The number of objects. They are frozen throughout, and no reference in them leads nowhere.
    pub fn len(&self) -> usize
        ensures count { result ≡ length self.now.own }
        ensures sound { IsWholeSound self.now }
    {
        self.nodes.len()
    }

    /// The number of references in the object under `place`; 0 where none is there.
    pub fn arity(&self, place: u32) -> usize
        ensures count { result ≡ length (triples_of (slice_get self.now.own place)) }
        ensures placed { AreLabelsPlaced (triples_of (slice_get self.now.own place)) }
    {
        if (place as usize) < self.nodes.len() {
            self.nodes[place as usize].arity()
        } else {
            0
        }
    }

    /// The `k`-th reference in the object under `place`, with its label. A `Ref::Local` is a place of this cluster.
    pub(crate) fn part(&self, place: u32, k: usize) -> Option<(Label, Ref)>
        ensures part { option_map labelled_value result ≡ slice_get (triples_of (slice_get self.now.own place)) k }
        ensures within { IfSome result (λ p. IsWithin (length self.now.own) p.1) }
        ensures below { IfSome result (λ p. (e : ℕ × List ObjectView) → Contains (below_ref p.1) e → Contains self.now.below e) }
    {
        if (place as usize) < self.nodes.len() {
            self.nodes[place as usize].part(k)
        } else {
            None
        }
    }
}

impl Cluster {
    /// A value of an object of the cluster, as it is seen from outside.
    pub(crate) fn outward(&'static self, value: Ref) -> Ref
        ensures is { value_of result ≡ numbered self.now.number (value_of value) }
        ensures within { IsWithin (length self.now.own) value → (n : ℕ) → IsWithin n result }
        ensures below { ((e : ℕ × List ObjectView) → Contains (below_ref value) e → Contains self.now.below e) → (e : ℕ × List ObjectView) → Contains (below_ref result) e → Contains (below_hold self.now) e }
    {
        let _ = &self.nodes;
        match value {
            Ref::Local(inner) => Ref::Shared(inner, self),
            other => other,
        }
    }
}

impl Sealed {
    /// The number of references in the object.
    fn arity(&self) -> usize
        ensures { result ≡ length (sealed_parts self.now) }
    {
        match self {
            Sealed::Text(_) => 0,
            Sealed::Array(items) => items.len(),
            Sealed::Hash(pairs) => 2 * pairs.len(),
            Sealed::Object(_, fields) => fields.len(),
            Sealed::Exception(_, raised) => raised.fields.len() + 3,
        }
    }

    /// The `k`-th reference in the object, with its label.
    fn part(&self, k: usize) -> Option<(Label, Ref)>
        ensures { option_map labelled result ≡ slice_get (sealed_parts self.now) k }
    {
        match self {
            Sealed::Text(_) => None,
            Sealed::Array(items) => nth_element(items, k),
            Sealed::Hash(pairs) => half_of_pair(nth_pair(pairs, k / 2), k),
            Sealed::Object(_, fields) => nth_field(fields, k),
            Sealed::Exception(_, raised) => nth_of_raised(raised, k),
        }
    }
}
