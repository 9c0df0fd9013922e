//! The objects of one ractor, by their slots.

ghost use Rattle.std.specs.Prelude.{◌≡◌, ◌+◌, ◌^◌, ◌-◌, ◌<◌, ◌≤◌, ◌↔◌, ◌⊎◌, [], ◌∷◌, ◌++◌, length, IfOk, IfErr, IsTrue};
ghost use Rattle.rr_space.specs.Tables.{Here, IsRestKept};
ghost use Rattle.rr_space.specs.Views.{object_of, below_node, node_keys, IsNodeWithin, AreFieldsDistinct, text_at};
ghost use Rattle.rr_space.specs.Sound.{IsWell};
ghost use Rattle.rr_space.specs.Kinds.{kind_at, class_at};

use crate::kind::Kind;
use crate::node::{Held, Node};
use crate::refer::Ref;
use rr_base::{ClassId, Fault, LimitKind, RactorNo};
use std::alloc::Global;
use std::marker::Model;

/// The objects of one ractor.
///
/// An object stays under its slot. No reference in a slot leads nowhere, and there are never more slots than the limit.
#[derive(Drop)]
pub struct Space {
    pub(crate) slots: Vec<Held>,
    pub(crate) limit: u32,
    pub(crate) owner: RactorNo,
    pub(crate) next_message: u64,
}

impl Model for Space {
    ghost use Rattle.rr_space.specs.Tables.{Table};
    ghost use Rattle.std.specs.Prelude.{length, ◌≤◌, map};

    ghost Value = { Table };

    ghost use Rattle.rr_space.specs.Views.{slot_of, below_held, held_keys, AllHeldWithin};

    ghost view = { λ s. record { slots = map slot_of s.slots.items; below = map below_held s.slots.items; keys = map held_keys s.slots.items; limit = s.limit; owner = s.owner.0; next_message = s.next_message } };

    ghost invariant = { λ s. (length s.slots.items ≤ s.limit) × AllHeldWithin (length s.slots.items) s.slots.items };
}

impl Space {
    /// The space of the ractor `owner`, without objects. It may have `limit` slots.
    pub fn new(alloc: Global, owner: RactorNo, limit: u32) -> Space
        ensures slots { result.slots ≡ [] }
        ensures below { result.below ≡ [] }
        ensures keys { result.keys ≡ [] }
        ensures limit { result.limit ≡ limit }
        ensures owner { result.owner ≡ owner.0 }
        ensures next_message { result.next_message ≡ 1 }
    {
        Space {
            slots: Vec::new(alloc),
            limit,
            owner,
            next_message: 1,
        }
    }

    /// The number of slots. No reference in a slot leads nowhere, what is published is frozen throughout, and a hash has as
    /// many keys as pairs.
    pub fn len(&self) -> usize
        ensures count { result ≡ length self.now.slots }
        ensures room { result ≤ self.now.limit }
        ensures few { self.now.limit < 2 ^ 32 }
        ensures well { IsWell self.now }
    {
        let _limit = self.limit;
        self.slots.len()
    }

    /// The most slots that there may be.
    pub fn limit(&self) -> u32
        ensures { result ≡ self.now.limit }
    {
        self.limit
    }

    /// The ractor that owns the objects.
    pub fn owner(&self) -> RactorNo
        ensures { result.0 ≡ self.now.owner }
    {
        self.owner
    }

    /// The number that the next message has that is moved out of the space.
    pub fn next_message(&self) -> u64
        ensures { result ≡ self.now.next_message }
    {
        self.next_message
    }

    /// Counts a message that is moved out of the space, and gives its number.
    pub fn number_message(&mut self) -> u64
        requires { self.old.next_message < 2 ^ 64 - 1 }
        ensures number { result ≡ self.old.next_message }
        ensures counted { self.new ≡ record self.old { next_message = self.old.next_message + 1 } }
    {
        let number = self.next_message;
        self.next_message = number + 1;
        number
    }

    /// A new object, not frozen, under the next slot. The references in `node` lead to objects that are there, and no two
    /// of its fields have one name.
    ///
    /// Answers `Fault::Limit(LimitKind::Slots)` where the space is full, and `Fault::Memory` where a growth was refused.
    pub fn alloc(&mut self, node: Node) -> Result<Ref, Fault>
        requires within { IsNodeWithin (length self.old.slots) node }
        requires fields { AreFieldsDistinct node }
        ensures name { IfOk result (λ r. r ≡ Ref.Local (length self.old.slots)) }
        ensures slots { IfOk result (λ _. self.new.slots ≡ self.old.slots ++ Here (object_of node) ∷ []) }
        ensures below { IfOk result (λ _. self.new.below ≡ self.old.below ++ below_node node ∷ []) }
        ensures keys { IfOk result (λ _. self.new.keys ≡ self.old.keys ++ node_keys node ∷ []) }
        ensures rest { IsRestKept self.old self.new }
        ensures refused { IfErr result (λ _. self.new ≡ self.old) }
        ensures full { result ≡ Err (Fault.Limit LimitKind.Slots) ↔ length self.old.slots ≡ self.old.limit }
        ensures fault { IfErr result (λ e. (e ≡ Fault.Limit LimitKind.Slots) ⊎ (e ≡ Fault.Memory)) }
    {
        if self.slots.len() == self.limit as usize {
            return Err(Fault::Limit(LimitKind::Slots));
        }
        let slot = self.slots.len() as u32;
        self.slots.push(Held::Whole(false, node))?;
        Ok(Ref::Local(slot))
    }

    /// The bytes of the text that `value` leads to; none where it is anything else.
    pub fn text_bytes(&self, value: Ref) -> &[u8]
        ensures { result.now ≡ text_at self.now value }
    {
        match value {
            Ref::Local(slot) => match self.slots.get(slot as usize) {
                Some(Held::Whole(_, node)) => node.text_bytes(),
                Some(Held::Forward(place, cluster)) => cluster.text_bytes(*place),
                _ => &[],
            },
            Ref::Shared(place, cluster) => cluster.text_bytes(place),
            _ => &[],
        }
    }

    /// What `value` is: which immediate, or the kind of the object that it leads to. What leads nowhere is as nil.
    #[inline(always)]
    pub fn kind_of(&self, value: Ref) -> Kind
        ensures { result ≡ kind_at self.now value }
    {
        match value {
            Ref::Nil => Kind::Nil,
            Ref::False => Kind::Truth,
            Ref::True => Kind::Truth,
            Ref::Int(_) => Kind::Integer,
            Ref::Symbol(_) => Kind::Symbol,
            Ref::Class(_) => Kind::Class,
            Ref::Ractor(_) => Kind::Ractor,
            Ref::Local(slot) => match self.slots.get(slot as usize) {
                Some(Held::Whole(_, node)) => node.kind(),
                Some(Held::Shell) => Kind::Shell,
                Some(Held::Forward(place, cluster)) => cluster.kind(*place),
                None => Kind::Nil,
            },
            Ref::Shared(place, cluster) => cluster.kind(place),
        }
    }

    /// The class of `value`, or of the object that it leads to. What leads nowhere is as nil.
    #[inline(always)]
    pub fn class_of(&self, value: Ref) -> ClassId
        ensures { result ≡ class_at self.now value }
    {
        match value {
            Ref::Nil => ClassId::NIL_CLASS,
            Ref::False => ClassId::FALSE_CLASS,
            Ref::True => ClassId::TRUE_CLASS,
            Ref::Int(_) => ClassId::INTEGER,
            Ref::Symbol(_) => ClassId::SYMBOL,
            Ref::Class(_) => ClassId::CLASS,
            Ref::Ractor(_) => ClassId::RACTOR,
            Ref::Local(slot) => match self.slots.get(slot as usize) {
                Some(Held::Whole(_, node)) => node.class(),
                Some(Held::Shell) => ClassId::MOVED_OBJECT,
                Some(Held::Forward(place, cluster)) => cluster.class(*place),
                None => ClassId::NIL_CLASS,
            },
            Ref::Shared(place, cluster) => cluster.class(place),
        }
    }
}
