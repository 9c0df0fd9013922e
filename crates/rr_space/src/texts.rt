//! The bytes of texts: what gives a text others, and what puts some behind those that it has.

ghost use Rattle.std.specs.Prelude.{◌≡◌, ℕ, ◌<◌, ◌++◌, Some, slice_get, slice_set, vec_len, IsTrue, IfOk, IfErr};
ghost use Rattle.rr_space.specs.Graph.{Object};
ghost use Rattle.rr_space.specs.Tables.{Here, IsRestKept};
ghost use Rattle.rr_space.specs.Views.{can_write_at};
ghost use Rattle.rr_space.specs.Writes.{IsHeldRewritten, IsSlotRewritten, IsTextWritten, IsTextAppended};
ghost use Rattle.rr_space.specs.Kinds.{kind_at};

use crate::kind::Kind;
use crate::node::{Held, Node};
use crate::refer::Ref;
use crate::replace::change_at;
use crate::space::Space;
use rr_base::Fault;

impl Space {
    /// Gives a text other bytes. `can_write` tells whether `text` may be written.
    pub fn write_text(&mut self, text: Ref, bytes: Vec<u8>)
        requires can { IsTrue (can_write_at self.old text) }
        requires kind { kind_at self.old text ≡ Kind.Text }
        ensures slots { (n : ℕ) (o : Object) → text ≡ Ref.Local n → slice_get self.old.slots n ≡ Some (Here o)
            → self.new.slots ≡ slice_set self.old.slots n (Here (record o { bytes = bytes.items })) }
        ensures below { self.new.below ≡ self.old.below }
        ensures keys { self.new.keys ≡ self.old.keys }
        ensures rest { IsRestKept self.old self.new }
    {
        if let Ref::Local(slot) = text {
            write_text_at(&mut self.slots, slot as usize, bytes)
        }
    }

    /// Puts bytes behind those of a text. `can_write` tells whether `text` may be written.
    ///
    /// Answers `Fault::Memory` where a growth was refused. The room grows by factors, so that bytes that come one by one are
    /// copied a few times each.
    pub fn append_text(&mut self, text: Ref, bytes: &[u8]) -> Result<(), Fault>
        requires can { IsTrue (can_write_at self.old text) }
        requires kind { kind_at self.old text ≡ Kind.Text }
        ensures slots { (n : ℕ) (o : Object) → text ≡ Ref.Local n → slice_get self.old.slots n ≡ Some (Here o)
            → IfOk result (λ _. self.new.slots ≡ slice_set self.old.slots n (Here (record o { bytes = o.bytes ++ bytes.now }))) }
        ensures below { self.new.below ≡ self.old.below }
        ensures keys { self.new.keys ≡ self.old.keys }
        ensures rest { IsRestKept self.old self.new }
        ensures refused { IfErr result (λ _. self.new ≡ self.old) }
        ensures fault { IfErr result (λ e. e ≡ Fault.Memory) }
    {
        match text {
            Ref::Local(slot) => append_text_at(&mut self.slots, slot as usize, bytes),
            _ => Ok(()),
        }
    }
}

/// Gives the text in a slot other bytes. The text is changed where it lies.
#[inline(always)]
fn write_text_at(slots: &mut Vec<Held>, slot: usize, bytes: Vec<u8>)
    requires { slot < vec_len slots.old }
    ensures { IsSlotRewritten (λ a b. IsTextWritten a b bytes.items) slot slots.old.items slots.new.items }
{
    change_at(slots, slot, |held: &mut Held| held.write_text(bytes))
}

/// Puts bytes behind those of the text in a slot, which is changed where it lies.
#[inline(always)]
fn append_text_at(slots: &mut Vec<Held>, slot: usize, bytes: &[u8]) -> Result<(), Fault>
    requires { slot < vec_len slots.old }
    ensures written { IsSlotRewritten (λ a b. IsTextAppended a b bytes.now result) slot slots.old.items slots.new.items }
    ensures fault { IfErr result (λ e. e ≡ Fault.Memory) }
{
    change_at(slots, slot, |held: &mut Held| held.append_text(bytes))
}

impl Held {
    /// Gives a text other bytes, if it is one.
    #[inline(always)]
    fn write_text(&mut self, bytes: Vec<u8>)
        ensures { IsHeldRewritten (λ a b. IsTextWritten a b bytes.items) self.old self.new }
    {
        if let Held::Whole(_, node) = self {
            node.write_text(bytes)
        }
    }

    /// Puts bytes behind those of a text, if it is one.
    #[inline(always)]
    fn append_text(&mut self, bytes: &[u8]) -> Result<(), Fault>
        ensures written { IsHeldRewritten (λ a b. IsTextAppended a b bytes.now result) self.old self.new }
        ensures fault { IfErr result (λ e. e ≡ Fault.Memory) }
    {
        match self {
            Held::Whole(_, node) => node.append_text(bytes),
            _ => Ok(()),
        }
    }
}

impl Node {
    /// Gives a text other bytes; leaves the node as it is where it is no text.
    #[inline(always)]
    fn write_text(&mut self, bytes: Vec<u8>)
        ensures { IsTextWritten self.old self.new bytes.items }
    {
        if let Node::Text(old) = self {
            *old = bytes;
        }
    }

    /// Puts bytes behind those of a text, and says whether there was memory for them; leaves the node as it is where it is
    /// no text.
    #[inline(always)]
    fn append_text(&mut self, bytes: &[u8]) -> Result<(), Fault>
        ensures written { IsTextAppended self.old self.new bytes.now result }
        ensures fault { IfErr result (λ e. e ≡ Fault.Memory) }
    {
        match self {
            Node::Text(old) => match old.extend_from_slice(bytes) {
                Ok(()) => Ok(()),
                Err(_) => Err(Fault::Memory),
            },
            _ => Ok(()),
        }
    }
}
