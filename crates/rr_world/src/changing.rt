//! Changes of one object of a ractor, and reads.

ghost use Rattle.std.specs.Prelude.{◌≡◌, IfSome, IfNone, IsTrue};
ghost use Rattle.rr_world.specs.Changing.{
  Appends,
  AreRaisable,
  AreSettable,
  AreWritable,
  Clears,
  Freezes,
  IsNamedRef,
  IsWritableText,
  MayBeAppended,
  MayBePushed,
  MayBeRaised,
  MayBeSet,
  Pushes,
  Reads,
  Sets,
  SetsRaised,
  Takes,
  Writes,
};
ghost use Rattle.rr_space.specs.Labels.{is_raised_label, label_of};
ghost use Rattle.rr_world.specs.ObjectCases.{part_label};

use crate::outcome::Outcome;
use crate::ractor::Ractor;
use crate::step::{Operand, RaisedPart};
use rr_base::{Fault, Sym};
use rr_space::{Kind, Label, Ref};
use std::alloc::Global;

// The label that a part of an exception stands under.
fn label_of_part(part: RaisedPart) -> Label
    ensures is { label_of result ≡ part_label part }
    ensures raised { IsTrue (is_raised_label (label_of result)) }
{
    match part {
        RaisedPart::Message => Label::Message,
        RaisedPart::Cause => Label::Cause,
        RaisedPart::Ractor => Label::Ractor,
    }
}

impl Ractor {
    /// Freezes one object.
    pub(crate) fn freeze(&mut self, object: Operand) -> Outcome
        ensures { Freezes object result self.old self.new }
    {
        let Some(object) = self.named(object) else {
            return Outcome::NotEnabled;
        };
        if self.is_in_published(object) {
            return Outcome::NotEnabled;
        }
        if !self.space.can_freeze(object) {
            return Outcome::NotEnabled;
        }
        self.space.freeze(object);
        Outcome::Done
    }

    // The text that the operand is, where it may be written.
    fn writable_text(&self, text: Operand) -> Option<Ref>
        ensures some { IfSome result (λ v. IsWritableText text self.now v) }
        ensures none { IfNone result (MayBeAppended text self.now → ⊥) }
    {
        let text = self.named(text)?;
        if !self.space.can_write(text) || self.space.kind_of(text) != Kind::Text {
            return None;
        }
        Some(text)
    }

    /// Puts a byte behind those of a text.
    pub(crate) fn append(&mut self, text: Operand, byte: u8) -> Outcome
        ensures { Appends text byte result self.old self.new }
    {
        let Some(text) = self.writable_text(text) else {
            return Outcome::NotEnabled;
        };
        if let Err(fault) = self.space.append_text(text, &[byte]) {
            return Outcome::Refused(fault);
        }
        Outcome::Done
    }

    /// Takes all bytes out of a text.
    pub(crate) fn clear_text(&mut self, alloc: Global, text: Operand) -> Outcome
        ensures { Clears text result self.old self.new }
    {
        let Some(text) = self.writable_text(text) else {
            return Outcome::NotEnabled;
        };
        self.space.write_text(text, Vec::new(alloc));
        Outcome::Done
    }

    // The array and the value that the operands are, where the array may be written.
    fn writable_array(&self, array: Operand, value: Operand) -> Option<(Ref, Ref)>
        ensures some { IfSome result (λ p. AreWritable array value self.now p.0 p.1) }
        ensures none { IfNone result (MayBePushed array self.now → IsNamedRef value self.now → ⊥) }
    {
        let array = self.named(array)?;
        let value = self.named(value)?;
        if !self.space.can_write(array) || self.space.kind_of(array) != Kind::Array {
            return None;
        }
        Some((array, value))
    }

    /// Puts a value behind the elements of an array.
    pub(crate) fn push(&mut self, array: Operand, value: Operand) -> Outcome
        ensures { Pushes array value result self.old self.new }
    {
        let Some((array, value)) = self.writable_array(array, value) else {
            return Outcome::NotEnabled;
        };
        if let Err(fault) = self.space.push_element(array, value) {
            return Outcome::Refused(fault);
        }
        Outcome::Done
    }

    /// Puts a value in the place of an element of an array.
    pub(crate) fn write(&mut self, array: Operand, place: u32, value: Operand) -> Outcome
        ensures { Writes array place value result self.old self.new }
    {
        let Some((array, value)) = self.writable_array(array, value) else {
            return Outcome::NotEnabled;
        };
        if place as usize >= self.space.arity(array) {
            return Outcome::NotEnabled;
        }
        self.space.write_element(array, place as usize, value);
        Outcome::Done
    }

    /// Takes an element out of an array.
    pub(crate) fn take_element(&mut self, array: Operand, place: u32) -> Outcome
        ensures { Takes array place result self.old self.new }
    {
        let Some((array, _)) = self.writable_array(array, Operand::Nil) else {
            return Outcome::NotEnabled;
        };
        if place as usize >= self.space.arity(array) {
            return Outcome::NotEnabled;
        }
        let _element = self.space.take_element(array, place as usize);
        Outcome::Done
    }

    // The object with fields and the value that the operands are, where the object may be written.
    fn writable_object(&self, object: Operand, value: Operand) -> Option<(Ref, Ref)>
        ensures some { IfSome result (λ p. AreSettable object value self.now p.0 p.1) }
        ensures none { IfNone result (MayBeSet object self.now → IsNamedRef value self.now → ⊥) }
    {
        let object = self.named(object)?;
        let value = self.named(value)?;
        if !self.space.can_write(object) {
            return None;
        }
        match self.space.kind_of(object) {
            Kind::Object | Kind::Exception => Some((object, value)),
            _ => None,
        }
    }

    /// Sets a field of a plain object or of an exception.
    pub(crate) fn set_field(&mut self, object: Operand, name: Sym, value: Operand) -> Outcome
        ensures { Sets object name.0 value result self.old self.new }
    {
        let Some((object, value)) = self.writable_object(object, value) else {
            return Outcome::NotEnabled;
        };
        if let Err(fault) = self.space.write_field(object, name, value) {
            return Outcome::Refused(fault);
        }
        Outcome::Done
    }

    // The exception and the value that the operands are, where the exception may be written.
    fn writable_exception(&self, exception: Operand, value: Operand) -> Option<(Ref, Ref)>
        ensures some { IfSome result (λ p. AreRaisable exception value self.now p.0 p.1) }
        ensures none { IfNone result (MayBeRaised exception self.now → IsNamedRef value self.now → ⊥) }
    {
        let exception = self.named(exception)?;
        let value = self.named(value)?;
        if !self.space.can_write(exception) || self.space.kind_of(exception) != Kind::Exception {
            return None;
        }
        Some((exception, value))
    }

    /// Sets a part of an exception.
    pub(crate) fn set_raised(
        &mut self,
        exception: Operand,
        part: RaisedPart,
        value: Operand,
    ) -> Outcome
        ensures { SetsRaised exception part value result self.old self.new }
    {
        let Some((exception, value)) = self.writable_exception(exception, value) else {
            return Outcome::NotEnabled;
        };
        self.space
            .write_raised(exception, label_of_part(part), value);
        Outcome::Done
    }

    /// Puts what stands under the label in an object behind the roots.
    pub(crate) fn read(&mut self, object: Operand, label: Label) -> Outcome
        ensures { Reads object (label_of label) result self.old self.new }
    {
        // With the number of slots comes that no reference in them leads nowhere.
        let _slots = self.space.len();
        let Some(object) = self.named(object) else {
            return Outcome::NotEnabled;
        };
        let Some(found) = self.space.read(object, label) else {
            return Outcome::NotEnabled;
        };
        if self.roots.reserve(1).is_err() {
            return Outcome::Refused(Fault::Memory);
        }
        self.roots.push_reserved(found);
        Outcome::Done
    }
}
