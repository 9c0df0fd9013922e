//! The classes above a class.

ghost use Rattle.std.specs.Prelude.{◌≡◌, slice_get};
ghost use Rattle.std.specs.Option.{option_map};
ghost use Rattle.rr_base.specs.declared.name.ClassId.{ClassId as ClassNumber};
ghost use Rattle.rr_tree.specs.Ancestors.{parent_of, parent_in, superclass_of, descends};

use crate::class::Class;
use crate::program::Program;
use rr_base::{BuiltInClass, ClassId};

/// The built-in class above a built-in class.
fn parent_of(class: BuiltInClass) -> Option<BuiltInClass>
    ensures { result ≡ parent_of class }
{
    let parent = match class {
        BuiltInClass::BasicObject => return None,
        BuiltInClass::MovedObject => BuiltInClass::BasicObject,
        BuiltInClass::Object => BuiltInClass::BasicObject,
        BuiltInClass::Integer => BuiltInClass::Object,
        BuiltInClass::String => BuiltInClass::Object,
        BuiltInClass::Symbol => BuiltInClass::Object,
        BuiltInClass::Array => BuiltInClass::Object,
        BuiltInClass::Hash => BuiltInClass::Object,
        BuiltInClass::NilClass => BuiltInClass::Object,
        BuiltInClass::TrueClass => BuiltInClass::Object,
        BuiltInClass::FalseClass => BuiltInClass::Object,
        BuiltInClass::Class => BuiltInClass::Object,
        BuiltInClass::Ractor => BuiltInClass::Object,
        BuiltInClass::Exception => BuiltInClass::Object,
        BuiltInClass::SystemStackError => BuiltInClass::Exception,
        BuiltInClass::StandardError => BuiltInClass::Exception,
        BuiltInClass::ArgumentError => BuiltInClass::StandardError,
        BuiltInClass::IndexError => BuiltInClass::StandardError,
        BuiltInClass::StopIteration => BuiltInClass::IndexError,
        BuiltInClass::ClosedError => BuiltInClass::StopIteration,
        BuiltInClass::LocalJumpError => BuiltInClass::StandardError,
        BuiltInClass::NameError => BuiltInClass::StandardError,
        BuiltInClass::NoMethodError => BuiltInClass::NameError,
        BuiltInClass::RangeError => BuiltInClass::StandardError,
        BuiltInClass::RuntimeError => BuiltInClass::StandardError,
        BuiltInClass::FrozenError => BuiltInClass::RuntimeError,
        BuiltInClass::TypeError => BuiltInClass::StandardError,
        BuiltInClass::ZeroDivisionError => BuiltInClass::StandardError,
        BuiltInClass::RactorError => BuiltInClass::StandardError,
        BuiltInClass::RemoteError => BuiltInClass::RactorError,
        BuiltInClass::MovedError => BuiltInClass::RactorError,
        BuiltInClass::IsolationError => BuiltInClass::RactorError,
    };
    Some(parent)
}

/// The class above the class of that place among a program's classes.
fn nth_superclass(classes: &[Class], place: usize) -> Option<ClassId>
    ensures { option_map (λ (c : ClassNumber). c.0) result ≡ parent_in (slice_get classes.now place) }
{
    if place < classes.len() {
        Some(classes[place].superclass)
    } else {
        None
    }
}

impl Program {
    /// The class above a class; none above BasicObject, or where the program has no class of this number.
    pub fn superclass(&self, class: ClassId) -> Option<ClassId>
        ensures { option_map (λ (c : ClassNumber). c.0) result ≡ superclass_of self.now class.0 }
    {
        match class.built_in() {
            Some(built_in) => match parent_of(built_in) {
                Some(parent) => Some(parent.id()),
                None => None,
            },
            None => nth_superclass(&self.classes, (class.0 - ClassId::BUILT_IN) as usize),
        }
    }

    /// Whether `ancestor` is the class or stands above it.
    pub fn descends(&self, class: ClassId, ancestor: ClassId) -> bool
        ensures { result ≡ descends self.now class.0 ancestor.0 }
    {
        let steps = self.classes.len() + ClassId::BUILT_IN as usize;
        let mut current = class;
        for step in 0..steps {
            if current.0 == ancestor.0 {
                return true;
            }
            match self.superclass(current) {
                Some(above) => current = above,
                None => return false,
            }
        }
        current.0 == ancestor.0
    }
}
