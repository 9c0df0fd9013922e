//! The built-in classes.

ghost use Rattle.std.specs.Prelude.{◌≡◌, ◌≤◌, ◌++◌, codes, MatchOption};
ghost use Rattle.rr_base.specs.Classes.{class_id, class_name};
ghost use Rattle.rr_base.specs.ClassNames.{class_named};

use crate::name::ClassId;

/// A built-in class.
#[derive(Clone, Copy, Debug, PartialEq, Eq, Drop)]
pub enum BuiltInClass {
    BasicObject,
    MovedObject,
    Object,
    Integer,
    String,
    Symbol,
    Array,
    Hash,
    NilClass,
    TrueClass,
    FalseClass,
    Class,
    Ractor,
    Exception,
    SystemStackError,
    StandardError,
    ArgumentError,
    IndexError,
    StopIteration,
    ClosedError,
    LocalJumpError,
    NameError,
    NoMethodError,
    RangeError,
    RuntimeError,
    FrozenError,
    TypeError,
    ZeroDivisionError,
    RactorError,
    RemoteError,
    MovedError,
    IsolationError,
}

impl BuiltInClass {
    /// The name of the class, as a script prints it.
    pub fn name(self) -> &'static str
        ensures { result.now ≡ class_name self }
    {
        match self {
            BuiltInClass::BasicObject => "BasicObject",
            BuiltInClass::MovedObject => "Ractor::MovedObject",
            BuiltInClass::Object => "Object",
            BuiltInClass::Integer => "Integer",
            BuiltInClass::String => "String",
            BuiltInClass::Symbol => "Symbol",
            BuiltInClass::Array => "Array",
            BuiltInClass::Hash => "Hash",
            BuiltInClass::NilClass => "NilClass",
            BuiltInClass::TrueClass => "TrueClass",
            BuiltInClass::FalseClass => "FalseClass",
            BuiltInClass::Class => "Class",
            BuiltInClass::Ractor => "Ractor",
            BuiltInClass::Exception => "Exception",
            BuiltInClass::SystemStackError => "SystemStackError",
            BuiltInClass::StandardError => "StandardError",
            BuiltInClass::ArgumentError => "ArgumentError",
            BuiltInClass::IndexError => "IndexError",
            BuiltInClass::StopIteration => "StopIteration",
            BuiltInClass::ClosedError => "Ractor::ClosedError",
            BuiltInClass::LocalJumpError => "LocalJumpError",
            BuiltInClass::NameError => "NameError",
            BuiltInClass::NoMethodError => "NoMethodError",
            BuiltInClass::RangeError => "RangeError",
            BuiltInClass::RuntimeError => "RuntimeError",
            BuiltInClass::FrozenError => "FrozenError",
            BuiltInClass::TypeError => "TypeError",
            BuiltInClass::ZeroDivisionError => "ZeroDivisionError",
            BuiltInClass::RactorError => "Ractor::Error",
            BuiltInClass::RemoteError => "Ractor::RemoteError",
            BuiltInClass::MovedError => "Ractor::MovedError",
            BuiltInClass::IsolationError => "Ractor::IsolationError",
        }
    }

    /// The class of this name, spelled as [`BuiltInClass::name`] spells it.
    pub fn named(name: &[u8]) -> Option<BuiltInClass>
        ensures { result ≡ class_named name.now }
    {
        for number in 0..ClassId::BUILT_IN {
            let Some(class) = ClassId(number).built_in() else {
                unreachable!()
            };
            if class.name().as_bytes() == name {
                return Some(class);
            }
        }
        None
    }

    /// The class of this name in `Ractor`: `Error` is that of `Ractor::Error`.
    #[tactic(auto, using(crate::proofs::Classes::in_ractor))]
    pub fn named_in_ractor(name: &[u8]) -> Option<BuiltInClass>
        ensures { result ≡ class_named (codes "Ractor::" ++ name.now) }
    {
        if "MovedObject".as_bytes() == name {
            Some(BuiltInClass::MovedObject)
        } else if "ClosedError".as_bytes() == name {
            Some(BuiltInClass::ClosedError)
        } else if "Error".as_bytes() == name {
            Some(BuiltInClass::RactorError)
        } else if "RemoteError".as_bytes() == name {
            Some(BuiltInClass::RemoteError)
        } else if "MovedError".as_bytes() == name {
            Some(BuiltInClass::MovedError)
        } else if "IsolationError".as_bytes() == name {
            Some(BuiltInClass::IsolationError)
        } else {
            None
        }
    }

    /// The number of the class.
    pub fn id(self) -> ClassId
        ensures { result ≡ class_id self }
    {
        match self {
            BuiltInClass::BasicObject => ClassId::BASIC_OBJECT,
            BuiltInClass::MovedObject => ClassId::MOVED_OBJECT,
            BuiltInClass::Object => ClassId::OBJECT,
            BuiltInClass::Integer => ClassId::INTEGER,
            BuiltInClass::String => ClassId::STRING,
            BuiltInClass::Symbol => ClassId::SYMBOL,
            BuiltInClass::Array => ClassId::ARRAY,
            BuiltInClass::Hash => ClassId::HASH,
            BuiltInClass::NilClass => ClassId::NIL_CLASS,
            BuiltInClass::TrueClass => ClassId::TRUE_CLASS,
            BuiltInClass::FalseClass => ClassId::FALSE_CLASS,
            BuiltInClass::Class => ClassId::CLASS,
            BuiltInClass::Ractor => ClassId::RACTOR,
            BuiltInClass::Exception => ClassId::EXCEPTION,
            BuiltInClass::SystemStackError => ClassId::SYSTEM_STACK_ERROR,
            BuiltInClass::StandardError => ClassId::STANDARD_ERROR,
            BuiltInClass::ArgumentError => ClassId::ARGUMENT_ERROR,
            BuiltInClass::IndexError => ClassId::INDEX_ERROR,
            BuiltInClass::StopIteration => ClassId::STOP_ITERATION,
            BuiltInClass::ClosedError => ClassId::CLOSED_ERROR,
            BuiltInClass::LocalJumpError => ClassId::LOCAL_JUMP_ERROR,
            BuiltInClass::NameError => ClassId::NAME_ERROR,
            BuiltInClass::NoMethodError => ClassId::NO_METHOD_ERROR,
            BuiltInClass::RangeError => ClassId::RANGE_ERROR,
            BuiltInClass::RuntimeError => ClassId::RUNTIME_ERROR,
            BuiltInClass::FrozenError => ClassId::FROZEN_ERROR,
            BuiltInClass::TypeError => ClassId::TYPE_ERROR,
            BuiltInClass::ZeroDivisionError => ClassId::ZERO_DIVISION_ERROR,
            BuiltInClass::RactorError => ClassId::RACTOR_ERROR,
            BuiltInClass::RemoteError => ClassId::REMOTE_ERROR,
            BuiltInClass::MovedError => ClassId::MOVED_ERROR,
            BuiltInClass::IsolationError => ClassId::ISOLATION_ERROR,
        }
    }
}

impl ClassId {
    pub const BASIC_OBJECT: ClassId = ClassId(0);

    pub const MOVED_OBJECT: ClassId = ClassId(1);

    pub const OBJECT: ClassId = ClassId(2);

    pub const INTEGER: ClassId = ClassId(3);

    pub const STRING: ClassId = ClassId(4);

    pub const SYMBOL: ClassId = ClassId(5);

    pub const ARRAY: ClassId = ClassId(6);

    pub const HASH: ClassId = ClassId(7);

    pub const NIL_CLASS: ClassId = ClassId(8);

    pub const TRUE_CLASS: ClassId = ClassId(9);

    pub const FALSE_CLASS: ClassId = ClassId(10);

    pub const CLASS: ClassId = ClassId(11);

    pub const RACTOR: ClassId = ClassId(12);

    pub const EXCEPTION: ClassId = ClassId(13);

    pub const SYSTEM_STACK_ERROR: ClassId = ClassId(14);

    pub const STANDARD_ERROR: ClassId = ClassId(15);

    pub const ARGUMENT_ERROR: ClassId = ClassId(16);

    pub const INDEX_ERROR: ClassId = ClassId(17);

    pub const STOP_ITERATION: ClassId = ClassId(18);

    pub const CLOSED_ERROR: ClassId = ClassId(19);

    pub const LOCAL_JUMP_ERROR: ClassId = ClassId(20);

    pub const NAME_ERROR: ClassId = ClassId(21);

    pub const NO_METHOD_ERROR: ClassId = ClassId(22);

    pub const RANGE_ERROR: ClassId = ClassId(23);

    pub const RUNTIME_ERROR: ClassId = ClassId(24);

    pub const FROZEN_ERROR: ClassId = ClassId(25);

    pub const TYPE_ERROR: ClassId = ClassId(26);

    pub const ZERO_DIVISION_ERROR: ClassId = ClassId(27);

    pub const RACTOR_ERROR: ClassId = ClassId(28);

    pub const REMOTE_ERROR: ClassId = ClassId(29);

    pub const MOVED_ERROR: ClassId = ClassId(30);

    pub const ISOLATION_ERROR: ClassId = ClassId(31);

    /// How many built-in classes there are; the classes of a program have the numbers from here on.
    pub const BUILT_IN: u32 = 32;

    /// The built-in class of this number, if it is not the number of a program's class.
    pub fn built_in(self) -> Option<BuiltInClass>
        ensures { MatchOption result (Self.BUILT_IN ≤ self.0) (λ class. class_id class ≡ self) }
    {
        match self {
            ClassId::BASIC_OBJECT => Some(BuiltInClass::BasicObject),
            ClassId::MOVED_OBJECT => Some(BuiltInClass::MovedObject),
            ClassId::OBJECT => Some(BuiltInClass::Object),
            ClassId::INTEGER => Some(BuiltInClass::Integer),
            ClassId::STRING => Some(BuiltInClass::String),
            ClassId::SYMBOL => Some(BuiltInClass::Symbol),
            ClassId::ARRAY => Some(BuiltInClass::Array),
            ClassId::HASH => Some(BuiltInClass::Hash),
            ClassId::NIL_CLASS => Some(BuiltInClass::NilClass),
            ClassId::TRUE_CLASS => Some(BuiltInClass::TrueClass),
            ClassId::FALSE_CLASS => Some(BuiltInClass::FalseClass),
            ClassId::CLASS => Some(BuiltInClass::Class),
            ClassId::RACTOR => Some(BuiltInClass::Ractor),
            ClassId::EXCEPTION => Some(BuiltInClass::Exception),
            ClassId::SYSTEM_STACK_ERROR => Some(BuiltInClass::SystemStackError),
            ClassId::STANDARD_ERROR => Some(BuiltInClass::StandardError),
            ClassId::ARGUMENT_ERROR => Some(BuiltInClass::ArgumentError),
            ClassId::INDEX_ERROR => Some(BuiltInClass::IndexError),
            ClassId::STOP_ITERATION => Some(BuiltInClass::StopIteration),
            ClassId::CLOSED_ERROR => Some(BuiltInClass::ClosedError),
            ClassId::LOCAL_JUMP_ERROR => Some(BuiltInClass::LocalJumpError),
            ClassId::NAME_ERROR => Some(BuiltInClass::NameError),
            ClassId::NO_METHOD_ERROR => Some(BuiltInClass::NoMethodError),
            ClassId::RANGE_ERROR => Some(BuiltInClass::RangeError),
            ClassId::RUNTIME_ERROR => Some(BuiltInClass::RuntimeError),
            ClassId::FROZEN_ERROR => Some(BuiltInClass::FrozenError),
            ClassId::TYPE_ERROR => Some(BuiltInClass::TypeError),
            ClassId::ZERO_DIVISION_ERROR => Some(BuiltInClass::ZeroDivisionError),
            ClassId::RACTOR_ERROR => Some(BuiltInClass::RactorError),
            ClassId::REMOTE_ERROR => Some(BuiltInClass::RemoteError),
            ClassId::MOVED_ERROR => Some(BuiltInClass::MovedError),
            ClassId::ISOLATION_ERROR => Some(BuiltInClass::IsolationError),
            _ => None,
        }
    }
}
