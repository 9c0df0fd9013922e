//! How names lead to built-in methods.

ghost use Rattle.std.specs.Prelude.{◌≡◌, None, IfOk, map, slice_index_or};
ghost use Rattle.rr_builtin.specs.Methods.{arithmetic, comparisons, number_methods, object_methods, reading_methods, writing_methods, whole_methods, telling_methods, named_among, method_named, NamesAreOne, NamesAreMet, TableIsByName};

use crate::method::{BuiltInMethod, ContentMethod, NumberMethod, ObjectMethod, TellingMethod};
use rr_base::Sym;
use rr_tree::{BinaryOperator, Program};
use std::alloc::{AllocError, Global};
use std::marker::Model;

fn arithmetic_named(name: &[u8]) -> Option<BuiltInMethod>
    ensures { result ≡ named_among name.now arithmetic }
{
    let operator = if name == b"+".as_slice() {
        BinaryOperator::Add
    } else if name == b"-".as_slice() {
        BinaryOperator::Subtract
    } else if name == b"*".as_slice() {
        BinaryOperator::Multiply
    } else if name == b"/".as_slice() {
        BinaryOperator::Divide
    } else if name == b"%".as_slice() {
        BinaryOperator::Remainder
    } else {
        return None;
    };
    Some(BuiltInMethod::Operator(operator))
}

fn comparison_named(name: &[u8]) -> Option<BuiltInMethod>
    ensures { result ≡ named_among name.now comparisons }
{
    let operator = if name == b"<".as_slice() {
        BinaryOperator::Less
    } else if name == b"<=".as_slice() {
        BinaryOperator::LessOrEqual
    } else if name == b">".as_slice() {
        BinaryOperator::Greater
    } else if name == b">=".as_slice() {
        BinaryOperator::GreaterOrEqual
    } else if name == b"<=>".as_slice() {
        BinaryOperator::Compare
    } else if name == b"==".as_slice() {
        BinaryOperator::Equal
    } else if name == b"!=".as_slice() {
        BinaryOperator::NotEqual
    } else {
        return None;
    };
    Some(BuiltInMethod::Operator(operator))
}

fn number_method_named(name: &[u8]) -> Option<BuiltInMethod>
    ensures { result ≡ named_among name.now number_methods }
{
    let method = if name == b"-@".as_slice() {
        NumberMethod::Opposite
    } else if name == b"abs".as_slice() {
        NumberMethod::Absolute
    } else if name == b"even?".as_slice() {
        NumberMethod::IsEven
    } else if name == b"odd?".as_slice() {
        NumberMethod::IsOdd
    } else if name == b"zero?".as_slice() {
        NumberMethod::IsZero
    } else {
        return None;
    };
    Some(BuiltInMethod::Number(method))
}

fn object_method_named(name: &[u8]) -> Option<BuiltInMethod>
    ensures { result ≡ named_among name.now object_methods }
{
    let method = if name == b"class".as_slice() {
        ObjectMethod::Class
    } else if name == b"is_a?".as_slice() {
        ObjectMethod::IsA
    } else if name == b"kind_of?".as_slice() {
        ObjectMethod::KindOf
    } else if name == b"nil?".as_slice() {
        ObjectMethod::IsNil
    } else if name == b"equal?".as_slice() {
        ObjectMethod::IsIdentical
    } else if name == b"!".as_slice() {
        ObjectMethod::Not
    } else if name == b"freeze".as_slice() {
        ObjectMethod::Freeze
    } else if name == b"frozen?".as_slice() {
        ObjectMethod::IsFrozen
    } else if name == b"to_s".as_slice() {
        ObjectMethod::ToS
    } else if name == b"inspect".as_slice() {
        ObjectMethod::Inspect
    } else if name == b"dup".as_slice() {
        ObjectMethod::Dup
    } else {
        return None;
    };
    Some(BuiltInMethod::Object(method))
}

fn reading_method_named(name: &[u8]) -> Option<BuiltInMethod>
    ensures { result ≡ named_among name.now reading_methods }
{
    let method = if name == b"size".as_slice() {
        ContentMethod::Size
    } else if name == b"length".as_slice() {
        ContentMethod::Length
    } else if name == b"empty?".as_slice() {
        ContentMethod::IsEmpty
    } else if name == b"first".as_slice() {
        ContentMethod::First
    } else if name == b"last".as_slice() {
        ContentMethod::Last
    } else if name == b"[]".as_slice() {
        ContentMethod::At
    } else if name == b"include?".as_slice() {
        ContentMethod::Includes
    } else {
        return None;
    };
    Some(BuiltInMethod::Content(method))
}

fn writing_method_named(name: &[u8]) -> Option<BuiltInMethod>
    ensures { result ≡ named_among name.now writing_methods }
{
    let method = if name == b"<<".as_slice() {
        ContentMethod::Append
    } else if name == b"push".as_slice() {
        ContentMethod::Push
    } else if name == b"pop".as_slice() {
        ContentMethod::Pop
    } else if name == b"shift".as_slice() {
        ContentMethod::Shift
    } else if name == b"[]=".as_slice() {
        ContentMethod::SetAt
    } else if name == b"delete".as_slice() {
        ContentMethod::Delete
    } else {
        return None;
    };
    Some(BuiltInMethod::Content(method))
}

fn whole_method_named(name: &[u8]) -> Option<BuiltInMethod>
    ensures { result ≡ named_among name.now whole_methods }
{
    let method = if name == b"keys".as_slice() {
        ContentMethod::Keys
    } else if name == b"values".as_slice() {
        ContentMethod::Values
    } else if name == b"key?".as_slice() {
        ContentMethod::HasKey
    } else if name == b"sum".as_slice() {
        ContentMethod::Sum
    } else if name == b"sort".as_slice() {
        ContentMethod::Sort
    } else if name == b"join".as_slice() {
        ContentMethod::Join
    } else {
        return None;
    };
    Some(BuiltInMethod::Content(method))
}

fn telling_method_named(name: &[u8]) -> Option<BuiltInMethod>
    ensures { result ≡ named_among name.now telling_methods }
{
    let method = if name == b"name".as_slice() {
        TellingMethod::Name
    } else if name == b"message".as_slice() {
        TellingMethod::Message
    } else if name == b"cause".as_slice() {
        TellingMethod::Cause
    } else if name == b"ractor".as_slice() {
        TellingMethod::Ractor
    } else if name == b"new".as_slice() {
        return Some(BuiltInMethod::New);
    } else {
        return None;
    };
    Some(BuiltInMethod::Telling(method))
}

/// The built-in method of a name.
#[tactic(auto, unfolding(crate::specs::Methods::method_named))]
fn method_named(name: &[u8]) -> Option<BuiltInMethod>
    ensures { result ≡ method_named name.now }
{
    if let Some(method) = arithmetic_named(name) {
        return Some(method);
    }
    if let Some(method) = comparison_named(name) {
        return Some(method);
    }
    if let Some(method) = number_method_named(name) {
        return Some(method);
    }
    if let Some(method) = object_method_named(name) {
        return Some(method);
    }
    if let Some(method) = reading_method_named(name) {
        return Some(method);
    }
    if let Some(method) = writing_method_named(name) {
        return Some(method);
    }
    if let Some(method) = whole_method_named(name) {
        return Some(method);
    }
    telling_method_named(name)
}

/// The built-in methods of a program's names, by the numbers of the names.
#[derive(Drop)]
pub struct Methods {
    by_symbol: Vec<Option<BuiltInMethod>>,
}

impl Model for Methods {
    ghost use Rattle.std.specs.Prelude.{List, Option};
    ghost use Rattle.rr_builtin.specs.declared.method.BuiltInMethod.{BuiltInMethod};

    ghost Value = { List (Option BuiltInMethod) };

    ghost view = { λ s. s.by_symbol.items };
}

impl Methods {
    /// The built-in methods that the names of the program lead to.
    pub fn of(alloc: Global, program: &Program) -> Result<Methods, AllocError>
        ensures { IfOk result (λ methods. methods ≡ map (λ s. method_named s.items) program.now.symbols.items) }
    {
        let by_symbol = program
            .symbols
            .iter()
            .map(|name| method_named(name))
            .collect(alloc)?;
        Ok(Methods { by_symbol })
    }

    /// The built-in method of a name; none where none has it.
    pub fn find(&self, name: Sym) -> Option<BuiltInMethod>
        ensures { result ≡ slice_index_or self.now name.0 None }
    {
        match self.by_symbol.get(name.0 as usize) {
            Some(method) => *method,
            None => None,
        }
    }
}

/// Each built-in method has a name of its own, and what a name finds has that name.
pub fn methods_have_names()
    ensures one { NamesAreOne }
    ensures met { NamesAreMet }
    ensures table { TableIsByName }
{}
