//! What is known beforehand of the new objects of the program's first classes.

ghost use Rattle.std.specs.Prelude.{◌≡◌, map, Some, IfOk, IsTrue};
ghost use Rattle.std.specs.Option.{option_map};
ghost use Rattle.rr_space.specs.declared.refer.Ref.{Ref as Refs};
ghost use Rattle.rr_tree.specs.Methods.{IsTableOf};
ghost use Rattle.rr_builtin.specs.Methods.{method_named};
ghost use Rattle.rr_eval.specs.declared.call.Callee.{Callee as Called};
ghost use Rattle.rr_eval.specs.Callees.{method_of as built_in_of};
ghost use Rattle.rr_eval.specs.Dispatch.{initializer, made_by};
ghost use Rattle.rr_eval.specs.Prepared.{AreInstances, AreKnown, AreSymbolsOf, IsMakerOf, initializer_of};
ghost use Rattle.rr_eval.specs.Turns.{context_of};

use crate::call::Callee;
use crate::operator_symbols::OperatorSymbols;
use crate::plain_methods::{definition_in, method_called};
use crate::prepared::{Body, Definition, Work};
use crate::serve::method_of;
use rr_base::{ClassId, Sym};
use rr_builtin::{BuiltInMethod, Methods, may_make};
use rr_space::Ref;
use rr_tree::{MethodName, MethodTable, Program};
use std::alloc::{AllocError, Global};

/// The program's `initialize`, with the class in which it stands.
#[derive(Clone, Copy)]
pub struct Initializer {
    pub class: ClassId,
    pub body: Body,
}

/// The program's `initialize` for the objects of a class.
pub fn initializer_of(
    program: &Program,
    table: &MethodTable,
    operators: &OperatorSymbols,
    class: ClassId,
) -> Option<Initializer>
    requires table { IsTableOf program.now table.now }
    requires operators { AreSymbolsOf program.now operators.now }
    ensures { option_map (initializer_of program.now.nodes.items) result ≡ initializer (context_of program.now) class }
{
    match method_called(program, table, operators, class, Callee::Initialize) {
        Some(
            Definition {
                class,
                work: Work::Run(body),
            },
        ) => Some(Initializer { class, body }),
        _ => None,
    }
}

/// What is known of the new objects of a class.
#[derive(Clone, Copy)]
pub struct Instances {
    /// The program's `initialize` for them.
    pub initializer: Option<Initializer>,
    /// Whether they are exceptions.
    pub exceptions: bool,
    /// The name by which a call of the class makes one that gets the program's `initialize`, where there is one.
    pub maker: Option<Sym>,
}

/// Whether a call of a class by a name makes a new object that gets the program's `initialize`, where no method of the program is found.
fn made_by(
    program: &Program,
    methods: &Methods,
    class: ClassId,
    found: &Option<Initializer>,
    name: Sym,
) -> bool
    requires methods { methods.now ≡ map (λ s. method_named s.items) program.now.symbols.items }
    requires found { option_map (initializer_of program.now.nodes.items) found.now ≡ initializer (context_of program.now) class }
    ensures { IsTrue result → made_by (context_of program.now) (built_in_of (context_of program.now) (Called.Name name)) (Refs.Class class) ≡ Some class }
{
    match method_of(program, methods, Callee::Name(name)) {
        Some(BuiltInMethod::New) => { may_make(program, Ref::Class(class)) && found.is_some() }
        _ => false,
    }
}

/// The name by which a call of a class makes a new object that gets the program's `initialize`: this one, where no method of the program
/// has it that classes find.
fn maker_of(
    program: &Program,
    table: &MethodTable,
    methods: &Methods,
    class: ClassId,
    found: &Option<Initializer>,
    name: Sym,
) -> Option<Sym>
    requires table { IsTableOf program.now table.now }
    requires methods { methods.now ≡ map (λ s. method_named s.items) program.now.symbols.items }
    requires found { option_map (initializer_of program.now.nodes.items) found.now ≡ initializer (context_of program.now) class }
    ensures { IsMakerOf (context_of program.now) class result }
{
    if !made_by(program, methods, class, found, name) {
        return None;
    }
    match definition_in(program, table, ClassId::CLASS, MethodName::Plain(name)) {
        Some(_) => None,
        None => Some(name),
    }
}

/// What is known of the new objects of a class, whose maker may have a name.
fn instances_of(
    program: &Program,
    table: &MethodTable,
    operators: &OperatorSymbols,
    methods: &Methods,
    class: ClassId,
    name: Option<Sym>,
) -> Instances
    requires table { IsTableOf program.now table.now }
    requires operators { AreSymbolsOf program.now operators.now }
    requires methods { methods.now ≡ map (λ s. method_named s.items) program.now.symbols.items }
    ensures { AreInstances (context_of program.now) class result }
{
    let initializer = initializer_of(program, table, operators, class);
    let maker = match name {
        Some(name) => maker_of(program, table, methods, class, &initializer, name),
        None => None,
    };
    Instances {
        initializer,
        exceptions: program.descends(class, ClassId::EXCEPTION),
        maker,
    }
}

/// How many classes of the program have their `initialize` looked up beforehand. To look one up takes a step for each definition of an
/// `initialize`, once more for each class above, and so they are fewer in a long program.
fn most_classes(program: &Program) -> usize {
    match program.nodes.len() {
        0..=9_999 => 256,
        10_000..=99_999 => 64,
        _ => 16,
    }
}

/// What is known of the new objects of the first classes, by the numbers of these.
pub fn known_instances(
    alloc: Global,
    program: &Program,
    table: &MethodTable,
    operators: &OperatorSymbols,
    methods: &Methods,
) -> Result<Vec<Instances>, AllocError>
    requires table { IsTableOf program.now table.now }
    requires operators { AreSymbolsOf program.now operators.now }
    requires methods { methods.now ≡ map (λ s. method_named s.items) program.now.symbols.items }
    ensures { IfOk result (λ known. AreKnown (context_of program.now) known.items) }
{
    let name = program.symbol_named(b"new");
    let mut known = Vec::new(alloc);
    let classes = program.classes.len().min(most_classes(program));
    let count = classes.saturating_add(ClassId::BUILT_IN as usize);
    for number in 0..count {
        let Ok(class) = u32::try_from(number) else {
            return Ok(known);
        };
        let class = ClassId(class);
        known.push(instances_of(program, table, operators, methods, class, name))?;
    }
    Ok(known)
}
