//! The methods of the program that calls of plain objects find, which are looked up beforehand: one for each name.

ghost use Rattle.std.specs.Prelude.{◌≡◌, map, IfOk, IsTrue};
ghost use Rattle.std.specs.Option.{option_map};
ghost use Rattle.rr_tree.specs.Tree.{tree_at};
ghost use Rattle.rr_tree.specs.Methods.{IsTableOf};
ghost use Rattle.rr_builtin.specs.Iterations.{iteration_named};
ghost use Rattle.rr_builtin.specs.Methods.{method_named};
ghost use Rattle.rr_space.specs.declared.kind.Kind.{Kind as Kinds};
ghost use Rattle.rr_space.specs.Kinds.{class_at, kind_at};
ghost use Rattle.rr_eval.specs.Dispatch.{called_name, is_below, method_called};
ghost use Rattle.rr_eval.specs.Methods.{method_in, work_of};
ghost use Rattle.rr_eval.specs.Prepared.{ArePlain, AreSymbolsOf, IsLocal, callable_of, plain_method, work_in};
ghost use Rattle.rr_eval.specs.Turns.{context_of};

use crate::call::Callee;
use crate::nodes::evaluated_node;
use crate::operator_symbols::OperatorSymbols;
use crate::prepared::{Body, Definition, Work};
use crate::serve::method_of;
use rr_base::{ClassId, Sym};
use rr_builtin::{
    BuiltInMethod, Iteration, Iterations, Methods, has, iterates, iterations_have_names,
    stands_below_object,
};
use rr_frames::Shape;
use rr_space::{Kind, Ref, Space};
use rr_tree::{MethodName, MethodTable, Node, NodeId, Program};
use std::alloc::{AllocError, Global};

/// The method of a name that a call of a plain object of a class finds: none where it runs no method of the program.
#[derive(Clone, Copy)]
pub struct PlainMethod {
    pub class: ClassId,
    pub definition: Option<Definition>,
}

/// What a call of the method does that a node defines.
#[inline(always)]
fn work_at(program: &Program, place: NodeId) -> Work
    ensures { work_in program.now.nodes.items result ≡ work_of (tree_at program.now.nodes.items place) }
{
    match evaluated_node(program, place) {
        Node::Method {
            name,
            parameters,
            size,
            body,
            ..
        } => Work::Run(Body {
            name,
            shape: Shape { parameters, size },
            node: body,
        }),
        Node::Reader(name) => Work::Read(name),
        Node::Writer(name) => Work::Write(name),
        _ => Work::Nothing,
    }
}

/// The method of a class, or of the nearest class above it.
#[inline(always)]
pub fn definition_in(
    program: &Program,
    table: &MethodTable,
    class: ClassId,
    name: MethodName,
) -> Option<Definition>
    requires { IsTableOf program.now table.now }
    ensures { option_map (callable_of program.now.nodes.items) result ≡ method_in program.now class name }
{
    match table.find(program, class, name) {
        Some(found) => Some(Definition {
            class: found.class,
            work: work_at(program, found.node),
        }),
        None => None,
    }
}

/// The method that a call finds for a class.
#[inline(always)]
pub fn method_called(
    program: &Program,
    table: &MethodTable,
    operators: &OperatorSymbols,
    class: ClassId,
    callee: Callee,
) -> Option<Definition>
    requires table { IsTableOf program.now table.now }
    requires operators { AreSymbolsOf program.now operators.now }
    ensures { option_map (callable_of program.now.nodes.items) result ≡ method_called (context_of program.now) class (called_name (context_of program.now) callee) }
{
    match operators.called_name(program, callee) {
        Some(name) => definition_in(program, table, class, name),
        None => None,
    }
}

/// Whether values of the kind have a built-in method that stands in a class below Object.
#[inline(always)]
pub fn is_below(kind: Kind, method: Option<BuiltInMethod>, iteration: Option<Iteration>) -> bool
    ensures { result ≡ is_below kind method iteration }
{
    match (method, iteration) {
        (Some(method), _) => has(kind, method) && stands_below_object(kind, method),
        (None, Some(iteration)) => iterates(kind, iteration),
        (None, None) => false,
    }
}

/// The method that a call of a plain object of a class finds.
fn plain_method(
    program: &Program,
    table: &MethodTable,
    methods: &Methods,
    iterations: &Iterations,
    class: ClassId,
    name: Sym,
) -> Option<Definition>
    requires table { IsTableOf program.now table.now }
    requires methods { methods.now ≡ map (λ s. method_named s.items) program.now.symbols.items }
    requires iterations { iterations.now ≡ map (λ s. iteration_named s.items) program.now.symbols.items }
    ensures { option_map (callable_of program.now.nodes.items) result ≡ plain_method (context_of program.now) class name }
{
    iterations_have_names();
    let definition = definition_in(program, table, class, MethodName::Plain(name))?;
    let method = method_of(program, methods, Callee::Name(name));
    if definition.class.0 == ClassId::OBJECT.0
        && is_below(Kind::Object, method, iterations.find(name))
    {
        None
    } else {
        Some(definition)
    }
}

/// The same, beside the class.
fn plain_of(
    program: &Program,
    table: &MethodTable,
    methods: &Methods,
    iterations: &Iterations,
    class: ClassId,
    name: Sym,
) -> PlainMethod
    requires table { IsTableOf program.now table.now }
    requires methods { methods.now ≡ map (λ s. method_named s.items) program.now.symbols.items }
    requires iterations { iterations.now ≡ map (λ s. iteration_named s.items) program.now.symbols.items }
    ensures { option_map (callable_of program.now.nodes.items) result.definition ≡ plain_method (context_of program.now) result.class name }
{
    let definition = plain_method(program, table, methods, iterations, class, name);
    PlainMethod { class, definition }
}

/// The classes of the program by the numbers of their names, and Object for all other names.
fn classes_by_name(alloc: Global, program: &Program) -> Result<Vec<ClassId>, AllocError> {
    let mut named = Vec::new(alloc);
    named.resize(program.symbols.len(), ClassId::OBJECT)?;
    let mut number = ClassId::BUILT_IN;
    for class in program.classes.as_slice() {
        if let Some(entry) = named.get_mut(class.name.0 as usize) {
            *entry = ClassId(number);
        }
        number = number.saturating_add(1);
    }
    Ok(named)
}

/// A class stands beside the name that a definition has, where it has one.
fn put_class(program: &Program, classes: &mut Vec<ClassId>, class: ClassId, place: NodeId) {
    let name = match evaluated_node(program, place) {
        Node::Method { name, .. } => name,
        Node::Reader(name) => name,
        _ => return,
    };
    if let Some(entry) = classes.get_mut(name.0 as usize) {
        *entry = class;
    }
}

/// A class stands beside the names of these definitions.
fn put_classes(
    program: &Program,
    classes: &mut Vec<ClassId>,
    class: ClassId,
    first: NodeId,
    count: u32,
) {
    for number in 0..count {
        put_class(program, classes, class, first.saturating_add(number));
    }
}

/// A class for each name: that in which its last definition stands. Which one it is says only of which objects the method is found
/// beforehand.
fn classes_of_names(alloc: Global, program: &Program) -> Result<Vec<ClassId>, AllocError> {
    let named = classes_by_name(alloc, program)?;
    let mut classes = Vec::new(alloc);
    classes.resize(program.symbols.len(), ClassId::OBJECT)?;
    for place in program.definitions.as_slice() {
        match evaluated_node(program, *place) {
            Node::ClassBody {
                name,
                first,
                count,
                ..
            } => {
                if let Some(class) = named.get(name.0 as usize) {
                    put_classes(program, &mut classes, *class, first, count);
                }
            }
            _ => put_class(program, &mut classes, ClassId::OBJECT, *place),
        }
    }
    Ok(classes)
}

/// The methods that calls of plain objects find, by the numbers of their names.
pub fn plain_methods(
    alloc: Global,
    program: &Program,
    table: &MethodTable,
    methods: &Methods,
    iterations: &Iterations,
) -> Result<Vec<PlainMethod>, AllocError>
    requires table { IsTableOf program.now table.now }
    requires methods { methods.now ≡ map (λ s. method_named s.items) program.now.symbols.items }
    requires iterations { iterations.now ≡ map (λ s. iteration_named s.items) program.now.symbols.items }
    ensures { IfOk result (λ plain. ArePlain (context_of program.now) plain.items) }
{
    let classes = classes_of_names(alloc, program)?;
    let mut plain = Vec::new(alloc);
    for number in 0..classes.len() {
        let Ok(name) = u32::try_from(number) else {
            return Ok(plain);
        };
        let class = classes[number];
        plain.push(plain_of(program, table, methods, iterations, class, Sym(name)))?;
    }
    Ok(plain)
}

/// Whether a value is an object of its space without contents of its own, of this class.
#[inline(always)]
pub fn is_plain(space: &Space, value: Ref, class: ClassId) -> bool
    ensures own { IsTrue result → IsLocal value }
    ensures kind { IsTrue result → kind_at space.now value ≡ Kinds.Object }
    ensures class { IsTrue result → class_at space.now value ≡ class }
{
    match value {
        // The kind is read first: the class of no other kind is looked for then.
        Ref::Local(_) => match space.kind_of(value) {
            Kind::Object => space.class_of(value).0 == class.0,
            _ => false,
        },
        _ => false,
    }
}
