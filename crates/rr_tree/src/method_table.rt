//! The methods of classes, by what calls them.

ghost use Rattle.std.specs.Prelude.{◌≡◌, ◌∷◌, [], ◌≤◌, ◌<◌, ◌+◌, ◌^◌, ◌++◌, ℕ, List, length, map, nat_eq, slice_index_or, Some, None, IfOk, OnOk, if◌then◌else◌};
ghost use Rattle.std.specs.Option.{option_map};
ghost use Rattle.rr_tree.specs.declared.method_table.MethodName.{MethodName as Name};
ghost use Rattle.rr_tree.specs.declared.node.Node.{Node as TableNode};
ghost use Rattle.rr_tree.specs.Nodes.{IsNoItem, node_tree, trees_in};
ghost use Rattle.rr_tree.specs.Tree.{tree_at};
ghost use Rattle.rr_tree.specs.Methods.{definition_at, standing_in, definitions_in, is_number, is_called_by, attribute_of, writer_of, calls, IsNamedBy, has_name, belongs, last_in, own_method, nearest_method, number_in, entries_under, Adds, IsTableOf, held_by};

use crate::name_index::Named;
use crate::node::{Node, NodeId};
use crate::program::Program;
use rr_base::{ClassId, Sym};
use std::alloc::{AllocError, Global};

/// What calls a method: a name, or an assignment to the attribute of a name.
#[derive(Clone, Copy, Debug, Drop)]
pub enum MethodName {
    Plain(Sym),
    Setter(Sym),
}

/// A method that was found: the class that has it, and the node of its definition.
#[derive(Clone, Copy, Debug, Drop)]
pub struct Found {
    pub class: ClassId,
    pub node: NodeId,
}

/// What calls a method: its name, and assignments to an attribute.
#[derive(Clone, Copy, Drop)]
struct Callers {
    name: Option<Sym>,
    attribute: Option<Sym>,
}

/// A definition: the name of the class in whose body it stands, none at top level, and its node.
#[derive(Clone, Copy, Drop)]
struct Entry {
    class: Option<Sym>,
    node: NodeId,
}

/// The definitions of a program, by what calls them.
#[derive(Drop)]
pub struct MethodTable {
    /// The definitions that a name calls, by the number of the name; later ones stand behind.
    plain: Vec<Vec<Entry>>,
    /// The definitions that an assignment to an attribute calls, alike.
    setters: Vec<Vec<Entry>>,
}

/// The place of the node that an item stands for.
fn part_place(program: &Program, place: NodeId) -> NodeId
    ensures tree { tree_at program.now.nodes.items result ≡ tree_at program.now.nodes.items place }
    ensures part { IsNoItem (slice_index_or program.now.nodes.items result Node.Nil) }
{
    let mut at = place;
    loop {
        match program.node(at) {
            Node::Item(part) => at = part,
            _ => return at,
        }
    }
}

/// There are as many lists as this, or more.
fn grow(alloc: Global, lists: &mut Vec<Vec<Entry>>, count: usize) -> Result<(), AllocError>
    ensures kept { OnOk result ((x : ℕ) → slice_index_or (map (λ l. l.items) lists.new.items) x [] ≡ slice_index_or (map (λ l. l.items) lists.old.items) x []) }
    ensures count { OnOk result (count ≤ length lists.new.items) }
{
    for _ in lists.len()..count {
        lists.push(Vec::new(alloc))?;
    }
    Ok(())
}

/// The definition stands behind the others of its name.
fn put_entry(
    alloc: Global,
    lists: &mut Vec<Vec<Entry>>,
    name: Sym,
    entry: Entry,
) -> Result<(), AllocError>
    ensures { OnOk result ((x : ℕ) → slice_index_or (map (λ l. l.items) lists.new.items) x [] ≡ (if nat_eq name.0 x then slice_index_or (map (λ l. l.items) lists.old.items) x [] ++ entry ∷ [] else slice_index_or (map (λ l. l.items) lists.old.items) x [])) }
{
    let number = name.0 as usize;
    grow(alloc, lists, number + 1)?;
    lists[number].push(entry)?;
    Ok(())
}

/// The definitions of a name.
#[inline(always)]
fn list_of(lists: &[Vec<Entry>], name: Sym) -> &[Entry]
    ensures { result.now ≡ slice_index_or (map (λ l. l.items) lists.now) name.0 [] }
{
    match lists.get(name.0 as usize) {
        Some(list) => list.as_slice(),
        None => &[],
    }
}

/// The definition stands behind the others of its name, if it has one.
fn put_named(
    alloc: Global,
    lists: &mut Vec<Vec<Entry>>,
    name: Option<Sym>,
    entry: Entry,
) -> Result<(), AllocError>
    ensures { OnOk result ((x : ℕ) → slice_index_or (map (λ l. l.items) lists.new.items) x [] ≡ (if is_number x (number_in name) then slice_index_or (map (λ l. l.items) lists.old.items) x [] ++ entry ∷ [] else slice_index_or (map (λ l. l.items) lists.old.items) x [])) }
{
    match name {
        Some(name) => put_entry(alloc, lists, name, entry),
        None => Ok(()),
    }
}

/// The attribute to which an assignment calls the method of this name: `x`, where the name is `x=`.
fn attribute_of<'p>(
    alloc: Global,
    program: &'p Program,
    named: &mut Named<'p>,
    name: Sym,
) -> Result<Option<Sym>, AllocError>
    requires { IsNamedBy program.now named.old }
    ensures attribute { IfOk result (λ a. number_in a ≡ attribute_of program.now name.0) }
    ensures named { IsNamedBy program.now named.new }
{
    match program.symbol_bytes(name).strip_suffix(b"=".as_slice()) {
        Some(front) => named.find(alloc, program, front),
        None => Ok(None),
    }
}

/// The name of the method that writes this attribute: `x=`, where the attribute is `x`.
fn writer_of<'p>(
    alloc: Global,
    program: &'p Program,
    named: &mut Named<'p>,
    attribute: Sym,
) -> Result<Option<Sym>, AllocError>
    requires { IsNamedBy program.now named.old }
    ensures name { IfOk result (λ name. number_in name ≡ writer_of program.now attribute.0) }
    ensures named { IsNamedBy program.now named.new }
{
    let mut bytes = Vec::from_slice(alloc, program.symbol_bytes(attribute))?;
    bytes.push(b'=')?;
    named.find(alloc, program, &bytes)
}

/// What calls the method that a node defines.
fn callers_of<'p>(
    alloc: Global,
    program: &'p Program,
    named: &mut Named<'p>,
    node: Node,
) -> Result<Callers, AllocError>
    requires { IsNamedBy program.now named.old }
    ensures calls { IfOk result (λ c. IsNoItem node → (ns : List TableNode) → (x : Name) → calls program.now x (node_tree ns node) ≡ is_called_by (number_in c.name) (number_in c.attribute) x) }
    ensures named { IsNamedBy program.now named.new }
{
    match node {
        Node::Method { name, .. } => Ok(Callers {
            name: Some(name),
            attribute: attribute_of(alloc, program, named, name)?,
        }),
        Node::Reader(name) => Ok(Callers {
            name: Some(name),
            attribute: None,
        }),
        Node::Writer(attribute) => Ok(Callers {
            name: writer_of(alloc, program, named, attribute)?,
            attribute: Some(attribute),
        }),
        _ => Ok(Callers {
            name: None,
            attribute: None,
        }),
    }
}

impl Program {
    /// Whether the class is a class of the program that has the name.
    fn has_name(&self, class: ClassId, name: Sym) -> bool
        ensures { result ≡ has_name self.now class.0 name.0 }
    {
        if class.0 < ClassId::BUILT_IN {
            return false;
        }
        match self.classes.get((class.0 - ClassId::BUILT_IN) as usize) {
            Some(class) => class.name.0 == name.0,
            None => false,
        }
    }

    /// Whether what stands in the body of the class of that name, or at top level, belongs to a class.
    fn belongs(&self, class: ClassId, body: Option<Sym>) -> bool
        ensures { result ≡ belongs self.now class.0 (number_in body) }
    {
        match body {
            Some(name) => self.has_name(class, name),
            None => class.0 == ClassId::OBJECT.0,
        }
    }

    /// The last of these definitions that belongs to a class.
    fn last_in(&self, class: ClassId, entries: &[Entry]) -> Option<NodeId>
        ensures { option_map (tree_at self.now.nodes.items) result ≡ last_in self.now class.0 (map (definition_at self.now.nodes.items) entries.now) }
    {
        let mut found = None;
        for entry in entries {
            if self.belongs(class, entry.class) {
                found = Some(entry.node);
            }
        }
        found
    }
}

impl MethodTable {
    /// The definitions of the program, by what calls them. The only fault is want of memory.
    pub fn of(alloc: Global, program: &Program) -> Result<MethodTable, AllocError>
        ensures { IfOk result (λ table. IsTableOf program.now table) }
    {
        let mut table = MethodTable {
            plain: Vec::new(alloc),
            setters: Vec::new(alloc),
        };
        let mut named = Named::new();
        for number in 0..program.definitions.len() {
            table.put_top(alloc, program, &mut named, program.definitions[number])?;
        }
        Ok(table)
    }

    /// What stands at top level at a place, put behind the others.
    fn put_top<'p>(
        &mut self,
        alloc: Global,
        program: &'p Program,
        named: &mut Named<'p>,
        place: NodeId,
    ) -> Result<(), AllocError>
        requires { IsNamedBy program.now named.old }
        ensures named { IsNamedBy program.now named.new }
        ensures adds { OnOk result (Adds program.now self.old self.new (definitions_in (tree_at program.now.nodes.items place))) }
    {
        let part = part_place(program, place);
        match program.node(part) {
            Node::ClassBody {
                name,
                first,
                count,
                ..
            } => self.put_members(alloc, program, named, name, first, count),
            _ => self.put(alloc, program, named, None, part),
        }
    }

    /// The definitions in the body of a class, put behind the others.
    fn put_members<'p>(
        &mut self,
        alloc: Global,
        program: &'p Program,
        named: &mut Named<'p>,
        class: Sym,
        first: NodeId,
        count: u32,
    ) -> Result<(), AllocError>
        requires within { first + count ≤ length program.now.nodes.items }
        requires number { first + count < 2 ^ 32 }
        requires named { IsNamedBy program.now named.old }
        ensures named { IsNamedBy program.now named.new }
        ensures adds { OnOk result (Adds program.now self.old self.new (standing_in (Some class.0) (trees_in program.now.nodes.items first count))) }
    {
        for number in 0..count {
            self.put(alloc, program, named, Some(class), first + number)?;
        }
        Ok(())
    }

    /// The definition at a place, put behind the others.
    fn put<'p>(
        &mut self,
        alloc: Global,
        program: &'p Program,
        named: &mut Named<'p>,
        class: Option<Sym>,
        place: NodeId,
    ) -> Result<(), AllocError>
        requires { IsNamedBy program.now named.old }
        ensures named { IsNamedBy program.now named.new }
        ensures adds { OnOk result (Adds program.now self.old self.new (standing_in (number_in class) (tree_at program.now.nodes.items place ∷ []))) }
    {
        let node = part_place(program, place);
        let callers = callers_of(alloc, program, named, program.node(node))?;
        let entry = Entry { class, node };
        put_named(alloc, &mut self.plain, callers.name, entry)?;
        put_named(alloc, &mut self.setters, callers.attribute, entry)
    }

    /// The definitions of what is called so.
    #[inline(always)]
    fn entries_under(&self, name: MethodName) -> &[Entry]
        ensures { result.now ≡ entries_under self.now name }
    {
        match name {
            MethodName::Plain(symbol) => list_of(&self.plain, symbol),
            MethodName::Setter(symbol) => list_of(&self.setters, symbol),
        }
    }

    /// The class's own method: the node of its last definition of what is called so.
    #[inline(always)]
    pub fn own(&self, program: &Program, class: ClassId, name: MethodName) -> Option<NodeId>
        requires { IsTableOf program.now self.now }
        ensures { option_map (tree_at program.now.nodes.items) result ≡ own_method program.now class.0 name }
    {
        program.last_in(class, self.entries_under(name))
    }

    /// The method that a call finds for a class: that of the class, or of the nearest class above it.
    pub fn find(&self, program: &Program, class: ClassId, name: MethodName) -> Option<Found>
        requires { IsTableOf program.now self.now }
        ensures { option_map (held_by program.now.nodes.items) result ≡ nearest_method program.now class.0 name }
    {
        if self.entries_under(name).is_empty() {
            return None;
        }
        let steps = program.classes.len() + ClassId::BUILT_IN as usize;
        let mut current = class;
        for step in 0..steps {
            match self.own(program, current, name) {
                Some(node) => {
                    return Some(Found {
                        class: current,
                        node,
                    });
                }
                None => match program.superclass(current) {
                    Some(above) => current = above,
                    None => return None,
                },
            }
        }
        None
    }
}
