//! New objects: empty hashes, and what `new` of a class makes.

ghost use Rattle.std.specs.Prelude.{◌≡◌, ℕ, [], List, IfOk, IfErr, length, Contains};
ghost use Rattle.rr_space.specs.Graph.{Object};
ghost use Rattle.rr_space.specs.Tables.{Below};
ghost use Rattle.rr_space.specs.Parts.{IsWithin, value_of};
ghost use Rattle.rr_space.specs.Views.{object_of, node_keys, below_node, IsNodeWithin, AreFieldsDistinct};
ghost use Rattle.rr_text.specs.Reads.{IsReadWith};
ghost use Rattle.rr_builtin.specs.Acts.{Acts, IsServed, MakesObject, IsRefAmong, performed};
ghost use Rattle.rr_builtin.specs.Deeds.{act_of, IsFit, IsDeedAmong};
ghost use Rattle.rr_builtin.specs.Fixed.{KeepsFixed};
ghost use Rattle.rr_builtin.specs.News.{empty_hash, new_exception, new_plain, is_exception_class, is_made, may_make, takes_message, new_act};

use crate::built::Built;
use crate::deed::Deed;
use rr_base::{ClassId, Fault};
use rr_space::{Entries, Node, Raised, Ref, Space};
use rr_tree::Program;
use std::alloc::Global;

/// Makes a new object.
pub(crate) fn make_node(space: &mut Space, node: Node) -> Result<Built, Fault>
    requires within { IsNodeWithin (length space.old.slots) node }
    requires fields { AreFieldsDistinct node }
    ensures act { (below : Below) (v : Ref) → IsReadWith space.old below → ((e : ℕ × List Object) → Contains (below_node node) e → Contains below e)
        → Acts below (performed (MakesObject (object_of node) (node_keys node)) v) space.old space.new result }
    ensures served { IsServed space.old space.new result }
    ensures fixed { KeepsFixed space.old.slots space.new.slots }
{
    match space.alloc(node) {
        Ok(made) => Ok(Built::Value(made)),
        Err(fault) => Err(fault),
    }
}

/// A hash without pairs.
fn no_pairs(alloc: Global) -> Result<Node, Fault>
    ensures is { IfOk result (λ node. object_of node ≡ empty_hash) }
    ensures keys { IfOk result (λ node. node_keys node ≡ []) }
    ensures below { IfOk result (λ node. below_node node ≡ []) }
    ensures within { (k : ℕ) → IfOk result (λ node. IsNodeWithin k node) }
    ensures fields { IfOk result AreFieldsDistinct }
    ensures fault { IfErr result (λ f. f ≡ Fault.Memory) }
{
    let entries = Box::new(alloc, Entries::new(alloc))?;
    Ok(Node::Hash(entries))
}

/// Makes a hash without pairs, as a hash literal begins; `[]=` puts its pairs.
///
/// It is refused with `Memory`, or with `Limit(Slots)` where the space has as many objects as it may. That leaves the objects as
/// they were.
pub fn make_hash(alloc: Global, space: &mut Space) -> Result<Built, Fault>
    ensures act { (below : Below) (v : Ref) → IsReadWith space.old below → Acts below (performed (MakesObject empty_hash []) v) space.old space.new result }
    ensures served { IsServed space.old space.new result }
{
    let node = no_pairs(alloc)?;
    make_node(space, node)
}

/// Whether objects of the class are exceptions.
fn is_exception_class(program: &Program, class: ClassId) -> bool
    ensures { result ≡ is_exception_class program.now class.0 }
{
    program.descends(class, ClassId::EXCEPTION)
}

/// Whether `new` makes an object of the class.
fn is_made(program: &Program, class: ClassId) -> bool
    ensures { result ≡ is_made program.now class.0 }
{
    is_exception_class(program, class)
        || class.0 == ClassId::OBJECT.0
        || class.0 >= ClassId::BUILT_IN
}

/// Whether a value is a class that has `new`.
pub fn may_make(program: &Program, value: Ref) -> bool
    ensures { result ≡ may_make program.now value }
{
    match value {
        Ref::Class(class) => is_made(program, class),
        _ => false,
    }
}

/// Whether `new` of a value takes a message.
pub(crate) fn takes_message(program: &Program, value: Ref) -> bool
    ensures { result ≡ takes_message program.now value }
{
    match value {
        Ref::Class(class) => is_exception_class(program, class),
        _ => false,
    }
}

/// An exception with a message and no cause.
fn exception(alloc: Global, class: ClassId, message: Ref) -> Result<Node, Fault>
    ensures is { IfOk result (λ node. object_of node ≡ new_exception class.0 (value_of message)) }
    ensures keys { IfOk result (λ node. node_keys node ≡ []) }
    ensures within { (k : ℕ) → IsWithin k message → IfOk result (λ node. IsNodeWithin k node) }
    ensures among { (below : Below) → IsRefAmong below message → IfOk result (λ node. (e : ℕ × List Object) → Contains (below_node node) e → Contains below e) }
    ensures fields { IfOk result AreFieldsDistinct }
    ensures fault { IfErr result (λ f. f ≡ Fault.Memory) }
{
    let raised = Raised {
        message,
        cause: Ref::Nil,
        ractor: Ref::Nil,
        fields: Vec::new(alloc),
    };
    Ok(Node::Exception(class, Box::new(alloc, raised)?))
}

/// An object without fields.
fn without_fields(alloc: Global, class: ClassId) -> Node
    ensures is { object_of result ≡ new_plain class.0 }
    ensures keys { node_keys result ≡ [] }
    ensures within { (k : ℕ) → IsNodeWithin k result }
    ensures below { below_node result ≡ [] }
    ensures fields { AreFieldsDistinct result }
{
    Node::Object(class, Vec::new(alloc))
}

/// Makes the object that `new` of a class gives without arguments: an exception has nil as its message.
///
/// It is refused with `Memory`, or with `Limit(Slots)` where the space has as many objects as it may. That leaves the objects as
/// they were.
pub fn new_object(
    alloc: Global,
    space: &mut Space,
    program: &Program,
    class: ClassId,
) -> Result<Built, Fault>
    ensures act { (below : Below) (v : Ref) → IsReadWith space.old below → Acts below (performed (new_act program.now (Ref.Class class) Ref.Nil) v) space.old space.new result }
    ensures served { IsServed space.old space.new result }
    ensures fixed { KeepsFixed space.old.slots space.new.slots }
{
    if is_exception_class(program, class) {
        let node = exception(alloc, class, Ref::Nil)?;
        make_node(space, node)
    } else {
        make_node(space, without_fields(alloc, class))
    }
}

/// `new` of a class, with the message of an exception; nil where none is given.
pub(crate) fn new_deed(
    alloc: Global,
    space: &Space,
    program: &Program,
    class: Ref,
    message: Ref,
) -> Result<Deed, Fault>
    requires { IsWithin (length space.now.slots) message }
    ensures act { IfOk result (λ deed. act_of deed ≡ new_act program.now class message) }
    ensures fit { IfOk result (λ deed. IsFit space.now class deed) }
    ensures among { IfOk result (λ deed. (below : Below) → IsRefAmong below message → IsDeedAmong below deed) }
    ensures fault { IfErr result (λ f. f ≡ Fault.Memory) }
{
    match class {
        Ref::Class(class) => {
            if is_exception_class(program, class) {
                Ok(Deed::MakeNode(exception(alloc, class, message)?))
            } else {
                Ok(Deed::MakeNode(without_fields(alloc, class)))
            }
        }
        _ => Ok(Deed::Answer(Built::Missing)),
    }
}
