//! Copies of objects and exceptions: what `dup` makes of them.

ghost use Rattle.std.specs.Prelude.{◌≡◌, ℕ, [], List, nat_eq, map, IfOk, IfErr, IfSome, IfNone, length, Contains};
ghost use Rattle.std.specs.List.{list_any, IsDistinct};
ghost use Rattle.rr_space.specs.Graph.{Object};
ghost use Rattle.rr_space.specs.Tables.{Below};
ghost use Rattle.rr_space.specs.Parts.{AllWithin, below_parts, field_part, value_triple};
ghost use Rattle.rr_space.specs.Labels.{triples_at};
ghost use Rattle.rr_space.specs.Views.{object_of, node_keys, below_node, field_number, IsNodeWithin, AreFieldsDistinct};
ghost use Rattle.rr_text.specs.Reads.{IsReadWith};
ghost use Rattle.rr_builtin.specs.Acts.{IsRefAmong};
ghost use Rattle.rr_builtin.specs.Copies.{AreOwnFields, IsRaisedWhole, fields_of, plain_copy, exception_copy, with_field};

use crate::arrays::element;
use rr_base::{Fault, Sym};
use rr_space::{Label, Node, Raised, Ref, Space};
use std::alloc::{AllocError, Global};

/// Whether a field has the name.
fn is_named(field: (Sym, Ref), name: Sym) -> bool
    ensures { result ≡ nat_eq name.0 (field_number field) }
{
    name.0 == field.0.0
}

/// Whether one of the fields has the name.
fn has_field(fields: &[(Sym, Ref)], name: Sym) -> bool
    ensures { result ≡ list_any (λ f. nat_eq name.0 (field_number f)) fields.now }
{
    fields.iter().any(|field| is_named(*field, name))
}

/// Puts a field behind the others, unless one of them has its name; what stands under another label is no field.
fn add_field(fields: &mut Vec<(Sym, Ref)>, label: Label, value: Ref) -> Result<(), AllocError>
    ensures { IfOk result (λ _. fields.new.items ≡ with_field fields.old.items label value) }
{
    match label {
        Label::Field(name) => {
            if !has_field(fields, name) {
                fields.push((name, value))?;
            }
            Ok(())
        }
        _ => Ok(()),
    }
}

/// Puts behind the fields what stands in a place of an object, if it is another field.
fn add_part(fields: &mut Vec<(Sym, Ref)>, part: Option<(Label, Ref)>) -> Result<(), AllocError>
    ensures some { IfSome part (λ p. IfOk result (λ _. fields.new.items ≡ with_field fields.old.items p.0 p.1)) }
    ensures none { IfNone part (IfOk result (λ _. fields.new.items ≡ fields.old.items)) }
{
    match part {
        Some((label, value)) => add_field(fields, label, value),
        None => Ok(()),
    }
}

/// The fields of an object, each once.
fn fields(alloc: Global, space: &Space, object: Ref) -> Result<Vec<(Sym, Ref)>, AllocError>
    ensures are { IfOk result (λ fields. map value_triple (map field_part fields.items) ≡ fields_of space.now object) }
    ensures within { IfOk result (λ fields. AllWithin (length space.now.slots) (map field_part fields.items)) }
    ensures among { IfOk result (λ fields. (below : Below) → IsReadWith space.now below → IsRefAmong below object → (e : ℕ × List Object) → Contains (below_parts (map field_part fields.items)) e → Contains below e) }
    ensures distinct { IfOk result (λ fields. IsDistinct nat_eq (map field_number fields.items)) }
{
    let mut fields = Vec::with_capacity(alloc, space.arity(object))?;
    for place in 0..space.arity(object) {
        add_part(&mut fields, space.part(object, place))?;
    }
    Ok(fields)
}

/// A plain object of the same class with the same fields.
pub(crate) fn plain_copy(alloc: Global, space: &Space, object: Ref) -> Result<Node, Fault>
    ensures is { IfOk result (λ node. object_of node ≡ plain_copy space.now object) }
    ensures whole { AreOwnFields (triples_at space.now object) → IfOk result (λ node. (object_of node).triples ≡ triples_at space.now object) }
    ensures keys { IfOk result (λ node. node_keys node ≡ []) }
    ensures within { IfOk result (λ node. IsNodeWithin (length space.now.slots) node) }
    ensures among { IfOk result (λ node. (below : Below) → IsReadWith space.now below → IsRefAmong below object → (e : ℕ × List Object) → Contains (below_node node) e → Contains below e) }
    ensures fields { IfOk result AreFieldsDistinct }
    ensures fault { IfErr result (λ f. f ≡ Fault.Memory) }
{
    let fields = fields(alloc, space, object)?;
    Ok(Node::Object(space.class_of(object), fields))
}

/// An exception of the same class with the same message, cause, ractor and fields.
pub(crate) fn exception_copy(alloc: Global, space: &Space, object: Ref) -> Result<Node, Fault>
    ensures is { IfOk result (λ node. object_of node ≡ exception_copy space.now object) }
    ensures whole { IsRaisedWhole (triples_at space.now object) → IfOk result (λ node. (object_of node).triples ≡ triples_at space.now object) }
    ensures keys { IfOk result (λ node. node_keys node ≡ []) }
    ensures within { IfOk result (λ node. IsNodeWithin (length space.now.slots) node) }
    ensures among { IfOk result (λ node. (below : Below) → IsReadWith space.now below → IsRefAmong below object → (e : ℕ × List Object) → Contains (below_node node) e → Contains below e) }
    ensures fields { IfOk result AreFieldsDistinct }
    ensures fault { IfErr result (λ f. f ≡ Fault.Memory) }
{
    let raised = Raised {
        message: element(space, object, 0),
        cause: element(space, object, 1),
        ractor: element(space, object, 2),
        fields: fields(alloc, space, object)?,
    };
    Ok(Node::Exception(space.class_of(object), Box::new(alloc, raised)?))
}
