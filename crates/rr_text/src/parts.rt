//! The parts of containers, one by one, and what stands between them.

ghost use Rattle.std.specs.Prelude.{◌≡◌, ℕ, List, ◌+◌, ◌<◌, ◌≤◌, ◌++◌, codes, length, IfOk, IfSome, OnOk, MatchOption};
ghost use Rattle.rr_space.specs.Parts.{value_of};
ghost use Rattle.rr_space.specs.Tables.{Below, graph_of, resolve};
ghost use Rattle.rr_space.specs.Labels.{triples_at};
ghost use Rattle.rr_space.specs.Sound.{IsWell};
ghost use Rattle.rr_text.specs.Forms.{Names, key_text, line_end};
ghost use Rattle.rr_text.specs.Names.{names_of};
ghost use Rattle.rr_text.specs.Ways.{way_of};
ghost use Rattle.rr_text.specs.Quoted.{quoted};
ghost use Rattle.rr_text.specs.Reads.{IsAmong, IsReadWith, IsAtEnd};
ghost use Rattle.rr_text.specs.Frames.{lead_at, IsChild, IsPartOf, IsTurned};
ghost use Rattle.std.specs.Fmt.{decimal};

use crate::form::Form;
use crate::names::{class_name, symbol_name};
use crate::plain::{push_line_end, truth_bytes};
use crate::quote::push_quoted;
use crate::walk::{Frame, Part, Shape};
use itoa::Buffer;
use rr_base::RactorNo;
use rr_space::{Ref, Space};
use rr_tree::Program;
use std::alloc::AllocError;

/// The `k`-th value that an object leads to.
fn child(space: &Space, object: Ref, k: usize) -> Option<Ref>
    ensures { MatchOption result (length (triples_at space.now object) ≤ k) (λ r. IsChild space.now object k r) }
{
    match space.part(object, k) {
        Some((_, value)) => Some(value),
        None => None,
    }
}

/// Writes what stands between two parts; nothing before the first.
fn push_lead(out: &mut Vec<u8>, place: usize) -> Result<(), AllocError>
    ensures { OnOk result (out.new.items ≡ out.old.items ++ lead_at place (codes ", ")) }
{
    if place > 0 {
        out.extend_from_slice(b", ")?;
    }
    Ok(())
}

/// Writes a key, and the arrow after it.
fn push_arrow(out: &mut Vec<u8>, key: &[u8]) -> Result<(), AllocError>
    ensures { OnOk result (out.new.items ≡ out.old.items ++ (key.now ++ codes " => ")) }
{
    out.extend_from_slice(key)?;
    out.extend_from_slice(b" => ")
}

/// Writes a text as a key.
fn push_text_key(out: &mut Vec<u8>, key: &[u8]) -> Result<(), AllocError>
    ensures { OnOk result (out.new.items ≡ out.old.items ++ (quoted key.now ++ codes " => ")) }
{
    push_quoted(out, key)?;
    out.extend_from_slice(b" => ")
}

/// Writes a symbol as a key.
fn push_symbol_key(out: &mut Vec<u8>, name: &[u8]) -> Result<(), AllocError>
    ensures { OnOk result (out.new.items ≡ out.old.items ++ (name.now ++ codes ": ")) }
{
    out.extend_from_slice(name)?;
    out.extend_from_slice(b": ")
}

/// Writes a ractor as a key.
fn push_ractor_key(out: &mut Vec<u8>, ractor: RactorNo) -> Result<(), AllocError>
    ensures { OnOk result (out.new.items ≡ out.old.items ++ (codes "#<Ractor:#" ++ decimal ractor.0 ++ codes ">" ++ codes " => ")) }
{
    out.extend_from_slice(b"#<Ractor:#")?;
    let mut buffer = Buffer::new();
    out.extend_from_slice(buffer.format(ractor.0).as_bytes())?;
    out.extend_from_slice(b">")?;
    out.extend_from_slice(b" => ")
}

/// Writes a key of a hash, and what stands between it and its value.
fn push_key(out: &mut Vec<u8>, space: &Space, program: &Program, key: Ref) -> Result<(), AllocError>
    requires { IsWell space.now }
    ensures written { (below : Below) → IsReadWith space.now below → IsAmong below key
        → OnOk result (out.new.items ≡ out.old.items ++ key_text (names_of program.now) (graph_of space.now.slots below) (resolve space.now.slots (value_of key))) }
    ensures longer { OnOk result (length out.old.items ≤ length out.new.items) }
{
    match key {
        Ref::Nil => push_arrow(out, b"nil"),
        Ref::False => push_arrow(out, truth_bytes(false)),
        Ref::True => push_arrow(out, truth_bytes(true)),
        Ref::Int(number) => {
            let mut buffer = Buffer::new();
            push_arrow(out, buffer.format(number).as_bytes())
        }
        Ref::Symbol(symbol) => push_symbol_key(out, symbol_name(program, symbol)),
        Ref::Class(class) => push_arrow(out, class_name(program, class)),
        Ref::Ractor(ractor) => push_ractor_key(out, ractor),
        Ref::Local(_) => push_text_key(out, space.text_bytes(key)),
        Ref::Shared(_, _) => push_text_key(out, space.text_bytes(key)),
    }
}

/// Writes what stands before the next element of an array, or the bracket at its end.
fn next_element(out: &mut Vec<u8>, space: &Space, top: Frame) -> Result<Option<Part>, AllocError>
    requires well { IsWell space.now }
    requires end { IsAtEnd space.now top.object }
    requires shape { top.shape ≡ Shape.Elements }
    ensures turned { IfOk result (λ next. (names : Names) (below : Below) → IsReadWith space.now below → IsAmong below top.object
        → IsTurned names (graph_of space.now.slots below) space.now.slots top out.old.items next out.new.items) }
    ensures part { IfOk result (λ next. IfSome next (λ p. IsPartOf space.now top p)) }
    ensures longer { IfOk result (λ _. length out.old.items ≤ length out.new.items) }
{
    let _parts = space.arity(top.object);
    match child(space, top.object, top.next) {
        Some(value) => {
            push_lead(out, top.next)?;
            let frame = Frame {
                shape: Shape::Elements,
                object: top.object,
                next: top.next + 1,
            };
            Ok(Some(Part {
                frame,
                form: Form::Inspect,
                value,
            }))
        }
        None => {
            out.push(93)?;
            Ok(None)
        }
    }
}

/// The next element of an array whose elements stand on lines.
fn next_line(space: &Space, top: Frame) -> Option<Part>
    requires well { IsWell space.now }
    requires end { IsAtEnd space.now top.object }
    requires shape { top.shape ≡ Shape.Lines }
    ensures turned { (names : Names) (below : Below) (out : List ℕ) → IsReadWith space.now below → IsAmong below top.object
        → IsTurned names (graph_of space.now.slots below) space.now.slots top out result out }
    ensures part { IfSome result (λ p. IsPartOf space.now top p) }
{
    let _parts = space.arity(top.object);
    match child(space, top.object, top.next) {
        Some(value) => {
            let frame = Frame {
                shape: Shape::Lines,
                object: top.object,
                next: top.next + 1,
            };
            Some(Part {
                frame,
                form: Form::Puts,
                value,
            })
        }
        None => None,
    }
}

/// The key and the value of the next pair of a hash.
fn next_pair(space: &Space, hash: Ref, k: usize) -> Option<(Ref, Ref)>
    ensures { MatchOption result (length (triples_at space.now hash) ≤ k + 1) (λ p. IsChild space.now hash k p.0 × IsChild space.now hash (k + 1) p.1) }
{
    let parts = space.arity(hash);
    if k >= parts {
        return None;
    }
    match child(space, hash, k) {
        Some(key) => match child(space, hash, k + 1) {
            Some(value) => Some((key, value)),
            None => None,
        },
        None => None,
    }
}

/// Writes what stands before the next value of a hash, or the brace at its end.
fn next_value(
    out: &mut Vec<u8>,
    space: &Space,
    program: &Program,
    form: Form,
    top: Frame,
) -> Result<Option<Part>, AllocError>
    requires well { IsWell space.now }
    requires end { IsAtEnd space.now top.object }
    requires shape { top.shape ≡ Shape.Pairs form }
    ensures turned { IfOk result (λ next. (below : Below) → IsReadWith space.now below → IsAmong below top.object
        → IsTurned (names_of program.now) (graph_of space.now.slots below) space.now.slots top out.old.items next out.new.items) }
    ensures part { IfOk result (λ next. IfSome next (λ p. IsPartOf space.now top p)) }
    ensures longer { IfOk result (λ _. length out.old.items ≤ length out.new.items) }
{
    let _parts = space.arity(top.object);
    match next_pair(space, top.object, top.next) {
        Some((key, value)) => {
            push_lead(out, top.next)?;
            push_key(out, space, program, key)?;
            let frame = Frame {
                shape: Shape::Pairs(form),
                object: top.object,
                next: top.next + 2,
            };
            Ok(Some(Part {
                frame,
                form: Form::Inspect,
                value,
            }))
        }
        None => {
            out.push(125)?;
            push_line_end(out, form)?;
            Ok(None)
        }
    }
}

/// Writes what stands before the next part of a container, or its end.
pub(crate) fn next_part(
    out: &mut Vec<u8>,
    space: &Space,
    program: &Program,
    top: Frame,
) -> Result<Option<Part>, AllocError>
    requires well { IsWell space.now }
    requires end { IsAtEnd space.now top.object }
    ensures turned { IfOk result (λ next. (below : Below) → IsReadWith space.now below → IsAmong below top.object
        → IsTurned (names_of program.now) (graph_of space.now.slots below) space.now.slots top out.old.items next out.new.items) }
    ensures part { IfOk result (λ next. IfSome next (λ p. IsPartOf space.now top p)) }
    ensures longer { IfOk result (λ _. length out.old.items ≤ length out.new.items) }
{
    match top.shape {
        Shape::Elements => {
            let next = next_element(out, space, top)?;
            Ok(next)
        }
        Shape::Lines => Ok(next_line(space, top)),
        Shape::Pairs(form) => {
            let next = next_value(out, space, program, form, top)?;
            Ok(next)
        }
    }
}
