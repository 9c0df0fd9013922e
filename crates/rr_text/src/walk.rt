//! A walk over nested containers, by a stack of its own.

ghost use Rattle.std.specs.Prelude.{◌≡◌, false, ℕ, ◌+◌, ◌-◌, ◌*◌, ◌^◌, ◌<◌, ◌≤◌, ◌++◌, ◌∷◌, [], List, Bool, codes, length, IfOk, IfSome, OnOk, MatchOption, reverse, map};
ghost use Rattle.std.specs.List.{list_any};
ghost use Rattle.rr_space.specs.Graph.{Name as NameView, Own, Published, At, Graph, array, hash};
ghost use Rattle.rr_space.specs.Kinds.{kind_at};
ghost use Rattle.rr_text.specs.Told.{told_kind};
ghost use Rattle.rr_space.specs.Parts.{value_of};
ghost use Rattle.rr_space.specs.Tables.{Below, graph_of, resolve};
ghost use Rattle.rr_space.specs.Labels.{triples_at};
ghost use Rattle.rr_space.specs.Sound.{IsWell};
ghost use Rattle.rr_text.specs.Forms.{Names, Item, spelled, same_key, same_object, same_walker, line_end, look, row_look, line_look, hash_look};
ghost use Rattle.rr_text.specs.Names.{names_of};
ghost use Rattle.rr_text.specs.Ways.{way_of};
ghost use Rattle.rr_text.specs.Reads.{IsAmong, IsReadWith, IsAtEnd};
ghost use Rattle.rr_text.specs.Rest.{load};
ghost use Rattle.rr_text.specs.Frames.{key_of, walker_of, parts_of, IsEntered, AreAmong, IsFit, IsGrown, AreAtEnd, breadth, thing_in, Showed, Stepped};

use crate::form::Form;
use crate::leaf::write_leaf;
use crate::parts::next_part;
use crate::plain::push_immediate;
use rr_space::{Kind, Ref, Space};
use rr_tree::Program;
use std::alloc::{AllocError, Global};

/// What is done with the parts of a container.
#[derive(Clone, Copy)]
pub(crate) enum Shape {
    /// The elements of an array, between brackets.
    Elements,
    /// The elements of an array, on lines of their own.
    Lines,
    /// The pairs of a hash, between braces.
    Pairs(Form),
}

/// A container that is being written, and the place of its next part.
#[derive(Clone, Copy)]
pub(crate) struct Frame {
    pub(crate) shape: Shape,
    /// No slot that was published since.
    pub(crate) object: Ref,
    pub(crate) next: usize,
}

/// A value that a container has next, how it is written, and the container after it.
#[derive(Clone, Copy)]
pub(crate) struct Part {
    pub(crate) frame: Frame,
    pub(crate) form: Form,
    pub(crate) value: Ref,
}

/// Whether the walk goes on.
#[derive(Clone, Copy)]
pub(crate) enum Going {
    On,
    Deep,
    Shell,
}

/// Whether two shapes write an object in one way.
fn is_same_shape(left: Shape, right: Shape) -> bool
    ensures { result ≡ same_walker (walker_of left) (walker_of right) }
{
    match (left, right) {
        (Shape::Lines, Shape::Lines) => true,
        (Shape::Lines, Shape::Elements) => false,
        (Shape::Lines, Shape::Pairs(_)) => false,
        (Shape::Elements, Shape::Lines) => false,
        (Shape::Pairs(_), Shape::Lines) => false,
        (Shape::Elements, Shape::Elements) => true,
        (Shape::Elements, Shape::Pairs(_)) => true,
        (Shape::Pairs(_), Shape::Elements) => true,
        (Shape::Pairs(_), Shape::Pairs(_)) => true,
    }
}

/// Whether a value is the object of a slot.
fn is_slot(value: Ref, slot: u32) -> bool
    ensures { result ≡ same_object (At (Own slot)) (value_of value) }
{
    match value {
        Ref::Local(other) => slot == other,
        Ref::Shared(_, _) => false,
        Ref::Nil => false,
        Ref::False => false,
        Ref::True => false,
        Ref::Int(_) => false,
        Ref::Symbol(_) => false,
        Ref::Class(_) => false,
        Ref::Ractor(_) => false,
    }
}

/// Whether a value is the object under a place of the cluster of this number.
fn is_place(value: Ref, number: u32, place: u32) -> bool
    ensures { result ≡ same_object (At (Published number place)) (value_of value) }
{
    match value {
        Ref::Shared(other, cluster) => number == cluster.number() && place == other,
        Ref::Local(_) => false,
        Ref::Nil => false,
        Ref::False => false,
        Ref::True => false,
        Ref::Int(_) => false,
        Ref::Symbol(_) => false,
        Ref::Class(_) => false,
        Ref::Ractor(_) => false,
    }
}

/// Whether two values are one object.
fn is_same_object(left: Ref, right: Ref) -> bool
    ensures { result ≡ same_object (value_of left) (value_of right) }
{
    match left {
        Ref::Local(slot) => is_slot(right, slot),
        Ref::Shared(place, cluster) => is_place(right, cluster.number(), place),
        Ref::Nil => false,
        Ref::False => false,
        Ref::True => false,
        Ref::Int(_) => false,
        Ref::Symbol(_) => false,
        Ref::Class(_) => false,
        Ref::Ractor(_) => false,
    }
}

/// Whether two frames write one object in one way.
fn is_same_frame(left: Frame, right: Frame) -> bool
    ensures { result ≡ same_key (key_of left) (key_of right) }
{
    is_same_shape(left.shape, right.shape) && is_same_object(left.object, right.object)
}

/// Whether one of the frames writes what this one does.
fn is_above(frames: &[Frame], frame: Frame) -> bool
    ensures { result ≡ list_any (λ f. same_key (key_of frame) (key_of f)) frames.now }
{
    frames.iter().any(|other| is_same_frame(frame, *other))
}

/// What is being written, and what was written.
#[derive(Drop)]
pub(crate) struct Walk {
    pub(crate) frames: Vec<Frame>,
    pub(crate) out: Vec<u8>,
}

impl Walk {
    pub(crate) fn new(alloc: Global) -> Walk
        ensures none { result.frames.items ≡ [] }
        ensures out { result.out.items ≡ [] }
    {
        Walk {
            frames: Vec::new(alloc),
            out: Vec::new(alloc),
        }
    }

    /// Begins a container, or tells that it is begun already, or that it would be too deep inside others.
    fn enter(
        &mut self,
        space: &Space,
        levels: usize,
        again: &[u8],
        opening: &[u8],
        frame: Frame,
    ) -> Result<Going, AllocError>
        requires fit { IsFit space.now levels self.old.frames.items }
        requires end { IsAtEnd space.now frame.object }
        ensures entered { IfOk result (λ going. IsEntered levels again.now opening.now frame self.old.frames.items (spelled self.old.out.items) going self.new.frames.items (spelled self.new.out.items)) }
        ensures grown { IfOk result (λ _. IsGrown space.now levels self.old.frames.items self.new.frames.items) }
        ensures among { IfOk result (λ _. (below : Below) → AreAmong below self.old.frames.items → IsAmong below frame.object → AreAmong below self.new.frames.items) }
    {
        // The number of its parts bounds the turns that the container takes.
        let _parts = space.arity(frame.object);
        if is_above(&self.frames, frame) {
            self.out.extend_from_slice(again)?;
            Ok(Going::On)
        } else if self.frames.len() >= levels {
            Ok(Going::Deep)
        } else {
            self.out.extend_from_slice(opening)?;
            self.frames.push(frame)?;
            Ok(Going::On)
        }
    }

    /// Begins an array between brackets.
    fn enter_elements(
        &mut self,
        space: &Space,
        levels: usize,
        array: Ref,
    ) -> Result<Going, AllocError>
        requires fit { IsFit space.now levels self.old.frames.items }
        requires end { IsAtEnd space.now array }
        ensures showed { IfOk result (λ going. (names : Names) (g : Graph) (asks : ℕ → Bool) (i : Item) → look names g asks i ≡ row_look names g (value_of array) (thing_in names g (value_of array)).triples
            → Showed names g asks levels self.old.frames.items (spelled self.old.out.items) i going self.new.frames.items (spelled self.new.out.items)) }
        ensures grown { IfOk result (λ _. IsGrown space.now levels self.old.frames.items self.new.frames.items) }
        ensures among { IfOk result (λ _. (below : Below) → AreAmong below self.old.frames.items → IsAmong below array → AreAmong below self.new.frames.items) }
    {
        let frame = Frame {
            shape: Shape::Elements,
            object: array,
            next: 0,
        };
        let going = self.enter(space, levels, b"[...]", b"[", frame)?;
        Ok(going)
    }

    /// Begins an array on lines.
    fn enter_lines(&mut self, space: &Space, levels: usize, array: Ref) -> Result<Going, AllocError>
        requires fit { IsFit space.now levels self.old.frames.items }
        requires end { IsAtEnd space.now array }
        ensures showed { IfOk result (λ going. (names : Names) (g : Graph) (asks : ℕ → Bool) (i : Item) → 0 < length (thing_in names g (value_of array)).triples → look names g asks i ≡ line_look names g (value_of array) (thing_in names g (value_of array)).triples
            → Showed names g asks levels self.old.frames.items (spelled self.old.out.items) i going self.new.frames.items (spelled self.new.out.items)) }
        ensures grown { IfOk result (λ _. IsGrown space.now levels self.old.frames.items self.new.frames.items) }
        ensures among { IfOk result (λ _. (below : Below) → AreAmong below self.old.frames.items → IsAmong below array → AreAmong below self.new.frames.items) }
    {
        let frame = Frame {
            shape: Shape::Lines,
            object: array,
            next: 0,
        };
        let going = self.enter(space, levels, b"[...]\n", b"", frame)?;
        Ok(going)
    }

    /// Begins a hash.
    fn enter_pairs(
        &mut self,
        space: &Space,
        levels: usize,
        form: Form,
        hash: Ref,
    ) -> Result<Going, AllocError>
        requires fit { IsFit space.now levels self.old.frames.items }
        requires end { IsAtEnd space.now hash }
        ensures showed { IfOk result (λ going. (names : Names) (g : Graph) (asks : ℕ → Bool) (i : Item) → look names g asks i ≡ hash_look names g (way_of form) (value_of hash) (thing_in names g (value_of hash)).triples
            → Showed names g asks levels self.old.frames.items (spelled self.old.out.items) i going self.new.frames.items (spelled self.new.out.items)) }
        ensures grown { IfOk result (λ _. IsGrown space.now levels self.old.frames.items self.new.frames.items) }
        ensures among { IfOk result (λ _. (below : Below) → AreAmong below self.old.frames.items → IsAmong below hash → AreAmong below self.new.frames.items) }
    {
        let frame = Frame {
            shape: Shape::Pairs(form),
            object: hash,
            next: 0,
        };
        let going = self.enter(space, levels, hash_again(form), b"{", frame)?;
        Ok(going)
    }

    /// Writes an array, or begins to: an empty one is an empty line of `puts`.
    fn show_array(
        &mut self,
        space: &Space,
        levels: usize,
        form: Form,
        array: Ref,
    ) -> Result<Going, AllocError>
        requires well { IsWell space.now }
        requires fit { IsFit space.now levels self.old.frames.items }
        requires end { IsAtEnd space.now array }
        requires object { (n : NameView) × (value_of array ≡ At n) }
        requires kind { kind_at space.now array ≡ Kind.Array }
        ensures showed { IfOk result (λ going. (names : Names) (asks : ℕ → Bool) (below : Below) → IsReadWith space.now below → IsAmong below array
            → Showed names (graph_of space.now.slots below) asks levels self.old.frames.items (spelled self.old.out.items) (way_of form, value_of array) going self.new.frames.items (spelled self.new.out.items)) }
        ensures grown { IfOk result (λ _. IsGrown space.now levels self.old.frames.items self.new.frames.items) }
        ensures among { IfOk result (λ _. (below : Below) → AreAmong below self.old.frames.items → IsAmong below array → AreAmong below self.new.frames.items) }
    {
        match form {
            Form::ToS => {
                let going = self.enter_elements(space, levels, array)?;
                Ok(going)
            }
            Form::Inspect => {
                let going = self.enter_elements(space, levels, array)?;
                Ok(going)
            }
            Form::Puts => {
                if space.arity(array) == 0 {
                    self.out.push(10)?;
                    Ok(Going::On)
                } else {
                    let going = self.enter_lines(space, levels, array)?;
                    Ok(going)
                }
            }
        }
    }

    /// Writes an object that is no container.
    fn show_leaf(
        &mut self,
        space: &Space,
        program: &Program,
        levels: usize,
        form: Form,
        object: Ref,
    ) -> Result<Going, AllocError>
        requires well { IsWell space.now }
        requires fit { IsFit space.now levels self.old.frames.items }
        requires end { IsAtEnd space.now object }
        requires object { (n : NameView) × (value_of object ≡ At n) }
        requires array { told_kind (kind_at space.now object) ≡ array → ⊥ }
        requires hash { told_kind (kind_at space.now object) ≡ hash → ⊥ }
        ensures showed { IfOk result (λ going. (below : Below) → IsReadWith space.now below → IsAmong below object
            → Showed (names_of program.now) (graph_of space.now.slots below) (λ _. false) levels self.old.frames.items (spelled self.old.out.items) (way_of form, value_of object) going self.new.frames.items (spelled self.new.out.items)) }
        ensures same { IfOk result (λ _. self.new.frames.items ≡ self.old.frames.items) }
    {
        if write_leaf(&mut self.out, space, program, form, object)? {
            Ok(Going::On)
        } else {
            Ok(Going::Shell)
        }
    }

    /// Writes an object, or begins to.
    fn show_object(
        &mut self,
        space: &Space,
        program: &Program,
        levels: usize,
        form: Form,
        object: Ref,
    ) -> Result<Going, AllocError>
        requires well { IsWell space.now }
        requires fit { IsFit space.now levels self.old.frames.items }
        requires end { IsAtEnd space.now object }
        requires object { (n : NameView) × (value_of object ≡ At n) }
        ensures showed { IfOk result (λ going. (below : Below) → IsReadWith space.now below → IsAmong below object
            → Showed (names_of program.now) (graph_of space.now.slots below) (λ _. false) levels self.old.frames.items (spelled self.old.out.items) (way_of form, value_of object) going self.new.frames.items (spelled self.new.out.items)) }
        ensures grown { IfOk result (λ _. IsGrown space.now levels self.old.frames.items self.new.frames.items) }
        ensures among { IfOk result (λ _. (below : Below) → AreAmong below self.old.frames.items → IsAmong below object → AreAmong below self.new.frames.items) }
    {
        match space.kind_of(object) {
            Kind::Array => {
                let going = self.show_array(space, levels, form, object)?;
                Ok(going)
            }
            Kind::Hash => {
                let going = self.enter_pairs(space, levels, form, object)?;
                Ok(going)
            }
            _ => {
                let going = self.show_leaf(space, program, levels, form, object)?;
                Ok(going)
            }
        }
    }

    /// Writes a value, or begins to.
    pub(crate) fn show(
        &mut self,
        space: &Space,
        program: &Program,
        levels: usize,
        form: Form,
        value: Ref,
    ) -> Result<Going, AllocError>
        requires well { IsWell space.now }
        requires fit { IsFit space.now levels self.old.frames.items }
        ensures showed { IfOk result (λ going. (below : Below) → IsReadWith space.now below → IsAmong below value
            → Showed (names_of program.now) (graph_of space.now.slots below) (λ _. false) levels self.old.frames.items (spelled self.old.out.items) (way_of form, resolve space.now.slots (value_of value)) going self.new.frames.items (spelled self.new.out.items)) }
        ensures grown { IfOk result (λ _. IsGrown space.now levels self.old.frames.items self.new.frames.items) }
        ensures among { IfOk result (λ _. (below : Below) → IsReadWith space.now below → AreAmong below self.old.frames.items → IsAmong below value → AreAmong below self.new.frames.items) }
    {
        if push_immediate(&mut self.out, program, form, value)? {
            return Ok(Going::On);
        }
        let object = space.resolve(value);
        let going = self.show_object(space, program, levels, form, object)?;
        Ok(going)
    }

    /// Goes on with the container on top, which was taken off.
    pub(crate) fn step(
        &mut self,
        space: &Space,
        program: &Program,
        levels: usize,
        top: Frame,
    ) -> Result<Going, AllocError>
        requires well { IsWell space.now }
        requires depth { length self.old.frames.items < levels }
        requires ends { AreAtEnd space.now self.old.frames.items }
        requires end { IsAtEnd space.now top.object }
        ensures stepped { IfOk result (λ going. (below : Below) → IsReadWith space.now below → IsAmong below top.object
            → Stepped (names_of program.now) (graph_of space.now.slots below) (λ _. false) levels self.old.frames.items top (spelled self.old.out.items) going self.new.frames.items (spelled self.new.out.items)) }
        ensures fit { IfOk result (λ _. IsFit space.now levels self.new.frames.items) }
        ensures among { IfOk result (λ _. (below : Below) → IsReadWith space.now below → AreAmong below self.old.frames.items → IsAmong below top.object → AreAmong below self.new.frames.items) }
        ensures lighter { IfOk result (λ _. load (parts_of space.now) breadth levels self.new.frames.items < load (parts_of space.now) breadth levels (self.old.frames.items ++ top ∷ [])) }
    {
        match next_part(&mut self.out, space, program, top)? {
            Some(part) => {
                self.frames.push(part.frame)?;
                let going = self.show(space, program, levels, part.form, part.value)?;
                Ok(going)
            }
            None => Ok(Going::On),
        }
    }
}

/// What stands for a hash inside itself.
fn hash_again(form: Form) -> &'static [u8]
    ensures { result.now ≡ codes "{...}" ++ line_end (way_of form) }
{
    match form {
        Form::ToS => b"{...}",
        Form::Inspect => b"{...}",
        Form::Puts => b"{...}\n",
    }
}
