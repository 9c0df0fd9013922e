//! Constants, and the classes that they name.

ghost use Rattle.std.specs.Prelude.{◌≡◌, ◌+◌, ◌*◌, ◌≤◌, ℕ, [], length, reverse, slice_index_or, position, nat_eq, Option, None, IfSome, true, false};
ghost use Rattle.rr_base.specs.ClassNames.{class_named};
ghost use Rattle.rr_tree.specs.declared.class.Class.{Class};
ghost use Rattle.rr_space.specs.Tables.{Table, Below};
ghost use Rattle.rr_builtin.specs.Fields.{field_at};
ghost use Rattle.rr_tree.specs.Tree.{constant};
ghost use Rattle.rr_eval.specs.Requests.{Course, asked_of};
ghost use Rattle.rr_eval.specs.Constants.{own_class, constant_rule, set_response, unless_set, asked_constant, plain_constant, set_constant_rule};
ghost use Rattle.rr_eval.specs.Frames.{below_of, base_of, Nested};
ghost use Rattle.rr_eval.specs.Globals.{globals};
ghost use Rattle.rr_eval.specs.Owners.{is_main};
ghost use Rattle.rr_eval.specs.Rules.{rule};
ghost use Rattle.rr_eval.specs.Turns.{context_of, IsNested, after_script, after_values, asking_with, continuing, remaining_with, size, sized};
ghost use Rattle.rr_eval.specs.Usual.{GivesAtOnce};
ghost use Rattle.rr_eval.specs.Views.{view_of};
ghost use Rattle.rr_eval.specs.Within.{Reach, reach, AreReached, IsReached, IsAskedReached, IsRequestReached, IsResponseReached};

use crate::call::{Arguments, Task};
use crate::engine::Engine;
use crate::frame::{Control, Frame, clear};
use crate::globals::GLOBALS;
use crate::iterating::own;
use crate::owners::is_main;
use crate::problem::{Answer, Problem, Response};
use crate::request::Request;
use rr_base::{BuiltInClass, ClassId, Sym};
use rr_builtin::{Problem as BuiltInProblem, Round, field_at};
use rr_space::{Ref, Space};
use rr_tree::{Path, Program};

/// The place of the program's class that has a name.
fn own_place(program: &Program, name: Sym) -> Option<usize>
    ensures { result ≡ position (λ (k : Class). nat_eq k.name.0 name.0) program.now.classes.items }
{
    program
        .classes
        .iter()
        .position(|class| class.name.0 == name.0)
}

/// The class of the program that has a name.
pub fn own_class(program: &Program, name: Sym) -> Option<ClassId>
    ensures { result ≡ own_class program.now name.0 }
{
    match own_place(program, name) {
        Some(place) => match u32::try_from(place + ClassId::BUILT_IN as usize) {
            Ok(number) => Some(ClassId(number)),
            Err(_) => None,
        },
        None => None,
    }
}

/// What a constant was set to, where it was set.
pub fn set_constant(space: &Space, name: Sym) -> Option<Response>
    ensures is { result ≡ set_response space.now (field_at space.now globals name.0) }
    ensures within { (clusters : Option Below) → IfSome result (IsResponseReached (reach (length space.now.slots) clusters)) }
{
    match field_at(space, GLOBALS, name) {
        Round::Item(value) => match own(space, value) {
            Some(value) => Some(Response::Gives(value)),
            None => Some(Response::Fails(Problem::NotHere)),
        },
        Round::Absent => None,
        Round::Moved => Some(Response::Fails(Problem::BuiltIn(BuiltInProblem::Moved))),
    }
}

/// What the main ractor set a constant to; another ractor has set none.
fn set_in_main(space: &Space, name: Sym) -> Option<Response>
    ensures main { is_main space.now ≡ true → result ≡ set_response space.now (field_at space.now globals name.0) }
    ensures other { is_main space.now ≡ false → result ≡ None }
    ensures within { (clusters : Option Below) → IfSome result (IsResponseReached (reach (length space.now.slots) clusters)) }
{
    if is_main(space) {
        set_constant(space, name)
    } else {
        None
    }
}

/// The value of a constant without a path that is no class of the program, where it is at hand: it was set to it, or is a built-in class.
pub fn constant_of(space: &Space, name: Sym, class: Option<BuiltInClass>) -> Option<Ref>
    ensures is { (p : Program) → class ≡ class_named (slice_index_or (context_of p).symbols name.0 []) → IfSome result (GivesAtOnce p space.now (plain_constant (context_of p) None name)) }
    ensures within { (clusters : Option Below) → IfSome result (IsReached (reach (length space.now.slots) clusters)) }
{
    match set_in_main(space, name) {
        Some(response) => match response {
            Response::Gives(value) => Some(value),
            _ => None,
        },
        None => match class {
            Some(class) => Some(Ref::Class(class.id())),
            None => None,
        },
    }
}

impl Engine {
    /// Evaluates a constant of this name, which is this built-in class or was never set.
    #[tactic(auto, unfolding(crate::specs::Within::AreReached))]
    #[inline(never)]
    fn open_constant(&mut self, program: &Program, class: Option<BuiltInClass>, name: Sym)
        requires nested { IsNested (view_of self.old) }
        ensures goes { (t : Table) (h : Course) (n : ℕ) → after_script program.now (view_of self.old) t (constant_rule (context_of program.now) class name) h n ≡ remaining_with program.now (view_of self.new) t h n }
        ensures nested { IsNested (view_of self.new) }
        ensures within { (k : Reach) → AreReached k (view_of self.old) → AreReached k (view_of self.new) }
        ensures left { self.new.left ≡ self.old.left }
        ensures size { size (view_of self.new) ≤ 3 * length self.old.frames.items + 4 }
    {
        self.control = match class {
            Some(class) => Control::Give(Answer::Gave(Ref::Class(class.id()))),
            None => Control::Throw(Problem::MissingConstant(name)),
        };
    }

    /// Evaluates a constant of this name, which is no class of the program, as another ractor than the main one does: it asks where no
    /// built-in class has the name.
    #[tactic(auto, unfolding(crate::specs::Within::AreReached))]
    fn ask_constant(&mut self, class: Option<BuiltInClass>, name: Sym) -> Option<Request>
        requires nested { IsNested (view_of self.old) }
        ensures goes { (p : Program) (t : Table) (h : Course) (n : ℕ) → after_script p (view_of self.old) t (asked_constant (context_of p) class name t) h n ≡ continuing p (view_of self.new) t result h n }
        ensures nested { IsNested (view_of self.new) }
        ensures within { (k : Reach) → AreReached k (view_of self.old) → AreReached k (view_of self.new) }
        ensures asks { (k : Reach) → IsAskedReached k result }
        ensures left { self.new.left ≡ self.old.left }
        ensures size { sized result (view_of self.new) ≤ 3 * length self.old.frames.items + 4 }
    {
        match class {
            Some(class) => {
                self.control = Control::Give(Answer::Gave(Ref::Class(class.id())));
                None
            }
            None => Some(Request::Do(Task::GetConstant(name), Arguments::Without)),
        }
    }

    /// Evaluates a constant of this name, which is no class of the program, as the main ractor does.
    #[tactic(auto, unfolding(crate::specs::Within::AreReached))]
    fn open_set(&mut self, program: &Program, space: &Space, name: Sym)
        requires nested { IsNested (view_of self.old) }
        ensures goes { (h : Course) (n : ℕ) → after_script program.now (view_of self.old) space.now (unless_set (context_of program.now) (set_response space.now (field_at space.now globals name.0)) (constant_rule (context_of program.now) (class_named (slice_index_or (context_of program.now).symbols name.0 [])) name)) h n ≡ remaining_with program.now (view_of self.new) space.now h n }
        ensures nested { IsNested (view_of self.new) }
        ensures within { (clusters : Option Below) → AreReached (reach (length space.now.slots) clusters) (view_of self.old) → AreReached (reach (length space.now.slots) clusters) (view_of self.new) }
        ensures left { self.new.left ≡ self.old.left }
        ensures size { size (view_of self.new) ≤ 3 * length self.old.frames.items + 4 }
    {
        match set_constant(space, name) {
            Some(response) => self.settle(response),
            None => {
                let class = BuiltInClass::named(program.symbol_bytes(name));
                self.open_constant(program, class, name)
            }
        }
    }

    /// Evaluates a constant without a path that is no class of the program.
    fn open_plain(&mut self, program: &Program, space: &Space, name: Sym) -> Option<Request>
        requires nested { IsNested (view_of self.old) }
        ensures goes { (h : Course) (n : ℕ) → after_script program.now (view_of self.old) space.now (plain_constant (context_of program.now) None name) h n ≡ continuing program.now (view_of self.new) space.now result h n }
        ensures nested { IsNested (view_of self.new) }
        ensures within { (clusters : Option Below) → AreReached (reach (length space.now.slots) clusters) (view_of self.old) → AreReached (reach (length space.now.slots) clusters) (view_of self.new) }
        ensures asks { (k : Reach) → IsAskedReached k result }
        ensures left { self.new.left ≡ self.old.left }
        ensures size { sized result (view_of self.new) ≤ 3 * length self.old.frames.items + 4 }
    {
        if is_main(space) {
            self.open_set(program, space, name);
            return None;
        }
        let class = BuiltInClass::named(program.symbol_bytes(name));
        self.ask_constant(class, name)
    }

    /// Evaluates a constant by its path.
    #[tactic(auto, unfolding(crate::specs::Within::AreReached))]
    pub fn open_path(&mut self, program: &Program, space: &Space, path: Path) -> Option<Request>
        requires nested { IsNested (view_of self.old) }
        ensures goes { (h : Course) (n : ℕ) → after_script program.now (view_of self.old) space.now (rule (context_of program.now) (constant path)) h n ≡ continuing program.now (view_of self.new) space.now result h n }
        ensures nested { IsNested (view_of self.new) }
        ensures within { (clusters : Option Below) → AreReached (reach (length space.now.slots) clusters) (view_of self.old) → AreReached (reach (length space.now.slots) clusters) (view_of self.new) }
        ensures asks { (k : Reach) → IsAskedReached k result }
        ensures left { self.new.left ≡ self.old.left }
        ensures size { sized result (view_of self.new) ≤ 3 * length self.old.frames.items + 4 }
    {
        match path {
            Path::Plain(name) => match own_class(program, name) {
                Some(class) => {
                    self.control = Control::Give(Answer::Gave(Ref::Class(class)));
                    None
                }
                None => self.open_plain(program, space, name),
            },
            Path::Ractor(name) => {
                let class = BuiltInClass::named_in_ractor(program.symbol_bytes(name));
                self.open_constant(program, class, name);
                None
            }
        }
    }

    /// Asks for an assignment to a constant.
    #[tactic(auto, unfolding(crate::specs::Within::AreReached))]
    pub fn ask_set_constant(&self, name: Sym, value: Ref) -> Request
        ensures asks { (p : Program) (t : Table) (h : Course) (n : ℕ) → after_script p (view_of self.now) t (set_constant_rule (context_of p) name value) h n ≡ asking_with p (view_of self.now) t (asked_of t result) h n }
        ensures within { (k : Reach) → IsReached k value → IsRequestReached k result }
    {
        Request::Do(Task::SetConstant(name), Arguments::One(value))
    }

    /// Asks for an assignment to a constant in the place of what is done with the values that stand for a frame.
    #[tactic(auto, unfolding(crate::specs::Within::AreReached))]
    pub fn put_constant(&mut self, frame: Frame, name: Sym, value: Ref) -> Request
        requires base { base_of frame ≤ length self.old.held.items }
        requires nested { Nested (reverse self.old.frames.items) (below_of frame self.old.held.items) }
        ensures goes { (p : Program) (t : Table) (h : Course) (n : ℕ) → after_values p (view_of self.old) t frame (set_constant_rule (context_of p) name value) h n ≡ asking_with p (view_of self.new) t (asked_of t result) h n }
        ensures nested { IsNested (view_of self.new) }
        ensures within { (k : Reach) → AreReached k (view_of self.old) → AreReached k (view_of self.new) }
        ensures asks { (k : Reach) → IsReached k value → IsRequestReached k result }
        ensures left { self.new.left ≡ self.old.left }
        ensures frames { self.new.frames.items ≡ self.old.frames.items }
    {
        clear(&mut self.held, frame);
        self.ask_set_constant(name, value)
    }
}
