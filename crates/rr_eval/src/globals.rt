//! Global variables.

ghost use Rattle.std.specs.Prelude.{◌≡◌, ◌+◌, ◌*◌, ◌≤◌, ℕ, length, reverse, Option, Some, IfOk, IfErr};
ghost use Rattle.std.specs.List.{All};
ghost use Rattle.rr_space.specs.Parts.{value_of};
ghost use Rattle.rr_space.specs.Tables.{Table, Below};
ghost use Rattle.rr_text.specs.Reads.{IsReadWith};
ghost use Rattle.rr_builtin.specs.Fields.{set_field};
ghost use Rattle.rr_tree.specs.declared.program.Program.{Program};
ghost use Rattle.rr_eval.specs.declared.problem.Problem.{Problem};
ghost use Rattle.rr_eval.specs.Calls.{reply_with};
ghost use Rattle.rr_eval.specs.Globals.{globals, global_rule, set_global_rule};
ghost use Rattle.rr_eval.specs.Frames.{below_of, base_of, Nested};
ghost use Rattle.rr_eval.specs.Published.{published};
ghost use Rattle.rr_eval.specs.Requests.{Course};
ghost use Rattle.rr_eval.specs.Serves.{IsReplied, IsRefused};
ghost use Rattle.rr_eval.specs.Tasks.{global_reply};
ghost use Rattle.rr_eval.specs.Turns.{context_of, IsNested, after_script, after_values, continuing, remaining_with, size, sized};
ghost use Rattle.rr_eval.specs.Views.{view_of};
ghost use Rattle.rr_eval.specs.Within.{Reach, reach, AreReached, IsReached, IsAskedReached};

use crate::call::{Arguments, Task};
use crate::engine::Engine;
use crate::fields::read_field;
use crate::frame::{Control, Frame, clear};
use crate::owners::is_main;
use crate::problem::{Problem, Response};
use crate::request::Request;
use crate::serve::response_from;
use rr_base::{Fault, Sym};
use rr_builtin::set_field;
use rr_space::{Ref, Space};
use rr_store::StoreState;

/// The object whose fields are the global variables and the constants: the second one of a script.
pub const GLOBALS: Ref = Ref::Local(1);

/// Gives a global variable, or a constant, a value, and gives the value. A refused growth leaves the
/// objects as they were.
pub fn write_global(
    space: &mut Space,
    store: &StoreState,
    name: Sym,
    value: Ref,
) -> Result<Response, Fault>
    requires read { IsReadWith space.old (published store.now) }
    requires value { IsReached (reach (length space.old.slots) (Some (published store.now))) value }
    ensures replied { IfOk result (λ r. IsReplied (published store.now) (reply_with Problem.NotHere (set_field name.0 (value_of value) globals space.old)) space.old r space.new) }
    ensures refused { IfErr result (IsRefused (reply_with Problem.NotHere (set_field name.0 (value_of value) globals space.old)) space.old) }
{
    match set_field(space, GLOBALS, name, value) {
        Ok(built) => {
            let _after = space.len();
            Ok(response_from(Problem::NotHere, built))
        }
        Err(fault) => Err(fault),
    }
}

/// The value becomes a global variable, or a constant, and is given. A refused growth leaves the objects as they were.
pub fn give_global(
    space: &mut Space,
    store: &StoreState,
    name: Sym,
    values: &[Ref],
) -> Result<Response, Fault>
    requires read { IsReadWith space.old (published store.now) }
    requires reached { All (IsReached (reach (length space.old.slots) (Some (published store.now)))) values.now }
    ensures replied { IfOk result (λ r. IsReplied (published store.now) (global_reply name values.now space.old) space.old r space.new) }
    ensures refused { IfErr result (IsRefused (global_reply name values.now space.old) space.old) }
{
    match values {
        [value, ..] => write_global(space, store, name, *value),
        _ => Ok(Response::Gives(Ref::Nil)),
    }
}

impl Engine {
    /// Evaluates a global variable, which only the main ractor uses.
    #[tactic(auto, unfolding(crate::specs::Within::AreReached))]
    pub fn open_global(&mut self, space: &Space, name: Sym)
        requires nested { IsNested (view_of self.old) }
        ensures goes { (p : Program) (h : Course) (n : ℕ) → after_script p (view_of self.old) space.now (global_rule (context_of p) name) h n ≡ remaining_with p (view_of self.new) space.now h n }
        ensures nested { IsNested (view_of self.new) }
        ensures within { (clusters : Option Below) → AreReached (reach (length space.now.slots) clusters) (view_of self.old) → AreReached (reach (length space.now.slots) clusters) (view_of self.new) }
        ensures left { self.new.left ≡ self.old.left }
        ensures size { size (view_of self.new) ≤ 3 * length self.old.frames.items + 4 }
    {
        if is_main(space) {
            let held = read_field(space, GLOBALS, name);
            self.settle(held);
        } else {
            self.control = Control::Throw(Problem::IsolatedGlobal(name));
        }
    }

    /// Asks for an assignment to a global variable. In another ractor than the main one it raises, and asks nothing.
    #[tactic(auto, unfolding(crate::specs::Within::AreReached))]
    pub fn ask_global(&mut self, space: &Space, name: Sym, value: Ref) -> Option<Request>
        requires nested { IsNested (view_of self.old) }
        ensures goes { (p : Program) (h : Course) (n : ℕ) → after_script p (view_of self.old) space.now (set_global_rule (context_of p) name value) h n ≡ continuing p (view_of self.new) space.now result h n }
        ensures nested { IsNested (view_of self.new) }
        ensures within { (k : Reach) → AreReached k (view_of self.old) → AreReached k (view_of self.new) }
        ensures asks { (k : Reach) → IsReached k value → IsAskedReached k result }
        ensures left { self.new.left ≡ self.old.left }
        ensures size { sized result (view_of self.new) ≤ 3 * length self.old.frames.items + 4 }
    {
        if is_main(space) {
            return Some(Request::Do(Task::SetGlobal(name), Arguments::One(value)));
        }
        self.control = Control::Throw(Problem::IsolatedGlobal(name));
        None
    }

    /// Assigns to a global variable in the place of what is done with the values that stand for a frame.
    #[tactic(auto, unfolding(crate::specs::Within::AreReached))]
    pub fn put_global(
        &mut self,
        space: &Space,
        frame: Frame,
        name: Sym,
        value: Ref,
    ) -> Option<Request>
        requires base { base_of frame ≤ length self.old.held.items }
        requires nested { Nested (reverse self.old.frames.items) (below_of frame self.old.held.items) }
        ensures goes { (p : Program) (h : Course) (n : ℕ) → after_values p (view_of self.old) space.now frame (set_global_rule (context_of p) name value) h n ≡ continuing p (view_of self.new) space.now result h n }
        ensures nested { IsNested (view_of self.new) }
        ensures within { (k : Reach) → AreReached k (view_of self.old) → AreReached k (view_of self.new) }
        ensures asks { (k : Reach) → IsReached k value → IsAskedReached k result }
        ensures left { self.new.left ≡ self.old.left }
        ensures size { sized result (view_of self.new) ≤ 3 * length self.old.frames.items + 4 }
    {
        clear(&mut self.held, frame);
        self.ask_global(space, name, value)
    }
}
