//! Instance variables of `self`.

ghost use Rattle.std.specs.Prelude.{◌≡◌, ◌+◌, ◌*◌, ◌≤◌, ℕ, length, Option, Some, IfOk, IfErr};
ghost use Rattle.std.specs.List.{All};
ghost use Rattle.rr_space.specs.Parts.{value_of};
ghost use Rattle.rr_space.specs.Tables.{Table, Below};
ghost use Rattle.rr_text.specs.Reads.{IsReadWith};
ghost use Rattle.rr_builtin.specs.Fields.{field_at, set_field};
ghost use Rattle.rr_builtin.specs.Messages.{write_message};
ghost use Rattle.rr_tree.specs.declared.program.Program.{Program};
ghost use Rattle.rr_eval.specs.declared.problem.Problem.{Problem};
ghost use Rattle.rr_eval.specs.Apart.{assignment_asked};
ghost use Rattle.rr_eval.specs.Calls.{reply_with};
ghost use Rattle.rr_eval.specs.Fields.{field_response, field_rule, set_field_rule};
ghost use Rattle.rr_eval.specs.Published.{published};
ghost use Rattle.rr_eval.specs.Requests.{Course, asked_of};
ghost use Rattle.rr_eval.specs.Serves.{IsReplied, IsRefused};
ghost use Rattle.rr_eval.specs.Tasks.{field_reply, message_reply};
ghost use Rattle.rr_eval.specs.Turns.{context_of, IsNested, after_script, asking_with, remaining_with, size};
ghost use Rattle.rr_eval.specs.Views.{view_of};
ghost use Rattle.rr_eval.specs.Within.{Reach, reach, AreReached, IsReached, IsRequestReached, IsResponseReached};

use crate::call::{Arguments, Task};
use crate::engine::Engine;
use crate::iterating::own;
use crate::problem::{Problem, Response};
use crate::request::Request;
use crate::serve::response_from;
use rr_base::{Fault, Sym};
use rr_builtin::{Problem as BuiltInProblem, Round, field_at, set_field, write_message};
use rr_space::{Ref, Space};
use rr_store::StoreState;

/// What an instance variable of an object holds.
#[inline(always)]
pub fn read_field(space: &Space, object: Ref, name: Sym) -> Response
    ensures is { result ≡ field_response space.now (field_at space.now object name.0) }
    ensures within { (clusters : Option Below) → IsResponseReached (reach (length space.now.slots) clusters) result }
{
    match field_at(space, object, name) {
        Round::Item(value) => match own(space, value) {
            Some(value) => Response::Gives(value),
            None => Response::Fails(Problem::NotHere),
        },
        Round::Absent => Response::Gives(Ref::Nil),
        Round::Moved => Response::Fails(Problem::BuiltIn(BuiltInProblem::Moved)),
    }
}

/// Gives an instance variable of an object a value, and gives the value. A refused growth leaves the
/// objects as they were.
pub fn write_field(
    space: &mut Space,
    store: &StoreState,
    object: Ref,
    name: Sym,
    value: Ref,
) -> Result<Response, Fault>
    requires read { IsReadWith space.old (published store.now) }
    requires object { IsReached (reach (length space.old.slots) (Some (published store.now))) object }
    requires value { IsReached (reach (length space.old.slots) (Some (published store.now))) value }
    ensures replied { IfOk result (λ r. IsReplied (published store.now) (reply_with Problem.NotHere (set_field name.0 (value_of value) object space.old)) space.old r space.new) }
    ensures refused { IfErr result (IsRefused (reply_with Problem.NotHere (set_field name.0 (value_of value) object space.old)) space.old) }
{
    match set_field(space, object, name, value) {
        Ok(built) => {
            let _after = space.len();
            Ok(response_from(Problem::NotHere, built))
        }
        Err(fault) => Err(fault),
    }
}

/// The second of two values becomes an instance variable of the first one, and is given. A refused growth leaves the objects as
/// they were.
pub fn give_field(
    space: &mut Space,
    store: &StoreState,
    name: Sym,
    values: &[Ref],
) -> Result<Response, Fault>
    requires read { IsReadWith space.old (published store.now) }
    requires reached { All (IsReached (reach (length space.old.slots) (Some (published store.now)))) values.now }
    ensures replied { IfOk result (λ r. IsReplied (published store.now) (field_reply name values.now space.old) space.old r space.new) }
    ensures refused { IfErr result (IsRefused (field_reply name values.now space.old) space.old) }
{
    match values {
        [object, value, ..] => write_field(space, store, *object, name, *value),
        _ => Ok(Response::Gives(Ref::Nil)),
    }
}

/// Gives an exception another message, and gives the exception.
fn replace_message(space: &mut Space, store: &StoreState, exception: Ref, message: Ref) -> Response
    requires read { IsReadWith space.old (published store.now) }
    requires message { IsReached (reach (length space.old.slots) (Some (published store.now))) message }
    ensures replied { IsReplied (published store.now) (reply_with Problem.NotHere (write_message (value_of message) exception space.old)) space.old result space.new }
{
    let built = write_message(space, exception, message);
    let _after = space.len();
    response_from(Problem::NotHere, built)
}

/// The second of two values becomes the message of the first one, an exception, which is given.
pub fn give_message(space: &mut Space, store: &StoreState, values: &[Ref]) -> Response
    requires read { IsReadWith space.old (published store.now) }
    requires reached { All (IsReached (reach (length space.old.slots) (Some (published store.now)))) values.now }
    ensures replied { IsReplied (published store.now) (message_reply values.now space.old) space.old result space.new }
{
    match values {
        [exception, message, ..] => replace_message(space, store, *exception, *message),
        _ => Response::Gives(Ref::Nil),
    }
}

/// An assignment of a value to an instance variable of an object.
#[derive(Clone, Copy)]
pub struct FieldAssignment {
    pub object: Ref,
    pub name: Sym,
    pub value: Ref,
}

impl FieldAssignment {
    /// The request for it.
    #[inline(always)]
    pub fn request(self) -> Request
        ensures { result ≡ assignment_asked self }
    {
        Request::Do(
            Task::SetField(self.name),
            Arguments::Two(self.object, self.value),
        )
    }
}

impl Engine {
    /// Evaluates an instance variable of `self`.
    #[tactic(auto, unfolding(crate::specs::Within::AreReached))]
    #[inline(always)]
    pub fn open_field(&mut self, space: &Space, name: Sym)
        requires nested { IsNested (view_of self.old) }
        ensures goes { (p : Program) (h : Course) (n : ℕ) → after_script p (view_of self.old) space.now (field_rule (context_of p) name) h n ≡ remaining_with p (view_of self.new) space.now h n }
        ensures nested { IsNested (view_of self.new) }
        ensures within { (clusters : Option Below) → AreReached (reach (length space.now.slots) clusters) (view_of self.old) → AreReached (reach (length space.now.slots) clusters) (view_of self.new) }
        ensures left { self.new.left ≡ self.old.left }
        ensures size { size (view_of self.new) ≤ 3 * length self.old.frames.items + 4 }
    {
        let held = read_field(space, self.itself(), name);
        self.settle(held);
    }

    /// An assignment of a value to an instance variable of `self`.
    #[tactic(auto, unfolding(crate::specs::Within::AreReached))]
    #[inline(always)]
    pub fn field_assignment(&self, name: Sym, value: Ref) -> FieldAssignment
        ensures asks { (p : Program) (t : Table) (h : Course) (n : ℕ) → after_script p (view_of self.now) t (set_field_rule (context_of p) name value) h n ≡ asking_with p (view_of self.now) t (asked_of t (assignment_asked result)) h n }
        ensures within { (k : Reach) → AreReached k (view_of self.now) → IsReached k value → IsRequestReached k (assignment_asked result) }
    {
        FieldAssignment {
            object: self.itself(),
            name,
            value,
        }
    }

    /// Asks for an assignment of a value to an instance variable of `self`.
    #[tactic(auto, unfolding(crate::specs::Within::AreReached))]
    pub fn ask_field(&self, name: Sym, value: Ref) -> Request
        ensures asks { (p : Program) (t : Table) (h : Course) (n : ℕ) → after_script p (view_of self.now) t (set_field_rule (context_of p) name value) h n ≡ asking_with p (view_of self.now) t (asked_of t result) h n }
        ensures within { (k : Reach) → AreReached k (view_of self.now) → IsReached k value → IsRequestReached k result }
    {
        Request::Do(Task::SetField(name), Arguments::Two(self.itself(), value))
    }
}
