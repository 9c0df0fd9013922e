//! The cause of an exception that is raised itself.

ghost use Rattle.std.specs.Prelude.{◌≡◌, ◌+◌, ◌*◌, ◌≤◌, ◌&&◌, ℕ, [], ◌∷◌, ◌++◌, not, length, reverse, Some, IfSome};
ghost use Rattle.std.specs.List.{All};
ghost use Rattle.rr_space.specs.Parts.{value_of};
ghost use Rattle.rr_text.specs.Reads.{IsReadWith};
ghost use Rattle.rr_tree.specs.declared.program.Program.{Program};
ghost use Rattle.rr_builtin.specs.Kinds.{is_exception};
ghost use Rattle.rr_builtin.specs.Objects.{is_nil};
ghost use Rattle.rr_eval.specs.Frames.{below_of, base_of, stand_of, Nested};
ghost use Rattle.rr_eval.specs.Raising.{raised_beside, raise_rule};
ghost use Rattle.rr_eval.specs.Published.{published};
ghost use Rattle.rr_eval.specs.Requests.{Course};
ghost use Rattle.rr_eval.specs.Serves.{IsReplied};
ghost use Rattle.rr_eval.specs.Tasks.{cause_reply};
ghost use Rattle.rr_eval.specs.Turns.{context_of, IsNested, after_values, continuing, size, sized};
ghost use Rattle.rr_eval.specs.Views.{view_of};
ghost use Rattle.rr_eval.specs.Within.{Reach, reach, IsReached, IsAskedReached, AreReached};

use crate::call::{Arguments, Task};
use crate::engine::Engine;
use crate::frame::{Frame, clear, standing};
use crate::problem::Response;
use crate::request::Request;
use rr_builtin::set_cause;
use rr_space::{Kind, Ref, Space};
use rr_store::StoreState;

/// Whether a value of a kind is raised itself, while another exception is being rescued.
fn is_beside(kind: Kind, rescued: Ref) -> bool
    ensures { result ≡ (is_exception kind && not (is_nil rescued)) }
{
    matches!(kind, Kind::Exception) && !matches!(rescued, Ref::Nil)
}

/// The exception that `raise` with these values raises itself, and the one that is being rescued then.
fn raised_beside(space: &Space, rescued: Ref, values: &[Ref], last: Ref) -> Option<(Ref, Ref)>
    ensures is { result ≡ raised_beside space.now rescued (values.now ++ last ∷ []) }
    ensures within { (k : Reach) → IsReached k rescued → IsReached k last → IfSome result (λ two. IsReached k two.0 × IsReached k two.1) }
{
    match values {
        [] => {
            if is_beside(space.kind_of(last), rescued) {
                Some((last, rescued))
            } else {
                None
            }
        }
        _ => None,
    }
}

/// The second of two exceptions becomes the cause of the first one, where it takes one, and the first one is raised.
pub fn give_cause(space: &mut Space, store: &StoreState, values: &[Ref]) -> Response
    requires read { IsReadWith space.old (published store.now) }
    requires reached { All (IsReached (reach (length space.old.slots) (Some (published store.now)))) values.now }
    ensures replied { IsReplied (published store.now) (cause_reply values.now space.old) space.old result space.new }
{
    match values {
        [exception, cause, ..] => raise_with_cause(space, store, *exception, *cause),
        _ => Response::Gives(Ref::Nil),
    }
}

/// An exception gets a cause, where it takes one, and is raised.
fn raise_with_cause(space: &mut Space, store: &StoreState, exception: Ref, cause: Ref) -> Response
    requires read { IsReadWith space.old (published store.now) }
    requires exception { IsReached (reach (length space.old.slots) (Some (published store.now))) exception }
    requires cause { IsReached (reach (length space.old.slots) (Some (published store.now))) cause }
    ensures replied { IsReplied (published store.now) (cause_reply (exception ∷ cause ∷ []) space.old) space.old result space.new }
{
    set_cause(space, exception, cause);
    let _after = space.len();
    Response::Throws(exception)
}

impl Engine {
    /// Does what `raise` does with the values that stand for a frame and with one more: an exception that is raised itself while another
    /// one is being rescued gets that one as its cause first.
    pub fn finish_raise(&mut self, space: &Space, frame: Frame, value: Ref) -> Option<Request>
        requires base { base_of frame ≤ length self.old.held.items }
        requires nested { Nested (reverse self.old.frames.items) (below_of frame self.old.held.items) }
        ensures goes { (p : Program) (h : Course) (n : ℕ) → after_values p (view_of self.old) space.now frame (raise_rule (context_of p) (stand_of frame self.old.held.items ++ value ∷ [])) h n ≡ continuing p (view_of self.new) space.now result h n }
        ensures nested { IsNested (view_of self.new) }
        ensures within { (k : Reach) → AreReached k (view_of self.old) → IsReached k value → AreReached k (view_of self.new) }
        ensures asks { (k : Reach) → AreReached k (view_of self.old) → IsReached k value → IsAskedReached k result }
        ensures left { self.new.left ≡ self.old.left }
        ensures size { sized result (view_of self.new) ≤ 3 * length self.old.frames.items + 4 }
    {
        match raised_beside(space, self.rescuing, standing(&self.held, frame), value) {
            Some((exception, cause)) => {
                clear(&mut self.held, frame);
                Some(Request::Do(Task::SetCause, Arguments::Two(exception, cause)))
            }
            None => {
                self.raise_values(frame, value);
                None
            }
        }
    }
}
