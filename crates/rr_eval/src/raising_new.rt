//! `raise` of a class whose exceptions get the program's `initialize`.

ghost use Rattle.std.specs.Prelude.{◌≡◌, ◌+◌, ◌*◌, ◌<◌, ◌≤◌, ℕ, [], ◌∷◌, ◌++◌, length, reverse, vec_capacity, IfOk, IfErr, OnOk};
ghost use Rattle.rr_base.specs.declared.fault.Fault.{Fault};
ghost use Rattle.rr_space.specs.Tables.{Table};
ghost use Rattle.rr_eval.specs.RaisingNew.{raised_with};
ghost use Rattle.rr_eval.specs.Requests.{Course};
ghost use Rattle.rr_eval.specs.Frames.{below_of, base_of, stand_of, Nested};
ghost use Rattle.rr_eval.specs.Turns.{context_of, IsNested, after_values, continuing, Stands, sized};
ghost use Rattle.rr_eval.specs.Views.{view_of};
ghost use Rattle.rr_eval.specs.Within.{Reach, IsReached, IsAskedReached, AreReached};

use crate::call::Passing;
use crate::engine::Engine;
use crate::frame::{Frame, standing};
use crate::prepared::Prepared;
use crate::request::Request;
use rr_base::Fault;
use rr_space::{Ref, Space};

impl Engine {
    /// Does what `raise` does with the values that stand for a frame and with one more: a new exception that gets the program's `initialize`
    /// is made first. A refused growth leaves all as it is.
    pub fn raise_first(
        &mut self,
        prepared: &Prepared,
        space: &Space,
        frame: Frame,
        value: Ref,
    ) -> Result<Option<Request>, Fault>
        requires room { length self.old.frames.items < vec_capacity self.old.frames }
        requires base { base_of frame ≤ length self.old.held.items }
        requires nested { Nested (reverse self.old.frames.items) (below_of frame self.old.held.items) }
        ensures goes { IfOk result (λ q. (h : Course) (n : ℕ) → after_values prepared.now.program (view_of self.old) space.now frame (raised_with (context_of prepared.now.program) (stand_of frame self.old.held.items ++ value ∷ [])) h n ≡ continuing prepared.now.program (view_of self.new) space.now q h n) }
        ensures nested { OnOk result (IsNested (view_of self.new)) }
        ensures within { (k : Reach) → AreReached k (view_of self.old) → IsReached k value → AreReached k (view_of self.new) }
        ensures asks { (k : Reach) → AreReached k (view_of self.old) → IsReached k value → IfOk result (IsAskedReached k) }
        ensures left { self.new.left ≡ self.old.left }
        ensures err { (t : Table) → IfErr result (λ f. Stands (view_of self.old) (view_of self.new) t t f) }
        ensures size { IfOk result (λ q. sized q (view_of self.new) ≤ 3 * length self.old.frames.items + 4) }
        ensures room { IfErr result (λ _. length self.new.frames.items < vec_capacity self.new.frames) }
        ensures fault { IfErr result (λ f. f ≡ Fault.Memory) }
    {
        match prepared.class_raised(standing(&self.held, frame), value) {
            Some(class) => {
                let cause = self.rescuing;
                let passing = Passing::BehindReceiver;
                self.begin_new(class, cause, true, passing, None, frame, Some(value))?;
                Ok(None)
            }
            None => Ok(self.finish_raise(space, frame, value)),
        }
    }
}
