//! Assignments to one of several targets, each of which is a step.

ghost use Rattle.std.specs.Prelude.{◌≡◌, ◌+◌, ◌*◌, ◌<◌, ◌≤◌, ◌∷◌, [], ℕ, length, vec_capacity, Option, None, IfOk, IfErr, OnOk};
ghost use Rattle.rr_base.specs.declared.fault.Fault.{Fault};
ghost use Rattle.rr_space.specs.Tables.{Table, Below};
ghost use Rattle.rr_eval.specs.declared.call.Callee.{Callee};
ghost use Rattle.rr_eval.specs.declared.frame.Control.{Control};
ghost use Rattle.rr_eval.specs.Requests.{Course};
ghost use Rattle.rr_eval.specs.Rules.{send_rule};
ghost use Rattle.rr_eval.specs.Several.{put_in};
ghost use Rattle.rr_eval.specs.Turns.{context_of, IsNested, remaining, after_script, continuing, Stands, sized, size};
ghost use Rattle.rr_eval.specs.Views.{view_of};
ghost use Rattle.rr_eval.specs.Within.{Reach, reach, IsReached, IsSpotReached, IsAskedReached, AreReached};

use crate::call::{Callee, Passing};
use crate::engine::Engine;
use crate::frame::{Control, Frame};
use crate::prepared::Prepared;
use crate::request::Request;
use crate::spot::Spot;
use crate::updating::Place;
use rr_base::Fault;
use rr_space::{Ref, Space};

impl Engine {
    /// Calls `[]=` of a receiver with an index and a value. A refused growth leaves all as it is.
    #[tactic(auto, unfolding(crate::specs::Within::AreReached))]
    fn send_element(
        &mut self,
        prepared: &Prepared,
        space: &Space,
        receiver: Ref,
        index: Ref,
        value: Ref,
    ) -> Result<Option<Request>, Fault>
        requires room { length self.old.frames.items < vec_capacity self.old.frames }
        requires nested { IsNested (view_of self.old) }
        ensures goes { IfOk result (λ q. (h : Course) (n : ℕ) → after_script prepared.now.program (view_of self.old) space.now (send_rule (context_of prepared.now.program) Callee.SetIndex None receiver (index ∷ value ∷ [])) h n ≡ continuing prepared.now.program (view_of self.new) space.now q h n) }
        ensures within { (clusters : Option Below) → AreReached (reach (length space.now.slots) clusters) (view_of self.old) → IsReached (reach (length space.now.slots) clusters) receiver → IsReached (reach (length space.now.slots) clusters) index → IsReached (reach (length space.now.slots) clusters) value → AreReached (reach (length space.now.slots) clusters) (view_of self.new) }
        ensures asks { (k : Reach) → AreReached k (view_of self.old) → IsReached k receiver → IsReached k index → IsReached k value → IfOk result (IsAskedReached k) }
        ensures nested { OnOk result (IsNested (view_of self.new)) }
        ensures left { self.new.left ≡ self.old.left }
        ensures err { (t : Table) → IfErr result (λ f. Stands (view_of self.old) (view_of self.new) t t f) }
        ensures size { IfOk result (λ q. sized q (view_of self.new) ≤ 3 * length self.old.frames.items + 4) }
        ensures fault { IfErr result (λ f. f ≡ Fault.Memory) }
    {
        let base = self.held.len();
        self.held.push(index)?;
        let callee = Callee::SetIndex;
        let frame = Frame::Put(Place::Sent(callee), base);
        let argument = Some(value);
        match self.send(
            prepared,
            space,
            receiver,
            callee,
            Passing::All,
            None,
            frame,
            argument,
        ) {
            Ok(request) => Ok(request),
            Err(fault) => {
                self.held.truncate(base);
                Err(fault)
            }
        }
    }

    /// Assigns a value to a target.
    fn put_in(
        &mut self,
        prepared: &Prepared,
        space: &Space,
        spot: Spot,
        value: Ref,
    ) -> Result<Option<Request>, Fault>
        requires room { length self.old.frames.items < vec_capacity self.old.frames }
        requires nested { IsNested (view_of self.old) }
        ensures goes { IfOk result (λ q. (h : Course) (n : ℕ) → after_script prepared.now.program (view_of self.old) space.now (put_in (context_of prepared.now.program) spot value) h n ≡ continuing prepared.now.program (view_of self.new) space.now q h n) }
        ensures within { (clusters : Option Below) → AreReached (reach (length space.now.slots) clusters) (view_of self.old) → IsSpotReached (reach (length space.now.slots) clusters) spot → IsReached (reach (length space.now.slots) clusters) value → AreReached (reach (length space.now.slots) clusters) (view_of self.new) }
        ensures asks { (k : Reach) → AreReached k (view_of self.old) → IsSpotReached k spot → IsReached k value → IfOk result (IsAskedReached k) }
        ensures nested { OnOk result (IsNested (view_of self.new)) }
        ensures left { self.new.left ≡ self.old.left }
        ensures err { (t : Table) → IfErr result (λ f. Stands (view_of self.old) (view_of self.new) t t f) }
        ensures size { IfOk result (λ q. sized q (view_of self.new) ≤ 3 * length self.old.frames.items + 4) }
        ensures fault { IfErr result (λ f. f ≡ Fault.Memory) }
    {
        match spot {
            Spot::Field(name) => Ok(Some(self.ask_field(name, value))),
            Spot::Global(name) => Ok(self.ask_global(space, name, value)),
            Spot::Constant(name) => Ok(Some(self.ask_set_constant(name, value))),
            Spot::Attribute(name, receiver) => {
                let callee = Callee::Setter(name);
                let frame = Frame::Not;
                let argument = Some(value);
                self.send(
                    prepared,
                    space,
                    receiver,
                    callee,
                    Passing::All,
                    None,
                    frame,
                    argument,
                )
            }
            Spot::Element(receiver, index) => {
                self.send_element(prepared, space, receiver, index, value)
            }
        }
    }

    /// Does an assignment to one of several targets that comes next, which is one step.
    #[inline(never)]
    pub fn visit_assignment(
        &mut self,
        prepared: &Prepared,
        space: &Space,
        spot: Spot,
        value: Ref,
    ) -> Result<Option<Request>, Fault>
        requires control { self.old.control ≡ Control.Assign spot value }
        requires some { 0 < self.old.left }
        requires room { length self.old.frames.items < vec_capacity self.old.frames }
        requires nested { IsNested (view_of self.old) }
        ensures goes { IfOk result (λ q. (h : Course) → remaining prepared.now.program (view_of self.old) space.now h ≡ continuing prepared.now.program (view_of self.new) space.now q h self.new.left) }
        ensures nested { IsNested (view_of self.new) }
        ensures within { (clusters : Option Below) → AreReached (reach (length space.now.slots) clusters) (view_of self.old) → AreReached (reach (length space.now.slots) clusters) (view_of self.new) }
        ensures asks { (clusters : Option Below) → AreReached (reach (length space.now.slots) clusters) (view_of self.old) → IfOk result (IsAskedReached (reach (length space.now.slots) clusters)) }
        ensures left { OnOk result (self.new.left + 1 ≡ self.old.left) }
        ensures size { IfOk result (λ q. sized q (view_of self.new) ≤ size (view_of self.old) + 4) }
        ensures err { IfErr result (λ f. Stands (view_of self.old) (view_of self.new) space.now space.now f) }
        ensures fault { IfErr result (λ f. f ≡ Fault.Memory) }
    {
        match self.put_in(prepared, space, spot, value) {
            Ok(request) => {
                self.left -= 1;
                Ok(request)
            }
            Err(fault) => Err(fault),
        }
    }
}
