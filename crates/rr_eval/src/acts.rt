//! The acts of a turn: one at a time, of whatever kind.

ghost use Rattle.std.specs.Prelude.{◌≡◌, ◌+◌, ◌*◌, ◌<◌, ◌≤◌, length, vec_capacity, Option, IfOk, IfErr, IfSome, IfNone, OnErr};
ghost use Rattle.rr_space.specs.Tables.{Below};
ghost use Rattle.rr_eval.specs.declared.frame.Control.{Control};
ghost use Rattle.rr_eval.specs.Acts.{IsRefusal, Passes};
ghost use Rattle.rr_eval.specs.Changes.{Changes};
ghost use Rattle.rr_eval.specs.Requests.{Course, Adds, asked_of};
ghost use Rattle.rr_eval.specs.Script.{objects_of};
ghost use Rattle.rr_eval.specs.Turns.{remaining, asking_then, continuing, IsNested, IsStep, Acted, Descends, power, sized};
ghost use Rattle.rr_eval.specs.Views.{view_of};
ghost use Rattle.rr_eval.specs.Within.{reach, IsAskedReached, IsRequestReached, IsTurnReached, AreReached, AreWithin, KeepsReach, KeepsRead};

use crate::engine::{Engine, Turn, stop_of};
use crate::frame::Control;
use crate::nodes::evaluated_node;
use crate::prepared::Prepared;
use crate::problem::Answer;
use crate::request::Request;
use crate::usual_sends::is_send;
use rr_base::Fault;
use rr_space::Space;
use rr_tree::NodeId;

impl Engine {
    /// Gives the topmost frame an answer: what stops the turn then. Where there is no frame, the answer is that of all.
    #[inline(always)]
    fn give(
        &mut self,
        prepared: &Prepared,
        space: &mut Space,
        answer: Answer,
        stop: u64,
    ) -> Result<Option<Turn>, Fault>
        requires control { self.old.control ≡ Control.Give answer }
        requires nested { IsNested (view_of self.old) }
        requires within { AreWithin (length space.old.slots) (view_of self.old) }
        requires stop { stop ≤ self.old.left }
        ensures nested { IsNested (view_of self.new) }
        ensures within { KeepsReach (view_of self.old) space.old (view_of self.new) space.new }
        ensures read { KeepsRead (view_of self.old) space.old space.new }
        ensures ends_within { (clusters : Option Below) → AreReached (reach (length space.old.slots) clusters) (view_of self.old) → IfOk result (λ stops. IfSome stops (IsTurnReached (reach (length space.new.slots) clusters))) }
        ensures acted { Acted prepared.now.program (view_of self.old) space.old stop result (view_of self.new) space.new }
        ensures left { stop ≤ self.new.left }
        ensures kept { self.new.left ≤ self.old.left }
        ensures falls { IfOk result (λ stops. Descends (view_of self.old) stops (view_of self.new)) }
        ensures limit { space.new.limit ≡ space.old.limit }
        ensures changed { Changes space.old space.new }
        ensures full { IfErr result (λ f. (h : Course) → Adds h.world → Passes f space.old.limit (objects_of (remaining prepared.now.program (view_of self.old) space.old h))) }
    {
        let Some(frame) = self.pop_frame(answer) else {
            return Ok(Some(stop_of(answer)));
        };
        match answer {
            Answer::Gave(value) => {
                if self.resume(prepared, space, frame, value, stop) {
                    return Ok(None);
                }
                match self.resume_any(prepared, space, frame, value)? {
                    Some(request) => Ok(Some(Turn::Ask(request))),
                    None => Ok(None),
                }
            }
            _ => {
                self.pass(&prepared.program, space, frame, answer);
                Ok(None)
            }
        }
    }

    /// Evaluates a node.
    #[inline(always)]
    fn visit_here(
        &mut self,
        prepared: &Prepared,
        space: &mut Space,
        here: NodeId,
        stop: u64,
    ) -> Result<Option<Request>, Fault>
        requires control { self.old.control ≡ Control.Enter here }
        requires some { stop < self.old.left }
        requires room { length self.old.frames.items < vec_capacity self.old.frames }
        requires nested { IsNested (view_of self.old) }
        requires within { AreWithin (length space.old.slots) (view_of self.old) }
        ensures goes { IfOk result (λ q. (h : Course) → remaining prepared.now.program (view_of self.old) space.old h ≡ continuing prepared.now.program (view_of self.new) space.new q h self.new.left) }
        ensures nested { IsNested (view_of self.new) }
        ensures within { KeepsReach (view_of self.old) space.old (view_of self.new) space.new }
        ensures read { KeepsRead (view_of self.old) space.old space.new }
        ensures asks { (clusters : Option Below) → AreReached (reach (length space.old.slots) clusters) (view_of self.old) → IfOk result (IsAskedReached (reach (length space.new.slots) clusters)) }
        ensures left { stop ≤ self.new.left }
        ensures kept { self.new.left ≤ self.old.left }
        ensures falls { IfOk result (λ q. 9 * self.new.left + sized q (view_of self.new) < power (view_of self.old)) }
        ensures even { IfOk result (λ q. q ≡ Option.None → power (view_of self.new) + self.old.left ≤ power (view_of self.old) + self.new.left) }
        ensures refusal { IfErr result IsRefusal }
        ensures still { OnErr result ((h : Course) → remaining prepared.now.program (view_of self.old) space.old h ≡ remaining prepared.now.program (view_of self.new) space.new h) }
        ensures limit { space.new.limit ≡ space.old.limit }
        ensures changed { Changes space.old space.new }
        ensures full { IfErr result (λ f. (h : Course) → Adds h.world → Passes f space.old.limit (objects_of (remaining prepared.now.program (view_of self.old) space.old h))) }
    {
        let node = evaluated_node(&prepared.program, here);
        if is_send(node) {
            return self.visit_node(prepared, space, here, node, stop);
        }
        if self.visit_one(&prepared.program, here, node) {
            return Ok(None);
        }
        self.visit_node(prepared, space, here, node, stop)
    }

    /// Does a step, and those of the parts that come first and need no frame. A refused growth leaves what is still to be done as it is.
    #[inline(always)]
    fn visit(
        &mut self,
        prepared: &Prepared,
        space: &mut Space,
        stop: u64,
    ) -> Result<Option<Request>, Fault>
        requires step { IsStep self.old.control }
        requires some { stop < self.old.left }
        requires nested { IsNested (view_of self.old) }
        requires within { AreWithin (length space.old.slots) (view_of self.old) }
        ensures goes { IfOk result (λ q. (h : Course) → remaining prepared.now.program (view_of self.old) space.old h ≡ continuing prepared.now.program (view_of self.new) space.new q h self.new.left) }
        ensures nested { IsNested (view_of self.new) }
        ensures within { KeepsReach (view_of self.old) space.old (view_of self.new) space.new }
        ensures read { KeepsRead (view_of self.old) space.old space.new }
        ensures asks { (clusters : Option Below) → AreReached (reach (length space.old.slots) clusters) (view_of self.old) → IfOk result (IsAskedReached (reach (length space.new.slots) clusters)) }
        ensures left { stop ≤ self.new.left }
        ensures kept { self.new.left ≤ self.old.left }
        ensures falls { IfOk result (λ q. 9 * self.new.left + sized q (view_of self.new) < power (view_of self.old)) }
        ensures even { IfOk result (λ q. q ≡ Option.None → power (view_of self.new) + self.old.left ≤ power (view_of self.old) + self.new.left) }
        ensures refusal { IfErr result IsRefusal }
        ensures still { OnErr result ((h : Course) → remaining prepared.now.program (view_of self.old) space.old h ≡ remaining prepared.now.program (view_of self.new) space.new h) }
        ensures limit { space.new.limit ≡ space.old.limit }
        ensures changed { Changes space.old space.new }
        ensures full { IfErr result (λ f. (h : Course) → Adds h.world → Passes f space.old.limit (objects_of (remaining prepared.now.program (view_of self.old) space.old h))) }
    {
        self.make_room()?;
        match self.control {
            Control::Operate(op, a, b) => {
                self.visit_operation(&prepared.program, op, a, b, stop);
                Ok(None)
            }
            Control::Enter(here) => self.visit_here(prepared, space, here, stop),
            Control::Send(callee, receiver, argument) => {
                self.visit_call(prepared, space, callee, receiver, argument)
            }
            Control::Assign(spot, value) => self.visit_assignment(prepared, space, spot, value),
            _ => unreachable!(),
        }
    }

    /// Does a step, where one is left: what stops the turn before it, or then.
    #[inline(always)]
    fn step(
        &mut self,
        prepared: &Prepared,
        space: &mut Space,
        stop: u64,
    ) -> Result<Option<Turn>, Fault>
        requires step { IsStep self.old.control }
        requires nested { IsNested (view_of self.old) }
        requires within { AreWithin (length space.old.slots) (view_of self.old) }
        requires stop { stop ≤ self.old.left }
        ensures nested { IsNested (view_of self.new) }
        ensures within { KeepsReach (view_of self.old) space.old (view_of self.new) space.new }
        ensures read { KeepsRead (view_of self.old) space.old space.new }
        ensures ends_within { (clusters : Option Below) → AreReached (reach (length space.old.slots) clusters) (view_of self.old) → IfOk result (λ stops. IfSome stops (IsTurnReached (reach (length space.new.slots) clusters))) }
        ensures acted { Acted prepared.now.program (view_of self.old) space.old stop result (view_of self.new) space.new }
        ensures left { stop ≤ self.new.left }
        ensures kept { self.new.left ≤ self.old.left }
        ensures falls { IfOk result (λ stops. Descends (view_of self.old) stops (view_of self.new)) }
        ensures limit { space.new.limit ≡ space.old.limit }
        ensures changed { Changes space.old space.new }
        ensures full { IfErr result (λ f. (h : Course) → Adds h.world → Passes f space.old.limit (objects_of (remaining prepared.now.program (view_of self.old) space.old h))) }
    {
        if self.left == 0 {
            return Ok(Some(Turn::StepLimit));
        }
        if self.left <= stop {
            return Ok(Some(Turn::More));
        }
        match self.visit(prepared, space, stop)? {
            Some(request) => Ok(Some(Turn::Ask(request))),
            None => Ok(None),
        }
    }

    /// Asks for what is asked most: an assignment to an instance variable, and a call of a built-in method with few arguments, where all
    /// values are there or need no frame.
    #[inline(always)]
    pub fn ask_often(&mut self, prepared: &Prepared, space: &Space, stop: u64) -> Option<Request>
        requires nested { IsNested (view_of self.old) }
        requires stop { stop ≤ self.old.left }
        ensures goes { IfSome result (λ q. (h : Course) → remaining prepared.now.program (view_of self.old) space.now h ≡ asking_then prepared.now.program (view_of self.new) space.now (asked_of space.now q) h) }
        ensures nested { IsNested (view_of self.new) }
        ensures within { (clusters : Option Below) → AreReached (reach (length space.now.slots) clusters) (view_of self.old) → AreReached (reach (length space.now.slots) clusters) (view_of self.new) }
        ensures asks { (clusters : Option Below) → AreReached (reach (length space.now.slots) clusters) (view_of self.old) → IfSome result (IsRequestReached (reach (length space.now.slots) clusters)) }
        ensures left { stop ≤ self.new.left }
        ensures falls { IfSome result (λ q. 9 * self.new.left + sized (Option.Some q) (view_of self.new) < power (view_of self.old)) }
        ensures none { IfNone result (view_of self.new ≡ view_of self.old) }
    {
        match self.control {
            Control::Enter(here) => self.ask_call(prepared, space, here, stop),
            Control::Give(Answer::Gave(value)) => self.ask_given(prepared, space, value, stop),
            Control::Send(callee, receiver, argument) => {
                self.ask_sent(prepared, space, callee, receiver, argument, stop)
            }
            _ => None,
        }
    }

    /// One act: what stops the turn then, where something does. A refused growth leaves what is still to be done as it is.
    #[inline(always)]
    fn act(
        &mut self,
        prepared: &Prepared,
        space: &mut Space,
        stop: u64,
    ) -> Result<Option<Turn>, Fault>
        requires nested { IsNested (view_of self.old) }
        requires within { AreWithin (length space.old.slots) (view_of self.old) }
        requires stop { stop ≤ self.old.left }
        ensures nested { IsNested (view_of self.new) }
        ensures within { KeepsReach (view_of self.old) space.old (view_of self.new) space.new }
        ensures read { KeepsRead (view_of self.old) space.old space.new }
        ensures ends_within { (clusters : Option Below) → AreReached (reach (length space.old.slots) clusters) (view_of self.old) → IfOk result (λ stops. IfSome stops (IsTurnReached (reach (length space.new.slots) clusters))) }
        ensures acted { Acted prepared.now.program (view_of self.old) space.old stop result (view_of self.new) space.new }
        ensures left { stop ≤ self.new.left }
        ensures kept { self.new.left ≤ self.old.left }
        ensures falls { IfOk result (λ stops. Descends (view_of self.old) stops (view_of self.new)) }
        ensures limit { space.new.limit ≡ space.old.limit }
        ensures changed { Changes space.old space.new }
        ensures full { IfErr result (λ f. (h : Course) → Adds h.world → Passes f space.old.limit (objects_of (remaining prepared.now.program (view_of self.old) space.old h))) }
    {
        match self.control {
            Control::Give(answer) => self.give(prepared, space, answer, stop),
            Control::Enter(_)
            | Control::Operate(_, _, _)
            | Control::Send(_, _, _)
            | Control::Assign(_, _) => self.step(prepared, space, stop),
            Control::Throw(problem) => {
                self.throw(&prepared.program, space, problem)?;
                Ok(None)
            }
            Control::Raise(class, message) => {
                self.raise(space, class, message)?;
                Ok(None)
            }
            Control::RaiseValue(value, message) => {
                self.raise_value(&prepared.program, space, value, message)?;
                Ok(None)
            }
            Control::Start(block, problem) => {
                self.start(&prepared.program, space, block, problem)?;
                Ok(None)
            }
            Control::New(class, cause) => {
                self.make_new(prepared, space, class, cause)?;
                Ok(None)
            }
            Control::Pair(first, last) => {
                self.make_pair(prepared, space, first, last)?;
                Ok(None)
            }
        }
    }

    /// One act of any kind: text literals are made in a way of their own, with what is then asked for.
    #[inline(always)]
    pub fn act_any(
        &mut self,
        prepared: &Prepared,
        space: &mut Space,
        stop: u64,
    ) -> Result<Option<Turn>, Fault>
        requires nested { IsNested (view_of self.old) }
        requires within { AreWithin (length space.old.slots) (view_of self.old) }
        requires stop { stop ≤ self.old.left }
        ensures nested { IsNested (view_of self.new) }
        ensures within { KeepsReach (view_of self.old) space.old (view_of self.new) space.new }
        ensures read { KeepsRead (view_of self.old) space.old space.new }
        ensures ends_within { (clusters : Option Below) → AreReached (reach (length space.old.slots) clusters) (view_of self.old) → IfOk result (λ stops. IfSome stops (IsTurnReached (reach (length space.new.slots) clusters))) }
        ensures acted { Acted prepared.now.program (view_of self.old) space.old stop result (view_of self.new) space.new }
        ensures left { stop ≤ self.new.left }
        ensures kept { IfOk result (λ stops. stops ≡ Option.None → self.new.left ≤ self.old.left) }
        ensures falls { IfOk result (λ stops. Descends (view_of self.old) stops (view_of self.new)) }
        ensures limit { space.new.limit ≡ space.old.limit }
        ensures changed { Changes space.old space.new }
        ensures full { IfErr result (λ f. (h : Course) → Adds h.world → Passes f space.old.limit (objects_of (remaining prepared.now.program (view_of self.old) space.old h))) }
    {
        if !self.visit_text(prepared, space, stop) {
            return self.act(prepared, space, stop);
        }
        match self.ask_rarely(prepared, space, stop) {
            Some(request) => Ok(Some(Turn::Ask(request))),
            None => Ok(None),
        }
    }
}
