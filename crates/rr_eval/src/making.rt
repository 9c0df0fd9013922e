//! New objects of the program's classes.

ghost use Rattle.std.specs.Prelude.{◌≡◌, ◌+◌, ◌*◌, ◌<◌, ◌≤◌, ℕ, [], length, reverse, take, vec_capacity, Option, IfOk, IfErr, OnOk};
ghost use Rattle.rr_base.specs.declared.fault.Fault.{Fault};
ghost use Rattle.rr_space.specs.Tables.{Below, Table};
ghost use Rattle.rr_builtin.specs.Acts.{with_object, IsRefAmong};
ghost use Rattle.rr_space.specs.Parts.{IsWithin};
ghost use Rattle.rr_builtin.specs.News.{new_plain};
ghost use Rattle.rr_eval.specs.declared.problem.Answer.{Answer};
ghost use Rattle.rr_eval.specs.declared.frame.Control.{Control};
ghost use Rattle.rr_eval.specs.declared.frame.Frame.{Frame};
ghost use Rattle.rr_eval.specs.Begun.{IsBegun};
ghost use Rattle.rr_eval.specs.Blocks.{valued};
ghost use Rattle.rr_eval.specs.Frames.{Nested, base_of, below_of};
ghost use Rattle.rr_text.specs.Reads.{IsReadWith};
ghost use Rattle.rr_eval.specs.Acts.{IsRefusal, Passes};
ghost use Rattle.rr_eval.specs.Changes.{Changes};
ghost use Rattle.rr_eval.specs.Dispatch.{with_new, made_value};
ghost use Rattle.rr_eval.specs.Script.{objects_of};
ghost use Rattle.rr_eval.specs.Requests.{Course, Adds};
ghost use Rattle.rr_eval.specs.Turns.{context_of, IsNested, remaining, remaining_with, after_answer, Stands, more_of, size};
ghost use Rattle.rr_eval.specs.Usual.{IsTop};
ghost use Rattle.rr_eval.specs.Views.{view_of};
ghost use Rattle.rr_eval.specs.Within.{Reach, reach, AreReached, IsReached, IsAnswerReached, IsCallValueReached, IsFrameReached, AreWithin, KeepsReach, KeepsRead};

use crate::call_stack::CallValue;
use crate::engine::{Engine, push_within};
use crate::exception::make_exception;
use crate::frame::{Control, Frame, Making, clear};
use crate::invoke::Way;
use crate::prepared::Prepared;
use crate::problem::Answer;
use crate::sending::handed_by;
use rr_base::{ClassId, Fault};
use rr_space::{Node, Ref, Space};
use rr_tree::Program;
use std::alloc::Global;

/// For how many instance variables a new object has room at first: most have one or two.
const FIELDS: usize = 2;

/// Makes a new object of a class that is none of exceptions. A refused growth leaves the objects as they were.
pub fn make_plain(alloc: Global, space: &mut Space, class: ClassId) -> Result<Ref, Fault>
    ensures name { IfOk result (λ object. object ≡ Ref.Local (length space.old.slots)) }
    ensures made { IfOk result (λ _. space.new ≡ with_object (new_plain class.0) [] space.old) }
    ensures read { (below : Below) → IsReadWith space.old below → IsReadWith space.new below }
    ensures kept { IfErr result (λ _. space.new ≡ space.old) }
    ensures refused { IfErr result IsRefusal }
    ensures limit { space.new.limit ≡ space.old.limit }
    ensures changed { Changes space.old space.new }
    ensures full { IfErr result (λ f. Passes f space.old.limit (length (with_object (new_plain class.0) [] space.old).slots)) }
{
    let fields = Vec::with_capacity(alloc, FIELDS)?;
    match space.alloc(Node::Object(class, fields)) {
        Ok(object) => Ok(object),
        Err(fault) => Err(fault),
    }
}

/// Makes a new object of a class; an exception has a cause, and no message yet. A refused growth leaves the objects as they were.
#[inline(always)]
fn make_object(
    alloc: Global,
    space: &mut Space,
    prepared: &Prepared,
    class: ClassId,
    cause: Ref,
) -> Result<Ref, Fault>
    requires cause { IsWithin (length space.old.slots) cause }
    ensures name { IfOk result (λ object. object ≡ Ref.Local (length space.old.slots)) }
    ensures made { IfOk result (λ _. space.new ≡ with_new (context_of prepared.now.program) class cause space.old) }
    ensures read { (below : Below) → IsReadWith space.old below → IsRefAmong below cause → IsReadWith space.new below }
    ensures kept { IfErr result (λ _. space.new ≡ space.old) }
    ensures refused { IfErr result IsRefusal }
    ensures limit { space.new.limit ≡ space.old.limit }
    ensures changed { Changes space.old space.new }
    ensures full { IfErr result (λ f. Passes f space.old.limit (length (with_new (context_of prepared.now.program) class cause space.old).slots)) }
{
    if prepared.makes_exceptions(class) {
        make_exception(alloc, space, class, Ref::Nil, cause)
    } else {
        make_plain(alloc, space, class)
    }
}

/// What the value of a call is that makes a new object, which is given or raised.
fn made_value(raises: bool, object: Ref) -> CallValue
    ensures is { result ≡ made_value raises object }
    ensures within { (k : Reach) → IsReached k object → IsCallValueReached k result }
{
    if raises {
        CallValue::Raises(object)
    } else {
        CallValue::Other(object)
    }
}

/// What a new object comes to that is not initialized: it is given or raised.
fn made(raises: bool, object: Ref) -> Answer
    ensures is { result ≡ valued (made_value raises object) (Answer.Gave object) }
    ensures more { more_of result ≡ 0 }
    ensures within { (k : Reach) → IsReached k object → IsAnswerReached k result }
{
    if raises {
        Answer::Raised(object)
    } else {
        Answer::Gave(object)
    }
}

impl Engine {
    /// Begins the program's `initialize` of a new object, with the arguments among the values that stand for a frame; without one the
    /// object is there. A refused growth leaves all as it is.
    #[inline(always)]
    pub fn initialize(
        &mut self,
        prepared: &Prepared,
        making: Making,
        object: Ref,
    ) -> Result<(), Fault>
        requires room { length self.old.frames.items < vec_capacity self.old.frames }
        requires base { making.base ≤ length self.old.held.items }
        requires nested { Nested (reverse self.old.frames.items) (take making.base self.old.held.items) }
        ensures goes { OnOk result ((t : Table) (h : Course) (n : ℕ) → after_answer prepared.now.program (view_of self.old) t (Frame.Initialize making) (Answer.Gave object) h n ≡ remaining_with prepared.now.program (view_of self.new) t h n) }
        ensures nested { OnOk result (IsNested (view_of self.new)) }
        ensures begun { OnOk result (IsBegun self.new.control) }
        ensures within { (k : Reach) → AreReached k (view_of self.old) → IsReached k object → AreReached k (view_of self.new) }
        ensures left { self.new.left ≡ self.old.left }
        ensures err { (t : Table) → IfErr result (λ f. Stands (view_of self.old) (view_of self.new) t t f) }
        ensures size { OnOk result (size (view_of self.new) ≤ 3 * length self.old.frames.items + 4) }
        ensures room { IfErr result (λ _. length self.new.frames.items < vec_capacity self.new.frames) }
        ensures fault { IfErr result (λ f. f ≡ Fault.Memory) }
    {
        let frame = Frame::Initialize(making);
        match prepared.initializer(making.class) {
            Some(method) => {
                let way = Way {
                    receiver: object,
                    handed: handed_by(making.block),
                    block: making.block,
                    value: made_value(making.raises, object),
                };
                self.run_usual(method.class, method.body, way, making.passing, frame, None)
            }
            None => {
                clear(&mut self.held, frame);
                self.control = Control::Give(made(making.raises, object));
                Ok(())
            }
        }
    }

    /// Begins what a frame does with the new object for which it waits: the program's `initialize`, or a turn of an iteration. A refused
    /// growth leaves all as it is.
    #[inline(always)]
    fn begin_object(
        &mut self,
        prepared: &Prepared,
        space: &Space,
        frame: Frame,
        object: Ref,
    ) -> Result<(), Fault>
        requires room { length self.old.frames.items < vec_capacity self.old.frames }
        requires base { base_of frame ≤ length self.old.held.items }
        requires nested { Nested (reverse self.old.frames.items) (below_of frame self.old.held.items) }
        ensures goes { OnOk result ((h : Course) (n : ℕ) → after_answer prepared.now.program (view_of self.old) space.now frame (Answer.Gave object) h n ≡ remaining_with prepared.now.program (view_of self.new) space.now h n) }
        ensures nested { OnOk result (IsNested (view_of self.new)) }
        ensures begun { OnOk result (IsBegun self.new.control) }
        ensures within { (clusters : Option Below) → AreReached (reach (length space.now.slots) clusters) (view_of self.old) → IsReached (reach (length space.now.slots) clusters) object → AreReached (reach (length space.now.slots) clusters) (view_of self.new) }
        ensures left { self.new.left ≡ self.old.left }
        ensures err { (t : Table) → IfErr result (λ f. Stands (view_of self.old) (view_of self.new) t t f) }
        ensures size { OnOk result (size (view_of self.new) ≤ 3 * length self.old.frames.items + 4) }
        ensures room { IfErr result (λ _. length self.new.frames.items < vec_capacity self.new.frames) }
        ensures fault { IfErr result (λ f. f ≡ Fault.Memory) }
    {
        match frame {
            Frame::Initialize(making) => self.initialize(prepared, making, object),
            Frame::Paired(iteration) => {
                self.call_turn(&prepared.program, space, iteration, Some(object), None)
            }
            // No other frame waits for a new object.
            _ => Err(Fault::Memory),
        }
    }

    /// Makes the message of an exception that comes first, so that less than a new object is left to be done without a step. A refused
    /// growth leaves what is still to be done as it is.
    fn throw_begun(&mut self, program: &Program, space: &mut Space) -> Result<(), Fault>
        requires begun { IsBegun self.old.control }
        requires nested { IsNested (view_of self.old) }
        requires within { AreWithin (length space.old.slots) (view_of self.old) }
        ensures goes { (h : Course) → remaining program.now (view_of self.old) space.old h ≡ remaining program.now (view_of self.new) space.new h }
        ensures nested { IsNested (view_of self.new) }
        ensures within { KeepsReach (view_of self.old) space.old (view_of self.new) space.new }
        ensures read { KeepsRead (view_of self.old) space.old space.new }
        ensures left { self.new.left ≡ self.old.left }
        ensures size { (n : ℕ) → size (view_of self.old) ≤ 3 * n + 4 → OnOk result (size (view_of self.new) ≤ 3 * n + 3) }
        ensures refusal { IfErr result IsRefusal }
        ensures limit { space.new.limit ≡ space.old.limit }
        ensures changed { Changes space.old space.new }
        ensures full { IfErr result (λ f. (h : Course) → Adds h.world → Passes f space.old.limit (objects_of (remaining program.now (view_of self.old) space.old h))) }
    {
        match self.control {
            Control::Throw(problem) => self.throw(program, space, problem),
            _ => Ok(()),
        }
    }

    /// Gives a new object to the frame that waits for it, which was taken off the stack. A refused growth leaves what is still to be
    /// done as it is.
    #[inline(always)]
    pub fn give_object(
        &mut self,
        prepared: &Prepared,
        space: &mut Space,
        frame: Frame,
        object: Ref,
    ) -> Result<(), Fault>
        requires control { self.old.control ≡ Control.Give (Answer.Gave object) }
        requires room { length self.old.frames.items < vec_capacity self.old.frames }
        requires base { base_of frame ≤ length self.old.held.items }
        requires nested { Nested (reverse self.old.frames.items) (below_of frame self.old.held.items) }
        requires within { AreWithin (length space.old.slots) (view_of self.old) }
        ensures goes { (h : Course) → after_answer prepared.now.program (view_of self.old) space.old frame (Answer.Gave object) h self.old.left ≡ remaining prepared.now.program (view_of self.new) space.new h }
        ensures nested { IsNested (view_of self.new) }
        ensures within { (clusters : Option Below) → AreReached (reach (length space.old.slots) clusters) (view_of self.old) → IsFrameReached (reach (length space.old.slots) clusters) frame → AreReached (reach (length space.new.slots) clusters) (view_of self.new) }
        ensures read { KeepsRead (view_of self.old) space.old space.new }
        ensures left { self.new.left ≡ self.old.left }
        ensures size { OnOk result (size (view_of self.new) ≤ 3 * length self.old.frames.items + 3) }
        ensures refusal { IfErr result IsRefusal }
        ensures limit { space.new.limit ≡ space.old.limit }
        ensures changed { Changes space.old space.new }
        ensures full { IfErr result (λ f. (h : Course) → Adds h.world → Passes f space.old.limit (objects_of (after_answer prepared.now.program (view_of self.old) space.old frame (Answer.Gave object) h self.old.left))) }
    {
        match self.begin_object(prepared, space, frame, object) {
            Ok(()) => self.throw_begun(&prepared.program, space),
            Err(fault) => {
                push_within(&mut self.frames, frame);
                Err(fault)
            }
        }
    }

    /// Gives a new object to the topmost frame, which is this one. A refused growth leaves what is still to be done as it is.
    #[inline(always)]
    fn give_to_top(
        &mut self,
        prepared: &Prepared,
        space: &mut Space,
        frame: Frame,
        object: Ref,
    ) -> Result<(), Fault>
        requires control { self.old.control ≡ Control.Give (Answer.Gave object) }
        requires top { IsTop self.old.frames.items frame }
        requires nested { IsNested (view_of self.old) }
        requires within { AreWithin (length space.old.slots) (view_of self.old) }
        ensures goes { (h : Course) → remaining prepared.now.program (view_of self.old) space.old h ≡ remaining prepared.now.program (view_of self.new) space.new h }
        ensures nested { IsNested (view_of self.new) }
        ensures within { (clusters : Option Below) → AreReached (reach (length space.old.slots) clusters) (view_of self.old) → AreReached (reach (length space.new.slots) clusters) (view_of self.new) }
        ensures read { KeepsRead (view_of self.old) space.old space.new }
        ensures left { self.new.left ≡ self.old.left }
        ensures size { OnOk result (size (view_of self.new) ≤ 3 * length self.old.frames.items) }
        ensures refusal { IfErr result IsRefusal }
        ensures limit { space.new.limit ≡ space.old.limit }
        ensures changed { Changes space.old space.new }
        ensures full { IfErr result (λ f. (h : Course) → Adds h.world → Passes f space.old.limit (objects_of (remaining prepared.now.program (view_of self.old) space.old h))) }
    {
        self.take_top(frame, Answer::Gave(object));
        self.give_object(prepared, space, frame, object)
    }

    /// Gives a new object to the frame that waits for it. A refused growth leaves what is still to be done as it is.
    #[inline(always)]
    fn give_new(&mut self, prepared: &Prepared, space: &mut Space, object: Ref) -> Result<(), Fault>
        requires control { self.old.control ≡ Control.Give (Answer.Gave object) }
        requires nested { IsNested (view_of self.old) }
        requires within { AreWithin (length space.old.slots) (view_of self.old) }
        ensures goes { (h : Course) → remaining prepared.now.program (view_of self.old) space.old h ≡ remaining prepared.now.program (view_of self.new) space.new h }
        ensures nested { IsNested (view_of self.new) }
        ensures within { (clusters : Option Below) → AreReached (reach (length space.old.slots) clusters) (view_of self.old) → AreReached (reach (length space.new.slots) clusters) (view_of self.new) }
        ensures read { KeepsRead (view_of self.old) space.old space.new }
        ensures left { self.new.left ≡ self.old.left }
        ensures size { OnOk result (size (view_of self.new) ≤ 3 * length self.old.frames.items) }
        ensures refusal { IfErr result IsRefusal }
        ensures limit { space.new.limit ≡ space.old.limit }
        ensures changed { Changes space.old space.new }
        ensures full { IfErr result (λ f. (h : Course) → Adds h.world → Passes f space.old.limit (objects_of (remaining prepared.now.program (view_of self.old) space.old h))) }
    {
        match self.frames.last() {
            // Most objects are initialized: such a frame is looked at where it lies.
            Some(&Frame::Initialize(making)) => {
                self.give_to_top(prepared, space, Frame::Initialize(making), object)
            }
            Some(&frame) => self.give_to_top(prepared, space, frame, object),
            // A frame waits for each new object.
            None => Err(Fault::Memory),
        }
    }

    /// Makes a new object, and initializes it for the frame that waits for it. A refused growth leaves what is still to be done as it
    /// is: an object that is made is not made again.
    #[inline(never)]
    pub fn make_new(
        &mut self,
        prepared: &Prepared,
        space: &mut Space,
        class: ClassId,
        cause: Ref,
    ) -> Result<(), Fault>
        requires control { self.old.control ≡ Control.New class cause }
        requires nested { IsNested (view_of self.old) }
        requires within { AreWithin (length space.old.slots) (view_of self.old) }
        ensures goes { (h : Course) → remaining prepared.now.program (view_of self.old) space.old h ≡ remaining prepared.now.program (view_of self.new) space.new h }
        ensures nested { IsNested (view_of self.new) }
        ensures within { KeepsReach (view_of self.old) space.old (view_of self.new) space.new }
        ensures read { KeepsRead (view_of self.old) space.old space.new }
        ensures left { self.new.left ≡ self.old.left }
        ensures size { OnOk result (size (view_of self.new) < size (view_of self.old)) }
        ensures refusal { IfErr result IsRefusal }
        ensures limit { space.new.limit ≡ space.old.limit }
        ensures changed { Changes space.old space.new }
        ensures full { IfErr result (λ f. (h : Course) → Adds h.world → Passes f space.old.limit (objects_of (remaining prepared.now.program (view_of self.old) space.old h))) }
    {
        let object = match make_object(self.alloc, space, prepared, class, cause) {
            Ok(object) => object,
            Err(fault) => return Err(fault),
        };
        self.control = Control::Give(Answer::Gave(object));
        self.give_new(prepared, space, object)
    }
}
