//! Values that are printed, and that the program's `to_s` or `inspect` is asked for first.

ghost use Rattle.std.specs.Prelude.{◌≡◌, ◌+◌, ◌*◌, ◌-◌, ◌<◌, ◌≤◌, ℕ, [], ◌∷◌, ◌++◌, length, reverse, take, drop, slice_index_or, vec_capacity, Option, IfOk, IfErr, OnOk};
ghost use Rattle.rr_base.specs.declared.fault.Fault.{Fault};
ghost use Rattle.rr_space.specs.Tables.{Table, Below};
ghost use Rattle.rr_space.specs.declared.refer.Ref.{Ref};
ghost use Rattle.rr_tree.specs.declared.program.Program.{Program};
ghost use Rattle.rr_eval.specs.declared.frame.Control.{Control};
ghost use Rattle.rr_eval.specs.declared.frame.Frame.{Frame};
ghost use Rattle.rr_eval.specs.declared.problem.Answer.{Answer};
ghost use Rattle.rr_eval.specs.Frames.{below_of, base_of, stand_of, resumed, Nested};
ghost use Rattle.rr_eval.specs.Heard.{StandsBelow, IsOfAsking, runs_asked, script_of, still_asked};
ghost use Rattle.rr_eval.specs.Requests.{Course};
ghost use Rattle.rr_eval.specs.Speaking.{asked_all, asked_on, named_rule, request, task_of, task_rule};
ghost use Rattle.rr_eval.specs.Turns.{context_of, code_of, remaining, remaining_with, IsNested, after_answer, after_values, continuing, Stands, more_of, size, sized};
ghost use Rattle.rr_eval.specs.Views.{view_of};
ghost use Rattle.rr_eval.specs.Within.{Reach, reach, AreReached, IsReached, IsAskedReached, IsAnswerReached};

use crate::asking::{Asking, Saying, hold_printed, saying_of, task_of, text_in};
use crate::call::{Task, arguments_with};
use crate::call_stack::{CallValue, Entry, Handed};
use crate::engine::{Engine, push_within};
use crate::frame::{Control, Frame, clear, first_standing, standing};
use crate::hearing::{Gathered, gather};
use crate::invoke::{Way, invocation};
use crate::iterating::value_at;
use crate::prepared::{Body, Prepared};
use crate::problem::{Answer, Problem, returned, valued};
use crate::request::Request;
use rr_base::{ClassId, Fault, LimitKind, Sym};
use rr_builtin::Problem as BuiltInProblem;
use rr_space::{Ref, Space};

impl Engine {
    /// Evaluates the statements of the method by which the last of the values that were seen is asked. A refused growth leaves all as it
    /// is.
    #[tactic(auto, unfolding(crate::specs::Within::AreReached))]
    fn enter_asked(&mut self, asking: Asking, class: ClassId, body: Body) -> Result<(), Fault>
        requires room { length self.old.frames.items < vec_capacity self.old.frames }
        requires base { asking.base + asking.count ≤ length self.old.held.items }
        requires nested { Nested (reverse self.old.frames.items) (take asking.base self.old.held.items) }
        ensures goes { OnOk result ((p : Program) (t : Table) (h : Course) (n : ℕ) → after_values p (view_of self.old) t (Frame.Asked asking) (runs_asked p asking.name (slice_index_or (drop asking.base self.old.held.items) (asking.seen - 1) Ref.Nil) class body (asked_on (context_of p) asking (drop asking.base self.old.held.items))) h n ≡ remaining_with p (view_of self.new) t h n) }
        ensures nested { OnOk result (IsNested (view_of self.new)) }
        ensures within { (k : Reach) → AreReached k (view_of self.old) → AreReached k (view_of self.new) }
        ensures left { self.new.left ≡ self.old.left }
        ensures err { (t : Table) → IfErr result (λ f. Stands (view_of self.old) (view_of self.new) t t f) }
        ensures size { OnOk result (size (view_of self.new) ≤ 3 * length self.old.frames.items + 4) }
        ensures room { IfErr result (λ _. length self.new.frames.items < vec_capacity self.new.frames) }
        ensures fault { IfErr result (λ f. f ≡ Fault.Memory) }
    {
        self.blocks.reserve(1)?;
        let stand = standing(&self.held, Frame::Asked(asking));
        let way = Way {
            receiver: value_at(stand, asking.seen.saturating_sub(1)),
            handed: Handed::Nothing,
            block: None,
            value: CallValue::Method,
        };
        let entry = Entry::OfMethod(invocation(way, class, body));
        match self.calls.push(&[], None, body.shape, entry) {
            Ok(()) => {
                push_within(&mut self.blocks, None);
                push_within(&mut self.frames, Frame::Asking(asking));
                self.control = Control::Enter(body.node);
                Ok(())
            }
            Err(Fault::Limit(LimitKind::Frames)) => {
                let problem = Problem::BuiltIn(BuiltInProblem::TooDeep);
                self.refuse(Frame::Asked(asking), problem);
                Ok(())
            }
            Err(_) => Err(Fault::Memory),
        }
    }

    /// Asks for the task with what is printed for the values.
    #[tactic(auto, unfolding(crate::specs::Within::AreReached))]
    fn ask_printed(&mut self, asking: Asking) -> Result<Option<Request>, Fault>
        requires room { length self.old.frames.items < vec_capacity self.old.frames }
        requires base { asking.base + asking.count ≤ length self.old.held.items }
        requires nested { Nested (reverse self.old.frames.items) (take asking.base self.old.held.items) }
        ensures goes { IfOk result (λ q. (p : Program) (t : Table) (h : Course) (n : ℕ) → after_values p (view_of self.old) t (Frame.Asked asking) (request (context_of p) (task_of asking.saying) (drop asking.count (drop asking.base self.old.held.items))) h n ≡ continuing p (view_of self.new) t q h n) }
        ensures nested { OnOk result (IsNested (view_of self.new)) }
        ensures within { (k : Reach) → AreReached k (view_of self.old) → AreReached k (view_of self.new) }
        ensures asks { (k : Reach) → AreReached k (view_of self.old) → IfOk result (IsAskedReached k) }
        ensures left { self.new.left ≡ self.old.left }
        ensures err { (t : Table) → IfErr result (λ f. Stands (view_of self.old) (view_of self.new) t t f) }
        ensures size { IfOk result (λ q. sized q (view_of self.new) ≤ 3 * length self.old.frames.items + 4) }
        ensures room { IfErr result (λ _. length self.new.frames.items < vec_capacity self.new.frames) }
        ensures fault { IfErr result (λ f. f ≡ Fault.Memory) }
    {
        let stand = standing(&self.held, Frame::Asked(asking));
        let values = arguments_with(self.alloc, &stand[asking.count..], None)?;
        clear(&mut self.held, Frame::Asked(asking));
        Ok(Some(Request::Do(task_of(asking.saying), values)))
    }

    /// Does what comes behind values that were seen, up to one that does not say at once what is printed for it.
    fn follow(&mut self, asking: Asking, found: Gathered) -> Result<Option<Request>, Fault>
        requires room { length self.old.frames.items < vec_capacity self.old.frames }
        requires base { asking.base + asking.count ≤ length self.old.held.items }
        requires same { IsOfAsking asking found }
        requires nested { Nested (reverse self.old.frames.items) (take asking.base self.old.held.items) }
        ensures goes { IfOk result (λ q. (p : Program) (t : Table) (h : Course) (n : ℕ) → after_values p (view_of self.old) t (Frame.Asked asking) (script_of p asking self.old.held.items found) h n ≡ continuing p (view_of self.new) t q h n) }
        ensures nested { OnOk result (IsNested (view_of self.new)) }
        ensures within { (k : Reach) → AreReached k (view_of self.old) → AreReached k (view_of self.new) }
        ensures asks { (k : Reach) → AreReached k (view_of self.old) → IfOk result (IsAskedReached k) }
        ensures left { self.new.left ≡ self.old.left }
        ensures err { (t : Table) → IfErr result (λ f. Stands (view_of self.old) (view_of self.new) t t f) }
        ensures size { IfOk result (λ q. sized q (view_of self.new) ≤ 3 * length self.old.frames.items + 4) }
        ensures room { IfErr result (λ _. length self.new.frames.items < vec_capacity self.new.frames) }
        ensures fault { IfErr result (λ f. f ≡ Fault.Memory) }
    {
        match found {
            Gathered::Whole => self.ask_printed(asking),
            Gathered::Runs(here, class, body) => {
                self.enter_asked(here, class, body)?;
                Ok(None)
            }
            Gathered::Fails(problem) => {
                self.refuse(Frame::Asked(asking), problem);
                Ok(None)
            }
        }
    }

    /// Asks the values that were not seen yet, and prints all of them when each was asked. A refused growth leaves all as it is, beside
    /// values that are held behind the others.
    #[tactic(auto, unfolding(crate::specs::Within::AreReached))]
    pub fn ask_on(
        &mut self,
        prepared: &Prepared,
        space: &Space,
        asking: Asking,
    ) -> Result<Option<Request>, Fault>
        requires room { length self.old.frames.items < vec_capacity self.old.frames }
        requires base { asking.base + asking.count ≤ length self.old.held.items }
        requires nested { Nested (reverse self.old.frames.items) (take asking.base self.old.held.items) }
        ensures goes { IfOk result (λ q. (h : Course) (n : ℕ) → after_values prepared.now.program (view_of self.old) space.now (Frame.Asked asking) (still_asked prepared.now.program asking self.old.held.items) h n ≡ continuing prepared.now.program (view_of self.new) space.now q h n) }
        ensures nested { OnOk result (IsNested (view_of self.new)) }
        ensures within { (clusters : Option Below) → AreReached (reach (length space.now.slots) clusters) (view_of self.old) → AreReached (reach (length space.now.slots) clusters) (view_of self.new) }
        ensures asks { (clusters : Option Below) → AreReached (reach (length space.now.slots) clusters) (view_of self.old) → IfOk result (IsAskedReached (reach (length space.now.slots) clusters)) }
        ensures left { self.new.left ≡ self.old.left }
        ensures err { IfErr result (λ f. StandsBelow (view_of self.old) (view_of self.new) f) }
        ensures size { IfOk result (λ q. sized q (view_of self.new) ≤ 3 * length self.old.frames.items + 4) }
        ensures room { IfErr result (λ _. length self.new.frames.items < vec_capacity self.new.frames) }
        ensures fault { IfErr result (λ f. f ≡ Fault.Memory) }
    {
        let found = gather(&mut self.held, prepared, space, asking)?;
        self.follow(asking, found)
    }

    /// Asks the values that stand for a frame and one more, and then prints all of them. A refused growth leaves all as it is.
    #[tactic(auto, unfolding(crate::specs::Within::AreReached))]
    fn ask_all(
        &mut self,
        prepared: &Prepared,
        space: &Space,
        saying: Saying,
        name: Sym,
        frame: Frame,
        value: Ref,
    ) -> Result<Option<Request>, Fault>
        requires room { length self.old.frames.items < vec_capacity self.old.frames }
        requires base { base_of frame ≤ length self.old.held.items }
        requires nested { Nested (reverse self.old.frames.items) (below_of frame self.old.held.items) }
        ensures goes { IfOk result (λ q. (h : Course) (n : ℕ) → after_values prepared.now.program (view_of self.old) space.now frame (asked_all (context_of prepared.now.program) saying name (stand_of frame self.old.held.items ++ value ∷ []) []) h n ≡ continuing prepared.now.program (view_of self.new) space.now q h n) }
        ensures nested { OnOk result (IsNested (view_of self.new)) }
        ensures within { (clusters : Option Below) → AreReached (reach (length space.now.slots) clusters) (view_of self.old) → IsReached (reach (length space.now.slots) clusters) value → AreReached (reach (length space.now.slots) clusters) (view_of self.new) }
        ensures asks { (clusters : Option Below) → AreReached (reach (length space.now.slots) clusters) (view_of self.old) → IsReached (reach (length space.now.slots) clusters) value → IfOk result (IsAskedReached (reach (length space.now.slots) clusters)) }
        ensures left { self.new.left ≡ self.old.left }
        ensures err { (t : Table) → IfErr result (λ f. Stands (view_of self.old) (view_of self.new) t t f) }
        ensures size { IfOk result (λ q. sized q (view_of self.new) ≤ 3 * length self.old.frames.items + 4) }
        ensures room { IfErr result (λ _. length self.new.frames.items < vec_capacity self.new.frames) }
        ensures fault { IfErr result (λ f. f ≡ Fault.Memory) }
    {
        let base = first_standing(&self.held, frame);
        let before = self.held.len();
        self.held.push(value)?;
        let asking = Asking {
            saying,
            name,
            base,
            count: self.held.len() - base,
            seen: 0,
        };
        match self.ask_on(prepared, space, asking) {
            Ok(request) => Ok(request),
            Err(fault) => {
                self.held.truncate(before);
                Err(fault)
            }
        }
    }

    /// Asks the values that stand for a frame and one more, and then prints all of them; `puts` takes arrays apart. A refused growth leaves
    /// all as it is.
    fn ask_for(
        &mut self,
        prepared: &Prepared,
        space: &Space,
        saying: Saying,
        name: Sym,
        frame: Frame,
        value: Ref,
    ) -> Result<Option<Request>, Fault>
        requires room { length self.old.frames.items < vec_capacity self.old.frames }
        requires base { base_of frame ≤ length self.old.held.items }
        requires nested { Nested (reverse self.old.frames.items) (below_of frame self.old.held.items) }
        ensures goes { IfOk result (λ q. (h : Course) (n : ℕ) → after_values prepared.now.program (view_of self.old) space.now frame (named_rule (context_of prepared.now.program) saying name (stand_of frame self.old.held.items ++ value ∷ [])) h n ≡ continuing prepared.now.program (view_of self.new) space.now q h n) }
        ensures nested { OnOk result (IsNested (view_of self.new)) }
        ensures within { (clusters : Option Below) → AreReached (reach (length space.now.slots) clusters) (view_of self.old) → IsReached (reach (length space.now.slots) clusters) value → AreReached (reach (length space.now.slots) clusters) (view_of self.new) }
        ensures asks { (clusters : Option Below) → AreReached (reach (length space.now.slots) clusters) (view_of self.old) → IsReached (reach (length space.now.slots) clusters) value → IfOk result (IsAskedReached (reach (length space.now.slots) clusters)) }
        ensures left { self.new.left ≡ self.old.left }
        ensures err { (t : Table) → IfErr result (λ f. Stands (view_of self.old) (view_of self.new) t t f) }
        ensures size { IfOk result (λ q. sized q (view_of self.new) ≤ 3 * length self.old.frames.items + 4) }
        ensures room { IfErr result (λ _. length self.new.frames.items < vec_capacity self.new.frames) }
        ensures fault { IfErr result (λ f. f ≡ Fault.Memory) }
    {
        match saying {
            Saying::Puts => self.ask_lines(prepared, space, name, frame, value),
            Saying::Inspect => self.ask_all(prepared, space, saying, name, frame, value),
            Saying::Print => self.ask_all(prepared, space, saying, name, frame, value),
            Saying::Text => self.ask_all(prepared, space, saying, name, frame, value),
        }
    }

    /// Does a task with the values that stand for a frame and one more, of which those are asked first that have a method for it.
    pub fn finish_task(
        &mut self,
        prepared: &Prepared,
        space: &Space,
        task: Task,
        frame: Frame,
        value: Ref,
    ) -> Result<Option<Request>, Fault>
        requires room { length self.old.frames.items < vec_capacity self.old.frames }
        requires base { base_of frame ≤ length self.old.held.items }
        requires nested { Nested (reverse self.old.frames.items) (below_of frame self.old.held.items) }
        ensures goes { IfOk result (λ q. (h : Course) (n : ℕ) → after_values prepared.now.program (view_of self.old) space.now frame (task_rule (context_of prepared.now.program) task (stand_of frame self.old.held.items ++ value ∷ [])) h n ≡ continuing prepared.now.program (view_of self.new) space.now q h n) }
        ensures nested { OnOk result (IsNested (view_of self.new)) }
        ensures within { (clusters : Option Below) → AreReached (reach (length space.now.slots) clusters) (view_of self.old) → IsReached (reach (length space.now.slots) clusters) value → AreReached (reach (length space.now.slots) clusters) (view_of self.new) }
        ensures asks { (clusters : Option Below) → AreReached (reach (length space.now.slots) clusters) (view_of self.old) → IsReached (reach (length space.now.slots) clusters) value → IfOk result (IsAskedReached (reach (length space.now.slots) clusters)) }
        ensures left { self.new.left ≡ self.old.left }
        ensures err { (t : Table) → IfErr result (λ f. Stands (view_of self.old) (view_of self.new) t t f) }
        ensures size { IfOk result (λ q. sized q (view_of self.new) ≤ 3 * length self.old.frames.items + 4) }
        ensures room { IfErr result (λ _. length self.new.frames.items < vec_capacity self.new.frames) }
        ensures fault { IfErr result (λ f. f ≡ Fault.Memory) }
    {
        match saying_of(task) {
            None => self.ask(task, frame, value),
            Some(saying) => match prepared.symbol_asked(saying) {
                None => self.ask(task, frame, value),
                Some(name) => self.ask_for(prepared, space, saying, name, frame, value),
            },
        }
    }

    /// Goes on where the last of the values that were seen is told what its method gave, and whose variables are gone. A refused growth
    /// leaves all as it is.
    #[tactic(auto, unfolding(crate::specs::Within::AreReached))]
    pub fn resume_asked(
        &mut self,
        prepared: &Prepared,
        space: &Space,
        asking: Asking,
        value: Ref,
    ) -> Result<Option<Request>, Fault>
        requires room { length self.old.frames.items < vec_capacity self.old.frames }
        requires base { asking.base + asking.count ≤ length self.old.held.items }
        requires nested { Nested (reverse self.old.frames.items) (take asking.base self.old.held.items) }
        ensures goes { IfOk result (λ q. (h : Course) (n : ℕ) → after_answer prepared.now.program (view_of self.old) space.now (Frame.Asked asking) (Answer.Gave value) h n ≡ continuing prepared.now.program (view_of self.new) space.now q h n) }
        ensures nested { OnOk result (IsNested (view_of self.new)) }
        ensures within { (clusters : Option Below) → AreReached (reach (length space.now.slots) clusters) (view_of self.old) → IsReached (reach (length space.now.slots) clusters) value → AreReached (reach (length space.now.slots) clusters) (view_of self.new) }
        ensures asks { (clusters : Option Below) → AreReached (reach (length space.now.slots) clusters) (view_of self.old) → IsReached (reach (length space.now.slots) clusters) value → IfOk result (IsAskedReached (reach (length space.now.slots) clusters)) }
        ensures left { self.new.left ≡ self.old.left }
        ensures err { (t : Table) → IfErr result (λ f. Stands (view_of self.old) (view_of self.new) t t f) }
        ensures size { IfOk result (λ q. sized q (view_of self.new) ≤ 3 * length self.old.frames.items + 4) }
        ensures room { IfErr result (λ _. length self.new.frames.items < vec_capacity self.new.frames) }
        ensures fault { IfErr result (λ f. f ≡ Fault.Memory) }
    {
        let before = self.held.len();
        let stand = standing(&self.held, Frame::Asked(asking));
        let asked = value_at(stand, asking.seen.saturating_sub(1));
        hold_printed(&mut self.held, asking.saying, asked, text_in(space, value))?;
        match self.ask_on(prepared, space, asking) {
            Ok(request) => Ok(request),
            Err(fault) => {
                self.held.truncate(before);
                Err(fault)
            }
        }
    }

    /// Goes on behind the method by which a value is asked, which is taken off the stack, and whose variables go. A refused growth
    /// leaves the values behind it.
    #[tactic(auto, unfolding(crate::specs::Within::AreReached))]
    pub fn resume_asking(
        &mut self,
        prepared: &Prepared,
        space: &Space,
        asking: Asking,
        value: Ref,
    ) -> Result<Option<Request>, Fault>
        requires control { self.old.control ≡ Control.Give (Answer.Gave value) }
        requires room { length self.old.frames.items < vec_capacity self.old.frames }
        requires base { asking.base + asking.count ≤ length self.old.held.items }
        requires nested { Nested (reverse self.old.frames.items) (take asking.base self.old.held.items) }
        ensures goes { IfOk result (λ q. (h : Course) → after_answer prepared.now.program (view_of self.old) space.now (Frame.Asking asking) (Answer.Gave value) h self.old.left ≡ continuing prepared.now.program (view_of self.new) space.now q h self.new.left) }
        ensures nested { IsNested (view_of self.new) }
        ensures within { (clusters : Option Below) → AreReached (reach (length space.now.slots) clusters) (view_of self.old) → IsReached (reach (length space.now.slots) clusters) value → AreReached (reach (length space.now.slots) clusters) (view_of self.new) }
        ensures asks { (clusters : Option Below) → AreReached (reach (length space.now.slots) clusters) (view_of self.old) → IsReached (reach (length space.now.slots) clusters) value → IfOk result (IsAskedReached (reach (length space.now.slots) clusters)) }
        ensures left { self.new.left ≡ self.old.left }
        ensures size { IfOk result (λ q. sized q (view_of self.new) ≤ 3 * length self.old.frames.items + 4) }
        ensures fault { IfErr result (λ f. f ≡ Fault.Memory) }
        ensures back { IfErr result (λ _. (h : Course) → after_answer prepared.now.program (view_of self.old) space.now (Frame.Asking asking) (Answer.Gave value) h self.old.left ≡ remaining prepared.now.program (view_of self.new) space.now h) }
    {
        self.pop_call();
        match self.resume_asked(prepared, space, asking, value) {
            Ok(request) => Ok(request),
            Err(fault) => {
                push_within(&mut self.frames, Frame::Asked(asking));
                Err(fault)
            }
        }
    }

    /// Passes an answer that is no value through the method by which a value is asked, and whose variables go: the method may end with
    /// it, and else all ends that is done with the values.
    #[tactic(auto, unfolding(crate::specs::Within::AreReached))]
    pub fn leave_asking(&mut self, asking: Asking, answer: Answer)
        requires passes { (v : Ref) → answer ≡ Answer.Gave v → ⊥ }
        requires room { length self.old.frames.items < vec_capacity self.old.frames }
        requires base { asking.base + asking.count ≤ length self.old.held.items }
        requires nested { Nested (reverse self.old.frames.items) (take asking.base self.old.held.items) }
        ensures goes { (p : Program) (t : Table) (h : Course) (n : ℕ) → after_values p (view_of self.old) t (Frame.Asking asking) (resumed (code_of p h.world) (Frame.Asking asking) (drop asking.base self.old.held.items) answer) h n ≡ remaining_with p (view_of self.new) t h n }
        ensures nested { IsNested (view_of self.new) }
        ensures within { (k : Reach) → AreReached k (view_of self.old) → IsAnswerReached k answer → AreReached k (view_of self.new) }
        ensures left { self.new.left ≡ self.old.left }
        ensures size { size (view_of self.new) ≤ 3 * length self.old.frames.items + 4 + more_of answer }
    {
        let number = self.calls.top();
        self.pop_call();
        match valued(CallValue::Method, returned(number, answer)) {
            Answer::Gave(value) => {
                push_within(&mut self.frames, Frame::Asked(asking));
                self.control = Control::Give(Answer::Gave(value));
            }
            ended => {
                clear(&mut self.held, Frame::Asking(asking));
                self.control = Control::Give(ended);
            }
        }
    }
}
