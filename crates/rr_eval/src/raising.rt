//! `raise`, and what it raises.

ghost use Rattle.std.specs.Prelude.{◌≡◌, ◌+◌, ◌*◌, ◌<◌, ◌≤◌, ◌^◌, ℕ, ◌++◌, ◌∷◌, [], length, reverse, None, Some, IfOk, IfErr, OnOk, MatchResult};
ghost use Rattle.std.specs.List.{All};
ghost use Rattle.rr_base.specs.declared.fault.Fault.{Fault};
ghost use Rattle.rr_frames.specs.Frames.{list_of};
ghost use Rattle.rr_space.specs.Tables.{Table};
ghost use Rattle.rr_tree.specs.Nodes.{trees_before};
ghost use Rattle.rr_tree.specs.declared.program.Program.{Program};
ghost use Rattle.rr_eval.specs.declared.call.Target.{Target};
ghost use Rattle.rr_eval.specs.declared.frame.Control.{Control};
ghost use Rattle.rr_eval.specs.Acts.{IsRefusal, Passes};
ghost use Rattle.rr_eval.specs.Script.{State, World, objects_of};
ghost use Rattle.rr_eval.specs.Raising.{message_or_nil, raise_new, raise_kind, raise_value, raise_values, raise_rule};
ghost use Rattle.rr_eval.specs.Requests.{Course, Adds};
ghost use Rattle.rr_eval.specs.Changes.{Changes};
ghost use Rattle.rr_eval.specs.Rules.{arguments, finish, raises, asks_block, bare_rule, name_rule};
ghost use Rattle.rr_eval.specs.Frames.{Code, runs_in, start, below_of, base_of, stand_of, Nested};
ghost use Rattle.rr_eval.specs.Turns.{context_of, code_of, IsNested, continuing, remaining, remaining_with, after_script, after_values, Stands, size, sized, waits};
ghost use Rattle.rr_eval.specs.Views.{view_of};
ghost use Rattle.rr_eval.specs.Within.{Reach, IsReached, IsAskedReached, IsControlReached, AreReached, AreWithin, KeepsReach, KeepsRead};

use crate::awaited::{is_block_given, is_raise};
use crate::call::{Callee, Passing, Target};
use crate::engine::Engine;
use crate::frame::{Control, Frame, clear, standing};
use crate::prepared::Prepared;
use crate::problem::{Answer, Problem};
use crate::request::Request;
use rr_base::{ClassId, Fault, Sym};
use rr_builtin::Problem as BuiltInProblem;
use rr_frames::Given;
use rr_space::{Kind, Ref, Space};
use rr_tree::{NodeId, Program};

/// The message of a new exception: nil stands for one that is not given.
fn message_or_nil(message: Option<Ref>) -> Ref
    ensures is { result ≡ message_or_nil message }
    ensures within { (k : Reach) → All (IsReached k) (list_of message) → IsReached k result }
{
    match message {
        Some(message) => message,
        None => Ref::Nil,
    }
}

/// Raises a new exception of a class, where it is a class of exceptions.
fn raise_new(program: &Program, value: Ref, message: Option<Ref>) -> Result<Control, Problem>
    ensures goes { (w : World) (s : State) (n : ℕ) → MatchResult result (λ k. runs_in (code_of program.now w) (raise_new (context_of program.now) value message) s n ≡ start (code_of program.now w) k s n) (λ e. runs_in (code_of program.now w) (raise_new (context_of program.now) value message) s n ≡ start (code_of program.now w) (Control.Throw e) s n) }
    ensures within { (k : Reach) → All (IsReached k) (list_of message) → IfOk result (IsControlReached k) }
    ensures waits { IfOk result (λ k. waits k ≤ 3) }
{
    match value {
        Ref::Class(class) => {
            if program.descends(class, ClassId::EXCEPTION) {
                Ok(Control::Raise(class, message_or_nil(message)))
            } else {
                Err(Problem::NotRaisable)
            }
        }
        _ => Err(Problem::NotRaisable),
    }
}

/// Raises a value of a kind: a text is the message of a RuntimeError, and an exception is raised itself.
fn raise_alone(program: &Program, kind: Kind, value: Ref) -> Result<Control, Problem>
    ensures goes { (w : World) (s : State) (n : ℕ) → MatchResult result (λ k. runs_in (code_of program.now w) (raise_kind (context_of program.now) value None kind) s n ≡ start (code_of program.now w) k s n) (λ e. runs_in (code_of program.now w) (raise_kind (context_of program.now) value None kind) s n ≡ start (code_of program.now w) (Control.Throw e) s n) }
    ensures within { (k : Reach) → IsReached k value → IfOk result (IsControlReached k) }
    ensures waits { IfOk result (λ k. waits k ≤ 3) }
{
    match kind {
        Kind::Shell => Err(Problem::BuiltIn(BuiltInProblem::Moved)),
        Kind::Text => Ok(Control::Raise(ClassId::RUNTIME_ERROR, value)),
        Kind::Exception => Ok(Control::Give(Answer::Raised(value))),
        _ => raise_new(program, value, None),
    }
}

/// Raises a value of a kind with a message.
fn raise_with(program: &Program, kind: Kind, value: Ref, message: Ref) -> Result<Control, Problem>
    ensures goes { (w : World) (s : State) (n : ℕ) → MatchResult result (λ k. runs_in (code_of program.now w) (raise_kind (context_of program.now) value (Some message) kind) s n ≡ start (code_of program.now w) k s n) (λ e. runs_in (code_of program.now w) (raise_kind (context_of program.now) value (Some message) kind) s n ≡ start (code_of program.now w) (Control.Throw e) s n) }
    ensures within { (k : Reach) → All (IsReached k) (list_of (Some message)) → IfOk result (IsControlReached k) }
    ensures waits { IfOk result (λ k. waits k ≤ 3) }
{
    match kind {
        Kind::Shell => Err(Problem::BuiltIn(BuiltInProblem::Moved)),
        _ => raise_new(program, value, Some(message)),
    }
}

/// What `raise` of a value comes to, with a message where one is given, or why it cannot be raised.
fn raised(
    program: &Program,
    space: &Space,
    value: Ref,
    message: Option<Ref>,
) -> Result<Control, Problem>
    ensures goes { (w : World) (s : State) (n : ℕ) → s.memory.table ≡ space.now → MatchResult result (λ k. runs_in (code_of program.now w) (raise_value (context_of program.now) value message) s n ≡ start (code_of program.now w) k s n) (λ e. runs_in (code_of program.now w) (raise_value (context_of program.now) value message) s n ≡ start (code_of program.now w) (Control.Throw e) s n) }
    ensures within { (k : Reach) → IsReached k value → All (IsReached k) (list_of message) → IfOk result (IsControlReached k) }
    ensures waits { IfOk result (λ k. waits k ≤ 3) }
{
    let kind = space.kind_of(value);
    match message {
        Some(message) => raise_with(program, kind, value, message),
        None => raise_alone(program, kind, value),
    }
}

/// What `raise` with these arguments and one more comes to.
fn raised_by(values: &[Ref], last: Ref) -> Control
    ensures goes { (c : Code) (s : State) (n : ℕ) → runs_in c (raise_values c.context (values.now ++ last ∷ [])) s n ≡ start c result s n }
    ensures within { (k : Reach) → All (IsReached k) values.now → IsReached k last → IsControlReached k result }
    ensures waits { waits result ≤ 4 }
{
    match values {
        [] => Control::RaiseValue(last, None),
        [first] => Control::RaiseValue(*first, Some(last)),
        _ => Control::Throw(Problem::BuiltIn(BuiltInProblem::Count {
            given: values.len() + 1,
            least: 0,
            most: 2,
        })),
    }
}

impl Engine {
    /// Raises the exception that is being rescued again, where one is.
    #[tactic(auto, unfolding(crate::specs::Within::AreReached))]
    pub fn raise_again(&mut self)
        requires nested { IsNested (view_of self.old) }
        ensures goes { (p : Program) (t : Table) (h : Course) (n : ℕ) → after_script p (view_of self.old) t (raise_rule (context_of p) []) h n ≡ remaining_with p (view_of self.new) t h n }
        ensures nested { IsNested (view_of self.new) }
        ensures within { (k : Reach) → AreReached k (view_of self.old) → AreReached k (view_of self.new) }
        ensures left { self.new.left ≡ self.old.left }
        ensures size { size (view_of self.new) ≤ 3 * length self.old.frames.items + 4 }
    {
        self.control = match self.rescuing {
            Ref::Nil => Control::Throw(Problem::Unhandled),
            exception => Control::Give(Answer::Raised(exception)),
        };
    }

    /// Evaluates a bare name that only a built-in method of `self` may have.
    #[tactic(auto, unfolding(crate::specs::Within::AreReached))]
    fn open_other(
        &mut self,
        prepared: &Prepared,
        space: &Space,
        name: Sym,
    ) -> Result<Option<Request>, Fault>
        requires nested { IsNested (view_of self.old) }
        ensures goes { IfOk result (λ q. (h : Course) (n : ℕ) → after_script prepared.now.program (view_of self.old) space.now (name_rule (context_of prepared.now.program) name) h n ≡ continuing prepared.now.program (view_of self.new) space.now q h n) }
        ensures nested { IsNested (view_of self.new) }
        ensures within { (k : Reach) → AreReached k (view_of self.old) → AreReached k (view_of self.new) }
        ensures asks { (k : Reach) → AreReached k (view_of self.old) → IfOk result (IsAskedReached k) }
        ensures left { self.new.left ≡ self.old.left }
        ensures err { (t : Table) → IfErr result (λ f. Stands (view_of self.old) (view_of self.new) t t f) }
        ensures size { IfOk result (λ q. sized q (view_of self.new) ≤ 3 * length self.old.frames.items + 4) }
        ensures fault { IfErr result (λ f. f ≡ Fault.Memory) }
    {
        self.frames.reserve(1)?;
        let receiver = self.itself();
        let callee = Callee::Name(name);
        if prepared.has_built_in(space, receiver, callee) {
            let frame = Frame::Not;
            self.send_built_in(
                prepared,
                space,
                receiver,
                callee,
                Passing::All,
                None,
                frame,
                None,
            )
        } else {
            self.control = Control::Throw(Problem::MissingName(name));
            Ok(None)
        }
    }

    /// Evaluates a bare name that is neither a method of the program nor prints: `raise`, `block_given?`, a built-in method of `self`,
    /// or one that is missing.
    #[tactic(auto, unfolding(crate::specs::Within::AreReached))]
    pub fn open_name(
        &mut self,
        prepared: &Prepared,
        space: &Space,
        name: Sym,
    ) -> Result<Option<Request>, Fault>
        requires nested { IsNested (view_of self.old) }
        ensures goes { IfOk result (λ q. (h : Course) (n : ℕ) → after_script prepared.now.program (view_of self.old) space.now (bare_rule (context_of prepared.now.program) None None (raises (context_of prepared.now.program) name.0) (asks_block (context_of prepared.now.program) name.0) name) h n ≡ continuing prepared.now.program (view_of self.new) space.now q h n) }
        ensures nested { IsNested (view_of self.new) }
        ensures within { (k : Reach) → AreReached k (view_of self.old) → AreReached k (view_of self.new) }
        ensures asks { (k : Reach) → AreReached k (view_of self.old) → IfOk result (IsAskedReached k) }
        ensures left { self.new.left ≡ self.old.left }
        ensures err { (t : Table) → IfErr result (λ f. Stands (view_of self.old) (view_of self.new) t t f) }
        ensures size { IfOk result (λ q. sized q (view_of self.new) ≤ 3 * length self.old.frames.items + 4) }
        ensures fault { IfErr result (λ f. f ≡ Fault.Memory) }
    {
        if is_raise(prepared.program.symbol_bytes(name)) {
            self.raise_again();
            Ok(None)
        } else if is_block_given(prepared.program.symbol_bytes(name)) {
            let given = !matches!(self.calls.running().given, Given::Nothing);
            self.control = Control::Give(Answer::Gave(Ref::truth(given)));
            Ok(None)
        } else {
            self.open_other(prepared, space, name)
        }
    }

    /// Evaluates the arguments of `raise`, the last `count` parts before `first + count`.
    pub fn open_raise(&mut self, first: NodeId, count: u32) -> Result<(), Fault>
        requires small { first + count < 2 ^ 32 }
        requires nested { IsNested (view_of self.old) }
        ensures goes { OnOk result ((p : Program) (t : Table) (h : Course) (n : ℕ) → after_script p (view_of self.old) t (arguments (context_of p) (trees_before p.nodes.items (first + count) count) [] (finish (context_of p) Target.Raise)) h n ≡ remaining_with p (view_of self.new) t h n) }
        ensures nested { IsNested (view_of self.new) }
        ensures within { (k : Reach) → AreReached k (view_of self.old) → AreReached k (view_of self.new) }
        ensures left { self.new.left ≡ self.old.left }
        ensures err { (t : Table) → IfErr result (λ f. Stands (view_of self.old) (view_of self.new) t t f) }
        ensures size { OnOk result (size (view_of self.new) ≤ 3 * length self.old.frames.items + 4) }
        ensures fault { IfErr result (λ f. f ≡ Fault.Memory) }
    {
        match count {
            0 => {
                self.raise_again();
                Ok(())
            }
            _ => {
                self.frames.reserve(1)?;
                let frame = Frame::Item(Target::Raise, first + count, count - 1, self.held.len());
                self.enter_above(frame, first);
                Ok(())
            }
        }
    }

    /// Does what `raise` does with the values that stand for a frame and with one more, where no exception gets a cause first.
    #[tactic(auto, unfolding(crate::specs::Within::AreReached))]
    pub fn raise_values(&mut self, frame: Frame, value: Ref)
        requires base { base_of frame ≤ length self.old.held.items }
        requires nested { Nested (reverse self.old.frames.items) (below_of frame self.old.held.items) }
        ensures goes { (p : Program) (t : Table) (h : Course) (n : ℕ) → after_values p (view_of self.old) t frame (raise_values (context_of p) (stand_of frame self.old.held.items ++ value ∷ [])) h n ≡ remaining_with p (view_of self.new) t h n }
        ensures nested { IsNested (view_of self.new) }
        ensures within { (k : Reach) → AreReached k (view_of self.old) → IsReached k value → AreReached k (view_of self.new) }
        ensures left { self.new.left ≡ self.old.left }
        ensures size { size (view_of self.new) ≤ 3 * length self.old.frames.items + 4 }
    {
        let control = raised_by(standing(&self.held, frame), value);
        clear(&mut self.held, frame);
        self.control = control;
    }

    /// Raises a value, with a message where one is given. A refused growth leaves what is still to be done as it is.
    #[tactic(auto, unfolding(crate::specs::Within::AreReached))]
    #[inline(never)]
    pub fn raise_value(
        &mut self,
        program: &Program,
        space: &mut Space,
        value: Ref,
        message: Option<Ref>,
    ) -> Result<(), Fault>
        requires control { self.old.control ≡ Control.RaiseValue value message }
        requires nested { IsNested (view_of self.old) }
        requires within { AreWithin (length space.old.slots) (view_of self.old) }
        ensures goes { (h : Course) → remaining program.now (view_of self.old) space.old h ≡ remaining program.now (view_of self.new) space.new h }
        ensures nested { IsNested (view_of self.new) }
        ensures within { KeepsReach (view_of self.old) space.old (view_of self.new) space.new }
        ensures read { KeepsRead (view_of self.old) space.old space.new }
        ensures left { self.new.left ≡ self.old.left }
        ensures size { OnOk result (size (view_of self.new) < size (view_of self.old)) }
        ensures refusal { IfErr result IsRefusal }
        ensures limit { space.new.limit ≡ space.old.limit }
        ensures changed { Changes space.old space.new }
        ensures full { IfErr result (λ f. (h : Course) → Adds h.world → Passes f space.old.limit (objects_of (remaining program.now (view_of self.old) space.old h))) }
    {
        match raised(program, space, value, message) {
            Ok(control) => {
                self.control = control;
                Ok(())
            }
            Err(problem) => {
                self.control = Control::Throw(problem);
                self.throw(program, space, problem)
            }
        }
    }
}
