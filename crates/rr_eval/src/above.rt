//! `super`: calls of the method above the one that runs.

ghost use Rattle.std.specs.Prelude.{◌≡◌, ◌+◌, ◌*◌, ◌<◌, ◌≤◌, ◌^◌, ℕ, [], ◌∷◌, ◌++◌, codes, length, reverse, vec_capacity, Option, None, IfOk, IfErr, IfSome, OnOk};
ghost use Rattle.std.specs.List.{All};
ghost use Rattle.std.specs.Str.{bytes_eq};
ghost use Rattle.rr_base.specs.declared.fault.Fault.{Fault};
ghost use Rattle.rr_frames.specs.Frames.{list_of};
ghost use Rattle.rr_space.specs.Kinds.{kind_at};
ghost use Rattle.rr_space.specs.Tables.{Table, Below};
ghost use Rattle.rr_tree.specs.Nodes.{trees_before};
ghost use Rattle.rr_tree.specs.declared.program.Program.{Program};
ghost use Rattle.rr_eval.specs.declared.problem.Answer.{Answer as Answers};
ghost use Rattle.rr_eval.specs.Above.{initialize_above, parameters_of, super_sent, super_rule, with_message};
ghost use Rattle.rr_eval.specs.Context.{Context};
ghost use Rattle.rr_eval.specs.Rules.{arguments, finish, throw};
ghost use Rattle.rr_eval.specs.Requests.{Course};
ghost use Rattle.rr_eval.specs.Frames.{below_of, base_of, stand_of, Nested};
ghost use Rattle.rr_eval.specs.Script.{Ret};
ghost use Rattle.rr_eval.specs.Turns.{context_of, IsNested, after_script, after_values, continuing, Stands, sized};
ghost use Rattle.rr_eval.specs.Views.{view_of};
ghost use Rattle.rr_eval.specs.Within.{Reach, reach, IsReached, IsAskedReached, AreReached, AreVariablesReached};

use crate::call::{Arguments, Callee, Passing, Target, Task};
use crate::call_stack::{CallStack, CallValue, Handed};
use crate::engine::Engine;
use crate::frame::{Control, Frame, clear, standing};
use crate::invoke::{Way, count_of, single};
use crate::prepared::Prepared;
use crate::problem::{Answer, Problem};
use crate::request::Request;
use rr_base::Fault;
use rr_builtin::Problem as BuiltInProblem;
use rr_frames::Activation;
use rr_space::{Kind, Ref, Space};
use rr_tree::NodeId;
use std::alloc::{AllocError, Global};

/// Whether it is `initialize`.
fn is_initialize(name: &[u8]) -> bool
    ensures { result ≡ bytes_eq name.now (codes "initialize") }
{
    name == b"initialize".as_slice()
}

/// The problem of so many arguments where at most so many are taken.
fn too_many(given: usize, most: usize) -> Problem
    ensures { result ≡ Problem.BuiltIn (BuiltInProblem.Count given 0 most) }
{
    Problem::BuiltIn(BuiltInProblem::Count {
        given,
        least: 0,
        most,
    })
}

/// The message that `initialize` of an object of a kind is given, nil for none, where it takes one, or why it cannot be called: that of an
/// exception takes a message, any other nothing.
fn message_given(kind: Kind, values: &[Ref], last: Option<Ref>) -> Result<Option<Ref>, Problem>
    ensures message { IfOk result (λ m. IfSome m (λ w. (c : Context) (v : Ref) → initialize_above c kind v (values.now ++ list_of last) ≡ with_message c v w)) }
    ensures none { IfOk result (λ m. m ≡ None → (c : Context) (v : Ref) → initialize_above c kind v (values.now ++ list_of last) ≡ Ret (Answers.Gave Ref.Nil)) }
    ensures refused { IfErr result (λ e. (c : Context) (v : Ref) → initialize_above c kind v (values.now ++ list_of last) ≡ throw c e) }
    ensures within { (k : Reach) → All (IsReached k) values.now → All (IsReached k) (list_of last) → IfOk result (λ m. IfSome m (IsReached k)) }
{
    let given = count_of(Passing::All, values, last);
    match (kind, given) {
        (Kind::Exception, 0) => Ok(Some(Ref::Nil)),
        (Kind::Exception, _) => match single(Passing::All, values, last) {
            Some(message) => Ok(Some(message)),
            None => Err(too_many(given, 1)),
        },
        (_, 0) => Ok(None),
        (_, _) => Err(too_many(given, 0)),
    }
}

/// The present values of the parameters of the method that runs.
fn parameters(alloc: Global, calls: &CallStack) -> Result<Vec<Ref>, AllocError>
    ensures are { IfOk result (λ values. values.items ≡ parameters_of calls.now.frames) }
    ensures within { (k : Reach) → All (AreVariablesReached k) calls.now.frames → IfOk result (λ values. All (IsReached k) values.items) }
{
    let running = calls.running();
    let mut values = Vec::new(alloc);
    let mut slot = 0;
    while slot < running.parameters {
        values.push(calls.get(running.root, slot))?;
        slot += 1;
    }
    Ok(values)
}

impl Engine {
    /// Calls `initialize` of Object, which takes nothing, or that of an exception, which takes its message.
    #[tactic(auto, unfolding(crate::specs::Within::AreReached))]
    fn initialize_above(
        &mut self,
        space: &Space,
        receiver: Ref,
        frame: Frame,
        last: Option<Ref>,
    ) -> Option<Request>
        requires base { base_of frame ≤ length self.old.held.items }
        requires nested { Nested (reverse self.old.frames.items) (below_of frame self.old.held.items) }
        ensures goes { (p : Program) (h : Course) (n : ℕ) → after_values p (view_of self.old) space.now frame (initialize_above (context_of p) (kind_at space.now receiver) receiver (stand_of frame self.old.held.items ++ list_of last)) h n ≡ continuing p (view_of self.new) space.now result h n }
        ensures nested { IsNested (view_of self.new) }
        ensures within { (k : Reach) → AreReached k (view_of self.old) → AreReached k (view_of self.new) }
        ensures asks { (k : Reach) → AreReached k (view_of self.old) → IsReached k receiver → All (IsReached k) (list_of last) → IsAskedReached k result }
        ensures left { self.new.left ≡ self.old.left }
        ensures size { sized result (view_of self.new) ≤ 3 * length self.old.frames.items + 4 }
    {
        let kind = space.kind_of(receiver);
        match message_given(kind, standing(&self.held, frame), last) {
            Ok(Some(message)) => {
                clear(&mut self.held, frame);
                let values = Arguments::Two(receiver, message);
                Some(Request::Do(Task::SetMessage, values))
            }
            Ok(None) => {
                clear(&mut self.held, frame);
                self.control = Control::Give(Answer::Gave(Ref::Nil));
                None
            }
            Err(problem) => {
                self.refuse(frame, problem);
                None
            }
        }
    }

    /// Calls what stands above a method of this name where the program has none: a built-in method, or `initialize` of Object or of
    /// an exception. A refused growth leaves all as it is.
    fn send_above(
        &mut self,
        prepared: &Prepared,
        space: &Space,
        running: Activation,
        frame: Frame,
        last: Option<Ref>,
    ) -> Result<Option<Request>, Fault>
        requires room { length self.old.frames.items < vec_capacity self.old.frames }
        requires base { base_of frame ≤ length self.old.held.items }
        requires nested { Nested (reverse self.old.frames.items) (below_of frame self.old.held.items) }
        ensures goes { IfOk result (λ q. (h : Course) (n : ℕ) → after_values prepared.now.program (view_of self.old) space.now frame (super_sent (context_of prepared.now.program) None running space.now (stand_of frame self.old.held.items ++ list_of last)) h n ≡ continuing prepared.now.program (view_of self.new) space.now q h n) }
        ensures within { (k : Reach) → AreReached k (view_of self.old) → AreReached k (view_of self.new) }
        ensures asks { (k : Reach) → AreReached k (view_of self.old) → IsReached k running.itself → All (IsReached k) (list_of last) → IfOk result (IsAskedReached k) }
        ensures nested { OnOk result (IsNested (view_of self.new)) }
        ensures left { self.new.left ≡ self.old.left }
        ensures err { (t : Table) → IfErr result (λ f. Stands (view_of self.old) (view_of self.new) t t f) }
        ensures size { IfOk result (λ q. sized q (view_of self.new) ≤ 3 * length self.old.frames.items + 4) }
        ensures room { IfErr result (λ _. length self.new.frames.items < vec_capacity self.new.frames) }
        ensures fault { IfErr result (λ f. f ≡ Fault.Memory) }
    {
        let receiver = running.itself;
        if is_initialize(prepared.program.symbol_bytes(running.name)) {
            return Ok(self.initialize_above(space, receiver, frame, last));
        }
        self.ask_method(
            receiver,
            Callee::Name(running.name),
            Passing::All,
            frame,
            last,
        )
    }

    /// Calls the method above the one that runs, with the values that stand for a frame and one more.
    #[tactic(auto, unfolding(crate::specs::Within::AreReached))]
    pub fn send_super(
        &mut self,
        prepared: &Prepared,
        space: &Space,
        frame: Frame,
        last: Option<Ref>,
    ) -> Result<Option<Request>, Fault>
        requires room { length self.old.frames.items < vec_capacity self.old.frames }
        requires base { base_of frame ≤ length self.old.held.items }
        requires nested { Nested (reverse self.old.frames.items) (below_of frame self.old.held.items) }
        ensures goes { IfOk result (λ q. (h : Course) (n : ℕ) → after_values prepared.now.program (view_of self.old) space.now frame (super_rule (context_of prepared.now.program) (stand_of frame self.old.held.items ++ list_of last)) h n ≡ continuing prepared.now.program (view_of self.new) space.now q h n) }
        ensures within { (clusters : Option Below) → AreReached (reach (length space.now.slots) clusters) (view_of self.old) → All (IsReached (reach (length space.now.slots) clusters)) (list_of last) → AreReached (reach (length space.now.slots) clusters) (view_of self.new) }
        ensures asks { (k : Reach) → AreReached k (view_of self.old) → All (IsReached k) (list_of last) → IfOk result (IsAskedReached k) }
        ensures nested { OnOk result (IsNested (view_of self.new)) }
        ensures left { self.new.left ≡ self.old.left }
        ensures err { (t : Table) → IfErr result (λ f. Stands (view_of self.old) (view_of self.new) t t f) }
        ensures size { IfOk result (λ q. sized q (view_of self.new) ≤ 3 * length self.old.frames.items + 4) }
        ensures room { IfErr result (λ _. length self.new.frames.items < vec_capacity self.new.frames) }
        ensures fault { IfErr result (λ f. f ≡ Fault.Memory) }
    {
        let running = self.calls.running();
        match prepared.method_above(space, running) {
            Some(definition) => {
                let way = Way {
                    receiver: running.itself,
                    handed: Handed::Same,
                    block: None,
                    value: CallValue::Method,
                };
                self.run_method(space, definition, way, Passing::All, frame, last)
            }
            None => self.send_above(prepared, space, running, frame, last),
        }
    }

    /// Evaluates the arguments of `super`, the last `count` parts before `first + count`.
    pub fn open_super(
        &mut self,
        prepared: &Prepared,
        space: &Space,
        first: NodeId,
        count: u32,
    ) -> Result<Option<Request>, Fault>
        requires small { first + count < 2 ^ 32 }
        requires nested { IsNested (view_of self.old) }
        ensures goes { IfOk result (λ q. (h : Course) (n : ℕ) → after_script prepared.now.program (view_of self.old) space.now (arguments (context_of prepared.now.program) (trees_before prepared.now.program.nodes.items (first + count) count) [] (finish (context_of prepared.now.program) Target.Super)) h n ≡ continuing prepared.now.program (view_of self.new) space.now q h n) }
        ensures nested { IsNested (view_of self.new) }
        ensures within { (clusters : Option Below) → AreReached (reach (length space.now.slots) clusters) (view_of self.old) → AreReached (reach (length space.now.slots) clusters) (view_of self.new) }
        ensures asks { (k : Reach) → AreReached k (view_of self.old) → IfOk result (IsAskedReached k) }
        ensures left { self.new.left ≡ self.old.left }
        ensures err { (t : Table) → IfErr result (λ f. Stands (view_of self.old) (view_of self.new) t t f) }
        ensures size { IfOk result (λ q. sized q (view_of self.new) ≤ 3 * length self.old.frames.items + 4) }
        ensures fault { IfErr result (λ f. f ≡ Fault.Memory) }
    {
        self.frames.reserve(1)?;
        match count {
            0 => self.send_super(prepared, space, Frame::Not, None),
            _ => {
                let frame = Frame::Item(Target::Super, first + count, count - 1, self.held.len());
                self.enter_above(frame, first);
                Ok(None)
            }
        }
    }

    /// Evaluates `super` alone, which passes the present values of the parameters.
    pub fn open_forwarding(
        &mut self,
        prepared: &Prepared,
        space: &Space,
    ) -> Result<Option<Request>, Fault>
        requires nested { IsNested (view_of self.old) }
        ensures goes { IfOk result (λ q. (h : Course) (n : ℕ) → after_script prepared.now.program (view_of self.old) space.now (super_rule (context_of prepared.now.program) (parameters_of self.old.calls.frames)) h n ≡ continuing prepared.now.program (view_of self.new) space.now q h n) }
        ensures nested { IsNested (view_of self.new) }
        ensures within { (clusters : Option Below) → AreReached (reach (length space.now.slots) clusters) (view_of self.old) → AreReached (reach (length space.now.slots) clusters) (view_of self.new) }
        ensures asks { (k : Reach) → AreReached k (view_of self.old) → IfOk result (IsAskedReached k) }
        ensures left { self.new.left ≡ self.old.left }
        ensures err { (t : Table) → IfErr result (λ f. Stands (view_of self.old) (view_of self.new) t t f) }
        ensures size { IfOk result (λ q. sized q (view_of self.new) ≤ 3 * length self.old.frames.items + 4) }
        ensures fault { IfErr result (λ f. f ≡ Fault.Memory) }
    {
        self.frames.reserve(1)?;
        let values = parameters(self.alloc, &self.calls)?;
        let base = self.held.len();
        self.held.extend_from_slice(&values)?;
        let frame = Frame::Argument(Target::Super, 0, 0, base);
        match self.send_super(prepared, space, frame, None) {
            Ok(request) => Ok(request),
            Err(fault) => {
                self.held.truncate(base);
                Err(fault)
            }
        }
    }
}
