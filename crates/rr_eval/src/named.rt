//! What a name without a receiver calls: a method of the program, what prints, `raise`, or nothing.

ghost use Rattle.std.specs.Prelude.{◌≡◌, ◌+◌, ◌-◌, ◌*◌, ◌<◌, ◌≤◌, ◌^◌, ℕ, [], false, length, Option, None, Some, IfOk, IfErr};
ghost use Rattle.rr_base.specs.declared.fault.Fault.{Fault};
ghost use Rattle.rr_space.specs.Tables.{Table, Below};
ghost use Rattle.rr_tree.specs.declared.program.Program.{Program};
ghost use Rattle.rr_eval.specs.declared.frame.Control.{Control};
ghost use Rattle.rr_eval.specs.Requests.{Course};
ghost use Rattle.std.specs.Option.{option_map};
ghost use Rattle.rr_eval.specs.Prepared.{callable_of};
ghost use Rattle.rr_eval.specs.Rules.{arguments, finish, printing, raises, asks_block, awaited, only_own, own_method, bare_rule, call_rule};
ghost use Rattle.rr_tree.specs.Nodes.{trees_before};
ghost use Rattle.rr_eval.specs.Turns.{context_of, state_of, IsNested, after_script, continuing, Stands, size, sized};
ghost use Rattle.rr_eval.specs.Views.{view_of};
ghost use Rattle.rr_eval.specs.Within.{Reach, reach, AreReached, IsAskedReached};

use crate::awaited::{is_awaited, is_raise};
use crate::call::{Arguments, Callee, Passing, Target, Task};
use crate::call_stack::{CallValue, Handed};
use crate::engine::Engine;
use crate::frame::{Control, Frame};
use crate::invoke::Way;
use crate::prepared::{Definition, Prepared};
use crate::problem::Problem;
use crate::request::Request;
use rr_base::{Fault, Sym};
use rr_space::Space;
use rr_tree::{NodeId, Program};

/// What a name prints by: `puts`, `p` and `print`.
fn printing(program: &Program, name: Sym) -> Option<Task>
    ensures { result ≡ printing (context_of program.now) name.0 }
{
    let bytes = program.symbol_bytes(name);
    if bytes == b"puts".as_slice() {
        Some(Task::Puts)
    } else if bytes == b"p".as_slice() {
        Some(Task::Inspect)
    } else if bytes == b"print".as_slice() {
        Some(Task::Print)
    } else {
        None
    }
}

/// Whether only `self` has a method of the name.
pub fn is_only_own(program: &Program, name: Sym) -> bool
    ensures { result ≡ only_own (context_of program.now) name.0 }
{
    let bytes = program.symbol_bytes(name);
    printing(program, name).is_some() || is_raise(bytes) || is_awaited(bytes)
}

impl Engine {
    /// The method of the program that a name calls on `self`.
    #[inline(always)]
    pub fn own_method(&self, prepared: &Prepared, space: &Space, name: Sym) -> Option<Definition>
        ensures { (h : Course) → option_map (callable_of prepared.now.program.nodes.items) result ≡ own_method (context_of prepared.now.program) name.0 (state_of prepared.now.program (view_of self.now) space.now h).memory }
    {
        prepared.method_for(space, self.itself(), Callee::Name(name))
    }

    /// Evaluates values, the last `count` parts before `first + count`, with which a name is called on `self`. The call is given the
    /// block of a node, where there is one.
    pub fn open_own(
        &mut self,
        prepared: &Prepared,
        space: &Space,
        name: Sym,
        block: Option<NodeId>,
        first: NodeId,
        count: u32,
    ) -> Result<Option<Request>, Fault>
        requires small { first + count < 2 ^ 32 }
        requires nested { IsNested (view_of self.old) }
        ensures goes { IfOk result (λ q. (h : Course) (n : ℕ) → after_script prepared.now.program (view_of self.old) space.now (arguments (context_of prepared.now.program) (trees_before prepared.now.program.nodes.items (first + count) count) [] (finish (context_of prepared.now.program) (Target.Own name block))) h n ≡ continuing prepared.now.program (view_of self.new) space.now q h n) }
        ensures nested { IsNested (view_of self.new) }
        ensures within { (clusters : Option Below) → AreReached (reach (length space.now.slots) clusters) (view_of self.old) → AreReached (reach (length space.now.slots) clusters) (view_of self.new) }
        ensures asks { (k : Reach) → AreReached k (view_of self.old) → IfOk result (IsAskedReached k) }
        ensures left { self.new.left ≡ self.old.left }
        ensures err { (t : Table) → IfErr result (λ f. Stands (view_of self.old) (view_of self.new) t t f) }
        ensures size { IfOk result (λ q. sized q (view_of self.new) ≤ 3 * length self.old.frames.items + 4) }
        ensures fault { IfErr result (λ f. f ≡ Fault.Memory) }
    {
        self.frames.reserve(1)?;
        match count {
            0 => self.send_itself(prepared, space, name, block, Frame::Not, None),
            _ => {
                let frame = Frame::Item(
                    Target::Own(name, block),
                    first + count,
                    count - 1,
                    self.held.len(),
                );
                self.enter_above(frame, first);
                Ok(None)
            }
        }
    }

    /// Evaluates a call with arguments of `raise`, or of a name that is no method's. Such a call raises, once its arguments are
    /// evaluated.
    #[tactic(auto, unfolding(crate::specs::Within::AreReached))]
    fn open_missing(
        &mut self,
        prepared: &Prepared,
        space: &Space,
        name: Sym,
        first: NodeId,
        count: u32,
    ) -> Result<Option<Request>, Fault>
        requires small { first + count < 2 ^ 32 }
        requires nested { IsNested (view_of self.old) }
        ensures goes { IfOk result (λ q. (h : Course) (n : ℕ) → after_script prepared.now.program (view_of self.old) space.now (call_rule (context_of prepared.now.program) None None (raises (context_of prepared.now.program) name.0) (awaited (context_of prepared.now.program) name.0) name (trees_before prepared.now.program.nodes.items (first + count) count)) h n ≡ continuing prepared.now.program (view_of self.new) space.now q h n) }
        ensures nested { IsNested (view_of self.new) }
        ensures within { (clusters : Option Below) → AreReached (reach (length space.now.slots) clusters) (view_of self.old) → AreReached (reach (length space.now.slots) clusters) (view_of self.new) }
        ensures left { self.new.left ≡ self.old.left }
        ensures asks { (k : Reach) → AreReached k (view_of self.old) → IfOk result (IsAskedReached k) }
        ensures err { (t : Table) → IfErr result (λ f. Stands (view_of self.old) (view_of self.new) t t f) }
        ensures size { IfOk result (λ q. sized q (view_of self.new) ≤ 3 * length self.old.frames.items + 4) }
        ensures fault { IfErr result (λ f. f ≡ Fault.Memory) }
    {
        if is_raise(prepared.program.symbol_bytes(name)) {
            return match self.open_raise(first, count) {
                Ok(()) => Ok(None),
                Err(fault) => Err(fault),
            };
        }
        if is_awaited(prepared.program.symbol_bytes(name)) {
            self.control = Control::Throw(Problem::NotHere);
            return Ok(None);
        }
        self.open_own(prepared, space, name, None, first, count)
    }

    /// Evaluates a call with arguments: of a method of the program, of a name that prints, of `raise`, or of another, which raises.
    #[tactic(auto, unfolding(crate::specs::Within::AreReached))]
    pub fn open_call(
        &mut self,
        prepared: &Prepared,
        space: &Space,
        name: Sym,
        first: NodeId,
        count: u32,
    ) -> Result<Option<Request>, Fault>
        requires small { first + count < 2 ^ 32 }
        requires nested { IsNested (view_of self.old) }
        ensures goes { IfOk result (λ q. (h : Course) (n : ℕ) → after_script prepared.now.program (view_of self.old) space.now (call_rule (context_of prepared.now.program) (own_method (context_of prepared.now.program) name.0 (state_of prepared.now.program (view_of self.old) space.now h).memory) (printing (context_of prepared.now.program) name.0) (raises (context_of prepared.now.program) name.0) (awaited (context_of prepared.now.program) name.0) name (trees_before prepared.now.program.nodes.items (first + count) count)) h n ≡ continuing prepared.now.program (view_of self.new) space.now q h n) }
        ensures nested { IsNested (view_of self.new) }
        ensures within { (clusters : Option Below) → AreReached (reach (length space.now.slots) clusters) (view_of self.old) → AreReached (reach (length space.now.slots) clusters) (view_of self.new) }
        ensures left { self.new.left ≡ self.old.left }
        ensures asks { (k : Reach) → AreReached k (view_of self.old) → IfOk result (IsAskedReached k) }
        ensures err { (t : Table) → IfErr result (λ f. Stands (view_of self.old) (view_of self.new) t t f) }
        ensures size { IfOk result (λ q. sized q (view_of self.new) ≤ 3 * length self.old.frames.items + 4) }
        ensures fault { IfErr result (λ f. f ≡ Fault.Memory) }
    {
        match (
            self.own_method(prepared, space, name),
            printing(&prepared.program, name),
        ) {
            (Some(_), _) => self.open_own(prepared, space, name, None, first, count),
            (None, Some(task)) => self.open_values(task, first, count),
            (None, None) => self.open_missing(prepared, space, name, first, count),
        }
    }

    /// Runs a method of the program on `self`, without arguments.
    #[tactic(auto, unfolding(crate::specs::Within::AreReached))]
    fn run_own(&mut self, space: &Space, definition: Definition) -> Result<Option<Request>, Fault>
        requires nested { IsNested (view_of self.old) }
        ensures goes { IfOk result (λ q. (p : Program) (name : Sym) (h : Course) (n : ℕ) → after_script p (view_of self.old) space.now (bare_rule (context_of p) (Some (callable_of p.nodes.items definition)) None false false name) h n ≡ continuing p (view_of self.new) space.now q h n) }
        ensures nested { IsNested (view_of self.new) }
        ensures within { (clusters : Option Below) → AreReached (reach (length space.now.slots) clusters) (view_of self.old) → AreReached (reach (length space.now.slots) clusters) (view_of self.new) }
        ensures left { self.new.left ≡ self.old.left }
        ensures asks { (k : Reach) → AreReached k (view_of self.old) → IfOk result (IsAskedReached k) }
        ensures err { (t : Table) → IfErr result (λ f. Stands (view_of self.old) (view_of self.new) t t f) }
        ensures size { IfOk result (λ q. sized q (view_of self.new) ≤ 3 * length self.old.frames.items + 4) }
        ensures fault { IfErr result (λ f. f ≡ Fault.Memory) }
    {
        self.frames.reserve(1)?;
        let way = Way {
            receiver: self.itself(),
            handed: Handed::Nothing,
            block: None,
            value: CallValue::Method,
        };
        self.run_method(space, definition, way, Passing::All, Frame::Not, None)
    }

    /// Evaluates a bare name: that of a method of the program, one that prints, `raise`, or one that is missing.
    #[tactic(auto, unfolding(crate::specs::Within::AreReached))]
    pub fn open_bare(
        &mut self,
        prepared: &Prepared,
        space: &Space,
        name: Sym,
    ) -> Result<Option<Request>, Fault>
        requires nested { IsNested (view_of self.old) }
        ensures goes { IfOk result (λ q. (h : Course) (n : ℕ) → after_script prepared.now.program (view_of self.old) space.now (bare_rule (context_of prepared.now.program) (own_method (context_of prepared.now.program) name.0 (state_of prepared.now.program (view_of self.old) space.now h).memory) (printing (context_of prepared.now.program) name.0) (raises (context_of prepared.now.program) name.0) (asks_block (context_of prepared.now.program) name.0) name) h n ≡ continuing prepared.now.program (view_of self.new) space.now q h n) }
        ensures nested { IsNested (view_of self.new) }
        ensures within { (clusters : Option Below) → AreReached (reach (length space.now.slots) clusters) (view_of self.old) → AreReached (reach (length space.now.slots) clusters) (view_of self.new) }
        ensures left { self.new.left ≡ self.old.left }
        ensures asks { (k : Reach) → AreReached k (view_of self.old) → IfOk result (IsAskedReached k) }
        ensures err { (t : Table) → IfErr result (λ f. Stands (view_of self.old) (view_of self.new) t t f) }
        ensures size { IfOk result (λ q. sized q (view_of self.new) ≤ 3 * length self.old.frames.items + 4) }
        ensures fault { IfErr result (λ f. f ≡ Fault.Memory) }
    {
        match (
            self.own_method(prepared, space, name),
            printing(&prepared.program, name),
        ) {
            (Some(definition), _) => self.run_own(space, definition),
            (None, Some(task)) => Ok(Some(Request::Do(task, Arguments::Without))),
            (None, None) => self.open_name(prepared, space, name),
        }
    }
}
