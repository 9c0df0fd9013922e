//! The machine as its callers see it.

ghost use Rattle.std.specs.Prelude.{◌≡◌, ◌<◌, ℕ, List, [], ◌∷◌, length, Option, None, IfOk, IfErr, suc};
ghost use Rattle.rr_base.specs.declared.fault.Fault.{Fault};
ghost use Rattle.std.specs.List.{All};
ghost use Rattle.rr_space.specs.Tables.{Table, Below};
ghost use Rattle.rr_space.specs.declared.refer.Ref.{Ref};
ghost use Rattle.rr_tree.specs.declared.program.Program.{Program};
ghost use Rattle.rr_tree.specs.Tree.{Tree, tree_at, listed};
ghost use Rattle.rr_eval.specs.Acts.{Passes};
ghost use Rattle.rr_eval.specs.Apart.{turned_of};
ghost use Rattle.rr_eval.specs.Script.{State, World, Evaluation, Iterated, TurnPart, Go, run, Ended, Spent, objects_of};
ghost use Rattle.rr_eval.specs.Rules.{Context, rule, throw, meaning, meaning_of, begun, block_begun, first_memory, items};
ghost use Rattle.rr_eval.specs.Iterating.{body_in, turned};
ghost use Rattle.rr_eval.specs.Requests.{Course, Adds};
ghost use Rattle.rr_eval.specs.Exceptions.{IsTold};
ghost use Rattle.rr_eval.specs.Thrown.{thrown, thrown_at, report};
ghost use Rattle.rr_eval.specs.declared.problem.Problem.{Problem};
ghost use Rattle.rr_eval.specs.declared.problem.Answer.{Answer};
ghost use Rattle.rr_eval.specs.Changes.{Changes};
ghost use Rattle.rr_eval.specs.Within.{Reach, reach, AreReached, AreVariablesReached, AreWithin, IsControlReached, IsReached, IsResponseReached, IsTurnReached, IsTurnWithin, KeepsReach, KeepsRead};
ghost use Rattle.rr_eval.specs.Turns.{context_of, remaining, answered, Turned, Replied, Falls};

use crate::call::Target;
use crate::call_stack::CallStack;
use crate::engine::{Engine, Turn, TurnedApart};
use crate::frame::{Control, Frame};
use crate::prepared::Prepared;
use crate::problem::{Problem, Response};
use rr_base::{Fault, Limits};
use rr_space::{Ref, Space};
use rr_tree::{NodeId, Program};
use std::alloc::Global;
use std::marker::Model;

/// A machine that evaluates a program step by step, seen as what it has still to do.
///
/// The program and the space are the caller's: the machine means what its contracts say with the program that it was
/// made for, and with one space from its first turn on.
#[derive(Drop)]
pub struct Machine {
    engine: Engine,
}

impl Model for Machine {
    ghost use Rattle.rr_eval.specs.View.{View};

    ghost Value = { View };

    ghost use Rattle.rr_eval.specs.Turns.{IsNested};
    ghost use Rattle.rr_eval.specs.Views.{view_of};

    ghost view = { λ m. view_of m.engine };

    ghost invariant = { λ m. IsNested (view_of m.engine) };
}

/// The frame of a program, whose variables are unset, where so many methods may be called in one another.
fn first_calls(alloc: Global, program: &Program, most: u32, itself: Ref) -> Result<CallStack, Fault>
    ensures calls { IfOk result (λ calls. (t : Table) → record { calls = calls; blocks = None ∷ []; table = t; rescuing = Ref.Nil } ≡ first_memory (context_of program.now) most itself t) }
    ensures within { IfOk result (λ calls. (k : Reach) → IsReached k itself → All (AreVariablesReached k) calls.frames) }
    ensures fault { IfErr result (λ f. f ≡ Fault.Memory) }
{
    let Ok(size) = u32::try_from(program.symbols.len()) else {
        return Err(Fault::Memory);
    };
    CallStack::new(alloc, most, size, itself)
}

/// The program was given no block.
fn first_blocks(alloc: Global) -> Result<Vec<Option<NodeId>>, Fault>
    ensures is { IfOk result (λ blocks. blocks.items ≡ None ∷ []) }
    ensures fault { IfErr result (λ f. f ≡ Fault.Memory) }
{
    let mut blocks = Vec::new(alloc);
    blocks.push(None)?;
    Ok(blocks)
}

impl Machine {
    /// A machine that has the whole program still to do, whose `self` is given, within limits, of which it takes the steps and
    /// the frames. The only fault is `Memory`.
    #[tactic(auto, unfolding(crate::specs::Within::AreReached))]
    pub fn new(
        alloc: Global,
        prepared: &Prepared,
        limits: Limits,
        itself: Ref,
    ) -> Result<Machine, Fault>
        ensures left { IfOk result (λ m. m.left ≡ limits.steps) }
        ensures within { IfOk result (λ m. (k : Reach) → IsReached k itself → AreReached k m) }
        ensures whole { IfOk result (λ m. (t : Table) (h : Course) → remaining prepared.now.program m t h ≡ begun (context_of prepared.now.program) h.world (tree_at prepared.now.program.nodes.items prepared.now.program.root) (record { memory = first_memory (context_of prepared.now.program) limits.frames itself t; asked = h.asked }) limits.steps) }
        ensures fault { IfErr result (λ f. f ≡ Fault.Memory) }
    {
        let engine = Engine {
            control: Control::Enter(prepared.program.root),
            frames: Vec::new(alloc),
            held: Vec::new(alloc),
            calls: first_calls(alloc, &prepared.program, limits.frames, itself)?,
            blocks: first_blocks(alloc)?,
            rescuing: Ref::Nil,
            left: limits.steps,
            alloc,
        };
        Ok(Machine { engine })
    }

    /// A machine that has the block of a ractor still to call, with these arguments and with the ractor as `self`, within limits, of which
    /// it takes the steps and the frames. The block is named by its node. A `return` or a `break` that leaves it raises LocalJumpError.
    ///
    /// The space of a ractor begins with the objects that `make_first` makes. The only fault is `Memory`.
    #[tactic(auto, unfolding(crate::specs::Within::AreReached))]
    pub fn for_block(
        alloc: Global,
        prepared: &Prepared,
        space: &Space,
        limits: Limits,
        itself: Ref,
        block: NodeId,
        arguments: &[Ref],
    ) -> Result<Machine, Fault>
        ensures left { IfOk result (λ m. m.left ≡ limits.steps) }
        ensures within { (clusters : Option Below) → IsReached (reach (length space.now.slots) clusters) itself → All (IsReached (reach (length space.now.slots) clusters)) arguments.now → IfOk result (AreReached (reach (length space.now.slots) clusters)) }
        ensures whole { IfOk result (λ m. (h : Course) → remaining prepared.now.program m space.now h ≡ block_begun (context_of prepared.now.program) h.world (tree_at prepared.now.program.nodes.items block) arguments.now (record { memory = first_memory (context_of prepared.now.program) limits.frames itself space.now; asked = h.asked }) limits.steps) }
        ensures fault { IfErr result (λ f. f ≡ Fault.Memory) }
    {
        let mut engine = Engine {
            control: Control::Enter(block),
            frames: Vec::new(alloc),
            held: Vec::from_slice(alloc, arguments)?,
            calls: first_calls(alloc, &prepared.program, limits.frames, itself)?,
            blocks: first_blocks(alloc)?,
            rescuing: Ref::Nil,
            left: limits.steps,
            alloc,
        };
        engine.frames.reserve(1)?;
        // The arguments stand for a frame that is there no more.
        let given = Frame::Argument(Target::Yield, 0, 0, 0);
        engine.call_at(&prepared.program, space, block, 0, given, None)?;
        Ok(Machine { engine })
    }

    /// Takes at most `budget` steps, and fewer where it comes to a request, to the end, or to the step limit. After a
    /// request the machine is given its reply, by `answer`, before the next turn.
    ///
    /// The faults are `Memory` and `Limit(Slots)`, the second only where what is still to be done makes more objects than
    /// the space may have. A refused growth leaves what is still to be done as it is, and the
    /// next turn goes on there.
    #[inline(always)]
    pub fn turn(
        &mut self,
        prepared: &Prepared,
        space: &mut Space,
        budget: u32,
    ) -> Result<Turn, Fault>
        requires within { AreWithin (length space.old.slots) self.old }
        ensures within { AreWithin (length space.new.slots) self.new }
        ensures ends_within { IfOk result (IsTurnWithin (length space.new.slots)) }
        // With the clusters that the space and the machine lead to, which are the same afterwards.
        ensures reach { KeepsReach self.old space.old self.new space.new }
        ensures ends_reach { (clusters : Option Below) → AreReached (reach (length space.old.slots) clusters) self.old → IfOk result (IsTurnReached (reach (length space.new.slots) clusters)) }
        ensures read { KeepsRead self.old space.old space.new }
        ensures turned { Turned prepared.now.program self.old space.old budget result self.new space.new }
        ensures falls { 0 < budget → Falls self.old result self.new }
        ensures limit { space.new.limit ≡ space.old.limit }
        ensures changed { Changes space.old space.new }
        ensures full { IfErr result (λ f. (h : Course) → Adds h.world → Passes f space.old.limit (objects_of (remaining prepared.now.program self.old space.old h))) }
    {
        self.engine.turn(prepared, space, budget)
    }

    /// The same, where an assignment to an instance variable whose value needs no frame is told apart from all else that stops a turn.
    #[inline(always)]
    pub fn turn_apart(&mut self, prepared: &Prepared, space: &mut Space, budget: u32) -> TurnedApart
        requires within { AreWithin (length space.old.slots) self.old }
        ensures within { AreWithin (length space.new.slots) self.new }
        ensures ends_within { IfOk (turned_of result) (IsTurnWithin (length space.new.slots)) }
        // With the clusters that the space and the machine lead to, which are the same afterwards.
        ensures reach { KeepsReach self.old space.old self.new space.new }
        ensures ends_reach { (clusters : Option Below) → AreReached (reach (length space.old.slots) clusters) self.old → IfOk (turned_of result) (IsTurnReached (reach (length space.new.slots) clusters)) }
        ensures read { KeepsRead self.old space.old space.new }
        ensures turned { Turned prepared.now.program self.old space.old budget (turned_of result) self.new space.new }
        ensures falls { 0 < budget → Falls self.old (turned_of result) self.new }
        ensures limit { space.new.limit ≡ space.old.limit }
        ensures changed { Changes space.old space.new }
        ensures full { IfErr (turned_of result) (λ f. (h : Course) → Adds h.world → Passes f space.old.limit (objects_of (remaining prepared.now.program self.old space.old h))) }
    {
        self.engine.turn_apart(prepared, space, budget)
    }

    /// Goes on with what the environment replied to the request of the last turn. The environment may have changed the
    /// space before.
    pub fn answer(&mut self, response: Response)
        ensures goes { self.new ≡ answered self.old response }
        ensures within { (k : Reach) → AreReached k self.old → IsResponseReached k response → AreReached k self.new }
        ensures replied { (p : Program) → Replied p self.old response }
    {
        self.engine.settle(response);
    }
}

/// Each tree does what its rule says, over what its parts do, and so does a turn of an iteration; without steps it does nothing; and a list of trees has
/// these trees, in their order.
pub fn rules_hold()
    ensures rule { (c : Context) (w : World) (tree : Tree) (s : State) (n : ℕ) → meaning c w tree s (suc n) ≡ run w (meaning_of c w) (rule c tree) s n }
    ensures turn { (c : Context) (w : World) (i : Iterated) (s : State) (n : ℕ) → meaning_of c w (TurnPart i) s (suc n) ≡ run w (meaning_of c w) (Go (body_in i.block) (turned c i)) s n }
    ensures spent { (c : Context) (w : World) (tree : Tree) (s : State) → meaning c w tree s 0 ≡ Spent s }
    ensures lists { (trees : List Tree) → items (listed trees) ≡ trees }
{}

/// An exception that is thrown is made with its message and with the exception that is being rescued as its cause, and what is
/// told of it has that message and its class.
pub fn exceptions_hold()
    ensures thrown { (c : Context) (w : World) (go : Evaluation) (e : Problem) (s : State) (n : ℕ) → run w go (throw c e) s n ≡ Ended (Answer.Raised (thrown_at c e s.memory.table)) (record s { memory = record s.memory { table = thrown c e s.memory.rescuing s.memory.table } }) n }
    ensures told { (c : Context) (e : Problem) (cause : Ref) (t : Table) (told : List ℕ) → IsTold (thrown c e cause t) (thrown_at c e t) told → told ≡ report c e }
{}
