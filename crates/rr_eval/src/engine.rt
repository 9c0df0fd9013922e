//! The machine: a stack of frames, each of which waits for the answer of a part.

ghost use Rattle.std.specs.Fn.{FnOnceReturnsAtMut};
ghost use Rattle.std.specs.Prelude.{◌≡◌, ◌+◌, ◌*◌, ◌<◌, ◌≤◌, ℕ, [], ◌∷◌, ◌++◌, length, reverse, slice_get, slice_set, vec_len, vec_capacity, Option, Some, IfOk, IfErr, IfSome, IsTrue, IsFalse, OnOk, MatchOption};
ghost use Rattle.rr_base.specs.declared.fault.Fault.{Fault};
ghost use Rattle.rr_space.specs.declared.refer.Ref.{Ref};
ghost use Rattle.rr_eval.specs.Blocks.{running};
ghost use Rattle.rr_eval.specs.Variables.{read_variable};
ghost use Rattle.rr_space.specs.Tables.{Table, Below};
ghost use Rattle.rr_tree.specs.declared.node.Node.{Node};
ghost use Rattle.rr_tree.specs.declared.program.Program.{Program};
ghost use Rattle.rr_tree.specs.Tree.{tree_at, binary};
ghost use Rattle.rr_eval.specs.Acts.{Passes};
ghost use Rattle.rr_eval.specs.Apart.{turned_of};
ghost use Rattle.rr_eval.specs.Script.{Ended, objects_of};
ghost use Rattle.rr_eval.specs.Requests.{Course, Adds};
ghost use Rattle.rr_eval.specs.Changes.{Changes};
ghost use Rattle.rr_eval.specs.Frames.{below_of, base_of, Nested, first_tree};
ghost use Rattle.rr_eval.specs.Rules.{ended};
ghost use Rattle.rr_eval.specs.Nodes.{evaluated_tree, IsEvaluated, IsRareNode};
ghost use Rattle.rr_eval.specs.Turns.{state_of, remaining, after_answer, continuing, IsNested, Stands, leaf_value, stop_of, Turned, more_of, size, sized, waits, power, Falls};
ghost use Rattle.rr_eval.specs.Views.{view_of};
ghost use Rattle.rr_eval.specs.Within.{Reach, reach, IsReached, IsAnswerReached, IsFrameReached, AreVariablesReached, IsAskedReached, IsTurnReached, AreReached, AreWithin, KeepsReach, KeepsRead};
ghost use Rattle.std.specs.List.{All};

use crate::call_stack::{CallStack, Variable};
use crate::fields::FieldAssignment;
use crate::frame::{Control, Frame};
use crate::nodes::node_at;
use crate::prepared::Prepared;
use crate::problem::Answer;
use crate::request::Request;
use rr_base::Fault;
use rr_space::{Ref, Space};
use rr_tree::{BinaryOperator, Node, NodeId, Program};
use std::alloc::Global;

/// The machine.
#[derive(Drop)]
pub struct Engine {
    pub control: Control,
    pub frames: Vec<Frame>,
    /// The values of arguments that were evaluated so far, those of the topmost frame last.
    pub held: Vec<Ref>,
    /// The frames of the program and of the methods and blocks that run, with their variables.
    pub calls: CallStack,
    /// Beside each of these frames, the node of the block that its method was given.
    pub blocks: Vec<Option<NodeId>>,
    /// The exception that is being rescued; nil where none is.
    pub rescuing: Ref,
    /// The steps that are left.
    pub left: u64,
    pub alloc: Global,
}

/// How a turn stopped.
#[derive(Drop)]
pub enum Turn {
    /// The steps of the turn are spent.
    More,
    /// A request to the environment, which replies before the next turn.
    Ask(Request),
    /// The value of all.
    Done(Ref),
    /// An exception that nothing rescues.
    Raised(Ref),
    /// No step is left.
    StepLimit,
}

/// How a turn stopped.
#[derive(Drop)]
pub enum TurnedApart {
    /// It asks for an assignment to an instance variable.
    Assigns(FieldAssignment),
    /// In any way, or a growth was refused.
    Other(Result<Turn, Fault>),
}

/// How a turn stops where all ends with an answer.
pub fn stop_of(answer: Answer) -> Turn
    ensures is { result ≡ stop_of answer }
{
    match answer {
        Answer::Gave(value) => Turn::Done(value),
        Answer::Raised(exception) => Turn::Raised(exception),
        Answer::Broke(value) => Turn::Done(value),
        Answer::Done(value) => Turn::Done(value),
        Answer::Returned(value) => Turn::Done(value),
        Answer::Ends(_, value) => Turn::Done(value),
    }
}

/// One more item, where there is room.
#[inline(always)]
pub fn push_within<T: Drop>(items: &mut Vec<T>, item: T)
    requires { length items.old.items < vec_capacity items.old }
    ensures { items.new.items ≡ items.old.items ++ item ∷ [] }
{
    items.push_reserved(item);
}

/// Changes an item where it lies, and gives what `change` gives. Generic, since what is written through `&mut` into a vector of a type
/// that holds `&'static` is not known afterwards.
#[inline(always)]
fn change_within<T, R, F: FnOnce(&mut T) -> R>(items: &mut Vec<T>, index: usize, change: F) -> R
    requires index { index < vec_len items.old }
    requires callable { F.IsAlwaysCallable change }
    ensures { (was now : T) × (slice_get items.old.items index ≡ Some was) × (items.new.items ≡ slice_set items.old.items index now) × FnOnceReturnsAtMut F.FnOnce change was result now }
{
    change(&mut items[index])
}

/// Lets so many statements be still to be evaluated by the frame at a place.
#[inline(always)]
pub fn count_statements(frames: &mut Vec<Frame>, index: usize, count: u32)
    requires { index < vec_len frames.old }
    ensures { (end n : ℕ) → slice_get frames.old.items index ≡ Some (Frame.Rest end n) → frames.new.items ≡ slice_set frames.old.items index (Frame.Rest end count) }
{
    change_within(
        frames,
        index,
        |frame: &mut Frame| frame.count_statements(count),
    )
}

impl Engine {
    /// The value of a variable.
    #[inline(always)]
    pub fn variable(&self, variable: Variable) -> Ref
        ensures value { result ≡ read_variable variable self.now.calls.frames }
        ensures within { (k : Reach) → All (AreVariablesReached k) self.now.calls.frames → IsReached k result }
    {
        self.calls.read(variable)
    }

    /// `self`.
    #[inline(always)]
    pub fn itself(&self) -> Ref
        ensures value { result ≡ (running self.now.calls.frames).itself }
        ensures within { (k : Reach) → All (AreVariablesReached k) self.now.calls.frames → IsReached k result }
    {
        self.calls.running().itself
    }

    /// The integer that a part is, where it is a literal or a variable.
    #[inline(always)]
    pub fn leaf(&self, program: &Program, place: NodeId) -> Option<i64>
        ensures { IfSome result (λ z. leaf_value (tree_at program.now.nodes.items place) self.now.calls.frames ≡ Some (Ref.Int z)) }
    {
        match node_at(program, place) {
            Some(&Node::Int(z)) => Some(z),
            Some(&Node::Local { depth, slot, .. }) => {
                match self.variable(Variable { depth, slot }) {
                    Ref::Int(z) => Some(z),
                    _ => None,
                }
            }
            _ => None,
        }
    }

    /// Three steps at once, where both operands are integers that need no frame.
    #[inline(always)]
    fn visit_leaves(&mut self, program: &Program, op: BinaryOperator, a: NodeId, b: NodeId) -> bool
        requires first { first_tree program.now.nodes.items self.old.control ≡ Some (binary op (tree_at program.now.nodes.items a) (tree_at program.now.nodes.items b)) }
        requires some { 2 < self.old.left }
        requires nested { IsNested (view_of self.old) }
        ensures goes { IsTrue result → (t : Table) (h : Course) → remaining program.now (view_of self.old) t h ≡ remaining program.now (view_of self.new) t h }
        ensures nested { IsNested (view_of self.new) }
        ensures within { (k : Reach) → AreReached k (view_of self.old) → AreReached k (view_of self.new) }
        ensures left { IsTrue result → self.new.left + 3 ≡ self.old.left }
        ensures size { IsTrue result → size (view_of self.new) ≤ size (view_of self.old) + 4 }
        ensures not { IsFalse result → self.new ≡ self.old }
    {
        match (self.leaf(program, a), self.leaf(program, b)) {
            (Some(x), Some(y)) => {
                self.left -= 3;
                self.compute(op, x, y);
                true
            }
            _ => false,
        }
    }

    /// Evaluates a node that needs neither the objects nor memory, which is one step.
    #[inline(always)]
    pub fn visit_one(&mut self, program: &Program, here: NodeId, node: Node) -> bool
        requires control { self.old.control ≡ Control.Enter here }
        requires tree { tree_at program.now.nodes.items here ≡ evaluated_tree program.now.nodes.items node }
        requires evaluated { IsEvaluated node }
        requires some { 0 < self.old.left }
        requires room { length self.old.frames.items < vec_capacity self.old.frames }
        requires nested { IsNested (view_of self.old) }
        ensures goes { IsTrue result → (t : Table) (h : Course) → remaining program.now (view_of self.old) t h ≡ remaining program.now (view_of self.new) t h }
        ensures nested { IsNested (view_of self.new) }
        ensures within { (k : Reach) → AreReached k (view_of self.old) → AreReached k (view_of self.new) }
        ensures left { IsTrue result → self.new.left + 1 ≡ self.old.left }
        ensures size { IsTrue result → size (view_of self.new) ≤ size (view_of self.old) + 4 }
        ensures same { IsFalse result → self.new ≡ self.old }
        ensures rare { IsFalse result → IsRareNode node }
    {
        if self.open(program, here, node) {
            self.left -= 1;
            return true;
        }
        false
    }

    /// Evaluates an operator and its operands: one step, or three where the operands need no frame and the steps do not
    /// stop before.
    #[inline(always)]
    pub fn visit_operation(
        &mut self,
        program: &Program,
        op: BinaryOperator,
        a: NodeId,
        b: NodeId,
        stop: u64,
    )
        requires first { first_tree program.now.nodes.items self.old.control ≡ Some (binary op (tree_at program.now.nodes.items a) (tree_at program.now.nodes.items b)) }
        requires waits { waits self.old.control ≡ 0 }
        requires some { stop < self.old.left }
        requires room { length self.old.frames.items < vec_capacity self.old.frames }
        requires nested { IsNested (view_of self.old) }
        ensures goes { (t : Table) (h : Course) → remaining program.now (view_of self.old) t h ≡ remaining program.now (view_of self.new) t h }
        ensures nested { IsNested (view_of self.new) }
        ensures within { (k : Reach) → AreReached k (view_of self.old) → AreReached k (view_of self.new) }
        ensures left { stop ≤ self.new.left }
        ensures spends { self.new.left < self.old.left }
        ensures falls { power (view_of self.new) + self.old.left ≤ power (view_of self.old) + self.new.left }
    {
        if self.left - stop > 2 && self.visit_leaves(program, op, a, b) {
            return;
        }
        self.enter_above(Frame::Left(op, b), a);
        self.left -= 1;
    }

    /// Evaluates a node that needs the objects or memory, which is one step.
    #[inline(never)]
    pub fn visit_rare(
        &mut self,
        prepared: &Prepared,
        space: &mut Space,
        here: NodeId,
        node: Node,
    ) -> Result<Option<Request>, Fault>
        requires control { self.old.control ≡ Control.Enter here }
        requires tree { tree_at prepared.now.program.nodes.items here ≡ evaluated_tree prepared.now.program.nodes.items node }
        requires evaluated { IsEvaluated node }
        requires rare { IsRareNode node }
        requires some { 0 < self.old.left }
        requires nested { IsNested (view_of self.old) }
        requires within { AreWithin (length space.old.slots) (view_of self.old) }
        ensures goes { IfOk result (λ q. (h : Course) → remaining prepared.now.program (view_of self.old) space.old h ≡ continuing prepared.now.program (view_of self.new) space.new q h self.new.left) }
        ensures nested { IsNested (view_of self.new) }
        ensures within { KeepsReach (view_of self.old) space.old (view_of self.new) space.new }
        ensures read { KeepsRead (view_of self.old) space.old space.new }
        ensures asks { (clusters : Option Below) → AreReached (reach (length space.old.slots) clusters) (view_of self.old) → IfOk result (IsAskedReached (reach (length space.new.slots) clusters)) }
        ensures left { OnOk result (self.new.left + 1 ≡ self.old.left) }
        ensures size { IfOk result (λ q. sized q (view_of self.new) ≤ size (view_of self.old) + 7) }
        ensures err { IfErr result (λ f. Stands (view_of self.old) (view_of self.new) space.old space.new f) }
        ensures limit { space.new.limit ≡ space.old.limit }
        ensures changed { Changes space.old space.new }
        ensures full { IfErr result (λ f. (h : Course) → Adds h.world → Passes f space.old.limit (objects_of (remaining prepared.now.program (view_of self.old) space.old h))) }
    {
        match self.open_rare(prepared, space, node) {
            Ok(request) => {
                self.left -= 1;
                Ok(request)
            }
            Err(fault) => Err(fault),
        }
    }

    /// Takes the topmost frame off the stack, where there is one.
    #[tactic(auto, unfolding(crate::specs::Within::AreReached))]
    #[inline(always)]
    pub fn pop_frame(&mut self, answer: Answer) -> Option<Frame>
        requires control { self.old.control ≡ Control.Give answer }
        requires nested { IsNested (view_of self.old) }
        ensures goes { (p : Program) (t : Table) (h : Course) → MatchOption result (remaining p (view_of self.old) t h ≡ Ended (ended answer) (state_of p (view_of self.new) t h) self.new.left) (λ f. remaining p (view_of self.old) t h ≡ after_answer p (view_of self.new) t f answer h self.new.left) }
        ensures nested { MatchOption result (IsNested (view_of self.new)) (λ f. Nested (reverse self.new.frames.items) (below_of f self.new.held.items)) }
        ensures within { (k : Reach) → AreReached k (view_of self.old) → AreReached k (view_of self.new) }
        ensures frame { (k : Reach) → AreReached k (view_of self.old) → IfSome result (IsFrameReached k) }
        ensures given { (k : Reach) → AreReached k (view_of self.old) → IsAnswerReached k answer }
        ensures base { IfSome result (λ f. base_of f ≤ length self.new.held.items) }
        ensures room { IfSome result (λ _. length self.new.frames.items < vec_capacity self.new.frames) }
        ensures size { IfSome result (λ _. size (view_of self.old) ≡ 3 * length self.new.frames.items + 5 + more_of answer) }
        ensures control { self.new.control ≡ self.old.control }
        ensures left { self.new.left ≡ self.old.left }
    {
        self.frames.pop()
    }

    /// Makes room for one more frame.
    #[tactic(auto, unfolding(crate::specs::Within::AreReached))]
    #[inline(always)]
    pub fn make_room(&mut self) -> Result<(), Fault>
        requires nested { IsNested (view_of self.old) }
        ensures nested { IsNested (view_of self.new) }
        ensures within { (k : Reach) → AreReached k (view_of self.old) → AreReached k (view_of self.new) }
        ensures room { OnOk result (length self.new.frames.items < vec_capacity self.new.frames) }
        ensures control { self.new.control ≡ self.old.control }
        ensures left { self.new.left ≡ self.old.left }
        ensures size { size (view_of self.new) ≡ size (view_of self.old) }
        ensures goes { (p : Program) (t : Table) (h : Course) → remaining p (view_of self.old) t h ≡ remaining p (view_of self.new) t h }
        ensures fault { IfErr result (λ f. f ≡ Fault.Memory) }
    {
        self.frames.reserve(1)?;
        Ok(())
    }

    /// At most `budget` steps: an assignment to an instance variable whose value needs no frame is told apart from all else that stops a
    /// turn. A refused growth leaves what is still to be done as it is, and the next turn goes on there.
    #[tactic(auto, using(crate::proofs::Changing::changes_trans, crate::proofs::Changing::changes_none))]
    #[inline(always)]
    pub fn turn_apart(&mut self, prepared: &Prepared, space: &mut Space, budget: u32) -> TurnedApart
        requires nested { IsNested (view_of self.old) }
        requires within { AreWithin (length space.old.slots) (view_of self.old) }
        ensures nested { IsNested (view_of self.new) }
        ensures within { KeepsReach (view_of self.old) space.old (view_of self.new) space.new }
        ensures read { KeepsRead (view_of self.old) space.old space.new }
        ensures ends_within { (clusters : Option Below) → AreReached (reach (length space.old.slots) clusters) (view_of self.old) → IfOk (turned_of result) (IsTurnReached (reach (length space.new.slots) clusters)) }
        ensures turned { Turned prepared.now.program (view_of self.old) space.old budget (turned_of result) (view_of self.new) space.new }
        ensures falls { 0 < budget → Falls (view_of self.old) (turned_of result) (view_of self.new) }
        ensures limit { space.new.limit ≡ space.old.limit }
        ensures changed { Changes space.old space.new }
        ensures full { IfErr (turned_of result) (λ f. (h : Course) → Adds h.world → Passes f space.old.limit (objects_of (remaining prepared.now.program (view_of self.old) space.old h))) }
    {
        let stop = self.left.saturating_sub(u64::from(budget));
        loop {
            self.act_usual(prepared, space, stop);
            if let Some(assignment) = self.assignment_next(prepared, space, stop) {
                return TurnedApart::Assigns(assignment);
            }
            if let Some(request) = self.ask_often(prepared, space, stop) {
                return TurnedApart::Other(Ok(Turn::Ask(request)));
            }
            if self.may_ask(prepared)
                && let Some(request) = self.ask_rarely(prepared, space, stop)
            {
                return TurnedApart::Other(Ok(Turn::Ask(request)));
            }
            match self.act_any(prepared, space, stop) {
                Ok(None) => {}
                Ok(Some(turn)) => return TurnedApart::Other(Ok(turn)),
                Err(fault) => return TurnedApart::Other(Err(fault)),
            }
        }
    }

    /// At most `budget` steps. A refused growth leaves what is still to be done as it is, and the next turn goes on there.
    #[inline(always)]
    pub fn turn(
        &mut self,
        prepared: &Prepared,
        space: &mut Space,
        budget: u32,
    ) -> Result<Turn, Fault>
        requires nested { IsNested (view_of self.old) }
        requires within { AreWithin (length space.old.slots) (view_of self.old) }
        ensures nested { IsNested (view_of self.new) }
        ensures within { KeepsReach (view_of self.old) space.old (view_of self.new) space.new }
        ensures read { KeepsRead (view_of self.old) space.old space.new }
        ensures ends_within { (clusters : Option Below) → AreReached (reach (length space.old.slots) clusters) (view_of self.old) → IfOk result (IsTurnReached (reach (length space.new.slots) clusters)) }
        ensures turned { Turned prepared.now.program (view_of self.old) space.old budget result (view_of self.new) space.new }
        ensures falls { 0 < budget → Falls (view_of self.old) result (view_of self.new) }
        ensures limit { space.new.limit ≡ space.old.limit }
        ensures changed { Changes space.old space.new }
        ensures full { IfErr result (λ f. (h : Course) → Adds h.world → Passes f space.old.limit (objects_of (remaining prepared.now.program (view_of self.old) space.old h))) }
    {
        match self.turn_apart(prepared, space, budget) {
            TurnedApart::Assigns(assignment) => Ok(Turn::Ask(assignment.request())),
            TurnedApart::Other(turned) => turned,
        }
    }
}
