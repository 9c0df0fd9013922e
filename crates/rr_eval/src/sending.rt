//! Calls of a receiver: of a method of the program, or of a built-in one.

ghost use Rattle.std.specs.Prelude.{◌≡◌, ◌+◌, ◌*◌, ◌<◌, ◌≤◌, ℕ, [], ◌∷◌, ◌++◌, length, reverse, vec_capacity, Option, IfOk, IfErr, OnOk};
ghost use Rattle.rr_eval.specs.Prepared.{way_in};
ghost use Rattle.std.specs.List.{All};
ghost use Rattle.std.specs.Option.{option_map};
ghost use Rattle.rr_base.specs.declared.fault.Fault.{Fault};
ghost use Rattle.rr_frames.specs.Frames.{list_of};
ghost use Rattle.rr_space.specs.Tables.{Table, Below};
ghost use Rattle.rr_tree.specs.Tree.{tree_at};
ghost use Rattle.rr_tree.specs.declared.program.Program.{Program};
ghost use Rattle.rr_eval.specs.declared.call.Target.{Target};
ghost use Rattle.rr_eval.specs.Dispatch.{passed_on, handed_by, last_of, value_of_call, way_of, made_rule, dispatched};
ghost use Rattle.rr_eval.specs.Rules.{operation, negation, finish, send_to, send_rule};
ghost use Rattle.rr_eval.specs.Updating.{sent_first};
ghost use Rattle.rr_eval.specs.Requests.{Course};
ghost use Rattle.rr_eval.specs.Frames.{below_of, base_of, stand_of, Nested};
ghost use Rattle.rr_eval.specs.Turns.{context_of, IsNested, after_script, after_values, continuing, Stands, sized, remaining_with, size};
ghost use Rattle.rr_eval.specs.Views.{view_of};
ghost use Rattle.rr_eval.specs.Within.{Reach, reach, IsReached, IsAskedReached, AreReached, IsWayReached, IsCallValueReached};

use crate::blocks::first_value;
use crate::call::{Callee, Passing, call_of, passed};
use crate::call_stack::{CallValue, Handed};
use crate::engine::{Engine, push_within};
use crate::frame::{Control, Frame, Making, clear, first_standing, standing};
use crate::invoke::Way;
use crate::operator::opposite;
use crate::prepared::Prepared;
use crate::request::Request;
use rr_base::{ClassId, Fault, Sym};
use rr_space::{Ref, Space};
use rr_tree::{BinaryOperator, NodeId};
use std::alloc::AllocError;

/// The block that stands beside a call, where there is one.
pub fn handed_by(block: Option<NodeId>) -> Handed
    ensures { (p : Program) → result ≡ handed_by (option_map (tree_at p.nodes.items) block) }
{
    match block {
        Some(_) => Handed::Beside,
        None => Handed::Nothing,
    }
}

/// The last of these values and one more; nil where there is none.
pub fn last_of(values: &[Ref], last: Option<Ref>) -> Ref
    ensures is { result ≡ last_of (values.now ++ list_of last) }
    ensures within { (k : Reach) → All (IsReached k) values.now → All (IsReached k) (list_of last) → IsReached k result }
{
    match last {
        Some(value) => value,
        None => match values {
            [] => Ref::Nil,
            [.., value] => *value,
        },
    }
}

/// What the value of a call is, by what is called and its arguments.
fn value_of_call(callee: Callee, values: &[Ref], last: Option<Ref>) -> CallValue
    ensures is { result ≡ value_of_call callee (values.now ++ list_of last) }
    ensures within { (k : Reach) → All (IsReached k) values.now → All (IsReached k) (list_of last) → IsCallValueReached k result }
{
    match callee {
        Callee::SetIndex | Callee::Setter(_) => CallValue::Other(last_of(values, last)),
        Callee::Operator(BinaryOperator::NotEqual) => CallValue::Opposite,
        _ => CallValue::Method,
    }
}

/// How a method of the program is called, by the call.
fn way_of(
    callee: Callee,
    block: Option<NodeId>,
    receiver: Ref,
    passing: Passing,
    values: &[Ref],
    last: Option<Ref>,
) -> Way
    ensures is { (p : Program) → way_in p.nodes.items result ≡ way_of callee (option_map (tree_at p.nodes.items) block) receiver (passed_on passing (values.now ++ list_of last)) }
    ensures within { (k : Reach) → IsReached k receiver → All (IsReached k) values.now → All (IsReached k) (list_of last) → IsWayReached k result }
{
    let (values, last) = passed(passing, values, last);
    Way {
        receiver,
        handed: handed_by(block),
        block,
        value: value_of_call(callee, values, last),
    }
}

/// Holds a value more, where there is one.
fn hold_last(held: &mut Vec<Ref>, last: Option<Ref>) -> Result<(), AllocError>
    ensures held { OnOk result (held.new.items ≡ held.old.items ++ list_of last) }
    ensures kept { IfErr result (λ _. held.new.items ≡ held.old.items) }
{
    match last {
        Some(value) => {
            held.push(value)?;
            Ok(())
        }
        None => Ok(()),
    }
}

impl Engine {
    /// Asks for a call of a built-in method of a receiver, with the arguments among the values that stand for a frame and one more.
    #[tactic(auto, unfolding(crate::specs::Within::AreReached))]
    #[inline(always)]
    pub fn ask_method(
        &mut self,
        receiver: Ref,
        callee: Callee,
        passing: Passing,
        frame: Frame,
        last: Option<Ref>,
    ) -> Result<Option<Request>, Fault>
        requires room { length self.old.frames.items < vec_capacity self.old.frames }
        requires base { base_of frame ≤ length self.old.held.items }
        requires nested { Nested (reverse self.old.frames.items) (below_of frame self.old.held.items) }
        ensures goes { IfOk result (λ q. (p : Program) (t : Table) (h : Course) (n : ℕ) → after_values p (view_of self.old) t frame (send_to (context_of p) callee receiver (passed_on passing (stand_of frame self.old.held.items ++ list_of last))) h n ≡ continuing p (view_of self.new) t q h n) }
        ensures nested { OnOk result (IsNested (view_of self.new)) }
        ensures within { (k : Reach) → AreReached k (view_of self.old) → AreReached k (view_of self.new) }
        ensures asks { (k : Reach) → AreReached k (view_of self.old) → IsReached k receiver → All (IsReached k) (list_of last) → IfOk result (IsAskedReached k) }
        ensures left { self.new.left ≡ self.old.left }
        ensures err { (t : Table) → IfErr result (λ f. Stands (view_of self.old) (view_of self.new) t t f) }
        ensures size { IfOk result (λ q. sized q (view_of self.new) ≤ 3 * length self.old.frames.items + 4) }
        ensures room { IfErr result (λ _. length self.new.frames.items < vec_capacity self.new.frames) }
        ensures fault { IfErr result (λ f. f ≡ Fault.Memory) }
    {
        let stand = standing(&self.held, frame);
        let call = call_of(self.alloc, receiver, callee, passing, stand, last)?;
        clear(&mut self.held, frame);
        Ok(Some(Request::Call(call)))
    }

    /// Begins to make a new object of a class, which gets the program's `initialize`, and is raised then or given.
    #[tactic(auto, unfolding(crate::specs::Within::AreReached))]
    pub fn begin_new(
        &mut self,
        class: ClassId,
        cause: Ref,
        raises: bool,
        passing: Passing,
        block: Option<NodeId>,
        frame: Frame,
        last: Option<Ref>,
    ) -> Result<(), Fault>
        requires room { length self.old.frames.items < vec_capacity self.old.frames }
        requires base { base_of frame ≤ length self.old.held.items }
        requires nested { Nested (reverse self.old.frames.items) (below_of frame self.old.held.items) }
        ensures goes { OnOk result ((p : Program) (t : Table) (h : Course) (n : ℕ) → after_values p (view_of self.old) t frame (made_rule (context_of p) class cause raises (option_map (tree_at p.nodes.items) block) (passed_on passing (stand_of frame self.old.held.items ++ list_of last))) h n ≡ remaining_with p (view_of self.new) t h n) }
        ensures within { (k : Reach) → AreReached k (view_of self.old) → IsReached k cause → All (IsReached k) (list_of last) → AreReached k (view_of self.new) }
        ensures nested { OnOk result (IsNested (view_of self.new)) }
        ensures left { self.new.left ≡ self.old.left }
        ensures err { (t : Table) → IfErr result (λ f. Stands (view_of self.old) (view_of self.new) t t f) }
        ensures size { OnOk result (size (view_of self.new) ≤ 3 * length self.old.frames.items + 4) }
        ensures room { IfErr result (λ _. length self.new.frames.items < vec_capacity self.new.frames) }
        ensures fault { IfErr result (λ f. f ≡ Fault.Memory) }
    {
        let base = first_standing(&self.held, frame);
        hold_last(&mut self.held, last)?;
        push_within(
            &mut self.frames,
            Frame::Initialize(Making {
                class,
                block,
                passing,
                base,
                raises,
            }),
        );
        self.control = Control::New(class, cause);
        Ok(())
    }

    /// Calls a built-in method of a receiver; a new object gets the program's `initialize`, where there is one.
    #[tactic(auto, unfolding(crate::specs::Within::AreReached))]
    #[inline(always)]
    pub fn send_built_in(
        &mut self,
        prepared: &Prepared,
        space: &Space,
        receiver: Ref,
        callee: Callee,
        passing: Passing,
        block: Option<NodeId>,
        frame: Frame,
        last: Option<Ref>,
    ) -> Result<Option<Request>, Fault>
        requires room { length self.old.frames.items < vec_capacity self.old.frames }
        requires base { base_of frame ≤ length self.old.held.items }
        requires nested { Nested (reverse self.old.frames.items) (below_of frame self.old.held.items) }
        ensures goes { IfOk result (λ q. (h : Course) (n : ℕ) → after_values prepared.now.program (view_of self.old) space.now frame (dispatched (context_of prepared.now.program) None callee (option_map (tree_at prepared.now.program.nodes.items) block) receiver (passed_on passing (stand_of frame self.old.held.items ++ list_of last))) h n ≡ continuing prepared.now.program (view_of self.new) space.now q h n) }
        ensures within { (k : Reach) → AreReached k (view_of self.old) → All (IsReached k) (list_of last) → AreReached k (view_of self.new) }
        ensures asks { (k : Reach) → AreReached k (view_of self.old) → IsReached k receiver → All (IsReached k) (list_of last) → IfOk result (IsAskedReached k) }
        ensures nested { OnOk result (IsNested (view_of self.new)) }
        ensures left { self.new.left ≡ self.old.left }
        ensures err { (t : Table) → IfErr result (λ f. Stands (view_of self.old) (view_of self.new) t t f) }
        ensures size { IfOk result (λ q. sized q (view_of self.new) ≤ 3 * length self.old.frames.items + 4) }
        ensures room { IfErr result (λ _. length self.new.frames.items < vec_capacity self.new.frames) }
        ensures fault { IfErr result (λ f. f ≡ Fault.Memory) }
    {
        match (prepared.made_by(receiver, callee), block) {
            (Some(class), _) => {
                self.begin_new(class, Ref::Nil, false, passing, block, frame, last)?;
                Ok(None)
            }
            (None, None) => self.ask_method(receiver, callee, passing, frame, last),
            (None, Some(block)) => {
                self.send_with_block(
                    prepared, space, receiver, callee, passing, block, frame, last,
                );
                Ok(None)
            }
        }
    }

    /// Calls a method of a receiver, with the arguments among the values that stand for a frame and one more, and with a block, where
    /// it is given one: the program's, or else a built-in one. A refused growth leaves all as it is.
    pub fn send(
        &mut self,
        prepared: &Prepared,
        space: &Space,
        receiver: Ref,
        callee: Callee,
        passing: Passing,
        block: Option<NodeId>,
        frame: Frame,
        last: Option<Ref>,
    ) -> Result<Option<Request>, Fault>
        requires room { length self.old.frames.items < vec_capacity self.old.frames }
        requires base { base_of frame ≤ length self.old.held.items }
        requires nested { Nested (reverse self.old.frames.items) (below_of frame self.old.held.items) }
        ensures goes { IfOk result (λ q. (h : Course) (n : ℕ) → after_values prepared.now.program (view_of self.old) space.now frame (send_rule (context_of prepared.now.program) callee (option_map (tree_at prepared.now.program.nodes.items) block) receiver (passed_on passing (stand_of frame self.old.held.items ++ list_of last))) h n ≡ continuing prepared.now.program (view_of self.new) space.now q h n) }
        ensures within { (clusters : Option Below) → AreReached (reach (length space.now.slots) clusters) (view_of self.old) → IsReached (reach (length space.now.slots) clusters) receiver → All (IsReached (reach (length space.now.slots) clusters)) (list_of last) → AreReached (reach (length space.now.slots) clusters) (view_of self.new) }
        ensures asks { (k : Reach) → AreReached k (view_of self.old) → IsReached k receiver → All (IsReached k) (list_of last) → IfOk result (IsAskedReached k) }
        ensures nested { OnOk result (IsNested (view_of self.new)) }
        ensures left { self.new.left ≡ self.old.left }
        ensures err { (t : Table) → IfErr result (λ f. Stands (view_of self.old) (view_of self.new) t t f) }
        ensures size { IfOk result (λ q. sized q (view_of self.new) ≤ 3 * length self.old.frames.items + 4) }
        ensures room { IfErr result (λ _. length self.new.frames.items < vec_capacity self.new.frames) }
        ensures fault { IfErr result (λ f. f ≡ Fault.Memory) }
    {
        match prepared.method_for(space, receiver, callee) {
            Some(definition) => {
                let stand = standing(&self.held, frame);
                let way = way_of(callee, block, receiver, passing, stand, last);
                self.run_method(space, definition, way, passing, frame, last)
            }
            None => {
                self.send_built_in(
                    prepared, space, receiver, callee, passing, block, frame, last,
                )
            }
        }
    }

    /// Does what an operator does with two values: with integers here, and with others as a call.
    pub fn operate(
        &mut self,
        prepared: &Prepared,
        space: &Space,
        op: BinaryOperator,
        left: Ref,
        right: Ref,
    ) -> Result<Option<Request>, Fault>
        requires room { length self.old.frames.items < vec_capacity self.old.frames }
        requires nested { IsNested (view_of self.old) }
        ensures goes { IfOk result (λ q. (h : Course) (n : ℕ) → after_script prepared.now.program (view_of self.old) space.now (operation (context_of prepared.now.program) op left right) h n ≡ continuing prepared.now.program (view_of self.new) space.now q h n) }
        ensures within { (clusters : Option Below) → AreReached (reach (length space.now.slots) clusters) (view_of self.old) → IsReached (reach (length space.now.slots) clusters) left → IsReached (reach (length space.now.slots) clusters) right → AreReached (reach (length space.now.slots) clusters) (view_of self.new) }
        ensures asks { (k : Reach) → AreReached k (view_of self.old) → IsReached k left → IsReached k right → IfOk result (IsAskedReached k) }
        ensures nested { OnOk result (IsNested (view_of self.new)) }
        ensures left { self.new.left ≡ self.old.left }
        ensures err { (t : Table) → IfErr result (λ f. Stands (view_of self.old) (view_of self.new) t t f) }
        ensures size { IfOk result (λ q. sized q (view_of self.new) ≤ 3 * length self.old.frames.items + 4) }
        ensures room { IfErr result (λ _. length self.new.frames.items < vec_capacity self.new.frames) }
        ensures fault { IfErr result (λ f. f ≡ Fault.Memory) }
    {
        match (left, right) {
            (Ref::Int(x), Ref::Int(y)) => {
                self.compute(op, x, y);
                Ok(None)
            }
            _ => {
                let callee = Callee::Operator(op);
                let frame = Frame::Right(op, left);
                self.send(
                    prepared,
                    space,
                    left,
                    callee,
                    Passing::All,
                    None,
                    frame,
                    Some(right),
                )
            }
        }
    }

    /// Does what unary minus does with a value.
    pub fn negate(
        &mut self,
        prepared: &Prepared,
        space: &Space,
        value: Ref,
    ) -> Result<Option<Request>, Fault>
        requires room { length self.old.frames.items < vec_capacity self.old.frames }
        requires nested { IsNested (view_of self.old) }
        ensures goes { IfOk result (λ q. (h : Course) (n : ℕ) → after_script prepared.now.program (view_of self.old) space.now (negation (context_of prepared.now.program) value) h n ≡ continuing prepared.now.program (view_of self.new) space.now q h n) }
        ensures within { (clusters : Option Below) → AreReached (reach (length space.now.slots) clusters) (view_of self.old) → IsReached (reach (length space.now.slots) clusters) value → AreReached (reach (length space.now.slots) clusters) (view_of self.new) }
        ensures asks { (k : Reach) → AreReached k (view_of self.old) → IsReached k value → IfOk result (IsAskedReached k) }
        ensures nested { OnOk result (IsNested (view_of self.new)) }
        ensures left { self.new.left ≡ self.old.left }
        ensures err { (t : Table) → IfErr result (λ f. Stands (view_of self.old) (view_of self.new) t t f) }
        ensures size { IfOk result (λ q. sized q (view_of self.new) ≤ 3 * length self.old.frames.items + 4) }
        ensures room { IfErr result (λ _. length self.new.frames.items < vec_capacity self.new.frames) }
        ensures fault { IfErr result (λ f. f ≡ Fault.Memory) }
    {
        match value {
            Ref::Int(x) => {
                self.settle(opposite(x));
                Ok(None)
            }
            _ => {
                let callee = Callee::Opposite;
                let frame = Frame::Negation;
                self.send(
                    prepared,
                    space,
                    value,
                    callee,
                    Passing::All,
                    None,
                    frame,
                    None,
                )
            }
        }
    }

    /// Calls a method of the first of the values that stand for a frame and of one more, with the others.
    pub fn send_first(
        &mut self,
        prepared: &Prepared,
        space: &Space,
        callee: Callee,
        frame: Frame,
        value: Ref,
    ) -> Result<Option<Request>, Fault>
        requires room { length self.old.frames.items < vec_capacity self.old.frames }
        requires base { base_of frame ≤ length self.old.held.items }
        requires nested { Nested (reverse self.old.frames.items) (below_of frame self.old.held.items) }
        ensures goes { IfOk result (λ q. (h : Course) (n : ℕ) → after_values prepared.now.program (view_of self.old) space.now frame (sent_first (context_of prepared.now.program) callee (stand_of frame self.old.held.items ++ value ∷ [])) h n ≡ continuing prepared.now.program (view_of self.new) space.now q h n) }
        ensures within { (clusters : Option Below) → AreReached (reach (length space.now.slots) clusters) (view_of self.old) → IsReached (reach (length space.now.slots) clusters) value → AreReached (reach (length space.now.slots) clusters) (view_of self.new) }
        ensures asks { (k : Reach) → AreReached k (view_of self.old) → IsReached k value → IfOk result (IsAskedReached k) }
        ensures nested { OnOk result (IsNested (view_of self.new)) }
        ensures left { self.new.left ≡ self.old.left }
        ensures err { (t : Table) → IfErr result (λ f. Stands (view_of self.old) (view_of self.new) t t f) }
        ensures size { IfOk result (λ q. sized q (view_of self.new) ≤ 3 * length self.old.frames.items + 4) }
        ensures room { IfErr result (λ _. length self.new.frames.items < vec_capacity self.new.frames) }
        ensures fault { IfErr result (λ f. f ≡ Fault.Memory) }
    {
        let receiver = first_value(standing(&self.held, frame), Some(value));
        let passing = Passing::BehindReceiver;
        self.send(
            prepared,
            space,
            receiver,
            callee,
            passing,
            None,
            frame,
            Some(value),
        )
    }

    /// Calls a name on `self`, with the values that stand for a frame and one more.
    pub fn send_itself(
        &mut self,
        prepared: &Prepared,
        space: &Space,
        name: Sym,
        block: Option<NodeId>,
        frame: Frame,
        last: Option<Ref>,
    ) -> Result<Option<Request>, Fault>
        requires room { length self.old.frames.items < vec_capacity self.old.frames }
        requires base { base_of frame ≤ length self.old.held.items }
        requires nested { Nested (reverse self.old.frames.items) (below_of frame self.old.held.items) }
        ensures goes { IfOk result (λ q. (h : Course) (n : ℕ) → after_values prepared.now.program (view_of self.old) space.now frame (finish (context_of prepared.now.program) (Target.Own name block) (stand_of frame self.old.held.items ++ list_of last)) h n ≡ continuing prepared.now.program (view_of self.new) space.now q h n) }
        ensures within { (clusters : Option Below) → AreReached (reach (length space.now.slots) clusters) (view_of self.old) → All (IsReached (reach (length space.now.slots) clusters)) (list_of last) → AreReached (reach (length space.now.slots) clusters) (view_of self.new) }
        ensures asks { (k : Reach) → AreReached k (view_of self.old) → All (IsReached k) (list_of last) → IfOk result (IsAskedReached k) }
        ensures nested { OnOk result (IsNested (view_of self.new)) }
        ensures left { self.new.left ≡ self.old.left }
        ensures err { (t : Table) → IfErr result (λ f. Stands (view_of self.old) (view_of self.new) t t f) }
        ensures size { IfOk result (λ q. sized q (view_of self.new) ≤ 3 * length self.old.frames.items + 4) }
        ensures room { IfErr result (λ _. length self.new.frames.items < vec_capacity self.new.frames) }
        ensures fault { IfErr result (λ f. f ≡ Fault.Memory) }
    {
        let receiver = self.itself();
        let callee = Callee::Name(name);
        self.send(
            prepared,
            space,
            receiver,
            callee,
            Passing::All,
            block,
            frame,
            last,
        )
    }

    /// Calls a name of the first of the values that stand for a frame and of one more, with the others and a block: a method of the
    /// program, or an iteration.
    pub fn send_block(
        &mut self,
        prepared: &Prepared,
        space: &Space,
        name: Sym,
        block: NodeId,
        frame: Frame,
        value: Ref,
    ) -> Result<Option<Request>, Fault>
        requires room { length self.old.frames.items < vec_capacity self.old.frames }
        requires base { base_of frame ≤ length self.old.held.items }
        requires nested { Nested (reverse self.old.frames.items) (below_of frame self.old.held.items) }
        ensures goes { IfOk result (λ q. (h : Course) (n : ℕ) → after_values prepared.now.program (view_of self.old) space.now frame (finish (context_of prepared.now.program) (Target.Iterate name block) (stand_of frame self.old.held.items ++ value ∷ [])) h n ≡ continuing prepared.now.program (view_of self.new) space.now q h n) }
        ensures within { (clusters : Option Below) → AreReached (reach (length space.now.slots) clusters) (view_of self.old) → IsReached (reach (length space.now.slots) clusters) value → AreReached (reach (length space.now.slots) clusters) (view_of self.new) }
        ensures asks { (k : Reach) → AreReached k (view_of self.old) → IsReached k value → IfOk result (IsAskedReached k) }
        ensures nested { OnOk result (IsNested (view_of self.new)) }
        ensures left { self.new.left ≡ self.old.left }
        ensures err { (t : Table) → IfErr result (λ f. Stands (view_of self.old) (view_of self.new) t t f) }
        ensures size { IfOk result (λ q. sized q (view_of self.new) ≤ 3 * length self.old.frames.items + 4) }
        ensures room { IfErr result (λ _. length self.new.frames.items < vec_capacity self.new.frames) }
        ensures fault { IfErr result (λ f. f ≡ Fault.Memory) }
    {
        let receiver = first_value(standing(&self.held, frame), Some(value));
        let callee = Callee::Name(name);
        match (
            prepared.method_for(space, receiver, callee),
            prepared.iteration(name),
        ) {
            (None, Some(_)) => self.iterate(prepared, space, name, block, frame, value),
            _ => {
                let passing = Passing::BehindReceiver;
                let block = Some(block);
                self.send(
                    prepared,
                    space,
                    receiver,
                    callee,
                    passing,
                    block,
                    frame,
                    Some(value),
                )
            }
        }
    }
}
