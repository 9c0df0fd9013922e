//! Calls with arguments and arrays with items, among which splats stand.

ghost use Rattle.std.specs.Prelude.{◌≡◌, ◌+◌, ◌-◌, ◌*◌, ◌<◌, ◌≤◌, ℕ, suc, true, Ok, [], ◌∷◌, ◌++◌, length, reverse, take, drop, vec_capacity, Option, IfOk, IfErr, OnOk};
ghost use Rattle.std.specs.List.{All};
ghost use Rattle.rr_base.specs.declared.fault.Fault.{Fault};
ghost use Rattle.rr_parser.specs.Grammar.Names.{is_splat};
ghost use Rattle.rr_space.specs.Kinds.{kind_at};
ghost use Rattle.rr_space.specs.Tables.{Table, Below};
ghost use Rattle.rr_tree.specs.Nodes.{trees_before};
ghost use Rattle.rr_tree.specs.Tree.{tree_at};
ghost use Rattle.rr_tree.specs.declared.program.Program.{Program};
ghost use Rattle.rr_eval.specs.declared.call.Target.{Target};
ghost use Rattle.rr_eval.specs.declared.frame.Control.{Control};
ghost use Rattle.rr_eval.specs.declared.frame.Frame.{Frame};
ghost use Rattle.rr_eval.specs.declared.problem.Answer.{Answer};
ghost use Rattle.rr_eval.specs.Frames.{Nested};
ghost use Rattle.rr_eval.specs.Requests.{Course};
ghost use Rattle.rr_eval.specs.Rules.{with_value, arguments, finish};
ghost use Rattle.rr_eval.specs.Splats.{splat_items};
ghost use Rattle.rr_eval.specs.Turns.{context_of, IsNested, remaining, remaining_with, after_script, after_answer, after_values, continuing, Stands, size, sized};
ghost use Rattle.rr_eval.specs.Views.{view_of};
ghost use Rattle.rr_eval.specs.Within.{Reach, reach, IsReached, IsAskedReached, AreReached};

use crate::call::{Arguments, Callee, Target};
use crate::engine::{Engine, push_within};
use crate::frame::{Control, Frame};
use crate::nodes::is_splat;
use crate::prepared::Prepared;
use crate::problem::{Answer, Problem};
use crate::request::Request;
use crate::spreading::splat_items;
use rr_base::Fault;
use rr_space::{Ref, Space};
use rr_tree::NodeId;

impl Engine {
    /// Evaluates the receiver of a call, and then its arguments, the last `count` parts before `end`.
    #[tactic(auto, unfolding(crate::specs::Within::AreReached))]
    #[inline(always)]
    pub fn open_receiver(&mut self, callee: Callee, receiver: NodeId, end: NodeId, count: u32)
        requires room { length self.old.frames.items < vec_capacity self.old.frames }
        requires nested { IsNested (view_of self.old) }
        ensures goes { (p : Program) (t : Table) (h : Course) (n : ℕ) → after_script p (view_of self.old) t (with_value (tree_at p.nodes.items receiver) (λ v. arguments (context_of p) (trees_before p.nodes.items end count) (v ∷ []) (finish (context_of p) (Target.Call callee)))) h n ≡ remaining_with p (view_of self.new) t h n }
        ensures nested { IsNested (view_of self.new) }
        ensures within { (k : Reach) → AreReached k (view_of self.old) → AreReached k (view_of self.new) }
        ensures left { self.new.left ≡ self.old.left }
        ensures size { size (view_of self.new) ≤ 3 * length self.old.frames.items + 4 }
    {
        let frame = Frame::Receiver(Target::Call(callee), end, count, self.held.len());
        self.enter_above(frame, receiver);
    }

    /// Keeps a value and evaluates the next part of a list.
    #[tactic(auto, unfolding(crate::specs::Within::AreReached))]
    fn keep_item(
        &mut self,
        target: Target,
        end: NodeId,
        count: u32,
        base: usize,
        value: Ref,
    ) -> Result<Option<Request>, Fault>
        requires room { length self.old.frames.items < vec_capacity self.old.frames }
        requires some { 0 < count }
        requires base { base ≤ length self.old.held.items }
        requires nested { Nested (reverse self.old.frames.items) (take base self.old.held.items) }
        ensures goes { IfOk result (λ q. (p : Program) (t : Table) (h : Course) (n : ℕ) → after_answer p (view_of self.old) t (Frame.Receiver target end count base) (Answer.Gave value) h n ≡ continuing p (view_of self.new) t q h n) }
        ensures nested { OnOk result (IsNested (view_of self.new)) }
        ensures within { (k : Reach) → AreReached k (view_of self.old) → IsReached k value → AreReached k (view_of self.new) }
        ensures asks { (k : Reach) → IfOk result (IsAskedReached k) }
        ensures left { self.new.left ≡ self.old.left }
        ensures err { (t : Table) → IfErr result (λ f. Stands (view_of self.old) (view_of self.new) t t f) }
        ensures size { IfOk result (λ q. sized q (view_of self.new) ≤ 3 * length self.old.frames.items + 4) }
        ensures room { IfErr result (λ _. length self.new.frames.items < vec_capacity self.new.frames) }
        ensures fault { IfErr result (λ f. f ≡ Fault.Memory) }
    {
        self.held.push(value)?;
        push_within(&mut self.frames, Frame::Item(target, end, count - 1, base));
        self.control = Control::Enter(end.saturating_sub(count));
        Ok(None)
    }

    /// Goes on behind the receiver of a call.
    pub fn resume_receiver(
        &mut self,
        prepared: &Prepared,
        space: &Space,
        target: Target,
        end: NodeId,
        count: u32,
        base: usize,
        value: Ref,
    ) -> Result<Option<Request>, Fault>
        requires room { length self.old.frames.items < vec_capacity self.old.frames }
        requires base { base ≤ length self.old.held.items }
        requires nested { Nested (reverse self.old.frames.items) (take base self.old.held.items) }
        ensures goes { IfOk result (λ q. (h : Course) (n : ℕ) → after_answer prepared.now.program (view_of self.old) space.now (Frame.Receiver target end count base) (Answer.Gave value) h n ≡ continuing prepared.now.program (view_of self.new) space.now q h n) }
        ensures nested { OnOk result (IsNested (view_of self.new)) }
        ensures within { (clusters : Option Below) → AreReached (reach (length space.now.slots) clusters) (view_of self.old) → IsReached (reach (length space.now.slots) clusters) value → AreReached (reach (length space.now.slots) clusters) (view_of self.new) }
        ensures asks { (clusters : Option Below) → AreReached (reach (length space.now.slots) clusters) (view_of self.old) → IsReached (reach (length space.now.slots) clusters) value → IfOk result (IsAskedReached (reach (length space.now.slots) clusters)) }
        ensures left { self.new.left ≡ self.old.left }
        ensures err { (t : Table) → IfErr result (λ f. Stands (view_of self.old) (view_of self.new) t t f) }
        ensures size { IfOk result (λ q. sized q (view_of self.new) ≤ 3 * length self.old.frames.items + 4) }
        ensures room { IfErr result (λ _. length self.new.frames.items < vec_capacity self.new.frames) }
        ensures fault { IfErr result (λ f. f ≡ Fault.Memory) }
    {
        match count {
            0 => {
                let frame = Frame::Receiver(target, end, 0, base);
                self.finish(prepared, space, target, frame, value)
            }
            _ => self.keep_item(target, end, count, base, value),
        }
    }

    /// Does what is done with values where there are none, since splats of nil and of empty arrays stand for nothing.
    fn finish_nothing(
        &mut self,
        prepared: &Prepared,
        space: &Space,
        target: Target,
    ) -> Result<Option<Request>, Fault>
        requires room { length self.old.frames.items < vec_capacity self.old.frames }
        requires nested { IsNested (view_of self.old) }
        ensures goes { IfOk result (λ q. (h : Course) (n : ℕ) → after_script prepared.now.program (view_of self.old) space.now (finish (context_of prepared.now.program) target []) h n ≡ continuing prepared.now.program (view_of self.new) space.now q h n) }
        ensures nested { OnOk result (IsNested (view_of self.new)) }
        ensures within { (clusters : Option Below) → AreReached (reach (length space.now.slots) clusters) (view_of self.old) → AreReached (reach (length space.now.slots) clusters) (view_of self.new) }
        ensures asks { (k : Reach) → AreReached k (view_of self.old) → IfOk result (IsAskedReached k) }
        ensures left { self.new.left ≡ self.old.left }
        ensures err { (t : Table) → IfErr result (λ f. Stands (view_of self.old) (view_of self.new) t t f) }
        ensures size { IfOk result (λ q. sized q (view_of self.new) ≤ 3 * length self.old.frames.items + 4) }
        ensures room { IfErr result (λ _. length self.new.frames.items < vec_capacity self.new.frames) }
        ensures fault { IfErr result (λ f. f ≡ Fault.Memory) }
    {
        match target {
            Target::Do(task) => Ok(Some(Request::Do(task, Arguments::Without))),
            Target::Call(_) => {
                self.control = Control::Give(Answer::Gave(Ref::Nil));
                Ok(None)
            }
            Target::Update(_, _, _, _) => {
                self.control = Control::Throw(Problem::NotHere);
                Ok(None)
            }
            Target::Own(name, block) => {
                self.send_itself(prepared, space, name, block, Frame::Not, None)
            }
            Target::Super => self.send_super(prepared, space, Frame::Not, None),
            Target::Yield => {
                match self.yield_values(&prepared.program, space, Frame::Not, None) {
                    Ok(()) => Ok(None),
                    Err(fault) => Err(fault),
                }
            }
            Target::Raise => {
                self.raise_again();
                Ok(None)
            }
            Target::Iterate(_, _) => {
                self.control = Control::Give(Answer::Gave(Ref::Nil));
                Ok(None)
            }
        }
    }

    /// Goes on behind a splat whose items stand behind the values before it.
    fn go_behind(
        &mut self,
        prepared: &Prepared,
        space: &Space,
        target: Target,
        end: NodeId,
        count: u32,
        base: usize,
    ) -> Result<Option<Request>, Fault>
        requires room { length self.old.frames.items < vec_capacity self.old.frames }
        requires base { base ≤ length self.old.held.items }
        requires some { count ≡ 0 → base < length self.old.held.items }
        requires nested { Nested (reverse self.old.frames.items) (take base self.old.held.items) }
        ensures goes { IfOk result (λ q. (h : Course) → after_values prepared.now.program (view_of self.old) space.now (Frame.Receiver target end count base) (arguments (context_of prepared.now.program) (trees_before prepared.now.program.nodes.items end count) (drop base self.old.held.items) (finish (context_of prepared.now.program) target)) h self.old.left ≡ continuing prepared.now.program (view_of self.new) space.now q h self.new.left) }
        ensures nested { IsNested (view_of self.new) }
        ensures within { (clusters : Option Below) → AreReached (reach (length space.now.slots) clusters) (view_of self.old) → AreReached (reach (length space.now.slots) clusters) (view_of self.new) }
        ensures asks { (clusters : Option Below) → AreReached (reach (length space.now.slots) clusters) (view_of self.old) → IfOk result (IsAskedReached (reach (length space.now.slots) clusters)) }
        ensures left { self.new.left ≡ self.old.left }
        ensures size { IfOk result (λ q. sized q (view_of self.new) ≤ 3 * length self.old.frames.items + 4) }
        ensures fault { IfErr result (λ f. f ≡ Fault.Memory) }
        ensures back { IfErr result (λ _. (h : Course) → after_values prepared.now.program (view_of self.old) space.now (Frame.Receiver target end count base) (arguments (context_of prepared.now.program) (trees_before prepared.now.program.nodes.items end count) (drop base self.old.held.items) (finish (context_of prepared.now.program) target)) h self.old.left ≡ remaining prepared.now.program (view_of self.new) space.now h) }
    {
        if count > 0 {
            push_within(&mut self.frames, Frame::Item(target, end, count - 1, base));
            self.control = Control::Enter(end.saturating_sub(count));
            return Ok(None);
        }
        match self.held.pop() {
            Some(last) => {
                self.control = Control::Give(Answer::Gave(last));
                let frame = Frame::Receiver(target, end, 0, base);
                self.resume_other(prepared, space, frame, last)
            }
            None => unreachable!(),
        }
    }

    /// Goes on behind a splat that stands for nothing and is the last part of a list without other values. A refused growth puts the
    /// frame back.
    fn spread_nothing(
        &mut self,
        prepared: &Prepared,
        space: &Space,
        target: Target,
        end: NodeId,
        base: usize,
        value: Ref,
    ) -> Result<Option<Request>, Fault>
        requires splat { is_splat (tree_at prepared.now.program.nodes.items (end - 1)) ≡ true }
        requires items { splat_items (kind_at space.now value) space.now value ≡ Ok [] }
        requires all { length self.old.held.items ≡ base }
        requires control { self.old.control ≡ Control.Give (Answer.Gave value) }
        requires room { length self.old.frames.items < vec_capacity self.old.frames }
        requires base { base ≤ length self.old.held.items }
        requires nested { Nested (reverse self.old.frames.items) (take base self.old.held.items) }
        ensures goes { IfOk result (λ q. (h : Course) → after_answer prepared.now.program (view_of self.old) space.now (Frame.Item target end 0 base) (Answer.Gave value) h self.old.left ≡ continuing prepared.now.program (view_of self.new) space.now q h self.new.left) }
        ensures nested { IsNested (view_of self.new) }
        ensures within { (clusters : Option Below) → AreReached (reach (length space.now.slots) clusters) (view_of self.old) → IsReached (reach (length space.now.slots) clusters) value → AreReached (reach (length space.now.slots) clusters) (view_of self.new) }
        ensures asks { (clusters : Option Below) → AreReached (reach (length space.now.slots) clusters) (view_of self.old) → IsReached (reach (length space.now.slots) clusters) value → IfOk result (IsAskedReached (reach (length space.now.slots) clusters)) }
        ensures left { self.new.left ≡ self.old.left }
        ensures size { IfOk result (λ q. sized q (view_of self.new) ≤ 3 * length self.old.frames.items + 4) }
        ensures fault { IfErr result (λ f. f ≡ Fault.Memory) }
        ensures back { IfErr result (λ _. (h : Course) → after_answer prepared.now.program (view_of self.old) space.now (Frame.Item target end 0 base) (Answer.Gave value) h self.old.left ≡ remaining prepared.now.program (view_of self.new) space.now h) }
    {
        match self.finish_nothing(prepared, space, target) {
            Ok(request) => Ok(request),
            Err(fault) => {
                push_within(&mut self.frames, Frame::Item(target, end, 0, base));
                Err(fault)
            }
        }
    }

    /// Goes on with the items of a splat behind the values before it. A refused growth puts the frame back.
    #[tactic(auto, unfolding(crate::specs::Within::AreReached))]
    fn hold_items(
        &mut self,
        prepared: &Prepared,
        space: &Space,
        target: Target,
        end: NodeId,
        count: u32,
        base: usize,
        value: Ref,
        items: &[Ref],
    ) -> Result<Option<Request>, Fault>
        requires splat { is_splat (tree_at prepared.now.program.nodes.items (end - suc count)) ≡ true }
        requires items { splat_items (kind_at space.now value) space.now value ≡ Ok items.now }
        requires some { count ≡ 0 → base < length self.old.held.items + length items.now }
        requires control { self.old.control ≡ Control.Give (Answer.Gave value) }
        requires room { length self.old.frames.items < vec_capacity self.old.frames }
        requires base { base ≤ length self.old.held.items }
        requires nested { Nested (reverse self.old.frames.items) (take base self.old.held.items) }
        ensures goes { IfOk result (λ q. (h : Course) → after_answer prepared.now.program (view_of self.old) space.now (Frame.Item target end count base) (Answer.Gave value) h self.old.left ≡ continuing prepared.now.program (view_of self.new) space.now q h self.new.left) }
        ensures nested { IsNested (view_of self.new) }
        ensures within { (clusters : Option Below) → AreReached (reach (length space.now.slots) clusters) (view_of self.old) → IsReached (reach (length space.now.slots) clusters) value → All (IsReached (reach (length space.now.slots) clusters)) items.now → AreReached (reach (length space.now.slots) clusters) (view_of self.new) }
        ensures asks { (clusters : Option Below) → AreReached (reach (length space.now.slots) clusters) (view_of self.old) → IsReached (reach (length space.now.slots) clusters) value → All (IsReached (reach (length space.now.slots) clusters)) items.now → IfOk result (IsAskedReached (reach (length space.now.slots) clusters)) }
        ensures left { self.new.left ≡ self.old.left }
        ensures size { IfOk result (λ q. sized q (view_of self.new) ≤ 3 * length self.old.frames.items + 4) }
        ensures fault { IfErr result (λ f. f ≡ Fault.Memory) }
        ensures back { IfErr result (λ _. (h : Course) → after_answer prepared.now.program (view_of self.old) space.now (Frame.Item target end count base) (Answer.Gave value) h self.old.left ≡ remaining prepared.now.program (view_of self.new) space.now h) }
    {
        match self.held.extend_from_slice(items) {
            Ok(()) => self.go_behind(prepared, space, target, end, count, base),
            Err(_) => {
                push_within(&mut self.frames, Frame::Item(target, end, count, base));
                Err(Fault::Memory)
            }
        }
    }

    /// Goes on with the items of a splat. A refused growth leaves what is still to be done as it is.
    fn spread_items(
        &mut self,
        prepared: &Prepared,
        space: &Space,
        target: Target,
        end: NodeId,
        count: u32,
        base: usize,
        value: Ref,
        items: &[Ref],
    ) -> Result<Option<Request>, Fault>
        requires splat { is_splat (tree_at prepared.now.program.nodes.items (end - suc count)) ≡ true }
        requires items { splat_items (kind_at space.now value) space.now value ≡ Ok items.now }
        requires control { self.old.control ≡ Control.Give (Answer.Gave value) }
        requires room { length self.old.frames.items < vec_capacity self.old.frames }
        requires base { base ≤ length self.old.held.items }
        requires nested { Nested (reverse self.old.frames.items) (take base self.old.held.items) }
        ensures goes { IfOk result (λ q. (h : Course) → after_answer prepared.now.program (view_of self.old) space.now (Frame.Item target end count base) (Answer.Gave value) h self.old.left ≡ continuing prepared.now.program (view_of self.new) space.now q h self.new.left) }
        ensures nested { IsNested (view_of self.new) }
        ensures within { (clusters : Option Below) → AreReached (reach (length space.now.slots) clusters) (view_of self.old) → IsReached (reach (length space.now.slots) clusters) value → All (IsReached (reach (length space.now.slots) clusters)) items.now → AreReached (reach (length space.now.slots) clusters) (view_of self.new) }
        ensures asks { (clusters : Option Below) → AreReached (reach (length space.now.slots) clusters) (view_of self.old) → IsReached (reach (length space.now.slots) clusters) value → All (IsReached (reach (length space.now.slots) clusters)) items.now → IfOk result (IsAskedReached (reach (length space.now.slots) clusters)) }
        ensures left { self.new.left ≡ self.old.left }
        ensures size { IfOk result (λ q. sized q (view_of self.new) ≤ 3 * length self.old.frames.items + 4) }
        ensures fault { IfErr result (λ f. f ≡ Fault.Memory) }
        ensures back { IfErr result (λ _. (h : Course) → after_answer prepared.now.program (view_of self.old) space.now (Frame.Item target end count base) (Answer.Gave value) h self.old.left ≡ remaining prepared.now.program (view_of self.new) space.now h) }
    {
        match (count, items) {
            (0, []) if self.held.len() == base => {
                self.spread_nothing(prepared, space, target, end, base, value)
            }
            _ => self.hold_items(prepared, space, target, end, count, base, value, items),
        }
    }

    /// Goes on behind a splat of a value. A refused growth leaves what is still to be done as it is.
    #[tactic(auto, unfolding(crate::specs::Within::AreReached))]
    fn resume_splat(
        &mut self,
        prepared: &Prepared,
        space: &Space,
        target: Target,
        end: NodeId,
        count: u32,
        base: usize,
        value: Ref,
    ) -> Result<Option<Request>, Fault>
        requires splat { is_splat (tree_at prepared.now.program.nodes.items (end - suc count)) ≡ true }
        requires control { self.old.control ≡ Control.Give (Answer.Gave value) }
        requires room { length self.old.frames.items < vec_capacity self.old.frames }
        requires base { base ≤ length self.old.held.items }
        requires nested { Nested (reverse self.old.frames.items) (take base self.old.held.items) }
        ensures goes { IfOk result (λ q. (h : Course) → after_answer prepared.now.program (view_of self.old) space.now (Frame.Item target end count base) (Answer.Gave value) h self.old.left ≡ continuing prepared.now.program (view_of self.new) space.now q h self.new.left) }
        ensures nested { IsNested (view_of self.new) }
        ensures within { (clusters : Option Below) → AreReached (reach (length space.now.slots) clusters) (view_of self.old) → IsReached (reach (length space.now.slots) clusters) value → AreReached (reach (length space.now.slots) clusters) (view_of self.new) }
        ensures asks { (clusters : Option Below) → AreReached (reach (length space.now.slots) clusters) (view_of self.old) → IsReached (reach (length space.now.slots) clusters) value → IfOk result (IsAskedReached (reach (length space.now.slots) clusters)) }
        ensures left { self.new.left ≡ self.old.left }
        ensures size { IfOk result (λ q. sized q (view_of self.new) ≤ 3 * length self.old.frames.items + 4) }
        ensures fault { IfErr result (λ f. f ≡ Fault.Memory) }
        ensures back { IfErr result (λ _. (h : Course) → after_answer prepared.now.program (view_of self.old) space.now (Frame.Item target end count base) (Answer.Gave value) h self.old.left ≡ remaining prepared.now.program (view_of self.new) space.now h) }
    {
        let frame = Frame::Item(target, end, count, base);
        match splat_items(self.alloc, space, value) {
            Ok(Ok(items)) => {
                let items = items.as_slice();
                self.spread_items(prepared, space, target, end, count, base, value, items)
            }
            Ok(Err(problem)) => {
                self.refuse(frame, problem);
                Ok(None)
            }
            Err(_) => {
                push_within(&mut self.frames, frame);
                Err(Fault::Memory)
            }
        }
    }

    /// Goes on behind a part of a list, which may be a splat. A refused growth leaves what is still to be done as it is.
    pub fn resume_item(
        &mut self,
        prepared: &Prepared,
        space: &Space,
        target: Target,
        end: NodeId,
        count: u32,
        base: usize,
        value: Ref,
    ) -> Result<Option<Request>, Fault>
        requires control { self.old.control ≡ Control.Give (Answer.Gave value) }
        requires room { length self.old.frames.items < vec_capacity self.old.frames }
        requires base { base ≤ length self.old.held.items }
        requires nested { Nested (reverse self.old.frames.items) (take base self.old.held.items) }
        ensures goes { IfOk result (λ q. (h : Course) → after_answer prepared.now.program (view_of self.old) space.now (Frame.Item target end count base) (Answer.Gave value) h self.old.left ≡ continuing prepared.now.program (view_of self.new) space.now q h self.new.left) }
        ensures nested { IsNested (view_of self.new) }
        ensures within { (clusters : Option Below) → AreReached (reach (length space.now.slots) clusters) (view_of self.old) → IsReached (reach (length space.now.slots) clusters) value → AreReached (reach (length space.now.slots) clusters) (view_of self.new) }
        ensures asks { (clusters : Option Below) → AreReached (reach (length space.now.slots) clusters) (view_of self.old) → IsReached (reach (length space.now.slots) clusters) value → IfOk result (IsAskedReached (reach (length space.now.slots) clusters)) }
        ensures left { self.new.left ≡ self.old.left }
        ensures size { IfOk result (λ q. sized q (view_of self.new) ≤ 3 * length self.old.frames.items + 4) }
        ensures fault { IfErr result (λ f. f ≡ Fault.Memory) }
        ensures back { IfErr result (λ _. (h : Course) → after_answer prepared.now.program (view_of self.old) space.now (Frame.Item target end count base) (Answer.Gave value) h self.old.left ≡ remaining prepared.now.program (view_of self.new) space.now h) }
    {
        let part = end.saturating_sub(count).saturating_sub(1);
        if is_splat(&prepared.program, part) {
            self.resume_splat(prepared, space, target, end, count, base, value)
        } else {
            let frame = Frame::Receiver(target, end, count, base);
            self.resume_other(prepared, space, frame, value)
        }
    }
}
