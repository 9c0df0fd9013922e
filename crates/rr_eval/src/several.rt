//! Assignments to several targets.

ghost use Rattle.std.specs.Prelude.{◌≡◌, ◌+◌, ◌-◌, ◌*◌, ◌<◌, ◌≤◌, ◌∷◌, ◌++◌, ℕ, List, length, reverse, take, drop, slice_index_or, vec_capacity, Option, None, IfOk, IfErr, IfSome, OnOk};
ghost use Rattle.std.specs.List.{All};
ghost use Rattle.std.specs.Option.{option_map};
ghost use Rattle.rr_base.specs.declared.fault.Fault.{Fault};
ghost use Rattle.rr_space.specs.Tables.{Table, Below};
ghost use Rattle.rr_space.specs.declared.refer.Ref.{Ref};
ghost use Rattle.rr_tree.specs.Nodes.{trees_before};
ghost use Rattle.rr_tree.specs.Tree.{tree_at};
ghost use Rattle.rr_eval.specs.declared.frame.Frame.{Frame};
ghost use Rattle.rr_eval.specs.declared.problem.Answer.{Answer};
ghost use Rattle.rr_eval.specs.Basics.{variable_of};
ghost use Rattle.rr_eval.specs.Frames.{runs_in, Nested, option_trees};
ghost use Rattle.rr_eval.specs.Requests.{Course};
ghost use Rattle.rr_eval.specs.Rules.{values, with_value};
ghost use Rattle.rr_eval.specs.Script.{State, World};
ghost use Rattle.rr_eval.specs.Several.{right_values, all_parts, assign_each, several, several_rule};
ghost use Rattle.rr_eval.specs.Turns.{context_of, code_of, IsNested, after_script, after_answer, after_values, remaining_with, Stands, size};
ghost use Rattle.rr_eval.specs.Views.{view_of};
ghost use Rattle.rr_eval.specs.Within.{Reach, reach, IsReached, AreReached, AreVariablesReached};

use crate::call_stack::CallStack;
use crate::engine::{Engine, push_within};
use crate::frame::{Control, Frame, standing};
use crate::iterating::value_at;
use crate::problem::Problem;
use crate::spot::{Aiming, Assigning, first_part, next_value, parts_left, spot_of};
use crate::spreading::spread;
use crate::update::variable_of;
use rr_base::Fault;
use rr_space::{Kind, Ref, Space};
use rr_tree::{NodeId, Program};
use std::alloc::{AllocError, Global};

/// What the right side gives to the targets, where no published element that is not known is among it.
pub fn right_values(
    alloc: Global,
    space: &Space,
    value: Ref,
) -> Result<Option<Vec<Ref>>, AllocError>
    ensures are { IfOk result (λ values. option_map (λ vs. vs.items) values ≡ right_values space.now value) }
    ensures within { (clusters : Option Below) → IsReached (reach (length space.now.slots) clusters) value → IfOk result (λ values. IfSome values (λ vs. All (IsReached (reach (length space.now.slots) clusters)) vs.items)) }
{
    if matches!(space.kind_of(value), Kind::Array) {
        return spread(alloc, space, value, space.arity(value));
    }
    let mut values = Vec::new(alloc);
    values.push(value)?;
    Ok(Some(values))
}

/// Holds the value of the right side, and what it gives to the targets.
fn hold_right(held: &mut Vec<Ref>, right: Ref, values: &[Ref]) -> Result<(), AllocError>
    ensures held { OnOk result (held.new.items ≡ held.old.items ++ right ∷ values.now) }
    ensures kept { IfErr result (λ _. held.new.items ≡ held.old.items) }
{
    let before = held.len();
    held.push(right)?;
    match held.extend_from_slice(values) {
        Ok(()) => Ok(()),
        Err(error) => {
            held.truncate(before);
            Err(error)
        }
    }
}

/// Gives the last `count` targets before `end` the values from a place on, from left to right, up to one that is no variable: how many
/// are left, and the place of the next value.
pub fn assign_variables(
    calls: &mut CallStack,
    program: &Program,
    end: NodeId,
    count: u32,
    stand: &[Ref],
    first: usize,
) -> (u32, usize)
    ensures goes { (w : World) (ps : List Ref) (right : Ref) (s : State) (n : ℕ) → runs_in (code_of program.now w) (assign_each (context_of program.now) (trees_before program.now.nodes.items end count) ps (drop first stand.now) right) (record s { memory = record s.memory { calls = calls.old } }) n ≡ runs_in (code_of program.now w) (assign_each (context_of program.now) (trees_before program.now.nodes.items end result.0) ps (drop result.1 stand.now) right) (record s { memory = record s.memory { calls = calls.new } }) n }
    ensures fewer { result.0 ≤ count }
    ensures other { 0 < result.0 → variable_of (tree_at program.now.nodes.items (end - result.0)) ≡ None }
    ensures within { (k : Reach) → All (IsReached k) stand.now → All (AreVariablesReached k) calls.old.frames → All (AreVariablesReached k) calls.new.frames }
{
    let mut left = count;
    let mut place = first;
    while left > 0 {
        match variable_of(program, end.saturating_sub(left)) {
            Some(variable) => {
                let (value, behind) = next_value(stand, place);
                calls.write(variable, value);
                place = behind;
            }
            None => return (left, place),
        }
        left -= 1;
    }
    (0, place)
}

impl Engine {
    /// Evaluates an assignment to the last `count` targets before `end`: their parts first, and then the right side.
    #[tactic(auto, unfolding(crate::specs::Within::AreReached))]
    pub fn open_several(&mut self, program: &Program, end: NodeId, count: u32, value: NodeId)
        requires room { length self.old.frames.items < vec_capacity self.old.frames }
        requires nested { IsNested (view_of self.old) }
        ensures goes { (t : Table) (h : Course) (n : ℕ) → after_script program.now (view_of self.old) t (several_rule (context_of program.now) (trees_before program.now.nodes.items end count) (tree_at program.now.nodes.items value)) h n ≡ remaining_with program.now (view_of self.new) t h n }
        ensures nested { IsNested (view_of self.new) }
        ensures within { (k : Reach) → AreReached k (view_of self.old) → AreReached k (view_of self.new) }
        ensures left { self.new.left ≡ self.old.left }
        ensures size { size (view_of self.new) ≤ 3 * length self.old.frames.items + 4 }
    {
        let base = self.held.len();
        match first_part(program, end, count) {
            Some(part) => {
                let aiming = Aiming {
                    index: part.index,
                    left: part.left,
                    end,
                    count,
                    value,
                    base,
                };
                self.enter_above(Frame::Aim(aiming), part.receiver);
            }
            None => self.enter_above(Frame::Several(end, count, base), value),
        }
    }

    /// Evaluates the part of a target that comes next, or else the right side.
    #[tactic(auto, unfolding(crate::specs::Within::AreReached))]
    fn aim(&mut self, program: &Program, aiming: Aiming)
        requires room { length self.old.frames.items < vec_capacity self.old.frames }
        requires base { aiming.base ≤ length self.old.held.items }
        requires nested { Nested (reverse self.old.frames.items) (take aiming.base self.old.held.items) }
        ensures goes { (t : Table) (h : Course) (n : ℕ) → after_values program.now (view_of self.old) t (Frame.Aim aiming) (values (all_parts (trees_before program.now.nodes.items aiming.end aiming.left)) (drop aiming.base self.old.held.items) (λ ps. with_value (tree_at program.now.nodes.items aiming.value) (several (context_of program.now) (trees_before program.now.nodes.items aiming.end aiming.count) ps))) h n ≡ remaining_with program.now (view_of self.new) t h n }
        ensures nested { IsNested (view_of self.new) }
        ensures within { (k : Reach) → AreReached k (view_of self.old) → AreReached k (view_of self.new) }
        ensures left { self.new.left ≡ self.old.left }
        ensures size { size (view_of self.new) ≤ 3 * length self.old.frames.items + 4 }
    {
        match first_part(program, aiming.end, aiming.left) {
            Some(part) => {
                let next = Aiming {
                    index: part.index,
                    left: part.left,
                    end: aiming.end,
                    count: aiming.count,
                    value: aiming.value,
                    base: aiming.base,
                };
                self.enter_over(Frame::Aim(next), part.receiver);
            }
            None => {
                let frame = Frame::Several(aiming.end, aiming.count, aiming.base);
                self.enter_over(frame, aiming.value);
            }
        }
    }

    /// Evaluates the index of a target, where it comes next, or else what comes behind the target.
    #[tactic(auto, unfolding(crate::specs::Within::AreReached))]
    fn aim_on(&mut self, program: &Program, aiming: Aiming)
        requires room { length self.old.frames.items < vec_capacity self.old.frames }
        requires base { aiming.base ≤ length self.old.held.items }
        requires nested { Nested (reverse self.old.frames.items) (take aiming.base self.old.held.items) }
        ensures goes { (t : Table) (h : Course) (n : ℕ) → after_values program.now (view_of self.old) t (Frame.Aim aiming) (values (option_trees program.now.nodes.items aiming.index ++ all_parts (trees_before program.now.nodes.items aiming.end aiming.left)) (drop aiming.base self.old.held.items) (λ ps. with_value (tree_at program.now.nodes.items aiming.value) (several (context_of program.now) (trees_before program.now.nodes.items aiming.end aiming.count) ps))) h n ≡ remaining_with program.now (view_of self.new) t h n }
        ensures nested { IsNested (view_of self.new) }
        ensures within { (k : Reach) → AreReached k (view_of self.old) → AreReached k (view_of self.new) }
        ensures left { self.new.left ≡ self.old.left }
        ensures size { size (view_of self.new) ≤ 3 * length self.old.frames.items + 4 }
    {
        match aiming.index {
            Some(index) => {
                let next = Aiming {
                    index: None,
                    left: aiming.left,
                    end: aiming.end,
                    count: aiming.count,
                    value: aiming.value,
                    base: aiming.base,
                };
                self.enter_over(Frame::Aim(next), index);
            }
            None => self.aim(program, aiming),
        }
    }

    /// Keeps the value of a part of a target and evaluates what comes next. A refused growth leaves all as it is.
    #[tactic(auto, unfolding(crate::specs::Within::AreReached))]
    pub fn resume_aim(&mut self, program: &Program, aiming: Aiming, value: Ref) -> Result<(), Fault>
        requires room { length self.old.frames.items < vec_capacity self.old.frames }
        requires base { aiming.base ≤ length self.old.held.items }
        requires nested { Nested (reverse self.old.frames.items) (take aiming.base self.old.held.items) }
        ensures goes { OnOk result ((t : Table) (h : Course) (n : ℕ) → after_answer program.now (view_of self.old) t (Frame.Aim aiming) (Answer.Gave value) h n ≡ remaining_with program.now (view_of self.new) t h n) }
        ensures nested { OnOk result (IsNested (view_of self.new)) }
        ensures within { (k : Reach) → AreReached k (view_of self.old) → IsReached k value → AreReached k (view_of self.new) }
        ensures left { self.new.left ≡ self.old.left }
        ensures err { (t : Table) → IfErr result (λ f. Stands (view_of self.old) (view_of self.new) t t f) }
        ensures size { OnOk result (size (view_of self.new) ≤ 3 * length self.old.frames.items + 4) }
        ensures room { IfErr result (λ _. length self.new.frames.items < vec_capacity self.new.frames) }
        ensures fault { IfErr result (λ f. f ≡ Fault.Memory) }
    {
        self.held.push(value)?;
        self.aim_on(program, aiming);
        Ok(())
    }

    /// Goes on with a target that is no variable, which is a step.
    #[tactic(auto, unfolding(crate::specs::Within::AreReached))]
    fn assign_spot(&mut self, program: &Program, assigning: Assigning)
        requires some { 0 < assigning.left }
        requires other { variable_of (tree_at program.now.nodes.items (assigning.end - assigning.left)) ≡ None }
        requires room { length self.old.frames.items < vec_capacity self.old.frames }
        requires base { assigning.base + assigning.parts ≤ length self.old.held.items }
        requires nested { Nested (reverse self.old.frames.items) (take assigning.base self.old.held.items) }
        ensures goes { (t : Table) (h : Course) (n : ℕ) → after_values program.now (view_of self.old) t (Frame.Assigned assigning) (assign_each (context_of program.now) (trees_before program.now.nodes.items assigning.end assigning.left) (drop assigning.used (take assigning.parts (drop assigning.base self.old.held.items))) (drop assigning.place (drop assigning.base self.old.held.items)) (slice_index_or (drop assigning.base self.old.held.items) assigning.parts Ref.Nil)) h n ≡ remaining_with program.now (view_of self.new) t h n }
        ensures nested { IsNested (view_of self.new) }
        ensures within { (k : Reach) → AreReached k (view_of self.old) → AreReached k (view_of self.new) }
        ensures left { self.new.left ≡ self.old.left }
        ensures size { size (view_of self.new) ≤ 3 * length self.old.frames.items + 4 }
    {
        let stand = standing(&self.held, Frame::Assigned(assigning));
        let parts = parts_left(stand, assigning.parts, assigning.used);
        let target = assigning.end.saturating_sub(assigning.left);
        let (value, place) = next_value(stand, assigning.place);
        match spot_of(program, target, parts) {
            Some((spot, own)) => {
                let next = Assigning {
                    end: assigning.end,
                    left: assigning.left - 1,
                    base: assigning.base,
                    parts: assigning.parts,
                    used: assigning.used + own,
                    place,
                };
                push_within(&mut self.frames, Frame::Assigned(next));
                self.control = Control::Assign(spot, value);
            }
            None => self.refuse(Frame::Assigned(assigning), Problem::NotHere),
        }
    }

    /// Gives targets their values, up to one that is a step.
    #[tactic(auto, unfolding(crate::specs::Within::AreReached))]
    pub fn assign_next(&mut self, program: &Program, assigning: Assigning)
        requires room { length self.old.frames.items < vec_capacity self.old.frames }
        requires base { assigning.base + assigning.parts ≤ length self.old.held.items }
        requires nested { Nested (reverse self.old.frames.items) (take assigning.base self.old.held.items) }
        ensures goes { (t : Table) (h : Course) (n : ℕ) → after_values program.now (view_of self.old) t (Frame.Assigned assigning) (assign_each (context_of program.now) (trees_before program.now.nodes.items assigning.end assigning.left) (drop assigning.used (take assigning.parts (drop assigning.base self.old.held.items))) (drop assigning.place (drop assigning.base self.old.held.items)) (slice_index_or (drop assigning.base self.old.held.items) assigning.parts Ref.Nil)) h n ≡ remaining_with program.now (view_of self.new) t h n }
        ensures nested { IsNested (view_of self.new) }
        ensures within { (k : Reach) → AreReached k (view_of self.old) → AreReached k (view_of self.new) }
        ensures left { self.new.left ≡ self.old.left }
        ensures size { size (view_of self.new) ≤ 3 * length self.old.frames.items + 4 }
    {
        let stand = standing(&self.held, Frame::Assigned(assigning));
        let right = value_at(stand, assigning.parts);
        let (left, place) = assign_variables(
            &mut self.calls,
            program,
            assigning.end,
            assigning.left,
            stand,
            assigning.place,
        );
        if left == 0 {
            self.give_over(Frame::Assigned(assigning), right);
            return;
        }
        let rest = Assigning {
            end: assigning.end,
            left,
            base: assigning.base,
            parts: assigning.parts,
            used: assigning.used,
            place,
        };
        self.assign_spot(program, rest);
    }

    /// Gives the last `count` targets before `end` what the right side has for them, over the values of their parts. A refused growth
    /// leaves all as it is.
    #[tactic(auto, unfolding(crate::specs::Within::AreReached))]
    pub fn resume_several(
        &mut self,
        program: &Program,
        space: &Space,
        end: NodeId,
        count: u32,
        base: usize,
        value: Ref,
    ) -> Result<(), Fault>
        requires room { length self.old.frames.items < vec_capacity self.old.frames }
        requires base { base ≤ length self.old.held.items }
        requires nested { Nested (reverse self.old.frames.items) (take base self.old.held.items) }
        ensures goes { OnOk result ((h : Course) (n : ℕ) → after_answer program.now (view_of self.old) space.now (Frame.Several end count base) (Answer.Gave value) h n ≡ remaining_with program.now (view_of self.new) space.now h n) }
        ensures nested { OnOk result (IsNested (view_of self.new)) }
        ensures within { (clusters : Option Below) → AreReached (reach (length space.now.slots) clusters) (view_of self.old) → IsReached (reach (length space.now.slots) clusters) value → AreReached (reach (length space.now.slots) clusters) (view_of self.new) }
        ensures left { self.new.left ≡ self.old.left }
        ensures err { (t : Table) → IfErr result (λ f. Stands (view_of self.old) (view_of self.new) t t f) }
        ensures size { OnOk result (size (view_of self.new) ≤ 3 * length self.old.frames.items + 4) }
        ensures room { IfErr result (λ _. length self.new.frames.items < vec_capacity self.new.frames) }
        ensures fault { IfErr result (λ f. f ≡ Fault.Memory) }
    {
        let Some(values) = right_values(self.alloc, space, value)? else {
            self.refuse(Frame::Several(end, count, base), Problem::NotHere);
            return Ok(());
        };
        let parts = self.held.len() - base;
        hold_right(&mut self.held, value, values.as_slice())?;
        let assigning = Assigning {
            end,
            left: count,
            base,
            parts,
            used: 0,
            place: parts + 1,
        };
        self.assign_next(program, assigning);
        Ok(())
    }
}
