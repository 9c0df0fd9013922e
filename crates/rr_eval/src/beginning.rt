//! Iterations that begin.

ghost use Rattle.std.specs.Prelude.{◌≡◌, ◌+◌, ◌*◌, ◌<◌, ◌≤◌, ℕ, ◌++◌, length, reverse, slice_index_or, take, drop, vec_capacity, Option, None, Ok, Some, IfOk, IfErr, OnOk};
ghost use Rattle.std.specs.List.{All};
ghost use Rattle.std.specs.Option.{option_map};
ghost use Rattle.rr_base.specs.declared.fault.Fault.{Fault};
ghost use Rattle.rr_space.specs.Tables.{Table, Below};
ghost use Rattle.rr_space.specs.declared.refer.Ref.{Ref};
ghost use Rattle.rr_tree.specs.Tree.{tree_at};
ghost use Rattle.rr_eval.specs.declared.frame.Frame.{Frame};
ghost use Rattle.rr_eval.specs.declared.iterating.Visits.{Visits};
ghost use Rattle.rr_eval.specs.Frames.{iterated, Nested};
ghost use Rattle.rr_eval.specs.Iterating.{continued, keys_given, begun_over, begun};
ghost use Rattle.rr_eval.specs.Requests.{Course};
ghost use Rattle.rr_eval.specs.Turns.{context_of, code_of, IsNested, after_values, continuing, Stands, sized};
ghost use Rattle.rr_eval.specs.Views.{view_of};
ghost use Rattle.rr_eval.specs.Within.{Reach, reach, AreReached, IsReached, IsAskedReached};

use crate::engine::Engine;
use crate::frame::{Frame, standing};
use crate::iterating::{Iterating, Visits, value_at};
use crate::pair_turns::keys_given;
use crate::problem::Problem;
use crate::request::Request;
use rr_base::Fault;
use rr_space::{Ref, Space};
use rr_tree::Program;

impl Engine {
    /// Begins an iteration for which more values stand. A refused growth leaves all as it is.
    #[tactic(auto, unfolding(crate::specs::Within::AreReached))]
    fn begin_with(
        &mut self,
        program: &Program,
        space: &Space,
        iteration: Iterating,
        more: &[Ref],
    ) -> Result<Option<Request>, Fault>
        requires room { length self.old.frames.items < vec_capacity self.old.frames }
        requires base { iteration.base ≤ length self.old.held.items }
        requires nested { Nested (reverse self.old.frames.items) (take iteration.base self.old.held.items) }
        ensures goes { IfOk result (λ q. (h : Course) (n : ℕ) → after_values program.now (view_of self.old) space.now (Frame.Turned iteration) (continued (context_of program.now) (iterated (code_of program.now h.world) iteration (drop iteration.base self.old.held.items ++ more.now))) h n ≡ continuing program.now (view_of self.new) space.now q h n) }
        ensures nested { OnOk result (IsNested (view_of self.new)) }
        ensures within { (clusters : Option Below) → AreReached (reach (length space.now.slots) clusters) (view_of self.old) → All (IsReached (reach (length space.now.slots) clusters)) more.now → AreReached (reach (length space.now.slots) clusters) (view_of self.new) }
        ensures pairs { (place : ℕ) → iteration.visits ≡ Visits.Pairs place → IfOk result (λ q. q ≡ None) }
        ensures left { self.new.left ≡ self.old.left }
        ensures err { (t : Table) → IfErr result (λ f. Stands (view_of self.old) (view_of self.new) t t f) }
        ensures size { IfOk result (λ q. sized q (view_of self.new) ≤ 3 * length self.old.frames.items + 4) }
        ensures room { IfErr result (λ _. length self.new.frames.items < vec_capacity self.new.frames) }
        ensures fault { IfErr result (λ f. f ≡ Fault.Memory) }
    {
        let count = self.held.len();
        self.held.extend_from_slice(more)?;
        match self.go_on(program, space, iteration) {
            Ok(request) => Ok(request),
            Err(fault) => {
                self.held.truncate(count);
                Err(fault)
            }
        }
    }

    /// Begins an iteration over a hash, whose keys stand behind it. A refused growth leaves all as it is.
    #[tactic(auto, unfolding(crate::specs::Within::AreReached))]
    fn begin_pairs(
        &mut self,
        program: &Program,
        space: &Space,
        iteration: Iterating,
    ) -> Result<Option<Request>, Fault>
        requires room { length self.old.frames.items < vec_capacity self.old.frames }
        requires base { iteration.base ≤ length self.old.held.items }
        requires nested { Nested (reverse self.old.frames.items) (take iteration.base self.old.held.items) }
        ensures goes { IfOk result (λ q. (h : Course) (n : ℕ) → after_values program.now (view_of self.old) space.now (Frame.Turned iteration) (begun_over (context_of program.now) iteration.visits (tree_at program.now.nodes.items iteration.block) (option_map (λ keys. drop iteration.base self.old.held.items ++ keys) (keys_given space.now (slice_index_or (drop iteration.base self.old.held.items) 0 Ref.Nil)))) h n ≡ continuing program.now (view_of self.new) space.now q h n) }
        ensures nested { OnOk result (IsNested (view_of self.new)) }
        ensures within { (clusters : Option Below) → AreReached (reach (length space.now.slots) clusters) (view_of self.old) → AreReached (reach (length space.now.slots) clusters) (view_of self.new) }
        ensures pairs { (place : ℕ) → iteration.visits ≡ Visits.Pairs place → IfOk result (λ q. q ≡ None) }
        ensures left { self.new.left ≡ self.old.left }
        ensures err { (t : Table) → IfErr result (λ f. Stands (view_of self.old) (view_of self.new) t t f) }
        ensures size { IfOk result (λ q. sized q (view_of self.new) ≤ 3 * length self.old.frames.items + 4) }
        ensures room { IfErr result (λ _. length self.new.frames.items < vec_capacity self.new.frames) }
        ensures fault { IfErr result (λ f. f ≡ Fault.Memory) }
    {
        let hash = value_at(standing(&self.held, Frame::Turned(iteration)), 0);
        match keys_given(self.alloc, space, hash)? {
            Some(keys) => self.begin_with(program, space, iteration, keys.as_slice()),
            None => {
                self.refuse(Frame::Turned(iteration), Problem::NotHere);
                Ok(None)
            }
        }
    }

    /// Begins an iteration with what it visits. A refused growth leaves all as it is.
    pub fn begin_visits(
        &mut self,
        program: &Program,
        space: &Space,
        iteration: Iterating,
    ) -> Result<Option<Request>, Fault>
        requires room { length self.old.frames.items < vec_capacity self.old.frames }
        requires base { iteration.base ≤ length self.old.held.items }
        requires nested { Nested (reverse self.old.frames.items) (take iteration.base self.old.held.items) }
        ensures goes { IfOk result (λ q. (h : Course) (n : ℕ) → after_values program.now (view_of self.old) space.now (Frame.Turned iteration) (begun (context_of program.now) (Ok iteration.visits) (drop iteration.base self.old.held.items) (tree_at program.now.nodes.items iteration.block) space.now) h n ≡ continuing program.now (view_of self.new) space.now q h n) }
        ensures nested { OnOk result (IsNested (view_of self.new)) }
        ensures within { (clusters : Option Below) → AreReached (reach (length space.now.slots) clusters) (view_of self.old) → AreReached (reach (length space.now.slots) clusters) (view_of self.new) }
        ensures asks { (k : Reach) → AreReached k (view_of self.old) → IfOk result (IsAskedReached k) }
        ensures left { self.new.left ≡ self.old.left }
        ensures err { (t : Table) → IfErr result (λ f. Stands (view_of self.old) (view_of self.new) t t f) }
        ensures size { IfOk result (λ q. sized q (view_of self.new) ≤ 3 * length self.old.frames.items + 4) }
        ensures room { IfErr result (λ _. length self.new.frames.items < vec_capacity self.new.frames) }
        ensures fault { IfErr result (λ f. f ≡ Fault.Memory) }
    {
        match iteration.visits {
            Visits::Pairs(_) => self.begin_pairs(program, space, iteration),
            Visits::Times(_) => self.go_on(program, space, iteration),
            Visits::Upto(_) => self.go_on(program, space, iteration),
            Visits::Elements(_, _) => self.go_on(program, space, iteration),
            Visits::Nothing => self.go_on(program, space, iteration),
            Visits::Forever => self.go_on(program, space, iteration),
        }
    }
}
