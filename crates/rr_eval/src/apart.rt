//! Arrays that `puts` and `join` take apart, so that the objects in them are asked by the program's `to_s`.

ghost use Rattle.std.specs.Prelude.{◌≡◌, ◌+◌, ◌*◌, ◌<◌, ◌≤◌, ℕ, [], ◌∷◌, ◌++◌, drop, length, reverse, vec_capacity, Option, IfSome, IfOk, IfErr, OnOk};
ghost use Rattle.std.specs.List.{All};
ghost use Rattle.rr_base.specs.declared.fault.Fault.{Fault};
ghost use Rattle.rr_space.specs.Tables.{Table, Below};
ghost use Rattle.rr_eval.specs.declared.call.Target.{Target};
ghost use Rattle.rr_eval.specs.declared.asking.Saying.{Saying};
ghost use Rattle.rr_eval.specs.declared.leaves.Taking.{Taking};
ghost use Rattle.rr_eval.specs.Frames.{below_of, base_of, stand_of, Nested};
ghost use Rattle.rr_eval.specs.Leaves.{leaves_of, between};
ghost use Rattle.rr_eval.specs.Joins.{separator, joined_by, joined_first};
ghost use Rattle.rr_eval.specs.Requests.{Course};
ghost use Rattle.rr_eval.specs.Rules.{finish};
ghost use Rattle.rr_eval.specs.Speaking.{asked_all};
ghost use Rattle.rr_eval.specs.Splats.{on_items};
ghost use Rattle.rr_eval.specs.Turns.{context_of, IsNested, after_values, continuing, Stands, sized};
ghost use Rattle.rr_eval.specs.Views.{view_of};
ghost use Rattle.rr_eval.specs.Within.{Reach, reach, AreReached, IsReached, IsAskedReached};

use crate::asking::{Asking, Saying};
use crate::blocks::first_value;
use crate::call::Callee;
use crate::engine::Engine;
use crate::frame::{Frame, first_standing, standing};
use crate::leaves::{Taking, between, leaves};
use crate::prepared::Prepared;
use crate::request::Request;
use rr_base::{Fault, Sym};
use rr_builtin::{BuiltInMethod, ContentMethod};
use rr_space::{Kind, Ref, Space};
use std::alloc::{AllocError, Global};
use std::mem;

/// Values, and others behind them.
fn values_with(alloc: Global, values: &[Ref], more: &[Ref]) -> Result<Vec<Ref>, AllocError>
    ensures are { IfOk result (λ all. all.items ≡ values.now ++ more.now) }
{
    let mut all = Vec::from_slice(alloc, values)?;
    all.extend_from_slice(more)?;
    Ok(all)
}

/// What separates the elements of an array that is joined, by the values of the call; nil where nothing does. Other arguments are not
/// taken.
fn separator(space: &Space, values: &[Ref]) -> Option<Ref>
    ensures is { result ≡ separator space.now (drop 1 values.now) }
    ensures within { (k : Reach) → All (IsReached k) values.now → IfSome result (IsReached k) }
{
    match values {
        [] => Some(Ref::Nil),
        [_] => Some(Ref::Nil),
        [_, Ref::Nil] => Some(Ref::Nil),
        [_, text] => {
            if matches!(space.kind_of(*text), Kind::Text) {
                Some(*text)
            } else {
                None
            }
        }
        _ => None,
    }
}

impl Prepared {
    /// The symbol of the method by which the objects in a receiver are asked, where the call joins an array.
    #[inline(always)]
    pub(crate) fn joined_by(&self, space: &Space, receiver: Ref, callee: Callee) -> Option<Sym>
        ensures { result ≡ joined_by (context_of self.now.program) space.now callee receiver }
    {
        if !matches!(space.kind_of(receiver), Kind::Array) {
            return None;
        }
        match self.built_in(callee) {
            Some(BuiltInMethod::Content(ContentMethod::Join)) => self.symbol_asked(Saying::Text),
            _ => None,
        }
    }
}

impl Engine {
    /// Holds other values in the place of those that stand for a frame, asks them one after the other, and does a task with what is printed
    /// for them. A refused growth leaves all as it is.
    #[tactic(auto, unfolding(crate::specs::Within::AreReached))]
    fn ask_instead(
        &mut self,
        prepared: &Prepared,
        space: &Space,
        saying: Saying,
        name: Sym,
        frame: Frame,
        values: &[Ref],
    ) -> Result<Option<Request>, Fault>
        requires room { length self.old.frames.items < vec_capacity self.old.frames }
        requires base { base_of frame ≤ length self.old.held.items }
        requires nested { Nested (reverse self.old.frames.items) (below_of frame self.old.held.items) }
        ensures goes { IfOk result (λ q. (h : Course) (n : ℕ) → after_values prepared.now.program (view_of self.old) space.now frame (asked_all (context_of prepared.now.program) saying name values.now []) h n ≡ continuing prepared.now.program (view_of self.new) space.now q h n) }
        ensures nested { OnOk result (IsNested (view_of self.new)) }
        ensures within { (clusters : Option Below) → AreReached (reach (length space.now.slots) clusters) (view_of self.old) → All (IsReached (reach (length space.now.slots) clusters)) values.now → AreReached (reach (length space.now.slots) clusters) (view_of self.new) }
        ensures asks { (clusters : Option Below) → AreReached (reach (length space.now.slots) clusters) (view_of self.old) → All (IsReached (reach (length space.now.slots) clusters)) values.now → IfOk result (IsAskedReached (reach (length space.now.slots) clusters)) }
        ensures left { self.new.left ≡ self.old.left }
        ensures err { (t : Table) → IfErr result (λ f. Stands (view_of self.old) (view_of self.new) t t f) }
        ensures size { IfOk result (λ q. sized q (view_of self.new) ≤ 3 * length self.old.frames.items + 4) }
        ensures room { IfErr result (λ _. length self.new.frames.items < vec_capacity self.new.frames) }
        ensures fault { IfErr result (λ f. f ≡ Fault.Memory) }
    {
        let base = first_standing(&self.held, frame);
        let held = values_with(self.alloc, &self.held[..base], values)?;
        let count = values.len();
        let before = mem::replace(&mut self.held, held);
        let asking = Asking {
            saying,
            name,
            base,
            count,
            seen: 0,
        };
        match self.ask_on(prepared, space, asking) {
            Ok(request) => Ok(request),
            Err(fault) => {
                self.held = before;
                Err(fault)
            }
        }
    }

    /// Prints values that stand for a frame and one more, each on a line of its own, where arrays are taken apart, and asks what has a
    /// method for it. A refused growth leaves all as it is.
    pub fn ask_lines(
        &mut self,
        prepared: &Prepared,
        space: &Space,
        name: Sym,
        frame: Frame,
        value: Ref,
    ) -> Result<Option<Request>, Fault>
        requires room { length self.old.frames.items < vec_capacity self.old.frames }
        requires base { base_of frame ≤ length self.old.held.items }
        requires nested { Nested (reverse self.old.frames.items) (below_of frame self.old.held.items) }
        ensures goes { IfOk result (λ q. (h : Course) (n : ℕ) → after_values prepared.now.program (view_of self.old) space.now frame (on_items (context_of prepared.now.program) (leaves_of Taking.Lines space.now (stand_of frame self.old.held.items ++ value ∷ [])) (λ ws. asked_all (context_of prepared.now.program) Saying.Puts name ws [])) h n ≡ continuing prepared.now.program (view_of self.new) space.now q h n) }
        ensures nested { OnOk result (IsNested (view_of self.new)) }
        ensures within { (clusters : Option Below) → AreReached (reach (length space.now.slots) clusters) (view_of self.old) → IsReached (reach (length space.now.slots) clusters) value → AreReached (reach (length space.now.slots) clusters) (view_of self.new) }
        ensures asks { (clusters : Option Below) → AreReached (reach (length space.now.slots) clusters) (view_of self.old) → IsReached (reach (length space.now.slots) clusters) value → IfOk result (IsAskedReached (reach (length space.now.slots) clusters)) }
        ensures left { self.new.left ≡ self.old.left }
        ensures err { (t : Table) → IfErr result (λ f. Stands (view_of self.old) (view_of self.new) t t f) }
        ensures size { IfOk result (λ q. sized q (view_of self.new) ≤ 3 * length self.old.frames.items + 4) }
        ensures room { IfErr result (λ _. length self.new.frames.items < vec_capacity self.new.frames) }
        ensures fault { IfErr result (λ f. f ≡ Fault.Memory) }
    {
        let values = values_with(self.alloc, standing(&self.held, frame), &[value])?;
        match leaves(self.alloc, space, Taking::Lines, values.as_slice())? {
            Ok(leaves) => {
                let leaves = leaves.as_slice();
                self.ask_instead(prepared, space, Saying::Puts, name, frame, leaves)
            }
            Err(problem) => {
                self.refuse(frame, problem);
                Ok(None)
            }
        }
    }

    /// Joins an array with a separator, and asks what in it has a method for it. A refused growth leaves all as it is.
    fn ask_joined(
        &mut self,
        prepared: &Prepared,
        space: &Space,
        name: Sym,
        array: Ref,
        separator: Ref,
        frame: Frame,
    ) -> Result<Option<Request>, Fault>
        requires room { length self.old.frames.items < vec_capacity self.old.frames }
        requires base { base_of frame ≤ length self.old.held.items }
        requires nested { Nested (reverse self.old.frames.items) (below_of frame self.old.held.items) }
        ensures goes { IfOk result (λ q. (h : Course) (n : ℕ) → after_values prepared.now.program (view_of self.old) space.now frame (on_items (context_of prepared.now.program) (leaves_of Taking.Joint space.now (array ∷ [])) (λ ws. asked_all (context_of prepared.now.program) Saying.Text name (between separator ws) [])) h n ≡ continuing prepared.now.program (view_of self.new) space.now q h n) }
        ensures nested { OnOk result (IsNested (view_of self.new)) }
        ensures within { (clusters : Option Below) → AreReached (reach (length space.now.slots) clusters) (view_of self.old) → IsReached (reach (length space.now.slots) clusters) array → IsReached (reach (length space.now.slots) clusters) separator → AreReached (reach (length space.now.slots) clusters) (view_of self.new) }
        ensures asks { (clusters : Option Below) → AreReached (reach (length space.now.slots) clusters) (view_of self.old) → IsReached (reach (length space.now.slots) clusters) array → IsReached (reach (length space.now.slots) clusters) separator → IfOk result (IsAskedReached (reach (length space.now.slots) clusters)) }
        ensures left { self.new.left ≡ self.old.left }
        ensures err { (t : Table) → IfErr result (λ f. Stands (view_of self.old) (view_of self.new) t t f) }
        ensures size { IfOk result (λ q. sized q (view_of self.new) ≤ 3 * length self.old.frames.items + 4) }
        ensures room { IfErr result (λ _. length self.new.frames.items < vec_capacity self.new.frames) }
        ensures fault { IfErr result (λ f. f ≡ Fault.Memory) }
    {
        match leaves(self.alloc, space, Taking::Joint, &[array])? {
            Ok(leaves) => {
                let all = between(self.alloc, separator, leaves.as_slice())?;
                self.ask_instead(prepared, space, Saying::Text, name, frame, all.as_slice())
            }
            Err(problem) => {
                self.refuse(frame, problem);
                Ok(None)
            }
        }
    }

    /// Calls `join` of an array, the first of the values that stand for a frame and of one more. A refused growth leaves all as it is.
    fn join_first(
        &mut self,
        prepared: &Prepared,
        space: &Space,
        name: Sym,
        callee: Callee,
        frame: Frame,
        value: Ref,
    ) -> Result<Option<Request>, Fault>
        requires room { length self.old.frames.items < vec_capacity self.old.frames }
        requires base { base_of frame ≤ length self.old.held.items }
        requires nested { Nested (reverse self.old.frames.items) (below_of frame self.old.held.items) }
        ensures goes { IfOk result (λ q. (h : Course) (n : ℕ) → after_values prepared.now.program (view_of self.old) space.now frame (joined_first (context_of prepared.now.program) space.now name callee (stand_of frame self.old.held.items ++ value ∷ [])) h n ≡ continuing prepared.now.program (view_of self.new) space.now q h n) }
        ensures nested { OnOk result (IsNested (view_of self.new)) }
        ensures within { (clusters : Option Below) → AreReached (reach (length space.now.slots) clusters) (view_of self.old) → IsReached (reach (length space.now.slots) clusters) value → AreReached (reach (length space.now.slots) clusters) (view_of self.new) }
        ensures asks { (clusters : Option Below) → AreReached (reach (length space.now.slots) clusters) (view_of self.old) → IsReached (reach (length space.now.slots) clusters) value → IfOk result (IsAskedReached (reach (length space.now.slots) clusters)) }
        ensures left { self.new.left ≡ self.old.left }
        ensures err { (t : Table) → IfErr result (λ f. Stands (view_of self.old) (view_of self.new) t t f) }
        ensures size { IfOk result (λ q. sized q (view_of self.new) ≤ 3 * length self.old.frames.items + 4) }
        ensures room { IfErr result (λ _. length self.new.frames.items < vec_capacity self.new.frames) }
        ensures fault { IfErr result (λ f. f ≡ Fault.Memory) }
    {
        let values = values_with(self.alloc, standing(&self.held, frame), &[value])?;
        match separator(space, values.as_slice()) {
            Some(separator) => {
                let array = first_value(standing(&self.held, frame), Some(value));
                self.ask_joined(prepared, space, name, array, separator, frame)
            }
            None => self.send_first(prepared, space, callee, frame, value),
        }
    }

    /// Calls a method of the first of the values that stand for a frame and of one more, with the others; `join` of an array asks what it
    /// joins. A refused growth leaves all as it is.
    #[inline(always)]
    pub fn call_first(
        &mut self,
        prepared: &Prepared,
        space: &Space,
        callee: Callee,
        frame: Frame,
        value: Ref,
    ) -> Result<Option<Request>, Fault>
        requires room { length self.old.frames.items < vec_capacity self.old.frames }
        requires base { base_of frame ≤ length self.old.held.items }
        requires nested { Nested (reverse self.old.frames.items) (below_of frame self.old.held.items) }
        ensures goes { IfOk result (λ q. (h : Course) (n : ℕ) → after_values prepared.now.program (view_of self.old) space.now frame (finish (context_of prepared.now.program) (Target.Call callee) (stand_of frame self.old.held.items ++ value ∷ [])) h n ≡ continuing prepared.now.program (view_of self.new) space.now q h n) }
        ensures nested { OnOk result (IsNested (view_of self.new)) }
        ensures within { (clusters : Option Below) → AreReached (reach (length space.now.slots) clusters) (view_of self.old) → IsReached (reach (length space.now.slots) clusters) value → AreReached (reach (length space.now.slots) clusters) (view_of self.new) }
        ensures asks { (clusters : Option Below) → AreReached (reach (length space.now.slots) clusters) (view_of self.old) → IsReached (reach (length space.now.slots) clusters) value → IfOk result (IsAskedReached (reach (length space.now.slots) clusters)) }
        ensures left { self.new.left ≡ self.old.left }
        ensures err { (t : Table) → IfErr result (λ f. Stands (view_of self.old) (view_of self.new) t t f) }
        ensures size { IfOk result (λ q. sized q (view_of self.new) ≤ 3 * length self.old.frames.items + 4) }
        ensures room { IfErr result (λ _. length self.new.frames.items < vec_capacity self.new.frames) }
        ensures fault { IfErr result (λ f. f ≡ Fault.Memory) }
    {
        let receiver = first_value(standing(&self.held, frame), Some(value));
        match prepared.joined_by(space, receiver, callee) {
            Some(name) => self.join_first(prepared, space, name, callee, frame, value),
            None => self.send_first(prepared, space, callee, frame, value),
        }
    }
}
