//! Calls of built-in methods whose values need no frame: they are asked for at once, in front of acts of any kind.

ghost use Rattle.std.specs.Prelude.{◌≡◌, ◌+◌, ◌*◌, ◌<◌, ◌≤◌, List, [], ◌∷◌, length, Option, None, IfSome, IfNone, IsTrue};
ghost use Rattle.std.specs.List.{All};
ghost use Rattle.rr_space.specs.Tables.{Table, Below};
ghost use Rattle.rr_frames.specs.Frames.{list_of};
ghost use Rattle.rr_tree.specs.Nodes.{trees_before};
ghost use Rattle.rr_tree.specs.Tree.{tree_at, binary};
ghost use Rattle.rr_tree.specs.declared.node.Node.{Node as Nodes};
ghost use Rattle.rr_eval.specs.Nodes.{evaluated_tree};
ghost use Rattle.rr_tree.specs.declared.program.Program.{Program};
ghost use Rattle.rr_eval.specs.declared.call.Callee.{Callee as Called};
ghost use Rattle.rr_eval.specs.declared.call.Target.{Target};
ghost use Rattle.rr_eval.specs.declared.frame.Control.{Control};
ghost use Rattle.rr_eval.specs.Context.{Context};
ghost use Rattle.rr_eval.specs.Dispatch.{part_called, send_rule};
ghost use Rattle.rr_eval.specs.Fields.{set_field_rule};
ghost use Rattle.rr_eval.specs.Requests.{Course, arguments_of, asked_of};
ghost use Rattle.rr_eval.specs.Rules.{rule, with_value, values, arguments, finish};
ghost use Rattle.rr_eval.specs.Script.{Calls};
ghost use Rattle.rr_eval.specs.Turns.{context_of, IsNested, remaining, asking_then, power, sized};
ghost use Rattle.rr_eval.specs.Usual.{ComesTo, IsAskedFor, TakesTwo};
ghost use Rattle.rr_eval.specs.Views.{view_of};
ghost use Rattle.rr_eval.specs.Within.{Reach, reach, IsReached, IsRequestReached, AreReached};

use crate::call::{Arguments, Call, Callee, Target};
use crate::engine::Engine;
use crate::prepared::Prepared;
use crate::request::Request;
use rr_base::Sym;
use rr_space::{Ref, Space};
use rr_tree::{BinaryOperator, Node, NodeId};

/// Whether a part of a rule that calls this is a call of any receiver: no operator is, since integers have their own.
#[inline(always)]
fn is_sent(callee: Callee) -> bool
    ensures { IsTrue result → (c : Context) (v : Ref) (vs : List Ref) → part_called c callee v vs ≡ send_rule c callee None v vs }
{
    match callee {
        Callee::Index => true,
        Callee::Name(_) => true,
        _ => false,
    }
}

/// The arguments of a call with one or none.
#[inline(always)]
fn one_or_none(argument: Option<Ref>) -> Arguments
    ensures { arguments_of result ≡ list_of argument }
{
    match argument {
        Some(value) => Arguments::One(value),
        None => Arguments::Without,
    }
}

impl Prepared {
    /// Whether a call of a receiver is asked of the environment as it stands: it runs no method of the program, joins no array, and makes
    /// no object that the program initializes.
    #[inline(always)]
    pub(crate) fn is_asked_for(&self, space: &Space, receiver: Ref, callee: Callee) -> bool
        ensures { IsTrue result → IsAskedFor (context_of self.now.program) space.now callee receiver }
    {
        // Most programs have no method that an index or a push would call.
        if self.has_name(callee) && self.method_for(space, receiver, callee).is_some() {
            return false;
        }
        if self.joined_by(space, receiver, callee).is_some() {
            return false;
        }
        self.made_by(receiver, callee).is_none()
    }
}

impl Engine {
    /// Asks for a call with these values: the steps of the parts are spent, and that of the node.
    #[tactic(auto, unfolding(crate::specs::Within::AreReached))]
    #[inline(always)]
    fn ask_with(
        &mut self,
        here: NodeId,
        callee: Callee,
        receiver: Ref,
        arguments: Arguments,
        steps: u64,
    ) -> Request
        requires control { self.old.control ≡ Control.Enter here }
        requires enough { steps < self.old.left }
        requires nested { IsNested (view_of self.old) }
        ensures goes { (p : Program) (t : Table) → ComesTo p (view_of self.old) t (rule (context_of p) (tree_at p.nodes.items here)) steps (finish (context_of p) (Target.Call callee) (receiver ∷ arguments_of arguments)) → IsAskedFor (context_of p) t callee receiver
            → (h : Course) → remaining p (view_of self.old) t h ≡ asking_then p (view_of self.new) t (asked_of t result) h }
        ensures nested { IsNested (view_of self.new) }
        ensures within { (k : Reach) → AreReached k (view_of self.old) → AreReached k (view_of self.new) }
        ensures asks { (k : Reach) → IsReached k receiver → All (IsReached k) (arguments_of arguments) → IsRequestReached k result }
        ensures left { self.new.left + steps + 1 ≡ self.old.left }
        ensures falls { 9 * self.new.left + sized (Option.Some result) (view_of self.new) < power (view_of self.old) }
    {
        self.left = self.left - steps - 1;
        Request::Call(Call {
            receiver,
            callee,
            arguments,
        })
    }

    /// Asks for a call without arguments.
    #[inline(always)]
    fn ask_bare(
        &mut self,
        prepared: &Prepared,
        space: &Space,
        here: NodeId,
        callee: Callee,
        receiver: NodeId,
        stop: u64,
    ) -> Option<Request>
        requires control { self.old.control ≡ Control.Enter here }
        requires script { rule (context_of prepared.now.program) (tree_at prepared.now.program.nodes.items here) ≡ with_value (tree_at prepared.now.program.nodes.items receiver) (λ v. finish (context_of prepared.now.program) (Target.Call callee) (v ∷ [])) }
        requires some { stop < self.old.left }
        requires nested { IsNested (view_of self.old) }
        ensures goes { IfSome result (λ q. (h : Course) → remaining prepared.now.program (view_of self.old) space.now h ≡ asking_then prepared.now.program (view_of self.new) space.now (asked_of space.now q) h) }
        ensures nested { IsNested (view_of self.new) }
        ensures within { (clusters : Option Below) → AreReached (reach (length space.now.slots) clusters) (view_of self.old) → AreReached (reach (length space.now.slots) clusters) (view_of self.new) }
        ensures asks { (clusters : Option Below) → AreReached (reach (length space.now.slots) clusters) (view_of self.old) → IfSome result (IsRequestReached (reach (length space.now.slots) clusters)) }
        ensures left { stop ≤ self.new.left }
        ensures falls { IfSome result (λ q. 9 * self.new.left + sized (Option.Some q) (view_of self.new) < power (view_of self.old)) }
        ensures none { IfNone result (view_of self.new ≡ view_of self.old) }
    {
        let Some(found) = self.quick_before(prepared, space, receiver, stop) else {
            return None;
        };
        if !prepared.is_asked_for(space, found.value, callee) {
            return None;
        }
        Some(self.ask_with(here, callee, found.value, Arguments::Without, found.steps))
    }

    /// Asks for a call with one argument that is not spread.
    #[inline(always)]
    fn ask_pair(
        &mut self,
        prepared: &Prepared,
        space: &Space,
        here: NodeId,
        callee: Callee,
        receiver: NodeId,
        argument: NodeId,
        stop: u64,
    ) -> Option<Request>
        requires control { self.old.control ≡ Control.Enter here }
        requires script { TakesTwo prepared.now.program (rule (context_of prepared.now.program) (tree_at prepared.now.program.nodes.items here)) (tree_at prepared.now.program.nodes.items receiver) (tree_at prepared.now.program.nodes.items argument) (λ v w. finish (context_of prepared.now.program) (Target.Call callee) (v ∷ w ∷ [])) }
        requires some { stop < self.old.left }
        requires nested { IsNested (view_of self.old) }
        ensures goes { IfSome result (λ q. (h : Course) → remaining prepared.now.program (view_of self.old) space.now h ≡ asking_then prepared.now.program (view_of self.new) space.now (asked_of space.now q) h) }
        ensures nested { IsNested (view_of self.new) }
        ensures within { (clusters : Option Below) → AreReached (reach (length space.now.slots) clusters) (view_of self.old) → AreReached (reach (length space.now.slots) clusters) (view_of self.new) }
        ensures asks { (clusters : Option Below) → AreReached (reach (length space.now.slots) clusters) (view_of self.old) → IfSome result (IsRequestReached (reach (length space.now.slots) clusters)) }
        ensures left { stop ≤ self.new.left }
        ensures falls { IfSome result (λ q. 9 * self.new.left + sized (Option.Some q) (view_of self.new) < power (view_of self.old)) }
        ensures none { IfNone result (view_of self.new ≡ view_of self.old) }
    {
        let Some(found) = self.quick_before(prepared, space, receiver, stop) else {
            return None;
        };
        if !prepared.is_asked_for(space, found.value, callee) {
            return None;
        }
        let before = self.steps_together(stop, found.steps);
        let Some(last) = self.quick_before(prepared, space, argument, before) else {
            return None;
        };
        let steps = self.steps_together(found.steps, last.steps);
        let arguments = Arguments::One(last.value);
        Some(self.ask_with(here, callee, found.value, arguments, steps))
    }

    /// Asks for an assignment to an element.
    #[inline(always)]
    fn ask_element(
        &mut self,
        prepared: &Prepared,
        space: &Space,
        here: NodeId,
        receiver: NodeId,
        index: NodeId,
        value: NodeId,
        stop: u64,
    ) -> Option<Request>
        requires control { self.old.control ≡ Control.Enter here }
        requires script { rule (context_of prepared.now.program) (tree_at prepared.now.program.nodes.items here) ≡ values (tree_at prepared.now.program.nodes.items receiver ∷ tree_at prepared.now.program.nodes.items index ∷ tree_at prepared.now.program.nodes.items value ∷ []) [] (finish (context_of prepared.now.program) (Target.Call Called.SetIndex)) }
        requires some { stop < self.old.left }
        requires nested { IsNested (view_of self.old) }
        ensures goes { IfSome result (λ q. (h : Course) → remaining prepared.now.program (view_of self.old) space.now h ≡ asking_then prepared.now.program (view_of self.new) space.now (asked_of space.now q) h) }
        ensures nested { IsNested (view_of self.new) }
        ensures within { (clusters : Option Below) → AreReached (reach (length space.now.slots) clusters) (view_of self.old) → AreReached (reach (length space.now.slots) clusters) (view_of self.new) }
        ensures asks { (clusters : Option Below) → AreReached (reach (length space.now.slots) clusters) (view_of self.old) → IfSome result (IsRequestReached (reach (length space.now.slots) clusters)) }
        ensures left { stop ≤ self.new.left }
        ensures falls { IfSome result (λ q. 9 * self.new.left + sized (Option.Some q) (view_of self.new) < power (view_of self.old)) }
        ensures none { IfNone result (view_of self.new ≡ view_of self.old) }
    {
        let Some(found) = self.quick_before(prepared, space, receiver, stop) else {
            return None;
        };
        let callee = Callee::SetIndex;
        if !prepared.is_asked_for(space, found.value, callee) {
            return None;
        }
        let before = self.steps_together(stop, found.steps);
        let Some(at) = self.quick_before(prepared, space, index, before) else {
            return None;
        };
        let some = self.steps_together(found.steps, at.steps);
        let before = self.steps_together(stop, some);
        let Some(last) = self.quick_before(prepared, space, value, before) else {
            return None;
        };
        let steps = self.steps_together(some, last.steps);
        let arguments = Arguments::Two(at.value, last.value);
        Some(self.ask_with(here, callee, found.value, arguments, steps))
    }

    /// Asks for a call of a receiver by a name, with one argument or none.
    #[inline(always)]
    fn ask_name(
        &mut self,
        prepared: &Prepared,
        space: &Space,
        here: NodeId,
        name: Sym,
        receiver: NodeId,
        first: NodeId,
        count: u32,
        stop: u64,
    ) -> Option<Request>
        requires control { self.old.control ≡ Control.Enter here }
        requires script { rule (context_of prepared.now.program) (tree_at prepared.now.program.nodes.items here) ≡ with_value (tree_at prepared.now.program.nodes.items receiver) (λ v. arguments (context_of prepared.now.program) (trees_before prepared.now.program.nodes.items (first + count) count) (v ∷ []) (finish (context_of prepared.now.program) (Target.Call (Called.Name name)))) }
        requires some { stop < self.old.left }
        requires nested { IsNested (view_of self.old) }
        ensures goes { IfSome result (λ q. (h : Course) → remaining prepared.now.program (view_of self.old) space.now h ≡ asking_then prepared.now.program (view_of self.new) space.now (asked_of space.now q) h) }
        ensures nested { IsNested (view_of self.new) }
        ensures within { (clusters : Option Below) → AreReached (reach (length space.now.slots) clusters) (view_of self.old) → AreReached (reach (length space.now.slots) clusters) (view_of self.new) }
        ensures asks { (clusters : Option Below) → AreReached (reach (length space.now.slots) clusters) (view_of self.old) → IfSome result (IsRequestReached (reach (length space.now.slots) clusters)) }
        ensures left { stop ≤ self.new.left }
        ensures falls { IfSome result (λ q. 9 * self.new.left + sized (Option.Some q) (view_of self.new) < power (view_of self.old)) }
        ensures none { IfNone result (view_of self.new ≡ view_of self.old) }
    {
        let callee = Callee::Name(name);
        match count {
            0 => self.ask_bare(prepared, space, here, callee, receiver, stop),
            1 => self.ask_pair(prepared, space, here, callee, receiver, first, stop),
            _ => None,
        }
    }

    /// Asks for a call that comes next: by it an element or an attribute is read that is then assigned to.
    #[inline(always)]
    pub fn ask_sent(
        &mut self,
        prepared: &Prepared,
        space: &Space,
        callee: Callee,
        receiver: Ref,
        argument: Option<Ref>,
        stop: u64,
    ) -> Option<Request>
        requires control { self.old.control ≡ Control.Send callee receiver argument }
        requires stop { stop ≤ self.old.left }
        requires nested { IsNested (view_of self.old) }
        ensures goes { IfSome result (λ q. (h : Course) → remaining prepared.now.program (view_of self.old) space.now h ≡ asking_then prepared.now.program (view_of self.new) space.now (asked_of space.now q) h) }
        ensures nested { IsNested (view_of self.new) }
        ensures within { (clusters : Option Below) → AreReached (reach (length space.now.slots) clusters) (view_of self.old) → AreReached (reach (length space.now.slots) clusters) (view_of self.new) }
        ensures asks { (clusters : Option Below) → AreReached (reach (length space.now.slots) clusters) (view_of self.old) → IfSome result (IsRequestReached (reach (length space.now.slots) clusters)) }
        ensures left { stop ≤ self.new.left }
        ensures falls { IfSome result (λ q. 9 * self.new.left + sized (Option.Some q) (view_of self.new) < power (view_of self.old)) }
        ensures none { IfNone result (view_of self.new ≡ view_of self.old) }
    {
        if self.left <= stop {
            return None;
        }
        if !is_sent(callee) {
            return None;
        }
        if !prepared.is_asked_for(space, receiver, callee) {
            return None;
        }
        self.left -= 1;
        Some(Request::Call(Call {
            receiver,
            callee,
            arguments: one_or_none(argument),
        }))
    }

    /// Asks for a call of a built-in method, where a node is one whose parts need no frame, and the steps do not stop before.
    #[inline(always)]
    pub fn ask_call(
        &mut self,
        prepared: &Prepared,
        space: &Space,
        here: NodeId,
        stop: u64,
    ) -> Option<Request>
        requires control { self.old.control ≡ Control.Enter here }
        requires stop { stop ≤ self.old.left }
        requires nested { IsNested (view_of self.old) }
        ensures goes { IfSome result (λ q. (h : Course) → remaining prepared.now.program (view_of self.old) space.now h ≡ asking_then prepared.now.program (view_of self.new) space.now (asked_of space.now q) h) }
        ensures nested { IsNested (view_of self.new) }
        ensures within { (clusters : Option Below) → AreReached (reach (length space.now.slots) clusters) (view_of self.old) → AreReached (reach (length space.now.slots) clusters) (view_of self.new) }
        ensures asks { (clusters : Option Below) → AreReached (reach (length space.now.slots) clusters) (view_of self.old) → IfSome result (IsRequestReached (reach (length space.now.slots) clusters)) }
        ensures left { stop ≤ self.new.left }
        ensures falls { IfSome result (λ q. 9 * self.new.left + sized (Option.Some q) (view_of self.new) < power (view_of self.old)) }
        ensures none { IfNone result (view_of self.new ≡ view_of self.old) }
    {
        if self.left <= stop {
            return None;
        }
        match prepared.node(here) {
            Some(
                &Node::Send {
                    receiver,
                    name,
                    first,
                    count,
                    ..
                },
            ) => self.ask_name(prepared, space, here, name, receiver, first, count, stop),
            Some(&Node::Index(a, b)) => {
                self.ask_pair(prepared, space, here, Callee::Index, a, b, stop)
            }
            Some(&Node::Append(a, b)) => {
                self.ask_pair(prepared, space, here, Callee::Append, a, b, stop)
            }
            Some(
                &Node::SetIndex {
                    receiver,
                    index,
                    value,
                },
            ) => self.ask_element(prepared, space, here, receiver, index, value, stop),
            _ => None,
        }
    }
}
