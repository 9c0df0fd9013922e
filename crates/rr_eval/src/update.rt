//! Assignments that also read what they assign to, as they begin.

ghost use Rattle.std.specs.Prelude.{◌≡◌, ◌+◌, ◌*◌, ◌<◌, ◌≤◌, ℕ, [], length, vec_capacity, IfOk, IfErr};
ghost use Rattle.rr_base.specs.declared.fault.Fault.{Fault};
ghost use Rattle.rr_space.specs.Tables.{Table};
ghost use Rattle.rr_tree.specs.Tree.{constant, tree_at};
ghost use Rattle.rr_tree.specs.declared.node.Path.TheVariants.{Plain};
ghost use Rattle.rr_builtin.specs.Fields.{field_at};
ghost use Rattle.rr_eval.specs.Requests.{Course, asked_of};
ghost use Rattle.rr_eval.specs.Basics.{variable_of, with_value};
ghost use Rattle.rr_eval.specs.Constants.{set_response};
ghost use Rattle.rr_eval.specs.Globals.{globals};
ghost use Rattle.rr_eval.specs.Updating.{place_of, put, access_rule, operator_rule, update_rule, or_constant, or_asked, or_rule};
ghost use Rattle.rr_eval.specs.Turns.{context_of, IsNested, Stands, after_script, asking_with, continuing, remaining_with, size, sized};
ghost use Rattle.rr_eval.specs.Views.{view_of};
ghost use Rattle.rr_eval.specs.Within.{Reach, AreReached, IsAskedReached, IsRequestReached};

use crate::call::{Arguments, Callee, Target, Task};
use crate::call_stack::Variable;
use crate::constant::set_constant;
use crate::engine::{Engine, push_within};
use crate::frame::{Control, Frame};
use crate::nodes::evaluated_node;
use crate::owners::is_main;
use crate::problem::Problem;
use crate::request::Request;
use crate::updating::{Place, Update, Updating};
use rr_base::{Fault, Sym};
use rr_space::Space;
use rr_tree::{BinaryOperator, Node, NodeId, Path, Program};

/// The variable that a target is, where it is one.
pub fn variable_of(program: &Program, target: NodeId) -> Option<Variable>
    ensures { result ≡ variable_of (tree_at program.now.nodes.items target) }
{
    match evaluated_node(program, target) {
        Node::Local { depth, slot, .. } => Some(Variable { depth, slot }),
        _ => None,
    }
}

/// The variable, the instance or global variable, or the constant, that a target is, where it is one.
fn place_of(program: &Program, target: NodeId) -> Option<Place>
    ensures { result ≡ place_of (tree_at program.now.nodes.items target) }
{
    match evaluated_node(program, target) {
        Node::Local { depth, slot, .. } => Some(Place::Variable(Variable { depth, slot })),
        Node::Field(name) => Some(Place::Field(name)),
        Node::Global(name) => Some(Place::Global(name)),
        Node::Constant(Path::Plain(name)) => Some(Place::Constant(name)),
        _ => None,
    }
}

impl Engine {
    /// Evaluates the receiver, and then the index, of an element or an attribute that is read and then assigned to.
    #[tactic(auto, unfolding(crate::specs::Within::AreReached))]
    fn open_access(&mut self, program: &Program, how: Update, target: NodeId, value: NodeId)
        requires room { length self.old.frames.items < vec_capacity self.old.frames }
        requires nested { IsNested (view_of self.old) }
        ensures goes { (t : Table) (h : Course) (n : ℕ) → after_script program.now (view_of self.old) t (access_rule (context_of program.now) how (tree_at program.now.nodes.items target) (tree_at program.now.nodes.items value)) h n ≡ remaining_with program.now (view_of self.new) t h n }
        ensures nested { IsNested (view_of self.new) }
        ensures within { (k : Reach) → AreReached k (view_of self.old) → AreReached k (view_of self.new) }
        ensures left { self.new.left ≡ self.old.left }
        ensures size { size (view_of self.new) ≤ 3 * length self.old.frames.items + 4 }
    {
        let base = self.held.len();
        match evaluated_node(program, target) {
            Node::Index(receiver, index) => {
                let target = Target::Update(Callee::Index, Callee::SetIndex, how, value);
                self.enter_above(Frame::Argument(target, index + 1, 1, base), receiver);
            }
            Node::Send { receiver, name, .. } => {
                let target = Target::Update(Callee::Name(name), Callee::Setter(name), how, value);
                self.enter_above(Frame::Argument(target, 0, 0, base), receiver);
            }
            _ => self.control = Control::Throw(Problem::NotHere),
        }
    }

    /// Evaluates `a op= b`, which is `a = a op b`.
    #[tactic(auto, unfolding(crate::specs::Within::AreReached))]
    pub fn open_operator(
        &mut self,
        program: &Program,
        op: BinaryOperator,
        target: NodeId,
        value: NodeId,
    )
        requires room { length self.old.frames.items < vec_capacity self.old.frames }
        requires nested { IsNested (view_of self.old) }
        ensures goes { (t : Table) (h : Course) (n : ℕ) → after_script program.now (view_of self.old) t (operator_rule (context_of program.now) op (tree_at program.now.nodes.items target) (tree_at program.now.nodes.items value) (place_of (tree_at program.now.nodes.items target))) h n ≡ remaining_with program.now (view_of self.new) t h n }
        ensures nested { IsNested (view_of self.new) }
        ensures within { (k : Reach) → AreReached k (view_of self.old) → AreReached k (view_of self.new) }
        ensures left { self.new.left ≡ self.old.left }
        ensures size { size (view_of self.new) ≤ 3 * length self.old.frames.items + 4 }
    {
        match place_of(program, target) {
            Some(Place::Variable(variable)) => {
                push_within(&mut self.frames, Frame::Store(variable));
                self.control = Control::Operate(op, target, value);
            }
            Some(Place::Field(name)) => {
                push_within(&mut self.frames, Frame::SetField(name));
                self.control = Control::Operate(op, target, value);
            }
            Some(place) => {
                push_within(&mut self.frames, Frame::Put(place, self.held.len()));
                self.control = Control::Operate(op, target, value);
            }
            None => {
                self.open_access(
                    program,
                    Update::Combine(Callee::Operator(op)),
                    target,
                    value,
                );
            }
        }
    }

    /// Evaluates `a <<= b`, `a ||= b` or `a &&= b`: what is there is read first.
    #[tactic(auto, unfolding(crate::specs::Within::AreReached))]
    pub fn open_update(&mut self, program: &Program, how: Update, target: NodeId, value: NodeId)
        requires room { length self.old.frames.items < vec_capacity self.old.frames }
        requires nested { IsNested (view_of self.old) }
        ensures goes { (t : Table) (h : Course) (n : ℕ) → after_script program.now (view_of self.old) t (update_rule (context_of program.now) how (tree_at program.now.nodes.items target) (tree_at program.now.nodes.items value) (place_of (tree_at program.now.nodes.items target))) h n ≡ remaining_with program.now (view_of self.new) t h n }
        ensures nested { IsNested (view_of self.new) }
        ensures within { (k : Reach) → AreReached k (view_of self.old) → AreReached k (view_of self.new) }
        ensures left { self.new.left ≡ self.old.left }
        ensures size { size (view_of self.new) ≤ 3 * length self.old.frames.items + 4 }
    {
        match place_of(program, target) {
            Some(place) => {
                let base = self.held.len();
                let updating = Updating {
                    place,
                    how,
                    value,
                    base,
                };
                self.enter_above(Frame::Read(updating), target);
            }
            None => self.open_access(program, how, target, value),
        }
    }

    /// Evaluates the value of an assignment.
    #[tactic(auto, unfolding(crate::specs::Within::AreReached))]
    #[inline(always)]
    pub fn open_assignment(&mut self, place: Place, value: NodeId)
        requires room { length self.old.frames.items < vec_capacity self.old.frames }
        requires nested { IsNested (view_of self.old) }
        ensures goes { (p : Program) (t : Table) (h : Course) (n : ℕ) → after_script p (view_of self.old) t (with_value (tree_at p.nodes.items value) (put (context_of p) place [])) h n ≡ remaining_with p (view_of self.new) t h n }
        ensures nested { IsNested (view_of self.new) }
        ensures within { (k : Reach) → AreReached k (view_of self.old) → AreReached k (view_of self.new) }
        ensures left { self.new.left ≡ self.old.left }
        ensures size { size (view_of self.new) ≤ 3 * length self.old.frames.items + 4 }
    {
        let frame = Frame::Put(place, self.held.len());
        self.enter_above(frame, value);
    }

    /// Evaluates `A ||= b`, where `A` is a constant of this name, as the main ractor does.
    #[tactic(auto, unfolding(crate::specs::Within::AreReached))]
    fn or_constant(
        &mut self,
        program: &Program,
        space: &Space,
        name: Sym,
        target: NodeId,
        value: NodeId,
    )
        requires tree { tree_at program.now.nodes.items target ≡ constant (Plain name) }
        requires room { length self.old.frames.items < vec_capacity self.old.frames }
        requires nested { IsNested (view_of self.old) }
        ensures goes { (h : Course) (n : ℕ) → after_script program.now (view_of self.old) space.now (or_constant (context_of program.now) (set_response space.now (field_at space.now globals name.0)) name (tree_at program.now.nodes.items value)) h n ≡ remaining_with program.now (view_of self.new) space.now h n }
        ensures nested { IsNested (view_of self.new) }
        ensures within { (k : Reach) → AreReached k (view_of self.old) → AreReached k (view_of self.new) }
        ensures left { self.new.left ≡ self.old.left }
        ensures size { size (view_of self.new) ≤ 3 * length self.old.frames.items + 4 }
    {
        match set_constant(space, name) {
            Some(_) => self.open_update(program, Update::Or, target, value),
            None => self.open_assignment(Place::Constant(name), value),
        }
    }

    /// Evaluates `A ||= b`, where `A` is a constant of this name, as another ractor than the main one does: it asks for the constant.
    #[tactic(auto, unfolding(crate::specs::Within::AreReached))]
    fn or_asked(&mut self, name: Sym, value: NodeId) -> Request
        requires room { length self.old.frames.items < vec_capacity self.old.frames }
        requires nested { IsNested (view_of self.old) }
        ensures goes { (p : Program) (t : Table) (h : Course) (n : ℕ) → after_script p (view_of self.old) t (or_asked (context_of p) name (tree_at p.nodes.items value) t) h n ≡ asking_with p (view_of self.new) t (asked_of t result) h n }
        ensures nested { IsNested (view_of self.new) }
        ensures within { (k : Reach) → AreReached k (view_of self.old) → AreReached k (view_of self.new) }
        ensures asks { (k : Reach) → IsRequestReached k result }
        ensures left { self.new.left ≡ self.old.left }
        ensures frames { length self.new.frames.items ≡ length self.old.frames.items + 1 }
    {
        let updating = Updating {
            place: Place::Constant(name),
            how: Update::Or,
            value,
            base: self.held.len(),
        };
        push_within(&mut self.frames, Frame::Read(updating));
        Request::Do(Task::FindConstant(name), Arguments::Without)
    }

    /// Evaluates `A ||= b`, where `A` is a constant of this name.
    fn or_plain(
        &mut self,
        program: &Program,
        space: &Space,
        name: Sym,
        target: NodeId,
        value: NodeId,
    ) -> Option<Request>
        requires tree { tree_at program.now.nodes.items target ≡ constant (Plain name) }
        requires room { length self.old.frames.items < vec_capacity self.old.frames }
        requires nested { IsNested (view_of self.old) }
        ensures goes { (h : Course) (n : ℕ) → after_script program.now (view_of self.old) space.now (or_rule (context_of program.now) (constant (Plain name)) (tree_at program.now.nodes.items value)) h n ≡ continuing program.now (view_of self.new) space.now result h n }
        ensures nested { IsNested (view_of self.new) }
        ensures within { (k : Reach) → AreReached k (view_of self.old) → AreReached k (view_of self.new) }
        ensures asks { (k : Reach) → IsAskedReached k result }
        ensures left { self.new.left ≡ self.old.left }
        ensures size { sized result (view_of self.new) ≤ 3 * length self.old.frames.items + 7 }
    {
        if is_main(space) {
            self.or_constant(program, space, name, target, value);
            return None;
        }
        Some(self.or_asked(name, value))
    }

    /// Evaluates `a ||= b`, where there is room for a frame.
    #[tactic(auto, unfolding(crate::specs::Within::AreReached))]
    fn or_within(
        &mut self,
        program: &Program,
        space: &Space,
        target: NodeId,
        value: NodeId,
    ) -> Option<Request>
        requires room { length self.old.frames.items < vec_capacity self.old.frames }
        requires nested { IsNested (view_of self.old) }
        ensures goes { (h : Course) (n : ℕ) → after_script program.now (view_of self.old) space.now (or_rule (context_of program.now) (tree_at program.now.nodes.items target) (tree_at program.now.nodes.items value)) h n ≡ continuing program.now (view_of self.new) space.now result h n }
        ensures nested { IsNested (view_of self.new) }
        ensures within { (k : Reach) → AreReached k (view_of self.old) → AreReached k (view_of self.new) }
        ensures asks { (k : Reach) → IsAskedReached k result }
        ensures left { self.new.left ≡ self.old.left }
        ensures size { sized result (view_of self.new) ≤ 3 * length self.old.frames.items + 7 }
    {
        match evaluated_node(program, target) {
            Node::Constant(path) => match path {
                Path::Plain(name) => self.or_plain(program, space, name, target, value),
                Path::Ractor(_) => {
                    self.open_update(program, Update::Or, target, value);
                    None
                }
            },
            _ => {
                self.open_update(program, Update::Or, target, value);
                None
            }
        }
    }

    /// Evaluates `a ||= b`.
    #[tactic(auto, unfolding(crate::specs::Within::AreReached))]
    pub fn open_or(
        &mut self,
        program: &Program,
        space: &Space,
        target: NodeId,
        value: NodeId,
    ) -> Result<Option<Request>, Fault>
        requires nested { IsNested (view_of self.old) }
        ensures goes { IfOk result (λ q. (h : Course) (n : ℕ) → after_script program.now (view_of self.old) space.now (or_rule (context_of program.now) (tree_at program.now.nodes.items target) (tree_at program.now.nodes.items value)) h n ≡ continuing program.now (view_of self.new) space.now q h n) }
        ensures nested { IsNested (view_of self.new) }
        ensures within { (k : Reach) → AreReached k (view_of self.old) → AreReached k (view_of self.new) }
        ensures left { self.new.left ≡ self.old.left }
        ensures asks { (k : Reach) → IfOk result (IsAskedReached k) }
        ensures err { (t : Table) → IfErr result (λ f. Stands (view_of self.old) (view_of self.new) t t f) }
        ensures size { IfOk result (λ q. sized q (view_of self.new) ≤ 3 * length self.old.frames.items + 7) }
        ensures fault { IfErr result (λ f. f ≡ Fault.Memory) }
    {
        self.frames.reserve(1)?;
        Ok(self.or_within(program, space, target, value))
    }
}
