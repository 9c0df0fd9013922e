//! Programs that are ready to run.

ghost use Rattle.std.specs.Prelude.{◌≡◌, ◌≤◌, ◌++◌, ◌∷◌, [], codes, map, None, Some, IfOk, IfSome, IsFalse, slice_index_or};
ghost use Rattle.rr_eval.specs.Above.{method_above};
ghost use Rattle.std.specs.Option.{option_map};
ghost use Rattle.rr_tree.specs.Tree.{tree_at};
ghost use Rattle.rr_tree.specs.Methods.{IsTableOf, number_in, symbol_named};
ghost use Rattle.rr_tree.specs.Sets.{IsTableOf-prop};
ghost use Rattle.rr_builtin.specs.Iterations.{iteration_named};
ghost use Rattle.rr_builtin.specs.Methods.{method_named};
ghost use Rattle.rr_builtin.specs.News.{is_exception_class};
ghost use Rattle.rr_space.specs.Kinds.{kind_at};
ghost use Rattle.rr_eval.specs.BaseCases.{AreBases, AreBases-prop, IsBase};
ghost use Rattle.rr_eval.specs.Callees.{has_built_in, method_of};
ghost use Rattle.rr_eval.specs.declared.call.Callee.{Callee as Called};
ghost use Rattle.rr_eval.specs.Dispatch.{called_name, is_below, comes_first, iteration_of, method_called, method_for, initializer, made_by};
ghost use Rattle.rr_eval.specs.Joins.{joined_by};
ghost use Rattle.rr_eval.specs.Methods.{method_in};
ghost use Rattle.rr_eval.specs.RaisingNew.{initialized_class, class_raised};
ghost use Rattle.rr_base.specs.declared.name.TheConstants.ClassId.{OBJECT};
ghost use Rattle.rr_space.specs.declared.kind.Kind.{Kind as Kinds};
ghost use Rattle.rr_eval.specs.Prepared.{AreInstances, AreKnown, AreKnown-prop, AreSymbolsOf, ArePlain, ArePlain-prop, callable_of, initializer_of};
ghost use Rattle.rr_eval.specs.Nodes.{AreEvaluated, AreEvaluated-prop, evaluated_tree, IsEvaluated};
ghost use Rattle.rr_eval.specs.SimpleParts.{AreSimple, AreSimple-prop, IsSimple, links_of};
ghost use Rattle.rr_eval.specs.Speaking.{symbol_asked};
ghost use Rattle.rr_eval.specs.Straight.{AreStraight, AreStraight-prop, assigned_by};
ghost use Rattle.rr_eval.specs.Turns.{context_of};

use crate::asking::Saying;
use crate::base_cases::{BaseCase, base_cases};
use crate::call::Callee;
use crate::chains::{Chain, Link, links_in};
use crate::evaluated_nodes::evaluated_nodes;
use crate::instances::{Initializer, Instances, initializer_of, known_instances};
use crate::operator_symbols::OperatorSymbols;
use crate::plain_methods::{
    PlainMethod, definition_in, is_below, is_plain, method_called, plain_methods,
};
use crate::ractor_method::ractor_method;
use crate::serve::method_of;
use crate::simple_parts::{SimplePart, SimpleParts, needs_no_frame, simple_parts};
use crate::straight::{Straight, StraightLoops, straight_loops};
use rr_base::{ClassId, Sym};
use rr_builtin::{
    BuiltInMethod, Iteration, Iterations, Methods, has, iterations_have_names, may_make,
};
use rr_frames::{Activation, Shape};
use rr_space::{Ref, Space};
use rr_tree::{MethodName, MethodTable, Node, NodeId, Program};
use std::alloc::{AllocError, Global};

/// The statements of a method: its name, its variables, and the node of its statements.
#[derive(Clone, Copy)]
pub struct Body {
    pub name: Sym,
    pub shape: Shape,
    pub node: NodeId,
}

/// What a call of a method does.
#[derive(Clone, Copy)]
pub enum Work {
    /// Evaluates statements.
    Run(Body),
    /// Reads an instance variable.
    Read(Sym),
    /// Writes an instance variable.
    Write(Sym),
    /// Nothing: no method stands there.
    Nothing,
}

/// A method that the program defines: the class in which it stands, and what a call of it does.
#[derive(Clone, Copy)]
pub struct Definition {
    pub class: ClassId,
    pub work: Work,
}

/// A program, whose methods are found by their names.
#[derive(Drop)]
pub struct Prepared {
    pub program: Program,
    /// The methods of its classes.
    table: MethodTable,
    operators: OperatorSymbols,
    /// The symbols of `to_s` and of `inspect`, where the program has them.
    to_s: Option<Sym>,
    inspect: Option<Sym>,
    /// The built-in methods, by the numbers of their names.
    pub(crate) methods: Methods,
    /// The iterations, by the numbers of their names.
    pub(crate) iterations: Iterations,
    /// The methods that calls of plain objects find, by the numbers of their names.
    plain: Vec<PlainMethod>,
    /// What is known of the new objects of the first classes, by the numbers of these.
    instances: Vec<Instances>,
    /// The nodes that are evaluated at its places, by these.
    nodes: Vec<Node>,
    /// What its parts are.
    pub(crate) simple: SimpleParts,
    /// The loops whose statements assign integers to local variables, and the blocks whose statements need no frame.
    straight: StraightLoops,
    /// The choices with which methods begin, by the numbers of their names.
    bases: Vec<Option<BaseCase>>,
    ghost finds: { IsTableOf program table } by { IsTableOf-prop program table },
    ghost operates: { AreSymbolsOf program operators },
    ghost speaks: { number_in to_s ≡ symbol_named program (codes "to_s") },
    ghost inspects: { number_in inspect ≡ symbol_named program (codes "inspect") },
    ghost names: { methods ≡ map (λ s. method_named s.items) program.symbols.items },
    ghost iterates: { iterations ≡ map (λ s. iteration_named s.items) program.symbols.items },
    ghost plains: { ArePlain (context_of program) plain.items } by { ArePlain-prop (context_of program) plain.items },
    ghost knows: { AreKnown (context_of program) instances.items } by { AreKnown-prop (context_of program) instances.items },
    ghost evaluates: { AreEvaluated program.nodes.items nodes.items } by { AreEvaluated-prop program.nodes.items nodes.items },
    ghost straights: { AreStraight program.nodes.items straight.statements.items } by { AreStraight-prop program.nodes.items straight.statements.items },
    ghost begins: { AreBases program.nodes.items bases.items } by { AreBases-prop program.nodes.items bases.items },
    ghost simples: { AreSimple program simple.links.items simple.parts.items } by { AreSimple-prop program simple.links.items simple.parts.items },
}

impl Prepared {
    /// The program, ready to run. The only fault is want of memory.
    pub fn of(alloc: Global, program: Program) -> Result<Prepared, AllocError>
        ensures { IfOk result (λ prepared. prepared.program ≡ program) }
    {
        let table = MethodTable::of(alloc, &program)?;
        let operators = OperatorSymbols::of(&program);
        let to_s = program.symbol_named(b"to_s");
        let inspect = program.symbol_named(b"inspect");
        let methods = Methods::of(alloc, &program)?;
        let iterations = Iterations::of(alloc, &program)?;
        let plain = plain_methods(alloc, &program, &table, &methods, &iterations)?;
        let instances = known_instances(alloc, &program, &table, &operators, &methods)?;
        let nodes = evaluated_nodes(alloc, &program)?;
        let simple = simple_parts(alloc, &program, &plain)?;
        let straight = straight_loops(alloc, &program, &plain, &simple)?;
        let bases = base_cases(alloc, &program, &plain, &simple)?;
        Ok(Prepared {
            program,
            table,
            operators,
            to_s,
            inspect,
            methods,
            iterations,
            plain,
            instances,
            nodes,
            simple,
            straight,
            bases,
        })
    }

    /// The method of a class, or of the nearest class above it.
    #[inline(always)]
    fn method_in(&self, class: ClassId, name: MethodName) -> Option<Definition>
        ensures { option_map (callable_of self.now.program.nodes.items) result ≡ method_in self.now.program class name }
    {
        definition_in(&self.program, &self.table, class, name)
    }

    /// The method that a call finds for a class.
    #[inline(always)]
    fn method_called(&self, class: ClassId, callee: Callee) -> Option<Definition>
        ensures { option_map (callable_of self.now.program.nodes.items) result ≡ method_called (context_of self.now.program) class (called_name (context_of self.now.program) callee) }
    {
        method_called(&self.program, &self.table, &self.operators, class, callee)
    }

    /// Whether the program has a name for what is called, without which none of its methods is.
    #[inline(always)]
    pub(crate) fn has_name(&self, callee: Callee) -> bool
        ensures { IsFalse result → called_name (context_of self.now.program) callee ≡ None }
    {
        self.operators.called_name(&self.program, callee).is_some()
    }

    /// The node that is evaluated at a place, where one stands there: an item of a list stands for its part. Its parts are read in
    /// place, and no others than those that are asked for.
    #[inline(always)]
    pub(crate) fn node(&self, place: NodeId) -> Option<&Node>
        ensures tree { IfSome result (λ n. tree_at self.now.program.nodes.items place ≡ evaluated_tree self.now.program.nodes.items n.now) }
        ensures evaluated { IfSome result (λ n. IsEvaluated n.now) }
    {
        match self.nodes.get(place as usize) {
            Some(node) => Some(node),
            None => None,
        }
    }

    /// What the part at a place is, where one stands there.
    #[inline(always)]
    pub(crate) fn part(&self, place: NodeId) -> Option<&SimplePart>
        ensures { IfSome result (λ s. IsSimple self.now.program self.now.simple.links.items (tree_at self.now.program.nodes.items place) s.now) }
    {
        match self.simple.parts.get(place as usize) {
            Some(part) => Some(part),
            None => None,
        }
    }

    /// Whether the part at a place is taken for one that needs no frame.
    #[inline(always)]
    pub(crate) fn is_simple(&self, place: NodeId) -> bool {
        needs_no_frame(&self.simple, place)
    }

    /// Where the statements of the loop at a place begin, where they assign integers to local variables alone; any number for a block whose
    /// statements need no frame.
    #[inline(always)]
    pub(crate) fn straight_from(&self, place: NodeId) -> Option<u32> {
        match self.straight.starts.get(place as usize) {
            Some(&start) => start,
            None => None,
        }
    }

    /// The statement of a number, where it stands at a place.
    #[inline(always)]
    pub(crate) fn straight(&self, number: usize, place: NodeId) -> Option<Straight>
        ensures assigns { IfSome result (λ s. assigned_by (tree_at self.now.program.nodes.items place) ≡ Some (s.variable, (tree_at self.now.program.nodes.items s.value, s.steps))) }
        ensures few { IfSome result (λ s. s.steps ≤ 3) }
    {
        let statement = *self.straight.statements.get(number)?;
        if statement.place == place {
            Some(statement)
        } else {
            None
        }
    }

    /// The choice with which a method of a name begins, which may end it.
    #[inline(always)]
    pub(crate) fn base_case(&self, name: Sym) -> Option<&BaseCase>
        ensures { IfSome result (λ b. IsBase self.now.program.nodes.items b.now) }
    {
        match self.bases.get(name.0 as usize) {
            Some(Some(base)) => Some(base),
            _ => None,
        }
    }

    /// The links of a chain, where they lie there.
    #[inline(always)]
    pub(crate) fn links(&self, chain: Chain) -> Option<&[Link]>
        ensures { IfSome result (λ links. links.now ≡ links_of self.now.simple.links.items chain) }
    {
        links_in(&self.simple.links, chain)
    }

    /// The symbol of the method by which values are asked, without which the program defines none.
    pub(crate) fn symbol_asked(&self, saying: Saying) -> Option<Sym>
        ensures { result ≡ symbol_asked (context_of self.now.program) saying }
    {
        match saying {
            Saying::Inspect => self.inspect,
            Saying::Puts => self.to_s,
            Saying::Print => self.to_s,
            Saying::Text => self.to_s,
        }
    }

    /// The iteration of a name.
    pub(crate) fn iteration(&self, name: Sym) -> Option<Iteration>
        ensures { result ≡ iteration_named (slice_index_or (context_of self.now.program).symbols name.0 []) }
    {
        iterations_have_names();
        self.iterations.find(name)
    }

    /// The iteration that a call may be of.
    fn iteration_of(&self, callee: Callee) -> Option<Iteration>
        ensures { result ≡ iteration_of (context_of self.now.program) callee }
    {
        match callee {
            Callee::Name(name) => self.iteration(name),
            Callee::Operator(_) => None,
            Callee::Opposite => None,
            Callee::Index => None,
            Callee::Append => None,
            Callee::SetIndex => None,
            Callee::Initialize => None,
            Callee::Setter(_) => None,
        }
    }

    /// Whether the receiver has a built-in method that stands in a class below Object.
    #[inline(always)]
    fn is_below(&self, space: &Space, receiver: Ref, callee: Callee) -> bool
        ensures { result ≡ is_below (kind_at space.now receiver) (method_of (context_of self.now.program) callee) (iteration_of (context_of self.now.program) callee) }
    {
        let method = method_of(&self.program, &self.methods, callee);
        is_below(space.kind_of(receiver), method, self.iteration_of(callee))
    }

    /// Whether the receiver has a method of a class below Object that a call finds: a built-in one, or one of Ractor or of a ractor.
    #[tactic(auto, unfolding(crate::specs::Dispatch::comes_first))]
    #[inline(always)]
    fn comes_first(&self, space: &Space, receiver: Ref, callee: Callee) -> bool
        ensures { result ≡ comes_first (context_of self.now.program) space.now receiver callee }
    {
        self.is_below(space, receiver, callee)
            || ractor_method(&self.program, receiver, callee).is_some()
    }

    /// The program's method that a call of a plain object runs, where it was found beforehand for the object's class: none inside where it
    /// runs no method of the program, and none where the receiver is another one.
    #[inline(always)]
    pub(crate) fn method_of_plain(
        &self,
        space: &Space,
        receiver: Ref,
        name: Sym,
    ) -> Option<&Option<Definition>>
        ensures finds { IfSome result (λ f. option_map (callable_of self.now.program.nodes.items) f.now ≡ method_for (context_of self.now.program) space.now receiver (Called.Name name)) }
        ensures kind { IfSome result (λ _. kind_at space.now receiver ≡ Kinds.Object) }
    {
        if let Some(found) = self.plain.get(name.0 as usize)
            && is_plain(space, receiver, found.class)
        {
            return Some(&found.definition);
        }
        None
    }

    /// The program's method that a call of a receiver runs; none where it runs no method of the program.
    #[inline(always)]
    pub(crate) fn method_for(
        &self,
        space: &Space,
        receiver: Ref,
        callee: Callee,
    ) -> Option<Definition>
        ensures { option_map (callable_of self.now.program.nodes.items) result ≡ method_for (context_of self.now.program) space.now receiver callee }
    {
        if let Callee::Name(name) = callee
            && let Some(found) = self.method_of_plain(space, receiver, name)
        {
            return *found;
        }
        self.method_looked_up(space, receiver, callee)
    }

    /// The same, class by class.
    pub(crate) fn method_looked_up(
        &self,
        space: &Space,
        receiver: Ref,
        callee: Callee,
    ) -> Option<Definition>
        ensures { option_map (callable_of self.now.program.nodes.items) result ≡ method_for (context_of self.now.program) space.now receiver callee }
    {
        match self.method_called(space.class_of(receiver), callee) {
            Some(definition) => {
                if definition.class.0 == ClassId::OBJECT.0
                    && self.comes_first(space, receiver, callee)
                {
                    None
                } else {
                    Some(definition)
                }
            }
            None => None,
        }
    }

    /// Whether a value has the built-in method that is called.
    pub(crate) fn has_built_in(&self, space: &Space, value: Ref, callee: Callee) -> bool
        ensures { result ≡ has_built_in (kind_at space.now value) (method_of (context_of self.now.program) callee) }
    {
        match self.built_in(callee) {
            Some(method) => has(space.kind_of(value), method),
            None => false,
        }
    }

    /// The built-in method that is called; none where no method has the name.
    #[inline(always)]
    pub(crate) fn built_in(&self, callee: Callee) -> Option<BuiltInMethod>
        ensures { result ≡ method_of (context_of self.now.program) callee }
    {
        method_of(&self.program, &self.methods, callee)
    }

    /// What is known beforehand of the new objects of a class.
    #[inline(always)]
    fn known(&self, class: ClassId) -> Option<&Instances>
        ensures { IfSome result (λ i. AreInstances (context_of self.now.program) class i.now) }
    {
        match self.instances.get(class.0 as usize) {
            Some(known) => Some(known),
            None => None,
        }
    }

    /// The program's `initialize` for the objects of a class.
    #[inline(always)]
    pub(crate) fn initializer(&self, class: ClassId) -> Option<Initializer>
        ensures { option_map (initializer_of self.now.program.nodes.items) result ≡ initializer (context_of self.now.program) class }
    {
        match self.known(class) {
            Some(known) => known.initializer,
            None => initializer_of(&self.program, &self.table, &self.operators, class),
        }
    }

    /// Whether the objects of a class are exceptions.
    #[inline(always)]
    pub(crate) fn makes_exceptions(&self, class: ClassId) -> bool
        ensures { result ≡ is_exception_class self.now.program class.0 }
    {
        match self.known(class) {
            Some(known) => known.exceptions,
            None => self.program.descends(class, ClassId::EXCEPTION),
        }
    }

    /// The class whose new object a call of a receiver by a name makes, where the object gets the program's `initialize`; none where the
    /// call may do something else.
    pub(crate) fn class_made(&self, space: &Space, receiver: Ref, name: Sym) -> Option<ClassId>
        ensures method { IfSome result (λ _. method_for (context_of self.now.program) space.now receiver (Called.Name name) ≡ None) }
        ensures joins { IfSome result (λ _. joined_by (context_of self.now.program) space.now (Called.Name name) receiver ≡ None) }
        ensures made { IfSome result (λ k. made_by (context_of self.now.program) (method_of (context_of self.now.program) (Called.Name name)) receiver ≡ Some k) }
    {
        let Ref::Class(class) = receiver else {
            return None;
        };
        match self.known(class)?.maker {
            Some(maker) if maker.0 == name.0 => Some(class),
            _ => None,
        }
    }

    /// The class of the object that a call of a built-in method makes, where the object gets the program's `initialize`.
    #[inline(always)]
    pub(crate) fn made_by(&self, receiver: Ref, callee: Callee) -> Option<ClassId>
        ensures { result ≡ made_by (context_of self.now.program) (method_of (context_of self.now.program) callee) receiver }
    {
        match (method_of(&self.program, &self.methods, callee), receiver) {
            (Some(BuiltInMethod::New), Ref::Class(class)) => {
                if may_make(&self.program, receiver) && self.initializer(class).is_some() {
                    Some(class)
                } else {
                    None
                }
            }
            _ => None,
        }
    }

    /// The class of the exception that `raise` of a value makes, where it gets the program's `initialize`.
    pub(crate) fn initialized_class(&self, value: Ref) -> Option<ClassId>
        ensures { result ≡ initialized_class (context_of self.now.program) value }
    {
        match value {
            Ref::Class(class) => {
                if self.program.descends(class, ClassId::EXCEPTION)
                    && self.initializer(class).is_some()
                {
                    Some(class)
                } else {
                    None
                }
            }
            _ => None,
        }
    }

    /// The same of the values of a `raise`, of which the last one stands apart.
    pub(crate) fn class_raised(&self, values: &[Ref], last: Ref) -> Option<ClassId>
        ensures { result ≡ class_raised (context_of self.now.program) (values.now ++ last ∷ []) }
    {
        match values {
            [] => self.initialized_class(last),
            [first] => self.initialized_class(*first),
            _ => None,
        }
    }

    /// The program's method that `super` calls: above the class in which the method stands that runs, on the same receiver.
    pub(crate) fn method_above(&self, space: &Space, running: Activation) -> Option<Definition>
        ensures { option_map (callable_of self.now.program.nodes.items) result ≡ method_above (context_of self.now.program) running space.now }
    {
        let above = self.program.superclass(running.class)?;
        let definition = self.method_in(above, MethodName::Plain(running.name))?;
        if definition.class.0 == ClassId::OBJECT.0
            && self.is_below(space, running.itself, Callee::Name(running.name))
        {
            None
        } else {
            Some(definition)
        }
    }
}
