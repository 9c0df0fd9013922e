//! The nodes that a parser puts.

ghost use Rattle.std.specs.Prelude.{◌≡◌, ◌<◌, ◌≤◌, ◌++◌, List, length, map, All, IfOk, OnOk};
ghost use Rattle.rr_tree.specs.Tree.{Tree, nil, tree_at, sequence, interpolation, bare, call, send, array, hash, pair, symbol, rescue, clause, listed, HasPartsBefore};
ghost use Rattle.rr_tree.specs.Nodes.{IsNoItem, node_tree, item};
ghost use Rattle.rr_parser.specs.Grammar.Operators.{infixed, joined_by};
ghost use Rattle.rr_parser.specs.Grammar.Names.{local_tree, jump_tree, is_splat, one_value, passed, passed_bare, headed};
ghost use Rattle.rr_parser.specs.Grammar.Calls.{target_tree, set_target, operated, signed};
ghost use Rattle.rr_parser.specs.Grammar.Sequences.{modified};
ghost use Rattle.rr_parser.specs.Grammar.Control.{chosen};
ghost use Rattle.rr_parser.specs.Reading.Operands.{int_at, negative_of};

use crate::look::{INTEGERS, joined, negated};
use crate::parser::{Parsed, Parser};
use crate::refusal::{Refusal, Storage};
use crate::variables::Variable;
use crate::word::{
    Aim, Connective, Head, Infix, Jump, Modifier, Operation, Passing, Sign, Target, Word,
};
use rr_base::Sym;
use rr_tree::{Node, NodeId, Path};

/// Whether it stands for a value whose items are arguments.
fn is_splat(node: Node) -> bool
    ensures { (ns : List Node) → IsNoItem node → result ≡ is_splat (node_tree ns node) }
{
    matches!(node, Node::Splat(_))
}

impl Parser {
    ghost use Rattle.rr_parser.specs.Meets.{Gives, Appends, Puts, pairs, place};

    /// The number of the next call.
    #[inline(always)]
    pub fn site(&mut self) -> Result<u32, Storage>
        ensures nodes { self.new.nodes.items ≡ self.old.nodes.items }
        ensures known { self.new.known ≡ self.old.known }
    {
        let site = self.sites;
        match site.checked_add(1) {
            Some(sites) => self.sites = sites,
            None => return Err(Storage::Slots),
        }
        Ok(site)
    }

    #[inline(always)]
    pub fn put(&mut self, node: Node) -> Result<NodeId, Storage>
        requires { HasPartsBefore (length self.old.nodes.items) node }
        ensures appends { IfOk result (λ id. Appends self.old self.new node id) }
        ensures puts { IfOk result (λ id. Puts self.old self.new (node_tree self.old.nodes.items node) id) }
    {
        if self.nodes.len() >= u32::MAX as usize {
            return Err(Storage::Slots);
        }
        let id = self.nodes.len() as u32;
        self.nodes.reserve(1)?;
        self.nodes.push_reserved(node);
        Ok(id)
    }

    /// Puts an operator between two operands.
    #[inline(always)]
    pub fn put_infix(
        &mut self,
        operator: Infix,
        left: NodeId,
        right: NodeId,
    ) -> Result<NodeId, Storage>
        requires left { left < length self.old.nodes.items }
        requires right { right < length self.old.nodes.items }
        ensures { IfOk result (λ id. Puts self.old self.new (infixed operator (tree_at self.old.nodes.items left) (tree_at self.old.nodes.items right)) id) }
    {
        match operator {
            Infix::Binary(operator) => self.put(Node::Binary(operator, left, right)),
            Infix::Append => self.put(Node::Append(left, right)),
        }
    }

    /// Puts two conditions that are joined.
    #[inline(always)]
    pub fn put_joined(
        &mut self,
        connective: Connective,
        left: NodeId,
        right: NodeId,
    ) -> Result<NodeId, Storage>
        requires left { left < length self.old.nodes.items }
        requires right { right < length self.old.nodes.items }
        ensures { IfOk result (λ id. Puts self.old self.new (joined_by connective (tree_at self.old.nodes.items left) (tree_at self.old.nodes.items right)) id) }
    {
        match connective {
            Connective::And => self.put(Node::And(left, right)),
            Connective::Or => self.put(Node::Or(left, right)),
        }
    }

    /// Puts a statement that is done as often as its modifier says.
    pub fn put_modified(
        &mut self,
        modifier: Modifier,
        statement: NodeId,
        condition: NodeId,
    ) -> Result<NodeId, Storage>
        requires statement { statement < length self.old.nodes.items }
        requires condition { condition < length self.old.nodes.items }
        ensures { IfOk result (λ id. Puts self.old self.new (modified modifier (tree_at self.old.nodes.items statement) (tree_at self.old.nodes.items condition)) id) }
    {
        let otherwise = self.put(Node::Nil)?;
        match modifier {
            Modifier::If => self.put(Node::Choose(condition, statement, otherwise)),
            Modifier::Unless => self.put(Node::Choose(condition, otherwise, statement)),
            Modifier::Loop { until } => self.put(Node::Loop {
                until,
                condition,
                body: statement,
            }),
        }
    }

    /// Puts items side by side. The first one's number, and how many there are.
    pub fn put_items(&mut self, items: &[NodeId]) -> Result<(NodeId, u32), Storage>
        requires { All (λ i. i < length self.old.nodes.items) items.now }
        ensures nodes { OnOk result (self.new.nodes.items ≡ self.old.nodes.items ++ map item items.now) }
        ensures first { IfOk result (λ r. r.0 ≡ length self.old.nodes.items) }
        ensures count { IfOk result (λ r. r.1 ≡ length items.now) }
        ensures known { OnOk result (self.new.known ≡ self.old.known) }
    {
        let (Ok(first), Ok(count)) = (u32::try_from(self.nodes.len()), u32::try_from(items.len()))
        else {
            return Err(Storage::Slots);
        };
        for item in items {
            self.put(Node::Item(*item))?;
        }
        Ok((first, count))
    }

    pub fn put_sequence(&mut self, items: &[NodeId]) -> Result<NodeId, Storage>
        requires { All (λ i. i < length self.old.nodes.items) items.now }
        ensures { IfOk result (λ id. Puts self.old self.new (sequence (listed (map (tree_at self.old.nodes.items) items.now))) id) }
    {
        let (first, count) = self.put_items(items)?;
        self.put(Node::Sequence { first, count })
    }

    /// Puts a text literal with parts that are evaluated, whose items are pieces of text and what stands between them.
    pub fn put_interpolation(&mut self, items: &[NodeId]) -> Result<NodeId, Storage>
        requires { All (λ i. i < length self.old.nodes.items) items.now }
        ensures { IfOk result (λ id. Puts self.old self.new (interpolation (listed (map (tree_at self.old.nodes.items) items.now))) id) }
    {
        let (first, count) = self.put_items(items)?;
        self.put(Node::Interpolation { first, count })
    }

    pub fn put_call(&mut self, name: Sym, items: &[NodeId]) -> Result<NodeId, Storage>
        requires { All (λ i. i < length self.old.nodes.items) items.now }
        ensures { IfOk result (λ id. Puts self.old self.new (call name.0 (listed (map (tree_at self.old.nodes.items) items.now))) id) }
    {
        let (first, count) = self.put_items(items)?;
        let site = self.site()?;
        self.put(Node::Call {
            name,
            first,
            count,
            site,
        })
    }

    /// Puts a clause: its classes, its variable and its statements.
    pub fn put_clause(
        &mut self,
        classes: &[NodeId],
        target: NodeId,
        body: NodeId,
    ) -> Result<NodeId, Storage>
        requires classes { All (λ i. i < length self.old.nodes.items) classes.now }
        requires target { target < length self.old.nodes.items }
        requires body { body < length self.old.nodes.items }
        ensures { IfOk result (λ id. Puts self.old self.new (clause (listed (map (tree_at self.old.nodes.items) classes.now)) (tree_at self.old.nodes.items target) (tree_at self.old.nodes.items body)) id) }
    {
        let (first, count) = self.put_items(classes)?;
        self.put(Node::Clause {
            first,
            count,
            target,
            body,
        })
    }

    /// Puts statements, the clauses that rescue them, and what follows where nothing was raised.
    pub fn put_rescue(
        &mut self,
        body: NodeId,
        clauses: &[NodeId],
        otherwise: NodeId,
    ) -> Result<NodeId, Storage>
        requires body { body < length self.old.nodes.items }
        requires clauses { All (λ i. i < length self.old.nodes.items) clauses.now }
        requires otherwise { otherwise < length self.old.nodes.items }
        ensures { IfOk result (λ id. Puts self.old self.new (rescue (tree_at self.old.nodes.items body) (listed (map (tree_at self.old.nodes.items) clauses.now)) (tree_at self.old.nodes.items otherwise)) id) }
    {
        let (first, count) = self.put_items(clauses)?;
        self.put(Node::Rescue {
            body,
            first,
            count,
            otherwise,
        })
    }

    fn put_jump(&mut self, jump: Jump, value: NodeId) -> Result<NodeId, Storage>
        requires { value < length self.old.nodes.items }
        ensures { IfOk result (λ id. Puts self.old self.new (jump_tree jump (tree_at self.old.nodes.items value)) id) }
    {
        match jump {
            Jump::Break => self.put(Node::Break(value)),
            Jump::Next => self.put(Node::Next(value)),
            Jump::Return => self.put(Node::Return(value)),
        }
    }

    /// Puts a jump without a value.
    pub fn put_bare_jump(&mut self, jump: Jump) -> Result<NodeId, Storage>
        ensures { IfOk result (λ id. Puts self.old self.new (jump_tree jump nil) id) }
    {
        let value = self.put(Node::Nil)?;
        self.put_jump(jump, value)
    }

    /// Whether the items of what a node stands for are arguments.
    fn is_splat(&self, id: NodeId) -> bool
        requires { id < length self.now.nodes.items }
        ensures { result ≡ is_splat (tree_at self.now.nodes.items id) }
    {
        let mut id = id;
        while let Node::Item(inner) = self.nodes[id as usize] {
            id = inner;
        }
        is_splat(self.nodes[id as usize])
    }

    /// Puts what stands for these values as one: the one that there is, or an array of them.
    pub fn put_value(&mut self, items: &[NodeId]) -> Result<NodeId, Storage>
        requires { All (λ i. i < length self.old.nodes.items) items.now }
        ensures { IfOk result (λ id. Puts self.old self.new (one_value (map (tree_at self.old.nodes.items) items.now)) id) }
    {
        if items.is_empty() {
            return self.put(Node::Nil);
        }
        if items.len() == 1 && !self.is_splat(items[0]) {
            return Ok(items[0]);
        }
        self.put_array(items)
    }

    /// Puts what passes arguments on.
    pub fn put_passed(&mut self, passing: Passing, items: &[NodeId]) -> Result<NodeId, Storage>
        requires { All (λ i. i < length self.old.nodes.items) items.now }
        ensures { IfOk result (λ id. Puts self.old self.new (passed passing (listed (map (tree_at self.old.nodes.items) items.now))) id) }
    {
        let (first, count) = self.put_items(items)?;
        match passing {
            Passing::Yield => self.put(Node::Yield { first, count }),
            Passing::Super => self.put(Node::Super { first, count }),
        }
    }

    /// Puts what passes arguments on, where neither arguments nor a bracket follow.
    pub fn put_bare_passed(&mut self, passing: Passing) -> Result<NodeId, Storage>
        ensures { IfOk result (λ id. Puts self.old self.new (passed_bare passing) id) }
    {
        match passing {
            Passing::Yield => self.put_passed(Passing::Yield, &[]),
            Passing::Super => self.put(Node::ForwardingSuper),
        }
    }

    /// Puts a command.
    pub fn put_headed(&mut self, head: Head, items: &[NodeId]) -> Result<NodeId, Storage>
        requires { All (λ i. i < length self.old.nodes.items) items.now }
        ensures { IfOk result (λ id. Puts self.old self.new (headed head (map (tree_at self.old.nodes.items) items.now)) id) }
    {
        match head {
            Head::Call(name) => self.put_call(name, items),
            Head::Jump(jump) => {
                let value = self.put_value(items)?;
                self.put_jump(jump, value)
            }
            Head::Passing(passing) => self.put_passed(passing, items),
        }
    }

    pub fn put_array(&mut self, items: &[NodeId]) -> Result<NodeId, Storage>
        requires { All (λ i. i < length self.old.nodes.items) items.now }
        ensures { IfOk result (λ id. Puts self.old self.new (array (listed (map (tree_at self.old.nodes.items) items.now))) id) }
    {
        let (first, count) = self.put_items(items)?;
        self.put(Node::Array { first, count })
    }

    pub fn put_hash(&mut self, items: &[NodeId]) -> Result<NodeId, Storage>
        requires { All (λ i. i < length self.old.nodes.items) items.now }
        ensures { IfOk result (λ id. Puts self.old self.new (hash (listed (map (tree_at self.old.nodes.items) items.now))) id) }
    {
        let (first, count) = self.put_items(items)?;
        self.put(Node::Hash { first, count })
    }

    pub fn put_send(
        &mut self,
        receiver: NodeId,
        name: Sym,
        items: &[NodeId],
    ) -> Result<NodeId, Storage>
        requires receiver { receiver < length self.old.nodes.items }
        requires items { All (λ i. i < length self.old.nodes.items) items.now }
        ensures { IfOk result (λ id. Puts self.old self.new (send (tree_at self.old.nodes.items receiver) name.0 (listed (map (tree_at self.old.nodes.items) items.now))) id) }
    {
        let (first, count) = self.put_items(items)?;
        let site = self.site()?;
        self.put(Node::Send {
            receiver,
            name,
            first,
            count,
            site,
        })
    }

    /// Puts a pair whose key is a symbol.
    pub fn put_entry(&mut self, key: Sym, value: NodeId) -> Result<NodeId, Storage>
        requires { value < length self.old.nodes.items }
        ensures { IfOk result (λ id. Puts self.old self.new (pair (symbol key.0) (tree_at self.old.nodes.items value)) id) }
    {
        let key = self.put(Node::Symbol(key))?;
        self.put(Node::Pair(key, value))
    }

    /// Puts a target as what reads it. A local variable is seen so.
    pub fn put_target(
        &mut self,
        target: Target,
        variable: Variable,
        behind: u32,
    ) -> Result<NodeId, Storage>
        ensures { IfOk result (λ id. Puts self.old self.new (target_tree target variable behind) id) }
    {
        match target {
            Target::Variable(name) => self.put_local(name, variable, behind),
            Target::Field(name) => self.put(Node::Field(name)),
            Target::Global(name) => self.put(Node::Global(name)),
            Target::Constant(name, _) => self.put(Node::Constant(Path::Plain(name))),
        }
    }

    #[inline(always)]
    fn put_plain_assignment(
        &mut self,
        target: Target,
        variable: Variable,
        behind: u32,
        value: NodeId,
    ) -> Result<NodeId, Storage>
        requires { value < length self.old.nodes.items }
        ensures { IfOk result (λ id. Puts self.old self.new (set_target target variable behind (tree_at self.old.nodes.items value)) id) }
    {
        match target {
            Target::Variable(name) => self.put(Node::Assign {
                depth: variable.depth,
                slot: variable.slot,
                name,
                behind,
                value,
            }),
            Target::Field(name) => self.put(Node::SetField(name, value)),
            Target::Global(name) => self.put(Node::SetGlobal(name, value)),
            Target::Constant(name, _) => self.put(Node::SetConstant(name, value)),
        }
    }

    /// Puts an assignment with an operator.
    pub fn put_operation(
        &mut self,
        operation: Operation,
        target: NodeId,
        value: NodeId,
    ) -> Result<NodeId, Storage>
        requires target { target < length self.old.nodes.items }
        requires value { value < length self.old.nodes.items }
        ensures { IfOk result (λ id. Puts self.old self.new (operated operation (tree_at self.old.nodes.items target) (tree_at self.old.nodes.items value)) id) }
    {
        match operation {
            Operation::Infix(Infix::Binary(operator)) => {
                self.put(Node::OperatorAssign(operator, target, value))
            }
            Operation::Infix(Infix::Append) => self.put(Node::AppendAssign(target, value)),
            Operation::Connective(Connective::Or) => self.put(Node::OrAssign(target, value)),
            Operation::Connective(Connective::And) => self.put(Node::AndAssign(target, value)),
        }
    }

    /// Puts an assignment. A local variable is seen so.
    pub fn put_assignment(
        &mut self,
        aim: Aim,
        variable: Variable,
        value: NodeId,
    ) -> Result<NodeId, Storage>
        requires { value < length self.old.nodes.items }
        ensures { IfOk result (λ id. Puts self.old self.new (signed aim.sign aim.target variable aim.behind (tree_at self.old.nodes.items value)) id) }
    {
        match aim.sign {
            Sign::Plain => self.put_plain_assignment(aim.target, variable, aim.behind, value),
            Sign::With(operation) => {
                let target = self.put_target(aim.target, variable, aim.behind)?;
                self.put_operation(operation, target, value)
            }
        }
    }

    /// Puts a use of a local variable that is seen so, behind which so many words stand.
    #[inline(always)]
    pub fn put_local(
        &mut self,
        name: Sym,
        variable: Variable,
        behind: u32,
    ) -> Result<NodeId, Storage>
        ensures { IfOk result (λ id. Puts self.old self.new (local_tree name variable behind) id) }
    {
        self.put(Node::Local {
            depth: variable.depth,
            slot: variable.slot,
            name,
            behind,
        })
    }

    #[inline(always)]
    pub fn put_bare(&mut self, name: Sym) -> Result<NodeId, Storage>
        ensures { IfOk result (λ id. Puts self.old self.new (bare name.0) id) }
    {
        let site = self.site()?;
        self.put(Node::Bare { name, site })
    }

    /// Puts the branches over one another, the last one first.
    pub fn put_choices(
        &mut self,
        mut branches: Vec<(NodeId, NodeId)>,
        otherwise: NodeId,
    ) -> Result<NodeId, Storage>
        requires branches { All (pairs.within (length self.old.nodes.items)) branches.items }
        requires otherwise { otherwise < length self.old.nodes.items }
        ensures { IfOk result (λ id. Puts self.old self.new (chosen (map (pairs.tree self.old.nodes.items) branches.items) (tree_at self.old.nodes.items otherwise)) id) }
    {
        let mut chosen = otherwise;
        while let Some((condition, then)) = branches.pop() {
            chosen = self.put(Node::Choose(condition, then, chosen))?;
        }
        Ok(chosen)
    }

    #[tactic(auto, unfolding(crate::specs::Reading::Operands::int_at))]
    #[inline(always)]
    pub fn int<'w>(&mut self, n: u64, rest: &'w [Word]) -> Parsed<'w, NodeId>
        ensures { Gives self.old self.new result (int_at n (place self.old rest.now)) }
    {
        if n >= INTEGERS {
            return Err(Refusal::Number(rest.len().saturating_add(1)));
        }
        Ok((self.put(Node::Int(n as i64))?, rest))
    }

    #[tactic(auto, unfolding(crate::specs::Reading::Operands::negative_of))]
    pub fn negative<'w>(&mut self, words: &'w [Word]) -> Parsed<'w, NodeId>
        ensures { Gives self.old self.new result (negative_of (place self.old words.now)) }
    {
        let Some((n, rest)) = joined(words) else {
            return Err(Refusal::Unexpected(words.len()));
        };
        if n > INTEGERS {
            return Err(Refusal::Number(words.len()));
        }
        Ok((self.put(Node::Int(negated(n)))?, rest))
    }
}
