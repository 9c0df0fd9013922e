//! The symbols by which a program defines what is called without its name.

ghost use Rattle.std.specs.Prelude.{◌≡◌};
ghost use Rattle.rr_tree.specs.Methods.{number_in};
ghost use Rattle.rr_eval.specs.declared.call.Callee.{Callee as Called};
ghost use Rattle.rr_eval.specs.Dispatch.{called_name, plain_named};
ghost use Rattle.rr_eval.specs.Prepared.{AreSymbolsOf};
ghost use Rattle.rr_eval.specs.Turns.{context_of};

use crate::call::Callee;
use rr_base::Sym;
use rr_tree::{BinaryOperator, MethodName, Program};

/// For each operator the symbol of its name, where the program has one.
#[derive(Clone, Copy, Drop)]
pub struct OperatorSymbols {
    pub add: Option<Sym>,
    pub subtract: Option<Sym>,
    pub multiply: Option<Sym>,
    pub divide: Option<Sym>,
    pub remainder: Option<Sym>,
    pub less: Option<Sym>,
    pub less_or_equal: Option<Sym>,
    pub greater: Option<Sym>,
    pub greater_or_equal: Option<Sym>,
    pub compare: Option<Sym>,
    pub equal: Option<Sym>,
    pub opposite: Option<Sym>,
    pub index: Option<Sym>,
    pub append: Option<Sym>,
    pub set_index: Option<Sym>,
    pub initialize: Option<Sym>,
}

impl OperatorSymbols {
    /// The symbols of a program.
    pub fn of(program: &Program) -> OperatorSymbols
        ensures { AreSymbolsOf program.now result }
    {
        OperatorSymbols {
            add: program.symbol_named(b"+"),
            subtract: program.symbol_named(b"-"),
            multiply: program.symbol_named(b"*"),
            divide: program.symbol_named(b"/"),
            remainder: program.symbol_named(b"%"),
            less: program.symbol_named(b"<"),
            less_or_equal: program.symbol_named(b"<="),
            greater: program.symbol_named(b">"),
            greater_or_equal: program.symbol_named(b">="),
            compare: program.symbol_named(b"<=>"),
            equal: program.symbol_named(b"=="),
            opposite: program.symbol_named(b"-@"),
            index: program.symbol_named(b"[]"),
            append: program.symbol_named(b"<<"),
            set_index: program.symbol_named(b"[]="),
            initialize: program.symbol_named(b"initialize"),
        }
    }

    /// The symbol of an operator of two operands; `!=` asks `==`.
    fn operator(&self, program: &Program, operator: BinaryOperator) -> Option<Sym>
        requires { AreSymbolsOf program.now self.now }
        ensures { plain_named (number_in result) ≡ called_name (context_of program.now) (Called.Operator operator) }
    {
        match operator {
            BinaryOperator::Add => self.add,
            BinaryOperator::Subtract => self.subtract,
            BinaryOperator::Multiply => self.multiply,
            BinaryOperator::Divide => self.divide,
            BinaryOperator::Remainder => self.remainder,
            BinaryOperator::Less => self.less,
            BinaryOperator::LessOrEqual => self.less_or_equal,
            BinaryOperator::Greater => self.greater,
            BinaryOperator::GreaterOrEqual => self.greater_or_equal,
            BinaryOperator::Compare => self.compare,
            BinaryOperator::Equal | BinaryOperator::NotEqual => self.equal,
        }
    }

    /// What calls a method of the program: a name, or the symbol of an operator.
    #[inline(always)]
    pub fn called_name(&self, program: &Program, callee: Callee) -> Option<MethodName>
        requires { AreSymbolsOf program.now self.now }
        ensures { result ≡ called_name (context_of program.now) callee }
    {
        let symbol = match callee {
            Callee::Operator(operator) => self.operator(program, operator),
            Callee::Opposite => self.opposite,
            Callee::Index => self.index,
            Callee::Append => self.append,
            Callee::SetIndex => self.set_index,
            Callee::Initialize => self.initialize,
            Callee::Setter(name) => return Some(MethodName::Setter(name)),
            Callee::Name(name) => Some(name),
        };
        match symbol {
            Some(symbol) => Some(MethodName::Plain(symbol)),
            None => None,
        }
    }
}
