//! The built-in methods that call their block again and again, and what a call of one is asked before its first round.

ghost use Rattle.std.specs.Prelude.{◌≡◌, None, IfOk, map, slice_index_or};
ghost use Rattle.std.specs.Option.{option_map};
ghost use Rattle.rr_builtin.specs.Acts.{outcome_of};
ghost use Rattle.rr_builtin.specs.Iterations.{iteration_named, iterates, argument_count, bound_refusal, refusal, IterationNamesAreOne, IterationNamesAreMet, IterationsAreApart, IterationsAreByName};

use crate::built::Built;
use crate::calls::argument_at;
use crate::kinds::{is_array_kind, is_container, is_integer_kind, is_shell_kind};
use crate::problem::Problem;
use rr_base::Sym;
use rr_space::{Kind, Ref, Space};
use rr_tree::Program;
use std::alloc::{AllocError, Global};
use std::marker::Model;

/// A method that calls its block again and again.
#[derive(Clone, Copy, Drop)]
pub enum Iteration {
    Times,
    Upto,
    Each,
    EachWithIndex,
    Map,
    Select,
}

/// The iteration of a name.
#[tactic(auto, unfolding(crate::specs::Iterations::iteration_named))]
fn iteration_named(name: &[u8]) -> Option<Iteration>
    ensures { result ≡ iteration_named name.now }
{
    let iteration = if name == b"times".as_slice() {
        Iteration::Times
    } else if name == b"upto".as_slice() {
        Iteration::Upto
    } else if name == b"each".as_slice() {
        Iteration::Each
    } else if name == b"each_with_index".as_slice() {
        Iteration::EachWithIndex
    } else if name == b"map".as_slice() {
        Iteration::Map
    } else if name == b"select".as_slice() {
        Iteration::Select
    } else {
        return None;
    };
    Some(iteration)
}

/// The iterations of a program's names, by the numbers of the names.
#[derive(Drop)]
pub struct Iterations {
    by_symbol: Vec<Option<Iteration>>,
}

impl Model for Iterations {
    ghost use Rattle.std.specs.Prelude.{List, Option};
    ghost use Rattle.rr_builtin.specs.declared.iterations.Iteration.{Iteration};

    ghost Value = { List (Option Iteration) };

    ghost view = { λ s. s.by_symbol.items };
}

impl Iterations {
    /// The iterations that the names of the program lead to.
    pub fn of(alloc: Global, program: &Program) -> Result<Iterations, AllocError>
        ensures { IfOk result (λ iterations. iterations ≡ map (λ s. iteration_named s.items) program.now.symbols.items) }
    {
        let by_symbol = program
            .symbols
            .iter()
            .map(|name| iteration_named(name))
            .collect(alloc)?;
        Ok(Iterations { by_symbol })
    }

    /// The iteration of a name; none where none has it.
    pub fn find(&self, name: Sym) -> Option<Iteration>
        ensures { result ≡ slice_index_or self.now name.0 None }
    {
        match self.by_symbol.get(name.0 as usize) {
            Some(iteration) => *iteration,
            None => None,
        }
    }
}

/// Whether values of the kind have the iteration.
pub fn iterates(kind: Kind, iteration: Iteration) -> bool
    ensures { result ≡ iterates kind iteration }
{
    match iteration {
        Iteration::Times => is_integer_kind(kind),
        Iteration::Upto => is_integer_kind(kind),
        Iteration::Each => is_container(kind),
        Iteration::EachWithIndex => is_array_kind(kind),
        Iteration::Map => is_array_kind(kind),
        Iteration::Select => is_array_kind(kind),
    }
}

/// How many arguments the iteration takes.
fn argument_count(iteration: Iteration) -> usize
    ensures { result ≡ argument_count iteration }
{
    match iteration {
        Iteration::Upto => 1,
        _ => 0,
    }
}

/// What is raised for the bound of an iteration; none where it has none, or an integer.
fn bound_refused(space: &Space, iteration: Iteration, bound: Ref) -> Option<Built>
    ensures { option_map outcome_of result ≡ bound_refusal space.now iteration bound }
{
    match iteration {
        Iteration::Upto => match bound {
            Ref::Int(_) => None,
            _ => Some(Built::Raised(Problem::WrongType(space.class_of(bound)))),
        },
        _ => None,
    }
}

/// What a call of an iteration comes to that does not begin; none where it begins.
///
/// It is asked in this order whether the receiver was moved away, whether it has the method, whether the number of
/// arguments is right, and whether the bound of `upto` is an integer.
pub fn refused(
    space: &Space,
    receiver: Ref,
    iteration: Iteration,
    arguments: &[Ref],
) -> Option<Built>
    ensures { option_map outcome_of result ≡ refusal space.now receiver iteration arguments.now }
{
    let kind = space.kind_of(receiver);
    if is_shell_kind(kind) {
        return Some(Built::Raised(Problem::Moved));
    }
    if !iterates(kind, iteration) {
        return Some(Built::Missing);
    }
    let count = argument_count(iteration);
    if arguments.len() != count {
        return Some(Built::Raised(Problem::Count {
            given: arguments.len(),
            least: count,
            most: count,
        }));
    }
    bound_refused(space, iteration, argument_at(arguments, 0))
}

/// Each iteration has a name of its own, which is no other method's, and what a name finds has that name.
pub fn iterations_have_names()
    ensures one { IterationNamesAreOne }
    ensures met { IterationNamesAreMet }
    ensures apart { IterationsAreApart }
    ensures table { IterationsAreByName }
{}
