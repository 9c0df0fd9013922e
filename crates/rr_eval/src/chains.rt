//! Operators one after the other, each on what those before it give and on a part that needs no frame.

ghost use Rattle.std.specs.Prelude.{◌≡◌, ◌+◌, ◌<◌, ◌≤◌, List, false, length, Option, IfOk, IfSome, OnOk};
ghost use Rattle.rr_parser.specs.Grammar.Names.{is_splat};
ghost use Rattle.rr_space.specs.Tables.{Below};
ghost use Rattle.rr_tree.specs.Tree.{Tree, binary, tree_at};
ghost use Rattle.rr_eval.specs.SimpleParts.{AreSimple, IsChain, IsLinked, links_of};
ghost use Rattle.rr_eval.specs.Usual.{TakesNow};
ghost use Rattle.rr_eval.specs.Views.{view_of};
ghost use Rattle.rr_eval.specs.Within.{Reach, reach, IsReached, AreReached};

use crate::engine::Engine;
use crate::prepared::Prepared;
use crate::simple_parts::{ApartPart, SimplePart};
use crate::usual::{Quick, operated};
use rr_space::Space;
use rr_tree::{BinaryOperator, NodeId, Program};
use std::alloc::AllocError;

/// An operator on what stands before it, and the place of its right operand.
#[derive(Clone, Copy)]
pub struct Link {
    pub op: BinaryOperator,
    pub right: NodeId,
}

/// A chain: the place of the first operand, and where its links lie among those of all chains, and how many there are.
#[derive(Clone, Copy)]
pub struct Chain {
    pub first: NodeId,
    pub from: u32,
    pub count: u32,
}

/// The most links of a chain: what is done at once has few steps.
const LONGEST: u32 = 7;

/// The links of a chain, where they lie there.
#[inline(always)]
pub fn links_in(links: &Vec<Link>, chain: Chain) -> Option<&[Link]>
    ensures { IfSome result (λ own. own.now ≡ links_of links.now.items chain) }
{
    let from = chain.from as usize;
    match links.get(from..from + chain.count as usize) {
        Some(own) => Some(own),
        None => None,
    }
}

/// Whether a part is taken for one that a link may have as its right operand: one that may be an integer.
fn is_operand(parts: &Vec<SimplePart>, place: NodeId) -> bool {
    match parts.get(place as usize) {
        Some(&SimplePart::Apart(ApartPart::Chain(_) | ApartPart::Call(_, _))) => false,
        Some(&SimplePart::Value(_)) | Some(&SimplePart::Other) | None => false,
        Some(_) => true,
    }
}

/// The chain that ends with a part: one without links, which would lie behind all, where it is another part that needs no frame.
fn chain_at(program: &Program, parts: &Vec<SimplePart>, place: NodeId, from: u32) -> Option<Chain>
    ensures { (links : List Link) → AreSimple program.now links parts.now.items → from ≤ length links → IfSome result (λ chain. IsLinked program.now links chain (tree_at program.now.nodes.items place)) }
{
    match parts.get(place as usize) {
        Some(&SimplePart::Apart(ApartPart::Chain(chain))) => Some(chain),
        Some(&SimplePart::Apart(ApartPart::Call(_, _))) => None,
        Some(&SimplePart::Value(_)) | Some(&SimplePart::Other) | None => None,
        Some(_) => Some(Chain {
            first: place,
            from,
            count: 0,
        }),
    }
}

/// The chain that ends with an operator on two parts before it, where it is one: a chain, or another part that needs no frame, on its
/// left, and a part that needs none on its right. Its last link is put behind all others. The only fault is want of memory.
pub fn chain_behind(
    program: &Program,
    parts: &Vec<SimplePart>,
    links: &mut Vec<Link>,
    op: BinaryOperator,
    a: NodeId,
    b: NodeId,
) -> Result<Option<Chain>, AllocError>
    requires { AreSimple program.now links.old.items parts.now.items }
    ensures chain { IfOk result (λ found. IfSome found (λ chain. IsChain program.now links.new.items chain (binary op (tree_at program.now.nodes.items a) (tree_at program.now.nodes.items b)))) }
    ensures parts { OnOk result (AreSimple program.now links.new.items parts.now.items) }
{
    let Ok(end) = u32::try_from(links.len()) else {
        return Ok(None);
    };
    let Some(chain) = chain_at(program, parts, a, end) else {
        return Ok(None);
    };
    if !is_operand(parts, b)
        || chain.count >= LONGEST
        || chain.from as usize + chain.count as usize != links.len()
    {
        return Ok(None);
    }
    links.push(Link { op, right: b })?;
    Ok(Some(Chain {
        count: chain.count + 1,
        ..chain
    }))
}

impl Engine {
    /// The value of a part that needs no frame and is no chain.
    #[inline(always)]
    fn operand(&self, prepared: &Prepared, space: &Space, place: NodeId) -> Option<Quick>
        ensures takes { IfSome result (λ q. TakesNow prepared.now.program (view_of self.now) space.now (tree_at prepared.now.program.nodes.items place) q.steps q.value) }
        ensures plain { IfSome result (λ _. is_splat (tree_at prepared.now.program.nodes.items place) ≡ false) }
        ensures some { IfSome result (λ q. 0 < q.steps) }
        ensures few { IfSome result (λ q. q.steps ≤ 3) }
        ensures within { (clusters : Option Below) → AreReached (reach (length space.now.slots) clusters) (view_of self.now) → IfSome result (λ q. IsReached (reach (length space.now.slots) clusters) q.value) }
    {
        match prepared.part(place) {
            Some(SimplePart::Apart(apart)) => self.read_apart(prepared, space, apart),
            _ => self.quick_simple(prepared, place),
        }
    }

    /// The value of a link behind what has a value.
    #[inline(always)]
    fn take_link(
        &self,
        prepared: &Prepared,
        space: &Space,
        found: Quick,
        link: Link,
    ) -> Option<Quick>
        requires few { found.steps ≤ 31 }
        ensures takes { IfSome result (λ q. (tree : Tree) → TakesNow prepared.now.program (view_of self.now) space.now tree found.steps found.value → TakesNow prepared.now.program (view_of self.now) space.now (binary link.op tree (tree_at prepared.now.program.nodes.items link.right)) q.steps q.value) }
        ensures some { IfSome result (λ q. 0 < q.steps) }
        ensures few { IfSome result (λ q. q.steps ≤ found.steps + 4) }
        ensures within { (k : Reach) → IfSome result (λ q. IsReached k q.value) }
    {
        let right = self.operand(prepared, space, link.right)?;
        Some(Quick {
            value: operated(link.op, found.value, right.value)?,
            steps: found.steps + right.steps + 1,
        })
    }

    /// The value of a chain that ends with the part at a place.
    #[inline(always)]
    pub fn chained(
        &self,
        prepared: &Prepared,
        space: &Space,
        place: NodeId,
        chain: Chain,
    ) -> Option<Quick>
        requires { IsChain prepared.now.program prepared.now.simple.links.items chain (tree_at prepared.now.program.nodes.items place) }
        ensures takes { IfSome result (λ q. TakesNow prepared.now.program (view_of self.now) space.now (tree_at prepared.now.program.nodes.items place) q.steps q.value) }
        ensures plain { IfSome result (λ _. is_splat (tree_at prepared.now.program.nodes.items place) ≡ false) }
        ensures some { IfSome result (λ q. 0 < q.steps) }
        ensures few { IfSome result (λ q. q.steps ≤ 31) }
        ensures within { (clusters : Option Below) → AreReached (reach (length space.now.slots) clusters) (view_of self.now) → IfSome result (λ q. IsReached (reach (length space.now.slots) clusters) q.value) }
    {
        let mut links = prepared.links(chain)?;
        let mut found = self.operand(prepared, space, chain.first)?;
        while let [link, more @ ..] = links {
            let link = *link;
            links = more;
            found = self.take_link(prepared, space, found, link)?;
        }
        Some(found)
    }

    /// The value of a part for which a function of its own is called.
    #[cold]
    #[inline(never)]
    fn evaluate_apart(&self, prepared: &Prepared, space: &Space, place: NodeId) -> Option<Quick>
        ensures takes { IfSome result (λ q. TakesNow prepared.now.program (view_of self.now) space.now (tree_at prepared.now.program.nodes.items place) q.steps q.value) }
        ensures plain { IfSome result (λ _. is_splat (tree_at prepared.now.program.nodes.items place) ≡ false) }
        ensures some { IfSome result (λ q. 0 < q.steps) }
        ensures few { IfSome result (λ q. q.steps ≤ 31) }
        ensures within { (clusters : Option Below) → AreReached (reach (length space.now.slots) clusters) (view_of self.now) → IfSome result (λ q. IsReached (reach (length space.now.slots) clusters) q.value) }
    {
        match prepared.part(place) {
            Some(SimplePart::Apart(apart)) => match apart {
                ApartPart::Chain(chain) => self.chained(prepared, space, place, *chain),
                ApartPart::Call(_, _) => self.short_call(prepared, space, place),
                _ => self.read_apart(prepared, space, apart),
            },
            _ => None,
        }
    }

    /// The same. The value is written into memory there, and so that of no other part has to be.
    #[inline(always)]
    pub fn quick_apart(&self, prepared: &Prepared, space: &Space, place: NodeId) -> Option<Quick>
        ensures takes { IfSome result (λ q. TakesNow prepared.now.program (view_of self.now) space.now (tree_at prepared.now.program.nodes.items place) q.steps q.value) }
        ensures plain { IfSome result (λ _. is_splat (tree_at prepared.now.program.nodes.items place) ≡ false) }
        ensures some { IfSome result (λ q. 0 < q.steps) }
        ensures few { IfSome result (λ q. q.steps ≤ 31) }
        ensures within { (clusters : Option Below) → AreReached (reach (length space.now.slots) clusters) (view_of self.now) → IfSome result (λ q. IsReached (reach (length space.now.slots) clusters) q.value) }
    {
        match self.evaluate_apart(prepared, space, place) {
            Some(found) => Some(Quick {
                value: found.value,
                steps: found.steps,
            }),
            None => None,
        }
    }
}
