//! Constants that a ractor sets and another one asks for.

ghost use Rattle.std.specs.Prelude.{Some, []};
ghost use Rattle.rr_eval.specs.Within.{reach, IsReached};

use crate::block::{MAIN, SECOND};
use rr_base::{Fault, RactorNo, Sym};
use rr_eval::{Problem, Response, get_constant, make_first, set_constant};
use rr_space::{Ref, Space};
use rr_store::StoreState;
use std::alloc::Global;
use std::process::Abort;
use std::test::Fail;

/// What setting a constant gives a ractor whose space has its first objects, and what the constant is then for another one.
fn set_and_get(
    alloc: Global,
    owner: RactorNo,
    value: Ref,
    asks: RactorNo,
) -> Result<(Response, Response), Fault>
    requires { IsReached (reach 3 (Some [])) value }
{
    let name = Sym(0);
    let mut store = StoreState::new(alloc, 100);
    let mut space = Space::new(alloc, owner, 1000);
    make_first(alloc, &mut space)?;
    let set = set_constant(alloc, &mut space, &mut store, name, value)?;
    let other = Space::new(alloc, asks, 1000);
    let missing = Response::Fails(Problem::MissingConstant(name));
    Ok((set, get_constant(&other, &store, name, missing)))
}

/// A response in a few words.
fn told(response: Response) -> &'static str {
    match response {
        Response::Gives(Ref::Int(3)) => "three",
        Response::Gives(Ref::Local(0)) => "the first object",
        Response::Fails(Problem::IsolatedConstant(_)) => "not shareable",
        Response::Fails(Problem::MissingConstant(_)) => "missing",
        _ => "another response",
    }
}

fn check(
    rt: &impl Abort,
    alloc: Global,
    owner: RactorNo,
    value: Ref,
    asks: RactorNo,
    wanted: (&str, &str),
)
    requires { IsReached (reach 3 (Some [])) value }
{
    match set_and_get(alloc, owner, value, asks) {
        Ok((set, found)) => assert_eq!(rt; (told(set), told(found)), wanted),
        Err(_) => assert!(rt; false, "refused"),
    }
}

#[test]
fn a_value_that_is_no_object_is_for_all(rt: HostRuntime) {
    let three = ("three", "three");
    check(&rt, rt.alloc(), MAIN, Ref::Int(3), SECOND, three);
    check(&rt, rt.alloc(), SECOND, Ref::Int(3), MAIN, three);
}

#[test]
fn an_object_is_for_the_main_ractor_alone(rt: HostRuntime) {
    let kept = ("the first object", "not shareable");
    check(&rt, rt.alloc(), MAIN, Ref::Local(0), SECOND, kept);
    let refused = ("not shareable", "missing");
    check(&rt, rt.alloc(), SECOND, Ref::Local(0), MAIN, refused);
}
