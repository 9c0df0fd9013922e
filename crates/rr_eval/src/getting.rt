//! Constants, as ractors ask the store for them.

ghost use Rattle.std.specs.Prelude.{◌≡◌, length, None};
ghost use Rattle.rr_store.specs.Stores.{constant_of};
ghost use Rattle.rr_eval.specs.Alone.{own_constant, constant_response};
ghost use Rattle.rr_eval.specs.Within.{reach, IsResponseReached};

use crate::constant::set_constant;
use crate::owners::is_main;
use crate::problem::{Problem, Response};
use rr_base::{Fault, Sym};
use rr_space::Space;
use rr_store::{ConstValue, StoreState};

/// What a constant is that the main ractor has itself.
fn own_constant(space: &Space, name: Sym, unset: Response) -> Response
    ensures is { result ≡ own_constant name space.now unset }
    ensures within { IsResponseReached (reach (length space.now.slots) None) unset → IsResponseReached (reach (length space.now.slots) None) result }
{
    if !is_main(space) {
        return Response::Fails(Problem::IsolatedConstant(name));
    }
    match set_constant(space, name) {
        Some(response) => response,
        None => unset,
    }
}

/// What a constant is for the ractor whose space it is, as the store says: its value where that is shareable, `unset` where it was never
/// set. A value that the main ractor keeps itself is for that one alone; another one is refused.
pub fn get_constant(space: &Space, store: &StoreState, name: Sym, unset: Response) -> Response
    ensures is { result ≡ constant_response (constant_of store.now name) name space.now unset }
    ensures within { IsResponseReached (reach (length space.now.slots) None) unset → IsResponseReached (reach (length space.now.slots) None) result }
{
    match store.get_const(space.owner(), name) {
        Ok(ConstValue::Shareable(value)) => Response::Gives(value),
        Ok(ConstValue::Own) => own_constant(space, name, unset),
        Err(Fault::NotMain) => own_constant(space, name, unset),
        Err(_) => unset,
    }
}
