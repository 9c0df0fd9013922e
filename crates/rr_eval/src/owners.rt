//! Whose objects these are.

ghost use Rattle.std.specs.Prelude.{◌≡◌};
ghost use Rattle.rr_eval.specs.Owners.{is_main};

use rr_base::RactorNo;
use rr_space::Space;

/// The main ractor, which is the first one.
pub const MAIN: RactorNo = RactorNo(1);

/// Whether these are the objects of the main ractor.
#[inline(always)]
pub fn is_main(space: &Space) -> bool
    ensures { result ≡ is_main space.now }
{
    space.owner().0 == MAIN.0
}
