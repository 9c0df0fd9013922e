//! Values that are moved, put back, and moved to another ractor.

use crate::rows::check;
use rr_base::Limits;
use std::test::Fail;

const ROWS: &str = "\
what is put back is as it was
1 array
1 text
1 push r0 r1
1 detach r0
1 put_back
1 push r0 r0
1 read r0 place 0
1 append r2
1 detach 7
1 put_back

what is moved is shells
1 array
1 text
1 push r0 r1
1 detach r0
1 push r0 r1: NotEnabled
1 append r1: NotEnabled
1 freeze r1: NotEnabled
1 read r0 place 0: NotEnabled
1 detach r1: NotEnabled
1 pack r1: NotEnabled
1 discard
1 put_back: NotEnabled
1 append r1: NotEnabled

a moved text is the receivers
1 start: Started(2)
1 text
1 detach r0
1 offer 2: Offered(0)
1 put_back: NotEnabled
1 detach r0: HoldsShell
1 pack r0: HoldsShell
1 plan r0: HoldsShell
2 accept
2 put_back: NotEnabled
2 open
2 append r0

a refused message keeps its home
1 close 1: WasClosed(false)
1 text
1 detach r0
1 offer 1: Closed
1 put_back
1 append r0";

#[test]
fn what_is_moved(rt: HostRuntime) -> Result<(), Fail> {
    check(&rt, rt.alloc(), Limits::DEFAULT, ROWS)
}
