//! What a hand does not allow, by what it holds.

use crate::rows::check;
use rr_base::Limits;
use std::test::Fail;

const ROWS: &str = "\
a moved message leaves no room
1 text
1 detach r0
1 pack nil: NotEnabled
1 detach nil: NotEnabled
1 plan nil: NotEnabled
1 publish: NotEnabled
1 promote: NotEnabled
1 accept: NotEnabled
1 grab 1: NotEnabled
1 withdraw 0: NotEnabled
1 put_back
1 append r0

a home alone waits for its message
1 text
1 detach r0
1 show: Offered(0)
1 pack nil: NotEnabled
1 detach nil: NotEnabled
1 plan nil: NotEnabled
1 publish: NotEnabled
1 promote: NotEnabled
1 put_back: NotEnabled
1 discard: NotEnabled
1 offer 1: NotEnabled
1 open: NotEnabled
1 accept: NotEnabled
1 grab 1: NotEnabled
1 show: NotEnabled
1 last_value: NotEnabled
1 withdraw 1: NotEnabled
1 withdraw 0
1 put_back

a plan leaves no room
1 text
1 freeze r0
1 plan r0
1 pack nil: NotEnabled
1 detach nil: NotEnabled
1 plan nil: NotEnabled
1 promote: NotEnabled
1 put_back: NotEnabled
1 offer 1: NotEnabled
1 open: NotEnabled
1 accept: NotEnabled
1 grab 1: NotEnabled
1 show: NotEnabled
1 last_fault: NotEnabled
1 withdraw 0: NotEnabled
1 set 7 nil
1 publish: Published(0)

a published plan is promoted alone
1 text
1 freeze r0
1 plan r0
1 publish: Published(0)
1 pack nil: NotEnabled
1 detach nil: NotEnabled
1 plan nil: NotEnabled
1 publish: NotEnabled
1 put_back: NotEnabled
1 discard: NotEnabled
1 offer 1: NotEnabled
1 open: NotEnabled
1 accept: NotEnabled
1 grab 1: NotEnabled
1 show: NotEnabled
1 last_value: NotEnabled
1 withdraw 0: NotEnabled
1 set 7 r0: NotEnabled
1 set 7 nil: NotEnabled
1 own 7: NotEnabled
1 freeze r0: NotEnabled
1 close 1: WasClosed(false)
1 promote
1 set 7 r0";

#[test]
fn what_a_hand_does_not_allow(rt: HostRuntime) -> Result<(), Fail> {
    check(&rt, rt.alloc(), Limits::DEFAULT, ROWS)
}
