//! Ports.

use crate::rows::check;
use rr_base::Limits;
use std::test::Fail;

const ROWS: &str = "\
a port is closed once
1 close_port 2: NotEnabled
1 start: Started(2)
1 close_port 2: WasClosed(false)
2 close_port 2: WasClosed(true)
1 pack 7
1 offer 2: Offered(0)
2 close_port 1: WasClosed(false)
2 close 2: WasClosed(false)

a last value goes to one taker
1 start: Started(2)
1 grab 2: Empty
2 text
2 last_value: NotEnabled
2 detach r0
2 last_value: Offered(0)
2 end
1 grab 2: GrabbedLast(false)
1 grab 2: NotEnabled
1 open
1 append r0
1 grab 2: EmptyAndClosed
1 close_port 2: WasClosed(true)

a last fault comes too late
1 close_port 1: WasClosed(false)
1 text
1 detach r0
1 last_fault: Closed
1 last_fault: NotEnabled
1 put_back
1 append r0";

#[test]
fn ports_are_closed_and_grabbed(rt: HostRuntime) -> Result<(), Fail> {
    check(&rt, rt.alloc(), Limits::DEFAULT, ROWS)
}
