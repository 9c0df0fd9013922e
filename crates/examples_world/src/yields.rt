//! What a ractor shows in its own port.

use crate::rows::check;
use rr_base::Limits;
use std::test::Fail;

const FEW_EVENTS: Limits = Limits {
    events: 8,
    ..Limits::DEFAULT
};

const ROWS_OF_FEW: &str = "\
a port shows what it is given once
1 start: Started(2)
2 show: NotEnabled
2 array
2 pack r0
2 show: Offered(0)
2 settle 0: Settled(Shown)
1 grab 2
2 settle 0: Settled(Taken)
2 withdraw 0: NotShown
2 pack 7
2 show: Offered(1)
2 close_port 2: WasClosed(false)
1 discard
1 grab 2: EmptyAndClosed
2 settle 1: Settled(Closed)
2 withdraw 1
2 last_value: Closed
2 show: Closed
2 show: HistoryFull";

const ROWS: &str = "\
a moved message that is not taken comes home
1 text
1 detach r0
1 show: Offered(0)
1 append r0: NotEnabled
1 pack 7: NotEnabled
1 put_back: NotEnabled
1 withdraw 1: NotEnabled
1 withdraw 0
1 put_back
1 append r0

the home of what was taken goes
1 start: Started(2)
1 text
1 detach r0
1 show: Offered(0)
2 grab 1
2 open
2 append r0
1 pack 7: NotEnabled
1 settle 1: Settled(Taken)
1 pack 7: NotEnabled
1 settle 0: Settled(Taken)
1 pack 7
1 discard
1 text
1 detach r1
1 show: Offered(1)
2 grab 1
1 withdraw 1: NotShown
1 pack 7";

#[test]
fn what_is_shown_in_a_short_history(rt: HostRuntime) -> Result<(), Fail> {
    check(&rt, rt.alloc(), FEW_EVENTS, ROWS_OF_FEW)
}

#[test]
fn what_is_shown(rt: HostRuntime) -> Result<(), Fail> {
    check(&rt, rt.alloc(), Limits::DEFAULT, ROWS)
}
