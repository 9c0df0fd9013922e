//! Plans, what is published of them, and constants that are set to it.

use crate::rows::check;
use rr_base::Limits;
use std::test::Fail;

const ROWS: &str = "\
a plan is held until it is dropped
1 text
1 plan r0
1 plan 7
1 publish: NotEnabled
1 freeze r0
1 plan r0
1 plan r0: NotEnabled
1 promote: NotEnabled
1 pack nil: NotEnabled
1 offer 1: NotEnabled
1 open: NotEnabled
1 discard
1 discard: NotEnabled

what is published is every ractors
1 text
1 freeze r0
1 pack r0: NotEnabled
1 plan r0
1 set 7 r0: NotEnabled
1 publish: Published(0)
1 publish: NotEnabled
1 discard: NotEnabled
1 pack nil: NotEnabled
1 set 7 nil: NotEnabled
1 own 7: NotEnabled
1 freeze r0: NotEnabled
1 array
1 push r1 r0
1 read r1 place 0
1 promote
1 promote: NotEnabled
1 set 7 r1: NotEnabled
1 set 7 r2
1 freeze r0: NotEnabled
1 start: Started(2)
2 get 7
2 append r0: NotEnabled
2 pack r0
2 offer 1: Offered(0)
1 accept
1 open
1 set 7 r3

a plan has what is shareable alone
1 array
1 text
1 push r0 r1
1 freeze r1
1 pack r0: NotEnabled
1 plan r0
1 publish: Published(0)
1 push r0 r1
1 promote
1 detach r0
1 put_back
1 read r0 place 1
1 set 7 r2
1 set 7 r0: NotEnabled
1 freeze r0
1 plan r0
1 publish: Published(1)";

const FEW_EVENTS: Limits = Limits {
    events: 3,
    ..Limits::DEFAULT
};

const ROWS_OF_FEW: &str = "\
a full history takes no cluster
1 own 7
1 own 7
1 own 7
1 text
1 freeze r0
1 plan r0
1 publish: HistoryFull
1 promote: NotEnabled
1 discard";

#[test]
fn what_is_planned_and_published(rt: HostRuntime) -> Result<(), Fail> {
    check(&rt, rt.alloc(), Limits::DEFAULT, ROWS)
}

#[test]
fn what_is_planned_and_published_in_a_short_history(rt: HostRuntime) -> Result<(), Fail> {
    check(&rt, rt.alloc(), FEW_EVENTS, ROWS_OF_FEW)
}
