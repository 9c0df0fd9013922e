//! Ractors that end.

use crate::rows::check;
use rr_base::Limits;
use std::test::Fail;

const ROWS: &str = "\
what has ended does nothing
1 start: Started(2)
2 text
2 end
2 append r0: NotEnabled
2 text: NotEnabled
2 start: NotEnabled
2 close 1: NotEnabled
2 end: NotEnabled
1 start: Started(3)

the inbox of what has ended stays
1 start: Started(2)
2 pack 7
2 end
1 pack 7
1 offer 2: Offered(0)
1 close 2: WasClosed(false)
1 end
1 discard: NotEnabled";

#[test]
fn what_has_ended(rt: HostRuntime) -> Result<(), Fail> {
    check(&rt, rt.alloc(), Limits::DEFAULT, ROWS)
}
