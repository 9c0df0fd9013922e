//! Constants that are set and got.

use crate::rows::check;
use rr_base::Limits;
use std::test::Fail;

const ROWS: &str = "\
each ractor gets an immediate
1 start: Started(2)
1 array
1 get 7: Unknown
2 set 7 1
1 get 7
1 set 7 r0: NotEnabled
1 set 7 r1
1 set 7 r2: NotEnabled
1 push r0 r1
1 push r1 r0: NotEnabled";

const FEW_EVENTS: Limits = Limits {
    events: 3,
    ..Limits::DEFAULT
};

const ROWS_OF_FEW: &str = "\
what the main ractor keeps is its own
1 start: Started(2)
2 own 7: NotShareable
1 own 7
1 get 7: OfMain
2 get 7: NotMain
2 set 7 nil
2 get 7
1 set 1 nil
1 set 7 true: HistoryFull
2 own 7: HistoryFull";

#[test]
fn constants_are_set_and_got(rt: HostRuntime) -> Result<(), Fail> {
    check(&rt, rt.alloc(), Limits::DEFAULT, ROWS)
}

#[test]
fn constants_are_set_and_got_in_a_short_history(rt: HostRuntime) -> Result<(), Fail> {
    check(&rt, rt.alloc(), FEW_EVENTS, ROWS_OF_FEW)
}
