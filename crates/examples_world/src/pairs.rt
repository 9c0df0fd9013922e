//! Pairs of a hash.

use crate::rows::check;
use rr_base::Limits;
use std::test::Fail;

const ROWS: &str = "\
texts of the same bytes are one key
1 hash
1 text
1 text
1 freeze r1
1 freeze r2
1 pair r0 7 r1
1 pair r0 r1 1
1 pair r0 r2 r0
1 read r0 key 2: NotEnabled
1 read r0 value 1
1 pair r3 nil nil
1 read r0 key 2

a pair that goes lets the others close up
1 hash
1 text
1 text
1 freeze r1
1 freeze r2
1 pair r0 true nil
1 pair r0 r1 r0
1 delete r0 2: NotEnabled
1 delete r0 0
1 read r0 value 1: NotEnabled
1 read r0 value 0
1 pair r0 r2 nil
1 read r0 key 1: NotEnabled
1 delete r3 0
1 delete r3 0: NotEnabled

a pair of a published key is sent
1 hash
1 text
1 text
1 freeze r1
1 freeze r2
1 start: Started(2)
1 plan r1
1 publish: Published(0)
1 pair r0 r1 1
1 promote
1 pair r0 r2 2
1 read r0 key 1: NotEnabled
1 set 7 r1
1 pack r0
1 offer 2: Offered(0)
2 accept
2 open
2 get 7
2 pair r0 r1 r0
2 read r0 key 1: NotEnabled
2 read r0 value 0
2 freeze r2
2 delete r0 0: NotEnabled

what is no key is put under none
1 hash
1 text
1 array
1 freeze r2
1 hash
1 freeze r3
1 pair r0 r1 nil: NotEnabled
1 pair r0 r2 nil: NotEnabled
1 pair r0 r0 nil: NotEnabled
1 pair r0 r9 nil: NotEnabled
1 pair r0 nil r9: NotEnabled
1 pair r1 nil nil: NotEnabled
1 pair r2 nil nil: NotEnabled
1 pair r3 nil nil: NotEnabled
1 pair nil nil nil: NotEnabled
1 delete r0 0: NotEnabled
1 delete r1 0: NotEnabled
1 delete r3 0: NotEnabled
1 delete 7 0: NotEnabled
1 freeze r1
1 pair r0 r1 nil
1 plan r1";

#[test]
fn pairs_of_a_hash(rt: HostRuntime) -> Result<(), Fail> {
    check(&rt, rt.alloc(), Limits::DEFAULT, ROWS)
}
