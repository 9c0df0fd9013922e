//! Steps of ractors that do not run, on channels that never were, and on objects of another kind.

use crate::rows::{check, check_rows, none_is_enabled};
use rr_base::Limits;
use rr_world::World;
use std::test::Fail;

const ROWS: &str = "\
a channel that never was takes and gives nothing
1 close 0: NotEnabled
1 close 2: NotEnabled
1 close_port 0: NotEnabled
1 close_port 2: NotEnabled
1 grab 0: NotEnabled
1 grab 2: NotEnabled
1 pack nil

a channel that never was takes and gives nothing, once it is packed
1 pack nil
1 offer 0: NotEnabled
1 offer 2: NotEnabled
1 offer 1: Offered(0)

an object of another kind is not changed
1 text
1 array
1 hash
1 object
1 exception
1 append r1: NotEnabled
1 append r2: NotEnabled
1 clear r1: NotEnabled
1 take r1 0: NotEnabled
1 take r3 0: NotEnabled
1 raised r3 message nil: NotEnabled
1 push r0 nil: NotEnabled
1 push r2 nil: NotEnabled
1 write r1 0 nil: NotEnabled
1 write r3 0 nil: NotEnabled
1 field r1 7 nil: NotEnabled
1 field r2 7 nil: NotEnabled
1 read r0 place 0: NotEnabled
1 read r2 key 0: NotEnabled
1 read r3 message: NotEnabled
1 read 7 place 0: NotEnabled
1 freeze nil: NotEnabled
1 append 7: NotEnabled
1 read r4 cause
1 set 7 r5
1 freeze r2
1 freeze r4
1 plan r4
1 publish: Published(0)

a frozen object is not changed
1 text
1 array
1 object
1 exception
1 push r1 nil
1 freeze r0
1 freeze r1
1 freeze r2
1 freeze r3
1 append r0: NotEnabled
1 push r1 nil: NotEnabled
1 write r1 0 nil: NotEnabled
1 field r2 7 nil: NotEnabled
1 field r3 7 nil: NotEnabled
1 clear r0: NotEnabled
1 take r1 0: NotEnabled
1 raised r3 ractor nil: NotEnabled
1 freeze r0";

/// Each step, on a text, its own channels and constants.
const EACH: &str = "\
text
freeze r0
append r0
clear r0
push r0 nil
write r0 0 nil
take r0 0
raised r0 cause nil
field r0 7 nil
pair r0 nil nil
delete r0 0
read r0 place 0
pack nil
detach nil
plan nil
publish
promote
put_back
discard
offer 1
accept
open
close 1
close_port 1
last_value
show
withdraw 0
settle 0
grab 1
start
end
set 7 nil
own 7
get 7";

/// The second ractor has a text and a message, and ends.
const ENDED: &str = "\
1 start: Started(2)
1 set 7 nil
2 text
2 pack nil
2 end";

const AFTERWARDS: &str = "\
1 close 2: WasClosed(false)
1 close 1: WasClosed(false)
1 start: Started(3)";

#[test]
fn a_ractor_that_ended_makes_no_step(rt: HostRuntime) -> Result<(), Fail> {
    let mut world = World::new(rt.alloc(), Limits::DEFAULT)?;
    check_rows(&rt, rt.alloc(), &mut world, ENDED)?;
    none_is_enabled(&rt, rt.alloc(), &mut world, 2, EACH)?;
    check_rows(&rt, rt.alloc(), &mut world, AFTERWARDS)
}

#[test]
fn a_ractor_that_never_was_makes_no_step(rt: HostRuntime) -> Result<(), Fail> {
    let mut world = World::new(rt.alloc(), Limits::DEFAULT)?;
    check_rows(&rt, rt.alloc(), &mut world, "1 set 7 nil")?;
    for who in [0, 2, 65_535] {
        none_is_enabled(&rt, rt.alloc(), &mut world, who, EACH)?;
    }
    check_rows(&rt, rt.alloc(), &mut world, "1 start: Started(2)")
}

#[test]
fn what_is_not_enabled(rt: HostRuntime) -> Result<(), Fail> {
    check(&rt, rt.alloc(), Limits::DEFAULT, ROWS)
}
