//! Lists of steps on a new World.

use crate::rows::check;
use rr_base::{Limits, RactorNo};
use rr_world::{Action, NewObject, Operand, Reply, Step, World};
use std::test::Fail;

const MAIN: RactorNo = RactorNo(1);

const ROWS: &str = "\
what is not possible is not enabled
1 discard: NotEnabled
1 open: NotEnabled
1 put_back: NotEnabled
1 publish: NotEnabled
1 promote: NotEnabled
1 offer 1: NotEnabled
1 show: NotEnabled
1 last_value: NotEnabled
1 close 2: NotEnabled
1 close_port 2: NotEnabled
1 grab 2: NotEnabled
2 accept: NotEnabled
0 start: NotEnabled

no step is made of a root that is not there
1 pack r0: NotEnabled
1 detach r0: NotEnabled
1 plan r0: NotEnabled
1 freeze r0: NotEnabled
1 append r0: NotEnabled
1 push r0 nil: NotEnabled
1 write r0 0 nil: NotEnabled
1 field r0 7 nil: NotEnabled
1 read r0 place 0: NotEnabled
1 set 7 r0: NotEnabled

a hand with a copy takes nothing more
1 text
1 pack r0
1 pack nil: NotEnabled
1 detach nil: NotEnabled
1 plan nil: NotEnabled
1 publish: NotEnabled
1 accept: NotEnabled
1 grab 1: NotEnabled
1 withdraw 0: NotEnabled
1 put_back: NotEnabled
1 offer 2: NotEnabled
1 set 7 r0: NotEnabled

a closed inbox keeps what is inside
1 pack 7
1 offer 1: Offered(0)
1 close 1: WasClosed(false)
1 accept
1 discard
1 accept: EmptyAndClosed

objects are changed and read
1 array
1 text
1 append r1
1 push r0 r1
1 write r0 0 7
1 push r0 r1
1 freeze r1
1 read r0 place 1
1 append r2: NotEnabled
1 write r0 2 r1: NotEnabled
1 read r0 place 2: NotEnabled
1 push r1 r0: NotEnabled
1 freeze 7: NotEnabled

fields of an object are set
1 object
1 field r0 7 1
1 field r0 7 r0
1 read r0 field 7
1 freeze r1
1 field r0 8 r0: NotEnabled
1 read r0 field 8: NotEnabled

an element that goes lets the others close up
1 array
1 text
1 push r0 nil
1 push r0 r1
1 take r0 2: NotEnabled
1 take r0 0
1 read r0 place 1: NotEnabled
1 read r0 place 0
1 append r2
1 clear r2
1 take r0 0
1 take r0 0: NotEnabled

the parts and a field of an exception are set
1 exception
1 text
1 raised r0 message r1
1 raised r0 cause r0
1 raised r0 ractor @1
1 field r0 7 1
1 field r0 7 r1
1 read r0 message
1 append r2
1 read r0 cause
1 read r3 ractor
1 append r4: NotEnabled";

const TWO_RACTORS: Limits = Limits {
    ractors: 2,
    ..Limits::DEFAULT
};

const ROWS_OF_TWO: &str = "\
a text goes to another ractor
1 text
2 accept: NotEnabled
1 start: Started(2)
1 start: TooManyRactors
1 pack r0
1 offer 2: Offered(0)
1 freeze r0
2 accept
2 open
2 append r0";

fn by_main(action: Action) -> Step {
    Step { who: MAIN, action }
}

#[test]
fn an_empty_text_is_sent_to_oneself(rt: HostRuntime) -> Result<(), Fail> {
    let mut world = World::new(rt.alloc(), Limits::DEFAULT)?;
    let steps = [
        by_main(Action::Alloc(NewObject::Text)),
        by_main(Action::Pack(Operand::Root(0))),
        by_main(Action::Offer(MAIN)),
        by_main(Action::Accept),
        by_main(Action::Open),
    ];
    let replies = world.run_steps(rt.alloc(), &steps)?;
    assert_eq!(rt; replies.len(), 5);
    assert!(rt; matches!(&replies[2], Reply::Offered(0)));
    for (place, reply) in replies.iter().enumerate() {
        assert!(rt; matches!(reply, Reply::Done) == (place != 2));
    }
    Ok(())
}

#[test]
fn steps_answer_as_their_rows(rt: HostRuntime) -> Result<(), Fail> {
    check(&rt, rt.alloc(), Limits::DEFAULT, ROWS)
}

#[test]
fn steps_answer_as_their_rows_of_two_ractors(rt: HostRuntime) -> Result<(), Fail> {
    check(&rt, rt.alloc(), TWO_RACTORS, ROWS_OF_TWO)
}
