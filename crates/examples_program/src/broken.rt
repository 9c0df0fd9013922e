//! Scripts that are cut off, and scripts with a broken byte.

use crate::rows::RUN;
use crate::run::run_script;
use crate::table::script_of;
use rr_base::{Fault, SyntaxKind};
use rr_eval::Outcome;
use std::alloc::Global;
use std::process::Abort;
use std::test::Fail;

#[test]
fn every_beginning_is_answered(rt: HostRuntime) -> Result<(), Fail> {
    for line in RUN.lines() {
        let (name, script, _) = script_of(rt.alloc(), line)?;
        for end in 0..script.len() {
            let left = run_script(rt.alloc(), &script[..end]);
            assert!(rt;
                matches!(
                    left.ended,
                    Ok(Outcome::Done | Outcome::Raised(_)) | Err(Fault::Syntax { .. })
                ),
                "{name} up to {end}"
            );
        }
    }
    Ok(())
}

fn check_broken(
    rt: &impl Abort,
    alloc: Global,
    script: &[u8],
    place: usize,
    name: &str,
) -> Result<(), Fail> {
    let mut broken = script.to_vec(alloc)?;
    if let Some(byte) = broken.get_mut(place) {
        *byte = 0xFF;
    }
    let left = run_script(alloc, broken.as_slice());
    assert!(rt;
        matches!(
            left.ended,
            Err(Fault::Syntax {
                kind: SyntaxKind::Encoding,
                ..
            })
        ),
        "{name} broken at {place}"
    );
    assert_eq!(rt; left.printed.len(), 0, "{name} broken at {place}");
    Ok(())
}

#[test]
fn a_broken_byte_is_refused(rt: HostRuntime) -> Result<(), Fail> {
    for line in RUN.lines() {
        let (name, script, _) = script_of(rt.alloc(), line)?;
        for place in 0..script.len() {
            check_broken(&rt, rt.alloc(), script.as_slice(), place, name)?;
        }
    }
    Ok(())
}
