//! The usual path of each call, and the limit.

use rr_base::{ClassId, Fault, LimitKind, Sym};
use rr_frames::{Activation, Frames, Given, Shape};
use rr_space::Ref;
use std::test::Fail;

const METHOD: Activation = Activation {
    itself: Ref::Nil,
    given: Given::Nothing,
    home: 0,
    root: 0,
    name: Sym(7),
    class: ClassId::OBJECT,
    parameters: 2,
};

const TWO_OF_THREE: Shape = Shape {
    parameters: 2,
    size: 3,
};

fn int(value: Ref) -> Option<i64> {
    match value {
        Ref::Int(z) => Some(z),
        _ => None,
    }
}

#[test]
fn parameters_have_the_values_and_the_rest_is_nil(rt: HostRuntime) -> Result<(), Fail> {
    let mut frames = Frames::new(rt.alloc(), 10);
    frames.push(&[Ref::Int(1)], Some(Ref::Int(2)), TWO_OF_THREE, METHOD)?;
    frames.push(
        &[Ref::Int(3), Ref::Int(4), Ref::Int(5)],
        None,
        TWO_OF_THREE,
        METHOD,
    )?;
    frames.push(&[], None, TWO_OF_THREE, METHOD)?;
    assert_eq!(rt; frames.len(), 3);
    assert_eq!(rt; int(frames.get(0, 0)), Some(1));
    assert_eq!(rt; int(frames.get(0, 1)), Some(2));
    assert_eq!(rt; int(frames.get(0, 2)), None);
    assert_eq!(rt; int(frames.get(1, 1)), Some(4));
    assert_eq!(rt; int(frames.get(1, 2)), None);
    assert_eq!(rt; int(frames.get(2, 0)), None);
    assert_eq!(rt; int(frames.get(3, 0)), None);
    Ok(())
}

#[test]
fn a_frame_is_written_and_left(rt: HostRuntime) -> Result<(), Fail> {
    let mut frames = Frames::new(rt.alloc(), 10);
    frames.push(&[], None, TWO_OF_THREE, METHOD)?;
    frames.push(
        &[],
        None,
        TWO_OF_THREE,
        Activation {
            name: Sym(8),
            ..METHOD
        },
    )?;
    frames.set(0, 2, Ref::Int(1));
    frames.set(1, 0, Ref::Int(2));
    // There is no such variable, and no such frame.
    frames.set(1, 3, Ref::Int(3));
    frames.set(2, 0, Ref::Int(4));
    assert_eq!(rt; int(frames.get(0, 2)), Some(1));
    assert_eq!(rt; int(frames.get(1, 0)), Some(2));
    assert_eq!(rt; frames.activation(1).map(|a| a.name.0), Some(8));
    frames.pop();
    assert_eq!(rt; frames.len(), 1);
    assert_eq!(rt; int(frames.get(0, 2)), Some(1));
    assert!(rt; frames.activation(1).is_none());
    frames.pop();
    frames.pop();
    assert_eq!(rt; frames.len(), 0);
    Ok(())
}

#[test]
fn there_is_a_limit(rt: HostRuntime) -> Result<(), Fail> {
    let mut frames = Frames::new(rt.alloc(), 2);
    frames.push(&[], None, TWO_OF_THREE, METHOD)?;
    frames.push(&[], None, TWO_OF_THREE, METHOD)?;
    let refused = frames.push(&[], None, TWO_OF_THREE, METHOD);
    assert!(rt; matches!(refused, Err(Fault::Limit(LimitKind::Frames))));
    assert!(rt; !frames.push_usual(&[], None, TWO_OF_THREE, METHOD));
    assert_eq!(rt; frames.len(), 2);
    Ok(())
}

#[test]
fn many_frames_and_large_ones(rt: HostRuntime) -> Result<(), Fail> {
    let mut frames = Frames::new(rt.alloc(), 10_000);
    let large = Shape {
        parameters: 1,
        size: 1_000,
    };
    frames.push(&[Ref::Int(0)], None, large, METHOD)?;
    frames.pop();
    // What was taken before is there, so that a usual push takes nothing.
    assert!(rt; frames.push_usual(&[Ref::Int(1)], Some(Ref::Int(2)), TWO_OF_THREE, METHOD));
    for k in 1..10_000 {
        frames.push(&[Ref::Int(k)], None, TWO_OF_THREE, METHOD)?;
    }
    assert_eq!(rt; frames.len(), 10_000);
    assert_eq!(rt; int(frames.get(0, 1)), Some(2));
    assert_eq!(rt; int(frames.get(9_999, 0)), Some(9_999));
    assert_eq!(rt; int(frames.get(9_999, 1)), None);
    Ok(())
}

#[test]
fn a_frame_stands_inside_another(rt: HostRuntime) -> Result<(), Fail> {
    let mut frames = Frames::new(rt.alloc(), 10);
    assert!(rt; frames.last().is_none());
    // Nothing was taken yet, in which a frame would have room.
    assert!(rt; !frames.push_inside(&[], None, TWO_OF_THREE, 0));
    let outside = Activation { home: 4, ..METHOD };
    frames.push(&[], None, TWO_OF_THREE, outside)?;
    frames.push(&[], None, TWO_OF_THREE, METHOD)?;
    frames.pop();
    // There is no such frame.
    assert!(rt; !frames.push_inside(&[], None, TWO_OF_THREE, 1));
    assert_eq!(rt; frames.len(), 1);
    assert!(rt; frames.push_inside(&[], Some(Ref::Int(3)), TWO_OF_THREE, 0));
    assert_eq!(rt; frames.last().map(|a| a.name.0), Some(7));
    assert_eq!(rt; frames.last().map(|a| a.home), Some(0));
    assert_eq!(rt; int(frames.get(1, 0)), Some(3));
    assert_eq!(rt; int(frames.get(1, 1)), None);
    assert_eq!(rt; int(frames.get(1, 2)), None);
    Ok(())
}
