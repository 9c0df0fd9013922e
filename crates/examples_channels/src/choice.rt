//! The rounds against a plain program of them.

use rr_select::{Act, Answer, Choice, Ending};
use std::alloc::Global;
use std::test::Fail;

// A round among three ports and an inbox, with a value of its own and without.
const WITH_OWN: [Act; 7] = [
    Act::Try(0),
    Act::Try(1),
    Act::Try(2),
    Act::Try(3),
    Act::Offer,
    Act::Sleep,
    Act::Withdraw,
];

const WITHOUT: [Act; 5] = [
    Act::Try(0),
    Act::Try(1),
    Act::Try(2),
    Act::Try(3),
    Act::Sleep,
];

const TRIED: [Answer; 4] = [
    Answer::Nothing,
    Answer::Gave,
    Answer::Closed,
    Answer::Failed,
];

// The answers that an act can have, by a number.
fn answer_to(act: Act, number: u32) -> Answer {
    match act {
        Act::Try(_) => TRIED[number as usize % 4],
        Act::Offer if number % 4 == 3 => Answer::Refused,
        Act::Offer => Answer::Shown,
        Act::Withdraw if number % 2 == 1 => Answer::Taken,
        Act::Withdraw => Answer::Back,
        Act::Sleep | Act::End(_) => Answer::Woken,
    }
}

fn plain_ending(act: Act, answer: Answer) -> Option<Ending> {
    match (act, answer) {
        (Act::Try(place), Answer::Gave) => Some(Ending::Got(place)),
        (Act::Try(place), Answer::Closed) => Some(Ending::Closed(place)),
        (Act::Try(place), Answer::Failed) => Some(Ending::Failed(place)),
        (Act::Offer, Answer::Refused) => Some(Ending::Refused),
        (Act::Withdraw, Answer::Taken) => Some(Ending::Yielded),
        (_, _) => None,
    }
}

// The acts of a round, one after another and round after round, until an answer ends the select.
fn plain_act(round: &[Act], answers: &[Answer]) -> Option<Act> {
    let mut at = 0;
    for answer in answers {
        if let Some(ending) = plain_ending(*round.get(at)?, *answer) {
            return Some(Act::End(ending));
        }
        at = if at + 1 < round.len() { at + 1 } else { 0 };
    }
    round.get(at).copied()
}

// Whether the acts of a select are those of the plain program before each of nine answers, the digits of a number.
fn follows(alloc: Global, own: bool, order: u32) -> Result<bool, Fail> {
    let round = if own {
        WITH_OWN.as_slice()
    } else {
        WITHOUT.as_slice()
    };
    let mut choice = Choice::new(4, own);
    let mut answers = Vec::new(alloc);
    let mut rest = order;
    for _ in 0..9 {
        let act = choice.act();
        if plain_act(round, answers.as_slice()) != Some(act) {
            return Ok(false);
        }
        let answer = answer_to(act, rest);
        rest /= 4;
        answers.push(answer)?;
        choice.next(answer);
    }
    Ok(true)
}

#[test]
fn every_order_of_eight_answers_over_three_ports_and_an_inbox(rt: HostRuntime) -> Result<(), Fail> {
    for order in 0..65_536u32 {
        assert!(rt; follows(rt.alloc(), true, order)?, "in order {order}");
        assert!(rt;
            follows(rt.alloc(), false, order)?,
            "without an own value, in order {order}"
        );
    }
    Ok(())
}

#[test]
fn nothing_listed_shows_the_own_value_and_sleeps(rt: HostRuntime) -> Result<(), Fail> {
    let mut choice = Choice::new(0, true);
    assert!(rt; choice.act() == Act::Offer);
    for (answer, act) in [
        (Answer::Shown, Act::Sleep),
        (Answer::Woken, Act::Withdraw),
        (Answer::Back, Act::Offer),
        (Answer::Shown, Act::Sleep),
        (Answer::Woken, Act::Withdraw),
        (Answer::Taken, Act::End(Ending::Yielded)),
        (Answer::Gave, Act::End(Ending::Yielded)),
    ] {
        assert!(rt; choice.next(answer) == act);
    }
    Ok(())
}
