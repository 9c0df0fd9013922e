//! A select in progress.

ghost use Rattle.std.specs.Prelude.{◌≡◌, ◌+◌, ◌≤◌, ◌<◌, ◌++◌, ◌∷◌, [], ℕ, Bool, List, get_or};
ghost use Rattle.rr_select.specs.Rounds.{Rounds, IsAfter, round, asked, ends, act_after, act_behind_entries, act_behind, next_of, over_more, takes, moves};
ghost use Rattle.rr_select.specs.declared.round.Answer.{Answer};
ghost use Rattle.rr_select.specs.declared.round.Answer.TheVariants.{Taken};
ghost use Rattle.rr_select.specs.declared.round.Ending.{Ending};
ghost use Rattle.rr_select.specs.declared.round.Act.TheVariants.{Try, Sleep, Withdraw, End};

use super::round::{Act, Answer, Ending};
use std::marker::Model;

/// A select in progress: how many entries it has, whether it has a value of its own, and what it does next.
///
/// What it does next is always what the rounds ask for after some answers.
#[derive(Drop)]
pub struct Choice {
    count: u32,
    own: bool,
    act: Act,
}

impl Model for Choice {
    ghost use Rattle.std.specs.Prelude.{List};
    ghost use Rattle.rr_select.specs.Rounds.{Rounds, IsAfter};
    ghost use Rattle.rr_select.specs.declared.round.Answer.{Answer};

    ghost Value = { Rounds };

    ghost view = { λ c. record { count = c.count; own = c.own; act = c.act } };

    ghost invariant = { λ c. (answers : List Answer) × IsAfter (record { count = c.count; own = c.own; act = c.act }) answers };
}

// The act of a round behind so many entries that were tried.
fn entry(tried: u32, count: u32, own: bool) -> Act
    requires { tried ≤ count }
    ensures round { result ≡ get_or (round count own) tried Sleep }
    ensures behind { result ≡ act_behind_entries count own tried }
{
    if tried < count {
        Act::Try(tried)
    } else if own {
        Act::Offer
    } else {
        Act::Sleep
    }
}

// The act behind this one, round after round.
fn following(count: u32, own: bool, act: Act) -> Act
    requires { (place : ℕ) → act ≡ Try place → place < count }
    ensures goes_on { (i : ℕ) → act ≡ asked count own i → result ≡ asked count own (i + 1) }
    ensures stays { (e : Ending) → act ≡ End e → result ≡ End e }
    ensures behind { result ≡ act_behind count own act }
{
    match act {
        Act::Try(place) => entry(place + 1, count, own),
        Act::Offer => Act::Sleep,
        Act::Sleep => {
            if own {
                Act::Withdraw
            } else {
                entry(0, count, own)
            }
        }
        Act::Withdraw => entry(0, count, own),
        Act::End(_) => act,
    }
}

// What an answer to an act ends the select with. An answer that the act cannot have ends nothing.
fn ending(act: Act, answer: Answer) -> Option<Ending>
    ensures { result ≡ ends act answer }
{
    match (act, answer) {
        (Act::Try(place), Answer::Gave) => Some(Ending::Got(place)),
        (Act::Try(place), Answer::Closed) => Some(Ending::Closed(place)),
        (Act::Try(place), Answer::Failed) => Some(Ending::Failed(place)),
        (Act::Offer, Answer::Refused) => Some(Ending::Refused),
        (Act::Withdraw, Answer::Taken) => Some(Ending::Yielded),
        _ => None,
    }
}

// The act behind an act and its answer.
fn after(count: u32, own: bool, act: Act, answer: Answer) -> Act
    requires { (place : ℕ) → act ≡ Try place → place < count }
    ensures after { (answers : List Answer) → act ≡ act_after count own answers → result ≡ act_after count own (answers ++ answer ∷ []) }
    ensures next { result ≡ (next_of (record { count = count; own = own; act = act }) answer).act }
{
    match ending(act, answer) {
        Some(ending) => Act::End(ending),
        None => following(count, own, act),
    }
}

impl Choice {
    /// A select among so many entries, with a value of its own or without.
    pub fn new(count: u32, own: bool) -> Choice
        ensures { result ≡ record { count = count; own = own; act = act_after count own [] } }
    {
        Choice {
            count,
            own,
            act: entry(0, count, own),
        }
    }

    /// What is to be done now.
    pub fn act(&self) -> Act
        ensures act { result ≡ self.now.act }
        ensures reached { (answers : List Answer) × IsAfter self.now answers }
    {
        self.act
    }

    /// What is to be done after this answer, by all answers so far. Takes no memory.
    pub fn next(&mut self, answer: Answer) -> Act
        ensures act { result ≡ self.new.act }
        ensures next { self.new ≡ next_of self.old answer }
        ensures rounds { (answers : List Answer) → IsAfter self.old answers → IsAfter self.new (answers ++ answer ∷ []) }
    {
        self.act = after(self.count, self.own, self.act, answer);
        self.act()
    }
}

/// Over every list of answers at most one value moves: an entry gives one, or the own value is taken.
pub fn moves_at_most_one()
    ensures { (count : ℕ) (own : Bool) (answers : List Answer) → over_more moves count own [] answers ≤ 1 }
{}

/// Once the own value was taken, no entry gives a value, whatever the answers are.
pub fn takes_nothing_after_its_own()
    ensures { (count : ℕ) (own : Bool) (before after : List Answer) → act_after count own before ≡ Withdraw → over_more takes count own (before ++ Taken ∷ []) after ≡ 0 }
{}
