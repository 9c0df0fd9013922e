//! What a ractor has in its hand, between packing a message and giving it away.

ghost use Rattle.std.specs.Prelude.{◌≡◌, ◌↔◌, [], None, Some, IsTrue, IfSome, IfNone, OnOk, IfErr};
ghost use Rattle.std.specs.Bool.{OnTrue, OnFalse};
ghost use Rattle.std.specs.Option.{ForSome};
ghost use Rattle.rr_move.specs.Hands.{message_in, home_in, hand_of_home, HasPublished, MayDrop, MayTakeBack, MayWithdraw};
ghost use Rattle.rr_move.specs.Homes.{IsHomeOf};

use crate::home::{Detached, Home};
use rr_base::Ticket;
use rr_copy::Message;
use rr_share::Plan;
use rr_space::{Published, SlotSet};
use std::mem;

/// What a ractor holds while it sends or receives. It holds one thing at a time.
///
/// Packing, detaching, planning, accepting and grabbing need an empty hand. A step that its hand does not allow changes
/// nothing.
#[derive(Drop)]
pub enum Hand {
    Empty,
    /// A plan, which may be published or dropped.
    Planned(Plan),
    /// The slots of a plan, and its cluster, which is published. The slots have to be promoted before anything else.
    Published(SlotSet, Published),
    /// A copy, or a message that came from elsewhere.
    Message(Message),
    /// A message that was moved out of the ractor's space, with its home.
    Moved(Detached),
    /// The home of a message that is shown under the ticket.
    Shown(Home, Ticket),
}

impl Hand {
    /// The hand with this plan. A plan of no objects leaves it empty.
    pub fn of_plan(plan: Plan) -> Hand
        ensures empty { plan.places ≡ [] → result ≡ Hand.Empty }
        ensures planned { (plan.places ≡ [] → ⊥) → result ≡ Hand.Planned plan }
    {
        if plan.places.is_empty() {
            return Hand::Empty;
        }
        Hand::Planned(plan)
    }

    /// The hand with this message, and with its home where it has one. A refused message comes back into the hand so, which
    /// is then as it was.
    pub fn of_message(message: Message, home: Option<Home>) -> Hand
        requires { ForSome home (λ h. IsHomeOf h message) }
        ensures message { message_in result ≡ Some message }
        ensures home { home_in result ≡ home }
        ensures back { (before : Hand) → message_in before ≡ Some message → home_in before ≡ home → result ≡ before }
    {
        match home {
            None => Hand::Message(message),
            Some(home) => Hand::Moved(Detached { home, message }),
        }
    }

    /// The hand once its message is shown under the ticket: with the message's home, or empty where it has none.
    pub fn of_home(home: Option<Home>, ticket: Ticket) -> Hand
        ensures { result ≡ hand_of_home home ticket }
    {
        match home {
            None => Hand::Empty,
            Some(home) => Hand::Shown(home, ticket),
        }
    }

    /// Whether it holds nothing.
    pub fn is_empty(&self) -> bool
        ensures { IsTrue result ↔ (self.now ≡ Hand.Empty) }
    {
        matches!(self, Hand::Empty)
    }

    /// Whether it holds a published plan, which has to be promoted before anything else.
    pub fn has_published(&self) -> bool
        ensures { IsTrue result ↔ HasPublished self.now }
    {
        matches!(self, Hand::Published(_, _))
    }

    /// Whether what was shown under the ticket may be withdrawn: the hand is empty, or has the home of that message.
    pub fn can_withdraw(&self, ticket: Ticket) -> bool
        ensures { IsTrue result ↔ MayWithdraw self.now ticket }
    {
        match self {
            Hand::Empty => true,
            Hand::Shown(_, shown) => *shown == ticket,
            _ => false,
        }
    }

    /// Takes the plan out, to publish it. Where there is none, the hand stays as it is.
    pub fn take_plan(&mut self) -> Option<Plan>
        ensures some { IfSome result (λ plan. (self.old ≡ Hand.Planned plan) × (self.new ≡ Hand.Empty)) }
        ensures none { IfNone result (((plan : Plan) → self.old ≡ Hand.Planned plan → ⊥) × (self.new ≡ self.old)) }
    {
        match mem::replace(self, Hand::Empty) {
            Hand::Planned(plan) => Some(plan),
            other => {
                *self = other;
                None
            }
        }
    }

    /// Takes the published plan out, to promote it. Where there is none, the hand stays as it is.
    pub fn take_published(&mut self) -> Option<(SlotSet, Published)>
        ensures some { IfSome result (λ taken. (self.old ≡ Hand.Published taken.0 taken.1) × (self.new ≡ Hand.Empty)) }
        ensures none { IfNone result ((HasPublished self.old → ⊥) × (self.new ≡ self.old)) }
    {
        match mem::replace(self, Hand::Empty) {
            Hand::Published(places, published) => Some((places, published)),
            other => {
                *self = other;
                None
            }
        }
    }

    /// Takes the message out, with its home where it has one: to offer, show or open it. Where there is none, the hand stays
    /// as it is.
    pub fn take_message(&mut self) -> Option<(Message, Option<Home>)>
        ensures some { IfSome result (λ taken. (message_in self.old ≡ Some taken.0) × (home_in self.old ≡ taken.1) × (self.new ≡ Hand.Empty)) }
        ensures fits { IfSome result (λ taken. ForSome taken.1 (λ h. IsHomeOf h taken.0)) }
        ensures none { IfNone result ((message_in self.old ≡ None) × (self.new ≡ self.old)) }
    {
        match mem::replace(self, Hand::Empty) {
            Hand::Message(message) => Some((message, None)),
            Hand::Moved(detached) => {
                let (message, home) = detached.message();
                Some((message, Some(home)))
            }
            other => {
                *self = other;
                None
            }
        }
    }

    /// Takes the moved message and its home out, to put it back. Where there is none, the hand stays as it is.
    pub fn take_moved(&mut self) -> Option<Detached>
        ensures some { IfSome result (λ moved. (self.old ≡ Hand.Moved moved) × (self.new ≡ Hand.Empty)) }
        ensures none { IfNone result (((moved : Detached) → self.old ≡ Hand.Moved moved → ⊥) × (self.new ≡ self.old)) }
    {
        match mem::replace(self, Hand::Empty) {
            Hand::Moved(moved) => Some(moved),
            other => {
                *self = other;
                None
            }
        }
    }

    /// Takes back the message that was withdrawn from under the ticket: with its home, where that is in the hand. Where the
    /// hand holds something else, or a home that is not the message's, the message comes back and the hand stays as it is.
    pub fn take_back(&mut self, ticket: Ticket, message: Message) -> Result<(), Message>
        ensures taken { OnOk result (MayTakeBack self.old ticket message × (message_in self.new ≡ Some message) × (home_in self.new ≡ home_in self.old)) }
        ensures refused { IfErr result (λ back. (MayTakeBack self.old ticket message → ⊥) × (back ≡ message) × (self.new ≡ self.old)) }
    {
        match mem::replace(self, Hand::Empty) {
            Hand::Empty => {
                *self = Hand::Message(message);
                Ok(())
            }
            Hand::Shown(home, shown) if shown == ticket => match Detached::join(home, message) {
                Ok(moved) => {
                    *self = Hand::Moved(moved);
                    Ok(())
                }
                Err((home, message)) => {
                    *self = Hand::Shown(home, shown);
                    Err(message)
                }
            },
            other => {
                *self = other;
                Err(message)
            }
        }
    }

    /// Lets go of the home of the message that was shown under the ticket, once that was taken. A hand that does not hold it
    /// stays as it is.
    pub fn forget_home(&mut self, ticket: Ticket)
        ensures gone { (home : Home) → self.old ≡ Hand.Shown home ticket → self.new ≡ Hand.Empty }
        ensures kept { ((home : Home) → self.old ≡ Hand.Shown home ticket → ⊥) → self.new ≡ self.old }
    {
        if let Hand::Shown(_, shown) = self {
            if *shown == ticket {
                *self = Hand::Empty;
            }
        }
    }

    /// Drops a plan, or a message and its home, and answers whether there was one. Anything else stays in the hand.
    pub fn clear(&mut self) -> bool
        ensures may { IsTrue result ↔ MayDrop self.old }
        ensures gone { OnTrue result (self.new ≡ Hand.Empty) }
        ensures kept { OnFalse result (self.new ≡ self.old) }
    {
        match self {
            Hand::Planned(_) | Hand::Message(_) | Hand::Moved(_) => {
                *self = Hand::Empty;
                true
            }
            _ => false,
        }
    }
}
