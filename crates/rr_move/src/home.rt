//! A message on its way, and the place that it came from.

ghost use Rattle.std.specs.Prelude.{◌≡◌, IfOk, IfErr};
ghost use Rattle.rr_move.specs.Homes.{IsHomeOf};

use rr_base::RactorNo;
use rr_copy::Message;
use rr_space::SlotSet;

/// The slots of a space that a message's objects were taken out of, in the message's order, and the message's sender and
/// sequence number. Each of them is a shell until the message comes back.
#[derive(Drop)]
pub struct Home {
    pub(crate) slots: SlotSet,
    pub(crate) sender: RactorNo,
    pub(crate) sequence: u64,
}

/// A message that was moved out of a space, with its home.
#[derive(Drop)]
pub struct Detached {
    pub(crate) home: Home,
    pub(crate) message: Message,
    ghost fits: { IsHomeOf home message },
}

impl Detached {
    /// The message, which may go elsewhere, and its home, which stays.
    pub fn message(self) -> (Message, Home)
        ensures message { result.0 ≡ self.message }
        ensures home { result.1 ≡ self.home }
        ensures fits { IsHomeOf result.1 result.0 }
    {
        (self.message, self.home)
    }

    /// A message with its home again. Refused where sender, sequence number or size differ; then both come back.
    pub fn join(home: Home, message: Message) -> Result<Detached, (Home, Message)>
        ensures joined { IfOk result (λ d. (d.home ≡ home) × (d.message ≡ message) × IsHomeOf home message) }
        ensures refused { IfErr result (λ back. (back.0 ≡ home) × (back.1 ≡ message) × (¬ IsHomeOf home message)) }
    {
        let fits = message.sender() == home.sender
            && message.sequence() == home.sequence
            && message.size() as usize == home.slots.len();
        if fits {
            Ok(Detached { home, message })
        } else {
            Err((home, message))
        }
    }
}
