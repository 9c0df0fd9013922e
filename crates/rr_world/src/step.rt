//! Steps, and what they answer.

use rr_base::{ClassId, Fault, RactorNo, Sym, Ticket};
use rr_port::Settled;
use rr_space::Label;

/// A value that a step names: an immediate, or one of the ractor's roots, by its number from 0.
#[derive(Clone, Copy, Drop)]
pub enum Operand {
    Nil,
    Truth(bool),
    Int(i64),
    Symbol(Sym),
    Class(ClassId),
    Ractor(RactorNo),
    Root(u32),
}

/// A new object without contents.
#[derive(Clone, Copy, Drop)]
pub enum NewObject {
    Text,
    Array,
    Hash,
    /// A plain object of the class.
    Object(ClassId),
    /// An exception of the class. Its message, its cause and its ractor are nil.
    Exception(ClassId),
}

/// What a ractor leaves at its end: the value of its block, or the exception that ended it.
#[derive(Clone, Copy, Drop)]
pub enum LastKind {
    Value,
    Fault,
}

/// A part that every exception has.
#[derive(Clone, Copy, Drop)]
pub enum RaisedPart {
    Message,
    /// The exception that was being rescued.
    Cause,
    /// Of a remote error the ractor that ended by it.
    Ractor,
}

/// What a ractor does in one step.
#[derive(Clone, Copy, Drop)]
pub enum Action {
    /// A new object, which comes last in the ractor's roots.
    Alloc(NewObject),
    /// A copy of the value comes into the hand as a message. The hand has to be empty, and each shareable object that the
    /// value leads to has to be published.
    Pack(Operand),
    /// A plan of the ractor's own shareable objects that the value leads to comes into the hand, which has to be empty. Where
    /// there are none, the hand stays empty.
    Plan(Operand),
    /// The plan in the hand is published: its objects are shared from then on, as those of a new cluster. The plan stays in the
    /// hand, to be promoted before anything else is done with the hand or a constant is set.
    Publish,
    /// The slots of the published plan in the hand become forwards to its cluster, and the hand is empty.
    Promote,
    /// The message in the hand goes, and its objects with it; or a plan goes that is not published.
    Discard,
    /// The message in the hand goes to the end of a ractor's inbox.
    Offer(RactorNo),
    /// The first message of the ractor's own inbox comes into its hand, which has to be empty.
    Accept,
    /// The message in the hand is opened in the ractor's space; its root comes last in the ractor's roots.
    Open,
    /// A ractor's inbox is closed.
    Close(RactorNo),
    /// A ractor's port is closed. What is inside stays.
    ClosePort(RactorNo),
    /// The message in the hand is left in the ractor's own port as its last value or fault, and the port is closed. None
    /// may have been left before.
    ShowLast(LastKind),
    /// The message in the hand is shown in the ractor's own port, where nothing is shown. Where it was moved, its home stays
    /// in the hand, which is not empty then.
    Show,
    /// The message that is shown under the ticket in the ractor's own port comes back into its hand: an empty one, or the one
    /// that kept the home of that message. Where it is shown no more, the home goes.
    Withdraw(Ticket),
    /// What became of the message that was shown under the ticket in the ractor's own port. Where it was taken, its home goes.
    Settle(Ticket),
    /// What a ractor's port has comes into the hand, which has to be empty: the last value or fault, or else what is shown
    /// in the open port.
    Grab(RactorNo),
    /// The ractor's own object is frozen, and nothing that it leads to. A shell is not.
    Freeze(Operand),
    /// A byte comes behind those of the ractor's own text, which is not frozen.
    Append(Operand, u8),
    /// The ractor's own text, which is not frozen, has no bytes any more.
    Clear(Operand),
    /// A value comes behind the elements of the ractor's own array, which is not frozen.
    Push(Operand, Operand),
    /// A value comes in the place of an element, by its number from 0, of the ractor's own array, which is not frozen.
    Write(Operand, u32, Operand),
    /// An element, by its number from 0, goes from the ractor's own array, which is not frozen; those behind it close up.
    Take(Operand, u32),
    /// A value comes into a field of the ractor's own plain object or exception, which is not frozen: in the place of what was
    /// there, or behind the others.
    SetField(Operand, Sym, Operand),
    /// A value comes in the place of a part of the ractor's own exception, which is not frozen.
    SetRaised(Operand, RaisedPart, Operand),
    /// A value comes under a key in the ractor's own hash, which is not frozen: in the place of what was there, or in a new pair
    /// behind the others, whose key object is the second operand. It has to be an immediate or a frozen text.
    SetPair(Operand, Operand, Operand),
    /// A pair, by its number from 0, goes from the ractor's own hash, which is not frozen; those behind it close up.
    DeletePair(Operand, u32),
    /// A ractor starts, under the limits of the run, and its inbox and its port with it.
    Start,
    /// The ractor ends: its objects, its roots and what is in its hand go, and it makes no step any more. Its inbox and its port
    /// stay.
    End,
    /// What stands under the label in an object comes last in the ractor's roots. A field has the first of its name.
    Read(Operand, Label),
    /// What the value leads to is moved into the hand as a message, and is shells under its old names from then on. What a
    /// `Pack` needs, this needs too.
    Detach(Operand),
    /// The moved message in the hand comes back into its home: the shells are again what left them.
    PutBack,
    /// A constant is set to a value, which is an immediate or a published object. No published plan may be in the hand.
    SetConst(Sym, Operand),
    /// A constant is set to a value that the main ractor keeps itself. No published plan may be in the hand.
    SetOwn(Sym),
    /// The value of a constant comes last in the ractor's roots.
    GetConst(Sym),
}

/// One step of a ractor.
#[derive(Clone, Copy, Drop)]
pub struct Step {
    pub who: RactorNo,
    pub action: Action,
}

/// What a step answers.
#[derive(Drop)]
pub enum Reply {
    /// The step is not possible; all is as it was.
    NotEnabled,
    /// The step was made.
    Done,
    /// The message was offered, shown or left under this ticket.
    Offered(Ticket),
    /// What became of a shown message.
    Settled(Settled),
    /// A last value or fault came into the hand.
    GrabbedLast(LastKind),
    /// Nothing is in the inbox or shown in the port, which is open.
    Empty,
    /// Nothing is in the inbox, or can be taken out of the port, which is closed.
    EmptyAndClosed,
    /// The inbox or the port is closed; whether it was closed before.
    WasClosed(bool),
    /// The cluster of this number was published.
    Published(u32),
    /// The ractor of this number was started.
    Started(RactorNo),
    /// The step was refused.
    Refused(Fault),
    /// The main ractor keeps the value of the constant itself, and this is the main ractor.
    OfMain,
}
