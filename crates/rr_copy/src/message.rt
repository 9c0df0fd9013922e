//! A message.

ghost use Rattle.std.specs.Prelude.{◌≡◌, length};
ghost use Rattle.rr_space.specs.Tables.{message_graph, IsClosed, IsSealed};
ghost use Rattle.rr_copy.specs.Contents.{packed_of, IsMessage};
ghost use Rattle.rr_copy.specs.Messages.{size_of, IsEachPart, IsMessageSound};

use rr_base::RactorNo;
use rr_space::{Carried, Ref};
use std::marker::Model;

/// A closed graph with its root, the ractor that sent it, and its sequence number there, which is 0 for a copy.
///
/// A `Ref::Local` in it is a place among its objects. The root leads to each of them, and none of them is shareable: what
/// is shareable was published before, and the message refers to it.
#[derive(Drop)]
pub struct Message {
    pub(crate) objects: Vec<Carried>,
    pub(crate) root: Ref,
    pub(crate) sender: RactorNo,
    pub(crate) sequence: u64,
}

impl Model for Message {
    ghost use Rattle.rr_space.specs.Tables.{Packed};
    ghost use Rattle.rr_copy.specs.Contents.{packed_of, IsMessage};

    ghost Value = { Packed };

    ghost view = { λ m. packed_of m.objects.items m.root m.sender.0 m.sequence };

    ghost invariant = { λ m. IsMessage m.objects.items m.root };
}

/// What a message is made of. A `Ref::Local` in it is a place among the objects.
#[derive(Drop)]
pub struct MessageParts {
    pub objects: Vec<Carried>,
    pub root: Ref,
    pub sender: RactorNo,
    pub sequence: u64,
}

impl Message {
    /// A message of these parts, whose root leads to each object, none of which is shareable.
    pub fn from_parts(parts: MessageParts) -> Message
        requires { IsMessage parts.objects.items parts.root }
        ensures { result ≡ packed_of parts.objects.items parts.root parts.sender.0 parts.sequence }
    {
        Message {
            objects: parts.objects,
            root: parts.root,
            sender: parts.sender,
            sequence: parts.sequence,
        }
    }

    /// What the message is made of.
    pub fn into_parts(self) -> MessageParts
        ensures is { packed_of result.objects.items result.root result.sender.0 result.sequence ≡ self }
        ensures message { IsMessage result.objects.items result.root }
    {
        MessageParts {
            objects: self.objects,
            root: self.root,
            sender: self.sender,
            sequence: self.sequence,
        }
    }

    /// The number of the message's own objects: those that come into being where it is opened.
    pub fn size(&self) -> u32
        ensures size { result ≡ size_of self.now }
        ensures closed { IsClosed self.now }
        ensures sealed { IsSealed (message_graph self.now) }
        ensures parts { IsEachPart self.now }
        ensures sound { IsMessageSound self.now }
    {
        self.objects.len() as u32
    }

    /// The ractor that sent it.
    pub fn sender(&self) -> RactorNo
        ensures { result.0 ≡ self.now.sender }
    {
        self.sender
    }

    /// The number among the messages that its sender moved, from 1; 0 for a copy.
    pub fn sequence(&self) -> u64
        ensures { result ≡ self.now.sequence }
    {
        self.sequence
    }
}
