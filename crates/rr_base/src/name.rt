//! Names by number.

/// A place in a table of objects: the number of a slot of a space, or of an object of a message or cluster.
pub type Place = u32;

/// A name of a program, by its number in the program's table of symbols.
#[derive(Clone, Copy, Debug, PartialEq, Eq, Drop)]
pub struct Sym(pub u32);

/// A class, by its number: the built-in classes come first, then those of the program.
#[derive(Clone, Copy, Debug, PartialEq, Eq, Drop)]
pub struct ClassId(pub u32);

/// The number of a ractor. The main ractor is 1, and later ones get the next number as they start.
#[derive(Clone, Copy, Debug, PartialEq, Eq, Drop)]
pub struct RactorNo(pub u32);

/// A channel: the inbox or the port of one ractor.
#[derive(Clone, Copy, Debug, PartialEq, Eq, Drop)]
pub enum Channel {
    Inbox(RactorNo),
    Port(RactorNo),
}
