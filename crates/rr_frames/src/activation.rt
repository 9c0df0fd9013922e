//! What a frame has beside its variables.

use rr_base::{ClassId, Sym};
use rr_space::Ref;

/// The block that a call was given.
#[derive(Clone, Copy, Debug, PartialEq, Eq, Drop)]
pub enum Given {
    Nothing,
    /// Which block, by the number of the frame of the method that was given it, beside which whoever runs the frames keeps the
    /// block; and the number of the frame in which the block stands.
    Block { block: u32, home: u32 },
}

/// What a frame has beside its variables.
#[derive(Clone, Copy)]
pub struct Activation {
    /// `self`.
    pub itself: Ref,
    /// The block that the method was given in which the body stands.
    pub given: Given,
    /// The number of the frame whose variables are one scope outside: a block's is that in which it stands, and a method's is
    /// its own.
    pub home: u32,
    /// The number of the frame of the method in which the body stands.
    pub root: u32,
    /// The name of that method.
    pub name: Sym,
    /// The class in which it stands.
    pub class: ClassId,
    /// How many parameters it has.
    pub parameters: u32,
}

/// How many parameters and how many variables a body has. The parameters are the first of the variables.
#[derive(Clone, Copy, Debug, PartialEq, Eq, Drop)]
pub struct Shape {
    pub parameters: u32,
    pub size: u32,
}
