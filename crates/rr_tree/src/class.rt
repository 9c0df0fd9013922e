//! The classes of a program.

use rr_base::{ClassId, Sym};

/// A class of a program. Its number is its place among the program's classes, behind those of the built-in ones.
#[derive(Clone, Copy, Debug, PartialEq, Eq, Drop)]
pub struct Class {
    pub name: Sym,
    pub superclass: ClassId,
}
