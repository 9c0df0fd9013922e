//! Why words are refused.

use std::alloc::{AllocError, AllocFailed};

/// Why there is no place for a node or a word.
#[derive(Clone, Copy, Drop)]
pub(crate) enum Storage {
    /// The allocator refused a growth.
    Memory,
    /// No number is left.
    Slots,
}

/// Why words are refused. A place is told by how many words are left there.
#[derive(Clone, Copy, Drop)]
pub(crate) enum Refusal {
    Storage(Storage),
    /// More constructs than the limit are open.
    Nesting,
    /// No construct goes on with the first of the words that are left.
    Unexpected(usize),
    /// The first of the words that are left is an integer that does not fit 64 bits.
    Number(usize),
    /// The first of the words that are left begins what the language leaves out.
    LeftOut(usize),
    /// The first of the words that are left is a constant that is not set there.
    Constant(usize),
}

impl From<AllocError> for Storage {
    ghost use Rattle.std.specs.Prelude.{◌≡◌};
    ghost use Rattle.rr_parser.specs.declared.refusal.Storage.TheVariants.{Memory};

    ghost from_gives = { λ _ s. s ≡ Memory };

    fn from(_e: AllocError) -> Storage {
        Storage::Memory
    }
}

impl<T: Drop> From<AllocFailed<T>> for Storage {
    ghost use Rattle.std.specs.Prelude.{◌≡◌};
    ghost use Rattle.rr_parser.specs.declared.refusal.Storage.TheVariants.{Memory};

    ghost from_gives = { λ _ s. s ≡ Memory };

    fn from(_e: AllocFailed<T>) -> Storage {
        Storage::Memory
    }
}

impl From<Storage> for Refusal {
    ghost use Rattle.std.specs.Prelude.{◌≡◌};
    ghost use Rattle.rr_parser.specs.declared.refusal.Refusal.TheVariants as refusal;

    ghost from_gives = { λ s e. e ≡ refusal.Storage s };

    fn from(storage: Storage) -> Refusal {
        Refusal::Storage(storage)
    }
}

impl From<AllocError> for Refusal {
    ghost use Rattle.std.specs.Prelude.{◌≡◌};
    ghost use Rattle.rr_parser.specs.declared.refusal.Refusal.TheVariants as refusal;
    ghost use Rattle.rr_parser.specs.declared.refusal.Storage.TheVariants.{Memory};

    ghost from_gives = { λ _ e. e ≡ refusal.Storage Memory };

    fn from(_e: AllocError) -> Refusal {
        Refusal::Storage(Storage::Memory)
    }
}

impl<T: Drop> From<AllocFailed<T>> for Refusal {
    ghost use Rattle.std.specs.Prelude.{◌≡◌};
    ghost use Rattle.rr_parser.specs.declared.refusal.Refusal.TheVariants as refusal;
    ghost use Rattle.rr_parser.specs.declared.refusal.Storage.TheVariants.{Memory};

    ghost from_gives = { λ _ e. e ≡ refusal.Storage Memory };

    fn from(_e: AllocFailed<T>) -> Refusal {
        Refusal::Storage(Storage::Memory)
    }
}
