//! What books and shares count.

ghost use Rattle.std.specs.Prelude.{◌≡◌, ◌+◌, ◌<◌, ◌^◌};
ghost use Rattle.rr_ledger.specs.Books.{more, no_numbers, delivered_more, refused_more, taken_more, out_row, back_row};

/// Objects, and the messages that they came in.
#[derive(Clone, Copy, Debug, PartialEq, Eq, Drop)]
pub struct Amount {
    pub objects: u128,
    pub messages: u128,
}

/// What was counted: put in, sent back, and taken out.
#[derive(Clone, Copy, Debug, PartialEq, Eq, Drop)]
pub struct Numbers {
    pub delivered: Amount,
    pub refused: Amount,
    pub taken: Amount,
}

/// What a book keeps of a share: its numbers, and whether it was given back.
#[derive(Clone, Copy, Debug, PartialEq, Eq, Drop)]
pub struct Row {
    pub numbers: Numbers,
    pub is_back: bool,
}

impl Amount {
    /// With one message more.
    fn more(self, size: u32) -> Amount
        requires { (self.objects + size < 2 ^ 128) × (self.messages + 1 < 2 ^ 128) }
        ensures { result ≡ more self size }
    {
        Amount {
            objects: self.objects + size as u128,
            messages: self.messages + 1,
        }
    }
}

impl Numbers {
    pub(crate) fn zero() -> Numbers
        ensures { result ≡ no_numbers }
    {
        let none = Amount {
            objects: 0,
            messages: 0,
        };
        Numbers {
            delivered: none,
            refused: none,
            taken: none,
        }
    }

    pub(crate) fn delivered_more(self, size: u32) -> Numbers
        requires { (self.delivered.objects + size < 2 ^ 128) × (self.delivered.messages + 1 < 2 ^ 128) }
        ensures { result ≡ delivered_more self size }
    {
        Numbers {
            delivered: self.delivered.more(size),
            refused: self.refused,
            taken: self.taken,
        }
    }

    pub(crate) fn refused_more(self, size: u32) -> Numbers
        requires { (self.refused.objects + size < 2 ^ 128) × (self.refused.messages + 1 < 2 ^ 128) }
        ensures { result ≡ refused_more self size }
    {
        Numbers {
            delivered: self.delivered,
            refused: self.refused.more(size),
            taken: self.taken,
        }
    }

    pub(crate) fn taken_more(self, size: u32) -> Numbers
        requires { (self.taken.objects + size < 2 ^ 128) × (self.taken.messages + 1 < 2 ^ 128) }
        ensures { result ≡ taken_more self size }
    {
        Numbers {
            delivered: self.delivered,
            refused: self.refused,
            taken: self.taken.more(size),
        }
    }
}

impl Row {
    pub(crate) fn out(numbers: Numbers) -> Row
        ensures { result ≡ out_row numbers }
    {
        Row {
            numbers,
            is_back: false,
        }
    }

    pub(crate) fn back(numbers: Numbers) -> Row
        ensures { result ≡ back_row numbers }
    {
        Row {
            numbers,
            is_back: true,
        }
    }
}
