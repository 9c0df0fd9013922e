//! The limits of a run.

ghost use Rattle.std.specs.Prelude.{◌≡◌};
ghost use Rattle.rr_base.specs.Names.{limit_name};

/// Which limit was passed.
#[derive(Clone, Copy, Debug, PartialEq, Eq, Drop)]
pub enum LimitKind {
    /// The length of the source.
    Source,
    /// The constructs that are open at one place of the source.
    Nesting,
    /// The objects of a space or a message, or the parts of a program.
    Slots,
    /// The calls of methods and blocks that are active at once.
    Frames,
    /// The ractors of a run.
    Ractors,
    /// What one book of a channel counts.
    Ledger,
}

impl LimitKind {
    /// The name that an error line gives the limit, as in `ractor: limit nesting`.
    pub fn name(self) -> &'static str
        ensures { result.now ≡ limit_name self }
    {
        match self {
            LimitKind::Source => "source",
            LimitKind::Nesting => "nesting",
            LimitKind::Slots => "slots",
            LimitKind::Frames => "frames",
            LimitKind::Ractors => "ractors",
            LimitKind::Ledger => "ledger",
        }
    }
}

/// The limits of a run. `Limits::DEFAULT` has those that a script meets; tests use smaller ones.
#[derive(Clone, Copy, Debug, PartialEq, Eq, Drop)]
pub struct Limits {
    /// The bytes of a source.
    pub source: u32,
    /// The constructs of a source that may be begun and not ended at one place.
    pub nesting: u32,
    /// The calls of methods and blocks that may be active at once in one ractor.
    pub frames: u32,
    /// The containers in one another that one walk of `inspect`, `==`, `puts` or `join` may enter.
    pub levels: u32,
    /// The ractors of a run, the main one among them.
    pub ractors: u16,
    /// The objects of one space or message.
    pub slots: u32,
    /// The events of one history.
    pub events: u32,
    /// The evaluation steps of one ractor, at least 1.
    pub steps: u64,
}

impl Limits {
    /// What a script meets where nothing else is asked for.
    pub const DEFAULT: Limits = Limits {
        source: 16_777_216,
        nesting: 200,
        frames: 10_000,
        levels: 10_000,
        ractors: 65_535,
        slots: 4_294_967_295,
        events: 4_294_967_295,
        steps: 100_000_000,
    };
}
