//! A law on plans.

ghost use Rattle.rr_share.specs.Plans.{PromotingPublishesAll};

/// Once a plan of a value is promoted, the value may be packed: it leads to no shareable object of the space.
pub fn shown_by_promoting()
    ensures { PromotingPublishesAll }
{}
