//! What holds of the tokens of any source.

ghost use Rattle.rr_lexer.specs.Laws.{TokensAreOne, TokensAreInOrder, IntsHaveTheirValues};

/// A source has one list of tokens at most. This does nothing; its contract is the law.
pub fn tokens_are_one()
    ensures { TokensAreOne }
{}

/// The tokens of a source lie in it, behind one another, none is empty, and each has a blank before it exactly where
/// bytes stand between it and the one before. This does nothing; its contract is the law.
pub fn tokens_are_in_order()
    ensures { TokensAreInOrder }
{}

/// `int_value` tells a number of a token exactly where the token's bytes spell that number: digits in their base, each at
/// its place. This does nothing; its contract is the law.
pub fn ints_have_their_values()
    ensures { IntsHaveTheirValues }
{}
