//! What the definitions of printed texts give.

ghost use Rattle.rr_text.specs.Rows.{AllRows};

/// Worked rows: arrays and hashes inside themselves, lines, escapes, exceptions, depth, shells, and objects that are asked.
pub fn shown_by_rows()
    ensures { AllRows }
{}
