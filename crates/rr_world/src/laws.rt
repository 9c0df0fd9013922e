//! Laws on readings of a World.

ghost use Rattle.rr_world.specs.Laws.{OneValueIsOneName};

/// In each reading of a World, two values of one ractor have one name exactly where `Space::same` says that they are the
/// same.
pub fn shown_by_names()
    ensures { OneValueIsOneName }
{}
