//! Laws on values that are moved.

ghost use Rattle.rr_move.specs.Laws.{BackHomeIsKept, MovedIsAShell, MovedIsNotShareable, PuttingBackUndoes, TakingOutIsAMove};

/// What a message took along and brought back to its home is in the space as it was. As long as it is away, each path that
/// led to it ends at a shell, and no value that leads to a slot of the home is shareable. To take a value out is a move of
/// the whole graph: the hand has new objects alike to the part of the value, and that part are shells. To put it back ends the
/// move: each shell is again what its pair is, under the old names, and the hand's objects are gone.
pub fn shown_by_moving()
    ensures kept { BackHomeIsKept }
    ensures away { MovedIsNotShareable }
    ensures shell { MovedIsAShell }
    ensures moved { TakingOutIsAMove }
    ensures undone { PuttingBackUndoes }
{}
