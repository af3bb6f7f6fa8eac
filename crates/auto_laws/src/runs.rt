//! Runs and paths.

ghost use Rattle.auto_laws.specs.Paths.{PathsExtend, BackwardPathsExtend, PathsTurn, TurningTwice};

/// A path goes on to any greater number of moves, or to a state that has none.
pub fn paths_extend()
    ensures { PathsExtend }
{}

/// A path of the moves backward goes on to any greater number of moves, or to a state that has
/// none.
pub fn backward_paths_extend()
    ensures { BackwardPathsExtend }
{}

/// A path read from its end is a path of the moves backward on the reversed word, and the other way
/// round.
pub fn paths_turn()
    ensures { PathsTurn }
{}

/// A path read from its end twice is the path.
pub fn turning_twice()
    ensures { TurningTwice }
{}
