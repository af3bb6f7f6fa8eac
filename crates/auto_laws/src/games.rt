//! Stable relations.

ghost use Rattle.auto_laws.specs.Games.{FollowedForward, FollowedBackward, FollowedToTheEnd, FollowedMoveByMove, FollowedMoveByMoveBackward, FollowedAcross, AcrossIncludes, ClosureIsLeast, ClosureIsShort, StrictStepsAreFew, ClosureStaysStable, ClosureStaysStableBackward};

/// What the closure of a relation that is stable forward relates matches, and paths from the first
/// are followed from the second.
pub fn followed_forward()
    ensures { FollowedForward }
{}

/// What the closure of a relation that is stable backward relates matches, and backward paths from
/// the first are followed from the second.
pub fn followed_backward()
    ensures { FollowedBackward }
{}

/// A path that ends in the first has a matching path that ends in the second, for a relation that
/// is stable backward.
pub fn followed_to_the_end()
    ensures { FollowedToTheEnd }
{}

/// At lookahead 1, forward, the closure holds at each place of the path and the one that follows
/// it.
pub fn followed_move_by_move()
    ensures { FollowedMoveByMove }
{}

/// At lookahead 1 the closure holds at each place of two paths of the moves backward.
pub fn followed_move_by_move_backward()
    ensures { FollowedMoveByMoveBackward }
{}

/// What a relation that is stable across two automata relates matches, and paths from the first are
/// followed from the second.
pub fn followed_across()
    ensures { FollowedAcross }
{}

/// If a relation that is stable across two automata relates the initial states, the second accepts
/// what the first does.
pub fn across_includes()
    ensures { AcrossIncludes }
{}

/// The closure is reflexive and transitive, and the least such relation.
pub fn closure_is_least()
    ensures { ClosureIsLeast }
{}

/// Below n the closure needs fewer than n steps.
pub fn closure_is_short()
    ensures { ClosureIsShort }
{}

/// Below n fewer than n strict steps of the closure come one after another.
pub fn strict_steps_are_few()
    ensures { StrictStepsAreFew }
{}

/// The closure of a relation that is stable forward at lookahead 1 is stable so too.
pub fn closure_stays_stable()
    ensures { ClosureStaysStable }
{}

/// The closure of a relation that is stable backward at lookahead 1 is stable so too.
pub fn closure_stays_stable_backward()
    ensures { ClosureStaysStableBackward }
{}
