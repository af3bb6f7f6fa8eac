//! The laws of unions and intersections: each is the contract of a function that does nothing.

ghost use Rattle.auto_ops.specs.Laws.{UnionOfLassos, UnionOfWords, IntersectionOfLassos, IntersectionOfWords, UnionIsOne, TooLargeUnionIsNotSmall, UnionIsThere, IntersectionIsOne, IntersectionIsThere, TooLargeIntersectionIsNotSmall};

/// The union accepts a lasso just where one of the two does.
pub fn union_of_lassos()
    ensures { UnionOfLassos }
{}

/// The union over finite words accepts a word just where one of the two does.
pub fn union_of_words()
    ensures { UnionOfWords }
{}

/// The intersection accepts a lasso just where both do.
pub fn intersection_of_lassos()
    ensures { IntersectionOfLassos }
{}

/// The intersection over finite words accepts a word just where both do.
pub fn intersection_of_words()
    ensures { IntersectionOfWords }
{}

/// The union of two automata is one automaton.
pub fn union_is_one()
    ensures { UnionIsOne }
{}

/// A union that is too large is not within the limits of a result.
pub fn a_too_large_union_is_not_small()
    ensures { TooLargeUnionIsNotSmall }
{}

/// A union that is not too large is there, and within the limits.
pub fn union_is_there()
    ensures { UnionIsThere }
{}

/// The intersection of two automata is one automaton.
pub fn intersection_is_one()
    ensures { IntersectionIsOne }
{}

/// An intersection that is too large is not within the limits of a result.
pub fn a_too_large_intersection_is_not_small()
    ensures { TooLargeIntersectionIsNotSmall }
{}

/// An intersection that is not too large is there, and within the limits.
pub fn intersection_is_there()
    ensures { IntersectionIsThere }
{}
