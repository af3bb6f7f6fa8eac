//! Laws of the drawn automata.

ghost use Rattle.drawing.specs.Laws.{DrawnAreOne, DrawnAreSmall};

/// A drill draws one pair of automata.
pub fn drawn_are_one()
    ensures { DrawnAreOne }
{}

/// The drawn automata are valid, over the labels of the pair, and have at most 512 states and 576
/// transitions.
pub fn drawn_are_small()
    ensures { DrawnAreSmall }
{}
