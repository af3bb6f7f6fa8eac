//! That there are greatest relations, and what the delayed ones are with one announced letter.

ghost use Rattle.auto_laws.specs.Greatest.{GreatestAcrossIsThere, GreatestBackwardIsThere, GreatestDelayedIsThere, GreatestForwardIsThere};
ghost use Rattle.auto_laws.specs.OneLetter.{OneLetterGreatestIsOfPairs, OneLetterIsPairs, OneLetterRelatesPairs, OneLetterTriplesArePairs};

/// Each automaton has a greatest forward relation at each lookahead.
pub fn a_greatest_forward_relation_is_there()
    ensures { GreatestForwardIsThere }
{}

/// It has a greatest backward relation.
pub fn a_greatest_backward_relation_is_there()
    ensures { GreatestBackwardIsThere }
{}

/// Two automata have a greatest relation across.
pub fn a_greatest_relation_across_is_there()
    ensures { GreatestAcrossIsThere }
{}

/// Each automaton has a greatest delayed relation with each number of announced letters, with its
/// least ranks.
pub fn a_greatest_delayed_relation_is_there()
    ensures { GreatestDelayedIsThere }
{}

/// With one announced letter the triples are pairs: their word is empty.
pub fn one_letter_triples_are_pairs()
    ensures { OneLetterTriplesArePairs }
{}

/// They are right exactly where the pairs are: each move is answered, a pair whose left state is
/// accepting has a rank, and ranks fall.
pub fn one_letter_is_pairs()
    ensures { OneLetterIsPairs }
{}

/// They are the greatest delayed relation, with its least ranks, exactly where the pairs are.
pub fn one_letter_greatest_is_of_pairs()
    ensures { OneLetterGreatestIsOfPairs }
{}

/// And the state relation, by which an automaton is merged, is that of the pairs.
pub fn one_letter_relates_pairs()
    ensures { OneLetterRelatesPairs }
{}
