//! That there are joins.

ghost use Rattle.ba_format.specs.Joins.{JoinIsOverLabels, JoinOrderDoesNotMatter, JoinedLabelsAreFew, ReadAutomataJoin, WrittenIsThere, WrittenJoins};

/// Two automata that were read have a join, if a u32 counts the joined labels.
pub fn two_read_automata_have_a_join()
    ensures { ReadAutomataJoin }
{}

/// These are no more than the labels of both.
pub fn joined_labels_are_few()
    ensures { JoinedLabelsAreFew }
{}

/// A join is a pair of valid automata over the joined labels, and both can be written with them.
pub fn a_join_is_over_the_joined_labels()
    ensures { JoinIsOverLabels }
{}

/// Which of two read automata is joined as the first does not matter to inclusion.
pub fn the_order_of_a_join_does_not_matter()
    ensures { JoinOrderDoesNotMatter }
{}

/// A written automaton has a join with what its text reads as, over its own labels.
pub fn a_written_automaton_joins_with_what_its_text_reads_as()
    ensures { WrittenJoins }
{}

/// Where the limits leave room, its text reads as an automaton that joins with it and accepts the
/// same.
pub fn a_written_automaton_is_read_back()
    ensures { WrittenIsThere }
{}
