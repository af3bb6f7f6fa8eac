//! Laws of reading, joining and writing. Each is the contract of a function that does nothing.

ghost use Rattle.ba_format.specs.Laws.{ReadsAsOne, FaultlessReads, ReadIsWithin, JoinsAsOne, LabelsFit, WrittenReads, WrittenCounts, WrittenIsRead, WrittenReadsBack};

/// A text reads as one automaton with names and labels at most.
pub fn a_text_reads_as_one()
    ensures { ReadsAsOne }
{}

/// A text without a fault reads as some automaton with names and labels.
pub fn a_text_without_a_fault_reads()
    ensures { FaultlessReads }
{}

/// What a text reads as stays within the limits.
pub fn what_is_read_is_within_the_limits()
    ensures { ReadIsWithin }
{}

/// Two read automata are joined in one way.
pub fn two_automata_join_as_one()
    ensures { JoinsAsOne }
{}

/// The labels of what a text reads as can be written.
pub fn labels_of_a_text_can_be_written()
    ensures { LabelsFit }
{}

/// A written text whose counts stay within the limits has no fault.
pub fn a_written_text_reads()
    ensures { WrittenReads }
{}

/// A written text brings no more labels and transitions than the automaton has, and one state more
/// at most.
pub fn a_written_text_brings_one_state_more_at_most()
    ensures { WrittenCounts }
{}

/// A written text has no fault within limits that leave room for the automaton and for one state
/// more.
pub fn a_written_text_reads_where_there_is_room()
    ensures { WrittenIsRead }
{}

/// What a written text reads as accepts what the written automaton accepts.
pub fn a_written_text_reads_back()
    ensures { WrittenReadsBack }
{}
