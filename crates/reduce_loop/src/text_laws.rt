//! What the same text tells of two automata.

ghost use Rattle.reduce_loop.specs.Texts.{SameByTextsIsSame, SameByTextsIsWritten, SameByTextsRenumbers, SettledTextTells, TrimmedTextTells};

/// Settled automata with the same text differ at most in the numbers of the labels and in labels
/// that no transition has.
pub fn a_settled_text_tells_the_automaton()
    ensures { SettledTextTells }
{}

/// It is enough that both are trimmed.
pub fn a_trimmed_text_tells_the_automaton()
    ensures { TrimmedTextTells }
{}

/// Automata that differ in no more than that have the same text.
pub fn the_same_by_texts_is_written_the_same()
    ensures { SameByTextsIsWritten }
{}

/// The transitions of the one are those of the other, each label with the number of its text.
pub fn the_same_by_texts_is_renumbered()
    ensures { SameByTextsRenumbers }
{}

/// With the same labels they are the same automaton.
pub fn the_same_by_texts_and_labels_is_the_same()
    ensures { SameByTextsIsSame }
{}
