//! The laws of lists of questions: each is the contract of a function that does nothing.

ghost use Rattle.equal_batch.specs.Laws.{ListIsOne, ListHasNoBadLine, TextWithoutABadLineIsALists};

/// A text is that of one list at most.
pub fn list_is_one()
    ensures { ListIsOne }
{}

/// A list's text has no bad line.
pub fn list_has_no_bad_line()
    ensures { ListHasNoBadLine }
{}

/// A text without a bad line is that of a list.
pub fn text_without_a_bad_line_is_a_lists()
    ensures { TextWithoutABadLineIsALists }
{}
