//! The laws of lassos that spell one word, of the product with a lasso, and of lassos of classes:
//! each is the contract of a function that does nothing.

ghost use Rattle.lasso_reading.specs.Words.{SpelledAlikeAcceptedAlike};
ghost use Rattle.lasso_reading.specs.Reading.{ProductReadsJust};
ghost use Rattle.lasso_reading.specs.Classes.{AcceptedClassesAreRead, ReadLassosSeparate};

/// Lassos that spell one infinite word are accepted alike.
pub fn spelled_alike_accepted_alike()
    ensures { SpelledAlikeAcceptedAlike }
{}

/// The product of an automaton with a lasso of classes accepts just the lassos that the automaton
/// accepts and whose classes spell the same.
pub fn product_reads_just()
    ensures { ProductReadsJust }
{}

/// The automaton over classes accepts a lasso of classes exactly where the automaton reads it by
/// some lasso of letters.
pub fn accepted_classes_are_read()
    ensures { AcceptedClassesAreRead }
{}

/// Where a second automaton over classes rejects the lasso of classes, each lasso by which the
/// first reads it separates the two.
pub fn read_lassos_separate()
    ensures { ReadLassosSeparate }
{}
