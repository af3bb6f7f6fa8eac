//! The laws of shorter lassos and words: each is the contract of a function that does nothing.

ghost use Rattle.lasso_shrink.specs.Laws.{ShrunkLassoIsOne, ShrunkWordIsOne, ShrinkingALassoAddsNoLetter, ShrinkingAWordAddsNoLetter};

/// One lasso at most is left of a lasso.
pub fn shrunk_lasso_is_one()
    ensures { ShrunkLassoIsOne }
{}

/// One word at most is left of a word.
pub fn shrunk_word_is_one()
    ensures { ShrunkWordIsOne }
{}

/// The letters that are left of a lasso are its own.
pub fn shrinking_a_lasso_adds_no_letter()
    ensures { ShrinkingALassoAddsNoLetter }
{}

/// The letters that are left of a word are its own.
pub fn shrinking_a_word_adds_no_letter()
    ensures { ShrinkingAWordAddsNoLetter }
{}
