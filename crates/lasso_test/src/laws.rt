//! The laws of this crate: each is the contract of a function that does nothing.

ghost use Rattle.lasso_test.specs.Laws.{LassosEnterLoops, BlocksEnterLoops, WordsEnterLoops};

/// Two graphs of values have a lasso just where the first leads to a state from which the second
/// has a loop.
pub fn lassos_enter_loops()
    ensures { LassosEnterLoops }
{}

/// So have graphs in blocks.
pub fn lassos_in_blocks_enter_loops()
    ensures { BlocksEnterLoops }
{}

/// And so have graphs of words.
pub fn lassos_of_words_enter_loops()
    ensures { WordsEnterLoops }
{}
