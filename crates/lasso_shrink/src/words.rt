//! Shorter words.

ghost use Rattle.std.specs.Prelude.{◌↔◌, IfOk, IsTrue, MatchOption};
ghost use Rattle.auto_core.specs.Accept.{SeparatesWord};
ghost use Rattle.lasso_shrink.specs.Shrinking.{WordLeavesOne, WordNeedsEach, IsShrunkWord};

use crate::copying::{copied, without};
use auto_core::{Auto, Memory, Word};
use lasso_accept::accepts_word;
use std::alloc::Global;

/// Tells whether the first automaton accepts the word and the second does not.
fn separates(alloc: Global, first: &Auto, second: &Auto, word: &Word) -> Result<bool, Memory>
    ensures { IfOk result (λ told. IsTrue told ↔ SeparatesWord first.now second.now word.now) }
{
    if !accepts_word(alloc, first, word)? {
        return Ok(false);
    }
    let other = accepts_word(alloc, second, word)?;
    Ok(!other)
}

/// The word without the first letter that can go, if any can.
fn shorter(alloc: Global, first: &Auto, second: &Auto, word: &Word) -> Result<Option<Word>, Memory>
    ensures { IfOk
        result (λ left.
        MatchOption left (WordNeedsEach first.now second.now word.now)
        (WordLeavesOne first.now second.now word.now)) }
{
    let letters = word.as_slice();
    for place in 0..letters.len() {
        let left = without(alloc, letters, place)?;
        if separates(alloc, first, second, &left)? {
            return Ok(Some(left));
        }
    }
    Ok(None)
}

/// The word that is left if, as long as some letter can go so that what is left still separates the
/// automata, the first such letter is left out.
pub fn shrink_word(alloc: Global, first: &Auto, second: &Auto, word: &Word) -> Result<Word, Memory>
    requires { SeparatesWord first.now second.now word.now }
    ensures exact { IfOk result (IsShrunkWord first.now second.now word.now) }
    ensures separates { IfOk result (SeparatesWord first.now second.now) }
    ensures each_needed { IfOk result (WordNeedsEach first.now second.now) }
{
    let mut current = copied(alloc, word.as_slice())?;
    let mut next = shorter(alloc, first, second, &current)?;
    while let Some(left) = next {
        current = left;
        next = shorter(alloc, first, second, &current)?;
    }
    Ok(current)
}
