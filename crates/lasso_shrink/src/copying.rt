//! Words copied, and without one letter.

ghost use Rattle.std.specs.Prelude.{◌≡◌, ◌<◌, ◌++◌, length, OnOk, IfOk};
ghost use Rattle.lasso_shrink.specs.Shrinking.{word_without};

use auto_core::{List, Memory, Word};
use std::alloc::Global;

/// Appends the letters.
fn append(word: &mut Word, letters: &[u32]) -> Result<(), Memory>
    ensures { OnOk result (word.new ≡ word.old ++ letters.now) }
{
    for at in 0..letters.len() {
        word.push(letters[at])?;
    }
    Ok(())
}

/// The word with these letters.
pub fn copied(alloc: Global, letters: &[u32]) -> Result<Word, Memory>
    ensures { IfOk result (λ word. word ≡ letters.now) }
{
    let mut word = List::new(alloc);
    append(&mut word, letters)?;
    Ok(word)
}

/// The word with these letters but the one at the place.
pub fn without(alloc: Global, letters: &[u32], place: usize) -> Result<Word, Memory>
    requires { place < length letters.now }
    ensures { IfOk result (λ word. word ≡ word_without letters.now place) }
{
    let mut word = List::new(alloc);
    append(&mut word, &letters[..place])?;
    append(&mut word, &letters[place + 1..])?;
    Ok(word)
}
