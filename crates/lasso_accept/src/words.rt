//! Acceptance of a word.

ghost use Rattle.std.specs.Prelude.{◌↔◌, IfOk, IsTrue};
ghost use Rattle.auto_core.specs.Accept.{AcceptsWord};

use auto_core::{Auto, Memory, Word};
use set_rows::{has_accepting, reached};
use std::alloc::Global;

/// Tells whether the automaton accepts the word. A letter that it has no transitions for is
/// allowed. Only memory can be refused.
pub fn accepts_word(alloc: Global, automaton: &Auto, word: &Word) -> Result<bool, Memory>
    ensures { IfOk result (λ told. IsTrue told ↔ AcceptsWord automaton.now word.now) }
{
    let row = reached(alloc, automaton, word.as_slice())?;
    Ok(has_accepting(automaton, &row))
}
