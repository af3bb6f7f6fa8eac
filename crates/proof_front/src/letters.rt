//! Classes of letters, as a proof gives them, and both automata over them.

ghost use Rattle.std.specs.Prelude.{◌≡◌, ◌↔◌, Ok, None, IfOk, IfSome, IsTrue, length};
ghost use Rattle.map_laws.specs.Maps.{JoinsEqualColumns};
ghost use Rattle.proof_front.specs.Stages.{TellsStage};
ghost use Rattle.proof_front.specs.Front.{AreLettersFor, over_letters};

use auto_core::{Auto, Memory, Mode};
use letter_classes::{ClassFault, LetterClasses, renamed};
use log_check::{CheckFault, Ends, Refusal};
use std::alloc::Global;
use useful_states::trim;

/// The classes with these numbers; None where they are none for the automaton's labels.
fn letters_for(
    alloc: Global,
    automaton: &Auto,
    letters: &[u32],
) -> Result<Option<LetterClasses>, Memory>
    ensures some { IfOk
        result (λ o.
        IfSome o (λ c. (c ≡ letters.now) × AreLettersFor automaton.now letters.now)) }
    ensures none { result ≡ Ok None → AreLettersFor automaton.now letters.now → ⊥ }
{
    if letters.len() != automaton.labels() as usize {
        return Ok(None);
    }
    match LetterClasses::build(alloc, letters) {
        Ok(classes) => Ok(Some(classes)),
        Err(ClassFault::Order) => Ok(None),
        Err(ClassFault::Memory) => Err(Memory),
    }
}

/// Tells whether labels of one class have the same moves.
fn joins_equal(alloc: Global, automaton: &Auto, classes: &LetterClasses) -> Result<bool, Memory>
    requires { length classes.now ≡ automaton.now.labels }
    ensures { IfOk result (λ told. IsTrue told ↔ JoinsEqualColumns automaton.now classes.now) }
{
    match letter_classes::check(alloc, automaton, classes)? {
        Some(_) => Ok(false),
        None => Ok(true),
    }
}

/// Both automata over the classes of letters that the second does not tell apart; the first one is
/// trimmed.
pub(crate) fn over_letters(
    alloc: Global,
    first: &Auto,
    second: &Auto,
    letters: &[u32],
    item: u32,
) -> Result<Ends, CheckFault>
    requires { first.now.labels ≡ second.now.labels }
    ensures { TellsStage (over_letters first.now second.now letters.now item) result }
{
    let Some(classes) = letters_for(alloc, second, letters)? else {
        return Err(CheckFault::Refused(Refusal { rule: 3, item }));
    };
    if !joins_equal(alloc, second, &classes)? {
        return Err(CheckFault::Refused(Refusal { rule: 21, item }));
    }
    let whole = renamed(alloc, first, &classes)?;
    let first = trim(alloc, &whole, Mode::Buchi)?;
    let second = renamed(alloc, second, &classes)?;
    Ok(Ends { first, second })
}
