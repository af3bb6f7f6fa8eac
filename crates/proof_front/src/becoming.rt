//! What the two automata become before the evidence.

ghost use Rattle.std.specs.Prelude.{◌≡◌, true};
ghost use Rattle.proof_text.specs.ProofText.{is_front};
ghost use Rattle.proof_front.specs.Stages.{TellsStage};
ghost use Rattle.proof_front.specs.Front.{first_becomes, both_become};

use crate::letters::over_letters;
use crate::states::{accepting_classes, mapped};
use auto_core::{Auto, Mode};
use log_check::{CheckFault, Ends, first_end, second_end};
use proof_text::Front;
use std::alloc::Global;

/// The most steps of the second log after which items are still counted, which no file has; more
/// are want of memory.
const MOST_STEPS: u32 = 999_999_996;

/// What the first automaton becomes, which is over classes of letters already.
fn first_becomes(alloc: Global, automaton: &Auto, front: &Front) -> Result<Auto, CheckFault>
    requires { is_front front.now ≡ true }
    ensures { TellsStage (first_becomes automaton.now front.now) result }
{
    let steps = front.second.as_slice().len() as u32;
    if steps > MOST_STEPS {
        return Err(CheckFault::Memory);
    }
    let merged = mapped(alloc, automaton, front.map.as_slice(), 2 + steps)?;
    let trimmed = accepting_classes(alloc, &merged, front.accepting.as_slice(), 3 + steps)?;
    first_end(
        alloc,
        Mode::Buchi,
        &trimmed,
        4 + steps,
        front.first.as_slice(),
    )
}

/// What both automata become by the front: the second one goes through its log; both are taken over
/// classes of letters that it does not tell apart; the first one is trimmed, its classes of states
/// become one each, those that are listed accept, it is trimmed again and goes through its log.
/// Otherwise the first rule that is broken, or want of memory.
pub fn both_become(
    alloc: Global,
    first: &Auto,
    second: &Auto,
    front: &Front,
) -> Result<Ends, CheckFault>
    requires formed { is_front front.now ≡ true }
    requires labels { first.now.labels ≡ second.now.labels }
    ensures { TellsStage (both_become first.now second.now front.now) result }
{
    // the contract of this call says that the automaton is valid
    let _states = second.states();
    let steps = front.second.as_slice();
    let reduced = second_end(alloc, second, 1, steps)?;
    let item = 1 + steps.len() as u32;
    let over = over_letters(alloc, first, &reduced, front.letters.as_slice(), item)?;
    let first = first_becomes(alloc, &over.first, front)?;
    Ok(Ends {
        first,
        second: over.second,
    })
}
