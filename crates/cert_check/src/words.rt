//! Checks that a word separates two automata.

ghost use Rattle.std.specs.Prelude.{◌≡◌, IfOk, Err};
ghost use Rattle.log_check.specs.Checks.{AllHold, FirstBroken};
ghost use Rattle.cert_check.specs.Rules.{word_checks};

use crate::faults::Verdict;
use crate::lassos::are_labels;
use auto_core::Word;
use ba_format::Joined;
use lasso_accept::accepts_word;
use log_check::{CheckFault, Refusal, copied_numbers};
use std::alloc::Global;

/// The word, if it separates the two automata; otherwise the first broken rule.
pub fn check_word(alloc: Global, pair: &Joined, word: &Word) -> Result<Verdict, CheckFault>
    ensures valid { IfOk
        result (λ verdict.
        (verdict ≡ Verdict.ApartWord word.now) × AllHold (word_checks pair.now word.now)) }
    ensures refused { (refusal : Refusal) → result ≡ Err (CheckFault.Refused refusal)
        → FirstBroken (word_checks pair.now word.now) refusal }
{
    if !are_labels(word.as_slice(), pair.labels.count()) {
        return Err(CheckFault::Refused(Refusal { rule: 1, item: 1 }));
    }
    if !accepts_word(alloc, &pair.first, word)? {
        return Err(CheckFault::Refused(Refusal { rule: 16, item: 1 }));
    }
    if accepts_word(alloc, &pair.second, word)? {
        return Err(CheckFault::Refused(Refusal { rule: 17, item: 1 }));
    }
    let word = copied_numbers(alloc, word.as_slice())?;
    Ok(Verdict::ApartWord(word))
}
