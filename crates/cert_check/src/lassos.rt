//! Checks that a lasso separates two automata.

ghost use Rattle.std.specs.Prelude.{◌≡◌, ◌<◌, ◌↔◌, All, IfOk, IsTrue, length, ◌^◌, Err};
ghost use Rattle.log_check.specs.Checks.{AllHold, FirstBroken};
ghost use Rattle.cert_check.specs.Rules.{AreLabels, lasso_checks};

use crate::faults::Verdict;
use auto_core::Lasso;
use ba_format::Joined;
use lasso_accept::accepts_lasso;
use log_check::{CheckFault, Refusal, copied_numbers};
use std::alloc::Global;

/// Tells whether each letter of the word is a label.
pub fn are_labels(word: &[u32], labels: u32) -> bool
    ensures { IsTrue result ↔ AreLabels labels word.now }
{
    word.iter().all(|letter| *letter < labels)
}

/// The lasso, if it separates the two automata; otherwise the first broken rule.
pub fn check_lasso(alloc: Global, pair: &Joined, lasso: &Lasso) -> Result<Verdict, CheckFault>
    ensures valid { IfOk
        result (λ verdict.
        (verdict ≡ Verdict.Apart lasso.now) × AllHold (lasso_checks pair.now lasso.now)) }
    ensures refused { (refusal : Refusal) → result ≡ Err (CheckFault.Refused refusal)
        → FirstBroken (lasso_checks pair.now lasso.now) refusal }
{
    let labels = pair.labels.count();
    if !are_labels(lasso.prefix.as_slice(), labels) {
        return Err(CheckFault::Refused(Refusal { rule: 1, item: 1 }));
    }
    if !are_labels(lasso.turn.as_slice(), labels) {
        return Err(CheckFault::Refused(Refusal { rule: 1, item: 2 }));
    }
    if !accepts_lasso(alloc, &pair.first, lasso)? {
        return Err(CheckFault::Refused(Refusal { rule: 16, item: 2 }));
    }
    if accepts_lasso(alloc, &pair.second, lasso)? {
        return Err(CheckFault::Refused(Refusal { rule: 17, item: 2 }));
    }
    let prefix = copied_numbers(alloc, lasso.prefix.as_slice())?;
    let turn = copied_numbers(alloc, lasso.turn.as_slice())?;
    Ok(Verdict::Apart(Lasso { prefix, turn }))
}
