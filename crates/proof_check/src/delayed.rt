//! The check of a delayed simulation.

ghost use Rattle.std.specs.Prelude.{◌≡◌, ℕ, ◌^◌, ◌<◌, ◌≤◌, ◌+◌, ◌*◌, true, length};
ghost use Rattle.cert_value.specs.WellFormed.{is_rank_block};
ghost use Rattle.delayed_across.specs.declared.checking.DelayedRefusal.TheVariants.{Answer};
ghost use Rattle.delayed_laws.specs.Listed.{AreDelayedAscending};
ghost use Rattle.log_check.specs.Checks.{Tells};
ghost use Rattle.proof_check.specs.Pairs.{delayed_pairs};
ghost use Rattle.proof_check.specs.Rules.{delayed_checks, refusal_in_proofs};

use crate::pairs::{MOST_PAIRS, delayed_pairs};
use auto_core::Auto;
use cert_value::RankBlock;
use delayed_across::DelayedRefusal;
use delayed_laws::DelayedPair;
use log_check::{CheckFault, Refusal};
use std::alloc::Global;

/// The refusal in proofs; the first item of the evidence has this number.
fn refusal_in_proofs(refusal: DelayedRefusal, item: u32) -> Refusal
    requires few { (number : ℕ) → refusal ≡ Answer number → number < 2 * 10 ^ 9 }
    requires low { item ≤ 2 * 10 ^ 9 + 4 }
    ensures { result ≡ refusal_in_proofs item refusal }
{
    match refusal {
        DelayedRefusal::Range(_) => Refusal { rule: 1, item },
        DelayedRefusal::Start => Refusal { rule: 24, item },
        DelayedRefusal::Answer(number) => Refusal {
            rule: 27,
            item: item + 1 + number as u32,
        },
    }
}

/// Tests the pairs by all rules of a delayed simulation, in their order.
fn check_pairs(
    first: &Auto,
    second: &Auto,
    pairs: &[DelayedPair],
    item: u32,
) -> Result<(), CheckFault>
    requires ascending { AreDelayedAscending pairs.now }
    requires few { length pairs.now ≤ 2 * 10 ^ 9 }
    requires low { item ≤ 2 * 10 ^ 9 + 4 }
    ensures { Tells (delayed_checks first.now second.now pairs.now item) result }
{
    match delayed_across::check(first, second, pairs) {
        None => Ok(()),
        Some(refusal) => Err(CheckFault::Refused(refusal_in_proofs(refusal, item))),
    }
}

/// Tests the delayed simulation that the block lists.
pub(crate) fn check_delayed(
    alloc: Global,
    first: &Auto,
    second: &Auto,
    block: &RankBlock,
    item: u32,
) -> Result<(), CheckFault>
    requires formed { is_rank_block 1 block.now ≡ true }
    requires low { item ≤ 2 * 10 ^ 9 + 4 }
    ensures { Tells (delayed_checks first.now second.now (delayed_pairs block.now) item) result }
{
    let pairs = delayed_pairs(alloc, block)?;
    if pairs.len() > MOST_PAIRS {
        return Err(CheckFault::Memory);
    }
    check_pairs(first, second, &pairs, item)
}
