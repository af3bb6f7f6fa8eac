//! The check of a product.

ghost use Rattle.std.specs.Prelude.{◌≡◌, ◌^◌, ◌<◌, ◌≤◌, ◌+◌, ◌*◌, true, length};
ghost use Rattle.cert_value.specs.WellFormed.{is_rank_block};
ghost use Rattle.product_laws.specs.Ascending.{AreAscending};
ghost use Rattle.log_check.specs.Checks.{Tells};
ghost use Rattle.proof_check.specs.Pairs.{ranked_pairs};
ghost use Rattle.proof_check.specs.Rules.{product_checks, rule_in_proofs};

use crate::pairs::{MOST_PAIRS, ranked_pairs};
use auto_core::Auto;
use cert_value::RankBlock;
use log_check::{CheckFault, Refusal};
use product_laws::RankedPair;
use std::alloc::Global;

/// The number of the rule in proofs.
fn rule_of(rule: u32) -> u32
    ensures { result ≡ rule_in_proofs rule }
{
    if rule == 1 {
        23
    } else if rule == 2 {
        24
    } else if rule == 3 {
        1
    } else if rule == 4 {
        25
    } else {
        26
    }
}

/// Tests the pairs by all rules of a product, in their order.
fn check_pairs(
    first: &Auto,
    second: &Auto,
    pairs: &[RankedPair],
    item: u32,
) -> Result<(), CheckFault>
    requires ascending { AreAscending pairs.now }
    requires few { length pairs.now ≤ 2 * 10 ^ 9 }
    requires low { item ≤ 2 * 10 ^ 9 + 4 }
    ensures { Tells (product_checks first.now second.now pairs.now item) result }
{
    match ranked_product::check(first, second, pairs) {
        Ok(()) => Ok(()),
        Err(refusal) => Err(CheckFault::Refused(Refusal {
            rule: rule_of(refusal.rule),
            item: item + refusal.item,
        })),
    }
}

/// Tests the product that the block lists.
pub(crate) fn check_product(
    alloc: Global,
    first: &Auto,
    second: &Auto,
    block: &RankBlock,
    item: u32,
) -> Result<(), CheckFault>
    requires formed { is_rank_block 1 block.now ≡ true }
    requires low { item ≤ 2 * 10 ^ 9 + 4 }
    ensures { Tells (product_checks first.now second.now (ranked_pairs block.now) item) result }
{
    let pairs = ranked_pairs(alloc, block)?;
    if pairs.len() > MOST_PAIRS {
        return Err(CheckFault::Memory);
    }
    check_pairs(first, second, &pairs, item)
}
