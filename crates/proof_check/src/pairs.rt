//! The pairs that a block lists.

ghost use Rattle.std.specs.Prelude.{◌≡◌, ◌++◌, IfOk};
ghost use Rattle.proof_check.specs.Pairs.{ranked_in_row, ranked_pairs, delayed_in_row, delayed_pairs};

use auto_core::Memory;
use cert_value::{RankBlock, RankRow};
use delayed_laws::DelayedPair;
use delayed_sim::rank_in_code;
use product_laws::RankedPair;
use std::alloc::Global;

/// The most pairs that are looked at, which no file has; more are want of memory.
pub(crate) const MOST_PAIRS: usize = 2_000_000_000;

/// Adds the pairs of the row.
fn add_ranked(pairs: &mut Vec<RankedPair>, row: &RankRow) -> Result<(), Memory>
    ensures { IfOk result (λ _. pairs.new.items ≡ pairs.old.items ++ ranked_in_row row.now) }
{
    for ranked in row.rights.as_slice() {
        pairs.push(RankedPair {
            left: row.left,
            right: ranked.right,
            rank: ranked.code,
        })?;
    }
    Ok(())
}

/// The pairs of the block with their ranks.
pub(crate) fn ranked_pairs(alloc: Global, block: &RankBlock) -> Result<Vec<RankedPair>, Memory>
    ensures { IfOk result (λ pairs. pairs.items ≡ ranked_pairs block.now) }
{
    let mut pairs = Vec::new(alloc);
    for row in block.rows.as_slice() {
        add_ranked(&mut pairs, row)?;
    }
    Ok(pairs)
}

/// Adds the pairs of the row, with the ranks that their codes stand for.
fn add_delayed(pairs: &mut Vec<DelayedPair>, row: &RankRow) -> Result<(), Memory>
    ensures { IfOk result (λ _. pairs.new.items ≡ pairs.old.items ++ delayed_in_row row.now) }
{
    for ranked in row.rights.as_slice() {
        pairs.push(DelayedPair {
            left: row.left,
            right: ranked.right,
            rank: rank_in_code(ranked.code),
        })?;
    }
    Ok(())
}

/// The pairs of the block with the ranks that their codes stand for.
pub(crate) fn delayed_pairs(alloc: Global, block: &RankBlock) -> Result<Vec<DelayedPair>, Memory>
    ensures { IfOk result (λ pairs. pairs.items ≡ delayed_pairs block.now) }
{
    let mut pairs = Vec::new(alloc);
    for row in block.rows.as_slice() {
        add_delayed(&mut pairs, row)?;
    }
    Ok(pairs)
}
