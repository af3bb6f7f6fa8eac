//! The rows of a relation, as a certificate lists them.

ghost use Rattle.std.specs.Prelude.{◌≡◌, ◌+◌, ◌-◌, ◌≤◌, ◌<◌, ℕ, IfOk, IfSome, drop, length, map, take};
ghost use Rattle.delayed_sim.specs.Rankings.{row_key, triple_at};
ghost use Rattle.decide.specs.Written.{IsBlockOfPairs, IsRankBlockOf};
ghost use Rattle.decide.specs.Rows.{HasFewTriples, IsRankRowOf, ranked_of_triple, code_for};

use auto_core::{List, Memory};
use bit_rel::Rel;
use cert_value::{RankBlock, RankRow, Ranked, RelBlock};
use delayed_sim::Delayed;
use log_check::{copied_numbers, rows_of};
use std::alloc::Global;

/// A row for each state that the relation holds with some state.
pub(crate) fn block_of(alloc: Global, rel: &Rel) -> Result<RelBlock, Memory>
    requires { rel.now.size ≤ 2048 }
    ensures { IfOk result (IsBlockOfPairs rel.now.pairs) }
{
    let size = rel.size();
    let rows = rows_of(alloc, rel, size, 0, size)?;
    Ok(RelBlock { rows })
}

/// The code of a rank: 0 where there is none, and otherwise one more than the rank.
fn code_of(rank: Option<u32>) -> u32
    requires { IfSome rank (λ r. r + 1 < 1000000000) }
    ensures { result ≡ code_for rank }
{
    match rank {
        None => 0,
        Some(rank) => rank + 1,
    }
}

/// The right states of so many triples from `at` on, each with the code of its rank.
fn ranked_rights(
    alloc: Global,
    ranks: &Delayed,
    at: usize,
    count: usize,
) -> Result<List<Ranked>, Memory>
    requires within { at + count ≤ length ranks.now.triples }
    requires few { HasFewTriples ranks.now }
    ensures { IfOk
        result (λ rights. rights ≡ map ranked_of_triple (take count (drop at ranks.now.triples))) }
{
    let mut rights = List::new(alloc);
    for i in 0..count {
        rights.push(Ranked {
            right: ranks.right(at + i),
            code: code_of(ranks.rank_at(at + i)),
        })?;
    }
    Ok(rights)
}

/// The row of the triples from `at` up to `end`, which is not among them.
fn rank_row(alloc: Global, ranks: &Delayed, at: usize, end: usize) -> Result<RankRow, Memory>
    requires some { at < end }
    requires within { end ≤ length ranks.now.triples }
    requires few { HasFewTriples ranks.now }
    requires same { (i : ℕ) → at ≤ i → i < end
        → row_key (triple_at ranks.now.triples i) ≡ row_key (triple_at ranks.now.triples at) }
    ensures { IfOk result (IsRankRowOf ranks.now at end) }
{
    Ok(RankRow {
        left: ranks.left(at),
        ahead: copied_numbers(alloc, ranks.ahead(at))?,
        rights: ranked_rights(alloc, ranks, at, end - at)?,
    })
}

/// A row for each left state and word that the relation holds with some state, with the ranks.
pub(crate) fn rank_block_of(alloc: Global, ranks: &Delayed) -> Result<RankBlock, Memory>
    requires { HasFewTriples ranks.now }
    ensures { IfOk result (IsRankBlockOf ranks.now.letters ranks.now.triples) }
{
    let mut rows = List::new(alloc);
    let mut at = 0;
    while at < ranks.count() {
        let end = ranks.row_end(at);
        rows.push(rank_row(alloc, ranks, at, end)?)?;
        at = end;
    }
    Ok(RankBlock { rows })
}
