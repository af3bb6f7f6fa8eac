//! The relations with ranks that certificates list.

ghost use Rattle.std.specs.Prelude.{◌≡◌, ◌≤◌, ◌↔◌, ◌++◌, true, IfOk, IsTrue};
ghost use Rattle.cert_value.specs.WellFormed.{is_rank_block};
ghost use Rattle.auto_core.specs.Delayed.{rank_in_code};
ghost use Rattle.log_check.specs.Blocks.{IsRankRowBelow, IsRankBlockBelow, IsRankingOf};
ghost use Rattle.log_check.specs.RankedLists.{row_list, block_list};

use crate::copying::copied_numbers;
use auto_core::{Auto, Memory};
use cert_value::{RankBlock, RankRow};
use delayed_sim::{Delayed, RankedTriple, rank_in_code};
use std::alloc::Global;

fn is_rank_row_below(states: u32, labels: u32, row: &RankRow) -> bool
    ensures { IsTrue result ↔ IsRankRowBelow states labels row.now }
{
    row.left < states
        && row.ahead.as_slice().iter().all(|letter| *letter < labels)
        && row
            .rights
            .as_slice()
            .iter()
            .all(|ranked| ranked.right < states)
}

/// Tells whether the states of the block are those of the automaton, and the letters of its words
/// labels.
pub(crate) fn is_rank_block_below(automaton: &Auto, block: &RankBlock) -> bool
    ensures { IsTrue result ↔ IsRankBlockBelow automaton.now.states automaton.now.labels block.now }
{
    let states = automaton.states();
    let labels = automaton.labels();
    for row in block.rows.as_slice() {
        if !is_rank_row_below(states, labels, row) {
            return false;
        }
    }
    true
}

fn add_row(alloc: Global, triples: &mut Vec<RankedTriple>, row: &RankRow) -> Result<(), Memory>
    ensures { IfOk result (λ _. triples.new.items ≡ triples.old.items ++ row_list row.now) }
{
    for ranked in row.rights.as_slice() {
        let ahead = copied_numbers(alloc, row.ahead.as_slice())?;
        triples.push(RankedTriple {
            left: row.left,
            ahead,
            right: ranked.right,
            rank: rank_in_code(ranked.code),
        })?;
    }
    Ok(())
}

fn listed_triples(alloc: Global, block: &RankBlock) -> Result<Vec<RankedTriple>, Memory>
    ensures { IfOk result (λ triples. triples.items ≡ block_list block.now) }
{
    let mut triples = Vec::new(alloc);
    for row in block.rows.as_slice() {
        add_row(alloc, &mut triples, row)?;
    }
    Ok(triples)
}

/// The relation with ranks that the block lists, on the states of the automaton and with so many
/// announced letters.
pub(crate) fn ranking_of(
    alloc: Global,
    automaton: &Auto,
    letters: u32,
    block: &RankBlock,
) -> Result<Delayed, Memory>
    requires letters_from { 1 ≤ letters }
    requires letters_upto { letters ≤ 4 }
    requires formed { is_rank_block letters block.now ≡ true }
    requires below { IsRankBlockBelow automaton.now.states automaton.now.labels block.now }
    ensures { IfOk result (IsRankingOf automaton.now letters block.now) }
{
    let triples = listed_triples(alloc, block)?;
    Delayed::build(
        alloc,
        automaton.states(),
        automaton.labels(),
        letters,
        &triples,
    )
}
