//! Relations, read line by line.

ghost use Rattle.std.specs.Prelude.{◌≡◌, ◌+◌, ◌∷◌, [], ◌++◌, drop};
ghost use Rattle.cert_value.specs.Tokens.{tokens_of};
ghost use Rattle.cert_line.specs.Agrees.{Agrees};
ghost use Rattle.cert_text.specs.Machine.{rows_due, rank_rows_due, step_block, step_ranks};

use crate::parts::{PartSoFar, pushed};
use auto_core::List;
use cert_line::{LineFault, number_in, rank_row_in, row_in};
use cert_value::{Keyword, RankBlock, RankRow, RelBlock, Row};
use std::alloc::Global;

/// What is due in a relation.
#[derive(Drop)]
pub(crate) enum BlockState {
    /// The number of its rows.
    Count,
    /// A row.
    Row {
        /// The rows so far.
        rows: List<Row>,
        /// One more than the last row's left number.
        bound: u64,
        /// How many rows follow the one that is due.
        later: u32,
    },
}

/// What is due with these rows, and this many to come.
#[tactic(auto, unfolding(crate::specs::Machine::rows_due))]
fn rows_due(rows: List<Row>, bound: u64, left: u32) -> PartSoFar<BlockState, RelBlock>
    ensures { result ≡ rows_due rows bound left }
{
    if left == 0 {
        PartSoFar::Whole(RelBlock { rows })
    } else {
        PartSoFar::More(BlockState::Row {
            rows,
            bound,
            later: left - 1,
        })
    }
}

/// What the next line makes of it.
#[tactic(auto, unfolding(crate::specs::Machine::step_block))]
pub(crate) fn step_block(
    alloc: Global,
    version: u32,
    state: BlockState,
    line: &[u8],
) -> Result<PartSoFar<BlockState, RelBlock>, LineFault>
    ensures { Agrees (step_block version state (tokens_of line.now)) result }
{
    match state {
        BlockState::Count => match number_in(Keyword::Rel, line) {
            Ok(count) => Ok(rows_due(List::new(alloc), 0, count)),
            Err(fault) => Err(fault),
        },
        BlockState::Row { rows, bound, later } => match row_in(alloc, version, bound, line) {
            Ok(row) => {
                let bound = row.left as u64 + 1;
                match pushed(rows, row) {
                    Ok(rows) => Ok(rows_due(rows, bound, later)),
                    Err(fault) => Err(fault),
                }
            }
            Err(fault) => Err(fault),
        },
    }
}

/// What is due in a relation with ranks.
#[derive(Drop)]
pub(crate) enum RankState {
    /// The number of its rows.
    Count,
    /// A row.
    Row {
        /// The rows so far.
        rows: List<RankRow>,
        /// How many rows follow the one that is due.
        later: u32,
    },
}

/// What is due with these rows, and this many to come.
#[tactic(auto, unfolding(crate::specs::Machine::rank_rows_due))]
fn rank_rows_due(rows: List<RankRow>, left: u32) -> PartSoFar<RankState, RankBlock>
    ensures { result ≡ rank_rows_due rows left }
{
    if left == 0 {
        PartSoFar::Whole(RankBlock { rows })
    } else {
        PartSoFar::More(RankState::Row {
            rows,
            later: left - 1,
        })
    }
}

/// What the next line makes of it, with so many letters announced.
#[tactic(auto, unfolding(crate::specs::Machine::step_ranks))]
pub(crate) fn step_ranks(
    alloc: Global,
    letters: u32,
    state: RankState,
    line: &[u8],
) -> Result<PartSoFar<RankState, RankBlock>, LineFault>
    ensures { Agrees (step_ranks letters state (tokens_of line.now)) result }
{
    match state {
        RankState::Count => match number_in(Keyword::Rel, line) {
            Ok(count) => Ok(rank_rows_due(List::new(alloc), count)),
            Err(fault) => Err(fault),
        },
        RankState::Row { rows, later } => match rank_row_in(
            alloc,
            letters,
            rows.as_slice().last(),
            line,
        ) {
            Ok(row) => match pushed(rows, row) {
                Ok(rows) => Ok(rank_rows_due(rows, later)),
                Err(fault) => Err(fault),
            },
            Err(fault) => Err(fault),
        },
    }
}
