//! The triples of a relation from places to states, in their order.

ghost use Rattle.std.specs.Prelude.{◌≡◌, ◌+◌, ◌-◌, ◌*◌, ◌/◌, ◌%◌, ◌^◌, ◌<◌, ◌≤◌, ℕ, length, take, IfOk};
ghost use Rattle.delayed_game.specs.Pairings.{IsPairing};
ghost use Rattle.auto_core.specs.Delayed.{rank_in_code};
ghost use Rattle.delayed_sim.specs.Stored.{entry_triples};
ghost use Rattle.delayed_sim.specs.Words.{digits, ListsTriplesBefore};

use crate::entries::Entry;
use crate::words::{letters_of, word_count};
use auto_core::Memory;
use bit_rows::next_bit;
use delayed_game::{Board, pair_number};
use std::alloc::Global;

/// The rank for which this number stands, in a table or in a certificate: one less, and none where
/// it is 0.
pub fn rank_in_code(code: u32) -> Option<u32>
    ensures { result ≡ rank_in_code code }
{
    if code == 0 {
        return None;
    }
    Some(code - 1)
}

/// Appends the triples of the place, which has this left state and this word.
fn push_row(
    entries: &mut Vec<Entry>,
    board: &Board,
    ranks: &[u32],
    labels: u32,
    letters: u32,
    x: u32,
    left: u32,
    ahead: [u32; 3],
) -> Result<(), Memory>
    requires from { 1 ≤ letters }
    requires place { x < board.now.places }
    requires few { board.now.states < 2 ^ 32 }
    requires len { length ranks.now ≡ board.now.places * board.now.states }
    requires valid { IsPairing board.now }
    requires fits { labels ^ (letters - 1) < 2 ^ 32 }
    requires words { board.now.places ≡ board.now.states * labels ^ (letters - 1) }
    requires state { left ≡ x / labels ^ (letters - 1) }
    requires word { take (letters - 1) ahead
        ≡ digits labels (letters - 1) (x % labels ^ (letters - 1)) }
    requires listed { ListsTriplesBefore labels letters board.now ranks.now x 0
        (entry_triples letters entries.old.items) }
    ensures { IfOk
        result (λ _.
        ListsTriplesBefore labels letters board.now ranks.now (x + 1) 0
        (entry_triples letters entries.new.items)) }
{
    let mut at = 0;
    while let Some(q) = next_bit(board.row(x), at) {
        let rank = rank_in_code(ranks[pair_number(board.places(), board.states(), x, q as u32)]);
        entries.push(Entry {
            left,
            ahead,
            right: q as u32,
            rank,
        })?;
        at = q + 1;
    }
    Ok(())
}

/// The triples of the relation with the ranks of the table.
pub(crate) fn entries_of(
    alloc: Global,
    board: &Board,
    ranks: &[u32],
    labels: u32,
    letters: u32,
) -> Result<Vec<Entry>, Memory>
    requires from { 1 ≤ letters }
    requires upto { letters ≤ 4 }
    requires few { board.now.states < 2 ^ 32 }
    requires len { length ranks.now ≡ board.now.places * board.now.states }
    requires valid { IsPairing board.now }
    requires fits { labels ^ (letters - 1) < 2 ^ 32 }
    requires words { board.now.places ≡ board.now.states * labels ^ (letters - 1) }
    ensures { IfOk
        result (λ v.
        ListsTriplesBefore labels letters board.now ranks.now board.now.places 0
        (entry_triples letters v.items)) }
{
    let words = word_count(labels, letters - 1);
    let mut entries = Vec::with_capacity(alloc, board.room())?;
    for x in 0..board.places() {
        let ahead = letters_of(labels, letters - 1, x % words);
        push_row(
            &mut entries,
            board,
            ranks,
            labels,
            letters,
            x,
            x / words,
            ahead,
        )?;
    }
    Ok(entries)
}
