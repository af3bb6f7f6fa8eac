//! The greatest delayed relation across two automata, with its least ranks.

ghost use Rattle.std.specs.Prelude.{◌≡◌, ◌+◌, ◌*◌, ◌^◌, ◌<◌, ◌≤◌, ℕ, length, IfOk};
ghost use Rattle.auto_core.specs.Automaton.{IsAutomaton};
ghost use Rattle.auto_core.specs.Delayed.{rank_in_code};
ghost use Rattle.delayed_game.specs.Pairings.{IsPairing};
ghost use Rattle.delayed_game.specs.Played.{HasEachRight, IsPlayed};
ghost use Rattle.delayed_laws.specs.Greatest.{IsGreatestDelayedAcross};
ghost use Rattle.delayed_laws.specs.Listed.{place_pairs, AreDelayedAscending};
ghost use Rattle.delayed_across.specs.Listed.{ListsBefore};

use auto_core::{Auto, Memory};
use bit_rows::next_bit;
use delayed_game::{Board, pair_number, play};
use delayed_laws::DelayedPair;
use std::alloc::Global;

/// The rank for which the number stands: one less, and none where it is 0.
fn rank_in_code(code: u32) -> Option<u32>
    ensures { result ≡ rank_in_code code }
{
    if code == 0 {
        return None;
    }
    Some(code - 1)
}

/// Appends the pairs of the left state.
fn push_row(
    pairs: &mut Vec<DelayedPair>,
    board: &Board,
    ranks: &[u32],
    left: u32,
) -> Result<(), Memory>
    requires place { left < board.now.places }
    requires few { board.now.states < 2 ^ 32 }
    requires len { length ranks.now ≡ board.now.places * board.now.states }
    requires valid { IsPairing board.now }
    requires listed { ListsBefore board.now ranks.now left 0 pairs.old.items }
    ensures { IfOk result (λ _. ListsBefore board.now ranks.now (left + 1) 0 pairs.new.items) }
{
    let mut at = 0;
    while let Some(q) = next_bit(board.row(left), at) {
        let rank = rank_in_code(ranks[pair_number(board.places(), board.states(), left, q as u32)]);
        pairs.push(DelayedPair {
            left,
            right: q as u32,
            rank,
        })?;
        at = q + 1;
    }
    Ok(())
}

/// The pairs of the relation with the ranks of the table.
fn pairs_of(alloc: Global, board: &Board, ranks: &[u32]) -> Result<Vec<DelayedPair>, Memory>
    requires few { board.now.states < 2 ^ 32 }
    requires len { length ranks.now ≡ board.now.places * board.now.states }
    requires valid { IsPairing board.now }
    ensures { IfOk result (λ v. ListsBefore board.now ranks.now board.now.places 0 v.items) }
{
    let mut pairs = Vec::with_capacity(alloc, board.room())?;
    for left in 0..board.places() {
        push_row(&mut pairs, board, ranks, left)?;
    }
    Ok(pairs)
}

/// The greatest delayed relation of the first automaton's states by the second's, with its least
/// ranks, ascending: the game begins with all pairs.
pub fn relation(alloc: Global, first: &Auto, second: &Auto) -> Result<Vec<DelayedPair>, Memory>
    requires few { first.now.states * second.now.states + 2 < 2 ^ 32 }
    requires labels { first.now.labels ≡ second.now.labels }
    ensures greatest { IfOk
        result (λ v. IsGreatestDelayedAcross first.now second.now (place_pairs v.items)) }
    ensures in_order { IfOk result (λ v. AreDelayedAscending v.items) }
{
    let mut board = Board::full(alloc, first.states(), second.states())?;
    let ranks = play(alloc, first, second, &mut board)?;
    pairs_of(alloc, &board, &ranks)
}
