//! The delayed game of pairs of places and states: pairs are taken away until what is left is right
//! with its least ranks.

ghost use Rattle.std.specs.Prelude.{◌≡◌, ◌<◌, ◌≤◌, ◌↔◌, ◌+◌, ◌*◌, ◌/◌, ◌^◌, ℕ, length, slice_index, true, false, IfOk};
ghost use Rattle.auto_core.specs.Automaton.{IsAutomaton};
ghost use Rattle.auto_core.specs.Game.{Holds};
ghost use Rattle.delayed_game.specs.Before.{AreSetsIfAny};
ghost use Rattle.delayed_game.specs.Boards.{AreLeastRanks, HadLeastRanks};
ghost use Rattle.delayed_game.specs.Pairings.{IsPairing};
ghost use Rattle.delayed_game.specs.Settling.{KeptRowsAnswer, HasSomeRank, IsAnsweredBesides, IsFiltered, Drops};
ghost use Rattle.delayed_game.specs.Played.{IsPlayed};

use crate::board::Board;
use crate::levels::least_ranks;
use crate::pairs::pair_number;
use crate::sets::sets_of;
use crate::settling::settle;
use auto_core::{Auto, Memory, rows};
use bit_rows::{mark_below, next_bit};
use std::alloc::Global;

/// A row has many pairs if it has so many.
const MANY_PAIRS: usize = 16;

/// A table of so many rows and columns without ranks.
fn no_ranks(alloc: Global, rows: u32, columns: u32) -> Result<Vec<u32>, Memory>
    ensures len { IfOk result (λ v. length v.items ≡ rows * columns) }
    ensures none { IfOk result (λ v. (i : ℕ) → slice_index v.items i ≡ 0) }
{
    Ok(vec![in alloc; 0; rows as usize * columns as usize]?)
}

/// Makes the table one without ranks.
fn clear_ranks(ranks: &mut [u32])
    ensures { (i : ℕ) → slice_index ranks.new i ≡ 0 }
{
    for i in 0..ranks.len() {
        ranks[i] = 0;
    }
}

/// Takes away the pairs of the place that have no rank, and tells whether there were any.
fn drop_row(board: &mut Board, ranks: &[u32], p: u32) -> bool
    requires left { p < board.old.places }
    requires few { board.old.states < 2 ^ 32 }
    requires valid { IsPairing board.old }
    requires len { length ranks.now ≡ board.old.places * board.old.states }
    ensures { IsFiltered board.old board.new p (λ q. HasSomeRank ranks.now board.old.states p q)
        result }
{
    let mut changed = false;
    let mut at = 0;
    while let Some(q) = next_bit(board.row(p), at) {
        if ranks[pair_number(board.places(), board.states(), p, q as u32)] == 0 {
            board.clear(p, q as u32);
            changed = true;
        }
        at = q + 1;
    }
    changed
}

/// Takes away the pairs whose place is accepting and that have no rank, marks the rows that lose
/// pairs, and tells whether there were any.
fn drop_unranked(places: &Auto, board: &mut Board, ranks: &[u32], marks: &mut [u64]) -> bool
    requires rows { board.old.places ≡ places.now.states }
    requires few { board.old.states < 2 ^ 32 }
    requires valid { IsPairing board.old }
    requires len { length ranks.now ≡ board.old.places * board.old.states }
    requires marks_len { length marks.old ≡ (places.now.states + 63) / 64 }
    ensures drops { Drops places.now board.old.states ranks.now board.old board.new marks.old
        marks.new }
    ensures some { result ≡ true → length board.new.pairs < length board.old.pairs }
    ensures same { result ≡ false → board.new ≡ board.old }
{
    let mut any = false;
    for p in 0..places.states() {
        if places.accepting(p) {
            if drop_row(board, ranks, p) {
                rows::set_bit(marks, p as usize);
                any = true;
            }
        }
    }
    any
}

/// Tells whether the relation has each pair of the place that has a rank.
fn has_ranked(board: &Board, ranks: &[u32], p: u32) -> bool
    requires left { p < board.now.places }
    requires len { length ranks.now ≡ board.now.places * board.now.states }
    ensures { result ≡ true → (q : ℕ) → q < board.now.states
        → HasSomeRank ranks.now board.now.states p q → Holds board.now.pairs p q }
{
    let row = board.row(p);
    for q in 0..board.states() {
        if ranks[pair_number(board.places(), board.states(), p, q)] != 0 {
            if !rows::has_bit(row, q as usize) {
                return false;
            }
        }
    }
    true
}

/// Tells whether the relation has each pair that has a rank.
fn has_each_ranked(board: &Board, ranks: &[u32]) -> bool
    requires len { length ranks.now ≡ board.now.places * board.now.states }
    ensures { result ≡ true → (p q : ℕ) → p < board.now.places → q < board.now.states
        → HasSomeRank ranks.now board.now.states p q → Holds board.now.pairs p q }
{
    for p in 0..board.places() {
        if !has_ranked(board, ranks, p) {
            return false;
        }
    }
    true
}

/// Writes the least ranks of the relation into the table, which has those of a relation that had
/// its pairs and perhaps more: they are the same where no pair went that has a rank.
fn rank_anew(
    alloc: Global,
    places: &Auto,
    automaton: &Auto,
    sets: &[u64],
    board: &Board,
    ranks: &mut [u32],
) -> Result<(), Memory>
    requires few { places.now.states * automaton.now.states + 2 < 2 ^ 32 }
    requires over { IsAutomaton places.now }
    requires labels { places.now.labels ≡ automaton.now.labels }
    requires sound { IsAutomaton automaton.now }
    requires sets { AreSetsIfAny automaton.now ((automaton.now.states + 63) / 64) sets.now }
    requires rows { board.now.places ≡ places.now.states }
    requires columns { board.now.states ≡ automaton.now.states }
    requires ranks { HadLeastRanks places.now automaton.now board.now ranks.old }
    ensures { IfOk
        result (λ _. AreLeastRanks places.now automaton.now (Holds board.now.pairs) ranks.new) }
{
    if has_each_ranked(board, ranks) {
        return Ok(());
    }
    clear_ranks(ranks);
    least_ranks(alloc, places, automaton, sets, board, ranks)
}

/// Takes pairs away until the relation with its least ranks is right, and writes these ranks into
/// the table, which has none yet. `row` is room for one row, `made` for a row for each letter.
fn rank_or_drop(
    alloc: Global,
    places: &Auto,
    automaton: &Auto,
    sets: &[u64],
    board: &mut Board,
    ranks: &mut [u32],
    marks: &mut [u64],
    kept: &mut [u64],
    tried: &mut [u64],
    made: &mut [u64],
    width: usize,
    row: &mut [u64],
) -> Result<(), Memory>
    requires few { places.now.states * automaton.now.states + 2 < 2 ^ 32 }
    requires over { IsAutomaton places.now }
    requires labels { places.now.labels ≡ automaton.now.labels }
    requires sound { IsAutomaton automaton.now }
    requires sets { AreSetsIfAny automaton.now width sets.now }
    requires rows { board.old.places ≡ places.now.states }
    requires columns { board.old.states ≡ automaton.now.states }
    requires valid { IsPairing board.old }
    requires ranks_len { length ranks.old ≡ places.now.states * automaton.now.states }
    requires clear { (i : ℕ) → slice_index ranks.old i ≡ 0 }
    requires marks_len { length marks.old ≡ (places.now.states + 63) / 64 }
    requires width { width ≡ (automaton.now.states + 63) / 64 }
    requires kept_len { length kept.old ≡ places.now.states * width }
    requires tried_len { length tried.old ≡ (places.now.states + 63) / 64 }
    requires made_len { length made.old ≡ automaton.now.labels * width }
    requires row_len { length row.old ≡ width }
    requires kept { KeptRowsAnswer places.now automaton.now width kept.old tried.old board.old }
    requires besides { IsAnsweredBesides places.now automaton.now (Holds board.old.pairs)
        marks.old }
    ensures { IfOk result (λ _. IsPlayed places.now automaton.now board.old board.new ranks.new) }
{
    settle(
        places, automaton, sets, board, marks, kept, tried, made, width, row,
    );
    least_ranks(alloc, places, automaton, sets, board, ranks)?;
    'turns: while drop_unranked(places, board, ranks, marks) {
        settle(
            places, automaton, sets, board, marks, kept, tried, made, width, row,
        );
        rank_anew(alloc, places, automaton, sets, board, ranks)?;
    }
    Ok(())
}

/// Takes pairs away until the relation with its least ranks is right, and gives these ranks. `row`
/// is room for one row, `made` for a row for each letter.
fn ranks_left(
    alloc: Global,
    places: &Auto,
    automaton: &Auto,
    sets: &[u64],
    board: &mut Board,
    marks: &mut [u64],
    kept: &mut [u64],
    tried: &mut [u64],
    made: &mut [u64],
    width: usize,
    row: &mut [u64],
) -> Result<Vec<u32>, Memory>
    requires few { places.now.states * automaton.now.states + 2 < 2 ^ 32 }
    requires over { IsAutomaton places.now }
    requires labels { places.now.labels ≡ automaton.now.labels }
    requires sound { IsAutomaton automaton.now }
    requires sets { AreSetsIfAny automaton.now width sets.now }
    requires rows { board.old.places ≡ places.now.states }
    requires columns { board.old.states ≡ automaton.now.states }
    requires valid { IsPairing board.old }
    requires marks_len { length marks.old ≡ (places.now.states + 63) / 64 }
    requires width { width ≡ (automaton.now.states + 63) / 64 }
    requires kept_len { length kept.old ≡ places.now.states * width }
    requires tried_len { length tried.old ≡ (places.now.states + 63) / 64 }
    requires made_len { length made.old ≡ automaton.now.labels * width }
    requires row_len { length row.old ≡ width }
    requires kept { KeptRowsAnswer places.now automaton.now width kept.old tried.old board.old }
    requires besides { IsAnsweredBesides places.now automaton.now (Holds board.old.pairs)
        marks.old }
    ensures { IfOk result (λ v. IsPlayed places.now automaton.now board.old board.new v.items) }
{
    let mut ranks = no_ranks(alloc, places.states(), automaton.states())?;
    rank_or_drop(
        alloc, places, automaton, sets, board, &mut ranks, marks, kept, tried, made, width, row,
    )?;
    Ok(ranks)
}

/// The table of sets where the rows of the relation have many pairs; nothing where they have few.
fn sets_if_many(
    alloc: Global,
    board: &Board,
    automaton: &Auto,
    width: usize,
) -> Result<Vec<u64>, Memory>
    requires valid { IsAutomaton automaton.now }
    requires width { width ≡ (automaton.now.states + 63) / 64 }
    ensures { IfOk result (λ v. AreSetsIfAny automaton.now width v.items) }
{
    if board.room() / MANY_PAIRS < board.places() as usize {
        return Ok(Vec::new(alloc));
    }
    sets_of(alloc, automaton, width)
}

/// Plays the game: takes pairs away until the relation with its least ranks is right, and gives
/// these ranks.
pub fn play(
    alloc: Global,
    places: &Auto,
    automaton: &Auto,
    board: &mut Board,
) -> Result<Vec<u32>, Memory>
    requires few { places.now.states * automaton.now.states + 2 < 2 ^ 32 }
    requires over { IsAutomaton places.now }
    requires labels { places.now.labels ≡ automaton.now.labels }
    requires sound { IsAutomaton automaton.now }
    requires rows { board.old.places ≡ places.now.states }
    requires columns { board.old.states ≡ automaton.now.states }
    requires valid { IsPairing board.old }
    ensures { IfOk result (λ v. IsPlayed places.now automaton.now board.old board.new v.items) }
{
    let width = rows::words_for(automaton.states());
    let mut marks = vec![in alloc; 0; rows::words_for(places.states())]?;
    let mut kept = vec![in alloc; 0; places.states() as usize * width]?;
    let mut tried = vec![in alloc; 0; rows::words_for(places.states())]?;
    let mut made = vec![in alloc; 0; automaton.labels() as usize * width]?;
    let mut row = vec![in alloc; 0; width]?;
    let sets = sets_if_many(alloc, board, automaton, width)?;
    mark_below(&mut marks, places.states());
    ranks_left(
        alloc, places, automaton, &sets, board, &mut marks, &mut kept, &mut tried, &mut made,
        width, &mut row,
    )
}
