//! The least ranks inside a relation, level by level: a pair is ranked when each move of its place
//! is answered by a pair that was ranked before.

ghost use Rattle.std.specs.Prelude.{◌≡◌, ◌<◌, ◌≤◌, ◌↔◌, ◌⊎◌, ◌+◌, ◌*◌, ◌/◌, ◌^◌, ℕ, length, Some, None, true, false, All, slice_index, IfOk};
ghost use Rattle.auto_core.specs.Automaton.{IsAutomaton, IsAccepting, trans_at};
ghost use Rattle.auto_core.specs.Game.{Holds};
ghost use Rattle.auto_core.specs.Rows.{HasBit, HasCell};
ghost use Rattle.delayed_game.specs.Pairings.{IsPairing};
ghost use Rattle.delayed_game.specs.Levels.{rank_in_table};
ghost use Rattle.delayed_game.specs.Before.{LeadsTo, AreSetsIfAny};
ghost use Rattle.delayed_game.specs.Boards.{HasFreshAnswer, IsReady, GivesRank, IsClimbed, AreLeastRanks};

use crate::before::write_before;
use crate::blocks::note_by_blocks;
use crate::board::{Board, bits_in};
use crate::pairs::pair_number;
use auto_core::{Auto, Memory, rows};
use bit_rows::{and_row, next_bit, write_row};
use std::alloc::Global;

/// Gives the rank to the pairs of the place with the states of the row, all of which are unranked.
fn give_ranks(unranked: &mut Board, ranks: &mut [u32], p: u32, row: &[u64], rank: u32)
    requires left { p < unranked.old.places }
    requires few { unranked.old.states < 2 ^ 32 }
    requires valid { IsPairing unranked.old }
    requires len { length ranks.old ≡ unranked.old.places * unranked.old.states }
    requires row_len { length row.now < 2 ^ 32 }
    requires rank { rank + 1 < 2 ^ 32 }
    requires row { (q : ℕ) → HasBit row.now q → Holds unranked.old.pairs p q }
    ensures places { unranked.new.places ≡ unranked.old.places }
    ensures states { unranked.new.states ≡ unranked.old.states }
    ensures valid { IsPairing unranked.new }
    ensures pairs { (r s : ℕ)
        → Holds unranked.new.pairs r s
        ↔ (Holds unranked.old.pairs r s × ((r ≡ p) × HasBit row.now s → ⊥)) }
    ensures table { (r s : ℕ) → r < unranked.old.places → s < unranked.old.states
        → ((r ≡ p) × HasBit row.now s × (rank_in_table ranks.new unranked.old.states r s ≡ Some rank))
        ⊎ (((r ≡ p) × HasBit row.now s → ⊥) × (rank_in_table ranks.new unranked.old.states r s ≡ rank_in_table ranks.old unranked.old.states r s)) }
{
    let mut at = 0;
    while let Some(q) = next_bit(row, at) {
        unranked.clear(p, q as u32);
        ranks[pair_number(unranked.places(), unranked.states(), p, q as u32)] = rank + 1;
        at = q + 1;
    }
}

/// Writes into the row the states of the unranked pairs of the place.
fn write_unranked(unranked: &Board, p: u32, row: &mut [u64])
    requires left { p < unranked.now.places }
    requires len { length row.old ≡ (unranked.now.states + 63) / 64 }
    ensures bits { (q : ℕ) → HasBit row.new q ↔ Holds unranked.now.pairs p q }
    ensures valid { IsPairing unranked.now }
{
    row.copy_from_slice(unranked.row(p));
}

/// Takes from the row the states by which not each transition of the place is answered.
fn keep_answered(places: &Auto, p: u32, answered: &[u64], width: usize, row: &mut [u64])
    requires left { p < places.now.states }
    requires answered { length answered.now ≡ length places.now.transitions * width }
    requires row { length row.old ≡ width }
    requires few { width < 2 ^ 32 }
    ensures { (q : ℕ) → q < width * 64 → HasBit row.new q
        ↔ (HasBit row.old q × ((t : ℕ) → t < length places.now.transitions → (trans_at places.now t).source ≡ p → HasCell answered.now width t q)) }
{
    if next_bit(row, 0).is_none() {
        return;
    }
    let span = places.outgoing(p);
    for t in span.begin..span.end {
        and_row(row, width, 0, rows::row_at(answered, width, t as usize));
    }
}

/// Gives the rank to the pairs that are ready, and tells whether there are any. `fresh` is made to
/// have them; `row` is room for one row.
fn rank_ready(
    places: &Auto,
    automaton: &Auto,
    answered: &[u64],
    rank: u32,
    unranked: &mut Board,
    ranks: &mut [u32],
    fresh: &mut [u64],
    width: usize,
    row: &mut [u64],
) -> bool
    requires few { automaton.now.states < 2 ^ 32 }
    requires rank { rank + 1 < 2 ^ 32 }
    requires width { width ≡ (automaton.now.states + 63) / 64 }
    requires places { unranked.old.places ≡ places.now.states }
    requires states { unranked.old.states ≡ automaton.now.states }
    requires valid { IsPairing unranked.old }
    requires len { length ranks.old ≡ places.now.states * automaton.now.states }
    requires answered { length answered.now ≡ length places.now.transitions * width }
    requires fresh { length fresh.old ≡ places.now.states * width }
    requires row { length row.old ≡ width }
    ensures gives { GivesRank places.now automaton.now
        (IsReady places.now automaton.now unranked.old answered.now) rank unranked.old ranks.old
        unranked.new ranks.new fresh.new }
    ensures some { result ≡ true → length unranked.new.pairs < length unranked.old.pairs }
    ensures none { result ≡ false → (p q : ℕ)
        → IsReady places.now automaton.now unranked.old answered.now p q → ⊥ }
{
    let mut any = false;
    for p in 0..places.states() {
        write_unranked(unranked, p, row);
        keep_answered(places, p, answered, width, row);
        write_row(fresh, width, p as usize, row);
        give_ranks(unranked, ranks, p, row, rank);
        match next_bit(row, 0) {
            Some(_first) => any = true,
            None => {}
        }
    }
    any
}

/// Writes into the row the accepting states.
fn write_accepting(automaton: &Auto, row: &mut [u64])
    requires len { length row.old ≡ (automaton.now.states + 63) / 64 }
    ensures bits { (q : ℕ) → HasBit row.new q ↔ IsAccepting automaton.now q }
    ensures valid { IsAutomaton automaton.now }
{
    rows::clear_row(row);
    for q in 0..automaton.states() {
        if automaton.accepting(q) {
            rows::set_bit(row, q as usize);
        }
    }
}

/// Gives rank 0 to the unranked pairs whose right state is accepting. `fresh` is made to have them;
/// `row` and `ends` are room for one row.
fn rank_accepting(
    places: &Auto,
    automaton: &Auto,
    unranked: &mut Board,
    ranks: &mut [u32],
    fresh: &mut [u64],
    width: usize,
    row: &mut [u64],
    ends: &mut [u64],
)
    requires width { width ≡ (automaton.now.states + 63) / 64 }
    requires places { unranked.old.places ≡ places.now.states }
    requires states { unranked.old.states ≡ automaton.now.states }
    requires valid { IsPairing unranked.old }
    requires len { length ranks.old ≡ places.now.states * automaton.now.states }
    requires fresh { length fresh.old ≡ places.now.states * width }
    requires row { length row.old ≡ width }
    requires ends { length ends.old ≡ width }
    ensures { GivesRank places.now
        automaton.now (λ p q. Holds unranked.old.pairs p q × IsAccepting automaton.now q) 0
        unranked.old ranks.old unranked.new ranks.new fresh.new }
{
    write_accepting(automaton, ends);
    for p in 0..places.states() {
        write_unranked(unranked, p, row);
        and_row(row, width, 0, ends);
        write_row(fresh, width, p as usize, row);
        give_ranks(unranked, ranks, p, row, 0);
    }
}

/// Notes the answers to the transitions into the place by the states of its row. `made` is room for
/// a row for each letter.
fn note_answers(
    places: &Auto,
    automaton: &Auto,
    sets: &[u64],
    to: u32,
    ends: &[u64],
    answered: &mut [u64],
    width: usize,
    made: &mut [u64],
)
    requires place { to < places.now.states }
    requires over { IsAutomaton places.now }
    requires labels { places.now.labels ≡ automaton.now.labels }
    requires valid { IsAutomaton automaton.now }
    requires sets { AreSetsIfAny automaton.now width sets.now }
    requires width { width ≡ (automaton.now.states + 63) / 64 }
    requires ends { (q : ℕ) → HasBit ends.now q → q < automaton.now.states }
    requires ends_len { length ends.now ≡ width }
    requires answered { length answered.old ≡ length places.now.transitions * width }
    requires made { length made.old ≡ automaton.now.labels * width }
    ensures { (t q : ℕ) → t < length places.now.transitions → q < width * 64 → HasCell answered.new width t q
        ↔ (HasCell answered.old width t q ⊎ (((trans_at places.now t).target ≡ to) × LeadsTo automaton.now (trans_at places.now t).label ends.now q)) }
{
    write_before(places, automaton, sets, to, ends, made, width);
    let before = places.predecessors(to);
    for i in 0..before.len() {
        let number = before[i] as usize;
        let label = places.transitions()[number].label as usize;
        rows::or_row(answered, width, number, rows::row_at(made, width, label));
    }
}

/// Notes the answers by the pairs that stand in the rows of `fresh`, place by place. `made` is room
/// for a row for each letter.
fn note_each(
    places: &Auto,
    automaton: &Auto,
    sets: &[u64],
    fresh: &[u64],
    answered: &mut [u64],
    width: usize,
    made: &mut [u64],
)
    requires over { IsAutomaton places.now }
    requires labels { places.now.labels ≡ automaton.now.labels }
    requires valid { IsAutomaton automaton.now }
    requires sets { AreSetsIfAny automaton.now width sets.now }
    requires width { width ≡ (automaton.now.states + 63) / 64 }
    requires fresh { length fresh.now ≡ places.now.states * width }
    requires columns { (p q : ℕ) → p < places.now.states → q < width * 64
        → HasCell fresh.now width p q → q < automaton.now.states }
    requires answered { length answered.old ≡ length places.now.transitions * width }
    requires made { length made.old ≡ automaton.now.labels * width }
    ensures { (t q : ℕ) → t < length places.now.transitions → q < width * 64 → HasCell answered.new width t q
        ↔ (HasCell answered.old width t q ⊎ HasFreshAnswer places.now automaton.now fresh.now t q) }
{
    for to in 0..places.states() {
        let ends = rows::row_at(fresh, width, to as usize);
        match next_bit(ends, 0) {
            Some(_first) => note_answers(places, automaton, sets, to, ends, answered, width, made),
            None => {}
        }
    }
}

/// Notes the answers by the pairs that stand in the rows of `fresh`. `made` is room for a row for
/// each letter, `words` and `found` for a word for each state, and `turned` for 64 rows.
fn note_fresh(
    places: &Auto,
    automaton: &Auto,
    sets: &[u64],
    fresh: &[u64],
    answered: &mut [u64],
    width: usize,
    made: &mut [u64],
    words: &mut [u64],
    found: &mut [u64],
    turned: &mut [u64],
)
    requires over { IsAutomaton places.now }
    requires labels { places.now.labels ≡ automaton.now.labels }
    requires valid { IsAutomaton automaton.now }
    requires sets { AreSetsIfAny automaton.now width sets.now }
    requires width { width ≡ (automaton.now.states + 63) / 64 }
    requires fresh { length fresh.now ≡ places.now.states * width }
    requires columns { (p q : ℕ) → p < places.now.states → q < width * 64
        → HasCell fresh.now width p q → q < automaton.now.states }
    requires answered { length answered.old ≡ length places.now.transitions * width }
    requires made { length made.old ≡ automaton.now.labels * width }
    requires words { length words.old ≡ automaton.now.states }
    requires found { length found.old ≡ automaton.now.states }
    requires turned { length turned.old ≡ 64 * width }
    ensures { (t q : ℕ) → t < length places.now.transitions → q < width * 64 → HasCell answered.new width t q
        ↔ (HasCell answered.old width t q ⊎ HasFreshAnswer places.now automaton.now fresh.now t q) }
{
    if bits_in(fresh) / fresh.len().max(1) >= automaton.labels() as usize {
        note_by_blocks(
            places, automaton, fresh, answered, width, words, found, turned,
        );
    } else {
        note_each(places, automaton, sets, fresh, answered, width, made);
    }
}

/// Ranks level after level, until a level has no pair. `made` is room for a row for each letter,
/// `row` for one row, `words` and `found` for a word for each state, and `turned` for 64 rows.
fn climb(
    places: &Auto,
    automaton: &Auto,
    sets: &[u64],
    within: &Board,
    unranked: &mut Board,
    ranks: &mut [u32],
    answered: &mut [u64],
    fresh: &mut [u64],
    width: usize,
    made: &mut [u64],
    row: &mut [u64],
    words: &mut [u64],
    found: &mut [u64],
    turned: &mut [u64],
)
    requires few { places.now.states * automaton.now.states + 2 < 2 ^ 32 }
    requires over { IsAutomaton places.now }
    requires labels { places.now.labels ≡ automaton.now.labels }
    requires sound { IsAutomaton automaton.now }
    requires sets { AreSetsIfAny automaton.now width sets.now }
    requires width { width ≡ (automaton.now.states + 63) / 64 }
    requires answered { length answered.old ≡ length places.now.transitions * width }
    requires fresh { length fresh.old ≡ places.now.states * width }
    requires made { length made.old ≡ automaton.now.labels * width }
    requires row { length row.old ≡ width }
    requires words { length words.old ≡ automaton.now.states }
    requires found { length found.old ≡ automaton.now.states }
    requires turned { length turned.old ≡ 64 * width }
    requires climbed { IsClimbed places.now automaton.now (Holds within.now.pairs) 0 unranked.old
        ranks.old answered.old fresh.old }
    ensures { AreLeastRanks places.now automaton.now (Holds within.now.pairs) ranks.new }
{
    let mut rank = 0;
    let mut any = true;
    'levels: while any {
        note_fresh(
            places, automaton, sets, fresh, answered, width, made, words, found, turned,
        );
        rank += 1;
        any = rank_ready(
            places, automaton, answered, rank, unranked, ranks, fresh, width, row,
        );
    }
}

/// Writes the least ranks into the table, which has none yet. `unranked` is a copy of the relation,
/// `answered` is room for a row for each transition, `fresh` for one for each place, `made` for one
/// for each letter, `row` and `ends` for one row, `words` and `found` for a word for each state,
/// and `turned` for 64 rows.
fn rank_within(
    places: &Auto,
    automaton: &Auto,
    sets: &[u64],
    board: &Board,
    unranked: &mut Board,
    ranks: &mut [u32],
    answered: &mut [u64],
    fresh: &mut [u64],
    width: usize,
    made: &mut [u64],
    row: &mut [u64],
    ends: &mut [u64],
    words: &mut [u64],
    found: &mut [u64],
    turned: &mut [u64],
)
    requires few { places.now.states * automaton.now.states + 2 < 2 ^ 32 }
    requires over { IsAutomaton places.now }
    requires labels { places.now.labels ≡ automaton.now.labels }
    requires sound { IsAutomaton automaton.now }
    requires sets { AreSetsIfAny automaton.now width sets.now }
    requires width { width ≡ (automaton.now.states + 63) / 64 }
    requires rows { board.now.places ≡ places.now.states }
    requires columns { board.now.states ≡ automaton.now.states }
    requires valid { IsPairing board.now }
    requires copied { unranked.old ≡ board.now }
    requires len { length ranks.old ≡ places.now.states * automaton.now.states }
    requires clear { (i : ℕ) → slice_index ranks.old i ≡ 0 }
    requires answered { length answered.old ≡ length places.now.transitions * width }
    requires fresh { length fresh.old ≡ places.now.states * width }
    requires made { length made.old ≡ automaton.now.labels * width }
    requires row { length row.old ≡ width }
    requires ends { length ends.old ≡ width }
    requires words { length words.old ≡ automaton.now.states }
    requires found { length found.old ≡ automaton.now.states }
    requires turned { length turned.old ≡ 64 * width }
    ensures { AreLeastRanks places.now automaton.now (Holds board.now.pairs) ranks.new }
{
    rows::clear_row(answered);
    rank_accepting(places, automaton, unranked, ranks, fresh, width, row, ends);
    climb(
        places, automaton, sets, board, unranked, ranks, answered, fresh, width, made, row, words,
        found, turned,
    );
}

/// Writes into the table, which has no ranks yet, the least rank of each pair of the relation that
/// can have one.
pub fn least_ranks(
    alloc: Global,
    places: &Auto,
    automaton: &Auto,
    sets: &[u64],
    board: &Board,
    ranks: &mut [u32],
) -> Result<(), Memory>
    requires few { places.now.states * automaton.now.states + 2 < 2 ^ 32 }
    requires over { IsAutomaton places.now }
    requires labels { places.now.labels ≡ automaton.now.labels }
    requires sound { IsAutomaton automaton.now }
    requires sets { AreSetsIfAny automaton.now ((automaton.now.states + 63) / 64) sets.now }
    requires rows { board.now.places ≡ places.now.states }
    requires columns { board.now.states ≡ automaton.now.states }
    requires len { length ranks.old ≡ places.now.states * automaton.now.states }
    requires clear { (i : ℕ) → slice_index ranks.old i ≡ 0 }
    ensures { IfOk
        result (λ _. AreLeastRanks places.now automaton.now (Holds board.now.pairs) ranks.new) }
{
    let width = rows::words_for(automaton.states());
    let mut unranked = board.copied(alloc)?;
    let mut answered = vec![in alloc; 0; places.transitions().len() * width]?;
    let mut fresh = vec![in alloc; 0; places.states() as usize * width]?;
    let mut made = vec![in alloc; 0; automaton.labels() as usize * width]?;
    let mut row = vec![in alloc; 0; width]?;
    let mut ends = vec![in alloc; 0; width]?;
    let mut words = vec![in alloc; 0; automaton.states() as usize]?;
    let mut found = vec![in alloc; 0; automaton.states() as usize]?;
    let mut turned = vec![in alloc; 0; 64 * width]?;
    rank_within(
        places,
        automaton,
        sets,
        board,
        &mut unranked,
        ranks,
        &mut answered,
        &mut fresh,
        width,
        &mut made,
        &mut row,
        &mut ends,
        &mut words,
        &mut found,
        &mut turned,
    );
    Ok(())
}
