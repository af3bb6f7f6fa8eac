//! Which states match which, as rows of bits. Most states are like others: they ask for the same,
//! and match the same.

ghost use Rattle.std.specs.Prelude.{◌≡◌, ◌+◌, ◌*◌, ◌/◌, ◌<◌, ◌↔◌, ◌≤◌, ℕ, length, slice_index, All, IfOk, IfSome};
ghost use Rattle.auto_core.specs.Rows.{HasBit, HasCell};
ghost use Rattle.look_round.specs.Kinds.{MatchEachOther, AreKinds};
ghost use Rattle.look_round.specs.Words.{AreMatches};

use crate::reply_lists::MOST_KINDS;
use crate::sides::Side;
use auto_core::{Auto, Memory, rows};
use bit_rows::write_row;
use std::alloc::Global;

/// Writes into the row the states that match `p`.
fn match_row<S: Side>(side: &S, automaton: &Auto, p: u32, row: &mut [u64])
    requires state { p < automaton.now.states }
    requires len { length row.old ≡ (automaton.now.states + 63) / 64 }
    ensures { (q : ℕ)
        → HasBit row.new q ↔ ((q < automaton.now.states) × S.matches side.now automaton.now p q) }
{
    rows::clear_row(row);
    for q in 0..automaton.states() {
        if side.matched(automaton, p, q) {
            rows::set_bit(row, q as usize);
        }
    }
}

/// The place among these states of one that matches `p` and is matched by it, so that the same
/// states match both.
pub(crate) fn find_kind<S: Side>(side: &S, automaton: &Auto, kinds: &[u32], p: u32) -> Option<usize>
    requires state { p < automaton.now.states }
    requires kinds { All (λ s. s < automaton.now.states) kinds.now }
    ensures { IfSome
        result (λ i.
        (i < length kinds.now)
        × MatchEachOther (S.matches side.now automaton.now) p (slice_index kinds.now i)) }
{
    for i in 0..kinds.len() {
        if side.matched(automaton, p, kinds[i]) && side.matched(automaton, kinds[i], p) {
            return Some(i);
        }
    }
    None
}

/// Writes into `row` the states that match `p`, where the rows before `p` are written, and tells
/// whether none of the kinds is its.
fn write_matches<S: Side>(
    side: &S,
    automaton: &Auto,
    kinds: &[u32],
    p: u32,
    table: &[u64],
    row: &mut [u64],
    width: usize,
) -> bool
    requires state { p < automaton.now.states }
    requires kinds { All (λ s. s < p) kinds.now }
    requires width { width ≡ (automaton.now.states + 63) / 64 }
    requires table { length table.now ≡ automaton.now.states * width }
    requires row { length row.old ≡ width }
    requires before { AreMatches (S.matches side.now automaton.now) automaton.now.states table.now
        width p }
    ensures { (q : ℕ) → q < width * 64
        → HasBit row.new q ↔ ((q < automaton.now.states) × S.matches side.now automaton.now p q) }
{
    match find_kind(side, automaton, kinds, p) {
        Some(i) => {
            row.copy_from_slice(rows::row_at(table, width, kinds[i] as usize));
            false
        }
        None => {
            match_row(side, automaton, p, row);
            true
        }
    }
}

/// Writes into each row of the table the states that match the row's own, and gives a state of each
/// kind, as far as kinds are told apart. `row` is room for one row.
pub(crate) fn match_rows<S: Side>(
    alloc: Global,
    side: &S,
    automaton: &Auto,
    table: &mut [u64],
    row: &mut [u64],
    width: usize,
) -> Result<Vec<u32>, Memory>
    requires width { width ≡ (automaton.now.states + 63) / 64 }
    requires table { length table.old ≡ automaton.now.states * width }
    requires row { length row.old ≡ width }
    ensures matches { IfOk
        result (λ _.
        AreMatches (S.matches side.now automaton.now) automaton.now.states table.new width
        automaton.now.states) }
    ensures kinds { IfOk result (λ v. All (λ s. s < automaton.now.states) v.items) }
{
    let mut kinds = Vec::new(alloc);
    for p in 0..automaton.states() {
        let is_new = write_matches(side, automaton, &kinds, p, table, row, width);
        write_row(table, width, p as usize, row);
        if is_new && kinds.len() < MOST_KINDS {
            kinds.push(p)?;
        }
    }
    Ok(kinds)
}

/// A state of each kind, as far as kinds are told apart: each matches itself.
pub(crate) fn find_kinds<S: Side>(
    alloc: Global,
    side: &S,
    automaton: &Auto,
) -> Result<Vec<u32>, Memory>
    ensures states { IfOk result (λ v. All (λ s. s < automaton.now.states) v.items) }
    ensures few { IfOk result (λ v. length v.items ≤ MOST_KINDS) }
{
    let mut kinds = Vec::new(alloc);
    for p in 0..automaton.states() {
        if kinds.len() < MOST_KINDS
            && side.matched(automaton, p, p)
            && find_kind(side, automaton, &kinds, p).is_none()
        {
            kinds.push(p)?;
        }
    }
    Ok(kinds)
}

/// For each state the place of its kind among these, or a larger number.
pub(crate) fn number_kinds<S: Side>(
    alloc: Global,
    side: &S,
    automaton: &Auto,
    kinds: &[u32],
) -> Result<Vec<usize>, Memory>
    requires kinds { All (λ s. s < automaton.now.states) kinds.now }
    ensures { IfOk
        result (λ v.
        AreKinds (S.matches side.now automaton.now) automaton.now.states kinds.now v.items) }
{
    let mut numbers = Vec::new(alloc);
    for p in 0..automaton.states() {
        match find_kind(side, automaton, kinds, p) {
            Some(i) => numbers.push(i)?,
            None => numbers.push(kinds.len())?,
        }
    }
    Ok(numbers)
}
