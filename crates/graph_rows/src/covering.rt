//! When one graph covers another.

ghost use Rattle.std.specs.Prelude.{◌≡◌, ◌*◌, ◌+◌, ◌/◌, ◌^◌, ◌<◌, ◌≤◌, ◌↔◌, ℕ, [], ◌∷◌, true, false, length, IsTrue};
ghost use Rattle.auto_core.specs.Rows.{HasBit};
ghost use Rattle.auto_core.specs.Reach.{IsTable, HasArc};
ghost use Rattle.auto_core.specs.Game.{Holds};
ghost use Rattle.auto_core.specs.Graph.{Covers};
ghost use Rattle.graph_rows.specs.Block.{width_of, block_graph, IsFormed};
ghost use Rattle.graph_rows.specs.Covering.{AnswersArcs, AnswersWord, AreOwnAnswers, HasEachArc, IsReflexiveBelow, IsTargetAnswered, LacksAnswer};

use crate::block;
use auto_core::rows;
use bit_rel::Rel;
use bit_rows::{meets, next_bit, subset};

/// Tells whether an arc leads from the state of the row to some state that the order relates the
/// target to: one of `past` if
/// `flagged` says so, else one of `joined`.
pub fn answers(
    order: &Rel,
    width: usize,
    row: u32,
    target: u32,
    flagged: bool,
    joined: &[u64],
    past: &[u64],
) -> bool
    requires width { width ≡ width_of order.now.size }
    requires is_row { row < order.now.size }
    requires is_state { target < order.now.size }
    requires joined { IsTable joined.now order.now.size width }
    requires past { IsTable past.now order.now.size width }
    ensures any { flagged ≡ false
        → IsTrue result
        ↔ ((u : ℕ) × HasArc joined.now order.now.size width row u
        × Holds order.now.pairs target u) }
    ensures marked { flagged ≡ true
        → IsTrue result
        ↔ ((u : ℕ) × HasArc past.now order.now.size width row u × Holds order.now.pairs target u) }
{
    let wanted = order.row(target);
    if flagged {
        meets(rows::row_at(past, width, row as usize), wanted)
    } else {
        meets(rows::row_at(joined, width, row as usize), wanted)
    }
}

/// Tells whether the first arc out of the state of the row that the second graph has not, has no
/// answer in it either.
fn is_row_refused(
    order: &Rel,
    width: usize,
    row: u32,
    joined: &[u64],
    other_joined: &[u64],
    other_past: &[u64],
) -> bool
    requires width { width ≡ width_of order.now.size }
    requires states_fit { order.now.size < 2 ^ 32 }
    requires is_row { row < order.now.size }
    requires joined { IsTable joined.now order.now.size width }
    requires other_joined { IsTable other_joined.now order.now.size width }
    requires other_past { IsTable other_past.now order.now.size width }
    ensures { result ≡ true
        → LacksAnswer (Holds order.now.pairs) (HasArc joined.now order.now.size width)
        (HasArc other_joined.now order.now.size width) row }
{
    let targets = rows::row_at(joined, width, row as usize);
    let others = rows::row_at(other_joined, width, row as usize);
    match rows::first_missing(targets, others) {
        Some(target) => !answers(
            order,
            width,
            row,
            target as u32,
            false,
            other_joined,
            other_past,
        ),
        None => false,
    }
}

/// Tells whether a first look at each row shows that `g` does not cover `h`.
fn is_refused(order: &Rel, g: &[u64], h: &[u64]) -> bool
    requires first { IsFormed order.now.size g.now }
    requires second { IsFormed order.now.size h.now }
    ensures { result ≡ true
        → Covers (Holds order.now.pairs) (block_graph order.now.size g.now)
        (block_graph order.now.size h.now) → ⊥ }
{
    let states = order.size();
    let width = rows::words_for(states);
    for row in 0..states {
        if is_row_refused(
            order,
            width,
            row,
            block::joined(states, g),
            block::joined(states, h),
            block::past(states, h),
        ) {
            return true;
        }
    }
    false
}

/// Tells whether each of these targets, the bits of a word, has an answer among the others.
fn are_answered(order: &Rel, word: usize, targets: u64, others: &[u64]) -> bool
    requires states_fit { order.now.size < 2 ^ 32 }
    requires width { length others.now ≡ width_of order.now.size }
    requires states { (j : ℕ) → HasBit (targets ∷ []) j → word * 64 + j < order.now.size }
    ensures { IsTrue result
        ↔ ((j : ℕ) → HasBit (targets ∷ []) j
        → IsTargetAnswered (Holds order.now.pairs) (HasBit others.now) (word * 64 + j)) }
{
    let row = [targets];
    let mut at = 0;
    while let Some(bit) = next_bit(&row, at) {
        if !meets(others, order.row((word * 64 + bit) as u32)) {
            return false;
        }
        at = bit + 1;
    }
    true
}

/// Tells whether the number is of a state that the order relates to itself.
fn is_own_answer(order: &Rel, state: u64) -> bool
    requires states_fit { order.now.size < 2 ^ 32 }
    ensures { result ≡ true → Holds order.now.pairs state state }
{
    state < order.size() as u64 && order.get(state as u32, state as u32)
}

/// The states of the word with this number, 64 states to a word, that arcs of the table lead to:
/// bit `j` stands for the state
/// `64 * word + j`.
pub fn targets_in(width: usize, word: usize, count: u32, table: &[u64]) -> u64
    requires word { word < width }
    requires table { IsTable table.now count width }
    ensures { (j : ℕ) → j < 64
        → HasBit (result ∷ []) j ↔ ((s : ℕ) × HasArc table.now count width s (word * 64 + j)) }
{
    let mut targets = 0;
    for row in 0..count as usize {
        targets |= table[row * width + word];
    }
    targets
}

/// Sets the bits of those of the states of the word that the order relates to themselves.
fn mark_own_answers(order: &Rel, word: usize, states: u64, row: &mut [u64])
    requires word { word < 2 ^ 32 }
    requires states_fit { order.now.size < 2 ^ 32 }
    requires none { row.old ≡ 0 ∷ [] }
    ensures { (x : ℕ) → row.new ≡ x ∷ [] → AreOwnAnswers (Holds order.now.pairs) word x }
{
    let asked = [states];
    for j in 0..64 {
        if rows::has_bit(&asked, j) {
            if is_own_answer(order, word as u64 * 64 + j as u64) {
                rows::set_bit(row, j);
            }
        }
    }
}

/// Those of the states of the word that the order relates to themselves: an arc to one of them
/// answers itself.
fn own_answers(order: &Rel, word: usize, states: u64) -> u64
    requires word { word < 2 ^ 32 }
    requires states_fit { order.now.size < 2 ^ 32 }
    ensures { AreOwnAnswers (Holds order.now.pairs) word result }
{
    let mut row = [0];
    mark_own_answers(order, word, states, &mut row);
    row[0]
}

/// Tells whether each arc of the one table to a target of the word has an answer in the other
/// table.
fn is_word_answered(
    order: &Rel,
    width: usize,
    word: usize,
    arcs: &[u64],
    other_arcs: &[u64],
) -> bool
    requires width { width ≡ width_of order.now.size }
    requires states_fit { order.now.size < 2 ^ 32 }
    requires word { word < width }
    requires arcs { IsTable arcs.now order.now.size width }
    requires other_arcs { IsTable other_arcs.now order.now.size width }
    ensures { IsTrue result
        ↔ AnswersWord (Holds order.now.pairs) (HasArc arcs.now order.now.size width)
        (HasArc other_arcs.now order.now.size width) word }
{
    let themselves = own_answers(order, word, targets_in(width, word, order.size(), arcs));
    for row in 0..order.size() {
        let targets = rows::row_at(arcs, width, row as usize)[word];
        let other_targets = rows::row_at(other_arcs, width, row as usize);
        let unsure = targets & !(other_targets[word] & themselves);
        if !are_answered(order, word, unsure, other_targets) {
            return false;
        }
    }
    true
}

/// Tells whether each arc of the one table has an answer in the other table.
fn is_table_answered(order: &Rel, arcs: &[u64], other_arcs: &[u64]) -> bool
    requires states_fit { order.now.size < 2 ^ 32 }
    requires arcs { IsTable arcs.now order.now.size (width_of order.now.size) }
    requires other_arcs { IsTable other_arcs.now order.now.size (width_of order.now.size) }
    ensures { IsTrue result
        ↔ AnswersArcs (Holds order.now.pairs)
        (HasArc arcs.now order.now.size (width_of order.now.size))
        (HasArc other_arcs.now order.now.size (width_of order.now.size)) }
{
    let width = rows::words_for(order.size());
    for word in 0..width {
        if !is_word_answered(order, width, word, arcs, other_arcs) {
            return false;
        }
    }
    true
}

/// Is true only where the order relates each state to itself.
fn is_reflexive(order: &Rel) -> bool
    requires states_fit { order.now.size < 2 ^ 32 }
    ensures { result ≡ true → IsReflexiveBelow order.now.size (Holds order.now.pairs) }
{
    for state in 0..order.size() {
        if !order.get(state, state) {
            return false;
        }
    }
    true
}

/// Is true only where the second graph has each arc of the first, of at least its value.
fn has_each_arc(states: u32, g: &[u64], h: &[u64]) -> bool
    requires first { IsFormed states g.now }
    requires second { IsFormed states h.now }
    ensures { result ≡ true → HasEachArc (block_graph states g.now) (block_graph states h.now) }
{
    subset(block::joined(states, g), block::joined(states, h))
        && subset(block::past(states, g), block::past(states, h))
}

/// Is true only where the first graph covers the second: the second has all arcs of the first, and
/// the order relates each state to itself, so each arc answers itself.
fn each_arc_answers_itself(order: &Rel, g: &[u64], h: &[u64]) -> bool
    requires first { IsFormed order.now.size g.now }
    requires second { IsFormed order.now.size h.now }
    ensures { result ≡ true
        → Covers (Holds order.now.pairs) (block_graph order.now.size g.now)
        (block_graph order.now.size h.now) }
{
    has_each_arc(order.size(), g, h) && is_reflexive(order)
}

/// Tells whether each arc of `g` has in `h` an arc from the same state, of at least its value, to
/// some state that the order relates its target to.
pub fn covers(order: &Rel, g: &[u64], h: &[u64]) -> bool
    requires first { IsFormed order.now.size g.now }
    requires second { IsFormed order.now.size h.now }
    ensures { IsTrue result
        ↔ Covers (Holds order.now.pairs) (block_graph order.now.size g.now)
        (block_graph order.now.size h.now) }
{
    if each_arc_answers_itself(order, g, h) {
        return true;
    }
    if is_refused(order, g, h) {
        return false;
    }
    let states = order.size();
    is_table_answered(order, block::joined(states, g), block::joined(states, h))
        && is_table_answered(order, block::past(states, g), block::past(states, h))
}
