//! Where the rest of a word leads, place by place, made from its end to its beginning.

ghost use Rattle.std.specs.Prelude.{◌≡◌, ◌+◌, ◌-◌, ◌*◌, ◌^◌, ◌<◌, ◌≤◌, ◌↔◌, ◌⊎◌, ℕ, List, false, length, slice_index, IfOk, IsTrue};
ghost use Rattle.auto_core.specs.Automaton.{IsAutomaton, Moves};
ghost use Rattle.auto_core.specs.Rows.{HasBit, HasCell, bit_of, cell_of};
ghost use Rattle.lasso_accept.specs.Plane.{chosen};
ghost use Rattle.lasso_accept.specs.Guide.{IsGuide};

use crate::{planes, tables};
use auto_core::{Auto, Memory, rows};
use std::alloc::Global;

/// A row of `width` words for each place of a word, and one for its end.
#[derive(Debug, Drop)]
pub struct Guide {
    /// From which states a run on the rest of the word leads into the target.
    pub any: Vec<u64>,
    /// From which of them one does that passes an accepting state.
    pub flagged: Vec<u64>,
}

/// Adds to row `at` the source of each transition with the label into the state.
fn mark_sources(
    automaton: &Auto,
    label: u32,
    state: u32,
    width: usize,
    at: usize,
    table: &mut [u64],
)
    requires is_state { state < automaton.now.states }
    requires room { automaton.now.states ≤ width * 64 }
    requires row { at * width + width ≤ length table.old }
    ensures here { (p : ℕ)
        → p < width * 64
        → HasCell table.new width at p
        ↔ (HasCell table.old width at p ⊎ Moves automaton.now p label state) }
    ensures others { (r p : ℕ) → p < width * 64 → ¬ (r ≡ at)
        → cell_of table.new width r p ≡ cell_of table.old width r p }
{
    let transitions = automaton.transitions();
    for number in automaton.predecessors(state) {
        let transition = transitions[*number as usize];
        if transition.label == label {
            rows::set_cell(table, width, at, transition.source as usize);
        }
    }
}

/// Adds to row `at` the states from which a move with the label leads to a state of `marked`, where
/// that state is accepting, or else of `plain`, among the states from `begin` up to `end`.
fn write_span(
    automaton: &Auto,
    label: u32,
    width: usize,
    marked: &[u64],
    plain: &[u64],
    begin: u32,
    end: u32,
    at: usize,
    table: &mut [u64],
)
    requires room { automaton.now.states ≤ width * 64 }
    requires marked_len { length marked.now ≡ width }
    requires plain_len { length plain.now ≡ width }
    requires ordered { begin ≤ end }
    requires within { end ≤ automaton.now.states }
    requires row { at * width + width ≤ length table.old }
    ensures here { (p : ℕ)
        → p < width * 64
        → HasCell table.new width at p
        ↔ (HasCell table.old width at p ⊎ ((r : ℕ) × (begin ≤ r) × (r < end) × Moves automaton.now p label r × HasBit (chosen automaton.now marked.now plain.now r) r)) }
    ensures others { (r p : ℕ) → p < width * 64 → ¬ (r ≡ at)
        → cell_of table.new width r p ≡ cell_of table.old width r p }
{
    for state in begin..end {
        let row = planes::pick(automaton, state, marked, plain);
        if rows::has_bit(row, state as usize) {
            mark_sources(automaton, label, state, width, at, table);
        }
    }
}

/// Tells whether both rows have no bit in this word.
fn is_clear(marked: &[u64], plain: &[u64], word: usize) -> bool
    requires marked_in { word < length marked.now }
    requires plain_in { word < length plain.now }
    ensures { IsTrue result → (slice_index marked.now word ≡ 0) × (slice_index plain.now word ≡ 0) }
{
    marked[word] == 0 && plain[word] == 0
}

/// The same among the states of one word of the rows.
fn write_word(
    automaton: &Auto,
    label: u32,
    width: usize,
    marked: &[u64],
    plain: &[u64],
    word: usize,
    at: usize,
    table: &mut [u64],
)
    requires room { automaton.now.states ≤ width * 64 }
    requires few { width < 2 ^ 32 }
    requires marked_len { length marked.now ≡ width }
    requires plain_len { length plain.now ≡ width }
    requires word_in { word < width }
    requires row { at * width + width ≤ length table.old }
    ensures here { (p : ℕ)
        → p < width * 64
        → HasCell table.new width at p
        ↔ (HasCell table.old width at p ⊎ ((r : ℕ) × (word * 64 ≤ r) × (r < (word + 1) * 64) × Moves automaton.now p label r × HasBit (chosen automaton.now marked.now plain.now r) r)) }
    ensures others { (r p : ℕ) → p < width * 64 → ¬ (r ≡ at)
        → cell_of table.new width r p ≡ cell_of table.old width r p }
{
    if is_clear(marked, plain, word) {
        return;
    }
    let states = automaton.states() as usize;
    let begin = usize::min(word * 64, states);
    let end = usize::min(word * 64 + 64, states);
    write_span(
        automaton,
        label,
        width,
        marked,
        plain,
        begin as u32,
        end as u32,
        at,
        table,
    );
}

/// The same among all states.
fn write_row(
    automaton: &Auto,
    label: u32,
    width: usize,
    marked: &[u64],
    plain: &[u64],
    at: usize,
    table: &mut [u64],
)
    requires valid { IsAutomaton automaton.now }
    requires room { automaton.now.states ≤ width * 64 }
    requires few { width < 2 ^ 32 }
    requires marked_len { length marked.now ≡ width }
    requires plain_len { length plain.now ≡ width }
    requires row { at * width + width ≤ length table.old }
    ensures here { (p : ℕ)
        → p < width * 64
        → HasCell table.new width at p
        ↔ (HasCell table.old width at p ⊎ ((r : ℕ) × Moves automaton.now p label r × HasBit (chosen automaton.now marked.now plain.now r) r)) }
    ensures others { (r p : ℕ) → p < width * 64 → ¬ (r ≡ at)
        → cell_of table.new width r p ≡ cell_of table.old width r p }
{
    for word in 0..width {
        write_word(automaton, label, width, marked, plain, word, at, table);
    }
}

/// Writes the row before row `at` of the table: the states from which a move with the label leads
/// to a state of that row. `row` and `out` are room for one row each.
pub fn step_back(
    automaton: &Auto,
    label: u32,
    width: usize,
    at: usize,
    table: &mut [u64],
    row: &mut [u64],
    out: &mut [u64],
)
    requires room { automaton.now.states ≤ width * 64 }
    requires few { width < 2 ^ 32 }
    requires valid { IsAutomaton automaton.now }
    requires some { 1 ≤ at }
    requires rows { at * width + width ≤ length table.old }
    requires row_len { length row.old ≡ width }
    requires out_len { length out.old ≡ width }
    ensures here { (p : ℕ)
        → p < width * 64
        → HasCell table.new width (at - 1) p
        ↔ ((r : ℕ) × Moves automaton.now p label r × HasCell table.old width at r) }
    ensures others { (i p : ℕ) → p < width * 64 → ¬ (i ≡ at - 1)
        → cell_of table.new width i p ≡ cell_of table.old width i p }
{
    row.copy_from_slice(rows::row_at(table, width, at));
    rows::clear_row(out);
    write_row(automaton, label, width, row, row, 0, out);
    bit_rows::write_row(table, width, at - 1, out);
}

/// Writes all rows from the last one, which stands; the others are clear. `marked` and `plain` are
/// room for one row each.
fn fill(
    automaton: &Auto,
    word: &[u32],
    width: usize,
    marked: &mut [u64],
    plain: &mut [u64],
    any: &mut [u64],
    flagged: &mut [u64],
)
    requires valid { IsAutomaton automaton.now }
    requires room { automaton.now.states ≤ width * 64 }
    requires few { width < 2 ^ 32 }
    requires marked_len { length marked.old ≡ width }
    requires plain_len { length plain.old ≡ width }
    requires any_len { length any.old ≡ (length word.now + 1) * width }
    requires flagged_len { length flagged.old ≡ (length word.now + 1) * width }
    requires any_clear { (i p : ℕ) → i < length word.now → p < width * 64
        → cell_of any.old width i p ≡ false }
    requires flagged_clear { (i p : ℕ) → i < length word.now → p < width * 64
        → cell_of flagged.old width i p ≡ false }
    requires none { (p : ℕ) → p < automaton.now.states
        → HasCell flagged.old width (length word.now) p → ⊥ }
    ensures { (target : List ℕ)
        → ((p : ℕ) → p < automaton.now.states → HasCell any.old width (length word.now) p ↔ HasBit target p)
        → IsGuide automaton.now word.now target width any.new flagged.new }
{
    for at in (0..word.len()).rev() {
        marked.copy_from_slice(rows::row_at(any, width, at + 1));
        plain.copy_from_slice(rows::row_at(flagged, width, at + 1));
        write_row(automaton, word[at], width, marked, marked, at, any);
        write_row(automaton, word[at], width, marked, plain, at, flagged);
    }
}

/// Writes the guide of the word into the target over two clear tables. `marked` and `plain` are
/// room for one row each.
fn write_guide(
    automaton: &Auto,
    word: &[u32],
    width: usize,
    target: &[u64],
    marked: &mut [u64],
    plain: &mut [u64],
    any: &mut [u64],
    flagged: &mut [u64],
)
    requires valid { IsAutomaton automaton.now }
    requires room { automaton.now.states ≤ width * 64 }
    requires few { width < 2 ^ 32 }
    requires target_len { length target.now ≡ width }
    requires marked_len { length marked.old ≡ width }
    requires plain_len { length plain.old ≡ width }
    requires any_len { length any.old ≡ (length word.now + 1) * width }
    requires flagged_len { length flagged.old ≡ (length word.now + 1) * width }
    requires any_clear { (i : ℕ) → bit_of any.old i ≡ false }
    requires flagged_clear { (i : ℕ) → bit_of flagged.old i ≡ false }
    ensures { IsGuide automaton.now word.now target.now width any.new flagged.new }
{
    rows::or_row(any, width, word.len(), target);
    fill(automaton, word, width, marked, plain, any, flagged);
}

/// The guide of the word into the target.
pub fn guide_of(
    alloc: Global,
    automaton: &Auto,
    word: &[u32],
    width: usize,
    target: &[u64],
) -> Result<Guide, Memory>
    requires valid { IsAutomaton automaton.now }
    requires room { automaton.now.states ≤ width * 64 }
    requires few { width < 2 ^ 32 }
    requires target_len { length target.now ≡ width }
    ensures { IfOk
        result (λ g. IsGuide automaton.now word.now target.now width g.any.items g.flagged.items) }
{
    let size = match (word.len() + 1).checked_mul(width) {
        Some(size) => size,
        None => return Err(Memory),
    };
    let mut any = tables::clear_table(alloc, size)?;
    let mut flagged = tables::clear_table(alloc, size)?;
    let mut marked = tables::clear_table(alloc, width)?;
    let mut plain = tables::clear_table(alloc, width)?;
    write_guide(
        automaton,
        word,
        width,
        target,
        &mut marked,
        &mut plain,
        &mut any,
        &mut flagged,
    );
    Ok(Guide { any, flagged })
}
