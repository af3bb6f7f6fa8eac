//! Answers to the moves to a block of 64 places at once: each of these places is a column of a
//! table that has one word for each state.

ghost use Rattle.std.specs.Prelude.{◌≡◌, ◌+◌, ◌*◌, ◌/◌, ◌%◌, ◌^◌, ◌<◌, ◌≤◌, ◌↔◌, ◌⊎◌, ℕ, length};
ghost use Rattle.auto_core.specs.Automaton.{IsAutomaton, trans_at};
ghost use Rattle.auto_core.specs.Rows.{HasCell};
ghost use Rattle.delayed_game.specs.Before.{LeadsToColumn};
ghost use Rattle.delayed_game.specs.Boards.{HasFreshAnswer};

use auto_core::{Auto, rows};
use bit_rows::transpose;

/// One column for each bit of a word.
const COLUMNS: usize = 64;

/// Writes for each state the columns of the states that moves by the letter lead to.
fn find_columns(automaton: &Auto, label: u32, words: &[u64], found: &mut [u64])
    requires valid { IsAutomaton automaton.now }
    requires words { length words.now ≡ automaton.now.states }
    requires found { length found.old ≡ automaton.now.states }
    ensures { (q j : ℕ) → j < 64
        → HasCell found.new 1 q j ↔ LeadsToColumn automaton.now words.now label j q }
{
    rows::clear_row(found);
    let steps = automaton.transitions();
    for number in 0..steps.len() {
        let step = steps[number];
        if step.label == label {
            found[step.source as usize] |= words[step.target as usize];
        }
    }
}

/// Adds the row of each column to that of each transition by the letter into the column's place,
/// where `block` is the number of the 64 places.
fn note_turned(
    places: &Auto,
    label: u32,
    block: usize,
    turned: &[u64],
    answered: &mut [u64],
    width: usize,
)
    requires turned { length turned.now ≡ 64 * width }
    requires answered { length answered.old ≡ length places.now.transitions * width }
    ensures { (t q : ℕ) → t < length places.now.transitions → q < width * 64 → HasCell answered.new width t q
        ↔ (HasCell answered.old width t q
        ⊎ (((trans_at places.now t).label ≡ label) × ((trans_at places.now t).target / 64 ≡ block) × HasCell turned.now width ((trans_at places.now t).target % 64) q)) }
{
    let steps = places.transitions();
    for number in 0..steps.len() {
        let step = steps[number];
        if step.label == label {
            let to = step.target as usize;
            if to / COLUMNS == block {
                rows::or_row(
                    answered,
                    width,
                    number,
                    rows::row_at(turned, width, to % COLUMNS),
                );
            }
        }
    }
}

/// Lets the columns of each state be those of the 64 places whose row has the state.
fn write_words(
    fresh: &[u64],
    width: usize,
    places: usize,
    block: usize,
    words: &mut [u64],
    states: usize,
)
    requires fresh { length fresh.now ≡ places * width }
    requires block { block < (places + 63) / 64 }
    requires few { places < 2 ^ 32 }
    requires width { width ≡ (states + 63) / 64 }
    requires some { states < 2 ^ 32 }
    requires words { length words.old ≡ states }
    ensures { (q j : ℕ) → q < states → j < 64
        → HasCell words.new 1 q j
        ↔ ((block * 64 + j < places) × HasCell fresh.now width (block * 64 + j) q) }
{
    let first = block * COLUMNS;
    let count = COLUMNS.min(places - first);
    transpose(&fresh[first * width..], width, count, words, 1, states);
}

/// Notes as answers to moves by the letter to the 64 places with this number the states that move
/// by it to a state with the place's column.
fn note_letter(
    places: &Auto,
    automaton: &Auto,
    label: u32,
    block: usize,
    words: &[u64],
    found: &mut [u64],
    turned: &mut [u64],
    answered: &mut [u64],
    width: usize,
)
    requires valid { IsAutomaton automaton.now }
    requires width { width ≡ (automaton.now.states + 63) / 64 }
    requires words { length words.now ≡ automaton.now.states }
    requires found { length found.old ≡ automaton.now.states }
    requires turned { length turned.old ≡ 64 * width }
    requires answered { length answered.old ≡ length places.now.transitions * width }
    ensures { (t q : ℕ) → t < length places.now.transitions → q < width * 64 → HasCell answered.new width t q
        ↔ (HasCell answered.old width t q
        ⊎ (((trans_at places.now t).label ≡ label) × ((trans_at places.now t).target / 64 ≡ block)
        × LeadsToColumn automaton.now words.now label ((trans_at places.now t).target % 64) q)) }
{
    let count = automaton.states() as usize;
    find_columns(automaton, label, words, found);
    transpose(found, 1, count, turned, width, COLUMNS);
    note_turned(places, label, block, turned, answered, width);
}

/// Notes the answers by pairs in the rows of `fresh` to moves to the 64 places with this number.
fn note_block(
    places: &Auto,
    automaton: &Auto,
    fresh: &[u64],
    block: usize,
    answered: &mut [u64],
    width: usize,
    words: &mut [u64],
    found: &mut [u64],
    turned: &mut [u64],
)
    requires over { IsAutomaton places.now }
    requires labels { places.now.labels ≡ automaton.now.labels }
    requires valid { IsAutomaton automaton.now }
    requires width { width ≡ (automaton.now.states + 63) / 64 }
    requires fresh { length fresh.now ≡ places.now.states * width }
    requires block { block < (places.now.states + 63) / 64 }
    requires answered { length answered.old ≡ length places.now.transitions * width }
    requires words { length words.old ≡ automaton.now.states }
    requires found { length found.old ≡ automaton.now.states }
    requires turned { length turned.old ≡ 64 * width }
    ensures { (t q : ℕ) → t < length places.now.transitions → q < width * 64 → HasCell answered.new width t q
        ↔ (HasCell answered.old width t q
        ⊎ (((trans_at places.now t).target / 64 ≡ block) × HasFreshAnswer places.now automaton.now fresh.now t q)) }
{
    let count = places.states() as usize;
    write_words(
        fresh,
        width,
        count,
        block,
        words,
        automaton.states() as usize,
    );
    for label in 0..automaton.labels() {
        note_letter(
            places, automaton, label, block, words, found, turned, answered, width,
        );
    }
}

/// Notes the answers by the pairs that stand in the rows of `fresh`, 64 places at once. `words` and
/// `found` are room for a word for each state, `turned` for 64 rows.
pub fn note_by_blocks(
    places: &Auto,
    automaton: &Auto,
    fresh: &[u64],
    answered: &mut [u64],
    width: usize,
    words: &mut [u64],
    found: &mut [u64],
    turned: &mut [u64],
)
    requires over { IsAutomaton places.now }
    requires labels { places.now.labels ≡ automaton.now.labels }
    requires valid { IsAutomaton automaton.now }
    requires width { width ≡ (automaton.now.states + 63) / 64 }
    requires fresh { length fresh.now ≡ places.now.states * width }
    requires answered { length answered.old ≡ length places.now.transitions * width }
    requires words { length words.old ≡ automaton.now.states }
    requires found { length found.old ≡ automaton.now.states }
    requires turned { length turned.old ≡ 64 * width }
    ensures { (t q : ℕ) → t < length places.now.transitions → q < width * 64 → HasCell answered.new width t q
        ↔ (HasCell answered.old width t q ⊎ HasFreshAnswer places.now automaton.now fresh.now t q) }
{
    for block in 0..rows::words_for(places.states()) {
        note_block(
            places, automaton, fresh, block, answered, width, words, found, turned,
        );
    }
}
