//! Taking pairs away until each move of a place is answered by a pair that is left. A place is
//! marked when its row has lost pairs and the moves to it are not tried again yet.

ghost use Rattle.std.specs.Prelude.{◌≡◌, ◌+◌, ◌*◌, ◌/◌, ◌^◌, ◌<◌, ◌≤◌, ◌↔◌, ℕ, length, true, false};
ghost use Rattle.auto_core.specs.Automaton.{IsAutomaton, Moves};
ghost use Rattle.auto_core.specs.Game.{Holds};
ghost use Rattle.auto_core.specs.Rows.{bit_of, HasBit, HasCell};
ghost use Rattle.delayed_game.specs.Before.{AreSetsIfAny};
ghost use Rattle.delayed_game.specs.Pairings.{IsPairing};
ghost use Rattle.delayed_game.specs.Settling.{AnswersAll, KeptRowsAnswer, IsAnsweredIn, IsAnsweredInto, IsAnsweredBesides, IsFiltered, TakesAway, Tries};

use crate::before::write_before;
use crate::board::{Board, bits_in};
use crate::mending::mend_before;
use auto_core::{Auto, rows};
use bit_rows::write_row;

/// Rows are mended where the states that were lost are fewer than one of so many that are left.
const FEW_LOST: usize = 4;

/// Takes away the pairs of the place whose state the row has not, and tells whether there were any.
fn keep_in_row(board: &mut Board, p: u32, row: &[u64]) -> bool
    requires left { p < board.old.places }
    requires few { board.old.states < 2 ^ 32 }
    requires valid { IsPairing board.old }
    requires len { length row.now ≡ (board.old.states + 63) / 64 }
    ensures { IsFiltered board.old board.new p (λ q. HasBit row.now q) result }
{
    match rows::first_missing(board.row(p), row) {
        Some(_first) => {
            board.narrow(p, row);
            true
        }
        None => false,
    }
}

/// Writes into `lost` the states of the row of the table that `ends` has not.
fn write_lost(kept: &[u64], width: usize, to: u32, ends: &[u64], lost: &mut [u64])
    requires row { to * width + width ≤ length kept.now }
    requires ends_len { length ends.now ≡ width }
    requires lost_len { length lost.old ≡ width }
    ensures { (q : ℕ) → q < width * 64
        → HasBit lost.new q ↔ (HasCell kept.now width to q × (bit_of ends.now q ≡ false)) }
{
    let before = rows::row_at(kept, width, to as usize);
    for j in 0..width {
        lost[j] = before[j] & !ends[j];
    }
}

/// Tells whether the moves to the place were tried and few of its states were lost since.
fn lost_few(tried: &[u64], to: u32, lost: &[u64], ends: &[u64]) -> bool
    requires { to / 64 < length tried.now }
    ensures { result ≡ true → HasBit tried.now to }
{
    if !rows::has_bit(tried, to as usize) {
        return false;
    }
    bits_in(lost) < bits_in(ends) / FEW_LOST
}

/// Writes into the row of each letter by which moves lead to the place the states that answer them,
/// as far as they are related to the moves' sources. `row` is room for one row.
fn write_answering(
    places: &Auto,
    automaton: &Auto,
    sets: &[u64],
    board: &Board,
    to: u32,
    kept: &[u64],
    tried: &[u64],
    made: &mut [u64],
    width: usize,
    row: &mut [u64],
)
    requires over { IsAutomaton places.now }
    requires sound { IsAutomaton automaton.now }
    requires sets { AreSetsIfAny automaton.now width sets.now }
    requires place { to < places.now.states }
    requires places { board.now.places ≡ places.now.states }
    requires states { board.now.states ≡ automaton.now.states }
    requires labels { places.now.labels ≡ automaton.now.labels }
    requires valid { IsPairing board.now }
    requires width { width ≡ (automaton.now.states + 63) / 64 }
    requires kept_len { length kept.now ≡ places.now.states * width }
    requires tried_len { length tried.now ≡ (places.now.states + 63) / 64 }
    requires made_len { length made.old ≡ automaton.now.labels * width }
    requires row_len { length row.old ≡ width }
    requires kept { KeptRowsAnswer places.now automaton.now width kept.now tried.now board.now }
    ensures { (p a q : ℕ) → Moves places.now p a to → Holds board.now.pairs p q
        → HasCell made.new width a q ↔ IsAnsweredIn automaton.now (Holds board.now.pairs) q a to }
{
    let ends = board.row(to);
    write_lost(kept, width, to, ends, row);
    if lost_few(tried, to, row, ends) {
        mend_before(automaton, row, ends, made, width);
    } else {
        write_before(places, automaton, sets, to, ends, made, width);
    }
}

/// Takes away the pairs from whose state no move answers one to this place, marks the places that
/// lose pairs, and tells whether there were any. `kept` has the rows of the places in `tried` as
/// they were when moves to them were tried last. `row` is room for one row,
/// `made` for a row for each letter.
fn try_into(
    places: &Auto,
    automaton: &Auto,
    sets: &[u64],
    board: &mut Board,
    to: u32,
    marks: &mut [u64],
    kept: &mut [u64],
    tried: &mut [u64],
    made: &mut [u64],
    width: usize,
    row: &mut [u64],
) -> bool
    requires over { IsAutomaton places.now }
    requires sound { IsAutomaton automaton.now }
    requires sets { AreSetsIfAny automaton.now width sets.now }
    requires place { to < places.now.states }
    requires places { board.old.places ≡ places.now.states }
    requires states { board.old.states ≡ automaton.now.states }
    requires labels { places.now.labels ≡ automaton.now.labels }
    requires valid { IsPairing board.old }
    requires width { width ≡ (automaton.now.states + 63) / 64 }
    requires marks_len { length marks.old ≡ (places.now.states + 63) / 64 }
    requires kept_len { length kept.old ≡ places.now.states * width }
    requires tried_len { length tried.old ≡ (places.now.states + 63) / 64 }
    requires made_len { length made.old ≡ automaton.now.labels * width }
    requires row_len { length row.old ≡ width }
    requires kept { KeptRowsAnswer places.now automaton.now width kept.old tried.old board.old }
    requires others { (x : ℕ) → x < places.now.states → ¬ (x ≡ to) → bit_of marks.old x ≡ false
        → IsAnsweredInto places.now automaton.now (Holds board.old.pairs) x }
    ensures kept { KeptRowsAnswer places.now automaton.now width kept.new tried.new board.new }
    ensures tries { Tries places.now automaton.now board.old board.new marks.old marks.new result }
    ensures answered { IsAnsweredBesides places.now automaton.now (Holds board.new.pairs)
        marks.new }
{
    let mut any = false;
    write_answering(
        places, automaton, sets, board, to, kept, tried, made, width, row,
    );
    write_row(kept, width, to as usize, board.row(to));
    rows::set_bit(tried, to as usize);
    let before = places.predecessors(to);
    for i in 0..before.len() {
        let step = places.transitions()[before[i] as usize];
        if keep_in_row(
            board,
            step.source,
            rows::row_at(made, width, step.label as usize),
        ) {
            rows::set_bit(marks, step.source as usize);
            any = true;
        }
    }
    any
}

/// Tries the moves to each marked place, each once, the last place first, and tells whether pairs
/// were taken away. `row` is room for one row, `made` for a row for each letter.
fn pass(
    places: &Auto,
    automaton: &Auto,
    sets: &[u64],
    board: &mut Board,
    marks: &mut [u64],
    kept: &mut [u64],
    tried: &mut [u64],
    made: &mut [u64],
    width: usize,
    row: &mut [u64],
) -> bool
    requires over { IsAutomaton places.now }
    requires sound { IsAutomaton automaton.now }
    requires sets { AreSetsIfAny automaton.now width sets.now }
    requires places { board.old.places ≡ places.now.states }
    requires states { board.old.states ≡ automaton.now.states }
    requires labels { places.now.labels ≡ automaton.now.labels }
    requires valid { IsPairing board.old }
    requires marks_len { length marks.old ≡ (places.now.states + 63) / 64 }
    requires width { width ≡ (automaton.now.states + 63) / 64 }
    requires kept_len { length kept.old ≡ places.now.states * width }
    requires tried_len { length tried.old ≡ (places.now.states + 63) / 64 }
    requires made_len { length made.old ≡ automaton.now.labels * width }
    requires row_len { length row.old ≡ width }
    requires kept { KeptRowsAnswer places.now automaton.now width kept.old tried.old board.old }
    requires besides { IsAnsweredBesides places.now automaton.now (Holds board.old.pairs)
        marks.old }
    ensures kept { KeptRowsAnswer places.now automaton.now width kept.new tried.new board.new }
    ensures takes { TakesAway places.now automaton.now board.old board.new }
    ensures some { result ≡ true → length board.new.pairs < length board.old.pairs }
    ensures none { result ≡ false → (x : ℕ) → x < places.now.states → bit_of marks.new x ≡ false }
    ensures besides { IsAnsweredBesides places.now automaton.now (Holds board.new.pairs) marks.new }
{
    let mut any = false;
    for to in (0..places.states()).rev() {
        if rows::has_bit(marks, to as usize) {
            rows::clear_bit(marks, to as usize);
            if try_into(
                places, automaton, sets, board, to, marks, kept, tried, made, width, row,
            ) {
                any = true;
            }
        }
    }
    any
}

/// Takes pairs away until each move of a place is answered, where only moves to marked places need
/// be tried. No mark is left;
/// `row` is room for one row, `made` for a row for each letter.
pub fn settle(
    places: &Auto,
    automaton: &Auto,
    sets: &[u64],
    board: &mut Board,
    marks: &mut [u64],
    kept: &mut [u64],
    tried: &mut [u64],
    made: &mut [u64],
    width: usize,
    row: &mut [u64],
)
    requires over { IsAutomaton places.now }
    requires sound { IsAutomaton automaton.now }
    requires sets { AreSetsIfAny automaton.now width sets.now }
    requires places { board.old.places ≡ places.now.states }
    requires states { board.old.states ≡ automaton.now.states }
    requires labels { places.now.labels ≡ automaton.now.labels }
    requires valid { IsPairing board.old }
    requires marks_len { length marks.old ≡ (places.now.states + 63) / 64 }
    requires width { width ≡ (automaton.now.states + 63) / 64 }
    requires kept_len { length kept.old ≡ places.now.states * width }
    requires tried_len { length tried.old ≡ (places.now.states + 63) / 64 }
    requires made_len { length made.old ≡ automaton.now.labels * width }
    requires row_len { length row.old ≡ width }
    requires kept { KeptRowsAnswer places.now automaton.now width kept.old tried.old board.old }
    requires besides { IsAnsweredBesides places.now automaton.now (Holds board.old.pairs)
        marks.old }
    ensures kept { KeptRowsAnswer places.now automaton.now width kept.new tried.new board.new }
    ensures takes { TakesAway places.now automaton.now board.old board.new }
    ensures unmarked { (x : ℕ) → x < places.now.states → bit_of marks.new x ≡ false }
    ensures answered { (p q : ℕ) → Holds board.new.pairs p q
        → AnswersAll places.now automaton.now (Holds board.new.pairs) p q }
{
    'passes: while pass(
        places, automaton, sets, board, marks, kept, tried, made, width, row,
    ) {}
}
