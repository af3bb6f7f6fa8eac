//! Short words that states have, as columns of bits: a column is on the states that have its word.

ghost use Rattle.std.specs.Prelude.{◌≡◌, ◌+◌, ◌*◌, ◌/◌, ◌^◌, ◌<◌, ◌≤◌, ◌↔◌, ◌⊎◌, ℕ, false, length, All};
ghost use Rattle.auto_core.specs.Automaton.{IsAutomaton};
ghost use Rattle.auto_core.specs.Rows.{cell_of, HasBit, HasCell};
ghost use Rattle.look_round.specs.Words.{LeadsToPlace, AddsColumns, AreColumns, AreWordPlaces, AreColumnPlaces, AreMatches};

use crate::sides::Side;
use auto_core::{Auto, rows};
use bit_rows::{mark_below, next_bit, transpose, write_row};

/// How many words are lengthened at once: one for each bit of a state's word.
const PLACES: usize = 64;

/// Marks place `at` in each of the first `count` rows that a bit of `row` names.
fn mark_down(table: &mut [u64], width: usize, count: usize, at: usize, row: &[u64])
    requires table { length table.old ≡ count * width }
    requires place { at < width * 64 }
    requires few { length row.now < 2 ^ 32 }
    ensures here { (r : ℕ) → r < count
        → HasCell table.new width r at ↔ (HasCell table.old width r at ⊎ HasBit row.now r) }
    ensures others { (r s : ℕ) → s < width * 64 → ¬ (s ≡ at)
        → cell_of table.new width r s ≡ cell_of table.old width r s }
{
    let mut next = 0;
    while let Some(r) = next_bit(row, next) {
        if r >= count {
            return;
        }
        rows::set_cell(table, width, r, at);
        next = r + 1;
    }
}

/// Writes for each state the places that a move from it by the letter leads to, by way of the
/// states of the row `asked`.
fn find_places<S: Side>(
    side: &S,
    automaton: &Auto,
    label: u32,
    asked: &[u64],
    places: &[u64],
    found: &mut [u64],
)
    requires asked { length asked.now ≡ (automaton.now.states + 63) / 64 }
    requires places { length places.now ≡ automaton.now.states }
    requires found { length found.old ≡ automaton.now.states }
    ensures { (j q : ℕ) → j < 64 → q < automaton.now.states
        → HasCell found.new 1 q j
        ↔ LeadsToPlace (S.goes side.now automaton.now) places.now asked.now label j q }
{
    rows::clear_row(found);
    for number in 0..automaton.transitions().len() {
        let step = side.seen_at(automaton, number);
        if step.label == label && rows::has_bit(asked, step.target as usize) {
            let place = rows::row_at(places, 1, step.target as usize);
            rows::or_row(found, 1, step.source as usize, place);
        }
    }
}

/// Writes into the row of each place the states from which a move by the letter leads to a state of
/// the row `asked` that has the place.
/// `found` is room for a word for each state.
fn step_back<S: Side>(
    side: &S,
    automaton: &Auto,
    label: u32,
    asked: &[u64],
    places: &[u64],
    found: &mut [u64],
    made: &mut [u64],
    width: usize,
)
    requires width { width ≡ (automaton.now.states + 63) / 64 }
    requires asked { length asked.now ≡ width }
    requires places { length places.now ≡ automaton.now.states }
    requires found { length found.old ≡ automaton.now.states }
    requires made { length made.old ≡ 64 * width }
    ensures { (j q : ℕ) → j < 64 → q < automaton.now.states
        → HasCell made.new width j q
        ↔ LeadsToPlace (S.goes side.now automaton.now) places.now asked.now label j q }
{
    find_places(side, automaton, label, asked, places, found);
    let count = automaton.states() as usize;
    transpose(found, 1, count, made, width, PLACES);
}

/// Tells whether the row has a bit and is none of the first columns.
fn is_new(columns: &[u64], width: usize, count: usize, row: &[u64]) -> bool
    requires { count * width ≤ length columns.now }
{
    if row.iter().all(|word| *word == 0) {
        return false;
    }
    for i in 0..count {
        if &columns[i * width..i * width + width] == row {
            return false;
        }
    }
    true
}

/// Adds the first rows of `made` that are new as columns, as far as there is room for columns, and
/// tells how many there are then.
fn add_columns(
    columns: &mut [u64],
    width: usize,
    count: usize,
    room: usize,
    made: &[u64],
    used: usize,
) -> usize
    requires columns { length columns.old ≡ room * width }
    requires count { count ≤ room }
    requires made { used * width ≤ length made.now }
    ensures adds { AddsColumns columns.old columns.new width count result made.now used }
    ensures room { result ≤ room }
{
    let mut count = count;
    for a in 0..used {
        let row = rows::row_at(made, width, a);
        if count < room && is_new(columns, width, count, row) {
            write_row(columns, width, count, row);
            count += 1;
        }
    }
    count
}

/// Adds the columns of the words that go on, by a letter below `letters` and the kind whose matches
/// `asked` has, with the words of the places.
fn lengthen_by<S: Side>(
    side: &S,
    automaton: &Auto,
    kind: u32,
    asked: &[u64],
    places: &[u64],
    used: usize,
    columns: &mut [u64],
    width: usize,
    count: usize,
    room: usize,
    letters: u32,
    found: &mut [u64],
    made: &mut [u64],
) -> usize
    requires valid { IsAutomaton automaton.now }
    requires width { width ≡ (automaton.now.states + 63) / 64 }
    requires size { length asked.now ≡ width }
    requires asked { (r : ℕ) → r < width * 64
        → HasBit asked.now r
        ↔ ((r < automaton.now.states) × S.matches side.now automaton.now kind r) }
    requires places_len { length places.now ≡ automaton.now.states }
    requires places { AreWordPlaces (S.goes side.now automaton.now)
        (S.matches side.now automaton.now) automaton.now.states places.now used }
    requires used { used ≤ 64 }
    requires room { length columns.old ≡ room * width }
    requires count { count ≤ room }
    requires columns { AreColumns (S.goes side.now automaton.now) (S.matches side.now automaton.now)
        automaton.now.states columns.old width count }
    requires found { length found.old ≡ automaton.now.states }
    requires made { length made.old ≡ 64 * width }
    ensures columns { AreColumns (S.goes side.now automaton.now) (S.matches side.now automaton.now)
        automaton.now.states columns.new width result }
    ensures room { result ≤ room }
{
    let mut count = count;
    for label in 0..letters {
        step_back(side, automaton, label, asked, places, found, made, width);
        count = add_columns(columns, width, count, room, made, used);
    }
    count
}

/// Adds the columns of the words that go on, by one letter and a state of each kind, with the words
/// of the places. `found` is room for a word for each state.
fn lengthen<S: Side>(
    side: &S,
    automaton: &Auto,
    matches: &[u64],
    kinds: &[u32],
    places: &[u64],
    used: usize,
    columns: &mut [u64],
    width: usize,
    count: usize,
    room: usize,
    letters: u32,
    found: &mut [u64],
    made: &mut [u64],
) -> usize
    requires valid { IsAutomaton automaton.now }
    requires width { width ≡ (automaton.now.states + 63) / 64 }
    requires size { length matches.now ≡ automaton.now.states * width }
    requires matches { AreMatches (S.matches side.now automaton.now) automaton.now.states
        matches.now width automaton.now.states }
    requires kinds { All (λ s. s < automaton.now.states) kinds.now }
    requires places_len { length places.now ≡ automaton.now.states }
    requires places { AreWordPlaces (S.goes side.now automaton.now)
        (S.matches side.now automaton.now) automaton.now.states places.now used }
    requires used { used ≤ 64 }
    requires room { length columns.old ≡ room * width }
    requires count { count ≤ room }
    requires columns { AreColumns (S.goes side.now automaton.now) (S.matches side.now automaton.now)
        automaton.now.states columns.old width count }
    requires found { length found.old ≡ automaton.now.states }
    requires made { length made.old ≡ 64 * width }
    ensures columns { AreColumns (S.goes side.now automaton.now) (S.matches side.now automaton.now)
        automaton.now.states columns.new width result }
    ensures room { result ≤ room }
{
    let mut count = count;
    for kind in kinds {
        let asked = rows::row_at(matches, width, *kind as usize);
        count = lengthen_by(
            side, automaton, *kind, asked, places, used, columns, width, count, room, letters,
            found, made,
        );
    }
    count
}

/// Tells whether the row has most of the states, some three of four or more.
fn has_most(row: &[u64], states: u32) -> bool
    requires { length row.now < 2 ^ 32 }
{
    let mut count = 0;
    for i in 0..row.len() {
        count += row[i].count_ones() as usize;
    }
    count / 3 > states as usize / 4
}

/// Tells whether the row has just one bit.
fn has_one(row: &[u64]) -> bool
    requires { length row.now < 2 ^ 32 }
{
    match next_bit(row, 0) {
        None => false,
        Some(first) => match next_bit(row, first + 1) {
            None => true,
            Some(_later) => false,
        },
    }
}

/// Tells whether the words of the column with this row are lengthened. A first walk, before which
/// no column was walked, passes over those that most states have, since they tell little; a second
/// one takes these and the new ones. With `all` it is the turn of each. Once there are `many`
/// columns it is the turn of those alone that just one state has: long rings are told apart by
/// such.
fn has_turn(row: &[u64], states: u32, at: usize, walked: usize, all: bool, many: bool) -> bool
    requires { length row.now < 2 ^ 32 }
{
    if many {
        return at >= walked && has_one(row);
    }
    if all {
        return true;
    }
    if walked == 0 {
        return at == 0 || !has_most(row, states);
    }
    at >= walked || has_most(row, states)
}

/// How many of the 64 places have a column, and which column comes next.
#[derive(Clone, Copy, Debug)]
struct Filled {
    used: usize,
    next: usize,
}

/// Lets the 64 places be the columns from `from` on whose turn it is, and tells how many places are
/// used and which column comes next.
fn fill_places(
    columns: &[u64],
    width: usize,
    states: u32,
    all: bool,
    many: bool,
    walked: usize,
    from: usize,
    count: usize,
    places: &mut [u64],
) -> Filled
    requires width { width ≡ (states + 63) / 64 }
    requires few { width < 2 ^ 32 }
    requires columns { count * width ≤ length columns.now }
    requires places { length places.old ≡ states }
    ensures places { AreColumnPlaces states places.new result.used columns.now width count }
    ensures used { result.used ≤ 64 }
{
    rows::clear_row(places);
    let mut used = 0;
    for at in from..count {
        if used == PLACES {
            return Filled { used, next: at };
        }
        let column = rows::row_at(columns, width, at);
        if has_turn(column, states, at, walked, all, many) {
            mark_down(places, 1, states as usize, used, column);
            used += 1;
        }
    }
    Filled { used, next: count }
}

/// Adds columns of words, each one letter longer than that of a column whose turn it is, as far as
/// there is room, and tells how many columns there are then. A former walk tried the first `walked`
/// columns. `found` is room for a word for each state.
fn walk_columns<S: Side>(
    side: &S,
    automaton: &Auto,
    matches: &[u64],
    kinds: &[u32],
    columns: &mut [u64],
    width: usize,
    walked: usize,
    count: usize,
    room: usize,
    letters: u32,
    places: &mut [u64],
    found: &mut [u64],
    made: &mut [u64],
) -> usize
    requires valid { IsAutomaton automaton.now }
    requires few { width < 2 ^ 32 }
    requires width { width ≡ (automaton.now.states + 63) / 64 }
    requires size { length matches.now ≡ automaton.now.states * width }
    requires matches { AreMatches (S.matches side.now automaton.now) automaton.now.states
        matches.now width automaton.now.states }
    requires kinds { All (λ s. s < automaton.now.states) kinds.now }
    requires room { length columns.old ≡ room * width }
    requires count { count ≤ room }
    requires columns { AreColumns (S.goes side.now automaton.now) (S.matches side.now automaton.now)
        automaton.now.states columns.old width count }
    requires places { length places.old ≡ automaton.now.states }
    requires found { length found.old ≡ automaton.now.states }
    requires made { length made.old ≡ 64 * width }
    ensures columns { AreColumns (S.goes side.now automaton.now) (S.matches side.now automaton.now)
        automaton.now.states columns.new width result }
    ensures room { result ≤ room }
{
    let all = kinds.len() < 2;
    let mut count = count;
    let mut at = 0;
    for _turn in 0..room {
        if at < count && count < room {
            let states = automaton.states();
            let many = count >= states as usize / 2 + 16;
            let filled = fill_places(columns, width, states, all, many, walked, at, count, places);
            count = lengthen(
                side,
                automaton,
                matches,
                kinds,
                places,
                filled.used,
                columns,
                width,
                count,
                room,
                letters,
                found,
                made,
            );
            at = filled.next;
        }
    }
    count
}

/// Writes columns of words of the letters below `letters`, as far as there is room for columns, and
/// tells how many they are.
/// `ends` is room for one row, `places` and `found` for a word for each state, and `made` for a row
/// for each place.
pub(crate) fn write_columns<S: Side>(
    side: &S,
    automaton: &Auto,
    matches: &[u64],
    kinds: &[u32],
    columns: &mut [u64],
    width: usize,
    room: usize,
    letters: u32,
    ends: &mut [u64],
    places: &mut [u64],
    found: &mut [u64],
    made: &mut [u64],
) -> usize
    requires valid { IsAutomaton automaton.now }
    requires width { width ≡ (automaton.now.states + 63) / 64 }
    requires size { length matches.now ≡ automaton.now.states * width }
    requires matches { AreMatches (S.matches side.now automaton.now) automaton.now.states
        matches.now width automaton.now.states }
    requires kinds { All (λ s. s < automaton.now.states) kinds.now }
    requires few { width < 2 ^ 32 }
    requires some { 1 ≤ room }
    requires room { length columns.old ≡ room * width }
    requires ends { length ends.old ≡ width }
    requires places { length places.old ≡ automaton.now.states }
    requires found { length found.old ≡ automaton.now.states }
    requires made { length made.old ≡ 64 * width }
    ensures columns { AreColumns (S.goes side.now automaton.now) (S.matches side.now automaton.now)
        automaton.now.states columns.new width result }
    ensures room { result ≤ room }
{
    mark_below(ends, automaton.states());
    write_row(columns, width, 0, ends);
    let count = walk_columns(
        side, automaton, matches, kinds, columns, width, 0, 1, room, letters, places, found, made,
    );
    if kinds.len() < 2 {
        return count;
    }
    walk_columns(
        side, automaton, matches, kinds, columns, width, count, count, room, letters, places,
        found, made,
    )
}
