//! A bound on the greatest relation, by short words: the right state of a stable pair has each word
//! that the left one has.

ghost use Rattle.std.specs.Prelude.{◌≡◌, ◌+◌, ◌*◌, ◌/◌, ◌^◌, ◌<◌, ◌≤◌, ◌↔◌, ◌⊎◌, ℕ, true, length, IfOk};
ghost use Rattle.auto_core.specs.Rows.{cell_of, HasBit, HasCell};
ghost use Rattle.auto_core.specs.Game.{Holds};
ghost use Rattle.bit_rel.specs.Relation.{IsRelation};
ghost use Rattle.look_round.specs.Words.{HoldsTable, IsBound, IsRowNarrowed};

use crate::comparing::compare;
use crate::kinds::match_rows;
use crate::sides::Side;
use crate::words::write_columns;
use auto_core::{Auto, Memory, rows};
use bit_rel::Rel;
use bit_rows::{and_row, has_no_other, next_bit};
use std::alloc::Global;

/// At most so many letters are tried.
const MOST_LETTERS: u32 = 64;

/// At most so many words are tried.
const MOST_WORDS: u32 = 2064;

/// After so many words each it is asked whether a row is left with its own state alone.
const WORDS_BETWEEN: usize = 8;

/// By so many words rows are narrowed before it is seen how many states they have left.
const FIRST_WORDS: usize = 64;

/// Rows have many states left if they have so many.
const MANY_LEFT: usize = 16;

/// Takes from row p what the column has not, if the column has p, and tells, where that is asked,
/// whether the row is left with its own place alone by that.
fn narrow_by(table: &mut [u64], width: usize, p: usize, column: &[u64], is_asked: bool) -> bool
    requires row { p * width + width ≤ length table.old }
    requires column { length column.now ≡ width }
    requires own { p / 64 < width }
    requires few { width < 2 ^ 32 }
    ensures alone { result ≡ true → (q : ℕ) → q < width * 64 → HasCell table.new width p q → q ≡ p }
    ensures here { (q : ℕ) → q < width * 64
        → HasCell table.new width p q
        ↔ (HasCell table.old width p q × (HasBit column.now p → HasBit column.now q)) }
    ensures others { (r q : ℕ) → q < width * 64 → ¬ (r ≡ p)
        → cell_of table.new width r q ≡ cell_of table.old width r q }
{
    if !rows::has_bit(column, p) {
        return false;
    }
    and_row(table, width, p, column);
    if !is_asked {
        return false;
    }
    has_no_other(rows::row_at(table, width, p), p)
}

/// Takes from row p what a column has not that has p. A row that is left with its own state alone
/// has each column that it needs.
fn narrow_row(table: &mut [u64], width: usize, p: usize, columns: &[u64], used: usize)
    requires row { p * width + width ≤ length table.old }
    requires own { p / 64 < width }
    requires few { width < 2 ^ 32 }
    requires columns { used * width ≤ length columns.now }
    ensures here { IsRowNarrowed table.old table.new width columns.now p used }
    ensures others { (r q : ℕ) → q < width * 64 → ¬ (r ≡ p)
        → cell_of table.new width r q ≡ cell_of table.old width r q }
{
    for i in 0..used {
        let is_asked = i % WORDS_BETWEEN == 0;
        if narrow_by(table, width, p, rows::row_at(columns, width, i), is_asked) {
            return;
        }
    }
}

/// Takes from each row what a column has not that has the row's own state.
fn narrow_each(table: &mut [u64], count: u32, width: usize, columns: &[u64], used: usize)
    requires table { length table.old ≡ count * width }
    requires room { count ≤ width * 64 }
    requires few { width < 2 ^ 32 }
    requires columns { used * width ≤ length columns.now }
    ensures { (p : ℕ) → p < count → IsRowNarrowed table.old table.new width columns.now p used }
{
    for p in 0..count as usize {
        narrow_row(table, width, p, columns, used);
    }
}

/// Tells whether the rows have few states left.
fn has_few_left(table: &[u64], count: u32) -> bool {
    let mut left: usize = 0;
    for i in 0..table.len() {
        left = left.saturating_add(table[i].count_ones() as usize);
    }
    left / MANY_LEFT < count as usize
}

/// Takes from each row what a column has not that has the row's own state: by the first columns; by
/// the others where few states are left; and else by comparing the columns that states have.
fn narrow(
    alloc: Global,
    table: &mut [u64],
    count: u32,
    width: usize,
    columns: &[u64],
    used: usize,
) -> Result<(), Memory>
    requires table { length table.old ≡ count * width }
    requires states { (p q : ℕ) → p < count → q < width * 64 → HasCell table.old width p q
        → q < count }
    requires room { count ≤ width * 64 }
    requires few { width < 2 ^ 32 }
    requires some { used < 2 ^ 32 }
    requires columns { used * width ≤ length columns.now }
    ensures { IfOk
        result (λ _.
        (p : ℕ) → p < count → IsRowNarrowed table.old table.new width columns.now p used) }
{
    narrow_each(table, count, width, columns, used.min(FIRST_WORDS));
    if has_few_left(table, count) {
        narrow_each(table, count, width, columns, used);
        return Ok(());
    }
    compare(alloc, table, count, width, columns, used)
}

/// Adds the pairs of `p` with the states of the row.
fn add_row(rel: &mut Rel, p: u32, row: &[u64])
    requires state { p < rel.old.size }
    requires few { rel.old.size < 2 ^ 32 }
    requires len { length row.now < 2 ^ 32 }
    requires row { (q : ℕ) → HasBit row.now q → q < rel.old.size }
    requires valid { IsRelation rel.old }
    ensures size { rel.new.size ≡ rel.old.size }
    ensures valid { IsRelation rel.new }
    ensures pairs { (r s : ℕ)
        → Holds rel.new.pairs r s ↔ (Holds rel.old.pairs r s ⊎ ((r ≡ p) × HasBit row.now s)) }
{
    let mut at = 0;
    while let Some(q) = next_bit(row, at) {
        rel.set(p, q as u32);
        at = q + 1;
    }
}

/// The relation of the table's rows.
fn relation_of(alloc: Global, table: &[u64], count: u32, width: usize) -> Result<Rel, Memory>
    requires width { width ≡ (count + 63) / 64 }
    requires table { length table.now ≡ count * width }
    requires columns { (p q : ℕ) → p < count → q < width * 64 → HasCell table.now width p q
        → q < count }
    ensures { IfOk result (HoldsTable table.now count width) }
{
    let mut rel = Rel::empty(alloc, count)?;
    for p in 0..count {
        add_row(&mut rel, p, rows::row_at(table, width, p as usize));
    }
    Ok(rel)
}

/// The bound, where `table` is room for a row for each state, `columns` for so many words, `ends`
/// for one row, `places` and `found` for a word for each state, and `made` for 64 rows.
fn bound_in<S: Side>(
    alloc: Global,
    side: &S,
    automaton: &Auto,
    table: &mut [u64],
    columns: &mut [u64],
    width: usize,
    room: usize,
    letters: u32,
    ends: &mut [u64],
    places: &mut [u64],
    found: &mut [u64],
    made: &mut [u64],
) -> Result<Rel, Memory>
    requires width { width ≡ (automaton.now.states + 63) / 64 }
    requires table { length table.old ≡ automaton.now.states * width }
    requires some { 1 ≤ room }
    requires few { room < 2 ^ 32 }
    requires columns { length columns.old ≡ room * width }
    requires ends { length ends.old ≡ width }
    requires places { length places.old ≡ automaton.now.states }
    requires found { length found.old ≡ automaton.now.states }
    requires made { length made.old ≡ 64 * width }
    ensures { IfOk result
        (IsBound (S.goes side.now automaton.now) (S.matches side.now automaton.now)
        automaton.now.states) }
{
    let count = automaton.states();
    let kinds = match_rows(alloc, side, automaton, table, ends, width)?;
    let used = write_columns(
        side, automaton, table, &kinds, columns, width, room, letters, ends, places, found, made,
    );
    narrow(alloc, table, count, width, columns, used)?;
    relation_of(alloc, table, count, width)
}

/// A relation of pairs that match which has inside each list that is stable at some lookahead: the
/// pairs whose right state has each of some short words that the left state has.
pub fn bound<S: Side>(alloc: Global, side: &S, automaton: &Auto) -> Result<Rel, Memory>
    ensures { IfOk result
        (IsBound (S.goes side.now automaton.now) (S.matches side.now automaton.now)
        automaton.now.states) }
{
    let count = automaton.states();
    let width = rows::words_for(count);
    let room = count.min(MOST_WORDS - 16) as usize + 16;
    let letters = automaton.labels().min(MOST_LETTERS);
    let mut table = vec![in alloc; 0; count as usize * width]?;
    let mut columns = vec![in alloc; 0; room * width]?;
    let mut ends = vec![in alloc; 0; width]?;
    let mut places = vec![in alloc; 0; count as usize]?;
    let mut found = vec![in alloc; 0; count as usize]?;
    let mut made = vec![in alloc; 0; 64 * width]?;
    bound_in(
        alloc,
        side,
        automaton,
        &mut table,
        &mut columns,
        width,
        room,
        letters,
        &mut ends,
        &mut places,
        &mut found,
        &mut made,
    )
}
