//! Rows of a table joined over marks: the first words of each and its last ones are gathered, where
//! few words make a row, and then added at once.

ghost use Rattle.std.specs.Prelude.{◌≡◌, ◌+◌, ◌-◌, ◌*◌, ◌^◌, ◌<◌, ◌≤◌, ◌||◌, ◌↔◌, ◌⊎◌, ℕ, length};
ghost use Rattle.auto_core.specs.Rows.{HasBit, bit_of, cell_of};
ghost use Rattle.auto_core.specs.Reach.{IsTable, HasArc, MarksBelow};
ghost use Rattle.graph_rows.specs.Added.{HasAdded, IsUnionOfRows, FollowsFrom};

use auto_core::rows;
use bit_rows::next_bit;

/// A row of more words is joined by lanes, each by itself.
const MOST_SHORT: usize = 8;

/// Sets each bit that as many words of the row have, from this word on.
fn join_words<const N: usize>(into: &mut [u64], row: &[u64], first: usize)
    requires len { length into.old ≡ N }
    requires within { first + N ≤ length row.now }
    ensures { (i : ℕ) → i < N * 64
        → bit_of into.new i ≡ (bit_of into.old i || bit_of row.now (first * 64 + i)) }
{
    for j in 0..N {
        into[j] |= row[first + j];
    }
}

/// Sets in the row of the table, from this word of it on, each bit that the words have, and leaves
/// the others.
fn add_words<const N: usize>(
    table: &mut [u64],
    width: usize,
    row: usize,
    first: usize,
    words: &[u64],
)
    requires row { row * width + width ≤ length table.old }
    requires len { length words.now ≡ N }
    requires within { first + N ≤ width }
    ensures here { (i : ℕ) → i < N * 64
        → cell_of table.new width row (first * 64 + i) ≡ (cell_of table.old width row (first * 64 + i) || bit_of words.now i) }
    ensures beside { (q : ℕ) → q < width * 64 → (q < first * 64) ⊎ ((first + N) * 64 ≤ q)
        → cell_of table.new width row q ≡ cell_of table.old width row q }
    ensures others { (r q : ℕ) → q < width * 64 → ¬ (r ≡ row)
        → cell_of table.new width r q ≡ cell_of table.old width r q }
{
    for j in 0..N {
        table[row * width + first + j] |= words[j];
    }
}

/// Joins the rows of the table over the marks: so many first words of them, and so many last ones.
fn gather<const N: usize>(
    table: &[u64],
    count: u32,
    width: usize,
    marks: &[u64],
    low: &mut [u64],
    high: &mut [u64],
)
    requires table { IsTable table.now count width }
    requires few { width < 2 ^ 32 }
    requires marks_len { length marks.now ≡ width }
    requires marks_below { MarksBelow marks.now count }
    requires half { N ≤ width }
    requires low_len { length low.old ≡ N }
    requires high_len { length high.old ≡ N }
    ensures low { IsUnionOfRows (HasBit marks.now) (HasArc table.now count width) 0 (N * 64)
        low.new }
    ensures high { IsUnionOfRows (HasBit marks.now) (HasArc table.now count width)
        ((width - N) * 64) (N * 64) high.new }
{
    rows::clear_row(low);
    rows::clear_row(high);
    let mut at = 0;
    while let Some(middle) = next_bit(marks, at) {
        let moves = rows::row_at(table, width, middle);
        join_words::<N>(low, moves, 0);
        join_words::<N>(high, moves, width - N);
        at = middle + 1;
    }
}

/// Adds the rows of the table, joined over the marks, to the row of the other table, by words for
/// the first half and for the last one.
fn add_ends<const N: usize>(
    table: &[u64],
    count: u32,
    width: usize,
    marks: &[u64],
    row: u32,
    into: &mut [u64],
)
    requires table { IsTable table.now count width }
    requires few { width < 2 ^ 32 }
    requires marks_len { length marks.now ≡ width }
    requires marks_below { MarksBelow marks.now count }
    requires is_row { row < count }
    requires half { N ≤ width }
    requires halves { width ≤ N + N }
    requires len { length into.old ≡ count * width }
    ensures { HasAdded width row (FollowsFrom (HasBit marks.now) (HasArc table.now count width))
        into.old into.new }
{
    let mut low = [0; N];
    let mut high = [0; N];
    gather::<N>(table, count, width, marks, &mut low, &mut high);
    add_words::<N>(into, width, row as usize, 0, &low);
    add_words::<N>(into, width, row as usize, width - N, &high);
}

/// Adds the bits of the other row to the row of the table, by lanes of four words.
fn add_long_row(table: &mut [u64], width: usize, row: usize, from: &[u64])
    requires row { row * width + width ≤ length table.old }
    requires equal { length from.now ≡ width }
    ensures here { (q : ℕ) → q < width * 64
        → cell_of table.new width row q ≡ (cell_of table.old width row q || bit_of from.now q) }
    ensures others { (r q : ℕ) → q < width * 64 → ¬ (r ≡ row)
        → cell_of table.new width r q ≡ cell_of table.old width r q }
{
    rows::or_into(&mut table[row * width..row * width + width], from);
}

/// Adds the bits of the other row to the row of the table: long rows by lanes, which in short ones
/// cost more than they save.
fn add_whole_row(table: &mut [u64], width: usize, row: usize, from: &[u64])
    requires row { row * width + width ≤ length table.old }
    requires equal { length from.now ≡ width }
    ensures here { (q : ℕ) → q < width * 64
        → cell_of table.new width row q ≡ (cell_of table.old width row q || bit_of from.now q) }
    ensures others { (r q : ℕ) → q < width * 64 → ¬ (r ≡ row)
        → cell_of table.new width r q ≡ cell_of table.old width r q }
{
    if width > MOST_SHORT {
        add_long_row(table, width, row, from);
    } else {
        rows::or_row(table, width, row, from);
    }
}

/// Adds the rows of the table to the row of the other table one after the other, those that the
/// marks stand for.
fn add_rows(table: &[u64], count: u32, width: usize, marks: &[u64], row: u32, into: &mut [u64])
    requires table { IsTable table.now count width }
    requires few { width < 2 ^ 32 }
    requires marks_len { length marks.now ≡ width }
    requires marks_below { MarksBelow marks.now count }
    requires is_row { row < count }
    requires len { length into.old ≡ count * width }
    ensures { HasAdded width row (FollowsFrom (HasBit marks.now) (HasArc table.now count width))
        into.old into.new }
{
    let mut at = 0;
    while let Some(middle) = next_bit(marks, at) {
        add_whole_row(
            into,
            width,
            row as usize,
            rows::row_at(table, width, middle),
        );
        at = middle + 1;
    }
}

/// Adds the rows of the table, joined over the marks, to the row of the other table.
pub(crate) fn add_union(
    table: &[u64],
    count: u32,
    width: usize,
    marks: &[u64],
    row: u32,
    into: &mut [u64],
)
    requires table { IsTable table.now count width }
    requires few { width < 2 ^ 32 }
    requires marks_len { length marks.now ≡ width }
    requires marks_below { MarksBelow marks.now count }
    requires is_row { row < count }
    requires len { length into.old ≡ count * width }
    ensures { HasAdded width row (FollowsFrom (HasBit marks.now) (HasArc table.now count width))
        into.old into.new }
{
    if width == 0 || width > MOST_SHORT {
        add_rows(table, count, width, marks, row, into);
    } else if width == 1 {
        add_ends::<1>(table, count, width, marks, row, into);
    } else if width < 4 {
        add_ends::<2>(table, count, width, marks, row, into);
    } else {
        add_ends::<4>(table, count, width, marks, row, into);
    }
}
