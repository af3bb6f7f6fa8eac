//! The reflexive and transitive closure of a table of bits, in place.

ghost use Rattle.std.specs.Prelude.{◌≡◌, ◌+◌, ◌*◌, ◌/◌, ◌^◌, ◌<◌, ◌≤◌, ◌||◌, ◌&&◌, ◌==◌, ◌↔◌, ℕ, true, length};
ghost use Rattle.auto_core.specs.Rows.{cell_of, HasCell};
ghost use Rattle.auto_core.specs.Reach.{IsTable, HasArc};
ghost use Rattle.auto_core.specs.Game.{Close};

use auto_core::rows;

/// Adds the bits of row `from` to row `into` of the same table, and leaves the other rows.
fn or_row_within(table: &mut [u64], width: usize, into: usize, from: usize)
    requires into_row { into * width + width ≤ length table.old }
    requires from_row { from * width + width ≤ length table.old }
    ensures here { (q : ℕ) → q < width * 64
        → cell_of table.new width into q
        ≡ (cell_of table.old width into q || cell_of table.old width from q) }
    ensures others { (r q : ℕ) → q < width * 64 → ¬ (r ≡ into)
        → cell_of table.new width r q ≡ cell_of table.old width r q }
{
    for j in 0..width {
        table[into * width + j] |= table[from * width + j];
    }
}

/// Relates each of the `count` places to itself.
fn relate_selves(table: &mut [u64], count: u32, width: usize)
    requires { IsTable table.old count width }
    ensures { (p q : ℕ) → p < count → q < width * 64
        → cell_of table.new width p q ≡ (cell_of table.old width p q || p == q) }
{
    for p in 0..count as usize {
        rows::set_cell(table, width, p, p);
    }
}

/// Tells whether the word of the row that has the row's own bit has no other.
fn has_only_own(table: &[u64], width: usize, at: usize) -> bool
    requires row { at * width + width ≤ length table.now }
    requires own { at / 64 < width }
    requires few { at < 2 ^ 32 }
    ensures { result ≡ true → (q : ℕ) → q / 64 ≡ at / 64 → HasCell table.now width at q → q ≡ at }
{
    table[at * width + at / 64] == 1 << (at % 64)
}

/// Tells whether the place is related to no other.
fn is_alone(table: &[u64], width: usize, at: usize) -> bool
    requires row { at * width + width ≤ length table.now }
    requires own { at / 64 < width }
    requires few { at < 2 ^ 32 }
    ensures { result ≡ true → (q : ℕ) → q < width * 64 → HasCell table.now width at q → q ≡ at }
{
    for word in 0..width {
        if table[at * width + word] != 0 {
            if word != at / 64 {
                return false;
            }
        }
    }
    has_only_own(table, width, at)
}

/// The first place that the place is related to, or the place itself if that is earlier.
fn first_related(table: &[u64], width: usize, at: usize) -> usize
    requires row { at * width + width ≤ length table.now }
    requires few { width < 2 ^ 32 }
    ensures { result ≤ at }
{
    for word in 0..width {
        let places = table[at * width + word];
        if places != 0 {
            return at.min(word * 64 + places.trailing_zeros() as usize);
        }
    }
    at
}

/// The first place that the place is related to, if it is related to all that the place is related
/// to; otherwise the place itself.
fn first_above(table: &[u64], width: usize, at: usize) -> usize
    requires row { at * width + width ≤ length table.now }
    requires few { width < 2 ^ 32 }
    ensures most { result ≤ at }
    ensures above { (q : ℕ) → q < width * 64 → HasCell table.now width at q
        → HasCell table.now width result q }
{
    let first = first_related(table, width, at);
    let own = rows::row_at(table, width, at);
    match rows::first_missing(own, rows::row_at(table, width, first)) {
        Some(_missing) => at,
        None => first,
    }
}

/// Tells whether `above` is an earlier place than `via` and the place is related to it.
fn has_passed(table: &[u64], width: usize, p: usize, above: usize, via: usize) -> bool
    requires row { p * width + width ≤ length table.now }
    requires column { via < width * 64 }
    ensures { result ≡ true → (above < via) × HasCell table.now width p above }
{
    if above >= via {
        return false;
    }
    rows::has_cell(table, width, p, above)
}

/// Relates the place to all that `via` is related to, if it is related to `via`. That is so already
/// if it is related to the earlier place `above`.
fn pass_row(table: &mut [u64], width: usize, p: usize, above: usize, via: usize)
    requires row { p * width + width ≤ length table.old }
    requires via_row { via * width + width ≤ length table.old }
    requires column { via < width * 64 }
    requires passed { above < via → HasCell table.old width p above → (q : ℕ) → q < width * 64
        → HasCell table.old width via q → HasCell table.old width p q }
    ensures here { (q : ℕ) → q < width * 64
        → cell_of table.new width p q
        ≡ (cell_of table.old width p q
        || (cell_of table.old width p via && cell_of table.old width via q)) }
    ensures others { (r q : ℕ) → q < width * 64 → ¬ (r ≡ p)
        → cell_of table.new width r q ≡ cell_of table.old width r q }
{
    if !rows::has_cell(table, width, p, via) {
        return;
    }
    if has_passed(table, width, p, above, via) {
        return;
    }
    or_row_within(table, width, p, via);
}

/// Relates each place that is related to `via` to all that `via` is related to. The table is closed
/// by way of the earlier places.
fn pass_through(table: &mut [u64], count: u32, width: usize, via: usize)
    requires table { IsTable table.old count width }
    requires few { width < 2 ^ 32 }
    requires place { via < count }
    requires itself { HasCell table.old width via via }
    requires through { (m p q : ℕ) → m < via → HasArc table.old count width p m
        → HasArc table.old count width m q → HasArc table.old count width p q }
    ensures { (p q : ℕ) → p < count → q < width * 64
        → cell_of table.new width p q ≡ (cell_of table.old width p q || (cell_of table.old width p via && cell_of table.old width via q)) }
{
    if is_alone(table, width, via) {
        return;
    }
    let above = first_above(table, width, via);
    for p in 0..count as usize {
        pass_row(table, width, p, above, via);
    }
}

/// Makes the table of `count` rows its reflexive and transitive closure: chains by way of ever more
/// places (Warshall).
pub fn close_table(table: &mut [u64], count: u32, width: usize)
    requires table { IsTable table.old count width }
    requires few { width < 2 ^ 32 }
    ensures table { IsTable table.new count width }
    ensures closed { (p q : ℕ)
        → HasArc table.new count width p q
        ↔ ((p < count) × (q < count) × Close (HasArc table.old count width) p q) }
{
    relate_selves(table, count, width);
    for via in 0..count as usize {
        pass_through(table, count, width, via);
    }
}
