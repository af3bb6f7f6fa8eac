//! The numbers of pairs in a table.

ghost use Rattle.std.specs.Prelude.{◌≡◌, ◌+◌, ◌*◌, ◌<◌};

/// The number of the pair in a table of so many rows and columns.
pub fn pair_number(rows: u32, columns: u32, p: u32, q: u32) -> usize
    requires row { p < rows }
    requires column { q < columns }
    ensures number { result ≡ p * columns + q }
    ensures inside { result < rows * columns }
{
    p as usize * columns as usize + q as usize
}
