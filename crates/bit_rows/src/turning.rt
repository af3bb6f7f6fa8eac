//! The arcs of a table turned round.

ghost use Rattle.std.specs.Prelude.{◌≡◌, ◌*◌, ◌^◌, ◌<◌, length};
ghost use Rattle.auto_core.specs.Reach.{IsTable};
ghost use Rattle.bit_rows.specs.Loops.{IsTurned};

use crate::transposing::transpose;

/// Writes the arcs of the table, turned round.
pub fn turn(table: &[u64], count: u32, width: usize, turned: &mut [u64])
    requires table { IsTable table.now count width }
    requires few { width < 2 ^ 32 }
    requires len { length turned.old ≡ count * width }
    ensures { IsTurned table.now turned.new count width }
{
    transpose(table, width, count as usize, turned, width, count as usize);
}
