//! Whether a cross relation has a text.

ghost use Rattle.std.specs.Prelude.{◌↔◌, IsTrue};
ghost use Rattle.cert_text.specs.CrossText.{CrossFormed};

use crate::cross::Cross;
use cert_value::{are_rows, is_short, is_short_count};

/// Whether the cross relation has a text: its numbers and the count of its rows have at most nine
/// digits, left numbers ascend, and each row has runs that ascend, none of them right after the one
/// before. It takes no memory.
pub fn cross_formed(cross: &Cross) -> bool
    ensures exact { IsTrue result ↔ CrossFormed cross.now }
{
    let rows = cross.rows.as_slice();
    is_short(cross.first_states)
        && is_short(cross.second_states)
        && is_short(cross.labels)
        && is_short(cross.look)
        && is_short_count(rows.len())
        && are_rows(rows)
}
