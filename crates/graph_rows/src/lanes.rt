//! Rows or-ed by lanes.

ghost use Rattle.std.specs.Prelude.{◌≡◌, length};
ghost use Rattle.auto_core.specs.Rows.{AreWordsOred};

use auto_core::rows;

/// Makes each word the 'or' of it and the word of the other row, which has the same length.
pub fn or_into(into: &mut [u64], from: &[u64])
    requires { length into.old ≡ length from.now }
    ensures { AreWordsOred into.old from.now into.new }
{
    rows::or_into(into, from);
}
