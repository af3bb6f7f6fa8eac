//! Whether an element fails.

ghost use Rattle.std.specs.Prelude.{◌≡◌, ◌<◌, true, false};
ghost use Rattle.auto_core.specs.Pairs.{PairPasses, PairFails};
ghost use Rattle.set_rows.specs.Sets.{IsRow};
ghost use Rattle.antichain.specs.Kept.{held_pair};

use crate::parts::Held;
use auto_core::Auto;
use set_rows::has_accepting;

/// Tells whether the element fails: its state is accepting, and no member of its set is.
pub(crate) fn fails(first: &Auto, second: &Auto, x: &Held) -> bool
    requires state { x.now.state < first.now.states }
    requires row { IsRow second.now.states x.now.members.items }
    ensures fails { result ≡ true → PairFails first.now second.now (held_pair x.now) }
    ensures passes { result ≡ false → PairPasses first.now second.now (held_pair x.now) }
{
    first.accepting(x.state) && !has_accepting(second, &x.members)
}
