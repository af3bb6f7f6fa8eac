//! The cross relation that is written.

ghost use Rattle.std.specs.Prelude.{◌≡◌, ◌+◌, ◌≤◌, ◌↔◌, length, IfOk};
ghost use Rattle.auto_core.specs.Game.{Holds};
ghost use Rattle.cross_sim.specs.Cross.{IsGreatestSideBySide, HoldsGreatestAcross};
ghost use Rattle.cross_sim.specs.Rules.{pairs_across};
ghost use Rattle.cross_sim.specs.Written.{IsCrossOfGreatest};

use auto_core::Memory;
use ba_format::Joined;
use bit_rel::Rel;
use cert_text::Cross;
use log_check::rows_of;
use std::alloc::Global;

/// The cross relation of the pairs that lead into the second automaton's states, its right numbers
/// the second automaton's own. It has a text.
pub(crate) fn cross_within(
    alloc: Global,
    pair: &Joined,
    look: u32,
    rel: &Rel,
) -> Result<Cross, Memory>
    requires size { rel.now.size ≡ pair.now.first.states + pair.now.second.states }
    requires greatest { HoldsGreatestAcross pair.now.first pair.now.second look rel.now.pairs }
    requires first_few { pair.now.first.states ≤ 2048 }
    requires second_few { pair.now.second.states ≤ 512 }
    requires labels { length pair.now.labels ≤ 512 }
    requires look_upto { look ≤ 6 }
    ensures of { IfOk result (IsCrossOfGreatest pair.now look) }
    ensures initial { IfOk result (λ cross.
        Holds rel.now.pairs pair.now.first.initial (pair.now.first.states + pair.now.second.initial)
        ↔ Holds (pairs_across cross) pair.now.first.initial pair.now.second.initial) }
{
    let firsts = pair.first.states();
    let seconds = pair.second.states();
    let rows = rows_of(alloc, rel, firsts, firsts, seconds)?;
    Ok(Cross {
        first_states: firsts,
        second_states: seconds,
        labels: pair.labels.count(),
        look,
        rows,
    })
}

/// The cross relation of what `relation` gives at this lookahead, its right numbers the second
/// automaton's own. It has a text.
pub fn cross_of(alloc: Global, pair: &Joined, look: u32, rel: &Rel) -> Result<Cross, Memory>
    requires size { rel.now.size ≡ pair.now.first.states + pair.now.second.states }
    requires greatest { IsGreatestSideBySide pair.now.first pair.now.second look rel.now.pairs }
    requires first_few { pair.now.first.states ≤ 2048 }
    requires second_few { pair.now.second.states ≤ 512 }
    requires labels { length pair.now.labels ≤ 512 }
    requires look_upto { look ≤ 6 }
    ensures of { IfOk result (IsCrossOfGreatest pair.now look) }
    ensures initial { IfOk result (λ cross.
        Holds rel.now.pairs pair.now.first.initial (pair.now.first.states + pair.now.second.initial)
        ↔ Holds (pairs_across cross) pair.now.first.initial pair.now.second.initial) }
{
    cross_within(alloc, pair, look, rel)
}
