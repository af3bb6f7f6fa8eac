//! The transitions that have a better one.

ghost use Rattle.std.specs.Prelude.{◌≡◌, ◌<◌, ◌≤◌, length, IfOk};
ghost use Rattle.auto_core.specs.Game.{Holds};
ghost use Rattle.prune_pairs.specs.Least.{AreLeastBetter};

use crate::finding::first_better;
use auto_core::{Auto, List, Memory};
use bit_rel::Rel;
use std::alloc::Global;

/// A transition that is removed, and a better one, by their numbers.
#[derive(Clone, Copy, Debug, PartialEq, Eq)]
pub struct Gone {
    /// The transition that is removed.
    pub trans: u32,
    /// The least better one.
    pub by: u32,
}

/// The transitions that have a better one, by the approved pair with this number, from 1 to 4:
/// ascending, each with the least better one. A relation that the pair has no use for is passed
/// over.
pub fn removable(
    alloc: Global,
    automaton: &Auto,
    pair: u32,
    back: &Rel,
    ahead: &Rel,
) -> Result<List<Gone>, Memory>
    requires pair_from { 1 ≤ pair }
    requires pair_upto { pair ≤ 4 }
    requires back { ¬ (pair ≡ 1) → back.now.size ≡ automaton.now.states }
    requires ahead { ¬ (pair ≡ 2) → ahead.now.size ≡ automaton.now.states }
    ensures { IfOk result
        (AreLeastBetter automaton.now pair (Holds back.now.pairs) (Holds ahead.now.pairs)) }
{
    let mut gone = List::new(alloc);
    for trans in 0..automaton.transitions().len() as u32 {
        if let Some(by) = first_better(automaton, pair, back, ahead, trans) {
            gone.push(Gone { trans, by })?;
        }
    }
    Ok(gone)
}
