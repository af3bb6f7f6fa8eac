//! The transitions that have a better one go.

ghost use Rattle.std.specs.Prelude.{◌≡◌, ◌≤◌, IfOk, IfSome};
ghost use Rattle.auto_core.specs.Game.{Close, Holds};
ghost use Rattle.auto_core.specs.Pruning.{IsCut};
ghost use Rattle.bit_rel.specs.Relation.{IsClosed};
ghost use Rattle.prune_pairs.specs.Least.{AreLeastBetter, numbers_of_gone};
ghost use Rattle.reduce_loop.specs.Kinds.{After};
ghost use Rattle.reduce_loop.specs.Known.{AreGreatestOn};
ghost use Rattle.reduce_loop.specs.Logs.{IsBackOf, IsAheadOf, IsStepEntry, pairs_given};
ghost use Rattle.std.specs.List.Sorted.{IsStrictlyIncreasing};

use crate::joining::closure;
use crate::knowing::{Known, ahead_of, back_of};
use crate::steps::{Foresight, Kind, Made, Step};
use auto_core::{Auto, List, Memory, Mode};
use bit_rel::Rel;
use prune_pairs::{Gone, cut, removable};
use std::alloc::Global;

/// The closure of the relation; the relation of no pairs where none is given.
fn closure_of(alloc: Global, rel: &Option<Rel>, states: u32) -> Result<Rel, Memory>
    ensures { IfOk result (λ made. IfSome rel.now (λ given. IsClosed given made)) }
{
    match rel {
        Some(given) => closure(alloc, given),
        None => Rel::empty(alloc, states),
    }
}

/// The transitions that have a better one by the closures of the relations.
fn removable_by(
    alloc: Global,
    automaton: &Auto,
    pair: u32,
    look: u32,
    back: &Option<Rel>,
    ahead: &Option<Rel>,
) -> Result<List<Gone>, Memory>
    requires pair_from { 1 ≤ pair }
    requires pair_upto { pair ≤ 4 }
    requires back { IsBackOf automaton.now pair look back.now }
    requires ahead { IsAheadOf automaton.now pair look ahead.now }
    ensures { IfOk result
        (AreLeastBetter automaton.now pair (Close (Holds (pairs_given back.now)))
        (Close (Holds (pairs_given ahead.now)))) }
{
    let states = automaton.states();
    let closed_back = closure_of(alloc, back, states)?;
    let closed_ahead = closure_of(alloc, ahead, states)?;
    removable(alloc, automaton, pair, &closed_back, &closed_ahead)
}

/// The numbers of the transitions.
fn numbers(alloc: Global, gone: &[Gone]) -> Result<Vec<u32>, Memory>
    ensures { IfOk result (λ v. v.items ≡ numbers_of_gone gone.now) }
{
    let mut made = Vec::new(alloc);
    for entry in gone {
        made.push(entry.trans)?;
    }
    Ok(made)
}

/// The automaton without the transitions.
fn without(alloc: Global, automaton: &Auto, gone: &[Gone]) -> Result<Auto, Memory>
    requires { IsStrictlyIncreasing (numbers_of_gone gone.now) }
    ensures { IfOk result (IsCut automaton.now (numbers_of_gone gone.now)) }
{
    let numbers = numbers(alloc, gone)?;
    cut(alloc, automaton, &numbers)
}

/// The transitions go that have a better one by the pair.
pub(crate) fn prune(
    alloc: Global,
    automaton: &Auto,
    known: &mut Known,
    pair: u32,
    mode: Mode,
    sight: Foresight,
) -> Result<Made, Memory>
    requires pair_from { 1 ≤ pair }
    requires pair_upto { pair ≤ 4 }
    requires look_from { 1 ≤ sight.look }
    requires look_upto { sight.look ≤ 6 }
    requires known { AreGreatestOn automaton.now sight.look known.old }
    ensures after { IfOk
        result (λ made. After automaton.now mode sight (Kind.Prune pair) made.automaton) }
    ensures entry { IfOk
        result (λ made. IsStepEntry automaton.now mode sight (Kind.Prune pair) made.entry) }
    ensures known { IfOk result (λ _. AreGreatestOn automaton.now sight.look known.new) }
{
    let look = sight.look;
    let back = back_of(alloc, automaton, known, pair, look)?;
    let ahead = ahead_of(alloc, automaton, known, pair, look)?;
    let gone = removable_by(alloc, automaton, pair, look, &back, &ahead)?;
    let automaton = without(alloc, automaton, gone.as_slice())?;
    Ok(Made {
        automaton,
        entry: Step::Cut {
            pair,
            look,
            gone,
            back,
            ahead,
        },
    })
}
