//! The tests of a cut of the first log.

ghost use Rattle.std.specs.Prelude.{◌≡◌, ◌<◌, ◌↔◌, All, IfOk, IsTrue, true};
ghost use Rattle.auto_core.specs.Automaton.{IsAutomaton};
ghost use Rattle.auto_core.specs.Pruning.{IsCut};
ghost use Rattle.cert_value.specs.WellFormed.{ascend, blocks_due, gone_of};
ghost use Rattle.log_check.specs.Blocks.{IsBlockBelow};
ghost use Rattle.log_check.specs.Closures.{IsAsGoodBy, IsBetterBy};
ghost use Rattle.log_check.specs.FirstLog.{IsCutIn, IsGoneIn};

use crate::blocks::is_block_below;
use crate::shapes::is_look;
use auto_core::{Auto, Memory};
use bit_rel::Rel;
use cert_value::{GoneBy, RelBlock};
use std::alloc::Global;

fn is_gone_in(automaton: &Auto, gone: GoneBy) -> bool
    ensures { IsTrue result ↔ IsGoneIn automaton.now gone }
{
    let count = automaton.transitions().len();
    (gone.trans as usize) < count && (gone.by as usize) < count
}

fn are_gone_in(automaton: &Auto, gone: &[GoneBy]) -> bool
    ensures { IsTrue result ↔ All (IsGoneIn automaton.now) gone.now }
{
    for one in gone {
        if !is_gone_in(automaton, *one) {
            return false;
        }
    }
    true
}

fn are_blocks_below(states: u32, blocks: &[RelBlock]) -> bool
    ensures { IsTrue result ↔ All (IsBlockBelow states) blocks.now }
{
    for block in blocks {
        if !is_block_below(states, block) {
            return false;
        }
    }
    true
}

/// Tells whether what the cut names is there.
pub(crate) fn is_cut_in(automaton: &Auto, look: u32, gone: &[GoneBy], blocks: &[RelBlock]) -> bool
    ensures told { IsTrue result ↔ IsCutIn automaton.now look gone.now blocks.now }
    ensures valid { IsAutomaton automaton.now }
{
    let states = automaton.states();
    is_look(look) && are_gone_in(automaton, gone) && are_blocks_below(states, blocks)
}

/// Tells whether the second transition has the letter of the first, and its ends are related to
/// those of the first.
fn is_as_good(automaton: &Auto, back: &Rel, ahead: &Rel, gone: GoneBy) -> bool
    requires gone_in { IsGoneIn automaton.now gone }
    requires back { back.now.size ≡ automaton.now.states }
    requires ahead { ahead.now.size ≡ automaton.now.states }
    ensures { IsTrue result ↔ IsAsGoodBy automaton.now back.now ahead.now gone }
{
    let transitions = automaton.transitions();
    let first = transitions[gone.trans as usize];
    let better = transitions[gone.by as usize];
    first.label == better.label
        && back.get(first.source, better.source)
        && ahead.get(first.target, better.target)
}

/// Tells whether that holds of all that goes.
pub(crate) fn are_as_good(automaton: &Auto, back: &Rel, ahead: &Rel, gone: &[GoneBy]) -> bool
    requires gone_in { All (IsGoneIn automaton.now) gone.now }
    requires back { back.now.size ≡ automaton.now.states }
    requires ahead { ahead.now.size ≡ automaton.now.states }
    ensures { IsTrue result ↔ All (IsAsGoodBy automaton.now back.now ahead.now) gone.now }
{
    for one in gone {
        if !is_as_good(automaton, back, ahead, *one) {
            return false;
        }
    }
    true
}

/// Tells whether the relation whose strict part the pair asks for does not relate their ends the
/// other way round.
fn is_better(automaton: &Auto, pair: u32, back: &Rel, ahead: &Rel, gone: GoneBy) -> bool
    requires pair { 0 < blocks_due pair }
    requires gone_in { IsGoneIn automaton.now gone }
    requires back { back.now.size ≡ automaton.now.states }
    requires ahead { ahead.now.size ≡ automaton.now.states }
    ensures { IsTrue result ↔ IsBetterBy automaton.now pair back.now ahead.now gone }
{
    let transitions = automaton.transitions();
    let first = transitions[gone.trans as usize];
    let better = transitions[gone.by as usize];
    match pair {
        1 | 3 => !ahead.get(better.target, first.target),
        _ => !back.get(better.source, first.source),
    }
}

/// Tells whether that holds of all that goes.
pub(crate) fn are_better(
    automaton: &Auto,
    pair: u32,
    back: &Rel,
    ahead: &Rel,
    gone: &[GoneBy],
) -> bool
    requires pair { 0 < blocks_due pair }
    requires gone_in { All (IsGoneIn automaton.now) gone.now }
    requires back { back.now.size ≡ automaton.now.states }
    requires ahead { ahead.now.size ≡ automaton.now.states }
    ensures { IsTrue result ↔ All (IsBetterBy automaton.now pair back.now ahead.now) gone.now }
{
    for one in gone {
        if !is_better(automaton, pair, back, ahead, *one) {
            return false;
        }
    }
    true
}

fn numbers_of(alloc: Global, gone: &[GoneBy]) -> Result<Vec<u32>, Memory>
    ensures { IfOk result (λ numbers. numbers.items ≡ gone_of gone.now) }
{
    let mut numbers = Vec::new(alloc);
    for one in gone {
        numbers.push(one.trans)?;
    }
    Ok(numbers)
}

/// The automaton without the transitions with these numbers, which ascend.
pub(crate) fn cut_listed(alloc: Global, automaton: &Auto, gone: &[u32]) -> Result<Auto, Memory>
    requires { ascend gone.now ≡ true }
    ensures { IfOk result (IsCut automaton.now gone.now) }
{
    prune_pairs::cut(alloc, automaton, gone)
}

/// The automaton without what goes.
pub(crate) fn without(alloc: Global, automaton: &Auto, gone: &[GoneBy]) -> Result<Auto, Memory>
    requires { ascend (gone_of gone.now) ≡ true }
    ensures { IfOk result (IsCut automaton.now (gone_of gone.now)) }
{
    let numbers = numbers_of(alloc, gone)?;
    cut_listed(alloc, automaton, &numbers)
}
