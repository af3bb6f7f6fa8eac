//! A cycle of pairs past an accepting state of the first automaton and none of the second, and the
//! lasso that it makes.

ghost use Rattle.std.specs.Prelude.{◌≡◌, ◌<◌, ℕ, true, false, length, reverse, IfOk, IfSome, IfNone};
ghost use Rattle.auto_core.specs.Automaton.{IsAutomaton, IsAccepting};
ghost use Rattle.auto_core.specs.Game.{Close};
ghost use Rattle.product_laws.specs.Ranked.{IsDeterministic};
ghost use Rattle.product_laws.specs.Reached.{IsBadCycle};
ghost use Rattle.auto_core.specs.Accept.{SeparatesLasso};
ghost use Rattle.strong_components.specs.Graph.{IsGraph};
ghost use Rattle.product_search.specs.Found.{pair_at, step_at, AreFound, Follows};
ghost use Rattle.product_search.specs.Arcs.{ArePairs, HasNoBadArc, IsBadMove, QuietStep};
ghost use Rattle.product_search.specs.Words.{IsSpelledBack, IsWordTo};

use crate::arcs::Arcs;
use crate::found::{Found, Step};
use crate::pairs::{number_of, pair_of};
use auto_core::{Auto, Lasso, List, Memory};
use indexmap::IndexSet;
use std::alloc::Global;

/// A move between two pairs of one component to one whose left state accepts.
#[derive(Clone, Copy)]
pub(crate) struct BadMove {
    /// The number of the pair that it leaves.
    pub from: u32,
    /// Its letter.
    pub letter: u32,
    /// The number of the pair that it leads to.
    pub to: u32,
}

/// A bad move out of the pair, if there is one.
fn bad_move_from(
    first: &Auto,
    pairs: &IndexSet<(u32, u32)>,
    arcs: &Arcs,
    numbers: &[u32],
    from: u32,
) -> Option<BadMove>
    requires graph { IsGraph arcs.now.starts.items arcs.now.targets.items (length pairs.now.keys) }
    requires letters { length arcs.now.letters.items ≡ length arcs.now.targets.items }
    requires numbers { length numbers.now ≡ length pairs.now.keys }
    requires left { (i : ℕ) → i < length pairs.now.keys
        → (pair_at pairs.now.keys i).0 < first.now.states }
    requires from { from < length pairs.now.keys }
    ensures some { IfSome result
        (IsBadMove first.now pairs.now.keys arcs.now.starts.items arcs.now.targets.items
        arcs.now.letters.items numbers.now) }
    ensures none { IfNone result
        (HasNoBadArc first.now pairs.now.keys arcs.now.starts.items arcs.now.targets.items
        numbers.now from) }
{
    let starts = arcs.starts.as_slice();
    let targets = arcs.targets.as_slice();
    let letters = arcs.letters.as_slice();
    for at in starts[from as usize]..starts[from as usize + 1] {
        let to = targets[at];
        if numbers[to as usize] == numbers[from as usize] {
            if first.accepting(pair_of(pairs, to).0) {
                return Some(BadMove {
                    from,
                    letter: letters[at],
                    to,
                });
            }
        }
    }
    None
}

/// A bad move, if there is one.
pub(crate) fn bad_move(
    first: &Auto,
    pairs: &IndexSet<(u32, u32)>,
    arcs: &Arcs,
    numbers: &[u32],
    count: u32,
) -> Option<BadMove>
    requires count { count ≡ length pairs.now.keys }
    requires graph { IsGraph arcs.now.starts.items arcs.now.targets.items (length pairs.now.keys) }
    requires letters { length arcs.now.letters.items ≡ length arcs.now.targets.items }
    requires numbers { length numbers.now ≡ length pairs.now.keys }
    requires left { (i : ℕ) → i < length pairs.now.keys
        → (pair_at pairs.now.keys i).0 < first.now.states }
    ensures some { IfSome result
        (IsBadMove first.now pairs.now.keys arcs.now.starts.items arcs.now.targets.items
        arcs.now.letters.items numbers.now) }
    ensures none { IfNone result
        ((v : ℕ) → v < length pairs.now.keys
        → HasNoBadArc first.now pairs.now.keys arcs.now.starts.items arcs.now.targets.items
        numbers.now v) }
{
    for from in 0..count {
        match bad_move_from(first, pairs, arcs, numbers, from) {
            Some(found) => {
                return Some(found);
            }
            None => {}
        }
    }
    None
}

/// The letters by which the pair with this number was found, from the last to the first.
fn letters_back(alloc: Global, steps: &[Step], number: u32) -> Result<Vec<u32>, Memory>
    requires within { number < length steps.now }
    requires falling { (i : ℕ) → 0 < i → i < length steps.now → (step_at steps.now i).from < i }
    ensures { IfOk result (λ letters. IsSpelledBack steps.now number letters.items 0) }
{
    let mut letters = Vec::new(alloc);
    let mut at = number;
    while at != 0 {
        let step = steps[at as usize];
        letters.push(step.letter)?;
        at = step.from;
    }
    Ok(letters)
}

/// The letters in the other order.
fn turned(alloc: Global, letters: &[u32]) -> Result<List<u32>, Memory>
    ensures { IfOk result (λ word. word ≡ reverse letters.now) }
{
    let mut word = List::new(alloc);
    for at in 0..letters.len() {
        word.push(letters[letters.len() - 1 - at])?;
    }
    Ok(word)
}

/// A word by which the pair with this number was found.
fn word_to(alloc: Global, steps: &[Step], number: u32) -> Result<List<u32>, Memory>
    requires within { number < length steps.now }
    requires falling { (i : ℕ) → 0 < i → i < length steps.now → (step_at steps.now i).from < i }
    ensures { IfOk result (IsWordTo steps.now number) }
{
    let letters = letters_back(alloc, steps, number)?;
    turned(alloc, &letters)
}

/// The word of a cycle through the move, from its end.
fn cycle_of(
    alloc: Global,
    first: &Auto,
    second: &Auto,
    pairs: &IndexSet<(u32, u32)>,
    bad: BadMove,
) -> Result<List<u32>, Memory>
    requires deterministic { IsDeterministic second.now }
    requires pairs { ArePairs first.now second.now pairs.now.keys }
    requires from { bad.from < length pairs.now.keys }
    requires to { bad.to < length pairs.now.keys }
    requires step { Follows first.now second.now true (pair_at pairs.now.keys bad.from) bad.letter
        (pair_at pairs.now.keys bad.to) }
    requires back { Close (QuietStep first.now second.now pairs.now.keys) bad.to bad.from }
    requires accepts { IsAccepting first.now (pair_at pairs.now.keys bad.to).0 }
    ensures { IfOk
        result (λ word.
        IsBadCycle first.now second.now (pair_at pairs.now.keys bad.to).0
        (pair_at pairs.now.keys bad.to).1 word) }
{
    let mut ways = Found::new(alloc, pair_of(pairs, bad.to))?;
    if !ways.expand_all(first, second, true, 0xffff_fffe)? {
        return Err(Memory);
    }
    let at = number_of(&ways.pairs, pair_of(pairs, bad.from));
    let mut word = word_to(alloc, &ways.steps, at)?;
    word.push(bad.letter)?;
    Ok(word)
}

/// The lasso of a word to the end of the move and the cycle through it.
pub(crate) fn lasso_of(
    alloc: Global,
    first: &Auto,
    second: &Auto,
    found: &Found,
    bad: BadMove,
) -> Result<Lasso, Memory>
    requires valid { IsAutomaton second.now }
    requires deterministic { IsDeterministic second.now }
    requires found { AreFound first.now second.now false found.now.pairs.keys
        found.now.steps.items }
    requires initial { pair_at found.now.pairs.keys 0 ≡ (first.now.initial, second.now.initial) }
    requires pairs { ArePairs first.now second.now found.now.pairs.keys }
    requires from { bad.from < length found.now.pairs.keys }
    requires to { bad.to < length found.now.pairs.keys }
    requires step { Follows first.now second.now true (pair_at found.now.pairs.keys bad.from)
        bad.letter (pair_at found.now.pairs.keys bad.to) }
    requires back { Close (QuietStep first.now second.now found.now.pairs.keys) bad.to bad.from }
    requires accepts { IsAccepting first.now (pair_at found.now.pairs.keys bad.to).0 }
    ensures { IfOk result (λ lasso. SeparatesLasso first.now second.now lasso.prefix lasso.turn) }
{
    Ok(Lasso {
        prefix: word_to(alloc, &found.steps, bad.to)?,
        turn: cycle_of(alloc, first, second, &found.pairs, bad)?,
    })
}
