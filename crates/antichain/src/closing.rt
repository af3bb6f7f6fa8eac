//! The evidence that a family is closed.

ghost use Rattle.std.specs.Prelude.{◌≡◌, ◌^◌, ◌<◌, ℕ, List, length, map, filter, slice_index_or, true, false, IfOk, [], ◌∷◌};
ghost use Rattle.std.specs.List.{range_with_len};
ghost use Rattle.auto_core.specs.Automaton.{IsAutomaton, trans_at};
ghost use Rattle.auto_core.specs.Game.{IsGreatestForward};
ghost use Rattle.auto_core.specs.Outcome.{At, Closed, Entry, HasSubsumer, next_entry};
ghost use Rattle.auto_core.specs.PairOutcome.{PairSearchEnds, pair_rules, start_entry};
ghost use Rattle.cert_value.specs.declared.types.StepLine.{StepLine};
ghost use Rattle.antichain.specs.declared.parts.Held.{Held};
ghost use Rattle.antichain.specs.Kept.{FitsTogether, IsPrepared, IsWhole, entries_held};
ghost use Rattle.evidence.specs.Evidence.{AreLeastSubsumers, IsEvidenceOf, IsStepOf};
ghost use Rattle.antichain.specs.Made.{AreMade};
ghost use Rattle.antichain.specs.Marks.{AreMarked, HasCoverer, IsCovererOf};

use crate::candidates::{next_candidate, start_candidate};
use crate::family::Family;
use crate::parts::Held;
use crate::sets::Sets;
use auto_core::{Auto, List, Memory};
use bit_rel::Rel;
use cert_value::{Element, Mark, StepLine};
use evidence::Closure;
use std::alloc::Global;

/// The least live element that subsumes this one; there is one.
fn coverer(order: &Rel, family: &Family, of: &Held) -> u32
    requires state { of.now.state < length family.now.by_state.items }
    requires fits { FitsTogether order.now.size order.now.pairs family.now }
    requires prepared { IsPrepared order.now.size order.now.pairs of.now }
    requires some { HasCoverer order.now.pairs family.now of.now }
    ensures { IsCovererOf order.now.pairs family.now of.now result }
{
    match family.least(order, of) {
        Some(number) => number,
        None => unreachable!(),
    }
}

/// The elements with their marks.
fn elements(alloc: Global, order: &Rel, family: &Family) -> Result<List<Element>, Memory>
    requires fits { FitsTogether order.now.size order.now.pairs family.now }
    requires state { (i : ℕ) (h : Held) → At family.now.held.items i h
        → h.state < length family.now.by_state.items }
    requires some { (i : ℕ) (h : Held) → At family.now.held.items i h
        → slice_index_or family.now.live.items i false ≡ false
        → HasCoverer order.now.pairs family.now h }
    ensures { IfOk result (AreMarked order.now.pairs family.now (length family.now.held.items)) }
{
    let mut elements = List::new(alloc);
    for number in 0..family.held.len() {
        let element = &family.held[number];
        let mark = if family.live[number] {
            Mark::Live
        } else {
            Mark::Under(coverer(order, family, element))
        };
        elements.push(Element {
            mark,
            origin: element.origin,
        })?;
    }
    Ok(elements)
}

/// The least live subsumer of the start.
fn cover(
    alloc: Global,
    first: &Auto,
    second: &Auto,
    order: &Rel,
    family: &Family,
) -> Result<List<u32>, Memory>
    requires first_valid { IsAutomaton first.now }
    requires greatest { IsGreatestForward second.now 1 order.now.pairs }
    requires order_size { order.now.size ≡ second.now.states }
    requires whole { IsWhole first.now second.now order.now.pairs family.now }
    requires some { HasSubsumer (pair_rules first.now second.now order.now.pairs)
        (entries_held first.now family.now) (start_entry first.now) }
    ensures { IfOk result
        (AreLeastSubsumers (pair_rules first.now second.now order.now.pairs)
        (entries_held first.now family.now) (start_entry first.now ∷ [])) }
{
    let start = start_candidate(alloc, first, second, order)?;
    let mut cover = List::new(alloc);
    cover.push(coverer(order, family, &start))?;
    Ok(cover)
}

/// The least live subsumers of the extensions of the element.
fn step_line(
    alloc: Global,
    first: &Auto,
    second: &Auto,
    order: &Rel,
    family: &Family,
    element: u32,
    sets: &mut Sets,
) -> Result<StepLine, Memory>
    requires first_valid { IsAutomaton first.now }
    requires greatest { IsGreatestForward second.now 1 order.now.pairs }
    requires order_size { order.now.size ≡ second.now.states }
    requires whole { IsWhole first.now second.now order.now.pairs family.now }
    requires element { element < length family.now.held.items }
    requires some { (x : Entry) (t : ℕ) → At (entries_held first.now family.now) element x → t < length first.now.transitions → (trans_at first.now t).source ≡ x.arc.to
        → HasSubsumer (pair_rules first.now second.now order.now.pairs) (entries_held first.now family.now) (next_entry first.now element x t) }
    requires sets { AreMade second.now order.now.pairs sets.old.made.items }
    ensures sets { IfOk result (λ _. AreMade second.now order.now.pairs sets.new.made.items) }
    ensures step { IfOk result
        (IsStepOf (pair_rules first.now second.now order.now.pairs)
        (entries_held first.now family.now)) }
    ensures element { IfOk result (λ line. line.element ≡ element) }
{
    let from = &family.held[element as usize];
    let out = first.outgoing(from.state);
    let mut by = List::new(alloc);
    for t in out.begin..out.end {
        let next = next_candidate(alloc, first, second, order, element, from, t, sets)?;
        by.push(coverer(order, family, &next))?;
    }
    Ok(StepLine { element, by })
}

/// A step line for each live element.
fn steps(
    alloc: Global,
    first: &Auto,
    second: &Auto,
    order: &Rel,
    family: &Family,
) -> Result<List<StepLine>, Memory>
    requires first_valid { IsAutomaton first.now }
    requires greatest { IsGreatestForward second.now 1 order.now.pairs }
    requires order_size { order.now.size ≡ second.now.states }
    requires whole { IsWhole first.now second.now order.now.pairs family.now }
    requires few { length family.now.held.items < 2 ^ 32 }
    requires some { (e t : ℕ) (x : Entry) → slice_index_or family.now.live.items e false ≡ true → At (entries_held first.now family.now) e x → t < length first.now.transitions
        → (trans_at first.now t).source ≡ x.arc.to
        → HasSubsumer (pair_rules first.now second.now order.now.pairs) (entries_held first.now family.now) (next_entry first.now e x t) }
    ensures lines { IfOk
        result (λ steps.
        map (λ (l : StepLine). l.element) steps
        ≡ filter (λ e. slice_index_or family.now.live.items e false)
        (range_with_len 0 (length family.now.held.items))) }
    ensures each { IfOk
        result (λ steps.
        (k : ℕ) (l : StepLine) → At steps k l
        → IsStepOf (pair_rules first.now second.now order.now.pairs)
        (entries_held first.now family.now) l) }
{
    let mut sets = Sets::new(alloc)?;
    let mut steps = List::new(alloc);
    for element in 0..family.held.len() as u32 {
        if family.live[element as usize] {
            steps.push(step_line(alloc, first, second, order, family, element, &mut sets)?)?;
        }
    }
    Ok(steps)
}

/// The elements with their marks, and the least live ones that subsume the start and the
/// extensions.
pub(crate) fn closure(
    alloc: Global,
    first: &Auto,
    second: &Auto,
    order: &Rel,
    family: &Family,
) -> Result<Closure, Memory>
    requires first_valid { IsAutomaton first.now }
    requires second_valid { IsAutomaton second.now }
    requires greatest { IsGreatestForward second.now 1 order.now.pairs }
    requires order_size { order.now.size ≡ second.now.states }
    requires whole { IsWhole first.now second.now order.now.pairs family.now }
    requires closed { (limit : ℕ)
        × PairSearchEnds first.now second.now order.now.pairs limit
        (Closed (entries_held first.now family.now)) }
    requires few { length family.now.held.items < 2 ^ 32 }
    ensures { IfOk result
        (IsEvidenceOf (pair_rules first.now second.now order.now.pairs)
        (entries_held first.now family.now)) }
{
    Ok(Closure {
        elements: elements(alloc, order, family)?,
        cover: cover(alloc, first, second, order, family)?,
        steps: steps(alloc, first, second, order, family)?,
    })
}
