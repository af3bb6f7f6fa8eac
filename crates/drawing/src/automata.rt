//! The two automata.

ghost use Rattle.std.specs.Prelude.{◌≡◌, ◌+◌, ◌*◌, ◌/◌, ◌<◌, ◌≤◌, IfOk, map, filter, fold};
ghost use Rattle.std.specs.List.{range_with_len, list_any};
ghost use Rattle.ba_format.specs.Faults.{same_trans};
ghost use Rattle.drawing.specs.Draws.{draw_at};
ghost use Rattle.drawing.specs.Drawn.{ring_at, extra_at, accepts_first, accepts_second, ring, ring_and_more, drawn_label, IsInBounds, AreDrawn};
ghost use Rattle.drawing.specs.Given.{AreDraws};

use crate::generator::draws;
use crate::parts::Drill;
use auto_core::{Memory, Trans, of_parts};
use ba_format::{Joined, Texts};
use std::alloc::Global;

/// The draw with this number.
fn draw(drill: Drill, draws: &[u32], at: u32) -> u32
    requires draws { AreDraws drill draws.now }
    requires near { at < 2 * drill.states + 3 * (drill.states / 8) }
    ensures { result ≡ draw_at drill.seed at }
{
    draws[at as usize]
}

/// The ring: one transition out of each state to the next one.
fn ring(alloc: Global, drill: Drill, draws: &[u32]) -> Result<Vec<Trans>, Memory>
    requires bounds { IsInBounds drill }
    requires draws { AreDraws drill draws.now }
    ensures { IfOk result (λ v. v.items ≡ ring drill) }
{
    let mut steps = Vec::new(alloc);
    for state in 0..drill.states {
        steps.push(Trans {
            source: state,
            label: draw(drill, draws, state) % drill.labels,
            target: (state + 1) % drill.states,
        })?;
    }
    Ok(steps)
}

/// Tells whether the state is accepting in the first automaton.
fn accepts_first(drill: Drill, draws: &[u32], state: u32) -> bool
    requires bounds { IsInBounds drill }
    requires draws { AreDraws drill draws.now }
    requires is_state { state < drill.states }
    ensures { result ≡ accepts_first drill state }
{
    state == 0 || draw(drill, draws, drill.states + state) % 4 == 0
}

/// Tells whether the state is accepting in the second automaton.
fn accepts_second(drill: Drill, draws: &[u32], state: u32) -> bool
    requires bounds { IsInBounds drill }
    requires draws { AreDraws drill draws.now }
    requires is_state { state < drill.states }
    ensures { result ≡ accepts_second drill state }
{
    accepts_first(drill, draws, state) || draw(drill, draws, drill.states + state) % 4 == 1
}

/// The accepting states of the first automaton.
fn first_accepting(alloc: Global, drill: Drill, draws: &[u32]) -> Result<Vec<u32>, Memory>
    requires bounds { IsInBounds drill }
    requires draws { AreDraws drill draws.now }
    ensures { IfOk
        result (λ v. v.items ≡ filter (accepts_first drill) (range_with_len 0 drill.states)) }
{
    let mut accepting = Vec::new(alloc);
    for state in 0..drill.states {
        if accepts_first(drill, draws, state) {
            accepting.push(state)?;
        }
    }
    Ok(accepting)
}

/// The accepting states of the second automaton.
fn second_accepting(alloc: Global, drill: Drill, draws: &[u32]) -> Result<Vec<u32>, Memory>
    requires bounds { IsInBounds drill }
    requires draws { AreDraws drill draws.now }
    ensures { IfOk
        result (λ v. v.items ≡ filter (accepts_second drill) (range_with_len 0 drill.states)) }
{
    let mut accepting = Vec::new(alloc);
    for state in 0..drill.states {
        if accepts_second(drill, draws, state) {
            accepting.push(state)?;
        }
    }
    Ok(accepting)
}

/// The further transition with this number.
fn extra(drill: Drill, draws: &[u32], at: u32) -> Trans
    requires bounds { IsInBounds drill }
    requires draws { AreDraws drill draws.now }
    requires near { at < drill.states / 8 }
    ensures { result ≡ extra_at drill at }
{
    let begin = 2 * drill.states + 3 * at;
    Trans {
        source: draw(drill, draws, begin) % drill.states,
        label: draw(drill, draws, begin + 1) % drill.labels,
        target: draw(drill, draws, begin + 2) % drill.states,
    }
}

/// Tells whether the two transitions are the same.
fn is_same(step: Trans, other: Trans) -> bool
    ensures { result ≡ same_trans step other }
{
    step.source == other.source && step.label == other.label && step.target == other.target
}

/// Tells whether the transition is one of these.
fn has(steps: &[Trans], step: Trans) -> bool
    ensures { result ≡ list_any (same_trans step) steps.now }
{
    steps.iter().any(|other| is_same(step, *other))
}

/// The transitions of the second automaton: the ring, and those of the further ones that are new
/// when their turn comes.
fn ring_and_more(alloc: Global, drill: Drill, draws: &[u32]) -> Result<Vec<Trans>, Memory>
    requires bounds { IsInBounds drill }
    requires draws { AreDraws drill draws.now }
    ensures { IfOk result (λ v. v.items ≡ ring_and_more drill) }
{
    let mut steps = ring(alloc, drill, draws)?;
    for at in 0..drill.states / 8 {
        let step = extra(drill, draws, at);
        if !has(&steps, step) {
            steps.push(step)?;
        }
    }
    Ok(steps)
}

/// The texts of the labels.
fn labels(alloc: Global, count: u32) -> Result<Texts, Memory>
    requires few { count ≤ 26 }
    ensures { IfOk result (λ texts. texts ≡ map drawn_label (range_with_len 0 count)) }
{
    let mut texts = Texts::new(alloc);
    for label in 0..count {
        let text = format!(in alloc; "a{label}")?;
        texts.add(text.as_bytes())?;
    }
    Ok(texts)
}

/// The two automata that the drill's seed draws, over the same labels. Only memory can be refused.
pub fn drawn(alloc: Global, drill: Drill) -> Result<Joined, Memory>
    requires { IsInBounds drill }
    ensures { IfOk result (AreDrawn drill) }
{
    let draws = draws(alloc, drill.seed, 2 * drill.states + 3 * (drill.states / 8))?;
    let first = of_parts(
        alloc,
        drill.states,
        drill.labels,
        0,
        &ring(alloc, drill, &draws)?,
        &first_accepting(alloc, drill, &draws)?,
    )?;
    let second = of_parts(
        alloc,
        drill.states,
        drill.labels,
        0,
        &ring_and_more(alloc, drill, &draws)?,
        &second_accepting(alloc, drill, &draws)?,
    )?;
    Ok(Joined {
        first,
        second,
        labels: labels(alloc, drill.labels)?,
    })
}
