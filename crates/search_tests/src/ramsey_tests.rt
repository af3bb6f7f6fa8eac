//! The search for a closed set, called on automata in files: each of its ends, with the evidence.

ghost use Rattle.std.specs.Prelude.{◌≡◌, ◌≤◌, ◌<◌, length, IfOk};
ghost use Rattle.ba_format.specs.Reading.{IsWithinLimits};
ghost use Rattle.rabit_frame.specs.FileKinds.{HasLabelTexts};

use auto_core::{Memory, Origin};
use ba_format::{Joined, Limits, Named, join, read};
use cert_text::{Element, Mark, StepLine};
use graph_pool::Pool;
use graph_rows::words_of;
use rabit_frame::{FIRST_LIMITS, SECOND_LIMITS};
use ramsey_search::{Outcome, search, search_in};
use std::alloc::Global;
use std::test::Fail;
use test_inputs::looped_ring;

const ONE_A: &str = "[0]\na,[0]->[0]\n[0]\n";

const TWO_LETTERS: &str = "[0]\na,[0]->[0]\nb,[0]->[0]\n[0]\n";

/// An `a` once, and then no more.
const A_ONCE: &str = "[0]\na,[0]->[1]\n[1]\n";

/// A `b`, and then `a` for ever.
const B_THEN_A: &str = "[0]\nb,[0]->[1]\na,[1]->[1]\n[1]\n";

/// Guesses that no further `b` comes.
const GUESS: &str = "[0]\na,[0]->[0]\nb,[0]->[0]\na,[0]->[1]\na,[1]->[1]\n[1]\n";

/// Any letters, and then `b` for ever.
const THEN_B: &str = "[0]\na,[0]->[0]\nb,[0]->[0]\nb,[0]->[1]\nb,[1]->[1]\n[1]\n";

/// Begins with c, a, a and goes on by c and b.
const C_A_A: &str = "[0]\nc,[0]->[1]\na,[1]->[2]\na,[2]->[3]\nc,[3]->[3]\nb,[3]->[3]\n[3]\n";

const NOTHING: &str = "[0]\n[1]\n";

/// Two states, each left by a letter of its own.
const PAIR: &str = "a,[5]->[7]\nb,[7]->[5]\n";

/// The automaton that the text reads as.
fn read_text(alloc: Global, text: &str, limits: &Limits) -> Result<Named, Memory>
    ensures { IfOk result (IsWithinLimits limits.now) }
{
    if text.len() > 1_000_000 {
        return Err(Memory);
    }
    match read(alloc, text.as_bytes(), limits) {
        Ok(named) => Ok(named),
        Err(_) => Err(Memory),
    }
}

/// Both texts' automata over their joined labels.
pub(crate) fn pair_of(alloc: Global, first: &str, second: &str) -> Result<Joined, Memory>
    ensures { IfOk result HasLabelTexts }
{
    let one = read_text(alloc, first, &FIRST_LIMITS)?;
    let two = read_text(alloc, second, &SECOND_LIMITS)?;
    join(alloc, &one, &two)
}

/// The outcome of the search with the greatest relation of the second automaton.
fn outcome_of(alloc: Global, first: &str, second: &str, limit: u32) -> Result<Outcome, Memory>
    requires some { 1 ≤ limit }
    requires few { limit ≤ 100000 }
{
    let pair = pair_of(alloc, first, second)?;
    let order = direct_sim::relation(alloc, &pair.second, 1)?;
    search(alloc, &pair.first, &pair.second, &order, limit)
}

/// The elements that a step line is to name, beside its own.
#[derive(Clone, Copy)]
struct WantedLine<'a> {
    element: u32,
    by: &'a [u32],
}

/// Whether the step lines are just these.
fn are_steps(steps: &[StepLine], wanted: &[WantedLine]) -> bool {
    for (step, line) in steps.iter().zip(wanted) {
        if step.element != line.element {
            return false;
        }
        if step.by.as_slice() != line.by {
            return false;
        }
    }
    steps.len() == wanted.len()
}

/// Whether the search closes with just this evidence.
fn closes(
    alloc: Global,
    first: &str,
    second: &str,
    elements: &[Element],
    cover: &[u32],
    steps: &[WantedLine],
) -> Result<bool, Memory> {
    let outcome = outcome_of(alloc, first, second, 20000)?;
    let same = match &outcome {
        Outcome::Closed(closure) => {
            closure.elements.as_slice() == elements
                && closure.cover.as_slice() == cover
                && are_steps(closure.steps.as_slice(), steps)
        },
        _ => false,
    };
    drop(outcome);
    Ok(same)
}

fn live(origin: Origin) -> Element {
    Element {
        mark: Mark::Live,
        origin,
    }
}

fn under(element: u32, origin: Origin) -> Element {
    Element {
        mark: Mark::Under(element),
        origin,
    }
}

/// The lasso that the search tells the two apart by, prefix before loop; none where it ends
/// otherwise.
fn told_apart(
    alloc: Global,
    first: &str,
    second: &str,
    prefix: &[u32],
    turn: &[u32],
) -> Result<bool, Memory> {
    let outcome = outcome_of(alloc, first, second, 20000)?;
    let same = match &outcome {
        Outcome::Apart(lasso) => lasso.prefix.as_slice() == prefix && lasso.turn.as_slice() == turn,
        _ => false,
    };
    drop(outcome);
    Ok(same)
}

fn line(element: u32, by: &[u32]) -> WantedLine<'_> {
    WantedLine { element, by }
}

#[test]
fn closed_searches_have_their_evidence(rt: HostRuntime) -> Result<(), Fail> {
    let alloc = rt.alloc();
    let base = live(Origin::Base(0));
    let own = [line(0, &[0])];
    assert!(rt; closes(alloc, ONE_A, ONE_A, &[base], &[0], &own)?);
    let four = [
        base,
        live(Origin::Base(1)),
        live(Origin::Next(0, 1)),
        live(Origin::Next(1, 0)),
    ];
    let turns = [line(0, &[2]), line(1, &[3]), line(2, &[0]), line(3, &[1])];
    assert!(rt; closes(alloc, PAIR, PAIR, &four, &[0, 1], &turns)?);
    let with_dropped = [
        base,
        under(3, Origin::Base(2)),
        live(Origin::Base(3)),
        live(Origin::Next(0, 2)),
    ];
    let steps = [line(0, &[0, 0, 3]), line(2, &[2]), line(3, &[3])];
    assert!(rt; closes(alloc, THEN_B, THEN_B, &with_dropped, &[0, 0, 3, 2], &steps)?);
    Ok(())
}

#[test]
fn searches_tell_apart(rt: HostRuntime) -> Result<(), Fail> {
    let alloc = rt.alloc();
    assert!(rt; told_apart(alloc, TWO_LETTERS, ONE_A, &[1], &[1])?);
    assert!(rt; told_apart(alloc, GUESS, B_THEN_A, &[0], &[0])?);
    assert!(rt; told_apart(alloc, ONE_A, A_ONCE, &[0], &[0])?);
    assert!(rt; told_apart(alloc, C_A_A, NOTHING, &[0, 1, 1], &[0])?);
    Ok(())
}

/// Whether the search of the automaton in itself lists just these origins.
fn lists(alloc: Global, text: &str, limit: u32, wanted: &[Origin]) -> Result<bool, Memory>
    requires some { 1 ≤ limit }
    requires few { limit ≤ 100000 }
{
    match outcome_of(alloc, text, text, limit)? {
        Outcome::Limit(origins) => Ok(origins.as_slice() == wanted),
        _ => Ok(false),
    }
}

#[test]
fn limits_are_met_by_one_more(rt: HostRuntime) -> Result<(), Fail> {
    let alloc = rt.alloc();
    let (one, two) = (Origin::Base(0), Origin::Base(1));
    assert!(rt; lists(alloc, PAIR, 1, &[one, two])?);
    assert!(rt;
        lists(
            alloc,
            PAIR,
            3,
            &[one, two, Origin::Next(0, 1), Origin::Next(1, 0)]
        )?
    );
    assert!(rt; !lists(alloc, PAIR, 4, &[])?);
    Ok(())
}

/// Whether the search closes, with elements.
fn includes(alloc: Global, first: &str, second: &str) -> Result<bool, Memory> {
    match outcome_of(alloc, first, second, 20000)? {
        Outcome::Closed(closure) => Ok(closure.elements.as_slice().len() > 0),
        _ => Ok(false),
    }
}

#[test]
fn larger_searches_close(rt: HostRuntime) -> Result<(), Fail> {
    let alloc = rt.alloc();
    assert!(rt; includes(alloc, B_THEN_A, GUESS)?);
    let text = looped_ring(alloc, 30)?;
    assert!(rt; includes(alloc, text.as_str(), text.as_str())?);
    Ok(())
}

/// Whether all of these words are ones.
fn are_ones(words: &[u64]) -> bool {
    for word in words {
        if *word != u64::MAX {
            return false;
        }
    }
    true
}

/// How many of these elements are live.
fn live_among(elements: &[Element]) -> u64 {
    elements
        .iter()
        .filter(|element| element.mark == Mark::Live)
        .count() as u64
}

/// Whether both have the same step lines.
fn are_same_steps(steps: &[StepLine], others: &[StepLine]) -> bool {
    for (step, other) in steps.iter().zip(others) {
        if step.element != other.element {
            return false;
        }
        if step.by.as_slice() != other.by.as_slice() {
            return false;
        }
    }
    steps.len() == others.len()
}

/// Whether both searches close with the same evidence, in which at most so many elements are live.
fn close_alike(one: &Outcome, other: &Outcome, most: u64) -> bool {
    let Outcome::Closed(one) = one else {
        return false;
    };
    let Outcome::Closed(other) = other else {
        return false;
    };
    live_among(one.elements.as_slice()) <= most
        && one.elements.as_slice() == other.elements.as_slice()
        && one.cover.as_slice() == other.cover.as_slice()
        && are_same_steps(one.steps.as_slice(), other.steps.as_slice())
}

/// Whether a search of the text's automaton in itself, in a pool with one block of ones, leaves
/// that block as it was and alone, leaves a free block for each live element, and closes as a
/// search in a pool of its own does.
fn leaves_a_block_of_ones(alloc: Global, text: &str) -> Result<bool, Memory> {
    let pair = pair_of(alloc, text, text)?;
    let order = direct_sim::relation(alloc, &pair.second, 1)?;
    let mut pool = Pool::new(alloc, words_of(pair.second.states()));
    let ones = pool.add()?;
    if !pool.is_live(ones) {
        return Ok(false);
    }
    pool.block_mut(ones).fill(u64::MAX);
    if pool.live() != 1 {
        return Ok(false);
    }
    let lent = search_in(alloc, &mut pool, &pair.first, &pair.second, &order, 20000)?;
    let own = search(alloc, &pair.first, &pair.second, &order, 20000)?;
    let alike = close_alike(&lent, &own, pool.free());
    drop(own);
    drop(lent);
    Ok(pool.live() == 1 && pool.is_live(ones) && are_ones(pool.block(ones)) && alike)
}

#[test]
fn lent_pools_keep_their_blocks(rt: HostRuntime) -> Result<(), Fail> {
    let alloc = rt.alloc();
    let text = looped_ring(alloc, 30)?;
    assert!(rt; leaves_a_block_of_ones(alloc, text.as_str())?);
    Ok(())
}
