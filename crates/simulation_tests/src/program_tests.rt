//! Announced letters: that both programs find the same relation.

ghost use Rattle.std.specs.Prelude.{◌≤◌};

use auto_core::{Auto, Memory};
use delayed_sim::{Delayed, greatest, greatest_by_rounds, letters_for};
use std::alloc::Global;
use std::test::Fail;
use test_inputs::{FORKED, Small, built};

/// Tells whether both have the same triples with the same ranks.
fn are_same(one: &Delayed, other: &Delayed) -> bool {
    if one.count() != other.count() {
        return false;
    }
    for at in 0..one.count() {
        if one.left(at) != other.left(at) || one.right(at) != other.right(at) {
            return false;
        }
        if one.ahead(at) != other.ahead(at) || one.rank_at(at) != other.rank_at(at) {
            return false;
        }
    }
    true
}

/// How many triples the greatest relation with so many announced letters has; None where the two
/// programs differ.
pub(crate) fn found(alloc: Global, automaton: &Auto, asked: u32) -> Result<Option<usize>, Memory>
    requires few { automaton.now.states ≤ 65535 }
    requires from { 1 ≤ asked }
    requires upto { asked ≤ 4 }
{
    let letters = letters_for(automaton, asked);
    let one = greatest(alloc, automaton, letters)?;
    let other = greatest_by_rounds(alloc, automaton, letters)?;
    Ok(if are_same(&one, &other) {
        Some(one.count())
    } else {
        None
    })
}

/// Whether they find the same on the automaton for each number of letters up to three, and so many
/// triples.
fn find_alike(alloc: Global, small: &Small<'_>, triples: Option<usize>) -> Result<bool, Fail> {
    let automaton = built(alloc, small)?;
    if automaton.states() > 100 {
        return Ok(false);
    }
    for asked in 1..4 {
        let count = found(alloc, &automaton, asked)?;
        if count.is_none() || triples.is_some() && count != triples {
            return Ok(false);
        }
    }
    Ok(true)
}

/// A ring of two states, which waits for its accepting one, whatever the letters.
const TURNS: Small<'static> = Small {
    states: 2,
    labels: 1,
    moves: &[(0, 0, 1), (1, 0, 0)],
    accepting: &[0],
};

/// Two states, each with a loop by a letter of its own.
const LOOPS: Small<'static> = Small {
    states: 2,
    labels: 2,
    moves: &[(0, 0, 0), (1, 1, 1)],
    accepting: &[0],
};

/// Three states that two letters lead on in their own ways.
const MIXED: Small<'static> = Small {
    states: 3,
    labels: 2,
    moves: &[
        (0, 0, 0),
        (0, 1, 1),
        (1, 0, 2),
        (1, 1, 0),
        (2, 0, 1),
        (2, 1, 2),
    ],
    accepting: &[1],
};

/// Without labels no state moves, and each rank is right.
const NONE: Small<'static> = Small {
    states: 2,
    labels: 0,
    moves: &[],
    accepting: &[1],
};

#[test]
fn both_programs_find_the_same(rt: HostRuntime) -> Result<(), Fail> {
    let rows = [
        (&FORKED, None),
        (&TURNS, Some(4)),
        (&LOOPS, None),
        (&MIXED, None),
        (&NONE, Some(4)),
    ];
    for (small, triples) in rows {
        assert!(rt; find_alike(rt.alloc(), small, triples)?);
    }
    Ok(())
}
