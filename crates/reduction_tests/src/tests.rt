//! What no clause says: that the call succeeds, and what small automata become.

use auto_core::Mode;
use reduce_loop::reduce;
use std::alloc::Global;
use std::test::Fail;
use test_inputs::{Small, built};

/// How many states and transitions are left, and how many steps changed something; None for another
/// lookahead.
fn counts(
    alloc: Global,
    small: &Small<'_>,
    mode: Mode,
    look: u32,
) -> Result<Option<(u32, usize, usize)>, Fail> {
    let automaton = built(alloc, small)?;
    if automaton.states() > 100 || look < 1 || look > 6 {
        return Ok(None);
    }
    let reduced = reduce(alloc, &automaton, mode, look)?;
    Ok(Some((
        reduced.auto.states(),
        reduced.auto.transitions().len(),
        reduced.log.as_slice().len(),
    )))
}

/// Two states that do the same, and one that is of no use.
const FORK: Small<'static> = Small {
    states: 4,
    labels: 2,
    moves: &[(0, 0, 1), (0, 0, 2), (1, 1, 1), (2, 1, 2), (0, 1, 3)],
    accepting: &[1, 2],
};

/// Two states that are reached alike, and lead on by different letters.
const ALIKE: Small<'static> = Small {
    states: 4,
    labels: 3,
    moves: &[(0, 0, 1), (0, 0, 2), (1, 1, 3), (2, 2, 3), (3, 0, 3)],
    accepting: &[3],
};

/// A transition with a better one, and the state that it leads to.
const BETTER: Small<'static> = Small {
    states: 3,
    labels: 3,
    moves: &[(0, 0, 1), (0, 0, 2), (1, 1, 1), (2, 1, 2), (2, 2, 2)],
    accepting: &[1, 2],
};

/// Two states in turn, one of them accepting: the delayed relation alone joins them.
const TURNS: Small<'static> = Small {
    states: 2,
    labels: 1,
    moves: &[(0, 0, 1), (1, 0, 0)],
    accepting: &[0],
};

/// Nothing to do.
const LOOP: Small<'static> = Small {
    states: 1,
    labels: 1,
    moves: &[(0, 0, 0)],
    accepting: &[0],
};

/// An accepting state on no cycle.
const STILL: Small<'static> = Small {
    states: 1,
    labels: 0,
    moves: &[],
    accepting: &[0],
};

#[test]
fn small_automata_are_reduced(rt: HostRuntime) -> Result<(), Fail> {
    let alloc = rt.alloc();
    let rows = [
        (&FORK, Mode::Buchi, 1, (2, 2, 2)),
        (&FORK, Mode::Finite, 3, (2, 2, 2)),
        (&ALIKE, Mode::Buchi, 1, (3, 4, 1)),
        (&ALIKE, Mode::Finite, 2, (3, 4, 1)),
        (&BETTER, Mode::Buchi, 1, (2, 3, 3)),
        (&BETTER, Mode::Finite, 2, (2, 3, 3)),
        (&TURNS, Mode::Buchi, 3, (1, 1, 1)),
        (&TURNS, Mode::Finite, 3, (2, 2, 0)),
        (&LOOP, Mode::Buchi, 6, (1, 1, 0)),
        (&STILL, Mode::Buchi, 2, (1, 0, 1)),
        (&STILL, Mode::Finite, 2, (1, 0, 0)),
    ];
    for (small, mode, look, left) in rows {
        assert_eq!(rt; counts(alloc, small, mode, look)?, Some(left));
    }
    Ok(())
}
