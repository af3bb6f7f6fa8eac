//! Rounds of the game of looking ahead: that the calls succeed, and what known rounds answer.

use auto_core::{Auto, List, Memory};
use bit_rel::Rel;
use look_round::{Forward, Scratch, Side, round_holds};
use std::alloc::Global;
use std::test::Fail;
use test_inputs::{Small, built, step};

/// The round from `p` and `q` with these pairs as the relation; None where a number is out of
/// range.
fn round(
    alloc: Global,
    small: &Small<'_>,
    pairs: &[(u32, u32)],
    look: u32,
    p: u32,
    q: u32,
) -> Result<Option<bool>, Fail> {
    round_of(alloc, &built(alloc, small)?, pairs, look, p, q)
}

/// The same of an automaton.
fn round_of(
    alloc: Global,
    automaton: &Auto,
    pairs: &[(u32, u32)],
    look: u32,
    p: u32,
    q: u32,
) -> Result<Option<bool>, Fail> {
    let states = automaton.states();
    if p >= states || q >= states || look < 1 || look > 6 {
        return Ok(None);
    }
    let mut rel = Rel::empty(alloc, states)?;
    for (left, right) in pairs {
        if *left < rel.size() {
            if *right < rel.size() {
                rel.set(*left, *right);
            }
        }
    }
    let mut scratch = Scratch::new(alloc, automaton, look)?;
    if rel.size() == states {
        return Ok(Some(round_holds(&Forward, automaton, &rel, look, p, q, &mut scratch)));
    }
    Ok(None)
}

/// Two states with a loop, the first of them accepting.
const LOOPS: Small<'static> = Small {
    states: 2,
    labels: 1,
    moves: &[(0, 0, 0), (1, 0, 1)],
    accepting: &[0],
};

#[test]
fn acceptance_is_compared(rt: HostRuntime) -> Result<(), Fail> {
    let alloc = rt.alloc();
    let all = [(0, 0), (0, 1), (1, 0), (1, 1)];
    let rows: [(&[(u32, u32)], u32, u32, bool); 3] = [
        (&all, 1, 0, true),
        (&all, 0, 1, false),
        (&[], 1, 1, false),
    ];
    for look in [1, 2, 6] {
        for (pairs, p, q, told) in rows {
            assert_eq!(rt; round(alloc, &LOOPS, pairs, look, p, q)?, Some(told));
        }
    }
    Ok(())
}

/// 0 leads by the first letter to a dead end, 2 has a loop by the second, and 3 leads to 2 by the
/// first.
const DEAD_END: Small<'static> = Small {
    states: 4,
    labels: 2,
    moves: &[(0, 0, 1), (2, 1, 2), (3, 0, 2)],
    accepting: &[],
};

#[test]
fn dead_ends_are_answered(rt: HostRuntime) -> Result<(), Fail> {
    let alloc = rt.alloc();
    let rows: [(&[(u32, u32)], u32, u32, bool); 4] = [
        (&[(1, 2)], 0, 2, false),
        (&[(1, 2)], 0, 3, true),
        (&[], 0, 3, false),
        (&[], 1, 2, true),
    ];
    for look in [1, 2, 6] {
        for (pairs, p, q, told) in rows {
            assert_eq!(rt; round(alloc, &DEAD_END, pairs, look, p, q)?, Some(told));
        }
    }
    Ok(())
}

/// 0 chooses after its first letter, 4 with it.
const CHOICE: Small<'static> = Small {
    states: 7,
    labels: 3,
    moves: &[
        (0, 0, 1),
        (1, 1, 2),
        (1, 2, 3),
        (4, 0, 5),
        (5, 1, 2),
        (4, 0, 6),
        (6, 2, 3),
    ],
    accepting: &[],
};

#[test]
fn looking_ahead_helps(rt: HostRuntime) -> Result<(), Fail> {
    let alloc = rt.alloc();
    let same = [(2, 2), (3, 3)];
    let rows = [
        (&same[..], 1, false),
        (&same[..], 2, true),
        (&same[..], 6, true),
        (&same[..1], 6, false),
    ];
    for (pairs, look, told) in rows {
        assert_eq!(rt; round(alloc, &CHOICE, pairs, look, 0, 4)?, Some(told));
    }
    Ok(())
}

/// A ring of two states, the first of them accepting.
const RING: Small<'static> = Small {
    states: 2,
    labels: 1,
    moves: &[(0, 0, 1), (1, 0, 0)],
    accepting: &[0],
};

/// One state that does anything, and one that accepts by the first letter alone.
const GUESS: Small<'static> = Small {
    states: 2,
    labels: 2,
    moves: &[(0, 0, 0), (0, 1, 0), (0, 0, 1), (1, 0, 1)],
    accepting: &[1],
};

#[test]
fn words_of_one_letter(rt: HostRuntime) -> Result<(), Fail> {
    let alloc = rt.alloc();
    let crossed = [(0, 1), (1, 0)];
    let rows = [
        (&crossed[..], 1, 0, 1, true),
        (&crossed[..], 1, 1, 0, false),
        (&crossed[..1], 2, 0, 1, false),
    ];
    for (pairs, look, p, q, told) in rows {
        assert_eq!(rt; round(alloc, &RING, pairs, look, p, q)?, Some(told));
    }
    let same = [(0, 0), (1, 1)];
    for (p, q, told) in [(0, 0, true), (1, 0, true), (0, 1, false), (1, 1, true)] {
        assert_eq!(rt; round(alloc, &GUESS, &same, 1, p, q)?, Some(told));
    }
    Ok(())
}

/// 1 leads by the first letter to 3, 2 to 4 or 5; then all lead to 6.
const TWO_MOVES: Small<'static> = Small {
    states: 7,
    labels: 4,
    moves: &[
        (1, 0, 3),
        (2, 0, 4),
        (2, 0, 5),
        (3, 1, 6),
        (3, 2, 6),
        (4, 1, 6),
        (5, 2, 6),
        (6, 3, 6),
    ],
    accepting: &[0],
};

#[test]
fn a_choice_is_seen_at_two_moves(rt: HostRuntime) -> Result<(), Fail> {
    let alloc = rt.alloc();
    let pairs = [(4, 3), (5, 3), (6, 6)];
    for (look, p, q, told) in [
        (1, 1, 2, false),
        (2, 1, 2, true),
        (1, 2, 1, true),
        (2, 4, 5, false),
    ] {
        assert_eq!(rt; round(alloc, &TWO_MOVES, &pairs, look, p, q)?, Some(told));
    }
    Ok(())
}

/// A ring of five states by one letter, each with a loop by another.
const LOOPED_RING: Small<'static> = Small {
    states: 5,
    labels: 2,
    moves: &[
        (0, 0, 1),
        (0, 1, 0),
        (1, 0, 2),
        (1, 1, 1),
        (2, 0, 3),
        (2, 1, 2),
        (3, 0, 4),
        (3, 1, 3),
        (4, 0, 0),
        (4, 1, 4),
    ],
    accepting: &[0],
};

#[test]
fn a_ring_with_loops(rt: HostRuntime) -> Result<(), Fail> {
    let alloc = rt.alloc();
    let pairs = [(1, 2), (2, 3)];
    for (p, q, told) in [(1, 2, true), (2, 3, false), (0, 1, false)] {
        assert_eq!(rt; round(alloc, &LOOPED_RING, &pairs, 1, p, q)?, Some(told));
    }
    Ok(())
}

/// A line of so many states by one letter.
fn line(alloc: Global, states: u32) -> Result<Auto, Fail> {
    let mut moves = List::new(alloc);
    for p in 1..states {
        moves.push(step(p - 1, 0, p))?;
    }
    if moves.as_slice().len() > 1000 {
        return Err(Memory)?;
    }
    Ok(Auto::build(alloc, states, 1, 0, moves.as_slice(), &[])?)
}

#[test]
fn rows_of_two_and_three_words(rt: HostRuntime) -> Result<(), Fail> {
    let alloc = rt.alloc();
    // the sixth move leads past the end of a word, or to the dead end
    for (states, from, to) in [(65, 58, 64), (130, 60, 66), (130, 123, 129)] {
        let automaton = line(alloc, states)?;
        let pair = [(to, to)];
        for (look, p, told) in [(6, from, true), (5, from, false), (6, to - 2, true)] {
            assert_eq!(rt; round_of(alloc, &automaton, &pair, look, p, p)?, Some(told));
        }
        assert_eq!(rt; moves_of(&automaton, from), Some(1));
    }
    Ok(())
}

/// How many moves the state has; None for a number that is out of range.
fn moves_of(automaton: &Auto, p: u32) -> Option<u32> {
    if p < automaton.states() {
        Some(Forward.moves(automaton, p))
    } else {
        None
    }
}
