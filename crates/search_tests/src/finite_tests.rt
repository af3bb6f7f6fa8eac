//! Finite words: decisions, checks of what they wrote, and reductions; and a run over a lasso.

use auto_core::{Auto, Lasso, List, Memory, Trans, Word};
use lasso_accept::{accepts_word, run_of};
use std::alloc::Global;
use std::test::Fail;

fn step(source: u32, label: u32, target: u32) -> Trans {
    Trans {
        source,
        label,
        target,
    }
}

fn word(alloc: Global, letters: &[u32]) -> Result<Word, Memory> {
    let mut list = List::new(alloc);
    for letter in letters {
        list.push(*letter)?;
    }
    Ok(list)
}

/// How often the run goes through the loop before and after, and how many places it has; zeros
/// where there is no run.
fn counts(
    alloc: Global,
    automaton: &Auto,
    prefix: &[u32],
    turn: &[u32],
) -> Result<(u64, u64, usize), Memory> {
    let lasso = Lasso {
        prefix: word(alloc, prefix)?,
        turn: word(alloc, turn)?,
    };
    match run_of(alloc, automaton, &lasso)? {
        Some(run) => Ok((run.before, run.turns, run.places.as_slice().len())),
        None => Ok((0, 0, 0)),
    }
}

#[test]
fn a_run_over_a_ring_takes_its_three_turns(rt: HostRuntime) -> Result<(), Fail> {
    let alloc = rt.alloc();
    let moves = [step(0, 0, 1), step(1, 0, 2), step(2, 0, 0)];
    let automaton = Auto::build(alloc, 3, 1, 0, &moves, &[0])?;
    assert_eq!(rt; counts(alloc, &automaton, &[], &[0])?, (2, 3, 6));
    assert_eq!(rt; counts(alloc, &automaton, &[0, 0], &[0, 0])?, (1, 3, 11));
    // a letter without a transition
    assert_eq!(rt; counts(alloc, &automaton, &[0, 1], &[0])?, (0, 0, 0));
    Ok(())
}

#[test]
fn a_ring_accepts_words_of_whole_turns(rt: HostRuntime) -> Result<(), Fail> {
    let alloc = rt.alloc();
    let moves = [step(0, 0, 1), step(1, 0, 2), step(2, 0, 0)];
    let automaton = Auto::build(alloc, 3, 1, 0, &moves, &[0])?;
    let rows: [(&[u32], bool); 4] = [
        (&[], true),
        (&[0, 0], false),
        (&[0, 0, 0], true),
        (&[7], false),
    ];
    for (letters, accepted) in rows {
        assert_eq!(rt;
            accepts_word(alloc, &automaton, &word(alloc, letters)?)?,
            accepted
        );
    }
    Ok(())
}
