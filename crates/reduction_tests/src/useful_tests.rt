//! Useful states: that the calls succeed, and what small automata keep.

use auto_core::{Auto, Memory, Mode, StateSet};
use std::alloc::Global;
use std::test::Fail;
use test_inputs::step;
use useful_states::{keep, trim, useful};

/// How many states are useful, and how many states and transitions the trimmed automaton has.
fn counts(alloc: Global, automaton: &Auto, mode: Mode) -> Result<(u32, u32, usize), Memory> {
    let states = useful(alloc, automaton, mode)?;
    let mut count = 0u32;
    for state in 0..automaton.states() {
        if states.has(state) {
            count = count.wrapping_add(1);
        }
    }
    let trimmed = trim(alloc, automaton, mode)?;
    Ok((count, trimmed.states(), trimmed.transitions().len()))
}

fn first_accepts(automaton: &Auto) -> bool {
    0 < automaton.states() && automaton.accepting(0)
}

#[test]
fn small_automata_are_trimmed(rt: HostRuntime) -> Result<(), Fail> {
    let alloc = rt.alloc();
    // an accepting state that is no cycle's
    let ends = Auto::build(alloc, 2, 1, 0, &[step(0, 0, 1)], &[1])?;
    // no transition
    let still = Auto::build(alloc, 1, 0, 0, &[], &[0])?;
    // a ring, a state that is not reached, and one that reaches nothing
    let moves = [step(1, 0, 2), step(2, 0, 1), step(0, 0, 1), step(2, 0, 3)];
    let ring = Auto::build(alloc, 4, 1, 1, &moves, &[2])?;
    let rows = [
        (&ends, Mode::Buchi, (0, 1, 0)),
        (&ends, Mode::Finite, (2, 2, 1)),
        (&still, Mode::Buchi, (0, 1, 0)),
        (&ring, Mode::Buchi, (2, 2, 2)),
        (&ring, Mode::Finite, (2, 2, 2)),
    ];
    for (automaton, mode, left) in rows {
        assert_eq!(rt; counts(alloc, automaton, mode)?, left);
    }
    for (mode, accepts) in [(Mode::Buchi, false), (Mode::Finite, true)] {
        assert_eq!(rt; first_accepts(&trim(alloc, &still, mode)?), accepts);
    }
    assert_eq!(rt; trim(alloc, &ring, Mode::Buchi)?.initial(), 0);
    Ok(())
}

#[test]
fn rows_of_two_and_three_words(rt: HostRuntime) -> Result<(), Fail> {
    let alloc = rt.alloc();
    for (states, before, last) in [(65, 63, 64), (130, 127, 129)] {
        let moves = [
            step(0, 0, before),
            step(before, 0, last),
            step(last, 1, before),
            step(0, 0, 5),
        ];
        let automaton = Auto::build(alloc, states, 2, 0, &moves, &[last, 5])?;
        assert_eq!(rt; counts(alloc, &automaton, Mode::Buchi)?, (3, 3, 3));
        assert_eq!(rt; counts(alloc, &automaton, Mode::Finite)?, (4, 4, 4));
    }
    Ok(())
}

#[test]
fn chosen_states_are_kept(rt: HostRuntime) -> Result<(), Fail> {
    let alloc = rt.alloc();
    let moves = [step(0, 0, 1), step(1, 0, 2), step(2, 1, 2)];
    let automaton = Auto::build(alloc, 3, 2, 0, &moves, &[1, 2])?;
    let mut kept = StateSet::new(alloc, 3)?;
    kept.add(2);
    let rest = keep(alloc, &automaton, &kept)?;
    assert_eq!(rt; (rest.states(), rest.labels(), rest.initial()), (2, 2, 0));
    assert_eq!(rt; rest.transitions(), [step(1, 1, 1)].as_slice());
    assert!(rt; !first_accepts(&rest));
    Ok(())
}
