//! Announced letters: what a second one lets become one.

use auto_core::{Auto, Mode};
use reduce_loop::{MergeBy, Reduced, Step, is_same_automaton, reduce_ahead};
use std::test::Fail;
use test_inputs::{FORKED, built, step};

/// With how many announced letters the first step merged by the delayed relation; None where it
/// didn't.
fn letters_of(reduced: &Reduced) -> Option<u32> {
    match reduced.log.as_slice().first() {
        Some(
            Step::Merge {
                by: MergeBy::Delayed { ranks },
                classes: _,
            },
        ) => Some(ranks.letters()),
        _ => None,
    }
}

#[test]
fn a_second_letter_joins_what_one_does_not(rt: HostRuntime) -> Result<(), Fail> {
    let alloc = rt.alloc();
    let automaton = built(alloc, &FORKED)?;
    let moves = [
        step(0, 0, 1),
        step(0, 1, 1),
        step(0, 2, 2),
        step(0, 3, 3),
        step(0, 4, 4),
        step(1, 5, 2),
        step(2, 6, 5),
        step(2, 7, 5),
        step(3, 6, 5),
        step(4, 7, 5),
        step(5, 8, 5),
    ];
    let joined = Auto::build(alloc, 6, 9, 0, &moves, &[5])?;
    if automaton.states() == 7 {
        let one = reduce_ahead(alloc, &automaton, Mode::Buchi, 1, 1)?;
        assert!(rt; is_same_automaton(&one.auto, &automaton));
        let two = reduce_ahead(alloc, &automaton, Mode::Buchi, 1, 2)?;
        assert!(rt; is_same_automaton(&two.auto, &joined));
        assert_eq!(rt; letters_of(&two), Some(2));
    }
    Ok(())
}
