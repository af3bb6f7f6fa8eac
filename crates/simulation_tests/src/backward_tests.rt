//! The greatest backward relation: that the calls succeed, and what known automata give.

use auto_core::{Auto, List, Memory, Trans};
use backward_sim::{preorder, relation};
use bit_rel::Rel;
use std::alloc::Global;
use std::test::Fail;
use test_inputs::{held, step};

/// States 3 and 4 are reached by the same words, but 4 remembers with its last letter what 3
/// remembers with the one before.
fn rememberer(alloc: Global) -> Result<List<Trans>, Memory> {
    let mut moves = List::new(alloc);
    for (source, label, target) in [(0, 0, 1), (0, 1, 2), (1, 2, 3), (2, 2, 3)] {
        moves.push(step(source, label, target))?;
    }
    for (source, label, target) in [(0, 0, 5), (0, 1, 5), (5, 2, 4), (3, 3, 6), (4, 3, 6)] {
        moves.push(step(source, label, target))?;
    }
    moves.push(step(6, 4, 6))?;
    Ok(moves)
}

#[test]
fn looking_back_joins_states(rt: HostRuntime) -> Result<(), Fail> {
    let alloc = rt.alloc();
    let moves = rememberer(alloc)?;
    if moves.as_slice().len() < 100 {
        let automaton = Auto::build(alloc, 7, 5, 0, moves.as_slice(), &[6])?;
        let near = relation(alloc, &automaton, 1)?;
        assert_eq!(rt;
            (held(&near, 3, 4), held(&near, 4, 3)),
            (Some(true), Some(false))
        );
        let far = relation(alloc, &automaton, 2)?;
        assert_eq!(rt;
            (held(&far, 3, 4), held(&far, 4, 3)),
            (Some(true), Some(true))
        );
        let closed = preorder(alloc, &automaton, 2)?;
        assert_eq!(rt;
            (
                held(&closed, 5, 5),
                held(&closed, 0, 6),
                held(&closed, 6, 0)
            ),
            (Some(true), Some(false), Some(false))
        );
    }
    Ok(())
}
