//! The greatest forward relation: that the calls succeed, and what known automata give.

use auto_core::{Auto, List, Memory, Trans};
use bit_rel::Rel;
use direct_sim::{preorder, relation};
use std::alloc::Global;
use std::test::Fail;
use test_inputs::{held, step};

/// States 1 and 2 do the same, but 2 chooses with its first letter what 1 chooses with its second.
fn chooser(alloc: Global) -> Result<List<Trans>, Memory> {
    let mut moves = List::new(alloc);
    for (label, target) in [(0, 1), (1, 2), (2, 3), (3, 4), (4, 5)] {
        moves.push(step(0, label, target))?;
    }
    for (source, label, target) in [(1, 5, 3), (2, 5, 4), (2, 5, 5), (3, 6, 6), (3, 7, 6)] {
        moves.push(step(source, label, target))?;
    }
    for (source, label) in [(4, 6), (5, 7), (6, 8)] {
        moves.push(step(source, label, 6))?;
    }
    Ok(moves)
}

/// The number of pairs of two different states that the relation holds both ways, each counted
/// twice.
fn equal_in_row(rel: &Rel, p: u32) -> u64 {
    let mut count = 0u64;
    for q in 0..rel.size() {
        if p < rel.size() && p != q {
            if rel.both_ways(p, q) {
                count = count.wrapping_add(1);
            }
        }
    }
    count
}

fn equal(rel: &Rel) -> u64 {
    let mut count = 0u64;
    for p in 0..rel.size() {
        count = count.wrapping_add(equal_in_row(rel, p));
    }
    count
}

#[test]
fn looking_ahead_joins_states(rt: HostRuntime) -> Result<(), Fail> {
    let alloc = rt.alloc();
    let moves = chooser(alloc)?;
    if moves.as_slice().len() < 100 {
        let automaton = Auto::build(alloc, 7, 9, 0, moves.as_slice(), &[6])?;
        let near = preorder(alloc, &automaton, 1)?;
        assert_eq!(rt; (near.size(), equal(&near)), (7, 0));
        assert_eq!(rt;
            (held(&near, 2, 1), held(&near, 1, 2)),
            (Some(true), Some(false))
        );
        for look in [2, 3, 6] {
            let far = preorder(alloc, &automaton, look)?;
            assert_eq!(rt; equal(&far), 2);
            assert_eq!(rt;
                (held(&far, 1, 2), held(&far, 2, 1)),
                (Some(true), Some(true))
            );
        }
        let greatest = relation(alloc, &automaton, 2)?;
        assert_eq!(rt; held(&greatest, 1, 2), Some(true));
    }
    Ok(())
}
