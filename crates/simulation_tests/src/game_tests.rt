//! The greatest relation of the game: that the calls succeed, that both ways to it give the same,
//! and what known automata give.

use crate::relation_tests::pairs_in;
use auto_core::{Auto, List, Memory, Trans};
use bit_rel::Rel;
use look_game::{greatest, greatest_by_rounds};
use look_round::{Backward, Forward};
use std::alloc::Global;
use std::test::Fail;
use test_inputs::step;

fn same_row(rel: &Rel, other: &Rel, p: u32) -> bool {
    for q in 0..rel.size() {
        if p < rel.size() && p < other.size() && q < other.size() {
            if rel.get(p, q) != other.get(p, q) {
                return false;
            }
        }
    }
    true
}

fn same(rel: &Rel, other: &Rel) -> bool {
    for p in 0..rel.size() {
        if !same_row(rel, other, p) {
            return false;
        }
    }
    rel.size() == other.size()
}

/// The number of pairs of the greatest forward relation; None where both ways do not give the same,
/// forward or backward, or the lookahead is none.
fn pairs(alloc: Global, automaton: &Auto, look: u32) -> Result<Option<u64>, Memory> {
    if 1 <= look && look <= 6 {
        let rel = greatest(alloc, &Forward, automaton, look)?;
        let plain = greatest_by_rounds(alloc, &Forward, automaton, look)?;
        let back = greatest(alloc, &Backward, automaton, look)?;
        let plain_back = greatest_by_rounds(alloc, &Backward, automaton, look)?;
        if same(&rel, &plain) && same(&back, &plain_back) {
            return Ok(Some(pairs_in(&rel)));
        }
    }
    Ok(None)
}

#[test]
fn few_states(rt: HostRuntime) -> Result<(), Fail> {
    let alloc = rt.alloc();
    // both states have a loop, and the first is accepting
    let loops = [step(0, 0, 0), step(1, 0, 1)];
    let both = Auto::build(alloc, 2, 1, 0, &loops, &[0])?;
    // the second has no move
    let one = Auto::build(alloc, 2, 1, 0, &loops[..1], &[])?;
    let alone = Auto::build(alloc, 1, 1, 0, &[], &[0])?;
    for look in [1, 2, 6] {
        assert_eq!(rt; pairs(alloc, &both, look)?, Some(3));
        assert_eq!(rt; pairs(alloc, &one, look)?, Some(3));
        assert_eq!(rt; pairs(alloc, &alone, look)?, Some(1));
    }
    Ok(())
}

#[test]
fn looking_ahead_relates_more(rt: HostRuntime) -> Result<(), Fail> {
    let alloc = rt.alloc();
    // 0 chooses after its first letter, 4 with it
    let moves = [
        step(0, 0, 1),
        step(1, 1, 2),
        step(1, 2, 3),
        step(4, 0, 5),
        step(5, 1, 2),
        step(4, 0, 6),
        step(6, 2, 3),
    ];
    let automaton = Auto::build(alloc, 7, 3, 0, &moves, &[])?;
    // two dead ends are below all states, and 5 and 6 below 1; each of the rest is below itself,
    // and 4 below 0
    assert_eq!(rt; pairs(alloc, &automaton, 1)?, Some(22));
    // 0 is below 4 too
    assert_eq!(rt; pairs(alloc, &automaton, 2)?, Some(23));
    assert_eq!(rt; pairs(alloc, &automaton, 6)?, Some(23));
    Ok(())
}

/// A line of `n` states by one letter, after each state but the last a loop by another letter if
/// `looped` says so.
fn line(alloc: Global, n: u32, looped: bool) -> Result<List<Trans>, Memory> {
    let mut moves = List::new(alloc);
    for q in 1..n {
        moves.push(step(q - 1, 0, q))?;
        if looped {
            moves.push(step(q - 1, 1, q - 1))?;
        }
    }
    Ok(moves)
}

#[test]
fn rows_of_two_and_three_words(rt: HostRuntime) -> Result<(), Fail> {
    let alloc = rt.alloc();
    for (n, looped, orders) in [
        (65, false, 2145),
        (65, true, 2145),
        (130, false, 8515),
        (130, true, 8515),
    ] {
        let moves = line(alloc, n, looped)?;
        if moves.as_slice().len() < 1000 {
            // a state is below those that are as far from the end or farther
            let automaton = Auto::build(alloc, n, 2, 0, moves.as_slice(), &[])?;
            assert_eq!(rt; pairs(alloc, &automaton, 6)?, Some(orders));
        }
    }
    Ok(())
}
