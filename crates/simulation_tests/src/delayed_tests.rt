//! The greatest delayed relation: that the calls succeed, and what known automata give.

ghost use Rattle.std.specs.Prelude.{◌≡◌, Some, []};
ghost use Rattle.delayed_sim.specs.Rankings.{ranked_triple};

use crate::program_tests::found;
use crate::relation_tests::pairs_in;
use auto_core::{Auto, List, Memory, Trans};
use delayed_sim::{Delayed, RankedTriple, holds};
use reduce_loop::greatest_delayed;
use std::alloc::Global;
use std::test::Fail;
use test_inputs::{held, step};

/// The transitions of a ring of so many states by one letter.
fn ring(alloc: Global, n: u32) -> Result<List<Trans>, Memory> {
    let mut moves = List::new(alloc);
    for i in 0..n {
        let next = if i.wrapping_add(1) == n {
            0
        } else {
            i.wrapping_add(1)
        };
        moves.push(Trans {
            source: i,
            label: 0,
            target: next,
        })?;
    }
    Ok(moves)
}

/// About a third of the transitions of five states by two letters, chosen by the number.
fn chosen(alloc: Global, number: u32) -> Result<List<Trans>, Memory> {
    let mut moves = List::new(alloc);
    let mut drawn = number;
    for place in 0..50 {
        drawn = drawn.wrapping_mul(1_664_525).wrapping_add(1_013_904_223);
        if drawn / 65_536 % 3 == 0 {
            moves.push(step(place / 10, place / 5 % 2, place % 5))?;
        }
    }
    Ok(moves)
}

/// The rank of the pair, with one announced letter; None where a number is out of range.
fn rank(delayed: &Delayed, p: u32, q: u32) -> Option<Option<u32>> {
    if delayed.letters() == 1 && p < delayed.states() && q < delayed.states() {
        Some(delayed.rank(p, &[], q))
    } else {
        None
    }
}

/// A triple with the empty word, that of one announced letter.
fn triple(alloc: Global, left: u32, right: u32, rank: u32) -> RankedTriple
    ensures { result ≡ ranked_triple left [] right (Some rank) }
{
    RankedTriple {
        left,
        ahead: List::new(alloc),
        right,
        rank: Some(rank),
    }
}

#[test]
fn a_ring_waits_for_its_accepting_state(rt: HostRuntime) -> Result<(), Fail> {
    let alloc = rt.alloc();
    let moves = ring(alloc, 60)?;
    if moves.as_slice().len() < 100 {
        let automaton = Auto::build(alloc, 60, 1, 0, moves.as_slice(), &[0])?;
        let delayed = greatest_delayed(alloc, &automaton, 1)?;
        assert_eq!(rt; rank(&delayed, 5, 0), Some(Some(0)));
        assert_eq!(rt; rank(&delayed, 0, 1), Some(Some(59)));
        assert_eq!(rt; rank(&delayed, 7, 59), Some(Some(1)));
        assert!(rt; holds(&automaton, &delayed));
    }
    Ok(())
}

#[test]
fn pairs_are_told_without_their_ranks(rt: HostRuntime) -> Result<(), Fail> {
    let alloc = rt.alloc();
    let turns = Auto::build(alloc, 2, 1, 0, &[step(0, 0, 1), step(1, 0, 0)], &[0])?;
    let all = greatest_delayed(alloc, &turns, 1)?.relation(alloc)?;
    assert_eq!(rt; (all.size(), pairs_in(&all)), (2, 4));
    // each state stays where it is, and 1 never comes to an accepting one
    let loops = Auto::build(alloc, 2, 1, 0, &[step(0, 0, 0), step(1, 0, 1)], &[0])?;
    let some = greatest_delayed(alloc, &loops, 1)?.relation(alloc)?;
    assert_eq!(rt; (some.size(), pairs_in(&some)), (2, 3));
    assert_eq!(rt;
        (held(&some, 1, 0), held(&some, 0, 1)),
        (Some(true), Some(false))
    );
    Ok(())
}

#[test]
fn a_rank_too_low_is_not_right(rt: HostRuntime) -> Result<(), Fail> {
    let alloc = rt.alloc();
    let moves = ring(alloc, 2)?;
    if moves.as_slice().len() < 100 {
        let automaton = Auto::build(alloc, 2, 1, 0, moves.as_slice(), &[0])?;
        for (low, right) in [(1, true), (0, false)] {
            let triples = [
                triple(alloc, 0, 0, 0),
                triple(alloc, 0, 1, 1),
                triple(alloc, 1, 0, 0),
                triple(alloc, 1, 1, low),
            ];
            let delayed = Delayed::build(alloc, 2, 1, 1, &triples)?;
            assert_eq!(rt; holds(&automaton, &delayed), right);
        }
    }
    Ok(())
}

#[test]
fn the_same_ranks_by_both_programs(rt: HostRuntime) -> Result<(), Fail> {
    let alloc = rt.alloc();
    // ranks rise one by one up to the next accepting state
    let moves = ring(alloc, 12)?;
    if moves.as_slice().len() < 100 {
        let waits = Auto::build(alloc, 12, 1, 0, moves.as_slice(), &[0, 5])?;
        // without an accepting state no pair has a rank, and each is related
        let never = Auto::build(alloc, 12, 1, 0, moves.as_slice(), &[])?;
        for asked in 1..5 {
            assert_eq!(rt; found(alloc, &waits, asked)?, Some(144));
            assert_eq!(rt; found(alloc, &never, asked)?, Some(144));
        }
    }
    for number in 0..10 {
        let moves = chosen(alloc, number)?;
        if moves.as_slice().len() < 100 {
            let some = Auto::build(alloc, 5, 2, 0, moves.as_slice(), &[number % 5])?;
            let more = Auto::build(alloc, 5, 2, 0, moves.as_slice(), &[1, 3, 4])?;
            for asked in 1..4 {
                assert!(rt; found(alloc, &some, asked)?.is_some());
                assert!(rt; found(alloc, &more, asked)?.is_some());
            }
        }
    }
    Ok(())
}
