//! The greatest simulation of one automaton by another, called directly.

use crate::ramsey_tests::pair_of;
use auto_core::Memory;
use ba_format::Joined;
use cross_sim::relation;
use std::alloc::Global;
use std::test::Fail;

/// The pairs of the greatest cross relation, each as a number of two digits, in order; none for two
/// that are not small, or have not the labels of their pair.
fn greatest_pairs(alloc: Global, pair: &Joined, look: u32) -> Result<Vec<u32>, Memory> {
    let mut pairs = Vec::new(alloc);
    let labels = pair.labels.count();
    if pair.first.labels() == labels
        && pair.second.labels() == labels
        && pair.first.states() < 5
        && pair.second.states() < 5
        && pair.first.transitions().len() < 9
        && pair.second.transitions().len() < 9
        && 1 <= look
        && look <= 6
    {
        let rel = relation(alloc, pair, look)?;
        for p in 0..rel.size() {
            for q in 0..rel.size() {
                if rel.get(p, q) {
                    pairs.push(p.wrapping_mul(10).wrapping_add(q))?;
                }
            }
        }
    }
    Ok(pairs)
}

#[test]
fn the_greatest_relation_has_just_its_pairs(rt: HostRuntime) -> Result<(), Fail> {
    let alloc = rt.alloc();
    // the first's 0 may stay or go to 1, which is accepting and a dead end; the second's 0 goes to
    // 1, which is accepting and stays
    let first = "0\na,0->0\na,0->1\n1\n";
    let second = "0\na,0->1\na,1->1\n1\n";
    let pair = pair_of(alloc, first, second)?;
    let both_ways = pair_of(alloc, second, first)?;
    for look in [1, 2, 6] {
        let pairs = greatest_pairs(alloc, &pair, look)?;
        assert_eq!(rt; pairs.as_slice(), [2, 3, 13].as_slice(), "{look}");
        // no state of the first answers the second's 0, which goes to a state that goes on and is
        // accepting
        assert!(rt;
            greatest_pairs(alloc, &both_ways, look)?.is_empty(),
            "{look}"
        );
    }
    Ok(())
}
