//! Relations: that the calls succeed, and what known ones give, also where rows take two and three
//! words.

use auto_core::Memory;
use bit_rel::Rel;
use std::alloc::Global;
use std::test::Fail;

/// Each state but the last is related to the next one.
fn chain(alloc: Global, n: u32) -> Result<Rel, Memory> {
    let mut rel = Rel::empty(alloc, n)?;
    for q in 1..n {
        if q < rel.size() {
            rel.set(q - 1, q);
        }
    }
    Ok(rel)
}

fn pairs_in_row(rel: &Rel, p: u32) -> u64 {
    let mut count = 0u64;
    for q in 0..rel.size() {
        if p < rel.size() {
            if rel.get(p, q) {
                count = count.wrapping_add(1);
            }
        }
    }
    count
}

/// The number of pairs.
pub(crate) fn pairs_in(rel: &Rel) -> u64 {
    let mut count = 0u64;
    for p in 0..rel.size() {
        count = count.wrapping_add(pairs_in_row(rel, p));
    }
    count
}

/// How many pairs a chain of so many states has, a copy of it, its closure, and the strict part of
/// that.
fn counts_of_chain(alloc: Global, n: u32) -> Result<(u64, u64, u64, u64), Memory> {
    let mut rel = chain(alloc, n)?;
    let links = pairs_in(&rel);
    let copied = pairs_in(&rel.copied(alloc)?);
    rel.close();
    let orders = pairs_in(&rel);
    Ok((links, copied, orders, pairs_in(&rel.strict(alloc)?)))
}

#[test]
fn chains_close(rt: HostRuntime) -> Result<(), Fail> {
    let alloc = rt.alloc();
    let rows = [
        (2, (1, 1, 3, 1)),
        (65, (64, 64, 2145, 2080)),
        (130, (129, 129, 8515, 8385)),
    ];
    for (n, counts) in rows {
        assert_eq!(rt; counts_of_chain(alloc, n)?, counts);
    }
    Ok(())
}

/// Of the closure of a chain of so many states: whether 0 is related to 1, 1 to 0, both to one
/// another, 1 to itself; and both to one another once 1 is related to 0.
fn ways_in_chain(alloc: Global, n: u32) -> Result<Option<[bool; 5]>, Memory> {
    let mut rel = chain(alloc, n)?;
    rel.close();
    if rel.size() < 2 {
        return Ok(None);
    }
    let (ahead, back) = (rel.get(0, 1), rel.get(1, 0));
    let (both, itself) = (rel.both_ways(0, 1), rel.both_ways(1, 1));
    rel.set(1, 0);
    rel.close();
    Ok(Some([ahead, back, both, itself, rel.both_ways(0, 1)]))
}

#[test]
fn a_way_back_joins_a_chain(rt: HostRuntime) -> Result<(), Fail> {
    let alloc = rt.alloc();
    for n in [2, 65, 130] {
        let ways = [true, false, false, true, true];
        assert_eq!(rt; ways_in_chain(alloc, n)?, Some(ways));
    }
    Ok(())
}

/// How many pairs the closure of a ring of so many states has, its strict part, and what is left
/// without one pair; and the first words of the last row before the closure and after that pair was
/// cleared.
fn ring_counts(
    alloc: Global,
    n: u32,
) -> Result<Option<(u64, u64, u64, Option<u64>, Option<u64>)>, Memory> {
    let mut rel = chain(alloc, n)?;
    if rel.size() < 1 {
        return Ok(None);
    }
    let last = rel.size() - 1;
    rel.set(last, 0);
    let before = rel.row(last).first().copied();
    rel.close();
    let all = pairs_in(&rel);
    let strict = pairs_in(&rel.strict(alloc)?);
    rel.clear(last, 0);
    let after = rel.row(last).first().copied();
    Ok(Some((all, strict, pairs_in(&rel), before, after)))
}

#[test]
fn rings_relate_all(rt: HostRuntime) -> Result<(), Fail> {
    let alloc = rt.alloc();
    for (n, all, less) in [(65, 4225, 4224), (130, 16900, 16899)] {
        let counts = (all, 0, less, Some(1), Some(u64::MAX - 1));
        assert_eq!(rt; ring_counts(alloc, n)?, Some(counts));
    }
    Ok(())
}

/// The relation with these pairs, as far as there are such states.
fn related(alloc: Global, n: u32, pairs: &[(u32, u32)]) -> Result<Rel, Memory> {
    let mut rel = Rel::empty(alloc, n)?;
    for (p, q) in pairs {
        if *p < rel.size() && *q < rel.size() {
            rel.set(*p, *q);
        }
    }
    Ok(rel)
}

/// How many pairs there are, how many in the closure, how many in the strict part of that, and
/// whether 0 and 1 are related both ways.
fn order_of(
    alloc: Global,
    n: u32,
    pairs: &[(u32, u32)],
) -> Result<(u64, u64, u64, Option<bool>), Memory> {
    let mut rel = related(alloc, n, pairs)?;
    let before = pairs_in(&rel);
    rel.close();
    let strict = pairs_in(&rel.strict(alloc)?);
    let both = if rel.size() < 2 {
        None
    } else {
        Some(rel.both_ways(0, 1))
    };
    Ok((before, pairs_in(&rel), strict, both))
}

#[test]
fn known_orders(rt: HostRuntime) -> Result<(), Fail> {
    let alloc = rt.alloc();
    let rows = [
        (3, [(0, 0), (1, 1), (1, 2), (2, 2)], (4, 4, 1, Some(false))),
        (2, [(0, 0), (0, 1), (1, 0), (1, 1)], (4, 4, 0, Some(true))),
    ];
    for (n, pairs, order) in rows {
        assert_eq!(rt; order_of(alloc, n, &pairs)?, order);
    }
    Ok(())
}

#[test]
fn no_states(rt: HostRuntime) -> Result<(), Fail> {
    let mut rel = Rel::empty(rt.alloc(), 0)?;
    rel.close();
    assert_eq!(rt; (rel.size(), pairs_in(&rel)), (0, 0));
    Ok(())
}
