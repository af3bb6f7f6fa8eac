//! Random pairs of automata: the greatest delayed relation across, the decision and the check are
//! compared with plain ones.

use crate::drawn::{built, random};
use auto_core::{Auto, Memory, Trans};
use delayed_across::{DelayedRefusal, are_ascending, check, is_delayed, reached, relation};
use delayed_laws::DelayedPair;
use std::alloc::Global;
use std::test::Fail;

/// Tells whether the table, which has so many columns, has the pair.
fn has(table: &[bool], columns: u32, left: u32, right: u32) -> bool {
    match table.get(left as usize * columns as usize + right as usize) {
        Some(held) => *held,
        None => false,
    }
}

/// Tells whether the state answers the move with a pair of the table.
fn is_answered(second: &Auto, table: &[bool], right: u32, step: Trans) -> bool {
    for answer in second.transitions() {
        let leaves = answer.source == right && answer.label == step.label;
        if leaves && has(table, second.states(), step.target, answer.target) {
            return true;
        }
    }
    false
}

/// Tells whether the right state answers each move of the left one so.
fn answers_all(first: &Auto, second: &Auto, table: &[bool], left: u32, right: u32) -> bool {
    for step in first.transitions() {
        if step.source == left && !is_answered(second, table, right, *step) {
            return false;
        }
    }
    true
}

/// The pairs of the table that can have a rank if those of `ranked` have lesser ones.
fn ranked_once(
    alloc: Global,
    first: &Auto,
    second: &Auto,
    table: &[bool],
    ranked: &[bool],
) -> Result<Vec<bool>, Memory> {
    let mut next = Vec::new(alloc);
    for left in 0..first.states() {
        for right in 0..second.states() {
            let held = has(table, second.states(), left, right);
            let can = second.accepting(right) || answers_all(first, second, ranked, left, right);
            next.push(held && can)?;
        }
    }
    Ok(next)
}

/// The pairs of the table that can have a rank.
fn ranked_in(
    alloc: Global,
    first: &Auto,
    second: &Auto,
    table: &[bool],
) -> Result<Vec<bool>, Memory> {
    let mut ranked = vec![in alloc; false; table.len()]?;
    for _turn in 0..table.len() {
        ranked = ranked_once(alloc, first, second, table, &ranked)?;
    }
    Ok(ranked)
}

/// The pairs of the table whose moves are answered by pairs of it, and that can have a rank where
/// they need one.
fn kept_once(
    alloc: Global,
    first: &Auto,
    second: &Auto,
    table: &[bool],
) -> Result<Vec<bool>, Memory> {
    let ranked = ranked_in(alloc, first, second, table)?;
    let mut next = Vec::new(alloc);
    for left in 0..first.states() {
        for right in 0..second.states() {
            let held = has(table, second.states(), left, right);
            let fits = !first.accepting(left) || has(&ranked, second.states(), left, right);
            next.push(held && fits && answers_all(first, second, table, left, right))?;
        }
    }
    Ok(next)
}

/// The pairs of the greatest delayed relation: each pass takes pairs away from all pairs, until no
/// pass can take one.
fn greatest(alloc: Global, first: &Auto, second: &Auto) -> Result<Vec<bool>, Memory> {
    let count = first.states() as usize * second.states() as usize;
    let mut table = vec![in alloc; true; count]?;
    for _turn in 0..count {
        table = kept_once(alloc, first, second, &table)?;
    }
    Ok(table)
}

/// The rank of the pair, if the list has the pair.
fn rank_in(pairs: &[DelayedPair], left: u32, right: u32) -> Option<Option<u32>> {
    for pair in pairs {
        if pair.left == left && pair.right == right {
            return Some(pair.rank);
        }
    }
    None
}

/// Tells whether a pair of this rank may answer one of the other.
fn may_answer(rank: Option<Option<u32>>, before: Option<u32>) -> bool {
    match (rank, before) {
        (None, _) => false,
        (Some(Some(own)), Some(most)) => most == 0 || own < most,
        (Some(None), Some(most)) => most == 0,
        (Some(_), None) => true,
    }
}

/// Tells whether a move of the right state answers this one.
fn has_answer(second: &Auto, pairs: &[DelayedPair], pair: DelayedPair, step: Trans) -> bool {
    for answer in second.transitions() {
        let leaves = answer.source == pair.right && answer.label == step.label;
        if leaves && may_answer(rank_in(pairs, step.target, answer.target), pair.rank) {
            return true;
        }
    }
    false
}

/// Tells whether the pair is of states and its rank is one for it.
fn has_fit_rank(first: &Auto, second: &Auto, pair: DelayedPair) -> bool {
    if pair.left >= first.states() {
        return false;
    }
    if pair.right >= second.states() {
        return false;
    }
    match pair.rank {
        None => !first.accepting(pair.left),
        Some(rank) => rank > 0 || second.accepting(pair.right),
    }
}

/// Tells whether the pair keeps the rules.
fn keeps(first: &Auto, second: &Auto, pairs: &[DelayedPair], pair: DelayedPair) -> bool {
    for step in first.transitions() {
        if step.source == pair.left && !has_answer(second, pairs, pair, *step) {
            return false;
        }
    }
    has_fit_rank(first, second, pair)
}

/// Tells whether the pairs are a delayed simulation.
fn is_simulation(first: &Auto, second: &Auto, pairs: &[DelayedPair]) -> bool {
    for pair in pairs {
        if !keeps(first, second, pairs, *pair) {
            return false;
        }
    }
    rank_in(pairs, first.initial(), second.initial()).is_some()
}

/// The pairs but for the one with this number.
fn without(
    alloc: Global,
    pairs: &[DelayedPair],
    number: usize,
) -> Result<Vec<DelayedPair>, Memory> {
    let mut others = Vec::new(alloc);
    for at in 0..pairs.len() {
        if at != number {
            others.push(pairs[at])?;
        }
    }
    Ok(others)
}

/// Tells whether the check and the plain one say the same of the pairs.
fn checks_agree(first: &Auto, second: &Auto, pairs: &[DelayedPair]) -> bool {
    if !are_ascending(pairs) {
        return false;
    }
    check(first, second, pairs).is_none() == is_simulation(first, second, pairs)
}

/// Tells so of the pairs, and of each list that lacks one of them.
fn all_checks_agree(
    alloc: Global,
    first: &Auto,
    second: &Auto,
    pairs: &[DelayedPair],
) -> Result<bool, Memory> {
    for number in 0..pairs.len() {
        if !checks_agree(first, second, &without(alloc, pairs, number)?) {
            return Ok(false);
        }
    }
    Ok(checks_agree(first, second, pairs))
}

/// Tells whether the list has just the pairs of the table.
fn lists(table: &[bool], columns: u32, pairs: &[DelayedPair]) -> bool {
    let mut count: usize = 0;
    for held in table {
        if *held {
            count = count.saturating_add(1);
        }
    }
    for pair in pairs {
        if !has(table, columns, pair.left, pair.right) {
            return false;
        }
    }
    count == pairs.len()
}

/// Tells whether the part that is reached has no pair where there is no simulation, and else is one
/// that is no longer.
fn is_part(first: &Auto, second: &Auto, pairs: &[DelayedPair], part: &[DelayedPair]) -> bool {
    if rank_in(pairs, first.initial(), second.initial()).is_none() {
        return part.is_empty();
    }
    part.len() <= pairs.len()
        && is_simulation(first, second, part)
        && checks_agree(first, second, part)
}

/// The greatest relation; none for automata that are too large or not over the same letters.
fn found(alloc: Global, first: &Auto, second: &Auto) -> Result<Vec<DelayedPair>, Memory> {
    if first.labels() != second.labels() {
        return Ok(Vec::new(alloc));
    }
    if first.states() as u64 * second.states() as u64 > 4_000_000 {
        return Ok(Vec::new(alloc));
    }
    relation(alloc, first, second)
}

/// The part of a delayed simulation that is reached; none of pairs that are refused.
fn part_of(
    alloc: Global,
    first: &Auto,
    second: &Auto,
    pairs: &[DelayedPair],
) -> Result<Vec<DelayedPair>, Memory> {
    if !are_ascending(pairs) {
        return Ok(Vec::new(alloc));
    }
    if pairs.len() > 4_000_000 {
        return Ok(Vec::new(alloc));
    }
    match check(first, second, pairs) {
        None => reached(alloc, first, second, pairs),
        Some(_) => Ok(Vec::new(alloc)),
    }
}

/// Whether there is a delayed simulation; nothing if an answer is wrong.
fn answer(alloc: Global, first: &Auto, second: &Auto) -> Result<Option<bool>, Memory> {
    if first.labels() != second.labels() {
        return Ok(None);
    }
    if first.states() as u64 * second.states() as u64 > 4_000_000 {
        return Ok(None);
    }
    let told = is_delayed(alloc, first, second)?;
    let pairs = relation(alloc, first, second)?;
    let table = greatest(alloc, first, second)?;
    if !lists(&table, second.states(), &pairs) {
        return Ok(None);
    }
    if !all_checks_agree(alloc, first, second, &pairs)? {
        return Ok(None);
    }
    if has(&table, second.states(), first.initial(), second.initial()) != told {
        return Ok(None);
    }
    let part = part_of(alloc, first, second, &pairs)?;
    if !is_part(first, second, &pairs, &part) {
        return Ok(None);
    }
    let refusal = check(first, second, &pairs);
    let right = match refusal {
        None => told,
        Some(rule) => rule == DelayedRefusal::Start && !told,
    };
    if right { Ok(Some(told)) } else { Ok(None) }
}

#[test]
fn each_answer_is_right(rt: HostRuntime) -> Result<(), Fail> {
    let alloc = rt.alloc();
    let mut simulated: u64 = 0;
    let mut not: u64 = 0;
    for seed in 1..400 {
        let labels = 1 + seed as u32 / 7 % 2;
        let first = random(alloc, seed, 1 + seed as u32 % 4, labels, 5, false)?;
        let second = random(
            alloc,
            seed * 31 + 5,
            1 + seed as u32 / 5 % 4,
            labels,
            9,
            false,
        )?;
        match answer(alloc, &first, &second)? {
            Some(true) => simulated = simulated.saturating_add(1),
            Some(false) => not = not.saturating_add(1),
            None => assert!(rt; false),
        }
    }
    println!(rt; "simulated {simulated}, not {not}")?;
    assert!(rt; simulated > 50);
    assert!(rt; not > 50);
    Ok(())
}

/// The move by the only letter.
fn step(source: u32, target: u32) -> Trans {
    Trans {
        source,
        label: 0,
        target,
    }
}

/// The pair of the only state of the first automaton, with this rank.
fn ranked(right: u32, rank: u32) -> DelayedPair {
    DelayedPair {
        left: 0,
        right,
        rank: Some(rank),
    }
}

#[test]
fn ranks_are_least(rt: HostRuntime) -> Result<(), Fail> {
    let alloc = rt.alloc();
    let one = built(alloc, 1, 1, &[step(0, 0)], &[0])?;
    let moves = [step(0, 1), step(1, 2), step(1, 3), step(2, 0), step(3, 0)];
    let four = built(alloc, 4, 1, &moves, &[2])?;
    let pairs = found(alloc, &one, &four)?;
    assert_eq!(rt;
        pairs.as_slice(),
        [ranked(0, 2), ranked(1, 1), ranked(2, 0), ranked(3, 3)].as_slice()
    );
    let part = part_of(alloc, &one, &four, &pairs)?;
    assert_eq!(rt;
        part.as_slice(),
        [ranked(0, 2), ranked(1, 1), ranked(2, 0)].as_slice()
    );
    Ok(())
}
