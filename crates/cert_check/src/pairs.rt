//! The pairs of live elements: each that is tested has a lasso. Many elements may have one graph,
//! so each graph at a state is tested once against each other one there.

ghost use Rattle.std.specs.Prelude.{◌≡◌, ◌+◌, ◌^◌, ◌<◌, ◌↔◌, ◌++◌, [], ◌∷◌, ℕ, length, Contains, IfOk, IsTrue};
ghost use Rattle.auto_core.specs.Graph.{LassoIn};
ghost use Rattle.auto_core.specs.declared.parts.Mode.TheVariants.{Buchi};
ghost use Rattle.graph_rows.specs.Block.{block_graph, IsFormed};
ghost use Rattle.shared_graphs.specs.Graphs.{block_at};
ghost use Rattle.shared_graphs.specs.Looping.{IsLoopRow};
ghost use Rattle.evidence.specs.Tables.{numbers_at};
ghost use Rattle.log_check.specs.Checks.{Tells, checks_of_each};
ghost use Rattle.cert_check.specs.Inclusion.{PassesWithAll, pair_checks};
ghost use Rattle.cert_check.specs.Supers.{Key, HasKey, AreSupers};
ghost use Rattle.cert_check.specs.Turns.{IsTurn, AreTurns, HasAddedAt, AreListedAtStates, HasLassos, AreLoops, AreTests};

use crate::elements::Supers;
use crate::{covers, keys};
use auto_core::{Auto, Memory};
use cert_value::YesBody;
use lasso_test::{Scratch, enters, passes};
use log_check::{CheckFault, Refusal};
use shared_graphs::{GraphBlocks, marked_row};
use std::alloc::Global;
use std::collections::BTreeSet;

/// What is remembered of tests.
#[derive(Drop)]
pub struct Tests {
    /// The states with graphs that passed.
    pub passed: BTreeSet<[u64; 2]>,
    /// For each graph how often it was asked for.
    pub asked: Vec<u32>,
    /// For each graph that was asked for often the states from which it has a loop past an
    /// accepting state; for others no row.
    pub loops: Vec<Vec<u64>>,
    /// Room for the test of one pair.
    pub scratch: Scratch,
}

/// The key of a state and a graph.
fn pair_key(state: u32, graph: u32) -> [u64; 2]
    ensures { result ≡ state ∷ graph ∷ [] }
{
    [state as u64, graph as u64]
}

/// A table of so many lists, without numbers.
fn empty_lists(alloc: Global, count: u32) -> Result<Vec<Vec<u32>>, Memory>
    ensures size { IfOk result (λ lists. length lists.items ≡ count) }
    ensures empty { IfOk result (λ lists. (k : ℕ) → numbers_at lists.items k ≡ []) }
{
    let mut lists = Vec::new(alloc);
    for _place in 0..count {
        lists.push(Vec::new(alloc))?;
    }
    Ok(lists)
}

/// A table of so many rows, without words.
fn empty_rows(alloc: Global, count: usize) -> Result<Vec<Vec<u64>>, Memory>
    ensures size { IfOk result (λ rows. length rows.items ≡ count) }
    ensures empty { IfOk result (λ rows. (k : ℕ) → numbers_at rows.items k ≡ []) }
{
    let mut rows = Vec::new(alloc);
    for _place in 0..count {
        rows.push(Vec::new(alloc))?;
    }
    Ok(rows)
}

/// Tells whether the element is live and leads from its state back to it, past an accepting state.
fn is_turn(evidence: &YesBody, supers: &Supers, e: u32) -> bool
    requires element { e < length evidence.now.elements }
    requires count { length supers.now.arcs.items ≡ length evidence.now.elements }
    ensures { IsTrue result ↔ IsTurn evidence.now supers.now e }
{
    let arc = supers.arcs[e as usize];
    covers::is_live(evidence, e) && arc.from == arc.to && arc.accepting
}

/// Adds the number to the list at the place.
fn add_at(lists: &mut Vec<Vec<u32>>, place: usize, number: u32) -> Result<(), Memory>
    requires { place < length lists.old.items }
    ensures { IfOk result (λ _. HasAddedAt lists.old.items lists.new.items place number) }
{
    lists[place].push(number)?;
    Ok(())
}

/// Adds the graph of the element to those at its state, if it is a turn and its graph is not there
/// yet.
fn add_turn(
    first: &Auto,
    second: &Auto,
    evidence: &YesBody,
    supers: &Supers,
    e: u32,
    seen: &mut BTreeSet<[u64; 2]>,
    turns: &mut Vec<Vec<u32>>,
) -> Result<(), Memory>
    requires supers { AreSupers Buchi first.now second.now evidence.now.elements
        (length evidence.now.elements) supers.now }
    requires element { e < length evidence.now.elements }
    requires turns { AreTurns evidence.now supers.now e first.now.states turns.old.items }
    requires seen { AreListedAtStates seen.old turns.old.items }
    ensures turns { IfOk
        result (λ _. AreTurns evidence.now supers.now (e + 1) first.now.states turns.new.items) }
    ensures seen { IfOk result (λ _. AreListedAtStates seen.new turns.new.items) }
{
    if !is_turn(evidence, supers, e) {
        return Ok(());
    }
    // the contract of this call says that the automaton is valid
    let _states = first.states();
    let it = supers.element(e as usize);
    let key = pair_key(it.arc.from, it.number);
    if !keys::is_new(seen, key)? {
        return Ok(());
    }
    add_at(turns, it.arc.from as usize, it.number)
}

/// For each state of the first automaton the graphs of the turns at it.
fn turns_by_state(
    alloc: Global,
    first: &Auto,
    second: &Auto,
    evidence: &YesBody,
    supers: &Supers,
) -> Result<Vec<Vec<u32>>, Memory>
    requires few { length evidence.now.elements < 10 ^ 9 }
    requires supers { AreSupers Buchi first.now second.now evidence.now.elements
        (length evidence.now.elements) supers.now }
    ensures { IfOk
        result (λ turns.
        AreTurns evidence.now supers.now (length evidence.now.elements) first.now.states
        turns.items) }
{
    let mut turns = empty_lists(alloc, first.states())?;
    let mut seen = BTreeSet::new(alloc);
    for e in 0..evidence.elements.as_slice().len() as u32 {
        add_turn(first, second, evidence, supers, e, &mut seen, &mut turns)?;
    }
    Ok(turns)
}

/// Counts that the graph was asked for, and tells whether that was less often than there are
/// states: until then one test costs less than marking its states.
fn is_rare(states: u32, asked: &mut [u32], h: u32) -> bool {
    if h as usize >= asked.len() {
        return true;
    }
    let count = asked[h as usize].saturating_add(1);
    asked[h as usize] = count;
    count < states
}

/// Marks the states from which the graph has a loop, if they are not marked yet.
fn mark_loops(
    alloc: Global,
    states: u32,
    graphs: &GraphBlocks,
    h: u32,
    loops: &mut Vec<Vec<u64>>,
    scratch: &mut Scratch,
) -> Result<(), Memory>
    requires formed { IsFormed states (block_at graphs.now.items h) }
    requires there { h < length loops.old.items }
    requires loops { AreLoops states graphs.now.items loops.old.items }
    requires room { scratch.old ≡ states }
    ensures loops { IfOk result (λ _. AreLoops states graphs.now.items loops.new.items) }
    ensures here { IfOk
        result (λ _.
        IsLoopRow states (block_graph states (block_at graphs.now.items h))
        (numbers_at loops.new.items h)) }
    ensures size { length loops.new.items ≡ length loops.old.items }
    ensures room { scratch.new ≡ states }
{
    if loops[h as usize].len() > 0 {
        return Ok(());
    }
    let row = marked_row(alloc, states, graphs.block(h as usize), scratch)?;
    loops[h as usize] = row;
    Ok(())
}

/// Tells whether the graph of the block has a lasso with the other one, from the second automaton's
/// initial state.
fn has_lasso(
    alloc: Global,
    second: &Auto,
    graphs: &GraphBlocks,
    block: &[u64],
    h: u32,
    asked: &mut [u32],
    loops: &mut Vec<Vec<u64>>,
    scratch: &mut Scratch,
) -> Result<bool, Memory>
    requires formed { IsFormed second.now.states block.now }
    requires other { IsFormed second.now.states (block_at graphs.now.items h) }
    requires there { h < length loops.old.items }
    requires loops { AreLoops second.now.states graphs.now.items loops.old.items }
    requires room { scratch.old ≡ second.now.states }
    ensures told { IfOk result (λ is. IsTrue is
        ↔ LassoIn (block_graph second.now.states block.now) (block_graph second.now.states (block_at graphs.now.items h)) second.now.initial) }
    ensures loops { IfOk result (λ _. AreLoops second.now.states graphs.now.items loops.new.items) }
    ensures size { length loops.new.items ≡ length loops.old.items }
    ensures room { scratch.new ≡ second.now.states }
{
    let states = second.states();
    if is_rare(states, asked, h) {
        return Ok(passes(
            states,
            block,
            graphs.block(h as usize),
            second.initial(),
            scratch,
        ));
    }
    mark_loops(alloc, states, graphs, h, loops, scratch)?;
    Ok(enters(states, block, second.initial(), &loops[h as usize]))
}

/// Tells whether the graph has a lasso with each of the others, from the second automaton's initial
/// state.
fn has_lassos(
    alloc: Global,
    second: &Auto,
    graphs: &GraphBlocks,
    g: u32,
    others: &[u32],
    asked: &mut [u32],
    loops: &mut Vec<Vec<u64>>,
    scratch: &mut Scratch,
) -> Result<bool, Memory>
    requires formed { IsFormed second.now.states (block_at graphs.now.items g) }
    requires others { (h : ℕ) → Contains others.now h
        → IsFormed second.now.states (block_at graphs.now.items h) }
    requires there { (h : ℕ) → Contains others.now h → h < length loops.old.items }
    requires loops { AreLoops second.now.states graphs.now.items loops.old.items }
    requires room { scratch.old ≡ second.now.states }
    ensures told { IfOk
        result (λ is. IsTrue is ↔ HasLassos second.now graphs.now.items g others.now) }
    ensures loops { IfOk result (λ _. AreLoops second.now.states graphs.now.items loops.new.items) }
    ensures size { length loops.new.items ≡ length loops.old.items }
    ensures room { scratch.new ≡ second.now.states }
{
    let block = graphs.block(g as usize);
    for h in others {
        if !has_lasso(alloc, second, graphs, block, *h, asked, loops, scratch)? {
            return Ok(false);
        }
    }
    Ok(true)
}

impl Tests {
    /// No test of so many graphs was made.
    fn new(alloc: Global, states: u32, graphs: usize) -> Result<Tests, Memory>
        ensures passed { IfOk result (λ tests. (key : Key) → HasKey tests.passed key → ⊥) }
        ensures size { IfOk result (λ tests. length tests.loops.items ≡ graphs) }
        ensures empty { IfOk result (λ tests. (k : ℕ) → numbers_at tests.loops.items k ≡ []) }
        ensures room { IfOk result (λ tests. tests.scratch ≡ states) }
    {
        Ok(Tests {
            passed: BTreeSet::new(alloc),
            asked: vec![in alloc; 0; graphs]?,
            loops: empty_rows(alloc, graphs)?,
            scratch: Scratch::new(alloc, states)?,
        })
    }
}

/// Tells whether the element, if it is live, passes with each live one.
fn passes_with_all(
    alloc: Global,
    first: &Auto,
    second: &Auto,
    evidence: &YesBody,
    supers: &Supers,
    turns: &[Vec<u32>],
    e: usize,
    tests: &mut Tests,
) -> Result<bool, Memory>
    requires few { length evidence.now.elements < 10 ^ 9 }
    requires supers { AreSupers Buchi first.now second.now evidence.now.elements
        (length evidence.now.elements) supers.now }
    requires turns { AreTurns evidence.now supers.now (length evidence.now.elements)
        first.now.states turns.now }
    requires element { e < length evidence.now.elements }
    requires tests { AreTests second.now supers.now.graphs.graphs.items turns.now tests.old }
    ensures told { IfOk
        result (λ is. IsTrue is ↔ PassesWithAll first.now second.now evidence.now e) }
    ensures tests { IfOk
        result (λ is.
        IsTrue is → AreTests second.now supers.now.graphs.graphs.items turns.now tests.new) }
{
    if !covers::is_live(evidence, e as u32) {
        return Ok(true);
    }
    let it = supers.element(e);
    if it.arc.from != first.initial() {
        return Ok(true);
    }
    let key = pair_key(it.arc.to, it.number);
    if !keys::is_new(&mut tests.passed, key)? {
        return Ok(true);
    }
    let holds = has_lassos(
        alloc,
        second,
        &supers.graphs.graphs,
        it.number,
        &turns[it.arc.to as usize],
        &mut tests.asked,
        &mut tests.loops,
        &mut tests.scratch,
    )?;
    Ok(holds)
}

/// Tests the pairs of each element, in order. `item` is the number of the first one's item.
pub fn check_pairs(
    alloc: Global,
    first: &Auto,
    second: &Auto,
    evidence: &YesBody,
    item: u32,
    supers: &Supers,
) -> Result<(), CheckFault>
    requires supers { AreSupers Buchi first.now second.now evidence.now.elements
        (length evidence.now.elements) supers.now }
    requires few { length evidence.now.elements < 10 ^ 9 }
    requires few_items { item + length evidence.now.elements < 2 ^ 32 }
    ensures { Tells
        (checks_of_each (pair_checks Buchi first.now second.now evidence.now item) 0
        evidence.now.elements) result }
{
    let turns = turns_by_state(alloc, first, second, evidence, supers)?;
    let mut tests = Tests::new(alloc, second.states(), supers.graphs.graphs.len())?;
    for e in 0..evidence.elements.as_slice().len() {
        if !passes_with_all(
            alloc, first, second, evidence, supers, &turns, e, &mut tests,
        )? {
            return Err(CheckFault::Refused(Refusal {
                rule: 15,
                item: item + e as u32,
            }));
        }
    }
    Ok(())
}
