//! The coarsest bisimulation, round by round.

ghost use Rattle.std.specs.Prelude.{◌≡◌, ◌<◌, ℕ, [], length, Contains, IfOk, OnOk, if◌then◌else◌};
ghost use Rattle.auto_core.specs.Automaton.{Moves, is_accepting, trans_at};
ghost use Rattle.auto_core.specs.Quotient.{class_of};
ghost use Rattle.bisimulation.specs.Coarsest.{IsCoarsest};
ghost use Rattle.bisimulation.specs.Rounds.{AreBelow, IsBetweenRounds};
ghost use Rattle.bisimulation.specs.Signatures.{AreDifferent};

use crate::numbering::numbered;
use crate::partition::Partition;
use crate::signing::sign_all;
use auto_core::{Auto, Memory};
use indexmap::IndexSet;
use quotient::Classes;
use std::alloc::Global;

/// The source of the transition with this number.
fn source_of(automaton: &Auto, number: u32) -> u32
    requires { number < length automaton.now.transitions }
    ensures source { result ≡ (trans_at automaton.now number).source }
    ensures state { result < automaton.now.states }
{
    automaton.transitions()[number as usize].source
}

/// Adds the states with a move into the state.
fn add_sources(automaton: &Auto, due: &mut IndexSet<u32>, state: u32) -> Result<(), Memory>
    requires state { state < automaton.now.states }
    requires below { AreBelow automaton.now.states due.old.keys }
    ensures below { OnOk result (AreBelow automaton.now.states due.new.keys) }
    ensures more { OnOk result ((p : ℕ) → Contains due.old.keys p → Contains due.new.keys p) }
    ensures sources { OnOk result
        ((p a : ℕ) → Moves automaton.now p a state → Contains due.new.keys p) }
{
    let numbers = automaton.predecessors(state);
    for k in 0..numbers.len() {
        due.insert(source_of(automaton, numbers[k]))?;
    }
    Ok(())
}

/// The states with moves into these.
fn sources(alloc: Global, automaton: &Auto, states: &[u32]) -> Result<IndexSet<u32>, Memory>
    requires { AreBelow automaton.now.states states.now }
    ensures below { IfOk result (λ due. AreBelow automaton.now.states due.keys) }
    ensures sources { IfOk
        result (λ due.
        (p a q : ℕ) → Contains states.now q → Moves automaton.now p a q → Contains due.keys p) }
{
    let mut due = IndexSet::new(alloc);
    for i in 0..states.len() {
        add_sources(automaton, &mut due, states[i])?;
    }
    Ok(due)
}

/// All states.
fn all_states(alloc: Global, automaton: &Auto) -> Result<IndexSet<u32>, Memory>
    ensures below { IfOk result (λ due. AreBelow automaton.now.states due.keys) }
    ensures all { IfOk result (λ due. (p : ℕ) → p < automaton.now.states → Contains due.keys p) }
{
    let mut due = IndexSet::new(alloc);
    for state in 0..automaton.states() {
        due.insert(state)?;
    }
    Ok(due)
}

/// 1 if it is so, else 0.
fn one_if(is_so: bool) -> u32
    ensures { result ≡ (if is_so then 1 else 0) }
{
    if is_so { 1 } else { 0 }
}

/// For each state 1 if it accepts, else 0.
fn acceptance(alloc: Global, automaton: &Auto) -> Result<Vec<u32>, Memory>
    ensures len { IfOk result (λ v. length v.items ≡ automaton.now.states) }
    ensures each { IfOk result (λ v. (p : ℕ) → p < automaton.now.states
        → class_of v.items p ≡ (if is_accepting automaton.now p then 1 else 0)) }
{
    let mut made = Vec::new(alloc);
    for state in 0..automaton.states() {
        made.push(one_if(automaton.accepting(state)))?;
    }
    Ok(made)
}

/// Accepting states in one class and the others in another, none of them signed.
fn start(alloc: Global, automaton: &Auto, all: &[u32]) -> Result<Partition, Memory>
    requires below { AreBelow automaton.now.states all.now }
    requires all { (p : ℕ) → p < automaton.now.states → Contains all.now p }
    ensures { IfOk result (IsBetweenRounds automaton.now [] all.now) }
{
    let states = automaton.states();
    let mut members = Vec::new(alloc);
    members.push(Vec::from_slice(alloc, all)?)?;
    members.push(Vec::from_slice(alloc, all)?)?;
    Ok(Partition {
        of: acceptance(alloc, automaton)?,
        signs: vec![in alloc; 0; states as usize]?,
        kept: vec![in alloc; 0; 2]?,
        members,
        dues: vec![in alloc; 0; 2]?,
    })
}

/// Signs the due states and splits the classes; the states that are due then.
fn round(
    alloc: Global,
    automaton: &Auto,
    table: &mut IndexSet<Vec<u64>>,
    partition: &mut Partition,
    due: &[u32],
) -> Result<IndexSet<u32>, Memory>
    requires { IsBetweenRounds automaton.now table.old.keys due.now partition.old }
    ensures { IfOk
        result (λ new. IsBetweenRounds automaton.now table.new.keys new.keys partition.new) }
{
    // the contract of this call says that the automaton is valid
    let _states = automaton.states();
    sign_all(
        alloc,
        automaton,
        &partition.of,
        table,
        due,
        &mut partition.signs,
    )?;
    let listed = partition.list(alloc, due)?;
    let moved = partition.split(alloc, &listed)?;
    let next = sources(alloc, automaton, &moved)?;
    Ok(next)
}

/// The coarsest bisimulation of the automaton, as classes that are numbered in the order in which
/// they appear.
pub fn coarsest(alloc: Global, automaton: &Auto) -> Result<Classes, Memory>
    ensures { IfOk result (IsCoarsest automaton.now) }
{
    let mut table = IndexSet::new(alloc);
    let mut due = all_states(alloc, automaton)?;
    let mut partition = start(alloc, automaton, due.as_slice())?;
    for _round in 0..automaton.states() as u64 + 2 {
        if due.is_empty() {
            let classes = numbered(alloc, &partition.of)?;
            return Ok(classes);
        }
        due = round(alloc, automaton, &mut table, &mut partition, due.as_slice())?;
    }
    Err(Memory)
}
