//! Signatures: what a state's moves lead to, by letter and class.

ghost use Rattle.std.specs.Prelude.{◌≡◌, ◌^◌, ◌<◌, ◌↔◌, ℕ, length, Contains, IfOk, OnOk};
ghost use Rattle.auto_core.specs.Automaton.{trans_at};
ghost use Rattle.auto_core.specs.Quotient.{class_of};
ghost use Rattle.std.specs.List.Sorted.{IsStrictlyIncreasing};
ghost use Rattle.evidence.specs.Tables.{numbers_at};
ghost use Rattle.bisimulation.specs.Rounds.{AreBelow};
ghost use Rattle.bisimulation.specs.Signatures.{packed, IsMark, IsSignature, AreDifferent, KeepsNumbers, AreSigned};

use auto_core::{Auto, Memory};
use indexmap::IndexSet;
use std::alloc::Global;

/// The two numbers as one.
pub(crate) fn packed(high: u32, low: u32) -> u64
    ensures { result ≡ packed high low }
{
    high as u64 * 0x1_0000_0000 + low as u64
}

/// The label of the transition with this number and the class that it leads to, as one number.
fn mark_of(automaton: &Auto, of: &[u32], number: u32) -> u64
    requires of { length of.now ≡ automaton.now.states }
    requires number { number < length automaton.now.transitions }
    ensures { result
        ≡ packed (trans_at automaton.now number).label
        (class_of of.now (trans_at automaton.now number).target) }
{
    let step = automaton.transitions()[number as usize];
    packed(step.label, of[step.target as usize])
}

/// For each move of the state its label and the class that it leads to, as one number.
fn marks(alloc: Global, automaton: &Auto, of: &[u32], state: u32) -> Result<Vec<u64>, Memory>
    requires of { length of.now ≡ automaton.now.states }
    requires state { state < automaton.now.states }
    ensures { IfOk
        result (λ v. (mark : ℕ) → Contains v.items mark ↔ IsMark automaton.now of.now state mark) }
{
    let span = automaton.outgoing(state);
    let mut made = Vec::new(alloc);
    for t in span.begin..span.end {
        made.push(mark_of(automaton, of, t))?;
    }
    Ok(made)
}

/// The numbers of the list, ascending, each once.
fn distinct(list: Vec<u64>) -> Result<Vec<u64>, Memory>
    ensures rising { IfOk result (λ v. IsStrictlyIncreasing v.items) }
    ensures same { IfOk result (λ v. (k : ℕ) → Contains v.items k ↔ Contains list.items k) }
{
    let mut list = list;
    list.sort()?;
    list.dedup();
    Ok(list)
}

/// The signature of the state.
fn signature(alloc: Global, automaton: &Auto, of: &[u32], state: u32) -> Result<Vec<u64>, Memory>
    requires of { length of.now ≡ automaton.now.states }
    requires state { state < automaton.now.states }
    ensures { IfOk result (λ v. IsSignature automaton.now of.now state v.items) }
{
    let made = marks(alloc, automaton, of, state)?;
    let list = distinct(made)?;
    Ok(list)
}

/// The number of the list in the table, to which it is added unless it is there. Refused where the
/// table has 2^32 lists.
fn number_of(table: &mut IndexSet<Vec<u64>>, list: Vec<u64>) -> Result<u32, Memory>
    requires different { AreDifferent table.old.keys }
    ensures different { OnOk result (AreDifferent table.new.keys) }
    ensures keeps { OnOk result (KeepsNumbers table.old.keys table.new.keys) }
    ensures number { IfOk
        result (λ number.
        (number < length table.new.keys) × (numbers_at table.new.keys number ≡ list.items)) }
{
    let (number, _) = table.insert_full(list)?;
    if number > 0xffff_ffff {
        return Err(Memory);
    }
    Ok(number as u32)
}

/// Signs these states.
pub(crate) fn sign_all(
    alloc: Global,
    automaton: &Auto,
    of: &[u32],
    table: &mut IndexSet<Vec<u64>>,
    states: &[u32],
    signs: &mut Vec<u32>,
) -> Result<(), Memory>
    requires of { length of.now ≡ automaton.now.states }
    requires signs { length signs.old.items ≡ automaton.now.states }
    requires states { AreBelow automaton.now.states states.now }
    requires different { AreDifferent table.old.keys }
    ensures { OnOk result
        (AreSigned automaton.now of.now table.old.keys table.new.keys states.now signs.old.items
        signs.new.items) }
{
    for i in 0..states.len() {
        let signature = signature(alloc, automaton, of, states[i])?;
        let number = number_of(table, signature)?;
        signs[states[i] as usize] = number;
    }
    Ok(())
}
