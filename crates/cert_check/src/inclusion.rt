//! Checks that the evidence of an inclusion is a closed set.

ghost use Rattle.std.specs.Prelude.{◌≡◌, ◌+◌, ◌^◌, ◌<◌, true, All, IfOk, length};
ghost use Rattle.auto_core.specs.Automaton.{IsAutomaton};
ghost use Rattle.cert_value.specs.WellFormed.{is_origin};
ghost use Rattle.log_check.specs.Checks.{Tells};
ghost use Rattle.cert_check.specs.Inclusion.{inclusion_checks};

use crate::{covers, elements, orders, passing, steps};
use auto_core::{Auto, Mode};
use cert_value::YesBody;
use log_check::CheckFault;
use std::alloc::Global;

/// Tests the evidence by all its rules, in their order, on the automata that the logs lead to.
/// `item` is the number of its first item.
pub fn check_inclusion(
    alloc: Global,
    mode: Mode,
    first: &Auto,
    second: &Auto,
    evidence: &YesBody,
    item: u32,
) -> Result<(), CheckFault>
    requires few { length evidence.now.elements < 10 ^ 9 }
    requires few_items { item + 2 + length evidence.now.elements + length evidence.now.steps
        < 2 ^ 32 }
    requires few_steps { length evidence.now.steps < 10 ^ 9 }
    requires begun { All (λ element. is_origin mode element.origin ≡ true) evidence.now.elements }
    ensures tells { Tells (inclusion_checks mode evidence.now item first.now second.now) result }
    ensures automaton { IfOk result (λ _. IsAutomaton second.now) }
{
    // the contract of this call says that the automaton is valid
    let _states = second.states();
    let count = evidence.elements.as_slice().len() as u32;
    let mut order = orders::checked_order(alloc, second, evidence, item)?;
    let mut supers = elements::checked_elements(
        alloc,
        mode,
        first,
        second,
        &evidence.elements,
        item + 1,
    )?;
    covers::check_under(mode, first, second, evidence, item + 1, &mut order, &supers)?;
    covers::check_cover(
        alloc,
        mode,
        first,
        second,
        evidence,
        item + 1 + count,
        &mut order,
        &mut supers,
    )?;
    steps::check_steps(
        alloc,
        mode,
        first,
        second,
        evidence,
        item + 2 + count,
        &mut order,
        &mut supers,
    )?;
    passing::check_passing(alloc, mode, first, second, evidence, item + 1, &supers)
}
