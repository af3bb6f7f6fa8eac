//! The step lines of a certificate of inclusion: the elements over the extensions of each live one.

ghost use Rattle.std.specs.Prelude.{◌≡◌, ◌+◌, ◌^◌, ◌<◌, ◌↔◌, ℕ, length, IsTrue, IfOk, MatchOption};
ghost use Rattle.auto_core.specs.Automaton.{trans_at};
ghost use Rattle.auto_core.specs.Graph.{arc_at, extended_arc};
ghost use Rattle.log_check.specs.Checks.{AllHold, FirstBroken, Tells, checks_of_each};
ghost use Rattle.cert_check.specs.Inclusion.{element_arcs, IsOver, AreOver, AreElements, extensions_of, step_checks};
ghost use Rattle.cert_check.specs.Supers.{AreSupers, IsEvidenceOrder};

use crate::elements::Supers;
use crate::orders::Order;
use crate::{blocks, covers};
use auto_core::{Auto, Memory, Mode};
use cert_value::{StepLine, YesBody};
use log_check::{CheckFault, Refusal};
use std::alloc::Global;

/// Tells whether the element `j` is over the extension of the element `e` by the transition.
fn is_over_extension(
    alloc: Global,
    mode: Mode,
    first: &Auto,
    second: &Auto,
    evidence: &YesBody,
    order: &mut Order,
    supers: &mut Supers,
    j: u32,
    e: u32,
    t: u32,
) -> Result<bool, Memory>
    requires supers { AreSupers mode first.now second.now evidence.now.elements
        (length evidence.now.elements) supers.old }
    requires order { IsEvidenceOrder second.now evidence.now supers.old.graphs.graphs.items
        order.old }
    requires over { j < length evidence.now.elements }
    requires element { e < length evidence.now.elements }
    requires number { t < length first.now.transitions }
    requires leaves { (trans_at first.now t).source
        ≡ (arc_at first.now (element_arcs first.now evidence.now.elements) e).to }
    ensures told { IfOk result (λ is. IsTrue is ↔ IsOver mode first.now second.now evidence.now j
        (extended_arc first.now (arc_at first.now (element_arcs first.now evidence.now.elements) e) (trans_at first.now t))) }
    ensures supers { IfOk
        result (λ _.
        AreSupers mode first.now second.now evidence.now.elements (length evidence.now.elements)
        supers.new) }
    ensures order { IfOk
        result (λ _.
        IsEvidenceOrder second.now evidence.now supers.new.graphs.graphs.items order.new) }
{
    let from = supers.element(e as usize);
    let longer = blocks::extend(alloc, mode, first, second, from, t, &mut supers.graphs)?;
    Ok(covers::is_over(mode, first, second, evidence, order, supers, j, &longer))
}

/// Tells whether the elements that the line names are over the extensions of its element.
fn covers_extensions(
    alloc: Global,
    mode: Mode,
    first: &Auto,
    second: &Auto,
    evidence: &YesBody,
    order: &mut Order,
    supers: &mut Supers,
    step: &StepLine,
) -> Result<bool, Memory>
    requires supers { AreSupers mode first.now second.now evidence.now.elements
        (length evidence.now.elements) supers.old }
    requires order { IsEvidenceOrder second.now evidence.now supers.old.graphs.graphs.items
        order.old }
    requires element { step.now.element < length evidence.now.elements }
    requires names { AreElements evidence.now step.now.by }
    ensures told { IfOk
        result (λ is.
        IsTrue is ↔ AreOver mode first.now second.now evidence.now step.now.by
        (extensions_of first.now
        (arc_at first.now (element_arcs first.now evidence.now.elements) step.now.element))) }
    ensures supers { IfOk
        result (λ _.
        AreSupers mode first.now second.now evidence.now.elements (length evidence.now.elements)
        supers.new) }
    ensures order { IfOk
        result (λ _.
        IsEvidenceOrder second.now evidence.now supers.new.graphs.graphs.items order.new) }
{
    let by = step.by.as_slice();
    let from = supers.element(step.element as usize);
    // the contract of this call says that the automaton is valid
    let _states = first.states();
    let span = first.outgoing(from.arc.to);
    if by.len() != (span.end - span.begin) as usize {
        return Ok(false);
    }
    for i in 0..by.len() {
        if !is_over_extension(
            alloc,
            mode,
            first,
            second,
            evidence,
            order,
            supers,
            by[i],
            step.element,
            span.begin + i as u32,
        )? {
            return Ok(false);
        }
    }
    Ok(true)
}

/// The rule that the line breaks first, if it breaks one.
fn broken_rule(
    alloc: Global,
    mode: Mode,
    first: &Auto,
    second: &Auto,
    evidence: &YesBody,
    order: &mut Order,
    supers: &mut Supers,
    step: &StepLine,
) -> Result<Option<u32>, Memory>
    requires supers { AreSupers mode first.now second.now evidence.now.elements
        (length evidence.now.elements) supers.old }
    requires order { IsEvidenceOrder second.now evidence.now supers.old.graphs.graphs.items
        order.old }
    ensures told { IfOk result (λ broken. (item k : ℕ) → MatchOption broken
        (AllHold (step_checks mode first.now second.now evidence.now item k step.now))
        (λ rule. FirstBroken (step_checks mode first.now second.now evidence.now item k step.now) (record { rule = rule; item = item + k }))) }
    ensures supers { IfOk
        result (λ _.
        AreSupers mode first.now second.now evidence.now.elements (length evidence.now.elements)
        supers.new) }
    ensures order { IfOk
        result (λ _.
        IsEvidenceOrder second.now evidence.now supers.new.graphs.graphs.items order.new) }
{
    if (step.element as usize) >= evidence.elements.as_slice().len() {
        return Ok(Some(1));
    }
    if !covers::are_elements(evidence, step.by.as_slice()) {
        return Ok(Some(1));
    }
    if !covers_extensions(alloc, mode, first, second, evidence, order, supers, step)? {
        return Ok(Some(14));
    }
    Ok(None)
}

/// Tests the step lines. `item` is the number of the first one's item.
pub fn check_steps(
    alloc: Global,
    mode: Mode,
    first: &Auto,
    second: &Auto,
    evidence: &YesBody,
    item: u32,
    order: &mut Order,
    supers: &mut Supers,
) -> Result<(), CheckFault>
    requires supers { AreSupers mode first.now second.now evidence.now.elements
        (length evidence.now.elements) supers.old }
    requires order { IsEvidenceOrder second.now evidence.now supers.old.graphs.graphs.items
        order.old }
    requires few_steps { length evidence.now.steps < 10 ^ 9 }
    requires few_items { item + length evidence.now.steps < 2 ^ 32 }
    ensures tells { Tells
        (checks_of_each (step_checks mode first.now second.now evidence.now item) 0
        evidence.now.steps) result }
    ensures supers { IfOk
        result (λ _.
        AreSupers mode first.now second.now evidence.now.elements (length evidence.now.elements)
        supers.new) }
    ensures order { IfOk
        result (λ _.
        IsEvidenceOrder second.now evidence.now supers.new.graphs.graphs.items order.new) }
{
    let lines = evidence.steps.as_slice();
    for k in 0..lines.len() {
        let broken = broken_rule(
            alloc, mode, first, second, evidence, order, supers, &lines[k],
        )?;
        match broken {
            Some(rule) => {
                return Err(CheckFault::Refused(Refusal {
                    rule,
                    item: item + k as u32,
                }));
            }
            None => {}
        }
    }
    Ok(())
}
