//! The elements over others: those that are over dropped ones, and those over the arcs that the
//! cover is for.

ghost use Rattle.std.specs.Prelude.{◌≡◌, ◌+◌, ◌^◌, ◌<◌, ◌↔◌, ℕ, length, slice_index_or, true, IsTrue, IfOk};
ghost use Rattle.auto_core.specs.Automaton.{trans_at};
ghost use Rattle.auto_core.specs.Graph.{WordArc, base_arc};
ghost use Rattle.auto_core.specs.declared.parts.Mode.TheVariants.{Buchi, Finite};
ghost use Rattle.log_check.specs.Checks.{Tells, checks_of_each};
ghost use Rattle.cert_check.specs.Inclusion.{live_in, IsOver, IsUnder, AreOver, AreElements, NamesElement, covered_in, under_checks, cover_checks, no_element};
ghost use Rattle.shared_graphs.specs.Graphs.{block_at};
ghost use Rattle.cert_check.specs.Supers.{IsBlock, StandFor, AreSupers, IsEvidenceOrder};

use crate::blocks;
use crate::blocks::Numbered;
use crate::elements::Supers;
use crate::orders::Order;
use auto_core::{Auto, Memory, Mode};
use cert_value::{Mark, YesBody};
use log_check::{CheckFault, Refusal};
use std::alloc::Global;

/// Tells whether the element is live.
pub fn is_live(evidence: &YesBody, e: u32) -> bool
    requires { e < length evidence.now.elements }
    ensures { IsTrue result ↔ (live_in evidence.now e ≡ true) }
{
    matches!(evidence.elements.as_slice()[e as usize].mark, Mark::Live)
}

/// Tells whether the element `j` is live and subsumes the arc with the graph.
pub fn is_over(
    mode: Mode,
    first: &Auto,
    second: &Auto,
    evidence: &YesBody,
    order: &mut Order,
    supers: &Supers,
    j: u32,
    it: &Numbered,
) -> bool
    requires supers { AreSupers mode first.now second.now evidence.now.elements
        (length evidence.now.elements) supers.now }
    requires order { IsEvidenceOrder second.now evidence.now supers.now.graphs.graphs.items
        order.old }
    requires element { j < length evidence.now.elements }
    requires formed { IsBlock mode second.now.states
        (block_at supers.now.graphs.graphs.items it.now.number) }
    ensures told { (x : WordArc) → StandFor mode first.now second.now it.now.arc (block_at supers.now.graphs.graphs.items it.now.number) x
        → IsTrue result ↔ IsOver mode first.now second.now evidence.now j x }
    ensures order { IsEvidenceOrder second.now evidence.now supers.now.graphs.graphs.items
        order.new }
{
    if !is_live(evidence, j) {
        return false;
    }
    let over = supers.element(j as usize);
    blocks::subsumes(mode, order, &supers.graphs.graphs, &over, it)
}

/// Tells whether the numbers are those of elements.
pub fn are_elements(evidence: &YesBody, numbers: &[u32]) -> bool
    ensures { IsTrue result ↔ AreElements evidence.now numbers.now }
{
    let count = evidence.elements.as_slice().len();
    numbers.iter().all(|number| (*number as usize) < count)
}

/// Tells whether the element `e` is under the one that it names.
fn is_under(
    mode: Mode,
    first: &Auto,
    second: &Auto,
    evidence: &YesBody,
    order: &mut Order,
    supers: &Supers,
    e: usize,
    mark: &Mark,
) -> bool
    requires supers { AreSupers mode first.now second.now evidence.now.elements
        (length evidence.now.elements) supers.now }
    requires order { IsEvidenceOrder second.now evidence.now supers.now.graphs.graphs.items
        order.old }
    requires number { e < length evidence.now.elements }
    requires names { NamesElement (length evidence.now.elements) mark.now }
    ensures told { IsTrue result ↔ IsUnder mode first.now second.now evidence.now e mark.now }
    ensures order { IsEvidenceOrder second.now evidence.now supers.now.graphs.graphs.items
        order.new }
{
    match mark {
        Mark::Live => true,
        Mark::Under(j) => is_over(
            mode,
            first,
            second,
            evidence,
            order,
            supers,
            *j,
            &supers.element(e),
        ),
    }
}

/// Tests that each element that is not live is under the one that it names. `item` is the number of
/// the first one's item.
pub fn check_under(
    mode: Mode,
    first: &Auto,
    second: &Auto,
    evidence: &YesBody,
    item: u32,
    order: &mut Order,
    supers: &Supers,
) -> Result<(), CheckFault>
    requires supers { AreSupers mode first.now second.now evidence.now.elements
        (length evidence.now.elements) supers.now }
    requires order { IsEvidenceOrder second.now evidence.now supers.now.graphs.graphs.items
        order.old }
    requires few { length evidence.now.elements < 10 ^ 9 }
    requires few_items { item + length evidence.now.elements < 2 ^ 32 }
    requires names { (e : ℕ) → e < length evidence.now.elements
        → NamesElement (length evidence.now.elements)
        (slice_index_or evidence.now.elements e no_element).mark }
    ensures tells { Tells
        (checks_of_each (under_checks mode first.now second.now evidence.now item) 0
        evidence.now.elements) result }
    ensures order { IsEvidenceOrder second.now evidence.now supers.now.graphs.graphs.items
        order.new }
{
    let elements = evidence.elements.as_slice();
    for e in 0..elements.len() {
        if !is_under(
            mode,
            first,
            second,
            evidence,
            order,
            supers,
            e,
            &elements[e].mark,
        ) {
            return Err(CheckFault::Refused(Refusal {
                rule: 12,
                item: item + e as u32,
            }));
        }
    }
    Ok(())
}

/// Tells whether the element `j` is over the arc of the transition.
fn is_over_letter(
    first: &Auto,
    second: &Auto,
    evidence: &YesBody,
    order: &mut Order,
    supers: &mut Supers,
    j: u32,
    t: u32,
) -> Result<bool, Memory>
    requires supers { AreSupers Buchi first.now second.now evidence.now.elements
        (length evidence.now.elements) supers.old }
    requires order { IsEvidenceOrder second.now evidence.now supers.old.graphs.graphs.items
        order.old }
    requires element { j < length evidence.now.elements }
    requires number { t < length first.now.transitions }
    ensures told { IfOk
        result (λ is.
        IsTrue is ↔ IsOver Buchi first.now second.now evidence.now j
        (base_arc first.now (trans_at first.now t))) }
    ensures supers { IfOk
        result (λ _.
        AreSupers Buchi first.now second.now evidence.now.elements (length evidence.now.elements)
        supers.new) }
    ensures order { IfOk
        result (λ _.
        IsEvidenceOrder second.now evidence.now supers.new.graphs.graphs.items order.new) }
{
    let base = blocks::base(first, second, t, &mut supers.graphs)?;
    Ok(is_over(
        Mode::Buchi,
        first,
        second,
        evidence,
        order,
        supers,
        j,
        &base,
    ))
}

/// Tells whether the elements of the cover are over the arcs of one letter.
fn covers_letters(
    first: &Auto,
    second: &Auto,
    evidence: &YesBody,
    order: &mut Order,
    supers: &mut Supers,
) -> Result<bool, Memory>
    requires supers { AreSupers Buchi first.now second.now evidence.now.elements
        (length evidence.now.elements) supers.old }
    requires order { IsEvidenceOrder second.now evidence.now supers.old.graphs.graphs.items
        order.old }
    requires names { AreElements evidence.now evidence.now.cover }
    ensures told { IfOk
        result (λ is.
        IsTrue is ↔ AreOver Buchi first.now second.now evidence.now evidence.now.cover
        (covered_in Buchi first.now)) }
    ensures supers { IfOk
        result (λ _.
        AreSupers Buchi first.now second.now evidence.now.elements (length evidence.now.elements)
        supers.new) }
    ensures order { IfOk
        result (λ _.
        IsEvidenceOrder second.now evidence.now supers.new.graphs.graphs.items order.new) }
{
    let cover = evidence.cover.as_slice();
    let count = first.transitions().len();
    if cover.len() != count {
        return Ok(false);
    }
    for t in 0..count {
        if !is_over_letter(first, second, evidence, order, supers, cover[t], t as u32)? {
            return Ok(false);
        }
    }
    Ok(true)
}

/// Tells whether the one element of the cover is over the empty word.
fn covers_start(
    alloc: Global,
    first: &Auto,
    second: &Auto,
    evidence: &YesBody,
    order: &mut Order,
    supers: &mut Supers,
) -> Result<bool, Memory>
    requires supers { AreSupers Finite first.now second.now evidence.now.elements
        (length evidence.now.elements) supers.old }
    requires order { IsEvidenceOrder second.now evidence.now supers.old.graphs.graphs.items
        order.old }
    requires names { AreElements evidence.now evidence.now.cover }
    ensures told { IfOk
        result (λ is.
        IsTrue is ↔ AreOver Finite first.now second.now evidence.now evidence.now.cover
        (covered_in Finite first.now)) }
    ensures supers { IfOk
        result (λ _.
        AreSupers Finite first.now second.now evidence.now.elements (length evidence.now.elements)
        supers.new) }
    ensures order { IfOk
        result (λ _.
        IsEvidenceOrder second.now evidence.now supers.new.graphs.graphs.items order.new) }
{
    let cover = evidence.cover.as_slice();
    if cover.len() != 1 {
        return Ok(false);
    }
    let start = blocks::start(alloc, first, second, &mut supers.graphs)?;
    Ok(is_over(
        Mode::Finite,
        first,
        second,
        evidence,
        order,
        supers,
        cover[0],
        &start,
    ))
}

/// Tells whether the elements of the cover are over the arcs that it is for.
fn covers_all(
    alloc: Global,
    mode: Mode,
    first: &Auto,
    second: &Auto,
    evidence: &YesBody,
    order: &mut Order,
    supers: &mut Supers,
) -> Result<bool, Memory>
    requires supers { AreSupers mode first.now second.now evidence.now.elements
        (length evidence.now.elements) supers.old }
    requires order { IsEvidenceOrder second.now evidence.now supers.old.graphs.graphs.items
        order.old }
    requires names { AreElements evidence.now evidence.now.cover }
    ensures told { IfOk
        result (λ is.
        IsTrue is ↔ AreOver mode first.now second.now evidence.now evidence.now.cover
        (covered_in mode first.now)) }
    ensures supers { IfOk
        result (λ _.
        AreSupers mode first.now second.now evidence.now.elements (length evidence.now.elements)
        supers.new) }
    ensures order { IfOk
        result (λ _.
        IsEvidenceOrder second.now evidence.now supers.new.graphs.graphs.items order.new) }
{
    match mode {
        Mode::Buchi => covers_letters(first, second, evidence, order, supers),
        Mode::Finite => covers_start(alloc, first, second, evidence, order, supers),
    }
}

/// Tests the cover, which is this item.
pub fn check_cover(
    alloc: Global,
    mode: Mode,
    first: &Auto,
    second: &Auto,
    evidence: &YesBody,
    item: u32,
    order: &mut Order,
    supers: &mut Supers,
) -> Result<(), CheckFault>
    requires supers { AreSupers mode first.now second.now evidence.now.elements
        (length evidence.now.elements) supers.old }
    requires order { IsEvidenceOrder second.now evidence.now supers.old.graphs.graphs.items
        order.old }
    ensures tells { Tells (cover_checks mode first.now second.now evidence.now item) result }
    ensures supers { IfOk
        result (λ _.
        AreSupers mode first.now second.now evidence.now.elements (length evidence.now.elements)
        supers.new) }
    ensures order { IfOk
        result (λ _.
        IsEvidenceOrder second.now evidence.now supers.new.graphs.graphs.items order.new) }
{
    if !are_elements(evidence, evidence.cover.as_slice()) {
        return Err(CheckFault::Refused(Refusal { rule: 1, item }));
    }
    if !covers_all(alloc, mode, first, second, evidence, order, supers)? {
        return Err(CheckFault::Refused(Refusal { rule: 13, item }));
    }
    Ok(())
}
