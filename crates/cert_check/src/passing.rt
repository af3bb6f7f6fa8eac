//! Whether the live elements pass: their pairs, in finite mode each by itself.

ghost use Rattle.std.specs.Prelude.{◌≡◌, ◌+◌, ◌^◌, ◌<◌, ◌↔◌, length, IsTrue};
ghost use Rattle.auto_core.specs.declared.parts.Mode.TheVariants.{Finite};
ghost use Rattle.log_check.specs.Checks.{Tells, checks_of_each};
ghost use Rattle.cert_check.specs.Inclusion.{PassesAlone, pair_checks};
ghost use Rattle.cert_check.specs.Supers.{AreSupers};

use crate::elements::Supers;
use crate::{covers, pairs};
use auto_core::{Auto, Mode};
use cert_value::YesBody;
use log_check::{CheckFault, Refusal};
use std::alloc::Global;

/// Tells whether the element passes if it is live: where its state is accepting, a member of its
/// set is.
fn passes_alone(first: &Auto, second: &Auto, evidence: &YesBody, supers: &Supers, e: usize) -> bool
    requires few { length evidence.now.elements < 10 ^ 9 }
    requires supers { AreSupers Finite first.now second.now evidence.now.elements
        (length evidence.now.elements) supers.now }
    requires element { e < length evidence.now.elements }
    ensures { IsTrue result ↔ PassesAlone first.now second.now evidence.now e }
{
    if !covers::is_live(evidence, e as u32) {
        return true;
    }
    !first.accepting(supers.arcs[e].to) || set_rows::has_accepting(second, supers.block(e))
}

/// Tests each element by itself, in order. `item` is the number of the first one's item.
fn check_alone(
    first: &Auto,
    second: &Auto,
    evidence: &YesBody,
    item: u32,
    supers: &Supers,
) -> Result<(), CheckFault>
    requires supers { AreSupers Finite first.now second.now evidence.now.elements
        (length evidence.now.elements) supers.now }
    requires few { length evidence.now.elements < 10 ^ 9 }
    requires few_items { item + length evidence.now.elements < 2 ^ 32 }
    ensures { Tells
        (checks_of_each (pair_checks Finite first.now second.now evidence.now item) 0
        evidence.now.elements) result }
{
    for e in 0..evidence.elements.as_slice().len() {
        if !passes_alone(first, second, evidence, supers, e) {
            return Err(CheckFault::Refused(Refusal {
                rule: 15,
                item: item + e as u32,
            }));
        }
    }
    Ok(())
}

/// Tests that the live elements pass, in order. `item` is the number of the first one's item.
pub fn check_passing(
    alloc: Global,
    mode: Mode,
    first: &Auto,
    second: &Auto,
    evidence: &YesBody,
    item: u32,
    supers: &Supers,
) -> Result<(), CheckFault>
    requires supers { AreSupers mode first.now second.now evidence.now.elements
        (length evidence.now.elements) supers.now }
    requires few { length evidence.now.elements < 10 ^ 9 }
    requires few_items { item + length evidence.now.elements < 2 ^ 32 }
    ensures { Tells
        (checks_of_each (pair_checks mode first.now second.now evidence.now item) 0
        evidence.now.elements) result }
{
    match mode {
        Mode::Buchi => pairs::check_pairs(alloc, first, second, evidence, item, supers),
        Mode::Finite => check_alone(first, second, evidence, item, supers),
    }
}
