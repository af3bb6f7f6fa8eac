//! Checks that a list has different elements, one more than its limit.

ghost use Rattle.std.specs.Prelude.{◌≡◌, ◌+◌, ◌^◌, ◌<◌, true, IfOk, length};
ghost use Rattle.std.specs.List.{list_all};
ghost use Rattle.cert_value.specs.WellFormed.{is_origin};
ghost use Rattle.log_check.specs.Checks.{Tells};
ghost use Rattle.cert_check.specs.Listing.{as_elements, listing_checks};

use crate::{elements, seen};
use auto_core::{Auto, List, Memory, Mode, Origin};
use cert_value::{Element, ListBody, Mark};
use log_check::{CheckFault, Refusal};
use std::alloc::Global;

/// The elements with these origins, all of them live.
fn elements_from(alloc: Global, origins: &[Origin]) -> Result<List<Element>, Memory>
    ensures { IfOk result (λ elements. elements ≡ as_elements origins.now) }
{
    let mut elements = List::new(alloc);
    for origin in origins {
        elements.push(Element {
            mark: Mark::Live,
            origin: *origin,
        })?;
    }
    Ok(elements)
}

/// Tests the list by all its rules, in their order, on the automata that the logs lead to. `item`
/// is the number of the limit's item.
pub fn check_listing(
    alloc: Global,
    mode: Mode,
    first: &Auto,
    second: &Auto,
    list: &ListBody,
    item: u32,
) -> Result<(), CheckFault>
    requires few { length list.now.elements < 10 ^ 9 }
    requires few_items { item + 1 + length list.now.elements < 2 ^ 32 }
    requires begun { list_all (is_origin mode) list.now.elements ≡ true }
    ensures { Tells (listing_checks mode list.now item first.now second.now) result }
{
    let elements = elements_from(alloc, list.elements.as_slice())?;
    let supers = elements::checked_elements(alloc, mode, first, second, &elements, item + 1)?;
    if elements.as_slice().len() as u64 != list.limit as u64 + 1 {
        return Err(CheckFault::Refused(Refusal { rule: 18, item }));
    }
    seen::check_differences(alloc, mode, first, second, &elements, item + 1, &supers)
}
