//! The elements of an inclusion or a list: where they come from, their arcs, and their words'
//! graphs or sets.

ghost use Rattle.std.specs.Prelude.{◌≡◌, ◌+◌, ◌++◌, [], ◌∷◌, ◌*◌, ◌^◌, ◌<◌, ◌≤◌, ◌↔◌, ℕ, true, All, length, slice_index_or, IfOk, IsTrue, MatchOption};
ghost use Rattle.auto_core.specs.Graph.{arc_of};
ghost use Rattle.cert_value.specs.WellFormed.{is_origin};
ghost use Rattle.log_check.specs.Checks.{AllHold, FirstBroken, Tells, checks_of_each};
ghost use Rattle.cert_check.specs.Inclusion.{element_arcs, NamesOrigin, NamesElement, HasEarlierParent, GoesOn, no_element, element_checks};
ghost use Rattle.cert_check.specs.Supers.{block_len, held, held_block, IsGraphNumbered, AreSupers};

use crate::blocks;
use crate::blocks::Numbered;
use auto_core::{Auto, List, Memory, Mode, Origin, rows};
use cert_value::{Element, Mark};
use graph_pool::Pool;
use log_check::{CheckFault, Refusal};
use shared_graphs::Graphs;
use std::alloc::Global;
use supergraph::Arc;

/// The arcs of the first elements, the numbers of their graphs, in finite mode of their sets, and
/// the different ones themselves.
#[derive(Drop)]
pub struct Supers {
    /// The arc of each element.
    pub arcs: Vec<Arc>,
    /// The number of each element's graph.
    pub numbers: Vec<u32>,
    /// The graphs.
    pub graphs: Graphs,
}

/// How many words there are for the graph of a word, in finite mode for its set.
fn words_in(mode: Mode, states: u32) -> usize
    requires { 0 < states }
    ensures words { result ≡ block_len mode states }
    ensures some { 0 < result }
{
    match mode {
        Mode::Buchi => graph_rows::words_of(states),
        Mode::Finite => rows::words_for(states),
    }
}

impl Supers {
    /// The block of the element with this number.
    pub fn block(&self, e: usize) -> &[u64]
        requires { e < length self.now.numbers.items }
        ensures { result.now ≡ held_block self.now e }
    {
        self.graphs.graphs.block(self.numbers[e] as usize)
    }

    /// The arc of the element with this number, and the number of its graph.
    pub fn element(&self, e: usize) -> Numbered
        requires arcs { e < length self.now.arcs.items }
        requires numbers { e < length self.now.numbers.items }
        ensures { result ≡ held self.now e }
    {
        Numbered {
            arc: self.arcs[e],
            number: self.numbers[e],
        }
    }
}

fn names_origin(first: &Auto, count: usize, origin: &Origin) -> bool
    ensures { IsTrue result ↔ NamesOrigin first.now count origin.now }
{
    let transitions = first.transitions().len();
    match origin {
        Origin::Start => true,
        Origin::Base(t) => (*t as usize) < transitions,
        Origin::Next(p, t) => (*p as usize) < count && (*t as usize) < transitions,
    }
}

fn names_element(count: usize, mark: &Mark) -> bool
    ensures { IsTrue result ↔ NamesElement count mark.now }
{
    match mark {
        Mark::Live => true,
        Mark::Under(j) => (*j as usize) < count,
    }
}

fn has_earlier_parent(e: usize, origin: &Origin) -> bool
    ensures { IsTrue result ↔ HasEarlierParent e origin.now }
{
    match origin {
        Origin::Next(p, _) => (*p as usize) < e,
        _ => true,
    }
}

/// Tells whether the transition goes on from the parent, which is among the elements before.
fn goes_on(
    mode: Mode,
    first: &Auto,
    second: &Auto,
    elements: &List<Element>,
    supers: &Supers,
    e: usize,
    origin: &Origin,
) -> bool
    requires supers { AreSupers mode first.now second.now elements.now e supers.now }
    requires names { NamesOrigin first.now (length elements.now) origin.now }
    requires earlier { HasEarlierParent e origin.now }
    ensures { IsTrue result ↔ GoesOn first.now (element_arcs first.now elements.now) origin.now }
{
    match origin {
        Origin::Next(p, t) => {
            first.transitions()[*t as usize].source == supers.arcs[*p as usize].to
        }
        _ => true,
    }
}

/// The rule of what the element itself names that is broken first, if one is.
fn broken_rule(
    mode: Mode,
    first: &Auto,
    second: &Auto,
    elements: &List<Element>,
    supers: &Supers,
    e: usize,
    element: &Element,
) -> Option<u32>
    requires supers { AreSupers mode first.now second.now elements.now e supers.now }
    ensures { (item : ℕ) → MatchOption result
        (AllHold (element_checks first.now elements.now item e element.now))
        (λ rule. FirstBroken (element_checks first.now elements.now item e element.now) (record { rule = rule; item = item + e })) }
{
    let count = elements.as_slice().len();
    if !names_origin(first, count, &element.origin) {
        return Some(1);
    }
    if !names_element(count, &element.mark) {
        return Some(1);
    }
    if !has_earlier_parent(e, &element.origin) {
        return Some(10);
    }
    if !goes_on(mode, first, second, elements, supers, e, &element.origin) {
        return Some(11);
    }
    None
}

/// The arc of the element and the number of its graph, from the elements before.
fn compute(
    alloc: Global,
    mode: Mode,
    first: &Auto,
    second: &Auto,
    elements: &List<Element>,
    supers: &mut Supers,
    e: usize,
    origin: &Origin,
) -> Result<Numbered, Memory>
    requires supers { AreSupers mode first.now second.now elements.now e supers.old }
    requires begun { is_origin mode origin.now ≡ true }
    requires names { NamesOrigin first.now (length elements.now) origin.now }
    requires earlier { HasEarlierParent e origin.now }
    requires leaves { GoesOn first.now (element_arcs first.now elements.now) origin.now }
    ensures arcs { supers.new.arcs ≡ supers.old.arcs }
    ensures numbers { supers.new.numbers ≡ supers.old.numbers }
    ensures numbered { IfOk result
        (IsGraphNumbered mode first.now second.now supers.old.graphs supers.new.graphs
        (arc_of first.now (element_arcs first.now elements.now) origin.now)) }
{
    match origin {
        Origin::Start => blocks::start(alloc, first, second, &mut supers.graphs),
        Origin::Base(t) => blocks::base(first, second, *t, &mut supers.graphs),
        Origin::Next(p, t) => {
            let parent = supers.element(*p as usize);
            blocks::extend(alloc, mode, first, second, parent, *t, &mut supers.graphs)
        }
    }
}

/// Adds an arc and the number of its graph.
fn add(supers: &mut Supers, numbered: Numbered) -> Result<(), Memory>
    ensures arcs { IfOk
        result (λ _. supers.new.arcs.items ≡ supers.old.arcs.items ++ numbered.arc ∷ []) }
    ensures numbers { IfOk
        result (λ _. supers.new.numbers.items ≡ supers.old.numbers.items ++ numbered.number ∷ []) }
    ensures graphs { supers.new.graphs ≡ supers.old.graphs }
{
    supers.arcs.push(numbered.arc)?;
    supers.numbers.push(numbered.number)?;
    Ok(())
}

/// Adds the arc and the number of the graph of the element `e` with this origin.
fn add_element(
    alloc: Global,
    mode: Mode,
    first: &Auto,
    second: &Auto,
    elements: &List<Element>,
    supers: &mut Supers,
    e: usize,
    origin: &Origin,
) -> Result<(), Memory>
    requires supers { AreSupers mode first.now second.now elements.now e supers.old }
    requires element { e < length elements.now }
    requires is { origin.now ≡ (slice_index_or elements.now e no_element).origin }
    requires begun { is_origin mode origin.now ≡ true }
    requires names { NamesOrigin first.now (length elements.now) origin.now }
    requires earlier { HasEarlierParent e origin.now }
    requires leaves { GoesOn first.now (element_arcs first.now elements.now) origin.now }
    ensures { IfOk
        result (λ _. AreSupers mode first.now second.now elements.now (e + 1) supers.new) }
{
    let numbered = compute(alloc, mode, first, second, elements, supers, e, origin)?;
    add(supers, numbered)
}

/// Adds the arcs and the graphs of all elements, up to one that does not name what is there or go
/// on from an earlier one.
fn fill(
    alloc: Global,
    mode: Mode,
    first: &Auto,
    second: &Auto,
    elements: &List<Element>,
    item: u32,
    supers: &mut Supers,
) -> Result<(), CheckFault>
    requires few { length elements.now < 10 ^ 9 }
    requires few_items { item + length elements.now < 2 ^ 32 }
    requires begun { All (λ element. is_origin mode element.origin ≡ true) elements.now }
    requires none { AreSupers mode first.now second.now elements.now 0 supers.old }
    ensures tells { Tells
        (checks_of_each (element_checks first.now elements.now item) 0 elements.now) result }
    ensures supers { IfOk
        result (λ _.
        AreSupers mode first.now second.now elements.now (length elements.now) supers.new) }
{
    let items = elements.as_slice();
    for e in 0..items.len() {
        match broken_rule(mode, first, second, elements, supers, e, &items[e]) {
            Some(rule) => {
                return Err(CheckFault::Refused(Refusal {
                    rule,
                    item: item + e as u32,
                }));
            }
            None => {}
        }
        add_element(
            alloc,
            mode,
            first,
            second,
            elements,
            supers,
            e,
            &items[e].origin,
        )?;
    }
    Ok(())
}

/// The arcs and graphs of all elements, if each names what is there and goes on from an earlier
/// one. `item` is the number of the first one's item.
pub fn checked_elements(
    alloc: Global,
    mode: Mode,
    first: &Auto,
    second: &Auto,
    elements: &List<Element>,
    item: u32,
) -> Result<Supers, CheckFault>
    requires few { length elements.now < 10 ^ 9 }
    requires few_items { item + length elements.now < 2 ^ 32 }
    requires begun { All (λ element. is_origin mode element.origin ≡ true) elements.now }
    ensures tells { Tells
        (checks_of_each (element_checks first.now elements.now item) 0 elements.now) result }
    ensures supers { IfOk result
        (AreSupers mode first.now second.now elements.now (length elements.now)) }
{
    let mut pool = Pool::new(alloc, words_in(mode, second.states()));
    let mut supers = Supers {
        arcs: Vec::new(alloc),
        numbers: Vec::new(alloc),
        graphs: Graphs::new(alloc, &mut pool)?,
    };
    fill(alloc, mode, first, second, elements, item, &mut supers)?;
    Ok(supers)
}
