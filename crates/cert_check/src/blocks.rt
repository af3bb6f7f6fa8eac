//! What the check holds of an element beside its arc: the graph of its word, in finite mode the
//! word's set. Each different one is kept once, with a number.

ghost use Rattle.std.specs.Prelude.{◌≡◌, ◌<◌, ◌↔◌, ℕ, [], length, vec_len, IfOk, IsTrue};
ghost use Rattle.auto_core.specs.Automaton.{Automaton, trans_at};
ghost use Rattle.auto_core.specs.Graph.{WordArc, start_arc, base_arc, extended_arc};
ghost use Rattle.auto_core.specs.declared.parts.Mode.TheVariants.{Buchi, Finite};
ghost use Rattle.cert_check.specs.Inclusion.{SubsumesIn};
ghost use Rattle.shared_graphs.specs.Memo.{AllTold};
ghost use Rattle.shared_graphs.specs.Graphs.{block_at};
ghost use Rattle.shared_graphs.specs.GraphPairs.{FitsCovering};
ghost use Rattle.auto_core.specs.Rows.{HasBit};
ghost use Rattle.auto_core.specs.Pairs.{set_after};
ghost use Rattle.set_rows.specs.Sets.{IsRow};
ghost use Rattle.supergraph.specs.Stands.{with_word};
ghost use Rattle.cert_check.specs.Supers.{block_len, IsBlock, IsStockIn, StandFor, IsLonger, IsGraphNumbered};

use crate::orders::Order;
use auto_core::{Auto, Memory, Mode, rows};
use bit_rel::Rel;
use shared_graphs::{GraphBlocks, Graphs};
use std::alloc::Global;
use supergraph::Arc;

/// An arc, and the number of its word's graph, in finite mode of its word's set.
#[derive(Clone, Copy)]
pub struct Numbered {
    /// The arc.
    pub arc: Arc,
    /// The number of the graph, in finite mode of the set.
    pub number: u32,
}

/// Room for the set of a word.
fn empty_set(alloc: Global, states: u32) -> Result<Vec<u64>, Memory>
    ensures { IfOk result (λ set. vec_len set ≡ block_len Finite states) }
{
    Ok(vec![in alloc; 0; rows::words_for(states)]?)
}

/// The set of the empty word.
fn start_set(alloc: Global, second: &Auto) -> Result<Vec<u64>, Memory>
    ensures row { IfOk result (λ set. IsRow second.now.states set.items) }
    ensures alone { IfOk result (λ set. (q : ℕ) → HasBit set.items q ↔ (q ≡ second.now.initial)) }
{
    let mut set = empty_set(alloc, second.states())?;
    set_rows::write_one(second.states(), second.initial(), &mut set);
    Ok(set)
}

/// The arc of the empty word.
fn empty_arc(first: &Auto) -> Arc
    ensures arc { with_word result [] ≡ start_arc first.now }
    ensures state { first.now.initial < first.now.states }
{
    Arc {
        from: first.initial(),
        to: first.initial(),
        accepting: false,
    }
}

/// The arc of the empty word, with its set.
pub fn start(
    alloc: Global,
    first: &Auto,
    second: &Auto,
    graphs: &mut Graphs,
) -> Result<Numbered, Memory>
    requires { IsStockIn Finite second.now graphs.old }
    ensures { IfOk result
        (IsGraphNumbered Finite first.now second.now graphs.old graphs.new (start_arc first.now)) }
{
    let set = start_set(alloc, second)?;
    let number = graphs.number_of(&set)?;
    let arc = empty_arc(first);
    Ok(Numbered { arc, number })
}

/// The arc of the transition, with its letter's graph.
pub fn base(first: &Auto, second: &Auto, t: u32, graphs: &mut Graphs) -> Result<Numbered, Memory>
    requires number { t < length first.now.transitions }
    requires stock { IsStockIn Buchi second.now graphs.old }
    ensures { IfOk result
        (IsGraphNumbered Buchi first.now second.now graphs.old graphs.new
        (base_arc first.now (trans_at first.now t))) }
{
    let label = first.transitions()[t as usize].label;
    let number = graphs.letter(second, label)?;
    let arc = supergraph::base(first, t);
    Ok(Numbered { arc, number })
}

/// The set that the letter leads to from the set.
fn set_behind(alloc: Global, second: &Auto, from: &[u64], label: u32) -> Result<Vec<u64>, Memory>
    requires { IsRow second.now.states from.now }
    ensures row { IfOk result (λ set. IsRow second.now.states set.items) }
    ensures members { IfOk
        result (λ set.
        (q : ℕ) → HasBit set.items q ↔ set_after second.now (HasBit from.now) label q) }
{
    let mut set = empty_set(alloc, second.states())?;
    set_rows::write_after(second, label, from, &mut set);
    Ok(set)
}

/// The number of the set of a word with one letter more, from that of the word's set.
fn longer_set(
    alloc: Global,
    second: &Auto,
    number: u32,
    label: u32,
    graphs: &mut Graphs,
) -> Result<u32, Memory>
    requires stock { IsStockIn Finite second.now graphs.old }
    requires formed { IsRow second.now.states (block_at graphs.old.graphs.items number) }
    ensures { IfOk result (IsLonger Finite second.now graphs.old graphs.new number label) }
{
    let set = set_behind(alloc, second, graphs.graphs.block(number as usize), label)?;
    graphs.number_of(&set)
}

/// The number of what a word with one letter more leads to, from that of what the word does.
fn longer(
    alloc: Global,
    mode: Mode,
    second: &Auto,
    number: u32,
    label: u32,
    graphs: &mut Graphs,
) -> Result<u32, Memory>
    requires stock { IsStockIn mode second.now graphs.old }
    requires formed { IsBlock mode second.now.states (block_at graphs.old.graphs.items number) }
    ensures { IfOk result (IsLonger mode second.now graphs.old graphs.new number label) }
{
    match mode {
        Mode::Buchi => graphs.after(alloc, second, number, label),
        Mode::Finite => longer_set(alloc, second, number, label, graphs),
    }
}

/// The arc with the transition behind it, and what its word leads to.
pub fn extend(
    alloc: Global,
    mode: Mode,
    first: &Auto,
    second: &Auto,
    from: Numbered,
    t: u32,
    graphs: &mut Graphs,
) -> Result<Numbered, Memory>
    requires number { t < length first.now.transitions }
    requires leaves { (trans_at first.now t).source ≡ from.arc.to }
    requires stock { IsStockIn mode second.now graphs.old }
    requires formed { IsBlock mode second.now.states
        (block_at graphs.old.graphs.items from.number) }
    ensures { IfOk result (λ longer. (x : WordArc) → StandFor mode first.now second.now from.arc (block_at graphs.old.graphs.items from.number) x
        → IsGraphNumbered mode first.now second.now graphs.old graphs.new (extended_arc first.now x (trans_at first.now t)) longer) }
{
    let label = first.transitions()[t as usize].label;
    let number = longer(alloc, mode, second, from.number, label, graphs)?;
    let arc = supergraph::extend(first, &from.arc, t);
    Ok(Numbered { arc, number })
}

/// Tells whether the first arc with its set subsumes the second.
fn subsumes_set(order: &Rel, x: &Arc, set: &[u64], y: &Arc, other: &[u64]) -> bool
    requires first { IsRow order.now.size set.now }
    requires second { IsRow order.now.size other.now }
    ensures { (A B : Automaton) (v w : WordArc) → B.states ≡ order.now.size → StandFor Finite A B x.now set.now v → StandFor Finite A B y.now other.now w
        → IsTrue result ↔ SubsumesIn Finite B order.now.pairs v w }
{
    x.to == y.to && set_rows::covers(order, set, other)
}

/// Tells whether the first arc with its graph, in finite mode with its set, subsumes the second.
pub fn subsumes(
    mode: Mode,
    order: &mut Order,
    graphs: &GraphBlocks,
    x: &Numbered,
    y: &Numbered,
) -> bool
    requires first { IsBlock mode order.old.rel.size (block_at graphs.now.items x.now.number) }
    requires second { IsBlock mode order.old.rel.size (block_at graphs.now.items y.now.number) }
    requires covers { AllTold (FitsCovering order.old.rel.size order.old.rel.pairs graphs.now.items)
        order.old.covers.told.items }
    ensures relation { order.new.rel ≡ order.old.rel }
    ensures covers { AllTold (FitsCovering order.old.rel.size order.old.rel.pairs graphs.now.items)
        order.new.covers.told.items }
    ensures told { (A B : Automaton) (v w : WordArc) → B.states ≡ order.old.rel.size
        → StandFor mode A B x.now.arc (block_at graphs.now.items x.now.number) v → StandFor mode A B y.now.arc (block_at graphs.now.items y.now.number) w
        → IsTrue result ↔ SubsumesIn mode B order.old.rel.pairs v w }
{
    match mode {
        Mode::Buchi => shared_graphs::subsumes(
            &order.rel,
            graphs,
            &mut order.covers,
            &x.arc,
            x.number,
            &y.arc,
            y.number,
        ),
        Mode::Finite => subsumes_set(
            &order.rel,
            &x.arc,
            graphs.block(x.number as usize),
            &y.arc,
            graphs.block(y.number as usize),
        ),
    }
}
