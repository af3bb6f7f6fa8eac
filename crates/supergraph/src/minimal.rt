//! Graphs without the arcs that others of the same row make needless.

ghost use Rattle.std.specs.Prelude.{◌≡◌, ◌+◌, ◌*◌, ◌/◌, ◌<◌, ◌≤◌, ◌^◌, ℕ, [], ◌∷◌, true, length, IfNone, IfSome};
ghost use Rattle.auto_core.specs.Game.{Holds};
ghost use Rattle.auto_core.specs.Graph.{IsGraph, graph_of_tables};
ghost use Rattle.auto_core.specs.Reach.{HasArc, IsTable};
ghost use Rattle.auto_core.specs.Rows.{HasBit};
ghost use Rattle.bit_rel.specs.Relation.{IsPreorder};
ghost use Rattle.graph_rows.specs.Added.{HasAdded};
ghost use Rattle.graph_rows.specs.Block.{IsFormed, block_graph, width_of};
ghost use Rattle.supergraph.specs.Minimal.{CoverEachOther, IsDominated, IsLessened, IsMinimal, IsPartOf, IsWithout};

use auto_core::rows;
use bit_rel::Rel;
use bit_rows::{has_no_other, next_bit};
use graph_rows::{answers, targets_in};

/// Takes the arc to the target out of the row of both tables.
fn take_out(width: usize, row: u32, target: u32, joined: &mut [u64], past: &mut [u64])
    requires column { target < width * 64 }
    requires joined_row { row * width + width ≤ length joined.old }
    requires past_row { row * width + width ≤ length past.old }
    ensures joined { IsWithout width row target joined.old joined.new }
    ensures past { IsWithout width row target past.old past.new }
{
    rows::clear_cell(joined, width, row as usize, target as usize);
    rows::clear_cell(past, width, row as usize, target as usize);
}

/// Joins the state of the row to the target again, past an accepting state if `flagged` says so.
fn put_back(
    width: usize,
    row: u32,
    target: u32,
    flagged: bool,
    joined: &mut [u64],
    past: &mut [u64],
)
    requires column { target < width * 64 }
    requires joined_row { row * width + width ≤ length joined.old }
    requires past_row { row * width + width ≤ length past.old }
    ensures joined { HasAdded width row (λ q. q ≡ target) joined.old joined.new }
    ensures past { HasAdded width row (λ q. (q ≡ target) × (flagged ≡ true)) past.old past.new }
{
    rows::set_cell(joined, width, row as usize, target as usize);
    if flagged {
        rows::set_cell(past, width, row as usize, target as usize);
    }
}

/// Takes the arc to the target out of the row, if it is there, and puts it back where no other arc
/// makes it needless.
fn lessen_arc(
    order: &Rel,
    width: usize,
    row: u32,
    target: u32,
    joined: &mut [u64],
    past: &mut [u64],
)
    requires order { IsPreorder order.now.size order.now.pairs }
    requires width { width ≡ width_of order.now.size }
    requires joined { IsTable joined.old order.now.size width }
    requires past { IsTable past.old order.now.size width }
    requires within { IsGraph (graph_of_tables joined.old past.old order.now.size width) }
    requires few { width < 2 ^ 32 }
    requires is_row { row < order.now.size }
    requires is_target { target < order.now.size }
    ensures joined { IsTable joined.new order.now.size width }
    ensures past { IsTable past.new order.now.size width }
    ensures lessened { IsLessened (Holds order.now.pairs) (graph_of_tables joined.old past.old order.now.size width)
        (graph_of_tables joined.new past.new order.now.size width) }
    ensures minimal { HasArc joined.new order.now.size width row target
        → IsDominated (Holds order.now.pairs) (graph_of_tables joined.new past.new order.now.size width) row target → ⊥ }
{
    if !rows::has_cell(joined, width, row as usize, target as usize) {
        return;
    }
    let flagged = rows::has_cell(past, width, row as usize, target as usize);
    take_out(width, row, target, joined, past);
    if !answers(order, width, row, target, flagged, joined, past) {
        put_back(width, row, target, flagged, joined, past);
    }
}

/// Takes the needless arcs to the target out of all rows.
fn lessen_target(order: &Rel, width: usize, target: u32, joined: &mut [u64], past: &mut [u64])
    requires order { IsPreorder order.now.size order.now.pairs }
    requires few { width < 2 ^ 32 }
    requires width { width ≡ width_of order.now.size }
    requires joined { IsTable joined.old order.now.size width }
    requires past { IsTable past.old order.now.size width }
    requires within { IsGraph (graph_of_tables joined.old past.old order.now.size width) }
    requires is_target { target < order.now.size }
    ensures joined { IsTable joined.new order.now.size width }
    ensures past { IsTable past.new order.now.size width }
    ensures lessened { IsLessened (Holds order.now.pairs) (graph_of_tables joined.old past.old order.now.size width)
        (graph_of_tables joined.new past.new order.now.size width) }
    ensures minimal { (s : ℕ) → HasArc joined.new order.now.size width s target
        → IsDominated (Holds order.now.pairs) (graph_of_tables joined.new past.new order.now.size width) s target → ⊥ }
{
    if has_no_other(order.row(target), target as usize) {
        return;
    }
    for row in 0..order.size() {
        lessen_arc(order, width, row, target, joined, past);
    }
}

/// Takes the needless arcs to these states of the word, its bits, out of all rows.
fn lessen_targets(
    order: &Rel,
    width: usize,
    word: usize,
    targets: u64,
    joined: &mut [u64],
    past: &mut [u64],
)
    requires order { IsPreorder order.now.size order.now.pairs }
    requires few { width < 2 ^ 32 }
    requires width { width ≡ width_of order.now.size }
    requires joined { IsTable joined.old order.now.size width }
    requires past { IsTable past.old order.now.size width }
    requires within { IsGraph (graph_of_tables joined.old past.old order.now.size width) }
    requires states_fit { order.now.size < 2 ^ 32 }
    requires states { (j : ℕ) → HasBit (targets ∷ []) j → word * 64 + j < order.now.size }
    ensures joined { IsTable joined.new order.now.size width }
    ensures past { IsTable past.new order.now.size width }
    ensures lessened { IsLessened (Holds order.now.pairs) (graph_of_tables joined.old past.old order.now.size width)
        (graph_of_tables joined.new past.new order.now.size width) }
    ensures minimal { (j : ℕ) → HasBit (targets ∷ []) j → (s : ℕ) → HasArc joined.new order.now.size width s (word * 64 + j)
        → IsDominated (Holds order.now.pairs) (graph_of_tables joined.new past.new order.now.size width) s (word * 64 + j) → ⊥ }
{
    let asked = [targets];
    let mut at = 0;
    while let Some(bit) = next_bit(&asked, at) {
        lessen_target(order, width, (word * 64 + bit) as u32, joined, past);
        at = bit + 1;
    }
}

/// Takes the needless arcs to the states of the word out of all rows. Only the states that arcs
/// lead to are looked at.
fn lessen_word(order: &Rel, width: usize, word: usize, joined: &mut [u64], past: &mut [u64])
    requires order { IsPreorder order.now.size order.now.pairs }
    requires few { width < 2 ^ 32 }
    requires width { width ≡ width_of order.now.size }
    requires joined { IsTable joined.old order.now.size width }
    requires past { IsTable past.old order.now.size width }
    requires within { IsGraph (graph_of_tables joined.old past.old order.now.size width) }
    requires word { word < width }
    ensures joined { IsTable joined.new order.now.size width }
    ensures past { IsTable past.new order.now.size width }
    ensures lessened { IsLessened (Holds order.now.pairs) (graph_of_tables joined.old past.old order.now.size width)
        (graph_of_tables joined.new past.new order.now.size width) }
    ensures minimal { (s t : ℕ) → t / 64 ≡ word → HasArc joined.new order.now.size width s t
        → IsDominated (Holds order.now.pairs) (graph_of_tables joined.new past.new order.now.size width) s t → ⊥ }
{
    let targets = targets_in(width, word, order.size(), joined);
    lessen_targets(order, width, word, targets, joined, past);
}

/// Takes the needless arcs out of both tables.
fn lessen(order: &Rel, width: usize, joined: &mut [u64], past: &mut [u64])
    requires order { IsPreorder order.now.size order.now.pairs }
    requires width { width ≡ width_of order.now.size }
    requires joined { IsTable joined.old order.now.size width }
    requires past { IsTable past.old order.now.size width }
    requires within { IsGraph (graph_of_tables joined.old past.old order.now.size width) }
    ensures joined { IsTable joined.new order.now.size width }
    ensures past { IsTable past.new order.now.size width }
    ensures lessened { IsLessened (Holds order.now.pairs) (graph_of_tables joined.old past.old order.now.size width)
        (graph_of_tables joined.new past.new order.now.size width) }
    ensures minimal { IsMinimal (Holds order.now.pairs)
        (graph_of_tables joined.new past.new order.now.size width) }
{
    for word in 0..width {
        lessen_word(order, width, word, joined, past);
    }
}

/// Takes each arc out of the graph that another arc of its row makes needless: one of at least its
/// value, to a state that the order relates its target to. Of arcs to states that are related both
/// ways one stays.
pub fn minimise(order: &Rel, g: &mut [u64])
    requires order { IsPreorder order.now.size order.now.pairs }
    requires formed { IsFormed order.now.size g.old }
    ensures formed { IsFormed order.now.size g.new }
    ensures cover { CoverEachOther (Holds order.now.pairs) (block_graph order.now.size g.old)
        (block_graph order.now.size g.new) }
    ensures part { IsPartOf (block_graph order.now.size g.new) (block_graph order.now.size g.old) }
    ensures minimal { IsMinimal (Holds order.now.pairs) (block_graph order.now.size g.new) }
{
    let states = order.size();
    let width = rows::words_for(states);
    let (joined, past) = g.split_at_mut(states as usize * width);
    lessen(order, width, joined, past);
}
