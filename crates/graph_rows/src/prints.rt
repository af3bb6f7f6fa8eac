//! Prints of graphs, by which most graphs that do not cover one another are told apart at once.

ghost use Rattle.std.specs.Prelude.{◌≡◌, ◌<◌, ◌≤◌, ◌⊎◌, ◌↔◌, ℕ, [], ◌∷◌, length, true, false, IsTrue};
ghost use Rattle.auto_core.specs.Game.{Holds};
ghost use Rattle.auto_core.specs.Rows.{bit_of, HasBit};
ghost use Rattle.graph_rows.specs.Block.{block_graph, width_of, IsFormed};
ghost use Rattle.graph_rows.specs.Prints.{AreBitsOf, AreRelated, HasAnswered, HasNoAnswer, HasOwn, IsFolded, IsPicked, IsPrint, Misses, MissesAt, folded_bit, is_past, joined_pairs, picked_source, picked_target, spread};

use crate::block;
use crate::covering::answers;
use auto_core::rows;
use bit_rel::Rel;
use bit_rows::{meets, next_bit};

/// Up to so many states, a print tells of each pair of states.
const MOST_FOLDED: u32 = 64;

/// By how much the numbers rise that are spread over the states for the first state of a picked
/// pair, and for the second.
const SOURCE_STEP: u32 = 2_654_435_769;

const TARGET_STEP: u32 = 2_246_822_519;

/// What a graph says of pairs of states by 64 bits, each of which is asked about some pairs: which
/// of them it has, and to which of them it has an answer.
#[derive(Clone, Copy, Debug)]
pub struct PairBits {
    /// Which of the pairs the graph has.
    pub own: u64,
    /// To which of them it has an answer.
    pub answered: u64,
}

/// What a graph says of pairs of states: of 64 that are picked, by a bit each; and, where there are
/// few states, of each pair, by a bit that it shares with others.
#[derive(Clone, Copy, Debug)]
pub struct Print {
    /// Of the picked pairs, a bit for each.
    pub picked: PairBits,
    /// Of each pair, a bit that it shares with others, where there are few states; else no bit.
    pub folded: PairBits,
}

/// The state at which the j-th multiple of the step falls, where the numbers below 2^32 are spread
/// over the n states.
fn spread(n: u32, step: u32, j: u32) -> u32
    requires some { 1 ≤ n }
    requires few { j < 64 }
    ensures is { result ≡ spread n step j }
    ensures below { result < n }
{
    let place = u64::from(j) * u64::from(step) % 4_294_967_296;
    (place * u64::from(n) / 4_294_967_296) as u32
}

/// The first state of the pair with the number `j`.
fn picked_source(n: u32, j: u32) -> u32
    requires some { 1 ≤ n }
    requires few { j < 64 }
    ensures is { result ≡ picked_source n j }
    ensures below { result < n }
{
    spread(n, SOURCE_STEP, j)
}

/// The second state of the pair with the number `j`.
fn picked_target(n: u32, j: u32) -> u32
    requires some { 1 ≤ n }
    requires few { j < 64 }
    ensures is { result ≡ picked_target n j }
    ensures below { result < n }
{
    spread(n, TARGET_STEP, j)
}

/// Tells whether the graph has the pair with the number `j`, which is that of these states.
fn has_picked(order: &Rel, g: &[u64], j: u32, p: u32, q: u32) -> bool
    requires formed { IsFormed order.now.size g.now }
    requires left { p < order.now.size }
    requires right { q < order.now.size }
    ensures { result ≡ true → joined_pairs (block_graph order.now.size g.now) (is_past j) p q }
{
    let value = block::arc(order.size(), g, p, q);
    if j % 2 == 1 { value == 2 } else { value >= 1 }
}

/// Tells whether the graph has an answer to the pair of these states, past an accepting state or
/// not.
fn answers_pair(order: &Rel, g: &[u64], p: u32, q: u32, past: bool) -> bool
    requires formed { IsFormed order.now.size g.now }
    requires left { p < order.now.size }
    requires right { q < order.now.size }
    ensures { result ≡ false
        → HasNoAnswer (Holds order.now.pairs) (block_graph order.now.size g.now) past p q }
{
    let n = order.size();
    let (joined, marked) = (block::joined(n, g), block::past(n, g));
    answers(order, rows::words_for(n), p, q, past, joined, marked)
}

/// Sets the bits of the picked pairs that the graph has, and of those that it has an answer to.
fn mark_picked(order: &Rel, g: &[u64], own: &mut [u64], answered: &mut [u64])
    requires formed { IsFormed order.now.size g.now }
    requires some { 1 ≤ order.now.size }
    requires own { own.old ≡ 0 ∷ [] }
    requires answered { answered.old ≡ 0 ∷ [] }
    ensures own { (x : ℕ) → own.new ≡ x ∷ []
        → HasOwn (IsPicked order.now.size) (block_graph order.now.size g.now) x }
    ensures answered { (x : ℕ) → answered.new ≡ x ∷ []
        → HasAnswered (IsPicked order.now.size) (Holds order.now.pairs)
        (block_graph order.now.size g.now) x }
{
    let n = order.size();
    for j in 0..64 {
        let p = picked_source(n, j);
        let q = picked_target(n, j);
        if has_picked(order, g, j, p, q) {
            rows::set_bit(own, j as usize);
        }
        if answers_pair(order, g, p, q, j % 2 == 1) {
            rows::set_bit(answered, j as usize);
        }
    }
}

/// The bits that the pairs of `p` with these states share with others, where each state has a bit.
fn turned(p: u32, states: u64) -> u64
    requires { p < 64 }
    ensures { (j : ℕ) → HasBit (result ∷ []) j
        ↔ ((q : ℕ) × HasBit (states ∷ []) q × (folded_bit p q ≡ j)) }
{
    states.rotate_left(p * 15)
}

/// Tells whether the order may relate the state to another one.
fn may_relate(order: &Rel, q: u32) -> bool
    requires few { order.now.size ≤ MOST_FOLDED }
    requires is_state { q < order.now.size }
    ensures { result ≡ false → (u : ℕ) → Holds order.now.pairs q u → u ≡ q }
{
    order.row(q)[0] != 1 << q
}

/// Sets the bits of the states that the order may relate to others.
fn mark_related(order: &Rel, states: &mut [u64])
    requires few { order.now.size ≤ MOST_FOLDED }
    requires none { states.old ≡ 0 ∷ [] }
    ensures { AreRelated order.now.size (Holds order.now.pairs) states.new }
{
    for q in 0..order.size() {
        if may_relate(order, q) {
            rows::set_bit(states, q as usize);
        }
    }
}

/// Sets the bits of those of the related states to which the row has an answer.
fn mark_answered(order: &Rel, related: &[u64], row: &[u64], states: &mut [u64])
    requires few { order.now.size ≤ MOST_FOLDED }
    requires related { AreRelated order.now.size (Holds order.now.pairs) related.now }
    requires row { length row.now ≡ width_of order.now.size }
    requires states { length states.old ≡ 1 }
    ensures answered { (q : ℕ) → HasBit related.now q → bit_of states.new q ≡ false → (u : ℕ)
        → HasBit row.now u → Holds order.now.pairs q u → ⊥ }
    ensures stay { (q : ℕ) → HasBit states.old q → HasBit states.new q }
    ensures len { length states.new ≡ 1 }
{
    let mut at = 0;
    while let Some(q) = next_bit(related, at) {
        if meets(row, order.row(q as u32)) {
            rows::set_bit(states, q);
        }
        at = q + 1;
    }
}

/// The states to which the row has an answer, a bit for each, and those of the row.
fn answered_states(order: &Rel, related: &[u64], row: &[u64]) -> u64
    requires few { order.now.size ≤ MOST_FOLDED }
    requires related { AreRelated order.now.size (Holds order.now.pairs) related.now }
    requires row { length row.now ≡ width_of order.now.size }
    requires word { length row.now ≡ 1 }
    ensures { (q : ℕ) → q < order.now.size → bit_of (result ∷ []) q ≡ false → (u : ℕ)
        → HasBit row.now u → Holds order.now.pairs q u → ⊥ }
{
    let mut states = [row[0]];
    mark_answered(order, related, row, &mut states);
    states[0]
}

/// Sets the bits of all pairs that the graph has, and of those that it has an answer to.
fn mark_all(order: &Rel, g: &[u64], related: &[u64], own: &mut [u64], answered: &mut [u64])
    requires formed { IsFormed order.now.size g.now }
    requires few { order.now.size ≤ MOST_FOLDED }
    requires related { AreRelated order.now.size (Holds order.now.pairs) related.now }
    requires own { own.old ≡ 0 ∷ [] }
    requires answered { answered.old ≡ 0 ∷ [] }
    ensures own { (x : ℕ) → own.new ≡ x ∷ []
        → HasOwn (IsFolded order.now.size) (block_graph order.now.size g.now) x }
    ensures answered { (x : ℕ) → answered.new ≡ x ∷ []
        → HasAnswered (IsFolded order.now.size) (Holds order.now.pairs)
        (block_graph order.now.size g.now) x }
{
    let n = order.size();
    let joined = block::joined(n, g);
    for p in 0..n {
        let row = rows::row_at(joined, rows::words_for(n), p as usize);
        rows::add_bits(own, &[turned(p, row[0])]);
        rows::add_bits(answered, &[turned(p, answered_states(order, related, row))]);
    }
}

/// The bits of the picked pairs.
fn picked_bits(order: &Rel, g: &[u64]) -> PairBits
    requires formed { IsFormed order.now.size g.now }
    ensures { AreBitsOf (IsPicked order.now.size) (Holds order.now.pairs)
        (block_graph order.now.size g.now) result }
{
    if order.size() == 0 {
        return PairBits {
            own: 0,
            answered: 0,
        };
    }
    let mut own = [0];
    let mut answered = [0];
    mark_picked(order, g, &mut own, &mut answered);
    PairBits {
        own: own[0],
        answered: answered[0],
    }
}

/// The bits that all pairs of few states share.
fn folded_bits(order: &Rel, g: &[u64]) -> PairBits
    requires formed { IsFormed order.now.size g.now }
    ensures { AreBitsOf (IsFolded order.now.size) (Holds order.now.pairs)
        (block_graph order.now.size g.now) result }
{
    let mut own = [0];
    let mut answered = [0];
    if order.size() <= MOST_FOLDED {
        let mut related = [0];
        mark_related(order, &mut related);
        mark_all(order, g, &related, &mut own, &mut answered);
    }
    PairBits {
        own: own[0],
        answered: answered[0],
    }
}

/// The print of the graph.
pub fn print_of(order: &Rel, g: &[u64]) -> Print
    requires formed { IsFormed order.now.size g.now }
    ensures { IsPrint order.now.size (Holds order.now.pairs) g.now result }
{
    Print {
        picked: picked_bits(order, g),
        folded: folded_bits(order, g),
    }
}

/// Tells whether the second graph has no answer at a bit that the first has.
fn misses_at(first: &PairBits, second: &PairBits) -> bool
    ensures { IsTrue result ↔ MissesAt first.now second.now }
{
    first.own & !second.answered != 0
}

/// Tells whether the second graph has no answer to a pair that the first has: then the first does
/// not cover the second.
pub fn misses(first: &Print, second: &Print) -> bool
    ensures { IsTrue result ↔ Misses first.now second.now }
{
    misses_at(&first.picked, &second.picked) || misses_at(&first.folded, &second.folded)
}
