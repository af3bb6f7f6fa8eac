//! The state relation: the pairs of states whose triple with each word is held.

ghost use Rattle.std.specs.Prelude.{◌≡◌, ◌+◌, ◌/◌, ◌<◌, ◌≤◌, ◌⊎◌, ◌↔◌, ℕ, [], All, length, take, IfOk};
ghost use Rattle.auto_core.specs.Game.{Holds};
ghost use Rattle.auto_core.specs.Rows.{HasBit};
ghost use Rattle.auto_core.specs.Delayed.{IsTripleWord, HoldsTriple, AreStateRelated};
ghost use Rattle.delayed_sim.specs.Rankings.{IsRanking};
ghost use Rattle.delayed_sim.specs.Related.{HoldsEach};

use crate::delayed::Delayed;
use auto_core::{Memory, rows};
use bit_rel::Rel;
use bit_rows::{and_row, mark_below};
use std::alloc::Global;

/// Marks the right states of the triples of the left state with the word.
fn mark_row(delayed: &Delayed, p: u32, ahead: &[u32], row: &mut [u64])
    requires letters { IsTripleWord delayed.now.labels delayed.now.letters ahead.now }
    requires left { p < delayed.now.states }
    requires len { length row.old ≡ (delayed.now.states + 63) / 64 }
    requires valid { IsRanking delayed.now }
    ensures { (q : ℕ)
        → HasBit row.new q ↔ (HasBit row.old q ⊎ HoldsTriple delayed.now.triples ahead.now p q) }
{
    let begin = delayed.first_from(p, ahead, 0);
    let end = delayed.first_from(p, ahead, delayed.states());
    for at in begin..end {
        rows::set_bit(row, delayed.right(at) as usize);
    }
}

/// Takes from the row the states with which the left state has not each triple whose word begins
/// with the first letters of this one. `spare` is room for one row.
fn keep_each(
    delayed: &Delayed,
    p: u32,
    word: [u32; 3],
    chosen: u32,
    row: &mut [u64],
    spare: &mut [u64],
)
    requires left { p < delayed.now.states }
    requires inside { chosen < delayed.now.letters }
    requires short { delayed.now.letters ≤ 4 }
    requires letters { All (λ a. a < delayed.now.labels) (take chosen word) }
    requires row { length row.old ≡ (delayed.now.states + 63) / 64 }
    requires spare { length spare.old ≡ (delayed.now.states + 63) / 64 }
    requires valid { IsRanking delayed.now }
    ensures { (q : ℕ)
        → HasBit row.new q ↔ (HasBit row.old q × HoldsEach delayed.now (take chosen word) p q) }
{
    if chosen + 1 == delayed.letters() {
        rows::clear_row(spare);
        mark_row(delayed, p, &word[..chosen as usize], spare);
        and_row(row, rows::words_for(delayed.states()), 0, spare);
        return;
    }
    for letter in 0..delayed.labels() {
        let mut longer = word;
        longer[chosen as usize] = letter;
        keep_each(delayed, p, longer, chosen + 1, row, spare);
    }
}

/// Relates the state to those to which it is related whatever the word. `row` and `spare` are room
/// for one row.
fn relate_row(delayed: &Delayed, p: u32, related: &mut Rel, row: &mut [u64], spare: &mut [u64])
    requires equal { related.old.size ≡ delayed.now.states }
    requires left { p < delayed.now.states }
    requires row { length row.old ≡ (delayed.now.states + 63) / 64 }
    requires spare { length spare.old ≡ (delayed.now.states + 63) / 64 }
    requires valid { IsRanking delayed.now }
    ensures size { related.new.size ≡ related.old.size }
    ensures pairs { (r q : ℕ) → Holds related.new.pairs r q
        ↔ (Holds related.old.pairs r q ⊎ ((r ≡ p) × (q < delayed.now.states) × HoldsEach delayed.now [] p q)) }
{
    mark_below(row, delayed.states());
    keep_each(delayed, p, [0; 3], 0, row, spare);
    for q in 0..delayed.states() {
        if rows::has_bit(row, q as usize) {
            related.set(p, q);
        }
    }
}

/// Relates the states of each triple.
fn relate_triples(delayed: &Delayed, related: &mut Rel)
    requires equal { related.old.size ≡ delayed.now.states }
    requires alone { delayed.now.letters ≡ 1 }
    requires none { related.old.pairs ≡ [] }
    requires valid { IsRanking delayed.now }
    ensures size { related.new.size ≡ related.old.size }
    ensures pairs { (p q : ℕ)
        → Holds related.new.pairs p q
        ↔ ((p < delayed.now.states) × (q < delayed.now.states)
        × AreStateRelated delayed.now.labels 1 delayed.now.triples p q) }
{
    for at in 0..delayed.count() {
        related.set(delayed.left(at), delayed.right(at));
    }
}

/// The state relation. With one announced letter it has the pairs of the triples; with more of
/// them, each word is asked for.
pub(crate) fn relation_of(alloc: Global, delayed: &Delayed) -> Result<Rel, Memory>
    ensures size { IfOk result (λ r. r.size ≡ delayed.now.states) }
    ensures pairs { IfOk result (λ r. (p q : ℕ) → Holds r.pairs p q
        ↔ ((p < delayed.now.states) × (q < delayed.now.states) × AreStateRelated delayed.now.labels delayed.now.letters delayed.now.triples p q)) }
{
    let mut related = Rel::empty(alloc, delayed.states())?;
    if delayed.letters() == 1 {
        relate_triples(delayed, &mut related);
        return Ok(related);
    }
    let width = rows::words_for(delayed.states());
    let mut row = vec![in alloc; 0; width]?;
    let mut spare = vec![in alloc; 0; width]?;
    for p in 0..delayed.states() {
        relate_row(delayed, p, &mut related, &mut row, &mut spare);
    }
    Ok(related)
}
