//! When a relation puts one set below another, and the states that it puts below a set.

ghost use Rattle.std.specs.Prelude.{◌≡◌, ◌+◌, ◌/◌, ◌<◌, ◌↔◌, ℕ, List, length, IsTrue};
ghost use Rattle.auto_core.specs.Automaton.{IsAccepting};
ghost use Rattle.auto_core.specs.Game.{Holds};
ghost use Rattle.auto_core.specs.Rows.{HasBit};
ghost use Rattle.set_rows.specs.Sets.{IsRow, IsSubset, IsBelow, IsCovered};

use auto_core::{Auto, rows};
use bit_rel::Rel;
use bit_rows::meets;

/// Writes the states that the order relates to some member of the row's set. Another set is a
/// subset of what is written just where the order relates each of its members to a member of the
/// row's set (`covering`).
pub fn write_below(order: &Rel, row: &[u64], out: &mut [u64])
    requires row { IsRow order.now.size row.now }
    requires len { length out.old ≡ (order.now.size + 63) / 64 }
    ensures row { IsRow order.now.size out.new }
    ensures members { (q : ℕ) → HasBit out.new q ↔ IsBelow (Holds order.now.pairs) row.now q }
    ensures covering { (other : List ℕ)
        → IsSubset other out.new ↔ IsCovered (Holds order.now.pairs) other row.now }
{
    rows::clear_row(out);
    for state in 0..order.size() {
        if meets(order.row(state), row) {
            rows::set_bit(out, state as usize);
        }
    }
}

/// Tells whether the order relates the state, if it is a member of the first set, to a member of
/// the second.
fn is_covered(order: &Rel, state: u32, row: &[u64], other: &[u64]) -> bool
    requires is_state { state < order.now.size }
    requires row { IsRow order.now.size row.now }
    requires other { IsRow order.now.size other.now }
    ensures { IsTrue result
        ↔ (HasBit row.now state → IsBelow (Holds order.now.pairs) other.now state) }
{
    !rows::has_bit(row, state as usize) || meets(order.row(state), other)
}

/// Tells whether the order relates each member of the first set to a member of the second. Where
/// many sets are compared with one and the same second set, `write_below` and then `subset` is
/// faster.
pub fn covers(order: &Rel, row: &[u64], other: &[u64]) -> bool
    requires row { IsRow order.now.size row.now }
    requires other { IsRow order.now.size other.now }
    ensures { IsTrue result ↔ IsCovered (Holds order.now.pairs) row.now other.now }
{
    for state in 0..order.size() {
        if !is_covered(order, state, row, other) {
            return false;
        }
    }
    true
}

/// Tells whether the set has an accepting member.
pub fn has_accepting(automaton: &Auto, row: &[u64]) -> bool
    requires { IsRow automaton.now.states row.now }
    ensures { IsTrue result ↔ ((q : ℕ) × HasBit row.now q × IsAccepting automaton.now q) }
{
    for state in 0..automaton.states() {
        if rows::has_bit(row, state as usize) && automaton.accepting(state) {
            return true;
        }
    }
    false
}
