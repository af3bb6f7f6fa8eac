//! The states before each set of four neighbouring states, in a table: the states before a row of
//! many are found sixteen at a time.

ghost use Rattle.std.specs.Prelude.{◌≡◌, ◌+◌, ◌*◌, ◌/◌, ◌^◌, ◌<◌, ◌≤◌, ◌↔◌, ◌⊎◌, ◌==◌, ◌||◌, ℕ, true, false, length, IfOk};
ghost use Rattle.std.specs.Int.{bit_at};
ghost use Rattle.auto_core.specs.Automaton.{IsAutomaton};
ghost use Rattle.auto_core.specs.Rows.{bit_of, HasBit, HasCell};
ghost use Rattle.delayed_game.specs.Before.{LeadsTo, LeadsToSet, LeadsToFour, IsSetTable, AreSetsIfAny};

use crate::before::{mark_before, mark_ends};
use crate::board::bits_in;
use auto_core::{Auto, Memory, rows};
use bit_rows::{next_bit, write_row};
use std::alloc::Global;

/// A table is made where a row has at most so many words.
const MOST_WORDS: usize = 32;

/// And where the rows of all letters have at most so many words.
const MOST_LETTER_WORDS: usize = 64;

/// Tells whether the binary digit of the number at this place is one.
fn has_digit(number: usize, i: usize) -> bool
    requires place { i < 4 }
    ensures { result ≡ (bit_at number i == 1) }
{
    (number >> i) & 1 == 1
}

/// Tells whether the set with this number has the state at place `i` of its four, which is one of
/// the automaton's.
fn is_in_set(automaton: &Auto, number: usize, i: usize) -> bool
    requires place { i < 4 }
    ensures some { result ≡ true
        → (bit_at number i ≡ 1) × (number / 16 * 4 + i < automaton.now.states) }
    ensures none { result ≡ false → bit_at number i ≡ 1
        → automaton.now.states ≤ number / 16 * 4 + i }
{
    if !has_digit(number, i) {
        return false;
    }
    number / 16 * 4 + i < automaton.states() as usize
}

/// Marks the states from which a move leads to a state of the set with this number, each in the row
/// of the move's letter.
fn mark_set(automaton: &Auto, number: usize, made: &mut [u64], width: usize)
    requires valid { IsAutomaton automaton.now }
    requires room { automaton.now.states ≤ width * 64 }
    requires made { length made.old ≡ automaton.now.labels * width }
    ensures { (a q : ℕ) → q < width * 64
        → HasCell made.new width a q
        ↔ (HasCell made.old width a q ⊎ LeadsToSet automaton.now number a q) }
{
    for i in 0..4 {
        if is_in_set(automaton, number, i) {
            mark_before(automaton, (number / 16 * 4 + i) as u32, made, width);
        }
    }
}

/// Fills the table of sets. `made` is room for a row for each letter.
fn fill_sets(automaton: &Auto, sets: &mut [u64], stride: usize, made: &mut [u64], width: usize)
    requires valid { IsAutomaton automaton.now }
    requires room { automaton.now.states ≤ width * 64 }
    requires few { width ≤ MOST_WORDS }
    requires stride { stride ≡ automaton.now.labels * width }
    requires sets { length sets.old ≡ width * 256 * stride }
    requires made { length made.old ≡ stride }
    ensures { IsSetTable automaton.now width (width * 256) sets.new }
{
    for number in 0..width * 256 {
        rows::clear_row(made);
        mark_set(automaton, number, made, width);
        write_row(sets, stride, number, made);
    }
}

/// The table of sets; nothing where it would be large.
pub fn sets_of(alloc: Global, automaton: &Auto, width: usize) -> Result<Vec<u64>, Memory>
    requires valid { IsAutomaton automaton.now }
    requires width { width ≡ (automaton.now.states + 63) / 64 }
    ensures { IfOk result (λ v. AreSetsIfAny automaton.now width v.items) }
{
    let stride = automaton.labels() as usize * width;
    if width > MOST_WORDS {
        return Ok(Vec::new(alloc));
    }
    if stride > MOST_LETTER_WORDS {
        return Ok(Vec::new(alloc));
    }
    let mut sets = vec![in alloc; 0; width * 256 * stride]?;
    let mut made = vec![in alloc; 0; stride]?;
    fill_sets(automaton, &mut sets, stride, &mut made, width);
    Ok(sets)
}

/// Which of the four states with this number the row has: the lowest four digits.
fn set_in(ends: &[u64], four: usize) -> usize
    requires { four / 16 < length ends.now }
    ensures below { result < 16 }
    ensures digits { (i : ℕ) → i < 4 → bit_at result i ≡ 1 ↔ HasBit ends.now (four * 4 + i) }
{
    ((ends[four / 16] >> (four % 16 * 4)) % 16) as usize
}

/// The row of the table for the set of those of the four neighbouring states that `ends` has.
fn row_of_four<'a>(
    automaton: &Auto,
    sets: &'a [u64],
    ends: &[u64],
    four: usize,
    width: usize,
) -> &'a [u64]
    requires valid { IsAutomaton automaton.now }
    requires width { width ≡ (automaton.now.states + 63) / 64 }
    requires sets { IsSetTable automaton.now width (width * 256) sets.now }
    requires ends_len { length ends.now ≡ width }
    requires four { four < width * 16 }
    ensures len { length result.now ≡ automaton.now.labels * width }
    ensures leads { (a q : ℕ) → q < width * 64
        → HasCell result.now width a q ↔ LeadsToFour automaton.now a ends.now four q }
{
    let set = set_in(ends, four);
    rows::row_at(sets, automaton.labels() as usize * width, four * 16 + set)
}

/// Sets each bit that one of the four other rows of the same length has.
fn or_each_into(into: &mut [u64], first: &[u64], second: &[u64], third: &[u64], fourth: &[u64])
    requires first { length into.old ≡ length first.now }
    requires second { length into.old ≡ length second.now }
    requires third { length into.old ≡ length third.now }
    requires fourth { length into.old ≡ length fourth.now }
    ensures { (i : ℕ)
        → bit_of into.new i
        ≡ ((((bit_of into.old i || bit_of first.now i) || bit_of second.now i)
        || bit_of third.now i) || bit_of fourth.now i) }
{
    for i in 0..into.len() {
        into[i] = into[i] | first[i] | second[i] | third[i] | fourth[i];
    }
}

/// Marks the states from which a move leads to a state of `ends`, each in the row of the move's
/// letter, by the table of sets, sixteen states at once.
fn mark_by_sixteens(automaton: &Auto, sets: &[u64], ends: &[u64], made: &mut [u64], width: usize)
    requires valid { IsAutomaton automaton.now }
    requires width { width ≡ (automaton.now.states + 63) / 64 }
    requires sets { IsSetTable automaton.now width (width * 256) sets.now }
    requires ends { (q : ℕ) → HasBit ends.now q → q < automaton.now.states }
    requires ends_len { length ends.now ≡ width }
    requires made { length made.old ≡ automaton.now.labels * width }
    ensures { (a q : ℕ) → q < width * 64
        → HasCell made.new width a q
        ↔ (HasCell made.old width a q ⊎ LeadsTo automaton.now a ends.now q) }
{
    let mut at = 0;
    while let Some(right) = next_bit(ends, at) {
        let four = right / 16 * 4;
        let first = row_of_four(automaton, sets, ends, four, width);
        let second = row_of_four(automaton, sets, ends, four + 1, width);
        let third = row_of_four(automaton, sets, ends, four + 2, width);
        let fourth = row_of_four(automaton, sets, ends, four + 3, width);
        or_each_into(made, first, second, third, fourth);
        at = four * 4 + 16;
    }
}

/// Tells whether the row has so many states that it is quicker to look at sixteen at once: more in
/// a word than half as many as it has words.
fn has_many(row: &[u64]) -> bool {
    bits_in(row) / row.len().max(1) > row.len() / 2
}

/// Marks the states from which a move leads to a state of `ends`, each in the row of the move's
/// letter, by the table of sets where they are many.
pub fn mark_ends_by(automaton: &Auto, sets: &[u64], ends: &[u64], made: &mut [u64], width: usize)
    requires valid { IsAutomaton automaton.now }
    requires width { width ≡ (automaton.now.states + 63) / 64 }
    requires sets { IsSetTable automaton.now width (width * 256) sets.now }
    requires ends { (q : ℕ) → HasBit ends.now q → q < automaton.now.states }
    requires ends_len { length ends.now ≡ width }
    requires made { length made.old ≡ automaton.now.labels * width }
    ensures { (a q : ℕ) → q < width * 64
        → HasCell made.new width a q
        ↔ (HasCell made.old width a q ⊎ LeadsTo automaton.now a ends.now q) }
{
    if has_many(ends) {
        mark_by_sixteens(automaton, sets, ends, made, width);
    } else {
        mark_ends(automaton, ends, made, width);
    }
}
