//! Relations from places to states, as rows of bits.

ghost use Rattle.std.specs.Prelude.{◌≡◌, ◌+◌, ◌*◌, ◌/◌, ◌^◌, ◌<◌, ◌↔◌, ℕ, length, slice_index, IfOk};
ghost use Rattle.auto_core.specs.Game.{Holds};
ghost use Rattle.auto_core.specs.Rows.{HasBit};
ghost use Rattle.bit_rel.specs.Relation.{IsRelation};
ghost use Rattle.delayed_game.specs.Pairings.{IsPairing, Removes, IsNarrowed};

use auto_core::{Memory, rows};
use bit_rel::Rel;
use bit_rows::{and_row, mark_below, write_row};
use std::alloc::Global;
use std::marker::Model;

/// The number of bits of the row.
pub(crate) fn bits_in(row: &[u64]) -> usize {
    let mut count: usize = 0;
    for at in 0..row.len() {
        count = count.saturating_add(row[at].count_ones() as usize);
    }
    count
}

/// A row of so many words that has no bit.
fn empty_row(alloc: Global, width: usize) -> Result<Vec<u64>, Memory>
    ensures len { IfOk result (λ v. length v.items ≡ width) }
    ensures none { IfOk result (λ v. (i : ℕ) → slice_index v.items i ≡ 0) }
{
    Ok(vec![in alloc; 0; width]?)
}

/// A row that has just the bits below the number.
fn full_row(alloc: Global, states: u32) -> Result<Vec<u64>, Memory>
    ensures len { IfOk result (λ v. length v.items ≡ (states + 63) / 64) }
    ensures bits { IfOk result (λ v. (q : ℕ) → HasBit v.items q ↔ (q < states)) }
{
    let mut row = empty_row(alloc, rows::words_for(states))?;
    mark_below(&mut row, states);
    Ok(row)
}

/// A relation from the places below a number to the states below another. Contracts see it as a
/// `Pairing`: these numbers and the list of the pairs, ascending.
#[derive(Debug, Drop)]
pub struct Board {
    places: u32,
    states: u32,
    width: usize,
    table: Vec<u64>,
}

impl Model for Board {
    ghost use Rattle.delayed_game.specs.Pairings.{Pairing};

    ghost Value = { Pairing };

    ghost use Rattle.delayed_game.specs.Pairings.{pairing_of, IsStoredPairing};

    ghost view = { pairing_of };

    ghost invariant = { IsStoredPairing };
}

impl Board {
    /// A relation where so many places, one after another, have the states that the given relation
    /// has for one of its states.
    pub fn of_relation(alloc: Global, rel: &Rel, words: u32) -> Result<Board, Memory>
        requires some { 0 < words }
        requires few { rel.now.size * words < 2 ^ 32 }
        ensures places { IfOk result (λ b. b.places ≡ rel.now.size * words) }
        ensures states { IfOk result (λ b. b.states ≡ rel.now.size) }
        ensures valid { IfOk result IsPairing }
        ensures pairs { IfOk
            result (λ b.
            (x q : ℕ) → x < rel.now.size * words
            → Holds b.pairs x q ↔ Holds rel.now.pairs (x / words) q) }
    {
        let states = rel.size();
        let places = states * words;
        let width = rows::words_for(states);
        let mut table = vec![in alloc; 0; places as usize * width]?;
        for x in 0..places {
            write_row(&mut table, width, x as usize, rel.row(x / words));
        }
        Ok(Board {
            places,
            states,
            width,
            table,
        })
    }

    /// A relation where each of so many places has each of so many states.
    pub fn full(alloc: Global, places: u32, states: u32) -> Result<Board, Memory>
        ensures places { IfOk result (λ b. b.places ≡ places) }
        ensures states { IfOk result (λ b. b.states ≡ states) }
        ensures valid { IfOk result IsPairing }
        ensures pairs { IfOk
            result (λ b. (x q : ℕ) → x < places → q < states → Holds b.pairs x q) }
    {
        let width = rows::words_for(states);
        let row = full_row(alloc, states)?;
        let mut table = vec![in alloc; 0; places as usize * width]?;
        for x in 0..places {
            write_row(&mut table, width, x as usize, &row);
        }
        Ok(Board {
            places,
            states,
            width,
            table,
        })
    }

    /// The same relation once more.
    pub fn copied(&self, alloc: Global) -> Result<Board, Memory>
        ensures same { IfOk result (λ b. b ≡ self.now) }
        ensures valid { IfOk result (λ _. IsPairing self.now) }
    {
        Ok(Board {
            places: self.places,
            states: self.states,
            width: self.width,
            table: self.table.to_vec(alloc)?,
        })
    }

    /// The number of places.
    pub fn places(&self) -> u32
        ensures count { result ≡ self.now.places }
        ensures valid { IsPairing self.now }
    {
        self.places
    }

    /// The number of states.
    pub fn states(&self) -> u32
        ensures count { result ≡ self.now.states }
        ensures valid { IsPairing self.now }
    {
        self.states
    }

    /// The states of the place, as a row of bits in words of 64.
    pub fn row(&self, x: u32) -> &[u64]
        requires { x < self.now.places }
        ensures len { length result.now ≡ (self.now.states + 63) / 64 }
        ensures bits { (q : ℕ) → HasBit result.now q ↔ Holds self.now.pairs x q }
        ensures valid { IsPairing self.now }
    {
        rows::row_at(&self.table, self.width, x as usize)
    }

    /// How much room a list of the pairs asks for.
    pub fn room(&self) -> usize {
        bits_in(&self.table)
    }

    /// Takes the pair away, and changes nothing else.
    pub fn clear(&mut self, x: u32, q: u32)
        requires left { x < self.old.places }
        requires right { q < self.old.states }
        ensures pairs { Removes self.old self.new x q }
        ensures valid { IsPairing self.new }
    {
        rows::clear_cell(&mut self.table, self.width, x as usize, q as usize);
    }

    /// Takes away the pairs of the place whose state the row has not, and changes nothing else.
    pub fn narrow(&mut self, x: u32, row: &[u64])
        requires left { x < self.old.places }
        requires len { length row.now ≡ (self.old.states + 63) / 64 }
        ensures pairs { IsNarrowed self.old self.new x row.now }
        ensures valid { IsPairing self.new }
    {
        and_row(&mut self.table, self.width, x as usize, row);
    }
}
