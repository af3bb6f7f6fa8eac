//! The sets that letters lead to, remembered: many elements have one set.

ghost use Rattle.std.specs.Prelude.{◌≡◌, ◌<◌, ◌^◌, ◌⊎◌, ℕ, List, [], length, IfOk, IfSome};
ghost use Rattle.auto_core.specs.Automaton.{Automaton};
ghost use Rattle.set_rows.specs.Sets.{IsRow};
ghost use Rattle.antichain.specs.Made.{IsMade, AreMade, IsRemembered, HasRemembered};

use crate::candidates::below;
use auto_core::{Auto, Memory, rows};
use bit_rel::Rel;
use bit_rows::are_equal;
use set_rows::write_after;
use std::alloc::Global;

/// How many places there are for the numbers of sets.
const PLACES: usize = 4096;

/// How many sets are remembered before all are forgotten.
const MOST: usize = 16384;

/// What a letter leads to from a set: the members, and the states that the order relates to one of
/// them.
#[derive(Debug, Drop)]
pub(crate) struct Made {
    pub(crate) from: Vec<u64>,
    pub(crate) label: u32,
    pub(crate) members: Vec<u64>,
    pub(crate) below: Vec<u64>,
}

/// The sets that were made, and a number of one at each place, which need not be there.
#[derive(Debug, Drop)]
pub(crate) struct Sets {
    pub(crate) made: Vec<Made>,
    pub(crate) numbers: Vec<u32>,
}

/// What the letter leads to from the set.
fn make(alloc: Global, second: &Auto, order: &Rel, label: u32, from: &[u64]) -> Result<Made, Memory>
    requires order_size { order.now.size ≡ second.now.states }
    requires row { IsRow second.now.states from.now }
    ensures made { IfOk result (IsMade second.now order.now.pairs) }
    ensures from { IfOk result (λ m. m.from.items ≡ from.now) }
    ensures label { IfOk result (λ m. m.label ≡ label) }
{
    let mut members = vec![in alloc; 0; rows::words_for(second.states())]?;
    write_after(second, label, from, &mut members);
    let below = below(alloc, order, &members)?;
    Ok(Made {
        from: from.to_vec(alloc)?,
        label,
        members,
        below,
    })
}

/// The place for what the letter leads to from the set.
fn place_of(label: u32, from: &[u64]) -> usize {
    let mut mixed = label as u64;
    for word in from {
        mixed = (mixed ^ *word).wrapping_mul(0x9E3779B97F4A7C15);
        mixed ^= mixed >> 29;
    }
    (mixed % PLACES as u64) as usize
}

impl Sets {
    /// None are remembered.
    pub(crate) fn new(alloc: Global) -> Result<Sets, Memory>
        ensures { IfOk result (λ s. (B : Automaton) (S : List (ℕ × ℕ)) → AreMade B S s.made.items) }
    {
        Ok(Sets {
            made: Vec::new(alloc),
            numbers: vec![in alloc; 0; PLACES]?,
        })
    }

    /// The number of what the letter leads to from the set, if the place has it.
    fn known(&self, place: usize, label: u32, from: &[u64]) -> Option<u32>
        ensures { IfSome result (IsRemembered self.now.made.items label from.now) }
    {
        if place >= self.numbers.len() {
            return None;
        }
        let number = self.numbers[place];
        if number as usize >= self.made.len() {
            return None;
        }
        let made = &self.made[number as usize];
        if made.label == label && are_equal(&made.from, from) {
            return Some(number);
        }
        None
    }

    /// Forgets all sets where too many are remembered.
    fn make_room(&mut self)
        ensures few { length self.new.made.items < 2 ^ 32 }
        ensures made { (self.new.made.items ≡ self.old.made.items) ⊎ (self.new.made.items ≡ []) }
    {
        if self.made.len() >= MOST {
            self.made.clear();
        }
    }

    /// Remembers the set, and gives its number the place.
    fn remember(&mut self, place: usize, made: Made) -> Result<u32, Memory>
        ensures { IfOk result (HasRemembered made self.old.made.items self.new.made.items) }
    {
        self.make_room();
        let number = self.made.len() as u32;
        self.made.push(made)?;
        if place < self.numbers.len() {
            self.numbers[place] = number;
        }
        Ok(number)
    }

    /// The number of what the letter leads to from the set.
    pub(crate) fn after(
        &mut self,
        alloc: Global,
        second: &Auto,
        order: &Rel,
        label: u32,
        from: &[u64],
    ) -> Result<u32, Memory>
        requires order_size { order.now.size ≡ second.now.states }
        requires row { IsRow second.now.states from.now }
        requires made { AreMade second.now order.now.pairs self.old.made.items }
        ensures made { IfOk result (λ _. AreMade second.now order.now.pairs self.new.made.items) }
        ensures known { IfOk result (IsRemembered self.new.made.items label from.now) }
    {
        let place = place_of(label, from);
        match self.known(place, label, from) {
            Some(number) => Ok(number),
            None => {
                let made = make(alloc, second, order, label, from)?;
                let number = self.remember(place, made)?;
                Ok(number)
            }
        }
    }
}
