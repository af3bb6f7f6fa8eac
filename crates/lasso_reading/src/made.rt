//! The pairs of a state and a position that are reached, and the moves between them.
//!
//! ```text
//! lasso of classes   prefix 0, loop 1 0      positions 0 1 2, and behind 2 comes 1
//! automaton          moves  p -a-> q   q -b-> q   q -a-> p      a has class 0, b has class 1
//! pairs              (p,0)   (q,1)   (q,2)   (p,1)      by number, in the order in which they came
//!                      0       1       2       3
//!                                      ^ at             the moves from those before `at` are there
//! moves              0 -a-> 1   1 -b-> 2   2 -a-> 3
//! ```
//!
//! The pairs are a set that is read from its start while it grows: the place in it is the mark of
//! what is done, and the numbers of its pairs are the states of the product. Each move is put down
//! once, with both numbers, when the pair that it leaves has its turn; so nothing is looked up
//! again when the automaton is made.

ghost use Rattle.std.specs.Prelude.{◌≡◌, ◌+◌, ◌^◌, ◌<◌, ◌≤◌, length, filter, IfOk};
ghost use Rattle.std.specs.List.{range_with_len};
ghost use Rattle.lasso_reading.specs.Made.{AreFactors, IsNumbered, IsFollowed, AreMade, IsMadeUpTo, HasStatesOf, accepts_at};

use crate::factors::Factors;
use crate::positions::{behind, class_at};
use auto_core::{Auto, Memory, Trans};
use indexmap::IndexSet;
use std::alloc::Global;

/// The number of the pair, which is put after the others unless it is one of them.
fn number_of(pairs: &mut IndexSet<(u32, u32)>, pair: (u32, u32)) -> Result<usize, Memory>
    ensures { IfOk result (IsNumbered pairs.old.keys pair pairs.new.keys) }
{
    let (number, _) = pairs.insert_full(pair)?;
    Ok(number)
}

/// What is made of the product.
#[derive(Drop)]
pub(crate) struct Made {
    /// The pairs of a state and a position, by number.
    pub pairs: IndexSet<(u32, u32)>,
    /// The moves, by the numbers of the pairs.
    pub moves: Vec<Trans>,
}

impl Made {
    /// The pair of the initial state and the first position.
    pub fn new(alloc: Global, factors: &Factors) -> Result<Made, Memory>
        requires { AreFactors factors.now }
        ensures made { IfOk result (λ m. AreMade factors.now 0 m.pairs.keys m.moves.items) }
        ensures one { IfOk result (λ m. length m.pairs.keys ≡ 1) }
    {
        let mut pairs = IndexSet::new(alloc);
        number_of(&mut pairs, (factors.automaton.initial(), 0))?;
        Ok(Made {
            pairs,
            moves: Vec::new(alloc),
        })
    }

    /// Follows a transition from the pair with the number `from` to the pair of its target and the
    /// position. False: there are more than `limit` pairs. 2^32 moves and more are refused as
    /// memory.
    fn follow(&mut self, from: u32, step: Trans, position: u32, limit: u32) -> Result<bool, Memory>
        ensures { IfOk result
            (IsFollowed limit from step position self.old.pairs.keys self.old.moves.items
            self.new.pairs.keys self.new.moves.items) }
    {
        let number = number_of(&mut self.pairs, (step.target, position))?;
        if self.pairs.len() > limit as usize {
            return Ok(false);
        }
        if self.moves.len() >= 0xffff_ffff {
            return Err(Memory);
        }
        self.moves.push(Trans {
            source: from,
            label: step.label,
            target: number as u32,
        })?;
        Ok(true)
    }

    /// Follows the transitions from the pair with this number. False: there are more than `limit`
    /// pairs.
    fn expand(&mut self, factors: &Factors, from: u32, limit: u32) -> Result<bool, Memory>
        requires factors { AreFactors factors.now }
        requires made { AreMade factors.now from self.old.pairs.keys self.old.moves.items }
        requires within { from < length self.old.pairs.keys }
        requires few { length self.old.pairs.keys ≤ limit }
        ensures { IfOk result
            (IsMadeUpTo factors.now limit (from + 1) self.new.pairs.keys self.new.moves.items) }
    {
        let pair = self.pairs.as_slice()[from as usize];
        let class = class_at(factors.prefix, factors.turn, pair.1);
        let position = behind(factors.prefix, factors.turn, pair.1);
        let span = factors.automaton.outgoing(pair.0);
        for t in span.begin..span.end {
            let step = factors.automaton.transitions()[t as usize];
            if factors.classes[step.label as usize] == class {
                if !self.follow(from, step, position, limit)? {
                    return Ok(false);
                }
            }
        }
        Ok(true)
    }

    /// Follows the transitions from all pairs. False: there are more than `limit`.
    pub fn expand_all(&mut self, factors: &Factors, limit: u32) -> Result<bool, Memory>
        requires factors { AreFactors factors.now }
        requires made { AreMade factors.now 0 self.old.pairs.keys self.old.moves.items }
        ensures { IfOk result
            (IsMadeUpTo factors.now limit (length self.new.pairs.keys) self.new.pairs.keys
            self.new.moves.items) }
    {
        if self.pairs.len() > limit as usize {
            return Ok(false);
        }
        let mut at = 0;
        while (at as usize) < self.pairs.len() {
            if !self.expand(factors, at, limit)? {
                return Ok(false);
            }
            at = at + 1;
        }
        Ok(true)
    }

    /// The numbers of the pairs whose state accepts, ascending.
    pub fn accepting(&self, alloc: Global, automaton: &Auto, count: u32) -> Result<Vec<u32>, Memory>
        requires count { count ≡ length self.now.pairs.keys }
        requires states { HasStatesOf automaton.now self.now.pairs.keys }
        ensures { IfOk
            result (λ numbers.
            numbers.items
            ≡ filter (accepts_at automaton.now self.now.pairs.keys) (range_with_len 0 count)) }
    {
        let mut numbers = Vec::new(alloc);
        for number in 0..count {
            if automaton.accepting(self.pairs.as_slice()[number as usize].0) {
                numbers.push(number)?;
            }
        }
        Ok(numbers)
    }
}
