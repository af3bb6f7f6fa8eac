//! The pairs that are found from one of them.

ghost use Rattle.std.specs.Prelude.{◌≡◌, ◌<◌, ◌≤◌, [], ◌∷◌, length, IfOk, OnOk};
ghost use Rattle.product_laws.specs.Ranked.{IsDeterministic};
ghost use Rattle.product_search.specs.Found.{AreFound, IsNoted, Went, Expanded, AllExpanded};

use crate::going::{accepts, goes_to};
use crate::pairs::{add, pair_of};
use auto_core::{Auto, Memory, Trans};
use indexmap::IndexSet;
use std::alloc::Global;

/// How a pair was found.
#[derive(Clone, Copy)]
pub(crate) struct Step {
    /// The number of the pair before.
    pub from: u32,
    /// The letter.
    pub letter: u32,
}

/// The pairs that are found, by number, and how each but the first was found.
#[derive(Drop)]
pub(crate) struct Found {
    /// The pairs.
    pub pairs: IndexSet<(u32, u32)>,
    /// How each was found.
    pub steps: Vec<Step>,
}

impl Found {
    /// The one pair.
    pub fn new(alloc: Global, start: (u32, u32)) -> Result<Found, Memory>
        ensures pairs { IfOk result (λ f. f.pairs.keys ≡ start ∷ []) }
        ensures steps { IfOk result (λ f. length f.steps.items ≡ 1) }
    {
        let mut pairs = IndexSet::new(alloc);
        add(&mut pairs, start)?;
        let mut steps = Vec::new(alloc);
        steps.push(Step { from: 0, letter: 0 })?;
        Ok(Found { pairs, steps })
    }

    /// Notes the pair, unless it is there, and how it was found.
    fn note(&mut self, pair: (u32, u32), step: Step) -> Result<(), Memory>
        ensures { OnOk result
            (IsNoted self.old.pairs.keys self.old.steps.items pair step self.new.pairs.keys
            self.new.steps.items) }
    {
        if add(&mut self.pairs, pair)? {
            self.steps.push(step)?;
        }
        Ok(())
    }

    /// Follows the move from the pair with this number.
    fn follow(
        &mut self,
        second: &Auto,
        quiet: bool,
        from: u32,
        right: u32,
        step: Trans,
    ) -> Result<(), Memory>
        requires { right ≤ second.now.states }
        ensures { OnOk result
            (Went second.now quiet from right step self.old.pairs.keys self.old.steps.items
            self.new.pairs.keys self.new.steps.items) }
    {
        let target = goes_to(second, right, step.label);
        if quiet && accepts(second, target) {
            return Ok(());
        }
        self.note(
            (step.target, target),
            Step {
                from,
                letter: step.label,
            },
        )?;
        Ok(())
    }

    /// Follows each move from the pair with this number. False: there are more than `limit` pairs.
    fn expand(
        &mut self,
        first: &Auto,
        second: &Auto,
        quiet: bool,
        from: u32,
        limit: u32,
    ) -> Result<bool, Memory>
        requires deterministic { IsDeterministic second.now }
        requires found { AreFound first.now second.now quiet self.old.pairs.keys
            self.old.steps.items }
        requires within { from < length self.old.pairs.keys }
        requires few { length self.old.pairs.keys ≤ limit }
        ensures { IfOk result
            (Expanded first.now second.now quiet limit self.old.pairs.keys from self.new.pairs.keys
            self.new.steps.items) }
    {
        let pair = pair_of(&self.pairs, from);
        let span = first.outgoing(pair.0);
        for t in span.begin..span.end {
            self.follow(second, quiet, from, pair.1, first.transitions()[t as usize])?;
            if self.pairs.len() > limit as usize {
                return Ok(false);
            }
        }
        Ok(true)
    }

    /// Follows the moves from all pairs that are found. False: there are more than `limit`.
    pub fn expand_all(
        &mut self,
        first: &Auto,
        second: &Auto,
        quiet: bool,
        limit: u32,
    ) -> Result<bool, Memory>
        requires deterministic { IsDeterministic second.now }
        requires found { AreFound first.now second.now quiet self.old.pairs.keys
            self.old.steps.items }
        ensures { IfOk result
            (AllExpanded first.now second.now quiet limit self.old.pairs.keys self.new.pairs.keys
            self.new.steps.items) }
    {
        if self.pairs.len() > limit as usize {
            return Ok(false);
        }
        let mut at = 0;
        while (at as usize) < self.pairs.len() {
            if !self.expand(first, second, quiet, at, limit)? {
                return Ok(false);
            }
            at = at + 1;
        }
        Ok(true)
    }
}
