//! The graph of the pairs: the steps to states of the second automaton that do not accept.

ghost use Rattle.std.specs.Prelude.{◌≡◌, ◌+◌, ◌^◌, ◌<◌, ◌≤◌, ℕ, false, length, Contains, IfOk, OnOk};
ghost use Rattle.product_laws.specs.Ranked.{IsDeterministic};
ghost use Rattle.product_laws.specs.Reached.{GoesTo};
ghost use Rattle.auto_core.specs.Automaton.{is_accepting};
ghost use Rattle.product_search.specs.Arcs.{ArePairs, IsPushed, AreArcs};

use crate::going::{accepts, goes_to};
use crate::pairs::{number_of, pair_of};
use auto_core::{Auto, Memory, Trans};
use indexmap::IndexSet;
use std::alloc::Global;

/// The arcs of the graph, by the numbers of the pairs.
#[derive(Drop)]
pub(crate) struct Arcs {
    /// Where the arcs of each pair start, and behind them where the last ones end.
    pub starts: Vec<usize>,
    /// The numbers of the pairs that they lead to.
    pub targets: Vec<u32>,
    /// Their letters.
    pub letters: Vec<u32>,
}

impl Arcs {
    /// Adds the arc of the move, if there is one.
    fn push(
        &mut self,
        second: &Auto,
        pairs: &IndexSet<(u32, u32)>,
        right: u32,
        step: Trans,
    ) -> Result<(), Memory>
        requires state { right ≤ second.now.states }
        requires few { length pairs.now.keys < 2 ^ 32 }
        requires there { (s : ℕ) → GoesTo second.now right step.label s
            → is_accepting second.now s ≡ false → Contains pairs.now.keys (step.target, s) }
        ensures arc { OnOk result
            (IsPushed second.now pairs.now.keys right step self.old.targets.items
            self.old.letters.items self.new.targets.items self.new.letters.items) }
        ensures starts { self.new.starts.items ≡ self.old.starts.items }
    {
        let target = goes_to(second, right, step.label);
        if accepts(second, target) {
            return Ok(());
        }
        let to = number_of(pairs, (step.target, target));
        self.targets.push(to)?;
        self.letters.push(step.label)?;
        Ok(())
    }

    /// Adds the arcs of the pair with this number, those of the pairs before it being there.
    fn push_all(
        &mut self,
        first: &Auto,
        second: &Auto,
        pairs: &IndexSet<(u32, u32)>,
        from: u32,
    ) -> Result<(), Memory>
        requires deterministic { IsDeterministic second.now }
        requires pairs { ArePairs first.now second.now pairs.now.keys }
        requires within { from < length pairs.now.keys }
        requires arcs { AreArcs first.now second.now pairs.now.keys from self.old.starts.items
            self.old.targets.items self.old.letters.items }
        ensures { OnOk result
            (AreArcs first.now second.now pairs.now.keys (from + 1) self.new.starts.items
            self.new.targets.items self.new.letters.items) }
    {
        let pair = pair_of(pairs, from);
        let span = first.outgoing(pair.0);
        for t in span.begin..span.end {
            self.push(second, pairs, pair.1, first.transitions()[t as usize])?;
        }
        self.starts.push(self.targets.len())?;
        Ok(())
    }

    /// The arcs of all pairs.
    pub fn of_pairs(
        alloc: Global,
        first: &Auto,
        second: &Auto,
        pairs: &IndexSet<(u32, u32)>,
        count: u32,
    ) -> Result<Arcs, Memory>
        requires deterministic { IsDeterministic second.now }
        requires pairs { ArePairs first.now second.now pairs.now.keys }
        requires count { count ≡ length pairs.now.keys }
        ensures { IfOk
            result (λ arcs.
            AreArcs first.now second.now pairs.now.keys count arcs.starts.items arcs.targets.items
            arcs.letters.items) }
    {
        let mut starts = Vec::new(alloc);
        starts.push(0)?;
        let mut arcs = Arcs {
            starts,
            targets: Vec::new(alloc),
            letters: Vec::new(alloc),
        };
        for from in 0..count {
            arcs.push_all(first, second, pairs, from)?;
        }
        Ok(arcs)
    }
}
