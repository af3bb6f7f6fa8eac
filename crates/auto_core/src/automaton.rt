//! The automaton, always valid, with its transitions in order.

ghost use Rattle.std.specs.Prelude.{◌≡◌, ◌^◌, ◌<◌, ◌↔◌, ◌⊎◌, length, IsTrue, IfOk};
ghost use Rattle.auto_core.specs.Automaton.{IsAutomaton, IsOutgoing, IsSuccessors, IsIncoming, IsAccepting, is_accepting, HasRepeat};
ghost use Rattle.auto_core.specs.Build.{HasStateFault, HasStates, HasLabelFault, HasLabels, IsBuilt};

use crate::parts::{Memory, Span, Trans};
use crate::tables;
use std::alloc::Global;
use std::marker::Model;
use thiserror::Error;

/// Why an automaton was not built.
#[derive(Debug, Drop, Error)]
pub enum BuildFault {
    /// The initial state, an end of a transition or an accepting state is not below the number of
    /// states.
    #[error("a number names no state")]
    StateRange,
    /// A label is not below the number of labels.
    #[error("a number names no label")]
    LabelRange,
    /// Two of the transitions, or two of the accepting states, are equal.
    #[error("a transition or an accepting state is given twice")]
    Repeat,
    /// The machine refused memory.
    #[error("out of memory")]
    Memory,
}

impl From<Memory> for BuildFault {
    ghost use Rattle.std.specs.Prelude.{◌≡◌};
    ghost use Rattle.auto_core.specs.declared.automaton.BuildFault.{BuildFault};

    ghost from_gives = { λ _ e. e ≡ BuildFault.Memory };

    fn from(_refused: Memory) -> BuildFault {
        BuildFault::Memory
    }
}

/// A nondeterministic automaton. Contracts see it as an `Automaton`: numbers and sorted lists.
#[derive(Debug, Drop)]
pub struct Auto {
    states: u32,
    labels: u32,
    initial: u32,
    transitions: Vec<Trans>,
    accepting: Vec<u32>,
    flags: Vec<bool>,
    starts: Vec<u32>,
    incoming: Vec<u32>,
    incoming_starts: Vec<u32>,
}

impl Model for Auto {
    ghost use Rattle.auto_core.specs.Automaton.{Automaton};

    ghost Value = { Automaton };

    ghost use Rattle.auto_core.specs.Stored.{automaton_of, IsStored};

    ghost view = { automaton_of };

    ghost invariant = { IsStored };
}

impl Auto {
    /// The automaton with these parts, in any order; there are fewer than 2^32 transitions.
    pub fn build(
        alloc: Global,
        states: u32,
        labels: u32,
        initial: u32,
        transitions: &[Trans],
        accepting: &[u32],
    ) -> Result<Auto, BuildFault>
        requires { length transitions.now < 2 ^ 32 }
        ensures built { IfOk result (IsBuilt states labels initial transitions.now accepting.now) }
        ensures state_range { result ≡ Err BuildFault.StateRange
            → HasStateFault states initial transitions.now accepting.now }
        ensures label_range { result ≡ Err BuildFault.LabelRange
            → HasStates states initial transitions.now accepting.now × HasLabelFault labels transitions.now }
        ensures repeat { result ≡ Err BuildFault.Repeat
            → HasStates states initial transitions.now accepting.now
            × HasLabels labels transitions.now
            × (HasRepeat transitions.now ⊎ HasRepeat accepting.now) }
    {
        if tables::names_no_state(states, initial, transitions, accepting) {
            return Err(BuildFault::StateRange);
        }
        if tables::names_no_label(labels, transitions) {
            return Err(BuildFault::LabelRange);
        }
        let transitions = tables::sorted_transitions(alloc, transitions)?;
        let accepting = tables::sorted_states(alloc, accepting)?;
        Ok(Auto::stored(alloc, states, labels, initial, transitions, accepting)?)
    }

    fn stored(
        alloc: Global,
        states: u32,
        labels: u32,
        initial: u32,
        transitions: Vec<Trans>,
        accepting: Vec<u32>,
    ) -> Result<Auto, Memory>
        requires { IsAutomaton
            (record {
              states = states;
              labels = labels;
              initial = initial;
              transitions = transitions.items;
              accepting = accepting.items;
            }) }
        ensures { IfOk
            result (λ a.
            a ≡ record {
              states = states;
              labels = labels;
              initial = initial;
              transitions = transitions.items;
              accepting = accepting.items;
            }) }
    {
        let flags = tables::flags_of(alloc, states, &accepting)?;
        let starts = tables::starts_of(alloc, &tables::sources(alloc, &transitions)?, states)?;
        let incoming = tables::incoming_of(alloc, &transitions)?;
        let incoming_starts = tables::starts_of(
            alloc,
            &tables::targets(alloc, &transitions, &incoming)?,
            states,
        )?;
        Ok(Auto {
            states,
            labels,
            initial,
            transitions,
            accepting,
            flags,
            starts,
            incoming,
            incoming_starts,
        })
    }

    /// The number of states.
    pub fn states(&self) -> u32
        ensures count { result ≡ self.now.states }
        ensures valid { IsAutomaton self.now }
    {
        self.states
    }

    /// The number of labels.
    pub fn labels(&self) -> u32
        ensures count { result ≡ self.now.labels }
        ensures valid { IsAutomaton self.now }
    {
        self.labels
    }

    /// The initial state.
    pub fn initial(&self) -> u32
        ensures state { result ≡ self.now.initial }
        ensures valid { IsAutomaton self.now }
    {
        self.initial
    }

    /// The transitions, by source, then label, then target.
    pub fn transitions(&self) -> &[Trans]
        ensures list { result.now ≡ self.now.transitions }
        ensures valid { IsAutomaton self.now }
    {
        self.transitions.as_slice()
    }

    /// Tells whether the state is accepting.
    pub fn accepting(&self, state: u32) -> bool
        requires { state < self.now.states }
        ensures told { IsTrue result ↔ IsAccepting self.now state }
        ensures test { result ≡ is_accepting self.now state }
        ensures valid { IsAutomaton self.now }
    {
        self.flags[state as usize]
    }

    /// The range of the transitions out of the state.
    pub fn outgoing(&self, state: u32) -> Span
        requires { state < self.now.states }
        ensures range { IsOutgoing self.now state result.begin result.end }
        ensures valid { IsAutomaton self.now }
    {
        Span {
            begin: self.starts[state as usize],
            end: self.starts[state as usize + 1],
        }
    }

    /// The range of the transitions out of the state with the label.
    pub fn successors(&self, state: u32, label: u32) -> Span
        requires { state < self.now.states }
        ensures range { IsSuccessors self.now state label result.begin result.end }
        ensures valid { IsAutomaton self.now }
    {
        let out = self.outgoing(state);
        let moves = &self.transitions[out.begin as usize..out.end as usize];
        let below = moves.partition_point(|t| t.label < label) as u32;
        let upto = moves.partition_point(|t| t.label <= label) as u32;
        Span {
            begin: out.begin + below,
            end: out.begin + upto,
        }
    }

    /// The numbers of the transitions into the state, ascending.
    pub fn predecessors(&self, state: u32) -> &[u32]
        requires { state < self.now.states }
        ensures list { IsIncoming self.now state result.now }
        ensures valid { IsAutomaton self.now }
    {
        let begin = self.incoming_starts[state as usize] as usize;
        let end = self.incoming_starts[state as usize + 1] as usize;
        &self.incoming[begin..end]
    }
}
