//! What the lines of a text bring, line by line.

ghost use Rattle.std.specs.Prelude.{◌≡◌, ◌+◌, ◌^◌, ◌<◌, ◌≤◌, ◌==◌, if◌then◌else◌, List, [], length, map, OnOk, OnErr, IfOk, IfErr, MatchResult};
ghost use Rattle.ba_format.specs.Sight.{same_text, noted, place_in};
ghost use Rattle.ba_format.specs.Grammar.{LineContent, StateLine, TransitionLine};
ghost use Rattle.ba_format.specs.Draft.{PastLimit, NotesState, NotesTransition, Stands, Fits, Takes, TakesLine, IsReadyDraft, trans_with};
ghost use Rattle.ba_format.specs.Reading.{IsAutomatonOf, IsReading};
ghost use Rattle.std.specs.List.{range_with_len};

use crate::lines::{Said, said_by};
use crate::parts::{BaKind, Limits, Named};
use crate::texts::Texts;
use auto_core::{Auto, Memory, Trans, of_parts};
use indexmap::IndexSet;
use std::alloc::{AllocFailed, Global};

/// How the lines begin.
#[derive(Clone, Copy)]
pub(crate) enum Opening {
    /// There is no line yet.
    Nothing,
    /// There is one line, a state line.
    OneState,
    /// There are two or more lines, all of them state lines.
    States,
    /// A transition line came.
    Transitions,
}

/// Why a line was not taken.
#[derive(Drop)]
pub(crate) enum NotTaken {
    /// The line has this fault.
    Line(BaKind),
    /// The machine refused memory.
    Memory,
}

impl From<Memory> for NotTaken {
    ghost use Rattle.std.specs.Prelude.{◌≡◌};
    ghost use Rattle.ba_format.specs.declared.draft.NotTaken.{NotTaken};

    ghost from_gives = { λ _ e. e ≡ NotTaken.Memory };

    fn from(_refused: Memory) -> NotTaken {
        NotTaken::Memory
    }
}

impl<T: Drop> From<AllocFailed<T>> for NotTaken {
    ghost use Rattle.std.specs.Prelude.{◌≡◌};
    ghost use Rattle.ba_format.specs.declared.draft.NotTaken.{NotTaken};

    ghost from_gives = { λ _ e. e ≡ NotTaken.Memory };

    fn from(_refused: AllocFailed<T>) -> NotTaken {
        NotTaken::Memory
    }
}

/// What the lines so far brought.
#[derive(Drop)]
pub(crate) struct Draft {
    /// The states' names.
    pub(crate) names: Texts,
    /// The labels.
    pub(crate) labels: Texts,
    /// The transitions' sources, labels and targets.
    pub(crate) transitions: IndexSet<(u32, u32, u32)>,
    /// The states of the accepting lines.
    pub(crate) accepting: IndexSet<u32>,
    /// How the lines begin.
    pub(crate) opening: Opening,
}

/// The number of a text: a new one is appended first, unless that would bring more texts than the
/// limit. The fault is then `past`.
fn number(texts: &mut Texts, text: &[u8], limit: u32, past: BaKind) -> Result<u32, NotTaken>
    ensures { length texts.old ≤ limit
        → MatchResult
        result (λ at.
        (texts.new ≡ noted same_text texts.old text.now)
        × (at ≡ place_in same_text texts.new text.now) × (length texts.new ≤ limit))
        (PastLimit past limit (length (noted same_text texts.old text.now))) }
{
    if let Some(at) = texts.find(text) {
        return Ok(at);
    }
    let at = texts.count();
    if at >= limit {
        return Err(NotTaken::Line(past));
    }
    texts.add(text)?;
    Ok(at)
}

impl Draft {
    /// The draft before any line. It takes no memory yet.
    pub(crate) fn new(alloc: Global) -> Draft
        ensures { Stands result [] }
    {
        Draft {
            names: Texts::new(alloc),
            labels: Texts::new(alloc),
            transitions: IndexSet::new(alloc),
            accepting: IndexSet::new(alloc),
            opening: Opening::Nothing,
        }
    }

    /// Notes that a state line with this state came. The first line's state is not accepting, that
    /// of every other is.
    fn note_state_line(&mut self, at: u32) -> Result<(), Memory>
        ensures { OnOk result (NotesState self.old at self.new) }
    {
        match self.opening {
            Opening::Nothing => {
                self.opening = Opening::OneState;
            }
            Opening::OneState => {
                self.accepting.insert(at)?;
                self.opening = Opening::States;
            }
            Opening::States | Opening::Transitions => {
                self.accepting.insert(at)?;
            }
        }
        Ok(())
    }

    /// Takes a state line.
    fn take_state(&mut self, name: &[u8], limits: &Limits) -> Result<(), NotTaken>
        ensures { (entries : List LineContent) → Stands self.old entries → Fits limits.now entries
            → Takes limits.now entries (StateLine name.now) self.new result }
    {
        let at = number(&mut self.names, name, limits.states, BaKind::TooManyStates)?;
        self.note_state_line(at)?;
        Ok(())
    }

    /// Notes the transition of a transition line. The result is the number of different
    /// transitions.
    fn note_transition(&mut self, source: u32, label: u32, target: u32) -> Result<usize, Memory>
        ensures noted { OnOk result (NotesTransition self.old (source, label, target) self.new) }
        ensures count { IfOk result (λ count. count ≡ length self.new.transitions.keys) }
    {
        self.transitions.insert((source, label, target))?;
        self.opening = Opening::Transitions;
        Ok(self.transitions.len())
    }

    /// Takes a transition line.
    fn take_transition(
        &mut self,
        label: &[u8],
        source: &[u8],
        target: &[u8],
        limits: &Limits,
    ) -> Result<(), NotTaken>
        ensures { (entries : List LineContent) → Stands self.old entries → Fits limits.now entries
            → Takes limits.now entries (TransitionLine label.now source.now target.now) self.new
            result }
    {
        if let Opening::States = self.opening {
            return Err(NotTaken::Line(BaKind::TwoInitial));
        }
        let source = number(
            &mut self.names,
            source,
            limits.states,
            BaKind::TooManyStates,
        )?;
        let target = number(
            &mut self.names,
            target,
            limits.states,
            BaKind::TooManyStates,
        )?;
        let label = number(
            &mut self.labels,
            label,
            limits.labels,
            BaKind::TooManyLabels,
        )?;
        if self.note_transition(source, label, target)? > limits.transitions as usize {
            return Err(NotTaken::Line(BaKind::TooManyTransitions));
        }
        Ok(())
    }

    /// Takes a trimmed line that isn't blank.
    pub(crate) fn take(&mut self, line: &[u8], limits: &Limits) -> Result<(), NotTaken>
        ensures { (entries : List LineContent) → Stands self.old entries → Fits limits.now entries
            → TakesLine limits.now entries line.now self.new result }
    {
        match said_by(line) {
            Err(kind) => Err(NotTaken::Line(kind)),
            Ok(Said::State(name)) => self.take_state(name, limits),
            Ok(Said::Transition(label, source, target)) => {
                self.take_transition(label, source, target, limits)
            }
        }
    }

    /// The automaton that the lines say.
    fn automaton(&self, alloc: Global) -> Result<Auto, Memory>
        requires { IsReadyDraft self.now }
        ensures { IfOk
            result (λ auto.
            (entries : List LineContent) → Stands self.now entries → IsAutomatonOf entries auto) }
    {
        let transitions = transitions_of(alloc, self.transitions.as_slice())?;
        let accepting = chosen_or_all(alloc, self.accepting.as_slice(), self.names.count())?;
        of_parts(
            alloc,
            self.names.count(),
            self.labels.count(),
            0,
            &transitions,
            &accepting,
        )
    }

    /// The automaton that the lines say, with its names and labels.
    pub(crate) fn into_named(self, alloc: Global) -> Result<Named, Memory>
        requires { IsReadyDraft self }
        ensures { IfOk
            result (λ named.
            (entries : List LineContent) → Stands self entries → IsReading entries named) }
    {
        let auto = self.automaton(alloc)?;
        Ok(Named {
            auto,
            names: self.names,
            labels: self.labels,
        })
    }
}

/// The transitions with these sources, labels and targets.
fn transitions_of(alloc: Global, parts: &[(u32, u32, u32)]) -> Result<Vec<Trans>, Memory>
    ensures { IfOk result (λ transitions. transitions.items ≡ map trans_with parts.now) }
{
    let mut transitions = Vec::new(alloc);
    for part in parts {
        transitions.push(Trans {
            source: part.0,
            label: part.1,
            target: part.2,
        })?;
    }
    Ok(transitions)
}

/// The chosen states; all states if none is chosen.
fn chosen_or_all(alloc: Global, chosen: &[u32], states: u32) -> Result<Vec<u32>, Memory>
    ensures { IfOk
        result (λ accepting.
        accepting.items
        ≡ (if length chosen.now == 0 then range_with_len 0 states else chosen.now)) }
{
    if !chosen.is_empty() {
        return Ok(chosen.to_vec(alloc)?);
    }
    let mut all = Vec::new(alloc);
    for state in 0..states {
        all.push(state)?;
    }
    Ok(all)
}
