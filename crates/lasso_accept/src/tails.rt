//! Tables that are kept of the ends of a word, so that those of a word with the same end begin
//! there.

ghost use Rattle.std.specs.Prelude.{◌≡◌, ◌+◌, ◌-◌, ◌/◌, ◌^◌, ◌<◌, ◌≤◌, ◌↔◌, ℕ, List, length, take, drop, IfOk, IsTrue};
ghost use Rattle.auto_core.specs.Accept.{AcceptsLasso};
ghost use Rattle.auto_core.specs.Automaton.{Automaton};
ghost use Rattle.auto_core.specs.Rows.{HasBit};
ghost use Rattle.set_rows.specs.Sets.{IsRow};
ghost use Rattle.lasso_accept.specs.Plane.{ArePlanes};
ghost use Rattle.lasso_accept.specs.Looping.{AcceptsLoopFrom};
ghost use Rattle.lasso_accept.specs.Tails.{AreTails, AreShort, HasTails};

use crate::acceptance::is_accepted;
use crate::looping::loop_row;
use crate::planes::{Planes, planes_before, planes_of};
use auto_core::{Auto, Lasso, Memory, rows};
use std::alloc::Global;

/// How many ends of a word have their tables kept, if these have few words.
const ENDS: usize = 16;

/// How many words the tables that are kept have, about.
const WORDS: usize = 1 << 20;

/// The tables of a word's last letters.
#[derive(Debug, Drop)]
pub struct Tail {
    /// How many letters.
    pub length: usize,
    /// Their tables.
    pub planes: Planes,
}

/// A word, and the tables that are kept of its ends.
#[derive(Debug, Drop)]
pub struct Tails {
    /// The word.
    pub word: Vec<u32>,
    /// The tables.
    pub kept: Vec<Tail>,
}

/// How many letters at their end both words have in common.
fn common_end(word: &[u32], other: &[u32]) -> usize
    ensures word { result ≤ length word.now }
    ensures other { result ≤ length other.now }
    ensures same { drop (length word.now - result) word.now
        ≡ drop (length other.now - result) other.now }
{
    let most = word.len().min(other.len());
    for count in 0..most {
        if word[word.len() - count - 1] != other[other.len() - count - 1] {
            return count;
        }
    }
    most
}

/// How many of the first tables are of so many letters at most.
fn short_ones(kept: &[Tail], most: usize) -> usize
    ensures { AreShort most (take result kept.now) }
{
    for at in 0..kept.len() {
        if kept[at].length > most {
            return at;
        }
    }
    kept.len()
}

/// The tables of the word: from the last that are kept, if the word has as many letters.
pub(crate) fn planes_by(
    alloc: Global,
    automaton: &Auto,
    word: &[u32],
    width: usize,
    kept: &[Tail],
) -> Result<Planes, Memory>
    requires width { width ≡ (automaton.now.states + 63) / 64 }
    requires few { width < 2 ^ 32 }
    requires tails { AreTails automaton.now word.now kept.now }
    ensures { IfOk
        result (λ p. ArePlanes automaton.now word.now width p.any.items p.flagged.items) }
{
    if kept.len() == 0 {
        return planes_of(alloc, automaton, word, width);
    }
    let tail = &kept[kept.len() - 1];
    if tail.length > word.len() {
        return planes_of(alloc, automaton, word, width);
    }
    planes_before(
        alloc,
        automaton,
        &word[..word.len() - tail.length],
        width,
        &tail.planes,
    )
}

/// How many letters lie between two ends of a word of so many letters that have their tables kept.
fn step_of(states: u32, letters: usize) -> usize
    ensures { 1 ≤ result }
{
    let words = 2 * states as usize * rows::words_for(states) + 1;
    let ends = (WORDS / words).min(ENDS) + 1;
    (letters / ends).max(1)
}

/// How many letters the last tables are of.
fn last_length(kept: &[Tail]) -> usize {
    if kept.len() == 0 {
        return 0;
    }
    kept[kept.len() - 1].length
}

/// Keeps the tables of more ends of the word, so many letters apart, after the last.
fn keep_more(
    alloc: Global,
    automaton: &Auto,
    word: &[u32],
    width: usize,
    step: usize,
    kept: &mut Vec<Tail>,
) -> Result<(), Memory>
    requires width { width ≡ (automaton.now.states + 63) / 64 }
    requires few { width < 2 ^ 32 }
    requires some { 1 ≤ step }
    requires tails { AreTails automaton.now word.now kept.old.items }
    ensures { IfOk result (λ _. AreTails automaton.now word.now kept.new.items) }
{
    let mut length = last_length(kept);
    while length < word.len() && step <= word.len() - length {
        length += step;
        let end = &word[word.len() - length..];
        let planes = planes_by(alloc, automaton, end, width, kept)?;
        kept.push(Tail { length, planes })?;
    }
    Ok(())
}

impl Tails {
    /// No tables.
    pub fn new(alloc: Global) -> Tails
        ensures { (A : Automaton) → HasTails A result }
    {
        Tails {
            word: Vec::new(alloc),
            kept: Vec::new(alloc),
        }
    }

    /// Goes on to this word: the tables of what both have at their end stay.
    fn go_to(&mut self, alloc: Global, word: &[u32]) -> Result<(), Memory>
        ensures word { IfOk result (λ _. self.new.word.items ≡ word.now) }
        ensures tails { IfOk
            result (λ _.
            (A : Automaton) → HasTails A self.old → AreTails A word.now self.new.kept.items) }
    {
        let common = common_end(&self.word, word);
        let count = short_ones(&self.kept, common);
        self.kept.truncate(count);
        self.word = word.to_vec(alloc)?;
        Ok(())
    }

    /// The states from which the loop, repeated for ever, is accepted. From none an empty loop is.
    fn loop_states(
        &mut self,
        alloc: Global,
        automaton: &Auto,
        turn: &[u32],
    ) -> Result<Vec<u64>, Memory>
        requires tails { HasTails automaton.now self.old }
        ensures tails { IfOk result (λ _. HasTails automaton.now self.new) }
        ensures row { IfOk result (λ row. IsRow automaton.now.states row.items) }
        ensures members { IfOk result (λ row. (p : ℕ)
            → HasBit row.items p
            ↔ ((p < automaton.now.states) × AcceptsLoopFrom automaton.now turn.now p)) }
    {
        self.go_to(alloc, turn)?;
        let states = automaton.states();
        let step = step_of(states, turn.len());
        keep_more(
            alloc,
            automaton,
            turn,
            rows::words_for(states),
            step,
            &mut self.kept,
        )?;
        loop_row(alloc, automaton, turn, &self.kept)
    }

    /// Tells whether the automaton accepts the lasso.
    pub fn accepts_lasso(
        &mut self,
        alloc: Global,
        automaton: &Auto,
        lasso: &Lasso,
    ) -> Result<bool, Memory>
        requires tails { HasTails automaton.now self.old }
        ensures tails { IfOk result (λ _. HasTails automaton.now self.new) }
        ensures told { IfOk
            result (λ told.
            IsTrue told ↔ AcceptsLasso automaton.now lasso.now.prefix lasso.now.turn) }
    {
        let looping = self.loop_states(alloc, automaton, lasso.turn.as_slice())?;
        is_accepted(alloc, automaton, lasso, &looping)
    }
}
