//! Places of what a round has found out are looked up, taken and written.

ghost use Rattle.std.specs.Prelude.{◌≡◌, ◌+◌, ◌*◌, ◌/◌, ◌<◌, ◌≤◌, ◌↔◌, ℕ, true, false, length, vec_len, IfOk};
ghost use Rattle.auto_core.specs.Automaton.{IsAutomaton};
ghost use Rattle.auto_core.specs.Rows.{bit_of, cell_of, HasBit, HasCell};
ghost use Rattle.look_round.specs.Replies.{IsInRow, HasReply, HasReplyFrom};
ghost use Rattle.look_round.specs.declared.known_rows.TheConstants.{MOST_PLACES};
ghost use Rattle.look_round.specs.Known.{IsSetAt, IsHeld, IsFor, AreReplies, KeepsAnswered, Notes};

use crate::known::Known;
use crate::moves::Move;
use crate::replies::step_replies;
use crate::sides::Side;
use auto_core::{Auto, Memory, rows};
use bit_rows::{are_equal, clear_table_row, write_row};
use std::alloc::Global;

/// At most so many places there are.
const MOST_PLACES: usize = 1024;

/// By so many bits the hash is turned before the next word.
const HASH_TURN: u32 = 23;

/// What the hash is multiplied by.
const HASH_FACTOR: u64 = 0x9E3779B97F4A7C15;

/// How many places there are: more, the deeper a round may be.
fn places_for(look: u32) -> usize
    ensures from { 1 ≤ result }
    ensures upto { result ≤ MOST_PLACES }
{
    match look {
        1 => 1,
        2 => 64,
        3 => 256,
        4 => 512,
        _ => MOST_PLACES,
    }
}

impl Known {
    /// Places for rounds at the lookahead on so many states, none of them in use.
    pub(crate) fn new(alloc: Global, states: u32, look: u32) -> Result<Known, Memory>
        ensures { IfOk result (λ known. known.width ≡ (states + 63) / 64) }
    {
        let width = rows::words_for(states);
        let places = places_for(look);
        Ok(Known {
            width,
            used: vec![in alloc; 0; places / 64 + 1]?,
            lefts: vec![in alloc; 0; places]?,
            letters: vec![in alloc; 0; places]?,
            targets: vec![in alloc; 0; places]?,
            held: vec![in alloc; 0; places * width]?,
            replies: vec![in alloc; 0; places * width]?,
            answered: vec![in alloc; 0; places * width]?,
        })
    }

    /// Leaves no place in use.
    pub(crate) fn forget(&mut self)
        ensures none { (l : ℕ) → bit_of self.new.used.items l ≡ false }
        ensures width { self.new.width ≡ self.old.width }
    {
        rows::clear_row(&mut self.used);
    }

    /// The place for the step from the states of the row.
    fn place_for(&self, automaton: &Auto, left: u32, step: Move, row: &[u64]) -> usize
        requires { step.to < automaton.now.states }
        ensures { result < vec_len self.now.lefts }
    {
        let mut hash = step.label as u64 * 16 + left as u64 * 2;
        if automaton.accepting(step.to) {
            hash += 1;
        }
        for word in row {
            hash = (hash.rotate_left(HASH_TURN) ^ *word).wrapping_mul(HASH_FACTOR);
        }
        (hash % self.lefts.len() as u64) as usize
    }

    /// Tells whether the place is for the step from the states of the row.
    fn is_for<S: Side>(
        &self,
        side: &S,
        automaton: &Auto,
        place: usize,
        left: u32,
        step: Move,
        row: &[u64],
    ) -> bool
        requires place { place < vec_len self.now.lefts }
        requires step { step.to < automaton.now.states }
        requires replies { AreReplies (S.goes side.now automaton.now)
            (S.matches side.now automaton.now) automaton.now.states self.now }
        ensures { result ≡ true
            → IsFor (S.matches side.now automaton.now) self.now place left step.label step.to
            row.now }
    {
        if !rows::has_bit(&self.used, place) {
            return false;
        }
        if self.lefts[place] != left {
            return false;
        }
        if self.letters[place] != step.label {
            return false;
        }
        let target = self.targets[place];
        if !side.matched(automaton, step.to, target) {
            return false;
        }
        if !side.matched(automaton, target, step.to) {
            return false;
        }
        are_equal(rows::row_at(&self.held, self.width, place), row)
    }

    /// Takes the place for the step from the states of the row, and writes its rows.
    fn take<S: Side>(
        &mut self,
        side: &S,
        automaton: &Auto,
        place: usize,
        left: u32,
        step: Move,
        row: &[u64],
    )
        requires place { place < vec_len self.old.lefts }
        requires valid { IsAutomaton automaton.now }
        requires step { step.to < automaton.now.states }
        requires width { self.old.width ≡ (automaton.now.states + 63) / 64 }
        requires row { length row.now ≡ (automaton.now.states + 63) / 64 }
        ensures width { self.new.width ≡ self.old.width }
        ensures places { vec_len self.new.lefts ≡ vec_len self.old.lefts }
        ensures used { HasBit self.new.used.items place }
        ensures used_others { (l : ℕ) → ¬ (l ≡ place)
            → bit_of self.new.used.items l ≡ bit_of self.old.used.items l }
        ensures lefts { IsSetAt self.old.lefts.items self.new.lefts.items place left }
        ensures letters { IsSetAt self.old.letters.items self.new.letters.items place step.label }
        ensures targets { IsSetAt self.old.targets.items self.new.targets.items place step.to }
        ensures held { (q : ℕ) → q < self.old.width * 64
            → cell_of self.new.held.items self.old.width place q ≡ bit_of row.now q }
        ensures held_others { (l q : ℕ) → q < self.old.width * 64 → ¬ (l ≡ place)
            → cell_of self.new.held.items self.old.width l q ≡ cell_of self.old.held.items self.old.width l q }
        ensures replies { (r : ℕ)
            → HasReply self.new.replies.items automaton.now.states self.old.width place r
            ↔ HasReplyFrom (S.goes side.now automaton.now) (S.matches side.now automaton.now) step.label step.to (IsInRow row.now automaton.now.states) r }
        ensures reply_others { (l q : ℕ) → q < self.old.width * 64 → ¬ (l ≡ place)
            → cell_of self.new.replies.items self.old.width l q ≡ cell_of self.old.replies.items self.old.width l q }
        ensures answered { (q : ℕ) → q < self.old.width * 64
            → cell_of self.new.answered.items self.old.width place q ≡ false }
        ensures answered_others { (l q : ℕ) → q < self.old.width * 64 → ¬ (l ≡ place)
            → cell_of self.new.answered.items self.old.width l q ≡ cell_of self.old.answered.items self.old.width l q }
    {
        rows::set_bit(&mut self.used, place);
        self.lefts[place] = left;
        self.letters[place] = step.label;
        self.targets[place] = step.to;
        write_row(&mut self.held, self.width, place, row);
        clear_table_row(&mut self.answered, self.width, place);
        step_replies(
            side,
            automaton,
            step,
            row,
            &mut self.replies,
            self.width,
            place,
        );
    }

    /// A place that is for the step from the states of the row: it is taken for it, if it is not
    /// for it yet.
    pub(crate) fn find<S: Side>(
        &mut self,
        side: &S,
        automaton: &Auto,
        left: u32,
        step: Move,
        row: &[u64],
    ) -> usize
        requires valid { IsAutomaton automaton.now }
        requires step { step.to < automaton.now.states }
        requires width { self.old.width ≡ (automaton.now.states + 63) / 64 }
        requires row { length row.now ≡ (automaton.now.states + 63) / 64 }
        requires replies { AreReplies (S.goes side.now automaton.now)
            (S.matches side.now automaton.now) automaton.now.states self.old }
        ensures place { result < vec_len self.new.lefts }
        ensures here { IsFor (S.matches side.now automaton.now) self.new result left step.label
            step.to row.now }
        ensures replies { AreReplies (S.goes side.now automaton.now)
            (S.matches side.now automaton.now) automaton.now.states self.new }
        ensures kept { KeepsAnswered self.old self.new }
    {
        let place = self.place_for(automaton, left, step, row);
        if self.is_for(side, automaton, place, left, step, row) {
            return place;
        }
        self.take(side, automaton, place, left, step, row);
        place
    }

    /// The replies that the place has.
    pub(crate) fn replies_at(&self, place: usize) -> &[u64]
        requires { place < vec_len self.now.lefts }
        ensures len { length result.now ≡ self.now.width }
        ensures bits { (q : ℕ) → q < self.now.width * 64
            → bit_of result.now q ≡ cell_of self.now.replies.items self.now.width place q }
    {
        rows::row_at(&self.replies, self.width, place)
    }

    /// Tells whether the step was found answered from the states of the row.
    pub(crate) fn is_answered<S: Side>(
        &self,
        side: &S,
        automaton: &Auto,
        left: u32,
        step: Move,
        row: &[u64],
    ) -> bool
        requires step { step.to < automaton.now.states }
        requires width { self.now.width ≡ (automaton.now.states + 63) / 64 }
        requires replies { AreReplies (S.goes side.now automaton.now)
            (S.matches side.now automaton.now) automaton.now.states self.now }
        ensures { result ≡ true
            → ((l : ℕ) × HasBit self.now.used.items l × HasCell self.now.answered.items self.now.width l step.to × IsHeld self.now.width self.now l left step.label row.now) }
    {
        let place = self.place_for(automaton, left, step, row);
        if !self.is_for(side, automaton, place, left, step, row) {
            return false;
        }
        rows::has_cell(&self.answered, self.width, place, step.to as usize)
    }

    /// Notes that the step is answered from the states of the row, if a place is for it.
    pub(crate) fn note<S: Side>(
        &mut self,
        side: &S,
        automaton: &Auto,
        left: u32,
        step: Move,
        row: &[u64],
    )
        requires step { step.to < automaton.now.states }
        requires width { self.old.width ≡ (automaton.now.states + 63) / 64 }
        requires replies { AreReplies (S.goes side.now automaton.now)
            (S.matches side.now automaton.now) automaton.now.states self.old }
        ensures replies { AreReplies (S.goes side.now automaton.now)
            (S.matches side.now automaton.now) automaton.now.states self.new }
        ensures notes { Notes self.old self.new left step.label step.to row.now }
    {
        let place = self.place_for(automaton, left, step, row);
        if !self.is_for(side, automaton, place, left, step, row) {
            return;
        }
        rows::set_cell(&mut self.answered, self.width, place, step.to as usize);
    }
}
