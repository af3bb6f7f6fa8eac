//! Rows of the states that answer a move at once are made from a relation and read. A state's row
//! stays right until the relation loses a pair of that state.

ghost use Rattle.std.specs.Prelude.{◌≡◌, ◌+◌, ◌*◌, ◌/◌, ◌^◌, ◌<◌, ◌≤◌, ◌↔◌, ◌⊎◌, ℕ, length, vec_len, Contains, IsTrue, IfOk};
ghost use Rattle.auto_core.specs.Rows.{cell_of, HasCell, HasBit};
ghost use Rattle.auto_core.specs.Game.{Holds};
ghost use Rattle.look_round.specs.Arrivals.{AreArrivals};
ghost use Rattle.look_round.specs.ReplyLists.{AreReplyLists};
ghost use Rattle.look_round.specs.Answering.{IsAnsweredAtOnce, IsRowOfAnswers, AreRowsOfAnswers};

use crate::answering::Answering;
use crate::arrivals::Arrivals;
use crate::moves::Move;
use crate::reply_lists::ReplyLists;
use crate::sides::Side;
use auto_core::{Auto, Memory, rows};
use bit_rel::Rel;
use bit_rows::{and_row, clear_table_row, next_bit};
use std::alloc::Global;

/// At most so many words are kept.
const MOST_WORDS: usize = 4194304;

/// The place of a letter and a state in a row.
fn place_in_row(labels: u32, width: usize, label: u32, state: u32) -> usize
    requires label { label < labels }
    requires state { state < width * 64 }
    requires few { labels * width < 2 ^ 32 }
    ensures is { result ≡ label * width * 64 + state }
    ensures fits { result < labels * width * 64 }
{
    label as usize * width * 64 + state as usize
}

/// Marks in row `t` of the table, for each letter, the states from which a move by it leads to `r`.
pub(crate) fn mark_arrivals<S: Side>(
    side: &S,
    automaton: &Auto,
    t: u32,
    r: u32,
    table: &mut [u64],
    labels: u32,
    width: usize,
)
    requires state { r < automaton.now.states }
    requires width { width ≡ (automaton.now.states + 63) / 64 }
    requires few { labels * width < 2 ^ 32 }
    requires row { t * (labels * width) + labels * width ≤ length table.old }
    ensures here { (a q : ℕ) → a < labels → q < width * 64
        → HasCell table.new (labels * width) t (a * width * 64 + q)
        ↔ (HasCell table.old (labels * width) t (a * width * 64 + q) ⊎ S.goes side.now automaton.now q a r) }
    ensures others { (s c : ℕ) → c < labels * width * 64 → ¬ (s ≡ t)
        → cell_of table.new (labels * width) s c ≡ cell_of table.old (labels * width) s c }
{
    for at in 0..side.arrivals(automaton, r) {
        let m = side.nth_arrival(automaton, r, at);
        if m.label < labels {
            let place = place_in_row(labels, width, m.label, m.to);
            rows::set_cell(table, labels as usize * width, t as usize, place);
        }
    }
}

/// Writes into row `t` of the table, for each letter, the states that answer a move by it to `t` at
/// once.
fn write_answers<S: Side>(
    side: &S,
    automaton: &Auto,
    rel: &Rel,
    arrivals: &Arrivals,
    t: u32,
    table: &mut [u64],
)
    requires state { t < automaton.now.states }
    requires equal { rel.now.size ≡ automaton.now.states }
    requires states { automaton.now.states < 2 ^ 32 }
    requires arrivals { AreArrivals (S.goes side.now automaton.now) arrivals.now }
    requires width { arrivals.now.width ≡ (automaton.now.states + 63) / 64 }
    requires row { t * (arrivals.now.labels * arrivals.now.width)
        + arrivals.now.labels * arrivals.now.width ≤ length table.old }
    ensures here { (a q : ℕ) → a < arrivals.now.labels → q < arrivals.now.width * 64
        → HasCell table.new (arrivals.now.labels * arrivals.now.width) t (a * arrivals.now.width * 64 + q)
        ↔ IsAnsweredAtOnce (S.goes side.now automaton.now) (S.matches side.now automaton.now) (Holds rel.now.pairs) a t q }
    ensures others { (s c : ℕ) → c < arrivals.now.labels * arrivals.now.width * 64 → ¬ (s ≡ t)
        → cell_of table.new (arrivals.now.labels * arrivals.now.width) s c ≡ cell_of table.old (arrivals.now.labels * arrivals.now.width) s c }
{
    clear_table_row(table, arrivals.labels as usize * arrivals.width, t as usize);
    let mut at = 0;
    while let Some(r) = next_bit(rel.row(t), at) {
        if side.matched(automaton, t, r as u32) {
            arrivals.add(side, automaton, t, r as u32, table);
        }
        at = r + 1;
    }
}

/// Clears in row `t` of the table, for each letter, the states from which a move by it leads to `r`
/// and that do not answer the move to `t` at once.
fn clear_arrivals<S: Side>(
    side: &S,
    automaton: &Auto,
    rel: &Rel,
    lists: &ReplyLists,
    t: u32,
    r: u32,
    table: &mut [u64],
    labels: u32,
    width: usize,
)
    requires equal { rel.now.size ≡ automaton.now.states }
    requires lists { AreReplyLists (S.goes side.now automaton.now)
        (S.matches side.now automaton.now) automaton.now.states lists.now }
    requires left { t < automaton.now.states }
    requires right { r < automaton.now.states }
    requires width { width ≡ (automaton.now.states + 63) / 64 }
    requires few { labels * width < 2 ^ 32 }
    requires row { t * (labels * width) + labels * width ≤ length table.old }
    ensures here { (a q : ℕ) → a < labels → q < width * 64
        → HasCell table.new (labels * width) t (a * width * 64 + q)
        ↔ (HasCell table.old (labels * width) t (a * width * 64 + q)
        × (S.goes side.now automaton.now q a r → IsAnsweredAtOnce (S.goes side.now automaton.now) (S.matches side.now automaton.now) (Holds rel.now.pairs) a t q)) }
    ensures others { (s c : ℕ) → c < labels * width * 64 → ¬ (s ≡ t)
        → cell_of table.new (labels * width) s c ≡ cell_of table.old (labels * width) s c }
{
    for at in 0..side.arrivals(automaton, r) {
        let m = side.nth_arrival(automaton, r, at);
        let step = Move {
            label: m.label,
            to: t,
        };
        if m.label < labels && !lists.has_reply(side, automaton, m.to, step, rel.row(t)) {
            let place = place_in_row(labels, width, m.label, m.to);
            rows::clear_cell(table, labels as usize * width, t as usize, place);
        }
    }
}

/// Makes row `t` of the table right, which was so before `t` lost its pairs with those of the row
/// `lost`.
fn forget_lost<S: Side>(
    side: &S,
    automaton: &Auto,
    rel: &Rel,
    lists: &ReplyLists,
    t: u32,
    lost: &[u64],
    table: &mut [u64],
    labels: u32,
    width: usize,
)
    requires equal { rel.now.size ≡ automaton.now.states }
    requires lists { AreReplyLists (S.goes side.now automaton.now)
        (S.matches side.now automaton.now) automaton.now.states lists.now }
    requires state { t < automaton.now.states }
    requires states { automaton.now.states < 2 ^ 32 }
    requires width { width ≡ (automaton.now.states + 63) / 64 }
    requires few { labels * width < 2 ^ 32 }
    requires row { t * (labels * width) + labels * width ≤ length table.old }
    requires lost { length lost.now ≡ width }
    requires below { (r : ℕ) → HasBit lost.now r → r < automaton.now.states }
    requires before { (a q : ℕ) → a < labels → q < width * 64
        → HasCell table.old (labels * width) t (a * width * 64 + q)
        ↔ IsAnsweredAtOnce (S.goes side.now automaton.now) (S.matches side.now automaton.now) (λ p r. Holds rel.now.pairs p r ⊎ HasBit lost.now r) a t q }
    ensures here { (a q : ℕ) → a < labels → q < width * 64
        → HasCell table.new (labels * width) t (a * width * 64 + q)
        ↔ IsAnsweredAtOnce (S.goes side.now automaton.now) (S.matches side.now automaton.now) (Holds rel.now.pairs) a t q }
    ensures others { (s c : ℕ) → c < labels * width * 64 → ¬ (s ≡ t)
        → cell_of table.new (labels * width) s c ≡ cell_of table.old (labels * width) s c }
{
    let mut at = 0;
    while let Some(r) = next_bit(lost, at) {
        clear_arrivals(
            side, automaton, rel, lists, t, r as u32, table, labels, width,
        );
        at = r + 1;
    }
}

/// Writes into `rest` the states of the first row that the second has not.
fn leave_others(row: &[u64], rest: &mut [u64])
    requires { length rest.old ≡ length row.now }
    ensures { (q : ℕ) → HasBit rest.new q ↔ (HasBit row.now q × (HasBit rest.old q → ⊥)) }
{
    for j in 0..rest.len() {
        rest[j] = row[j] & (row[j] ^ rest[j]);
    }
}

impl Answering {
    /// No row at all, for the states of the automaton.
    pub fn none(alloc: Global, automaton: &Auto) -> Answering
        ensures width { result.width ≡ (automaton.now.states + 63) / 64 }
        ensures kept { result.kept ≡ 0 }
        ensures lists { result.lists.labels ≡ 0 }
    {
        Answering {
            labels: 0,
            width: rows::words_for(automaton.states()),
            kept: 0,
            table: Vec::new(alloc),
            lists: ReplyLists::none(alloc),
        }
    }

    /// Rows of this width, as far as there is room for some, that are to be written yet.
    fn blank(
        alloc: Global,
        states: u32,
        labels: u32,
        width: usize,
        lists: ReplyLists,
    ) -> Result<Answering, Memory>
        requires few { width < 2 ^ 27 }
        ensures lists { IfOk result (λ rows. rows.lists ≡ lists) }
        ensures width { IfOk result (λ rows. rows.width ≡ width) }
        ensures kept { IfOk result (λ rows. rows.kept ≤ states) }
    {
        if labels as usize > MOST_WORDS || width > MOST_WORDS {
            return Ok(Answering {
                labels: 0,
                width,
                kept: 0,
                table: Vec::new(alloc),
                lists,
            });
        }
        let words = labels as usize * width;
        if words == 0 || words > MOST_WORDS {
            return Ok(Answering {
                labels: 0,
                width,
                kept: 0,
                table: Vec::new(alloc),
                lists,
            });
        }
        let kept = (states as usize).min(MOST_WORDS / words) as u32;
        let table = vec![in alloc; 0; kept as usize * words]?;
        Ok(Answering {
            labels,
            width,
            kept,
            table,
            lists,
        })
    }

    /// The rows of the relation, as far as there is room for them, and the lists of replies.
    pub fn new<S: Side>(
        alloc: Global,
        side: &S,
        automaton: &Auto,
        rel: &Rel,
    ) -> Result<Answering, Memory>
        requires equal { rel.now.size ≡ automaton.now.states }
        ensures { IfOk result
            (AreRowsOfAnswers (S.goes side.now automaton.now) (S.matches side.now automaton.now)
            (Holds rel.now.pairs) automaton.now.states) }
    {
        let count = automaton.states();
        let width = rows::words_for(count);
        let lists = ReplyLists::new(alloc, side, automaton)?;
        let mut made = Answering::blank(alloc, count, automaton.labels(), width, lists)?;
        let arrivals = Arrivals::new(alloc, side, automaton, &made)?;
        for t in 0..count {
            made.refresh(side, automaton, rel, &arrivals, t);
        }
        Ok(made)
    }

    /// Makes the row of the state right, if it has one.
    fn refresh<S: Side>(
        &mut self,
        side: &S,
        automaton: &Auto,
        rel: &Rel,
        arrivals: &Arrivals,
        t: u32,
    )
        requires state { t < automaton.now.states }
        requires states { automaton.now.states < 2 ^ 32 }
        requires equal { rel.now.size ≡ automaton.now.states }
        requires arrivals { AreArrivals (S.goes side.now automaton.now) arrivals.now }
        requires like_labels { arrivals.now.labels ≡ self.old.labels }
        requires like_width { arrivals.now.width ≡ self.old.width }
        requires width { self.old.width ≡ (automaton.now.states + 63) / 64 }
        ensures width { self.new.width ≡ self.old.width }
        ensures kept { self.new.kept ≡ self.old.kept }
        ensures here { t < self.old.kept
            → IsRowOfAnswers (S.goes side.now automaton.now) (S.matches side.now automaton.now) (Holds rel.now.pairs) self.new t }
        ensures labels { self.new.labels ≡ self.old.labels }
        ensures lists { self.new.lists ≡ self.old.lists }
        ensures others { (s c : ℕ) → c < self.old.labels * self.old.width * 64 → ¬ (s ≡ t)
            → cell_of self.new.table.items (self.old.labels * self.old.width) s c ≡ cell_of self.old.table.items (self.old.labels * self.old.width) s c }
    {
        if t >= self.kept {
            return;
        }
        write_answers(side, automaton, rel, arrivals, t, &mut self.table);
    }

    /// Tells whether there is a row for the move.
    pub(crate) fn has_row(&self, step: Move) -> bool
        ensures { IsTrue result ↔ ((step.to < self.now.kept) × (step.label < self.now.labels)) }
    {
        step.to < self.kept && step.label < self.labels
    }

    /// The states that answer the move at once.
    pub(crate) fn row_of(&self, step: Move) -> &[u64]
        requires to { step.to < self.now.kept }
        requires label { step.label < self.now.labels }
        ensures len { length result.now ≡ self.now.width }
        ensures bits { (q : ℕ) → q < self.now.width * 64
            → HasBit result.now q
            ↔ HasCell self.now.table.items (self.now.labels * self.now.width) step.to (step.label * self.now.width * 64 + q) }
    {
        let words = self.labels as usize * self.width;
        let row = rows::row_at(&self.table, words, step.to as usize);
        rows::row_at(row, self.width, step.label as usize)
    }

    /// Tells whether one of these states answers the move at once.
    pub(crate) fn has_one(&self, step: Move, from: &[u32]) -> bool
        requires to { step.to < self.now.kept }
        requires label { step.label < self.now.labels }
        requires from { (q : ℕ) → Contains from.now q → q < self.now.width * 64 }
        ensures { IsTrue result
            ↔ ((q : ℕ) × Contains from.now q × HasCell self.now.table.items (self.now.labels * self.now.width) step.to (step.label * self.now.width * 64 + q)) }
    {
        let row = self.row_of(step);
        for i in 0..from.len() {
            if rows::has_bit(row, from[i] as usize) {
                return true;
            }
        }
        false
    }

    /// Makes the row of the state right, if it has one and it was so before the state lost its
    /// pairs with those of the row `lost`.
    pub fn forget<S: Side>(&mut self, side: &S, automaton: &Auto, rel: &Rel, t: u32, lost: &[u64])
        requires state { t < automaton.now.states }
        requires states { automaton.now.states < 2 ^ 32 }
        requires equal { rel.now.size ≡ automaton.now.states }
        requires width { self.old.width ≡ (automaton.now.states + 63) / 64 }
        requires lists { AreReplyLists (S.goes side.now automaton.now)
            (S.matches side.now automaton.now) automaton.now.states self.old.lists }
        requires lost { length lost.now ≡ (automaton.now.states + 63) / 64 }
        requires below { (r : ℕ) → HasBit lost.now r → r < automaton.now.states }
        requires before { t < self.old.kept
            → IsRowOfAnswers (S.goes side.now automaton.now) (S.matches side.now automaton.now) (λ p r. Holds rel.now.pairs p r ⊎ HasBit lost.now r) self.old t }
        ensures width { self.new.width ≡ self.old.width }
        ensures kept { self.new.kept ≡ self.old.kept }
        ensures here { t < self.old.kept
            → IsRowOfAnswers (S.goes side.now automaton.now) (S.matches side.now automaton.now) (Holds rel.now.pairs) self.new t }
        ensures labels { self.new.labels ≡ self.old.labels }
        ensures lists { self.new.lists ≡ self.old.lists }
        ensures others { (s c : ℕ) → c < self.old.labels * self.old.width * 64 → ¬ (s ≡ t)
            → cell_of self.new.table.items (self.old.labels * self.old.width) s c ≡ cell_of self.old.table.items (self.old.labels * self.old.width) s c }
    {
        if t >= self.kept {
            return;
        }
        forget_lost(
            side,
            automaton,
            rel,
            &self.lists,
            t,
            lost,
            &mut self.table,
            self.labels,
            self.width,
        );
    }

    /// Clears the row's states that do not answer the move at once, or all where that is not known.
    fn keep_answering<S: Side>(
        &self,
        side: &S,
        automaton: &Auto,
        rel: &Rel,
        step: Move,
        row: &mut [u64],
    )
        requires answers { AreRowsOfAnswers (S.goes side.now automaton.now)
            (S.matches side.now automaton.now) (Holds rel.now.pairs) automaton.now.states self.now }
        requires row { length row.old ≡ self.now.width }
        ensures { (q : ℕ) → q < self.now.width * 64
            → HasBit row.new q
            → HasBit row.old q × IsAnsweredAtOnce (S.goes side.now automaton.now) (S.matches side.now automaton.now) (Holds rel.now.pairs) step.label step.to q }
    {
        if self.has_row(step) {
            and_row(row, self.width, 0, self.row_of(step));
        } else {
            rows::clear_row(row);
        }
    }

    /// Writes into `rest` the states that `p` is related to and that do not answer each of its
    /// moves at once, as far as is known.
    pub fn unanswered<S: Side>(
        &self,
        side: &S,
        automaton: &Auto,
        rel: &Rel,
        p: u32,
        rest: &mut [u64],
    )
        requires state { p < automaton.now.states }
        requires equal { rel.now.size ≡ automaton.now.states }
        requires answers { AreRowsOfAnswers (S.goes side.now automaton.now)
            (S.matches side.now automaton.now) (Holds rel.now.pairs) automaton.now.states self.now }
        requires rest { length rest.old ≡ (automaton.now.states + 63) / 64 }
        ensures related { (q : ℕ) → HasBit rest.new q → Holds rel.now.pairs p q }
        ensures answered { (q : ℕ) → Holds rel.now.pairs p q → (HasBit rest.new q → ⊥)
            → (a r : ℕ) → S.goes side.now automaton.now p a r
            → IsAnsweredAtOnce (S.goes side.now automaton.now) (S.matches side.now automaton.now) (Holds rel.now.pairs) a r q }
    {
        let related = rel.row(p);
        rest.copy_from_slice(related);
        for at in 0..side.moves(automaton, p) {
            self.keep_answering(side, automaton, rel, side.nth(automaton, p, at), rest);
        }
        leave_others(related, rest);
    }
}
