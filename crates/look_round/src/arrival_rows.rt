//! For each state, letter by letter, the states from which a move leads to it. Where there are many
//! moves they are a row of bits, which is joined to another row by words; where there are few they
//! are gone through one by one, and no rows are made.

ghost use Rattle.std.specs.Prelude.{◌≡◌, ◌+◌, ◌*◌, ◌/◌, ◌^◌, ◌<◌, ◌≤◌, ◌↔◌, ◌⊎◌, ℕ, length, IfOk};
ghost use Rattle.auto_core.specs.Rows.{cell_of, HasCell};
ghost use Rattle.look_round.specs.Arrivals.{AreArrivals};

use crate::answer_rows::mark_arrivals;
use crate::answering::Answering;
use crate::arrivals::Arrivals;
use crate::sides::Side;
use auto_core::{Auto, Memory, rows};
use bit_rows::clear_table_row;
use std::alloc::Global;

/// So many words of a row are joined in the time in which one state is marked.
const WORDS_A_STATE: usize = 16;

impl Arrivals {
    /// Rows laid out as these, that are to be written yet; or none where so few moves lead to a
    /// state that a row costs more.
    fn blank(alloc: Global, transitions: usize, like: &Answering) -> Result<Arrivals, Memory>
        ensures labels { IfOk result (λ made. made.labels ≡ like.now.labels) }
        ensures width { IfOk result (λ made. made.width ≡ like.now.width) }
        ensures kept { IfOk result (λ made. made.kept ≤ like.now.kept) }
    {
        if transitions <= like.table.len() / WORDS_A_STATE {
            return Ok(Arrivals {
                labels: like.labels,
                width: like.width,
                kept: 0,
                table: Vec::new(alloc),
            });
        }
        let table = vec![in alloc; 0; like.table.len()]?;
        Ok(Arrivals {
            labels: like.labels,
            width: like.width,
            kept: like.kept,
            table,
        })
    }

    /// Writes the row of the state.
    fn write<S: Side>(&mut self, side: &S, automaton: &Auto, r: u32)
        requires row { r < self.old.kept }
        requires state { r < automaton.now.states }
        requires width { self.old.width ≡ (automaton.now.states + 63) / 64 }
        ensures labels { self.new.labels ≡ self.old.labels }
        ensures width { self.new.width ≡ self.old.width }
        ensures kept { self.new.kept ≡ self.old.kept }
        ensures here { (a q : ℕ) → a < self.old.labels → q < self.old.width * 64
            → HasCell self.new.table.items (self.old.labels * self.old.width) r (a * self.old.width * 64 + q) ↔ S.goes side.now automaton.now q a r }
        ensures others { (s c : ℕ) → c < self.old.labels * self.old.width * 64 → ¬ (s ≡ r)
            → cell_of self.new.table.items (self.old.labels * self.old.width) s c ≡ cell_of self.old.table.items (self.old.labels * self.old.width) s c }
    {
        let words = self.labels as usize * self.width;
        clear_table_row(&mut self.table, words, r as usize);
        mark_arrivals(
            side,
            automaton,
            r,
            r,
            &mut self.table,
            self.labels,
            self.width,
        );
    }

    /// The arrivals at the states of the automaton, laid out as the rows of answers; with no row
    /// where moves are few.
    pub(crate) fn new<S: Side>(
        alloc: Global,
        side: &S,
        automaton: &Auto,
        like: &Answering,
    ) -> Result<Arrivals, Memory>
        requires kept { like.now.kept ≤ automaton.now.states }
        requires width { like.now.width ≡ (automaton.now.states + 63) / 64 }
        ensures labels { IfOk result (λ made. made.labels ≡ like.now.labels) }
        ensures width { IfOk result (λ made. made.width ≡ like.now.width) }
        ensures arrivals { IfOk result (AreArrivals (S.goes side.now automaton.now)) }
    {
        let mut made = Arrivals::blank(alloc, automaton.transitions().len(), like)?;
        for r in 0..made.kept {
            made.write(side, automaton, r);
        }
        Ok(made)
    }

    /// Adds to row `t` of the table, for each letter, the states from which a move by it leads to
    /// `r`.
    pub(crate) fn add<S: Side>(&self, side: &S, automaton: &Auto, t: u32, r: u32, table: &mut [u64])
        requires arrivals { AreArrivals (S.goes side.now automaton.now) self.now }
        requires state { r < automaton.now.states }
        requires width { self.now.width ≡ (automaton.now.states + 63) / 64 }
        requires row { t * (self.now.labels * self.now.width) + self.now.labels * self.now.width
            ≤ length table.old }
        ensures here { (a q : ℕ) → a < self.now.labels → q < self.now.width * 64
            → HasCell table.new (self.now.labels * self.now.width) t (a * self.now.width * 64 + q)
            ↔ (HasCell table.old (self.now.labels * self.now.width) t (a * self.now.width * 64 + q) ⊎ S.goes side.now automaton.now q a r) }
        ensures others { (s c : ℕ) → c < self.now.labels * self.now.width * 64 → ¬ (s ≡ t)
            → cell_of table.new (self.now.labels * self.now.width) s c ≡ cell_of table.old (self.now.labels * self.now.width) s c }
    {
        if r < self.kept {
            let words = self.labels as usize * self.width;
            let row = rows::row_at(&self.table, words, r as usize);
            rows::or_row(table, words, t as usize, row);
        } else {
            mark_arrivals(side, automaton, t, r, table, self.labels, self.width);
        }
    }
}
