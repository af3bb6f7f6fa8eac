//! The states from which the rest of a lasso is accepted, kept while letters of its prefix are left
//! out.

ghost use Rattle.std.specs.Prelude.{◌≡◌, ◌+◌, ◌*◌, ◌/◌, ◌^◌, ◌<◌, ◌≤◌, ◌↔◌, ℕ, List, length, IfOk};
ghost use Rattle.auto_core.specs.Automaton.{IsAutomaton};
ghost use Rattle.auto_core.specs.Rows.{HasBit};
ghost use Rattle.set_rows.specs.Sets.{IsRow};
ghost use Rattle.lasso_accept.specs.Looping.{AcceptsLoopFrom};
ghost use Rattle.lasso_shrink.specs.Shrinking.{word_without};
ghost use Rattle.lasso_shrink.specs.Prefixes.{AreRestsFrom, AreKept};

use auto_core::{Auto, Lasso, Memory, rows};
use lasso_accept::{rests_of, step_back};
use std::alloc::Global;

/// For each place of a lasso's prefix, and for its end, the row of the states from which the rest
/// of the lasso is accepted. The rows stand at the end of the table, after those of letters that
/// were left out.
#[derive(Debug, Drop)]
pub struct Rests {
    /// How many letters were left out.
    pub first: usize,
    /// The rows.
    pub table: Vec<u64>,
    /// Room for a row.
    pub row: Vec<u64>,
    /// Room for a row.
    pub out: Vec<u64>,
}

/// Writes the rows of the places before this one anew, from the row after them, where the prefix
/// has lost its letter there. The last two rows are room.
fn rewrite(
    automaton: &Auto,
    lasso: &Lasso,
    place: usize,
    first: usize,
    width: usize,
    table: &mut [u64],
    row: &mut [u64],
    out: &mut [u64],
)
    requires valid { IsAutomaton automaton.now }
    requires width { width ≡ (automaton.now.states + 63) / 64 }
    requires few { width < 2 ^ 32 }
    requires within { place < length lasso.now.prefix }
    requires rests { AreRestsFrom automaton.now lasso.now.prefix lasso.now.turn width first
        table.old }
    requires row_len { length row.old ≡ width }
    requires out_len { length out.old ≡ width }
    ensures { AreRestsFrom automaton.now (word_without lasso.now.prefix place) lasso.now.turn width
        (first + 1) table.new }
{
    let prefix = lasso.prefix.as_slice();
    for at in (0..place).rev() {
        step_back(
            automaton,
            prefix[at],
            width,
            first + at + 2,
            table,
            row,
            out,
        );
    }
}

impl Rests {
    /// The rests of the lasso. The target has the states from which its loop is accepted.
    pub fn of(
        alloc: Global,
        automaton: &Auto,
        lasso: &Lasso,
        target: &[u64],
    ) -> Result<Rests, Memory>
        requires row { IsRow automaton.now.states target.now }
        requires loops { (p : ℕ)
            → HasBit target.now p
            ↔ ((p < automaton.now.states) × AcceptsLoopFrom automaton.now lasso.now.turn p) }
        ensures { IfOk result (AreKept automaton.now lasso.now.prefix lasso.now.turn) }
    {
        let width = rows::words_for(automaton.states());
        Ok(Rests {
            first: 0,
            table: rests_of(alloc, automaton, lasso, target)?,
            row: vec![in alloc; 0; width]?,
            out: vec![in alloc; 0; width]?,
        })
    }

    /// Leaves the prefix's letter at the place out.
    pub fn leave_out(&mut self, automaton: &Auto, lasso: &Lasso, place: usize)
        requires within { place < length lasso.now.prefix }
        requires kept { AreKept automaton.now lasso.now.prefix lasso.now.turn self.old }
        ensures { AreKept automaton.now (word_without lasso.now.prefix place) lasso.now.turn
            self.new }
    {
        let width = rows::words_for(automaton.states());
        rewrite(
            automaton,
            lasso,
            place,
            self.first,
            width,
            &mut self.table,
            &mut self.row,
            &mut self.out,
        );
        self.first += 1;
    }
}
