//! Relations, read line by line straight on.

ghost use Rattle.std.specs.Prelude.{◌≡◌, ◌∷◌, [], ◌+◌, ◌^◌, ◌<◌};
ghost use Rattle.std.specs.Option.{option_copied};
ghost use Rattle.cert_value.specs.WellFormed.{key_before};
ghost use Rattle.cert_line.specs.Lines.{row_in, rank_row_in};
ghost use Rattle.cert_text.specs.Grammar.{next_line, read_rows, read_block, read_rank_rows, read_rank_block, read_blocks};
ghost use Rattle.cert_text.specs.LinesLeft.{past, ReadsOn};

use crate::faults::CertReadFault;
use crate::lines::{Lines, placed};
use auto_core::List;
use cert_line::{rank_row_in, row_in};
use cert_value::{Keyword, RankBlock, RankRow, RelBlock, Row};
use std::alloc::Global;

impl<'a, C> Lines<'a, C> {
    /// A row, its left number not below the bound.
    pub fn row(&mut self, alloc: Global, version: u32, bound: u64) -> Result<Row, CertReadFault>
        requires few { past self.old < 2 ^ 32 }
        ensures { ReadsOn {C = C} (next_line (row_in version bound)) self.old self.new result }
    {
        let number = self.at();
        let line = self.next()?;
        placed(row_in(alloc, version, bound, line), number)
    }

    /// So many rows, their left numbers ascending.
    pub fn rows(
        &mut self,
        alloc: Global,
        version: u32,
        count: u32,
    ) -> Result<List<Row>, CertReadFault>
        requires few { past self.old < 2 ^ 32 }
        ensures { ReadsOn {C = C} (read_rows version count 0 []) self.old self.new result }
    {
        let mut rows = List::new(alloc);
        let mut bound = 0u64;
        for _row in 0..count {
            let row = self.row(alloc, version, bound)?;
            bound = row.left as u64 + 1;
            rows.push(row)?;
        }
        Ok(rows)
    }

    /// A relation: the number of its rows, and the rows.
    pub fn block(&mut self, alloc: Global, version: u32) -> Result<RelBlock, CertReadFault>
        requires few { past self.old < 2 ^ 32 }
        ensures { ReadsOn {C = C} (read_block version) self.old self.new result }
    {
        let count = self.number(Keyword::Rel)?;
        let rows = self.rows(alloc, version, count)?;
        Ok(RelBlock { rows })
    }

    /// So many relations.
    pub fn blocks(
        &mut self,
        alloc: Global,
        version: u32,
        count: u32,
    ) -> Result<List<RelBlock>, CertReadFault>
        requires few { past self.old < 2 ^ 32 }
        ensures { ReadsOn {C = C} (read_blocks version count []) self.old self.new result }
    {
        let mut blocks = List::new(alloc);
        for _block in 0..count {
            let block = self.block(alloc, version)?;
            blocks.push(block)?;
        }
        Ok(blocks)
    }

    /// A row with ranks for so many announced letters, after the row before it, if there is one.
    pub fn rank_row(
        &mut self,
        alloc: Global,
        letters: u32,
        before: Option<&RankRow>,
    ) -> Result<RankRow, CertReadFault>
        requires few { past self.old < 2 ^ 32 }
        ensures { ReadsOn {C = C}
            (next_line (rank_row_in letters (key_before (option_copied before.entry))))
            self.old self.new result }
    {
        let number = self.at();
        let line = self.next()?;
        placed(rank_row_in(alloc, letters, before, line), number)
    }

    /// So many rows with ranks, their left numbers and words ascending.
    pub fn rank_rows(
        &mut self,
        alloc: Global,
        letters: u32,
        count: u32,
    ) -> Result<List<RankRow>, CertReadFault>
        requires few { past self.old < 2 ^ 32 }
        ensures { ReadsOn {C = C} (read_rank_rows letters count [] []) self.old self.new result }
    {
        let mut rows = List::new(alloc);
        for _row in 0..count {
            let row = self.rank_row(alloc, letters, rows.as_slice().last())?;
            rows.push(row)?;
        }
        Ok(rows)
    }

    /// A relation with ranks: the number of its rows, and the rows.
    pub fn rank_block(&mut self, alloc: Global, letters: u32) -> Result<RankBlock, CertReadFault>
        requires few { past self.old < 2 ^ 32 }
        ensures { ReadsOn {C = C} (read_rank_block letters) self.old self.new result }
    {
        let count = self.number(Keyword::Rel)?;
        let rows = self.rank_rows(alloc, letters, count)?;
        Ok(RankBlock { rows })
    }
}
