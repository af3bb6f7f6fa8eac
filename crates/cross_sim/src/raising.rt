//! Rows whose right numbers are raised, so that they name the second automaton's states after the
//! first's.

ghost use Rattle.std.specs.Prelude.{◌≡◌, ◌+◌, ◌<◌, ◌≤◌, ◌^◌, All, IfOk, map};
ghost use Rattle.cert_value.specs.declared.types.Run.{Run};
ghost use Rattle.cross_sim.specs.Rules.{AreRowsInRange, raised_run, raised_row, raised_block};
ghost use Rattle.cross_sim.specs.Raising.{AreRunsBelow, AreRowsBelow};

use auto_core::{List, Memory};
use cert_value::{RelBlock, Row, Run};
use std::alloc::Global;

/// The run with both ends raised.
fn raised_run(run: Run, by: u32) -> Run
    requires first { run.first + by < 2 ^ 32 }
    requires last { run.last + by < 2 ^ 32 }
    ensures { result ≡ raised_run by run }
{
    Run {
        first: by + run.first,
        last: by + run.last,
    }
}

/// The row with all its right numbers raised.
fn raised_row(alloc: Global, row: &Row, by: u32) -> Result<Row, Memory>
    requires below { AreRunsBelow by row.now.runs }
    ensures { IfOk result (λ raised. raised ≡ raised_row by row.now) }
{
    let mut runs = List::new(alloc);
    for run in row.runs.as_slice() {
        runs.push(raised_run(*run, by))?;
    }
    Ok(Row {
        left: row.left,
        runs,
    })
}

/// The relation of the rows with all their right numbers raised.
pub(crate) fn raised_block(alloc: Global, rows: &[Row], by: u32) -> Result<RelBlock, Memory>
    requires below { AreRowsBelow by rows.now }
    ensures { IfOk result (λ block. block ≡ raised_block by rows.now) }
{
    let mut raised = List::new(alloc);
    for row in rows {
        raised.push(raised_row(alloc, row, by)?)?;
    }
    Ok(RelBlock { rows: raised })
}
