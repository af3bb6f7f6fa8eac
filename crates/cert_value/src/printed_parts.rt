//! How the parts of a certificate are written.

ghost use Rattle.std.specs.Prelude.{◌≡◌, ◌+◌, ◌-◌, ◌++◌, ◌∷◌, [], OnOk, decimal};
ghost use Rattle.cert_value.specs.declared.keywords.Keyword.TheVariants as keyword;
ghost use Rattle.cert_value.specs.declared.types.FirstStep.TheVariants as first;
ghost use Rattle.cert_value.specs.Text.{spelled, text_of, line_text, run_numbers, block_lines, rank_block_lines, first_step_lines, second_step_lines, row_lines, rank_row_lines, step_lines, origin_line, spaced, merge_lines, letters_tokens, numbers, gone_numbers, ranked_numbers, classes_line, element_lines};
ghost use Rattle.cert_value.specs.Printed.{joined, number_text, pair_text, mark_text};

use crate::keywords::Keyword;
use crate::printing::{
    Print, print_all, print_count, print_keyword, print_line, print_number, print_numbers,
};
use crate::types::{
    Element, FirstStep, GoneBy, Grounds, Mark, RankRow, Ranked, RelBlock, Row, Run, SecondStep,
    StepLine,
};
use auto_core::{List, Memory, Origin};

/// Writes two numbers, with a space before each.
fn print_pair(out: &mut List<u8>, first: u32, second: u32) -> Result<(), Memory>
    ensures { OnOk result (out.new ≡ out.old ++ pair_text first second) }
{
    print_number(out, first as usize)?;
    print_number(out, second as usize)?;
    Ok(())
}

impl Print for GoneBy {
    ghost use Rattle.cert_value.specs.Printed.{gone_text};

    ghost printed = { λ v pair. gone_text pair };

    fn print(&self, out: &mut List<u8>, _version: u32) -> Result<(), Memory> {
        print_pair(out, self.trans, self.by)?;
        Ok(())
    }
}

impl Print for Ranked {
    ghost use Rattle.cert_value.specs.Printed.{ranked_text};

    ghost printed = { λ v pair. ranked_text pair };

    fn print(&self, out: &mut List<u8>, _version: u32) -> Result<(), Memory> {
        print_pair(out, self.right, self.code)?;
        Ok(())
    }
}

/// Writes all numbers that a run stands for, with a space before each.
fn print_run_numbers(out: &mut List<u8>, run: Run) -> Result<(), Memory>
    ensures { OnOk result (out.new ≡ out.old ++ joined number_text (run_numbers run)) }
{
    for number in run.first as usize..run.last as usize + 1 {
        print_number(out, number)?;
    }
    Ok(())
}

impl Print for Run {
    ghost use Rattle.cert_value.specs.Printed.{run_text};

    ghost printed = { run_text };

    fn print(&self, out: &mut List<u8>, version: u32) -> Result<(), Memory> {
        if version == 2 {
            print_pair(out, self.first, self.last)?;
        } else {
            print_run_numbers(out, *self)?;
        }
        Ok(())
    }
}

impl Print for Row {
    ghost use Rattle.cert_value.specs.Text.{text_of, row_lines};

    ghost printed = { λ v row. text_of (row_lines v row) };

    fn print(&self, out: &mut List<u8>, version: u32) -> Result<(), Memory> {
        print_keyword(out, Keyword::Row)?;
        print_number(out, self.left as usize)?;
        print_all(out, self.runs.as_slice(), version)?;
        out.push(b'\n')?;
        Ok(())
    }
}

/// Writes a row of a relation with ranks.
fn print_rank_row(
    out: &mut List<u8>,
    left: u32,
    ahead: &[u32],
    rights: &[Ranked],
    version: u32,
) -> Result<(), Memory>
    ensures { OnOk result
        (out.new
        ≡ out.old
        ++ line_text (spelled keyword.Row ∷ decimal left ∷ numbers (ahead.now ++ ranked_numbers rights.now))) }
{
    print_keyword(out, Keyword::Row)?;
    print_number(out, left as usize)?;
    print_numbers(out, ahead)?;
    print_all(out, rights, version)?;
    out.push(b'\n')?;
    Ok(())
}

impl Print for RankRow {
    ghost use Rattle.cert_value.specs.Text.{text_of, rank_row_lines};

    ghost printed = { λ v row. text_of (rank_row_lines row) };

    fn print(&self, out: &mut List<u8>, version: u32) -> Result<(), Memory> {
        print_rank_row(
            out,
            self.left,
            self.ahead.as_slice(),
            self.rights.as_slice(),
            version,
        )?;
        Ok(())
    }
}

impl Print for StepLine {
    ghost use Rattle.cert_value.specs.Text.{text_of, step_lines};

    ghost printed = { λ v step. text_of (step_lines step) };

    fn print(&self, out: &mut List<u8>, _version: u32) -> Result<(), Memory> {
        print_line(out, Keyword::Step, &[self.element], self.by.as_slice())?;
        Ok(())
    }
}

impl Print for RelBlock {
    ghost use Rattle.cert_value.specs.Text.{text_of, block_lines};

    ghost printed = { λ v block. text_of (block_lines v block) };

    fn print(&self, out: &mut List<u8>, version: u32) -> Result<(), Memory> {
        let rows = self.rows.as_slice();
        print_count(out, Keyword::Rel, rows.len())?;
        print_all(out, rows, version)?;
        Ok(())
    }
}

/// Writes the rows of a relation with ranks, with their number before them.
fn print_ranks(out: &mut List<u8>, rows: &[RankRow], version: u32) -> Result<(), Memory>
    ensures { OnOk result
        (out.new ≡ out.old ++ text_of (rank_block_lines (record { rows = rows.now }))) }
{
    print_count(out, Keyword::Rel, rows.len())?;
    print_all(out, rows, version)?;
    Ok(())
}

/// Writes where an element comes from, as the last part of a line.
fn print_origin(out: &mut List<u8>, origin: Origin) -> Result<(), Memory>
    ensures { OnOk result (out.new ≡ out.old ++ line_text (origin_line origin)) }
{
    match origin {
        Origin::Start => print_line(out, Keyword::Start, &[], &[])?,
        Origin::Base(trans) => print_line(out, Keyword::Base, &[trans], &[])?,
        Origin::Next(parent, trans) => print_line(out, Keyword::Next, &[parent, trans], &[])?,
    }
    Ok(())
}

impl Print for Origin {
    ghost use Rattle.std.specs.Prelude.{◌∷◌, []};
    ghost use Rattle.cert_value.specs.Text.{text_of, origin_line};

    ghost printed = { λ v origin. text_of (origin_line origin ∷ []) };

    fn print(&self, out: &mut List<u8>, _version: u32) -> Result<(), Memory> {
        print_origin(out, *self)?;
        Ok(())
    }
}

/// Writes a mark, as the first part of a line.
fn print_mark(out: &mut List<u8>, mark: Mark) -> Result<(), Memory>
    ensures { OnOk result (out.new ≡ out.old ++ mark_text mark) }
{
    match mark {
        Mark::Live => print_keyword(out, Keyword::Live)?,
        Mark::Under(number) => {
            print_keyword(out, Keyword::Under)?;
            print_number(out, number as usize)?;
        }
    }
    out.push(b' ')?;
    Ok(())
}

impl Print for Element {
    ghost use Rattle.cert_value.specs.Text.{text_of, element_lines};

    ghost printed = { λ v element. text_of (element_lines element) };

    fn print(&self, out: &mut List<u8>, _version: u32) -> Result<(), Memory> {
        print_mark(out, self.mark)?;
        print_origin(out, self.origin)?;
        Ok(())
    }
}

/// Writes what goes, each with the better one.
fn print_gone(out: &mut List<u8>, gone: &[GoneBy], version: u32) -> Result<(), Memory>
    ensures { OnOk result
        (out.new ≡ out.old ++ line_text (spelled keyword.Gone ∷ numbers (gone_numbers gone.now))) }
{
    print_keyword(out, Keyword::Gone)?;
    print_all(out, gone, version)?;
    out.push(b'\n')?;
    Ok(())
}

/// Writes a cut of the first log.
fn print_first_cut(
    out: &mut List<u8>,
    pair: u32,
    look: u32,
    gone: &[GoneBy],
    blocks: &[RelBlock],
    version: u32,
) -> Result<(), Memory>
    ensures { OnOk result
        (out.new ≡ out.old ++ text_of (first_step_lines version (first.Cut pair look gone.now blocks.now))) }
{
    print_line(out, Keyword::Cut, &[pair, look], &[])?;
    print_gone(out, gone, version)?;
    print_all(out, blocks, version)?;
    Ok(())
}

impl Print for FirstStep {
    ghost use Rattle.cert_value.specs.Text.{text_of, first_step_lines};

    ghost printed = { λ v step. text_of (first_step_lines v step) };

    fn print(&self, out: &mut List<u8>, version: u32) -> Result<(), Memory> {
        match self {
            FirstStep::Trim { kept } => print_line(out, Keyword::Trim, &[], kept.as_slice())?,
            FirstStep::Merge { classes } => {
                print_line(out, Keyword::Merge, &[], &[])?;
                print_line(out, Keyword::Classes, &[], classes.as_slice())?;
            }
            FirstStep::Cut {
                pair,
                look,
                gone,
                blocks,
            } => {
                print_first_cut(
                    out,
                    *pair,
                    *look,
                    gone.as_slice(),
                    blocks.as_slice(),
                    version,
                )?
            }
        }
        Ok(())
    }
}

/// Writes the line of a merge by a relation, and its classes.
fn print_merge(out: &mut List<u8>, way: Keyword, look: u32, classes: &[u32]) -> Result<(), Memory>
    ensures { OnOk result
        (out.new
        ≡ out.old
        ++ text_of ((spelled keyword.Merge ∷ spelled way ∷ decimal look ∷ []) ∷ classes_line classes.now ∷ [])) }
{
    print_keyword(out, Keyword::Merge)?;
    out.push(b' ')?;
    print_line(out, way, &[look], &[])?;
    print_line(out, Keyword::Classes, &[], classes)?;
    Ok(())
}

/// Writes what stands after `merge` in the line of a merge by delayed simulation.
fn print_letters(out: &mut List<u8>, letters: u32, version: u32) -> Result<(), Memory>
    ensures { OnOk result
        (out.new ≡ out.old ++ line_text (spelled keyword.Delayed ∷ letters_tokens version letters)) }
{
    if version == 2 {
        print_line(out, Keyword::Delayed, &[letters], &[])?;
    } else {
        print_line(out, Keyword::Delayed, &[], &[])?;
    }
    Ok(())
}

/// Writes the line of a merge by delayed simulation, and its classes.
fn print_delayed(
    out: &mut List<u8>,
    letters: u32,
    classes: &[u32],
    version: u32,
) -> Result<(), Memory>
    ensures { OnOk result
        (out.new
        ≡ out.old
        ++ text_of
        ((spelled keyword.Merge ∷ spelled keyword.Delayed ∷ letters_tokens version letters)
        ∷ classes_line classes.now
        ∷ [])) }
{
    print_keyword(out, Keyword::Merge)?;
    out.push(b' ')?;
    print_letters(out, letters, version)?;
    print_line(out, Keyword::Classes, &[], classes)?;
    Ok(())
}

/// Writes a merge of the second log.
fn print_second_merge(
    out: &mut List<u8>,
    by: &Grounds,
    classes: &[u32],
    version: u32,
) -> Result<(), Memory>
    ensures { OnOk result (out.new ≡ out.old ++ text_of (merge_lines version by.now classes.now)) }
{
    match by {
        Grounds::Forward { look, rel } => {
            print_merge(out, Keyword::Forward, *look, classes)?;
            rel.print(out, version)?;
        }
        Grounds::Backward { look, rel } => {
            print_merge(out, Keyword::Backward, *look, classes)?;
            rel.print(out, version)?;
        }
        Grounds::Delayed { letters, ranks } => {
            print_delayed(out, *letters, classes, version)?;
            print_ranks(out, ranks.rows.as_slice(), version)?;
        }
    }
    Ok(())
}

impl Print for SecondStep {
    ghost use Rattle.cert_value.specs.Text.{text_of, second_step_lines};

    ghost printed = { λ v step. text_of (second_step_lines v step) };

    fn print(&self, out: &mut List<u8>, version: u32) -> Result<(), Memory> {
        match self {
            SecondStep::Trim { kept } => print_line(out, Keyword::Trim, &[], kept.as_slice())?,
            SecondStep::Merge { by, classes } => {
                print_second_merge(out, by, classes.as_slice(), version)?
            }
            SecondStep::Cut { gone } => {
                print_line(out, Keyword::Cut, &[], &[])?;
                print_line(out, Keyword::Gone, &[], gone.as_slice())?;
            }
        }
        Ok(())
    }
}
