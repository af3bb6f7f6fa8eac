//! The writer of cross relations.

ghost use Rattle.std.specs.Prelude.{◌≡◌, ◌++◌, ◌∷◌, [], OnOk, IfOk, length, decimal};
ghost use Rattle.cert_value.specs.declared.keywords.Keyword.TheVariants as keyword;
ghost use Rattle.cert_value.specs.Text.{line_text, text_of, block_lines, sizes_line};
ghost use Rattle.cert_text.specs.CrossText.{heading_line, look_line, cross_text};

use crate::cross::Cross;
use auto_core::{List, Memory};
use cert_value::{Keyword, Row, print_all, print_count, print_keyword, print_line};
use std::alloc::Global;

/// Writes the first line.
fn print_heading(out: &mut List<u8>) -> Result<(), Memory>
    ensures { OnOk result (out.new ≡ out.old ++ line_text heading_line) }
{
    print_keyword(out, Keyword::RabitCross)?;
    out.push(b' ')?;
    print_line(out, Keyword::One, &[], &[])?;
    Ok(())
}

/// Writes the rows, with their number before them.
fn print_rows(out: &mut List<u8>, rows: &[Row]) -> Result<(), Memory>
    ensures { OnOk result
        (out.new ≡ out.old ++ text_of (block_lines 1 (record { rows = rows.now }))) }
{
    print_count(out, Keyword::Rel, rows.len())?;
    print_all(out, rows, 1)?;
    Ok(())
}

/// Writes the cross relation.
fn print_cross(out: &mut List<u8>, cross: &Cross) -> Result<(), Memory>
    ensures { OnOk result (out.new ≡ out.old ++ cross_text cross.now) }
{
    print_heading(out)?;
    print_line(
        out,
        Keyword::Sizes,
        &[cross.first_states, cross.second_states, cross.labels],
        &[],
    )?;
    print_line(out, Keyword::Look, &[cross.look], &[])?;
    print_rows(out, cross.rows.as_slice())?;
    print_line(out, Keyword::End, &[], &[])?;
    Ok(())
}

/// The cross relation's text. It is a text of the format where `cross_formed` holds.
pub fn write_cross(alloc: Global, cross: &Cross) -> Result<List<u8>, Memory>
    ensures text { IfOk result (λ bytes. bytes ≡ cross_text cross.now) }
{
    let mut out = List::new(alloc);
    print_cross(&mut out, cross)?;
    Ok(out)
}
