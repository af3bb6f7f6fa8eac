//! The reader of cross relations.

ghost use Rattle.std.specs.Prelude.{◌≡◌, ◌≤◌, ◌<◌, ◌^◌, length, ◌⊎◌, Ok, Err, IfOk};
ghost use Rattle.cert_value.specs.Tokens.{tokens_of};
ghost use Rattle.cert_line.specs.Agrees.{Agrees};
ghost use Rattle.cert_text.specs.declared.faults.TextFault.{TextFault};
ghost use Rattle.cert_text.specs.declared.faults.CertReadFault.TheVariants as fault;
ghost use Rattle.cert_text.specs.Told.{Told};
ghost use Rattle.cert_text.specs.declared.cross.Cross.{Cross};
ghost use Rattle.cert_text.specs.Grammar.{next_line};
ghost use Rattle.cert_text.specs.LinesLeft.{past, ReadsOn};
ghost use Rattle.cert_text.specs.CrossGrammar.{FirstCrossFault, cross_heading_in, cross_reading};
ghost use Rattle.cert_text.specs.CrossText.{CrossFormed, cross_text};

use crate::cross::Cross;
use crate::faults::CertReadFault;
use crate::lines::{Lines, placed};
use cert_line::{LineFault, Place, Tail, TextKind, line_fault};
use cert_value::Keyword;
use std::alloc::Global;

/// The first line: the words of a cross relation.
fn heading_in(line: &[u8]) -> Result<(), LineFault>
    ensures { Agrees (cross_heading_in (tokens_of line.now)) result }
{
    let places = [Place::Word(Keyword::RabitCross), Place::Word(Keyword::One)];
    match line_fault(&places, Tail::Nothing, line) {
        Some(_) => Err(LineFault::Text(TextKind::Header)),
        None => Ok(()),
    }
}

/// Reads the first line.
fn heading(lines: &mut Lines<'_, Cross>) -> Result<(), CertReadFault>
    requires few { past lines.old < 2 ^ 32 }
    ensures { ReadsOn {C = Cross} (next_line cross_heading_in) lines.old lines.new result }
{
    let number = lines.at();
    let line = lines.next()?;
    placed(heading_in(line), number)
}

/// What the bytes are, read line by line.
fn read_text(alloc: Global, bytes: &[u8]) -> Result<Cross, CertReadFault>
    requires { length bytes.now ≤ 2 ^ 30 }
    ensures reading { Told (cross_reading bytes.now) result }
{
    let mut lines = Lines::of(bytes);
    heading(&mut lines)?;
    let sizes = lines.sizes()?;
    let look = lines.number(Keyword::Look)?;
    let relation = lines.block(alloc, 1)?;
    lines.end()?;
    lines.finish()?;
    Ok(Cross {
        first_states: sizes.first_states,
        second_states: sizes.second_states,
        labels: sizes.labels,
        look,
        rows: relation.rows,
    })
}

/// Reads a cross relation's text, of at most 1 GiB. It takes no memory for lines that have not
/// come.
pub fn read_cross(alloc: Global, bytes: &[u8]) -> Result<Cross, CertReadFault>
    requires { length bytes.now ≤ 2 ^ 30 }
    ensures found { IfOk result (λ c. CrossFormed c × (bytes.now ≡ cross_text c)) }
    ensures only { (c : Cross)
        → CrossFormed c
        → bytes.now ≡ cross_text c
        → (result ≡ Ok c) ⊎ (result ≡ Err fault.Memory) }
    ensures fault { (f : TextFault) → result ≡ Err (fault.Text f) → FirstCrossFault bytes.now f }
    ensures first { (f : TextFault)
        → FirstCrossFault bytes.now f
        → (result ≡ Err (fault.Text f)) ⊎ (result ≡ Err fault.Memory) }
{
    read_text(alloc, bytes)
}
