//! The text of a certificate, written.

ghost use Rattle.std.specs.Prelude.{◌≡◌, ◌^◌, ◌<◌, ◌++◌, ◌∷◌, [], List as Items, OnOk, decimal, ℕ};
ghost use Rattle.cert_value.specs.Text.{spelled, line_text, numbers};
ghost use Rattle.cert_value.specs.Printed.{joined, number_text};

use crate::keywords::Keyword;
use auto_core::{List, Memory, append};

/// A part of a certificate, which can be written onto the end of a text.
pub trait Print: Drop {
    ghost printed: { ℕ → Self → Items ℕ };

    /// Writes it onto the end, as this version has it.
    fn print(&self, out: &mut List<u8>, version: u32) -> Result<(), Memory>
        ensures { OnOk result (out.new ≡ out.old ++ printed version self.now) };
}

/// Writes all of them, in order.
pub fn print_all<T: Print>(out: &mut List<u8>, items: &[T], version: u32) -> Result<(), Memory>
    ensures { OnOk result (out.new ≡ out.old ++ joined (T.printed version) items.now) }
{
    for item in items {
        item.print(out, version)?;
    }
    Ok(())
}

/// Writes the number's decimal digits.
pub(crate) fn print_decimal(out: &mut List<u8>, number: usize) -> Result<(), Memory>
    ensures { OnOk result (out.new ≡ out.old ++ decimal number) }
{
    if number >= 10 {
        print_decimal(out, number / 10)?;
    }
    out.push(48 + (number % 10) as u8)?;
    Ok(())
}

/// Writes the number, with a space before it.
pub(crate) fn print_number(out: &mut List<u8>, number: usize) -> Result<(), Memory>
    ensures { OnOk result (out.new ≡ out.old ++ number_text number) }
{
    out.push(b' ')?;
    print_decimal(out, number)?;
    Ok(())
}

/// Writes the numbers, each with a space before it.
pub(crate) fn print_numbers(out: &mut List<u8>, numbers: &[u32]) -> Result<(), Memory>
    ensures { OnOk result (out.new ≡ out.old ++ joined number_text numbers.now) }
{
    for number in numbers {
        print_number(out, *number as usize)?;
    }
    Ok(())
}

/// Writes the word.
pub fn print_keyword(out: &mut List<u8>, keyword: Keyword) -> Result<(), Memory>
    ensures { OnOk result (out.new ≡ out.old ++ spelled keyword) }
{
    append(out, keyword.text())?;
    Ok(())
}

/// Writes a line: a word and numbers.
pub fn print_line(
    out: &mut List<u8>,
    keyword: Keyword,
    heads: &[u32],
    tail: &[u32],
) -> Result<(), Memory>
    ensures { OnOk result
        (out.new ≡ out.old ++ line_text (spelled keyword ∷ numbers (heads.now ++ tail.now))) }
{
    print_keyword(out, keyword)?;
    print_numbers(out, heads)?;
    print_numbers(out, tail)?;
    out.push(b'\n')?;
    Ok(())
}

/// Writes a line: a word and how many there are of something.
pub fn print_count(out: &mut List<u8>, keyword: Keyword, count: usize) -> Result<(), Memory>
    ensures { OnOk result (out.new ≡ out.old ++ line_text (spelled keyword ∷ decimal count ∷ [])) }
{
    print_keyword(out, keyword)?;
    out.push(b' ')?;
    print_decimal(out, count)?;
    out.push(b'\n')?;
    Ok(())
}
