//! Words and lassos as the texts of their labels.

ghost use Rattle.std.specs.Prelude.{◌≡◌, ◌<◌, ◌++◌, length, All, OnOk};
ghost use Rattle.rabit_frame.specs.Printed.{word_text, further_letters, lasso_lines, word_line};

use auto_core::{Lasso, List, Memory, Word, append};
use ba_format::Texts;

/// Appends a comma and the text of its label for each letter of the word.
fn push_further(out: &mut List<u8>, labels: &Texts, word: &[u32]) -> Result<(), Memory>
    requires { All (λ a. a < length labels.now) word.now }
    ensures { OnOk result (out.new ≡ out.old ++ further_letters labels.now word.now) }
{
    for letter in word {
        out.push(b',')?;
        append(out, labels.get(*letter))?;
    }
    Ok(())
}

/// Appends a space and the texts of the word's labels, joined by commas; nothing for the empty
/// word.
pub fn push_word(out: &mut List<u8>, labels: &Texts, word: &[u32]) -> Result<(), Memory>
    requires { All (λ a. a < length labels.now) word.now }
    ensures { OnOk result (out.new ≡ out.old ++ word_text labels.now word.now) }
{
    if let [first, further @ ..] = word {
        out.push(b' ')?;
        append(out, labels.get(*first))?;
        push_further(out, labels, further)?;
    }
    Ok(())
}

/// Appends the lines of the lasso.
pub fn push_lasso(out: &mut List<u8>, labels: &Texts, lasso: &Lasso) -> Result<(), Memory>
    requires prefix { All (λ a. a < length labels.now) lasso.now.prefix }
    requires turn { All (λ a. a < length labels.now) lasso.now.turn }
    ensures { OnOk result (out.new ≡ out.old ++ lasso_lines labels.now lasso.now) }
{
    append(out, b"prefix:")?;
    push_word(out, labels, lasso.prefix.as_slice())?;
    append(out, b"\nloop:")?;
    push_word(out, labels, lasso.turn.as_slice())?;
    append(out, b"\n")
}

/// Appends the line of the word.
pub fn push_word_line(out: &mut List<u8>, labels: &Texts, word: &Word) -> Result<(), Memory>
    requires { All (λ a. a < length labels.now) word.now }
    ensures { OnOk result (out.new ≡ out.old ++ word_line labels.now word.now) }
{
    append(out, b"word:")?;
    push_word(out, labels, word.as_slice())?;
    append(out, b"\n")
}
