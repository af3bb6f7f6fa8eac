//! The words of a certificate's first line.

ghost use Rattle.std.specs.Prelude.{◌≡◌};
ghost use Rattle.cert_value.specs.Text.{version_word, mode_word, form_word};

use auto_core::Mode;
use cert_value::{Form, Keyword};

/// The version's word in the first line.
pub fn version_word(version: u32) -> Keyword
    ensures { result ≡ version_word version }
{
    if version == 2 {
        Keyword::Two
    } else {
        Keyword::One
    }
}

/// The mode's word in the first line.
pub fn mode_word(mode: Mode) -> Keyword
    ensures { result ≡ mode_word mode }
{
    match mode {
        Mode::Buchi => Keyword::Buchi,
        Mode::Finite => Keyword::Finite,
    }
}

/// The form's word in the first line.
pub fn form_word(form: Form) -> Keyword
    ensures { result ≡ form_word form }
{
    match form {
        Form::Yes => Keyword::Yes,
        Form::No => Keyword::No,
        Form::List => Keyword::List,
    }
}
