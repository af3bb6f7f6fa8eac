//! The first line of a proof.

ghost use Rattle.std.specs.Prelude.{◌≡◌};
ghost use Rattle.cert_value.specs.Tokens.{tokens_of};
ghost use Rattle.cert_line.specs.Agrees.{Agrees};
ghost use Rattle.proof_text.specs.ProofText.{proof_form_word};
ghost use Rattle.proof_text.specs.ProofGrammar.{is_proof_heading, proof_heading_in};

use crate::types::ProofForm;
use cert_line::{LineFault, Place, Tail, TextKind, line_fault};
use cert_value::Keyword;

/// The form's word in the first line.
pub(crate) fn form_word(form: ProofForm) -> Keyword
    ensures { result ≡ proof_form_word form }
{
    match form {
        ProofForm::No => Keyword::No,
        ProofForm::Product => Keyword::Product,
        ProofForm::Delayed => Keyword::Delayed,
        ProofForm::Closed => Keyword::Closed,
    }
}

/// Whether the line is the first line of a proof of this form.
fn is_heading(form: ProofForm, line: &[u8]) -> bool
    ensures { result ≡ is_proof_heading form (tokens_of line.now) }
{
    let places = [
        Place::Word(Keyword::RabitProof),
        Place::Word(Keyword::One),
        Place::Word(form_word(form)),
    ];
    line_fault(&places, Tail::Nothing, line).is_none()
}

/// What the first line says: the proof has one of four forms.
pub(crate) fn heading_in(line: &[u8]) -> Result<ProofForm, LineFault>
    ensures { Agrees (proof_heading_in (tokens_of line.now)) result }
{
    if is_heading(ProofForm::No, line) {
        return Ok(ProofForm::No);
    }
    if is_heading(ProofForm::Product, line) {
        return Ok(ProofForm::Product);
    }
    if is_heading(ProofForm::Delayed, line) {
        return Ok(ProofForm::Delayed);
    }
    if is_heading(ProofForm::Closed, line) {
        return Ok(ProofForm::Closed);
    }
    Err(LineFault::Text(TextKind::Header))
}
