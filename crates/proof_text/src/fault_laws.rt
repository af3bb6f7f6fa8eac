//! Where the first fault of a proof's text stands.

ghost use Rattle.proof_text.specs.Proofs.{ProofTextsAreRead, ProofTextOrFault, NoProofTextHasFault, OneFirstProofFault, ProofFaultStandsLater, ProofLinesBeginNone, ProofMoreIsTrailing, ProofTrailingFollowsText};
ghost use Rattle.proof_text.specs.ProofAdmitted.{ProofFaultEndsAdmitted, ProofLinesAreAdmitted, ProofTruncatedAtTheEnd, ProofTruncatedJustWhere, ProofHeaderInLineOne, ProofHeaderJustWhere};

/// Bytes are read as a proof just where they are its text.
pub fn proof_texts_are_read()
    ensures { ProofTextsAreRead }
{}

/// Bytes are a proof's text, or they have a first fault.
pub fn bytes_are_a_proof_text_or_have_a_fault()
    ensures { ProofTextOrFault }
{}

/// No text of a proof has a first fault.
pub fn no_proof_text_has_a_fault()
    ensures { NoProofTextHasFault }
{}

/// Bytes have one first fault of a proof's text at most.
pub fn there_is_one_first_proof_fault()
    ensures { OneFirstProofFault }
{}

/// After so many lines as a proof's text begins with, a first fault stands in a later line.
pub fn fault_stands_after_a_proofs_lines()
    ensures { ProofFaultStandsLater }
{}

/// A fault that is neither that the text ends too soon nor that it goes on stands in a whole line,
/// and with the lines up to that one no proof's text begins.
pub fn lines_up_to_the_fault_begin_no_proof_text()
    ensures { ProofLinesBeginNone }
{}

/// What follows a proof's text is trailing, in the line after the text's last.
pub fn more_after_the_proof_text_is_trailing()
    ensures { ProofMoreIsTrailing }
{}

/// What is told to be trailing follows a proof's text.
pub fn trailing_follows_a_proof_text()
    ensures { ProofTrailingFollowsText }
{}

/// The first fault of a proof's text stands at the first line with which the lines up to it are not
/// admitted.
pub fn the_proof_fault_ends_the_admitted_lines()
    ensures { ProofFaultEndsAdmitted }
{}

/// Lines with which a proof's text begins are admitted.
pub fn a_proofs_lines_are_admitted()
    ensures { ProofLinesAreAdmitted }
{}

/// That a proof's text ends too soon is told in the line after all whole ones.
pub fn proof_truncated_stands_at_the_end()
    ensures { ProofTruncatedAtTheEnd }
{}

/// The text ends too soon just where all whole lines are admitted and no proof's text stands at its
/// beginning.
pub fn proof_truncated_where_no_line_is_refused()
    ensures { ProofTruncatedJustWhere }
{}

/// A wrong heading is told in the first line, which is no proof's first line.
pub fn header_stands_in_a_proofs_line_one()
    ensures { ProofHeaderInLineOne }
{}

/// The heading is wrong just where the first line is whole and is no proof's first line.
pub fn a_header_fault_is_no_proofs_line()
    ensures { ProofHeaderJustWhere }
{}
