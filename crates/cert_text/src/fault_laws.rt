//! Where the first fault of a certificate's or a cross relation's text stands.

ghost use Rattle.cert_text.specs.FirstFaults.{FaultStandsLater, LinesBeginNone, MoreIsTrailing};
ghost use Rattle.cert_text.specs.Admitted.{EndlessIsAdmitted, FaultEndsAdmitted, CertLinesAreAdmitted, TruncatedAtTheEnd, TruncatedJustWhere, HeaderInLineOne, HeaderJustWhere};
ghost use Rattle.cert_text.specs.Texts.{TextsAreRead, TextOrFault, NoTextHasFault, OneFirstFault, TrailingFollowsText};
ghost use Rattle.cert_text.specs.Crosses.{CrossTextsAreRead, CrossTextOrFault, NoCrossTextHasFault, OneFirstCrossFault, CrossFaultStandsLater, CrossLinesBeginNone, CrossMoreIsTrailing, CrossTrailingFollowsText};
ghost use Rattle.cert_text.specs.CrossAdmitted.{CrossEndlessIsAdmitted, CrossFaultEndsAdmitted, CrossLinesAreAdmitted, CrossTruncatedAtTheEnd, CrossTruncatedJustWhere, CrossHeaderInLineOne, CrossHeaderJustWhere};

/// After so many lines as a certificate's text begins with, a first fault stands in a later line.
pub fn fault_stands_after_a_certificates_lines()
    ensures { FaultStandsLater }
{}

/// A fault that is neither that the text ends too soon nor that it goes on stands in a whole line,
/// and with the lines up to that one no certificate's text begins.
pub fn lines_up_to_the_fault_begin_none()
    ensures { LinesBeginNone }
{}

/// What follows a certificate's text is trailing, in the line after the text's last.
pub fn more_after_the_text_is_trailing()
    ensures { MoreIsTrailing }
{}

/// The first fault stands at the first line with which the lines up to it are not admitted.
pub fn the_fault_ends_the_admitted_lines()
    ensures { FaultEndsAdmitted }
{}

/// Lines with which a certificate's text begins are admitted.
pub fn a_certificates_lines_are_admitted()
    ensures { CertLinesAreAdmitted }
{}

/// There are lines that are admitted although no certificate's text begins with them.
pub fn admitted_lines_may_begin_no_text()
    ensures { EndlessIsAdmitted }
{}

/// That the text ends too soon is told in the line after all whole ones.
pub fn truncated_stands_at_the_end()
    ensures { TruncatedAtTheEnd }
{}

/// The text ends too soon just where all whole lines are admitted and no certificate's text stands
/// at its beginning.
pub fn truncated_where_no_line_is_refused()
    ensures { TruncatedJustWhere }
{}

/// A wrong heading is told in the first line, which is no certificate's first line.
pub fn header_stands_in_line_one()
    ensures { HeaderInLineOne }
{}

/// The heading is wrong just where the first line is whole and is no certificate's first line.
pub fn a_header_fault_is_no_certificates_line()
    ensures { HeaderJustWhere }
{}

/// What is told to be trailing follows a certificate's text.
pub fn trailing_follows_a_text()
    ensures { TrailingFollowsText }
{}

/// Bytes are read as a certificate just where they are its text.
pub fn texts_are_read()
    ensures { TextsAreRead }
{}

/// Bytes are a certificate's text, or they have a first fault.
pub fn bytes_are_a_text_or_have_a_fault()
    ensures { TextOrFault }
{}

/// No text of a certificate has a first fault.
pub fn no_text_has_a_fault()
    ensures { NoTextHasFault }
{}

/// Bytes have one first fault at most.
pub fn there_is_one_first_fault()
    ensures { OneFirstFault }
{}

/// Bytes are read as a cross relation just where they are its text.
pub fn cross_texts_are_read()
    ensures { CrossTextsAreRead }
{}

/// Bytes are a cross relation's text, or they have a first fault.
pub fn bytes_are_a_cross_text_or_have_a_fault()
    ensures { CrossTextOrFault }
{}

/// No text of a cross relation has a first fault.
pub fn no_cross_text_has_a_fault()
    ensures { NoCrossTextHasFault }
{}

/// Bytes have one first fault of a cross relation's text at most.
pub fn there_is_one_first_cross_fault()
    ensures { OneFirstCrossFault }
{}

/// After so many lines as a cross relation's text begins with, a first fault stands in a later
/// line.
pub fn fault_stands_after_a_cross_relations_lines()
    ensures { CrossFaultStandsLater }
{}

/// A fault that is neither that the text ends too soon nor that it goes on stands in a whole line,
/// and with the lines up to that one no cross relation's text begins.
pub fn lines_up_to_the_fault_begin_no_cross_text()
    ensures { CrossLinesBeginNone }
{}

/// What follows a cross relation's text is trailing, in the line after the text's last.
pub fn more_after_the_cross_text_is_trailing()
    ensures { CrossMoreIsTrailing }
{}

/// What is told to be trailing follows a cross relation's text.
pub fn trailing_follows_a_cross_text()
    ensures { CrossTrailingFollowsText }
{}

/// The first fault of a cross relation's text stands at the first line with which the lines up to
/// it are not admitted.
pub fn the_cross_fault_ends_the_admitted_lines()
    ensures { CrossFaultEndsAdmitted }
{}

/// Lines with which a cross relation's text begins are admitted.
pub fn a_cross_relations_lines_are_admitted()
    ensures { CrossLinesAreAdmitted }
{}

/// There are lines that are admitted although no cross relation's text begins with them.
pub fn admitted_lines_may_begin_no_cross_text()
    ensures { CrossEndlessIsAdmitted }
{}

/// That a cross relation's text ends too soon is told in the line after all whole ones.
pub fn cross_truncated_stands_at_the_end()
    ensures { CrossTruncatedAtTheEnd }
{}

/// The text ends too soon just where all whole lines are admitted and no cross relation's text
/// stands at its beginning.
pub fn cross_truncated_where_no_line_is_refused()
    ensures { CrossTruncatedJustWhere }
{}

/// A wrong heading is told in the first line, which is no cross relation's first line.
pub fn cross_header_stands_in_line_one()
    ensures { CrossHeaderInLineOne }
{}

/// The heading is wrong just where the first line is whole and is no cross relation's first line.
pub fn a_header_fault_is_no_cross_relations_line()
    ensures { CrossHeaderJustWhere }
{}
