//! The text of certificates, in both versions: the reader, which says their first fault, and the
//! writer. The value is that of `cert_value`.
#![tactic(auto)]

mod block_lines;
mod blocks;
mod closed_lines;
mod cross;
mod cross_checks;
pub mod cross_laws;
mod cross_read;
mod cross_write;
mod evidence;
mod fault_laws;
mod faults;
mod first_log;
mod laws;
mod lines;
mod log_lines;
mod machine;
mod parts;
mod pieces;
mod read;
mod second_log;
mod write;

pub use cert_line::TextKind;
pub use cert_value::{
    Body, Cert, Element, FirstStep, GoneBy, Grounds, ListBody, Mark, RankBlock, RankRow, Ranked,
    RelBlock, Row, Run, SecondStep, StepLine, YesBody, upgrade, well_formed,
};
pub use cross::Cross;
pub use cross_checks::cross_formed;
pub use cross_read::read_cross;
pub use cross_write::write_cross;
pub use fault_laws::{
    a_certificates_lines_are_admitted, a_cross_relations_lines_are_admitted,
    a_header_fault_is_no_certificates_line, a_header_fault_is_no_cross_relations_line,
    admitted_lines_may_begin_no_cross_text, admitted_lines_may_begin_no_text,
    bytes_are_a_cross_text_or_have_a_fault, bytes_are_a_text_or_have_a_fault,
    cross_header_stands_in_line_one, cross_texts_are_read, cross_truncated_stands_at_the_end,
    cross_truncated_where_no_line_is_refused, fault_stands_after_a_certificates_lines,
    fault_stands_after_a_cross_relations_lines, header_stands_in_line_one,
    lines_up_to_the_fault_begin_no_cross_text, lines_up_to_the_fault_begin_none,
    more_after_the_cross_text_is_trailing, more_after_the_text_is_trailing,
    no_cross_text_has_a_fault, no_text_has_a_fault, texts_are_read,
    the_cross_fault_ends_the_admitted_lines, the_fault_ends_the_admitted_lines,
    there_is_one_first_cross_fault, there_is_one_first_fault, trailing_follows_a_cross_text,
    trailing_follows_a_text, truncated_stands_at_the_end, truncated_where_no_line_is_refused,
};
pub use faults::{CertReadFault, TextFault};
pub use laws::one_text;
pub use lines::{Lines, placed};
pub use parts::Closed;
pub use pieces::CertReader;
pub use read::read_cert;
pub use write::{print_elements, print_first_log, print_second_log, write_cert, write_upgraded};
