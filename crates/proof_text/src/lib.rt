//! The text of proofs: the value, the reader, which says their first fault, and the writer.
#![tactic(auto)]

mod fault_laws;
mod heading;
mod laws;
mod read;
mod types;
mod write;

pub use fault_laws::{
    a_header_fault_is_no_proofs_line, a_proofs_lines_are_admitted,
    bytes_are_a_proof_text_or_have_a_fault, fault_stands_after_a_proofs_lines,
    header_stands_in_a_proofs_line_one, lines_up_to_the_fault_begin_no_proof_text,
    more_after_the_proof_text_is_trailing, no_proof_text_has_a_fault, proof_texts_are_read,
    proof_truncated_stands_at_the_end, proof_truncated_where_no_line_is_refused,
    the_proof_fault_ends_the_admitted_lines, there_is_one_first_proof_fault,
    trailing_follows_a_proof_text,
};
pub use laws::one_proof_text;
pub use read::read_proof;
pub use types::{Evidence, Front, Proof, ProofBody, ProofForm};
pub use write::write_proof;
