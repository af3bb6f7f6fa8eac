//! The writer of proofs.

ghost use Rattle.std.specs.Prelude.{◌≡◌, ◌++◌, OnOk, IfOk};
ghost use Rattle.cert_value.specs.Text.{line_text, text_of, rank_block_lines};
ghost use Rattle.proof_text.specs.declared.types.Evidence.TheVariants as evidence;
ghost use Rattle.proof_text.specs.ProofText.{proof_heading, class_lines, front_lines, evidence_lines, no_lines, proof_body_lines, proof_form_of, proof_text};

use crate::heading::form_word;
use crate::types::{Evidence, Front, Proof, ProofBody, ProofForm};
use auto_core::{Lasso, List, Memory};
use cert_text::{print_elements, print_first_log, print_second_log};
use cert_value::{
    Keyword, Print, RankRow, YesBody, print_all, print_count, print_keyword, print_line,
};
use std::alloc::Global;

/// Which form the body has.
fn form_of(body: &ProofBody) -> ProofForm
    ensures { result ≡ proof_form_of body.now }
{
    match body {
        ProofBody::No(_) => ProofForm::No,
        ProofBody::Yes(_, evidence) => match evidence {
            Evidence::Product(_) => ProofForm::Product,
            Evidence::Delayed(_) => ProofForm::Delayed,
            Evidence::Closed(_) => ProofForm::Closed,
        },
    }
}

/// Writes the first line.
fn print_heading(out: &mut List<u8>, form: ProofForm) -> Result<(), Memory>
    ensures { OnOk result (out.new ≡ out.old ++ line_text (proof_heading form)) }
{
    print_keyword(out, Keyword::RabitProof)?;
    out.push(b' ')?;
    print_keyword(out, Keyword::One)?;
    out.push(b' ')?;
    print_line(out, form_word(form), &[], &[])?;
    Ok(())
}

/// Writes the class of each label, the class of each state, and the accepting classes.
fn print_classes(
    out: &mut List<u8>,
    letters: &[u32],
    map: &[u32],
    accepting: &[u32],
) -> Result<(), Memory>
    ensures { OnOk result
        (out.new ≡ out.old ++ text_of (class_lines letters.now map.now accepting.now)) }
{
    print_line(out, Keyword::Letters, &[], letters)?;
    print_line(out, Keyword::Map, &[], map)?;
    print_line(out, Keyword::Accepting, &[], accepting)?;
    Ok(())
}

/// Writes what stands before the evidence of inclusion.
fn print_front(out: &mut List<u8>, front: &Front) -> Result<(), Memory>
    ensures { OnOk result (out.new ≡ out.old ++ text_of (front_lines front.now)) }
{
    print_second_log(out, front.second.as_slice(), 2)?;
    print_classes(
        out,
        front.letters.as_slice(),
        front.map.as_slice(),
        front.accepting.as_slice(),
    )?;
    print_first_log(out, front.first.as_slice(), 2)?;
    Ok(())
}

/// Writes pairs with their ranks, the number of the rows before them.
fn print_pairs(out: &mut List<u8>, rows: &[RankRow]) -> Result<(), Memory>
    ensures { OnOk result
        (out.new ≡ out.old ++ text_of (rank_block_lines (record { rows = rows.now }))) }
{
    print_count(out, Keyword::Rel, rows.len())?;
    print_all(out, rows, 2)?;
    Ok(())
}

/// Writes a closed list of elements.
fn print_closed(out: &mut List<u8>, closed: &YesBody) -> Result<(), Memory>
    ensures { OnOk result
        (out.new ≡ out.old ++ text_of (evidence_lines (evidence.Closed closed.now))) }
{
    closed.order.print(out, 2)?;
    print_elements(
        out,
        closed.elements.as_slice(),
        closed.cover.as_slice(),
        closed.steps.as_slice(),
        2,
    )?;
    Ok(())
}

/// Writes the evidence of inclusion.
fn print_evidence(out: &mut List<u8>, evidence: &Evidence) -> Result<(), Memory>
    ensures { OnOk result (out.new ≡ out.old ++ text_of (evidence_lines evidence.now)) }
{
    match evidence {
        Evidence::Product(pairs) => print_pairs(out, pairs.rows.as_slice())?,
        Evidence::Delayed(pairs) => print_pairs(out, pairs.rows.as_slice())?,
        Evidence::Closed(closed) => print_closed(out, closed)?,
    }
    Ok(())
}

/// Writes a lasso.
fn print_lasso(out: &mut List<u8>, lasso: &Lasso) -> Result<(), Memory>
    ensures { OnOk result (out.new ≡ out.old ++ text_of (no_lines lasso.now)) }
{
    print_line(out, Keyword::Prefix, &[], lasso.prefix.as_slice())?;
    print_line(out, Keyword::Loop, &[], lasso.turn.as_slice())?;
    Ok(())
}

/// Writes what stands between the line of sizes and the last line.
fn print_body(out: &mut List<u8>, body: &ProofBody) -> Result<(), Memory>
    ensures { OnOk result (out.new ≡ out.old ++ text_of (proof_body_lines body.now)) }
{
    match body {
        ProofBody::No(lasso) => print_lasso(out, lasso)?,
        ProofBody::Yes(front, evidence) => {
            print_front(out, front)?;
            print_evidence(out, evidence)?;
        }
    }
    Ok(())
}

/// Writes the proof.
fn print_proof(out: &mut List<u8>, proof: &Proof) -> Result<(), Memory>
    ensures { OnOk result (out.new ≡ out.old ++ proof_text proof.now) }
{
    print_heading(out, form_of(&proof.body))?;
    print_line(
        out,
        Keyword::Sizes,
        &[proof.first_states, proof.second_states, proof.labels],
        &[],
    )?;
    print_body(out, &proof.body)?;
    print_line(out, Keyword::End, &[], &[])?;
    Ok(())
}

/// The proof's text. It is a text of the format where `ProofFormed` holds of the proof.
pub fn write_proof(alloc: Global, proof: &Proof) -> Result<List<u8>, Memory>
    ensures text { IfOk result (λ bytes. bytes ≡ proof_text proof.now) }
{
    let mut out = List::new(alloc);
    print_proof(&mut out, proof)?;
    Ok(out)
}
