//! The reader of proofs.

ghost use Rattle.std.specs.Prelude.{◌≡◌, ◌≤◌, ◌<◌, ◌^◌, length, ◌⊎◌, Ok, Err, IfOk};
ghost use Rattle.cert_text.specs.declared.faults.TextFault.{TextFault};
ghost use Rattle.cert_text.specs.declared.faults.CertReadFault.TheVariants as fault;
ghost use Rattle.cert_text.specs.Grammar.{next_line};
ghost use Rattle.cert_text.specs.LinesLeft.{past, ReadsOn};
ghost use Rattle.cert_text.specs.Told.{Told};
ghost use Rattle.proof_text.specs.declared.types.Proof.{Proof};
ghost use Rattle.proof_text.specs.ProofText.{ProofFormed, proof_text, without_logs};
ghost use Rattle.proof_text.specs.ProofGrammar.{FirstProofFault, proof_heading_in, read_front, read_product, read_delayed, read_closed_list, read_proof_body, proof_reading};

use crate::heading::heading_in;
use crate::types::{Evidence, Front, Proof, ProofBody, ProofForm};
use auto_core::{List, Mode};
use cert_line::Tail;
use cert_text::{CertReadFault, Closed, Lines, placed};
use cert_value::{Keyword, YesBody};
use std::alloc::Global;

/// Reads the first line.
fn heading(lines: &mut Lines<'_, Proof>) -> Result<ProofForm, CertReadFault>
    requires few { past lines.old < 2 ^ 32 }
    ensures { ReadsOn {C = Proof} (next_line proof_heading_in) lines.old lines.new result }
{
    let number = lines.at();
    let line = lines.next()?;
    placed(heading_in(line), number)
}

/// Reads what the two automata become.
fn front(alloc: Global, lines: &mut Lines<'_, Proof>) -> Result<Front, CertReadFault>
    requires few { past lines.old < 2 ^ 32 }
    ensures { ReadsOn {C = Proof} read_front lines.old lines.new result }
{
    let second = lines.second_log(alloc, 2, Mode::Buchi)?;
    let letters = lines.numbers(alloc, Keyword::Letters, Tail::Numbers)?;
    let map = lines.numbers(alloc, Keyword::Map, Tail::Numbers)?;
    let accepting = lines.ascending(alloc, Keyword::Accepting, Tail::Numbers)?;
    let first = lines.first_log(alloc, 2)?;
    Ok(Front {
        second,
        letters,
        map,
        accepting,
        first,
    })
}

/// Reads a yes by a product.
fn product(alloc: Global, lines: &mut Lines<'_, Proof>) -> Result<ProofBody, CertReadFault>
    requires few { past lines.old < 2 ^ 32 }
    ensures { ReadsOn {C = Proof} read_product lines.old lines.new result }
{
    let front = front(alloc, lines)?;
    match lines.rank_block(alloc, 1) {
        Ok(pairs) => Ok(ProofBody::Yes(front, Evidence::Product(pairs))),
        Err(fault) => {
            drop(front);
            Err(fault)
        }
    }
}

/// Reads a yes by a delayed simulation across.
fn delayed(alloc: Global, lines: &mut Lines<'_, Proof>) -> Result<ProofBody, CertReadFault>
    requires few { past lines.old < 2 ^ 32 }
    ensures { ReadsOn {C = Proof} read_delayed lines.old lines.new result }
{
    let front = front(alloc, lines)?;
    match lines.rank_block(alloc, 1) {
        Ok(pairs) => Ok(ProofBody::Yes(front, Evidence::Delayed(pairs))),
        Err(fault) => {
            drop(front);
            Err(fault)
        }
    }
}

/// The closed list, as the body of a yes without a step in its logs.
fn without_logs(alloc: Global, closed: Closed) -> YesBody
    ensures { result ≡ without_logs closed }
{
    YesBody {
        first: List::new(alloc),
        second: List::new(alloc),
        order: closed.order,
        elements: closed.elements,
        cover: closed.cover,
        steps: closed.steps,
    }
}

/// Reads a yes by a closed list of elements.
fn closed(alloc: Global, lines: &mut Lines<'_, Proof>) -> Result<ProofBody, CertReadFault>
    requires few { past lines.old < 2 ^ 32 }
    ensures { ReadsOn {C = Proof} read_closed_list lines.old lines.new result }
{
    let front = front(alloc, lines)?;
    match lines.closed(alloc, 2, Mode::Buchi) {
        Ok(closed) => {
            let list = without_logs(alloc, closed);
            Ok(ProofBody::Yes(front, Evidence::Closed(list)))
        }
        Err(fault) => {
            drop(front);
            Err(fault)
        }
    }
}

/// Reads what stands between the line of sizes and the last line.
fn body(
    alloc: Global,
    form: ProofForm,
    lines: &mut Lines<'_, Proof>,
) -> Result<ProofBody, CertReadFault>
    requires few { past lines.old < 2 ^ 32 }
    ensures { ReadsOn {C = Proof} (read_proof_body form) lines.old lines.new result }
{
    match form {
        ProofForm::No => {
            let lasso = lines.lasso(alloc)?;
            Ok(ProofBody::No(lasso))
        }
        ProofForm::Product => product(alloc, lines),
        ProofForm::Delayed => delayed(alloc, lines),
        ProofForm::Closed => closed(alloc, lines),
    }
}

/// What the bytes are, read line by line.
fn read_text(alloc: Global, bytes: &[u8]) -> Result<Proof, CertReadFault>
    requires { length bytes.now ≤ 2 ^ 30 }
    ensures reading { Told (proof_reading bytes.now) result }
{
    let mut lines = Lines::of(bytes);
    let form = heading(&mut lines)?;
    let sizes = lines.sizes()?;
    let body = body(alloc, form, &mut lines)?;
    lines.end()?;
    lines.finish()?;
    Ok(Proof {
        first_states: sizes.first_states,
        second_states: sizes.second_states,
        labels: sizes.labels,
        body,
    })
}

/// Reads a proof's text, of at most 1 GiB. It takes no memory for lines that have not come.
pub fn read_proof(alloc: Global, bytes: &[u8]) -> Result<Proof, CertReadFault>
    requires { length bytes.now ≤ 2 ^ 30 }
    ensures found { IfOk result (λ p. ProofFormed p × (bytes.now ≡ proof_text p)) }
    ensures only { (p : Proof)
        → ProofFormed p
        → bytes.now ≡ proof_text p
        → (result ≡ Ok p) ⊎ (result ≡ Err fault.Memory) }
    ensures fault { (f : TextFault) → result ≡ Err (fault.Text f) → FirstProofFault bytes.now f }
    ensures first { (f : TextFault)
        → FirstProofFault bytes.now f
        → (result ≡ Err (fault.Text f)) ⊎ (result ≡ Err fault.Memory) }
{
    read_text(alloc, bytes)
}
