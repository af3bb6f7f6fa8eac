//! The check of a proof.

ghost use Rattle.std.specs.Prelude.{◌≡◌, ◌↔◌, IfOk, IsTrue, length, true, Err, ◌≤◌, ◌*◌, ◌^◌, ◌+◌};
ghost use Rattle.auto_core.specs.Automaton.{IsAutomaton};
ghost use Rattle.log_check.specs.Checks.{Tells};
ghost use Rattle.cert_check.specs.Rules.{lasso_checks};
ghost use Rattle.proof_text.specs.ProofText.{ProofFormed, is_front, is_evidence, is_proof_body};
ghost use Rattle.proof_front.specs.Stages.{TellsStage};
ghost use Rattle.proof_check.specs.Rules.{HasProofSizes, KeepsProofRules, BreaksProofRule, ProofSaysTruly, evidence_checks, yes_stage, body_stage};

use crate::closed::check_closed;
use crate::delayed::check_delayed;
use crate::products::check_product;
use auto_core::{Auto, Lasso};
use ba_format::Joined;
use cert_check::check_lasso;
use log_check::{CheckFault, Refusal};
use proof_front::both_become;
use proof_text::{Evidence, Front, Proof, ProofBody};
use std::alloc::Global;

/// Tells whether the sizes are those of the two automata and of their joined labels.
fn has_sizes(pair: &Joined, proof: &Proof) -> bool
    ensures told { IsTrue result ↔ HasProofSizes pair.now proof.now }
    ensures automata { IsTrue result → IsAutomaton pair.now.first × IsAutomaton pair.now.second }
{
    proof.first_states == pair.first.states()
        && proof.second_states == pair.second.states()
        && proof.labels == pair.labels.count()
}

/// Tests a no: its lasso separates.
fn check_no(alloc: Global, pair: &Joined, lasso: &Lasso) -> Result<(), CheckFault>
    ensures { Tells (lasso_checks pair.now lasso.now) result }
{
    match check_lasso(alloc, pair, lasso) {
        Ok(_) => Ok(()),
        Err(fault) => Err(fault),
    }
}

/// Tests the evidence on what the automata have become; its first item has this number.
fn check_evidence(
    alloc: Global,
    first: &Auto,
    second: &Auto,
    item: u32,
    evidence: &Evidence,
) -> Result<(), CheckFault>
    requires formed { is_evidence evidence.now ≡ true }
    requires low { item ≤ 2 * 10 ^ 9 + 4 }
    ensures { Tells (evidence_checks first.now second.now item evidence.now) result }
{
    match evidence {
        Evidence::Product(block) => check_product(alloc, first, second, block, item),
        Evidence::Delayed(block) => check_delayed(alloc, first, second, block, item),
        Evidence::Closed(list) => check_closed(alloc, first, second, list, item),
    }
}

/// Tests a yes: what the automata become, and then its evidence about that.
fn check_yes(
    alloc: Global,
    pair: &Joined,
    front: &Front,
    evidence: &Evidence,
) -> Result<(), CheckFault>
    requires front { is_front front.now ≡ true }
    requires evidence { is_evidence evidence.now ≡ true }
    requires labels { pair.now.first.labels ≡ pair.now.second.labels }
    ensures { TellsStage (yes_stage pair.now front.now evidence.now) result }
{
    let ends = both_become(alloc, &pair.first, &pair.second, front)?;
    let steps = front.second.as_slice().len() as u32 + front.first.as_slice().len() as u32;
    check_evidence(alloc, &ends.first, &ends.second, 4 + steps, evidence)
}

/// Tests what the proof claims.
fn check_body(alloc: Global, pair: &Joined, body: &ProofBody) -> Result<(), CheckFault>
    requires formed { is_proof_body body.now ≡ true }
    requires labels { pair.now.first.labels ≡ pair.now.second.labels }
    ensures { TellsStage (body_stage pair.now body.now) result }
{
    match body {
        ProofBody::No(lasso) => check_no(alloc, pair, lasso),
        ProofBody::Yes(front, evidence) => check_yes(alloc, pair, front, evidence),
    }
}

/// Checks that the proof keeps all its rules for the two automata, or tells the first rule that it
/// breaks, or want of memory. What a proof says that keeps them is true of the two automata. The
/// proof has a text; both automata have as many labels as `pair.labels` has texts.
pub fn check(alloc: Global, pair: &Joined, proof: &Proof) -> Result<(), CheckFault>
    requires formed { ProofFormed proof.now }
    requires first_labels { pair.now.first.labels ≡ length pair.now.labels }
    requires second_labels { pair.now.second.labels ≡ length pair.now.labels }
    ensures valid { IfOk result (λ _. KeepsProofRules pair.now proof.now) }
    ensures truth { IfOk result (λ _. ProofSaysTruly pair.now proof.now) }
    ensures refused { (refusal : Refusal) → result ≡ Err (CheckFault.Refused refusal)
        → BreaksProofRule pair.now proof.now refusal }
{
    if !has_sizes(pair, proof) {
        return Err(CheckFault::Refused(Refusal { rule: 1, item: 0 }));
    }
    check_body(alloc, pair, &proof.body)
}
