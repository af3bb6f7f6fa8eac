//! The law of texts: the contract of a function that does nothing.

ghost use Rattle.proof_text.specs.ProofLaw.{OneProofText};

/// No text of a proof is a proper front of another's, and different proofs have different texts.
pub fn one_proof_text()
    ensures { OneProofText }
{}
