//! The laws of proofs: each is the contract of a function that does nothing.

ghost use Rattle.proof_check.specs.Laws.{KeptYesIncludes, KeptNoSeparates, OneProofRuleBreaks, NoneBreaksInKeptProof, RankedProductsKeepTheRules, DelayedSimulationsKeepTheRules};

/// If a proof of inclusion keeps its rules, the second automaton accepts each lasso that the first
/// accepts.
pub fn kept_yes_includes()
    ensures { KeptYesIncludes }
{}

/// If a proof by a lasso keeps its rules, the first automaton accepts the lasso and the second does
/// not.
pub fn kept_no_separates()
    ensures { KeptNoSeparates }
{}

/// A proof breaks one rule first, at most.
pub fn one_proof_rule_breaks()
    ensures { OneProofRuleBreaks }
{}

/// A proof that keeps its rules breaks none.
pub fn none_breaks_in_kept_proof()
    ensures { NoneBreaksInKeptProof }
{}

/// A ranked product keeps the rules of products.
pub fn ranked_products_keep_the_rules()
    ensures { RankedProductsKeepTheRules }
{}

/// A delayed simulation whose pairs are of states and ascend keeps the rules of delayed
/// simulations.
pub fn delayed_simulations_keep_the_rules()
    ensures { DelayedSimulationsKeepTheRules }
{}
