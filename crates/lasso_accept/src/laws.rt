//! The laws of this crate: each is the contract of a function that does nothing.

ghost use Rattle.lasso_accept.specs.LassoRun.{RunsTellAcceptance};
ghost use Rattle.lasso_accept.specs.Looping.{AcceptsFromInitial};

/// A run over the lasso exists just where the lasso is accepted.
pub fn runs_tell_acceptance()
    ensures { RunsTellAcceptance }
{}

/// A lasso is accepted just where it is accepted from the initial state.
pub fn lassos_are_accepted_from_the_initial_state()
    ensures { AcceptsFromInitial }
{}
