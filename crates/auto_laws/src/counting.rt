//! Counting: numbers that repeat, and the lassos that follow from it.

ghost use Rattle.auto_laws.specs.Pumping.{Pigeonhole, Pumping, Reblocking};

/// Among more than n numbers below n two places hold the same.
pub fn pigeonhole()
    ensures { Pigeonhole }
{}

/// As many flagged runs on a word as there are states, one after another, make an accepted lasso.
pub fn pumping()
    ensures { Pumping }
{}

/// A lasso is accepted if it is accepted with turns of its loop put into its prefix and several
/// taken as one.
pub fn reblocking()
    ensures { Reblocking }
{}
