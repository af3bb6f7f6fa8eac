//! The lasso test.

ghost use Rattle.auto_laws.specs.Lassos.{LassosAreReached, LassosAreCycles, LassosAreAccepted, LassosReachWords, LassosLeaveWords, CoveredLassosAreAccepted};

/// A lasso between two graphs is a state reached from which an arc of value 2 leads back to it.
pub fn lassos_are_reached()
    ensures { LassosAreReached }
{}

/// A lasso between two graphs that are tables of bits is a flagged cycle reached from the marks of
/// a row.
pub fn lassos_are_cycles()
    ensures { LassosAreCycles }
{}

/// The graphs of two words have a lasso from the initial state just where the lasso of the words is
/// accepted.
pub fn lassos_are_accepted()
    ensures { LassosAreAccepted }
{}

/// A lasso goes from graphs to the words' graphs that they cover.
pub fn lassos_reach_words()
    ensures { LassosReachWords }
{}

/// A lasso goes from words' graphs to any graphs that they cover.
pub fn lassos_leave_words()
    ensures { LassosLeaveWords }
{}

/// Graphs that cover words' graphs and are covered by them have a lasso just where the lasso of the
/// words is accepted.
pub fn covered_lassos_are_accepted()
    ensures { CoveredLassosAreAccepted }
{}
