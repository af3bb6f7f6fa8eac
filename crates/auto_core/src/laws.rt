//! The laws of runs: each is the contract of a function that does nothing.

ghost use Rattle.auto_core.specs.RunLaws.{RunsArePaths, RunsJoin, RunsSplit, PathsJoin, PathsSplit};

/// A run is a path with that end and that flag.
pub fn runs_are_paths()
    ensures { RunsArePaths }
{}

/// Runs join, and the flag is the 'or' of theirs.
pub fn runs_join()
    ensures { RunsJoin }
{}

/// A run splits at any place of its word, and its flag is the 'or' of the parts'.
pub fn runs_split()
    ensures { RunsSplit }
{}

/// Paths join.
pub fn paths_join()
    ensures { PathsJoin }
{}

/// A path splits at any place of its word.
pub fn paths_split()
    ensures { PathsSplit }
{}
