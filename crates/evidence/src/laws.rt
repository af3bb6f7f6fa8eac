//! Laws on the evidence, each the contract of a function that does nothing.

ghost use Rattle.evidence.specs.Laws.{EntriesHaveOrigins};

/// The elements of origins have these origins, in order.
pub fn entries_have_origins()
    ensures { EntriesHaveOrigins }
{}
