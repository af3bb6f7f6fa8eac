//! Graphs of words, and subsuming.

ghost use Rattle.auto_laws.specs.Graphs.{GraphsOfLetters, GraphsExtend, SubsumptionIsKept, SubsumptionIsAnOrder};

/// The graph of one letter has its moves as arcs, of value 2 where the target is accepting.
pub fn graphs_of_letters()
    ensures { GraphsOfLetters }
{}

/// The graph of a word with one letter more is the word's graph with its arcs followed by the
/// letter's moves.
pub fn graphs_extend()
    ensures { GraphsExtend }
{}

/// Subsuming by a relation that is stable forward at lookahead 1, or by its closure, is kept when
/// both are extended by the same transition, whatever the graphs.
pub fn subsumption_is_kept()
    ensures { SubsumptionIsKept }
{}

/// Subsuming by the closure of a relation is reflexive and transitive.
pub fn subsumption_is_an_order()
    ensures { SubsumptionIsAnOrder }
{}
