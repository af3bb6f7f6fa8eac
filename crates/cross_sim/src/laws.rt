//! The laws of cross relations: contracts of functions that do nothing.

ghost use Rattle.cross_sim.specs.Cross.{CrossIncludes};
ghost use Rattle.cross_sim.specs.Rules.{KeptRulesInclude, NoCrossBreaksWhereKept, CrossBreakIsOne};
ghost use Rattle.cross_sim.specs.Written.{CrossIsOne, GreatestCrossKeepsRules, GreatestCrossIsThere};

/// If it holds the pair of the initial states, the second automaton accepts what the first does, in
/// both modes.
pub fn cross_includes()
    ensures { CrossIncludes }
{}

/// Where no rule is broken, the second automaton accepts what the first does, in both modes.
pub fn kept_rules_include()
    ensures { KeptRulesInclude }
{}

/// Where no rule is broken, none is the first that is.
pub fn none_breaks_where_kept()
    ensures { NoCrossBreaksWhereKept }
{}

/// One rule is the first that is broken, at most.
pub fn cross_break_is_one()
    ensures { CrossBreakIsOne }
{}

/// One cross relation is written of two automata at a lookahead, at most.
pub fn cross_is_one()
    ensures { CrossIsOne }
{}

/// If it holds the pair of the initial states, it breaks no rule.
pub fn greatest_cross_keeps_rules()
    ensures { GreatestCrossKeepsRules }
{}

/// There is one of automata that are small enough for a decision.
pub fn greatest_cross_is_there()
    ensures { GreatestCrossIsThere }
{}
