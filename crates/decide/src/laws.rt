//! What answers are: each law is the contract of a function that does nothing.

ghost use Rattle.decide.specs.Laws.{OneAnswer, AnswersAreFormed, AnswersAreValid, AnswersAreTrue, ReductionsAreOne, WrittenLogsLead, OneOutcomeDecides};

/// Two automata have one answer by the same terms.
pub fn one_answer()
    ensures { OneAnswer }
{}

/// An answer for automata that are small enough, by terms within their bounds, has a text.
pub fn answers_are_formed()
    ensures { AnswersAreFormed }
{}

/// Such an answer keeps all rules of the check.
pub fn answers_are_valid()
    ensures { AnswersAreValid }
{}

/// What such an answer says is so.
pub fn answers_are_true()
    ensures { AnswersAreTrue }
{}

/// Two automata have one pair of reduced ones with their logs, by the same terms.
pub fn reductions_are_one()
    ensures { ReductionsAreOne }
{}

/// The logs that a decision writes lead to the reduced automata.
pub fn written_logs_lead()
    ensures { WrittenLogsLead }
{}

/// The search has one order and one outcome: the greatest relation, as a list of pairs in ascending
/// order, is one.
pub fn one_outcome_decides()
    ensures { OneOutcomeDecides }
{}
