//! What the commands have to do with one another, and what limits and usual terms are in numbers:
//! each law is the contract of a function that does nothing.

ghost use Rattle.rabit_cli.specs.Laws.{CheckAgrees, IncludeIsChecked, AnswersAreAccepted, CheckAgreesOnUpgrade, UpgradeIsChecked, CrossIsChecked, CrossRelationsAreAccepted, QuestionsShowInTurn, EmptyTextAcceptsNothing, UniversalTextAcceptsAll, EmptyIsChecked, UniversalIsChecked};
ghost use Rattle.rabit_cli.specs.Limits.{LimitsInNumbers};

/// A check of the answer that a decision wrote under a name of its own says what the decision said,
/// where the file has at most 1 GiB.
pub fn check_agrees()
    ensures { CheckAgrees }
{}

/// A check of what `include` left says what `include` said.
pub fn include_is_checked()
    ensures { IncludeIsChecked }
{}

/// A check accepts each answer for its two automata, wherever a file of at most 1 GiB holds its
/// text.
pub fn answers_are_accepted()
    ensures { AnswersAreAccepted }
{}

/// A check says the same of a certificate and of its upgrade.
pub fn check_agrees_on_upgrade()
    ensures { CheckAgreesOnUpgrade }
{}

/// A check of what `upgrade` left says what a check of the certificate says.
pub fn upgrade_is_checked()
    ensures { UpgradeIsChecked }
{}

/// What `cross` left is accepted by `cross-check`.
pub fn cross_is_checked()
    ensures { CrossIsChecked }
{}

/// `cross-check` accepts each greatest cross relation that has the pair of the initial states,
/// wherever a file of at most 1 GiB holds its text.
pub fn cross_relations_are_accepted()
    ensures { CrossRelationsAreAccepted }
{}

/// Of the questions of a batch each status up to 2 shows what that of `include` does, of the files
/// that the questions before it have left.
pub fn questions_show_in_turn()
    ensures { QuestionsShowInTurn }
{}

/// Whatever the text that `empty` makes reads as accepts nothing.
pub fn empty_text_accepts_nothing()
    ensures { EmptyTextAcceptsNothing }
{}

/// Whatever the text that `universal` makes for some labels reads as accepts everything over them.
pub fn universal_text_accepts_all()
    ensures { UniversalTextAcceptsAll }
{}

/// A check of an automaton, of the empty one that was made for it and of the certificate answers
/// with the status that `empty` had.
pub fn empty_is_checked()
    ensures { EmptyIsChecked }
{}

/// A check of the universal automaton that was made for another, of that and of the certificate
/// answers with the status that `universal` had.
pub fn universal_is_checked()
    ensures { UniversalIsChecked }
{}

/// The limits and the usual terms of the program are these numbers.
pub fn limits_are_these()
    ensures { LimitsInNumbers }
{}
