//! What valid certificates show, and which rule others break first: each law is the contract of a
//! function that does nothing.

ghost use Rattle.cert_check.specs.Laws.{ValidYesIncludes, ValidNoSeparates, ValidNoSeparatesByWord, ValidListShows, OneRuleBreaks, NoneBreaksWhereKept, UpgradeIsCheckedAlike};

/// A valid certificate that says yes shows an inclusion.
pub fn valid_yes_includes()
    ensures { ValidYesIncludes }
{}

/// A valid certificate that says no by a lasso shows that it separates the two automata.
pub fn valid_no_separates()
    ensures { ValidNoSeparates }
{}

/// A valid certificate that says no by a word shows that it separates the two automata.
pub fn valid_no_separates_by_word()
    ensures { ValidNoSeparatesByWord }
{}

/// A valid list shows more different supergraphs than its limit, in finite mode pairs of a state
/// and a set.
pub fn valid_list_shows()
    ensures { ValidListShows }
{}

/// A certificate breaks one rule first, at most.
pub fn one_rule_breaks()
    ensures { OneRuleBreaks }
{}

/// A certificate that keeps its rules breaks none.
pub fn none_breaks_where_kept()
    ensures { NoneBreaksWhereKept }
{}

/// A certificate and the same one in version 2 keep and break the same rules, and say the same.
pub fn upgrade_is_checked_alike()
    ensures { UpgradeIsCheckedAlike }
{}
