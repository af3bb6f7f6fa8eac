//! Tables that stand for graphs of words.

ghost use Rattle.auto_laws.specs.Standing.{TablesServeAsGraphs};

/// Tables of bits with a word's values serve as its graph: for extending it, for covering and for
/// the lasso test.
pub fn tables_serve_as_graphs()
    ensures { TablesServeAsGraphs }
{}
