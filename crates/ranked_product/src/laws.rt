//! The laws of refusals: each is the contract of a function that does nothing.

ghost use Rattle.ranked_product.specs.Laws.{BreakIsOne, ProductBreaksNone};

/// One rule at most is the first that pairs break.
pub fn break_is_one()
    ensures { BreakIsOne }
{}

/// A ranked product breaks none.
pub fn product_breaks_none()
    ensures { ProductBreaksNone }
{}
