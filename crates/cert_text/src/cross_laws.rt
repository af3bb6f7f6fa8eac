//! The law of texts: the contract of a function that does nothing.

ghost use Rattle.cert_text.specs.CrossLaw.{OneCrossText};

/// No text of a cross relation is a proper front of another's, and different cross relations have
/// different texts.
pub fn one_cross_text()
    ensures { OneCrossText }
{}
