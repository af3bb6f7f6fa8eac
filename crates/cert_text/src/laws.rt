//! The law of texts.

ghost use Rattle.cert_text.specs.Law.{OneText};

/// No text of a certificate is a proper front of another's, and different certificates have
/// different texts.
pub fn one_text()
    ensures { OneText }
{}
