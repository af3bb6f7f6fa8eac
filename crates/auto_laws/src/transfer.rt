//! From finite paths to acceptance.

ghost use Rattle.auto_laws.specs.Transfer.{LassosTransfer, WordsTransfer, DelayedTransfer};

/// An automaton that follows another accepts its lassos.
pub fn lassos_transfer()
    ensures { LassosTransfer }
{}

/// An automaton that follows another accepts its words, if its initial state is accepting where the
/// other's is.
pub fn words_transfer()
    ensures { WordsTransfer }
{}

/// An automaton that follows another with a bounded delay accepts its lassos.
pub fn delayed_transfer()
    ensures { DelayedTransfer }
{}
