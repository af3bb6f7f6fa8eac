//! The laws of maps of states and of classes of letters: each is the contract of a function that
//! does nothing.
#![tactic(auto)]

ghost use Rattle.map_laws.specs.Bisimulation.{QuotientCarriesOver, BisimulationQuotientIsSame};
ghost use Rattle.map_laws.specs.Laws.{CarriedOverIsIncluded, ImagesAreAccepted, ClassesAreAccepted, ClassesTellTheSame, LettersAreFound, InclusionOverClasses, SeparationOverClasses, SeparationByLetters};

/// An automaton into which a map of states carries another over accepts what the other accepts.
pub fn carried_over_is_included()
    ensures { CarriedOverIsIncluded }
{}

/// With a map of letters too it accepts the images of the other's lassos.
pub fn images_are_accepted()
    ensures { ImagesAreAccepted }
{}

/// The automaton over classes of letters accepts the lassos of classes of what the automaton
/// accepts.
pub fn classes_are_accepted()
    ensures { ClassesAreAccepted }
{}

/// It accepts no other lasso of classes, if letters of one class have the same moves.
pub fn classes_tell_the_same()
    ensures { ClassesTellTheSame }
{}

/// Each accepted lasso of classes is that of an accepted lasso of letters.
pub fn letters_are_found()
    ensures { LettersAreFound }
{}

/// Inclusion is the same over classes, if letters of one class have the same moves in the second
/// automaton.
pub fn inclusion_over_classes()
    ensures { InclusionOverClasses }
{}

/// A separating lasso of classes is that of a separating lasso of letters.
pub fn separation_over_classes()
    ensures { SeparationOverClasses }
{}

/// An accepted lasso separates if its lasso of classes is not accepted over classes.
pub fn separation_by_letters()
    ensures { SeparationByLetters }
{}

/// The classes of a quotient carry the automaton over into it.
pub fn quotient_carries_over()
    ensures { QuotientCarriesOver }
{}

/// A quotient by a bisimulation accepts the same.
pub fn bisimulation_quotient_is_same()
    ensures { BisimulationQuotientIsSame }
{}
