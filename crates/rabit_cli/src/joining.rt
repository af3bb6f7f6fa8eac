//! The two automata of a command, over their joined labels.

ghost use Rattle.std.specs.Prelude.{IfOk};
ghost use Rattle.ba_format.specs.Reading.{IsWithinLimits};
ghost use Rattle.ba_format.specs.Joining.{IsJoined};
ghost use Rattle.decide.specs.Laws.{CanDecide};
ghost use Rattle.rabit_frame.specs.declared.files.TheConstants.{SECOND_LIMITS, FIRST_LIMITS};
ghost use Rattle.rabit_frame.specs.FileKinds.{HasLabelTexts};

use auto_core::Memory;
use ba_format::{Joined, Named};
use std::alloc::Global;

/// Joins the labels of the two automata.
pub fn joined(alloc: Global, one: &Named, two: &Named) -> Result<Joined, Memory>
    requires one { IsWithinLimits FIRST_LIMITS one.now }
    requires two { IsWithinLimits SECOND_LIMITS two.now }
    ensures joined { IfOk result (IsJoined one.now two.now) }
    ensures labels { IfOk result HasLabelTexts }
    ensures small { IfOk result CanDecide }
{
    ba_format::join(alloc, one, two)
}
