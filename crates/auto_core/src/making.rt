//! Automata from parts that are known to have no fault.

ghost use Rattle.std.specs.Prelude.{IfOk};
ghost use Rattle.auto_core.specs.Build.{IsBuilt};
ghost use Rattle.auto_core.specs.Parts.{AreParts};

use crate::automaton::{Auto, BuildFault};
use crate::parts::{Memory, Trans};
use std::alloc::Global;

/// The automaton with these parts, in any order; they have no fault, so that only memory can be
/// refused.
pub fn of_parts(
    alloc: Global,
    states: u32,
    labels: u32,
    initial: u32,
    transitions: &[Trans],
    accepting: &[u32],
) -> Result<Auto, Memory>
    requires { AreParts states labels initial transitions.now accepting.now }
    ensures { IfOk result (IsBuilt states labels initial transitions.now accepting.now) }
{
    match Auto::build(alloc, states, labels, initial, transitions, accepting) {
        Ok(automaton) => Ok(automaton),
        Err(BuildFault::Memory) => Err(Memory),
        Err(BuildFault::StateRange) => unreachable!(),
        Err(BuildFault::LabelRange) => unreachable!(),
        Err(BuildFault::Repeat) => unreachable!(),
    }
}
