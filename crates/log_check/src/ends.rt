//! The automata that the logs of a certificate lead to.

ghost use Rattle.std.specs.Prelude.{◌≡◌, ◌^◌, ◌<◌, ◌≤◌, ℕ, length, true, IfOk};
ghost use Rattle.std.specs.List.{list_all};
ghost use Rattle.auto_core.specs.declared.parts.Mode.{Mode};
ghost use Rattle.cert_value.specs.declared.types.FirstStep.{FirstStep};
ghost use Rattle.cert_value.specs.declared.types.SecondStep.{SecondStep};
ghost use Rattle.cert_value.specs.WellFormed.{is_first_step, is_second_step};
ghost use Rattle.log_check.specs.Ends.{TellsBothLogs};
ghost use Rattle.log_check.specs.FirstLog.{first_rules};
ghost use Rattle.log_check.specs.Follows.{TellsLog};
ghost use Rattle.log_check.specs.SecondLog.{second_rules};

use crate::faults::CheckFault;
use crate::first::first_step;
use crate::second::second_step;
use auto_core::{Auto, Memory, Mode};
use cert_value::{FirstStep, SecondStep};
use prune_pairs::cut;
use std::alloc::Global;

/// The two automata that the logs lead to.
#[derive(Debug, Drop)]
pub struct Ends {
    /// Where the first log leads.
    pub first: Auto,
    /// Where the second log leads.
    pub second: Auto,
}

/// The same automaton once more: none of its transitions goes.
fn copied(alloc: Global, automaton: &Auto) -> Result<Auto, Memory>
    ensures { IfOk result (λ copy. copy ≡ automaton.now) }
{
    // the contract of this call says that the automaton is valid
    let _states = automaton.states();
    cut(alloc, automaton, &[])
}

/// The automaton that the first log leads to, or the first rule that is broken, or want of memory;
/// its first step is the item with this number.
pub fn first_end(
    alloc: Global,
    mode: Mode,
    automaton: &Auto,
    item: u32,
    steps: &[FirstStep],
) -> Result<Auto, CheckFault>
    requires formed { list_all is_first_step steps.now ≡ true }
    requires few { length steps.now < 10 ^ 9 }
    requires low { item ≤ 10 ^ 9 }
    ensures { TellsLog FirstStep (first_rules mode) automaton.now item steps.now result }
{
    let mut end = copied(alloc, automaton)?;
    for i in 0..steps.len() {
        end = first_step(alloc, mode, &end, item + i as u32, &steps[i])?;
    }
    Ok(end)
}

/// The automaton that the second log leads to, or the first rule that is broken, or want of memory;
/// its first step is the item with this number.
pub fn second_end(
    alloc: Global,
    automaton: &Auto,
    item: u32,
    steps: &[SecondStep],
) -> Result<Auto, CheckFault>
    requires formed { (version : ℕ) × (mode : Mode)
        × (list_all (is_second_step version mode) steps.now ≡ true) }
    requires few { length steps.now < 10 ^ 9 }
    requires low { item ≤ 10 ^ 9 }
    ensures { TellsLog SecondStep second_rules automaton.now item steps.now result }
{
    let mut end = copied(alloc, automaton)?;
    for i in 0..steps.len() {
        end = second_step(alloc, &end, item + i as u32, &steps[i])?;
    }
    Ok(end)
}

/// The automata that both logs lead to, each step tested by its rules on the automaton that the
/// steps before it lead to; otherwise the first rule that is broken, or want of memory. The steps
/// are well-formed in one version.
pub fn log_ends(
    alloc: Global,
    mode: Mode,
    first: &Auto,
    second: &Auto,
    firsts: &[FirstStep],
    seconds: &[SecondStep],
) -> Result<Ends, CheckFault>
    requires first_formed { list_all is_first_step firsts.now ≡ true }
    requires second_formed { (version : ℕ)
        × (list_all (is_second_step version mode) seconds.now ≡ true) }
    requires few_first { length firsts.now < 10 ^ 9 }
    requires few_second { length seconds.now < 10 ^ 9 }
    ensures tells { TellsBothLogs mode first.now second.now firsts.now seconds.now result }
{
    let first = first_end(alloc, mode, first, 1, firsts)?;
    let second = second_end(alloc, second, 1 + firsts.len() as u32, seconds)?;
    Ok(Ends { first, second })
}
