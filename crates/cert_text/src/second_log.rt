//! The second log, read line by line.

ghost use Rattle.std.specs.Prelude.{◌≡◌, ◌+◌, ◌∷◌, [], ◌++◌, drop};
ghost use Rattle.cert_value.specs.Tokens.{tokens_of};
ghost use Rattle.cert_line.specs.Agrees.{Agrees};
ghost use Rattle.cert_text.specs.Machine.{rel_due, with_forward, with_backward, with_delayed, second_started, step_second, second_left, with_second, step_second_log, step_block, step_ranks, map_said};

use crate::blocks::{BlockState, RankState, step_block, step_ranks};
use crate::parts::{PartSoFar, pushed};
use auto_core::{List, Mode};
use cert_line::{
    LineFault, SecondHead, Tail, Way, ascending_in, number_in, numbers_in, second_head_in,
};
use cert_value::{Grounds, Keyword, SecondStep};
use std::alloc::Global;

/// What is due in a step of the second log.
#[derive(Drop)]
pub(crate) enum SecondState {
    /// Its head.
    Head,
    /// The classes of a merge.
    Classes(Way),
    /// The forward relation of a merge.
    Forward {
        /// The lookahead.
        look: u32,
        /// The classes.
        classes: List<u32>,
        /// What is due in the relation.
        at: BlockState,
    },
    /// The backward relation of a merge.
    Backward {
        /// The lookahead.
        look: u32,
        /// The classes.
        classes: List<u32>,
        /// What is due in the relation.
        at: BlockState,
    },
    /// The delayed relation of a merge.
    Delayed {
        /// How many letters are announced.
        letters: u32,
        /// The classes.
        classes: List<u32>,
        /// What is due in the relation.
        at: RankState,
    },
    /// What a cut takes away.
    Gone,
}

/// What is due in the second log.
#[derive(Drop)]
pub(crate) enum SecondLog {
    /// The number of its steps.
    Count,
    /// A step.
    Steps {
        /// The steps so far.
        steps: List<SecondStep>,
        /// How many steps follow the one that is due.
        later: u32,
        /// What is due in it.
        at: SecondState,
    },
}

/// The relation that is due after the classes.
#[tactic(auto, unfolding(crate::specs::Machine::rel_due))]
fn rel_due(by: Way, classes: List<u32>) -> SecondState
    ensures { result ≡ rel_due by classes }
{
    match by {
        Way::Forward(look) => SecondState::Forward {
            look,
            classes,
            at: BlockState::Count,
        },
        Way::Backward(look) => SecondState::Backward {
            look,
            classes,
            at: BlockState::Count,
        },
        Way::Delayed(letters) => SecondState::Delayed {
            letters,
            classes,
            at: RankState::Count,
        },
    }
}

/// What is due after the head.
#[tactic(auto, unfolding(crate::specs::Machine::second_started))]
fn second_started(head: SecondHead) -> PartSoFar<SecondState, SecondStep>
    ensures { result ≡ second_started head }
{
    match head {
        SecondHead::Trim(kept) => PartSoFar::Whole(SecondStep::Trim { kept }),
        SecondHead::Merge(by) => PartSoFar::More(SecondState::Classes(by)),
        SecondHead::Cut => PartSoFar::More(SecondState::Gone),
    }
}

/// The next line of a forward relation.
#[tactic(auto, unfolding(crate::specs::Machine::with_forward))]
fn next_in_forward(
    alloc: Global,
    version: u32,
    look: u32,
    classes: List<u32>,
    at: BlockState,
    line: &[u8],
) -> Result<PartSoFar<SecondState, SecondStep>, LineFault>
    ensures { Agrees
        (map_said (with_forward look classes) (step_block version at (tokens_of line.now))) result }
{
    match step_block(alloc, version, at, line) {
        Ok(PartSoFar::More(at)) => Ok(PartSoFar::More(SecondState::Forward { look, classes, at })),
        Ok(PartSoFar::Whole(rel)) => Ok(PartSoFar::Whole(SecondStep::Merge {
            by: Grounds::Forward { look, rel },
            classes,
        })),
        Err(fault) => Err(fault),
    }
}

/// The next line of a backward relation.
#[tactic(auto, unfolding(crate::specs::Machine::with_backward))]
fn next_in_backward(
    alloc: Global,
    version: u32,
    look: u32,
    classes: List<u32>,
    at: BlockState,
    line: &[u8],
) -> Result<PartSoFar<SecondState, SecondStep>, LineFault>
    ensures { Agrees
        (map_said (with_backward look classes) (step_block version at (tokens_of line.now)))
        result }
{
    match step_block(alloc, version, at, line) {
        Ok(PartSoFar::More(at)) => Ok(PartSoFar::More(SecondState::Backward { look, classes, at })),
        Ok(PartSoFar::Whole(rel)) => Ok(PartSoFar::Whole(SecondStep::Merge {
            by: Grounds::Backward { look, rel },
            classes,
        })),
        Err(fault) => Err(fault),
    }
}

/// The next line of a delayed relation.
#[tactic(auto, unfolding(crate::specs::Machine::with_delayed))]
fn next_in_delayed(
    alloc: Global,
    letters: u32,
    classes: List<u32>,
    at: RankState,
    line: &[u8],
) -> Result<PartSoFar<SecondState, SecondStep>, LineFault>
    ensures { Agrees
        (map_said (with_delayed letters classes) (step_ranks letters at (tokens_of line.now)))
        result }
{
    match step_ranks(alloc, letters, at, line) {
        Ok(PartSoFar::More(at)) => Ok(PartSoFar::More(SecondState::Delayed {
            letters,
            classes,
            at,
        })),
        Ok(PartSoFar::Whole(ranks)) => Ok(PartSoFar::Whole(SecondStep::Merge {
            by: Grounds::Delayed { letters, ranks },
            classes,
        })),
        Err(fault) => Err(fault),
    }
}

/// What the next line makes of a step.
#[tactic(auto, unfolding(crate::specs::Machine::step_second))]
fn step_second(
    alloc: Global,
    version: u32,
    mode: Mode,
    state: SecondState,
    line: &[u8],
) -> Result<PartSoFar<SecondState, SecondStep>, LineFault>
    ensures { Agrees (step_second version mode state (tokens_of line.now)) result }
{
    match state {
        SecondState::Head => match second_head_in(alloc, version, mode, line) {
            Ok(head) => Ok(second_started(head)),
            Err(fault) => Err(fault),
        },
        SecondState::Classes(by) => match numbers_in(
            alloc,
            Keyword::Classes,
            Tail::SomeNumbers,
            line,
        ) {
            Ok(classes) => Ok(PartSoFar::More(rel_due(by, classes))),
            Err(fault) => Err(fault),
        },
        SecondState::Forward { look, classes, at } => next_in_forward(
            alloc, version, look, classes, at, line,
        ),
        SecondState::Backward { look, classes, at } => next_in_backward(
            alloc, version, look, classes, at, line,
        ),
        SecondState::Delayed {
            letters,
            classes,
            at,
        } => next_in_delayed(alloc, letters, classes, at, line),
        SecondState::Gone => match ascending_in(alloc, Keyword::Gone, Tail::SomeNumbers, line) {
            Ok(gone) => Ok(PartSoFar::Whole(SecondStep::Cut { gone })),
            Err(fault) => Err(fault),
        },
    }
}

/// What is due with these steps, and this many to come.
#[tactic(auto, unfolding(crate::specs::Machine::second_left))]
fn second_left(steps: List<SecondStep>, left: u32) -> PartSoFar<SecondLog, List<SecondStep>>
    ensures { result ≡ second_left steps left }
{
    if left == 0 {
        PartSoFar::Whole(steps)
    } else {
        PartSoFar::More(SecondLog::Steps {
            steps,
            later: left - 1,
            at: SecondState::Head,
        })
    }
}

/// The next line of a step.
#[tactic(auto, unfolding(crate::specs::Machine::with_second))]
fn next_in_second(
    alloc: Global,
    version: u32,
    mode: Mode,
    steps: List<SecondStep>,
    later: u32,
    at: SecondState,
    line: &[u8],
) -> Result<PartSoFar<SecondLog, List<SecondStep>>, LineFault>
    ensures { Agrees
        (map_said (with_second steps later) (step_second version mode at (tokens_of line.now)))
        result }
{
    match step_second(alloc, version, mode, at, line) {
        Ok(PartSoFar::More(at)) => Ok(PartSoFar::More(SecondLog::Steps { steps, later, at })),
        Ok(PartSoFar::Whole(step)) => match pushed(steps, step) {
            Ok(steps) => Ok(second_left(steps, later)),
            Err(fault) => Err(fault),
        },
        Err(fault) => Err(fault),
    }
}

/// What the next line makes of the log.
#[tactic(auto, unfolding(crate::specs::Machine::step_second_log))]
pub(crate) fn step_second_log(
    alloc: Global,
    version: u32,
    mode: Mode,
    state: SecondLog,
    line: &[u8],
) -> Result<PartSoFar<SecondLog, List<SecondStep>>, LineFault>
    ensures { Agrees (step_second_log version mode state (tokens_of line.now)) result }
{
    match state {
        SecondLog::Count => match number_in(Keyword::Log2, line) {
            Ok(count) => Ok(second_left(List::new(alloc), count)),
            Err(fault) => Err(fault),
        },
        SecondLog::Steps { steps, later, at } => next_in_second(
            alloc, version, mode, steps, later, at, line,
        ),
    }
}
