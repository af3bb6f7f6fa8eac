//! The first log, read line by line.

ghost use Rattle.std.specs.Prelude.{◌≡◌, ◌+◌, ◌∷◌, [], ◌++◌, drop};
ghost use Rattle.cert_value.specs.Tokens.{tokens_of};
ghost use Rattle.cert_line.specs.Agrees.{Agrees};
ghost use Rattle.cert_text.specs.Machine.{blocks_left, with_rel_block, first_started, step_first, first_left, with_first, step_first_log, step_block, map_said};

use crate::blocks::{BlockState, step_block};
use crate::parts::{PartSoFar, pushed};
use auto_core::List;
use cert_line::{FirstHead, LineFault, Tail, first_head_in, gone_by_in, number_in, numbers_in};
use cert_value::{FirstStep, GoneBy, Keyword, RelBlock, blocks_due};
use std::alloc::Global;

/// What is due in a step of the first log.
#[derive(Drop)]
pub(crate) enum FirstState {
    /// Its head.
    Head,
    /// The classes of a merge.
    Classes,
    /// What a cut by this pair, at this lookahead, takes away.
    Gone(u32, u32),
    /// A relation of a cut.
    Blocks {
        /// The pair.
        pair: u32,
        /// The lookahead.
        look: u32,
        /// What goes.
        gone: List<GoneBy>,
        /// The relations so far.
        blocks: List<RelBlock>,
        /// How many relations follow the one that is due.
        later: u32,
        /// What is due in it.
        at: BlockState,
    },
}

/// What is due in the first log.
#[derive(Drop)]
pub(crate) enum FirstLog {
    /// The number of its steps.
    Count,
    /// A step.
    Steps {
        /// The steps so far.
        steps: List<FirstStep>,
        /// How many steps follow the one that is due.
        later: u32,
        /// What is due in it.
        at: FirstState,
    },
}

/// What is due of a cut with these relations, and this many to come.
#[tactic(auto, unfolding(crate::specs::Machine::blocks_left))]
fn blocks_left(
    pair: u32,
    look: u32,
    gone: List<GoneBy>,
    blocks: List<RelBlock>,
    left: u32,
) -> PartSoFar<FirstState, FirstStep>
    ensures { result ≡ blocks_left pair look gone blocks left }
{
    if left == 0 {
        PartSoFar::Whole(FirstStep::Cut {
            pair,
            look,
            gone,
            blocks,
        })
    } else {
        PartSoFar::More(FirstState::Blocks {
            pair,
            look,
            gone,
            blocks,
            later: left - 1,
            at: BlockState::Count,
        })
    }
}

/// What is due after the head.
#[tactic(auto, unfolding(crate::specs::Machine::first_started))]
fn first_started(head: FirstHead) -> PartSoFar<FirstState, FirstStep>
    ensures { result ≡ first_started head }
{
    match head {
        FirstHead::Trim(kept) => PartSoFar::Whole(FirstStep::Trim { kept }),
        FirstHead::Merge => PartSoFar::More(FirstState::Classes),
        FirstHead::Cut(pair, look) => PartSoFar::More(FirstState::Gone(pair, look)),
    }
}

/// The next line of a relation of a cut.
#[tactic(auto, unfolding(crate::specs::Machine::with_rel_block))]
fn next_in_cut(
    alloc: Global,
    version: u32,
    pair: u32,
    look: u32,
    gone: List<GoneBy>,
    blocks: List<RelBlock>,
    later: u32,
    at: BlockState,
    line: &[u8],
) -> Result<PartSoFar<FirstState, FirstStep>, LineFault>
    ensures { Agrees
        (map_said (with_rel_block pair look gone blocks later)
        (step_block version at (tokens_of line.now))) result }
{
    match step_block(alloc, version, at, line) {
        Ok(PartSoFar::More(at)) => Ok(PartSoFar::More(FirstState::Blocks {
            pair,
            look,
            gone,
            blocks,
            later,
            at,
        })),
        Ok(PartSoFar::Whole(block)) => match pushed(blocks, block) {
            Ok(blocks) => Ok(blocks_left(pair, look, gone, blocks, later)),
            Err(fault) => Err(fault),
        },
        Err(fault) => Err(fault),
    }
}

/// What the next line makes of a step.
#[tactic(auto, unfolding(crate::specs::Machine::step_first))]
fn step_first(
    alloc: Global,
    version: u32,
    state: FirstState,
    line: &[u8],
) -> Result<PartSoFar<FirstState, FirstStep>, LineFault>
    ensures { Agrees (step_first version state (tokens_of line.now)) result }
{
    match state {
        FirstState::Head => match first_head_in(alloc, line) {
            Ok(head) => Ok(first_started(head)),
            Err(fault) => Err(fault),
        },
        FirstState::Classes => match numbers_in(alloc, Keyword::Classes, Tail::SomeNumbers, line) {
            Ok(classes) => Ok(PartSoFar::Whole(FirstStep::Merge { classes })),
            Err(fault) => Err(fault),
        },
        FirstState::Gone(pair, look) => match gone_by_in(alloc, line) {
            Ok(gone) => Ok(blocks_left(pair, look, gone, List::new(alloc), blocks_due(pair))),
            Err(fault) => Err(fault),
        },
        FirstState::Blocks {
            pair,
            look,
            gone,
            blocks,
            later,
            at,
        } => next_in_cut(alloc, version, pair, look, gone, blocks, later, at, line),
    }
}

/// What is due with these steps, and this many to come.
#[tactic(auto, unfolding(crate::specs::Machine::first_left))]
fn first_left(steps: List<FirstStep>, left: u32) -> PartSoFar<FirstLog, List<FirstStep>>
    ensures { result ≡ first_left steps left }
{
    if left == 0 {
        PartSoFar::Whole(steps)
    } else {
        PartSoFar::More(FirstLog::Steps {
            steps,
            later: left - 1,
            at: FirstState::Head,
        })
    }
}

/// The next line of a step.
#[tactic(auto, unfolding(crate::specs::Machine::with_first))]
fn next_in_first(
    alloc: Global,
    version: u32,
    steps: List<FirstStep>,
    later: u32,
    at: FirstState,
    line: &[u8],
) -> Result<PartSoFar<FirstLog, List<FirstStep>>, LineFault>
    ensures { Agrees
        (map_said (with_first steps later) (step_first version at (tokens_of line.now))) result }
{
    match step_first(alloc, version, at, line) {
        Ok(PartSoFar::More(at)) => Ok(PartSoFar::More(FirstLog::Steps { steps, later, at })),
        Ok(PartSoFar::Whole(step)) => match pushed(steps, step) {
            Ok(steps) => Ok(first_left(steps, later)),
            Err(fault) => Err(fault),
        },
        Err(fault) => Err(fault),
    }
}

/// What the next line makes of the log.
#[tactic(auto, unfolding(crate::specs::Machine::step_first_log))]
pub(crate) fn step_first_log(
    alloc: Global,
    version: u32,
    state: FirstLog,
    line: &[u8],
) -> Result<PartSoFar<FirstLog, List<FirstStep>>, LineFault>
    ensures { Agrees (step_first_log version state (tokens_of line.now)) result }
{
    match state {
        FirstLog::Count => match number_in(Keyword::Log1, line) {
            Ok(count) => Ok(first_left(List::new(alloc), count)),
            Err(fault) => Err(fault),
        },
        FirstLog::Steps { steps, later, at } => next_in_first(
            alloc, version, steps, later, at, line,
        ),
    }
}
