//! The logs of two reductions, as a certificate has them.

ghost use Rattle.std.specs.Prelude.{◌≡◌, ◌++◌, List as Items, map, IfOk, IfSome};
ghost use Rattle.bit_rel.specs.Relation.{Relation};
ghost use Rattle.prune_pairs.specs.Least.{numbers_of_gone};
ghost use Rattle.reduce_loop.specs.declared.steps.Step.TheVariants as step;
ghost use Rattle.decide.specs.Written.{gone_and_better, given, AreBlocksOf, AreGroundsOf, IsFirstWritten, IsSecondWritten, AreFirstWritten, AreSecondWritten};
ghost use Rattle.decide.specs.Logs.{IsOnFew, IsMergeOnFew, IsStepOnFew, AreStepsOnFew, one_given, AreLogsOf};

use crate::rows::{block_of, rank_block_of};
use auto_core::{List, Memory};
use bit_rel::Rel;
use cert_value::{FirstStep, GoneBy, Grounds, RelBlock, SecondStep};
use log_check::copied_numbers;
use prune_pairs::Gone;
use reduce_loop::{MergeBy, Step};
use std::alloc::Global;

/// Both logs of a certificate.
#[derive(Debug, Drop)]
pub(crate) struct Logs {
    /// The log of the first automaton's steps.
    pub(crate) first: List<FirstStep>,
    /// The log of the second automaton's steps.
    pub(crate) second: List<SecondStep>,
}

/// The transitions that go, each with the better one.
fn gone_pairs(alloc: Global, gone: &[Gone]) -> Result<List<GoneBy>, Memory>
    ensures { IfOk result (λ made. made ≡ map gone_and_better gone.now) }
{
    let mut made = List::new(alloc);
    for pair in gone {
        made.push(GoneBy {
            trans: pair.trans,
            by: pair.by,
        })?;
    }
    Ok(made)
}

/// The transitions that go.
fn gone_numbers(alloc: Global, gone: &[Gone]) -> Result<List<u32>, Memory>
    ensures { IfOk result (λ made. made ≡ numbers_of_gone gone.now) }
{
    let mut made = List::new(alloc);
    for pair in gone {
        made.push(pair.trans)?;
    }
    Ok(made)
}

/// The blocks, and behind them that of the relation, if there is one.
fn with_block(
    alloc: Global,
    blocks: List<RelBlock>,
    rel: &Option<Rel>,
) -> Result<List<RelBlock>, Memory>
    requires { IfSome rel.now IsOnFew }
    ensures { IfOk
        result (λ made.
        (before : Items Relation) → AreBlocksOf before blocks
        → AreBlocksOf (before ++ one_given rel.now) made) }
{
    let mut blocks = blocks;
    if let Some(rel) = rel {
        blocks.push(block_of(alloc, rel)?)?;
    }
    Ok(blocks)
}

/// A block for each relation that is given, the backward one first.
fn blocks_of(
    alloc: Global,
    back: &Option<Rel>,
    ahead: &Option<Rel>,
) -> Result<List<RelBlock>, Memory>
    requires back { IfSome back.now IsOnFew }
    requires ahead { IfSome ahead.now IsOnFew }
    ensures { IfOk result (AreBlocksOf (given back.now ahead.now)) }
{
    let blocks = with_block(alloc, List::new(alloc), back)?;
    with_block(alloc, blocks, ahead)
}

/// A step as the first log has it: a merge with its classes alone, and a cut with the relations
/// that it goes by.
fn first_step(alloc: Global, step: &Step) -> Result<FirstStep, Memory>
    requires { IsStepOnFew step.now }
    ensures { IfOk result (IsFirstWritten step.now) }
{
    match step {
        Step::Trim { kept } => Ok(FirstStep::Trim {
            kept: copied_numbers(alloc, kept.as_slice())?,
        }),
        Step::Merge { by: _, classes } => Ok(FirstStep::Merge {
            classes: copied_numbers(alloc, classes.as_slice())?,
        }),
        Step::Cut {
            pair,
            look,
            gone,
            back,
            ahead,
        } => Ok(FirstStep::Cut {
            pair: *pair,
            look: *look,
            gone: gone_pairs(alloc, gone.as_slice())?,
            blocks: blocks_of(alloc, back, ahead)?,
        }),
    }
}

/// The log as the first one of a certificate.
fn first_log(alloc: Global, log: &[Step]) -> Result<List<FirstStep>, Memory>
    requires { AreStepsOnFew log.now }
    ensures { IfOk result (AreFirstWritten log.now) }
{
    let mut steps = List::new(alloc);
    for step in log {
        steps.push(first_step(alloc, step)?)?;
    }
    Ok(steps)
}

/// The grounds of a merge, with the rows of the relation.
fn grounds_of(alloc: Global, by: &MergeBy) -> Result<Grounds, Memory>
    requires { IsMergeOnFew by.now }
    ensures { IfOk result (AreGroundsOf by.now) }
{
    match by {
        MergeBy::Forward { look, rel } => Ok(Grounds::Forward {
            look: *look,
            rel: block_of(alloc, rel)?,
        }),
        MergeBy::Backward { look, rel } => Ok(Grounds::Backward {
            look: *look,
            rel: block_of(alloc, rel)?,
        }),
        MergeBy::Delayed { ranks } => Ok(Grounds::Delayed {
            letters: ranks.letters(),
            ranks: rank_block_of(alloc, ranks)?,
        }),
    }
}

/// A step as the second log has it: a merge with its grounds, and a cut with the transitions that
/// go alone.
fn second_step(alloc: Global, step: &Step) -> Result<SecondStep, Memory>
    requires { IsStepOnFew step.now }
    ensures { IfOk result (IsSecondWritten step.now) }
{
    match step {
        Step::Trim { kept } => Ok(SecondStep::Trim {
            kept: copied_numbers(alloc, kept.as_slice())?,
        }),
        Step::Merge { by, classes } => Ok(SecondStep::Merge {
            by: grounds_of(alloc, by)?,
            classes: copied_numbers(alloc, classes.as_slice())?,
        }),
        Step::Cut {
            pair: _,
            look: _,
            gone,
            back: _,
            ahead: _,
        } => Ok(SecondStep::Cut {
            gone: gone_numbers(alloc, gone.as_slice())?,
        }),
    }
}

/// The log as the second one of a certificate.
fn second_log(alloc: Global, log: &[Step]) -> Result<List<SecondStep>, Memory>
    requires { AreStepsOnFew log.now }
    ensures { IfOk result (AreSecondWritten log.now) }
{
    let mut steps = List::new(alloc);
    for step in log {
        steps.push(second_step(alloc, step)?)?;
    }
    Ok(steps)
}

/// Both logs.
pub(crate) fn logs_of(alloc: Global, first: &[Step], second: &[Step]) -> Result<Logs, Memory>
    requires first { AreStepsOnFew first.now }
    requires second { AreStepsOnFew second.now }
    ensures { IfOk result (AreLogsOf first.now second.now) }
{
    Ok(Logs {
        first: first_log(alloc, first)?,
        second: second_log(alloc, second)?,
    })
}
