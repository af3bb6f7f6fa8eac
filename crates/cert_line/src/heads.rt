//! The heads of steps.

ghost use Rattle.std.specs.Prelude.{◌≡◌, ◌∷◌, []};
ghost use Rattle.cert_value.specs.Tokens.{tokens_of};
ghost use Rattle.cert_line.specs.Lines.{first_cut_in, first_head_in, second_head_in, plain_delayed_in, announced_delayed_in, delayed_in, delayed_or_cut_in, merge_or_cut_in, trim_in};
ghost use Rattle.cert_line.specs.declared.heads.SecondHead.TheVariants as second_head;
ghost use Rattle.cert_line.specs.Agrees.{Agrees};

use crate::faults::{LineFault, TextKind};
use crate::lines::{ascending_in, word_in};
use crate::shapes::{Place, Tail, fits, line_fault, value_at};
use auto_core::{List, Mode};
use cert_value::{Keyword, are_letters, blocks_due};
use std::alloc::Global;

/// The head of a step of the first log.
#[derive(Debug, Drop)]
pub enum FirstHead {
    /// A trim, with the states that stay.
    Trim(List<u32>),
    /// A merge.
    Merge,
    /// A cut by this pair, at this lookahead.
    Cut(u32, u32),
}

/// Why states of the second automaton may become one, as the head says it.
#[derive(Clone, Copy, Debug, PartialEq, Eq)]
pub enum Way {
    /// A forward relation at this lookahead.
    Forward(u32),
    /// A backward relation at this lookahead.
    Backward(u32),
    /// A delayed relation for so many announced letters.
    Delayed(u32),
}

/// The head of a step of the second log.
#[derive(Debug, Drop)]
pub enum SecondHead {
    /// A trim, with the states that stay.
    Trim(List<u32>),
    /// A merge.
    Merge(Way),
    /// A cut.
    Cut,
}

/// The head of a cut of the first log.
fn first_cut_in(line: &[u8]) -> Result<FirstHead, LineFault>
    ensures { Agrees (first_cut_in (tokens_of line.now)) result }
{
    if let Some(fault) = line_fault(
        &[Place::Word(Keyword::Cut), Place::Number, Place::Number],
        Tail::Nothing,
        line,
    ) {
        return Err(LineFault::Text(fault));
    }
    let pair = value_at(line, 1);
    if blocks_due(pair) == 0 {
        return Err(LineFault::Text(TextKind::Shape));
    }
    Ok(FirstHead::Cut(pair, value_at(line, 2)))
}

/// The head of a step of the first log.
pub fn first_head_in(alloc: Global, line: &[u8]) -> Result<FirstHead, LineFault>
    ensures { Agrees (first_head_in (tokens_of line.now)) result }
{
    if fits(&[Place::Word(Keyword::Trim)], line) {
        return match ascending_in(alloc, Keyword::Trim, Tail::Numbers, line) {
            Ok(kept) => Ok(FirstHead::Trim(kept)),
            Err(fault) => Err(fault),
        };
    }
    if fits(&[Place::Word(Keyword::Merge)], line) {
        return match word_in(Keyword::Merge, line) {
            Ok(()) => Ok(FirstHead::Merge),
            Err(fault) => Err(fault),
        };
    }
    first_cut_in(line)
}

/// The head of a merge by delayed simulation in version 1.
fn plain_delayed_in(line: &[u8]) -> Result<SecondHead, LineFault>
    ensures { Agrees (plain_delayed_in (tokens_of line.now)) result }
{
    let places = [Place::Word(Keyword::Merge), Place::Word(Keyword::Delayed)];
    match line_fault(&places, Tail::Nothing, line) {
        Some(fault) => Err(LineFault::Text(fault)),
        None => Ok(SecondHead::Merge(Way::Delayed(1))),
    }
}

/// The head of a merge by delayed simulation in version 2, which says how many letters are
/// announced.
fn announced_delayed_in(line: &[u8]) -> Result<SecondHead, LineFault>
    ensures { Agrees (announced_delayed_in (tokens_of line.now)) result }
{
    let places = [
        Place::Word(Keyword::Merge),
        Place::Word(Keyword::Delayed),
        Place::Number,
    ];
    if let Some(fault) = line_fault(&places, Tail::Nothing, line) {
        return Err(LineFault::Text(fault));
    }
    let letters = value_at(line, 2);
    if !are_letters(2, letters) {
        return Err(LineFault::Text(TextKind::Shape));
    }
    Ok(SecondHead::Merge(Way::Delayed(letters)))
}

/// The head of a merge by delayed simulation.
fn delayed_in(version: u32, line: &[u8]) -> Result<SecondHead, LineFault>
    ensures { Agrees (delayed_in version (tokens_of line.now)) result }
{
    if version == 2 {
        announced_delayed_in(line)
    } else {
        plain_delayed_in(line)
    }
}

/// The head of a merge by delayed simulation or of a cut.
fn delayed_or_cut_in(version: u32, mode: Mode, line: &[u8]) -> Result<SecondHead, LineFault>
    ensures { Agrees (delayed_or_cut_in version mode (tokens_of line.now)) result }
{
    let delayed = [Place::Word(Keyword::Merge), Place::Word(Keyword::Delayed)];
    if mode == Mode::Buchi && fits(&delayed, line) {
        return delayed_in(version, line);
    }
    match word_in(Keyword::Cut, line) {
        Ok(()) => Ok(SecondHead::Cut),
        Err(fault) => Err(fault),
    }
}

/// The head of a trim of the second log.
fn second_trim_in(alloc: Global, line: &[u8]) -> Result<SecondHead, LineFault>
    ensures { Agrees (trim_in second_head.Trim (tokens_of line.now)) result }
{
    match ascending_in(alloc, Keyword::Trim, Tail::Numbers, line) {
        Ok(kept) => Ok(SecondHead::Trim(kept)),
        Err(fault) => Err(fault),
    }
}

/// The head of a merge or of a cut of the second log.
fn merge_or_cut_in(version: u32, mode: Mode, line: &[u8]) -> Result<SecondHead, LineFault>
    ensures { Agrees (merge_or_cut_in version mode (tokens_of line.now)) result }
{
    let forward = [
        Place::Word(Keyword::Merge),
        Place::Word(Keyword::Forward),
        Place::Number,
    ];
    if fits(&forward, line) {
        return match line_fault(&forward, Tail::Nothing, line) {
            Some(fault) => Err(LineFault::Text(fault)),
            None => Ok(SecondHead::Merge(Way::Forward(value_at(line, 2)))),
        };
    }
    let backward = [
        Place::Word(Keyword::Merge),
        Place::Word(Keyword::Backward),
        Place::Number,
    ];
    if fits(&backward, line) {
        return match line_fault(&backward, Tail::Nothing, line) {
            Some(fault) => Err(LineFault::Text(fault)),
            None => Ok(SecondHead::Merge(Way::Backward(value_at(line, 2)))),
        };
    }
    delayed_or_cut_in(version, mode, line)
}

/// The head of a step of the second log.
pub fn second_head_in(
    alloc: Global,
    version: u32,
    mode: Mode,
    line: &[u8],
) -> Result<SecondHead, LineFault>
    ensures { Agrees (second_head_in version mode (tokens_of line.now)) result }
{
    if fits(&[Place::Word(Keyword::Trim)], line) {
        return second_trim_in(alloc, line);
    }
    merge_or_cut_in(version, mode, line)
}
