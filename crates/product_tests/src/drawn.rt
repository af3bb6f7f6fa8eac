//! Random automata.

use auto_core::{Auto, BuildFault, Trans};
use std::alloc::Global;
use std::test::Fail;

/// The next of a run of numbers.
pub(crate) fn next(seed: u64) -> u64 {
    (seed % 0x7fff_ffff) * 48271 % 0x7fff_ffff
}

/// The automaton with these moves, of which there are not too many.
pub(crate) fn built(
    alloc: Global,
    states: u32,
    labels: u32,
    moves: &[Trans],
    accepting: &[u32],
) -> Result<Auto, BuildFault> {
    if moves.len() >= 0xffff_ffff {
        return Err(BuildFault::Memory);
    }
    Auto::build(alloc, states, labels, 0, moves, accepting)
}

/// A random automaton; a deterministic one has each of its moves with this chance in 16.
pub(crate) fn random(
    alloc: Global,
    seed: u64,
    states: u32,
    labels: u32,
    chance: u64,
    single: bool,
) -> Result<Auto, Fail> {
    let mut at = next(next(seed % 0x7fff_ffff + 17));
    let mut moves = Vec::new(alloc);
    let mut accepting = Vec::new(alloc);
    for source in 0..states {
        at = next(at);
        if at % 3 == 0 {
            accepting.push(source)?;
        }
        for label in 0..labels {
            at = next(at);
            let only = (at / 16 % states as u64) as u32;
            for target in 0..states {
                at = next(at);
                let chosen = if single { target == only } else { true };
                if chosen && at / 7 % 16 < chance {
                    moves.push(Trans {
                        source,
                        label,
                        target,
                    })?;
                }
            }
        }
    }
    Ok(built(alloc, states, labels, &moves, &accepting)?)
}
