//! What several crates of tests are tried on: files in memory, texts, and small automata; and how a
//! relation is looked at.
#![tactic(auto)]

use auto_core::{Auto, List, Memory, Trans};
use bit_rel::Rel;
use shelf_io::{File, MemShelf};
use std::alloc::Global;
use std::test::Fail;

/// The certificate of one state and one letter.
pub const ONE_YES: &str =
    "rabit-cert 1 buchi yes\nsizes 1 1 1\nlog1 0\nlog2 0\nrel 1\nrow 0 0\nelements 1\nlive base 0\ncover 0\nstep 0 0\nend\n";

/// A ring of so many states by one letter, where each state has a loop by another; only the first
/// state is accepting.
pub fn looped_ring(alloc: Global, states: u32) -> Result<String, Memory> {
    let mut text = String::new(alloc);
    text.push_str("[0]\n")?;
    for state in 0..states {
        let next = if state + 1 == states { 0 } else { state + 1 };
        let lines = format!(in alloc; "a0,[{state}]->[{next}]\na1,[{state}]->[{state}]\n")?;
        text.push_str(lines.as_str())?;
    }
    text.push_str("[0]\n")?;
    Ok(text)
}

/// The bytes, as a list.
pub fn list_of(alloc: Global, bytes: &[u8]) -> Result<List<u8>, Memory> {
    let mut list = List::new(alloc);
    for byte in bytes {
        list.push(*byte)?;
    }
    Ok(list)
}

/// The numbers, as a list.
pub fn numbers_of(alloc: Global, numbers: &[u64]) -> Result<List<u64>, Memory> {
    let mut list = List::new(alloc);
    for number in numbers {
        list.push(*number)?;
    }
    Ok(list)
}

/// A shelf with these files, which gives pieces of so many bytes and has room for more.
pub fn shelf_with(
    alloc: Global,
    files: &[(&str, &str)],
    room: u64,
    piece: u32,
    fails: &[u64],
) -> Result<MemShelf, Memory> {
    let mut held = List::new(alloc);
    for (name, text) in files {
        let name = list_of(alloc, name.as_bytes())?;
        let bytes = list_of(alloc, text.as_bytes())?;
        held.push(File { name, bytes })?;
    }
    MemShelf::new(alloc, held, room, piece.max(1), numbers_of(alloc, fails)?)
}

/// A transition.
pub fn step(source: u32, label: u32, target: u32) -> Trans {
    Trans {
        source,
        label,
        target,
    }
}

/// A small automaton, whose initial state is 0.
pub struct Small<'a> {
    /// How many states it has.
    pub states: u32,
    /// How many labels it has.
    pub labels: u32,
    /// Its transitions: source, label and target.
    pub moves: &'a [(u32, u32, u32)],
    /// Its accepting states.
    pub accepting: &'a [u32],
}

/// The automaton; want of memory for one that is not small.
pub fn built(alloc: Global, small: &Small<'_>) -> Result<Auto, Fail> {
    let mut moves = List::new(alloc);
    for (source, label, target) in small.moves {
        moves.push(step(*source, *label, *target))?;
    }
    if moves.as_slice().len() > 1000 {
        return Err(Memory)?;
    }
    Ok(Auto::build(
        alloc,
        small.states,
        small.labels,
        0,
        moves.as_slice(),
        small.accepting,
    )?)
}

/// Two states that do the same only for one who knows the letter after the next.
pub const FORKED: Small<'static> = Small {
    states: 7,
    labels: 9,
    moves: &[
        (0, 0, 1),
        (0, 1, 2),
        (0, 2, 3),
        (0, 3, 4),
        (0, 4, 5),
        (1, 5, 3),
        (2, 5, 4),
        (2, 5, 5),
        (3, 6, 6),
        (3, 7, 6),
        (4, 6, 6),
        (5, 7, 6),
        (6, 8, 6),
    ],
    accepting: &[6],
};

/// Whether the relation holds the pair; None where a number is out of range.
pub fn held(rel: &Rel, p: u32, q: u32) -> Option<bool> {
    if p < rel.size() && q < rel.size() {
        Some(rel.get(p, q))
    } else {
        None
    }
}
