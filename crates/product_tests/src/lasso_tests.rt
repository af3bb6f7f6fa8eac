//! Random automata over three letters of two classes: a lasso of classes is read where the
//! automaton over classes accepts it.

use crate::drawn::{built, next, random};
use auto_core::{Auto, Lasso, List, Memory, Trans};
use lasso_accept::accepts_lasso;
use lasso_reading::{Answer, lasso_read};
use std::alloc::Global;
use std::test::Fail;

/// A random word over two classes.
fn drawn(alloc: Global, seed: u64, length: u64) -> Result<Vec<u32>, Memory> {
    let mut word = Vec::new(alloc);
    let mut at = seed;
    for _k in 0..length {
        at = next(at);
        word.push((at / 7 % 2) as u32)?;
    }
    Ok(word)
}

/// The same letters as a list.
fn listed(alloc: Global, letters: &[u32]) -> Result<List<u32>, Memory> {
    let mut list = List::new(alloc);
    for k in 0..letters.len() {
        list.push(letters[k])?;
    }
    Ok(list)
}

/// The moves by letters: those of class 0 are 0 and 2.
fn lettered(alloc: Global, coarse: &Auto) -> Result<Vec<Trans>, Memory> {
    let mut moves = Vec::new(alloc);
    let transitions = coarse.transitions();
    for k in 0..transitions.len() {
        let step = transitions[k];
        let letter = if step.label == 1 {
            1
        } else if k % 3 == 0 {
            2
        } else {
            0
        };
        moves.push(Trans {
            source: step.source,
            label: letter,
            target: step.target,
        })?;
    }
    Ok(moves)
}

/// The accepting states.
fn accepting(alloc: Global, automaton: &Auto) -> Result<Vec<u32>, Memory> {
    let mut states = Vec::new(alloc);
    for state in 0..automaton.states() {
        if automaton.accepting(state) {
            states.push(state)?;
        }
    }
    Ok(states)
}

/// The automaton with letters for classes.
fn refined(alloc: Global, coarse: &Auto) -> Result<Auto, Fail> {
    let moves = lettered(alloc, coarse)?;
    let states = accepting(alloc, coarse)?;
    Ok(built(alloc, coarse.states(), 3, &moves, &states)?)
}

/// The letter at the place of the lasso; none if its loop is empty.
fn letter_at(prefix: &[u32], turn: &[u32], place: usize) -> Option<u32> {
    if place < prefix.len() {
        return Some(prefix[place]);
    }
    if turn.len() == 0 {
        return None;
    }
    Some(turn[(place - prefix.len()) % turn.len()])
}

/// Tells whether the letters 0 and 2 stand where the class is 0, and 1 where it is 1.
fn spells(letter: Option<u32>, class: Option<u32>) -> bool {
    letter.unwrap_or(3) % 2 == class.unwrap_or(2)
}

/// Tells whether the first letters of the lasso have these classes.
fn reads(lasso: &Lasso, prefix: &[u32], turn: &[u32]) -> bool {
    let before = lasso.prefix.as_slice();
    let again = lasso.turn.as_slice();
    for place in 0..64 {
        if !spells(
            letter_at(before, again, place),
            letter_at(prefix, turn, place),
        ) {
            return false;
        }
    }
    true
}

/// The answer; none if the question is not one.
fn answered(
    alloc: Global,
    automaton: &Auto,
    prefix: &[u32],
    turn: &[u32],
    limit: u32,
) -> Result<Option<Answer>, Memory> {
    if automaton.labels() != 3 {
        return Ok(None);
    }
    if turn.len() == 0 {
        return Ok(None);
    }
    if prefix.len() > 100 {
        return Ok(None);
    }
    if turn.len() > 100 {
        return Ok(None);
    }
    let classes = [0, 1, 0];
    Ok(Some(lasso_read(alloc, automaton, &classes, prefix, turn, limit)?))
}

#[test]
fn lassos_are_read(rt: HostRuntime) -> Result<(), Fail> {
    let alloc = rt.alloc();
    let mut accepted: u64 = 0;
    let mut rejected: u64 = 0;
    for seed in 1..2001 {
        let coarse = random(alloc, seed, 1 + seed as u32 % 7, 2, 1 + seed / 5 % 5, false)?;
        let automaton = refined(alloc, &coarse)?;
        let prefix = drawn(alloc, seed * 7919 + 13, seed % 4)?;
        let turn = drawn(alloc, seed * 104_729 + 7, 1 + seed / 3 % 4)?;
        let lasso = Lasso {
            prefix: listed(alloc, &prefix)?,
            turn: listed(alloc, &turn)?,
        };
        let is_accepted = accepts_lasso(alloc, &coarse, &lasso)?;
        match answered(alloc, &automaton, &prefix, &turn, 1000)? {
            Some(Answer::Accepted(found)) => {
                accepted = accepted + 1;
                assert!(rt; is_accepted);
                assert!(rt; accepts_lasso(alloc, &automaton, &found)?);
                assert!(rt; reads(&found, &prefix, &turn));
            }
            Some(Answer::Rejected) => {
                rejected = rejected + 1;
                assert!(rt; !is_accepted);
            }
            Some(Answer::Limit) => assert!(rt; false),
            None => assert!(rt; false),
        }
    }
    println!(rt; "accepted {accepted}, rejected {rejected}")?;
    assert!(rt; accepted > 100);
    assert!(rt; rejected > 100);
    Ok(())
}

#[test]
fn limit_is_met(rt: HostRuntime) -> Result<(), Fail> {
    let alloc = rt.alloc();
    let moves = [
        Trans {
            source: 0,
            label: 0,
            target: 0,
        },
        Trans {
            source: 0,
            label: 2,
            target: 0,
        },
    ];
    let automaton = built(alloc, 1, 3, &moves, &[0])?;
    match answered(alloc, &automaton, &[0, 0, 0], &[0, 0], 4)? {
        Some(Answer::Limit) => {}
        _ => assert!(rt; false),
    }
    match answered(alloc, &automaton, &[0, 0, 0], &[0, 0], 5)? {
        Some(Answer::Accepted(found)) => assert!(rt; reads(&found, &[0, 0, 0], &[0, 0])),
        _ => assert!(rt; false),
    }
    match answered(alloc, &automaton, &[0, 0, 0], &[0, 1], 5)? {
        Some(Answer::Rejected) => {}
        _ => assert!(rt; false),
    }
    Ok(())
}
