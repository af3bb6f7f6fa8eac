//! Classes of letters: the coarsest that an automaton does not tell apart, and the check of given
//! ones.

ghost use Rattle.std.specs.Prelude.{◌≡◌, ◌<◌, ◌≤◌, ℕ, length, IfOk, IfSome, IfNone, Ok, None, Some, All};
ghost use Rattle.letter_classes.specs.Columns.{IsTurned, AreFirsts, IsFound, IsFirstUnlike, AreClassesOfColumns};
ghost use Rattle.map_laws.specs.Maps.{JoinsEqualColumns};

use crate::classes::{LetterClasses, counted};
use crate::columns::{has_same_columns, turned};
use auto_core::{Auto, Memory};
use std::alloc::Global;

/// The place of the first label of the list that has the moves of this one; the list's length where
/// there is none.
fn class_for(automaton: &Auto, turned: &Auto, firsts: &[u32], letter: u32) -> usize
    requires turned { IsTurned automaton.now turned.now }
    requires letter { letter < automaton.now.labels }
    requires firsts { All (λ a. a < automaton.now.labels) firsts.now }
    ensures { IsFound automaton.now firsts.now letter result }
{
    for class in 0..firsts.len() {
        if has_same_columns(automaton, turned, firsts[class], letter) {
            return class;
        }
    }
    firsts.len()
}

/// The classes of the letters that have the same moves, numbered in the order in which they appear.
pub fn classes_of(alloc: Global, automaton: &Auto) -> Result<LetterClasses, Memory>
    ensures { IfOk result (AreClassesOfColumns automaton.now) }
{
    let turned = turned(alloc, automaton)?;
    let mut of = Vec::new(alloc);
    let mut firsts = Vec::new(alloc);
    for letter in 0..automaton.labels() {
        let class = class_for(automaton, &turned, &firsts, letter);
        of.push(class as u32)?;
        if class == firsts.len() {
            firsts.push(letter)?;
        }
    }
    let count = firsts.len();
    Ok(LetterClasses { of, count })
}

/// The first label that has other moves than a label before it of its class; None where there is
/// none.
pub fn check(
    alloc: Global,
    automaton: &Auto,
    classes: &LetterClasses,
) -> Result<Option<u32>, Memory>
    requires { length classes.now ≡ automaton.now.labels }
    ensures none { result ≡ Ok None → JoinsEqualColumns automaton.now classes.now }
    ensures some { (a : ℕ) → result ≡ Ok (Some a) → IsFirstUnlike automaton.now classes.now a }
{
    let turned = turned(alloc, automaton)?;
    let mut firsts = Vec::new(alloc);
    for letter in 0..automaton.labels() {
        let class = classes.class(letter) as usize;
        if class >= firsts.len() {
            firsts.push(letter)?;
        } else if !has_same_columns(automaton, &turned, firsts[class], letter) {
            return Ok(Some(letter));
        }
    }
    Ok(None)
}
