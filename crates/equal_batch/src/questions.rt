//! Reading a list of questions.

ghost use Rattle.std.specs.Prelude.{◌≡◌, ◌+◌, ◌^◌, ◌≤◌, ◌⊎◌, ◌∷◌, [], ℕ, List as Items, length, Some, None, Ok, Err, OnOk, IfOk, MatchResult};
ghost use Rattle.equal_batch.specs.Questions.{first_bad, line_of, IsList, TellsLine};

use crate::fault::ListFault;
use crate::lines::{first_line, words_of};
use auto_core::{List, Memory};
use std::alloc::Global;

/// The most lines of a list.
pub const MOST_LINES: u32 = 1_000;

/// A question: the names of three files, as bytes.
#[derive(Debug, Drop)]
pub struct Question {
    /// The file of the first automaton.
    pub first: List<u8>,
    /// The file of the second automaton.
    pub second: List<u8>,
    /// The file that the certificate goes to.
    pub cert: List<u8>,
}

/// The list with these bytes.
fn copied(alloc: Global, bytes: &[u8]) -> Result<List<u8>, Memory>
    ensures { IfOk result (λ copy. copy ≡ bytes.now) }
{
    let mut copy = List::new(alloc);
    for byte in bytes {
        copy.push(*byte)?;
    }
    Ok(copy)
}

/// The question with these three words.
fn question_of(alloc: Global, first: &[u8], second: &[u8], cert: &[u8]) -> Result<Question, Memory>
    ensures { IfOk result (λ question. line_of question ≡ first.now ∷ second.now ∷ cert.now ∷ []) }
{
    Ok(Question {
        first: copied(alloc, first)?,
        second: copied(alloc, second)?,
        cert: copied(alloc, cert)?,
    })
}

/// What the lines of the bytes ask, or the first bad line.
fn read_lines(alloc: Global, bytes: &[u8]) -> Result<List<Question>, ListFault>
    requires { length bytes.now ≤ 2 ^ 16 }
    ensures { MatchResult
        result (λ questions. (first_bad bytes.now ≡ None) × IsList questions bytes.now)
        (TellsLine (first_bad bytes.now)) }
{
    let mut questions = List::new(alloc);
    let mut rest = bytes;
    let mut number = 1u32;
    while !rest.is_empty() {
        let (line, after) = first_line(rest);
        if number > MOST_LINES {
            return Err(ListFault::Line(number));
        }
        match words_of(line) {
            None => return Err(ListFault::Line(number)),
            Some((first, second, cert)) => questions.push(question_of(
                alloc, first, second, cert,
            )?)?,
        }
        rest = after;
        number += 1;
    }
    Ok(questions)
}

/// Reads a list of questions from its text, of at most 64 KiB, or tells the first bad line: one
/// that is not three words joined by single spaces, or the 1,001st.
pub fn read_list(alloc: Global, bytes: &[u8]) -> Result<List<Question>, ListFault>
    requires { length bytes.now ≤ 2 ^ 16 }
    ensures found { IfOk result (λ questions. IsList questions bytes.now) }
    ensures only { (questions : Items Question) → IsList questions bytes.now
        → (result ≡ Ok questions) ⊎ (result ≡ Err ListFault.Memory) }
    ensures fault { (line : ℕ) → result ≡ Err (ListFault.Line line)
        → first_bad bytes.now ≡ Some line }
    ensures first { (line : ℕ) → first_bad bytes.now ≡ Some line
        → (result ≡ Err (ListFault.Line line)) ⊎ (result ≡ Err ListFault.Memory) }
{
    read_lines(alloc, bytes)
}
