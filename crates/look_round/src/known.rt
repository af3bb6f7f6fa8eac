//! What a round has found out, so that it is not gone through again.
//!
//! ```text
//! place   used   left, letter, target   held          replies             answered
//!   0      1      5     a       p3      {q}           {q1, q4}            {p3, p7}
//!   1      0
//!   2      1      4     b       p3      {q1, q4}      {q2}                {}
//! ```
//!
//! A place is found by a hash of its key: how many moves are left, the letter, whether the target
//! accepts, and the states where Duplicator may be (`held`). It tells where Duplicator may be after
//! a move by the letter to a state that asks for the same as the target (`replies`), and which
//! moves by the letter were found answered (`answered`). Where two keys have one place the later
//! one takes it. So the memory is a number of rows that does not depend on how many paths there
//! are, and what a set of states replies is not computed for each path that leads to it.

ghost use Rattle.std.specs.Prelude.{◌≡◌, ◌*◌, ◌≤◌, vec_len};

/// Places, each of which may be in use for moves by a letter from a row of states.
#[derive(Drop)]
pub(crate) struct Known {
    pub(crate) width: usize,
    pub(crate) used: Vec<u64>,
    pub(crate) lefts: Vec<u32>,
    pub(crate) letters: Vec<u32>,
    pub(crate) targets: Vec<u32>,
    pub(crate) held: Vec<u64>,
    pub(crate) replies: Vec<u64>,
    pub(crate) answered: Vec<u64>,
    ghost some: { 1 ≤ vec_len lefts },
    ghost bits: { vec_len lefts ≤ vec_len used * 64 },
    ghost letter_count: { vec_len letters ≡ vec_len lefts },
    ghost target_count: { vec_len targets ≡ vec_len lefts },
    ghost held_rows: { vec_len held ≡ vec_len lefts * width },
    ghost reply_rows: { vec_len replies ≡ vec_len lefts * width },
    ghost answered_rows: { vec_len answered ≡ vec_len lefts * width },
}
