//! Which states answer a move at once, by a state that the relation relates the move's target to,
//! as rows of bits.

ghost use Rattle.std.specs.Prelude.{◌≡◌, ◌*◌, ◌^◌, ◌<◌, vec_len};

use crate::reply_lists::ReplyLists;

/// A row for each of the first `kept` states, which has for each letter `width` words: the states
/// that answer a move by the letter to the row's state at once. Besides, the lists of the replies
/// of each state.
#[derive(Drop)]
pub struct Answering {
    pub(crate) labels: u32,
    pub(crate) width: usize,
    pub(crate) kept: u32,
    pub(crate) table: Vec<u64>,
    pub(crate) lists: ReplyLists,
    ghost few: { labels * width < 2 ^ 32 },
    ghost rows: { vec_len table ≡ kept * (labels * width) },
}
