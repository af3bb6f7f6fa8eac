//! The replies of each state to moves by each letter to states of each kind, listed once.

ghost use Rattle.std.specs.Prelude.{◌≤◌};
ghost use Rattle.look_round.specs.declared.reply_lists.TheConstants.{MOST_KINDS, MOST_LISTED_LETTERS};

/// Lists are made of at most so many letters.
pub(crate) const MOST_LISTED_LETTERS: u32 = 8;

/// At most so many kinds of states are told apart.
pub(crate) const MOST_KINDS: usize = 4;

/// For each state, letter and kind of states a list of the states by which the state answers a move
/// by the letter to a state of the kind.
#[derive(Drop)]
pub struct ReplyLists {
    pub(crate) labels: u32,
    pub(crate) kinds: usize,
    pub(crate) kind_of: Vec<usize>,
    pub(crate) starts: Vec<usize>,
    pub(crate) items: Vec<u32>,
    ghost few_labels: { labels ≤ MOST_LISTED_LETTERS },
    ghost few_kinds: { kinds ≤ MOST_KINDS },
}
