//! A proof as a value.

use auto_core::{Lasso, List};
use cert_value::{FirstStep, RankBlock, SecondStep, YesBody};

/// A proof as a file has it.
#[derive(Debug, Drop)]
pub struct Proof {
    /// How many states the read first automaton has.
    pub first_states: u32,
    /// How many states the read second automaton has.
    pub second_states: u32,
    /// How many labels the two have together.
    pub labels: u32,
    /// What it claims.
    pub body: ProofBody,
}

/// Which form a proof has.
#[derive(Clone, Copy, Debug, PartialEq, Eq)]
pub enum ProofForm {
    /// A lasso.
    No,
    /// Inclusion, by a ranked product.
    Product,
    /// Inclusion, by a delayed simulation across.
    Delayed,
    /// Inclusion, by a closed list of elements.
    Closed,
}

/// What a proof claims, with its evidence.
#[derive(Debug, Drop)]
pub enum ProofBody {
    /// A lasso that the first accepts and the second does not.
    No(Lasso),
    /// Inclusion: what the two automata become, and the evidence about that.
    Yes(Front, Evidence),
}

/// What the two automata become before the evidence.
#[derive(Debug, Drop)]
pub struct Front {
    /// The log of the second automaton's steps.
    pub second: List<SecondStep>,
    /// The class of each label, in order.
    pub letters: List<u32>,
    /// The class of each state of the first automaton, trimmed, in order.
    pub map: List<u32>,
    /// The classes of states that accept, ascending.
    pub accepting: List<u32>,
    /// The log of the first automaton's steps after that.
    pub first: List<FirstStep>,
}

/// The evidence of inclusion.
#[derive(Debug, Drop)]
pub enum Evidence {
    /// The pairs of a product, each with its rank: a row of a left state has the right states.
    Product(RankBlock),
    /// The pairs of a delayed simulation across, each with its code: 0 without a rank, and
    /// otherwise the rank plus 1.
    Delayed(RankBlock),
    /// A closed list of elements: the body of a certificate's yes without a step in its logs.
    Closed(YesBody),
}
