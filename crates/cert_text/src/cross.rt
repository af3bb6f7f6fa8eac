//! A cross relation as a value.

use auto_core::List;
use cert_value::Row;

/// A cross relation as a file has it.
#[derive(Debug, Drop)]
pub struct Cross {
    /// How many states the read first automaton has.
    pub first_states: u32,
    /// How many states the read second automaton has.
    pub second_states: u32,
    /// How many labels the two have together.
    pub labels: u32,
    /// The lookahead.
    pub look: u32,
    /// A row for each state of the first that is related to one of the second, ascending. Right
    /// numbers are the second's own.
    pub rows: List<Row>,
}
