//! Rows of bits, and tables of them. Whole steps over rows: the next bit of a row, whether it has no
//! other bit than one, whether two rows are the same, meet, or one is within another, rows of a table
//! written, cleared or narrowed word by word. Tables with rows and columns exchanged. The places of a
//! table of arcs from which a loop past a flagged arc is reached: they are found component by
//! component, the places that a place reaches and that reach it, by the table and by the table turned
//! round.
#![tactic(auto)]

mod bits;
mod blocks;
mod components;
mod equal;
mod looping;
mod meeting;
mod tables;
mod transposing;
mod turning;
mod within;

pub use bits::{has_no_other, mark_below, next_bit};
pub use equal::are_equal;
pub use looping::{Room, mark_loops};
pub use meeting::meets;
pub use tables::{and_row, clear_table_row, write_row};
pub use transposing::transpose;
pub use within::subset;
