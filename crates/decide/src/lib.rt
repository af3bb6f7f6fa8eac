//! Decides an inclusion, and makes the certificate that shows the answer.
#![tactic(auto)]

mod bodies;
mod deciding;
pub mod laws;
mod logs;
mod rows;
mod terms;

pub use deciding::{answer, include, include_ahead};
pub use terms::Terms;
