//! The evidence as a search gives it.

use auto_core::List;
use cert_value::{Element, StepLine};

/// The evidence of a closed set.
#[derive(Debug, Drop)]
pub struct Closure {
    /// The elements in the order in which they entered, each live or under the least live one that
    /// subsumes it.
    pub elements: List<Element>,
    /// For each candidate of the start, in order, the least live element that subsumes it.
    pub cover: List<u32>,
    /// For each live element, in order, the least live elements that subsume its extensions.
    pub steps: List<StepLine>,
}
