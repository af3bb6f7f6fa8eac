//! Tests of the searches and of what they stand on: acceptance, graphs of words, searches for a
//! closed set, and simulations across two automata.
#![tactic(auto)]

#[cfg(test)]
mod cross_tests;
#[cfg(test)]
mod finite_tests;
#[cfg(test)]
mod graph_tests;
#[cfg(test)]
mod ramsey_tests;
