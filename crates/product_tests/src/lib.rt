//! Tests of the decision by the product, of lassos that are read, and of delayed simulation across
//! two automata.
#![tactic(auto)]

#[cfg(test)]
mod decision_tests;
#[cfg(test)]
mod delayed_tests;
#[cfg(test)]
mod drawn;
#[cfg(test)]
mod lasso_tests;
