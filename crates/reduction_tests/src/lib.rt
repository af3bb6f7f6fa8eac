//! Tests of the reduction and of its steps: useful states, quotients and prunings.
#![tactic(auto)]

#[cfg(test)]
mod letters_tests;
#[cfg(test)]
mod pruning_tests;
#[cfg(test)]
mod quotient_tests;
#[cfg(test)]
mod tests;
#[cfg(test)]
mod useful_tests;
