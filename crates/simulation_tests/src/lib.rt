//! Tests of relations and of the games that they come from: rounds, and the greatest forward,
//! backward and delayed relations.
#![tactic(auto)]

#[cfg(test)]
mod backward_tests;
#[cfg(test)]
mod delayed_tests;
#[cfg(test)]
mod forward_tests;
#[cfg(test)]
mod game_tests;
#[cfg(test)]
mod program_tests;
#[cfg(test)]
mod relation_tests;
#[cfg(test)]
mod round_tests;
