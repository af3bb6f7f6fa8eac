//! Tests of files in memory and real ones, of automata and their texts, and of the texts of
//! certificates.
#![tactic(auto)]

#[cfg(test)]
mod automaton_tests;
#[cfg(test)]
mod automaton_text_tests;
#[cfg(test)]
mod certificate_text_tests;
#[cfg(test)]
mod shelf_tests;
