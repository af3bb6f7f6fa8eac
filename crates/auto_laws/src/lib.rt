//! Laws alone: of finite paths, lassos and games of looking ahead, of graphs of words, of searches
//! for closed sets, of bounds, and of greatest relations. Each is the contract of a function that
//! does nothing.
#![tactic(auto)]

mod bounds;
mod closed;
mod counting;
mod games;
mod graphs;
mod greatest;
mod lassos;
mod outcomes;
mod pairs;
mod runs;
mod standing;
mod transfer;

pub use bounds::{
    bounds_rise, listed_pairs_are_few, listed_supergraphs_are_few, pairs_are_few,
    supergraphs_are_few,
};
pub use closed::{
    closed_set_includes, failing_pairs_separate, origins_have_arcs, placed_arcs_are_real,
};
pub use counting::{pigeonhole, pumping, reblocking};
pub use games::{
    across_includes, closure_is_least, closure_is_short, closure_stays_stable,
    closure_stays_stable_backward, followed_across, followed_backward, followed_forward,
    followed_move_by_move, followed_move_by_move_backward, followed_to_the_end,
    strict_steps_are_few,
};
pub use graphs::{graphs_extend, graphs_of_letters, subsumption_is_an_order, subsumption_is_kept};
pub use greatest::{
    a_greatest_backward_relation_is_there, a_greatest_delayed_relation_is_there,
    a_greatest_forward_relation_is_there, a_greatest_relation_across_is_there,
    one_letter_greatest_is_of_pairs, one_letter_is_pairs, one_letter_relates_pairs,
    one_letter_triples_are_pairs,
};
pub use lassos::{
    covered_lassos_are_accepted, lassos_are_accepted, lassos_are_cycles, lassos_are_reached,
    lassos_leave_words, lassos_reach_words,
};
pub use outcomes::{
    apart_separates, closed_list_includes, closed_list_is_closed_set, greatest_is_an_order,
    limit_lists, live_ones_are_enough, live_ones_stand_apart, one_outcome, origins_fit,
};
pub use pairs::{
    apart_separates_word, closed_list_includes_words, closed_list_is_closed_pairs,
    closed_pairs_include, failing_pair_separates, limit_lists_pairs, live_pairs_are_enough,
    live_pairs_stand_apart, one_pair_outcome, pair_origins_fit, pair_subsumption_is_kept,
    placed_pairs_are_reached, reached_pairs_are_real, sets_extend,
};
pub use runs::{backward_paths_extend, paths_extend, paths_turn, turning_twice};
pub use standing::tables_serve_as_graphs;
pub use transfer::{delayed_transfer, lassos_transfer, words_transfer};
