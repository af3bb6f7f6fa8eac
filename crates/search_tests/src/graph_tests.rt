//! Graphs of words, called directly: the arcs that stay when a graph is minimised, and a graph
//! extended by moves and by rows.

ghost use Rattle.std.specs.Prelude.{◌≡◌, ◌*◌, ◌^◌, ◌<◌, ◌≤◌, length, IfOk};
ghost use Rattle.bit_rel.specs.Relation.{IsPreorder};
ghost use Rattle.graph_rows.specs.Block.{width_of};

use auto_core::{Auto, Memory, Trans};
use bit_rel::Rel;
use std::alloc::Global;
use std::test::Fail;

/// A move by the one letter.
fn step(source: u32, target: u32) -> Trans {
    Trans {
        source,
        label: 0,
        target,
    }
}

/// The automaton of two states and one letter with these moves.
fn automaton_of(alloc: Global, moves: &[Trans], accepting: &[u32]) -> Result<Auto, Memory>
    requires { length moves.now < 2 ^ 32 }
    ensures { IfOk result (λ a. a.states ≡ 2) }
{
    match Auto::build(alloc, 2, 1, 0, moves, accepting) {
        Ok(automaton) => Ok(automaton),
        Err(_) => Err(Memory),
    }
}

/// The order that relates state 0 to state 1, which goes on where state 0 does not, and each state
/// to itself.
fn order(alloc: Global) -> Result<Rel, Memory>
    ensures size { IfOk result (λ r. r.size ≡ 2) }
    ensures order { IfOk result (λ r. IsPreorder 2 r.pairs) }
{
    let automaton = automaton_of(alloc, &[step(1, 1)], &[])?;
    direct_sim::preorder(alloc, &automaton, 1)
}

/// Minimises the letter's graph in the block, and tells the values of the arcs from state 0 to both
/// states that stay.
fn minimised(order: &Rel, automaton: &Auto, block: &mut [u64]) -> (u8, u8)
    requires order { IsPreorder order.now.size order.now.pairs }
    requires size { order.now.size ≡ 2 }
    requires states { automaton.now.states ≡ order.now.size }
    requires room { length block.old ≡ 2 * automaton.now.states * width_of automaton.now.states }
{
    graph_rows::letter(automaton, 0, block);
    supergraph::minimise(order, block);
    let states = order.size();
    (
        graph_rows::arc(states, block, 0, 0),
        graph_rows::arc(states, block, 0, 1),
    )
}

/// The values of the arcs from state 0 to both states that stay of those of a letter which leads
/// there, with these states accepting.
fn left_of(alloc: Global, accepting: &[u32]) -> Result<(u8, u8), Memory> {
    let order = order(alloc)?;
    let automaton = automaton_of(alloc, &[step(0, 0), step(0, 1)], accepting)?;
    let mut block = vec![in alloc; 0; graph_rows::words_of(automaton.states())]?;
    Ok(minimised(&order, &automaton, &mut block))
}

/// An automaton of one letter whose states lead to the next one and to the first, with the last
/// state accepting.
fn returning(alloc: Global, states: u32) -> Result<Auto, Memory>
    requires { (1 ≤ states) × (states < 2 ^ 16) }
    ensures { IfOk result (λ a. a.states ≡ states) }
{
    let mut moves = Vec::new(alloc);
    for state in 1..states {
        moves.push(step(state, 0))?;
        moves.push(step(state - 1, state))?;
    }
    match Auto::build(alloc, states, 1, 0, &moves, &[states - 1]) {
        Ok(automaton) => Ok(automaton),
        Err(_) => Err(Memory),
    }
}

/// Extends the graph of the letter by the letter, once by moves and once by rows, and tells whether
/// both graphs are the same.
fn is_extended_alike(
    automaton: &Auto,
    letter: &mut [u64],
    by_moves: &mut [u64],
    by_rows: &mut [u64],
) -> bool
    requires letter { length letter.old ≡ 2 * automaton.now.states * width_of automaton.now.states }
    requires by_moves { length by_moves.old
        ≡ 2 * automaton.now.states * width_of automaton.now.states }
    requires by_rows { length by_rows.old
        ≡ 2 * automaton.now.states * width_of automaton.now.states }
{
    graph_rows::letter(automaton, 0, letter);
    graph_rows::extend(automaton, 0, letter, by_moves);
    graph_rows::extend_by(automaton, 0, letter, letter, by_rows);
    graph_rows::same(automaton.states(), by_moves, by_rows)
}

/// The same for an automaton of so many states.
fn are_extended_alike(alloc: Global, states: u32) -> Result<bool, Memory>
    requires { (1 ≤ states) × (states < 2 ^ 16) }
{
    let automaton = returning(alloc, states)?;
    let words = graph_rows::words_of(states);
    let mut letter = vec![in alloc; 0; words]?;
    let mut by_moves = vec![in alloc; 0; words]?;
    let mut by_rows = vec![in alloc; 0; words]?;
    Ok(is_extended_alike(&automaton, &mut letter, &mut by_moves, &mut by_rows))
}

#[test]
fn the_order_relates_the_first_state_to_the_second(rt: HostRuntime) -> Result<(), Fail> {
    let order = order(rt.alloc())?;
    assert_eq!(rt; (order.get(0, 1), order.get(1, 0)), (true, false));
    Ok(())
}

#[test]
fn an_arc_goes_for_one_of_its_value(rt: HostRuntime) -> Result<(), Fail> {
    assert_eq!(rt; left_of(rt.alloc(), &[])?, (0, 1));
    Ok(())
}

#[test]
fn an_arc_of_greater_value_stays(rt: HostRuntime) -> Result<(), Fail> {
    assert_eq!(rt; left_of(rt.alloc(), &[0])?, (2, 1));
    Ok(())
}

#[test]
fn graphs_are_extended_alike_by_moves_and_by_rows(rt: HostRuntime) -> Result<(), Fail> {
    for states in [2, 65, 200, 600] {
        assert_eq!(rt; are_extended_alike(rt.alloc(), states)?, true);
    }
    Ok(())
}
