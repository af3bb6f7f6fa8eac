//! The run by which an automaton accepts a lasso.

ghost use Rattle.std.specs.Prelude.{◌≡◌, ◌*◌, ◌^◌, ◌<◌, ◌≤◌, ℕ, Bool, true, length, IfOk, MatchOption};
ghost use Rattle.auto_core.specs.Automaton.{IsAutomaton};
ghost use Rattle.auto_core.specs.Run.{Run};
ghost use Rattle.auto_core.specs.Accept.{AcceptsLasso};
ghost use Rattle.auto_core.specs.Rows.{HasCell};
ghost use Rattle.auto_core.specs.Reach.{IsTable, HasArc, MarksBelow, HasFlaggedCycle};
ghost use Rattle.lasso_accept.specs.LassoRun.{IsLassoRun};
ghost use Rattle.lasso_accept.specs.Route.{CountsTurns, IsArcRoute, IsRoute, HasTurned, HasGone};

use crate::{countdown, planes, spelling};
use auto_core::{Auto, Lasso, List, Memory, rows};
use std::alloc::Global;

/// A run over a lasso that shows that it is accepted.
#[derive(Debug, Drop)]
pub struct LassoRun {
    /// How many times the loop is gone through on the way to the state in which the last turns
    /// begin and end.
    pub before: u64,
    /// How many times it is gone through from there on; at least once.
    pub turns: u64,
    /// The states: the initial one, then that after each letter of the prefix and of the loop, turn
    /// by turn.
    pub places: List<u32>,
}

/// Where the last turns of a run begin and end, and how it comes there.
#[derive(Debug, Drop)]
struct Route {
    /// The state in which the last turns begin and end.
    at: u32,
    /// For each number a row of the states from which so many turns lead there.
    table: Vec<u64>,
    /// How many turns lead there from where the prefix leads.
    before: usize,
    /// How many lead there from where one past an accepting state leads.
    back: usize,
}

/// The route by the arcs of the loop from the marks that the prefix enters by, if there is one.
fn route_from(
    alloc: Global,
    any: &[u64],
    flagged: &[u64],
    states: u32,
    width: usize,
    entered: &[u64],
) -> Result<Option<Route>, Memory>
    requires any { IsTable any.now states width }
    requires flagged { IsTable flagged.now states width }
    requires few { width < 2 ^ 32 }
    requires entered_len { length entered.now ≡ width }
    requires entered_below { MarksBelow entered.now states }
    ensures { IfOk result
        (λ found. MatchOption found (HasFlaggedCycle (HasArc any.now states width) (HasArc flagged.now states width) entered.now → ⊥)
        (λ r. IsArcRoute any.now flagged.now states width entered.now r.at r.before r.back r.table.items)) }
{
    let mut marks = Vec::from_slice(alloc, entered)?;
    let mut returned = Vec::from_slice(alloc, entered)?;
    let mut done = Vec::from_slice(alloc, entered)?;
    let at = match countdown::turning_place(
        any,
        flagged,
        states,
        width,
        &mut marks,
        &mut returned,
        &mut done,
    ) {
        Some(at) => at,
        None => return Ok(None),
    };
    let table = countdown::countdown_to(alloc, any, states, width, at)?;
    let before = match countdown::first_meeting(&table, states, width, entered) {
        Some(before) => before,
        None => return Ok(None),
    };
    let left = rows::row_at(flagged, width, at);
    let back = match countdown::first_meeting(&table, states, width, left) {
        Some(back) => back,
        None => return Ok(None),
    };
    Ok(Some(Route {
        at: at as u32,
        table,
        before,
        back,
    }))
}

/// The route of a run over the lasso, if it is accepted.
fn route_of(
    alloc: Global,
    automaton: &Auto,
    lasso: &Lasso,
    width: usize,
) -> Result<Option<Route>, Memory>
    requires room { automaton.now.states ≤ width * 64 }
    requires few { width < 2 ^ 32 }
    ensures { IfOk result
        (λ found. MatchOption found (AcceptsLasso automaton.now lasso.now.prefix lasso.now.turn → ⊥)
        (λ r. IsRoute automaton.now lasso.now.prefix lasso.now.turn width r.at r.before r.back r.table.items)) }
{
    let states = automaton.states();
    let prefix = planes::planes_of(alloc, automaton, lasso.prefix.as_slice(), width)?;
    let turn = planes::planes_of(alloc, automaton, lasso.turn.as_slice(), width)?;
    let entered = rows::row_at(&prefix.any, width, automaton.initial() as usize);
    route_from(alloc, &turn.any, &turn.flagged, states, width, entered)
}

/// Appends the states of a path on so many turns of the loop from the state, as the table shows the
/// way.
fn take_turns(
    alloc: Global,
    automaton: &Auto,
    turn: &[u32],
    width: usize,
    table: &[u64],
    turns: usize,
    start: u32,
    places: &mut List<u32>,
) -> Result<(), Memory>
    requires valid { IsAutomaton automaton.now }
    requires room { automaton.now.states ≤ width * 64 }
    requires few { width < 2 ^ 32 }
    requires is_state { start < automaton.now.states }
    requires turns_in { turns < automaton.now.states }
    requires counts { (target : ℕ) × CountsTurns automaton.now turn.now width target table.now }
    requires here { HasCell table.now width turns start }
    ensures { (target : ℕ)
        → CountsTurns automaton.now turn.now width target table.now
        → IfOk result (λ _. HasTurned automaton.now start turn.now turns target places.old places.new) }
{
    let mut state = start;
    for left in (0..turns).rev() {
        let next = rows::row_at(table, width, left);
        state = spelling::spell(alloc, automaton, turn, width, next, state, false, places)?;
    }
    Ok(())
}

/// Appends the states of a path on the word and then on so many turns of the loop, as the table
/// shows the way; on the word it passes an accepting state if that is asked for.
fn go(
    alloc: Global,
    automaton: &Auto,
    word: &[u32],
    turn: &[u32],
    width: usize,
    table: &[u64],
    turns: usize,
    start: u32,
    asked: bool,
    places: &mut List<u32>,
) -> Result<(), Memory>
    requires valid { IsAutomaton automaton.now }
    requires room { automaton.now.states ≤ width * 64 }
    requires few { width < 2 ^ 32 }
    requires is_state { start < automaton.now.states }
    requires turns_in { turns < automaton.now.states }
    requires counts { (target : ℕ) × CountsTurns automaton.now turn.now width target table.now }
    requires leads { (s : ℕ) × (flag : Bool) × Run automaton.now start word.now s flag
        × (asked ≡ true → flag ≡ true) × HasCell table.now width turns s }
    ensures { (target : ℕ)
        → CountsTurns automaton.now turn.now width target table.now
        → IfOk result (λ _. HasGone automaton.now start word.now turn.now turns target asked places.old places.new) }
{
    let row = rows::row_at(table, width, turns);
    let state = spelling::spell(alloc, automaton, word, width, row, start, asked, places)?;
    take_turns(alloc, automaton, turn, width, table, turns, state, places)
}

/// The run along the route.
fn run_along(
    alloc: Global,
    automaton: &Auto,
    lasso: &Lasso,
    width: usize,
    route: &Route,
) -> Result<LassoRun, Memory>
    requires room { automaton.now.states ≤ width * 64 }
    requires few { width < 2 ^ 32 }
    requires route { IsRoute automaton.now lasso.now.prefix lasso.now.turn width route.now.at
        route.now.before route.now.back route.now.table.items }
    ensures { IfOk result (λ run. IsLassoRun automaton.now lasso.now.prefix lasso.now.turn run) }
{
    let prefix = lasso.prefix.as_slice();
    let turn = lasso.turn.as_slice();
    let table = route.table.as_slice();
    let start = automaton.initial();
    let mut places = List::new(alloc);
    places.push(start)?;
    go(
        alloc,
        automaton,
        prefix,
        turn,
        width,
        table,
        route.before,
        start,
        false,
        &mut places,
    )?;
    go(
        alloc,
        automaton,
        turn,
        turn,
        width,
        table,
        route.back,
        route.at,
        true,
        &mut places,
    )?;
    Ok(LassoRun {
        before: route.before as u64,
        turns: route.back as u64 + 1,
        places,
    })
}

/// A run over the lasso that shows that the automaton accepts it, or None where it does not. Only
/// memory can be refused.
pub fn run_of(alloc: Global, automaton: &Auto, lasso: &Lasso) -> Result<Option<LassoRun>, Memory>
    ensures { IfOk result
        (λ found. MatchOption found (AcceptsLasso automaton.now lasso.now.prefix lasso.now.turn → ⊥) (λ run. IsLassoRun automaton.now lasso.now.prefix lasso.now.turn run)) }
{
    let width = rows::words_for(automaton.states());
    match route_of(alloc, automaton, lasso, width)? {
        Some(route) => Ok(Some(run_along(alloc, automaton, lasso, width, &route)?)),
        None => Ok(None),
    }
}
