//! Steps, passes, and passes until nothing changes.

ghost use Rattle.std.specs.Prelude.{◌≡◌, ◌<◌, ◌≤◌, ℕ, List, [], ◌∷◌, ◌++◌, true, length, Contains, IfOk};
ghost use Rattle.auto_core.specs.Automaton.{IsAutomaton};
ghost use Rattle.auto_core.specs.Accept.{Same};
ghost use Rattle.auto_core.specs.Game.{IsGreatestForward};
ghost use Rattle.reduce_loop.specs.Kinds.{After, kinds_of};
ghost use Rattle.reduce_loop.specs.Known.{AreGreatestOn};
ghost use Rattle.reduce_loop.specs.Passes.{AreIdle, IsReduced};
ghost use Rattle.reduce_loop.specs.Settled.{IsSettled};
ghost use Rattle.reduce_loop.specs.Logs.{IsLogged, LogsOn, IsLog, IsRelationOf};
ghost use Rattle.reduce_loop.specs.declared.steps.Step.{Step};

use crate::copying::{copied, is_same_automaton};
use crate::knowing::{forward_at_one, nothing_known};
use crate::making::make;
use crate::steps::{Foresight, Going, Kind, Ordered, Reduced, Step};
use auto_core::{Auto, List, Memory, Mode};
use std::alloc::Global;

static BUCHI_KINDS: [Kind; 8] = [
    Kind::Trim,
    Kind::Forward,
    Kind::Backward,
    Kind::Delayed,
    Kind::Prune { pair: 1 },
    Kind::Prune { pair: 2 },
    Kind::Prune { pair: 3 },
    Kind::Prune { pair: 4 },
];

static FINITE_KINDS: [Kind; 7] = [
    Kind::Trim,
    Kind::Forward,
    Kind::Backward,
    Kind::Prune { pair: 1 },
    Kind::Prune { pair: 2 },
    Kind::Prune { pair: 3 },
    Kind::Prune { pair: 4 },
];

/// The steps of one pass, in order.
fn kinds(mode: Mode) -> &'static [Kind]
    ensures { result.now ≡ kinds_of mode }
{
    match mode {
        Mode::Buchi => &BUCHI_KINDS,
        Mode::Finite => &FINITE_KINDS,
    }
}

/// An automaton of which nothing is known yet, with the log that leads to it.
fn going(alloc: Global, auto: Auto, log: List<Step>) -> Going
    ensures automaton { result.auto ≡ auto }
    ensures log { result.log ≡ log }
    ensures known { (k : ℕ) → AreGreatestOn result.auto k result.known }
    ensures idle { result.idle ≡ [] }
{
    Going {
        auto,
        log,
        known: nothing_known(),
        idle: List::new(alloc),
    }
}

/// Tells whether the list has the kind.
fn has_kind(kinds: &[Kind], kind: Kind) -> bool
    ensures { result ≡ true → Contains kinds.now kind }
{
    for other in kinds {
        if *other == kind {
            return true;
        }
    }
    false
}

/// Takes a step, and logs it if it changed something. What is known of the automaton is kept as
/// long as nothing changes, and a step that is known to change nothing is not taken again.
fn take(
    alloc: Global,
    state: Going,
    kind: Kind,
    mode: Mode,
    sight: Foresight,
) -> Result<Going, Memory>
    requires listed { Contains (kinds_of mode) kind }
    requires few { state.auto.states ≤ 65535 }
    requires look_from { 1 ≤ sight.look }
    requires look_upto { sight.look ≤ 6 }
    requires letters_from { 1 ≤ sight.letters }
    requires letters_upto { sight.letters ≤ 4 }
    requires known { AreGreatestOn state.auto sight.look state.known }
    requires idle { AreIdle state.auto mode sight state.idle }
    ensures after { IfOk result (λ new. After state.auto mode sight kind new.auto) }
    ensures logged { IfOk
        result (λ new.
        (now : List Step) × IsLogged state.auto mode sight kind new.auto now
        × (new.log ≡ state.log ++ now)) }
    ensures known { IfOk result (λ new. AreGreatestOn new.auto sight.look new.known) }
    ensures idle { IfOk result (λ new. AreIdle new.auto mode sight new.idle) }
{
    if has_kind(state.idle.as_slice(), kind) {
        return Ok(state);
    }
    let mut known = state.known;
    let made = make(alloc, &state.auto, &mut known, kind, mode, sight)?;
    if is_same_automaton(&made.automaton, &state.auto) {
        let mut idle = state.idle;
        idle.push(kind)?;
        return Ok(Going {
            auto: state.auto,
            log: state.log,
            known,
            idle,
        });
    }
    let mut log = state.log;
    log.push(made.entry)?;
    Ok(going(alloc, made.automaton, log))
}

/// Takes the steps of one pass.
fn pass(alloc: Global, state: Going, mode: Mode, sight: Foresight) -> Result<Going, Memory>
    requires few { state.auto.states ≤ 65535 }
    requires look_from { 1 ≤ sight.look }
    requires look_upto { sight.look ≤ 6 }
    requires letters_from { 1 ≤ sight.letters }
    requires letters_upto { sight.letters ≤ 4 }
    requires valid { IsAutomaton state.auto }
    requires known { AreGreatestOn state.auto sight.look state.known }
    requires idle { AreIdle state.auto mode sight state.idle }
    ensures logs { IfOk
        result (λ new. LogsOn state.auto mode sight (kinds_of mode) state.log new.auto new.log) }
    ensures known { IfOk result (λ new. AreGreatestOn new.auto sight.look new.known) }
    ensures idle { IfOk result (λ new. AreIdle new.auto mode sight new.idle) }
{
    let mut state = state;
    for kind in kinds(mode) {
        state = take(alloc, state, *kind, mode, sight)?;
    }
    Ok(state)
}

/// The automaton and its log alone.
fn finished(state: Going) -> Reduced
    ensures { result ≡ record { auto = state.auto; log = state.log } }
{
    Reduced {
        auto: state.auto,
        log: state.log,
    }
}

/// The automaton once it is settled: the steps are taken in order, each by the greatest relations
/// of the automaton as it is then, in passes until a pass changes nothing. The log has the steps
/// that changed something.
fn settled(alloc: Global, automaton: &Auto, mode: Mode, sight: Foresight) -> Result<Going, Memory>
    requires few { automaton.now.states ≤ 65535 }
    requires look_from { 1 ≤ sight.look }
    requires look_upto { sight.look ≤ 6 }
    requires letters_from { 1 ≤ sight.letters }
    requires letters_upto { sight.letters ≤ 4 }
    ensures reduced { IfOk result (λ r. IsReduced automaton.now mode sight r.auto) }
    ensures log { IfOk result (λ r. IsLog automaton.now mode sight r.auto r.log) }
    ensures same { IfOk result (λ r. Same automaton.now r.auto mode) }
    ensures settled { IfOk result (λ r. IsSettled r.auto mode sight) }
    ensures known { IfOk result (λ r. AreGreatestOn r.auto sight.look r.known) }
{
    let mut state = going(alloc, copied(alloc, automaton)?, List::new(alloc));
    loop {
        let before = state.log.as_slice().len();
        state = pass(alloc, state, mode, sight)?;
        if state.log.as_slice().len() == before {
            return Ok(state);
        }
    }
}

/// The reduced automaton, and the steps that changed something.
fn reduce_by(
    alloc: Global,
    automaton: &Auto,
    mode: Mode,
    sight: Foresight,
) -> Result<Reduced, Memory>
    requires few { automaton.now.states ≤ 65535 }
    requires look_from { 1 ≤ sight.look }
    requires look_upto { sight.look ≤ 6 }
    requires letters_from { 1 ≤ sight.letters }
    requires letters_upto { sight.letters ≤ 4 }
    ensures reduced { IfOk result (λ r. IsReduced automaton.now mode sight r.auto) }
    ensures log { IfOk result (λ r. IsLog automaton.now mode sight r.auto r.log) }
    ensures same { IfOk result (λ r. Same automaton.now r.auto mode) }
    ensures settled { IfOk result (λ r. IsSettled r.auto mode sight) }
{
    let state = settled(alloc, automaton, mode, sight)?;
    Ok(finished(state))
}

/// The reduced automaton with its order, and the steps that changed something.
pub fn reduce_ordered(
    alloc: Global,
    automaton: &Auto,
    mode: Mode,
    sight: Foresight,
) -> Result<Ordered, Memory>
    requires few { automaton.now.states ≤ 65535 }
    requires look_from { 1 ≤ sight.look }
    requires look_upto { sight.look ≤ 6 }
    requires letters_from { 1 ≤ sight.letters }
    requires letters_upto { sight.letters ≤ 4 }
    ensures reduced { IfOk result (λ r. IsReduced automaton.now mode sight r.auto) }
    ensures log { IfOk result (λ r. IsLog automaton.now mode sight r.auto r.log) }
    ensures same { IfOk result (λ r. Same automaton.now r.auto mode) }
    ensures settled { IfOk result (λ r. IsSettled r.auto mode sight) }
    ensures order { IfOk result (λ r. IsRelationOf r.auto (IsGreatestForward r.auto 1) r.order) }
{
    let state = settled(alloc, automaton, mode, sight)?;
    let mut known = state.known;
    let order = forward_at_one(
        alloc,
        &state.auto,
        &mut known.forward_at_one,
        &mut known.forward,
        sight.look,
    )?;
    Ok(Ordered {
        auto: state.auto,
        log: state.log,
        order,
    })
}

/// The reduced automaton, with lookahead `look` in the forward and backward games and one announced
/// letter in the delayed one, and the steps that changed something.
pub fn reduce(alloc: Global, automaton: &Auto, mode: Mode, look: u32) -> Result<Reduced, Memory>
    requires few { automaton.now.states ≤ 65535 }
    requires look_from { 1 ≤ look }
    requires look_upto { look ≤ 6 }
    ensures reduced { IfOk
        result (λ r. IsReduced automaton.now mode (record { look = look; letters = 1 }) r.auto) }
    ensures log { IfOk
        result (λ r. IsLog automaton.now mode (record { look = look; letters = 1 }) r.auto r.log) }
    ensures same { IfOk result (λ r. Same automaton.now r.auto mode) }
    ensures settled { IfOk
        result (λ r. IsSettled r.auto mode (record { look = look; letters = 1 })) }
{
    reduce_by(alloc, automaton, mode, Foresight { look, letters: 1 })
}

/// The same with so many letters asked for in the delayed game.
pub fn reduce_ahead(
    alloc: Global,
    automaton: &Auto,
    mode: Mode,
    look: u32,
    letters: u32,
) -> Result<Reduced, Memory>
    requires few { automaton.now.states ≤ 65535 }
    requires look_from { 1 ≤ look }
    requires look_upto { look ≤ 6 }
    requires letters_from { 1 ≤ letters }
    requires letters_upto { letters ≤ 4 }
    ensures reduced { IfOk
        result (λ r.
        IsReduced automaton.now mode (record { look = look; letters = letters }) r.auto) }
    ensures log { IfOk
        result (λ r.
        IsLog automaton.now mode (record { look = look; letters = letters }) r.auto r.log) }
    ensures same { IfOk result (λ r. Same automaton.now r.auto mode) }
    ensures settled { IfOk
        result (λ r. IsSettled r.auto mode (record { look = look; letters = letters })) }
{
    reduce_by(alloc, automaton, mode, Foresight { look, letters })
}
