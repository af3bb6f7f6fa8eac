//! The greatest relation, by rounds: pairs are taken away until each that is left has its round.

ghost use Rattle.std.specs.Prelude.{◌≡◌, ◌<◌, ◌≤◌, ℕ, true, false, IfOk};
ghost use Rattle.auto_core.specs.Game.{IsGreatest};
ghost use Rattle.look_game.specs.Taking.{AddsMatching, IsMatching, TakesAway, TakesSome, HasRounds};

use auto_core::{Auto, Memory};
use bit_rel::Rel;
use look_round::{Scratch, Side, round_holds};
use std::alloc::Global;

/// Adds to the relation the pairs of `p` that match.
fn match_row<S: Side>(side: &S, automaton: &Auto, rel: &mut Rel, p: u32)
    requires state { p < automaton.now.states }
    requires equal { rel.old.size ≡ automaton.now.states }
    ensures { AddsMatching (S.matches side.now automaton.now) automaton.now.states p rel.old
        rel.new }
{
    for q in 0..rel.size() {
        if side.matched(automaton, p, q) {
            rel.set(p, q);
        }
    }
}

/// All pairs that match.
pub fn matching<S: Side>(alloc: Global, side: &S, automaton: &Auto) -> Result<Rel, Memory>
    ensures { IfOk result (IsMatching (S.matches side.now automaton.now) automaton.now.states) }
{
    let mut rel = Rel::empty(alloc, automaton.states())?;
    for p in 0..automaton.states() {
        match_row(side, automaton, &mut rel, p);
    }
    Ok(rel)
}

/// Takes away the pairs of `p` that do not have their round, and tells whether there were any.
fn play_row<S: Side>(
    side: &S,
    automaton: &Auto,
    look: u32,
    rel: &mut Rel,
    scratch: &mut Scratch,
    p: u32,
) -> bool
    requires look_from { 1 ≤ look }
    requires look_upto { look ≤ 6 }
    requires equal { rel.old.size ≡ automaton.now.states }
    requires made { scratch.old ≡ record { states = automaton.now.states; look = look } }
    requires state { p < automaton.now.states }
    ensures takes { TakesAway (S.goes side.now automaton.now) (S.matches side.now automaton.now)
        look rel.old rel.new }
    ensures some { result ≡ true → TakesSome rel.old rel.new }
    ensures same { result ≡ false → rel.new ≡ rel.old }
    ensures rounds { result ≡ false
        → HasRounds (S.goes side.now automaton.now) (S.matches side.now automaton.now) look rel.new
        p }
    ensures scratch { scratch.new ≡ scratch.old }
{
    let mut changed = false;
    for q in 0..rel.size() {
        if rel.get(p, q) {
            if !round_holds(side, automaton, rel, look, p, q, scratch) {
                rel.clear(p, q);
                changed = true;
            }
        }
    }
    changed
}

/// Takes away pairs that do not have their round, each pair being tried once, and tells whether
/// there were any.
fn pass<S: Side>(
    side: &S,
    automaton: &Auto,
    look: u32,
    rel: &mut Rel,
    scratch: &mut Scratch,
) -> bool
    requires look_from { 1 ≤ look }
    requires look_upto { look ≤ 6 }
    requires equal { rel.old.size ≡ automaton.now.states }
    requires made { scratch.old ≡ record { states = automaton.now.states; look = look } }
    ensures takes { TakesAway (S.goes side.now automaton.now) (S.matches side.now automaton.now)
        look rel.old rel.new }
    ensures some { result ≡ true → TakesSome rel.old rel.new }
    ensures rounds { result ≡ false → (p : ℕ)
        → HasRounds (S.goes side.now automaton.now) (S.matches side.now automaton.now) look rel.new
        p }
    ensures scratch { scratch.new ≡ scratch.old }
{
    let mut changed = false;
    for p in 0..rel.size() {
        if play_row(side, automaton, look, rel, scratch, p) {
            changed = true;
        }
    }
    changed
}

/// The greatest relation on the automaton's states each of whose pairs matches and has its round at
/// this lookahead. All pairs are tried again and again, until none is taken away.
pub fn greatest_by_rounds<S: Side>(
    alloc: Global,
    side: &S,
    automaton: &Auto,
    look: u32,
) -> Result<Rel, Memory>
    requires look_from { 1 ≤ look }
    requires look_upto { look ≤ 6 }
    ensures size { IfOk result (λ r. r.size ≡ automaton.now.states) }
    ensures greatest { IfOk
        result (λ r.
        IsGreatest (S.goes side.now automaton.now) (S.goes side.now automaton.now)
        (S.matches side.now automaton.now) look automaton.now.states automaton.now.states r.pairs) }
{
    let mut rel = matching(alloc, side, automaton)?;
    let mut scratch = Scratch::new(alloc, automaton, look)?;
    'passes: while pass(side, automaton, look, &mut rel, &mut scratch) {}
    Ok(rel)
}
