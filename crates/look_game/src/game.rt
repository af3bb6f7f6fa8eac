//! The greatest relation, by a list of rows that are still to be tried.

ghost use Rattle.std.specs.Prelude.{◌≡◌, ◌+◌, ◌/◌, ◌^◌, ◌<◌, ◌≤◌, ℕ, List, true, false, None, length, IfOk, IfSome, IsTrue, ◌↔◌};
ghost use Rattle.auto_core.specs.Automaton.{IsAutomaton};
ghost use Rattle.auto_core.specs.Game.{ArePairsBelow, Holds, IsGreatest, Stable};
ghost use Rattle.bit_rel.specs.Relation.{IsRelation};
ghost use Rattle.look_game.specs.Taking.{TakesAway, TakesSome, HasRounds, HasStable};
ghost use Rattle.look_game.specs.Asked.{IsLost, IsNeverKept};
ghost use Rattle.look_game.specs.Near.{IsFarFrom, HasOtherRounds};
ghost use Rattle.look_game.specs.Marks.{HasRowsFor};
ghost use Rattle.look_game.specs.Visiting.{IsRoomFor};

use crate::asked::{Pair, is_lost, may_stay};
use crate::losing::played_on;
use crate::near;
use crate::sweeping::{rows_to_sweep, sweep_often};
use crate::visiting::{Visits, visit_row};
use auto_core::{Auto, Memory, rows};
use bit_rel::Rel;
use bit_rows::mark_below;
use look_round::{Scratch, Side, bound};
use std::alloc::Global;

/// Takes away pairs of the marked rows that do not have their round, each pair being tried once,
/// and tells whether there were any. The last rows come first, since moves mostly lead on to later
/// states. `changed` is made to mark the rows that lost pairs.
fn pass<S: Side>(
    side: &S,
    automaton: &Auto,
    look: u32,
    marks: &[u64],
    rel: &mut Rel,
    scratch: &mut Scratch,
    changed: &mut [u64],
    visits: &mut Visits,
) -> bool
    requires look_from { 1 ≤ look }
    requires look_upto { look ≤ 6 }
    requires equal { rel.old.size ≡ automaton.now.states }
    requires made { scratch.old ≡ record { states = automaton.now.states; look = look } }
    requires marks_len { length marks.now ≡ (automaton.now.states + 63) / 64 }
    requires changed_len { length changed.old ≡ (automaton.now.states + 63) / 64 }
    requires others { HasOtherRounds (S.goes side.now automaton.now)
        (S.matches side.now automaton.now) look rel.old marks.now }
    requires ready { IsRoomFor (S.goes side.now automaton.now) (S.matches side.now automaton.now)
        (Holds rel.old.pairs) automaton.now.states visits.old }
    ensures takes { TakesAway (S.goes side.now automaton.now) (S.matches side.now automaton.now)
        look rel.old rel.new }
    ensures some { result ≡ true → TakesSome rel.old rel.new }
    ensures none { result ≡ false → (p : ℕ)
        → HasRounds (S.goes side.now automaton.now) (S.matches side.now automaton.now) look rel.new
        p }
    ensures apart { (p : ℕ)
        → IsFarFrom (S.goes side.now automaton.now) look changed.new p
        → HasRounds (S.goes side.now automaton.now) (S.matches side.now automaton.now) look rel.new p }
    ensures scratch { scratch.new ≡ scratch.old }
    ensures ready { IsRoomFor (S.goes side.now automaton.now) (S.matches side.now automaton.now)
        (Holds rel.new.pairs) automaton.now.states visits.new }
{
    rows::clear_row(changed);
    let mut any = false;
    for p in (0..rel.size()).rev() {
        if rows::has_bit(marks, p as usize) {
            if visit_row(side, automaton, look, rel, scratch, p, visits) {
                rows::set_bit(changed, p as usize);
                any = true;
            }
        }
    }
    any
}

/// Takes pairs away until each that is left has its round, and tells that; or until the pair that
/// is asked for is lost. The three rows are room.
fn settle<S: Side>(
    side: &S,
    automaton: &Auto,
    look: u32,
    asked: Option<Pair>,
    rel: &mut Rel,
    scratch: &mut Scratch,
    marks: &mut [u64],
    changed: &mut [u64],
    spare: &mut [u64],
    visits: &mut Visits,
) -> bool
    requires valid { IsAutomaton automaton.now }
    requires look_from { 1 ≤ look }
    requires look_upto { look ≤ 6 }
    requires asked_states { IfSome
        asked (λ pair. (pair.left < automaton.now.states) × (pair.right < automaton.now.states)) }
    requires equal { rel.old.size ≡ automaton.now.states }
    requires made { scratch.old ≡ record { states = automaton.now.states; look = look } }
    requires marks_len { length marks.old ≡ (automaton.now.states + 63) / 64 }
    requires changed_len { length changed.old ≡ (automaton.now.states + 63) / 64 }
    requires spare_len { length spare.old ≡ (automaton.now.states + 63) / 64 }
    requires ready { IsRoomFor (S.goes side.now automaton.now) (S.matches side.now automaton.now)
        (Holds rel.old.pairs) automaton.now.states visits.old }
    ensures takes { TakesAway (S.goes side.now automaton.now) (S.matches side.now automaton.now)
        look rel.old rel.new }
    ensures rounds { result ≡ true → (p : ℕ)
        → HasRounds (S.goes side.now automaton.now) (S.matches side.now automaton.now) look rel.new
        p }
    ensures lost { result ≡ false → IsLost rel.new.pairs asked }
{
    mark_below(marks, rel.size());
    'passes: while pass(side, automaton, look, marks, rel, scratch, changed, visits) {
        if is_lost(rel, asked) {
            return false;
        }
        near::mark_near(side, automaton, look, changed, marks, spare);
    }
    true
}

/// Rows of marks to work with: the states that are still to be tried, those whose rows lost pairs,
/// and one row that is free.
#[derive(Drop)]
struct Marks {
    tried: Vec<u64>,
    changed: Vec<u64>,
    spare: Vec<u64>,
}

impl Marks {
    /// Rows for so many states, with no mark.
    fn new(alloc: Global, states: u32) -> Result<Marks, Memory>
        ensures { IfOk result (HasRowsFor states) }
    {
        let width = rows::words_for(states);
        Ok(Marks {
            tried: vec![in alloc; 0; width]?,
            changed: vec![in alloc; 0; width]?,
            spare: vec![in alloc; 0; width]?,
        })
    }
}

/// Takes pairs away until each that is left has its round, and tells that; or until the pair that
/// is asked for is lost. Where a pair is asked for the rows are swept over at first. Then a row is
/// tried again only if one that is reached from it within the lookahead has lost a pair.
fn narrow<S: Side>(
    alloc: Global,
    side: &S,
    automaton: &Auto,
    look: u32,
    asked: Option<Pair>,
    rel: &mut Rel,
) -> Result<bool, Memory>
    requires look_from { 1 ≤ look }
    requires look_upto { look ≤ 6 }
    requires asked_states { IfSome
        asked (λ pair. (pair.left < automaton.now.states) × (pair.right < automaton.now.states)) }
    requires equal { rel.old.size ≡ automaton.now.states }
    ensures takes { IfOk
        result (λ stays.
        TakesAway (S.goes side.now automaton.now) (S.matches side.now automaton.now) look rel.old
        rel.new) }
    ensures rounds { IfOk
        result (λ stays.
        stays ≡ true → (p : ℕ)
        → HasRounds (S.goes side.now automaton.now) (S.matches side.now automaton.now) look rel.new
        p) }
    ensures lost { IfOk result (λ stays. stays ≡ false → IsLost rel.new.pairs asked) }
{
    let mut scratch = Scratch::new(alloc, automaton, look)?;
    let mut marks = Marks::new(alloc, automaton.states())?;
    let mut visits = Visits::new(alloc, side, automaton, rel)?;
    let order = rows_to_sweep(alloc, side, automaton, asked, &mut marks.tried)?;
    sweep_often(
        side,
        automaton,
        look,
        asked,
        &order,
        rel,
        &mut scratch,
        &mut visits,
    );
    if is_lost(rel, asked) {
        return Ok(false);
    }
    Ok(settle(
        side,
        automaton,
        look,
        asked,
        rel,
        &mut scratch,
        &mut marks.tried,
        &mut marks.changed,
        &mut marks.spare,
        &mut visits,
    ))
}

/// The greatest relation at this lookahead, sought inside a relation that has each stable list
/// inside; or None, where a pair is asked for that no stable list has.
fn greatest_within<S: Side>(
    alloc: Global,
    side: &S,
    automaton: &Auto,
    look: u32,
    asked: Option<Pair>,
    first: Rel,
) -> Result<Option<Rel>, Memory>
    requires look_from { 1 ≤ look }
    requires look_upto { look ≤ 6 }
    requires asked_states { IfSome
        asked (λ pair. (pair.left < automaton.now.states) × (pair.right < automaton.now.states)) }
    requires size { first.size ≡ automaton.now.states }
    requires stable { HasStable (S.goes side.now automaton.now) (S.matches side.now automaton.now)
        look automaton.now.states first.pairs }
    ensures size { IfOk result (λ found. IfSome found (λ r. r.size ≡ automaton.now.states)) }
    ensures greatest { IfOk
        result (λ found.
        IfSome found (λ r.
        IsGreatest (S.goes side.now automaton.now) (S.goes side.now automaton.now)
        (S.matches side.now automaton.now) look automaton.now.states automaton.now.states
        r.pairs)) }
    ensures none { IfOk
        result (λ found.
        found ≡ None
        → IsNeverKept (S.goes side.now automaton.now) (S.matches side.now automaton.now) look
        automaton.now.states asked) }
{
    if is_lost(&first, asked) {
        return Ok(None);
    }
    let mut kept = first;
    if narrow(alloc, side, automaton, look, asked, &mut kept)? {
        Ok(Some(kept))
    } else {
        Ok(None)
    }
}

/// The same where no pair is asked for.
fn found<S: Side>(
    alloc: Global,
    side: &S,
    automaton: &Auto,
    look: u32,
    first: Rel,
) -> Result<Rel, Memory>
    requires look_from { 1 ≤ look }
    requires look_upto { look ≤ 6 }
    requires size { first.size ≡ automaton.now.states }
    requires stable { HasStable (S.goes side.now automaton.now) (S.matches side.now automaton.now)
        look automaton.now.states first.pairs }
    ensures size { IfOk result (λ r. r.size ≡ automaton.now.states) }
    ensures greatest { IfOk
        result (λ r.
        IsGreatest (S.goes side.now automaton.now) (S.goes side.now automaton.now)
        (S.matches side.now automaton.now) look automaton.now.states automaton.now.states r.pairs) }
{
    match greatest_within(alloc, side, automaton, look, None, first)? {
        Some(rel) => Ok(rel),
        None => unreachable!(),
    }
}

/// The greatest relation on the automaton's states each of whose pairs matches and has its round at
/// this lookahead. It is sought inside the bound by short words.
pub fn greatest<S: Side>(
    alloc: Global,
    side: &S,
    automaton: &Auto,
    look: u32,
) -> Result<Rel, Memory>
    requires look_from { 1 ≤ look }
    requires look_upto { look ≤ 6 }
    ensures size { IfOk result (λ r. r.size ≡ automaton.now.states) }
    ensures greatest { IfOk
        result (λ r.
        IsGreatest (S.goes side.now automaton.now) (S.goes side.now automaton.now)
        (S.matches side.now automaton.now) look automaton.now.states automaton.now.states r.pairs) }
{
    let first = bound(alloc, side, automaton)?;
    found(alloc, side, automaton, look, first)
}

/// The greatest relation at this lookahead, if it has this pair, and None where no stable list has
/// it: the search ends once the pair is lost. Some rounds are played on from the pair inside the
/// bound before all pairs are tried.
pub fn greatest_with<S: Side>(
    alloc: Global,
    side: &S,
    automaton: &Auto,
    look: u32,
    left: u32,
    right: u32,
) -> Result<Option<Rel>, Memory>
    requires look_from { 1 ≤ look }
    requires look_upto { look ≤ 6 }
    requires left { left < automaton.now.states }
    requires right { right < automaton.now.states }
    ensures size { IfOk result (λ found. IfSome found (λ r. r.size ≡ automaton.now.states)) }
    ensures greatest { IfOk
        result (λ found.
        IfSome found (λ r.
        IsGreatest (S.goes side.now automaton.now) (S.goes side.now automaton.now)
        (S.matches side.now automaton.now) look automaton.now.states automaton.now.states
        r.pairs)) }
    ensures has { IfOk result (λ found. IfSome found (λ r. Holds r.pairs left right)) }
    ensures lacks { IfOk result (λ found. found ≡ None → (T : List (ℕ × ℕ))
        → ArePairsBelow automaton.now.states automaton.now.states T
        → Stable (S.goes side.now automaton.now) (S.goes side.now automaton.now) (S.matches side.now automaton.now) look (Holds T)
        → Holds T left right
        → ⊥) }
{
    let asked = Pair { left, right };
    if !may_stay(alloc, side, automaton, look, asked)? {
        return Ok(None);
    }
    let all = bound(alloc, side, automaton)?;
    let first = played_on(alloc, side, automaton, look, asked, all)?;
    match greatest_within(alloc, side, automaton, look, Some(asked), first)? {
        Some(rel) => {
            if rel.get(left, right) {
                Ok(Some(rel))
            } else {
                Ok(None)
            }
        }
        None => Ok(None),
    }
}

/// The greatest relation at lookahead 1, sought inside the one at a larger lookahead: what is
/// stable at lookahead 1 is stable at each.
pub fn greatest_at_one<S: Side>(
    alloc: Global,
    side: &S,
    automaton: &Auto,
    look: u32,
    wider: Rel,
) -> Result<Rel, Memory>
    requires look { 1 ≤ look }
    requires size { wider.size ≡ automaton.now.states }
    requires wider { IsGreatest (S.goes side.now automaton.now) (S.goes side.now automaton.now)
        (S.matches side.now automaton.now) look automaton.now.states automaton.now.states
        wider.pairs }
    ensures size { IfOk result (λ r. r.size ≡ automaton.now.states) }
    ensures greatest { IfOk
        result (λ r.
        IsGreatest (S.goes side.now automaton.now) (S.goes side.now automaton.now)
        (S.matches side.now automaton.now) 1 automaton.now.states automaton.now.states r.pairs) }
{
    if look == 1 {
        return Ok(wider);
    }
    found(alloc, side, automaton, 1, wider)
}
