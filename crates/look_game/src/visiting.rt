//! A visit of one row of a relation: its pairs that do not have their round are found first, and
//! then taken away.

ghost use Rattle.std.specs.Prelude.{◌≡◌, ◌+◌, ◌/◌, ◌^◌, ◌<◌, ◌≤◌, ℕ, true, false, length, IfOk};
ghost use Rattle.auto_core.specs.Rows.{HasBit};
ghost use Rattle.auto_core.specs.Game.{Round, Holds};
ghost use Rattle.bit_rel.specs.Relation.{IsRelation};
ghost use Rattle.look_round.specs.Answering.{AreRowsOfAnswers};
ghost use Rattle.look_game.specs.Near.{IsReachedWithin};
ghost use Rattle.look_game.specs.Taking.{TakesAway, TakesSome, KeepsOthers, HasRounds};
ghost use Rattle.look_game.specs.Visiting.{IsRoomFor, TakesRow};

use auto_core::{Auto, Memory, rows};
use bit_rel::Rel;
use bit_rows::next_bit;
use look_round::{Answering, Scratch, Side, round_holds_by};
use std::alloc::Global;

/// Room for visits, and what is answered at once.
#[derive(Drop)]
pub struct Visits {
    answering: Answering,
    rest: Vec<u64>,
    lost: Vec<u64>,
}

/// Marks in `lost` the states of the row `rest` with which `p` does not have its round.
fn find_lost<S: Side>(
    side: &S,
    automaton: &Auto,
    rel: &Rel,
    answering: &Answering,
    look: u32,
    p: u32,
    rest: &[u64],
    lost: &mut [u64],
    scratch: &mut Scratch,
)
    requires look_from { 1 ≤ look }
    requires look_upto { look ≤ 6 }
    requires equal { rel.now.size ≡ automaton.now.states }
    requires made { scratch.old ≡ record { states = automaton.now.states; look = look } }
    requires answers { AreRowsOfAnswers (S.goes side.now automaton.now)
        (S.matches side.now automaton.now) (Holds rel.now.pairs) automaton.now.states
        answering.now }
    requires state { p < automaton.now.states }
    requires few { automaton.now.states < 2 ^ 32 }
    requires rest_len { length rest.now ≡ (automaton.now.states + 63) / 64 }
    requires rest { (q : ℕ) → HasBit rest.now q → q < automaton.now.states }
    requires lost { length lost.old ≡ (automaton.now.states + 63) / 64 }
    ensures lost { (q : ℕ) → HasBit lost.new q → HasBit rest.now q
        × (Round (S.goes side.now automaton.now) (S.goes side.now automaton.now) (S.matches side.now automaton.now) look (Holds rel.now.pairs) p q → ⊥) }
    ensures rounds { (q : ℕ) → HasBit rest.now q → (HasBit lost.new q → ⊥)
        → Round (S.goes side.now automaton.now) (S.goes side.now automaton.now) (S.matches side.now automaton.now) look (Holds rel.now.pairs) p q }
    ensures len { length lost.new ≡ length lost.old }
    ensures scratch { scratch.new ≡ scratch.old }
{
    rows::clear_row(lost);
    let mut at = 0;
    while let Some(q) = next_bit(rest, at) {
        if !round_holds_by(side, automaton, rel, answering, look, p, q as u32, scratch) {
            rows::set_bit(lost, q);
        }
        at = q + 1;
    }
}

/// Takes away the pairs of `p` with the states of the row, which it has, and tells whether there
/// are any.
fn take_lost(rel: &mut Rel, p: u32, lost: &[u64]) -> bool
    requires state { p < rel.old.size }
    requires few { rel.old.size < 2 ^ 32 }
    requires len { length lost.now < 2 ^ 32 }
    requires held { (q : ℕ) → HasBit lost.now q → Holds rel.old.pairs p q }
    requires valid { IsRelation rel.old }
    ensures takes { TakesRow p lost.now rel.old rel.new }
    ensures some { result ≡ true → TakesSome rel.old rel.new }
    ensures same { result ≡ false → rel.new ≡ rel.old }
    ensures none { result ≡ false → (q : ℕ) → HasBit lost.now q → ⊥ }
{
    let mut changed = false;
    let mut at = 0;
    while let Some(q) = next_bit(lost, at) {
        rel.clear(p, q as u32);
        changed = true;
        at = q + 1;
    }
    changed
}

impl Visits {
    /// Room for visits of the relation's rows.
    pub fn new<S: Side>(
        alloc: Global,
        side: &S,
        automaton: &Auto,
        rel: &Rel,
    ) -> Result<Visits, Memory>
        requires equal { rel.now.size ≡ automaton.now.states }
        ensures { IfOk result
            (IsRoomFor (S.goes side.now automaton.now) (S.matches side.now automaton.now)
            (Holds rel.now.pairs) automaton.now.states) }
    {
        let width = rows::words_for(automaton.states());
        Ok(Visits {
            answering: Answering::new(alloc, side, automaton, rel)?,
            rest: vec![in alloc; 0; width]?,
            lost: vec![in alloc; 0; width]?,
        })
    }
}

/// Takes away the pairs of `p` that do not have their round, and tells whether there were any. The
/// two rows are room.
fn try_row<S: Side>(
    side: &S,
    automaton: &Auto,
    look: u32,
    rel: &mut Rel,
    scratch: &mut Scratch,
    p: u32,
    answering: &mut Answering,
    rest: &mut [u64],
    lost: &mut [u64],
) -> bool
    requires look_from { 1 ≤ look }
    requires look_upto { look ≤ 6 }
    requires equal { rel.old.size ≡ automaton.now.states }
    requires made { scratch.old ≡ record { states = automaton.now.states; look = look } }
    requires state { p < automaton.now.states }
    requires few { automaton.now.states < 2 ^ 32 }
    requires valid { IsRelation rel.old }
    requires answers { AreRowsOfAnswers (S.goes side.now automaton.now)
        (S.matches side.now automaton.now) (Holds rel.old.pairs) automaton.now.states
        answering.old }
    requires rest { length rest.old ≡ (automaton.now.states + 63) / 64 }
    requires lost { length lost.old ≡ (automaton.now.states + 63) / 64 }
    ensures takes { TakesAway (S.goes side.now automaton.now) (S.matches side.now automaton.now)
        look rel.old rel.new }
    ensures some { result ≡ true → TakesSome rel.old rel.new }
    ensures same { result ≡ false → rel.new ≡ rel.old }
    ensures rounds { result ≡ false
        → HasRounds (S.goes side.now automaton.now) (S.matches side.now automaton.now) look rel.new
        p }
    ensures others { KeepsOthers p rel.old rel.new }
    ensures apart { (IsReachedWithin (S.goes side.now automaton.now) look p p → ⊥)
        → HasRounds (S.goes side.now automaton.now) (S.matches side.now automaton.now) look rel.new p }
    ensures answers { AreRowsOfAnswers (S.goes side.now automaton.now)
        (S.matches side.now automaton.now) (Holds rel.new.pairs) automaton.now.states
        answering.new }
    ensures scratch { scratch.new ≡ scratch.old }
{
    answering.unanswered(side, automaton, rel, p, rest);
    find_lost(
        side, automaton, rel, answering, look, p, rest, lost, scratch,
    );
    let changed = take_lost(rel, p, lost);
    answering.forget(side, automaton, rel, p, lost);
    changed
}

/// Takes away the pairs of `p` that do not have their round, and tells whether there were any.
pub fn visit_row<S: Side>(
    side: &S,
    automaton: &Auto,
    look: u32,
    rel: &mut Rel,
    scratch: &mut Scratch,
    p: u32,
    visits: &mut Visits,
) -> bool
    requires look_from { 1 ≤ look }
    requires look_upto { look ≤ 6 }
    requires equal { rel.old.size ≡ automaton.now.states }
    requires made { scratch.old ≡ record { states = automaton.now.states; look = look } }
    requires state { p < automaton.now.states }
    requires few { automaton.now.states < 2 ^ 32 }
    requires valid { IsRelation rel.old }
    requires ready { IsRoomFor (S.goes side.now automaton.now) (S.matches side.now automaton.now)
        (Holds rel.old.pairs) automaton.now.states visits.old }
    ensures takes { TakesAway (S.goes side.now automaton.now) (S.matches side.now automaton.now)
        look rel.old rel.new }
    ensures some { result ≡ true → TakesSome rel.old rel.new }
    ensures same { result ≡ false → rel.new ≡ rel.old }
    ensures rounds { result ≡ false
        → HasRounds (S.goes side.now automaton.now) (S.matches side.now automaton.now) look rel.new
        p }
    ensures others { KeepsOthers p rel.old rel.new }
    ensures apart { (IsReachedWithin (S.goes side.now automaton.now) look p p → ⊥)
        → HasRounds (S.goes side.now automaton.now) (S.matches side.now automaton.now) look rel.new p }
    ensures scratch { scratch.new ≡ scratch.old }
    ensures ready { IsRoomFor (S.goes side.now automaton.now) (S.matches side.now automaton.now)
        (Holds rel.new.pairs) automaton.now.states visits.new }
{
    try_row(
        side,
        automaton,
        look,
        rel,
        scratch,
        p,
        &mut visits.answering,
        &mut visits.rest,
        &mut visits.lost,
    )
}
