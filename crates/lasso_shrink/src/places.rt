//! The first letter of a lasso's prefix that can go: the states before it against the states from
//! which the rest is accepted.

ghost use Rattle.std.specs.Prelude.{◌≡◌, ◌+◌, ◌/◌, ◌<◌, ◌↔◌, ℕ, length, take, IfOk, IsTrue, MatchOption};
ghost use Rattle.auto_core.specs.Accept.{AcceptsLasso, SeparatesLasso};
ghost use Rattle.lasso_shrink.specs.Shrinking.{word_without};
ghost use Rattle.lasso_shrink.specs.Prefixes.{IsFront, AreKept, IsFirstPlace, PrefixNeedsEach};

use crate::rests::Rests;
use auto_core::{Auto, Lasso, Memory, rows};
use bit_rows::meets;
use set_rows::{write_after, write_one};
use std::alloc::Global;

/// Tells whether the automaton accepts the lasso without its prefix's letter at the place. The
/// front has the states that the letters before lead to.
fn accepts_without(
    automaton: &Auto,
    lasso: &Lasso,
    place: usize,
    rests: &Rests,
    front: &[u64],
) -> bool
    requires place_in { place < length lasso.now.prefix }
    requires rests { AreKept automaton.now lasso.now.prefix lasso.now.turn rests.now }
    requires front { IsFront automaton.now (take place lasso.now.prefix) front.now }
    ensures { IsTrue result
        ↔ AcceptsLasso automaton.now (word_without lasso.now.prefix place) lasso.now.turn }
{
    let width = rows::words_for(automaton.states());
    let rest = rows::row_at(&rests.table, width, rests.first + place + 1);
    meets(front, rest)
}

/// Moves the front past the prefix's letter at the place. The other row is used on the way.
fn go_on(automaton: &Auto, lasso: &Lasso, place: usize, front: &mut [u64], next: &mut [u64])
    requires place_in { place < length lasso.now.prefix }
    requires front { IsFront automaton.now (take place lasso.now.prefix) front.old }
    requires next_len { length next.old ≡ (automaton.now.states + 63) / 64 }
    ensures { IsFront automaton.now (take (place + 1) lasso.now.prefix) front.new }
{
    write_after(automaton, lasso.prefix.as_slice()[place], front, next);
    front.copy_from_slice(next);
}

/// Tells whether the lasso without its prefix's letter at the place still separates the automata.
fn separates_without(
    first: &Auto,
    second: &Auto,
    lasso: &Lasso,
    place: usize,
    rests: &Rests,
    other_rests: &Rests,
    front: &[u64],
    other_front: &[u64],
) -> bool
    requires place_in { place < length lasso.now.prefix }
    requires rests { AreKept first.now lasso.now.prefix lasso.now.turn rests.now }
    requires other_rests { AreKept second.now lasso.now.prefix lasso.now.turn other_rests.now }
    requires front { IsFront first.now (take place lasso.now.prefix) front.now }
    requires other_front { IsFront second.now (take place lasso.now.prefix) other_front.now }
    ensures { IsTrue result
        ↔ SeparatesLasso first.now second.now (word_without lasso.now.prefix place) lasso.now.turn }
{
    if !accepts_without(first, lasso, place, rests, front) {
        return false;
    }
    let other = accepts_without(second, lasso, place, other_rests, other_front);
    !other
}

/// The first place of the prefix whose letter can go, by one pass from the prefix's beginning. The
/// last four rows are used on the way.
fn find_place(
    first: &Auto,
    second: &Auto,
    lasso: &Lasso,
    rests: &Rests,
    other_rests: &Rests,
    front: &mut [u64],
    next: &mut [u64],
    other_front: &mut [u64],
    other_next: &mut [u64],
) -> Option<usize>
    requires rests { AreKept first.now lasso.now.prefix lasso.now.turn rests.now }
    requires other_rests { AreKept second.now lasso.now.prefix lasso.now.turn other_rests.now }
    requires front_len { length front.old ≡ (first.now.states + 63) / 64 }
    requires next_len { length next.old ≡ (first.now.states + 63) / 64 }
    requires other_front_len { length other_front.old ≡ (second.now.states + 63) / 64 }
    requires other_next_len { length other_next.old ≡ (second.now.states + 63) / 64 }
    ensures { MatchOption result (PrefixNeedsEach first.now second.now lasso.now)
        (IsFirstPlace first.now second.now lasso.now) }
{
    write_one(first.states(), first.initial(), front);
    write_one(second.states(), second.initial(), other_front);
    for place in 0..lasso.prefix.as_slice().len() {
        if separates_without(
            first,
            second,
            lasso,
            place,
            rests,
            other_rests,
            front,
            other_front,
        ) {
            return Some(place);
        }
        go_on(first, lasso, place, front, next);
        go_on(second, lasso, place, other_front, other_next);
    }
    None
}

/// A row for the automaton's states.
fn row_for(alloc: Global, automaton: &Auto) -> Result<Vec<u64>, Memory>
    ensures { IfOk result (λ row. length row.items ≡ (automaton.now.states + 63) / 64) }
{
    Ok(vec![in alloc; 0; rows::words_for(automaton.states())]?)
}

/// The first place of the prefix whose letter can go.
pub fn first_place(
    alloc: Global,
    first: &Auto,
    second: &Auto,
    lasso: &Lasso,
    rests: &Rests,
    other_rests: &Rests,
) -> Result<Option<usize>, Memory>
    requires rests { AreKept first.now lasso.now.prefix lasso.now.turn rests.now }
    requires other_rests { AreKept second.now lasso.now.prefix lasso.now.turn other_rests.now }
    ensures { IfOk
        result (λ place.
        MatchOption place (PrefixNeedsEach first.now second.now lasso.now)
        (IsFirstPlace first.now second.now lasso.now)) }
{
    let mut front = row_for(alloc, first)?;
    let mut next = row_for(alloc, first)?;
    let mut other_front = row_for(alloc, second)?;
    let mut other_next = row_for(alloc, second)?;
    Ok(find_place(
        first,
        second,
        lasso,
        rests,
        other_rests,
        &mut front,
        &mut next,
        &mut other_front,
        &mut other_next,
    ))
}
