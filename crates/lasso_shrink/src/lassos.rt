//! Shorter lassos.

ghost use Rattle.std.specs.Prelude.{◌≡◌, ◌<◌, ◌↔◌, IfOk, IsTrue, MatchOption};
ghost use Rattle.auto_core.specs.Accept.{SeparatesLasso};
ghost use Rattle.lasso_accept.specs.Tails.{HasTails};
ghost use Rattle.lasso_shrink.specs.Shrinking.{letters_of, lasso_without, LassoSeparates, LassoLeavesOne, LassoNeedsEach, IsShrunkLasso};
ghost use Rattle.lasso_shrink.specs.Prefixes.{AreKept, PrefixNeedsEach, PrefixIsShrunk};

use crate::copying::{copied, without};
use crate::places::first_place;
use crate::rests::Rests;
use auto_core::{Auto, Lasso, Memory};
use lasso_accept::{Tails, accepts_loop_from};
use std::alloc::Global;

/// Tells whether the first automaton accepts the lasso and the second does not.
fn separates(
    alloc: Global,
    first: &Auto,
    second: &Auto,
    lasso: &Lasso,
    tails: &mut Tails,
    other_tails: &mut Tails,
) -> Result<bool, Memory>
    requires tails { HasTails first.now tails.old }
    requires other_tails { HasTails second.now other_tails.old }
    ensures told { IfOk
        result (λ told. IsTrue told ↔ LassoSeparates first.now second.now lasso.now) }
    ensures tails { IfOk result (λ _. HasTails first.now tails.new) }
    ensures other_tails { IfOk result (λ _. HasTails second.now other_tails.new) }
{
    if !tails.accepts_lasso(alloc, first, lasso)? {
        return Ok(false);
    }
    let other = other_tails.accepts_lasso(alloc, second, lasso)?;
    Ok(!other)
}

/// The lasso without its letter at the place.
fn left_without(alloc: Global, lasso: &Lasso, place: usize) -> Result<Lasso, Memory>
    requires { place < letters_of lasso.now }
    ensures { IfOk result (λ left. left ≡ lasso_without lasso.now place) }
{
    let prefix = lasso.prefix.as_slice();
    let turn = lasso.turn.as_slice();
    if place < prefix.len() {
        let prefix = without(alloc, prefix, place)?;
        let turn = copied(alloc, turn)?;
        return Ok(Lasso { prefix, turn });
    }
    let turn = without(alloc, turn, place - prefix.len())?;
    let prefix = copied(alloc, prefix)?;
    Ok(Lasso { prefix, turn })
}

/// What is kept of the rests of the lasso. Where its loop is accepted from is found once.
fn rests_of(alloc: Global, automaton: &Auto, lasso: &Lasso) -> Result<Rests, Memory>
    ensures { IfOk result (AreKept automaton.now lasso.now.prefix lasso.now.turn) }
{
    let target = accepts_loop_from(alloc, automaton, lasso.turn.as_slice())?;
    Rests::of(alloc, automaton, lasso, &target)
}

/// The lasso that is left if, as long as some letter of its prefix can go, the first such letter is
/// left out.
fn shrink_prefix(alloc: Global, first: &Auto, second: &Auto, lasso: Lasso) -> Result<Lasso, Memory>
    requires { LassoSeparates first.now second.now lasso }
    ensures { IfOk result (PrefixIsShrunk first.now second.now lasso) }
{
    if lasso.prefix.as_slice().len() == 0 {
        return Ok(lasso);
    }
    let mut rests = rests_of(alloc, first, &lasso)?;
    let mut other_rests = rests_of(alloc, second, &lasso)?;
    let mut current = lasso;
    let mut place = first_place(alloc, first, second, &current, &rests, &other_rests)?;
    while let Some(at) = place {
        rests.leave_out(first, &current, at);
        other_rests.leave_out(second, &current, at);
        current = left_without(alloc, &current, at)?;
        place = first_place(alloc, first, second, &current, &rests, &other_rests)?;
    }
    Ok(current)
}

/// The lasso without the first letter of its loop that can go, if any can; of its prefix none can.
fn shorter(
    alloc: Global,
    first: &Auto,
    second: &Auto,
    lasso: &Lasso,
    tails: &mut Tails,
    other_tails: &mut Tails,
) -> Result<Option<Lasso>, Memory>
    requires needed { PrefixNeedsEach first.now second.now lasso.now }
    requires tails { HasTails first.now tails.old }
    requires other_tails { HasTails second.now other_tails.old }
    ensures tails { IfOk result (λ _. HasTails first.now tails.new) }
    ensures other_tails { IfOk result (λ _. HasTails second.now other_tails.new) }
    ensures left { IfOk
        result (λ left.
        MatchOption left (LassoNeedsEach first.now second.now lasso.now)
        (LassoLeavesOne first.now second.now lasso.now)) }
{
    let prefix = lasso.prefix.as_slice().len();
    for place in prefix..prefix + lasso.turn.as_slice().len() {
        let left = left_without(alloc, lasso, place)?;
        if separates(alloc, first, second, &left, tails, other_tails)? {
            return Ok(Some(left));
        }
    }
    Ok(None)
}

/// The lasso that is left if, as long as some letter can go so that what is left still separates
/// the automata, the first such letter is left out, the prefix's letters before the loop's. The
/// loop keeps a letter.
pub fn shrink(alloc: Global, first: &Auto, second: &Auto, lasso: &Lasso) -> Result<Lasso, Memory>
    requires { SeparatesLasso first.now second.now lasso.now.prefix lasso.now.turn }
    ensures exact { IfOk result (IsShrunkLasso first.now second.now lasso.now) }
    ensures separates { IfOk result (LassoSeparates first.now second.now) }
    ensures each_needed { IfOk result (LassoNeedsEach first.now second.now) }
{
    let prefix = copied(alloc, lasso.prefix.as_slice())?;
    let turn = copied(alloc, lasso.turn.as_slice())?;
    let mut current = shrink_prefix(alloc, first, second, Lasso { prefix, turn })?;
    let mut tails = Tails::new(alloc);
    let mut other_tails = Tails::new(alloc);
    let mut next = shorter(alloc, first, second, &current, &mut tails, &mut other_tails)?;
    while let Some(left) = next {
        current = shrink_prefix(alloc, first, second, left)?;
        next = shorter(alloc, first, second, &current, &mut tails, &mut other_tails)?;
    }
    Ok(current)
}
