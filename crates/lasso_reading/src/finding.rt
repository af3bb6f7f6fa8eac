//! A lasso that is accepted, and whose classes spell a lasso of classes.

ghost use Rattle.std.specs.Prelude.{◌≡◌, ◌^◌, ◌<◌, ◌≤◌, ◌++◌, length, None, IfOk, IfSome};
ghost use Rattle.auto_core.specs.Automaton.{IsAutomaton};
ghost use Rattle.auto_core.specs.Accept.{AcceptsLasso};
ghost use Rattle.lasso_reading.specs.Finding.{HasNoMoves, AcceptsNone, LassoIsRight, RejectedIsRight, LimitIsRight};

use crate::product::product_with;
use auto_core::{Auto, Lasso, Memory, Mode, of_parts};
use product_search::{Product, decide};
use std::alloc::Global;
use useful_states::trim;

/// What an automaton says of the lassos whose classes spell a lasso of classes.
#[derive(Debug, Drop)]
pub enum Answer {
    /// It accepts this one.
    Accepted(Lasso),
    /// It accepts none of them.
    Rejected,
    /// More pairs of a state and a position than the limit are reached.
    Limit,
}

/// The automaton of one state and no move.
fn without_moves(alloc: Global, labels: u32) -> Result<Auto, Memory>
    ensures none { IfOk result HasNoMoves }
    ensures valid { IfOk result IsAutomaton }
{
    of_parts(alloc, 1, labels, 0, &[], &[])
}

/// A lasso that the automaton accepts, if there is one. 2^32 - 2 states and more may be refused as
/// memory.
pub fn accepted_lasso(alloc: Global, automaton: &Auto) -> Result<Option<Lasso>, Memory>
    ensures some { IfOk
        result (λ r. IfSome r (λ lasso. AcceptsLasso automaton.now lasso.prefix lasso.turn)) }
    ensures none { result ≡ Ok None → AcceptsNone automaton.now }
{
    let first = trim(alloc, automaton, Mode::Buchi)?;
    let second = without_moves(alloc, automaton.labels())?;
    match decide(alloc, &first, &second, 0xffff_ffff)? {
        Product::Included(_) => Ok(None),
        Product::Apart(lasso) => Ok(Some(lasso)),
        Product::Limit => Err(Memory),
    }
}

/// A lasso that the automaton accepts and whose classes spell the same as the lasso of classes, if
/// there is one and at most `limit` pairs of a state and a position are reached. 2^32 moves and
/// more, and 2^32 - 2 pairs and more, may be refused as memory.
pub fn lasso_read(
    alloc: Global,
    automaton: &Auto,
    classes: &[u32],
    prefix: &[u32],
    turn: &[u32],
    limit: u32,
) -> Result<Answer, Memory>
    requires classes { length classes.now ≡ automaton.now.labels }
    requires turn { 1 ≤ length turn.now }
    requires few { length (prefix.now ++ turn.now) < 2 ^ 32 }
    ensures accepted { IfOk result (LassoIsRight automaton.now classes.now prefix.now turn.now) }
    ensures rejected { IfOk result (RejectedIsRight automaton.now classes.now prefix.now turn.now) }
    ensures limit { IfOk result (LimitIsRight automaton.now classes.now prefix.now turn.now limit) }
{
    match product_with(alloc, automaton, classes, prefix, turn, limit)? {
        Some(product) => match accepted_lasso(alloc, &product)? {
            Some(lasso) => Ok(Answer::Accepted(lasso)),
            None => Ok(Answer::Rejected),
        },
        None => Ok(Answer::Limit),
    }
}
