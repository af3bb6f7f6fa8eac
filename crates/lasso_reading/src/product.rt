//! The product as an automaton.

ghost use Rattle.std.specs.Prelude.{◌≡◌, ◌<◌, ◌≤◌, ◌^◌, ◌++◌, length, None, IfOk, IfSome};
ghost use Rattle.lasso_reading.specs.Reading.{ReadsJust, AreMoreRead};

use crate::factors::Factors;
use crate::made::Made;
use auto_core::{Auto, Memory, of_parts};
use std::alloc::Global;

/// The product of the automaton with the lasso of classes, which accepts just the lassos that the
/// automaton accepts and whose classes spell the same. None where more than `limit` pairs of a
/// state and a position are reached. 2^32 moves and more are refused as memory.
pub fn product_with(
    alloc: Global,
    automaton: &Auto,
    classes: &[u32],
    prefix: &[u32],
    turn: &[u32],
    limit: u32,
) -> Result<Option<Auto>, Memory>
    requires classes { length classes.now ≡ automaton.now.labels }
    requires turn { 1 ≤ length turn.now }
    requires few { length (prefix.now ++ turn.now) < 2 ^ 32 }
    ensures labels { IfOk result (λ r. IfSome r (λ P. P.labels ≡ automaton.now.labels)) }
    ensures reads { IfOk
        result (λ r. IfSome r (ReadsJust automaton.now classes.now prefix.now turn.now)) }
    ensures few { IfOk result (λ r. IfSome r (λ P. P.states ≤ limit)) }
    ensures none { result ≡ Ok None
        → AreMoreRead automaton.now classes.now prefix.now turn.now limit }
{
    let factors = Factors {
        automaton,
        classes,
        prefix,
        turn,
    };
    let mut made = Made::new(alloc, &factors)?;
    if !made.expand_all(&factors, limit)? {
        return Ok(None);
    }
    let count = made.pairs.len() as u32;
    let accepting = made.accepting(alloc, automaton, count)?;
    let labels = automaton.labels();
    let product = of_parts(alloc, count, labels, 0, &made.moves, &accepting)?;
    Ok(Some(product))
}
