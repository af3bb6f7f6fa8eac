//! What a certificate claims, by how the search ends.

ghost use Rattle.std.specs.Prelude.{◌≡◌, ◌≤◌, IfOk};
ghost use Rattle.auto_core.specs.Game.{IsGreatestForward};
ghost use Rattle.auto_core.specs.declared.parts.Mode.TheVariants.{Buchi, Finite};
ghost use Rattle.decide.specs.Bodies.{IsFoundBody, IsListWith, IsYesWith};

use crate::logs::Logs;
use crate::rows::block_of;
use crate::terms::Terms;
use antichain::WordOutcome;
use auto_core::{Auto, List, Memory, Mode, Origin};
use bit_rel::Rel;
use cert_value::{Body, ListBody, YesBody};
use evidence::Closure;
use ramsey_search::Outcome;
use std::alloc::Global;

/// The evidence of a closed set.
fn yes_of(alloc: Global, logs: Logs, closure: Closure, order: &Rel) -> Result<Body, Memory>
    requires { order.now.size ≤ 512 }
    ensures { IfOk result (IsYesWith logs order.now.pairs closure) }
{
    Ok(Body::Yes(YesBody {
        first: logs.first,
        second: logs.second,
        order: block_of(alloc, order)?,
        elements: closure.elements,
        cover: closure.cover,
        steps: closure.steps,
    }))
}

/// The list of the elements of these origins.
fn list_of(logs: Logs, terms: Terms, origins: List<Origin>) -> Body
    ensures { IsListWith logs terms origins result }
{
    Body::Listing(ListBody {
        first: logs.first,
        second: logs.second,
        limit: terms.limit,
        elements: origins,
    })
}

/// The body of the certificate for how the search of the mode ends on the two automata, over
/// supergraphs or over pairs of a state and a set, behind these logs.
pub(crate) fn body_of(
    alloc: Global,
    first: &Auto,
    second: &Auto,
    order: &Rel,
    terms: Terms,
    logs: Logs,
) -> Result<Body, Memory>
    requires few { order.now.size ≤ 512 }
    requires labels { first.now.labels ≡ second.now.labels }
    requires order_size { order.now.size ≡ second.now.states }
    requires greatest { IsGreatestForward second.now 1 order.now.pairs }
    requires limit_from { 1 ≤ terms.limit }
    requires limit_upto { terms.limit ≤ 100000 }
    ensures { IfOk result (IsFoundBody first.now second.now logs terms order.now.pairs) }
{
    match terms.mode {
        Mode::Buchi => match ramsey_search::search(alloc, first, second, order, terms.limit)? {
            Outcome::Closed(closure) => yes_of(alloc, logs, closure, order),
            Outcome::Apart(lasso) => Ok(Body::NoLasso(lasso)),
            Outcome::Limit(origins) => Ok(list_of(logs, terms, origins)),
        },
        Mode::Finite => match antichain::search(alloc, first, second, order, terms.limit)? {
            WordOutcome::Closed(closure) => yes_of(alloc, logs, closure, order),
            WordOutcome::Apart(word) => Ok(Body::NoWord(word)),
            WordOutcome::Limit(origins) => Ok(list_of(logs, terms, origins)),
        },
    }
}
