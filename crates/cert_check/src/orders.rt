//! The relation of a certificate of inclusion: whether it names states, and whether it is stable.

ghost use Rattle.std.specs.Prelude.{ℕ, List, IfOk};
ghost use Rattle.log_check.specs.Checks.{Tells};
ghost use Rattle.cert_check.specs.Inclusion.{order_checks};
ghost use Rattle.cert_check.specs.Supers.{IsEvidenceOrder};

use auto_core::Auto;
use bit_rel::Rel;
use cert_value::YesBody;
use log_check::{CheckFault, Refusal, is_block_below, is_stable, relation_of};
use look_round::Forward;
use shared_graphs::Memo;
use std::alloc::Global;

/// How many answers about pairs of graphs are remembered.
const PAIRS: usize = 16384;

/// The relation of a certificate, and which graphs cover which by it, as far as that is remembered.
#[derive(Drop)]
pub struct Order {
    /// The relation.
    pub rel: Rel,
    /// Of pairs of graphs whether the first covers the second.
    pub covers: Memo,
}

/// The relation that the certificate lists, if it is one of states and stable forward at lookahead
/// 1.
pub fn checked_order(
    alloc: Global,
    second: &Auto,
    evidence: &YesBody,
    item: u32,
) -> Result<Order, CheckFault>
    ensures tells { Tells (order_checks second.now evidence.now item) result }
    ensures order { IfOk
        result (λ order.
        (graphs : List (List ℕ)) → IsEvidenceOrder second.now evidence.now graphs order) }
{
    let states = second.states();
    if !is_block_below(states, &evidence.order) {
        return Err(CheckFault::Refused(Refusal { rule: 1, item }));
    }
    let rel = relation_of(alloc, states, &evidence.order)?;
    if !is_stable(alloc, &Forward, second, &rel, 1)? {
        return Err(CheckFault::Refused(Refusal { rule: 9, item }));
    }
    let covers = Memo::new(alloc, PAIRS)?;
    Ok(Order { rel, covers })
}
