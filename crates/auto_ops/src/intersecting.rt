//! The intersection of two automata.

ghost use Rattle.std.specs.Prelude.{◌≡◌, ◌↔◌, ◌^◌, ◌<◌, ℕ, length, All, Contains, IfOk, Err};
ghost use Rattle.auto_core.specs.Automaton.{IsAutomaton, HasRepeat};
ghost use Rattle.auto_core.specs.Outcome.{At};
ghost use Rattle.auto_ops.specs.declared.fault.OpFault.{OpFault};
ghost use Rattle.auto_ops.specs.Limits.{IsSmallResult};
ghost use Rattle.auto_ops.specs.Intersection.{IsAcceptingProductState, IsIntersection, IsIntersectionTooLarge};
ghost use Rattle.auto_ops.specs.UnderWay.{IsInside, IsExplored};

use crate::fault::OpFault;
use crate::limits::MOST_LABELS;
use crate::product::Product;
use crate::product_states::{ProductState, accepts};
use auto_core::{Auto, Memory, Mode, of_parts};
use ba_format::Joined;
use std::alloc::Global;

/// The reached product states, with the transitions between them.
fn explore(alloc: Global, first: &Auto, second: &Auto, mode: Mode) -> Result<Product, OpFault>
    ensures explored { IfOk
        result (λ p.
        IsExplored mode first.now second.now p.product_states.items p.transitions.items) }
    ensures valid { IfOk result (λ _. IsAutomaton second.now) }
    ensures too_large { result ≡ Err OpFault.TooLarge
        → IsIntersectionTooLarge mode first.now second.now }
{
    let mut product = Product::start(alloc, first, second)?;
    let mut done = 0;
    while done < product.product_states.len() {
        let product_state = product.product_states[done];
        product.add_from(first, second, mode, done as u32, product_state)?;
        done += 1;
    }
    Ok(product)
}

/// The numbers of the accepting product states, ascending.
fn accepting_numbers(
    alloc: Global,
    first: &Auto,
    second: &Auto,
    mode: Mode,
    product_states: &[ProductState],
) -> Result<Vec<u32>, Memory>
    requires inside { All (IsInside first.now second.now) product_states.now }
    requires few { length product_states.now < 2 ^ 32 }
    ensures members { IfOk
        result (λ v.
        (n : ℕ) → Contains v.items n
        ↔ ((t : ProductState) × At product_states.now n t
        × IsAcceptingProductState mode first.now second.now t)) }
    ensures once { IfOk result (λ v. HasRepeat v.items → ⊥) }
{
    let mut made = Vec::new(alloc);
    for at in 0..product_states.len() {
        if accepts(first, second, mode, product_states[at]) {
            made.push(at as u32)?;
        }
    }
    Ok(made)
}

/// The intersection: its states are the reached product states of a state of the first, a state of
/// the second and, in Büchi mode, which of the two is awaited to be accepting, in the order in
/// which they are first seen. In finite mode none is awaited, and both have to be accepting.
/// `TooLarge` is the answer where it would have more than 2,048 states, 65,536 transitions or 256
/// labels.
pub fn intersect(alloc: Global, pair: &Joined, mode: Mode) -> Result<Auto, OpFault>
    requires first_labels { pair.now.first.labels ≡ length pair.now.labels }
    requires second_labels { pair.now.second.labels ≡ length pair.now.labels }
    ensures exact { IfOk result (IsIntersection mode pair.now.first pair.now.second) }
    ensures within { IfOk result IsSmallResult }
    ensures not_too_large { IfOk
        result (λ _. IsIntersectionTooLarge mode pair.now.first pair.now.second → ⊥) }
    ensures too_large { result ≡ Err OpFault.TooLarge
        → IsIntersectionTooLarge mode pair.now.first pair.now.second }
{
    let first = &pair.first;
    let second = &pair.second;
    let labels = first.labels();
    if labels > MOST_LABELS {
        return Err(OpFault::TooLarge);
    }
    let product = explore(alloc, first, second, mode)?;
    let accepting = accepting_numbers(alloc, first, second, mode, &product.product_states)?;
    let states = product.product_states.len() as u32;
    let built = of_parts(alloc, states, labels, 0, &product.transitions, &accepting)?;
    Ok(built)
}
