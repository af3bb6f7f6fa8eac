//! The states of an intersection.

ghost use Rattle.std.specs.Prelude.{◌≡◌, ◌<◌, ◌≤◌, ◌↔◌, length, IsTrue, false};
ghost use Rattle.std.specs.List.{list_any};
ghost use Rattle.auto_core.specs.Outcome.{At};
ghost use Rattle.auto_ops.specs.Intersection.{same_product_state, awaits_after, IsAcceptingProductState};

use auto_core::{Auto, Mode};

/// A state of the intersection: a state of each automaton, and which of the two is awaited to be
/// accepting.
#[derive(Clone, Copy, Debug)]
pub struct ProductState {
    /// The state of the first automaton.
    pub first: u32,
    /// The state of the second automaton.
    pub second: u32,
    /// Whether an accepting state of the second is awaited, and not one of the first.
    pub awaits_second: bool,
}

/// Tells whether both product states have the same parts.
pub fn same(product_state: ProductState, other: ProductState) -> bool
    ensures { result ≡ same_product_state product_state other }
{
    if product_state.first != other.first {
        return false;
    }
    if product_state.second != other.second {
        return false;
    }
    product_state.awaits_second == other.awaits_second
}

/// The number of the product state in the list, or the list's length where it is not there.
pub fn find(product_states: &[ProductState], product_state: ProductState) -> usize
    ensures within { result ≤ length product_states.now }
    ensures found { result < length product_states.now
        → At product_states.now result product_state }
    ensures absent { result ≡ length product_states.now
        → list_any (same_product_state product_state) product_states.now ≡ false }
{
    for at in 0..product_states.len() {
        if same(product_state, product_states[at]) {
            return at;
        }
    }
    product_states.len()
}

/// Tells whether, after a move from the product state, an accepting state of the second automaton
/// is awaited.
pub fn next_awaits(first: &Auto, second: &Auto, mode: Mode, product_state: ProductState) -> bool
    requires first { product_state.first < first.now.states }
    requires second { product_state.second < second.now.states }
    ensures { result ≡ awaits_after mode first.now second.now product_state }
{
    match mode {
        Mode::Finite => false,
        Mode::Buchi => {
            if product_state.awaits_second {
                !second.accepting(product_state.second)
            } else {
                first.accepting(product_state.first)
            }
        }
    }
}

/// Tells whether the product state is accepting in the intersection.
pub fn accepts(first: &Auto, second: &Auto, mode: Mode, product_state: ProductState) -> bool
    requires first { product_state.first < first.now.states }
    requires second { product_state.second < second.now.states }
    ensures { IsTrue result ↔ IsAcceptingProductState mode first.now second.now product_state }
{
    if !first.accepting(product_state.first) {
        return false;
    }
    match mode {
        Mode::Finite => second.accepting(product_state.second),
        Mode::Buchi => !product_state.awaits_second,
    }
}
