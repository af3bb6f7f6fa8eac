//! The check of a given map of states.

ghost use Rattle.std.specs.Prelude.{◌≡◌, ◌<◌, ◌≤◌, ℕ, length, IsTrue, ◌↔◌, IfSome, IfNone};
ghost use Rattle.auto_core.specs.Automaton.{IsAccepting};
ghost use Rattle.auto_core.specs.Quotient.{class_of};
ghost use Rattle.map_laws.specs.Maps.{CarriesOver};
ghost use Rattle.state_map.specs.Faults.{AreStatesBelow, HasImage, HaveImagesBelow, AcceptBelow, IsFirstFault};

use crate::moves::has_move;
use auto_core::{Auto, Trans};

/// Why a map does not carry an automaton over into another.
#[derive(Clone, Copy, Debug, PartialEq, Eq)]
pub enum MapFault {
    /// The image of this state is no state.
    Number(u32),
    /// The image of the initial state is not the initial state.
    Initial,
    /// The image of the transition with this number is no transition.
    Move(u32),
    /// This state is accepting, and its image is not.
    Accepting(u32),
}

/// The first state whose image is no state.
fn first_no_state(first: &Auto, small: &Auto, map: &[u32]) -> Option<u32>
    requires { length map.now ≡ first.now.states }
    ensures some { IfSome
        result (λ q.
        (q < first.now.states) × AreStatesBelow small.now map.now q
        × (small.now.states ≤ class_of map.now q)) }
    ensures none { IfNone result (AreStatesBelow small.now map.now first.now.states) }
{
    for state in 0..first.states() {
        if map[state as usize] >= small.states() {
            return Some(state);
        }
    }
    None
}

/// Tells whether the image of the transition with this number is a transition.
fn has_image(first: &Auto, small: &Auto, map: &[u32], number: u32) -> bool
    requires len { length map.now ≡ first.now.states }
    requires states { AreStatesBelow small.now map.now first.now.states }
    requires number { number < length first.now.transitions }
    ensures { IsTrue result ↔ HasImage first.now small.now map.now number }
{
    let step = first.transitions()[number as usize];
    has_move(
        small,
        Trans {
            source: map[step.source as usize],
            label: step.label,
            target: map[step.target as usize],
        },
    )
}

/// The first transition whose image is none.
fn first_no_move(first: &Auto, small: &Auto, map: &[u32]) -> Option<u32>
    requires len { length map.now ≡ first.now.states }
    requires states { AreStatesBelow small.now map.now first.now.states }
    ensures some { IfSome
        result (λ t.
        (t < length first.now.transitions) × HaveImagesBelow first.now small.now map.now t
        × (HasImage first.now small.now map.now t → ⊥)) }
    ensures none { IfNone result
        (HaveImagesBelow first.now small.now map.now (length first.now.transitions)) }
{
    for number in 0..first.transitions().len() as u32 {
        if !has_image(first, small, map, number) {
            return Some(number);
        }
    }
    None
}

/// The first accepting state whose image is not accepting.
fn first_not_accepting(first: &Auto, small: &Auto, map: &[u32]) -> Option<u32>
    requires len { length map.now ≡ first.now.states }
    requires states { AreStatesBelow small.now map.now first.now.states }
    ensures some { IfSome
        result (λ q.
        (q < first.now.states) × AcceptBelow first.now small.now map.now q × IsAccepting first.now q
        × (IsAccepting small.now (class_of map.now q) → ⊥)) }
    ensures none { IfNone result (AcceptBelow first.now small.now map.now first.now.states) }
{
    for state in 0..first.states() {
        if !first.accepting(state) {
            continue;
        }
        if !small.accepting(map[state as usize]) {
            return Some(state);
        }
    }
    None
}

/// The first fault of the map of the first automaton's states to those of the small one; None where
/// it carries the first over.
pub fn check(first: &Auto, small: &Auto, map: &[u32]) -> Option<MapFault>
    requires { length map.now ≡ first.now.states }
    ensures some { IfSome result (IsFirstFault first.now small.now map.now) }
    ensures states { IfNone result (AreStatesBelow small.now map.now first.now.states) }
    ensures carries { IfNone result (CarriesOver first.now small.now (class_of map.now)) }
{
    if let Some(state) = first_no_state(first, small, map) {
        return Some(MapFault::Number(state));
    }
    if small.initial() != map[first.initial() as usize] {
        return Some(MapFault::Initial);
    }
    if let Some(number) = first_no_move(first, small, map) {
        return Some(MapFault::Move(number));
    }
    if let Some(state) = first_not_accepting(first, small, map) {
        return Some(MapFault::Accepting(state));
    }
    None
}
