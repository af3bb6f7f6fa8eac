//! The intersection while it is made: its product states, numbered as they are first seen, and its
//! transitions.

ghost use Rattle.std.specs.Prelude.{◌≡◌, ◌+◌, ◌<◌, ◌≤◌, ◌⊎◌, ◌↔◌, ◌++◌, ◌∷◌, [], ℕ, List, length, All, Contains, OnOk, IfOk, Err};
ghost use Rattle.auto_ops.specs.declared.fault.OpFault.{OpFault};
ghost use Rattle.auto_core.specs.Automaton.{IsAutomaton, trans};
ghost use Rattle.auto_core.specs.Outcome.{At};
ghost use Rattle.auto_core.specs.declared.parts.Trans.{Trans as Step};
ghost use Rattle.ba_format.specs.Sight.{noted};
ghost use Rattle.auto_ops.specs.Intersection.{ProductMove, same_product_state, awaits_after, moves_beside, moves_of, moves_from, start_of, AreNumberedBySight, IsProductReached};
ghost use Rattle.auto_ops.specs.UnderWay.{AreMoves, IsInside, IsUnderWay, AreTooMany, IsRoomy, IsBegun};

use crate::fault::OpFault;
use crate::limits::{MOST_STATES, MOST_TRANSITIONS};
use crate::product_states::{ProductState, find, next_awaits};
use auto_core::{Auto, Mode, Trans};
use std::alloc::Global;

/// The intersection as far as it is made.
#[derive(Debug, Drop)]
pub struct Product {
    /// The product states, by their numbers.
    pub product_states: Vec<ProductState>,
    /// The transitions, in the order in which they are found.
    pub transitions: Vec<Trans>,
}

impl Product {
    /// The start alone: both initial states.
    pub fn start(alloc: Global, first: &Auto, second: &Auto) -> Result<Product, OpFault>
        ensures begun { IfOk
            result (λ p. IsBegun first.now second.now p.product_states.items p.transitions.items) }
        ensures valid { IfOk result (λ _. IsAutomaton first.now × IsAutomaton second.now) }
        ensures never_too_large { result ≡ Err OpFault.TooLarge → ⊥ }
    {
        let mut product_states = Vec::new(alloc);
        product_states.push(ProductState {
            first: first.initial(),
            second: second.initial(),
            awaits_second: false,
        })?;
        Ok(Product {
            product_states,
            transitions: Vec::new(alloc),
        })
    }

    /// The number of the product state, which is a new one if it is not there.
    fn number_of(&mut self, product_state: ProductState) -> Result<u32, OpFault>
        requires { length self.old.product_states.items ≤ MOST_STATES }
        ensures numbered { IfOk result (λ n. At self.new.product_states.items n product_state) }
        ensures noted { OnOk result
            (self.new.product_states.items
            ≡ noted same_product_state self.old.product_states.items product_state) }
        ensures few { OnOk result (length self.new.product_states.items ≤ MOST_STATES) }
        ensures transitions { OnOk result
            (self.new.transitions.items ≡ self.old.transitions.items) }
        ensures too_large { result ≡ Err OpFault.TooLarge
            → MOST_STATES
            < length (noted same_product_state self.old.product_states.items product_state) }
    {
        let number = find(&self.product_states, product_state);
        if number < self.product_states.len() {
            return Ok(number as u32);
        }
        if number == MOST_STATES {
            return Err(OpFault::TooLarge);
        }
        self.product_states.push(product_state)?;
        Ok(number as u32)
    }

    /// Adds a transition from a product state's number to a product state, which is numbered if it
    /// is new.
    fn add(&mut self, number: u32, label: u32, to: ProductState) -> Result<(), OpFault>
        requires few { length self.old.product_states.items ≤ MOST_STATES }
        requires few_transitions { length self.old.transitions.items ≤ MOST_TRANSITIONS }
        ensures noted { OnOk result
            (self.new.product_states.items
            ≡ noted same_product_state self.old.product_states.items to) }
        ensures added { OnOk result ((target : ℕ)
            × At self.new.product_states.items target to
            × (self.new.transitions.items ≡ self.old.transitions.items ++ trans number label target ∷ [])) }
        ensures few { OnOk result (length self.new.product_states.items ≤ MOST_STATES) }
        ensures few_transitions { OnOk result
            (length self.new.transitions.items ≤ MOST_TRANSITIONS) }
        ensures too_large { result ≡ Err OpFault.TooLarge
            → (MOST_STATES < length (noted same_product_state self.old.product_states.items to))
            ⊎ (MOST_TRANSITIONS < length self.old.transitions.items + 1) }
    {
        if self.transitions.len() == MOST_TRANSITIONS {
            return Err(OpFault::TooLarge);
        }
        let target = self.number_of(to)?;
        self.transitions.push(Trans {
            source: number,
            label,
            target,
        })?;
        Ok(())
    }

    /// Adds the moves from the product state with this number in which the first automaton goes by
    /// this transition.
    fn add_beside(
        &mut self,
        first: &Auto,
        second: &Auto,
        mode: Mode,
        number: u32,
        product_state: ProductState,
        step: Trans,
    ) -> Result<(), OpFault>
        requires at { At self.old.product_states.items number product_state }
        requires roomy { IsRoomy first.now second.now self.old.product_states.items
            self.old.transitions.items }
        requires step { step.target < first.now.states }
        ensures roomy { OnOk result
            (IsRoomy first.now second.now self.new.product_states.items
            self.new.transitions.items) }
        ensures at { OnOk result (At self.new.product_states.items number product_state) }
        ensures added { (ms : List ProductMove)
            → IsUnderWay first.now second.now ms self.old.product_states.items self.old.transitions.items
            → OnOk result (IsUnderWay first.now second.now (ms ++ moves_beside mode first.now second.now product_state step) self.new.product_states.items self.new.transitions.items) }
        ensures too_large { (ms : List ProductMove)
            → IsUnderWay first.now second.now ms self.old.product_states.items self.old.transitions.items
            → result ≡ Err OpFault.TooLarge
            → AreTooMany first.now second.now (ms ++ moves_beside mode first.now second.now product_state step) }
    {
        let awaits_second = next_awaits(first, second, mode, product_state);
        let span = second.successors(product_state.second, step.label);
        let transitions = second.transitions();
        for at in span.begin..span.end {
            let to = ProductState {
                first: step.target,
                second: transitions[at as usize].target,
                awaits_second,
            };
            self.add(number, step.label, to)?;
        }
        Ok(())
    }

    /// Adds the moves from the product state with this number.
    pub fn add_from(
        &mut self,
        first: &Auto,
        second: &Auto,
        mode: Mode,
        number: u32,
        product_state: ProductState,
    ) -> Result<(), OpFault>
        requires at { At self.old.product_states.items number product_state }
        requires roomy { IsRoomy first.now second.now self.old.product_states.items
            self.old.transitions.items }
        ensures roomy { OnOk result
            (IsRoomy first.now second.now self.new.product_states.items
            self.new.transitions.items) }
        ensures added { (ms : List ProductMove)
            → IsUnderWay first.now second.now ms self.old.product_states.items self.old.transitions.items
            → OnOk result (IsUnderWay first.now second.now (ms ++ moves_of mode first.now second.now product_state) self.new.product_states.items self.new.transitions.items) }
        ensures too_large { (ms : List ProductMove)
            → IsUnderWay first.now second.now ms self.old.product_states.items self.old.transitions.items
            → result ≡ Err OpFault.TooLarge
            → AreTooMany first.now second.now (ms ++ moves_of mode first.now second.now product_state) }
    {
        let span = first.outgoing(product_state.first);
        let transitions = first.transitions();
        for at in span.begin..span.end {
            self.add_beside(
                first,
                second,
                mode,
                number,
                product_state,
                transitions[at as usize],
            )?;
        }
        Ok(())
    }
}
