//! The states of an automaton joined by a relation.

ghost use Rattle.std.specs.Prelude.{◌≡◌, ◌<◌, ◌≤◌, ◌↔◌, ◌⊎◌, ℕ, length, IfOk};
ghost use Rattle.auto_core.specs.Game.{Holds, Close};
ghost use Rattle.auto_core.specs.Quotient.{AreClassesOf, IsQuotient};
ghost use Rattle.bit_rel.specs.Relation.{IsRelation, IsClosed};

use auto_core::{Auto, List, Memory};
use bit_rel::Rel;
use quotient::{Classes, classes_of, merge};
use std::alloc::Global;

/// An automaton whose states were merged, with the class of each.
#[derive(Debug, Drop)]
pub(crate) struct Merged {
    pub(crate) automaton: Auto,
    pub(crate) classes: List<u32>,
}

/// The class of each state.
fn class_list(alloc: Global, classes: &Classes, states: u32) -> Result<List<u32>, Memory>
    requires { length classes.now ≡ states }
    ensures { IfOk result (λ made. made ≡ classes.now) }
{
    let mut made = List::new(alloc);
    for state in 0..states {
        made.push(classes.class(state))?;
    }
    Ok(made)
}

/// The closure of the relation, which stays as it is.
pub(crate) fn closure(alloc: Global, rel: &Rel) -> Result<Rel, Memory>
    ensures closed { IfOk result (IsClosed rel.now) }
    ensures valid { IfOk result (λ _. IsRelation rel.now) }
{
    let mut made = rel.copied(alloc)?;
    made.close();
    Ok(made)
}

/// The classes that the closure of the relation joins.
fn classes(alloc: Global, rel: &Rel) -> Result<Classes, Memory>
    requires { 1 ≤ rel.now.size }
    ensures joined { IfOk result (AreClassesOf rel.now.size (Close (Holds rel.now.pairs))) }
    ensures valid { IfOk result (λ _. IsRelation rel.now) }
{
    let closed = closure(alloc, rel)?;
    classes_of(alloc, &closed)
}

/// The automaton whose states are the classes that the closure of the relation joins.
pub(crate) fn join_states(alloc: Global, automaton: &Auto, rel: &Rel) -> Result<Merged, Memory>
    requires { rel.now.size ≡ automaton.now.states }
    ensures joined { IfOk
        result (λ made.
        AreClassesOf automaton.now.states (Close (Holds rel.now.pairs)) made.classes) }
    ensures quotient { IfOk result (λ made. IsQuotient automaton.now made.classes made.automaton) }
    ensures valid { IfOk result (λ _. IsRelation rel.now) }
{
    let states = automaton.states();
    let joined = classes(alloc, rel)?;
    let classes = class_list(alloc, &joined, states)?;
    let automaton = merge(alloc, automaton, &joined)?;
    Ok(Merged { automaton, classes })
}
