//! Quotients: that the calls succeed, and what small automata are merged to.

ghost use Rattle.std.specs.Prelude.{◌≡◌, ◌<◌, ℕ, IfOk};
ghost use Rattle.auto_core.specs.Game.{Holds};

use auto_core::{Auto, Memory};
use bit_rel::Rel;
use quotient::{ClassFault, Classes, classes_of, merge};
use std::alloc::Global;
use std::test::Fail;
use test_inputs::step;

#[test]
fn classes_are_numbered_as_they_appear(rt: HostRuntime) -> Result<(), Fail> {
    let alloc = rt.alloc();
    for of in [[1, 0, 0], [0, 2, 1], [0, 0, 2]] {
        assert!(rt; matches!(Classes::build(alloc, &of), Err(ClassFault::Shape)));
    }
    assert!(rt; matches!(Classes::build(alloc, &[]), Err(ClassFault::Shape)));
    let classes = Classes::build(alloc, &[0, 1, 0])?;
    assert_eq!(rt; (classes.class(1), classes.class(2)), (1, 0));
    Ok(())
}

/// Relates the two states to one another, if there are such.
fn relate(rel: &mut Rel, p: u32, q: u32)
    ensures { rel.new.size ≡ rel.old.size }
{
    if p < rel.size() && q < rel.size() {
        rel.set(p, q);
        rel.set(q, p);
    }
}

/// The least preorder on so many states that relates the two to one another.
fn preorder(alloc: Global, states: u32, p: u32, q: u32) -> Result<Rel, Memory>
    ensures size { IfOk result (λ r. r.size ≡ states) }
    ensures reflexive { IfOk result (λ r. (s : ℕ) → s < r.size → Holds r.pairs s s) }
    ensures transitive { IfOk
        result (λ r. (s t u : ℕ) → Holds r.pairs s t → Holds r.pairs t u → Holds r.pairs s u) }
{
    let mut rel = Rel::empty(alloc, states)?;
    relate(&mut rel, p, q);
    rel.close();
    Ok(rel)
}

/// How many states and transitions are left when the two states are one.
fn merged(alloc: Global, automaton: &Auto, p: u32, q: u32) -> Result<(u32, usize), Memory> {
    let rel = preorder(alloc, automaton.states(), p, q)?;
    let small = merge(alloc, automaton, &classes_of(alloc, &rel)?)?;
    Ok((small.states(), small.transitions().len()))
}

#[test]
fn rows_of_two_and_three_words(rt: HostRuntime) -> Result<(), Fail> {
    let alloc = rt.alloc();
    for (states, before, last) in [(3, 1, 2), (65, 63, 64), (130, 127, 129)] {
        let moves = [
            step(0, 0, before),
            step(0, 0, last),
            step(before, 1, before),
            step(last, 1, last),
        ];
        let automaton = Auto::build(alloc, states, 2, 0, &moves, &[last])?;
        assert_eq!(rt; merged(alloc, &automaton, before, last)?, (states - 1, 2));
        assert_eq!(rt; merged(alloc, &automaton, 0, 0)?, (states, 4));
    }
    Ok(())
}

#[test]
fn a_ring_becomes_a_loop(rt: HostRuntime) -> Result<(), Fail> {
    let alloc = rt.alloc();
    let ring = Auto::build(alloc, 2, 1, 1, &[step(0, 0, 1), step(1, 0, 0)], &[0])?;
    let classes = Classes::build(alloc, &[0, 0])?;
    let small = merge(alloc, &ring, &classes)?;
    assert_eq!(rt; (small.states(), small.initial()), (1, 0));
    assert_eq!(rt; small.transitions(), [step(0, 0, 0)].as_slice());
    assert!(rt; 0 < small.states() && small.accepting(0));
    Ok(())
}
