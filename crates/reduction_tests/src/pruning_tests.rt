//! Prunings: that the calls succeed, and what is removed from small automata.

ghost use Rattle.std.specs.Prelude.{◌≡◌, ◌≤◌, IfOk};

use auto_core::{Auto, List, Memory};
use bit_rel::Rel;
use prune_pairs::{Gone, cut, removable};
use std::alloc::Global;
use std::test::Fail;
use test_inputs::{held, step};

/// The least preorder on so many states that relates the first of each pair to the second.
fn preorder(alloc: Global, states: u32, pairs: &[(u32, u32)]) -> Result<Rel, Memory>
    ensures { IfOk result (λ r. r.size ≡ states) }
{
    let mut rel = Rel::empty(alloc, states)?;
    for at in 0..pairs.len() {
        let (p, q) = pairs[at];
        if p < rel.size() && q < rel.size() {
            rel.set(p, q);
        }
    }
    rel.close();
    Ok(rel)
}

/// The transitions that go by pair 1 over the greatest forward relation, each with the better one.
fn removable_ahead(alloc: Global, automaton: &Auto, look: u32) -> Result<List<Gone>, Memory>
    requires look_from { 1 ≤ look }
    requires look_upto { look ≤ 6 }
{
    let same = preorder(alloc, automaton.states(), &[])?;
    let ahead = direct_sim::preorder(alloc, automaton, look)?;
    removable(alloc, automaton, 1, &same, &ahead)
}

#[test]
fn equal_targets_stay(rt: HostRuntime) -> Result<(), Fail> {
    let alloc = rt.alloc();
    let moves = [step(0, 0, 1), step(0, 0, 2), step(1, 0, 1), step(2, 0, 2)];
    let automaton = Auto::build(alloc, 3, 1, 0, &moves, &[1, 2])?;
    let ahead = direct_sim::preorder(alloc, &automaton, 1)?;
    assert_eq!(rt;
        (held(&ahead, 1, 2), held(&ahead, 2, 1)),
        (Some(true), Some(true))
    );
    for look in [1, 2, 6] {
        let none = removable_ahead(alloc, &automaton, look)?;
        assert_eq!(rt; none.as_slice().len(), 0);
    }
    Ok(())
}

#[test]
fn the_lower_target_goes(rt: HostRuntime) -> Result<(), Fail> {
    let alloc = rt.alloc();
    let moves = [step(0, 0, 1), step(0, 0, 2), step(1, 0, 1), step(2, 0, 2)];
    let automaton = Auto::build(alloc, 3, 1, 0, &moves, &[2])?;
    for look in [1, 2, 6] {
        let lower = removable_ahead(alloc, &automaton, look)?;
        assert_eq!(rt; lower.as_slice(), [gone(0, 1)].as_slice());
    }
    Ok(())
}

#[test]
fn the_least_better_one_is_named(rt: HostRuntime) -> Result<(), Fail> {
    let alloc = rt.alloc();
    let moves = [
        step(0, 0, 1),
        step(0, 0, 2),
        step(0, 0, 3),
        step(0, 1, 1),
        step(3, 0, 2),
        step(3, 0, 3),
    ];
    let automaton = Auto::build(alloc, 4, 2, 0, &moves, &[3])?;
    let back = preorder(alloc, automaton.states(), &[(3, 0)])?;
    let ahead = preorder(alloc, automaton.states(), &[(1, 2), (2, 3)])?;
    let first = removable(alloc, &automaton, 1, &back, &ahead)?;
    assert_eq!(rt;
        first.as_slice(),
        [gone(0, 1), gone(1, 2), gone(4, 5)].as_slice()
    );
    let second = removable(alloc, &automaton, 2, &back, &ahead)?;
    assert_eq!(rt; second.as_slice(), [gone(4, 1), gone(5, 2)].as_slice());
    let third = removable(alloc, &automaton, 3, &back, &ahead)?;
    assert_eq!(rt;
        third.as_slice(),
        [gone(0, 1), gone(1, 2), gone(4, 2)].as_slice()
    );
    let fourth = removable(alloc, &automaton, 4, &back, &ahead)?;
    assert_eq!(rt; fourth.as_slice(), [gone(4, 1), gone(5, 2)].as_slice());
    Ok(())
}

fn gone(trans: u32, by: u32) -> Gone {
    Gone { trans, by }
}

#[test]
fn cutting_leaves_the_others(rt: HostRuntime) -> Result<(), Fail> {
    let alloc = rt.alloc();
    let moves = [step(0, 0, 0), step(0, 0, 1), step(0, 1, 1), step(1, 0, 1)];
    let automaton = Auto::build(alloc, 2, 2, 1, &moves, &[0])?;
    if automaton.transitions().len() == 4 {
        let left = cut(alloc, &automaton, &[0, 2])?;
        assert_eq!(rt;
            left.transitions(),
            [step(0, 0, 1), step(1, 0, 1)].as_slice()
        );
        assert_eq!(rt; (left.states(), left.labels(), left.initial()), (2, 2, 1));
        if left.states() == 2 {
            assert_eq!(rt; (left.accepting(0), left.accepting(1)), (true, false));
        }
        let all = cut(alloc, &automaton, &[])?;
        assert_eq!(rt; all.transitions(), automaton.transitions());
    }
    Ok(())
}
