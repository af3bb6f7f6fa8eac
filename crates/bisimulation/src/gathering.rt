//! Members of classes, gathered from the lists of the classes.

ghost use Rattle.std.specs.Prelude.{◌≡◌, ◌≤◌, ◌⊎◌, ◌++◌, ℕ, length, Contains, IfOk, OnOk};
ghost use Rattle.auto_core.specs.Quotient.{class_of};
ghost use Rattle.bisimulation.specs.Rounds.{AreBelow};

use auto_core::Memory;
use std::alloc::Global;

/// Takes members of the class off the list, up to one more than the limit, and drops what is on
/// the list and no member.
pub(crate) fn gather(
    alloc: Global,
    list: &mut Vec<u32>,
    of: &[u32],
    class: u32,
    limit: usize,
) -> Result<Vec<u32>, Memory>
    requires { AreBelow (length of.now) list.old.items }
    ensures left { OnOk result (AreBelow (length of.now) list.new.items) }
    ensures found { IfOk result (λ v. AreBelow (length of.now) v.items) }
    ensures all { IfOk result (λ v. (p : ℕ) → Contains list.old.items p → class_of of.now p ≡ class
        → Contains list.new.items p ⊎ Contains v.items p) }
    ensures whole { IfOk result (λ v. length v.items ≤ limit → length list.new.items ≡ 0) }
{
    let mut found = Vec::new(alloc);
    while found.len() <= limit {
        let Some(state) = list.pop() else {
            return Ok(found);
        };
        if of[state as usize] == class {
            found.push(state)?;
        }
    }
    Ok(found)
}

/// Puts these numbers behind the list.
pub(crate) fn extend(list: &mut Vec<u32>, more: &[u32]) -> Result<(), Memory>
    ensures { OnOk result (list.new.items ≡ list.old.items ++ more.now) }
{
    for i in 0..more.len() {
        list.push(more[i])?;
    }
    Ok(())
}

/// The signs of the states, ascending.
fn signs_of(alloc: Global, signs: &[u32], states: &[u32]) -> Result<Vec<u32>, Memory>
    requires { AreBelow (length signs.now) states.now }
{
    let mut found = Vec::new(alloc);
    for i in 0..states.len() {
        found.push(signs[states[i] as usize])?;
    }
    found.sort()?;
    Ok(found)
}

/// The number of which most are in a row.
fn longest_row(list: &[u32]) -> u32 {
    let mut best = 0;
    let mut most = 0;
    let mut begin = 0;
    for i in 0..list.len() {
        if list[i] != list[begin] {
            begin = i;
        }
        if i - begin >= most {
            most = i - begin + 1;
            best = list[i];
        }
    }
    best
}

/// The sign that as many of the states have as any; which one is of no account to what is proved.
pub(crate) fn common_sign(alloc: Global, signs: &[u32], states: &[u32]) -> Result<u32, Memory>
    requires { AreBelow (length signs.now) states.now }
{
    let found = signs_of(alloc, signs, states)?;
    Ok(longest_row(&found))
}
