//! The classes of the states of an automaton.

ghost use Rattle.std.specs.Prelude.{◌≡◌, ◌+◌, ◌^◌, ◌<◌, ◌≤◌, ◌==◌, length, if◌then◌else◌, IfOk, IfSome, IfNone};
ghost use Rattle.auto_core.specs.Quotient.{class_of, AreClasses};
ghost use Rattle.quotient.specs.Counting.{IsCount, HasShapeFault};

use auto_core::Memory;
use std::alloc::Global;
use std::marker::Model;
use thiserror::Error;

/// Why a list of numbers gives no classes.
#[derive(Debug, Drop, Error)]
pub enum ClassFault {
    /// The list is empty, or a number stands in it before one that is lesser has appeared.
    #[error("the classes are not numbered in the order in which they appear")]
    Shape,
    /// The machine refused memory.
    #[error("out of memory")]
    Memory,
}

/// The class of each state. Contracts see it as the list of the numbers of the classes.
#[derive(Debug, Drop)]
pub struct Classes {
    pub(crate) of: Vec<u32>,
    pub(crate) count: usize,
}

impl Model for Classes {
    ghost use Rattle.std.specs.Prelude.{ℕ, List};

    ghost Value = { List ℕ };

    ghost use Rattle.quotient.specs.ClassesStored.{classes_in, IsCounted};

    ghost view = { classes_in };

    ghost invariant = { IsCounted };
}

/// One more than the count if the class is a new one.
pub(crate) fn counted(class: usize, count: usize) -> usize
    requires known { class ≤ count }
    requires few { count < 2 ^ 63 }
    ensures { result ≡ (if class == count then count + 1 else count) }
{
    if class == count { count + 1 } else { count }
}

/// The number of classes; None where they are not in the order in which they appear, or there is
/// none.
fn count_of(of: &[u32]) -> Option<usize>
    ensures some { IfSome
        result (λ n. AreClasses of.now × IsCount of.now (length of.now) n × (n ≤ length of.now)) }
    ensures none { IfNone result (HasShapeFault of.now) }
{
    let mut count = 0;
    for at in 0..of.len() {
        let class = of[at] as usize;
        if class > count {
            return None;
        }
        count = counted(class, count);
    }
    if count == 0 {
        return None;
    }
    Some(count)
}

impl Classes {
    /// The classes with these numbers, one for each state.
    pub fn build(alloc: Global, of: &[u32]) -> Result<Classes, ClassFault>
        ensures built { IfOk result (λ c. c ≡ of.now) }
        ensures valid { IfOk result (λ _. AreClasses of.now) }
        ensures shape { result ≡ Err ClassFault.Shape → HasShapeFault of.now }
    {
        let Some(count) = count_of(of) else {
            return Err(ClassFault::Shape);
        };
        let of = Vec::from_slice(alloc, of).map_err(|_| ClassFault::Memory)?;
        Ok(Classes { of, count })
    }

    /// The class of the state.
    pub fn class(&self, state: u32) -> u32
        requires { state < length self.now }
        ensures class { result ≡ class_of self.now state }
        ensures valid { AreClasses self.now }
    {
        self.of[state as usize]
    }
    /// The number of classes.
    pub(crate) fn count(&self) -> usize
        ensures counted { IsCount self.now (length self.now) result }
        ensures few { result ≤ length self.now }
    {
        self.count
    }
}
