//! The classes of the letters of an automaton.

ghost use Rattle.std.specs.Prelude.{◌≡◌, ◌+◌, ◌^◌, ◌<◌, ◌≤◌, ◌==◌, length, if◌then◌else◌, IfOk, IfSome, IfNone};
ghost use Rattle.auto_core.specs.Quotient.{class_of};
ghost use Rattle.quotient.specs.Counting.{AreInOrder};
ghost use Rattle.letter_classes.specs.Columns.{AreLetterClasses, IsOutOfOrder};

use auto_core::Memory;
use std::alloc::Global;
use std::marker::Model;
use thiserror::Error;

/// Why a list of numbers gives no classes.
#[derive(Debug, Drop, Error)]
pub enum ClassFault {
    /// A number stands in the list before one that is lesser has appeared.
    #[error("the classes are not numbered in the order in which they appear")]
    Order,
    /// The machine refused memory.
    #[error("out of memory")]
    Memory,
}

/// The class of each letter. Contracts see it as the list of the numbers of the classes.
#[derive(Debug, Drop)]
pub struct LetterClasses {
    pub(crate) of: Vec<u32>,
    pub(crate) count: usize,
}

impl Model for LetterClasses {
    ghost use Rattle.std.specs.Prelude.{ℕ, List};

    ghost Value = { List ℕ };

    ghost use Rattle.letter_classes.specs.Stored.{classes_of_fields, IsCounted};

    ghost view = { classes_of_fields };

    ghost invariant = { IsCounted };
}

/// One more than the count if the class is a new one.
pub(crate) fn counted(class: usize, count: usize) -> usize
    requires known { class ≤ count }
    requires few { count < 2 ^ 63 }
    ensures { result ≡ (if class == count then count + 1 else count) }
{
    if class == count { count + 1 } else { count }
}

/// The number of classes; None where they are not in the order in which they appear.
fn count_of(of: &[u32]) -> Option<usize>
    ensures some { IfSome result (AreLetterClasses of.now) }
    ensures none { IfNone result (IsOutOfOrder of.now) }
{
    let mut count = 0;
    for at in 0..of.len() {
        let class = of[at] as usize;
        if class > count {
            return None;
        }
        count = counted(class, count);
    }
    Some(count)
}

impl LetterClasses {
    /// The classes with these numbers, one for each letter.
    pub fn build(alloc: Global, of: &[u32]) -> Result<LetterClasses, ClassFault>
        ensures built { IfOk result (λ c. c ≡ of.now) }
        ensures in_order { IfOk result (λ _. AreInOrder of.now (length of.now)) }
        ensures order { result ≡ Err ClassFault.Order → IsOutOfOrder of.now }
    {
        let Some(count) = count_of(of) else {
            return Err(ClassFault::Order);
        };
        let of = Vec::from_slice(alloc, of).map_err(|_| ClassFault::Memory)?;
        Ok(LetterClasses { of, count })
    }

    /// The class of the letter.
    pub fn class(&self, letter: u32) -> u32
        requires { letter < length self.now }
        ensures class { result ≡ class_of self.now letter }
        ensures in_order { AreInOrder self.now (length self.now) }
    {
        self.of[letter as usize]
    }

    /// The number of letters.
    pub fn letters(&self) -> usize
        ensures { result ≡ length self.now }
    {
        self.of.len()
    }

    /// The number of classes.
    pub fn count(&self) -> usize
        ensures { AreLetterClasses self.now result }
    {
        self.count
    }
}
