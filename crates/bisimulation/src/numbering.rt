//! Classes numbered by first sight.

ghost use Rattle.std.specs.Prelude.{◌≡◌, ◌≤◌, length, IfOk};
ghost use Rattle.auto_core.specs.Quotient.{class_of, AreClassesOf};

use auto_core::Memory;
use indexmap::IndexSet;
use quotient::{ClassFault, Classes};
use std::alloc::Global;

/// The numbers in the order in which they appear.
fn numbers(alloc: Global, of: &[u32]) -> Result<Vec<u32>, Memory>
    requires some { 1 ≤ length of.now }
    ensures { IfOk
        result (λ v.
        AreClassesOf (length of.now) (λ p q. class_of of.now p ≡ class_of of.now q) v.items) }
{
    let mut seen = IndexSet::new(alloc);
    let mut made = Vec::new(alloc);
    for i in 0..of.len() {
        let (number, _) = seen.insert_full(of[i])?;
        if number > 0xffff_ffff {
            return Err(Memory);
        }
        made.push(number as u32)?;
    }
    Ok(made)
}

/// The classes of the states that have one number.
pub(crate) fn numbered(alloc: Global, of: &[u32]) -> Result<Classes, Memory>
    requires some { 1 ≤ length of.now }
    ensures { IfOk result
        (AreClassesOf (length of.now) (λ p q. class_of of.now p ≡ class_of of.now q)) }
{
    let made = numbers(alloc, of)?;
    match Classes::build(alloc, &made) {
        Ok(classes) => Ok(classes),
        Err(ClassFault::Memory) => Err(Memory),
        Err(ClassFault::Shape) => unreachable!(),
    }
}
