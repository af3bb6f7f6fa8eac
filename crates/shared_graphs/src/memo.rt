//! Answers that are remembered, in a table of fixed size: a later one may take the place of an
//! earlier one. No clause says that an answer is found again, since what is forgotten costs time
//! alone.

ghost use Rattle.std.specs.Prelude.{IfOk, IfSome};
ghost use Rattle.shared_graphs.specs.Memo.{NothingTold, HasAnswer, TellsNothingNew, HasNoted};

use auto_core::Memory;
use std::alloc::Global;

/// An answer about two numbers.
#[derive(Clone, Copy, Debug)]
pub enum Answer {
    /// A number.
    Number(u32),
    /// Whether something is so.
    Truth(bool),
}

/// What was answered about two numbers.
#[derive(Clone, Copy, Debug)]
pub struct Noted {
    /// The first number.
    pub first: u32,
    /// The second one.
    pub second: u32,
    /// What was answered.
    pub answer: Answer,
}

/// Answers that are remembered.
#[derive(Debug, Drop)]
pub struct Memo {
    /// The answers, each at the place of its two numbers.
    pub told: Vec<Option<Noted>>,
}

/// The place of the two numbers.
fn place_of(first: u32, second: u32, places: usize) -> usize {
    if places == 0 {
        return 0;
    }
    let mut mixed = (first as u64).wrapping_mul(0x9E3779B97F4A7C15);
    mixed = (mixed ^ second as u64).wrapping_mul(0xC2B2AE3D27D4EB4F);
    (mixed ^ (mixed >> 32)) as usize & (places - 1)
}

impl Memo {
    /// So many places, with no answers.
    pub fn new(alloc: Global, places: usize) -> Result<Memo, Memory>
        ensures { IfOk result (λ m. NothingTold m.told.items) }
    {
        let mut told = Vec::new(alloc);
        for _place in 0..places {
            told.push(None)?;
        }
        Ok(Memo { told })
    }

    /// The answer about the two numbers, if it is remembered.
    pub fn find(&self, first: u32, second: u32) -> Option<Answer>
        ensures { IfSome result (HasAnswer self.now.told.items first second) }
    {
        let place = place_of(first, second, self.told.len());
        if place >= self.told.len() {
            return None;
        }
        match self.told[place] {
            Some(told) => {
                if told.first == first && told.second == second {
                    return Some(told.answer);
                }
                None
            }
            None => None,
        }
    }

    /// Remembers the answer about the two numbers.
    pub fn note(&mut self, first: u32, second: u32, answer: Answer)
        ensures { HasNoted first second answer self.old.told.items self.new.told.items }
    {
        let place = place_of(first, second, self.told.len());
        if place < self.told.len() {
            self.told[place] = Some(Noted {
                first,
                second,
                answer,
            });
        }
    }

    /// Gives the table so many places. Answers whose place is taken by a later one are lost.
    pub fn grow(&mut self, alloc: Global, places: usize) -> Result<(), Memory>
        ensures { IfOk result (λ _. TellsNothingNew self.old.told.items self.new.told.items) }
    {
        let mut grown = Memo::new(alloc, places)?;
        for place in 0..self.told.len() {
            if let Some(told) = self.told[place] {
                grown.note(told.first, told.second, told.answer);
            }
        }
        self.told = grown.told;
        Ok(())
    }
}
