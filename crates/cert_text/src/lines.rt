//! What is left of a text, read line by line to a value.

ghost use Rattle.std.specs.Prelude.{◌≡◌, ◌∷◌, [], ◌+◌, ◌≤◌, ◌^◌, ◌<◌, ℕ, length, MatchResult};
ghost use Rattle.cert_value.specs.Tokens.{tokens_of};
ghost use Rattle.cert_value.specs.Text.{Line};
ghost use Rattle.cert_value.specs.WellFormed.{has_some};
ghost use Rattle.cert_value.specs.declared.keywords.Keyword.TheVariants as keyword;
ghost use Rattle.cert_line.specs.Agrees.{Agrees};
ghost use Rattle.cert_line.specs.Lines.{word_in, number_in, numbers_in, ascending_in, sizes_in};
ghost use Rattle.cert_text.specs.Grammar.{lines_of, next_line, read_classes, read_lasso};
ghost use Rattle.cert_text.specs.LinesLeft.{Left, past, ReadsOn, TakesLineOff, RunsOut, IsAtEnd, placed};

use crate::faults::{CertReadFault, TextFault};
use crate::read::{first_line, located};
use auto_core::{Lasso, List};
use cert_line::{
    LineFault, Sizes, Tail, TextKind, ascending_in, number_in, numbers_in, sizes_in, word_in,
};
use cert_value::Keyword;
use std::alloc::Global;
use std::marker::{Model, PhantomData};

/// What is left of a text that is read to a value, seen by contracts as its lines with the number
/// of the first of them.
#[derive(Drop)]
pub struct Lines<'a, C> {
    rest: &'a [u8],
    number: u32,
    value: PhantomData<C>,
}

impl<'a, C> Model for Lines<'a, C> {
    ghost use Rattle.cert_text.specs.Grammar.{lines_of};
    ghost use Rattle.cert_text.specs.LinesLeft.{Left};

    ghost Value = { Left };

    ghost view = { λ l. (lines_of l.rest.now, l.number) };
}

/// What a line says, its fault at the line with this number.
pub fn placed<T>(said: Result<T, LineFault>, line: u32) -> Result<T, CertReadFault>
    ensures { result ≡ placed line said }
{
    match said {
        Ok(told) => Ok(told),
        Err(fault) => Err(located(fault, line)),
    }
}

impl<'a, C> Lines<'a, C> {
    /// All lines of the text.
    pub fn of(bytes: &'a [u8]) -> Lines<'a, C>
        ensures { result ≡ (lines_of bytes.now, 1) }
    {
        Lines {
            rest: bytes,
            number: 1,
            value: PhantomData,
        }
    }

    /// The number of the next line.
    pub fn at(&self) -> u32
        ensures { result ≡ self.now.1 }
    {
        self.number
    }

    /// The next whole line, without its LF.
    pub fn next(&mut self) -> Result<&'a [u8], CertReadFault>
        requires few { past self.old < 2 ^ 32 }
        ensures { MatchResult result (λ line. TakesLineOff self.old self.new (tokens_of line.now))
            (RunsOut self.old) }
    {
        match first_line(self.rest) {
            None => Err(CertReadFault::Text(TextFault {
                line: self.number,
                kind: TextKind::Truncated,
            })),
            Some((line, rest)) => {
                self.rest = rest;
                self.number += 1;
                Ok(line)
            }
        }
    }

    /// The line of sizes.
    pub fn sizes(&mut self) -> Result<Sizes, CertReadFault>
        requires few { past self.old < 2 ^ 32 }
        ensures { ReadsOn {C = C} (next_line sizes_in) self.old self.new result }
    {
        let number = self.at();
        let line = self.next()?;
        placed(sizes_in(line), number)
    }

    /// A line of this word and a number.
    pub fn number(&mut self, keyword: Keyword) -> Result<u32, CertReadFault>
        requires few { past self.old < 2 ^ 32 }
        ensures { ReadsOn {C = C} (next_line (number_in keyword)) self.old self.new result }
    {
        let number = self.at();
        let line = self.next()?;
        placed(number_in(keyword, line), number)
    }

    /// A line of this word and numbers.
    pub fn numbers(
        &mut self,
        alloc: Global,
        keyword: Keyword,
        tail: Tail,
    ) -> Result<List<u32>, CertReadFault>
        requires few { past self.old < 2 ^ 32 }
        ensures { ReadsOn {C = C} (next_line (numbers_in keyword tail)) self.old self.new result }
    {
        let number = self.at();
        let line = self.next()?;
        placed(numbers_in(alloc, keyword, tail, line), number)
    }

    /// A line of this word and numbers that ascend.
    pub fn ascending(
        &mut self,
        alloc: Global,
        keyword: Keyword,
        tail: Tail,
    ) -> Result<List<u32>, CertReadFault>
        requires few { past self.old < 2 ^ 32 }
        ensures { ReadsOn {C = C} (next_line (ascending_in keyword tail)) self.old self.new result }
    {
        let number = self.at();
        let line = self.next()?;
        placed(ascending_in(alloc, keyword, tail, line), number)
    }

    /// The classes of states.
    pub fn classes(&mut self, alloc: Global) -> Result<List<u32>, CertReadFault>
        requires few { past self.old < 2 ^ 32 }
        ensures { ReadsOn {C = C} read_classes self.old self.new result }
    {
        self.numbers(alloc, Keyword::Classes, Tail::SomeNumbers)
    }

    /// A lasso.
    pub fn lasso(&mut self, alloc: Global) -> Result<Lasso, CertReadFault>
        requires few { past self.old < 2 ^ 32 }
        ensures { ReadsOn {C = C} read_lasso self.old self.new result }
    {
        let prefix = self.numbers(alloc, Keyword::Prefix, Tail::Numbers)?;
        let turn = self.numbers(alloc, Keyword::Loop, Tail::SomeNumbers)?;
        Ok(Lasso { prefix, turn })
    }

    /// The last line.
    pub fn end(&mut self) -> Result<(), CertReadFault>
        requires few { past self.old < 2 ^ 32 }
        ensures { ReadsOn {C = C} (next_line (word_in keyword.End)) self.old self.new result }
    {
        let number = self.at();
        let line = self.next()?;
        placed(word_in(Keyword::End, line), number)
    }

    /// Tells that no byte is left, or where one is.
    pub fn finish(&self) -> Result<(), CertReadFault>
        ensures { IsAtEnd C self.now result }
    {
        if self.rest.is_empty() {
            return Ok(());
        }
        Err(CertReadFault::Text(TextFault {
            line: self.number,
            kind: TextKind::Trailing,
        }))
    }
}
