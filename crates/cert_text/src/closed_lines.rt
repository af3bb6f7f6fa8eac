//! What a yes has after its logs, read line by line straight on.

ghost use Rattle.std.specs.Prelude.{◌≡◌, ◌∷◌, [], ◌+◌, ◌^◌, ◌<◌};
ghost use Rattle.cert_value.specs.declared.keywords.Keyword.TheVariants as keyword;
ghost use Rattle.cert_line.specs.Lines.{number_in, element_in, step_in};
ghost use Rattle.cert_text.specs.Grammar.{next_line, read_elements, read_steps, read_closed};
ghost use Rattle.cert_text.specs.LinesLeft.{past, ReadsOn};

use crate::faults::CertReadFault;
use crate::lines::{Lines, placed};
use crate::parts::Closed;
use auto_core::{List, Mode};
use cert_line::{Tail, element_in, step_in};
use cert_value::{Element, Keyword, StepLine, is_live};
use std::alloc::Global;

impl<'a, C> Lines<'a, C> {
    /// An element.
    fn element(&mut self, mode: Mode) -> Result<Element, CertReadFault>
        requires few { past self.old < 2 ^ 32 }
        ensures { ReadsOn {C = C} (next_line (element_in mode)) self.old self.new result }
    {
        let number = self.at();
        let line = self.next()?;
        placed(element_in(mode, line), number)
    }

    /// So many elements.
    fn so_many_elements(
        &mut self,
        alloc: Global,
        mode: Mode,
        count: u32,
    ) -> Result<List<Element>, CertReadFault>
        requires few { past self.old < 2 ^ 32 }
        ensures { ReadsOn {C = C} (read_elements mode count []) self.old self.new result }
    {
        let mut elements = List::new(alloc);
        for _element in 0..count {
            let element = self.element(mode)?;
            elements.push(element)?;
        }
        Ok(elements)
    }

    /// The elements: their number, and then they.
    pub fn elements(&mut self, alloc: Global, mode: Mode) -> Result<List<Element>, CertReadFault>
        requires few { past self.old < 2 ^ 32 }
        ensures { ReadsOn {C = C}
            (λ next. next_line (number_in keyword.Elements) (λ n. read_elements mode n [] next))
            self.old self.new result }
    {
        let count = self.number(Keyword::Elements)?;
        self.so_many_elements(alloc, mode, count)
    }

    /// The line of the live element with this number.
    fn step(&mut self, alloc: Global, number: usize) -> Result<StepLine, CertReadFault>
        requires few { past self.old < 2 ^ 32 }
        ensures { ReadsOn {C = C} (next_line (step_in number)) self.old self.new result }
    {
        let place = self.at();
        let line = self.next()?;
        placed(step_in(alloc, number, line), place)
    }

    /// One line for each of the elements that is live, in order.
    pub fn steps(
        &mut self,
        alloc: Global,
        elements: &[Element],
    ) -> Result<List<StepLine>, CertReadFault>
        requires few { past self.old < 2 ^ 32 }
        ensures { ReadsOn {C = C} (read_steps 0 elements.now []) self.old self.new result }
    {
        let mut steps = List::new(alloc);
        for at in 0..elements.len() {
            if is_live(elements[at].mark) {
                let step = self.step(alloc, at)?;
                steps.push(step)?;
            }
        }
        Ok(steps)
    }

    /// The order, the elements, their cover and their extensions.
    pub fn closed(
        &mut self,
        alloc: Global,
        version: u32,
        mode: Mode,
    ) -> Result<Closed, CertReadFault>
        requires few { past self.old < 2 ^ 32 }
        ensures { ReadsOn {C = C} (read_closed version mode) self.old self.new result }
    {
        let order = self.block(alloc, version)?;
        let elements = self.elements(alloc, mode)?;
        let cover = self.numbers(alloc, Keyword::Cover, Tail::Numbers)?;
        let steps = self.steps(alloc, elements.as_slice())?;
        Ok(Closed {
            order,
            elements,
            cover,
            steps,
        })
    }
}
