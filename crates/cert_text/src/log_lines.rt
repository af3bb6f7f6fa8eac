//! The logs, read line by line straight on.

ghost use Rattle.std.specs.Prelude.{◌≡◌, ◌∷◌, [], ◌+◌, ◌^◌, ◌<◌};
ghost use Rattle.cert_line.specs.Lines.{gone_by_in, first_head_in, second_head_in};
ghost use Rattle.cert_line.specs.declared.heads.FirstHead.TheVariants as first_head;
ghost use Rattle.cert_text.specs.Grammar.{next_line, read_first_rest, read_first_steps, read_first_log, read_grounds, read_second_rest, read_second_steps, read_second_log};
ghost use Rattle.cert_text.specs.LinesLeft.{past, ReadsOn};

use crate::faults::CertReadFault;
use crate::lines::{Lines, placed};
use auto_core::{List, Mode};
use cert_line::{FirstHead, SecondHead, Tail, Way, first_head_in, gone_by_in, second_head_in};
use cert_value::{FirstStep, GoneBy, Grounds, Keyword, SecondStep, blocks_due};
use std::alloc::Global;

impl<'a, C> Lines<'a, C> {
    /// The head of a step of the first log.
    fn first_head(&mut self, alloc: Global) -> Result<FirstHead, CertReadFault>
        requires few { past self.old < 2 ^ 32 }
        ensures { ReadsOn {C = C} (next_line first_head_in) self.old self.new result }
    {
        let number = self.at();
        let line = self.next()?;
        placed(first_head_in(alloc, line), number)
    }

    /// What goes and by what.
    fn gone_by(&mut self, alloc: Global) -> Result<List<GoneBy>, CertReadFault>
        requires few { past self.old < 2 ^ 32 }
        ensures { ReadsOn {C = C} (next_line gone_by_in) self.old self.new result }
    {
        let number = self.at();
        let line = self.next()?;
        placed(gone_by_in(alloc, line), number)
    }

    /// The rest of a cut of the first log.
    fn first_cut(
        &mut self,
        alloc: Global,
        version: u32,
        pair: u32,
        look: u32,
    ) -> Result<FirstStep, CertReadFault>
        requires few { past self.old < 2 ^ 32 }
        ensures { ReadsOn {C = C} (read_first_rest version (first_head.Cut pair look)) self.old
            self.new result }
    {
        let gone = self.gone_by(alloc)?;
        let blocks = self.blocks(alloc, version, blocks_due(pair))?;
        Ok(FirstStep::Cut {
            pair,
            look,
            gone,
            blocks,
        })
    }

    /// The rest of a step of the first log.
    fn first_rest(
        &mut self,
        alloc: Global,
        version: u32,
        head: FirstHead,
    ) -> Result<FirstStep, CertReadFault>
        requires few { past self.old < 2 ^ 32 }
        ensures { ReadsOn {C = C} (read_first_rest version head) self.old self.new result }
    {
        match head {
            FirstHead::Trim(kept) => Ok(FirstStep::Trim { kept }),
            FirstHead::Merge => {
                let classes = self.classes(alloc)?;
                Ok(FirstStep::Merge { classes })
            }
            FirstHead::Cut(pair, look) => self.first_cut(alloc, version, pair, look),
        }
    }

    /// A step of the first log.
    fn first_step(&mut self, alloc: Global, version: u32) -> Result<FirstStep, CertReadFault>
        requires few { past self.old < 2 ^ 32 }
        ensures { ReadsOn {C = C}
            (λ next. next_line first_head_in (λ head. read_first_rest version head next))
            self.old self.new result }
    {
        let head = self.first_head(alloc)?;
        self.first_rest(alloc, version, head)
    }

    /// So many steps of the first log.
    fn first_steps(
        &mut self,
        alloc: Global,
        version: u32,
        count: u32,
    ) -> Result<List<FirstStep>, CertReadFault>
        requires few { past self.old < 2 ^ 32 }
        ensures { ReadsOn {C = C} (read_first_steps version count []) self.old self.new result }
    {
        let mut steps = List::new(alloc);
        for _step in 0..count {
            let step = self.first_step(alloc, version)?;
            steps.push(step)?;
        }
        Ok(steps)
    }

    /// The first log: the number of its steps, and the steps.
    pub fn first_log(
        &mut self,
        alloc: Global,
        version: u32,
    ) -> Result<List<FirstStep>, CertReadFault>
        requires few { past self.old < 2 ^ 32 }
        ensures { ReadsOn {C = C} (read_first_log version) self.old self.new result }
    {
        let count = self.number(Keyword::Log1)?;
        self.first_steps(alloc, version, count)
    }

    /// The head of a step of the second log.
    fn second_head(
        &mut self,
        alloc: Global,
        version: u32,
        mode: Mode,
    ) -> Result<SecondHead, CertReadFault>
        requires few { past self.old < 2 ^ 32 }
        ensures { ReadsOn {C = C} (next_line (second_head_in version mode)) self.old self.new
            result }
    {
        let number = self.at();
        let line = self.next()?;
        placed(second_head_in(alloc, version, mode, line), number)
    }

    /// The relation by which states of the second automaton are merged.
    fn merge(
        &mut self,
        alloc: Global,
        version: u32,
        way: Way,
        classes: List<u32>,
    ) -> Result<SecondStep, CertReadFault>
        requires few { past self.old < 2 ^ 32 }
        ensures { ReadsOn {C = C} (read_grounds version way classes) self.old self.new result }
    {
        match way {
            Way::Forward(look) => {
                let rel = self.block(alloc, version)?;
                let by = Grounds::Forward { look, rel };
                Ok(SecondStep::Merge { by, classes })
            }
            Way::Backward(look) => {
                let rel = self.block(alloc, version)?;
                let by = Grounds::Backward { look, rel };
                Ok(SecondStep::Merge { by, classes })
            }
            Way::Delayed(letters) => {
                let ranks = self.rank_block(alloc, letters)?;
                let by = Grounds::Delayed { letters, ranks };
                Ok(SecondStep::Merge { by, classes })
            }
        }
    }

    /// The rest of a step of the second log.
    fn second_rest(
        &mut self,
        alloc: Global,
        version: u32,
        head: SecondHead,
    ) -> Result<SecondStep, CertReadFault>
        requires few { past self.old < 2 ^ 32 }
        ensures { ReadsOn {C = C} (read_second_rest version head) self.old self.new result }
    {
        match head {
            SecondHead::Trim(kept) => Ok(SecondStep::Trim { kept }),
            SecondHead::Merge(way) => {
                let classes = self.classes(alloc)?;
                self.merge(alloc, version, way, classes)
            }
            SecondHead::Cut => {
                let gone = self.ascending(alloc, Keyword::Gone, Tail::SomeNumbers)?;
                Ok(SecondStep::Cut { gone })
            }
        }
    }

    /// A step of the second log.
    fn second_step(
        &mut self,
        alloc: Global,
        version: u32,
        mode: Mode,
    ) -> Result<SecondStep, CertReadFault>
        requires few { past self.old < 2 ^ 32 }
        ensures { ReadsOn {C = C}
            (λ next. next_line (second_head_in version mode) (λ head. read_second_rest version head next))
            self.old self.new result }
    {
        let head = self.second_head(alloc, version, mode)?;
        self.second_rest(alloc, version, head)
    }

    /// So many steps of the second log.
    fn second_steps(
        &mut self,
        alloc: Global,
        version: u32,
        mode: Mode,
        count: u32,
    ) -> Result<List<SecondStep>, CertReadFault>
        requires few { past self.old < 2 ^ 32 }
        ensures { ReadsOn {C = C} (read_second_steps version mode count []) self.old self.new
            result }
    {
        let mut steps = List::new(alloc);
        for _step in 0..count {
            let step = self.second_step(alloc, version, mode)?;
            steps.push(step)?;
        }
        Ok(steps)
    }

    /// The second log: the number of its steps, and the steps.
    pub fn second_log(
        &mut self,
        alloc: Global,
        version: u32,
        mode: Mode,
    ) -> Result<List<SecondStep>, CertReadFault>
        requires few { past self.old < 2 ^ 32 }
        ensures { ReadsOn {C = C} (read_second_log version mode) self.old self.new result }
    {
        let count = self.number(Keyword::Log2)?;
        self.second_steps(alloc, version, mode, count)
    }
}
