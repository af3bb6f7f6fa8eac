//! Reading a text that comes in pieces.

ghost use Rattle.std.specs.Prelude.{◌≡◌, ◌+◌, ◌^◌, ◌≤◌, ◌⊎◌, ◌++◌, List, ℕ, [], length, position, Some, Ok, Err, IfOk, OnOk, OnErr, IsErr, MatchOption, MatchResult};
ghost use Rattle.std.specs.List.{before_first, after_first};
ghost use Rattle.ba_format.specs.Cut.{is_newline, HasNewline, IsUnfinished};
ghost use Rattle.ba_format.specs.declared.parts.BaFault.{BaFault as AFault};
ghost use Rattle.ba_format.specs.declared.parts.Limits.{Limits as TheLimits};
ghost use Rattle.ba_format.specs.Faults.{fault_of};
ghost use Rattle.ba_format.specs.Reading.{Reads, IsWithinLimits};
ghost use Rattle.ba_format.specs.Pieces.{AreTaken, TellsFirstFault, HasRead, ReaderLacksMemory};

use crate::cut::split_line;
use crate::draft::{Draft, NotTaken, Opening};
use crate::lines::trimmed;
use crate::parts::{BaFault, BaKind, Limits, Named, ReadFault};
use auto_core::Memory;
use std::alloc::Global;

/// What the lines so far bring.
#[derive(Drop)]
pub(crate) struct Lines {
    /// The most states, labels and transitions.
    pub(crate) limits: Limits,
    /// What they brought.
    pub(crate) draft: Draft,
    /// How many they are.
    pub(crate) count: u32,
}

impl Lines {
    /// Takes the line, the next of the text, without its LF.
    fn take(&mut self, line: &[u8]) -> Result<(), ReadFault>
        ensures limits { self.new.limits ≡ self.old.limits }
        ensures taken { (text rest : List ℕ)
            → AreTaken self.old text rest
            → length text ≤ 2 ^ 25
            → HasNewline rest
            → line.now ≡ before_first is_newline rest
            → MatchResult result (λ _. AreTaken self.new text (after_first is_newline rest)) (TellsFirstFault text self.old.limits) }
    {
        self.count = self.count.saturating_add(1);
        let line = trimmed(line);
        if line.is_empty() {
            return Ok(());
        }
        match self.draft.take(line, &self.limits) {
            Ok(()) => Ok(()),
            Err(NotTaken::Line(kind)) => Err(ReadFault::Ba(BaFault {
                line: self.count,
                kind,
            })),
            Err(NotTaken::Memory) => Err(ReadFault::Memory),
        }
    }

    /// Takes the whole lines of what comes next in the text, and gives what stands after the last
    /// LF.
    fn take_whole<'p>(&mut self, piece: &'p [u8]) -> Result<&'p [u8], ReadFault>
        ensures limits { self.new.limits ≡ self.old.limits }
        ensures unfinished { IfOk result (λ rest. IsUnfinished rest.now) }
        ensures taken { (text : List ℕ)
            → AreTaken self.old text piece.now
            → length text ≤ 2 ^ 25
            → MatchResult result (λ rest. AreTaken self.new text rest.now) (TellsFirstFault text self.old.limits) }
    {
        let mut rest = piece;
        while let Some((line, after)) = split_line(rest) {
            self.take(line)?;
            rest = after;
        }
        Ok(rest)
    }
}

impl Lines {
    /// The automaton that the lines say, with this as the last line, if there is one.
    fn end(self, alloc: Global, line: &[u8]) -> Result<Named, ReadFault>
        requires text { (text : List ℕ) × AreTaken self text line.now × (length text ≤ 2 ^ 24) }
        requires unfinished { IsUnfinished line.now }
        ensures named { (text : List ℕ) → AreTaken self text line.now → length text ≤ 2 ^ 24
            → IfOk result (Reads text self.limits) }
        ensures within { IfOk result (IsWithinLimits self.limits) }
        ensures fault { (text : List ℕ) → AreTaken self text line.now → length text ≤ 2 ^ 24
            → (fault : AFault) → result ≡ Err (ReadFault.Ba fault)
            → fault_of text self.limits ≡ Some fault }
    {
        let mut lines = self;
        match lines.take(line) {
            Ok(()) => {}
            Err(fault) => {
                drop(lines);
                return Err(fault);
            }
        }
        if let Opening::Nothing = lines.draft.opening {
            drop(lines);
            return Err(ReadFault::Ba(BaFault {
                line: 0,
                kind: BaKind::Empty,
            }));
        }
        Ok(lines.draft.into_named(alloc)?)
    }
}

/// How far the reading of a text has come.
#[derive(Drop)]
enum Progress {
    /// No whole line so far has a fault.
    Faultless,
    /// The text has this first fault.
    Faulty(BaFault),
    /// The machine refused memory.
    Refused,
}

/// A reader of a text that comes in pieces. It keeps what the whole lines so far brought, and the
/// unfinished line.
#[derive(Drop)]
pub struct Reader {
    /// The allocator.
    alloc: Global,
    /// What the whole lines brought.
    lines: Lines,
    /// The bytes after the last LF.
    line: Vec<u8>,
    /// How far it came.
    progress: Progress,
}

impl Reader {
    /// A reader before the first piece, for texts within these limits. It takes no memory yet.
    pub fn empty(alloc: Global, limits: &Limits) -> Reader
        ensures { HasRead result limits.now [] }
    {
        Reader {
            alloc,
            lines: Lines {
                limits: *limits,
                draft: Draft::new(alloc),
                count: 0,
            },
            line: Vec::new(alloc),
            progress: Progress::Faultless,
        }
    }

    /// The same, never refused.
    pub fn new(alloc: Global, limits: &Limits) -> Result<Reader, Memory>
        ensures { MatchResult result (λ reader. HasRead reader limits.now []) (λ _. ⊥) }
    {
        Ok(Reader::empty(alloc, limits))
    }

    /// Takes the whole lines of the piece, and keeps what stands after the last LF. No line is
    /// unfinished.
    fn take_lines(&mut self, piece: &[u8]) -> Result<(), ReadFault>
        ensures limits { self.new.lines.limits ≡ self.old.lines.limits }
        ensures progress { self.new.progress ≡ self.old.progress }
        ensures taken { (text : List ℕ)
            → AreTaken self.old.lines text piece.now
            → length text ≤ 2 ^ 25
            → self.old.line.items ≡ []
            → MatchResult result (λ _. AreTaken self.new.lines text self.new.line.items × IsUnfinished self.new.line.items) (TellsFirstFault text self.old.lines.limits) }
    {
        let rest = self.lines.take_whole(piece)?;
        self.line.extend_from_slice(rest)?;
        Ok(())
    }

    /// Takes the whole lines of the piece, the first after what stands of it already, and keeps
    /// what stands after the last LF.
    fn take(&mut self, piece: &[u8]) -> Result<(), ReadFault>
        ensures limits { self.new.lines.limits ≡ self.old.lines.limits }
        ensures progress { self.new.progress ≡ self.old.progress }
        ensures taken { (text : List ℕ)
            → AreTaken self.old.lines text (self.old.line.items ++ piece.now)
            → length text ≤ 2 ^ 25
            → IsUnfinished self.old.line.items
            → MatchResult result (λ _. AreTaken self.new.lines text self.new.line.items × IsUnfinished self.new.line.items) (TellsFirstFault text self.old.lines.limits) }
    {
        if self.line.is_empty() {
            return self.take_lines(piece);
        }
        let Some((line, rest)) = split_line(piece) else {
            self.line.extend_from_slice(piece)?;
            return Ok(());
        };
        self.line.extend_from_slice(line)?;
        self.lines.take(self.line.as_slice())?;
        self.line.clear();
        self.take_lines(rest)
    }

    /// Takes the next piece of the text. After a first fault it only counts as read. Where memory
    /// is refused, now or before, the reader answers want of memory from then on.
    pub fn feed(&mut self, piece: &[u8]) -> Result<(), Memory>
        ensures read { (limits : TheLimits) (bytes : List ℕ) → HasRead self.old limits bytes
            → length bytes + length piece.now ≤ 2 ^ 24
            → HasRead self.new limits (bytes ++ piece.now) }
        ensures refused { OnErr result (ReaderLacksMemory self.new) }
        ensures not_refused { OnOk result
            (ReaderLacksMemory self.new → ReaderLacksMemory self.old) }
        ensures stays_refused { ReaderLacksMemory self.old → IsErr result }
    {
        match self.progress {
            Progress::Faulty(_) => return Ok(()),
            Progress::Refused => return Err(Memory),
            Progress::Faultless => {}
        }
        match self.take(piece) {
            Ok(()) => Ok(()),
            Err(ReadFault::Ba(fault)) => {
                self.progress = Progress::Faulty(fault);
                Ok(())
            }
            Err(ReadFault::Memory) => {
                self.progress = Progress::Refused;
                Err(Memory)
            }
        }
    }

    /// What the pieces read as, or the first fault of their text, which has at most 16 MiB.
    pub fn finish(self) -> Result<Named, ReadFault>
        requires fed { (limits : TheLimits) × (bytes : List ℕ) × HasRead self limits bytes
            × (length bytes ≤ 2 ^ 24) }
        ensures named { (limits : TheLimits) (bytes : List ℕ) → HasRead self limits bytes
            → length bytes ≤ 2 ^ 24 → IfOk result (Reads bytes limits) }
        ensures within { (limits : TheLimits) (bytes : List ℕ) → HasRead self limits bytes
            → length bytes ≤ 2 ^ 24 → IfOk result (IsWithinLimits limits) }
        ensures fault { (limits : TheLimits) (bytes : List ℕ) → HasRead self limits bytes
            → length bytes ≤ 2 ^ 24 → (fault : AFault) → result ≡ Err (ReadFault.Ba fault)
            → fault_of bytes limits ≡ Some fault }
        ensures found { (limits : TheLimits) (bytes : List ℕ) → HasRead self limits bytes
            → length bytes ≤ 2 ^ 24 → (fault : AFault) → fault_of bytes limits ≡ Some fault
            → (result ≡ Err (ReadFault.Ba fault)) ⊎ (result ≡ Err ReadFault.Memory) }
        ensures refused { ReaderLacksMemory self → result ≡ Err ReadFault.Memory }
    {
        match self.progress {
            Progress::Faultless => self.lines.end(self.alloc, self.line.as_slice()),
            Progress::Faulty(fault) => {
                drop(self);
                Err(ReadFault::Ba(fault))
            }
            Progress::Refused => {
                drop(self);
                Err(ReadFault::Memory)
            }
        }
    }
}
