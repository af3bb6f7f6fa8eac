//! Reading a certificate's text that comes in pieces.

ghost use Rattle.std.specs.Prelude.{◌≡◌, ◌+◌, ◌^◌, ◌≤◌, ◌⊎◌, ◌++◌, List, ℕ, [], length, Ok, Err, IfOk, OnOk, OnErr, IsErr, MatchResult};
ghost use Rattle.cert_value.specs.declared.types.Cert.{Cert as ACert};
ghost use Rattle.cert_value.specs.Text.{text as text_of};
ghost use Rattle.cert_value.specs.WellFormed.{WellFormed};
ghost use Rattle.cert_text.specs.declared.faults.TextFault.{TextFault as AFault};
ghost use Rattle.cert_text.specs.declared.faults.CertReadFault.TheVariants as fault;
ghost use Rattle.ba_format.specs.Cut.{IsUnfinished, IsLineCut};
ghost use Rattle.cert_text.specs.Grammar.{reading};
ghost use Rattle.cert_text.specs.Told.{Told};
ghost use Rattle.cert_text.specs.Law.{FirstFault};
ghost use Rattle.cert_text.specs.Pieces.{AreCertLinesTaken, TellsFirstCertFault, HasReadCert, CertReaderLacksMemory};

use crate::faults::{CertReadFault, TextFault};
use crate::machine::{State, next_state};
use crate::read::{at_end, first_line, located};
use auto_core::Memory;
use cert_value::Cert;
use std::alloc::Global;
use std::mem;

/// What the lines so far come to.
#[derive(Drop)]
pub(crate) struct Lines {
    /// What is due, with what they said.
    pub(crate) state: State,
    /// The number of the line that comes next.
    pub(crate) number: u32,
}

impl Lines {
    /// Takes the line, the next of the text, without its LF.
    fn take(&mut self, alloc: Global, line: &[u8]) -> Result<(), CertReadFault>
        ensures taken { (text rest after : List ℕ)
            → AreCertLinesTaken self.old text rest
            → length text ≤ 2 ^ 30
            → IsLineCut rest line.now after
            → MatchResult result (λ _. AreCertLinesTaken self.new text after) (TellsFirstCertFault text) }
    {
        let state = mem::replace(&mut self.state, State::Heading);
        match next_state(alloc, state, line) {
            Ok(next) => {
                drop(mem::replace(&mut self.state, next));
                self.number = self.number.saturating_add(1);
                Ok(())
            }
            Err(fault) => Err(located(fault, self.number)),
        }
    }

    /// Takes the whole lines of what comes next in the text, and gives what stands after the last
    /// LF.
    fn take_whole<'p>(&mut self, alloc: Global, piece: &'p [u8]) -> Result<&'p [u8], CertReadFault>
        ensures unfinished { IfOk result (λ rest. IsUnfinished rest.now) }
        ensures taken { (text : List ℕ)
            → AreCertLinesTaken self.old text piece.now
            → length text ≤ 2 ^ 30
            → MatchResult result (λ rest. AreCertLinesTaken self.new text rest.now) (TellsFirstCertFault text) }
    {
        let mut rest = piece;
        while let Some((line, after)) = first_line(rest) {
            self.take(alloc, line)?;
            rest = after;
        }
        Ok(rest)
    }

    /// What comes of the text that ends with this line.
    fn end(self, line: &[u8]) -> Result<Cert, CertReadFault>
        ensures { (text : List ℕ) → AreCertLinesTaken self text line.now → IsUnfinished line.now
            → Told (reading text) result }
    {
        at_end(self.state, line, self.number)
    }
}

/// How far the reading of a text has come.
#[derive(Drop)]
enum Progress {
    /// No whole line so far has a fault.
    Faultless,
    /// The text has this first fault.
    Faulty(TextFault),
    /// The machine refused memory.
    Refused,
}

/// A reader of a certificate's text that comes in pieces. It keeps what the whole lines so far
/// said, and the unfinished line.
#[derive(Drop)]
pub struct CertReader {
    /// The allocator.
    alloc: Global,
    /// What the whole lines said.
    lines: Lines,
    /// The bytes after the last LF.
    line: Vec<u8>,
    /// How far it came.
    progress: Progress,
}

impl CertReader {
    /// A reader before the first piece. It takes no memory yet.
    pub fn empty(alloc: Global) -> CertReader
        ensures { HasReadCert result [] }
    {
        CertReader {
            alloc,
            lines: Lines {
                state: State::Heading,
                number: 1,
            },
            line: Vec::new(alloc),
            progress: Progress::Faultless,
        }
    }

    /// The same, never refused.
    pub fn new(alloc: Global) -> Result<CertReader, Memory>
        ensures { MatchResult result (λ reader. HasReadCert reader []) (λ _. ⊥) }
    {
        Ok(CertReader::empty(alloc))
    }

    /// Takes the whole lines of the piece, and keeps what stands after the last LF. No line is
    /// unfinished.
    fn take_lines(&mut self, piece: &[u8]) -> Result<(), CertReadFault>
        ensures progress { self.new.progress ≡ self.old.progress }
        ensures taken { (text : List ℕ)
            → AreCertLinesTaken self.old.lines text piece.now
            → length text ≤ 2 ^ 30
            → self.old.line.items ≡ []
            → MatchResult result (λ _. AreCertLinesTaken self.new.lines text self.new.line.items × IsUnfinished self.new.line.items) (TellsFirstCertFault text) }
    {
        let rest = self.lines.take_whole(self.alloc, piece)?;
        self.line.extend_from_slice(rest)?;
        Ok(())
    }

    /// Takes the whole lines of the piece, the first after what stands of it already, and keeps
    /// what stands after the last LF.
    fn take(&mut self, piece: &[u8]) -> Result<(), CertReadFault>
        ensures progress { self.new.progress ≡ self.old.progress }
        ensures taken { (text : List ℕ)
            → AreCertLinesTaken self.old.lines text (self.old.line.items ++ piece.now)
            → length text ≤ 2 ^ 30
            → IsUnfinished self.old.line.items
            → MatchResult result (λ _. AreCertLinesTaken self.new.lines text self.new.line.items × IsUnfinished self.new.line.items) (TellsFirstCertFault text) }
    {
        if self.line.is_empty() {
            return self.take_lines(piece);
        }
        let Some((line, rest)) = first_line(piece) else {
            self.line.extend_from_slice(piece)?;
            return Ok(());
        };
        self.line.extend_from_slice(line)?;
        self.lines.take(self.alloc, self.line.as_slice())?;
        self.line.clear();
        self.take_lines(rest)
    }

    /// Takes the next piece of the text. After a first fault it only counts as read. Where memory
    /// is refused, now or before, the reader answers want of memory from then on.
    pub fn feed(&mut self, piece: &[u8]) -> Result<(), Memory>
        ensures read { (bytes : List ℕ) → HasReadCert self.old bytes
            → length bytes + length piece.now ≤ 2 ^ 30 → HasReadCert self.new (bytes ++ piece.now) }
        ensures refused { OnErr result (CertReaderLacksMemory self.new) }
        ensures not_refused { OnOk result
            (CertReaderLacksMemory self.new → CertReaderLacksMemory self.old) }
        ensures stays_refused { CertReaderLacksMemory self.old → IsErr result }
    {
        match self.progress {
            Progress::Faulty(_) => return Ok(()),
            Progress::Refused => return Err(Memory),
            Progress::Faultless => {}
        }
        match self.take(piece) {
            Ok(()) => Ok(()),
            Err(CertReadFault::Text(fault)) => {
                self.progress = Progress::Faulty(fault);
                Ok(())
            }
            Err(CertReadFault::Memory) => {
                self.progress = Progress::Refused;
                Err(Memory)
            }
        }
    }

    /// What the pieces come to.
    fn told(self) -> Result<Cert, CertReadFault>
        ensures told { (bytes : List ℕ) → HasReadCert self bytes → Told (reading bytes) result }
        ensures refused { CertReaderLacksMemory self → result ≡ Err fault.Memory }
    {
        match self.progress {
            Progress::Faultless => self.lines.end(self.line.as_slice()),
            Progress::Faulty(fault) => {
                drop(self);
                Err(CertReadFault::Text(fault))
            }
            Progress::Refused => {
                drop(self);
                Err(CertReadFault::Memory)
            }
        }
    }

    /// The certificate whose text the pieces are, or the first fault of their text.
    pub fn finish(self) -> Result<Cert, CertReadFault>
        ensures found { (bytes : List ℕ) → HasReadCert self bytes
            → IfOk result (λ c. WellFormed c × (bytes ≡ text_of c)) }
        ensures only { (bytes : List ℕ) → HasReadCert self bytes → (c : ACert)
            → WellFormed c
            → bytes ≡ text_of c
            → (result ≡ Ok c) ⊎ (result ≡ Err fault.Memory) }
        ensures fault { (bytes : List ℕ) → HasReadCert self bytes → (f : AFault)
            → result ≡ Err (fault.Text f) → FirstFault bytes f }
        ensures first { (bytes : List ℕ) → HasReadCert self bytes → (f : AFault)
            → FirstFault bytes f
            → (result ≡ Err (fault.Text f)) ⊎ (result ≡ Err fault.Memory) }
        ensures refused { CertReaderLacksMemory self → result ≡ Err fault.Memory }
    {
        self.told()
    }
}
