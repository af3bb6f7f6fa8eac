//! The reader of certificates.

ghost use Rattle.std.specs.Prelude.{◌≡◌, ◌==◌, ◌≤◌, ◌^◌, ◌∷◌, [], ℕ, length, position, ◌<◌, ◌⊎◌, Ok, Err, MatchOption, IfSome, IfOk};
ghost use Rattle.cert_value.specs.Tokens.{tokens_of};
ghost use Rattle.ba_format.specs.Cut.{IsUnfinished, IsLineCut};
ghost use Rattle.cert_text.specs.Grammar.{lines_of, told_at};
ghost use Rattle.cert_text.specs.Told.{Told, located};
ghost use Rattle.cert_text.specs.Machine.{done_cert, at_end};
ghost use Rattle.cert_text.specs.Law.{FirstFault};
ghost use Rattle.cert_value.specs.Text.{text};
ghost use Rattle.cert_value.specs.WellFormed.{WellFormed};
ghost use Rattle.cert_value.specs.declared.types.Cert.{Cert};
ghost use Rattle.cert_text.specs.declared.faults.TextFault.{TextFault};
ghost use Rattle.cert_text.specs.declared.faults.CertReadFault.TheVariants as fault;

use crate::faults::{CertReadFault, TextFault};
use crate::machine::State;
use crate::pieces::CertReader;
use ba_format::split_line;
use cert_line::{LineFault, TextKind};
use cert_value::Cert;
use std::alloc::Global;

/// The first line, without its LF, and what follows it.
pub(crate) fn first_line(bytes: &[u8]) -> Option<(&[u8], &[u8])>
    ensures cut { MatchOption result
        (lines_of bytes.now ≡ tokens_of bytes.now ∷ [])
        (λ cut. lines_of bytes.now ≡ tokens_of cut.0.now ∷ lines_of cut.1.now) }
    ensures ends { MatchOption result
        (IsUnfinished bytes.now) (λ cut. IsLineCut bytes.now cut.0.now cut.1.now) }
    ensures shorter { IfSome result (λ cut. length cut.1.now < length bytes.now) }
{
    split_line(bytes)
}

/// The fault, at the line with this number.
pub(crate) fn located(fault: LineFault, line: u32) -> CertReadFault
    ensures { result ≡ located line fault }
{
    match fault {
        LineFault::Text(kind) => CertReadFault::Text(TextFault { line, kind }),
        LineFault::Memory => CertReadFault::Memory,
    }
}

/// The certificate, where nothing is due any more.
fn done_cert(state: State) -> Option<Cert>
    ensures { result ≡ done_cert state }
{
    match state {
        State::Done(cert) => Some(cert),
        other => {
            drop(other);
            None
        }
    }
}

/// What comes of the bytes after the last LF.
pub(crate) fn at_end(state: State, rest: &[u8], line: u32) -> Result<Cert, CertReadFault>
    ensures { Told (told_at line (at_end state (tokens_of rest.now))) result }
{
    match done_cert(state) {
        Some(cert) => {
            if rest.is_empty() {
                Ok(cert)
            } else {
                Err(CertReadFault::Text(TextFault {
                    line,
                    kind: TextKind::Trailing,
                }))
            }
        }
        None => Err(CertReadFault::Text(TextFault {
            line,
            kind: TextKind::Truncated,
        })),
    }
}

/// Reads a certificate's text, of at most 1 GiB. It takes no memory for lines that have not come.
pub fn read_cert(alloc: Global, bytes: &[u8]) -> Result<Cert, CertReadFault>
    requires { length bytes.now ≤ 2 ^ 30 }
    ensures found { IfOk result (λ c. WellFormed c × (bytes.now ≡ text c)) }
    ensures only { (c : Cert)
        → WellFormed c
        → bytes.now ≡ text c
        → (result ≡ Ok c) ⊎ (result ≡ Err fault.Memory) }
    ensures fault { (f : TextFault) → result ≡ Err (fault.Text f) → FirstFault bytes.now f }
    ensures first { (f : TextFault)
        → FirstFault bytes.now f
        → (result ≡ Err (fault.Text f)) ⊎ (result ≡ Err fault.Memory) }
{
    let mut reader = CertReader::empty(alloc);
    match reader.feed(bytes) {
        Ok(()) => reader.finish(),
        Err(_refused) => {
            drop(reader);
            Err(CertReadFault::Memory)
        }
    }
}
