//! The files of the commands, as they were read.

ghost use Rattle.std.specs.Prelude.{◌≡◌};
ghost use Rattle.rabit_frame.specs.declared.parts.FileKind.TheVariants as kind;
ghost use Rattle.rabit_frame.specs.Reading.{IsOfKind};
ghost use Rattle.rabit_frame.specs.FileKinds.{automaton_file, certificate_file};

use crate::parts::{FileKind, Slot, Value};
use ba_format::{Limits, Named};
use cert_text::Cert;

/// The most states, labels and transitions of a second file.
pub const SECOND_LIMITS: Limits = Limits {
    states: 512,
    labels: 256,
    transitions: 65_536,
};

/// The most states, labels and transitions of a first file.
pub const FIRST_LIMITS: Limits = Limits {
    states: 2048,
    labels: 256,
    transitions: 65_536,
};

/// The file of an automaton with this number and these limits.
pub fn automaton_slot<'a>(number: u32, limits: Limits, name: &'a str) -> Slot<'a>
    ensures { result ≡ automaton_file number limits name.entry.now }
{
    Slot {
        name,
        kind: FileKind::Automaton { number, limits },
    }
}

/// A first automaton's file.
pub fn first_slot<'a>(name: &'a str) -> Slot<'a>
    ensures { result ≡ automaton_file 1 FIRST_LIMITS name.entry.now }
{
    automaton_slot(1, FIRST_LIMITS, name)
}

/// A second automaton's file.
pub fn second_slot<'a>(name: &'a str) -> Slot<'a>
    ensures { result ≡ automaton_file 2 SECOND_LIMITS name.entry.now }
{
    automaton_slot(2, SECOND_LIMITS, name)
}

/// A certificate's file.
pub fn certificate_slot<'a>(name: &'a str) -> Slot<'a>
    ensures { result ≡ certificate_file name.entry.now }
{
    Slot {
        name,
        kind: FileKind::Certificate,
    }
}

/// The second automaton that was read.
pub fn second_automaton(value: &Value) -> &Named
    requires { IsOfKind (kind.Automaton 2 SECOND_LIMITS) value.now }
    ensures { value.now ≡ Value.Automaton result.now }
{
    match value {
        Value::Automaton(named) => named,
        _ => unreachable!(),
    }
}

/// The first automaton that was read.
pub fn first_automaton(value: &Value) -> &Named
    requires { IsOfKind (kind.Automaton 1 FIRST_LIMITS) value.now }
    ensures { value.now ≡ Value.Automaton result.now }
{
    match value {
        Value::Automaton(named) => named,
        _ => unreachable!(),
    }
}

/// The certificate that was read.
pub fn certificate(value: &Value) -> &Cert
    requires { IsOfKind kind.Certificate value.now }
    ensures { value.now ≡ Value.Certificate result.now }
{
    match value {
        Value::Certificate(cert) => cert,
        _ => unreachable!(),
    }
}
