//! `check A B CERT`

ghost use Rattle.std.specs.Prelude.{◌≡◌, ℕ, List as Items, IfOk};
ghost use Rattle.ba_format.specs.declared.parts.Joined.{Joined as AJoined};
ghost use Rattle.ba_format.specs.Reading.{IsWithinLimits};
ghost use Rattle.ba_format.specs.Joining.{IsJoined};
ghost use Rattle.cert_value.specs.WellFormed.{WellFormed};
ghost use Rattle.rabit_frame.specs.Reading.{AreOfKinds};
ghost use Rattle.rabit_frame.specs.declared.files.TheConstants.{FIRST_LIMITS, SECOND_LIMITS};
ghost use Rattle.rabit_frame.specs.FileKinds.{HasLabelTexts};
ghost use Rattle.rabit_cli.specs.Check.{check_inputs, Concludes, MeansCheck};

use auto_core::{List, Memory};
use ba_format::{Joined, Named};
use cert_check::CheckFault;
use cert_text::Cert;
use rabit_frame::{
    Reply, Slot, Value, certificate, certificate_slot, first_automaton, first_slot, refused,
    second_automaton, second_slot, verdict,
};
use std::alloc::Global;

/// The files that it reads.
pub fn slots<'a>(
    alloc: Global,
    first: &'a str,
    second: &'a str,
    cert: &'a str,
) -> Result<List<Slot<'a>>, Memory>
    ensures { IfOk
        result (λ slots. slots ≡ check_inputs first.entry.now second.entry.now cert.entry.now) }
{
    let mut slots = List::new(alloc);
    slots.push(first_slot(first))?;
    slots.push(second_slot(second))?;
    slots.push(certificate_slot(cert))?;
    Ok(slots)
}

/// The reply to the joined automata and the certificate.
fn concluded<'a>(alloc: Global, pair: &Joined, cert: &Cert) -> Result<Reply<'a>, Memory>
    requires labels { HasLabelTexts pair.now }
    requires well_formed { WellFormed cert.now }
    ensures { IfOk result (Concludes pair.now cert.now) }
{
    match cert_check::check(alloc, pair, cert) {
        Ok(_verdict) => verdict(alloc, cert.mode, pair, &cert.body, List::new(alloc)),
        Err(CheckFault::Refused(refusal)) => refused(alloc, refusal),
        Err(CheckFault::Memory) => Err(Memory),
    }
}

/// The reply to the automata and the certificate.
fn checked<'a>(alloc: Global, one: &Named, two: &Named, cert: &Cert) -> Result<Reply<'a>, Memory>
    requires one { IsWithinLimits FIRST_LIMITS one.now }
    requires two { IsWithinLimits SECOND_LIMITS two.now }
    requires well_formed { WellFormed cert.now }
    ensures { IfOk
        result (λ reply.
        (pair : AJoined) × IsJoined one.now two.now pair × Concludes pair cert.now reply) }
{
    let pair = ba_format::join(alloc, one, two)?;
    concluded(alloc, &pair, cert)
}

/// The reply to what was read.
pub fn reply<'a>(alloc: Global, values: &[Value]) -> Result<Reply<'a>, Memory>
    requires { (a b c : Items ℕ) × AreOfKinds (check_inputs a b c) values.now }
    ensures { IfOk result (MeansCheck values.now) }
{
    match values {
        [first, second, third] => checked(
            alloc,
            first_automaton(first),
            second_automaton(second),
            certificate(third),
        ),
        _ => unreachable!(),
    }
}
