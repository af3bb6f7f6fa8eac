//! `upgrade CERT OUT`

ghost use Rattle.std.specs.Prelude.{◌≡◌, ℕ, List as Items, IfOk};
ghost use Rattle.cert_value.specs.WellFormed.{WellFormed};
ghost use Rattle.rabit_frame.specs.Reading.{AreOfKinds};
ghost use Rattle.rabit_cli.specs.Upgrade.{upgrade_inputs, upgrade_reply, MeansUpgrade};

use auto_core::{List, Memory};
use cert_text::{Cert, write_upgraded};
use rabit_frame::{Put, Reply, Slot, Status, Value, certificate, certificate_slot, line};
use std::alloc::Global;

/// The file that it reads.
pub fn slots<'a>(alloc: Global, name: &'a str) -> Result<List<Slot<'a>>, Memory>
    ensures { IfOk result (λ slots. slots ≡ upgrade_inputs name.entry.now) }
{
    let mut slots = List::new(alloc);
    slots.push(certificate_slot(name))?;
    Ok(slots)
}

/// The reply to the certificate: its text in version 2 is to be written under the name.
fn of_cert<'a>(alloc: Global, name: &'a str, cert: &Cert) -> Result<Reply<'a>, Memory>
    requires { WellFormed cert.now }
    ensures { IfOk result (λ reply. reply ≡ upgrade_reply name.entry.now cert.now) }
{
    let bytes = write_upgraded(alloc, cert)?;
    let mut puts = List::new(alloc);
    puts.push(Put { name, bytes })?;
    let text = line(alloc, "upgraded\n")?;
    Ok(Reply {
        status: Status::Done,
        text,
        puts,
    })
}

/// The reply to what was read.
pub fn reply<'a>(alloc: Global, name: &'a str, values: &[Value]) -> Result<Reply<'a>, Memory>
    requires { (c : Items ℕ) × AreOfKinds (upgrade_inputs c) values.now }
    ensures { IfOk result (MeansUpgrade name.entry.now values.now) }
{
    match values {
        [only] => of_cert(alloc, name, certificate(only)),
        _ => unreachable!(),
    }
}
