//! `include A B CERT`, with `--finite`, `--look K`, `--limit N` and `--letters M`

ghost use Rattle.std.specs.Prelude.{◌≡◌, ◌≤◌, ◌∷◌, [], ℕ, List as Items, IfOk};
ghost use Rattle.ba_format.specs.declared.parts.Joined.{Joined as AJoined};
ghost use Rattle.ba_format.specs.Reading.{IsWithinLimits};
ghost use Rattle.ba_format.specs.Joining.{IsJoined};
ghost use Rattle.decide.specs.Terms.{AreBounded};
ghost use Rattle.rabit_frame.specs.Reading.{AreOfKinds};
ghost use Rattle.rabit_frame.specs.declared.files.TheConstants.{FIRST_LIMITS, SECOND_LIMITS};
ghost use Rattle.rabit_frame.specs.FileKinds.{pair_inputs, certificate_put};
ghost use Rattle.rabit_frame.specs.Replies.{HasLettersOf, IsVerdictReply};
ghost use Rattle.rabit_cli.specs.Include.{terms_by, IsDecided, MeansInclude};

use crate::joining::joined;
use auto_core::{List, Memory, Mode};
use ba_format::{Joined, Named};
use cert_text::{Cert, write_cert};
use decide::Terms;
use rabit_frame::{Put, Reply, Slot, Value, first_slot, second_slot};
use rabit_words::USUAL_LETTERS;
use std::alloc::Global;

/// The files that it reads.
pub fn slots<'a>(alloc: Global, first: &'a str, second: &'a str) -> Result<List<Slot<'a>>, Memory>
    ensures { IfOk result (λ slots. slots ≡ pair_inputs first.entry.now second.entry.now) }
{
    let mut slots = List::new(alloc);
    slots.push(first_slot(first))?;
    slots.push(second_slot(second))?;
    Ok(slots)
}

/// The terms of a decision with this mode, lookahead (1 to 6) and limit (1 to 100,000), where so
/// many letters (1 to 4) are asked for in the delayed games, or none are named: then one is, and the
/// certificate is of version 1.
pub fn terms_named(mode: Mode, look: u32, limit: u32, letters: Option<u32>) -> Terms
    ensures { result ≡ terms_by mode look limit letters }
{
    match letters {
        None => Terms {
            mode,
            look,
            letters: USUAL_LETTERS,
            version: 1,
            limit,
        },
        Some(letters) => Terms {
            mode,
            look,
            letters,
            version: 2,
            limit,
        },
    }
}

/// The certificate as it is to be written under the name.
pub(crate) fn put_of<'a>(alloc: Global, name: &'a str, cert: &Cert) -> Result<Put<'a>, Memory>
    ensures { IfOk result (λ put. put ≡ certificate_put name.entry.now cert.now) }
{
    let bytes = write_cert(alloc, cert)?;
    Ok(Put { name, bytes })
}

/// The reply to the joined automata and the answer for them, which is to be written under the name.
pub(crate) fn reply_to_answer<'a>(
    alloc: Global,
    name: &'a str,
    mode: Mode,
    pair: &Joined,
    cert: &Cert,
) -> Result<Reply<'a>, Memory>
    requires { HasLettersOf pair.now.labels cert.now.body }
    ensures { IfOk result
        (IsVerdictReply mode pair.now cert.now.body
        (certificate_put name.entry.now cert.now ∷ [])) }
{
    let mut puts = List::new(alloc);
    puts.push(put_of(alloc, name, cert)?)?;
    rabit_frame::verdict(alloc, mode, pair, &cert.body, puts)
}

/// The reply to the automata: the answer's text is to be written under the name.
fn decided<'a>(
    alloc: Global,
    name: &'a str,
    terms: Terms,
    one: &Named,
    two: &Named,
) -> Result<Reply<'a>, Memory>
    requires one { IsWithinLimits FIRST_LIMITS one.now }
    requires two { IsWithinLimits SECOND_LIMITS two.now }
    requires bounded { AreBounded terms }
    requires limit_from { 1 ≤ terms.limit }
    ensures { IfOk
        result (λ reply.
        (pair : AJoined) × IsJoined one.now two.now pair
        × IsDecided name.entry.now terms pair reply) }
{
    let pair = joined(alloc, one, two)?;
    let cert = decide::answer(alloc, &pair, terms)?;
    reply_to_answer(alloc, name, terms.mode, &pair, &cert)
}

/// The reply to what was read.
pub fn reply<'a>(
    alloc: Global,
    name: &'a str,
    terms: Terms,
    values: &[Value],
) -> Result<Reply<'a>, Memory>
    requires kinds { (a b : Items ℕ) × AreOfKinds (pair_inputs a b) values.now }
    requires bounded { AreBounded terms }
    requires limit_from { 1 ≤ terms.limit }
    ensures { IfOk result (MeansInclude name.entry.now terms values.now) }
{
    match values {
        [Value::Automaton(one), Value::Automaton(two)] => decided(alloc, name, terms, one, two),
        _ => unreachable!(),
    }
}
