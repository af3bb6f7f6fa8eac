//! `equal A B C1 C2`

ghost use Rattle.std.specs.Prelude.{◌≡◌, ◌↔◌, ◌++◌, ℕ, List as Items, OnOk, IfOk, IsTrue};
ghost use Rattle.auto_core.specs.declared.parts.Mode.TheVariants.{Buchi};
ghost use Rattle.ba_format.specs.declared.parts.Joined.{Joined as AJoined};
ghost use Rattle.ba_format.specs.Reading.{IsWithinLimits};
ghost use Rattle.ba_format.specs.Joining.{IsJoined};
ghost use Rattle.cert_value.specs.declared.types.Cert.{Cert as ACert};
ghost use Rattle.cert_value.specs.Text.{form_of};
ghost use Rattle.decide.specs.Laws.{CanDecide};
ghost use Rattle.decide.specs.Answer.{IsAnswer};
ghost use Rattle.equal_batch.specs.declared.outcome.Both.{Both as ABoth};
ghost use Rattle.equal_batch.specs.Equality.{said_by_both};
ghost use Rattle.rabit_frame.specs.Reading.{AreOfKinds};
ghost use Rattle.rabit_frame.specs.Printed.{witness_lines, first_apart_text, second_apart_text};
ghost use Rattle.rabit_cli.specs.Include.{usual_terms};
ghost use Rattle.rabit_frame.specs.FileKinds.{certificate_put};
ghost use Rattle.rabit_frame.specs.Replies.{HasLettersOf, IsNo};
ghost use Rattle.rabit_cli.specs.Equal.{equal_inputs, first_apart_reply, both_reply, both_puts, IsBothReply, IsEqualReply, MeansEqual};

use crate::including::put_of;
use crate::joining::joined;
use auto_core::{List, Memory, Mode, append};
use ba_format::{Joined, Named, Texts};
use cert_text::{Body, Cert};
use equal_batch::{Both, both};
use rabit_frame::{
    Put, Reply, SECOND_LIMITS, Slot, Status, Value, automaton_slot, limit_met, line, push_lasso,
    push_word_line, reply_with,
};
use rabit_words::{USUAL_LIMIT, USUAL_LOOK};
use std::alloc::Global;

/// The files that it reads.
pub fn slots<'a>(alloc: Global, first: &'a str, second: &'a str) -> Result<List<Slot<'a>>, Memory>
    ensures { IfOk result (λ slots. slots ≡ equal_inputs first.entry.now second.entry.now) }
{
    let mut slots = List::new(alloc);
    slots.push(automaton_slot(1, SECOND_LIMITS, first))?;
    slots.push(automaton_slot(2, SECOND_LIMITS, second))?;
    Ok(slots)
}

/// Tells whether the answer is a no.
fn is_no(body: &Body) -> bool
    ensures { IsTrue result ↔ IsNo body.now }
{
    match body {
        Body::NoLasso(_) => true,
        Body::NoWord(_) => true,
        Body::Yes(_) => false,
        Body::Listing(_) => false,
    }
}

/// Appends what a no has.
fn push_witness(out: &mut List<u8>, labels: &Texts, body: &Body) -> Result<(), Memory>
    requires { HasLettersOf labels.now body.now }
    ensures { OnOk result (out.new ≡ out.old ++ witness_lines labels.now body.now) }
{
    match body {
        Body::NoLasso(lasso) => push_lasso(out, labels, lasso),
        Body::NoWord(word) => push_word_line(out, labels, word),
        Body::Yes(_) => Ok(()),
        Body::Listing(_) => Ok(()),
    }
}

/// The text of a no: what it begins with, and what the no has.
fn apart_text(alloc: Global, said: &str, labels: &Texts, body: &Body) -> Result<List<u8>, Memory>
    requires { HasLettersOf labels.now body.now }
    ensures { IfOk result (λ text. text ≡ said.now ++ witness_lines labels.now body.now) }
{
    let mut text = List::new(alloc);
    append(&mut text, said.as_bytes())?;
    push_witness(&mut text, labels, body)?;
    Ok(text)
}

/// The answer to whether the first automaton is included in the second.
fn answered(alloc: Global, pair: &Joined) -> Result<Cert, Memory>
    requires { CanDecide pair.now }
    ensures answer { IfOk result (IsAnswer pair.now (usual_terms Buchi)) }
    ensures letters { IfOk result (λ cert. HasLettersOf pair.now.labels cert.body) }
{
    decide::include(alloc, pair, Mode::Buchi, USUAL_LOOK, USUAL_LIMIT)
}

/// The reply by what both answers say together. The labels and the body are those of the second
/// answer.
fn both_reply<'a>(
    alloc: Global,
    said: Both,
    labels: &Texts,
    body: &Body,
    puts: List<Put<'a>>,
) -> Result<Reply<'a>, Memory>
    requires { HasLettersOf labels.now body.now }
    ensures { IfOk result (λ reply. reply ≡ both_reply said labels.now body.now puts.entry) }
{
    match said {
        Both::Equal => {
            let text = line(alloc, "equal\n")?;
            Ok(reply_with(Status::Done, text, puts))
        },
        Both::Limit => {
            let text = limit_met(alloc, USUAL_LIMIT)?;
            Ok(reply_with(Status::Limit, text, puts))
        },
        Both::FirstApart | Both::SecondApart => {
            let text = apart_text(alloc, "second not in first\n", labels, body)?;
            Ok(reply_with(Status::Refuted, text, puts))
        },
    }
}

/// Both certificates as they are to be written, in order.
fn both_puts<'a>(
    alloc: Global,
    certificate: &'a str,
    converse_name: &'a str,
    cert: &Cert,
    converse: &Cert,
) -> Result<List<Put<'a>>, Memory>
    ensures { IfOk
        result (λ puts.
        puts ≡ both_puts certificate.entry.now converse_name.entry.now cert.now converse.now) }
{
    let mut puts = List::new(alloc);
    puts.push(put_of(alloc, certificate, cert)?)?;
    puts.push(put_of(alloc, converse_name, converse)?)?;
    Ok(puts)
}

/// The reply to both answers, the second of which is for these two automata.
fn reply_to_answers<'a>(
    alloc: Global,
    certificate: &'a str,
    converse_name: &'a str,
    exchanged: &Joined,
    cert: &Cert,
    converse: &Cert,
) -> Result<Reply<'a>, Memory>
    requires { HasLettersOf exchanged.now.labels converse.now.body }
    ensures { IfOk
        result (λ reply.
        reply ≡ both_reply (said_by_both (form_of cert.now.body) (form_of converse.now.body))
        exchanged.now.labels converse.now.body
        (both_puts certificate.entry.now converse_name.entry.now cert.now converse.now)) }
{
    let puts = both_puts(alloc, certificate, converse_name, cert, converse)?;
    both_reply(
        alloc,
        both(cert, converse),
        &exchanged.labels,
        &converse.body,
        puts,
    )
}

/// The reply to the two automata in the other order, for which the answer is found.
fn of_exchanged<'a>(
    alloc: Global,
    certificate: &'a str,
    converse_name: &'a str,
    exchanged: &Joined,
    cert: &Cert,
) -> Result<Reply<'a>, Memory>
    requires { CanDecide exchanged.now }
    ensures { IfOk
        result (λ reply.
        (converse : ACert) × IsAnswer exchanged.now (usual_terms Buchi) converse
        × (reply ≡ both_reply (said_by_both (form_of cert.now.body) (form_of converse.body))
        exchanged.now.labels converse.body
        (both_puts certificate.entry.now converse_name.entry.now cert.now converse))) }
{
    let converse = answered(alloc, exchanged)?;
    reply_to_answers(
        alloc,
        certificate,
        converse_name,
        exchanged,
        cert,
        &converse,
    )
}

/// The reply where the first inclusion is not refuted: the second is decided too.
fn of_both<'a>(
    alloc: Global,
    certificate: &'a str,
    converse_name: &'a str,
    one: &Named,
    two: &Named,
    cert: &Cert,
) -> Result<Reply<'a>, Memory>
    requires one { IsWithinLimits SECOND_LIMITS one.now }
    requires two { IsWithinLimits SECOND_LIMITS two.now }
    ensures { IfOk result
        (IsBothReply certificate.entry.now converse_name.entry.now one.now two.now cert.now) }
{
    let exchanged = joined(alloc, two, one)?;
    of_exchanged(alloc, certificate, converse_name, &exchanged, cert)
}

/// The reply where the first is not included in the second: the certificate of that alone is
/// written.
fn first_apart<'a>(
    alloc: Global,
    certificate: &'a str,
    pair: &Joined,
    cert: &Cert,
) -> Result<Reply<'a>, Memory>
    requires { HasLettersOf pair.now.labels cert.now.body }
    ensures { IfOk
        result (λ reply. reply ≡ first_apart_reply certificate.entry.now pair.now cert.now) }
{
    let text = apart_text(alloc, "first not in second\n", &pair.labels, &cert.body)?;
    let mut puts = List::new(alloc);
    puts.push(put_of(alloc, certificate, cert)?)?;
    Ok(reply_with(Status::Refuted, text, puts))
}

/// The reply to the joined automata, for which this is the answer.
fn of_answer<'a>(
    alloc: Global,
    certificate: &'a str,
    converse_name: &'a str,
    one: &Named,
    two: &Named,
    pair: &Joined,
    cert: &Cert,
) -> Result<Reply<'a>, Memory>
    requires one { IsWithinLimits SECOND_LIMITS one.now }
    requires two { IsWithinLimits SECOND_LIMITS two.now }
    requires answer { IsAnswer pair.now (usual_terms Buchi) cert.now }
    requires letters { HasLettersOf pair.now.labels cert.now.body }
    ensures { IfOk result
        (IsEqualReply certificate.entry.now converse_name.entry.now one.now two.now pair.now) }
{
    if is_no(&cert.body) {
        first_apart(alloc, certificate, pair, cert)
    } else {
        of_both(alloc, certificate, converse_name, one, two, cert)
    }
}

/// The reply to the joined automata. All that is needed is decided before anything is written.
fn of_pair<'a>(
    alloc: Global,
    certificate: &'a str,
    converse_name: &'a str,
    one: &Named,
    two: &Named,
    pair: &Joined,
) -> Result<Reply<'a>, Memory>
    requires one { IsWithinLimits SECOND_LIMITS one.now }
    requires two { IsWithinLimits SECOND_LIMITS two.now }
    requires can { CanDecide pair.now }
    ensures { IfOk result
        (IsEqualReply certificate.entry.now converse_name.entry.now one.now two.now pair.now) }
{
    match answered(alloc, pair) {
        Ok(cert) => of_answer(alloc, certificate, converse_name, one, two, pair, &cert),
        Err(refused) => Err(refused),
    }
}

/// The reply to the automata.
fn compared<'a>(
    alloc: Global,
    certificate: &'a str,
    converse_name: &'a str,
    one: &Named,
    two: &Named,
) -> Result<Reply<'a>, Memory>
    requires one { IsWithinLimits SECOND_LIMITS one.now }
    requires two { IsWithinLimits SECOND_LIMITS two.now }
    ensures { IfOk
        result (λ reply.
        (pair : AJoined) × IsJoined one.now two.now pair
        × IsEqualReply certificate.entry.now converse_name.entry.now one.now two.now pair reply) }
{
    let pair = joined(alloc, one, two)?;
    of_pair(alloc, certificate, converse_name, one, two, &pair)
}

/// The reply to what was read.
pub fn reply<'a>(
    alloc: Global,
    certificate: &'a str,
    converse_name: &'a str,
    values: &[Value],
) -> Result<Reply<'a>, Memory>
    requires { (a b : Items ℕ) × AreOfKinds (equal_inputs a b) values.now }
    ensures { IfOk result (MeansEqual certificate.entry.now converse_name.entry.now values.now) }
{
    match values {
        [Value::Automaton(one), Value::Automaton(two)] => compared(
            alloc,
            certificate,
            converse_name,
            one,
            two,
        ),
        _ => unreachable!(),
    }
}
