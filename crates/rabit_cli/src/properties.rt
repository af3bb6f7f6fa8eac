//! What `empty` and `universal` have in common: an automaton is read and another is made, and the
//! one's inclusion in the other is decided.

ghost use Rattle.std.specs.Prelude.{◌≡◌, ◌≤◌, ◌<◌, ◌^◌, ◌++◌, ◌∷◌, [], length, All, None, IfOk, OnOk, codes};
ghost use Rattle.ba_format.specs.Faults.{fault_of};
ghost use Rattle.ba_format.specs.Reading.{Reads, IsWithinLimits};
ghost use Rattle.decide.specs.Laws.{CanDecide};
ghost use Rattle.rabit_frame.specs.Lines.{line_end};
ghost use Rattle.rabit_frame.specs.Printed.{lasso_lines, word_line, holds_text, lasso_against_text, word_against_text};
ghost use Rattle.rabit_frame.specs.Replies.{HasLettersOf};
ghost use Rattle.rabit_frame.specs.FileKinds.{automaton_file};
ghost use Rattle.rabit_cli.specs.Property.{property_puts, IsPropertyReply, IsPropertyDecided};

use crate::including::put_of;
use auto_core::{Lasso, List, Memory, Mode, Word, append};
use ba_format::{Joined, Limits, Named, ReadFault, Texts};
use cert_text::{Body, Cert};
use rabit_frame::{
    Put, Reply, SECOND_LIMITS, Slot, Status, automaton_slot, limit_met, push_lasso, push_word_line,
    reply_with,
};
use rabit_words::{USUAL_LIMIT, USUAL_LOOK};
use std::alloc::Global;

/// The file that they read, with these limits.
pub fn slots<'a>(alloc: Global, limits: Limits, name: &'a str) -> Result<List<Slot<'a>>, Memory>
    ensures { IfOk result (λ slots. slots ≡ automaton_file 1 limits name.entry.now ∷ []) }
{
    let mut slots = List::new(alloc);
    slots.push(automaton_slot(1, limits, name))?;
    Ok(slots)
}

/// The automaton that the made text reads as.
pub fn read_back(alloc: Global, text: &[u8]) -> Result<Named, Memory>
    requires short { length text.now ≤ 2 ^ 24 }
    requires faultless { fault_of text.now SECOND_LIMITS ≡ None }
    ensures reads { IfOk result (Reads text.now SECOND_LIMITS) }
    ensures within { IfOk result (IsWithinLimits SECOND_LIMITS) }
{
    match ba_format::read(alloc, text, &SECOND_LIMITS) {
        Ok(named) => Ok(named),
        Err(ReadFault::Ba(_fault)) => unreachable!(),
        Err(ReadFault::Memory) => Err(Memory),
    }
}

/// The automaton has the property.
fn holds(alloc: Global, property: &str) -> Result<List<u8>, Memory>
    ensures { IfOk result (λ text. text ≡ holds_text property.now) }
{
    let mut text = List::new(alloc);
    append(&mut text, property.as_bytes())?;
    append(&mut text, b"\n")?;
    Ok(text)
}

/// The automaton has not the property.
fn fails(alloc: Global, property: &str) -> Result<List<u8>, Memory>
    ensures { IfOk result (λ text. text ≡ codes "not " ++ (property.now ++ line_end)) }
{
    let mut text = List::new(alloc);
    append(&mut text, b"not ")?;
    append(&mut text, property.as_bytes())?;
    append(&mut text, b"\n")?;
    Ok(text)
}

/// The lasso shows that the automaton has not the property.
fn fails_by_lasso(
    alloc: Global,
    property: &str,
    labels: &Texts,
    lasso: &Lasso,
) -> Result<List<u8>, Memory>
    requires prefix { All (λ a. a < length labels.now) lasso.now.prefix }
    requires turn { All (λ a. a < length labels.now) lasso.now.turn }
    ensures { IfOk result (λ text. text ≡ lasso_against_text property.now labels.now lasso.now) }
{
    let mut text = fails(alloc, property)?;
    push_lasso(&mut text, labels, lasso)?;
    Ok(text)
}

/// The word shows that the automaton has not the property.
fn fails_by_word(
    alloc: Global,
    property: &str,
    labels: &Texts,
    word: &Word,
) -> Result<List<u8>, Memory>
    requires { All (λ a. a < length labels.now) word.now }
    ensures { IfOk result (λ text. text ≡ word_against_text property.now labels.now word.now) }
{
    let mut text = fails(alloc, property)?;
    push_word_line(&mut text, labels, word)?;
    Ok(text)
}

/// What an answer with this body says of the property, where these files are written before.
fn verdict<'a>(
    alloc: Global,
    property: &str,
    pair: &Joined,
    body: &Body,
    puts: List<Put<'a>>,
) -> Result<Reply<'a>, Memory>
    requires { HasLettersOf pair.now.labels body.now }
    ensures { IfOk result (IsPropertyReply property.now pair.now body.now puts.entry) }
{
    match body {
        Body::Yes(_) => {
            let text = holds(alloc, property)?;
            Ok(reply_with(Status::Done, text, puts))
        },
        Body::NoLasso(lasso) => {
            let text = fails_by_lasso(alloc, property, &pair.labels, lasso)?;
            Ok(reply_with(Status::Refuted, text, puts))
        },
        Body::NoWord(word) => {
            let text = fails_by_word(alloc, property, &pair.labels, word)?;
            Ok(reply_with(Status::Refuted, text, puts))
        },
        Body::Listing(list) => {
            let text = limit_met(alloc, list.limit)?;
            Ok(reply_with(Status::Limit, text, puts))
        },
    }
}

/// The made text and the answer's as they are to be written, in this order.
fn puts_of<'a>(
    alloc: Global,
    made: Put<'a>,
    certificate: &'a str,
    cert: &Cert,
) -> Result<List<Put<'a>>, Memory>
    ensures { IfOk
        result (λ puts.
        puts ≡ property_puts made.entry.name made.entry.bytes certificate.entry.now cert.now) }
{
    let answer = put_of(alloc, certificate, cert)?;
    let mut puts = List::new(alloc);
    puts.push(made)?;
    puts.push(answer)?;
    Ok(puts)
}

/// The reply to the joined automata and the answer for them.
fn reply_to_answer<'a>(
    alloc: Global,
    property: &str,
    made: Put<'a>,
    certificate: &'a str,
    pair: &Joined,
    cert: &Cert,
) -> Result<Reply<'a>, Memory>
    requires { HasLettersOf pair.now.labels cert.now.body }
    ensures { IfOk result
        (IsPropertyReply property.now pair.now cert.now.body
        (property_puts made.entry.name made.entry.bytes certificate.entry.now cert.now)) }
{
    let puts = puts_of(alloc, made, certificate, cert)?;
    verdict(alloc, property, pair, &cert.body, puts)
}

/// The reply to the joined automata: the made text and the answer's are to be written, in this
/// order.
pub fn decided<'a>(
    alloc: Global,
    property: &str,
    made: Put<'a>,
    certificate: &'a str,
    mode: Mode,
    pair: &Joined,
) -> Result<Reply<'a>, Memory>
    requires { CanDecide pair.now }
    ensures { IfOk result
        (IsPropertyDecided property.now made.entry.bytes made.entry.name certificate.entry.now mode
        pair.now) }
{
    let cert = decide::include(alloc, pair, mode, USUAL_LOOK, USUAL_LIMIT)?;
    reply_to_answer(alloc, property, made, certificate, pair, &cert)
}
