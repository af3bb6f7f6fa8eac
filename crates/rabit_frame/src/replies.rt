//! Replies that several commands have.

ghost use Rattle.std.specs.Prelude.{◌≡◌, ◌<◌, ◌≤◌, IfOk, All, length};
ghost use Rattle.ba_format.specs.declared.parts.Joined.{Joined};
ghost use Rattle.ba_format.specs.Writing.{written};
ghost use Rattle.rabit_frame.specs.Reading.{only_said, reply_with};
ghost use Rattle.rabit_frame.specs.Printed.{refused_text, included_text, not_included_text, word_not_included_text, limit_text};
ghost use Rattle.rabit_frame.specs.Replies.{HasLettersOf, usage_reply, too_large_reply, IsVerdictReply};

use crate::lines::line;
use crate::parts::{Put, Reply, Status};
use crate::word_texts::{push_lasso, push_word_line};
use auto_core::{Auto, Lasso, List, Memory, Mode, Word, append};
use ba_format::{Joined, Texts};
use cert_check::Refusal;
use cert_text::Body;
use std::alloc::Global;

/// How the program is used.
const USAGE: &str =
    "usage: rabit include A B CERT [--finite] [--look K] [--limit N] [--letters M] | check A B CERT | reduce A [--finite] [--look K] [--letters M] | drill SEED STATES LABELS | upgrade CERT OUT | cross A B OUT [--look K] | cross-check A B FILE | equal A B C1 C2 | batch LIST | union A B [--finite] | intersect A B [--finite] | shrink A B CERT OUT | empty A E CERT [--finite] | universal A U CERT [--finite]\n";

/// The reply with this status and this text, before which these files are written.
pub fn reply_with<'a>(status: Status, text: List<u8>, puts: List<Put<'a>>) -> Reply<'a>
    ensures { result ≡ reply_with status text puts.entry }
{
    Reply { status, text, puts }
}

/// The words ask nothing.
pub fn usage<'a>(alloc: Global) -> Result<Reply<'a>, Memory>
    ensures { IfOk result (λ reply. reply ≡ usage_reply) }
{
    let text = line(alloc, USAGE)?;
    Ok(Reply::saying(alloc, Status::Usage, text))
}

/// A certificate breaks the rule.
pub fn refused<'a>(alloc: Global, refusal: Refusal) -> Result<Reply<'a>, Memory>
    ensures { IfOk
        result (λ reply. reply ≡ only_said Status.BadCertificate (refused_text refusal)) }
{
    let item = refusal.item;
    let rule = refusal.rule;
    let text = format!(in alloc; "certificate item {item}: rule {rule}\n")?;
    let text = line(alloc, text.as_str())?;
    Ok(Reply::saying(alloc, Status::BadCertificate, text))
}

/// The automaton is printed.
pub fn printed<'a>(alloc: Global, made: &Auto, labels: &Texts) -> Result<Reply<'a>, Memory>
    requires { made.now.labels ≤ length labels.now }
    ensures { IfOk result (λ reply. reply ≡ only_said Status.Done (written made.now labels.now)) }
{
    let text = ba_format::write(alloc, made, labels)?;
    Ok(Reply::saying(alloc, Status::Done, text))
}

/// The automaton that was asked for is too large.
pub fn too_large<'a>(alloc: Global) -> Result<Reply<'a>, Memory>
    ensures { IfOk result (λ reply. reply ≡ too_large_reply) }
{
    let text = line(alloc, "too large\n")?;
    Ok(Reply::saying(alloc, Status::TooLarge, text))
}

/// The first automaton accepts the lasso, and the second does not.
fn not_included(alloc: Global, labels: &Texts, lasso: &Lasso) -> Result<List<u8>, Memory>
    requires prefix { All (λ a. a < length labels.now) lasso.now.prefix }
    requires turn { All (λ a. a < length labels.now) lasso.now.turn }
    ensures { IfOk result (λ text. text ≡ not_included_text labels.now lasso.now) }
{
    let mut text = List::new(alloc);
    append(&mut text, b"not included\n")?;
    push_lasso(&mut text, labels, lasso)?;
    Ok(text)
}

/// The first automaton accepts the word, and the second does not.
fn word_not_included(alloc: Global, labels: &Texts, word: &Word) -> Result<List<u8>, Memory>
    requires { All (λ a. a < length labels.now) word.now }
    ensures { IfOk result (λ text. text ≡ word_not_included_text labels.now word.now) }
{
    let mut text = List::new(alloc);
    append(&mut text, b"not included, finite\n")?;
    push_word_line(&mut text, labels, word)?;
    Ok(text)
}

/// The second automaton accepts each lasso, in finite mode each word, that the first accepts.
fn included(alloc: Global, mode: Mode) -> Result<List<u8>, Memory>
    ensures { IfOk result (λ text. text ≡ included_text mode) }
{
    match mode {
        Mode::Buchi => line(alloc, "included\n"),
        Mode::Finite => line(alloc, "included, finite\n"),
    }
}

/// The search met its limit.
pub fn limit_met(alloc: Global, limit: u32) -> Result<List<u8>, Memory>
    ensures { IfOk result (λ text. text ≡ limit_text limit) }
{
    let text = format!(in alloc; "limit {limit}\n")?;
    line(alloc, text.as_str())
}

/// What a right certificate of this mode with this body says, where these files are written before.
pub fn verdict<'a>(
    alloc: Global,
    mode: Mode,
    pair: &Joined,
    body: &Body,
    puts: List<Put<'a>>,
) -> Result<Reply<'a>, Memory>
    requires { HasLettersOf pair.now.labels body.now }
    ensures { IfOk result (IsVerdictReply mode pair.now body.now puts.entry) }
{
    match body {
        Body::Yes(_) => {
            let text = included(alloc, mode)?;
            Ok(reply_with(Status::Done, text, puts))
        },
        Body::NoLasso(lasso) => {
            let text = not_included(alloc, &pair.labels, lasso)?;
            Ok(reply_with(Status::Refuted, text, puts))
        },
        Body::Listing(list) => {
            let text = limit_met(alloc, list.limit)?;
            Ok(reply_with(Status::Limit, text, puts))
        },
        Body::NoWord(word) => {
            let text = word_not_included(alloc, &pair.labels, word)?;
            Ok(reply_with(Status::Refuted, text, puts))
        },
    }
}
