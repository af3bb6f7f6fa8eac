//! `shrink A B CERT OUT`

ghost use Rattle.std.specs.Prelude.{◌≡◌, ℕ, List as Items, IfOk, MatchOption};
ghost use Rattle.ba_format.specs.declared.parts.Joined.{Joined as AJoined};
ghost use Rattle.ba_format.specs.Reading.{IsWithinLimits};
ghost use Rattle.ba_format.specs.Joining.{IsJoined};
ghost use Rattle.cert_value.specs.WellFormed.{WellFormed};
ghost use Rattle.cert_check.specs.Rules.{KeepsRules};
ghost use Rattle.rabit_frame.specs.Reading.{AreOfKinds};
ghost use Rattle.rabit_frame.specs.declared.files.TheConstants.{SECOND_LIMITS, FIRST_LIMITS};
ghost use Rattle.rabit_frame.specs.FileKinds.{HasLabelTexts};
ghost use Rattle.rabit_frame.specs.Replies.{nothing_to_shrink_reply, IsNo};
ghost use Rattle.rabit_cli.specs.Check.{check_inputs};
ghost use Rattle.rabit_cli.specs.Shrink.{IsShrunkBody, IsShrinkReply, MeansShrink};

use crate::including::reply_to_answer;
use auto_core::Memory;
use ba_format::{Joined, Named};
use cert_check::CheckFault;
use cert_text::{Body, Cert};
use lasso_shrink::{shrink, shrink_word};
use rabit_frame::{Reply, Status, Value, certificate, first_automaton, line, second_automaton};
use std::alloc::Global;

/// The certificate is valid, and has neither a lasso nor a word.
fn nothing_to_shrink<'a>(alloc: Global) -> Result<Reply<'a>, Memory>
    ensures { IfOk result (λ reply. reply ≡ nothing_to_shrink_reply) }
{
    let text = line(alloc, "nothing to shrink\n")?;
    Ok(Reply::saying(alloc, Status::NothingToShrink, text))
}

/// The body with what is left of its lasso or of its word, if it has one.
fn left_of(alloc: Global, pair: &Joined, cert: &Cert) -> Result<Option<Body>, Memory>
    requires { KeepsRules pair.now cert.now }
    ensures { IfOk
        result (λ left.
        MatchOption left (¬ IsNo cert.now.body) (IsShrunkBody pair.now cert.now.body)) }
{
    match &cert.body {
        Body::NoLasso(lasso) => {
            let left = shrink(alloc, &pair.first, &pair.second, lasso)?;
            Ok(Some(Body::NoLasso(left)))
        },
        Body::NoWord(word) => {
            let left = shrink_word(alloc, &pair.first, &pair.second, word)?;
            Ok(Some(Body::NoWord(left)))
        },
        Body::Yes(_) => Ok(None),
        Body::Listing(_) => Ok(None),
    }
}

/// The reply to a valid certificate.
fn shrunk<'a>(alloc: Global, name: &'a str, pair: &Joined, cert: &Cert) -> Result<Reply<'a>, Memory>
    requires keeps { KeepsRules pair.now cert.now }
    ensures { IfOk result (IsShrinkReply name.entry.now pair.now cert.now) }
{
    let Some(body) = left_of(alloc, pair, cert)? else {
        return nothing_to_shrink(alloc);
    };
    let left = Cert {
        version: 1,
        mode: cert.mode,
        first_states: cert.first_states,
        second_states: cert.second_states,
        labels: cert.labels,
        body,
    };
    reply_to_answer(alloc, name, left.mode, pair, &left)
}

/// The reply to the joined automata and the certificate.
fn checked<'a>(
    alloc: Global,
    name: &'a str,
    pair: &Joined,
    cert: &Cert,
) -> Result<Reply<'a>, Memory>
    requires labels { HasLabelTexts pair.now }
    requires well_formed { WellFormed cert.now }
    ensures { IfOk result (IsShrinkReply name.entry.now pair.now cert.now) }
{
    match cert_check::check(alloc, pair, cert) {
        Ok(_verdict) => shrunk(alloc, name, pair, cert),
        Err(CheckFault::Refused(refusal)) => rabit_frame::refused(alloc, refusal),
        Err(CheckFault::Memory) => Err(Memory),
    }
}

/// The reply to the automata and the certificate.
fn of_three<'a>(
    alloc: Global,
    name: &'a str,
    one: &Named,
    two: &Named,
    cert: &Cert,
) -> Result<Reply<'a>, Memory>
    requires one { IsWithinLimits FIRST_LIMITS one.now }
    requires two { IsWithinLimits SECOND_LIMITS two.now }
    requires well_formed { WellFormed cert.now }
    ensures { IfOk
        result (λ reply.
        (pair : AJoined) × IsJoined one.now two.now pair
        × IsShrinkReply name.entry.now pair cert.now reply) }
{
    let pair = ba_format::join(alloc, one, two)?;
    checked(alloc, name, &pair, cert)
}

/// The reply to what was read.
pub fn reply<'a>(alloc: Global, name: &'a str, values: &[Value]) -> Result<Reply<'a>, Memory>
    requires { (a b c : Items ℕ) × AreOfKinds (check_inputs a b c) values.now }
    ensures { IfOk result (MeansShrink name.entry.now values.now) }
{
    match values {
        [first, second, third] => of_three(
            alloc,
            name,
            first_automaton(first),
            second_automaton(second),
            certificate(third),
        ),
        _ => unreachable!(),
    }
}
