//! The check of a certificate.

ghost use Rattle.std.specs.Prelude.{◌≡◌, ◌↔◌, ℕ, IfOk, IsTrue, length, true, Err};
ghost use Rattle.auto_core.specs.Automaton.{IsAutomaton};
ghost use Rattle.cert_check.specs.Inclusion.{inclusion_checks};
ghost use Rattle.cert_check.specs.Listing.{listing_checks};
ghost use Rattle.cert_check.specs.Rules.{HasSizes, TellsAfterLogs, KeepsRules, BreaksRule, IsVerdictOf, SaysTruly};
ghost use Rattle.cert_value.specs.WellFormed.{WellFormed, are_logs, is_yes, is_listing};
ghost use Rattle.log_check.specs.Ends.{TellsBothLogs, item_after};

use crate::faults::Verdict;
use crate::{inclusion, lassos, listing, words};
use auto_core::{List, Mode};
use ba_format::Joined;
use cert_value::{Body, Cert, FirstStep, ListBody, SecondStep, YesBody};
use log_check::{CheckFault, Ends, Refusal, log_ends};
use std::alloc::Global;

fn has_sizes(pair: &Joined, cert: &Cert) -> bool
    ensures told { IsTrue result ↔ HasSizes pair.now cert.now }
    ensures automata { IsTrue result → IsAutomaton pair.now.first × IsAutomaton pair.now.second }
{
    cert.first_states == pair.first.states()
        && cert.second_states == pair.second.states()
        && cert.labels == pair.labels.count()
}

/// The automata that the logs lead to.
fn ends_of(
    alloc: Global,
    pair: &Joined,
    mode: Mode,
    firsts: &List<FirstStep>,
    seconds: &List<SecondStep>,
) -> Result<Ends, CheckFault>
    requires formed { (version : ℕ) × (are_logs version mode firsts.now seconds.now ≡ true) }
    ensures { TellsBothLogs mode pair.now.first pair.now.second firsts.now seconds.now result }
{
    let first_steps = firsts.as_slice();
    let second_steps = seconds.as_slice();
    log_ends(
        alloc,
        mode,
        &pair.first,
        &pair.second,
        first_steps,
        second_steps,
    )
}

/// The number of the item after the steps of both logs.
fn next_item(mode: Mode, firsts: &List<FirstStep>, seconds: &List<SecondStep>) -> u32
    requires formed { (version : ℕ) × (are_logs version mode firsts.now seconds.now ≡ true) }
    ensures { result ≡ item_after firsts.now seconds.now }
{
    1 + firsts.as_slice().len() as u32 + seconds.as_slice().len() as u32
}

/// Tests a yes: its logs, and then its evidence on the automata that they lead to, whose items come
/// after those of the logs' steps.
fn check_yes(alloc: Global, pair: &Joined, mode: Mode, evidence: &YesBody) -> Result<(), CheckFault>
    requires formed { (version : ℕ) × (is_yes version mode evidence.now ≡ true) }
    ensures { TellsAfterLogs mode pair.now evidence.now.first evidence.now.second
        (inclusion_checks mode evidence.now) result }
{
    let ends = ends_of(alloc, pair, mode, &evidence.first, &evidence.second)?;
    let item = next_item(mode, &evidence.first, &evidence.second);
    inclusion::check_inclusion(alloc, mode, &ends.first, &ends.second, evidence, item)
}

/// Tests a list: its logs, and then its elements on the automata that they lead to. The item of its
/// limit comes after those of the logs' steps.
fn check_list(alloc: Global, pair: &Joined, mode: Mode, list: &ListBody) -> Result<(), CheckFault>
    requires formed { (version : ℕ) × (is_listing version mode list.now ≡ true) }
    ensures { TellsAfterLogs mode pair.now list.now.first list.now.second
        (listing_checks mode list.now) result }
{
    let ends = ends_of(alloc, pair, mode, &list.first, &list.second)?;
    let item = next_item(mode, &list.first, &list.second);
    listing::check_listing(alloc, mode, &ends.first, &ends.second, list, item)
}

/// The verdict of a certificate that is valid for the two automata, or the first rule that it
/// breaks, or want of memory. What a verdict says is true of the two automata, and what a list's
/// says, of those that its logs lead to. The certificate is well-formed; both automata have as many
/// labels as `pair.labels` has texts.
pub fn check(alloc: Global, pair: &Joined, cert: &Cert) -> Result<Verdict, CheckFault>
    requires well_formed { WellFormed cert.now }
    requires first_labels { pair.now.first.labels ≡ length pair.now.labels }
    requires second_labels { pair.now.second.labels ≡ length pair.now.labels }
    ensures valid { IfOk result (λ verdict. KeepsRules pair.now cert.now) }
    ensures verdict { IfOk result (IsVerdictOf cert.now.body) }
    ensures truth { IfOk result (SaysTruly pair.now cert.now) }
    ensures refused { (refusal : Refusal) → result ≡ Err (CheckFault.Refused refusal)
        → BreaksRule pair.now cert.now refusal }
{
    if !has_sizes(pair, cert) {
        return Err(CheckFault::Refused(Refusal { rule: 1, item: 0 }));
    }
    match &cert.body {
        Body::Yes(evidence) => {
            check_yes(alloc, pair, cert.mode, evidence)?;
            Ok(Verdict::Included)
        }
        Body::NoLasso(lasso) => lassos::check_lasso(alloc, pair, lasso),
        Body::NoWord(word) => words::check_word(alloc, pair, word),
        Body::Listing(list) => {
            check_list(alloc, pair, cert.mode, list)?;
            Ok(Verdict::Listed(list.limit))
        }
    }
}
