//! `drill SEED STATES LABELS`

ghost use Rattle.std.specs.Prelude.{◌≡◌, ◌++◌, ℕ, List as Items, IfOk, OnOk, codes};
ghost use Rattle.cert_value.specs.declared.types.Cert.{Cert as ACert};
ghost use Rattle.cert_value.specs.declared.types.Body.TheVariants.{NoWord};
ghost use Rattle.decide.specs.Answer.{IsAnswer};
ghost use Rattle.decide.specs.Laws.{CanDecide};
ghost use Rattle.drawing.specs.Drawn.{IsInBounds};
ghost use Rattle.rabit_frame.specs.declared.parts.Value.{Value};
ghost use Rattle.rabit_cli.specs.Drill.{drill_terms, exchanged, size_line, finding, MeansDrill};

use auto_core::{Auto, List, Memory, Mode, append};
use ba_format::Joined;
use cert_check::CheckFault;
use cert_text::{Body, Cert};
use drawing::Drill;
use rabit_frame::{Reply, Status, line};
use rabit_words::{USUAL_LIMIT, USUAL_LOOK};
use std::alloc::Global;

/// The two automata in the other order.
fn exchanged(pair: Joined) -> Joined
    ensures { result ≡ exchanged pair }
{
    Joined {
        first: pair.second,
        second: pair.first,
        labels: pair.labels,
    }
}

/// The answer for the two automata. Its certificate is checked, and no rule of a check is broken by
/// it.
fn answered(alloc: Global, pair: &Joined) -> Result<Cert, Memory>
    requires { CanDecide pair.now }
    ensures { IfOk result (IsAnswer pair.now drill_terms) }
{
    let cert = decide::include(alloc, pair, Mode::Buchi, USUAL_LOOK, USUAL_LIMIT)?;
    match cert_check::check(alloc, pair, &cert) {
        Ok(_) => Ok(cert),
        Err(CheckFault::Memory) => Err(Memory),
        Err(CheckFault::Refused(_)) => unreachable!(),
    }
}

/// How large the automaton of this name is.
fn size(alloc: Global, name: &str, automaton: &Auto) -> Result<List<u8>, Memory>
    ensures { IfOk result (λ text. text ≡ size_line name.now automaton.now) }
{
    let states = automaton.states();
    let transitions = automaton.transitions().len();
    let text = format!(in alloc; "{name} {states} states {transitions} transitions\n")?;
    line(alloc, text.as_str())
}

/// What was found of an inclusion.
fn finding(alloc: Global, body: &Body) -> Result<List<u8>, Memory>
    requires lassos { (word : Items ℕ) → body.now ≡ NoWord word → ⊥ }
    ensures { IfOk result (λ text. text ≡ finding body.now) }
{
    match body {
        Body::Yes(evidence) => {
            let elements = evidence.elements.as_slice().len();
            let text = format!(in alloc; "included, elements {elements}\n")?;
            line(alloc, text.as_str())
        },
        Body::NoLasso(lasso) => {
            let prefix = lasso.prefix.as_slice().len();
            let turn = lasso.turn.as_slice().len();
            let text = format!(in alloc; "not included, prefix {prefix}, loop {turn}\n")?;
            line(alloc, text.as_str())
        },
        Body::NoWord(_) => unreachable!(),
        Body::Listing(list) => {
            let limit = list.limit;
            let text = format!(in alloc; "limit {limit}\n")?;
            line(alloc, text.as_str())
        },
    }
}

/// How large both automata are.
fn sizes(alloc: Global, pair: &Joined) -> Result<List<u8>, Memory>
    ensures { IfOk
        result (λ text.
        text ≡ size_line (codes "first") pair.now.first
        ++ size_line (codes "second") pair.now.second) }
{
    let mut text = size(alloc, "first", &pair.first)?;
    append(&mut text, size(alloc, "second", &pair.second)?.as_slice())?;
    Ok(text)
}

/// Appends the words and what was found.
fn add_line(alloc: Global, text: &mut List<u8>, words: &[u8], body: &Body) -> Result<(), Memory>
    requires { (word : Items ℕ) → body.now ≡ NoWord word → ⊥ }
    ensures { OnOk result (text.new ≡ (text.old ++ words.now) ++ finding body.now) }
{
    append(text, words)?;
    append(text, finding(alloc, body)?.as_slice())?;
    Ok(())
}

/// Decides the inclusion, and appends the words and what was found.
fn add_finding(
    alloc: Global,
    text: &mut List<u8>,
    words: &[u8],
    pair: &Joined,
) -> Result<(), Memory>
    requires { CanDecide pair.now }
    ensures { OnOk result
        ((cert : ACert) × IsAnswer pair.now drill_terms cert
        × (text.new ≡ (text.old ++ words.now) ++ finding cert.body)) }
{
    let cert = answered(alloc, pair)?;
    add_line(alloc, text, words, &cert.body)
}

/// The reply: the two automata are drawn, both inclusions between them are decided, and what was
/// found is said.
pub fn reply<'a>(alloc: Global, drill: Drill) -> Result<Reply<'a>, Memory>
    requires { IsInBounds drill }
    ensures { IfOk result (λ reply. (values : Items Value) → MeansDrill drill values reply) }
{
    let pair = drawing::drawn(alloc, drill)?;
    let mut text = sizes(alloc, &pair)?;
    add_finding(alloc, &mut text, b"first in second: ", &pair)?;
    let pair = exchanged(pair);
    add_finding(alloc, &mut text, b"second in first: ", &pair)?;
    Ok(Reply::saying(alloc, Status::Done, text))
}
