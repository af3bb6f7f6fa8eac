//! `universal A U CERT`, with `--finite`

ghost use Rattle.std.specs.Prelude.{◌≡◌, ◌≤◌, ℕ, List as Items, length, IfOk};
ghost use Rattle.ba_format.specs.Reading.{Reads, IsWithinLimits};
ghost use Rattle.ba_format.specs.Joining.{IsJoined};
ghost use Rattle.ba_format.specs.declared.parts.Named.{Named as ANamed};
ghost use Rattle.decide.specs.Laws.{CanDecide};
ghost use Rattle.ba_format.specs.Writing.{written};
ghost use Rattle.rabit_frame.specs.Reading.{AreOfKinds, HasWritableLabels};
ghost use Rattle.rabit_frame.specs.declared.files.TheConstants.{SECOND_LIMITS};
ghost use Rattle.rabit_cli.specs.Property.{property_inputs, IsPropertyDecidedFor, MeansProperty};
ghost use Rattle.rabit_cli.specs.Universal.{loops, all_loops, universality};

use crate::joining::joined;
use crate::properties::{decided, read_back};
use auto_core::{Auto, List, Memory, Mode, Trans, of_parts};
use ba_format::{Joined, Named, Texts};
use rabit_frame::{Put, Reply, Value};
use std::alloc::Global;

/// A loop for each of the labels.
fn loops(alloc: Global, labels: u32) -> Result<List<Trans>, Memory>
    ensures { IfOk result (λ made. made ≡ loops labels) }
{
    let mut made = List::new(alloc);
    for label in 0..labels {
        made.push(Trans {
            source: 0,
            label,
            target: 0,
        })?;
    }
    Ok(made)
}

/// The automaton that accepts everything over so many labels.
fn all_loops(alloc: Global, labels: u32) -> Result<Auto, Memory>
    requires { labels ≤ 256 }
    ensures { IfOk result (λ made. made ≡ all_loops labels) }
{
    let transitions = loops(alloc, labels)?;
    of_parts(alloc, 1, labels, 0, transitions.as_slice(), &[0])
}

/// The text of the automaton that accepts everything over these labels.
fn universal_text(alloc: Global, labels: &Texts) -> Result<List<u8>, Memory>
    requires { length labels.now ≤ 256 }
    ensures { IfOk result (λ text. text ≡ written (all_loops (length labels.now)) labels.now) }
{
    let made = all_loops(alloc, labels.count())?;
    ba_format::write(alloc, &made, labels)
}

/// What the made text reads as and the automaton, joined.
fn pair_with_universal(alloc: Global, text: &[u8], one: &Named) -> Result<Joined, Memory>
    requires text { text.now
        ≡ written (all_loops (length one.now.labels)) one.now.labels }
    requires within { IsWithinLimits SECOND_LIMITS one.now }
    requires writable { HasWritableLabels one.now }
    ensures joined { IfOk
        result (λ pair.
        (other : ANamed) × Reads text.now SECOND_LIMITS other × IsJoined other one.now pair) }
    ensures small { IfOk result CanDecide }
{
    let other = read_back(alloc, text)?;
    joined(alloc, &other, one)
}

/// The reply to the automaton: whether the one that accepts everything over its labels is included
/// in it.
fn of_one<'a>(
    alloc: Global,
    made_name: &'a str,
    certificate: &'a str,
    mode: Mode,
    one: &Named,
) -> Result<Reply<'a>, Memory>
    requires within { IsWithinLimits SECOND_LIMITS one.now }
    requires writable { HasWritableLabels one.now }
    ensures { IfOk result
        (IsPropertyDecidedFor universality made_name.entry.now certificate.entry.now mode one.now) }
{
    let bytes = universal_text(alloc, &one.labels)?;
    match pair_with_universal(alloc, bytes.as_slice(), one) {
        Ok(pair) => {
            let put = Put {
                name: made_name,
                bytes,
            };
            decided(alloc, "universal", put, certificate, mode, &pair)
        },
        Err(refused) => {
            drop(bytes);
            Err(refused)
        },
    }
}

/// The reply to what was read.
pub fn reply<'a>(
    alloc: Global,
    made_name: &'a str,
    certificate: &'a str,
    mode: Mode,
    values: &[Value],
) -> Result<Reply<'a>, Memory>
    requires { (a : Items ℕ) × AreOfKinds (property_inputs universality a) values.now }
    ensures { IfOk result
        (MeansProperty universality made_name.entry.now certificate.entry.now mode values.now) }
{
    match values {
        [Value::Automaton(one)] => of_one(alloc, made_name, certificate, mode, one),
        _ => unreachable!(),
    }
}
