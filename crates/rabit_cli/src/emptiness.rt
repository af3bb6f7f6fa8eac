//! `empty A E CERT`, with `--finite`

ghost use Rattle.std.specs.Prelude.{◌≡◌, ℕ, List as Items, IfOk};
ghost use Rattle.ba_format.specs.Reading.{Reads, IsWithinLimits};
ghost use Rattle.ba_format.specs.Joining.{IsJoined};
ghost use Rattle.ba_format.specs.declared.parts.Named.{Named as ANamed};
ghost use Rattle.decide.specs.Laws.{CanDecide};
ghost use Rattle.rabit_frame.specs.Reading.{AreOfKinds};
ghost use Rattle.rabit_frame.specs.declared.files.TheConstants.{FIRST_LIMITS, SECOND_LIMITS};
ghost use Rattle.rabit_cli.specs.Property.{property_inputs, IsPropertyDecidedFor, MeansProperty};
ghost use Rattle.rabit_cli.specs.Empty.{empty_text, emptiness};

use crate::joining::joined;
use crate::properties::{decided, read_back};
use auto_core::{List, Memory, Mode};
use ba_format::{Joined, Named};
use rabit_frame::{Put, Reply, Value, line};
use std::alloc::Global;

/// The text of an automaton that accepts nothing.
fn empty_text(alloc: Global) -> Result<List<u8>, Memory>
    ensures { IfOk result (λ text. text ≡ empty_text) }
{
    line(alloc, "[0]\n[1]\n")
}

/// The automaton and what the made text reads as, joined.
fn pair_with_empty(alloc: Global, text: &[u8], one: &Named) -> Result<Joined, Memory>
    requires text { text.now ≡ empty_text }
    requires within { IsWithinLimits FIRST_LIMITS one.now }
    ensures joined { IfOk
        result (λ pair.
        (other : ANamed) × Reads text.now SECOND_LIMITS other × IsJoined one.now other pair) }
    ensures small { IfOk result CanDecide }
{
    let other = read_back(alloc, text)?;
    joined(alloc, one, &other)
}

/// The reply to the automaton: whether it is included in the one that accepts nothing.
fn of_one<'a>(
    alloc: Global,
    made_name: &'a str,
    certificate: &'a str,
    mode: Mode,
    one: &Named,
) -> Result<Reply<'a>, Memory>
    requires { IsWithinLimits FIRST_LIMITS one.now }
    ensures { IfOk result
        (IsPropertyDecidedFor emptiness made_name.entry.now certificate.entry.now mode one.now) }
{
    let bytes = empty_text(alloc)?;
    match pair_with_empty(alloc, bytes.as_slice(), one) {
        Ok(pair) => {
            let put = Put {
                name: made_name,
                bytes,
            };
            decided(alloc, "empty", put, certificate, mode, &pair)
        },
        Err(refused) => {
            drop(bytes);
            Err(refused)
        },
    }
}

/// The reply to what was read.
pub fn reply<'a>(
    alloc: Global,
    made_name: &'a str,
    certificate: &'a str,
    mode: Mode,
    values: &[Value],
) -> Result<Reply<'a>, Memory>
    requires { (a : Items ℕ) × AreOfKinds (property_inputs emptiness a) values.now }
    ensures { IfOk result
        (MeansProperty emptiness made_name.entry.now certificate.entry.now mode values.now) }
{
    match values {
        [Value::Automaton(one)] => of_one(alloc, made_name, certificate, mode, one),
        _ => unreachable!(),
    }
}
