//! `cross-check A B FILE`

ghost use Rattle.std.specs.Prelude.{◌≡◌, ℕ, List as Items, IfOk};
ghost use Rattle.ba_format.specs.declared.parts.Joined.{Joined as AJoined};
ghost use Rattle.ba_format.specs.Reading.{IsWithinLimits};
ghost use Rattle.ba_format.specs.Joining.{IsJoined};
ghost use Rattle.cert_text.specs.CrossText.{CrossFormed};
ghost use Rattle.decide.specs.Laws.{CanDecide};
ghost use Rattle.rabit_frame.specs.declared.parts.FileKind.TheVariants as kind;
ghost use Rattle.rabit_frame.specs.Reading.{AreOfKinds, IsOfKind, only_said};
ghost use Rattle.rabit_frame.specs.declared.files.TheConstants.{FIRST_LIMITS, SECOND_LIMITS};
ghost use Rattle.rabit_frame.specs.Printed.{by_simulation_text};
ghost use Rattle.rabit_cli.specs.Cross.{cross_file, cross_check_inputs, ConcludesCross, MeansCrossCheck};

use crate::joining::joined;
use auto_core::{List, Memory};
use ba_format::{Joined, Named};
use cert_check::Refusal;
use cross_sim::{CheckCrossFault, Cross, check_cross};
use rabit_frame::{
    FileKind, Reply, Slot, Status, Value, first_automaton, first_slot, line, second_automaton,
    second_slot,
};
use std::alloc::Global;

/// A cross relation's file.
fn cross_slot<'a>(name: &'a str) -> Slot<'a>
    ensures { result ≡ cross_file name.entry.now }
{
    Slot {
        name,
        kind: FileKind::Cross,
    }
}

/// The files that it reads.
pub fn slots<'a>(
    alloc: Global,
    first: &'a str,
    second: &'a str,
    relation: &'a str,
) -> Result<List<Slot<'a>>, Memory>
    ensures { IfOk
        result (λ slots.
        slots ≡ cross_check_inputs first.entry.now second.entry.now relation.entry.now) }
{
    let mut slots = List::new(alloc);
    slots.push(first_slot(first))?;
    slots.push(second_slot(second))?;
    slots.push(cross_slot(relation))?;
    Ok(slots)
}

/// The cross relation that was read.
fn cross(value: &Value) -> &Cross
    requires { IsOfKind kind.Cross value.now }
    ensures { value.now ≡ Value.Cross result.now }
{
    match value {
        Value::Cross(cross) => cross,
        _ => unreachable!(),
    }
}

/// The reply that it keeps all rules.
fn kept<'a>(alloc: Global) -> Result<Reply<'a>, Memory>
    ensures { IfOk result (λ reply. reply ≡ only_said Status.Done by_simulation_text) }
{
    let text = line(alloc, "included by simulation\n")?;
    Ok(Reply::saying(alloc, Status::Done, text))
}

/// The reply to the joined automata and the cross relation.
fn concluded<'a>(alloc: Global, pair: &Joined, cross: &Cross) -> Result<Reply<'a>, Memory>
    requires can { CanDecide pair.now }
    requires formed { CrossFormed cross.now }
    ensures { IfOk result (ConcludesCross pair.now cross.now) }
{
    match check_cross(alloc, pair, cross) {
        Ok(()) => kept(alloc),
        Err(CheckCrossFault::Refused(refusal)) => {
            let broken = Refusal {
                rule: refusal.rule,
                item: refusal.item,
            };
            rabit_frame::refused(alloc, broken)
        },
        Err(CheckCrossFault::Memory) => Err(Memory),
    }
}

/// The reply to the automata and the cross relation.
fn checked<'a>(alloc: Global, one: &Named, two: &Named, cross: &Cross) -> Result<Reply<'a>, Memory>
    requires one { IsWithinLimits FIRST_LIMITS one.now }
    requires two { IsWithinLimits SECOND_LIMITS two.now }
    requires formed { CrossFormed cross.now }
    ensures { IfOk
        result (λ reply.
        (pair : AJoined) × IsJoined one.now two.now pair × ConcludesCross pair cross.now reply) }
{
    let pair = joined(alloc, one, two)?;
    concluded(alloc, &pair, cross)
}

/// The reply to what was read.
pub fn reply<'a>(alloc: Global, values: &[Value]) -> Result<Reply<'a>, Memory>
    requires { (a b f : Items ℕ) × AreOfKinds (cross_check_inputs a b f) values.now }
    ensures { IfOk result (MeansCrossCheck values.now) }
{
    match values {
        [first, second, third] => checked(
            alloc,
            first_automaton(first),
            second_automaton(second),
            cross(third),
        ),
        _ => unreachable!(),
    }
}
