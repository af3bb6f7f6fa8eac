//! `cross A B OUT`, with `--look K`

ghost use Rattle.std.specs.Prelude.{◌≡◌, ◌≤◌, ◌∷◌, [], ℕ, List as Items, IfOk};
ghost use Rattle.ba_format.specs.declared.parts.Joined.{Joined as AJoined};
ghost use Rattle.ba_format.specs.Reading.{IsWithinLimits};
ghost use Rattle.ba_format.specs.Joining.{IsJoined};
ghost use Rattle.decide.specs.Laws.{CanDecide};
ghost use Rattle.cross_sim.specs.Written.{IsCrossOfGreatest};
ghost use Rattle.rabit_frame.specs.Reading.{AreOfKinds, only_said, reply_with};
ghost use Rattle.rabit_frame.specs.declared.files.TheConstants.{FIRST_LIMITS, SECOND_LIMITS};
ghost use Rattle.rabit_frame.specs.FileKinds.{pair_inputs};
ghost use Rattle.rabit_frame.specs.Printed.{by_simulation_text, no_relation_text};
ghost use Rattle.rabit_cli.specs.Cross.{cross_put, IsCrossReply, MeansCross};

use crate::joining::joined;
use auto_core::{List, Memory};
use ba_format::{Joined, Named};
use cross_sim::{Cross, find_cross, write_cross};
use rabit_frame::{Put, Reply, Status, Value, line};
use std::alloc::Global;

/// The reply that there is none with the pair of the initial states.
fn unrelated<'a>(alloc: Global) -> Result<Reply<'a>, Memory>
    ensures { IfOk result (λ reply. reply ≡ only_said Status.NoRelation no_relation_text) }
{
    let text = line(alloc, "no cross relation\n")?;
    Ok(Reply::saying(alloc, Status::NoRelation, text))
}

/// The reply that it has that pair: its text is to be written under the name.
fn related<'a>(alloc: Global, name: &'a str, cross: &Cross) -> Result<Reply<'a>, Memory>
    ensures { IfOk
        result (λ reply.
        reply ≡ reply_with Status.Done by_simulation_text
        (cross_put name.entry.now cross.now ∷ [])) }
{
    let bytes = write_cross(alloc, cross)?;
    let mut puts = List::new(alloc);
    puts.push(Put { name, bytes })?;
    let text = line(alloc, "included by simulation\n")?;
    Ok(Reply {
        status: Status::Done,
        text,
        puts,
    })
}

/// The reply to the joined automata.
fn answered<'a>(alloc: Global, name: &'a str, look: u32, pair: &Joined) -> Result<Reply<'a>, Memory>
    requires can { CanDecide pair.now }
    requires look_from { 1 ≤ look }
    requires look_upto { look ≤ 6 }
    ensures { IfOk result (IsCrossReply name.entry.now look pair.now) }
{
    match find_cross(alloc, pair, look)? {
        Some(cross) => related(alloc, name, &cross),
        None => unrelated(alloc),
    }
}

/// The reply to the automata.
fn crossed<'a>(
    alloc: Global,
    name: &'a str,
    look: u32,
    one: &Named,
    two: &Named,
) -> Result<Reply<'a>, Memory>
    requires one { IsWithinLimits FIRST_LIMITS one.now }
    requires two { IsWithinLimits SECOND_LIMITS two.now }
    requires look_from { 1 ≤ look }
    requires look_upto { look ≤ 6 }
    ensures { IfOk
        result (λ reply.
        (pair : AJoined) × IsJoined one.now two.now pair
        × IsCrossReply name.entry.now look pair reply) }
{
    let pair = joined(alloc, one, two)?;
    answered(alloc, name, look, &pair)
}

/// The reply to what was read.
pub fn reply<'a>(
    alloc: Global,
    name: &'a str,
    look: u32,
    values: &[Value],
) -> Result<Reply<'a>, Memory>
    requires kinds { (a b : Items ℕ) × AreOfKinds (pair_inputs a b) values.now }
    requires look_from { 1 ≤ look }
    requires look_upto { look ≤ 6 }
    ensures { IfOk result (MeansCross name.entry.now look values.now) }
{
    match values {
        [Value::Automaton(one), Value::Automaton(two)] => crossed(alloc, name, look, one, two),
        _ => unreachable!(),
    }
}
