//! `union A B`, with `--finite`

ghost use Rattle.std.specs.Prelude.{◌≡◌, ℕ, List as Items, IfOk};
ghost use Rattle.ba_format.specs.declared.parts.Joined.{Joined as AJoined};
ghost use Rattle.ba_format.specs.Reading.{IsWithinLimits};
ghost use Rattle.ba_format.specs.Joining.{IsJoined};
ghost use Rattle.rabit_frame.specs.Reading.{AreOfKinds};
ghost use Rattle.rabit_frame.specs.declared.files.TheConstants.{SECOND_LIMITS, FIRST_LIMITS};
ghost use Rattle.rabit_frame.specs.FileKinds.{HasLabelTexts, pair_inputs};
ghost use Rattle.rabit_cli.specs.Union.{IsUnionReply, MeansUnion};

use auto_core::{Memory, Mode};
use auto_ops::OpFault;
use ba_format::{Joined, Named};
use rabit_frame::{Reply, Value, printed, too_large};
use std::alloc::Global;

/// The reply to the joined automata: their union is printed, unless it is too large.
fn united<'a>(alloc: Global, mode: Mode, pair: &Joined) -> Result<Reply<'a>, Memory>
    requires { HasLabelTexts pair.now }
    ensures { IfOk result (IsUnionReply mode pair.now) }
{
    match auto_ops::union(alloc, pair, mode) {
        Ok(made) => printed(alloc, &made, &pair.labels),
        Err(OpFault::TooLarge) => too_large(alloc),
        Err(OpFault::Memory) => Err(Memory),
    }
}

/// The reply to the automata.
fn of_two<'a>(alloc: Global, mode: Mode, one: &Named, two: &Named) -> Result<Reply<'a>, Memory>
    requires one { IsWithinLimits FIRST_LIMITS one.now }
    requires two { IsWithinLimits SECOND_LIMITS two.now }
    ensures { IfOk
        result (λ reply.
        (pair : AJoined) × IsJoined one.now two.now pair × IsUnionReply mode pair reply) }
{
    let pair = ba_format::join(alloc, one, two)?;
    united(alloc, mode, &pair)
}

/// The reply to what was read.
pub fn reply<'a>(alloc: Global, mode: Mode, values: &[Value]) -> Result<Reply<'a>, Memory>
    requires { (a b : Items ℕ) × AreOfKinds (pair_inputs a b) values.now }
    ensures { IfOk result (MeansUnion mode values.now) }
{
    match values {
        [Value::Automaton(one), Value::Automaton(two)] => of_two(alloc, mode, one, two),
        _ => unreachable!(),
    }
}
