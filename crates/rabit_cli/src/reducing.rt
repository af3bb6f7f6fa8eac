//! `reduce A`, with `--finite`, `--look K` and `--letters M`

ghost use Rattle.std.specs.Prelude.{◌≡◌, ◌≤◌, ℕ, List as Items, IfOk};
ghost use Rattle.ba_format.specs.Reading.{IsWithinLimits};
ghost use Rattle.rabit_frame.specs.Reading.{AreOfKinds};
ghost use Rattle.rabit_frame.specs.declared.files.TheConstants.{FIRST_LIMITS};
ghost use Rattle.rabit_cli.specs.Reduce.{reduce_inputs, IsReducedText, MeansReduce};

use auto_core::{List, Memory, Mode};
use ba_format::Named;
use rabit_frame::{Reply, Slot, Status, Value, first_slot};
use reduce_loop::Foresight;
use std::alloc::Global;

/// The file that it reads.
pub fn slots<'a>(alloc: Global, name: &'a str) -> Result<List<Slot<'a>>, Memory>
    ensures { IfOk result (λ slots. slots ≡ reduce_inputs name.entry.now) }
{
    let mut slots = List::new(alloc);
    slots.push(first_slot(name))?;
    Ok(slots)
}

/// The text of the reduced automaton.
fn reduced_text(
    alloc: Global,
    named: &Named,
    mode: Mode,
    sight: Foresight,
) -> Result<List<u8>, Memory>
    requires within { IsWithinLimits FIRST_LIMITS named.now }
    requires look_from { 1 ≤ sight.look }
    requires look_upto { sight.look ≤ 6 }
    requires letters_from { 1 ≤ sight.letters }
    requires letters_upto { sight.letters ≤ 4 }
    ensures { IfOk result (IsReducedText named.now mode sight) }
{
    let reduced = reduce_loop::reduce_ahead(alloc, &named.auto, mode, sight.look, sight.letters)?;
    ba_format::write(alloc, &reduced.auto, &named.labels)
}

/// The reply to what was read.
pub fn reply<'a>(
    alloc: Global,
    mode: Mode,
    sight: Foresight,
    values: &[Value],
) -> Result<Reply<'a>, Memory>
    requires kinds { (a : Items ℕ) × AreOfKinds (reduce_inputs a) values.now }
    requires look_from { 1 ≤ sight.look }
    requires look_upto { sight.look ≤ 6 }
    requires letters_from { 1 ≤ sight.letters }
    requires letters_upto { sight.letters ≤ 4 }
    ensures { IfOk result (MeansReduce mode sight values.now) }
{
    match values {
        [Value::Automaton(named)] => {
            let text = reduced_text(alloc, named, mode, sight)?;
            Ok(Reply::saying(alloc, Status::Done, text))
        },
        _ => unreachable!(),
    }
}
