//! The check of a closed list.

ghost use Rattle.std.specs.Prelude.{◌≡◌, ◌^◌, ◌≤◌, ◌+◌, ◌*◌, true};
ghost use Rattle.auto_core.specs.declared.parts.Mode.TheVariants.{Buchi};
ghost use Rattle.log_check.specs.Checks.{Tells};
ghost use Rattle.cert_check.specs.Inclusion.{inclusion_checks};
ghost use Rattle.proof_text.specs.ProofText.{is_closed_list};

use auto_core::{Auto, Mode};
use cert_check::check_inclusion;
use cert_value::YesBody;
use log_check::CheckFault;
use std::alloc::Global;

/// Tests the closed list, as a certificate's without a step in its logs.
pub(crate) fn check_closed(
    alloc: Global,
    first: &Auto,
    second: &Auto,
    list: &YesBody,
    item: u32,
) -> Result<(), CheckFault>
    requires formed { is_closed_list list.now ≡ true }
    requires low { item ≤ 2 * 10 ^ 9 + 4 }
    ensures { Tells (inclusion_checks Buchi list.now item first.now second.now) result }
{
    check_inclusion(alloc, Mode::Buchi, first, second, list, item)
}
