//! Emptiness and universality of an automaton in a file in memory: what is printed, the two files
//! that are left, and what a check says of them.

use crate::include_tests::says;
use crate::shrink_tests::{holds, shelf_of};
use auto_core::Memory;
use std::alloc::Global;
use std::test::Fail;

const TWO_LETTERS: &str = "[0]\na,[0]->[0]\nb,[0]->[0]\n[0]\n";

const UNIVERSAL_YES: &str =
    "rabit-cert 1 buchi yes\nsizes 1 1 2\nlog1 0\nlog2 0\nrel 1\nrow 0 0\nelements 1\nlive base 0\ncover 0 0\nstep 0 0 0\nend\n";

/// Whether the two letters are told to be all so, and, where that is said, whether the text and the
/// certificate are left as it is said.
fn puts(
    alloc: Global,
    fails: &[u64],
    sink_fails: &[u64],
    told: (u8, &str),
    left: Option<(bool, bool)>,
) -> Result<bool, Memory> {
    let mut shelf = shelf_of(alloc, &[("A", TWO_LETTERS)], fails)?;
    let (status, printed) = told;
    let words = ["universal", "A", "M", "C"];
    let (ended, sent) = says(alloc, &words, &mut shelf, sink_fails, printed)?;
    let made = holds(alloc, &mut shelf, "M", TWO_LETTERS);
    let certificate = holds(alloc, &mut shelf, "C", UNIVERSAL_YES);
    let is_left = match left {
        Some(left) => left == (made, certificate),
        None => true,
    };
    Ok(ended == status && sent && is_left)
}

#[test]
fn the_certificate_is_put_after_the_text(rt: HostRuntime) -> Result<(), Fail> {
    let alloc = rt.alloc();
    let told = "universal\n";
    // the file is read in three calls, and the puts are the fourth and the fifth
    let rows = [
        (&[2][..], &[][..], 6, "read fault\n", false, false),
        (&[3], &[], 7, "write fault\n", false, false),
        (&[4], &[], 7, "write fault\n", true, false),
        (&[], &[0], 7, "", true, true),
        (&[5], &[1], 0, told, false, false),
        (&[], &[], 0, told, true, true),
    ];
    for (fails, sink_fails, status, printed, made, certificate) in rows {
        let told = (status, printed);
        let left = if fails.is_empty() || status == 7 {
            Some((made, certificate))
        } else {
            None
        };
        assert!(rt; puts(alloc, fails, sink_fails, told, left)?);
    }
    Ok(())
}
