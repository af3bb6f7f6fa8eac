//! Certificates that say no without the letters that they do not need: what is printed, and what is
//! left.

use crate::include_tests::{PAIR, says, says_in_turn};
use auto_core::Memory;
use shelf_io::{MemShelf, load};
use std::alloc::Global;
use std::test::Fail;
use test_inputs::shelf_with;

const ONE_A: &str = "[0]\na,[0]->[0]\n[0]\n";

const TWO_LETTERS: &str = "[0]\na,[0]->[0]\nb,[0]->[0]\n[0]\n";

const LONG_NO: &str = "rabit-cert 1 buchi no\nsizes 1 1 2\nprefix 0 1\nloop 0 1\nend\n";

const SHORT_NO: &str = "rabit-cert 1 buchi no\nsizes 1 1 2\nprefix\nloop 1\nend\n";

const YES: &str =
    "rabit-cert 1 buchi yes\nsizes 1 1 1\nlog1 0\nlog2 0\nrel 1\nrow 0 0\nelements 1\nlive base 0\ncover 0\nstep 0 0\nend\n";

/// A shelf with these files, and with room for one more.
pub(crate) fn shelf_of(
    alloc: Global,
    files: &[(&str, &str)],
    fails: &[u64],
) -> Result<MemShelf, Memory> {
    shelf_with(alloc, files, 1_000_000, 65536, fails)
}

/// Whether the shelf holds just this text under the name.
pub(crate) fn holds(alloc: Global, shelf: &mut MemShelf, name: &str, text: &str) -> bool {
    match load(alloc, shelf, name, 1_000_000) {
        Ok(bytes) => bytes.as_slice() == text.as_bytes(),
        Err(_) => false,
    }
}

/// Whether what the shelf holds under the name begins with this text.
pub(crate) fn begins(alloc: Global, shelf: &mut MemShelf, name: &str, front: &str) -> bool {
    match load(alloc, shelf, name, 1_000_000) {
        Ok(bytes) => bytes.as_slice().starts_with(front.as_bytes()),
        Err(_) => false,
    }
}

/// The status of a shrinking of the certificate for the two automata, and whether just this text
/// was sent and just that one is left.
fn shrinks(
    alloc: Global,
    first: &str,
    second: &str,
    certificate: &str,
    printed: &str,
    left: &str,
) -> Result<(u8, bool, bool), Memory> {
    let files = [("A", first), ("B", second), ("C", certificate)];
    shrinks_files(alloc, &files, &[], &[], printed, left)
}

/// The same of files where these calls of the shelf and of the sink fail.
fn shrinks_files(
    alloc: Global,
    files: &[(&str, &str)],
    fails: &[u64],
    sink_fails: &[u64],
    printed: &str,
    left: &str,
) -> Result<(u8, bool, bool), Memory> {
    let mut shelf = shelf_of(alloc, files, fails)?;
    let words = ["shrink", "A", "B", "C", "D"];
    let (status, sent) = says(alloc, &words, &mut shelf, sink_fails, printed)?;
    Ok((status, sent, holds(alloc, &mut shelf, "D", left)))
}

#[test]
fn other_certificates_have_nothing_to_shrink(rt: HostRuntime) -> Result<(), Fail> {
    let alloc = rt.alloc();
    let told = "nothing to shrink\n";
    assert_eq!(rt;
        shrinks(alloc, ONE_A, ONE_A, YES, told, "")?,
        (13, true, false)
    );
    // a list; the status stays where the sink refuses the line
    let decide = ["include", "A", "B", "C", "--limit", "1"];
    let shrink = ["shrink", "A", "B", "C", "D"];
    let asked: [(&[&str], &[u64], u8, &str); 3] = [
        (&decide, &[], 2, "limit 1\n"),
        (&shrink, &[], 13, told),
        (&shrink, &[0], 13, ""),
    ];
    assert!(rt; says_in_turn(alloc, &[("A", PAIR), ("B", PAIR)], &asked, &[])?);
    Ok(())
}

#[test]
fn failing_calls_of_a_shrinking_are_told(rt: HostRuntime) -> Result<(), Fail> {
    let alloc = rt.alloc();
    let files = [("A", TWO_LETTERS), ("B", ONE_A), ("C", LONG_NO)];
    let told = "not included\nprefix:\nloop: b\n";
    let rows = [
        (&[8][..], &[][..], 6, "read fault\n", false),
        (&[9], &[], 7, "write fault\n", false),
        (&[], &[0], 7, "", true),
        (&[10], &[1], 1, told, false),
        (&[], &[], 1, told, true),
    ];
    for (fails, sink_fails, status, printed, left) in rows {
        let told = shrinks_files(alloc, &files, fails, sink_fails, printed, SHORT_NO)?;
        assert_eq!(rt; told, (status, true, left));
    }
    Ok(())
}
