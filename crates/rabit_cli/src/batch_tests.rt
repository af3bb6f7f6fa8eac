//! Lists of questions in files in memory: what is printed, and which certificates are left.

use crate::fault_tests::takes_next;
use crate::include_tests::{leaves, says};
use crate::shrink_tests::shelf_of;
use auto_core::Memory;
use std::alloc::Global;
use std::test::Fail;

const ONE_A: &str = "[0]\na,[0]->[0]\n[0]\n";

const YES: &str =
    "rabit-cert 1 buchi yes\nsizes 1 1 1\nlog1 0\nlog2 0\nrel 1\nrow 0 0\nelements 1\nlive base 0\ncover 0\nstep 0 0\nend\n";

const OLDER: &str = "older";

const BATCH: [&str; 2] = ["batch", "L"];

#[test]
fn a_question_ends_no_batch_and_a_refused_line_does(rt: HostRuntime) -> Result<(), Fail> {
    let alloc = rt.alloc();
    // each file is read in three calls, the list first; the puts are the tenth and the seventeenth
    let rows = [
        (&[2][..], &[][..], 6, "read fault\n", OLDER, OLDER),
        // a second call of the sink would fail
        (&[2], &[1], 6, "read fault\n", OLDER, OLDER),
        (&[5], &[], 0, "1 6\n2 0\n", OLDER, YES),
        (&[9], &[], 0, "1 7\n2 0\n", OLDER, YES),
        (&[16], &[], 0, "1 0\n2 7\n", YES, OLDER),
        (&[], &[0], 7, "", YES, OLDER),
        (&[], &[1], 7, "1 0\n", YES, YES),
        (&[], &[2], 0, "1 0\n2 0\n", YES, YES),
    ];
    for (fails, sink_fails, status, printed, certificate, other) in rows {
        let files = [
            ("A", ONE_A),
            ("C", OLDER),
            ("D", OLDER),
            ("L", "A A C\nA A D\n"),
        ];
        let left = [("C", certificate), ("D", other)];
        let told = (status, printed);
        assert!(rt; leaves(alloc, &files, fails, &BATCH, sink_fails, told, &left)?);
    }
    Ok(())
}

#[test]
fn lists_of_no_questions_and_of_names_without_files(rt: HostRuntime) -> Result<(), Fail> {
    let alloc = rt.alloc();
    let rows = [
        ("", 0, ""),
        ("A A\n", 11, "list line 1\n"),
        ("A X D\n", 0, "1 6\n"),
        ("A A C\nA X D\n", 0, "1 0\n2 6\n"),
    ];
    for (list, status, printed) in rows {
        let files = [("A", ONE_A), ("D", OLDER), ("L", list)];
        let told = (status, printed);
        assert!(rt;
            leaves(alloc, &files, &[], &BATCH, &[], told, &[("D", OLDER)])?,
            "{list:?}"
        );
    }
    Ok(())
}

/// Whether the batch ends with status 7 and just this text where the sink refuses this call, and
/// the shelf has then still to begin `A` before the call that it refuses.
fn stops(
    alloc: Global,
    files: &[(&str, &str)],
    fails: u64,
    refused: u64,
    printed: &str,
) -> Result<bool, Memory> {
    let mut shelf = shelf_of(alloc, files, &[fails])?;
    let (status, sent) = says(alloc, &BATCH, &mut shelf, &[refused], printed)?;
    Ok(status == 7 && sent && takes_next(&mut shelf, "A"))
}

#[test]
fn no_file_is_begun_after_a_refused_line(rt: HostRuntime) -> Result<(), Fail> {
    let alloc = rt.alloc();
    let files = [("A", ONE_A), ("L", "A A C\nA A D\nA A C\n")];
    // the list is read in three calls, and each question makes seven; the first `take` of the
    // question after the refused line would fail
    let rows = [(0, 11, ""), (1, 18, "1 0\n")];
    for (refused, fails, printed) in rows {
        assert!(rt; stops(alloc, &files, fails, refused, printed)?);
    }
    Ok(())
}

#[test]
fn a_file_with_a_fault_is_begun_by_each_question(rt: HostRuntime) -> Result<(), Fail> {
    let alloc = rt.alloc();
    let files = [("A", "[0]\na,[0]\n"), ("L", "A A C\nA A D\n")];
    // the list and the first question's file are read in three calls each; the second question's
    // begin fails
    assert!(rt; leaves(alloc, &files, &[6], &BATCH, &[], (0, "1 4\n2 6\n"), &[])?);
    Ok(())
}
