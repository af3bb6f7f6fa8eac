//! Certificates put in version 2: what is printed, what is left, and that a check says the same of
//! both.

use crate::include_tests::{leaves, says};
use std::test::Fail;

const YES: &str =
    "rabit-cert 1 buchi yes\nsizes 2 2 2\nlog1 0\nlog2 0\nrel 2\nrow 0 0\nrow 1 1\nelements 4\nlive base 0\nlive base 1\nlive next 0 1\nlive next 1 0\ncover 0 1\nstep 0 2\nstep 1 3\nstep 2 0\nstep 3 1\nend\n";

const YES_2: &str =
    "rabit-cert 2 buchi yes\nsizes 2 2 2\nlog1 0\nlog2 0\nrel 2\nrow 0 0 0\nrow 1 1 1\nelements 4\nlive base 0\nlive base 1\nlive next 0 1\nlive next 1 0\ncover 0 1\nstep 0 2\nstep 1 3\nstep 2 0\nstep 3 1\nend\n";

/// The words of an upgrade of `C` into `D`.
const UPGRADE: [&str; 3] = ["upgrade", "C", "D"];

#[test]
fn faulty_texts_and_failing_calls_are_told(rt: HostRuntime) -> Result<(), Fail> {
    let alloc = rt.alloc();
    // the file is read in three calls, and the put is the fourth
    let rows = [
        (
            "",
            &[][..],
            &[][..],
            5,
            "certificate line 1: Truncated\n",
            "older",
        ),
        (
            "rabit-cert 3 buchi yes\n",
            &[],
            &[],
            5,
            "certificate line 1: Header\n",
            "older",
        ),
        (YES, &[2], &[], 6, "read fault\n", "older"),
        (YES, &[3], &[], 7, "write fault\n", "older"),
        (YES, &[], &[0], 7, "", YES_2),
        (YES, &[], &[1], 0, "upgraded\n", YES_2),
    ];
    for (certificate, fails, sink_fails, status, printed, left) in rows {
        let files = [("C", certificate), ("D", "older")];
        let told = (status, printed);
        assert!(rt;
            leaves(
                alloc,
                &files,
                fails,
                &UPGRADE,
                sink_fails,
                told,
                &[("D", left)]
            )?
        );
    }
    Ok(())
}
