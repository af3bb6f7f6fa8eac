//! Simulations of one automaton by another: what is printed, what is left, and that a check accepts
//! it.

use crate::include_tests::leaves;
use std::test::Fail;

const ONE_A: &str = "[0]\na,[0]->[0]\n[0]\n";

const TWO_LETTERS: &str = "[0]\na,[0]->[0]\nb,[0]->[0]\n[0]\n";

const CROSS: &str = "rabit-cross 1\nsizes 1 1 2\nlook 3\nrel 1\nrow 0 0\nend\n";

const OLDER: &str = "older";

const RELATED: &str = "included by simulation\n";

#[test]
fn a_search_for_a_relation_leaves_it_or_nothing(rt: HostRuntime) -> Result<(), Fail> {
    let alloc = rt.alloc();
    // each automaton is read in three calls, and the put is the seventh
    let rows = [
        (ONE_A, TWO_LETTERS, &[][..], &[1][..], 0, RELATED, CROSS),
        (ONE_A, TWO_LETTERS, &[], &[0], 7, "", CROSS),
        (ONE_A, TWO_LETTERS, &[5], &[], 6, "read fault\n", OLDER),
        (ONE_A, TWO_LETTERS, &[6], &[], 7, "write fault\n", OLDER),
        (
            TWO_LETTERS,
            ONE_A,
            &[],
            &[],
            10,
            "no cross relation\n",
            OLDER,
        ),
        (TWO_LETTERS, ONE_A, &[], &[0], 10, "", OLDER),
    ];
    for (first, second, fails, sink_fails, status, printed, left) in rows {
        let files = [("A", first), ("B", second), ("C", OLDER)];
        let words = ["cross", "A", "B", "C"];
        let told = (status, printed);
        assert!(rt;
            leaves(
                alloc,
                &files,
                fails,
                &words,
                sink_fails,
                told,
                &[("C", left)]
            )?
        );
    }
    Ok(())
}

#[test]
fn a_check_of_a_relation_tells_its_faults(rt: HostRuntime) -> Result<(), Fail> {
    let alloc = rt.alloc();
    let no_pair = "rabit-cross 1\nsizes 1 1 2\nlook 3\nrel 0\nend\n";
    // each file is read in three calls, the relation last
    let rows = [
        (CROSS, &[][..], 0, RELATED),
        (CROSS, &[8], 6, "read fault\n"),
        (OLDER, &[], 5, "certificate line 1: Truncated\n"),
        ("rabit-cross 2\n", &[], 5, "certificate line 1: Header\n"),
        (no_pair, &[], 5, "certificate item 2: rule 19\n"),
    ];
    for (relation, fails, status, printed) in rows {
        let files = [("A", ONE_A), ("B", TWO_LETTERS), ("C", relation)];
        let words = ["cross-check", "A", "B", "C"];
        assert!(rt; leaves(alloc, &files, fails, &words, &[], (status, printed), &[])?);
    }
    Ok(())
}
