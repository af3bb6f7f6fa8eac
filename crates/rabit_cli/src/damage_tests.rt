//! Damaged certificates: whole files with a line or two changed, and what a check says of each.

use crate::include_tests::PAIR;
use crate::tests::{LETTERS_NO, ONE_A, TWO_LETTERS, unsaid};
use crate::yes_tests::{LINES, untold};
use auto_core::Memory;
use std::alloc::Global;
use std::test::Fail;

/// Two states in turn, of which the delayed relation makes one.
const TURNS: &str = "[0]\na,[0]->[1]\na,[1]->[0]\n[0]\n";

/// The certificate for one state and the turns.
pub const MERGED: [&str; 16] = [
    "rabit-cert 1 buchi yes\n",
    "sizes 1 2 1\n",
    "log1 0\n",
    "log2 1\n",
    "merge delayed\n",
    "classes 0 0\n",
    "rel 2\n",
    "row 0 0 1 1 2\n",
    "row 1 0 1 1 2\n",
    "rel 1\n",
    "row 0 0\n",
    "elements 1\n",
    "live base 0\n",
    "cover 0\n",
    "step 0 0\n",
    "end\n",
];

/// State 1 is below state 2, so that the way to it goes, then its loop, and then the state.
const BRANCHES: &str =
    "[0]\na,[0]->[1]\na,[0]->[2]\nb,[1]->[1]\nb,[2]->[2]\nc,[2]->[2]\n[1]\n[2]\n";

const BRANCH: &str = "[0]\na,[0]->[1]\nb,[1]->[1]\nc,[1]->[1]\n[1]\n";

/// The certificate for the branches and the one branch.
pub const CUT: [&str; 31] = [
    "rabit-cert 1 buchi yes\n",
    "sizes 3 2 3\n",
    "log1 3\n",
    "cut 1 3\n",
    "gone 0 1\n",
    "rel 3\n",
    "row 0 0\n",
    "row 1 1 2\n",
    "row 2 2\n",
    "cut 3 3\n",
    "gone 1 2\n",
    "rel 3\n",
    "row 0 0\n",
    "row 1 1 2\n",
    "row 2 2\n",
    "rel 3\n",
    "row 0 0\n",
    "row 1 1 2\n",
    "row 2 2\n",
    "trim 0 2\n",
    "log2 0\n",
    "rel 2\n",
    "row 0 0\n",
    "row 1 1\n",
    "elements 2\n",
    "live base 0\n",
    "live base 1\n",
    "cover 0 1 1\n",
    "step 0 0 0\n",
    "step 1 1 1\n",
    "end\n",
];

/// The list of the pair's first two elements.
const LISTED: [&str; 9] = [
    "rabit-cert 1 buchi list\n",
    "sizes 2 2 2\n",
    "log1 0\n",
    "log2 0\n",
    "limit 1\n",
    "elements 2\n",
    "base 0\n",
    "base 1\n",
    "end\n",
];

/// The one element's graph is empty, so that every cover holds and no lasso is found.
const NO_LASSO: &str =
    "rabit-cert 1 buchi yes\nsizes 1 1 2\nlog1 0\nlog2 0\nrel 1\nrow 0 0\nelements 1\nlive base 1\ncover 0 0\nstep 0 0 0\nend\n";

/// A lasso that both automata accept.
const ACCEPTED_NO: &str = "rabit-cert 1 buchi no\nsizes 1 1 2\nprefix 0\nloop 0\nend\n";

/// A file of two automata that are not reduced.
fn damaged_elements(alloc: Global) -> Result<u32, Memory> {
    untold(
        alloc,
        PAIR,
        PAIR,
        &LINES,
        5,
        &[
            (
                &[(0, "rabit-cert 3 buchi yes\n")],
                "certificate line 1: Header\n",
            ),
            (&[(1, "sizes 02 2 2\n")], "certificate line 2: Number\n"),
            (&[(7, "elements 4 4\n")], "certificate line 8: Shape\n"),
            (&[(14, "step 2 3\n")], "certificate line 15: Order\n"),
            (&[(17, "end")], "certificate line 18: Truncated\n"),
            (&[(17, "end\n\n")], "certificate line 19: Trailing\n"),
            (&[(7, "elements 3\n")], "certificate line 12: Shape\n"),
        ],
    )
}

/// A file whose second automaton is merged by a delayed relation.
fn damaged_merge(alloc: Global) -> Result<u32, Memory> {
    untold(
        alloc,
        ONE_A,
        TURNS,
        &MERGED,
        5,
        &[
            (&[(5, "classes 1 0\n")], "certificate item 1: rule 3\n"),
            (&[(7, "row 0 0 1 1 1\n")], "certificate item 1: rule 5\n"),
            (
                &[(7, "row 0 0 1\n"), (8, "row 1 1 2\n")],
                "certificate item 1: rule 6\n",
            ),
            (&[(5, "classes 0 1\n")], "certificate item 2: rule 9\n"),
        ],
    )
}

/// A file whose first automaton loses transitions and a state.
fn damaged_cuts(alloc: Global) -> Result<u32, Memory> {
    untold(
        alloc,
        BRANCHES,
        BRANCH,
        &CUT,
        5,
        &[
            (&[(1, "sizes 3 2 2\n")], "certificate item 0: rule 1\n"),
            (&[(4, "gone 0 9\n")], "certificate item 1: rule 1\n"),
            (&[(3, "cut 1 7\n")], "certificate item 1: rule 1\n"),
            (&[(19, "trim 0\n")], "certificate item 3: rule 2\n"),
            (&[(7, "row 1 0 1 2\n")], "certificate item 1: rule 4\n"),
            (&[(4, "gone 1 0\n")], "certificate item 1: rule 7\n"),
            (&[(4, "gone 0 0\n")], "certificate item 1: rule 8\n"),
            (&[(22, "row 0 0 1\n")], "certificate item 4: rule 9\n"),
            (&[(26, "live next 1 1\n")], "certificate item 6: rule 10\n"),
            (&[(26, "live next 0 0\n")], "certificate item 6: rule 11\n"),
            (
                &[(26, "under 0 base 1\n"), (29, "")],
                "certificate item 6: rule 12\n",
            ),
            (&[(27, "cover 0 1\n")], "certificate item 7: rule 13\n"),
            (&[(29, "step 1 1 0\n")], "certificate item 9: rule 14\n"),
        ],
    )
}

/// A list.
fn damaged_list(alloc: Global) -> Result<u32, Memory> {
    untold(
        alloc,
        PAIR,
        PAIR,
        &LISTED,
        5,
        &[
            (&[(4, "limit 2\n")], "certificate item 1: rule 18\n"),
            (&[(7, "base 0\n")], "certificate item 3: rule 18\n"),
        ],
    )
}

#[test]
fn each_damage_is_told(rt: HostRuntime) -> Result<(), Fail> {
    let alloc = rt.alloc();
    let untold = [
        damaged_elements(alloc)?,
        damaged_merge(alloc)?,
        damaged_cuts(alloc)?,
        damaged_list(alloc)?,
    ];
    assert_eq!(rt; untold, [0, 0, 0, 0]);
    let wrong = unsaid(
        alloc,
        &[
            (ONE_A, ONE_A, "", 5, "certificate line 1: Truncated\n"),
            (
                TWO_LETTERS,
                ONE_A,
                NO_LASSO,
                5,
                "certificate item 2: rule 15\n",
            ),
            (
                ONE_A,
                TWO_LETTERS,
                LETTERS_NO,
                5,
                "certificate item 2: rule 16\n",
            ),
            (
                TWO_LETTERS,
                ONE_A,
                ACCEPTED_NO,
                5,
                "certificate item 2: rule 17\n",
            ),
        ],
    )?;
    assert_eq!(rt; wrong, 0);
    Ok(())
}
