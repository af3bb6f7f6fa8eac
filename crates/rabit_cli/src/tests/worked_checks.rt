//! The worked examples of checks, upgrades and refusals: rows of the table of `worked`.

use crate::tests::USAGE;
use crate::tests::worked::Worked;
use crate::tests::worked_texts::*;

/// Words that ask nothing, and checks.
const WORDS_AND_CHECKS: &[Worked] = &[
    Worked {
        shows: "no word at all",
        words: "",
        files: &[],
        status: 3,
        printed: USAGE,
        left: &[],
    },
    Worked {
        shows: "an option twice",
        words: "include A B C --look 2 --look 3",
        files: &[("A", RING), ("B", LOOP_A)],
        status: 3,
        printed: USAGE,
        left: &[],
    },
    Worked {
        shows: "a lookahead past 6",
        words: "include A B C --look 7",
        files: &[("A", RING), ("B", LOOP_A)],
        status: 3,
        printed: USAGE,
        left: &[],
    },
    Worked {
        shows: "a lasso is shortened to what separates",
        words: "shrink A B C S",
        files: &[("A", RING), ("B", LOOP_B), ("C", LONG_NO)],
        status: 1,
        printed: "not included\nprefix:\nloop: a\n",
        left: &[("S", SHORT_NO)],
    },
    Worked {
        shows: "a no is checked",
        words: "check A B C",
        files: &[("A", RING), ("B", LOOP_B), ("C", LONG_NO)],
        status: 1,
        printed: "not included\nprefix: a,a,a\nloop: a,a,a\n",
        left: &[],
    },
    Worked {
        shows: "a no whose loop the second automaton accepts too",
        words: "check A B C",
        files: &[("A", RING), ("B", LOOP_A), ("C", FALSE_NO)],
        status: 5,
        printed: "certificate item 2: rule 17\n",
        left: &[],
    },
    Worked {
        shows: "a no is told in version 2",
        words: "upgrade C U",
        files: &[("C", LONG_NO)],
        status: 0,
        printed: "upgraded\n",
        left: &[("U", LONG_NO_2)],
    },
    Worked {
        shows: "a certificate that is cut off",
        words: "check A B C",
        files: &[("A", RING), ("B", LOOP_B), ("C", CUT_OFF)],
        status: 5,
        printed: "certificate line 3: Truncated\n",
        left: &[],
    },
    Worked {
        shows: "a certificate for other sizes",
        words: "check A B C",
        files: &[("A", LOOP_A), ("B", LOOP_B), ("C", LONG_NO)],
        status: 5,
        printed: "certificate item 0: rule 1\n",
        left: &[],
    },
    Worked {
        shows: "a yes is checked",
        words: "check A B C",
        files: &[("A", RING), ("B", LOOP_A), ("C", RING_IN_LOOP_A)],
        status: 0,
        printed: "included\n",
        left: &[],
    },
    Worked {
        shows: "a yes without the last of its elements' steps",
        words: "check A B C",
        files: &[("A", RING), ("B", LOOP_A), ("C", NO_STEP)],
        status: 5,
        printed: "certificate line 12: Shape\n",
        left: &[],
    },
];

/// Further checks, upgrades and cross checks.
const CHECKS_AND_UPGRADES: &[Worked] = &[
    Worked {
        shows: "a yes whose start is covered by an element that is not there",
        words: "check A B C",
        files: &[("A", RING), ("B", LOOP_A), ("C", NO_COVER)],
        status: 5,
        printed: "certificate item 4: rule 1\n",
        left: &[],
    },
    Worked {
        shows: "a list is checked",
        words: "check A B C",
        files: &[
            ("A", OFTEN_A),
            ("B", FROM_SOME_TIME_A),
            ("C", OFTEN_A_IN_FROM_SOME_TIME_A_LIMIT),
        ],
        status: 2,
        printed: "limit 1\n",
        left: &[],
    },
    Worked {
        shows: "a yes of version 2 is checked",
        words: "check A B C",
        files: &[("A", SPLIT), ("B", JOINED), ("C", SPLIT_IN_JOINED_LETTERS)],
        status: 0,
        printed: "included\n",
        left: &[],
    },
    Worked {
        shows: "a no of finite words is checked",
        words: "check A B C",
        files: &[("A", RING), ("B", EVEN), ("C", RING_IN_EVEN_FINITE)],
        status: 1,
        printed: "not included, finite\nword: a,a,a\n",
        left: &[],
    },
    Worked {
        shows: "a yes is told in version 2",
        words: "upgrade C U",
        files: &[("C", RING_IN_LOOP_A)],
        status: 0,
        printed: "upgraded\n",
        left: &[("U", YES_2)],
    },
    Worked {
        shows: "a text that is no certificate is not upgraded",
        words: "upgrade C U",
        files: &[("C", RING)],
        status: 5,
        printed: "certificate line 1: Header\n",
        left: &[],
    },
    Worked {
        shows: "a cross relation is checked",
        words: "cross-check A B O",
        files: &[("A", RING), ("B", LOOP_A), ("O", RING_ACROSS_LOOP_A)],
        status: 0,
        printed: "included by simulation\n",
        left: &[],
    },
    Worked {
        shows: "a cross relation for another lookahead than from 1 to 6",
        words: "cross-check A B O",
        files: &[("A", RING), ("B", LOOP_A), ("O", LOOK_7)],
        status: 5,
        printed: "certificate item 1: rule 1\n",
        left: &[],
    },
    Worked {
        shows: "a cross relation of two pairs: an answer may end later",
        words: "cross-check A B O",
        files: &[("A", RING), ("B", LOOP_A), ("O", TWO_PAIRS)],
        status: 0,
        printed: "included by simulation\n",
        left: &[],
    },
    Worked {
        shows: "a yes has no lasso to shorten",
        words: "shrink A B C S",
        files: &[("A", RING), ("B", LOOP_A), ("C", RING_IN_LOOP_A)],
        status: 13,
        printed: "nothing to shrink\n",
        left: &[],
    },
    Worked {
        shows: "a list without a question",
        words: "batch L",
        files: &[("A", LOOP_A), ("L", NOTHING)],
        status: 0,
        printed: "",
        left: &[],
    },
];

/// Drills, and what is refused.
const REFUSALS_AND_FURTHER_DRILLS: &[Worked] = &[
    Worked {
        shows: "a question of a file that is missing, and the other file as it was",
        words: "batch L",
        files: &[("A", LOOP_A), ("D", OLDER), ("L", MISSING_LIST)],
        status: 0,
        printed: "1 6\n",
        left: &[],
    },
    Worked {
        shows: "a drill of two states in a ring",
        words: "drill 42 2 1",
        files: &[],
        status: 0,
        printed: "first 2 states 2 transitions\nsecond 2 states 2 transitions\nfirst in second: included, elements 1\nsecond in first: included, elements 1\n",
        left: &[],
    },
    Worked {
        shows: "a drill of 24 states whose second automaton accepts more",
        words: "drill 1 24 3",
        files: &[],
        status: 0,
        printed: "first 24 states 24 transitions\nsecond 24 states 27 transitions\nfirst in second: included, elements 678\nsecond in first: not included, prefix 11, loop 11\n",
        left: &[],
    },
    Worked {
        shows: "a union of one automaton",
        words: "union A",
        files: &[("A", LOOP_A), ("B", LOOP_B)],
        status: 3,
        printed: USAGE,
        left: &[],
    },
    Worked {
        shows: "a name too many for an intersection",
        words: "intersect A B A",
        files: &[("A", LOOP_A), ("B", LOOP_B)],
        status: 3,
        printed: USAGE,
        left: &[],
    },
    Worked {
        shows: "an option that a union has not",
        words: "union A B --look 2",
        files: &[("A", LOOP_A), ("B", LOOP_B)],
        status: 3,
        printed: USAGE,
        left: &[],
    },
    Worked {
        shows: "a missing file of a union",
        words: "union A X",
        files: &[("A", LOOP_A), ("B", LOOP_B)],
        status: 6,
        printed: "read fault\n",
        left: &[],
    },
    Worked {
        shows: "a text that is no cross relation",
        words: "cross-check A B O",
        files: &[("A", LOOP_A), ("B", ALL), ("O", OLDER)],
        status: 5,
        printed: "certificate line 1: Truncated\n",
        left: &[],
    },
    Worked {
        shows: "a cross relation without the pair of the initial states",
        words: "cross-check A B O",
        files: &[("A", LOOP_A), ("B", ALL), ("O", NO_PAIR)],
        status: 5,
        printed: "certificate item 2: rule 19\n",
        left: &[],
    },
    Worked {
        shows: "a certificate of version 3 is not upgraded",
        words: "upgrade C U",
        files: &[("C", CERT_3)],
        status: 5,
        printed: "certificate line 1: Header\n",
        left: &[],
    },
    Worked {
        shows: "a list has no lasso to shorten",
        words: "shrink A B C S",
        files: &[
            ("A", OFTEN_A),
            ("B", FROM_SOME_TIME_A),
            ("C", OFTEN_A_IN_FROM_SOME_TIME_A_LIMIT),
        ],
        status: 13,
        printed: "nothing to shrink\n",
        left: &[],
    },
];

// Each part is handed out by a function, as in `worked`.

pub(crate) fn words_and_checks() -> &'static [Worked] {
    WORDS_AND_CHECKS
}

pub(crate) fn checks_and_upgrades() -> &'static [Worked] {
    CHECKS_AND_UPGRADES
}

pub(crate) fn refusals_and_further_drills() -> &'static [Worked] {
    REFUSALS_AND_FURTHER_DRILLS
}
