//! The worked examples, in one table: each row asks something of files in memory, and says what
//! comes of it. The rows stand in parts of a dozen, since the proof of a longer list takes more
//! than in proportion.

use crate::include_tests::says;
use crate::shrink_tests::{holds, shelf_of};
use crate::tests::USAGE;
use crate::tests::worked_checks::{
    checks_and_upgrades, refusals_and_further_drills, words_and_checks,
};
use crate::tests::worked_texts::*;
use auto_core::Memory;
use shelf_io::MemShelf;
use std::alloc::Global;
use std::test::Fail;

/// A worked example.
pub(crate) struct Worked {
    /// What it shows.
    pub shows: &'static str,
    /// The words that are asked, with a space between two.
    pub words: &'static str,
    /// The names and texts of the files that are there.
    pub files: &'static [(&'static str, &'static str)],
    /// The status.
    pub status: u8,
    /// All that is printed.
    pub printed: &'static str,
    /// The files that are new or changed afterwards, each whole. All others are as before.
    pub left: &'static [(&'static str, &'static str)],
}

/// Guesses, rings and near misses.
const GUESSES_AND_RINGS: &[Worked] = &[
    Worked {
        shows: "infinitely many a are not all words: some are b alone for ever",
        words: "include A B C",
        files: &[("A", ALL), ("B", OFTEN_A)],
        status: 1,
        printed: "not included\nprefix: b\nloop: b\n",
        left: &[("C", ALL_IN_OFTEN_A)],
    },
    Worked {
        shows: "from some time on a alone, guessed, has infinitely many a",
        words: "include A B C",
        files: &[("A", FROM_SOME_TIME_A), ("B", OFTEN_A)],
        status: 0,
        printed: "included\n",
        left: &[("C", FROM_SOME_TIME_A_IN_OFTEN_A)],
    },
    Worked {
        shows: "infinitely many a are not a alone from some time on",
        words: "include A B C",
        files: &[("A", OFTEN_A), ("B", FROM_SOME_TIME_A)],
        status: 1,
        printed: "not included\nprefix: a,b\nloop: a,b\n",
        left: &[("C", OFTEN_A_IN_FROM_SOME_TIME_A)],
    },
    Worked {
        shows: "a guess may be made again and again",
        words: "include A B C",
        files: &[("A", OFTEN_BOTH_GUESSED), ("B", OFTEN_A)],
        status: 0,
        printed: "included\n",
        left: &[("C", OFTEN_BOTH_GUESSED_IN_OFTEN_A)],
    },
    Worked {
        shows: "one letter for ever is a word of both",
        words: "include A B C",
        files: &[("A", A_OR_B_FOR_EVER), ("B", ALL)],
        status: 0,
        printed: "included\n",
        left: &[("C", A_OR_B_FOR_EVER_IN_ALL)],
    },
    Worked {
        shows: "a ring of three goes round in the loop of its letter",
        words: "include A B C",
        files: &[("A", RING), ("B", LOOP_A)],
        status: 0,
        printed: "included\n",
        left: &[("C", RING_IN_LOOP_A)],
    },
    Worked {
        shows: "and the loop in the ring",
        words: "include A B C",
        files: &[("A", LOOP_A), ("B", RING)],
        status: 0,
        printed: "included\n",
        left: &[("C", LOOP_A_IN_RING)],
    },
    Worked {
        shows: "a ring with one other letter is not in the loop",
        words: "include A B C",
        files: &[("A", NEAR_RING), ("B", LOOP_A)],
        status: 1,
        printed: "not included\nprefix: a,a,b\nloop: a,a,b\n",
        left: &[("C", NEAR_RING_IN_LOOP_A)],
    },
    Worked {
        shows: "an automaton is in itself",
        words: "include A B C",
        files: &[("A", NEAR_RING), ("B", NEAR_RING)],
        status: 0,
        printed: "included\n",
        left: &[("C", NEAR_RING_IN_NEAR_RING)],
    },
    Worked {
        shows: "a letter that only the first file has",
        words: "include A B C",
        files: &[("A", LOOP_B), ("B", LOOP_A)],
        status: 1,
        printed: "not included\nprefix: b\nloop: b\n",
        left: &[("C", LOOP_B_IN_LOOP_A)],
    },
    Worked {
        shows: "what accepts nothing is included",
        words: "include A B C",
        files: &[("A", NO_GOAL), ("B", LOOP_A)],
        status: 0,
        printed: "included\n",
        left: &[("C", NO_GOAL_IN_LOOP_A)],
    },
    Worked {
        shows: "any lasso separates from what accepts nothing",
        words: "include A B C",
        files: &[("A", LOOP_A), ("B", NO_GOAL)],
        status: 1,
        printed: "not included\nprefix: a\nloop: a\n",
        left: &[("C", LOOP_A_IN_NO_GOAL)],
    },
];

/// Automata that are nearly alike, and how texts may be written.
const NAMES_AND_TEXTS: &[Worked] = &[
    Worked {
        shows: "one state in place of two: the second automaton need not guess",
        words: "include A B C",
        files: &[("A", SPLIT), ("B", JOINED)],
        status: 0,
        printed: "included\n",
        left: &[("C", SPLIT_IN_JOINED)],
    },
    Worked {
        shows: "two states in place of one: the second automaton guesses the next letter",
        words: "include A B C --look 2",
        files: &[("A", JOINED), ("B", SPLIT)],
        status: 0,
        printed: "included\n",
        left: &[("C", JOINED_IN_SPLIT_LOOK)],
    },
    Worked {
        shows: "the same words with the accepting state one move later",
        words: "include A B C",
        files: &[("A", LATE), ("B", EARLY)],
        status: 0,
        printed: "included\n",
        left: &[("C", LATE_IN_EARLY)],
    },
    Worked {
        shows: "states of the same moves become one",
        words: "include A B C",
        files: &[("A", TWINS), ("B", EARLY)],
        status: 0,
        printed: "included\n",
        left: &[("C", TWINS_IN_EARLY)],
    },
    Worked {
        shows: "names of states and labels are texts",
        words: "include A B C",
        files: &[("A", NAMES), ("B", NAMES)],
        status: 0,
        printed: "included\n",
        left: &[("C", NAMES_IN_NAMES)],
    },
    Worked {
        shows: "moves alone: the first source is initial, and all states accept",
        words: "include A B C",
        files: &[("A", NO_INITIAL), ("B", NO_INITIAL)],
        status: 0,
        printed: "included\n",
        left: &[("C", NO_INITIAL_IN_NO_INITIAL)],
    },
    Worked {
        shows: "a line that stands twice",
        words: "include A B C",
        files: &[("A", TWICE), ("B", LOOP_A)],
        status: 0,
        printed: "included\n",
        left: &[("C", TWICE_IN_LOOP_A)],
    },
    Worked {
        shows: "the last line without its line feed",
        words: "include A B C",
        files: &[("A", NO_LAST_LINE_FEED), ("B", LOOP_A)],
        status: 0,
        printed: "included\n",
        left: &[("C", TWICE_IN_LOOP_A)],
    },
    Worked {
        shows: "a label of two bytes",
        words: "include A B C",
        files: &[("A", UMLAUT), ("B", UMLAUT)],
        status: 0,
        printed: "included\n",
        left: &[("C", TWICE_IN_LOOP_A)],
    },
    Worked {
        shows: "lines that end in a carriage return and a line feed",
        words: "include A B C",
        files: &[("A", CR), ("B", LOOP_A)],
        status: 0,
        printed: "included\n",
        left: &[("C", TWICE_IN_LOOP_A)],
    },
    Worked {
        shows: "a blank line is passed over",
        words: "include A B C",
        files: &[("A", BLANK), ("B", LOOP_A)],
        status: 0,
        printed: "included\n",
        left: &[("C", TWICE_IN_LOOP_A)],
    },
];

/// Faults of texts, limits, finite words and announced letters.
const FAULTS_LIMITS_AND_MODES: &[Worked] = &[
    Worked {
        shows: "the fault of the first file is told, and the second is not looked at",
        words: "include A B C",
        files: &[("A", NO_ARROW), ("B", NOTHING)],
        status: 4,
        printed: "file 1 line 2: Shape\n",
        left: &[],
    },
    Worked {
        shows: "the second file's fault",
        words: "include A B C",
        files: &[("A", LOOP_A), ("B", TWO_INITIAL)],
        status: 4,
        printed: "file 2 line 3: TwoInitial\n",
        left: &[],
    },
    Worked {
        shows: "a file without a byte",
        words: "include A B C",
        files: &[("A", LOOP_A), ("B", NOTHING)],
        status: 4,
        printed: "file 2 line 0: Empty\n",
        left: &[],
    },
    Worked {
        shows: "a missing file",
        words: "include A B C",
        files: &[("A", LOOP_A)],
        status: 6,
        printed: "read fault\n",
        left: &[],
    },
    Worked {
        shows: "a limit of one element: the list of two that entered",
        words: "include A B C --limit 1",
        files: &[("A", OFTEN_A), ("B", FROM_SOME_TIME_A)],
        status: 2,
        printed: "limit 1\n",
        left: &[("C", OFTEN_A_IN_FROM_SOME_TIME_A_LIMIT)],
    },
    Worked {
        shows: "a no within two elements",
        words: "include A B C --limit 2",
        files: &[("A", ALL), ("B", OFTEN_BOTH_GUESSED)],
        status: 1,
        printed: "not included\nprefix: a\nloop: a\n",
        left: &[("C", LOOP_A_IN_NO_GOAL)],
    },
    Worked {
        shows: "finite words: a alone is no word of the ring of three",
        words: "include A B C --finite",
        files: &[("A", LOOP_A), ("B", RING)],
        status: 1,
        printed: "not included, finite\nword: a\n",
        left: &[("C", LOOP_A_IN_RING_FINITE)],
    },
    Worked {
        shows: "finite words: three letters are not an even number",
        words: "include A B C --finite",
        files: &[("A", RING), ("B", EVEN)],
        status: 1,
        printed: "not included, finite\nword: a,a,a\n",
        left: &[("C", RING_IN_EVEN_FINITE)],
    },
    Worked {
        shows: "finite words: the words of the ring are words of the loop",
        words: "include A B C --finite",
        files: &[("A", RING), ("B", LOOP_A)],
        status: 0,
        printed: "included, finite\n",
        left: &[("C", RING_IN_LOOP_A_FINITE)],
    },
    Worked {
        shows: "announced letters: a certificate of version 2",
        words: "include A B C --letters 2",
        files: &[("A", SPLIT), ("B", JOINED)],
        status: 0,
        printed: "included\n",
        left: &[("C", SPLIT_IN_JOINED_LETTERS)],
    },
    Worked {
        shows: "announced letters, a no",
        words: "include A B C --letters 4",
        files: &[("A", ALL), ("B", LOOP_A)],
        status: 1,
        printed: "not included\nprefix: b\nloop: b\n",
        left: &[("C", ALL_IN_LOOP_A_LETTERS)],
    },
];

/// Reductions, cross relations, unions and intersections.
const REDUCTIONS_AND_PRODUCTS: &[Worked] = &[
    Worked {
        shows: "a reduction: twins become one",
        words: "reduce A",
        files: &[("A", TWINS)],
        status: 0,
        printed: "[0]\na,[0]->[1]\nb,[1]->[0]\n[1]\n",
        left: &[],
    },
    Worked {
        shows: "a reduction: what reaches no goal goes",
        words: "reduce A",
        files: &[("A", NO_GOAL)],
        status: 0,
        printed: "[0]\n[1]\n",
        left: &[],
    },
    Worked {
        shows: "a reduction of words: a ring stays",
        words: "reduce A --finite",
        files: &[("A", RING)],
        status: 0,
        printed: "[0]\na,[0]->[1]\na,[1]->[2]\na,[2]->[0]\n[0]\n",
        left: &[],
    },
    Worked {
        shows: "a reduction of lassos: the same ring is a loop",
        words: "reduce A",
        files: &[("A", RING)],
        status: 0,
        printed: "[0]\na,[0]->[0]\n[0]\n",
        left: &[],
    },
    Worked {
        shows: "a cross relation, with the file that holds it",
        words: "cross A B O",
        files: &[("A", RING), ("B", LOOP_A)],
        status: 0,
        printed: "included by simulation\n",
        left: &[("O", RING_ACROSS_LOOP_A)],
    },
    Worked {
        shows: "no cross relation at lookahead 1",
        words: "cross A B O --look 1",
        files: &[("A", JOINED), ("B", SPLIT)],
        status: 10,
        printed: "no cross relation\n",
        left: &[],
    },
    Worked {
        shows: "a cross relation at lookahead 2",
        words: "cross A B O --look 2",
        files: &[("A", JOINED), ("B", SPLIT)],
        status: 0,
        printed: "included by simulation\n",
        left: &[("O", JOINED_ACROSS_SPLIT_LOOK)],
    },
    Worked {
        shows: "a union, its states side by side",
        words: "union A B",
        files: &[("A", LOOP_A), ("B", LOOP_B)],
        status: 0,
        printed: "[0]\na,[0]->[1]\nb,[0]->[2]\na,[1]->[1]\nb,[2]->[2]\n[1]\n[2]\n",
        left: &[],
    },
    Worked {
        shows: "a union of words",
        words: "union A B --finite",
        files: &[("A", LOOP_A), ("B", EVEN)],
        status: 0,
        printed: "[0]\na,[0]->[1]\na,[0]->[3]\na,[1]->[1]\na,[2]->[3]\na,[3]->[2]\n[0]\n[1]\n[2]\n",
        left: &[],
    },
    Worked {
        shows: "an intersection goes round by turns",
        words: "intersect A B",
        files: &[("A", OFTEN_A), ("B", OFTEN_BOTH_GUESSED)],
        status: 0,
        printed: "[0]\na,[0]->[1]\na,[0]->[2]\nb,[0]->[0]\na,[1]->[3]\na,[1]->[4]\nb,[1]->[5]\nb,[2]->[5]\na,[3]->[3]\na,[3]->[4]\nb,[3]->[5]\nb,[4]->[0]\na,[5]->[3]\na,[5]->[4]\nb,[5]->[5]\n[1]\n[2]\n",
        left: &[],
    },
    Worked {
        shows: "an intersection that is empty",
        words: "intersect A B",
        files: &[("A", LOOP_A), ("B", LOOP_B)],
        status: 0,
        printed: "[0]\n[0]\n",
        left: &[],
    },
];

/// Equality, emptiness, universality, batches and drills.
const PROPERTIES_BATCHES_AND_DRILLS: &[Worked] = &[
    Worked {
        shows: "both automata accept the same",
        words: "equal A B C D",
        files: &[("A", RING), ("B", LOOP_A)],
        status: 0,
        printed: "equal\n",
        left: &[("C", RING_IN_LOOP_A), ("D", LOOP_A_IN_RING)],
    },
    Worked {
        shows: "a lasso that the second automaton alone accepts",
        words: "equal A B C D",
        files: &[("A", LOOP_A), ("B", ALL)],
        status: 1,
        printed: "second not in first\nprefix: b\nloop: b\n",
        left: &[("C", LOOP_A_IN_ALL), ("D", ALL_IN_LOOP_A)],
    },
    Worked {
        shows: "a lasso that the first automaton alone accepts: the other way is not asked",
        words: "equal A B C D",
        files: &[("A", ALL), ("B", LOOP_A)],
        status: 1,
        printed: "first not in second\nprefix: b\nloop: b\n",
        left: &[("C", ALL_IN_LOOP_A)],
    },
    Worked {
        shows: "an automaton that accepts nothing",
        words: "empty A E C",
        files: &[("A", NO_GOAL)],
        status: 0,
        printed: "empty\n",
        left: &[("C", NO_GOAL_IN_ACCEPTS_NOTHING), ("E", ACCEPTS_NOTHING)],
    },
    Worked {
        shows: "an automaton that accepts something",
        words: "empty A E C",
        files: &[("A", A_THEN_B)],
        status: 1,
        printed: "not empty\nprefix: b\nloop: b\n",
        left: &[("C", A_THEN_B_IN_ACCEPTS_NOTHING), ("E", ACCEPTS_NOTHING)],
    },
    Worked {
        shows: "an automaton that accepts all words of its letters",
        words: "universal A U C",
        files: &[("A", ALL)],
        status: 0,
        printed: "universal\n",
        left: &[("C", ACCEPTS_ALL_IN_ALL), ("U", ALL)],
    },
    Worked {
        shows: "an automaton that does not accept all words of its letters",
        words: "universal A U C",
        files: &[("A", OFTEN_A)],
        status: 1,
        printed: "not universal\nprefix: b\nloop: b\n",
        left: &[("C", ALL_IN_OFTEN_A), ("U", ALL)],
    },
    Worked {
        shows: "a batch of three: a no, a yes, and a file that is missing",
        words: "batch L",
        files: &[("A", RING), ("B", LOOP_B), ("L", LIST)],
        status: 0,
        printed: "1 1\n2 0\n3 6\n",
        left: &[("C", RING_IN_LOOP_B), ("D", RING_IN_RING)],
    },
    Worked {
        shows: "a batch whose second line is none",
        words: "batch L",
        files: &[("A", LOOP_A), ("L", BAD_LIST)],
        status: 11,
        printed: "list line 2\n",
        left: &[],
    },
    Worked {
        shows: "a drill of two small automata",
        words: "drill 7 4 2",
        files: &[],
        status: 0,
        printed: "first 4 states 4 transitions\nsecond 4 states 4 transitions\nfirst in second: included, elements 5\nsecond in first: included, elements 4\n",
        left: &[],
    },
];

// Each part of the table is handed out by a function, so that a proof of the test need not look at
// the rows.

fn guesses_and_rings() -> &'static [Worked] {
    GUESSES_AND_RINGS
}

fn names_and_texts() -> &'static [Worked] {
    NAMES_AND_TEXTS
}

fn faults_limits_and_modes() -> &'static [Worked] {
    FAULTS_LIMITS_AND_MODES
}

fn reductions_and_products() -> &'static [Worked] {
    REDUCTIONS_AND_PRODUCTS
}

fn properties_batches_and_drills() -> &'static [Worked] {
    PROPERTIES_BATCHES_AND_DRILLS
}

/// The text that is to be under the name afterwards: the one that is left there, or else the one
/// that was there before.
fn text_after(row: &Worked, name: &str, before: &'static str) -> &'static str {
    for (other, text) in row.left {
        if *other == name {
            return text;
        }
    }
    before
}

/// Whether the shelf holds what the row says of the files that were there and of those that are
/// left.
fn holds_what_is_left(alloc: Global, row: &Worked, shelf: &mut MemShelf) -> bool {
    for (name, before) in row.files {
        if !holds(alloc, shelf, name, text_after(row, name, before)) {
            return false;
        }
    }
    for (name, text) in row.left {
        if !holds(alloc, shelf, name, text) {
            return false;
        }
    }
    true
}

/// The words of a text.
fn words_in(alloc: Global, text: &'static str) -> Result<Vec<&'static str>, Memory> {
    let mut words = Vec::new(alloc);
    for word in text.split(' ') {
        if !word.is_empty() {
            words.push(word)?;
        }
    }
    Ok(words)
}

/// Whether the row comes out as it says.
fn comes_out(alloc: Global, row: &Worked) -> Result<bool, Memory> {
    let mut shelf = shelf_of(alloc, row.files, &[])?;
    let words = words_in(alloc, row.words)?;
    let (status, sent) = says(alloc, &words, &mut shelf, &[], row.printed)?;
    Ok(status == row.status && sent && holds_what_is_left(alloc, row, &mut shelf))
}

#[test]
fn each_worked_example_comes_out(rt: HostRuntime) -> Result<(), Fail> {
    let alloc = rt.alloc();
    let table = [
        guesses_and_rings(),
        names_and_texts(),
        faults_limits_and_modes(),
        reductions_and_products(),
        properties_batches_and_drills(),
        words_and_checks(),
        checks_and_upgrades(),
        refusals_and_further_drills(),
    ];
    for rows in table {
        for row in rows {
            assert_eq!(rt; (row.shows, comes_out(alloc, row)?), (row.shows, true));
        }
    }
    Ok(())
}
