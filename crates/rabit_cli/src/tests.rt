//! The top call on files in memory: statuses, printed texts, and calls of the outside that fail.

mod worked;
mod worked_checks;
mod worked_texts;

use crate::top::run;
use auto_core::Memory;
use shelf_io::{MemShelf, MemSink};
use std::alloc::Global;
use std::test::Fail;
use test_inputs::{numbers_of, shelf_with};

/// How the program is used.
pub const USAGE: &str =
    "usage: rabit include A B CERT [--finite] [--look K] [--limit N] [--letters M] | check A B CERT | reduce A [--finite] [--look K] [--letters M] | drill SEED STATES LABELS | upgrade CERT OUT | cross A B OUT [--look K] | cross-check A B FILE | equal A B C1 C2 | batch LIST | union A B [--finite] | intersect A B [--finite] | shrink A B CERT OUT | empty A E CERT [--finite] | universal A U CERT [--finite]\n";

/// A ring of three states by one label.
pub const RING: &str = "[0]\na,[0]->[1]\na,[1]->[2]\na,[2]->[0]\n[0]\n";

/// One state with a loop by the label `b` alone.
pub const ONLY_B: &str = "[0]\nb,[0]->[0]\n[0]\n";

/// The certificate that tells the ring of three apart from the loop by `b`.
pub const RING_NO: &str = "rabit-cert 1 buchi no\nsizes 3 1 2\nprefix\nloop 0\nend\n";

/// One state with a loop by the label `a` alone.
pub const ONE_A: &str = "[0]\na,[0]->[0]\n[0]\n";

/// One state with a loop by each of two labels.
pub const TWO_LETTERS: &str = "[0]\na,[0]->[0]\nb,[0]->[0]\n[0]\n";

/// The certificate that tells the loop by two labels apart from the one by `a`.
pub const LETTERS_NO: &str = "rabit-cert 1 buchi no\nsizes 1 1 2\nprefix 1\nloop 1\nend\n";

/// A shelf with these files, which has no room for more.
pub(crate) fn shelf_of(
    alloc: Global,
    files: &[(&str, &str)],
    fails: &[u64],
) -> Result<MemShelf, Memory> {
    shelf_with(alloc, files, 0, 65536, fails)
}

pub(crate) fn words_of(alloc: Global, words: &[&str]) -> Result<Vec<String>, Memory> {
    let mut list = Vec::new(alloc);
    for word in words {
        list.push(String::from_str(alloc, word)?)?;
    }
    Ok(list)
}

/// The status, and whether the sink holds just this text.
pub(crate) fn answers(
    alloc: Global,
    words: &[&str],
    files: &[(&str, &str)],
    fails: &[u64],
    sink_fails: &[u64],
    printed: &str,
) -> Result<(u8, bool), Memory> {
    let mut shelf = shelf_of(alloc, files, fails)?;
    let mut out = MemSink::new(alloc, 1000, numbers_of(alloc, sink_fails)?)?;
    let words = words_of(alloc, words)?;
    let status = run(alloc, &words, &mut shelf, &mut out);
    Ok((status, out.contents() == printed.as_bytes()))
}

pub(crate) fn check(
    alloc: Global,
    first: &str,
    second: &str,
    certificate: &str,
    printed: &str,
) -> Result<(u8, bool), Memory> {
    let files = [("A", first), ("B", second), ("C", certificate)];
    answers(alloc, &["check", "A", "B", "C"], &files, &[], &[], printed)
}

/// How many of these checks end otherwise: of the first automaton and the second, by the
/// certificate, with the status and just the text.
pub(crate) fn unsaid(alloc: Global, rows: &[(&str, &str, &str, u8, &str)]) -> Result<u32, Memory> {
    let mut unsaid: u32 = 0;
    for (first, second, certificate, status, printed) in rows {
        if check(alloc, first, second, certificate, printed)? != (*status, true) {
            unsaid = unsaid.saturating_add(1);
        }
    }
    Ok(unsaid)
}

/// How many of these end otherwise on the files: the words, where these calls of the shelf and of
/// the sink fail, with the status and just the text.
pub(crate) fn unanswered(
    alloc: Global,
    files: &[(&str, &str)],
    rows: &[(&[&str], &[u64], &[u64], u8, &str)],
) -> Result<u32, Memory> {
    let mut unanswered: u32 = 0;
    for (words, fails, sink_fails, status, printed) in rows {
        if answers(alloc, words, files, fails, sink_fails, printed)? != (*status, true) {
            unanswered = unanswered.saturating_add(1);
        }
    }
    Ok(unanswered)
}

#[test]
fn failing_calls_of_the_outside_are_told(rt: HostRuntime) -> Result<(), Fail> {
    let alloc = rt.alloc();
    let files = [("A", RING), ("B", ONLY_B), ("C", RING_NO)];
    let words = ["check", "A", "B", "C"];
    // each of the three files is begun and then taken in two calls
    for call in 0..9 {
        let wrong = unanswered(alloc, &files, &[(&words, &[call], &[], 6, "read fault\n")])?;
        assert_eq!(rt; wrong, 0, "{call}");
    }
    let told = "not included\nprefix:\nloop: a\n";
    let wrong = unanswered(
        alloc,
        &files,
        &[
            (&words, &[9], &[], 1, told),
            (&words, &[], &[1], 1, told),
            (&words, &[], &[0], 7, ""),
        ],
    )?;
    assert_eq!(rt; wrong, 0);
    Ok(())
}
