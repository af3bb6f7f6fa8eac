//! The decision of an inclusion on files in memory: what it prints, the certificate that it leaves,
//! and what a check says of that.

use crate::shrink_tests::{holds, shelf_of};
use crate::tests::words_of;
use crate::top::run;
use auto_core::Memory;
use shelf_io::{LoadFault, MemShelf, MemSink, load};
use std::alloc::Global;
use std::test::Fail;
use test_inputs::{ONE_YES, looped_ring, numbers_of};

const ONE_A: &str = "[0]\na,[0]->[0]\n[0]\n";

/// Two states, each left by a letter of its own.
pub const PAIR: &str = "a,[5]->[7]\nb,[7]->[5]\n";

/// The status of the words on the shelf's files, and whether just this text was sent.
pub(crate) fn says(
    alloc: Global,
    words: &[&str],
    shelf: &mut MemShelf,
    sink_fails: &[u64],
    printed: &str,
) -> Result<(u8, bool), Memory> {
    let mut out = MemSink::new(alloc, 1000, numbers_of(alloc, sink_fails)?)?;
    let words = words_of(alloc, words)?;
    let status = run(alloc, &words, shelf, &mut out);
    Ok((status, out.contents() == printed.as_bytes()))
}

/// The same of the command with the names of the two files and of the certificate.
pub(crate) fn answers(
    alloc: Global,
    command: &str,
    shelf: &mut MemShelf,
    sink_fails: &[u64],
    printed: &str,
) -> Result<(u8, bool), Memory> {
    says(alloc, &[command, "A", "B", "C"], shelf, sink_fails, printed)
}

/// The words of a decision.
const INCLUDE: [&str; 4] = ["include", "A", "B", "C"];

/// Whether the shelf holds just these texts under their names.
pub(crate) fn holds_all(alloc: Global, shelf: &mut MemShelf, texts: &[(&str, &str)]) -> bool {
    for (name, text) in texts {
        if !holds(alloc, shelf, name, text) {
            return false;
        }
    }
    true
}

/// Whether the words on files with room for more end with this status and just this text, and leave
/// just these texts under their names.
pub(crate) fn leaves(
    alloc: Global,
    files: &[(&str, &str)],
    fails: &[u64],
    words: &[&str],
    sink_fails: &[u64],
    told: (u8, &str),
    left: &[(&str, &str)],
) -> Result<bool, Memory> {
    let mut shelf = shelf_of(alloc, files, fails)?;
    let (status, printed) = told;
    let (ended, sent) = says(alloc, words, &mut shelf, sink_fails, printed)?;
    let held = holds_all(alloc, &mut shelf, left);
    Ok(ended == status && sent && held)
}

/// Whether these words, one after the other on the same files, end each with its status and just
/// its text, where the sink refuses these calls, and leave just these texts under these names.
pub(crate) fn says_in_turn(
    alloc: Global,
    files: &[(&str, &str)],
    asked: &[(&[&str], &[u64], u8, &str)],
    left: &[(&str, &str)],
) -> Result<bool, Memory> {
    let mut shelf = shelf_of(alloc, files, &[])?;
    for (words, sink_fails, status, printed) in asked {
        if says(alloc, words, &mut shelf, sink_fails, printed)? != (*status, true) {
            return Ok(false);
        }
    }
    Ok(holds_all(alloc, &mut shelf, left))
}

/// Whether a decision of whether the automaton is included in itself ends so, and a check after it
/// says the same, or that its own read failed.
fn includes(
    alloc: Global,
    text: &str,
    fails: &[u64],
    sink_fails: &[u64],
    told: (u8, &str),
) -> Result<bool, Memory> {
    let mut shelf = shelf_of(alloc, &[("A", text), ("B", text)], fails)?;
    let (status, printed) = told;
    let (ended, sent) = answers(alloc, "include", &mut shelf, sink_fails, printed)?;
    if status != 0 {
        return Ok(ended == status && sent);
    }
    let (failed, line) = if fails.is_empty() {
        (0, "included\n")
    } else {
        (6, "read fault\n")
    };
    let (checked, said) = answers(alloc, "check", &mut shelf, &[], line)?;
    Ok(ended == 0 && sent && checked == failed && said)
}

#[test]
fn failing_calls_of_a_decision_are_told(rt: HostRuntime) -> Result<(), Fail> {
    let alloc = rt.alloc();
    let text = looped_ring(alloc, 30)?;
    let rows = [
        (&[][..], &[][..], 0, "included\n"),
        (&[2], &[], 6, "read fault\n"),
        (&[6], &[], 7, "write fault\n"),
        (&[6], &[0], 7, ""),
        (&[], &[0], 7, ""),
        // the text is given at once, so a second call that would fail is none
        (&[], &[1], 0, "included\n"),
        // and so is a call of the shelf past the one put: the check's first load is the seventh
        (&[7], &[], 0, "included\n"),
    ];
    for (fails, sink_fails, status, printed) in rows {
        assert!(rt; includes(alloc, text.as_str(), fails, sink_fails, (status, printed))?);
    }
    Ok(())
}

/// Whether a decision of whose calls this one fails ends so, with both automata as they were and no
/// certificate.
fn changes_none(alloc: Global, call: u64, told: (u8, &str)) -> Result<bool, Memory> {
    let files = [("A", ONE_A), ("B", ONE_A)];
    let mut shelf = shelf_of(alloc, &files, &[call])?;
    let (status, printed) = told;
    let (ended, sent) = answers(alloc, "include", &mut shelf, &[], printed)?;
    let held = holds_all(alloc, &mut shelf, &files);
    let missing = load(alloc, &mut shelf, "C", 1000).err() == Some(LoadFault::Failed);
    Ok(ended == status && sent && held && missing)
}

#[test]
fn each_call_that_fails_before_the_put_changes_no_file(rt: HostRuntime) -> Result<(), Fail> {
    let alloc = rt.alloc();
    // each of the two files is begun and then taken in two calls, and the put is the seventh call
    for call in 0..7 {
        let told = if call < 6 {
            (6, "read fault\n")
        } else {
            (7, "write fault\n")
        };
        assert!(rt; changes_none(alloc, call, told)?);
    }
    let files = [("A", ONE_A), ("B", ONE_A)];
    assert!(rt;
        leaves(
            alloc,
            &files,
            &[],
            &INCLUDE,
            &[0],
            (7, ""),
            &[("C", ONE_YES)]
        )?
    );
    Ok(())
}

/// One state with a loop by each letter of the rings.
const ANY: &str = "[0]\na0,[0]->[0]\na1,[0]->[0]\n[0]\n";

#[test]
fn a_decision_meets_its_limit(rt: HostRuntime) -> Result<(), Fail> {
    let alloc = rt.alloc();
    // paths lead from each of the 142 states to each, which makes 20164 supergraphs or more
    let text = looped_ring(alloc, 142)?;
    let mut shelf = shelf_of(alloc, &[("A", text.as_str()), ("B", ANY)], &[])?;
    assert_eq!(rt;
        answers(alloc, "include", &mut shelf, &[], "limit 20000\n")?,
        (2, true)
    );
    let bytes = load(alloc, &mut shelf, "C", 1_000_000)?;
    let front =
        b"rabit-cert 1 buchi list\nsizes 142 1 2\nlog1 0\nlog2 0\nlimit 20000\nelements 20001\n";
    assert!(rt; bytes.as_slice().starts_with(front));
    Ok(())
}
