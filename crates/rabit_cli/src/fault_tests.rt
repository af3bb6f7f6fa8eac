//! Faulty texts of automata, and what the program says of each.

use crate::include_tests::{leaves, says};
use crate::tests::{ONLY_B, RING, RING_NO, check, shelf_of};
use auto_core::Memory;
use ba_format::{BaFault, BaKind, Limits, ReadFault, read};
use shelf_io::{Failed, MemShelf, Shelf};
use std::alloc::Global;
use std::test::Fail;

/// The two texts as one.
fn both_texts(alloc: Global, front: &str, rest: &str) -> Result<String, Memory> {
    let mut text = String::from_str(alloc, front)?;
    text.push_str(rest)?;
    Ok(text)
}

/// Whether a check of the two automata tells this fault of the file.
fn tells(alloc: Global, one: &str, two: &str, file: &str, said: &str) -> Result<bool, Memory> {
    let printed = both_texts(alloc, file, said)?;
    Ok(check(alloc, one, two, RING_NO, printed.as_str())? == (4, true))
}

#[test]
fn each_text_has_its_first_fault(rt: HostRuntime) -> Result<(), Fail> {
    let alloc = rt.alloc();
    let faults = [
        ("", "line 0: Empty\n"),
        ("\n", "line 0: Empty\n"),
        ("\n \t\r\n\n", "line 0: Empty\n"),
        ("   ", "line 0: Empty\n"),
        ("[0]\na,[0]->[\u{1}]\n", "line 2: BadByte\n"),
        ("[0]\n\u{7f}\n", "line 2: BadByte\n"),
        ("[0]\na\rb\n", "line 2: BadByte\n"),
        ("[0]\n\u{b}[1]\n", "line 2: BadByte\n"),
        ("a,[0]-[1]\n", "line 1: Shape\n"),
        ("[0]->[1]\n", "line 1: Shape\n"),
        ("[0]\na,[0]-[1]\n", "line 2: Shape\n"),
        ("a,b,[0]->[1]", "line 1: Shape\n"),
        ("a,[0]->[1]->[2]", "line 1: Shape\n"),
        ("a->[0],[1]", "line 1: Shape\n"),
        ("a->,[0]->[1]", "line 1: Shape\n"),
        ("\n\n,\n", "line 3: Shape\n"),
        ("->\n", "line 1: Shape\n"),
        ("a,[0]\n", "line 1: Shape\n"),
        ("a,[0]>-[1]\n", "line 1: Shape\n"),
        ("[0]\r\n\r\na,[0],[1]\r\n", "line 3: Shape\n"),
        (",->\n", "line 1: EmptyToken\n"),
        ("a, \t->[1]\n", "line 1: EmptyToken\n"),
        (",[0]->[1]\n", "line 1: EmptyToken\n"),
        ("a,[0]-> \n", "line 1: EmptyToken\n"),
        (" , [0] -> [1]\n", "line 1: EmptyToken\n"),
        ("[0]\na,[0]->[0]\nb,->[0]\n", "line 3: EmptyToken\n"),
        ("[0]\n[1]\na,[0]->[1]\n", "line 3: TwoInitial\n"),
        ("[0]\n\n[0]\na,[0]->[0]\n", "line 4: TwoInitial\n"),
        ("[0]\n[1]\n[2]\na,[3]->[4]\n", "line 4: TwoInitial\n"),
        ("[0]\n[1]\n\n\na,[0]->[1]\n[0]\n", "line 5: TwoInitial\n"),
        // Two faults on one line: the lesser kind is named.
        ("a,b,c->d\u{2}\n", "line 1: BadByte\n"),
        ("->\u{1},\n", "line 1: BadByte\n"),
        (",,->\n", "line 1: Shape\n"),
        ("[0]\n[1]\n,->\n", "line 3: EmptyToken\n"),
        ("[0]\n[1]\na,[0]-[1]\n", "line 3: Shape\n"),
        ("[0]\n[1]\n,[0]->[1]\n", "line 3: EmptyToken\n"),
        // Faults on two lines: the earlier line is named.
        ("a,[0]-[1]\n\u{1}\n", "line 1: Shape\n"),
        (",[0]->[1]\na,[0]-[1]\n", "line 1: EmptyToken\n"),
        ("[0]\n[1]\na,[0]->[1]\n\u{1}\n", "line 3: TwoInitial\n"),
        ("a,[0]->\n\n,\n\u{1}", "line 1: EmptyToken\n"),
        ("[0]\na,[0]->[0]\n->\n,[0]->[0]\n", "line 3: Shape\n"),
        ("x\u{1}\na,[0]-[1]\n", "line 1: BadByte\n"),
    ];
    for (text, said) in faults {
        assert!(rt; tells(alloc, text, ONLY_B, "file 1 ", said)?, "{text:?}");
        assert!(rt; tells(alloc, RING, text, "file 2 ", said)?, "{text:?}");
    }
    Ok(())
}

/// Whether the shelf's next call begins the name, and the one after it is refused.
pub(crate) fn takes_next(shelf: &mut MemShelf, name: &str) -> bool {
    let mut buf = [0; 4];
    shelf.begin(name) == Ok(()) && shelf.take(&mut buf) == Err(Failed)
}

/// Whether the fault of the first file is told before the second is begun: each file is read in
/// three calls, so the fifth call, which would fail, is the first `take` of the second file.
fn ends_at_once(alloc: Global, files: &[(&str, &str)], words: &[&str]) -> Result<bool, Memory> {
    let mut shelf = shelf_of(alloc, files, &[4])?;
    let (status, sent) = says(alloc, words, &mut shelf, &[], "file 1 line 1: Shape\n")?;
    Ok(status == 4 && sent && takes_next(&mut shelf, "B"))
}

#[test]
fn the_first_fault_decides(rt: HostRuntime) -> Result<(), Fail> {
    let alloc = rt.alloc();
    let files = [("A", "a,[0]-[1]\n"), ("B", ONLY_B), ("C", RING_NO)];
    for command in ["include", "check"] {
        let words = [command, "A", "B", "C"];
        // a fault of the text is told after the file's end: the third call finds it, and may fail
        assert!(rt; leaves(alloc, &files, &[2], &words, &[], (6, "read fault\n"), &[])?);
        assert!(rt; ends_at_once(alloc, &files, &words)?);
    }
    Ok(())
}

/// The lines of this many states, or of this many letters on one state.
pub(crate) fn many_lines(alloc: Global, states: u32, letters: u32) -> Result<String, Memory> {
    let mut text = String::new(alloc);
    for state in 0..states {
        text.push_str("[")?;
        write!(text, "{state}")?;
        text.push_str("]\n")?;
    }
    for letter in 0..letters {
        write!(text, "a{letter},[0]->[0]\n")?;
    }
    Ok(text)
}

#[test]
fn the_limits_of_an_automaton_are_told(rt: HostRuntime) -> Result<(), Fail> {
    let alloc = rt.alloc();
    let refused = "certificate item 0: rule 1\n";
    for (states, letters, said, status) in [
        (2048, 0, refused, 5),
        (2049, 0, "file 1 line 2049: TooManyStates\n", 4),
        (1, 256, refused, 5),
        (1, 257, "file 1 line 258: TooManyLabels\n", 4),
    ] {
        let text = many_lines(alloc, states, letters)?;
        assert_eq!(rt;
            check(alloc, text.as_str(), ONLY_B, RING_NO, said)?,
            (status, true)
        );
    }
    Ok(())
}

/// How many states and labels the text has within these limits, or its fault; none where it was not
/// read.
fn counts_in(alloc: Global, text: &[u8], limits: &Limits) -> Option<Result<(u32, u32), BaFault>> {
    if text.len() > 1_000_000 {
        return None;
    }
    match read(alloc, text, limits) {
        Ok(named) => Some(Ok((named.auto.states(), named.auto.labels()))),
        Err(ReadFault::Ba(fault)) => Some(Err(fault)),
        Err(ReadFault::Memory) => None,
    }
}

#[test]
fn more_states_are_read_where_more_are_allowed(rt: HostRuntime) -> Result<(), Fail> {
    let alloc = rt.alloc();
    let limits = Limits {
        states: 2048,
        labels: 256,
        transitions: 65_536,
    };
    for (states, letters, counts) in [
        (2048, 0, Ok((2048, 0))),
        (
            2049,
            0,
            Err(BaFault {
                line: 2049,
                kind: BaKind::TooManyStates,
            }),
        ),
        (1, 256, Ok((1, 256))),
        (
            1,
            257,
            Err(BaFault {
                line: 258,
                kind: BaKind::TooManyLabels,
            }),
        ),
    ] {
        let text = many_lines(alloc, states, letters)?;
        assert_eq!(rt; counts_in(alloc, text.as_bytes(), &limits), Some(counts));
    }
    Ok(())
}

#[test]
fn a_long_token_and_too_many_transitions_are_told(rt: HostRuntime) -> Result<(), Fail> {
    let alloc = rt.alloc();
    let mut long = String::new(alloc);
    long.push_str("[0]\n")?;
    for _byte in 0..256 {
        long.push_str("a")?;
    }
    long.push_str(",[0]->[0]\n")?;
    let said = "file 1 line 2: TokenLong\n";
    assert_eq!(rt;
        check(alloc, long.as_str(), ONLY_B, RING_NO, said)?,
        (4, true)
    );
    let mut many = String::new(alloc);
    for state in 0..257 {
        for letter in 0..256 {
            write!(many, "a{letter},[{state}]->[{state}]\n")?;
        }
    }
    let said = "file 1 line 65537: TooManyTransitions\n";
    assert_eq!(rt;
        check(alloc, many.as_str(), ONLY_B, RING_NO, said)?,
        (4, true)
    );
    Ok(())
}
