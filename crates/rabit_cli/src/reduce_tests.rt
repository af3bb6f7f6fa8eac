//! The reduction of an automaton in a file in memory: what it prints, and what it leaves.

use crate::include_tests::{leaves, says};
use crate::tests::answers;
use auto_core::{List, Memory};
use shelf_io::{File, MemShelf};
use std::alloc::Global;
use std::test::Fail;
use test_inputs::list_of;

/// Two states, each left by a letter of its own; there is neither an initial line nor an accepting
/// one.
const PAIR: &str = "a,[5]->[7]\nb,[7]->[5]\n";

/// The lines of so many states.
fn states(alloc: Global, count: u32) -> Result<String, Memory> {
    let mut text = String::new(alloc);
    for state in 0..count {
        text.push_str(format!(in alloc; "[{state}]\n")?.as_str())?;
    }
    Ok(text)
}

/// The line of a state, and loops of it by so many letters.
fn loops(alloc: Global, count: u32) -> Result<String, Memory> {
    let mut text = String::new(alloc);
    text.push_str("[0]\n")?;
    for letter in 0..count {
        text.push_str(format!(in alloc; "a{letter},[0]->[0]\n")?.as_str())?;
    }
    Ok(text)
}

#[test]
fn failing_calls_are_told(rt: HostRuntime) -> Result<(), Fail> {
    let alloc = rt.alloc();
    let reduced = "[0]\na,[0]->[1]\nb,[1]->[0]\n[0]\n[1]\n";
    let rows: [(&str, &str, &[u64], &[u64], &str, u8); 5] = [
        ("X", PAIR, &[], &[], "read fault\n", 6),
        ("A", PAIR, &[1], &[], "read fault\n", 6),
        ("A", PAIR, &[], &[0], "", 7),
        // a fault that can't be told stays a fault
        ("A", "", &[], &[0], "", 4),
        // one file is loaded once and the text is given at once, so further calls that would fail
        // are none
        ("A", PAIR, &[3], &[1], reduced, 0),
    ];
    for (name, text, fails, sink_fails, printed, status) in rows {
        let files = [("A", text)];
        assert_eq!(rt;
            answers(alloc, &["reduce", name], &files, fails, sink_fails, printed)?,
            (status, true)
        );
    }
    Ok(())
}

/// A file with one byte more than is read.
fn too_long(alloc: Global) -> Result<List<u8>, Memory> {
    // the first byte is a fault, which is not what is told
    let mut bytes = list_of(alloc, &[1])?;
    for _byte in 0..16_777_216u32 {
        bytes.push(b'a')?;
    }
    Ok(bytes)
}

#[test]
fn a_file_that_is_one_byte_too_long_is_told(rt: HostRuntime) -> Result<(), Fail> {
    let alloc = rt.alloc();
    let mut held = List::new(alloc);
    let name = list_of(alloc, b"A")?;
    let bytes = too_long(alloc)?;
    held.push(File { name, bytes })?;
    let mut shelf = MemShelf::new(alloc, held, 0, 65536, List::new(alloc))?;
    let told = "file 1 line 0: Long\n";
    assert_eq!(rt;
        says(alloc, &["reduce", "A"], &mut shelf, &[], told)?,
        (4, true)
    );
    Ok(())
}
