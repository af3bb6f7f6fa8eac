//! The union and the intersection of two automata in files in memory: what they print, and what
//! they leave.

use crate::fault_tests::many_lines;
use crate::tests::{ONLY_B, USAGE, answers, unanswered};
use auto_core::Memory;
use std::alloc::Global;
use std::test::Fail;

const ONE_A: &str = "[0]\na,[0]->[0]\n[0]\n";

/// A ring of so many states.
fn ring(alloc: Global, count: u32) -> Result<String, Memory> {
    let mut text = String::new(alloc);
    for state in 1..count {
        let before = state - 1;
        write!(text, "a,[{before}]->[{state}]\n")?;
    }
    let last = count.max(1) - 1;
    write!(text, "a,[{last}]->[0]\n")?;
    Ok(text)
}

#[test]
fn too_large_results_are_told(rt: HostRuntime) -> Result<(), Fail> {
    let alloc = rt.alloc();
    let first = ring(alloc, 512)?;
    let second = ring(alloc, 511)?;
    let most = many_lines(alloc, 2047, 0)?;
    let rows: [(&str, &str, &str, &[u64], &str); 3] = [
        (
            "intersect",
            first.as_str(),
            second.as_str(),
            &[],
            "too large\n",
        ),
        ("union", most.as_str(), ONE_A, &[], "too large\n"),
        // the status stays where the sink refuses the line
        ("union", most.as_str(), ONE_A, &[0], ""),
    ];
    for (command, one, other, sink_fails, printed) in rows {
        let files = [("A", one), ("B", other)];
        assert_eq!(rt;
            answers(
                alloc,
                &[command, "A", "B"],
                &files,
                &[],
                sink_fails,
                printed
            )?,
            (12, true)
        );
    }
    Ok(())
}

#[test]
fn other_words_and_failing_calls_are_told(rt: HostRuntime) -> Result<(), Fail> {
    let alloc = rt.alloc();
    let files = [("A", ONE_A), ("B", ONLY_B)];
    let wrong = unanswered(
        alloc,
        &files,
        &[
            (&["union", "A"], &[], &[], 3, USAGE),
            (&["intersect", "A", "B", "A"], &[], &[], 3, USAGE),
            (&["union", "A", "B", "--look", "2"], &[], &[], 3, USAGE),
            (
                &["intersect", "A", "B", "--finite", "--finite"],
                &[],
                &[],
                3,
                USAGE,
            ),
            (&["union", "A", "X"], &[], &[], 6, "read fault\n"),
            (&["union", "A", "B"], &[4], &[], 6, "read fault\n"),
            (&["union", "A", "B"], &[], &[0], 7, ""),
        ],
    )?;
    assert_eq!(rt; wrong, 0);
    Ok(())
}
