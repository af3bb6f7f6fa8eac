//! Certificates of inclusion: valid ones, and one line changed so that each rule in turn is the
//! first that is broken.

use crate::tests::{ONE_A, check};
use auto_core::Memory;
use std::alloc::Global;
use std::test::Fail;

/// Both automata: two states, each left by a letter of its own, and all accepting.
pub const PAIR: &str = "a,[5]->[7]\nb,[7]->[5]\n";

/// The lines of a valid certificate for the pair and itself.
pub const LINES: [&str; 18] = [
    "rabit-cert 1 buchi yes\n",
    "sizes 2 2 2\n",
    "log1 0\n",
    "log2 0\n",
    "rel 2\n",
    "row 0 0\n",
    "row 1 1\n",
    "elements 4\n",
    "live base 0\n",
    "live base 1\n",
    "live next 0 1\n",
    "live next 1 0\n",
    "cover 0 1\n",
    "step 0 2\n",
    "step 1 3\n",
    "step 2 0\n",
    "step 3 1\n",
    "end\n",
];

/// The text of the lines, with these in place of those with the same numbers, which are counted
/// from 0.
pub(crate) fn with_lines(
    alloc: Global,
    lines: &[&str],
    changes: &[(usize, &str)],
) -> Result<String, Memory> {
    let mut text = String::new(alloc);
    for place in 0..lines.len() {
        let mut line = lines[place];
        for (changed, new) in changes {
            if *changed == place {
                line = *new;
            }
        }
        text.push_str(line)?;
    }
    Ok(text)
}

/// How many of the damages of the whole text are told otherwise than by this status and what stands
/// beside them. A damage is the lines that change, by their numbers from 0.
pub(crate) fn untold(
    alloc: Global,
    first: &str,
    second: &str,
    whole: &[&str],
    status: u8,
    damages: &[(&[(usize, &str)], &str)],
) -> Result<u32, Memory> {
    let mut untold: u32 = 0;
    for (changes, said) in damages {
        let text = with_lines(alloc, whole, changes)?;
        if check(alloc, first, second, text.as_str(), said)? != (status, true) {
            untold = untold.saturating_add(1);
        }
    }
    Ok(untold)
}

#[test]
fn many_elements_may_be_under_one(rt: HostRuntime) -> Result<(), Fail> {
    let alloc = rt.alloc();
    let mut text = String::new(alloc);
    text.push_str(
        "rabit-cert 1 buchi yes\nsizes 1 1 1\nlog1 0\nlog2 0\nrel 1\nrow 0 0\nelements 100000\nlive base 0\n",
    )?;
    for parent in 0..99_999u32 {
        write!(text, "under 0 next {parent} 0\n")?;
    }
    text.push_str("cover 0\nstep 0 0\nend\n")?;
    assert_eq!(rt;
        check(alloc, ONE_A, ONE_A, text.as_str(), "included\n")?,
        (0, true)
    );
    Ok(())
}
