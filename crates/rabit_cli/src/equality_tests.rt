//! Whether two automata in files in memory accept the same: what is printed, and which certificates
//! are left.

use crate::include_tests::{leaves, says};
use crate::shrink_tests::{begins, shelf_of};
use auto_core::Memory;
use std::alloc::Global;
use std::test::Fail;

const ONE_A: &str = "[0]\na,[0]->[0]\n[0]\n";

/// The two letters lead from the seven states to these in each order, so that a search meets its
/// limit.
const ORDERS: &str =
    "[0]\na,[0]->[1]\na,[1]->[2]\na,[2]->[3]\na,[3]->[4]\na,[4]->[5]\na,[5]->[6]\na,[6]->[0]\nb,[0]->[1]\nb,[1]->[0]\nb,[2]->[2]\nb,[3]->[3]\nb,[4]->[4]\nb,[5]->[5]\nb,[6]->[6]\n[0]\n";

const YES: &str =
    "rabit-cert 1 buchi yes\nsizes 1 1 1\nlog1 0\nlog2 0\nrel 1\nrow 0 0\nelements 1\nlive base 0\ncover 0\nstep 0 0\nend\n";

const OLDER: &str = "older";

/// The words of a comparison of `A` and `B`.
const COMPARE: [&str; 5] = ["equal", "A", "B", "C", "D"];

#[test]
fn failing_calls_of_a_comparison_are_told(rt: HostRuntime) -> Result<(), Fail> {
    let alloc = rt.alloc();
    // each file is read in three calls, and the puts are the seventh and the eighth
    let rows = [
        (&[2][..], &[][..], 6, "read fault\n", OLDER, OLDER),
        (&[5], &[], 6, "read fault\n", OLDER, OLDER),
        (&[6], &[], 7, "write fault\n", OLDER, OLDER),
        (&[7], &[], 7, "write fault\n", YES, OLDER),
        (&[], &[0], 7, "", YES, YES),
        (&[], &[1], 0, "equal\n", YES, YES),
    ];
    for (fails, sink_fails, status, printed, certificate, converse) in rows {
        let files = [("A", ONE_A), ("B", ONE_A), ("C", OLDER), ("D", OLDER)];
        let left = [("C", certificate), ("D", converse)];
        let told = (status, printed);
        assert!(rt; leaves(alloc, &files, fails, &COMPARE, sink_fails, told, &left)?);
    }
    Ok(())
}

/// Whether the seven states and the second automaton are compared with this status and just this
/// text, and the two certificates begin so.
fn compares(
    alloc: Global,
    second: &str,
    told: (u8, &str),
    certificate: &str,
    converse: &str,
) -> Result<bool, Memory> {
    let mut shelf = shelf_of(alloc, &[("A", ORDERS), ("B", second)], &[])?;
    let (status, printed) = told;
    let (ended, sent) = says(alloc, &COMPARE, &mut shelf, &[], printed)?;
    let left = begins(alloc, &mut shelf, "C", certificate);
    Ok(ended == status && sent && left && begins(alloc, &mut shelf, "D", converse))
}

#[test]
fn a_lasso_goes_before_a_limit(rt: HostRuntime) -> Result<(), Fail> {
    let alloc = rt.alloc();
    let mut more = String::from_str(alloc, ORDERS)?;
    more.push_str("[3]\n")?;
    let list =
        "rabit-cert 1 buchi list\nsizes 7 7 2\nlog1 0\nlog2 0\nlimit 20000\nelements 20001\n";
    let no = "rabit-cert 1 buchi no\nsizes 7 7 2\nprefix 0 0 0\nloop 1\nend\n";
    let told = "second not in first\nprefix: a,a,a\nloop: b\n";
    let rows = [
        (ORDERS, 2, "limit 20000\n", list),
        (more.as_str(), 1, told, no),
    ];
    for (two, status, printed, converse) in rows {
        assert!(rt; compares(alloc, two, (status, printed), list, converse)?);
    }
    Ok(())
}
