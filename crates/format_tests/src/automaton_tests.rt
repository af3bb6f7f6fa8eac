//! Automata whose numbers are out of range or repeated.

use auto_core::{Auto, BuildFault, Trans};

/// A transition.
fn step(source: u32, label: u32, target: u32) -> Trans {
    Trans {
        source,
        label,
        target,
    }
}

#[test]
fn numbers_out_of_range_are_refused(rt: HostRuntime) {
    assert!(rt;
        matches!(
            Auto::build(rt.alloc(), 1, 1, 1, &[], &[]),
            Err(BuildFault::StateRange)
        )
    );
    assert!(rt;
        matches!(
            Auto::build(rt.alloc(), 1, 0, 0, &[step(0, 0, 0)], &[]),
            Err(BuildFault::LabelRange)
        )
    );
    assert!(rt;
        matches!(
            Auto::build(rt.alloc(), 1, 1, 0, &[step(0, 0, 0), step(0, 0, 0)], &[]),
            Err(BuildFault::Repeat)
        )
    );
    assert!(rt;
        matches!(
            Auto::build(rt.alloc(), 1, 1, 0, &[], &[0, 0]),
            Err(BuildFault::Repeat)
        )
    );
}
