//! The words of the command line: which ask something, and which ask nothing; and drills, which
//! read no file.

use crate::tests::answers;
use std::test::Fail;

#[test]
fn a_seed_draws_the_generators_words(rt: HostRuntime) -> Result<(), Fail> {
    let draws = drawing::draws(rt.alloc(), 42, 4)?;
    let words: [u32; 4] = [0xa15c_02b7, 0x7b47_f409, 0xba1d_3330, 0x83d2_f293];
    assert_eq!(rt; draws.as_slice(), words.as_slice());
    Ok(())
}

#[test]
fn drills_say_what_they_find(rt: HostRuntime) -> Result<(), Fail> {
    let alloc = rt.alloc();
    let ring =
        "first 2 states 2 transitions\nsecond 2 states 2 transitions\nfirst in second: included, elements 1\nsecond in first: included, elements 1\n";
    let drawn =
        "first 24 states 24 transitions\nsecond 24 states 27 transitions\nfirst in second: included, elements 678\nsecond in first: not included, prefix 11, loop 11\n";
    let rows: [(&[&str], &[u64], u8, &str); 5] = [
        (&["drill", "42", "2", "1"], &[], 0, ring),
        (&["drill", "42", "2", "1"], &[0], 7, ""),
        // the text is given by one call, so that a second one that would fail is none
        (&["drill", "42", "2", "1"], &[1], 0, ring),
        (&["drill", "1", "24", "3"], &[], 0, drawn),
        (&["drill", "1", "24", "3"], &[], 0, drawn),
    ];
    for (words, sink_fails, status, printed) in rows {
        assert_eq!(rt;
            answers(alloc, words, &[], &[], sink_fails, printed)?,
            (status, true)
        );
    }
    Ok(())
}
