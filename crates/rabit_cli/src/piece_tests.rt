//! Texts in pieces and cut short: each cut of whole files, and files that come byte by byte.

use crate::damage_tests::{CUT, MERGED};
use crate::include_tests::says;
use crate::tests::ONE_A;
use crate::yes_tests::{LINES, with_lines};
use auto_core::Memory;
use cert_text::{CertReadFault, CertReader, TextKind, read_cert, write_cert};
use cert_value::Cert;
use std::alloc::Global;
use std::test::Fail;
use test_inputs::{ONE_YES, shelf_with};

/// The line where the text ends too early, where that is its fault.
fn cut_short(alloc: Global, front: &[u8]) -> Option<u32> {
    if front.len() > 1_000_000 {
        return None;
    }
    match read_cert(alloc, front) {
        Err(CertReadFault::Text(fault)) => match fault.kind {
            TextKind::Truncated => Some(fault.line),
            _ => None,
        },
        _ => None,
    }
}

fn whole_lines(front: &[u8]) -> u32 {
    let mut lines: u32 = 0;
    for byte in front {
        if *byte == 10 {
            lines = lines.wrapping_add(1);
        }
    }
    lines
}

/// Whether each proper front of the text ends too early in its last line, and the whole does not.
fn is_truncated_everywhere(alloc: Global, bytes: &[u8]) -> bool {
    for end in 0..bytes.len() {
        let front = &bytes[..end];
        if cut_short(alloc, front) != Some(whole_lines(front).wrapping_add(1)) {
            return false;
        }
    }
    cut_short(alloc, bytes).is_none()
}

#[test]
fn every_front_of_a_certificate_is_truncated(rt: HostRuntime) -> Result<(), Fail> {
    let alloc = rt.alloc();
    assert!(rt; is_truncated_everywhere(alloc, ONE_YES.as_bytes()));
    for lines in [&LINES[..], &MERGED, &CUT] {
        let text = with_lines(alloc, lines, &[])?;
        assert!(rt; is_truncated_everywhere(alloc, text.as_bytes()));
    }
    Ok(())
}

/// Gives the reader both pieces.
fn feed_both(reader: &mut CertReader, front: &[u8], rest: &[u8]) -> Result<(), Memory> {
    reader.feed(front)?;
    reader.feed(rest)
}

/// What the two pieces are read as.
fn read_in_two(alloc: Global, front: &[u8], rest: &[u8]) -> Result<Cert, CertReadFault> {
    let mut reader = CertReader::new(alloc)?;
    match feed_both(&mut reader, front, rest) {
        Ok(()) => reader.finish(),
        Err(_refused) => {
            drop(reader);
            Err(CertReadFault::Memory)
        },
    }
}

/// Whether they are read as the certificate whose text they are together.
fn reads_as_one(alloc: Global, front: &[u8], rest: &[u8], whole: &[u8]) -> bool {
    match read_in_two(alloc, front, rest) {
        Ok(cert) => match write_cert(alloc, &cert) {
            Ok(written) => written.as_slice() == whole,
            Err(_) => false,
        },
        Err(_) => false,
    }
}

#[test]
fn a_certificate_is_the_same_wherever_it_is_cut(rt: HostRuntime) -> Result<(), Fail> {
    let alloc = rt.alloc();
    let text = with_lines(alloc, &LINES, &[])?;
    let whole = text.as_bytes();
    for end in 0..whole.len() {
        let (front, rest) = whole.split_at(end);
        assert!(rt; reads_as_one(alloc, front, rest, whole), "{end}");
    }
    Ok(())
}

#[test]
fn files_may_come_byte_by_byte(rt: HostRuntime) -> Result<(), Fail> {
    let alloc = rt.alloc();
    let files = [("A", "[0]\r\na,[0]->[0]\r\n[0]\r\n"), ("C", ONE_YES)];
    let mut shelf = shelf_with(alloc, &files, 0, 1, &[])?;
    let rows: [(&[&str], &str); 2] = [
        (&["reduce", "A"], ONE_A),
        (&["check", "A", "A", "C"], "included\n"),
    ];
    for (words, printed) in rows {
        assert_eq!(rt; says(alloc, words, &mut shelf, &[], printed)?, (0, true));
    }
    Ok(())
}
