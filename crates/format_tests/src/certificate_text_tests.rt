//! Texts of certificates: whole files, damaged ones and the edges of lines.

ghost use Rattle.std.specs.Prelude.{◌≡◌, ◌≤◌, ◌^◌, length};

use cert_text::{Cert, CertReadFault, TextKind, read_cert, well_formed, write_cert};
use std::alloc::Global;
use test_inputs::ONE_YES;

/// What the reader says of a text, with its line.
#[derive(Clone, Copy, Debug, PartialEq, Eq)]
enum Answer {
    /// A certificate that is written as it was read.
    Same,
    /// A certificate that is written in another way.
    Other,
    /// A fault of the text.
    Fault(u32, TextKind),
    /// Want of memory.
    Memory,
}

/// Whether the certificate is written as this text.
fn written_back(alloc: Global, text: &[u8], cert: &Cert) -> Answer {
    match write_cert(alloc, cert) {
        Ok(written) => {
            if written.as_slice() == text && well_formed(cert) {
                Answer::Same
            } else {
                Answer::Other
            }
        }
        Err(_) => Answer::Memory,
    }
}

fn read_back(alloc: Global, text: &[u8]) -> Answer {
    if text.len() > 1_073_741_824 {
        return Answer::Memory;
    }
    match read_cert(alloc, text) {
        Ok(cert) => written_back(alloc, text, &cert),
        Err(CertReadFault::Text(fault)) => Answer::Fault(fault.line, fault.kind),
        Err(CertReadFault::Memory) => Answer::Memory,
    }
}

#[test]
fn reads_whole_files(rt: HostRuntime) {
    let alloc = rt.alloc();
    assert_eq!(rt; read_back(alloc, ONE_YES.as_bytes()), Answer::Same);
    let ring =
        b"rabit-cert 1 buchi yes\nsizes 2 2 2\nlog1 0\nlog2 0\nrel 2\nrow 0 0\nrow 1 1\nelements 4\nlive base 0\nlive base 1\nlive next 0 1\nlive next 1 0\ncover 0 1\nstep 0 2\nstep 1 3\nstep 2 0\nstep 3 1\nend\n";
    assert_eq!(rt; read_back(alloc, ring), Answer::Same);
    let merged =
        b"rabit-cert 1 buchi yes\nsizes 1 2 1\nlog1 0\nlog2 1\nmerge delayed\nclasses 0 0\nrel 2\nrow 0 0 1 1 2\nrow 1 0 1 1 2\nrel 1\nrow 0 0\nelements 1\nlive base 0\ncover 0\nstep 0 0\nend\n";
    assert_eq!(rt; read_back(alloc, merged), Answer::Same);
    let cut =
        b"rabit-cert 1 buchi yes\nsizes 3 2 3\nlog1 3\ncut 1 3\ngone 0 1\nrel 3\nrow 0 0\nrow 1 1 2\nrow 2 2\ncut 3 3\ngone 1 2\nrel 3\nrow 0 0\nrow 1 1 2\nrow 2 2\nrel 3\nrow 0 0\nrow 1 1 2\nrow 2 2\ntrim 0 2\nlog2 0\nrel 2\nrow 0 0\nrow 1 1\nelements 2\nlive base 0\nlive base 1\ncover 0 1 1\nstep 0 0 0\nstep 1 1 1\nend\n";
    assert_eq!(rt; read_back(alloc, cut), Answer::Same);
}

#[test]
fn reads_other_forms(rt: HostRuntime) {
    for text in [
        "rabit-cert 1 finite yes\nsizes 2 1 1\nlog1 0\nlog2 0\nrel 1\nrow 0 0\nelements 2\nlive start\nlive next 0 0\ncover 0\nstep 0 1\nstep 1 0\nend\n",
        "rabit-cert 2 buchi yes\nsizes 1 2 1\nlog1 0\nlog2 1\nmerge delayed 2\nclasses 0 0\nrel 2\nrow 0 0 0 1 1 2\nrow 1 0 0 1 1 2\nrel 1\nrow 0 0 0\nelements 1\nlive base 0\ncover 0\nstep 0 0\nend\n",
        "rabit-cert 1 finite no\nsizes 1 2 0\nword\nend\n",
        "rabit-cert 1 buchi no\nsizes 3 1 2\nprefix\nloop 0\nend\n",
        "rabit-cert 1 buchi list\nsizes 2 2 2\nlog1 0\nlog2 0\nlimit 1\nelements 2\nbase 0\nbase 1\nend\n",
        "rabit-cert 1 finite list\nsizes 2 2 2\nlog1 0\nlog2 3\nmerge forward 2\nclasses 0 1\nrel 1\nrow 0 1 2\ncut\ngone 1 4\nmerge backward 1\nclasses 0\nrel 0\nlimit 1\nelements 2\nstart\nnext 0 1\nend\n",
        "rabit-cert 1 buchi yes\nsizes 2 1 2\nlog1 1\ntrim\nlog2 0\nrel 1\nrow 0 0\nelements 0\ncover\nend\n",
        "rabit-cert 1 buchi yes\nsizes 2 1 2\nlog1 1\nmerge\nclasses 0 0\nlog2 0\nrel 0\nelements 2\nlive base 0\nunder 0 base 1\ncover 0\nstep 0 999999999\nend\n",
    ] {
        assert_eq!(rt;
            read_back(rt.alloc(), text.as_bytes()),
            Answer::Same,
            "{text:?}"
        );
    }
}

#[test]
fn header_faults(rt: HostRuntime) {
    for (text, line, kind) in [
        ("", 1, TextKind::Truncated),
        ("rabit-cert 3 buchi yes\nsizes", 1, TextKind::Header),
        ("rabit-cert 1 buchi yes", 1, TextKind::Truncated),
        ("rabit-cert 1 buchi  yes\n", 1, TextKind::Header),
    ] {
        assert_eq!(rt;
            read_back(rt.alloc(), text.as_bytes()),
            Answer::Fault(line, kind),
            "{text:?}"
        );
    }
}

#[test]
fn size_faults(rt: HostRuntime) {
    for (text, line, kind) in [
        (
            "rabit-cert 1 buchi yes\nsizes 02 2 2\n",
            2,
            TextKind::Number,
        ),
        ("rabit-cert 1 buchi yes\nsizes 2 2\n", 2, TextKind::Shape),
        ("rabit-cert 1 buchi yes\nsizes 2  2 2\n", 2, TextKind::Shape),
        (
            "rabit-cert 1 buchi yes\nsizes 2 2 1000000000\n",
            2,
            TextKind::Number,
        ),
    ] {
        assert_eq!(rt;
            read_back(rt.alloc(), text.as_bytes()),
            Answer::Fault(line, kind),
            "{text:?}"
        );
    }
}

#[test]
fn log_faults(rt: HostRuntime) {
    for (text, line, kind) in [
        (
            "rabit-cert 1 buchi yes\nsizes 2 2 2\nlog1 999999999\n",
            4,
            TextKind::Truncated,
        ),
        (
            "rabit-cert 1 buchi yes\nsizes 2 2 2\nlog1 1\ncut 5 3\n",
            4,
            TextKind::Shape,
        ),
        (
            "rabit-cert 1 buchi yes\nsizes 2 2 2\nlog1 1\ncut x 3\n",
            4,
            TextKind::Number,
        ),
        (
            "rabit-cert 1 buchi yes\nsizes 2 2 2\nlog1 1\nmerge 5\n",
            4,
            TextKind::Shape,
        ),
        (
            "rabit-cert 1 buchi yes\nsizes 2 2 2\nlog1 1\ntrim 2 2\n",
            4,
            TextKind::Order,
        ),
        (
            "rabit-cert 1 finite yes\nsizes 2 2 2\nlog1 0\nlog2 1\nmerge delayed\n",
            5,
            TextKind::Shape,
        ),
    ] {
        assert_eq!(rt;
            read_back(rt.alloc(), text.as_bytes()),
            Answer::Fault(line, kind),
            "{text:?}"
        );
    }
}

#[test]
fn element_faults(rt: HostRuntime) {
    for (text, line, kind) in [
        (
            "rabit-cert 1 buchi yes\nsizes 2 2 2\nlog1 0\nlog2 0\nrel 0\nelements 4 x\n",
            6,
            TextKind::Shape,
        ),
        (
            "rabit-cert 1 buchi yes\nsizes 2 2 2\nlog1 0\nlog2 0\nrel 0\nelements x 4\n",
            6,
            TextKind::Number,
        ),
        (
            "rabit-cert 1 buchi yes\nsizes 2 2 2\nlog1 0\nlog2 0\nrel 0\nelements 1\nunder x\n",
            7,
            TextKind::Number,
        ),
        (
            "rabit-cert 1 buchi yes\nsizes 2 2 2\nlog1 0\nlog2 0\nrel 0\nelements 1\nunder base 1\n",
            7,
            TextKind::Shape,
        ),
        (
            "rabit-cert 1 buchi yes\nsizes 2 2 2\nlog1 0\nlog2 0\nrel 0\nelements 1\nunder 0 base 1\ncover\nstep 0\n",
            9,
            TextKind::Shape,
        ),
        (
            "rabit-cert 1 buchi yes\nsizes 2 2 2\nlog1 0\nlog2 0\nrel 0\nelements 1\nlive base 1\ncover\nstep 1\n",
            9,
            TextKind::Order,
        ),
    ] {
        assert_eq!(rt;
            read_back(rt.alloc(), text.as_bytes()),
            Answer::Fault(line, kind),
            "{text:?}"
        );
    }
}

#[test]
fn faults_at_the_end(rt: HostRuntime) {
    for (text, line, kind) in [
        (
            "rabit-cert 1 finite no\nsizes 1 2 0\nword\nend x\n",
            4,
            TextKind::Shape,
        ),
        (
            "rabit-cert 1 finite no\nsizes 1 2 0\nword\nend",
            4,
            TextKind::Truncated,
        ),
        (
            "rabit-cert 1 finite no\nsizes 1 2 0\nword\nend\n\n",
            5,
            TextKind::Trailing,
        ),
        (
            "rabit-cert 1 finite no\nsizes 1 2 0\nword\nend\nx",
            5,
            TextKind::Trailing,
        ),
    ] {
        assert_eq!(rt;
            read_back(rt.alloc(), text.as_bytes()),
            Answer::Fault(line, kind),
            "{text:?}"
        );
    }
}
