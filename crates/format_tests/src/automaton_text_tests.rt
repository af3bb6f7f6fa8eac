//! Texts of automata: first faults, what is read and written, and joined labels.

ghost use Rattle.std.specs.Prelude.{IfOk};
ghost use Rattle.ba_format.specs.Reading.{IsWithinLimits};

use auto_core::{Auto, Memory};
use ba_format::{BaKind, Joined, Limits, Named, ReadFault, Texts, join, read, write};
use std::alloc::Global;
use std::test::Fail;

const LIMITS: Limits = Limits {
    states: 3,
    labels: 2,
    transitions: 4,
};

/// The line and the kind of the fault that a text has; none if it reads.
fn fault(alloc: Global, text: &[u8]) -> Result<Option<(u32, BaKind)>, Fail> {
    if text.len() > 1000 {
        return Ok(None);
    }
    match read(alloc, text, &LIMITS) {
        Ok(_) => Ok(None),
        Err(ReadFault::Ba(fault)) => Ok(Some((fault.line, fault.kind))),
        Err(ReadFault::Memory) => Err(Memory)?,
    }
}

#[test]
fn faults_are_named(rt: HostRuntime) -> Result<(), Fail> {
    for (text, line, kind) in [
        ("", 0, BaKind::Empty),
        ("\n \t\r\n\n", 0, BaKind::Empty),
        ("[0]\n\x7f\n", 2, BaKind::BadByte),
        ("[0]\na\rb\n", 2, BaKind::BadByte),
        ("[0]\n\x0b[1]\n", 2, BaKind::BadByte),
        ("a,b,c->d\x00\n", 1, BaKind::BadByte),
        ("[0]->[1]\n", 1, BaKind::Shape),
        ("[0]\na,[0]-[1]\n", 2, BaKind::Shape),
        ("a,b,[0]->[1]", 1, BaKind::Shape),
        ("a,[0]->[1]->[2]", 1, BaKind::Shape),
        ("a->[0],[1]", 1, BaKind::Shape),
        ("a->,[0]->[1]", 1, BaKind::Shape),
        ("\n\n,\n", 3, BaKind::Shape),
        ("->\n", 1, BaKind::Shape),
        (",->\n", 1, BaKind::EmptyToken),
        ("a, \t->[1]\n", 1, BaKind::EmptyToken),
        (",[0]->[1]\n", 1, BaKind::EmptyToken),
        ("a,[0]-> \n", 1, BaKind::EmptyToken),
        ("[0]\n[1]\na,[0]->[1]\n", 3, BaKind::TwoInitial),
        ("[0]\n\n[0]\na,[0]->[0]\n", 4, BaKind::TwoInitial),
        ("[0]\n[1]\n[2]\na,[3]->[4]\n", 4, BaKind::TwoInitial),
        ("[0]\n[1]\n[2]\n[3]\n", 4, BaKind::TooManyStates),
        ("[0]\n[1]\n[2]\n[0]\n[3]\n", 5, BaKind::TooManyStates),
        ("a,0->1\na,2->3\n", 2, BaKind::TooManyStates),
        ("a,0->1\nb,1->2\nc,3->0\n", 3, BaKind::TooManyStates),
        ("a,0->1\nb,1->2\nc,0->0\n", 3, BaKind::TooManyLabels),
        (
            "a,0->0\nb,0->0\nb,0->1\na,1->0\nb,1->0\n",
            5,
            BaKind::TooManyTransitions,
        ),
        ("a,0->0\nc,0->0\nx,0->0\n->", 3, BaKind::TooManyLabels),
    ] {
        assert_eq!(rt;
            fault(rt.alloc(), text.as_bytes())?,
            Some((line, kind)),
            "{text:?}"
        );
    }
    Ok(())
}

#[test]
fn tokens_have_at_most_255_bytes(rt: HostRuntime) -> Result<(), Fail> {
    let longest = vec![in rt.alloc(); b'x'; 255]?;
    let long = vec![in rt.alloc(); b'x'; 256]?;
    assert_eq!(rt; fault(rt.alloc(), &longest)?, None);
    assert_eq!(rt; fault(rt.alloc(), &long)?, Some((1, BaKind::TokenLong)));
    Ok(())
}

/// The text that is written for the automaton.
fn written(alloc: Global, named: &Named) -> Result<Vec<u8>, Fail>
    requires { IsWithinLimits (record { states = 3; labels = 2; transitions = 4 }) named.now }
{
    let text = write(alloc, &named.auto, &named.labels)?;
    Ok(text.as_slice().to_vec(alloc)?)
}

/// The text that is written for what a text reads as.
fn rewritten(alloc: Global, text: &[u8]) -> Result<Vec<u8>, Fail> {
    if text.len() > 1000 {
        return Err(Memory)?;
    }
    match read(alloc, text, &LIMITS) {
        Ok(named) => Ok(written(alloc, &named)?),
        Err(fault) => Err(fault)?,
    }
}

#[test]
fn texts_read_by_the_rules(rt: HostRuntime) -> Result<(), Fail> {
    for (text, written) in [
        // One state line before the first transition is the initial state, and no accepting line.
        ("[1]\na,[0]->[1]\n[0]\n", "[0]\na,[1]->[0]\n[1]\n"),
        // Without one, the first source is initial; without an accepting line all states are
        // accepting.
        (
            "a,[5]->[7]\nb,[7]->[5]\n",
            "[0]\na,[0]->[1]\nb,[1]->[0]\n[0]\n[1]\n",
        ),
        // Without a transition, the first line is initial and the others are accepting.
        ("q\nr\ns\n", "[0]\n[1]\n[2]\n"),
        ("q\nq\n", "[0]\n[0]\n"),
        ("q", "[0]\n[0]\n"),
        // An accepting line may name a new state, and transitions may follow it.
        ("a,0->0\n1\nb,0->1\n", "[0]\na,[0]->[0]\nb,[0]->[1]\n[1]\n"),
        // What is repeated counts once.
        ("a,0->0\na,0->0\n0\n0\na,0->0\n0", "[0]\na,[0]->[0]\n[0]\n"),
        // Lines end in LF or CRLF, and the last LF may be missing; blanks at the ends of lines and
        // tokens don't count.
        (
            "\r\n\t[0] \r\n a b\t, [0]  ->\t[0]\r\n\r\n[0]",
            "[0]\na b,[0]->[0]\n[0]\n",
        ),
        // Brackets belong to the name.
        ("0\na,[0]->0\n[0]\n", "[0]\na,[1]->[0]\n[1]\n"),
        // The transitions are sorted by the numbers of their labels.
        (
            "0\nb,0->0\na,0->0\na,0->1\n0\n",
            "[0]\nb,[0]->[0]\na,[0]->[0]\na,[0]->[1]\n[0]\n",
        ),
        ("a-,-->>\n", "[0]\na-,[0]->[1]\n[0]\n[1]\n"),
    ] {
        assert_eq!(rt;
            rewritten(rt.alloc(), text.as_bytes())?.as_slice(),
            written.as_bytes(),
            "{text:?}"
        );
    }
    Ok(())
}

/// What a text reads as.
fn named(alloc: Global, text: &[u8]) -> Result<Named, Fail>
    ensures { IfOk result (IsWithinLimits (record { states = 3; labels = 2; transitions = 4 })) }
{
    if text.len() > 1000 {
        return Err(Memory)?;
    }
    Ok(read(alloc, text, &LIMITS)?)
}

/// The third of three labels.
fn last_label(labels: &Texts) -> Option<&[u8]> {
    if labels.count() == 3 {
        Some(labels.get(2))
    } else {
        None
    }
}

/// How many labels the second automaton has, and those of its two transitions.
fn second_labels(joined: &Joined) -> Option<(u32, u32, u32)> {
    match joined.second.transitions() {
        [one, other] => Some((joined.second.labels(), one.label, other.label)),
        _ => None,
    }
}

#[test]
fn joined_automata_share_labels(rt: HostRuntime) -> Result<(), Fail> {
    let first = named(rt.alloc(), b"0\nb,0->1\na,1->0\n0\n")?;
    let second = named(rt.alloc(), b"0\nc,0->0\nb,0->1\n1\n")?;
    let joined = join(rt.alloc(), &first, &second)?;
    let last = last_label(&joined.labels);
    let labels = second_labels(&joined);
    assert_eq!(rt;
        (last, joined.first.labels(), labels),
        (Some(b"c".as_slice()), 3, Some((3, 0, 2)))
    );
    Ok(())
}

#[test]
fn an_automaton_without_accepting_states_keeps_none(rt: HostRuntime) -> Result<(), Fail> {
    let auto = Auto::build(rt.alloc(), 2, 0, 1, &[], &[])?;
    assert_eq!(rt; auto.labels(), 0);
    let text = write(rt.alloc(), &auto, &Texts::new(rt.alloc()))?;
    assert_eq!(rt; text.as_slice(), b"[1]\n[2]\n".as_slice());
    Ok(())
}
