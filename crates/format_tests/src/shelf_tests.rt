//! Shelves and sinks: that the calls succeed, and what real files and the real output do.

use auto_core::{List, Memory};
use shelf_io::{
    DiskShelf, Eat, Failed, File, LoadFault, MemShelf, MemSink, OutSink, Shelf, Sink, load, pour,
};
use std::alloc::Global;
use std::test::Fail;
use std::{fs, process};
use test_inputs::{list_of, numbers_of, shelf_with};

/// A shelf with two files, `a` of seven bytes and `b` of none.
fn shelf_of(alloc: Global, piece: u32, fails: &[u64]) -> Result<MemShelf, Memory> {
    shelf_with(alloc, &[("a", "seven b"), ("b", "")], 20, piece, fails)
}

/// A call of a shelf, with what it is to answer.
#[derive(Clone, Copy)]
enum Call<'a> {
    /// The named file is begun.
    Begin(&'a str),
    /// These are the next bytes, of which four are asked for.
    Take(&'a [u8]),
    /// The named file is made to hold these bytes, if so it says.
    Put(&'a str, &'a [u8], bool),
    /// The named file is loaded up to so many bytes, and holds these.
    Load(&'a str, u64, &'a [u8]),
    /// The named file is not loaded up to so many bytes, for this reason.
    Refuse(&'a str, u64, LoadFault),
}

/// Whether the next four bytes, or as many as there are, are these.
fn takes<H: Shelf>(shelf: &mut H, bytes: &[u8]) -> bool {
    let mut buf = [0; 4];
    match shelf.take(&mut buf) {
        Ok(count) => count <= 4 && &buf[..count] == bytes,
        Err(Failed) => false,
    }
}

/// Whether the named file is loaded, and holds these bytes.
fn loads<H: Shelf>(alloc: Global, shelf: &mut H, name: &str, cap: u64, bytes: &[u8]) -> bool {
    match load(alloc, shelf, name, cap) {
        Ok(loaded) => loaded.as_slice() == bytes,
        Err(_) => false,
    }
}

/// Whether the call answers what it is to answer.
fn goes_so<H: Shelf>(alloc: Global, shelf: &mut H, call: Call<'_>) -> bool {
    match call {
        Call::Begin(name) => shelf.begin(name).is_ok(),
        Call::Take(bytes) => takes(shelf, bytes),
        Call::Put(name, bytes, done) => shelf.put(name, bytes).is_ok() == done,
        Call::Load(name, cap, bytes) => loads(alloc, shelf, name, cap, bytes),
        Call::Refuse(name, cap, fault) => load(alloc, shelf, name, cap).err() == Some(fault),
    }
}

/// How many of the calls, one after the other, answer something else.
fn strays<H: Shelf>(alloc: Global, shelf: &mut H, calls: &[Call<'_>]) -> u32 {
    let mut strays = 0u32;
    for call in calls {
        if !goes_so(alloc, shelf, *call) {
            strays = strays.saturating_add(1);
        }
    }
    strays
}

/// How many of the calls of the shelf with two files answer something else, where it gives pieces
/// of so many bytes and these of its calls fail.
fn strays_among(
    alloc: Global,
    piece: u32,
    fails: &[u64],
    calls: &[Call<'_>],
) -> Result<u32, Memory> {
    let mut shelf = shelf_of(alloc, piece, fails)?;
    Ok(strays(alloc, &mut shelf, calls))
}

#[test]
fn loads_what_is_held(rt: HostRuntime) -> Result<(), Fail> {
    let alloc = rt.alloc();
    let calls = [
        Call::Load("a", 7, b"seven b"),
        Call::Load("b", 0, b""),
        Call::Refuse("a", 6, LoadFault::Long),
        Call::Refuse("c", 9, LoadFault::Failed),
    ];
    for piece in [1, 3, 7, 65536] {
        assert_eq!(rt; strays_among(alloc, piece, &[], &calls)?, 0);
    }
    Ok(())
}

/// What takes no piece: the machine refuses it memory.
#[derive(Drop)]
struct Refusing;

impl Eat for Refusing {
    ghost Terms = { Unit {0} };

    ghost eaten = { λ _ _ _. Unit {0} };

    ghost most = { λ _. 0 };

    fn feed(&mut self, _piece: &[u8]) -> Result<(), Memory> {
        Err(Memory)
    }
}

/// What takes pieces, and puts a bar after each.
#[derive(Drop)]
struct Barred {
    /// The bytes with the bars.
    bytes: List<u8>,
}

impl Eat for Barred {
    ghost Terms = { Unit {0} };

    ghost eaten = { λ _ _ _. Unit {0} };

    ghost most = { λ _. 0 };

    fn feed(&mut self, piece: &[u8]) -> Result<(), Memory> {
        self.bytes.feed(piece)?;
        self.bytes.push(b'|')
    }
}

#[test]
fn pours_in_pieces_in_order(rt: HostRuntime) -> Result<(), Fail> {
    let alloc = rt.alloc();
    let mut shelf = shelf_of(alloc, 3, &[])?;
    let mut barred = Barred {
        bytes: List::new(alloc),
    };
    let rows = [
        ("a", 7, Ok(7), b"sev|en |b|".as_slice()),
        ("b", 0, Ok(0), b"sev|en |b|".as_slice()),
        // the piece that passes the cap isn't fed
        ("a", 5, Err(LoadFault::Long), b"sev|en |b|sev|".as_slice()),
    ];
    for (name, cap, poured, fed) in rows {
        assert_eq!(rt; pour(alloc, &mut shelf, name, cap, &mut barred), poured);
        assert_eq!(rt; barred.bytes.as_slice(), fed);
    }
    Ok(())
}

#[test]
fn pours_until_memory_is_refused(rt: HostRuntime) -> Result<(), Fail> {
    let alloc = rt.alloc();
    let mut shelf = shelf_of(alloc, 3, &[])?;
    let rows = [
        ("a", 7, Err(LoadFault::Memory)),
        // no piece is fed of a file with no bytes, nor of one that isn't there
        ("b", 0, Ok(0)),
        ("c", 7, Err(LoadFault::Failed)),
    ];
    for (name, cap, poured) in rows {
        assert_eq!(rt; pour(alloc, &mut shelf, name, cap, &mut Refusing), poured);
    }
    Ok(())
}

#[test]
fn fails_when_told_to(rt: HostRuntime) -> Result<(), Fail> {
    let alloc = rt.alloc();
    // the calls are begin, take, take, begin, and put twice
    let calls = [
        Call::Refuse("a", 9, LoadFault::Failed),
        Call::Begin("a"),
        Call::Put("c", b"x", false),
        Call::Put("c", b"x", true),
        Call::Load("c", 9, b"x"),
    ];
    assert_eq!(rt; strays_among(alloc, 65536, &[2, 4], &calls)?, 0);
    Ok(())
}

/// What loading a file of one byte more than 64 KiB comes to, where one call fails, from a shelf
/// that gives as much as is asked for.
fn long_file_loads(alloc: Global, failing: u64) -> Result<bool, Memory> {
    let mut files = List::new(alloc);
    let name = list_of(alloc, b"a")?;
    let mut bytes = List::new(alloc);
    for _byte in 0..65_537 {
        bytes.push(b'x')?;
    }
    files.push(File { name, bytes })?;
    let fails = numbers_of(alloc, &[failing])?;
    let mut shelf = MemShelf::new(alloc, files, 70_000, 1_000_000, fails)?;
    Ok(load(alloc, &mut shelf, "a", 65_537).is_ok())
}

#[test]
fn takes_64_kib_at_a_time(rt: HostRuntime) -> Result<(), Fail> {
    let alloc = rt.alloc();
    // the calls are begin and three times take: 65,536 bytes, one and none
    for failing in 0..5 {
        assert_eq!(rt; long_file_loads(alloc, failing)?, failing == 4, "{failing}");
    }
    Ok(())
}

#[test]
fn puts_within_its_room(rt: HostRuntime) -> Result<(), Fail> {
    let alloc = rt.alloc();
    let calls = [
        Call::Begin("a"),
        // 1 + 10 + 1 of the 20 bytes, then 1 + 6 + 1
        Call::Put("b", b"otherwise!", true),
        Call::Take(b"se"),
        Call::Put("a", b"too long", false),
        Call::Take(b""),
        Call::Put("a", b"renewd", true),
        Call::Load("a", 6, b"renewd"),
        Call::Load("b", 10, b"otherwise!"),
        Call::Put("", b"", false),
    ];
    assert_eq!(rt; strays_among(alloc, 2, &[], &calls)?, 0);
    Ok(())
}

#[test]
fn keeps_what_is_given(rt: HostRuntime) -> Result<(), Fail> {
    let alloc = rt.alloc();
    let mut sink = MemSink::new(alloc, 5, numbers_of(alloc, &[1])?)?;
    let rows = [
        (b"on".as_slice(), Ok(())),
        (b"n".as_slice(), Err(Failed)),
        (b"ce??".as_slice(), Err(Failed)),
        (b"ce.".as_slice(), Ok(())),
    ];
    for (bytes, given) in rows {
        assert_eq!(rt; sink.give(bytes), given);
    }
    assert_eq!(rt; sink.contents(), b"once.".as_slice());
    Ok(())
}

/// The calls of a shelf of real files, with two names of one file and that of another one.
fn real_calls<'a>(first: &'a str, again: &'a str, other: &'a str) -> [Call<'a>; 16] {
    [
        Call::Refuse(first, 9, LoadFault::Failed),
        Call::Put(first, b"seven b", true),
        Call::Load(first, 7, b"seven b"),
        Call::Refuse(first, 6, LoadFault::Long),
        // another file's put leaves the begun one alone; its own ends it
        Call::Begin(first),
        Call::Put(other, b"x", true),
        Call::Take(b"seve"),
        Call::Put(first, b"longer than before", true),
        Call::Take(b""),
        // a file is the same by another spelling of its name
        Call::Begin(first),
        Call::Put(again, b"other bytes", true),
        Call::Take(b""),
        // a refused put of the begun file ends it too: a folder is opened, but neither read nor
        // made
        Call::Begin("/tmp"),
        Call::Put("/tmp", b"x", false),
        Call::Take(b""),
        // a folder that isn't there
        Call::Put("/tmp/rabit_shelf_io/no/such", b"x", false),
    ]
}

#[test]
fn reads_and_writes_real_files(rt: HostRuntime) -> Result<(), Fail> {
    let alloc = rt.alloc();
    let number = process::id(rt.process());
    let first = format!(in alloc; "/tmp/rabit_shelf_io_{number}_first")?;
    let again = format!(in alloc; "/tmp/./rabit_shelf_io_{number}_first")?;
    let other = format!(in alloc; "/tmp/rabit_shelf_io_{number}_other")?;
    let mut shelf = DiskShelf::new(&rt);
    let calls = real_calls(first.as_str(), again.as_str(), other.as_str());
    assert_eq!(rt; strays(alloc, &mut shelf, &calls), 0);
    fs::remove_file(&rt, first.as_str())?;
    fs::remove_file(&rt, other.as_str())?;
    Ok(())
}

#[test]
fn gives_to_the_real_output(rt: HostRuntime) {
    let mut sink = OutSink::new(&rt);
    for bytes in [b"given\n".as_slice(), b"".as_slice()] {
        assert_eq!(rt; sink.give(bytes), Ok(()));
    }
}
