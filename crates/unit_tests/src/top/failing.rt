//! Files and sinks in memory, call by call.

use machine_verify::Place;
use ra_top::{Failed, Files, LimitName, MemFiles, MemSink, Pieces, Sink, Status};
use std::alloc::{AllocError, Global};
use std::test::Fail;

fn two_files(alloc: Global, fails: &[u64]) -> Result<MemFiles, AllocError> {
    let mut files = Vec::new(alloc);
    for (name, bytes) in [("a", "abcdef"), ("b", ""), ("a", "second")] {
        files.push((
            String::from_str(alloc, name)?,
            Vec::from_slice(alloc, bytes.as_bytes())?,
        ))?;
    }
    Ok(MemFiles::new(alloc, files, Vec::from_slice(alloc, fails)?))
}

#[test]
fn reads_in_pieces(rt: HostRuntime) -> Result<(), Fail> {
    let alloc = rt.alloc();
    let mut files = two_files(alloc, &[4])?;
    let mut piece = [0u8; 4];
    assert_eq!(rt; files.read(&mut piece), Err(Failed));
    assert_eq!(rt; files.start("a"), Ok(()));
    assert_eq!(rt; files.read(&mut piece), Ok(4));
    assert_eq!(rt; piece, *b"abcd");
    assert_eq!(rt; files.read(&mut piece), Err(Failed));
    assert_eq!(rt; piece, *b"abcd");
    assert_eq!(rt; files.read(&mut piece), Ok(2));
    assert_eq!(rt; piece, *b"efcd");
    assert_eq!(rt; files.read(&mut piece), Ok(0));
    assert_eq!(rt; files.start("a"), Ok(()));
    files.step(1);
    assert_eq!(rt; files.read(&mut piece), Ok(1));
    assert_eq!(rt; files.start("b"), Ok(()));
    assert_eq!(rt; files.read(&mut piece), Ok(0));
    assert_eq!(rt; files.start("c"), Err(Failed));
    assert_eq!(rt; files.read(&mut piece), Err(Failed));
    Ok(())
}

#[test]
fn writes_into_its_room(rt: HostRuntime) -> Result<(), Fail> {
    let alloc = rt.alloc();
    let mut sink = MemSink::new(alloc, 5, Vec::from_slice(alloc, &[2])?)?;
    assert_eq!(rt; sink.write(b"abc"), Ok(3));
    assert_eq!(rt; sink.write(b"x"), Err(Failed));
    sink.step(1);
    assert_eq!(rt; sink.write(b"de"), Ok(1));
    sink.step(9);
    assert_eq!(rt; sink.write(b"ef"), Ok(1));
    assert_eq!(rt; sink.write(b""), Ok(0));
    assert_eq!(rt; sink.write(b"g"), Err(Failed));
    assert_eq!(rt; sink.bytes(), b"abcde".as_slice());
    Ok(())
}

#[test]
fn each_status_has_its_code(rt: HostRuntime) {
    let codes = [
        (Status::Done, 0),
        (Status::Limit(LimitName::Document), 1),
        (Status::Usage, 2),
        (Status::ReadFault, 3),
        (Status::WriteFault, 4),
        (Status::Memory, 5),
        (Status::Unassignable(Place { block: 0, at: 0 }), 6),
        (Status::NotYet, 7),
    ];
    for (status, code) in codes {
        assert_eq!(rt; status.code(), code);
    }
}

/// One call takes the first of two documents of 40 bytes.
#[test]
fn feeds_one_piece(rt: HostRuntime) -> Result<(), Fail> {
    let alloc = rt.alloc();
    let text =
        b"---\nname: f\nbody: |\n  bb.0:\n    RET\n...\n---\nname: f\nbody: |\n  bb.0:\n    RET\n...\n";
    let mut pieces = Pieces::new(alloc);
    assert!(rt; !pieces.whole());
    assert!(rt; !pieces.over());
    assert_eq!(rt; pieces.feed(text)?, 40);
    assert!(rt; pieces.whole());
    assert!(rt; !pieces.over());
    pieces.clear();
    assert!(rt; pieces.bytes().is_empty());
    assert!(rt; !pieces.whole());
    assert!(rt; !pieces.over());
    assert_eq!(rt; pieces.feed(b"...\n--- |\n...")?, 13);
    assert!(rt; !pieces.whole());
    assert!(rt; !pieces.over());
    assert_eq!(rt; pieces.feed(b"\nx")?, 1);
    assert!(rt; pieces.whole());
    Ok(())
}
