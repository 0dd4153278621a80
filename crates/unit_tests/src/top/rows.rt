//! The top call over files and sinks in memory that fail, or move few bytes at a time: what it answers, writes and tells.

use ra_top::{Files, MemFiles, MemSink, Sink, Status, top};
use std::alloc::{AllocError, Global};
use std::process::Abort;
use std::test::Fail;
use watchers::TraceWatcher;

/// One call: the words, the file IN, the calls of the files and of the output that fail, the room of
/// the output and the most bytes that a call moves; and what is expected.
#[derive(Clone, Copy)]
struct Row {
    words: &'static [&'static str],
    file: &'static [u8],
    file_fails: &'static [u64],
    out_fails: &'static [u64],
    room: usize,
    step: usize,
    status: Status,
    out: &'static [u8],
    err: &'static [u8],
}

const WORDS: &[&str] = &["alloc", "-", "IN"];

const RET: &[u8] = b"---\nname: f\nbody: |\n  bb.0:\n    RET\n...\n";

const MEMORY: &[u8] =
    b"---\nname: f\nbody: |\n  bb.0:\n    %0:gr32 = MOV32ri 5\n    %1:gr32 = LOAD32rm %0, 4\n    STORE32mr %0, 8, %1\n    RET\n...\n";

const ALLOCATED_MEMORY: &[u8] =
    b"---\nname: f\nbody: |\n  bb.0:\n    renamable $eax = MOV32ri 5\n    renamable $ecx = LOAD32rm renamable $eax, 4\n    STORE32mr renamable $eax, 8, renamable $ecx\n    RET\n...\n";

/// A call that succeeds and writes `out`.
fn done(file: &'static [u8], out: &'static [u8]) -> Row {
    Row {
        words: WORDS,
        file,
        file_fails: &[],
        out_fails: &[],
        room: 4096,
        step: 4096,
        status: Status::Done,
        out,
        err: b"",
    }
}

/// A call that writes nothing.
fn refused(
    words: &'static [&'static str],
    file: &'static [u8],
    status: Status,
    err: &'static [u8],
) -> Row {
    Row {
        words,
        status,
        err,
        ..done(file, b"")
    }
}

fn strings(alloc: Global, words: &[&str]) -> Result<Vec<String>, AllocError> {
    let mut all = Vec::new(alloc);
    for word in words {
        all.push(String::from_str(alloc, word)?)?;
    }
    Ok(all)
}

fn files_of(alloc: Global, row: &Row) -> Result<MemFiles, AllocError> {
    let mut files = Vec::new(alloc);
    files.push((
        String::from_str(alloc, "OTHER")?,
        Vec::from_slice(alloc, b"other")?,
    ))?;
    files.push((
        String::from_str(alloc, "IN")?,
        Vec::from_slice(alloc, row.file)?,
    ))?;
    let mut made = MemFiles::new(alloc, files, Vec::from_slice(alloc, row.file_fails)?);
    if row.step > 0 {
        made.step(row.step);
    }
    Ok(made)
}

fn sink_of(alloc: Global, row: &Row) -> Result<MemSink, AllocError> {
    let mut made = MemSink::new(alloc, row.room, Vec::from_slice(alloc, row.out_fails)?)?;
    if row.step > 0 {
        made.step(row.step);
    }
    Ok(made)
}

/// A watcher of the steps.
fn watchers_of(alloc: Global) -> Result<Vec<TraceWatcher>, AllocError> {
    let mut watchers = Vec::new(alloc);
    watchers.push(TraceWatcher::new(alloc))?;
    Ok(watchers)
}

fn check_rows(rt: &impl Abort, alloc: Global, rows: &[Row]) -> Result<(), Fail> {
    for (k, row) in rows.iter().enumerate() {
        let words = strings(alloc, row.words)?;
        let mut files = files_of(alloc, row)?;
        let mut out = sink_of(alloc, row)?;
        let mut err = MemSink::new(alloc, 100, Vec::new(alloc))?;
        let mut watchers = watchers_of(alloc)?;
        let status = top(
            alloc,
            words.as_slice(),
            &mut files,
            &mut out,
            &mut err,
            &mut watchers,
        );
        assert_eq!(rt; status, row.status, "row {k}");
        assert!(rt; out.bytes() == row.out, "output of row {k}");
        assert!(rt; err.bytes() == row.err, "line of row {k}");
    }
    Ok(())
}

#[test]
fn allocates(rt: HostRuntime) -> Result<(), Fail> {
    let one_by_one = Row {
        step: 1,
        ..done(MEMORY, ALLOCATED_MEMORY)
    };
    let just_room = Row {
        room: RET.len(),
        ..done(RET, RET)
    };
    check_rows(&rt, rt.alloc(), &[one_by_one, just_room])
}

const TWICE: &[u8] =
    b"---\nname: f\nbody: |\n  bb.0:\n    RET\n...\n---\nname: f\nbody: |\n  bb.0:\n    RET\n...\n";

const CUT_TWICE: &[u8] = b"---\nname: f\nbody: |\n  bb.0:\n    RET\n...\n---\nname: f\nbody: |";

const THRICE: &[u8] =
    b"---\nname: f\nbody: |\n  bb.0:\n    RET\n...\n---\nname: f\nbody: |\n  bb.0:\n    RET\n...\n---\nname: f\nbody: |\n  bb.0:\n    RET\n...\n";

/// Documents of 40 bytes: those before a refused one, or before a fault, are written.
#[test]
fn writes_document_by_document(rt: HostRuntime) -> Result<(), Fail> {
    let no_read = Row {
        status: Status::ReadFault,
        err: b"llra: cannot read IN\n",
        ..done(TWICE, RET)
    };
    let no_write = Row {
        status: Status::WriteFault,
        err: b"llra: cannot write\n",
        ..done(THRICE, RET)
    };
    check_rows(
        &rt,
        rt.alloc(),
        &[
            Row {
                step: 1,
                ..done(THRICE, THRICE)
            },
            Row {
                step: 1,
                file_fails: &[42],
                ..no_read
            },
            Row {
                step: 1,
                file_fails: &[41],
                out: b"",
                ..no_read
            },
            Row {
                file_fails: &[1],
                out: b"",
                ..no_read
            },
            Row {
                file_fails: &[2],
                out: b"",
                ..no_read
            },
            Row {
                file_fails: &[3],
                out: TWICE,
                ..no_read
            },
            Row {
                out_fails: &[1],
                out: b"",
                ..no_write
            },
            Row {
                out_fails: &[2],
                ..no_write
            },
            Row {
                out_fails: &[3],
                out: TWICE,
                ..no_write
            },
            Row {
                step: 1,
                out_fails: &[60],
                out: CUT_TWICE,
                ..no_write
            },
        ],
    )
}

/// A row of which a read or the start fails.
fn no_read(file_fails: &'static [u64], step: usize) -> Row {
    Row {
        file_fails,
        step,
        ..refused(WORDS, RET, Status::ReadFault, b"llra: cannot read IN\n")
    }
}

/// A row of which a write fails, after `out` was written.
fn no_write(out_fails: &'static [u64], room: usize, step: usize, out: &'static [u8]) -> Row {
    Row {
        out_fails,
        room,
        step,
        out,
        ..refused(WORDS, RET, Status::WriteFault, b"llra: cannot write\n")
    }
}

#[test]
fn stops_at_the_first_fault(rt: HostRuntime) -> Result<(), Fail> {
    check_rows(
        &rt,
        rt.alloc(),
        &[
            refused(
                &["alloc", "-", "-"],
                RET,
                Status::ReadFault,
                b"llra: cannot read -\n",
            ),
            no_read(&[1], 4096),
            no_read(&[2], 4096),
            no_read(&[9], 2),
            no_write(&[1], 4096, 4096, b""),
            no_write(&[], 0, 4096, b""),
            no_write(&[], 5, 4096, b"---\nn"),
            no_write(&[3], 4096, 3, b"---\nna"),
        ],
    )
}

#[test]
fn a_fault_of_the_error_sink_changes_nothing(rt: HostRuntime) -> Result<(), Fail> {
    let alloc = rt.alloc();
    let row = refused(
        &["alloc", "-", "GONE"],
        RET,
        Status::ReadFault,
        b"llra: cannot read GO",
    );
    for fails in [true, false] {
        let words = strings(alloc, row.words)?;
        let mut files = files_of(alloc, &row)?;
        let mut out = sink_of(alloc, &row)?;
        let mut failing = Vec::new(alloc);
        if fails {
            failing.push(1)?;
        }
        let mut err = MemSink::new(alloc, 20, failing)?;
        let mut watchers = watchers_of(alloc)?;
        let status = top(
            alloc,
            words.as_slice(),
            &mut files,
            &mut out,
            &mut err,
            &mut watchers,
        );
        assert_eq!(rt; status, Status::ReadFault);
        assert_eq!(rt; out.bytes(), b"".as_slice());
        let told: &[u8] = if fails { b"" } else { row.err };
        assert!(rt; err.bytes() == told, "first call fails: {fails}");
    }
    Ok(())
}

/// The call after the failed one is to fail too: it does so where the top call hasn't made it.
#[test]
fn calls_no_device_after_its_fault(rt: HostRuntime) -> Result<(), Fail> {
    let alloc = rt.alloc();
    let words = strings(alloc, WORDS)?;
    let mut err = MemSink::new(alloc, 100, Vec::new(alloc))?;
    let mut out = sink_of(alloc, &no_write(&[1, 2], 4096, 4096, b""))?;
    let mut files = files_of(alloc, &no_read(&[2, 3], 4096))?;
    let mut watchers = watchers_of(alloc)?;
    let status = top(
        alloc,
        words.as_slice(),
        &mut files,
        &mut out,
        &mut err,
        &mut watchers,
    );
    assert_eq!(rt; status, Status::ReadFault);
    assert!(rt; files.start("IN").is_err());
    assert!(rt; files.start("IN").is_ok());
    let status = top(
        alloc,
        words.as_slice(),
        &mut files,
        &mut out,
        &mut err,
        &mut watchers,
    );
    assert_eq!(rt; status, Status::WriteFault);
    assert!(rt; out.write(b"x").is_err());
    assert!(rt; out.write(b"x").is_ok());
    Ok(())
}
