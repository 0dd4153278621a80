//! The files and streams of the system, which tell no bytes.

ghost use Rattle.std.specs.Prelude.{◌≡◌, ◌≤◌, length, IfSome};

use ra_top::{Failed, Files, Sink};
use std::fs::{self, File};
use std::io::{ErrorKind, Read, Stdin, Write};

/// The name that stands for standard input.
const INPUT: &str = "-";

/// The file that is read.
#[derive(Drop)]
enum InputFile {
    /// None yet, or one that couldn't be opened.
    Closed,
    /// Standard input.
    Input(Stdin),
    /// A file.
    Opened(File),
}

/// The files of the system by their paths, and standard input by the name `-`.
#[derive(Drop)]
pub struct HostFiles<'a> {
    rt: &'a HostRuntime,
    source: InputFile,
    faults: u64,
}

impl<'a> HostFiles<'a> {
    /// No file is read yet.
    pub fn new(rt: &'a HostRuntime) -> HostFiles<'a> {
        HostFiles {
            rt,
            source: InputFile::Closed,
            faults: 0,
        }
    }
}

impl<'a> Files for HostFiles<'a> {
    ghost use Rattle.std.specs.Prelude.{None};

    ghost contents = { λ _ _. None };

    ghost left = { λ _. None };

    ghost faults = { λ f. f.faults };

    fn start(&mut self, name: &str) -> Result<(), Failed> {
        if name == INPUT {
            self.source = InputFile::Input(self.rt.stdin());
            return Ok(());
        }
        match fs::open(self.rt, name) {
            Ok(file) => {
                self.source = InputFile::Opened(file);
                Ok(())
            }
            Err(_) => {
                self.source = InputFile::Closed;
                self.faults = self.faults.saturating_add(1);
                Err(Failed)
            }
        }
    }

    fn read(&mut self, piece: &mut [u8]) -> Result<usize, Failed> {
        let count = match &mut self.source {
            InputFile::Closed => None,
            InputFile::Input(stdin) => read_some(stdin, piece),
            InputFile::Opened(file) => read_some(file, piece),
        };
        match count {
            Some(n) => Ok(n),
            None => {
                self.faults = self.faults.saturating_add(1);
                Err(Failed)
            }
        }
    }
}

/// Reads, again where a signal interrupts the call. None where it fails.
fn read_some<R: Read>(reader: &mut R, piece: &mut [u8]) -> Option<usize>
    ensures within { IfSome result (λ n. n ≤ length piece.old) }
    ensures length { length piece.new ≡ length piece.old }
{
    for _ in 0..u64::MAX {
        match reader.read(piece) {
            Ok(n) => return Some(n),
            Err(e) if e.kind() == ErrorKind::Interrupted => {}
            Err(_) => return None,
        }
    }
    None
}

/// Standard output or standard error.
#[derive(Drop)]
pub struct HostSink<W: Write> {
    writer: W,
    faults: u64,
}

impl<W: Write> HostSink<W> {
    /// Nothing is written yet.
    pub fn new(writer: W) -> Self {
        HostSink { writer, faults: 0 }
    }
}

impl<W: Write> Sink for HostSink<W> {
    ghost use Rattle.std.specs.Prelude.{None};

    ghost written = { λ _. None };

    ghost faults = { λ s. s.faults };

    fn write(&mut self, piece: &[u8]) -> Result<usize, Failed> {
        if piece.is_empty() {
            return Ok(0);
        }
        match write_some(&mut self.writer, piece) {
            Some(n) if n > 0 => Ok(n),
            _ => {
                self.faults = self.faults.saturating_add(1);
                Err(Failed)
            }
        }
    }
}

/// Writes, again where a signal interrupts the call. None where it fails.
fn write_some<W: Write>(writer: &mut W, piece: &[u8]) -> Option<usize>
    ensures { IfSome result (λ n. n ≤ length piece.now) }
{
    for _ in 0..u64::MAX {
        match writer.write(piece) {
            Ok(n) => return Some(n),
            Err(e) if e.kind() == ErrorKind::Interrupted => {}
            Err(_) => return None,
        }
    }
    None
}
