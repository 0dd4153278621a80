//! Files and a sink in memory, of which chosen calls fail.

ghost use Rattle.std.specs.Prelude.{◌≡◌, ◌<◌, ◌+◌, ◌^◌, ◌++◌, length, take, drop, min, map, position, nat_eq, IfOk, IfSome, option_copied};
ghost use Rattle.std.specs.Cmp.Lexicographic.{pointwise};
ghost use Rattle.std.specs.String.{string_bytes};
ghost use Rattle.ra_top.specs.Devices.Calls.{is_listed, is_due, raised};
ghost use Rattle.ra_top.specs.Devices.Device.{Rose};

use crate::devices::device::{Failed, Files, Sink};
use std::alloc::{AllocError, Global};
use std::marker::Model;

/// Files in memory. The calls of `start` and `read` are counted together from 1, and those whose
/// number stands in a list fail.
#[derive(Drop)]
pub struct MemFiles {
    files: Vec<(String, Vec<u8>)>,
    fails: Vec<u64>,
    most: usize,
    place: Option<usize>,
    at: usize,
    calls: u64,
    faults: u64,
}

impl Model for MemFiles {
    ghost use Rattle.std.specs.Prelude.{◌<◌, map};
    ghost use Rattle.ra_top.specs.Devices.MemFiles.{FilesState, file_of};

    ghost Value = { FilesState };

    ghost view = { λ s. record { files = map file_of s.files.items; fails = s.fails.items; most = s.most; place = s.place; at = s.at; calls = s.calls; faults = s.faults } };

    // each read may give a byte
    ghost invariant = { λ s. 0 < s.most };
}

impl MemFiles {
    ghost use Rattle.ra_top.specs.Devices.MemFiles.{store, place_of, bytes_left, file_of};

    /// The files, each by its name, and the numbers of the calls that fail. Of two files of one
    /// name the first counts. It takes no memory.
    pub fn new(_alloc: Global, files: Vec<(String, Vec<u8>)>, fails: Vec<u64>) -> MemFiles
        ensures { result ≡ store (map file_of files.items) fails.items }
    {
        MemFiles {
            files,
            fails,
            most: usize::MAX,
            place: None,
            at: 0,
            calls: 0,
            faults: 0,
        }
    }

    /// From now on a read gives at most so many bytes.
    pub fn step(&mut self, most: usize)
        requires { 0 < most }
        ensures { self.new ≡ record self.old { most = most } }
    {
        self.most = most;
    }

    /// The place of the first file of a name.
    fn find(&self, name: &str) -> Option<usize>
        ensures { result ≡ place_of name.now self.now.files }
    {
        find_file(self.files.as_slice(), name)
    }

    /// The bytes of the file that is read which are left.
    fn left(&self) -> Option<&[u8]>
        ensures value { option_copied result ≡ bytes_left self.now }
        ensures fits { IfSome result (λ left. self.now.at + length left.now < 2 ^ 64) }
    {
        match self.place {
            None => None,
            Some(k) => match self.files.get(k) {
                None => None,
                Some(file) => Some(rest_of(file.1.as_slice(), self.at)),
            },
        }
    }
}

/// Counts a call, and answers whether it is one of those that fail.
fn count_call(calls: &mut u64, fails: &[u64]) -> bool
    ensures answer { result ≡ is_due fails.now calls.old }
    ensures counted { calls.new ≡ raised calls.old }
{
    *calls = raise(*calls);
    is_listed(fails, *calls)
}

/// Counts a fault.
fn count_fault(faults: &mut u64) -> Failed
    ensures counted { faults.new ≡ raised faults.old }
    ensures cause { Rose faults.old faults.new }
{
    *faults = raise(*faults);
    Failed
}

/// One more, where that fits.
fn raise(count: u64) -> u64
    ensures value { result ≡ raised count }
    ensures cause { Rose count result }
{
    count.saturating_add(1)
}

/// Whether a list holds the number of a call.
fn is_listed(fails: &[u64], call: u64) -> bool
    ensures { result ≡ is_listed fails.now call }
{
    fails.iter().any(|n| *n == call)
}

fn find_file(files: &[(String, Vec<u8>)], name: &str) -> Option<usize>
    ensures { result ≡ position (λ f. pointwise nat_eq (string_bytes f.0) name.now) files.now }
{
    files.iter().position(|f| f.0.as_str() == name)
}

impl Files for MemFiles {
    ghost use Rattle.std.specs.Prelude.{◌≡◌, ◌<◌, ℕ, List, Some, length, is_ok, IfSome, IfOk, OnErr, ◌≤◌};
    ghost use Rattle.ra_top.specs.Devices.Device.{HasCause, Takes};
    ghost use Rattle.ra_top.specs.Devices.MemFiles.{file_named, bytes_left, started, can_start, read_answer, read_piece, was_read};

    ghost contents = { λ s name. file_named name s.files };

    ghost left = { bytes_left };

    ghost faults = { λ s. s.faults };

    fn start(&mut self, name: &str) -> Result<(), Failed>
        ensures contents { (n : List ℕ) → file_named n self.new.files ≡ file_named n self.old.files }
        ensures left { IfSome (file_named name.now self.old.files) (λ bytes. bytes_left self.new ≡ Some bytes) }
        ensures cause { HasCause self.old.faults self.new.faults result }
        ensures answer { is_ok result ≡ can_start name.now self.old }
        ensures state { self.new ≡ started name.now self.old }
    {
        let fails = count_call(&mut self.calls, self.fails.as_slice());
        self.place = self.find(name);
        self.at = 0;
        if fails {
            return Err(count_fault(&mut self.faults));
        }
        if self.place.is_none() {
            return Err(count_fault(&mut self.faults));
        }
        Ok(())
    }

    fn read(&mut self, piece: &mut [u8]) -> Result<usize, Failed>
        ensures contents { (n : List ℕ) → file_named n self.new.files ≡ file_named n self.old.files }
        ensures within { IfOk result (λ n. n ≤ length piece.old) }
        ensures takes { IfOk result (λ n. IfSome (bytes_left self.old) (λ bytes. Takes bytes (bytes_left self.new) piece.new n)) }
        ensures err { OnErr result (bytes_left self.new ≡ bytes_left self.old) }
        ensures cause { HasCause self.old.faults self.new.faults result }
        ensures answer { result ≡ read_answer (length piece.old) self.old }
        ensures piece { piece.new ≡ read_piece piece.old self.old }
        ensures state { self.new ≡ was_read (length piece.old) self.old }
    {
        if count_call(&mut self.calls, self.fails.as_slice()) {
            return Err(count_fault(&mut self.faults));
        }
        let n = match self.left() {
            None => return Err(count_fault(&mut self.faults)),
            Some(left) => copy_front(left, self.most, piece),
        };
        self.at += n;
        Ok(n)
    }
}

/// The bytes from a place on.
fn rest_of(bytes: &[u8], at: usize) -> &[u8]
    ensures value { result.now ≡ drop at bytes.now }
    ensures fits { at + length result.now < 2 ^ 64 }
{
    if at <= bytes.len() {
        &bytes[at..]
    } else {
        &bytes[bytes.len()..]
    }
}

/// Copies as many bytes as fit, `most` at most.
fn copy_front(from: &[u8], most: usize, piece: &mut [u8]) -> usize
    ensures count { result ≡ min (min (length piece.old) most) (length from.now) }
    ensures bytes { piece.new ≡ take result from.now ++ drop result piece.old }
{
    let n = piece.len().min(most).min(from.len());
    piece[..n].copy_from_slice(&from[..n]);
    n
}

/// A sink in memory, with room for so many bytes. The calls of `write` are counted from 1, and
/// those whose number stands in a list fail.
#[derive(Drop)]
pub struct MemSink {
    bytes: Vec<u8>,
    room: usize,
    fails: Vec<u64>,
    most: usize,
    calls: u64,
    faults: u64,
}

impl Model for MemSink {
    ghost use Rattle.std.specs.Prelude.{◌<◌, ◌≤◌, vec_capacity};
    ghost use Rattle.ra_top.specs.Devices.MemSink.{SinkState};

    ghost Value = { SinkState };

    ghost view = { λ s. record { bytes = s.bytes.items; room = s.room; fails = s.fails.items; most = s.most; calls = s.calls; faults = s.faults } };

    // the room is reserved, and each call may take a byte
    ghost invariant = { λ s. (s.room ≤ vec_capacity s.bytes) × (0 < s.most) };
}

impl MemSink {
    ghost use Rattle.ra_top.specs.Devices.MemSink.{sink};

    /// A sink that nothing was written to, with room for `room` bytes, which is reserved here, and
    /// the numbers of the calls that fail.
    pub fn new(alloc: Global, room: usize, fails: Vec<u64>) -> Result<MemSink, AllocError>
        ensures { IfOk result (λ s. s ≡ sink room fails.items) }
    {
        Ok(MemSink {
            bytes: Vec::with_capacity(alloc, room)?,
            room,
            fails,
            most: usize::MAX,
            calls: 0,
            faults: 0,
        })
    }

    /// From now on a write takes at most so many bytes.
    pub fn step(&mut self, most: usize)
        requires { 0 < most }
        ensures { self.new ≡ record self.old { most = most } }
    {
        self.most = most;
    }

    /// What was written.
    pub fn bytes(&self) -> &[u8]
        ensures { result.now ≡ self.now.bytes }
    {
        self.bytes.as_slice()
    }
}

impl Sink for MemSink {
    ghost use Rattle.std.specs.Prelude.{◌≡◌, ◌<◌, ◌≤◌, ◌++◌, Some, length, take, IfOk, OnErr};
    ghost use Rattle.ra_top.specs.Devices.Device.{HasCause};
    ghost use Rattle.ra_top.specs.Devices.MemSink.{write_answer, was_written};

    ghost written = { λ s. Some s.bytes };

    ghost faults = { λ s. s.faults };

    fn write(&mut self, piece: &[u8]) -> Result<usize, Failed>
        ensures within { IfOk result (λ n. n ≤ length piece.now) }
        ensures some { IfOk result (λ n. 0 < length piece.now → 0 < n) }
        ensures takes { IfOk result (λ n. Some self.new.bytes ≡ Some (self.old.bytes ++ take n piece.now)) }
        ensures err { OnErr result (Some self.new.bytes ≡ Some self.old.bytes) }
        ensures cause { HasCause self.old.faults self.new.faults result }
        ensures answer { result ≡ write_answer (length piece.now) self.old }
        ensures state { self.new ≡ was_written piece.now self.old }
    {
        if count_call(&mut self.calls, self.fails.as_slice()) {
            return Err(count_fault(&mut self.faults));
        }
        let free = self.room.saturating_sub(self.bytes.len());
        let n = piece.len().min(self.most).min(free);
        if n == 0 && !piece.is_empty() {
            return Err(count_fault(&mut self.faults));
        }
        match self.bytes.extend_from_slice(&piece[..n]) {
            Ok(()) => Ok(n),
            Err(_) => Err(count_fault(&mut self.faults)),
        }
    }
}
