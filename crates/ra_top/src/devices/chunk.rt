//! Files that are read chunk by chunk, and taken piece by piece.

ghost use Rattle.std.specs.Prelude.{◌≡◌, ◌⊎◌, ℕ, ◌<◌, ◌≤◌, ◌++◌, IsTrue, List, [], take, drop, length, IfOk, OnErr, IfSome, Some, MatchResult, true, false, vec_len};
ghost use Rattle.ra_top.specs.Devices.Device.{HasCause, Takes};
ghost use Rattle.ra_top.specs.Devices.Stops.{StopHasCause};
ghost use Rattle.ra_top.specs.Devices.Pieces.{is_whole, NoneWhole, held_most};
ghost use Rattle.ra_top.specs.Devices.Unread.{Taken, IsRest, StopsBeforeWhole};

use crate::devices::device::{Failed, Files};
use crate::devices::moves::{FileStop, PIECE, zeros};
use crate::devices::pieces::Pieces;
use std::alloc::{AllocError, Global};
use std::marker::Model;

/// Bytes that were read and aren't taken yet, at most 65,536.
#[derive(Drop)]
pub struct Chunk {
    bytes: Vec<u8>,
    from: usize,
    to: usize,
}

impl Model for Chunk {
    ghost use Rattle.std.specs.Prelude.{ℕ, List, ◌≤◌, ◌<◌, ◌-◌, take, drop, vec_len};

    ghost Value = { List ℕ };

    ghost view = { λ c. take (c.to - c.from) (drop c.from c.bytes.items) };

    ghost invariant = { λ c. (c.from ≤ c.to) × (c.to ≤ vec_len c.bytes) × (0 < vec_len c.bytes) };
}

impl Chunk {
    /// No bytes, with room for 65,536.
    pub fn new(alloc: Global) -> Result<Chunk, AllocError>
        ensures { IfOk result (λ c. c ≡ []) }
    {
        Ok(Chunk {
            bytes: zeros(alloc, PIECE)?,
            from: 0,
            to: 0,
        })
    }

    /// The bytes.
    pub fn rest(&self) -> &[u8]
        ensures { result.now ≡ self.now }
    {
        &self.bytes[self.from..self.to]
    }

    /// Takes the first bytes away.
    pub fn skip(&mut self, n: usize)
        requires { n ≤ length self.old }
        ensures { self.new ≡ drop n self.old }
    {
        self.from += n;
    }

    /// Reads into an empty chunk. It stays empty at the end of the file, and where the read fails.
    pub fn fill<F: Files>(&mut self, files: &mut F) -> Result<(), Failed>
        requires { self.old ≡ [] }
        ensures contents { (n : List ℕ) → F.contents files.new n ≡ F.contents files.old n }
        ensures taken { Taken (F.left files.old) [] (F.left files.new) self.new [] }
        ensures end { IfOk result (λ _. self.new ≡ [] → IfSome (F.left files.old) (λ l. l ≡ [])) }
        ensures err { OnErr result (self.new ≡ []) }
        ensures cause { HasCause (F.faults files.old) (F.faults files.new) result }
    {
        self.from = 0;
        self.to = 0;
        self.to = files.read(self.bytes.as_mut_slice())?;
        Ok(())
    }
}

/// Reads on where the chunk is empty, and answers whether bytes are there then. There are none only
/// at the end of the file.
fn refill<F: Files>(files: &mut F, chunk: &mut Chunk) -> Result<bool, Failed>
    ensures contents { (n : List ℕ) → F.contents files.new n ≡ F.contents files.old n }
    ensures taken { Taken (F.left files.old) chunk.old (F.left files.new) chunk.new [] }
    ensures more { IfOk result (λ more. more ≡ true → 0 < length chunk.new) }
    ensures end { IfOk result (λ more. more ≡ false → IsRest (F.left files.old) chunk.old []) }
    ensures err { OnErr result (chunk.new ≡ []) }
    ensures cause { HasCause (F.faults files.old) (F.faults files.new) result }
{
    if !chunk.rest().is_empty() {
        return Ok(true);
    }
    chunk.fill(files)?;
    Ok(!chunk.rest().is_empty())
}

/// Reads on, chunk by chunk, until a piece is whole, or 4,194,305 bytes of it are held, or the file
/// ends. It makes no read while bytes of the chunk aren't taken yet, and none after a fault.
pub fn read_piece<F: Files>(
    files: &mut F,
    chunk: &mut Chunk,
    piece: &mut Pieces,
) -> Result<(), FileStop>
    requires { piece.old ≡ [] }
    ensures contents { (n : List ℕ) → F.contents files.new n ≡ F.contents files.old n }
    ensures taken { Taken (F.left files.old) chunk.old (F.left files.new) chunk.new piece.new }
    ensures none { NoneWhole piece.new }
    ensures held { length piece.new ≤ held_most }
    ensures end { IfOk result (λ _. (is_whole piece.new ≡ true) ⊎ ((length piece.new ≡ held_most) ⊎ IsRest (F.left files.old) chunk.old piece.new)) }
    ensures stop { MatchResult result (λ _. Unit {0}) (λ stop. StopsBeforeWhole stop piece.new chunk.new) }
    ensures cause { MatchResult result (λ _. F.faults files.new ≡ F.faults files.old) (λ stop. StopHasCause (F.faults files.old) (F.faults files.new) stop) }
{
    'chunks: loop {
        if piece.whole() {
            return Ok(());
        }
        if piece.over() {
            return Ok(());
        }
        match refill(files, chunk) {
            Ok(true) => {
                let n = piece.feed(chunk.rest())?;
                chunk.skip(n);
            }
            Ok(false) => return Ok(()),
            Err(_) => return Err(FileStop::Failed),
        }
    }
}
