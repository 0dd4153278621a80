//! A file read whole, and a text written whole, piece by piece.

ghost use Rattle.std.specs.Prelude.{◌≡◌, ℕ, ◌<◌, ◌≤◌, ◌+◌, ◌++◌, List, Option, length, vec_len, take, drop, IfOk, OnOk, IfSome, Some, MatchResult};
ghost use Rattle.ra_top.specs.Devices.Device.{HasCause, Rose, Takes, WritesPart, WritesAll};
ghost use Rattle.ra_top.specs.Devices.Stops.{StopHasCause};

use crate::devices::device::{Failed, Files, Sink};
use std::alloc::{AllocError, Global};

/// Why a file was not read.
#[derive(Debug, Drop)]
pub enum FileStop {
    /// A call of the files failed.
    Failed,
    /// Memory ran out.
    Memory(AllocError),
}

/// Writes all the bytes: what a call doesn't take is given to the next one. After a fault nothing
/// more is written.
pub fn write_all<O: Sink>(out: &mut O, bytes: &[u8]) -> Result<(), Failed>
    ensures all { OnOk result (WritesAll (O.written out.old) (O.written out.new) bytes.now) }
    ensures part { WritesPart (O.written out.old) (O.written out.new) bytes.now }
    ensures cause { HasCause (O.faults out.old) (O.faults out.new) result }
{
    let mut done = 0;
    'pieces: while done < bytes.len() {
        match out.write(&bytes[done..]) {
            Ok(n) => done += n,
            Err(failed) => return Err(failed),
        }
    }
    Ok(())
}

/// Reads the file of a name, or its first `limit + 1` bytes where it has more than `limit`. After a
/// fault nothing more is read.
pub fn read_file<F: Files>(
    alloc: Global,
    name: &str,
    files: &mut F,
    limit: u32,
) -> Result<Vec<u8>, FileStop>
    ensures contents { (n : List ℕ) → F.contents files.new n ≡ F.contents files.old n }
    ensures bytes { IfOk result (λ v. IfSome (F.contents files.old name.now) (λ all. v.items ≡ take (limit + 1) all)) }
    ensures within { IfOk result (λ v. vec_len v ≤ limit + 1) }
    ensures left { IfOk result (λ _. IfSome (F.contents files.old name.now) (λ all. F.left files.new ≡ Some (drop (limit + 1) all))) }
    ensures cause { MatchResult result (λ _. F.faults files.new ≡ F.faults files.old) (λ stop. StopHasCause (F.faults files.old) (F.faults files.new) stop) }
{
    match files.start(name) {
        Ok(()) => read_left(alloc, files, limit),
        Err(_) => Err(FileStop::Failed),
    }
}

/// Reads what is left of a file, until it ends or there are `limit + 1` bytes. After a fault
/// nothing more is read.
pub fn read_left<F: Files>(alloc: Global, files: &mut F, limit: u32) -> Result<Vec<u8>, FileStop>
    ensures contents { (n : List ℕ) → F.contents files.new n ≡ F.contents files.old n }
    ensures bytes { IfOk result (λ v. IfSome (F.left files.old) (λ all. v.items ≡ take (limit + 1) all)) }
    ensures within { IfOk result (λ v. vec_len v ≤ limit + 1) }
    ensures left { IfOk result (λ _. IfSome (F.left files.old) (λ all. F.left files.new ≡ Some (drop (limit + 1) all))) }
    ensures cause { MatchResult result (λ _. F.faults files.new ≡ F.faults files.old) (λ stop. StopHasCause (F.faults files.old) (F.faults files.new) stop) }
{
    let mut piece = zeros(alloc, PIECE)?;
    read_pieces(alloc, files, limit, piece.as_mut_slice())
}

/// The same, each call reading into the front of a piece.
fn read_pieces<F: Files>(
    alloc: Global,
    files: &mut F,
    limit: u32,
    piece: &mut [u8],
) -> Result<Vec<u8>, FileStop>
    requires { 0 < length piece.old }
    ensures contents { (n : List ℕ) → F.contents files.new n ≡ F.contents files.old n }
    ensures bytes { IfOk result (λ v. IfSome (F.left files.old) (λ all. v.items ≡ take (limit + 1) all)) }
    ensures within { IfOk result (λ v. vec_len v ≤ limit + 1) }
    ensures left { IfOk result (λ _. IfSome (F.left files.old) (λ all. F.left files.new ≡ Some (drop (limit + 1) all))) }
    ensures cause { MatchResult result (λ _. F.faults files.new ≡ F.faults files.old) (λ stop. StopHasCause (F.faults files.old) (F.faults files.new) stop) }
{
    let mut bytes = Vec::new(alloc);
    'pieces: loop {
        let room = (limit as usize + 1 - bytes.len()).min(piece.len());
        if room == 0 {
            return Ok(bytes);
        }
        match files.read(&mut piece[..room]) {
            Ok(0) => return Ok(bytes),
            Ok(n) => bytes.extend_from_slice(&piece[..n])?,
            Err(_) => return Err(FileStop::Failed),
        }
    }
}

/// So many bytes of 0.
pub(crate) fn zeros(alloc: Global, n: usize) -> Result<Vec<u8>, AllocError>
    ensures { IfOk result (λ v. vec_len v ≡ n) }
{
    vec![in alloc; 0; n]
}

/// The most bytes that one call reads.
pub(crate) const PIECE: usize = 65_536;

impl From<AllocError> for FileStop {
    ghost use Rattle.ra_top.specs.declared.devices.moves.FileStop.TheVariants.{Memory};
    ghost use Rattle.std.specs.Prelude.{◌≡◌};

    ghost from_gives = { λ x e. e ≡ Memory x };

    fn from(e: AllocError) -> FileStop {
        FileStop::Memory(e)
    }
}
