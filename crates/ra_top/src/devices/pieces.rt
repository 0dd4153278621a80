//! One piece of a file at a time.

ghost use Rattle.std.specs.Prelude.{◌≡◌, ◌==◌, ◌⊎◌, ℕ, ◌<◌, ◌≤◌, ◌++◌, IsTrue, List, [], take, length, IfOk, OnErr, fold, true, false};
ghost use Rattle.ra_top.specs.Devices.Pieces.{is_whole, held_most};
ghost use Rattle.ra_top.specs.Devices.Scan.{scan_step};

use std::alloc::{AllocError, Global};
use std::marker::Model;

/// The most bytes of a document, and one more.
pub const HELD_MOST: usize = 4_194_305;

/// What is known of the bytes of a piece so far.
#[derive(Clone, Copy)]
struct PieceScan {
    /// A line before the open one begins with `---`.
    begun: bool,
    /// The length of the open line, where it is below 4; else 4.
    len: u8,
    /// Its first three bytes, as far as it has them, are `-`.
    dashes: bool,
    /// All its bytes are `.`.
    dots: bool,
    /// The last byte ended the piece.
    whole: bool,
}

impl PieceScan {
    /// What is known of no bytes.
    fn new() -> PieceScan
        ensures { result ≡ record { begun = false; len = 0; dashes = true; dots = true; whole = false } }
    {
        PieceScan {
            begun: false,
            len: 0,
            dashes: true,
            dots: true,
            whole: false,
        }
    }

    /// What is known with one more byte. (Most bytes stand behind the third of a line.)
    fn step(self, b: u8) -> PieceScan
        ensures { result ≡ scan_step self b }
    {
        if b == b'\n' {
            PieceScan {
                begun: (self.len >= 3 && self.dashes) || self.begun,
                len: 0,
                dashes: true,
                dots: true,
                whole: self.len == 3 && self.dots && self.begun,
            }
        } else if self.len == 4 && !self.dots {
            PieceScan {
                whole: false,
                ..self
            }
        } else {
            PieceScan {
                begun: self.begun,
                len: if self.len < 4 { self.len + 1 } else { 4 },
                dashes: self.dashes && (self.len >= 3 || b == b'-'),
                dots: self.dots && b == b'.',
                whole: false,
            }
        }
    }
}

/// Scans bytes up to the first that ends a piece, and answers how many it scanned.
fn scan(before: PieceScan, bytes: &[u8]) -> (usize, PieceScan)
    ensures within { result.0 ≤ length bytes.now }
    ensures after { result.1 ≡ fold scan_step before (take result.0 bytes.now) }
    ensures first { (j : ℕ) → 0 < j → j < result.0 → (fold scan_step before (take j bytes.now)).whole ≡ false }
    ensures end { (result.0 ≡ length bytes.now) ⊎ (result.1.whole ≡ true) }
    ensures some { 0 < length bytes.now → 0 < result.0 }
{
    let mut after = before;
    for (k, b) in bytes.iter().enumerate() {
        after = after.step(*b);
        if after.whole {
            return (k + 1, after);
        }
    }
    (bytes.len(), after)
}

/// The bytes of a piece of a file as far as they were fed: at most 4,194,305. A piece ends with the
/// first line that is exactly `...` and that follows a line of the piece which begins with `---`.
#[derive(Drop)]
pub struct Pieces {
    bytes: Vec<u8>,
    scan: PieceScan,
}

impl Model for Pieces {
    ghost use Rattle.std.specs.Prelude.{ℕ, List, ◌≤◌, ◌≡◌, length};
    ghost use Rattle.ra_top.specs.Devices.Pieces.{held_most, lines_of};
    ghost use Rattle.ra_top.specs.Devices.Scan.{scan_of};

    ghost Value = { List ℕ };

    ghost view = { λ p. p.bytes.items };

    ghost invariant = { λ p. (length p.bytes.items ≤ held_most) × (p.scan ≡ scan_of (lines_of p.bytes.items)) };
}

impl Pieces {
    /// No bytes. It takes no memory.
    pub fn new(alloc: Global) -> Pieces
        ensures { result ≡ [] }
    {
        Pieces {
            bytes: Vec::new(alloc),
            scan: PieceScan::new(),
        }
    }

    /// Takes the first of these bytes: up to the newline that ends the piece, or until 4,194,305
    /// are held, or all of them. Answers how many it took. After a refusal nothing is taken.
    pub fn feed(&mut self, bytes: &[u8]) -> Result<usize, AllocError>
        requires going { is_whole self.old ≡ false }
        requires room { length self.old < held_most }
        ensures within { IfOk result (λ n. n ≤ length bytes.now) }
        ensures text { IfOk result (λ n. self.new ≡ self.old ++ take n bytes.now) }
        ensures first { IfOk result (λ n. (j : ℕ) → j < n → is_whole (self.old ++ take j bytes.now) ≡ false) }
        ensures end { IfOk result (λ n. (n ≡ length bytes.now) ⊎ ((is_whole self.new ≡ true) ⊎ (length self.new ≡ held_most))) }
        ensures some { IfOk result (λ n. 0 < length bytes.now → 0 < n) }
        ensures held { length self.new ≤ held_most }
        ensures err { OnErr result (self.new ≡ self.old) }
    {
        let room = HELD_MOST - self.bytes.len();
        let fitting = &bytes[..room.min(bytes.len())];
        let (n, after) = scan(self.scan, fitting);
        self.bytes.extend_from_slice(&fitting[..n])?;
        self.scan = after;
        Ok(n)
    }

    /// Whether the bytes end with the newline that ends the piece. It takes no memory.
    pub fn whole(&self) -> bool
        ensures { result ≡ is_whole self.now }
    {
        self.scan.whole
    }

    /// Whether 4,194,305 bytes are held, one more than a document may have. It takes no memory.
    pub fn over(&self) -> bool
        ensures { result ≡ (length self.now == held_most) }
    {
        self.bytes.len() == HELD_MOST
    }

    /// The bytes so far. It takes no memory.
    pub fn bytes(&self) -> &[u8]
        ensures { result.now ≡ self.now }
    {
        self.bytes.as_slice()
    }

    /// Forgets all bytes. It takes no memory.
    pub fn clear(&mut self)
        ensures { self.new ≡ [] }
    {
        self.bytes.clear();
        self.scan = PieceScan::new();
    }
}
