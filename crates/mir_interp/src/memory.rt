//! The bytes that a run has stored.

ghost use Rattle.std.specs.Prelude.{◌≡◌, ◌<◌, ℕ, nat_eq, cond, length, slice_index_or, OnOk, IfOk, Some, None, []};
ghost use Rattle.meaning.specs.Environment.{Environment};
ghost use Rattle.mir_interp.specs.Remembers.{Matches, cells_in, cells_of, stored_at};

use std::alloc::{AllocError, Global};
use std::collections::HashMap;

/// What was stored at 16 addresses, of which the first is a multiple of 16: None where nothing was,
/// and Some(None) where an undefined byte was.
#[derive(Clone, Copy)]
struct MemoryLine {
    cells: [Option<Option<u8>>; 16],
}

impl MemoryLine {
    /// Nothing stored.
    fn empty() -> MemoryLine
        ensures { (k : ℕ) → slice_index_or result.cells k None ≡ None }
    {
        MemoryLine { cells: [None; 16] }
    }

    /// What was stored in a cell.
    fn get(&self, k: usize) -> Option<Option<u8>>
        requires { k < 16 }
        ensures { result ≡ slice_index_or self.now.cells k None }
    {
        self.cells[k]
    }

    /// Puts a byte into a cell.
    fn put(&mut self, k: usize, byte: Option<u8>)
        requires { k < 16 }
        ensures { (j : ℕ) → slice_index_or self.new.cells j None ≡ cond (nat_eq k j) (Some byte) (slice_index_or self.old.cells j None) }
    {
        self.cells[k] = Some(byte);
    }
}

/// Bytes by their addresses, in chunks of 16. Bytes that follow each other are put into one chunk, so
/// the one that was stored to last is at hand, and goes back to the map when another one is asked for.
#[derive(Drop)]
pub struct Memory {
    /// The chunks by their numbers, which are their addresses divided by 16. What stands here under
    /// the number of the chunk at hand is old, and counts for nothing.
    chunks: HashMap<u128, MemoryLine>,
    /// The number of the chunk at hand.
    number: u128,
    /// The chunk at hand.
    at_hand: MemoryLine,
}

impl Memory {
    /// Nothing stored.
    pub fn new(alloc: Global) -> Memory
        ensures { (env : Environment) → Matches env result [] }
    {
        Memory {
            chunks: HashMap::new(alloc),
            number: 0,
            at_hand: MemoryLine::empty(),
        }
    }

    /// The chunk of a number in the map.
    fn line_of(&self, number: u128) -> MemoryLine
        ensures { (k : ℕ) → slice_index_or result.cells k None ≡ slice_index_or (cells_in self.now.chunks.entries number) k None }
    {
        match self.chunks.get(&number) {
            None => MemoryLine::empty(),
            Some(chunk) => *chunk,
        }
    }

    /// What was stored to an address, if anything.
    pub fn stored_byte(&self, a: u128) -> Option<Option<u8>>
        ensures { result ≡ stored_at self.now a }
    {
        let number = a / 16;
        let k = (a % 16) as usize;
        if number == self.number {
            self.at_hand.get(k)
        } else {
            self.line_of(number).get(k)
        }
    }

    /// Lets the chunk of a number be at hand.
    fn turn_to(&mut self, number: u128) -> Result<(), AllocError>
        ensures number { OnOk result (self.new.number ≡ number) }
        ensures same { OnOk result ((b : ℕ) → stored_at self.new b ≡ stored_at self.old b) }
    {
        if number == self.number {
            return Ok(());
        }
        let next = self.line_of(number);
        self.chunks.insert(self.number, self.at_hand)?;
        self.number = number;
        self.at_hand = next;
        Ok(())
    }

    /// Stores a byte.
    pub fn store(&mut self, a: u128, byte: Option<u8>) -> Result<(), AllocError>
        ensures { OnOk result ((b : ℕ) → stored_at self.new b ≡ cond (nat_eq a b) (Some byte) (stored_at self.old b)) }
    {
        self.turn_to(a / 16)?;
        self.at_hand.put((a % 16) as usize, byte);
        Ok(())
    }
}
