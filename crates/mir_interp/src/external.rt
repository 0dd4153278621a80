//! The bytes that a run has stored, and how many answers the world has given it.

ghost use Rattle.std.specs.Prelude.{◌≡◌, ◌+◌, ◌≤◌, ◌/◌, ◌++◌, ◌∷◌, [], ℕ, List, OnOk, IfOk};
ghost use Rattle.meaning.specs.Environment.{Environment, Value};
ghost use Rattle.meaning.specs.Perform.{loaded_bytes, loaded, stored_bytes, stored, low_byte, high_bytes};
ghost use Rattle.meaning.specs.Perform as meaning;
ghost use Rattle.mir_interp.specs.Stands.{Stands, given_by};
ghost use Rattle.mir_interp.specs.Remembers.{remembered, Matches, Remembers};

use crate::memory::Memory;
use crate::numbers::put_above;
use crate::types::Lanes;
use crate::world::World;
use instr_effects::items::counted::low_bits;
use std::alloc::{AllocError, Global};

/// What lies outside the lanes.
#[derive(Drop)]
pub struct ExternalState {
    /// The bytes stored so far.
    bytes: Memory,
    /// How many answers the world has given so far.
    calls: u64,
}

impl ExternalState {
    /// Nothing stored, and no answer given.
    pub fn new(alloc: Global) -> ExternalState
        ensures { (env : Environment) → Remembers env result (record { bytes = []; calls = 0 }) }
    {
        ExternalState {
            bytes: Memory::new(alloc),
            calls: 0,
        }
    }

    /// How many answers the world has given so far.
    pub fn calls(&self) -> u64
        ensures { result ≡ self.now.calls }
    {
        self.calls
    }

    /// Counts an answer. No run takes 2^64 of them: want of memory stands for one more.
    pub fn count_call(&mut self) -> Result<(), AllocError>
        ensures bytes { self.new.bytes ≡ self.old.bytes }
        ensures calls { OnOk result (self.new.calls ≡ self.old.calls + 1) }
    {
        match self.calls.checked_add(1) {
            None => Err(AllocError),
            Some(calls) => {
                self.calls = calls;
                Ok(())
            }
        }
    }

    /// The byte at an address.
    fn byte<W: World>(&self, world: &W, a: u128) -> Option<u8>
        ensures { (symbols : List (List ℕ)) (n : ℕ) (env : Environment) → Stands (given_by W.entry W.byte W.frame W.symbol W.answer world.now) symbols n env → result ≡ remembered env self.now.bytes a }
    {
        match self.bytes.stored_byte(a) {
            None => Some(world.byte(a)),
            Some(held) => held,
        }
    }

    /// So many bytes from an address on as one number, the lowest first; addresses count modulo
    /// 2^w. Want of memory stands for a number of more than 128 bits, which no lane has.
    fn load_lane<W: World>(
        &self,
        world: &W,
        w: u32,
        a: u128,
        count: u32,
    ) -> Result<Option<u128>, AllocError>
        requires { w ≤ 128 }
        ensures { IfOk result (λ v. (symbols : List (List ℕ)) (n : ℕ) (env : Environment) → Stands (given_by W.entry W.byte W.frame W.symbol W.answer world.now) symbols n env → (o : meaning.Outside) → Remembers env self.now o → v ≡ loaded_bytes env o w a count) }
    {
        let mut number: u128 = 0;
        for k in 0..count {
            let at = low_bits(a.wrapping_add((count - 1 - k) as u128), w);
            match self.byte(world, at) {
                None => return Ok(None),
                Some(byte) => number = put_above(byte as u128, 8, number)?,
            }
        }
        Ok(Some(number))
    }

    /// Appends the lanes of these widths that lie from an address on.
    pub fn push_loaded<W: World>(
        &self,
        out: &mut Lanes,
        world: &W,
        w: u32,
        a: u128,
        widths: &[u32],
    ) -> Result<(), AllocError>
        requires { w ≤ 128 }
        ensures { OnOk result ((symbols : List (List ℕ)) (n : ℕ) (env : Environment) → Stands (given_by W.entry W.byte W.frame W.symbol W.answer world.now) symbols n env → (o : meaning.Outside) → Remembers env self.now o → out.new ≡ out.old ++ loaded env o w a widths.now) }
    {
        let mut at = a;
        for l in widths {
            let count = *l / 8;
            let lane = self.load_lane(world, w, at, count)?;
            out.push(lane)?;
            at = at.wrapping_add(count as u128);
        }
        Ok(())
    }

    /// Stores a byte.
    fn store_byte(&mut self, a: u128, byte: Option<u8>) -> Result<(), AllocError>
        ensures calls { self.new.calls ≡ self.old.calls }
        ensures bytes { OnOk result ((env : Environment) (bs : List (ℕ × Value)) → Matches env self.old.bytes bs → Matches env self.new.bytes ((a, byte) ∷ bs)) }
    {
        self.bytes.store(a, byte)?;
        Ok(())
    }

    /// Stores so many bytes of a value, the lowest first.
    fn store_lane(
        &mut self,
        w: u32,
        a: u128,
        value: Option<u128>,
        count: u32,
    ) -> Result<(), AllocError>
        requires { w ≤ 128 }
        ensures calls { self.new.calls ≡ self.old.calls }
        ensures bytes { OnOk result ((env : Environment) (bs : List (ℕ × Value)) → Matches env self.old.bytes bs → Matches env self.new.bytes (stored_bytes w a value count bs)) }
    {
        let mut at = a;
        let mut rest = value;
        for _k in 0..count {
            let place = low_bits(at, w);
            let byte = low_byte(rest);
            let higher = high_bytes(rest);
            self.store_byte(place, byte)?;
            at = at.wrapping_add(1);
            rest = higher;
        }
        Ok(())
    }

    /// Stores lanes of these widths from an address on.
    pub fn store(
        &mut self,
        w: u32,
        a: u128,
        widths: &[u32],
        lanes: &[Option<u128>],
    ) -> Result<(), AllocError>
        requires { w ≤ 128 }
        ensures calls { self.new.calls ≡ self.old.calls }
        ensures bytes { OnOk result ((env : Environment) (bs : List (ℕ × Value)) → Matches env self.old.bytes bs → Matches env self.new.bytes (stored w a widths.now lanes.now bs)) }
    {
        let mut at = a;
        for k in 0..widths.len() {
            if k >= lanes.len() {
                return Ok(());
            }
            let count = widths[k] / 8;
            self.store_lane(w, at, lanes[k], count)?;
            at = at.wrapping_add(count as u128);
        }
        Ok(())
    }
}

/// The lowest byte of a value.
fn low_byte(value: Option<u128>) -> Option<u8>
    ensures { result ≡ low_byte value }
{
    match value {
        None => None,
        Some(n) => Some((n % 256) as u8),
    }
}

/// The other bytes of a value.
fn high_bytes(value: Option<u128>) -> Option<u128>
    ensures { result ≡ high_bytes value }
{
    match value {
        None => None,
        Some(n) => Some(n / 256),
    }
}
