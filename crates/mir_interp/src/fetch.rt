//! What sources give in the course of a run.

ghost use Rattle.std.specs.Prelude.{◌≡◌, ◌∷◌, ◌<◌, ◌+◌, ◌^◌, ◌%◌, ◌++◌, ℕ, map, OnOk, IfOk, Some, slice_get};
ghost use Rattle.meaning.specs.Environment.{Environment, constant_residue, bits_of};
ghost use Rattle.meaning.specs.State.{fetch, values};
ghost use Rattle.meaning.specs.Perform.{joined, operand, all_lanes};
ghost use Rattle.mir_interp.specs.Holds.{held_by};
ghost use Rattle.mir_interp.specs.Stands.{Stands, given_by};

use crate::names::is_same;
use crate::numbers::{put_above, shift_right};
use crate::store::Store;
use crate::types::Lanes;
use crate::world::World;
use instr_effects::items::counted::low_bits;
use meaning::{Constant, Reads, Source, Widths};
use std::alloc::AllocError;
use target_base::Bytes;

/// What a run finds: the world, and the symbols of the function by first appearance.
#[derive(Drop)]
pub struct RunContext<'a, W> {
    /// The world.
    pub world: &'a W,
    /// The symbols.
    pub symbols: &'a [Bytes],
}

/// The place of a name. Want of memory stands for a name that isn't there, which no run asks for.
fn place_of(names: &[Bytes], name: &[u8]) -> Result<usize, AllocError>
    ensures { IfOk result (λ m. slice_get names.now m ≡ Some name.now) }
{
    for m in 0..names.len() {
        let other = names[m].as_slice();
        if is_same(other, name) {
            return Ok(m);
        }
    }
    Err(AllocError)
}

/// Says of a frame object that it is a fixed one, as `%fixed-stack.n`.
const FIXED: bool = true;

/// Says of a frame object that it is no fixed one, as `%stack.n`.
const MOVABLE: bool = false;

impl<'a, W: World> RunContext<'a, W> {
    /// A constant as a number.
    fn number_of(&self, c: &Constant) -> Result<u128, AllocError>
        ensures { IfOk result (λ v. (n : ℕ) (env : Environment) → Stands (given_by W.entry W.byte W.frame W.symbol W.answer self.now.world.now) self.now.symbols.now n env → (w : ℕ) → constant_residue env c.now w ≡ v % 2 ^ w) }
    {
        match c {
            Constant::Immediate(n) => Ok(*n),
            Constant::StackAddress(n) => Ok(low_bits(self.world.frame(MOVABLE, *n), 64)),
            Constant::FixedStackAddress(n) => Ok(low_bits(self.world.frame(FIXED, *n), 64)),
            Constant::SymbolAddress(name) => {
                let m = place_of(self.symbols, name.as_slice())?;
                Ok(low_bits(self.world.symbol(m), 64))
            }
        }
    }

    /// So many bits of a constant from a bit on. Want of memory stands for bits from 2^32 on, which
    /// no constant is asked for.
    pub fn bits_of(&self, c: &Constant, low: u32, width: u32) -> Result<u128, AllocError>
        ensures { IfOk result (λ v. (n : ℕ) (env : Environment) → Stands (given_by W.entry W.byte W.frame W.symbol W.answer self.now.world.now) self.now.symbols.now n env → v ≡ bits_of env c.now low width) }
    {
        let Some(end) = low.checked_add(width) else {
            return Err(AllocError);
        };
        let number = self.number_of(c)?;
        Ok(shift_right(low_bits(number, end), low))
    }

    /// What a source gives.
    pub fn fetch(&self, store: &Store, s: &Source) -> Result<Option<u128>, AllocError>
        ensures { IfOk result (λ v. (n : ℕ) (env : Environment) → Stands (given_by W.entry W.byte W.frame W.symbol W.answer self.now.world.now) self.now.symbols.now n env → v ≡ fetch env (held_by store.now) s.now) }
    {
        match s {
            Source::FromLane(l) => Ok(store.get(l)),
            Source::Undef => Ok(None),
            Source::Bits(c, low, width) => {
                let bits = self.bits_of(c, *low, *width)?;
                Ok(Some(bits))
            }
        }
    }

    /// Appends what sources give.
    pub fn push_fetched(
        &self,
        out: &mut Lanes,
        store: &Store,
        sources: &[Source],
    ) -> Result<(), AllocError>
        ensures { OnOk result ((n : ℕ) (env : Environment) → Stands (given_by W.entry W.byte W.frame W.symbol W.answer self.now.world.now) self.now.symbols.now n env → out.new ≡ out.old ++ map (fetch env (held_by store.now)) sources.now) }
    {
        for s in sources {
            let lane = self.fetch(store, s)?;
            out.push(lane)?;
        }
        Ok(())
    }

    /// What an operand gives, by its number, as one number.
    pub fn operand(
        &self,
        store: &Store,
        widths: &Widths,
        reads: &Reads,
        k: usize,
    ) -> Result<Option<u128>, AllocError>
        ensures { IfOk result (λ v. (n : ℕ) (env : Environment) → Stands (given_by W.entry W.byte W.frame W.symbol W.answer self.now.world.now) self.now.symbols.now n env → v ≡ operand widths.now (values env (held_by store.now) reads.now) k) }
    {
        let width_count = widths.len();
        if k >= width_count {
            return Ok(None);
        }
        let read_count = reads.len();
        if k >= read_count {
            return Ok(None);
        }
        let picked = reads.get(k);
        let sources = picked.as_slice();
        let own = widths.get(k);
        let own_widths = own.as_slice();
        let number = self.join_sources(store, own_widths, sources)?;
        Ok(number)
    }

    /// What sources of these widths give as one number, the lowest first; None where one is Undef or
    /// missing.
    fn join_sources(
        &self,
        store: &Store,
        widths: &[u32],
        sources: &[Source],
    ) -> Result<Option<u128>, AllocError>
        ensures { IfOk result (λ v. (n : ℕ) (env : Environment) → Stands (given_by W.entry W.byte W.frame W.symbol W.answer self.now.world.now) self.now.symbols.now n env → v ≡ joined widths.now (map (fetch env (held_by store.now)) sources.now)) }
    {
        let mut number: u128 = 0;
        for k in 0..widths.len() {
            let i = widths.len() - 1 - k;
            if i >= sources.len() {
                return Ok(None);
            }
            let fetched = self.fetch(store, &sources[i])?;
            let Some(lane) = fetched else {
                return Ok(None);
            };
            number = put_above(lane, widths[i], number)?;
        }
        Ok(Some(number))
    }

    /// Appends all lanes that are read, in order.
    pub fn push_all(&self, out: &mut Lanes, store: &Store, reads: &Reads) -> Result<(), AllocError>
        ensures { OnOk result ((n : ℕ) (env : Environment) → Stands (given_by W.entry W.byte W.frame W.symbol W.answer self.now.world.now) self.now.symbols.now n env → out.new ≡ out.old ++ all_lanes (values env (held_by store.now) reads.now)) }
    {
        for sources in reads.as_slice() {
            self.push_fetched(out, store, sources.as_slice())?;
        }
        Ok(())
    }
}
