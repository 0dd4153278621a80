//! Lanes, what they are given, operations without their registers, and two codes side by side.

use std::alloc::{AllocError, Global};
use target_base::{Bytes, Copied, Effect, Flags, List, Numbers};

/// A smallest place that holds a value of its own.
#[derive(Clone, Copy, Debug, PartialEq, Eq)]
pub enum Lane {
    /// A lane of a virtual register: the range number, and the number of the lane.
    VirtualLane(u32, u32),
    /// A unit, by its number in the target.
    UnitLane(u32),
    /// A lane of a spill slot, stored at one width: the number of the frame object, that of the
    /// lane, and the width in bits. What is stored at one width is undefined at each other one.
    SlotLane(u32, u32, u32),
}

/// A constant that an instruction can give without reading a register.
#[derive(Drop)]
pub enum Constant {
    /// A number below 2^128, of which some bits are taken.
    Immediate(u128),
    /// The address of the frame object `%stack.N`.
    StackAddress(u32),
    /// The address of the frame object `%fixed-stack.N`.
    FixedStackAddress(u32),
    /// The address of a symbol, by its spelling.
    SymbolAddress(Bytes),
}

/// What a lane can be given without an operation.
#[derive(Drop)]
pub enum Source {
    /// What another lane holds.
    FromLane(Lane),
    /// The undefined value.
    Undef,
    /// Bits of a constant: the number of the first, counted from the lowest, and how many.
    Bits(Constant, u32, u32),
}

/// What a write gives to its lane.
#[derive(Drop)]
pub enum Fill {
    /// What a source held before the instruction.
    Moved(Source),
    /// A value that the instruction computes, by its number from 0.
    Computed(u32),
}

/// A lane that an instruction writes.
#[derive(Drop)]
pub struct Write {
    /// The lane.
    pub lane: Lane,
    /// What it is given.
    pub fill: Fill,
    /// Whether the definition is an early-clobber one, which takes its lanes before the uses are read.
    pub early: bool,
}

/// The lanes that an instruction writes, all at once; of two writes of one lane the first counts.
pub type Writes = List<Write>;

/// The sources that an instruction reads, operand by operand, the lowest lane first.
pub type Reads = List<List<Source>>;

/// The lane widths in bits of each operand read, the lowest lane first.
pub type Widths = List<Numbers>;

/// All of a counted instruction that names no register.
#[derive(Drop)]
pub struct Rest {
    /// What it computes.
    pub effect: Effect,
    /// The lane widths of its operands, in the order in which they are read.
    pub widths: Widths,
    /// The lane widths of what it computes: its definitions, and the lanes that the world answers.
    pub result: Numbers,
    /// The offset of a load or a store, or the condition of a jump; otherwise 0.
    pub immediate: i128,
    /// The symbol that is called; of an opaque instruction what it shows of itself: its opcode and the
    /// spelling of each operand that is no register and no block; otherwise empty.
    pub symbol: Bytes,
    /// Of an opaque instruction whether each operand that is read has to be defined, in the order in
    /// which they are read; otherwise empty.
    pub needed: Flags,
}

/// A way into a block in two codes at once: the block's number, and what the phis of each write.
#[derive(Drop)]
pub struct EdgePair {
    /// The number of the block.
    pub block: u32,
    /// What the phis of the first code write.
    pub first: Writes,
    /// What the phis of the second code write.
    pub second: Writes,
}

/// A step of two codes side by side.
#[derive(Drop)]
pub enum Row {
    /// The start of a block in both, by its number.
    BothStart(u32),
    /// The end of a block in both: what the phis of the block that it falls into write in each, if
    /// it falls into one, and the ways out.
    BothEnd(Option<(Writes, Writes)>, List<EdgePair>),
    /// A silent instruction of the first alone: what it reads in any case, and what it writes.
    FirstSilent(Reads, Writes),
    /// A silent instruction of the second alone.
    SecondSilent(Reads, Writes),
    /// One counted instruction in both: all that names no register, what each reads, what each
    /// writes, the way to the branch target, and the ways from the exit.
    BothCounted(Rest, Reads, Reads, Writes, Writes, Option<EdgePair>, List<EdgePair>),
}

impl Copied for Lane {
    fn copied(&self, _alloc: Global) -> Result<Lane, AllocError> {
        Ok(*self)
    }
}

impl Copied for Constant {
    fn copied(&self, alloc: Global) -> Result<Constant, AllocError> {
        match self {
            Constant::Immediate(n) => Ok(Constant::Immediate(*n)),
            Constant::StackAddress(n) => Ok(Constant::StackAddress(*n)),
            Constant::FixedStackAddress(n) => Ok(Constant::FixedStackAddress(*n)),
            Constant::SymbolAddress(name) => Ok(Constant::SymbolAddress(name.copied(alloc)?)),
        }
    }
}

impl Copied for Source {
    fn copied(&self, alloc: Global) -> Result<Source, AllocError> {
        match self {
            Source::FromLane(l) => Ok(Source::FromLane(*l)),
            Source::Undef => Ok(Source::Undef),
            Source::Bits(c, low, width) => Ok(Source::Bits(c.copied(alloc)?, *low, *width)),
        }
    }
}

impl Copied for Fill {
    fn copied(&self, alloc: Global) -> Result<Fill, AllocError> {
        match self {
            Fill::Moved(s) => Ok(Fill::Moved(s.copied(alloc)?)),
            Fill::Computed(i) => Ok(Fill::Computed(*i)),
        }
    }
}

impl Copied for Write {
    fn copied(&self, alloc: Global) -> Result<Write, AllocError> {
        Ok(Write {
            lane: self.lane,
            fill: self.fill.copied(alloc)?,
            early: self.early,
        })
    }
}
