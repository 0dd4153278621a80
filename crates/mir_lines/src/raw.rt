//! A line of a body as it is spelled, before its names are looked up.

use target_base::{Bytes, List};

/// A register as it is spelled.
#[derive(Drop)]
pub enum RawPlace {
    /// A physical register, by its name.
    Fixed(Bytes),
    /// A virtual register, by its digits without zeros before them or by its name; then the names
    /// of its subregister index and of its class, where they are written.
    Virtual(Bytes, Option<Bytes>, Option<Bytes>),
}

/// A register operand as it is spelled.
#[derive(Drop)]
pub struct RawReg {
    /// The register.
    pub place: RawPlace,
    /// Whether it is a definition.
    pub def: bool,
    /// Whether it is implicit.
    pub implicit: bool,
    /// Whether the flag `undef` is written.
    pub undef: bool,
    /// Whether the flag `early-clobber` is written.
    pub early: bool,
    /// The number of a written tie.
    pub tie: Option<u8>,
}

/// An operand as it is spelled.
#[derive(Drop)]
pub enum RawOperand {
    /// A register.
    Reg(RawReg),
    /// An immediate.
    Imm(i128),
    /// A block by its number, and the name that is written behind it.
    Block(u32, Option<Bytes>),
    /// A frame object `%stack.N`.
    Stack(u32),
    /// A frame object `%fixed-stack.N`.
    FixedStack(u32),
    /// A symbol in its one spelling, and the words of `target-flags` before it.
    Symbol(Bytes, Words),
    /// The name of a subregister index.
    Index(Bytes),
    /// The name of a call mask.
    Mask(Bytes),
}

/// Operands as they are spelled.
pub type RawOperands = List<RawOperand>;

/// An instruction as it is spelled.
#[derive(Drop)]
pub struct RawInstr {
    /// Definitions, then the other operands.
    pub operands: RawOperands,
    /// Its flags with one space between them.
    pub flags: Bytes,
    /// The name of its opcode.
    pub opcode: Bytes,
    /// Whether it is one of the generic opcodes that no stage has a meaning for.
    pub excluded: bool,
    /// Its tail.
    pub tail: Bytes,
}

/// The header of a block as it is spelled.
#[derive(Drop)]
pub struct RawHeader {
    /// Its number.
    pub number: u32,
    /// Its name, or nothing.
    pub name: Bytes,
    /// The text in parentheses, or nothing.
    pub attributes: Bytes,
}

/// A successor as it is spelled: the block and the probability, where one is written.
#[derive(Clone, Copy, Debug)]
pub struct RawEdge {
    /// The number of the block.
    pub block: u32,
    /// The probability in units of 2^-31.
    pub prob: Option<u32>,
}

/// Several words.
pub type Words = List<Bytes>;
