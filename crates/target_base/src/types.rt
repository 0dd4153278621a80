//! The public data of a target.

ghost use Rattle.std.specs.Prelude.{IsTrue, ◌≡◌, IfOk};
ghost use Rattle.target_base.specs.Rules.{is_sound, are_flag_words};

use crate::list::{Copied, List};
use std::alloc::{AllocError, Global};

/// A smallest piece of register storage, by its number in the target (LLVM's register unit).
#[derive(Clone, Copy, Debug, PartialEq, Eq)]
pub struct Unit(pub u16);

/// A physical register, by its number in the target.
#[derive(Clone, Copy, Debug, PartialEq, Eq)]
pub struct Reg(pub u16);

/// A register class, by its number in the target.
#[derive(Clone, Copy, Debug, PartialEq, Eq)]
pub struct ClassId(pub u16);

/// A subregister index, by its number in the target.
#[derive(Clone, Copy, Debug, PartialEq, Eq)]
pub struct IndexId(pub u16);

/// A call mask (LLVM's register mask), by its number in the target.
#[derive(Clone, Copy, Debug, PartialEq, Eq)]
pub struct MaskId(pub u16);

/// An opcode, by its number in the target.
#[derive(Clone, Copy, Debug, PartialEq, Eq)]
pub struct OpId(pub u16);

/// What an opcode asks of one of its operands.
#[derive(Clone, Copy, Debug, PartialEq, Eq)]
pub enum Role {
    /// A definition in a class.
    Def(ClassId),
    /// An early-clobber definition in a class.
    Early(ClassId),
    /// A use in a class.
    Read(ClassId),
    /// A use in a class that shares the register of a definition: of that of this number among the
    /// definitions, from 0.
    Tied(ClassId, u8),
    /// An immediate.
    Imm,
    /// The block that a branch goes to.
    Target,
    /// A spill slot.
    Slot,
    /// The lanes of a slot that are stored or reloaded: 0 for all, or a subregister index.
    Lanes,
    /// A symbol.
    Sym,
    /// A frame object.
    Frame,
    /// The base of an address: a register of a class, a frame object or a symbol.
    Address(ClassId),
    /// A call mask.
    Mask,
    /// An immediate, a frame object, a symbol, a subregister index, or a use of a reserved register;
    /// with a class also a use of a register of that class.
    Value(Option<ClassId>),
    /// Any number of explicit uses of registers, fixed or virtual; of an opaque opcode also of what
    /// `Value` takes without a class.
    Any,
    /// An implicit definition of a fixed register.
    ImpDef(Reg),
    /// An implicit use of a fixed register.
    ImpRead(Reg),
    /// Any number of explicit uses of fixed registers.
    Rest,
}

/// What control does at an opaque instruction.
#[derive(Clone, Copy, Debug, PartialEq, Eq)]
pub enum OpaqueKind {
    /// It goes on (most machine instructions).
    Plain,
    /// It goes to a block, or goes on (a branch).
    Branch,
    /// It goes on, and units outside a mask are undefined then (a call).
    Call,
    /// It ends the run (a return, or a call that takes its place).
    Return,
}

/// What an opcode computes.
#[derive(Clone, Copy, Debug, PartialEq, Eq)]
pub enum Effect {
    /// Moves a register, lane by lane.
    Copy,
    /// Chooses a value by the block that was left.
    Phi,
    /// Makes its lanes undefined.
    ImplicitDef,
    /// Puts a register together from parts.
    RegSequence,
    /// Puts one part into a register.
    InsertSubreg,
    /// The immediate.
    Const,
    /// The address of a frame object or a symbol.
    Addr,
    /// Sum.
    Add,
    /// Difference.
    Sub,
    /// Product.
    Mul,
    /// Bitwise and.
    And,
    /// Bitwise or.
    Or,
    /// Bitwise exclusive or.
    Xor,
    /// Shift left.
    Shl,
    /// Shift right, filled with zeros.
    Shr,
    /// Shift right, filled with the top bit.
    Sar,
    /// 0 minus the value.
    Neg,
    /// All bits turned.
    Not,
    /// Unsigned quotient; a divisor of 0 traps.
    Udiv,
    /// Unsigned remainder; a divisor of 0 traps.
    Urem,
    /// Product of two values, plus a third.
    Madd,
    /// Widened with zeros.
    Zext,
    /// Widened with the top bit.
    Sext,
    /// Compares: equal, signed less, unsigned less.
    Cmp,
    /// Loads; the offset counts in units of 1, 2, 4, 8 or 16 bytes.
    Load(u8),
    /// Stores; the offset counts in units of 1, 2, 4, 8 or 16 bytes.
    Store(u8),
    /// Goes to a block.
    Jump,
    /// Goes to a block where a condition on flags holds.
    Jcc,
    /// Goes to a block where a register isn't 0.
    Jnz,
    /// Calls a symbol.
    Call,
    /// Returns.
    Ret,
    /// Does nothing.
    Marker,
    /// Stores a register in a spill slot, lane by lane.
    Spill,
    /// Reloads a register from a spill slot, lane by lane.
    Reload,
    /// Nothing that is known: the world is shown what it reads, and answers what it writes.
    Opaque(OpaqueKind),
}

/// Bytes in order, such as a name.
pub type Bytes = List<u8>;

/// Lane numbers, each below 32.
pub type LaneNumbers = List<u8>;

/// Range numbers or other numbers of 32 bits.
pub type Numbers = List<u32>;

/// Truth values.
pub type Flags = List<bool>;

/// Words in order.
pub type Words = List<Bytes>;

/// Units in order.
pub type UnitList = List<Unit>;

/// Registers in order.
pub type Regs = List<Reg>;

/// The roles of an opcode's operands, in order.
pub type Roles = List<Role>;

/// The units of a target.
pub type UnitDescs = List<UnitDesc>;

/// The registers of a target.
pub type RegDescs = List<RegDesc>;

/// The subregister indexes of a target.
pub type IndexDescs = List<IndexDesc>;

/// The register classes of a target.
pub type ClassDescs = List<ClassDesc>;

/// The call masks of a target.
pub type MaskDescs = List<MaskDesc>;

/// The opcodes of a target.
pub type OpcodeDescs = List<OpcodeDesc>;

/// An opcode: its name, what it computes, and what it asks of its operands.
#[derive(Drop)]
pub struct OpcodeDesc {
    /// Its name, with an upper-case letter.
    pub name: Bytes,
    /// What it computes.
    pub effect: Effect,
    /// What it asks of its operands.
    pub roles: Roles,
}

/// A unit: its name and its width in bits, 1 to 128.
#[derive(Drop)]
pub struct UnitDesc {
    /// Its name.
    pub name: Bytes,
    /// Its width in bits, 1 to 128.
    pub width: u8,
}

/// A register: its name and its units, lane by lane.
#[derive(Drop)]
pub struct RegDesc {
    /// Its name.
    pub name: Bytes,
    /// Its distinct units; unit k of the list is lane k.
    pub units: UnitList,
}

/// A subregister index: its name and the lanes that it picks, in order.
#[derive(Drop)]
pub struct IndexDesc {
    /// Its name.
    pub name: Bytes,
    /// The distinct lanes that it picks.
    pub lanes: LaneNumbers,
}

/// A register class: its name and its registers in allocation order.
#[derive(Drop)]
pub struct ClassDesc {
    /// Its name.
    pub name: Bytes,
    /// Its distinct registers, all of the same lane widths.
    pub regs: Regs,
}

/// A call mask: its name and the registers whose units a call preserves.
#[derive(Drop)]
pub struct MaskDesc {
    /// Its name.
    pub name: Bytes,
    /// The registers that it preserves.
    pub regs: Regs,
}

/// What the text of functions may have where a target opts it in. (LLVM prints all of these.)
#[derive(Drop)]
pub struct TextOptions {
    /// Symbols with an offset, such as `@x + 8`.
    pub offsets: bool,
    /// Entries of the constant pool, such as `%const.0`.
    pub pool: bool,
    /// `$noreg` as an explicit operand.
    pub noreg: bool,
    /// Blocks without successors whose end control doesn't reach.
    pub open_blocks: bool,
    /// The words that may stand in `target-flags(..)`, each once.
    pub flags: Words,
    ghost sound: { IsTrue (are_flag_words flags) },
}

/// A target. Every target keeps the rules of `specs/Rules.antt`: names are spelled well and are
/// distinct, numbers stay in their bounds, opcodes have the roles and widths of their effect, and
/// each class can be spilled, reloaded and taken apart.
#[derive(Drop)]
pub struct Target {
    /// Its name.
    pub name: Bytes,
    /// The version of its text, 1 or 2.
    pub version: u8,
    /// Its units, at most 512.
    pub units: UnitDescs,
    /// Its registers, at most 512.
    pub regs: RegDescs,
    /// The reserved units, by number and each once.
    pub reserved: UnitList,
    /// Its subregister indexes, at most 512.
    pub indexes: IndexDescs,
    /// Its register classes, at most 512.
    pub classes: ClassDescs,
    /// Its call masks, at most 512.
    pub masks: MaskDescs,
    /// Its opcodes, at most 1,024: COPY, PHI, IMPLICIT_DEF, REG_SEQUENCE and INSERT_SUBREG first.
    pub opcodes: OpcodeDescs,
    /// What the text of its functions may have.
    pub options: TextOptions,
    ghost sound: { IsTrue (is_sound name version units regs reserved indexes classes masks opcodes) },
}

impl Target {
    /// An equal target.
    pub fn copy(&self, alloc: Global) -> Result<Target, AllocError>
        ensures { IfOk result (λ made. made ≡ self.now) }
    {
        self.copied(alloc)
    }
}

impl Copied for RegDesc {
    fn copied(&self, alloc: Global) -> Result<RegDesc, AllocError> {
        Ok(RegDesc {
            name: Bytes::from_slice(alloc, self.name.as_slice())?,
            units: List::from_slice(alloc, self.units.as_slice())?,
        })
    }
}

impl Copied for Unit {
    fn copied(&self, _alloc: Global) -> Result<Unit, AllocError> {
        Ok(*self)
    }
}

impl Copied for Reg {
    fn copied(&self, _alloc: Global) -> Result<Reg, AllocError> {
        Ok(*self)
    }
}

impl Copied for ClassId {
    fn copied(&self, _alloc: Global) -> Result<ClassId, AllocError> {
        Ok(*self)
    }
}

impl Copied for Role {
    fn copied(&self, _alloc: Global) -> Result<Role, AllocError> {
        Ok(*self)
    }
}

impl Copied for OpcodeDesc {
    fn copied(&self, alloc: Global) -> Result<OpcodeDesc, AllocError> {
        Ok(OpcodeDesc {
            name: Bytes::from_slice(alloc, self.name.as_slice())?,
            effect: self.effect,
            roles: self.roles.copied(alloc)?,
        })
    }
}

impl Copied for UnitDesc {
    fn copied(&self, alloc: Global) -> Result<UnitDesc, AllocError> {
        Ok(UnitDesc {
            name: Bytes::from_slice(alloc, self.name.as_slice())?,
            width: self.width,
        })
    }
}

impl Copied for IndexDesc {
    fn copied(&self, alloc: Global) -> Result<IndexDesc, AllocError> {
        Ok(IndexDesc {
            name: Bytes::from_slice(alloc, self.name.as_slice())?,
            lanes: List::from_slice(alloc, self.lanes.as_slice())?,
        })
    }
}

impl Copied for ClassDesc {
    fn copied(&self, alloc: Global) -> Result<ClassDesc, AllocError> {
        Ok(ClassDesc {
            name: Bytes::from_slice(alloc, self.name.as_slice())?,
            regs: List::from_slice(alloc, self.regs.as_slice())?,
        })
    }
}

impl Copied for MaskDesc {
    fn copied(&self, alloc: Global) -> Result<MaskDesc, AllocError> {
        Ok(MaskDesc {
            name: Bytes::from_slice(alloc, self.name.as_slice())?,
            regs: List::from_slice(alloc, self.regs.as_slice())?,
        })
    }
}

impl Copied for TextOptions {
    fn copied(&self, alloc: Global) -> Result<TextOptions, AllocError> {
        Ok(TextOptions {
            offsets: self.offsets,
            pool: self.pool,
            noreg: self.noreg,
            open_blocks: self.open_blocks,
            flags: self.flags.copied(alloc)?,
        })
    }
}

impl Copied for Target {
    fn copied(&self, alloc: Global) -> Result<Target, AllocError> {
        Ok(Target {
            name: Bytes::from_slice(alloc, self.name.as_slice())?,
            version: self.version,
            units: self.units.copied(alloc)?,
            regs: self.regs.copied(alloc)?,
            reserved: self.reserved.copied(alloc)?,
            indexes: self.indexes.copied(alloc)?,
            classes: self.classes.copied(alloc)?,
            masks: self.masks.copied(alloc)?,
            opcodes: self.opcodes.copied(alloc)?,
            options: self.options.copied(alloc)?,
        })
    }
}
