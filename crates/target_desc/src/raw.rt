//! A line as it is spelled, before its names are looked up.

use target_base::{Bytes, Effect, IndexDesc, List, Role, UnitDesc, Words};

/// What the first word of a line says that the line is.
#[derive(Clone, Copy)]
pub(crate) enum LineForm {
    Target,
    Unit,
    Reg,
    Reserved,
    Index,
    Class,
    Mask,
    Opcode,
    Forms,
    Flags,
}

/// A form of text that a `form` line opts in.
#[derive(Clone, Copy)]
pub(crate) enum TextForm {
    Offset,
    Pool,
    Noreg,
    Open,
}

/// What a role asks that names a class, or a register as the last two do.
#[derive(Clone, Copy)]
pub(crate) enum NamedRole {
    Def,
    Early,
    Read,
    Tied,
    Address,
    Value,
    ImpDef,
    ImpRead,
}

/// A role as it is written.
#[derive(Drop)]
pub(crate) enum RawRole {
    /// A role that names nothing.
    Plain(Role),
    /// A role with the name of a class or a register.
    Named(NamedRole, Bytes),
    /// A use that is tied to the definition of a number, with the name of its class.
    Tied(u8, Bytes),
}

/// Several names.
pub(crate) type NameList = List<Bytes>;

/// The name and the version that a `target` line gives.
#[derive(Drop)]
pub(crate) struct Header {
    /// The target's name.
    pub(crate) name: Bytes,
    /// The version of the text, 1 or 2.
    pub(crate) version: u8,
}

/// What a line says, by names. A number above 255 stands as 255, which is above every bound too.
#[derive(Drop)]
pub(crate) enum RawLine {
    /// The target's name and version.
    Target(Header),
    /// A unit.
    Unit(UnitDesc),
    /// A register and its units.
    Reg(Bytes, NameList),
    /// Registers that are reserved.
    Reserved(NameList),
    /// A subregister index.
    Index(IndexDesc),
    /// A class and its registers.
    Class(Bytes, NameList),
    /// A call mask and its registers.
    Mask(Bytes, NameList),
    /// An opcode, its effect and its roles.
    Opcode(Bytes, Effect, List<RawRole>),
    /// Forms of text that are opted in.
    Forms(List<TextForm>),
    /// Words of `target-flags` that are opted in.
    Flags(Words),
}
