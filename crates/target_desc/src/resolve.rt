//! The names of a line, looked up among those that earlier lines declare.

ghost use Rattle.std.specs.Prelude.{◌≡◌, IfOk};
ghost use Rattle.target_desc.specs.Resolving.{unit_named, reg_named, class_named, units_named, regs_named, role_with, role_named, roles_named, resolved, is_new};
ghost use Rattle.word_set.specs.Words.{is_fresh};

use crate::draft::Line;
use crate::names::{DeclaredNames, NameTables};
use crate::raw::{NamedRole, RawLine, RawRole};
use std::alloc::{AllocError, Global};
use target_base::{
    Bytes, ClassDesc, ClassId, List, MaskDesc, OpcodeDesc, Reg, RegDesc, Regs, Role, Roles, Unit,
    UnitList,
};

/// The unit of a name. None where it isn't declared.
fn unit_named(names: &DeclaredNames, word: &[u8]) -> Option<Unit>
    ensures { result ≡ unit_named names.now word.now }
{
    match names.place(word) {
        None => None,
        Some(place) => Some(Unit(place)),
    }
}

/// The register of a name. None where it isn't declared.
fn reg_named(names: &DeclaredNames, word: &[u8]) -> Option<Reg>
    ensures { result ≡ reg_named names.now word.now }
{
    match names.place(word) {
        None => None,
        Some(place) => Some(Reg(place)),
    }
}

/// The class of a name. None where it isn't declared.
fn class_named(names: &DeclaredNames, word: &[u8]) -> Option<ClassId>
    ensures { result ≡ class_named names.now word.now }
{
    match names.place(word) {
        None => None,
        Some(place) => Some(ClassId(place)),
    }
}

/// The units of these names. None where one isn't declared.
fn units_named(
    alloc: Global,
    names: &DeclaredNames,
    words: &[Bytes],
) -> Result<Option<UnitList>, AllocError>
    ensures { IfOk result (λ r. r ≡ units_named names.now words.now) }
{
    let mut made = List::new(alloc);
    for word in words {
        match unit_named(names, word.as_slice()) {
            None => return Ok(None),
            Some(unit) => made.push(unit)?,
        }
    }
    Ok(Some(made))
}

/// The registers of these names. None where one isn't declared.
fn regs_named(
    alloc: Global,
    names: &DeclaredNames,
    words: &[Bytes],
) -> Result<Option<Regs>, AllocError>
    ensures { IfOk result (λ r. r ≡ regs_named names.now words.now) }
{
    let mut made = List::new(alloc);
    for word in words {
        match reg_named(names, word.as_slice()) {
            None => return Ok(None),
            Some(reg) => made.push(reg)?,
        }
    }
    Ok(Some(made))
}

/// A role of this kind with its name looked up. None where the name isn't declared.
#[tactic(auto, unfolding(crate::specs::Resolving::role_with))]
fn role_with(names: &NameTables, kind: NamedRole, word: &[u8]) -> Option<Role>
    ensures { result ≡ role_with names.now kind word.now }
{
    match kind {
        NamedRole::Def => Some(Role::Def(class_named(&names.classes, word)?)),
        NamedRole::Early => Some(Role::Early(class_named(&names.classes, word)?)),
        NamedRole::Read => Some(Role::Read(class_named(&names.classes, word)?)),
        NamedRole::Tied => Some(Role::Tied(class_named(&names.classes, word)?, 0)),
        NamedRole::Address => Some(Role::Address(class_named(&names.classes, word)?)),
        NamedRole::Value => Some(Role::Value(Some(class_named(&names.classes, word)?))),
        NamedRole::ImpDef => Some(Role::ImpDef(reg_named(&names.regs, word)?)),
        NamedRole::ImpRead => Some(Role::ImpRead(reg_named(&names.regs, word)?)),
    }
}

/// The role with its name looked up. None where the name isn't declared.
fn role_named(names: &NameTables, raw: &RawRole) -> Option<Role>
    ensures { result ≡ role_named names.now raw.now }
{
    match raw {
        RawRole::Plain(role) => Some(*role),
        RawRole::Named(kind, word) => role_with(names, *kind, word.as_slice()),
        RawRole::Tied(n, word) => {
            Some(Role::Tied(class_named(&names.classes, word.as_slice())?, *n))
        }
    }
}

/// The roles with their names looked up. None where a name isn't declared.
fn roles_named(
    alloc: Global,
    names: &NameTables,
    raw: &[RawRole],
) -> Result<Option<Roles>, AllocError>
    ensures { IfOk result (λ r. r ≡ roles_named names.now raw.now) }
{
    let mut made = List::new(alloc);
    for role in raw {
        match role_named(names, role) {
            None => return Ok(None),
            Some(role) => made.push(role)?,
        }
    }
    Ok(Some(made))
}

/// The line with its names looked up. None where one isn't declared.
#[tactic(auto, unfolding(crate::specs::Resolving::resolved))]
pub(crate) fn resolve_line(
    alloc: Global,
    names: &NameTables,
    raw: RawLine,
) -> Result<Option<Line>, AllocError>
    ensures { IfOk result (λ r. r ≡ resolved names.now raw) }
{
    match raw {
        RawLine::Target(header) => Ok(Some(Line::Target(header))),
        RawLine::Unit(unit) => Ok(Some(Line::Unit(unit))),
        RawLine::Index(index) => Ok(Some(Line::Index(index))),
        RawLine::Forms(forms) => Ok(Some(Line::Forms(forms))),
        RawLine::Flags(words) => Ok(Some(Line::Flags(words))),
        RawLine::Reg(name, words) => match units_named(alloc, &names.units, words.as_slice())? {
            None => Ok(None),
            Some(units) => Ok(Some(Line::Reg(RegDesc { name, units }))),
        },
        RawLine::Reserved(words) => match regs_named(alloc, &names.regs, words.as_slice())? {
            None => Ok(None),
            Some(regs) => Ok(Some(Line::Reserved(regs))),
        },
        RawLine::Class(name, words) => match regs_named(alloc, &names.regs, words.as_slice())? {
            None => Ok(None),
            Some(regs) => Ok(Some(Line::Class(ClassDesc { name, regs }))),
        },
        RawLine::Mask(name, words) => match regs_named(alloc, &names.regs, words.as_slice())? {
            None => Ok(None),
            Some(regs) => Ok(Some(Line::Mask(MaskDesc { name, regs }))),
        },
        RawLine::Opcode(name, effect, raw) => match roles_named(alloc, names, raw.as_slice())? {
            None => Ok(None),
            Some(roles) => Ok(Some(Line::Opcode(OpcodeDesc {
                name,
                effect,
                roles,
            }))),
        },
    }
}

/// Whether a name isn't declared yet.
#[tactic(auto, using(crate::proofs::Fresh::none_is_fresh, crate::proofs::Fresh::some_is_taken))]
fn is_fresh(names: &DeclaredNames, name: &[u8]) -> bool
    ensures { result ≡ is_fresh names.now name.now }
{
    match names.place(name) {
        None => true,
        Some(_) => false,
    }
}

/// Whether the name that a line declares isn't declared yet.
#[tactic(auto, unfolding(crate::specs::Resolving::is_new))]
pub(crate) fn is_new(names: &NameTables, line: &Line) -> bool
    ensures { result ≡ is_new names.now line.now }
{
    match line {
        Line::Target(_) => true,
        Line::Unit(unit) => is_fresh(&names.units, unit.name.as_slice()),
        Line::Reg(reg) => is_fresh(&names.regs, reg.name.as_slice()),
        Line::Reserved(_) => true,
        Line::Index(index) => is_fresh(&names.indexes, index.name.as_slice()),
        Line::Class(class) => is_fresh(&names.classes, class.name.as_slice()),
        Line::Mask(mask) => is_fresh(&names.masks, mask.name.as_slice()),
        Line::Opcode(opcode) => is_fresh(&names.opcodes, opcode.name.as_slice()),
        Line::Forms(_) => true,
        Line::Flags(_) => true,
    }
}
