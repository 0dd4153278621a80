//! The built-in target.

ghost use Rattle.std.specs.Prelude.{◌≡◌, ◌++◌, ◌∷◌, [], map, length, IfOk, codes};
ghost use Rattle.target_base.specs.Mini.{mini_target, no_options, mini_units, mini_regs, mini_reserved, mini_indexes, mini_classes, mini_masks, mini_opcodes};
ghost use Rattle.target_base.specs.Tables.{unit_row, reg_row, index_row, class_row, opcode_row};

use crate::list::List;
use crate::types::{
    Bytes, ClassDesc, ClassDescs, ClassId, Effect, IndexDesc, IndexDescs, MaskDesc, MaskDescs,
    OpcodeDesc, OpcodeDescs, Reg, RegDesc, RegDescs, Role, Target, TextOptions, Unit, UnitDesc,
    UnitDescs, UnitList,
};
use std::alloc::{AllocError, Global};

const GR32: ClassId = ClassId(0);

const GR16: ClassId = ClassId(1);

const GR8: ClassId = ClassId(2);

const LOW: ClassId = ClassId(3);

const GRP: ClassId = ClassId(4);

const EFLAGS: Reg = Reg(18);

static UNITS: [(&str, u8); 16] = [
    ("al", 8),
    ("ah", 8),
    ("hax", 16),
    ("cl", 8),
    ("ch", 8),
    ("hcx", 16),
    ("dl", 8),
    ("dh", 8),
    ("hdx", 16),
    ("bl", 8),
    ("bh", 8),
    ("hbx", 16),
    ("zf", 1),
    ("lf", 1),
    ("bf", 1),
    ("sp", 32),
];

static REGS: [(&str, &[Unit]); 20] = [
    ("eax", &[Unit(0), Unit(1), Unit(2)]),
    ("ecx", &[Unit(3), Unit(4), Unit(5)]),
    ("edx", &[Unit(6), Unit(7), Unit(8)]),
    ("ebx", &[Unit(9), Unit(10), Unit(11)]),
    ("ax", &[Unit(0), Unit(1)]),
    ("cx", &[Unit(3), Unit(4)]),
    ("dx", &[Unit(6), Unit(7)]),
    ("bx", &[Unit(9), Unit(10)]),
    ("al", &[Unit(0)]),
    ("cl", &[Unit(3)]),
    ("dl", &[Unit(6)]),
    ("bl", &[Unit(9)]),
    ("ah", &[Unit(1)]),
    ("ch", &[Unit(4)]),
    ("dh", &[Unit(7)]),
    ("bh", &[Unit(10)]),
    (
        "p0",
        &[Unit(0), Unit(1), Unit(2), Unit(3), Unit(4), Unit(5)],
    ),
    (
        "p1",
        &[Unit(6), Unit(7), Unit(8), Unit(9), Unit(10), Unit(11)],
    ),
    ("eflags", &[Unit(12), Unit(13), Unit(14)]),
    ("sp", &[Unit(15)]),
];

static INDEXES: [(&str, &[u8]); 5] = [
    ("sub_8", &[0]),
    ("sub_8hi", &[1]),
    ("sub_16", &[0, 1]),
    ("sub_lo32", &[0, 1, 2]),
    ("sub_hi32", &[3, 4, 5]),
];

static CLASSES: [(&str, &[Reg]); 5] = [
    ("gr32", &[Reg(0), Reg(1), Reg(2), Reg(3)]),
    ("gr16", &[Reg(4), Reg(5), Reg(6), Reg(7)]),
    (
        "gr8",
        &[
            Reg(8),
            Reg(9),
            Reg(10),
            Reg(11),
            Reg(12),
            Reg(13),
            Reg(14),
            Reg(15),
        ],
    ),
    ("low", &[Reg(0), Reg(1)]),
    ("grp", &[Reg(16), Reg(17)]),
];

static OPCODES: [(&str, Effect, &[Role]); 53] = [
    ("COPY", Effect::Copy, &[]),
    ("PHI", Effect::Phi, &[]),
    ("IMPLICIT_DEF", Effect::ImplicitDef, &[]),
    ("REG_SEQUENCE", Effect::RegSequence, &[]),
    ("INSERT_SUBREG", Effect::InsertSubreg, &[]),
    ("MOV32ri", Effect::Const, &[Role::Def(GR32), Role::Imm]),
    ("MOV16ri", Effect::Const, &[Role::Def(GR16), Role::Imm]),
    ("MOV8ri", Effect::Const, &[Role::Def(GR8), Role::Imm]),
    ("LEA32fi", Effect::Addr, &[Role::Def(GR32), Role::Frame]),
    ("LEA32g", Effect::Addr, &[Role::Def(GR32), Role::Sym]),
    (
        "ADD32rr",
        Effect::Add,
        &[
            Role::Def(GR32),
            Role::Tied(GR32, 0),
            Role::Read(GR32),
            Role::ImpDef(EFLAGS),
        ],
    ),
    (
        "SUB32rr",
        Effect::Sub,
        &[
            Role::Def(GR32),
            Role::Tied(GR32, 0),
            Role::Read(GR32),
            Role::ImpDef(EFLAGS),
        ],
    ),
    (
        "IMUL32rr",
        Effect::Mul,
        &[
            Role::Def(GR32),
            Role::Tied(GR32, 0),
            Role::Read(GR32),
            Role::ImpDef(EFLAGS),
        ],
    ),
    (
        "AND32rr",
        Effect::And,
        &[
            Role::Def(GR32),
            Role::Tied(GR32, 0),
            Role::Read(GR32),
            Role::ImpDef(EFLAGS),
        ],
    ),
    (
        "OR32rr",
        Effect::Or,
        &[
            Role::Def(GR32),
            Role::Tied(GR32, 0),
            Role::Read(GR32),
            Role::ImpDef(EFLAGS),
        ],
    ),
    (
        "XOR32rr",
        Effect::Xor,
        &[
            Role::Def(GR32),
            Role::Tied(GR32, 0),
            Role::Read(GR32),
            Role::ImpDef(EFLAGS),
        ],
    ),
    (
        "ADD32ri",
        Effect::Add,
        &[
            Role::Def(GR32),
            Role::Tied(GR32, 0),
            Role::Imm,
            Role::ImpDef(EFLAGS),
        ],
    ),
    (
        "SUB32ri",
        Effect::Sub,
        &[
            Role::Def(GR32),
            Role::Tied(GR32, 0),
            Role::Imm,
            Role::ImpDef(EFLAGS),
        ],
    ),
    (
        "AND32ri",
        Effect::And,
        &[
            Role::Def(GR32),
            Role::Tied(GR32, 0),
            Role::Imm,
            Role::ImpDef(EFLAGS),
        ],
    ),
    (
        "SHL32ri",
        Effect::Shl,
        &[
            Role::Def(GR32),
            Role::Tied(GR32, 0),
            Role::Imm,
            Role::ImpDef(EFLAGS),
        ],
    ),
    (
        "SHR32ri",
        Effect::Shr,
        &[
            Role::Def(GR32),
            Role::Tied(GR32, 0),
            Role::Imm,
            Role::ImpDef(EFLAGS),
        ],
    ),
    (
        "SAR32ri",
        Effect::Sar,
        &[
            Role::Def(GR32),
            Role::Tied(GR32, 0),
            Role::Imm,
            Role::ImpDef(EFLAGS),
        ],
    ),
    (
        "NEG32r",
        Effect::Neg,
        &[Role::Def(GR32), Role::Tied(GR32, 0), Role::ImpDef(EFLAGS)],
    ),
    (
        "NOT32r",
        Effect::Not,
        &[Role::Def(GR32), Role::Tied(GR32, 0)],
    ),
    (
        "ADD8rr",
        Effect::Add,
        &[
            Role::Def(GR8),
            Role::Tied(GR8, 0),
            Role::Read(GR8),
            Role::ImpDef(EFLAGS),
        ],
    ),
    (
        "SUB8rr",
        Effect::Sub,
        &[
            Role::Def(GR8),
            Role::Tied(GR8, 0),
            Role::Read(GR8),
            Role::ImpDef(EFLAGS),
        ],
    ),
    (
        "UDIV32rr",
        Effect::Udiv,
        &[
            Role::Early(GR32),
            Role::Read(GR32),
            Role::Read(GR32),
            Role::ImpDef(EFLAGS),
        ],
    ),
    (
        "UREM32rr",
        Effect::Urem,
        &[
            Role::Early(GR32),
            Role::Read(GR32),
            Role::Read(GR32),
            Role::ImpDef(EFLAGS),
        ],
    ),
    (
        "MADD32",
        Effect::Madd,
        &[
            Role::Def(GR32),
            Role::Read(LOW),
            Role::Read(LOW),
            Role::Read(LOW),
            Role::ImpDef(EFLAGS),
        ],
    ),
    (
        "MLA32",
        Effect::Madd,
        &[
            Role::Def(GR32),
            Role::Read(GR32),
            Role::Read(LOW),
            Role::Read(LOW),
            Role::ImpDef(EFLAGS),
        ],
    ),
    (
        "MOVZX32r8",
        Effect::Zext,
        &[Role::Def(GR32), Role::Read(GR8)],
    ),
    (
        "MOVSX32r8",
        Effect::Sext,
        &[Role::Def(GR32), Role::Read(GR8)],
    ),
    (
        "CMP32rr",
        Effect::Cmp,
        &[Role::Read(GR32), Role::Read(GR32), Role::ImpDef(EFLAGS)],
    ),
    (
        "CMP32ri",
        Effect::Cmp,
        &[Role::Read(GR32), Role::Imm, Role::ImpDef(EFLAGS)],
    ),
    (
        "CMP8rr",
        Effect::Cmp,
        &[Role::Read(GR8), Role::Read(GR8), Role::ImpDef(EFLAGS)],
    ),
    (
        "LOAD32rm",
        Effect::Load(1),
        &[Role::Def(GR32), Role::Address(GR32), Role::Imm],
    ),
    (
        "LOAD8rm",
        Effect::Load(1),
        &[Role::Def(GR8), Role::Address(GR32), Role::Imm],
    ),
    (
        "STORE32mr",
        Effect::Store(1),
        &[Role::Address(GR32), Role::Imm, Role::Read(GR32)],
    ),
    (
        "STORE8mr",
        Effect::Store(1),
        &[Role::Address(GR32), Role::Imm, Role::Read(GR8)],
    ),
    ("JMP", Effect::Jump, &[Role::Target]),
    (
        "JCC",
        Effect::Jcc,
        &[Role::Target, Role::Imm, Role::ImpRead(EFLAGS)],
    ),
    ("JNZ32", Effect::Jnz, &[Role::Read(GR32), Role::Target]),
    ("CALL", Effect::Call, &[Role::Sym, Role::Mask, Role::Rest]),
    ("RET", Effect::Ret, &[Role::Rest]),
    ("NOP", Effect::Marker, &[Role::Any]),
    (
        "SPILL32",
        Effect::Spill,
        &[Role::Read(GR32), Role::Slot, Role::Lanes],
    ),
    (
        "SPILL16",
        Effect::Spill,
        &[Role::Read(GR16), Role::Slot, Role::Lanes],
    ),
    (
        "SPILL8",
        Effect::Spill,
        &[Role::Read(GR8), Role::Slot, Role::Lanes],
    ),
    (
        "SPILL64",
        Effect::Spill,
        &[Role::Read(GRP), Role::Slot, Role::Lanes],
    ),
    (
        "RELOAD32",
        Effect::Reload,
        &[Role::Def(GR32), Role::Slot, Role::Lanes],
    ),
    (
        "RELOAD16",
        Effect::Reload,
        &[Role::Def(GR16), Role::Slot, Role::Lanes],
    ),
    (
        "RELOAD8",
        Effect::Reload,
        &[Role::Def(GR8), Role::Slot, Role::Lanes],
    ),
    (
        "RELOAD64",
        Effect::Reload,
        &[Role::Def(GRP), Role::Slot, Role::Lanes],
    ),
];

fn bytes(alloc: Global, text: &str) -> Result<Bytes, AllocError>
    ensures { IfOk result (λ b. b ≡ text.now) }
{
    List::from_slice(alloc, text.as_bytes())
}

fn units(alloc: Global, rows: &[(&str, u8)]) -> Result<UnitDescs, AllocError>
    ensures { IfOk result (λ made. made ≡ map unit_row rows.now) }
{
    let mut made = List::new(alloc);
    for row in rows {
        made.push(UnitDesc {
            name: bytes(alloc, row.0)?,
            width: row.1,
        })?;
    }
    Ok(made)
}

fn regs(alloc: Global, rows: &[(&str, &[Unit])]) -> Result<RegDescs, AllocError>
    ensures { IfOk result (λ made. made ≡ map reg_row rows.now) }
{
    let mut made = List::new(alloc);
    for row in rows {
        made.push(RegDesc {
            name: bytes(alloc, row.0)?,
            units: List::from_slice(alloc, row.1)?,
        })?;
    }
    Ok(made)
}

fn indexes(alloc: Global, rows: &[(&str, &[u8])]) -> Result<IndexDescs, AllocError>
    ensures { IfOk result (λ made. made ≡ map index_row rows.now) }
{
    let mut made = List::new(alloc);
    for row in rows {
        made.push(IndexDesc {
            name: bytes(alloc, row.0)?,
            lanes: List::from_slice(alloc, row.1)?,
        })?;
    }
    Ok(made)
}

fn classes(alloc: Global, rows: &[(&str, &[Reg])]) -> Result<ClassDescs, AllocError>
    ensures { IfOk result (λ made. made ≡ map class_row rows.now) }
{
    let mut made = List::new(alloc);
    for row in rows {
        made.push(ClassDesc {
            name: bytes(alloc, row.0)?,
            regs: List::from_slice(alloc, row.1)?,
        })?;
    }
    Ok(made)
}

fn opcodes(alloc: Global, rows: &[(&str, Effect, &[Role])]) -> Result<OpcodeDescs, AllocError>
    ensures { IfOk result (λ made. made ≡ map opcode_row rows.now) }
{
    let mut made = List::new(alloc);
    for row in rows {
        made.push(OpcodeDesc {
            name: bytes(alloc, row.0)?,
            effect: row.1,
            roles: List::from_slice(alloc, row.2)?,
        })?;
    }
    Ok(made)
}

fn mini_units(alloc: Global) -> Result<UnitDescs, AllocError>
    ensures { IfOk result (λ made. made ≡ mini_units) }
{
    units(alloc, &UNITS)
}

fn mini_regs(alloc: Global) -> Result<RegDescs, AllocError>
    ensures { IfOk result (λ made. made ≡ mini_regs) }
{
    regs(alloc, &REGS)
}

fn mini_indexes(alloc: Global) -> Result<IndexDescs, AllocError>
    ensures { IfOk result (λ made. made ≡ mini_indexes) }
{
    indexes(alloc, &INDEXES)
}

fn mini_classes(alloc: Global) -> Result<ClassDescs, AllocError>
    ensures { IfOk result (λ made. made ≡ mini_classes) }
{
    classes(alloc, &CLASSES)
}

fn mini_masks(alloc: Global) -> Result<MaskDescs, AllocError>
    ensures { IfOk result (λ made. made ≡ mini_masks) }
{
    let mut masks = List::new(alloc);
    masks.push(MaskDesc {
        name: bytes(alloc, "csr")?,
        regs: List::from_slice(alloc, &[Reg(3)])?,
    })?;
    Ok(masks)
}

fn mini_opcodes(alloc: Global) -> Result<OpcodeDescs, AllocError>
    ensures { IfOk result (λ made. made ≡ mini_opcodes) }
{
    opcodes(alloc, &OPCODES)
}

fn mini_name(alloc: Global) -> Result<Bytes, AllocError>
    ensures { IfOk result (λ made. made ≡ codes "mini") }
{
    bytes(alloc, "mini")
}

fn mini_reserved(alloc: Global) -> Result<UnitList, AllocError>
    ensures { IfOk result (λ made. made ≡ mini_reserved) }
{
    List::from_slice(alloc, &[Unit(15)])
}

/// Nothing is opted in.
pub fn no_options(alloc: Global) -> TextOptions
    ensures { result ≡ no_options }
{
    TextOptions {
        offsets: false,
        pool: false,
        noreg: false,
        open_blocks: false,
        flags: List::new(alloc),
    }
}

/// The built-in target `mini`: a small machine of 32 bits with four general registers, whose parts
/// of 8 and 16 bits and pairs of 64 bits are registers too.
#[tactic(auto, unfolding(crate::specs::Mini::mini_target))]
pub fn mini(alloc: Global) -> Result<Target, AllocError>
    ensures { IfOk result (λ t. t ≡ mini_target) }
{
    Ok(Target {
        name: mini_name(alloc)?,
        version: 1,
        units: mini_units(alloc)?,
        regs: mini_regs(alloc)?,
        reserved: mini_reserved(alloc)?,
        indexes: mini_indexes(alloc)?,
        classes: mini_classes(alloc)?,
        masks: mini_masks(alloc)?,
        opcodes: mini_opcodes(alloc)?,
        options: no_options(alloc),
    })
}
