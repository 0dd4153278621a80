//! The instructions that lowering makes: COPY and IMPLICIT_DEF. Their ids are given later.

ghost use Rattle.std.specs.Prelude.{◌≡◌, IfOk, [], ◌∷◌};
ghost use Rattle.mir_func.specs.declared.func.Operand.TheVariants as operands;
ghost use Rattle.mir_func.specs.Edits.{made};
ghost use Rattle.phi_elim.specs.Moves.{copy_op, implicit_def_op, whole_definition, whole_use, source_of, destination_of, copy_of, undefining, move_of};

use mir_func::{Instr, Loc, Op, Operand, Operands, RegOp};
use std::alloc::{AllocError, Global};
use target_base::{List, OpId};

/// COPY, the first opcode of every target.
pub const COPY: OpId = OpId(0);

/// IMPLICIT_DEF, the third opcode of every target.
pub const IMPLICIT_DEF: OpId = OpId(2);

/// A definition of a whole virtual register.
pub fn whole_definition(v: u32) -> RegOp
    ensures { result ≡ whole_definition v }
{
    RegOp {
        loc: Loc::Virtual(v),
        index: None,
        def: true,
        implicit: false,
        undef: false,
        early: false,
        renamable: false,
        tie: None,
    }
}

/// A use of a whole virtual register.
pub fn whole_use(v: u32) -> RegOp
    ensures { result ≡ whole_use v }
{
    RegOp {
        def: false,
        ..whole_definition(v)
    }
}

/// The operand as the source of a copy.
pub fn source_of(o: RegOp) -> RegOp
    ensures { result ≡ source_of o }
{
    RegOp {
        loc: o.loc,
        index: o.index,
        undef: o.undef,
        ..whole_use(0)
    }
}

/// The operand as the destination of a copy.
pub fn destination_of(o: RegOp) -> RegOp
    ensures { result ≡ destination_of o }
{
    RegOp {
        loc: o.loc,
        index: o.index,
        ..whole_definition(0)
    }
}

/// An instruction without flags and tail, whose id is still to be given.
pub fn new_instr(alloc: Global, op: OpId, operands: Operands) -> Instr
    ensures { result ≡ made 0 op operands }
{
    Instr {
        id: 0,
        op: Op::Known(op),
        flags: List::new(alloc),
        operands,
        tail: List::new(alloc),
    }
}

/// A copy.
pub fn copy_of(alloc: Global, to: RegOp, from: RegOp) -> Result<Instr, AllocError>
    ensures { IfOk result (λ i. i ≡ copy_of to from) }
{
    let mut operands = Operands::new(alloc);
    operands.push(Operand::Reg(to))?;
    operands.push(Operand::Reg(from))?;
    Ok(new_instr(alloc, COPY, operands))
}

/// An instruction that makes lanes undefined.
pub fn implicit_def_of(alloc: Global, to: RegOp) -> Result<Instr, AllocError>
    ensures { IfOk result (λ i. i ≡ undefining to) }
{
    let mut operands = Operands::new(alloc);
    operands.push(Operand::Reg(to))?;
    Ok(new_instr(alloc, IMPLICIT_DEF, operands))
}

/// What gives `to` the value of an operand: a copy, or nothing of worth where it is `undef`.
pub fn move_of(alloc: Global, to: RegOp, from: RegOp) -> Result<Instr, AllocError>
    ensures { IfOk result (λ i. i ≡ move_of to from) }
{
    if from.undef {
        implicit_def_of(alloc, to)
    } else {
        copy_of(alloc, to, source_of(from))
    }
}
