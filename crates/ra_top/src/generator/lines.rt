//! The lines of instructions.

ghost use Rattle.std.specs.Prelude.{◌≡◌, ◌++◌, OnOk};
ghost use Rattle.ra_top.specs.Generator.Text.{register_line, operation_line, move_line, store_line, instr_line, jump_lines};

use crate::generator::source::{InstrNumbers, Jump};
use crate::numbers::{put, put_numbered};
use std::alloc::AllocError;
use target_base::Bytes;

/// Adds an instruction that gives a register a number.
pub(crate) fn put_register(out: &mut Bytes, v: u64, n: u64) -> Result<(), AllocError>
    ensures { OnOk result (out.new ≡ out.old ++ register_line v n) }
{
    put_numbered(out, "    %", v as u128)?;
    put_numbered(out, ":gr32 = MOV32ri ", n as u128)?;
    put(out, "\n")
}

/// Adds an instruction of two registers.
fn put_operation(out: &mut Bytes, name: &str, d: u64, a: u64, c: u64) -> Result<(), AllocError>
    ensures { OnOk result (out.new ≡ out.old ++ operation_line name.now d a c) }
{
    put_numbered(out, "    %", d as u128)?;
    put(out, " = ")?;
    put(out, name)?;
    put_numbered(out, " %", a as u128)?;
    put_numbered(out, ", %", c as u128)?;
    put(out, ", implicit-def $eflags\n")
}

/// Adds an instruction of one operand.
fn put_move(out: &mut Bytes, name: &str, d: u64, a: u64) -> Result<(), AllocError>
    ensures { OnOk result (out.new ≡ out.old ++ move_line name.now d a) }
{
    put_numbered(out, "    %", d as u128)?;
    put(out, " = ")?;
    put_numbered(out, name, a as u128)?;
    put(out, "\n")
}

/// Adds a store.
fn put_store(out: &mut Bytes, a: u64, c: u64) -> Result<(), AllocError>
    ensures { OnOk result (out.new ≡ out.old ++ store_line a c) }
{
    put_numbered(out, "    STORE32mr %", a as u128)?;
    put_numbered(out, ", 0, %", c as u128)?;
    put(out, "\n")
}

/// Adds an instruction of a block.
pub(crate) fn put_instr(out: &mut Bytes, of: InstrNumbers) -> Result<(), AllocError>
    ensures { OnOk result (out.new ≡ out.old ++ instr_line of) }
{
    match of.kind {
        0 => put_operation(out, "ADD32rr", of.d, of.a, of.c),
        1 => put_operation(out, "SUB32rr", of.d, of.a, of.c),
        2 => put_operation(out, "XOR32rr", of.d, of.a, of.c),
        3 => put_move(out, "MOV32ri ", of.d, of.a),
        4 => put_move(out, "COPY %", of.d, of.a),
        _ => put_store(out, of.a, of.c),
    }
}

/// Adds a comparison and the jump that it decides.
pub(crate) fn put_jump(out: &mut Bytes, of: Jump) -> Result<(), AllocError>
    ensures { OnOk result (out.new ≡ out.old ++ jump_lines of) }
{
    put_numbered(out, "    CMP32rr %", of.a as u128)?;
    put_numbered(out, ", %", of.c as u128)?;
    put_numbered(out, ", implicit-def $eflags\n    JCC %bb.", of.to as u128)?;
    put(out, ", 5, implicit $eflags\n")
}
