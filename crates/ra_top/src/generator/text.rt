//! The text of the generated function, line by line.

ghost use Rattle.std.specs.Prelude.{◌≡◌, ◌≤◌, ◌++◌, length, OnOk, IfOk};
ghost use Rattle.ra_top.specs.Generator.Text.{register_lines, behind_registers, instr_lines, behind_instrs, block_lines, behind_block, blocks_lines, behind_blocks, generated_text};

use crate::generator::lines::{put_instr, put_jump, put_register};
use crate::generator::source::{BLOCKS, NumberSource, REGISTERS};
use crate::numbers::{put, put_numbered};
use std::alloc::{AllocError, Global};
use target_base::Bytes;

/// The number of instructions of a block before its comparison.
const INSTRS: u64 = 12;

/// Adds instructions that give each register a number.
fn put_registers(out: &mut Bytes, source: &mut NumberSource) -> Result<(), AllocError>
    ensures { OnOk result ((out.new ≡ out.old ++ register_lines 24 source.old.x) × (source.new.x ≡ behind_registers 24 source.old.x)) }
{
    'registers: for v in 0..REGISTERS {
        put_register(out, v, source.draw(1000))?;
    }
    Ok(())
}

/// Adds the instructions of a block.
fn put_instrs(out: &mut Bytes, source: &mut NumberSource) -> Result<(), AllocError>
    ensures { OnOk result ((out.new ≡ out.old ++ instr_lines 12 source.old.x) × (source.new.x ≡ behind_instrs 12 source.old.x)) }
{
    'instrs: for _k in 0..INSTRS {
        put_instr(out, source.instr())?;
    }
    Ok(())
}

/// Adds a block of a number.
fn put_block(out: &mut Bytes, b: u64, source: &mut NumberSource) -> Result<(), AllocError>
    ensures { OnOk result ((out.new ≡ out.old ++ block_lines b source.old.x) × (source.new.x ≡ behind_block source.old.x)) }
{
    put_numbered(out, "  bb.", b as u128)?;
    put(out, ":\n")?;
    put_instrs(out, source)?;
    put_jump(out, source.jump())
}

/// Adds the blocks between the first and the last.
fn put_blocks(out: &mut Bytes, source: &mut NumberSource) -> Result<(), AllocError>
    ensures { OnOk result (out.new ≡ out.old ++ blocks_lines 400 source.old.x) }
{
    'layout: for b in 0..BLOCKS {
        put_block(out, b + 1, source)?;
    }
    Ok(())
}

/// The text of the function that is generated for a seed.
pub fn generated_text(alloc: Global, seed: u64) -> Result<Bytes, AllocError>
    ensures text { IfOk result (λ text. text ≡ generated_text seed) }
    ensures short { IfOk result (λ text. length text ≤ 4194304) }
{
    let mut source = NumberSource { x: seed };
    let mut out = Bytes::new(alloc);
    put(&mut out, "---\nname: g\nbody: |\n  bb.0:\n")?;
    put_registers(&mut out, &mut source)?;
    put_blocks(&mut out, &mut source)?;
    put(
        &mut out,
        "  bb.401:\n    $eax = COPY %0\n    RET implicit $eax\n...\n",
    )?;
    Ok(out)
}
