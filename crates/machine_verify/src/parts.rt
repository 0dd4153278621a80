//! The registers among the operands of an instruction.

ghost use Rattle.std.specs.Prelude.{◌≡◌, IfOk};
ghost use Rattle.mir_func.specs.Binding as binding;

use mir_func::{Operand, RegOp};
use std::alloc::{AllocError, Global};

/// The register operands, in order.
pub(crate) fn registers(alloc: Global, operands: &[Operand]) -> Result<Vec<RegOp>, AllocError>
    ensures { IfOk result (λ made. made.items ≡ binding.registers operands.now) }
{
    let mut made = Vec::new(alloc);
    for o in operands {
        if let Operand::Reg(r) = o {
            made.push(*r)?;
        }
    }
    Ok(made)
}

/// The implicit register operands, in order.
pub(crate) fn implicit_registers(
    alloc: Global,
    operands: &[Operand],
) -> Result<Vec<RegOp>, AllocError>
    ensures { IfOk result (λ made. made.items ≡ binding.implicit_registers operands.now) }
{
    let mut made = Vec::new(alloc);
    for o in operands {
        if let Operand::Reg(r) = o {
            if r.implicit {
                made.push(*r)?;
            }
        }
    }
    Ok(made)
}
