//! The opcodes of stores and reloads, and the register that is stored where nothing has a value. Each
//! question is answered on every input: opcode 0 and register 0 stand for what isn't there.

ghost use Rattle.std.specs.Prelude.{◌≡◌, find, option_and_then};
ghost use Rattle.target_base.specs.Registers.{spill_place, reload_place};
ghost use Rattle.target_base.specs.Storage.{is_unreserved};
ghost use Rattle.mir_meaning.specs.Places.{domain};
ghost use Rattle.spiller.specs.Setting.{first_of, opcode};

use target_base::{ClassId, OpId, Reg, Target};

/// The opcode that stores a register of a class: the first spill opcode whose class holds all registers
/// of this one.
pub(crate) fn spill_op(target: &Target, class: Option<ClassId>) -> OpId
    ensures { result ≡ opcode (option_and_then (spill_place target.now) class) }
{
    match class {
        None => OpId(0),
        Some(class) => match target.spill_at(class) {
            None => OpId(0),
            Some(op) => op,
        },
    }
}

/// The opcode that reloads a register of a class: the first reload opcode whose class holds all
/// registers of this one.
pub(crate) fn reload_op(target: &Target, class: Option<ClassId>) -> OpId
    ensures { result ≡ opcode (option_and_then (reload_place target.now) class) }
{
    match class {
        None => OpId(0),
        Some(class) => match target.reload_at(class) {
            None => OpId(0),
            Some(op) => op,
        },
    }
}

/// The first of these registers that isn't reserved.
fn find_unreserved(target: &Target, regs: &[Reg]) -> Option<Reg>
    ensures { result ≡ find (is_unreserved target.now.reserved target.now.regs) regs.now }
{
    regs.iter().copied().find(|r| target.is_unreserved(*r))
}

/// The first unreserved register of a class.
pub(crate) fn first_unreserved(target: &Target, class: Option<ClassId>) -> Reg
    ensures { result ≡ first_of (domain target.now class) }
{
    match class {
        None => Reg(0),
        Some(class) => match find_unreserved(target, target.regs_in(class)) {
            None => Reg(0),
            Some(r) => r,
        },
    }
}
