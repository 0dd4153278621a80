//! What call masks preserve.

ghost use Rattle.std.specs.Prelude.{◌≡◌};
ghost use Rattle.std.specs.List.{list_any};
ghost use Rattle.target_base.specs.Numbers.{unit_number};
ghost use Rattle.target_base.specs.Registers.{units_of};
ghost use Rattle.target_base.specs.Storage.{is_among};
ghost use Rattle.mir_meaning.specs.Items.{preserves};

use mir_func::Operand;
use target_base::registers::has_unit_number;
use target_base::{Reg, Target};

/// Whether one of these registers has the unit of a number.
pub fn have_unit(target: &Target, regs: &[Reg], u: u32) -> bool
    ensures { result ≡ list_any (λ r. is_among (units_of target.now r) (unit_number u)) regs.now }
{
    regs.iter().any(|r| has_unit_number(target.units_at(*r), u))
}

/// Whether an operand is a mask that preserves a unit.
#[tactic(auto, using(crate::proofs::MaskUnits::mask_preserves))]
fn preserves(target: &Target, operand: &Operand, u: u32) -> bool
    ensures { result ≡ preserves target.now u operand.now }
{
    match operand {
        Operand::Mask(mask) => have_unit(target, target.mask_regs(*mask), u),
        _ => false,
    }
}

/// Whether a mask among the operands preserves a unit.
pub fn is_preserved(target: &Target, operands: &[Operand], u: u32) -> bool
    ensures { result ≡ list_any (preserves target.now u) operands.now }
{
    operands.iter().any(|o| preserves(target, o, u))
}
