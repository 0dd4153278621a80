//! Operands with their roles, and the classes that these ask for. None of the questions takes memory.

ghost use Rattle.std.specs.Prelude.{◌≡◌};
ghost use Rattle.mir_func.specs.Binding.{moving_class};
ghost use Rattle.two_address.specs.Classes.{class_asked, first_register};

use mir_func::RegOp;
use mir_func::opcodes::asked_class;
use phi_elim::phis::located_class;
use target_base::classes::regs_at;
use target_base::registers::is_unreserved;
use target_base::{ClassId, Reg, Role, Target};

/// The class that a role asks of a register; in an `any` role the first class with its lane widths.
pub fn class_asked(
    target: &Target,
    classes: &[Option<ClassId>],
    role: Option<Role>,
    o: RegOp,
) -> Option<ClassId>
    ensures { result ≡ class_asked target.now classes.now role o }
{
    match role {
        None => None,
        Some(Role::Any) => moving_class(target, located_class(classes, o.loc), o),
        Some(r) => asked_class(r),
    }
}

/// The first class with the lane widths that the operand has in its class.
fn moving_class(target: &Target, c: Option<ClassId>, o: RegOp) -> Option<ClassId>
    ensures { result ≡ moving_class target.now c o }
{
    match c {
        None => None,
        Some(c) => target.move_at(c, o.index),
    }
}

/// The first unreserved register of a class.
#[tactic(auto, using(crate::proofs::Seats::finds))]
pub fn first_register(target: &Target, c: Option<ClassId>) -> Option<Reg>
    ensures { result ≡ first_register target.now c }
{
    let (reserved, regs) = (target.reserved.as_slice(), target.regs.as_slice());
    'each: for r in regs_at(target.classes.as_slice(), c) {
        if is_unreserved(reserved, regs, *r) {
            return Some(*r);
        }
    }
    None
}
