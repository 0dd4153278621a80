//! Which of the rewritings applies to an instruction.

ghost use Rattle.std.specs.Prelude.{◌≡◌, slice_get};
ghost use Rattle.std.specs.Option.{option_to_list};
ghost use Rattle.target_base.specs.Rules.{is_copy, is_reg_sequence, is_insert_subreg};
ghost use Rattle.two_address.specs.Lowered.{virtual_in, copy_form, sequence_form, insertion_form, part_of_two, form_of};

use crate::sequences::{SubregInput, part_of};
use mir_func::opcodes::effect_of;
use mir_func::operands::register_at;
use mir_func::{Instr, Loc, Operand, RegOp};
use target_base::{Effect, Target};

/// The rewriting that an instruction asks for.
#[derive(Clone, Copy)]
pub enum InstrLowering {
    /// COPY to the first operand from the second.
    Copy(RegOp, RegOp),
    /// REG_SEQUENCE into a virtual register.
    Sequence(u32),
    /// INSERT_SUBREG into a virtual register of a part into the operand.
    Insertion(u32, RegOp, SubregInput),
    /// Any other instruction.
    Other,
}

/// The number of a virtual register.
fn virtual_in(o: Option<RegOp>) -> Option<u32>
    ensures { result ≡ virtual_in o }
{
    match o {
        None => None,
        Some(o) => match o.loc {
            Loc::Virtual(v) => Some(v),
            Loc::Fixed(_) => None,
        },
    }
}

fn copy_form(to: Option<RegOp>, from: Option<RegOp>) -> InstrLowering
    ensures { result ≡ copy_form to from }
{
    match to {
        None => InstrLowering::Other,
        Some(d) => match from {
            None => InstrLowering::Other,
            Some(s) => InstrLowering::Copy(d, s),
        },
    }
}

fn sequence_form(v: Option<u32>) -> InstrLowering
    ensures { result ≡ sequence_form v }
{
    match v {
        None => InstrLowering::Other,
        Some(v) => InstrLowering::Sequence(v),
    }
}

fn insertion_form(v: Option<u32>, a: Option<RegOp>, p: Option<SubregInput>) -> InstrLowering
    ensures { result ≡ insertion_form v a (option_to_list p) }
{
    match v {
        None => InstrLowering::Other,
        Some(v) => match a {
            None => InstrLowering::Other,
            Some(a) => match p {
                None => InstrLowering::Other,
                Some(p) => InstrLowering::Insertion(v, a, p),
            },
        },
    }
}

/// The part that the third and the fourth operand make.
fn inserted_part(operands: &[Operand]) -> Option<SubregInput>
    ensures { option_to_list result ≡ part_of_two (slice_get operands.now 2) (slice_get operands.now 3) }
{
    match operands.get(2) {
        None => None,
        Some(a) => match operands.get(3) {
            None => None,
            Some(b) => part_of(a, b),
        },
    }
}

/// Which of the rewritings applies.
pub fn form_of(target: &Target, i: &Instr) -> InstrLowering
    ensures { result ≡ form_of target.now i.now }
{
    let operands = i.operands.as_slice();
    let first = register_at(operands, 0);
    match effect_of(target, i) {
        Some(Effect::Copy) => copy_form(first, register_at(operands, 1)),
        Some(Effect::RegSequence) => sequence_form(virtual_in(first)),
        Some(Effect::InsertSubreg) => insertion_form(
            virtual_in(first),
            register_at(operands, 1),
            inserted_part(operands),
        ),
        _ => InstrLowering::Other,
    }
}
