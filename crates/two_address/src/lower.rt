//! The pass over a function.

ghost use Rattle.std.specs.Prelude.{◌≡◌, ◌<◌, ◌≤◌, ◌+◌, ◌*◌, ◌^◌, ◌++◌, ◌∷◌, [], OnOk, IfOk, length, drop, flat_map};
ghost use Rattle.mir_func.specs.declared.func.Loc.TheVariants as locs;
ghost use Rattle.phi_elim.specs.Bulk.{bulk, operand_count};
ghost use Rattle.phi_elim.specs.Numbered.{instr_count};
ghost use Rattle.phi_elim.specs.Phis.{all_instrs, located_class};
ghost use Rattle.two_address.specs.Sequences.{parts_of, is_input, sequence_lowered};
ghost use Rattle.two_address.specs.Ties.{copy_lowered};
ghost use Rattle.two_address.specs.Lowered.{form_lowered, form_classes, instr_lowered, instr_classes, next_range, instrs_lowered, classes_made, blocks_lowered, ties_lowered, class_aside, class_if};

use crate::forms::{InstrLowering, form_of};
use crate::sequences::{Registers, insertion_lowered, is_input, parts_of, sequence_lowered};
use crate::ties::{Tie, copy_lowered, definition_class, push_tied, push_undefined, ties_in};
use mir_func::opcodes::roles_of;
use mir_func::{Block, Blocks, Func, Instr, Loc, NoPhi, RegOp};
use phi_elim::amount::bulk_of;
use phi_elim::ids::number_blocks;
use phi_elim::phis::located_class;
use std::alloc::{AllocError, Global};
use target_base::{Boxed, BoxedList, ClassId, Role, Target};

/// The greatest bulk of a function of which something is promised.
const MOST: u64 = 1 << 27;

/// The function in lowered form (LLVM's `TwoAddressInstructionPass`). A tied use becomes the register
/// and index of its definition, behind a copy where it isn't that already; where another operand reads
/// the defined register, a fresh one stands in for it, with a copy behind. REG_SEQUENCE and
/// INSERT_SUBREG become copies of parts. Before an `undef` definition all of its register is made
/// undefined; a copy of an `undef` operand becomes an IMPLICIT_DEF; any other `undef` use of a virtual
/// register that isn't tied becomes one of the first unreserved register of its class. Ids are given anew.
///
/// The answer has at most 8 times the bulk. A function whose bulk is more than 2^27 is answered as it is.
pub fn lower_tied(alloc: Global, target: &Target, f: NoPhi) -> Result<Func, AllocError>
    ensures value { bulk f.func ≤ 2 ^ 27 → IfOk result (λ g. g ≡ ties_lowered target.now f.func) }
    ensures bulk { IfOk result (λ g. bulk g ≤ 8 * bulk f.func) }
{
    let f = f.func;
    if bulk_of(&f) > MOST {
        return Ok(f);
    }
    lower_function(alloc, target, f)
}

/// The function in lowered form, where its bulk is at most 2^27.
fn lower_function(alloc: Global, target: &Target, f: Func) -> Result<Func, AllocError>
    requires { bulk f ≤ 2 ^ 27 }
    ensures value { IfOk result (λ g. g ≡ ties_lowered target.now f) }
    ensures bulk { IfOk result (λ g. bulk g ≤ 8 * bulk f) }
{
    let Func {
        name,
        head,
        mut classes,
        frames,
        mut blocks,
        ..
    } = f;
    let made = lower_blocks(alloc, target, classes.as_slice(), &mut blocks)?;
    classes.extend(made.as_slice())?;
    let next_id = number_blocks(&mut blocks);
    Ok(Func {
        name,
        head,
        classes,
        frames,
        blocks,
        next_id,
    })
}

/// Lowers all blocks, and answers the classes of the registers that were needed.
fn lower_blocks(
    alloc: Global,
    target: &Target,
    classes: &[Option<ClassId>],
    blocks: &mut Blocks,
) -> Result<Vec<Option<ClassId>>, AllocError>
    requires { length classes.now + instr_count blocks.old + operand_count (all_instrs blocks.old) < 2 ^ 32 }
    ensures blocks { OnOk result (blocks.new ≡ blocks_lowered target.now classes.now (length classes.now) blocks.old) }
    ensures classes { IfOk result (λ made. made.items ≡ classes_made target.now classes.now (length classes.now) (all_instrs blocks.old)) }
{
    let mut made = Vec::new(alloc);
    'layout: for k in 0..blocks.len() {
        lower_block(alloc, target, classes, &mut made, blocks.get_mut(k))?;
    }
    Ok(made)
}

/// Lowers a block; the classes of the registers that are needed stand behind those `made` before.
fn lower_block(
    alloc: Global,
    target: &Target,
    classes: &[Option<ClassId>],
    made: &mut Vec<Option<ClassId>>,
    block: &mut Block,
) -> Result<(), AllocError>
    requires { length classes.now + length made.old.items + length block.old.instrs + operand_count block.old.instrs < 2 ^ 32 }
    ensures block { OnOk result (block.new ≡ record block.old { instrs = instrs_lowered target.now classes.now (length classes.now + length made.old.items) block.old.instrs }) }
    ensures classes { OnOk result (made.new.items ≡ made.old.items ++ classes_made target.now classes.now (length classes.now + length made.old.items) block.old.instrs) }
{
    let out = lower_instrs(alloc, target, classes, made, block.instrs.as_slice())?;
    block.instrs = BoxedList::from_items(alloc, out)?;
    Ok(())
}

/// What becomes of instructions; the classes of the registers that are needed stand behind those
/// `made` before.
fn lower_instrs(
    alloc: Global,
    target: &Target,
    classes: &[Option<ClassId>],
    made: &mut Vec<Option<ClassId>>,
    instrs: &[Boxed<Instr>],
) -> Result<Vec<Instr>, AllocError>
    requires { length classes.now + length made.old.items + length instrs.now + operand_count instrs.now < 2 ^ 32 }
    ensures instrs { IfOk result (λ out. out.items ≡ instrs_lowered target.now classes.now (length classes.now + length made.old.items) instrs.now) }
    ensures classes { OnOk result (made.new.items ≡ made.old.items ++ classes_made target.now classes.now (length classes.now + length made.old.items) instrs.now) }
{
    let mut out = Vec::new(alloc);
    'each: for i in instrs {
        let i = i.get();
        push_instr(alloc, target, classes, made, i, &mut out)?;
    }
    Ok(out)
}

/// Puts what becomes of an instruction behind the others.
fn push_instr(
    alloc: Global,
    target: &Target,
    classes: &[Option<ClassId>],
    made: &mut Vec<Option<ClassId>>,
    i: &Instr,
    out: &mut Vec<Instr>,
) -> Result<(), AllocError>
    requires { length classes.now + length made.old.items + length i.now.operands < 2 ^ 32 }
    ensures out { OnOk result (out.new.items ≡ out.old.items ++ instr_lowered target.now classes.now (length classes.now + length made.old.items) i.now) }
    ensures classes { OnOk result (made.new.items ≡ made.old.items ++ instr_classes target.now classes.now (length classes.now + length made.old.items) i.now) }
{
    let registers = Registers {
        target,
        classes,
        next: (classes.len() + made.len()) as u32,
    };
    push_undefined(alloc, i.operands.as_slice(), out)?;
    push_form(alloc, &registers, form_of(target, i), i, made, out)
}

/// Puts what becomes of an instruction of a form behind the others.
fn push_form(
    alloc: Global,
    registers: &Registers,
    form: InstrLowering,
    i: &Instr,
    made: &mut Vec<Option<ClassId>>,
    out: &mut Vec<Instr>,
) -> Result<(), AllocError>
    requires { registers.now.next + length i.now.operands < 2 ^ 32 }
    ensures out { OnOk result (out.new.items ≡ out.old.items ++ form_lowered registers.now.target.now registers.now.classes.now registers.now.next i.now form) }
    ensures classes { OnOk result (made.new.items ≡ made.old.items ++ form_classes registers.now.target.now registers.now.classes.now registers.now.next i.now form) }
{
    match form {
        InstrLowering::Copy(d, s) => push_copy(alloc, i, d, s, out),
        InstrLowering::Sequence(v) => push_sequence(alloc, registers, v, i, made, out),
        InstrLowering::Insertion(v, a, p) => {
            push_class_if(
                made,
                is_input(v, &[p]),
                located_class(registers.classes, Loc::Virtual(v)),
            )?;
            let mut instrs = insertion_lowered(alloc, registers.next, i, v, a, p)?;
            out.append(&mut instrs)?;
            Ok(())
        }
        InstrLowering::Other => {
            let (target, classes) = (registers.target, registers.classes);
            let ties = ties_in(alloc, target, registers.next, i)?;
            push_classes_aside(made, roles_of(target, i), ties.as_slice())?;
            push_tied(alloc, target, classes, ties.as_slice(), i, out)
        }
    }
}

/// Puts what becomes of a copy behind the others.
fn push_copy(
    alloc: Global,
    i: &Instr,
    d: RegOp,
    s: RegOp,
    out: &mut Vec<Instr>,
) -> Result<(), AllocError>
    ensures { OnOk result (out.new.items ≡ out.old.items ++ copy_lowered i.now d s ∷ []) }
{
    out.push(copy_lowered(alloc, i, d, s)?)?;
    Ok(())
}

/// Puts what becomes of a REG_SEQUENCE into register `v` behind the others.
fn push_sequence(
    alloc: Global,
    registers: &Registers,
    v: u32,
    i: &Instr,
    made: &mut Vec<Option<ClassId>>,
    out: &mut Vec<Instr>,
) -> Result<(), AllocError>
    ensures out { OnOk result (out.new.items ≡ out.old.items ++ sequence_lowered registers.now.target.now registers.now.classes.now registers.now.next i.now v (parts_of (drop 1 i.now.operands))) }
    ensures classes { OnOk result (made.new.items ≡ made.old.items ++ class_if (is_input (locs.Virtual v) (parts_of (drop 1 i.now.operands))) (located_class registers.now.classes.now (locs.Virtual v))) }
{
    let operands = i.operands.as_slice();
    let parts = parts_of(alloc, &operands[operands.len().min(1)..])?;
    push_class_if(
        made,
        is_input(v, parts.as_slice()),
        located_class(registers.classes, Loc::Virtual(v)),
    )?;
    let mut instrs = sequence_lowered(alloc, registers, i, v, parts.as_slice())?;
    out.append(&mut instrs)?;
    Ok(())
}

/// Puts a class behind the others, where it is asked for.
fn push_class_if(
    made: &mut Vec<Option<ClassId>>,
    asked: bool,
    class: Option<ClassId>,
) -> Result<(), AllocError>
    ensures { OnOk result (made.new.items ≡ made.old.items ++ class_if asked class) }
{
    if asked {
        made.push(class)?;
    }
    Ok(())
}

/// Puts the classes of the registers that stand in for definitions behind the others, where these
/// are the roles of the opcode.
fn push_classes_aside(
    made: &mut Vec<Option<ClassId>>,
    roles: &[Role],
    ties: &[Tie],
) -> Result<(), AllocError>
    ensures { OnOk result (made.new.items ≡ made.old.items ++ flat_map (class_aside roles.now) ties.now) }
{
    'each: for tie in ties {
        push_class_if(
            made,
            tie.aside.is_some(),
            definition_class(roles, tie.number),
        )?;
    }
    Ok(())
}
