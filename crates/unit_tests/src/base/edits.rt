//! The edits of a function and the order of ids.

ghost use Rattle.std.specs.Prelude.{◌≡◌, IfOk, length, []};
ghost use Rattle.mir_func.specs.Edits.{HasBlock};

use mir_func::{Block, Func, Gap, Loc, Operand, Operands, RegOp, ShortList};
use slot_index::Slots;
use std::alloc::{AllocError, Global};
use std::test::Fail;
use target_base::{BoxedList, ClassId, List, OpId, Reg};

fn register(loc: Loc, def: bool) -> RegOp {
    RegOp {
        loc,
        index: None,
        def,
        implicit: false,
        undef: false,
        early: false,
        renamable: false,
        tie: None,
    }
}

fn one_operand(alloc: Global, r: RegOp) -> Result<Operands, AllocError> {
    let mut operands: Operands = ShortList::new(alloc);
    operands.push(Operand::Reg(r))?;
    Ok(operands)
}

fn empty_block(alloc: Global) -> Block
    ensures number { result.number ≡ 7 }
    ensures empty { result.instrs ≡ [] }
{
    Block {
        number: 7,
        name: List::new(alloc),
        attributes: List::new(alloc),
        successors: List::new(alloc),
        liveins: List::new(alloc),
        instrs: BoxedList::new(alloc),
    }
}

/// A function of one empty block with number 7.
fn empty_function(alloc: Global) -> Result<Func, AllocError>
    ensures { IfOk result (λ f. HasBlock f 7 × (f.next_id ≡ 0) × (length f.classes ≡ 0)) }
{
    let mut blocks = List::new(alloc);
    blocks.push(empty_block(alloc))?;
    Ok(Func {
        name: List::new(alloc),
        head: List::new(alloc),
        classes: List::new(alloc),
        frames: List::new(alloc),
        blocks,
        next_id: 0,
    })
}

/// The number of instructions of the first block.
fn instr_count(f: &Func) -> usize {
    match f.blocks.as_slice().first() {
        None => 0,
        Some(b) => b.instrs.len(),
    }
}

/// Whether the first operand of the first instruction is this register.
fn begins_with(f: &Func, loc: Loc) -> bool {
    let Some(block) = f.blocks.as_slice().first() else {
        return false;
    };
    let Some(instr) = block.instrs.as_slice().first() else {
        return false;
    };
    match instr.get().operands.as_slice().first() {
        Some(Operand::Reg(r)) => r.loc == loc,
        _ => false,
    }
}

#[test]
fn edits_a_function(rt: HostRuntime) -> Result<(), Fail> {
    let alloc = rt.alloc();
    let mut f = empty_function(alloc)?;
    let gap = Gap {
        block: 7,
        before: None,
    };
    let operands = one_operand(alloc, register(Loc::Virtual(0), true))?;
    assert_eq!(rt; f.insert(gap, OpId(5), operands)?, 0);
    assert!(rt; begins_with(&f, Loc::Virtual(0)));
    f.rename(0, 0, register(Loc::Fixed(Reg(1)), true));
    assert!(rt; begins_with(&f, Loc::Fixed(Reg(1))));
    let copy = f.copy(alloc)?;
    f.delete(0);
    assert_eq!(rt; instr_count(&f), 0);
    assert_eq!(rt; instr_count(&copy), 1);
    Ok(())
}

#[test]
fn numbers_ranges(rt: HostRuntime) -> Result<(), Fail> {
    let mut f = empty_function(rt.alloc())?;
    assert_eq!(rt; f.fresh(ClassId(2))?, 0);
    assert_eq!(rt; f.classes.len(), 1);
    Ok(())
}

#[test]
fn orders_ids(rt: HostRuntime) -> Result<(), Fail> {
    let mut slots = Slots::new(rt.alloc());
    slots.insert_after(None, 9)?;
    if slots.is_present(9) && !slots.is_present(4) {
        slots.insert_after(Some(9), 4)?;
    }
    assert!(rt; slots.before(9, 4));
    assert!(rt; slots.number(9) < slots.number(4));
    if slots.is_present(9) {
        slots.remove(9);
    }
    assert!(rt; !slots.is_present(9));
    Ok(())
}
