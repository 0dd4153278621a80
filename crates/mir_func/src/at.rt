//! Edits of a function where the place is known: the block's position in the layout, and the
//! instruction's place in its block. They take no search.

ghost use Rattle.std.specs.Prelude.{◌≡◌, OnOk, OnErr, IfOk, length, slice_get, option_copied};
ghost use Rattle.std.specs.Option.{option_map_or};
ghost use Rattle.mir_func.specs.Edits.{made};
ghost use Rattle.mir_func.specs.At.{instrs_at, instr_at, put_at, cut_at, changed_at, operation, with_operation, inserted_at, removed_at, retracted_at, replaced_at};

use crate::func::{Block, Func, Instr, Op, Operands, new_instr};
use std::alloc::AllocError;
use std::mem;
use target_base::OpId;

/// Puts a new instruction before the one at a place of a block, or last.
fn put_at(
    block: &mut Block,
    place: usize,
    id: u32,
    op: OpId,
    operands: Operands,
) -> Result<(), AllocError>
    ensures ok { OnOk result (block.new ≡ put_at place (made id op operands) block.old) }
    ensures err { OnErr result (block.new ≡ block.old) }
{
    let instr = new_instr(block.instrs.allocator(), id, op, operands);
    let at = place.min(block.instrs.len());
    block.instrs.insert(at, instr)
}

/// Takes out the instruction at a place of a block, where there is one.
fn cut_at(block: &mut Block, place: usize) -> Option<Instr>
    ensures value { result ≡ slice_get block.old.instrs place }
    ensures rest { block.new ≡ cut_at place block.old }
{
    if place >= block.instrs.len() {
        return None;
    }
    Some(block.instrs.remove(place))
}

/// Gives an instruction another opcode and other operands, and answers those that it had.
fn change(instr: &mut Instr, op: Op, operands: Operands) -> (Op, Operands)
    ensures new { instr.new ≡ with_operation op operands instr.old }
    ensures old { result ≡ operation instr.old }
{
    let old_op = mem::replace(&mut instr.op, op);
    let old_operands = mem::replace(&mut instr.operands, operands);
    (old_op, old_operands)
}

/// Gives the instruction at a place of a block another opcode and other operands, and answers
/// those that it had; where there is none, those that were to be given.
fn change_in(block: &mut Block, place: usize, op: Op, operands: Operands) -> (Op, Operands)
    ensures new { block.new ≡ changed_at place (with_operation op operands) block.old }
    ensures old { result ≡ option_map_or operation (slice_get block.old.instrs place) (op, operands) }
{
    if place >= block.instrs.len() {
        return (op, operands);
    }
    change(block.instrs.get_mut(place), op, operands)
}

impl Func {
    /// The instruction at a place of the block at a position.
    pub fn instr_at(&self, position: usize, place: usize) -> Option<&Instr>
        ensures { option_copied result ≡ instr_at self.now.blocks position place }
    {
        match self.blocks.as_slice().get(position) {
            Some(block) => match block.instrs.as_slice().get(place) {
                Some(boxed) => Some(boxed.get()),
                None => None,
            },
            None => None,
        }
    }

    /// The number of instructions of the block at a position, 0 where there is no such block.
    pub fn instr_count(&self, position: usize) -> usize
        ensures { result ≡ length (instrs_at self.now.blocks position) }
    {
        match self.blocks.as_slice().get(position) {
            Some(block) => block.instrs.len(),
            None => 0,
        }
    }

    /// Puts a new instruction before the one at a place of the block at a
    /// position, or last, and answers its id, which is the function's `next_id`. Where there is no
    /// such block, or no id is left, nothing is put. After a refusal the function is unchanged.
    pub fn insert_at(
        &mut self,
        position: usize,
        place: usize,
        op: OpId,
        operands: Operands,
    ) -> Result<u32, AllocError>
        ensures ok { IfOk result (λ id. (id ≡ self.old.next_id) × (self.new ≡ inserted_at self.old position place op operands)) }
        ensures err { OnErr result (self.new ≡ self.old) }
    {
        let id = self.next_id;
        if position >= self.blocks.len() {
            return Ok(id);
        }
        if id == u32::MAX {
            return Ok(id);
        }
        put_at(self.blocks.get_mut(position), place, id, op, operands)?;
        self.next_id = id + 1;
        Ok(id)
    }

    /// Takes out the instruction at a place of the block at a position, where there is one.
    pub fn remove_at(&mut self, position: usize, place: usize) -> Option<Instr>
        ensures value { result ≡ instr_at self.old.blocks position place }
        ensures rest { self.new ≡ removed_at self.old position place }
    {
        if position >= self.blocks.len() {
            return None;
        }
        cut_at(self.blocks.get_mut(position), place)
    }

    /// Takes back the last instruction that was put, where it stands at a place of the block at a
    /// position: its id is given again. Where it doesn't stand there, nothing is changed.
    pub fn retract_at(&mut self, position: usize, place: usize)
        ensures { self.new ≡ retracted_at self.old position place }
    {
        if position >= self.blocks.len() {
            return;
        }
        let block = self.blocks.get(position);
        if place >= block.instrs.len() {
            return;
        }
        let id = block.instrs.get(place).id;
        if self.next_id == 0 || id != self.next_id - 1 {
            return;
        }
        let _ = cut_at(self.blocks.get_mut(position), place);
        self.next_id = id;
    }

    /// Gives the instruction at a place of the block at a position another opcode and other
    /// operands, and answers those that it had; where there is none, those that were to be given.
    pub fn change_at(
        &mut self,
        position: usize,
        place: usize,
        op: Op,
        operands: Operands,
    ) -> (Op, Operands)
        ensures new { self.new ≡ replaced_at self.old position place op operands }
        ensures old { result ≡ option_map_or operation (instr_at self.old.blocks position place) (op, operands) }
    {
        if position >= self.blocks.len() {
            return (op, operands);
        }
        change_in(self.blocks.get_mut(position), place, op, operands)
    }
}
