//! A function and the order of its instructions while edits are done to it, with what takes each edit
//! back, which takes no memory.

ghost use Rattle.std.specs.Prelude.{◌≡◌, ◌↔◌, ◌<◌, ◌≤◌, ◌+◌, ◌^◌, ◌++◌, ◌∷◌, ℕ, [], length, take, IfOk, IsErr, IsTrue, OnOk, OnErr, Some, slice_index, vec_len, vec_capacity};
ghost use Rattle.slot_index.specs.Order.{ids};
ghost use Rattle.slot_index.specs.Renewed.{low_end};
ghost use Rattle.mir_func.specs.Value.{IsFunction};
ghost use Rattle.mir_func.specs.At.{instrs_at, instr_at, retracted_at};
ghost use Rattle.mir_func.specs.Edits.{block_place, gap_place};
ghost use Rattle.live_lanes.specs.Ordered.{all_ids, last_id};
ghost use Rattle.edit_laws.specs.Ordering.{ids_before};
ghost use Rattle.live_edits.specs.Drafts.{IsOrderOf, HasGap, IsPlaceOf, IsSameOrder, PutsId, TakesId, HasRoom, PutsAt, StaysOrdered, PutsInto, Replaces, LetsGo, undone, IsDraftLogged, IsUndone};

use live_lanes::order::Order;
use mir_func::{Block, Func, Gap, Instr, Op, Operands};
use std::alloc::{AllocError, Global};
use target_base::{Boxed, OpId};

/// What an edit changed, by the position of the block and the place of the instruction in it.
#[derive(Drop)]
pub enum FormerInstr {
    /// An instruction was put there.
    Put(u32, usize),
    /// The instruction there had this opcode and these operands.
    Replaced(u32, usize, Op, Operands),
}

/// A function and the order of its instructions while edits are done to it.
#[derive(Drop)]
pub struct Draft {
    /// The function as it stands.
    pub func: Func,
    /// Where its instructions and blocks stand.
    pub order: Order,
    /// What takes the edits back, in the order of the edits.
    pub log: Vec<FormerInstr>,
}

/// The last instruction of the first blocks.
fn last_id_before(blocks: &[Block], count: usize) -> Option<u32>
    ensures { result ≡ last_id (all_ids (take count blocks.now)) }
{
    let mut left = count.min(blocks.len());
    'blocks: while left > 0 {
        left -= 1;
        let instrs = &blocks[left].instrs;
        let found = instrs.len();
        if found > 0 {
            return Some(instrs.get(found - 1).id);
        }
    }
    None
}

/// The instruction that stands in layout before a place of the block at a position.
fn id_before(func: &Func, position: u32, place: usize) -> Option<u32>
    ensures function { IsFunction func.now.blocks func.now.next_id }
    ensures id { place ≤ length (instrs_at func.now.blocks position) → result ≡ last_id (ids_before func.now.blocks position place) }
{
    if place == 0 {
        return last_id_before(func.blocks.as_slice(), position as usize);
    }
    match func.instr_at(position as usize, place - 1) {
        Some(instr) => Some(instr.id),
        None => None,
    }
}

/// Whether one more instruction can have an id.
fn has_id_left(func: &Func) -> bool
    ensures { IsTrue result ↔ (func.now.next_id + 1 < 2 ^ 32) }
{
    func.next_id < u32::MAX
}

/// The instructions of the block at a position; none where there is no such block.
fn instrs_of(func: &Func, position: u32) -> &[Boxed<Instr>]
    ensures function { IsFunction func.now.blocks func.now.next_id }
    ensures instrs { result.now ≡ instrs_at func.now.blocks position }
{
    match func.blocks.as_slice().get(position as usize) {
        Some(block) => block.instrs.as_slice(),
        None => &[],
    }
}

/// Makes room for the position of the block of an instruction.
fn make_room(block_of: &mut Vec<u32>, id: u32) -> Result<(), AllocError>
    ensures same { (n : ℕ) → slice_index block_of.new.items n ≡ slice_index block_of.old.items n }
    ensures room { OnOk result (id < length block_of.new.items) }
{
    if id as usize >= block_of.len() {
        block_of.resize(id as usize + 1, 0)?;
    }
    Ok(())
}

/// Puts an id into the order of instructions, behind another or first, and notes the position of its
/// block. The id isn't there yet, and that before it is. After a refusal the order is as before.
fn put_id(order: &mut Order, id: u32, position: u32, after: Option<u32>) -> Result<(), AllocError>
    ensures ok { OnOk result (PutsId id position after order.old order.new) }
    ensures err { OnErr result (IsSameOrder order.old order.new) }
{
    if order.slots.is_present(id) {
        return Err(AllocError);
    }
    if let Some(before) = after {
        if !order.slots.is_present(before) {
            return Err(AllocError);
        }
    }
    make_room(&mut order.block_of, id)?;
    order.slots.insert_after(after, id)?;
    order.block_of[id as usize] = position;
    Ok(())
}

/// Takes an id out of the order of instructions.
fn take_id(order: &mut Order, id: u32)
    ensures { TakesId id order.old order.new }
{
    if order.slots.is_present(id) {
        order.slots.remove(id);
    }
}

/// Puts a new instruction at a place of the block at a position, and answers its id. After a refusal
/// the function is unchanged.
fn insert(
    func: &mut Func,
    order: &mut Order,
    position: u32,
    place: usize,
    op: OpId,
    operands: Operands,
) -> Result<u32, AllocError>
    ensures ok { IfOk result (λ id. HasRoom func.old order.old position place → PutsAt func.old func.new order.new position place op operands × (id ≡ func.old.next_id)) }
    ensures err { OnErr result (HasRoom func.old order.old position place → StaysOrdered func.old func.new order.new) }
{
    let before = id_before(func, position, place);
    let id = func.insert_at(position as usize, place, op, operands)?;
    match put_id(order, id, position, before) {
        Ok(()) => Ok(id),
        Err(e) => {
            func.retract_at(position as usize, place);
            Err(e)
        }
    }
}

/// Takes back the instruction that was put last, where it stands at a place of the block at a position.
fn take_put_back(func: &mut Func, order: &mut Order, position: u32, place: usize)
    ensures func { func.new ≡ retracted_at func.old position place }
    ensures order { IsOrderOf func.old order.old → IsOrderOf func.new order.new }
{
    let next = func.next_id;
    func.retract_at(position as usize, place);
    if func.next_id < next {
        take_id(order, func.next_id);
    }
}

/// Takes one edit back.
fn undo(func: &mut Func, order: &mut Order, former: FormerInstr)
    ensures func { func.new ≡ undone former func.old }
    ensures order { IsOrderOf func.old order.old → IsOrderOf func.new order.new }
{
    match former {
        FormerInstr::Put(position, place) => take_put_back(func, order, position, place),
        FormerInstr::Replaced(position, place, op, operands) => {
            let _ = func.change_at(position as usize, place, op, operands);
        }
    }
}

/// Adds an entry to a log that has room for it.
fn note(log: &mut Vec<FormerInstr>, former: FormerInstr)
    requires { vec_len log.old < vec_capacity log.old }
    ensures { log.new.items ≡ log.old.items ++ former ∷ [] }
{
    let _ = log.push(former);
}

impl Draft {
    /// A function and its order before any edit.
    pub fn new(alloc: Global, func: Func, order: Order) -> Draft
        ensures func { result.func ≡ func }
        ensures order { result.order ≡ order }
        ensures log { result.log.items ≡ [] }
    {
        Draft {
            func,
            order,
            log: Vec::new(alloc),
        }
    }

    /// The number of the last instruction: as it fits 64 bits, all do.
    pub fn highest(&self) -> u64
        ensures { IsOrderOf self.now.func self.now.order → low_end (last_id (ids self.now.order.slots)) self.now.order.slots ≡ result }
    {
        match last_id_before(self.func.blocks.as_slice(), self.func.blocks.len()) {
            Some(id) => self.order.slots.number(id),
            None => 0,
        }
    }

    /// The place of an instruction in the block at a position.
    fn place_in(&self, position: u32, id: u32) -> usize
        ensures function { IsFunction self.now.func.blocks self.now.func.next_id }
        ensures place { IsOrderOf self.now.func self.now.order
            → (k : ℕ) (i : Instr) → instr_at self.now.func.blocks position k ≡ Some i → i.id ≡ id → result ≡ k }
    {
        let _highest = self.highest();
        self.order.place(instrs_of(&self.func, position), id)
    }

    /// The position of the block of an instruction, and the instruction's place in it.
    pub fn find(&self, id: u32) -> Option<(u32, usize)>
        ensures function { IsFunction self.now.func.blocks self.now.func.next_id }
        ensures place { IsOrderOf self.now.func self.now.order → IsPlaceOf self.now.func id result }
    {
        let position = self.order.block_of(id);
        let place = self.place_in(position, id);
        match self.func.instr_at(position as usize, place) {
            Some(instr) => {
                if instr.id == id {
                    Some((position, place))
                } else {
                    None
                }
            }
            None => None,
        }
    }

    /// The place of a gap in its block, of which this is the position.
    fn gap_place(&self, position: u32, gap: Gap) -> usize
        ensures { IsOrderOf self.now.func self.now.order → HasGap self.now.func gap → position ≡ block_place gap.block self.now.func.blocks
            → result ≡ gap_place gap.before (instrs_at self.now.func.blocks position) }
    {
        match gap.before {
            Some(id) => self.place_in(position, id),
            None => self.func.instr_count(position as usize),
        }
    }

    /// Puts a new instruction, without flags and tail, into a gap, and answers the position of its block
    /// and its id. After a refusal the function is unchanged; where no id is left, it is refused.
    pub fn put(&mut self, gap: Gap, op: OpId, operands: Operands) -> Result<(u32, u32), AllocError>
        ensures put { IfOk result (λ at. IsOrderOf self.old.func self.old.order → HasGap self.old.func gap → PutsInto self.old self.new gap op operands at.0 at.1) }
        ensures err { OnErr result (IsOrderOf self.old.func self.old.order → HasGap self.old.func gap → self.new.func ≡ self.old.func) }
        ensures full { 2 ^ 32 ≤ self.old.func.next_id + 1 → IsErr result }
        ensures logged { IsOrderOf self.old.func self.old.order → HasGap self.old.func gap → IsDraftLogged self.old self.new }
    {
        let Some(position) = self.order.position(gap.block) else {
            return Err(AllocError);
        };
        if !has_id_left(&self.func) {
            return Err(AllocError);
        }
        let place = self.gap_place(position, gap);
        self.log.reserve(1)?;
        let id = insert(
            &mut self.func,
            &mut self.order,
            position,
            place,
            op,
            operands,
        )?;
        note(&mut self.log, FormerInstr::Put(position, place));
        Ok((position, id))
    }

    /// Gives the instruction of an id another opcode and other operands; where no instruction has the id,
    /// nothing is changed, as after a refusal.
    pub fn replace(&mut self, id: u32, op: OpId, operands: Operands) -> Result<(), AllocError>
        ensures replaced { OnOk result (IsOrderOf self.old.func self.old.order → Replaces self.old self.new id op operands) }
        ensures err { OnErr result (self.new.func ≡ self.old.func) }
        ensures logged { IsOrderOf self.old.func self.old.order → IsDraftLogged self.old self.new }
    {
        let Some((position, place)) = self.find(id) else {
            return Ok(());
        };
        self.log.reserve(1)?;
        let (old_op, old_operands) = self
            .func
            .change_at(position as usize, place, Op::Known(op), operands);
        note(
            &mut self.log,
            FormerInstr::Replaced(position, place, old_op, old_operands),
        );
        Ok(())
    }

    /// Takes the instruction of an id out.
    fn erase(&mut self, id: u32)
        ensures { IsOrderOf self.old.func self.old.order → LetsGo self.old.func self.new.func self.old.order self.new.order (id ∷ []) }
    {
        if let Some((position, place)) = self.find(id) {
            let _ = self.func.remove_at(position as usize, place);
            take_id(&mut self.order, id);
        }
    }

    /// Lets instructions go. The edits of before can't be taken back then.
    pub fn finish(&mut self, erased: &[u32])
        ensures { IsOrderOf self.old.func self.old.order → LetsGo self.old.func self.new.func self.old.order self.new.order erased.now }
    {
        'erased: for id in erased {
            self.erase(*id);
        }
    }

    /// Takes all logged edits back, the last one first. It takes no memory.
    pub fn take_back(&mut self)
        ensures { IsOrderOf self.old.func self.old.order → IsUndone self.old self.new }
    {
        'edits: while let Some(former) = self.log.pop() {
            undo(&mut self.func, &mut self.order, former);
        }
    }
}
