//! Functions as lists of blocks of instructions.

ghost use Rattle.std.specs.Prelude.{◌≡◌, ◌<◌, ◌+◌, ◌-◌, ◌*◌, ◌^◌, ◌++◌, ◌∷◌, [], length, map, OnOk, OnErr, IfOk, IsTrue, Some, position, ◌==◌, ◌≤◌};

use crate::short::ShortList;
use std::alloc::{AllocError, Global};
use std::default::MadeWith;
use std::marker::Model;
use target_base::{
    Boxed, BoxedList, Bytes, ClassId, Copied, IndexId, List, MaskId, OpId, Reg, Regs,
};

/// Where a register operand lies.
#[derive(Clone, Copy, Debug, PartialEq, Eq)]
pub enum Loc {
    /// A virtual register, by its range number: the order of first appearance in the body, from 0.
    Virtual(u32),
    /// A physical register.
    Fixed(Reg),
}

/// A register operand.
#[derive(Clone, Copy, Debug, PartialEq, Eq)]
pub struct RegOp {
    /// The register.
    pub loc: Loc,
    /// The subregister index; physical registers have none.
    pub index: Option<IndexId>,
    /// Whether it is a definition.
    pub def: bool,
    /// Whether it is implicit.
    pub implicit: bool,
    /// LLVM's `undef`: a use reads nothing; a definition makes the other lanes undefined.
    pub undef: bool,
    /// LLVM's `early-clobber`.
    pub early: bool,
    /// LLVM's `renamable`.
    pub renamable: bool,
    /// The K of a tie `(tied-def K)` written at this operand; operands that a stage makes have none.
    pub tie: Option<u8>,
}

/// An operand of an instruction.
#[derive(Drop)]
pub enum Operand {
    /// A register.
    Reg(RegOp),
    /// An immediate, from -2^63 to 2^64 - 1.
    Imm(i128),
    /// A block, by its number.
    Block(u32),
    /// A frame object `%stack.N`.
    Stack(u32),
    /// A frame object `%fixed-stack.N`.
    FixedStack(u32),
    /// A symbol, spelled as written.
    Symbol(Bytes),
    /// A subregister index `%subreg.name`.
    Index(IndexId),
    /// A call mask.
    Mask(MaskId),
}

impl MadeWith<Global> for Operand {
    fn made_with(_alloc: Global) -> Operand {
        Operand::Imm(0)
    }
}

/// The opcode of an instruction.
#[derive(Drop)]
pub enum Op {
    /// An opcode of the target.
    Known(OpId),
    /// A generic opcode that no stage here has a meaning for, by its name.
    Excluded(Bytes),
}

/// The operands of an instruction, definitions first.
pub type Operands = ShortList<Operand>;

/// Instructions in order.
pub type Instrs = BoxedList<Instr>;

/// Blocks in layout order.
pub type Blocks = List<Block>;

/// The successors of a block.
pub type Edges = List<Edge>;

/// The class of each range number, where it has one.
pub type Classes = List<Option<ClassId>>;

/// Frame objects: the id and whether it is a spill slot.
pub type Frames = List<(u32, bool)>;

/// An instruction.
#[derive(Drop)]
pub struct Instr {
    /// Its id, which no other instruction of the function has.
    pub id: u32,
    /// Its opcode.
    pub op: Op,
    /// Its flags as written, such as `frame-setup`.
    pub flags: Bytes,
    /// Its operands.
    pub operands: Operands,
    /// What follows the operands, as written: memory operands and debug locations.
    pub tail: Bytes,
}

/// A successor of a block.
#[derive(Clone, Copy, Debug, PartialEq, Eq)]
pub struct Edge {
    /// The number of the successor.
    pub block: u32,
    /// Its probability in units of 2^-31.
    pub prob: u32,
}

/// A basic block.
#[derive(Drop)]
pub struct Block {
    /// Its number.
    pub number: u32,
    /// Its name, or nothing.
    pub name: Bytes,
    /// The text in parentheses behind its name, or nothing.
    pub attributes: Bytes,
    /// Its successors.
    pub successors: Edges,
    /// The registers that are live into it.
    pub liveins: Regs,
    /// Its instructions.
    pub instrs: Instrs,
}

/// A gap between instructions of a block: before the instruction of an id, or at the block's end.
#[derive(Clone, Copy, Debug, PartialEq, Eq)]
pub struct Gap {
    /// The number of the block.
    pub block: u32,
    /// The instruction behind the gap.
    pub before: Option<u32>,
}

/// A place in a function, printed `bb.N:K`.
#[derive(Clone, Copy, Debug, PartialEq, Eq)]
pub struct Place {
    /// The number of the block.
    pub block: u32,
    /// The instruction's place in its block, from 0, phis included.
    pub at: u32,
}

/// A function: its blocks in layout, the first of them the entry. It has at least one block, and
/// the ids of its instructions are distinct and below `next_id`.
#[derive(Drop)]
pub struct Func {
    /// Its name.
    pub name: Bytes,
    /// Its key lines as read, through the body line, without the keys `registers` and `liveins`.
    pub head: Bytes,
    /// The class of each range number, where its annotations and the `registers` key give just one.
    pub classes: Classes,
    /// The frame objects that `head` declares.
    pub frames: Frames,
    /// Its blocks in layout order.
    pub blocks: Blocks,
    /// The id that the next instruction gets.
    pub next_id: u32,
}

/// A function that is valid as a source of the allocator under its target, or the answer of phi
/// elimination for such a function.
#[derive(Drop)]
pub struct Valid {
    /// The function.
    pub func: Func,
}

/// A function without phis, made from a valid one.
#[derive(Drop)]
pub struct NoPhi {
    /// The function.
    pub func: Func,
}

impl Model for Func {
    ghost use Rattle.mir_func.specs.Value.{Function, IsFunction};

    ghost Value = { Function };

    ghost view = { λ f. record { name = f.name; head = f.head; classes = f.classes; frames = f.frames; blocks = f.blocks; next_id = f.next_id } };

    ghost invariant = { λ f. IsFunction f.blocks f.next_id };
}

ghost use Rattle.mir_func.specs.Edits.{block_place, gap_place, instr_place, put, made, cut, changed_in, with_operand};
ghost use Rattle.mir_func.specs.declared.func.Operand.TheVariants as operands;

/// The place of the first block of that number.
fn find_block(blocks: &[Block], number: u32) -> Option<usize>
    ensures { result ≡ position (λ b. b.number == number) blocks.now }
{
    blocks.iter().position(|b| b.number == number)
}

/// The place of the first instruction of that id.
fn find_instr(instrs: &[Boxed<Instr>], id: u32) -> Option<usize>
    ensures { result ≡ position (λ i. i.id == id) instrs.now }
{
    instrs.iter().position(|i| i.get().id == id)
}

/// The place of the first block of that number, or their count.
#[tactic(auto, using(crate::proofs::Places::places))]
pub fn block_at(blocks: &[Block], number: u32) -> usize
    ensures { result ≡ block_place number blocks.now }
{
    find_block(blocks, number).unwrap_or(blocks.len())
}

/// The place of a gap among a block's instructions.
#[tactic(auto, using(crate::proofs::Places::places))]
fn gap_at(instrs: &[Boxed<Instr>], before: Option<u32>) -> usize
    ensures value { result ≡ gap_place before instrs.now }
    ensures within { result ≤ length instrs.now }
{
    match before {
        None => instrs.len(),
        Some(id) => find_instr(instrs, id).unwrap_or(instrs.len()),
    }
}

/// A new instruction, without flags and tail.
pub(crate) fn new_instr(alloc: Global, id: u32, op: OpId, operands: Operands) -> Instr
    ensures { result ≡ made id op operands }
{
    Instr {
        id,
        op: Op::Known(op),
        flags: List::new(alloc),
        operands,
        tail: List::new(alloc),
    }
}

/// Puts a new instruction into a gap of a block.
fn put_into(
    block: &mut Block,
    before: Option<u32>,
    id: u32,
    op: OpId,
    operands: Operands,
) -> Result<(), AllocError>
    ensures ok { OnOk result (block.new ≡ put before (made id op operands) block.old) }
    ensures err { OnErr result (block.new ≡ block.old) }
{
    let instr = new_instr(block.instrs.allocator(), id, op, operands);
    let place = gap_at(block.instrs.as_slice(), before);
    block.instrs.insert(place, instr)
}

/// Takes the first instruction of an id out of each block.
fn cut_all(blocks: &mut Blocks, id: u32)
    ensures { blocks.new ≡ map (cut id) blocks.old }
{
    for k in 0..blocks.len() {
        cut_in(blocks.get_mut(k), id);
    }
}

fn cut_in(block: &mut Block, id: u32)
    ensures { block.new ≡ cut id block.old }
{
    if let Some(place) = find_instr(block.instrs.as_slice(), id) {
        let _ = block.instrs.remove(place);
    }
}

fn rename_all(blocks: &mut Blocks, id: u32, operand: usize, to: RegOp)
    ensures { blocks.new ≡ map (changed_in id (with_operand operand (operands.Reg to))) blocks.old }
{
    for k in 0..blocks.len() {
        rename_in(blocks.get_mut(k), id, operand, to);
    }
}

fn rename_in(block: &mut Block, id: u32, operand: usize, to: RegOp)
    ensures { block.new ≡ changed_in id (with_operand operand (operands.Reg to)) block.old }
{
    if let Some(place) = find_instr(block.instrs.as_slice(), id) {
        set_operand(block.instrs.get_mut(place), operand, to);
    }
}

fn set_operand(instr: &mut Instr, operand: usize, to: RegOp)
    ensures { instr.new ≡ with_operand operand (operands.Reg to) instr.old }
{
    instr.operands.set(operand, Operand::Reg(to));
}

impl Func {
    ghost use Rattle.mir_func.specs.Value.{Function};
    ghost use Rattle.mir_func.specs.Edits.{inserted, deleted, renamed, HasBlock};

    /// The number of blocks.
    pub fn block_count(&self) -> usize
        ensures some { 0 < result }
        ensures value { result ≡ length self.now.blocks }
    {
        self.blocks.len()
    }

    /// An equal function.
    pub fn copy(&self, alloc: Global) -> Result<Func, AllocError>
        ensures { IfOk result (λ made. made ≡ self.now) }
    {
        self.copied(alloc)
    }

    /// Puts a new instruction, without flags and tail, into a gap of a block of the function and
    /// answers its id, which is the function's `next_id`. Where no instruction of the block has the
    /// id that the gap names, it stands at the block's end. After a refusal the function is unchanged.
    pub fn insert(&mut self, gap: Gap, op: OpId, operands: Operands) -> Result<u32, AllocError>
        requires block { HasBlock self.old gap.block }
        requires room { self.old.next_id + 1 < 2 ^ 32 }
        ensures ok { IfOk result (λ id. (id ≡ self.old.next_id) × (self.new ≡ inserted self.old gap op operands)) }
        ensures err { OnErr result (self.new ≡ self.old) }
    {
        let id = self.next_id;
        let at = block_at(self.blocks.as_slice(), gap.block);
        put_into(self.blocks.get_mut(at), gap.before, id, op, operands)?;
        self.next_id = id + 1;
        Ok(id)
    }

    /// Takes out the instruction of an id, where one has it.
    pub fn delete(&mut self, id: u32)
        ensures { self.new ≡ deleted self.old id }
    {
        cut_all(&mut self.blocks, id);
    }

    /// Replaces an operand of the instruction of an id by a register operand.
    pub fn rename(&mut self, id: u32, operand: usize, to: RegOp)
        ensures { self.new ≡ renamed self.old id operand to }
    {
        rename_all(&mut self.blocks, id, operand, to);
    }

    /// Gives the next range number, which is answered, to a register of a class. After a refusal
    /// the function is unchanged.
    pub fn fresh(&mut self, class: ClassId) -> Result<u32, AllocError>
        requires { length self.old.classes < 2 ^ 31 }
        ensures ok { IfOk result (λ v. (v ≡ length self.old.classes) × (self.new ≡ record self.old { classes = self.old.classes ++ Some class ∷ [] })) }
        ensures err { OnErr result (self.new ≡ self.old) }
    {
        let v = self.classes.len() as u32;
        self.classes.push(Some(class))?;
        Ok(v)
    }
}

impl Copied for RegOp {
    fn copied(&self, _alloc: Global) -> Result<RegOp, AllocError> {
        Ok(*self)
    }
}

impl Copied for Edge {
    fn copied(&self, _alloc: Global) -> Result<Edge, AllocError> {
        Ok(*self)
    }
}

impl Copied for Operand {
    fn copied(&self, alloc: Global) -> Result<Operand, AllocError> {
        Ok(match self {
            Operand::Reg(r) => Operand::Reg(*r),
            Operand::Imm(n) => Operand::Imm(*n),
            Operand::Block(n) => Operand::Block(*n),
            Operand::Stack(n) => Operand::Stack(*n),
            Operand::FixedStack(n) => Operand::FixedStack(*n),
            Operand::Symbol(name) => Operand::Symbol(name.copied(alloc)?),
            Operand::Index(i) => Operand::Index(*i),
            Operand::Mask(m) => Operand::Mask(*m),
        })
    }
}

impl Copied for Op {
    fn copied(&self, alloc: Global) -> Result<Op, AllocError> {
        Ok(match self {
            Op::Known(op) => Op::Known(*op),
            Op::Excluded(name) => Op::Excluded(name.copied(alloc)?),
        })
    }
}

impl Copied for Instr {
    fn copied(&self, alloc: Global) -> Result<Instr, AllocError> {
        Ok(Instr {
            id: self.id,
            op: self.op.copied(alloc)?,
            flags: self.flags.copied(alloc)?,
            operands: self.operands.copied(alloc)?,
            tail: self.tail.copied(alloc)?,
        })
    }
}

impl Copied for Block {
    fn copied(&self, alloc: Global) -> Result<Block, AllocError> {
        Ok(Block {
            number: self.number,
            name: self.name.copied(alloc)?,
            attributes: self.attributes.copied(alloc)?,
            successors: self.successors.copied(alloc)?,
            liveins: self.liveins.copied(alloc)?,
            instrs: self.instrs.copied(alloc)?,
        })
    }
}

impl Copied for Func {
    fn copied(&self, alloc: Global) -> Result<Func, AllocError> {
        Ok(Func {
            name: self.name.copied(alloc)?,
            head: self.head.copied(alloc)?,
            classes: self.classes.copied(alloc)?,
            frames: self.frames.copied(alloc)?,
            blocks: self.blocks.copied(alloc)?,
            next_id: self.next_id,
        })
    }
}
