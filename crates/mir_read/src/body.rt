//! The blocks of a function, as they are read line by line.

ghost use Rattle.std.specs.Prelude.{◌≡◌, ◌<◌, ◌≤◌, ◌+◌, ◌++◌, ◌∷◌, [], length, IfOk, OnOk, IsTrue, Some, None, option_map};
ghost use Rattle.mir_func.specs.Binding.{does, is_branch, ends_control};
ghost use Rattle.mir_meaning.specs.Codes.{falls_through};
ghost use Rattle.mir_meaning.specs.Rules.{block_of as block_in, named_blocks, branch_targets};
ghost use Rattle.mir_read.specs.Body.{BodyValue, no_blocks, is_begun, with_numbers, targets_of, fallen, due_blocks, edges_or_due, regs_or_none, block_of, closed, opened_by, with_header, lacks_successors, lacks_liveins, takes_successors, takes_liveins, with_edges, with_regs, with_successors, with_liveins, with_instr, operand_count, operands_of};
ghost use Rattle.mir_read.specs.Resolving.{equal_shares};

use crate::names::NumberSet;
use crate::resolve::equal_shares;
use mir_func::opcodes::effect_of;
use mir_func::{Block, Blocks, Edges, Instr, Instrs, Operand, opcodes};
use mir_lines::RawHeader;
use std::alloc::{AllocError, Global};
use std::marker::Model;
use target_base::{Boxed, BoxedList, List, Regs, Target};

/// The header of the block that is being read, and the lists that have come behind it.
#[derive(Drop)]
pub struct OpenBlock {
    pub header: RawHeader,
    pub successors: Option<Edges>,
    pub liveins: Option<Regs>,
}

/// The blocks so far, and the instructions of the one that is being read. Instructions get their
/// ids in the order of reading.
#[derive(Drop)]
pub struct Body {
    pub done: Blocks,
    pub opened: Option<OpenBlock>,
    pub instrs: Instrs,
    pub next_id: u32,
}

impl Model for Body {
    ghost use Rattle.std.specs.Prelude.{ℕ, ◌+◌, ◌≤◌, nat_lt, if◌then◌else◌};
    ghost use Rattle.mir_func.specs.Value.{id_count, id_total};
    ghost use Rattle.mir_read.specs.Body.{BodyValue};

    ghost Value = { BodyValue };

    ghost view = { λ b. record { done = b.done; opened = b.opened; instrs = b.instrs; next_id = b.next_id } };

    ghost invariant = { λ b. (id : ℕ) → id_total id b.done + id_count id b.instrs ≤ (if nat_lt id b.next_id then 1 else 0) };
}

/// Whether an instruction is a jump or a conditional branch.
fn is_branch(target: &Target, i: &Instr) -> bool
    ensures { result ≡ does is_branch target.now i.now }
{
    match effect_of(target, i) {
        None => false,
        Some(e) => opcodes::is_branch(e),
    }
}

/// Whether control doesn't go on behind an instruction.
fn ends_control(target: &Target, i: &Instr) -> bool
    ensures { result ≡ does ends_control target.now i.now }
{
    match effect_of(target, i) {
        None => false,
        Some(e) => opcodes::ends_control(e),
    }
}

/// Whether control goes on behind the last of these instructions.
fn falls_through(target: &Target, instrs: &[Boxed<Instr>]) -> bool
    ensures { result ≡ falls_through target.now instrs.now }
{
    let mut falls = true;
    for i in instrs {
        let i = i.get();
        falls = !ends_control(target, i);
    }
    falls
}

/// Adds the block of an operand, if it is one.
fn add_block(blocks: &mut NumberSet, o: &Operand) -> Result<(), AllocError>
    requires { length blocks.old < 4294967295 }
    ensures value { OnOk result (blocks.new ≡ with_numbers blocks.old (block_in o.now)) }
    ensures few { OnOk result (length blocks.new ≤ length blocks.old + 1) }
{
    match o {
        Operand::Block(n) => blocks.add(*n),
        _ => Ok(()),
    }
}

/// Adds the blocks that an instruction names, each once.
fn add_named(blocks: &mut NumberSet, i: &Instr) -> Result<(), AllocError>
    requires { length blocks.old + length i.now.operands < 4294967295 }
    ensures value { OnOk result (blocks.new ≡ with_numbers blocks.old (named_blocks i.now)) }
    ensures few { OnOk result (length blocks.new ≤ length blocks.old + length i.now.operands) }
{
    for o in i.operands.as_slice() {
        add_block(blocks, o)?;
    }
    Ok(())
}

/// Adds the blocks that an instruction branches to, each once.
fn add_targets(blocks: &mut NumberSet, target: &Target, i: &Instr) -> Result<(), AllocError>
    requires { length blocks.old + length i.now.operands < 4294967295 }
    ensures value { OnOk result (blocks.new ≡ with_numbers blocks.old (targets_of target.now i.now)) }
    ensures few { OnOk result (length blocks.new ≤ length blocks.old + length i.now.operands) }
{
    if is_branch(target, i) {
        add_named(blocks, i)
    } else {
        Ok(())
    }
}

/// The blocks that branches go to, each once.
fn branch_targets(
    alloc: Global,
    target: &Target,
    instrs: &[Boxed<Instr>],
) -> Result<NumberSet, AllocError>
    requires { operand_count instrs.now < 4294967294 }
    ensures value { IfOk result (λ ns. ns ≡ with_numbers [] (branch_targets target.now instrs.now)) }
    ensures few { IfOk result (λ ns. length ns ≤ operand_count instrs.now) }
{
    let mut blocks = NumberSet::new(alloc);
    for i in instrs {
        let i = i.get();
        add_targets(&mut blocks, target, i)?;
    }
    Ok(blocks)
}

/// The blocks that branches go to in order, and then the block that is fallen into, each once.
#[tactic(auto, unfolding(crate::specs::Body::due_blocks))]
fn due_blocks(
    alloc: Global,
    target: &Target,
    instrs: &[Boxed<Instr>],
    next: Option<u32>,
) -> Result<NumberSet, AllocError>
    requires { operand_count instrs.now < 4294967294 }
    ensures value { IfOk result (λ ns. ns ≡ due_blocks target.now instrs.now next) }
{
    let mut blocks = branch_targets(alloc, target, instrs)?;
    if falls_through(target, instrs) {
        if let Some(n) = next {
            blocks.add(n)?;
        }
    }
    Ok(blocks)
}

/// The successors of a block without a `successors` line.
fn due_successors(
    alloc: Global,
    target: &Target,
    instrs: &[Boxed<Instr>],
    next: Option<u32>,
) -> Result<Edges, AllocError>
    requires { operand_count instrs.now < 4294967294 }
    ensures { IfOk result (λ es. es ≡ equal_shares (due_blocks target.now instrs.now next)) }
{
    let blocks = due_blocks(alloc, target, instrs, next)?;
    equal_shares(alloc, blocks.as_slice())
}

/// The block of a header, which the block of number `next` follows.
#[tactic(auto, unfolding(crate::specs::Body::block_of))]
fn block_of(
    alloc: Global,
    target: &Target,
    opened: OpenBlock,
    instrs: Instrs,
    next: Option<u32>,
) -> Result<Block, AllocError>
    requires { operand_count instrs < 4294967294 }
    ensures value { IfOk result (λ b. b ≡ block_of target.now opened instrs next) }
    ensures instrs { IfOk result (λ b. b.instrs ≡ instrs) }
{
    let OpenBlock {
        header,
        successors,
        liveins,
    } = opened;
    let successors = match successors {
        Some(edges) => edges,
        None => due_successors(alloc, target, instrs.as_slice(), next)?,
    };
    let liveins = match liveins {
        Some(regs) => regs,
        None => List::new(alloc),
    };
    let RawHeader {
        number,
        name,
        attributes,
    } = header;
    Ok(Block {
        number,
        name,
        attributes,
        successors,
        liveins,
        instrs,
    })
}

/// The opened block with its successors.
fn with_edges(opened: Option<OpenBlock>, edges: Edges) -> Option<OpenBlock>
    ensures { result ≡ with_edges edges opened }
{
    match opened {
        None => None,
        Some(
            OpenBlock {
                header,
                successors: _,
                liveins,
            },
        ) => Some(OpenBlock {
            header,
            successors: Some(edges),
            liveins,
        }),
    }
}

/// The opened block with its live-in registers.
fn with_regs(opened: Option<OpenBlock>, regs: Regs) -> Option<OpenBlock>
    ensures { result ≡ with_regs regs opened }
{
    match opened {
        None => None,
        Some(
            OpenBlock {
                header,
                successors,
                liveins: _,
            },
        ) => Some(OpenBlock {
            header,
            successors,
            liveins: Some(regs),
        }),
    }
}

impl Body {
    /// No blocks.
    pub fn new(alloc: Global) -> Body
        ensures { result ≡ no_blocks }
    {
        Body {
            done: List::new(alloc),
            opened: None,
            instrs: BoxedList::new(alloc),
            next_id: 0,
        }
    }

    /// Whether a header has come.
    pub fn is_begun(&self) -> bool
        ensures { result ≡ is_begun self.now }
    {
        self.opened.is_some()
    }

    /// The id of the next instruction.
    pub fn next_id(&self) -> u32
        ensures { result ≡ self.now.next_id }
    {
        self.next_id
    }

    /// Whether a `successors:` line may stand here.
    #[tactic(auto, unfolding(crate::specs::Body::takes_successors))]
    pub fn takes_successors(&self) -> bool
        ensures { result ≡ takes_successors self.now }
    {
        match &self.opened {
            None => false,
            Some(o) => o.successors.is_none() && self.instrs.len() == 0,
        }
    }

    /// Whether a `liveins:` line may stand here.
    #[tactic(auto, unfolding(crate::specs::Body::takes_liveins))]
    pub fn takes_liveins(&self) -> bool
        ensures { result ≡ takes_liveins self.now }
    {
        match &self.opened {
            None => false,
            Some(o) => o.liveins.is_none() && self.instrs.len() == 0,
        }
    }

    /// The body where the block that is being read ends, which the block of number `next` follows.
    #[tactic(auto, unfolding(crate::specs::Body::closed))]
    pub fn close_block(
        self,
        alloc: Global,
        target: &Target,
        next: Option<u32>,
    ) -> Result<Body, AllocError>
        requires { operand_count self.instrs < 4294967294 }
        ensures value { IfOk result (λ b. b ≡ closed target.now self next) }
        ensures ids { IfOk result (λ b. b.next_id ≡ self.next_id) }
        ensures operands { IfOk result (λ b. operands_of b ≡ operands_of self) }
        ensures some { IfOk result (λ b. IsTrue (is_begun self) → 0 < length b.done) }
    {
        let Body {
            done,
            opened,
            instrs,
            next_id,
        } = self;
        match opened {
            None => Ok(Body {
                done,
                opened: None,
                instrs,
                next_id,
            }),
            Some(opened) => {
                let mut done = done;
                done.push(block_of(alloc, target, opened, instrs, next)?)?;
                Ok(Body {
                    done,
                    opened: None,
                    instrs: BoxedList::new(alloc),
                    next_id,
                })
            }
        }
    }

    /// The body where a header begins a block.
    #[tactic(auto, unfolding(crate::specs::Body::with_header))]
    pub fn with_header(
        self,
        alloc: Global,
        target: &Target,
        header: RawHeader,
    ) -> Result<Body, AllocError>
        requires { operand_count self.instrs < 4294967294 }
        ensures value { IfOk result (λ b. b ≡ with_header target.now self header) }
        ensures operands { IfOk result (λ b. operands_of b ≡ operands_of self) }
        ensures ids { IfOk result (λ b. b.next_id ≡ self.next_id) }
    {
        let mut body = self.close_block(alloc, target, Some(header.number))?;
        body.opened = Some(OpenBlock {
            header,
            successors: None,
            liveins: None,
        });
        Ok(body)
    }

    /// The body where the block gets its successors.
    pub fn with_successors(self, edges: Edges) -> Body
        ensures { result ≡ with_successors self edges }
    {
        let Body {
            done,
            opened,
            instrs,
            next_id,
        } = self;
        Body {
            done,
            opened: with_edges(opened, edges),
            instrs,
            next_id,
        }
    }

    /// The body where the block gets its live-in registers.
    pub fn with_liveins(self, regs: Regs) -> Body
        ensures { result ≡ with_liveins self regs }
    {
        let Body {
            done,
            opened,
            instrs,
            next_id,
        } = self;
        Body {
            done,
            opened: with_regs(opened, regs),
            instrs,
            next_id,
        }
    }

    /// Puts an instruction at the end of the block.
    pub fn put_instr(&mut self, instr: Instr) -> Result<(), AllocError>
        requires room { self.old.next_id < 4294967295 }
        requires id { instr.id ≡ self.old.next_id }
        ensures value { OnOk result (self.new ≡ with_instr self.old instr) }
        ensures operands { OnOk result (operands_of self.new ≡ operands_of self.old + length instr.operands) }
    {
        self.instrs.push(instr)?;
        self.next_id += 1;
        Ok(())
    }
}
