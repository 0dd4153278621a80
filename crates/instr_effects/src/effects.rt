//! What an instruction reads and writes, by the numbers of lanes.

ghost use Rattle.std.specs.Prelude.{◌≡◌, ◌++◌, [], IfOk, OnOk, map, filter_map};
ghost use Rattle.instr_effects.specs.Acts.{acts_of, read_owners, effect_owners, effect_acts, entered_reads, entered_writes};
ghost use Rattle.instr_effects.specs.Ends.{pairs_of, pairs_behind, end_uses, as_block, block_at, first_pair};
ghost use Rattle.instr_effects.specs.Numbered.{number_in};
ghost use Rattle.instr_effects.specs.Steps.{act_writings, act_readings, phi_read_of, seen_read};

use crate::lanes::LaneTable;
use mir_func::opcodes::{desc_of, is_early_clobber};
use mir_func::operands::register_at;
use mir_func::{Func, Instr, Operand, RegOp};
use mir_meaning::LaneDef;
use std::alloc::{AllocError, Global};
use target_base::roles::{is_phi, is_silent};
use target_base::{OpcodeDesc, Target};

/// What an instruction does to lanes that aren't reserved. Of two writings of a lane, or two moves
/// of a lane, the first counts.
#[derive(Drop)]
pub struct Effects {
    /// The lanes that it reads whatever is live behind it.
    pub reads: Vec<u32>,
    /// The lanes that it writes.
    pub writes: Vec<LaneDef>,
}

/// The lanes that a phi reads at the end of a block before it.
#[derive(Drop)]
pub struct PhiRead {
    /// The number of that block.
    pub block: u32,
    /// The lanes.
    pub lanes: Vec<u32>,
}

impl Effects {
    /// Nothing, with room for what most instructions do.
    fn new(alloc: Global) -> Result<Effects, AllocError>
        ensures reads { IfOk result (λ e. e.reads.items ≡ []) }
        ensures writes { IfOk result (λ e. e.writes.items ≡ []) }
    {
        Ok(Effects {
            reads: Vec::with_capacity(alloc, 8)?,
            writes: Vec::with_capacity(alloc, 8)?,
        })
    }
}

/// What the effects of instructions are read from.
#[derive(Clone, Copy)]
pub struct EffectReader<'a> {
    /// Where lists are made.
    pub alloc: Global,
    /// The target.
    pub target: &'a Target,
    /// The function.
    pub func: &'a Func,
    /// The numbers of its lanes.
    pub lanes: &'a LaneTable,
}

impl<'a> EffectReader<'a> {
    /// Adds what an instruction with this opcode does to lanes.
    #[tactic(auto, using(crate::proofs::CountedParts::no_readings))]
    fn add(
        self,
        desc: &OpcodeDesc,
        operands: &[Operand],
        effects: &mut Effects,
    ) -> Result<(), AllocError>
        ensures reads { OnOk result (effects.new.reads.items ≡ effects.old.reads.items ++ (filter_map (number_in self.entry.lanes.now) (effect_owners self.entry.target.now self.entry.func.now desc.now.effect desc.now.roles operands.now) ++ act_readings (number_in self.entry.lanes.now) (acts_of (effect_acts self.entry.target.now self.entry.func.now desc.now.effect desc.now.roles operands.now)))) }
        ensures writes { OnOk result (effects.new.writes.items ≡ effects.old.writes.items ++ act_writings (number_in self.entry.lanes.now) (acts_of (effect_acts self.entry.target.now self.entry.func.now desc.now.effect desc.now.roles operands.now))) }
    {
        if is_silent(desc.effect) {
            let early = is_early_clobber(desc.roles.as_slice());
            self.read_silently(desc.effect, operands, &mut effects.reads)?;
            self.write_silently(desc.effect, early, operands, effects)?;
        } else {
            self.read_counted(desc, operands, &mut effects.reads)?;
            self.write_counted(desc, operands, &mut effects.writes)?;
        }
        Ok(())
    }

    /// What an instruction does to lanes.
    #[tactic(auto, using(crate::proofs::Known::reads_known, crate::proofs::Known::reads_unknown, crate::proofs::Known::writes_known, crate::proofs::Known::writes_unknown))]
    pub fn effects(self, instr: &Instr) -> Result<Effects, AllocError>
        ensures reads { IfOk result (λ e. e.reads.items ≡ filter_map (number_in self.entry.lanes.now) (read_owners (entered_reads self.entry.target.now self.entry.func.now instr.now)) ++ act_readings (number_in self.entry.lanes.now) (acts_of (entered_writes self.entry.target.now self.entry.func.now instr.now))) }
        ensures writes { IfOk result (λ e. e.writes.items ≡ act_writings (number_in self.entry.lanes.now) (acts_of (entered_writes self.entry.target.now self.entry.func.now instr.now))) }
    {
        let mut effects = Effects::new(self.alloc)?;
        let Some(desc) = desc_of(self.target, &instr.op) else {
            return Ok(effects);
        };
        self.add(desc, instr.operands.as_slice(), &mut effects)?;
        Ok(effects)
    }

    /// What a use of a phi reads at the end of a block before the phi's.
    fn phi_read(self, op: &RegOp, block: u32) -> Result<PhiRead, AllocError>
        ensures { IfOk result (λ r. seen_read r ≡ phi_read_of self.entry.target.now self.entry.func.now (number_in self.entry.lanes.now) (op.now, block)) }
    {
        let mut lanes = Vec::new(self.alloc);
        self.read(op, &mut lanes)?;
        Ok(PhiRead { block, lanes })
    }

    /// What pairs of a use and a block read at the ends of these blocks.
    #[tactic(auto, using(crate::proofs::Pairs::pairs_step, crate::proofs::Pairs::pairs_none, crate::proofs::Pairs::pairs_long))]
    fn pair_reads(self, operands: &[Operand]) -> Result<Vec<PhiRead>, AllocError>
        ensures { IfOk result (λ rs. map seen_read rs.items ≡ map (phi_read_of self.entry.target.now self.entry.func.now (number_in self.entry.lanes.now)) (pairs_of operands.now)) }
    {
        let mut reads = Vec::new(self.alloc);
        let mut rest = operands;
        'pairs: while let Some((op, block)) = first_pair(rest) {
            reads.push(self.phi_read(&op, block)?)?;
            rest = &rest[2..];
        }
        Ok(reads)
    }

    /// What the uses of a phi read at the ends of the blocks before the phi's.
    #[tactic(auto, using(crate::proofs::Pairs::behind_some, crate::proofs::Pairs::behind_long, crate::proofs::Pairs::behind_none))]
    fn uses_at_ends(self, operands: &[Operand]) -> Result<Vec<PhiRead>, AllocError>
        ensures { IfOk result (λ rs. map seen_read rs.items ≡ map (phi_read_of self.entry.target.now self.entry.func.now (number_in self.entry.lanes.now)) (pairs_behind operands.now)) }
    {
        match register_at(operands, 0) {
            Some(_) => Ok(self.pair_reads(&operands[1..])?),
            None => Ok(Vec::new(self.alloc)),
        }
    }

    /// What a phi reads at the ends of the blocks before its own; nothing for other instructions.
    #[tactic(auto, using(crate::proofs::Pairs::no_uses, crate::proofs::Pairs::phi_uses, crate::proofs::Pairs::other_uses))]
    pub fn phi_reads(self, instr: &Instr) -> Result<Vec<PhiRead>, AllocError>
        ensures { IfOk result (λ rs. map seen_read rs.items ≡ map (phi_read_of self.entry.target.now self.entry.func.now (number_in self.entry.lanes.now)) (end_uses self.entry.target.now instr.now)) }
    {
        let Some(desc) = desc_of(self.target, &instr.op) else {
            return Ok(Vec::new(self.alloc));
        };
        if is_phi(desc.effect) {
            Ok(self.uses_at_ends(instr.operands.as_slice())?)
        } else {
            Ok(Vec::new(self.alloc))
        }
    }
}

/// The block that an operand names, where it names one.
fn as_block(operand: &Operand) -> Option<u32>
    ensures { result ≡ as_block operand.now }
{
    match operand {
        Operand::Block(number) => Some(*number),
        _ => None,
    }
}

/// The block at a place, if one is.
fn block_at(operands: &[Operand], place: usize) -> Option<u32>
    ensures { result ≡ block_at operands.now place }
{
    match operands.get(place) {
        Some(operand) => as_block(operand),
        None => None,
    }
}

/// The use and the block that stand first, if they do.
pub fn first_pair(operands: &[Operand]) -> Option<(RegOp, u32)>
    ensures { result ≡ first_pair operands.now }
{
    match register_at(operands, 0) {
        Some(op) => match block_at(operands, 1) {
            Some(block) => Some((op, block)),
            None => None,
        },
        None => None,
    }
}
