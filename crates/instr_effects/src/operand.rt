//! The numbers of the lanes of operands, and what operands read and write.

ghost use Rattle.std.specs.Prelude.{◌≡◌, ◌++◌, OnOk, map, filter_map, flat_map, zip, option_and_then, false};
ghost use Rattle.mir_meaning.specs.Registers.{undefined_lanes, use_sources};
ghost use Rattle.mir_func.specs.declared.func.Loc.TheVariants as locs;
ghost use Rattle.instr_effects.specs.Owners.{owner_of, source_owner, operand_owners, located_owners};
ghost use Rattle.instr_effects.specs.Acts.{plain, result_acts, use_owners};
ghost use Rattle.instr_effects.specs.Numbered.{number_in};
ghost use Rattle.instr_effects.specs.Runs.{run_numbers, one_writing, one_move, one_kept};
ghost use Rattle.instr_effects.specs.Steps.{act_writings};

use crate::effects::{EffectReader, Effects};
use crate::registers::lane_count;
use crate::run::{LaneSequence, move_lanes, push_lanes, push_writings};
use mir_func::{Loc, RegOp};
use mir_meaning::LaneDef;
use std::alloc::AllocError;
use target_base::IndexId;

impl<'a> EffectReader<'a> {
    /// The lanes of a virtual register, or those that an index picks.
    #[tactic(auto, using(crate::proofs::Runs::range_run))]
    fn range_lanes(self, v: u32, index: Option<IndexId>) -> LaneSequence<'a>
        ensures { run_numbers result ≡ map (number_in self.entry.lanes.now) (located_owners self.entry.target.now self.entry.func.now (locs.Virtual v) index) }
    {
        let own = self.lanes.of_range(v);
        match index {
            None => LaneSequence::First(own, lane_count(self.target, self.func, v)),
            Some(x) => LaneSequence::Picked(own, self.target.lanes_at(x)),
        }
    }

    /// The lanes of a location.
    #[tactic(auto, using(crate::proofs::Runs::unit_run))]
    fn location_lanes(self, loc: Loc, index: Option<IndexId>) -> LaneSequence<'a>
        ensures { run_numbers result ≡ map (number_in self.entry.lanes.now) (located_owners self.entry.target.now self.entry.func.now loc index) }
    {
        match loc {
            Loc::Fixed(r) => LaneSequence::Units(
                self.target.units_at(r),
                self.lanes.reserved.as_slice(),
            ),
            Loc::Virtual(v) => self.range_lanes(v, index),
        }
    }

    /// The lanes of a register operand.
    pub(crate) fn operand_lanes(self, op: &RegOp) -> LaneSequence<'a>
        ensures { run_numbers result ≡ map (number_in self.entry.lanes.now) (operand_owners self.entry.target.now self.entry.func.now op.now) }
    {
        self.location_lanes(op.loc, op.index)
    }

    /// The lanes that an `undef` definition makes undefined beside those that it gives a value.
    #[tactic(auto, using(crate::proofs::Operands::other_owners_of))]
    fn other_lanes(self, op: &RegOp) -> LaneSequence<'a>
        ensures { run_numbers result ≡ map (number_in self.entry.lanes.now) (map owner_of (undefined_lanes self.entry.target.now self.entry.func.now op.now)) }
    {
        if !op.def || !op.undef {
            return LaneSequence::Nothing(0);
        }
        match op.loc {
            Loc::Virtual(_) => self.location_lanes(op.loc, None),
            Loc::Fixed(_) => LaneSequence::Nothing(0),
        }
    }

    /// What a use gives: its lanes, or nothing where it is `undef`.
    #[tactic(auto, using(crate::proofs::Runs::given_run, crate::proofs::Runs::undef_run))]
    pub(crate) fn given_lanes(self, op: &RegOp) -> LaneSequence<'a>
        ensures { run_numbers result ≡ map (option_and_then (number_in self.entry.lanes.now)) (map source_owner (use_sources self.entry.target.now self.entry.func.now op.now)) }
    {
        let lanes = self.operand_lanes(op);
        if op.undef {
            return LaneSequence::Nothing(lanes.len());
        }
        lanes
    }

    /// Adds the lanes that a use reads; an `undef` one reads none.
    #[tactic(auto, using(crate::proofs::Runs::read_run, crate::proofs::Runs::read_none))]
    pub(crate) fn read(self, op: &RegOp, reads: &mut Vec<u32>) -> Result<(), AllocError>
        ensures { OnOk result (reads.new.items ≡ reads.old.items ++ filter_map (number_in self.entry.lanes.now) (use_owners self.entry.target.now self.entry.func.now op.now)) }
    {
        if op.undef {
            return Ok(());
        }
        push_lanes(self.operand_lanes(op), reads)
    }

    /// Adds what a definition writes that is given what stands at these lanes.
    pub(crate) fn define(
        self,
        op: &RegOp,
        from: LaneSequence<'_>,
        early: bool,
        effects: &mut Effects,
    ) -> Result<(), AllocError>
        ensures reads { OnOk result (effects.new.reads.items ≡ effects.old.reads.items ++ flat_map one_kept (zip (map (number_in self.entry.lanes.now) (operand_owners self.entry.target.now self.entry.func.now op.now)) (run_numbers from.entry))) }
        ensures writes { OnOk result (effects.new.writes.items ≡ effects.old.writes.items ++ (flat_map (one_move early) (zip (map (number_in self.entry.lanes.now) (operand_owners self.entry.target.now self.entry.func.now op.now)) (run_numbers from.entry)) ++ flat_map (one_writing early) (map (number_in self.entry.lanes.now) (map owner_of (undefined_lanes self.entry.target.now self.entry.func.now op.now))))) }
    {
        move_lanes(self.operand_lanes(op), from, early, effects)?;
        push_writings(self.other_lanes(op), early, &mut effects.writes)
    }

    /// Adds the lanes of a definition.
    #[tactic(auto, using(crate::proofs::Runs::written))]
    pub(crate) fn fill_register(
        self,
        op: &RegOp,
        early: bool,
        writes: &mut Vec<LaneDef>,
    ) -> Result<(), AllocError>
        ensures { OnOk result (writes.new.items ≡ writes.old.items ++ act_writings (number_in self.entry.lanes.now) (map (plain early) (operand_owners self.entry.target.now self.entry.func.now op.now))) }
    {
        push_writings(self.operand_lanes(op), early, writes)
    }

    /// Adds what an explicit definition writes whose value is computed.
    #[tactic(auto, using(crate::proofs::Runs::result_run))]
    pub(crate) fn fill_result(
        self,
        op: &RegOp,
        early: bool,
        writes: &mut Vec<LaneDef>,
    ) -> Result<(), AllocError>
        ensures { OnOk result (writes.new.items ≡ writes.old.items ++ act_writings (number_in self.entry.lanes.now) (result_acts self.entry.target.now self.entry.func.now early op.now)) }
    {
        push_writings(self.operand_lanes(op), early, writes)?;
        push_writings(self.other_lanes(op), early, writes)?;
        Ok(())
    }
}
