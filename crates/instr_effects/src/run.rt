//! The numbers of lanes, one after another.

ghost use Rattle.std.specs.Prelude.{◌≡◌, ◌++◌, OnOk, length, get_or, map, flat_map, zip, cond, nat_lt, None};
ghost use Rattle.mir_meaning.specs.Registers.{numbers};
ghost use Rattle.instr_effects.specs.Row.{lane_in};
ghost use Rattle.instr_effects.specs.Numbers.{unit_number_in};
ghost use Rattle.instr_effects.specs.Runs.{run_numbers, one_lane, one_writing, one_move, one_kept};

use crate::effects::Effects;
use crate::numbers::unit_number;
use crate::row::LaneSpan;
use mir_meaning::LaneDef;
use std::alloc::AllocError;
use target_base::Unit;

/// The numbers of lanes, one after another; some may have none.
#[derive(Clone, Copy)]
pub enum LaneSequence<'a> {
    /// Those of units, and which units are reserved; these have none.
    Units(&'a [Unit], &'a [bool]),
    /// Those of so many lanes in a row, from the first on.
    First(LaneSpan, usize),
    /// Those of the lanes in a row that an index picks.
    Picked(LaneSpan, &'a [u8]),
    /// So many lanes without a number.
    Nothing(usize),
}

/// The number of the unit at a place.
#[tactic(auto, using(crate::proofs::Runs::map_at))]
fn unit_at(units: &[Unit], reserved: &[bool], k: usize) -> Option<u32>
    ensures { result ≡ get_or (map (λ u. unit_number_in reserved.now u.0) units.now) k None }
{
    match units.get(k) {
        Some(u) => unit_number(reserved, u.0 as u32),
        None => None,
    }
}

/// The number of the lane that an index picks at a place.
#[tactic(auto, using(crate::proofs::Runs::map_at))]
fn picked_at(own: LaneSpan, picked: &[u8], k: usize) -> Option<u32>
    ensures { result ≡ get_or (map (lane_in own.first own.count) picked.now) k None }
{
    match picked.get(k) {
        Some(lane) => own.lane(*lane as u32),
        None => None,
    }
}

/// The number of the lane at a place among so many in a row.
#[tactic(auto, using(crate::proofs::Runs::first_at, crate::proofs::Runs::past_first))]
fn first_at(own: LaneSpan, count: usize, k: usize) -> Option<u32>
    ensures { result ≡ get_or (map (lane_in own.first own.count) (numbers 0 count)) k None }
{
    if k < count { own.lane_at(k) } else { None }
}

impl<'a> LaneSequence<'a> {
    /// How many lanes there are.
    #[tactic(auto, using(crate::proofs::Runs::numbers_many))]
    pub fn len(self) -> usize
        ensures { result ≡ length (run_numbers self.entry) }
    {
        match self {
            LaneSequence::Units(units, _) => units.len(),
            LaneSequence::First(_, count) => count,
            LaneSequence::Picked(_, picked) => picked.len(),
            LaneSequence::Nothing(count) => count,
        }
    }

    /// The number of the lane at a place.
    #[tactic(auto, using(crate::proofs::Runs::nothing_at))]
    pub(crate) fn number(self, k: usize) -> Option<u32>
        ensures { result ≡ get_or (run_numbers self.entry) k None }
    {
        match self {
            LaneSequence::Units(units, reserved) => unit_at(units, reserved, k),
            LaneSequence::First(own, count) => first_at(own, count, k),
            LaneSequence::Picked(own, picked) => picked_at(own, picked, k),
            LaneSequence::Nothing(_) => None,
        }
    }
}

/// Adds the number of a lane, where it has one.
pub(crate) fn push_lane(lane: Option<u32>, lanes: &mut Vec<u32>) -> Result<(), AllocError>
    ensures { OnOk result (lanes.new.items ≡ lanes.old.items ++ one_lane lane) }
{
    if let Some(lane) = lane {
        lanes.push(lane)?;
    }
    Ok(())
}

/// Adds the numbers of lanes, without those that have none.
#[tactic(auto, using(crate::proofs::Runs::gathered_at, crate::proofs::Loops::gathered_all))]
pub(crate) fn push_lanes(run: LaneSequence<'_>, lanes: &mut Vec<u32>) -> Result<(), AllocError>
    ensures { OnOk result (lanes.new.items ≡ lanes.old.items ++ flat_map one_lane (run_numbers run.entry)) }
{
    'lanes: for k in 0..run.len() {
        push_lane(run.number(k), lanes)?;
    }
    Ok(())
}

/// Adds the writing of a lane that gets nothing that another lane held, where it has a number.
pub(crate) fn push_writing(
    lane: Option<u32>,
    early: bool,
    writes: &mut Vec<LaneDef>,
) -> Result<(), AllocError>
    ensures { OnOk result (writes.new.items ≡ writes.old.items ++ one_writing early lane) }
{
    if let Some(lane) = lane {
        writes.push(LaneDef {
            lane,
            from: None,
            early,
        })?;
    }
    Ok(())
}

/// Adds the writings of lanes that get nothing that other lanes held.
#[tactic(auto, using(crate::proofs::Runs::gathered_at, crate::proofs::Loops::gathered_all))]
pub(crate) fn push_writings(
    run: LaneSequence<'_>,
    early: bool,
    writes: &mut Vec<LaneDef>,
) -> Result<(), AllocError>
    ensures { OnOk result (writes.new.items ≡ writes.old.items ++ flat_map (one_writing early) (run_numbers run.entry)) }
{
    'lanes: for k in 0..run.len() {
        push_writing(run.number(k), early, writes)?;
    }
    Ok(())
}

/// Adds the move of a lane to another one. What goes to a lane without a number is read in any case.
fn move_lane(
    to: Option<u32>,
    from: Option<u32>,
    early: bool,
    effects: &mut Effects,
) -> Result<(), AllocError>
    ensures reads { OnOk result (effects.new.reads.items ≡ effects.old.reads.items ++ one_kept (to, from)) }
    ensures writes { OnOk result (effects.new.writes.items ≡ effects.old.writes.items ++ one_move early (to, from)) }
{
    match to {
        Some(lane) => effects.writes.push(LaneDef { lane, from, early })?,
        None => push_lane(from, &mut effects.reads)?,
    }
    Ok(())
}

/// Adds the moves of lanes to others, as far as both go.
#[tactic(auto, using(crate::proofs::Runs::moved_at, crate::proofs::Runs::moved_all))]
pub(crate) fn move_lanes(
    to: LaneSequence<'_>,
    from: LaneSequence<'_>,
    early: bool,
    effects: &mut Effects,
) -> Result<(), AllocError>
    ensures reads { OnOk result (effects.new.reads.items ≡ effects.old.reads.items ++ flat_map one_kept (zip (run_numbers to.entry) (run_numbers from.entry))) }
    ensures writes { OnOk result (effects.new.writes.items ≡ effects.old.writes.items ++ flat_map (one_move early) (zip (run_numbers to.entry) (run_numbers from.entry))) }
{
    let count = to.len().min(from.len());
    'lanes: for k in 0..count {
        move_lane(to.number(k), from.number(k), early, effects)?;
    }
    Ok(())
}
