//! Which units are live at the start of blocks, of a function whose ranges are in registers.

ghost use Rattle.std.specs.Prelude.{◌≡◌, ℕ, false, true, ◌&&◌, nat_eq, nat_lt, length, take, slice_get, slice_set, replicate, IfOk};
ghost use Rattle.instr_effects.specs.Numbered.{number_in};
ghost use Rattle.instr_effects.specs.declared.owner.Owner.TheVariants as owners;
ghost use Rattle.live_lanes.specs.Entered.{cells_of};
ghost use Rattle.rewriter.specs.LiveUnits.{flags_at, live_into, enters, some_enters, unit_enters, holds_live, assigned_units, held_live, is_live_unit, Marks, entered_block, is_at};

use instr_effects::Owner;
use live_lanes::LiveFunc;
use std::alloc::{AllocError, Global};
use target_base::{List, Reg, Target, Unit};

/// Whether each unit is live at the start of each block.
#[derive(Drop)]
pub struct LiveUnits {
    /// By the position of the block in the layout, and by unit.
    blocks: List<List<bool>>,
}

/// Sets the flag of a number, if there is one.
pub(crate) fn set_flag(flags: &mut List<bool>, k: usize)
    ensures { flags.new ≡ slice_set flags.old k true }
{
    if k < flags.len() {
        *flags.get_mut(k) = true;
    }
}

/// The block of one of a lane's cells, where the lane has points that begin with it.
fn entered_block(live: &LiveFunc, lane: u32, place: usize) -> Option<u32>
    ensures { result ≡ entered_block (slice_get (cells_of live.now.table.rows.rows.items lane) place) }
{
    match live.extent(lane, place, 0) {
        None => None,
        Some(_) => live.cell_block(lane, place),
    }
}

/// The units of a register, if it is assigned.
fn assigned_units(target: &Target, r: Option<Reg>) -> &[Unit]
    ensures { result.now ≡ assigned_units target.now r }
{
    match r {
        None => &[],
        Some(r) => target.units_at(r),
    }
}

/// The number of blocks of the function.
fn block_count(live: &LiveFunc) -> usize
    ensures { result ≡ length live.now.func.blocks }
{
    live.func().blocks.len()
}

/// The number of units of the target.
fn unit_count(live: &LiveFunc) -> usize
    ensures { result ≡ length live.now.target.units }
{
    live.target().units.len()
}

/// So many flags, of which none is set.
pub(crate) fn no_flags(alloc: Global, count: usize) -> Result<List<bool>, AllocError>
    ensures { IfOk result (λ made. made ≡ replicate count false) }
{
    Ok(List::from_vec(Vec::from_elem(alloc, false, count)?))
}

impl LiveUnits {
    /// So many units, which are live in none of so many blocks.
    fn none(alloc: Global, units: usize, blocks: usize) -> Result<LiveUnits, AllocError>
        ensures { IfOk result (λ made. made.blocks ≡ replicate blocks (replicate units false)) }
    {
        let mut made = List::new(alloc);
        'rows: while made.len() < blocks {
            let flags = no_flags(alloc, units)?;
            made.push(flags)?;
        }
        Ok(LiveUnits { blocks: made })
    }

    /// The units that are live where each range is in its register: those that are live by themselves,
    /// and those that hold a lane which is live. A range without a register holds none. The same units
    /// are live in physical form: a COPY of a register to itself, which goes there, reads a lane only
    /// where the other one is live behind it.
    pub fn of(
        alloc: Global,
        live: &LiveFunc,
        registers: &[Option<Reg>],
    ) -> Result<LiveUnits, AllocError>
        ensures { IfOk result (λ made. (p u : ℕ) → live_into made p u ≡ is_live_unit live.now registers.now p u) }
    {
        let mut made = LiveUnits::none(alloc, unit_count(live), block_count(live))?;
        made.mark_units(live);
        made.mark_ranges(live, registers);
        Ok(made)
    }

    /// Whether each unit is live at the start of the block at a position; none where there is no such
    /// block.
    pub(crate) fn at(&self, position: usize) -> &[bool]
        ensures { result.now ≡ flags_at self.now position }
    {
        match self.blocks.as_slice().get(position) {
            Some(units) => units.as_slice(),
            None => &[],
        }
    }

    /// Marks a unit as live at the start of the block at a position.
    fn mark(&mut self, u: Unit, position: u32)
        ensures { Marks (λ p w. nat_eq u.0 w && nat_eq position p) self.old self.new }
    {
        if (position as usize) < self.blocks.len() {
            set_flag(self.blocks.get_mut(position as usize), u.0 as usize);
        }
    }

    /// Marks a unit as live at the start of the block at a position, if there is one.
    fn mark_at(&mut self, u: Unit, position: Option<u32>)
        ensures { Marks (λ p w. nat_eq u.0 w && is_at position p) self.old self.new }
    {
        match position {
            None => {}
            Some(p) => self.mark(u, p),
        }
    }

    /// Marks a unit, which holds a lane, where the lane is live at the start of the block of a cell:
    /// where it has points that begin with the block.
    fn mark_cell(&mut self, live: &LiveFunc, u: Unit, lane: u32, place: usize)
        ensures { Marks (λ p w. nat_eq u.0 w && is_at (entered_block (slice_get (cells_of live.now.table.rows.rows.items lane) place)) p) self.old self.new }
    {
        self.mark_at(u, entered_block(live, lane, place));
    }

    /// Marks a unit, which holds a lane, in each block at whose start the lane is live.
    fn mark_lane(&mut self, live: &LiveFunc, u: Unit, lane: u32)
        ensures { Marks (λ p w. nat_eq u.0 w && enters live.now.table lane p) self.old self.new }
    {
        'cells: for place in 0..live.cell_count(lane) {
            self.mark_cell(live, u, lane, place);
        }
    }

    /// The same of a lane that may have a number.
    fn mark_some_lane(&mut self, live: &LiveFunc, u: Unit, lane: Option<u32>)
        ensures { Marks (λ p w. nat_eq u.0 w && some_enters live.now.table lane p) self.old self.new }
    {
        match lane {
            None => {}
            Some(n) => self.mark_lane(live, u, n),
        }
    }

    /// Marks a unit where it is live by itself. Reserved units are live nowhere.
    fn mark_unit(&mut self, live: &LiveFunc, u: Unit)
        ensures { Marks (λ p w. nat_eq u.0 w && unit_enters live.now.table u.0 p) self.old self.new }
    {
        self.mark_some_lane(live, u, live.table.lanes.number(Owner::Unit(u.0 as u32)));
    }

    /// Marks the units that are live by themselves.
    #[tactic(auto, using(crate::proofs::Covers::few_units))]
    fn mark_units(&mut self, live: &LiveFunc)
        ensures { Marks (λ p w. nat_lt w (length live.now.target.units) && unit_enters live.now.table w p) self.old self.new }
    {
        'units: for k in 0..live.target().units.len() {
            self.mark_unit(live, Unit(k as u16));
        }
    }

    /// Marks the unit that holds the lane of a range.
    fn mark_held(&mut self, live: &LiveFunc, v: u32, k: usize, u: Unit)
        ensures { Marks (λ p w. nat_eq u.0 w && some_enters live.now.table (number_in live.now.table.lanes (owners.Range v k)) p) self.old self.new }
    {
        self.mark_some_lane(live, u, live.lane_of(v, k));
    }

    /// Marks the units that hold the lanes of a range.
    fn mark_range(&mut self, live: &LiveFunc, v: u32, units: &[Unit])
        ensures { Marks (holds_live live.now.table v 0 units.now) self.old self.new }
    {
        'lanes: for k in 0..units.len() {
            self.mark_held(live, v, k, units[k]);
        }
    }

    /// Marks the units of a range's register.
    fn mark_assigned(&mut self, live: &LiveFunc, v: u32, r: Option<Reg>)
        ensures { Marks (holds_live live.now.table v 0 (assigned_units live.now.target r)) self.old self.new }
    {
        self.mark_range(live, v, assigned_units(live.target(), r));
    }

    /// Marks the units that hold ranges.
    fn mark_ranges(&mut self, live: &LiveFunc, registers: &[Option<Reg>])
        ensures { Marks (held_live live.now.target live.now.table 0 (take 4294967296 registers.now)) self.old self.new }
    {
        'each: for v in 0..registers.len().min(0x1_0000_0000) {
            self.mark_assigned(live, v as u32, registers[v]);
        }
    }
}
