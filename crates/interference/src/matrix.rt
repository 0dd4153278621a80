//! The matrix: a function, the register of each assigned range, and what the ranges hold.

ghost use Rattle.std.specs.Prelude.{◌≡◌, ◌<◌, ◌≤◌, ◌*◌, ◌++◌, ◌∷◌, ◌^◌, [], ℕ, true, false, cond, not, ◌&&◌, ◌||◌, nat_eq, length, IfOk, OnOk, OnErr, MatchOption, slice_get, slice_set, slice_index, Some, None};
ghost use Rattle.std.specs.List.{list_any};
ghost use Rattle.std.specs.Ordering.{nat_cmp};
ghost use Rattle.std.specs.BTreeMap.{get};
ghost use Rattle.live_lanes.specs.Doing.{IsComputed};
ghost use Rattle.live_laws.specs.Effects.Coded.{KeepsRules};
ghost use Rattle.edit_laws.specs.Further.{KeepsLast};
ghost use Rattle.instr_effects.specs.Numbered.{number_in};
ghost use Rattle.instr_effects.specs.declared.owner.Owner.TheVariants as owners;
ghost use Rattle.live_lanes.specs.Table.{entry_rank, exit_rank};
ghost use Rattle.live_lanes.specs.Entered.{cells_of};
ghost use Rattle.live_lanes.specs.Looks.{InOrder};
ghost use Rattle.interference.specs.Clashes.{register_in, IsOrdered, is_held, is_held_at, is_held_at_start, is_fixed_at, are_taken, point, is_in_way, clash_at, is_free, holds, is_taken_by, some_cell_points, lane_points};
ghost use Rattle.interference.specs.Changes.{others_of};
ghost use Rattle.interference.specs.Listed.{KeepsLists, MayHold, KeepsExtents};
ghost use Rattle.interference.specs.Marked.{is_marked};

use crate::marks::Marks;
use crate::unit_table::UnitTable;
use live_lanes::{LiveFunc, Stretch};
use std::alloc::{AllocError, Global};
use target_base::{ClassId, List, Numbers, Reg, Unit};

/// What a range in a register would clash with.
#[derive(Drop)]
pub enum Clash {
    /// A unit that is live or written by itself.
    Fixed,
    /// Assigned ranges, by their numbers; none where it would clash with nothing.
    Ranges(Numbers),
}

/// A function with what is live in it, and the registers of the ranges that are assigned. No two
/// assigned ranges clash, and none clashes with a unit.
#[derive(Drop)]
pub struct Matrix {
    pub(crate) alloc: Global,
    pub(crate) live: LiveFunc,
    /// By range.
    registers: Vec<Option<Reg>>,
    pub(crate) held: UnitTable,
}

/// No register for any of so many ranges.
fn no_registers(alloc: Global, count: usize) -> Result<Vec<Option<Reg>>, AllocError>
    ensures count { IfOk result (λ r. length r.items ≡ count) }
    ensures none { IfOk result (λ r. (v : ℕ) → register_in r.items v ≡ None) }
{
    let mut registers = Vec::with_capacity(alloc, count)?;
    'each: for _ in 0..count {
        registers.push(None)?;
    }
    Ok(registers)
}

impl Matrix {
    /// A function without phis, with no range assigned.
    pub fn new(alloc: Global, f: LiveFunc) -> Result<Matrix, AllocError>
        ensures live { IfOk result (λ m. m.live ≡ f) }
        ensures none { IfOk result (λ m. (v : ℕ) → register_in m.registers.items v ≡ None) }
        ensures ordered { IfOk result (λ m. InOrder f.table → IsOrdered m) }
        ensures keeps { IfOk result (λ m. InOrder f.table → KeepsLists m) }
    {
        let units = f.target().units.len();
        let held = UnitTable::new(alloc, units, f.func().blocks.len())?;
        let registers = no_registers(alloc, f.func().classes.len())?;
        Ok(Matrix {
            alloc,
            live: f,
            registers,
            held,
        })
    }

    /// The function with what is live in it.
    pub fn live(&self) -> &LiveFunc
        ensures { result.now ≡ self.now.live }
    {
        &self.live
    }

    /// The function with what is live in it, alone.
    pub fn into_live(self) -> LiveFunc
        ensures { result ≡ self.live }
    {
        let Matrix { live, .. } = self;
        live
    }

    /// The register of a range; none exactly where it isn't assigned.
    pub fn register_of(&self, v: u32) -> Option<Reg>
        ensures { result ≡ register_in self.now.registers.items v }
    {
        self.registers.get(v as usize).copied().unwrap_or(None)
    }

    /// Whether a range in a register would clash with nothing.
    pub fn free(&self, v: u32, p: Reg) -> bool
        ensures { IsOrdered self.now → result ≡ is_free self.now v p }
    {
        let mut k = 0usize;
        'units: for u in self.live.target().units_at(p) {
            if self.is_lane_met(v, k, u.0 as u32) {
                return false;
            }
            k = k.saturating_add(1);
        }
        true
    }

    /// Whether a lane of a range in a unit would clash with something.
    fn is_lane_met(&self, v: u32, k: usize, unit: u32) -> bool
        ensures { IsOrdered self.now → result ≡ list_any (is_held_at self.now v) (lane_points self.now.live.table unit (number_in self.now.live.table.lanes (owners.Range v k))) }
    {
        let Some(lane) = self.live.lane_of(v, k) else {
            return false;
        };
        'cells: for place in 0..self.live.cell_count(lane) {
            if self.is_cell_met(v, unit, lane, place) {
                return true;
            }
        }
        false
    }

    fn is_cell_met(&self, v: u32, unit: u32, lane: u32, place: usize) -> bool
        ensures { IsOrdered self.now → result ≡ list_any (is_held_at self.now v) (some_cell_points self.now.live.table.order.slots unit (slice_get (cells_of self.now.live.table.rows.rows.items lane) place)) }
    {
        let Some(block) = self.live.cell_block(lane, place) else {
            return false;
        };
        'pieces: for index in 0..self.live.piece_count(lane, place) {
            if let Some(extent) = self.live.extent(lane, place, index) {
                if self.is_held(unit, v, block, extent.stretch(self.live.slots())) {
                    return true;
                }
            }
        }
        false
    }

    /// Whether a unit is live or written by itself, or held by another range than one, at some of
    /// these points of the block at a position.
    fn is_held(&self, unit: u32, but: u32, block: u32, at: Stretch) -> bool
        ensures { IsOrdered self.now → at.first ≤ at.last → result ≡ is_held self.now unit but block at }
    {
        if self.live.meets(unit, block, at) {
            return true;
        }
        match self.held.list(unit, block) {
            Some(list) => list.meets(self.live.slots(), at, but),
            None => false,
        }
    }

    /// What a range in a register would clash with.
    pub fn clashers(&self, v: u32, p: Reg) -> Result<Clash, AllocError>
        ensures { IsOrdered self.now → IfOk result (λ c. c ≡ clash_at self.now v p) }
    {
        let mut marks = Marks::new(self.alloc, self.registers.len())?;
        let mut k = 0usize;
        'units: for u in self.live.target().units_at(p) {
            if !self.mark_lane(v, k, u.0 as u32, &mut marks) {
                return Ok(Clash::Fixed);
            }
            k = k.saturating_add(1);
        }
        Ok(Clash::Ranges(List::from_vec(marks.numbers(self.alloc)?)))
    }

    /// Marks the ranges that a lane of a range in a unit would clash with. Answers false where it
    /// would clash with the unit.
    fn mark_lane(&self, v: u32, k: usize, unit: u32, marks: &mut Marks) -> bool
        ensures room { length marks.new.words.items ≡ length marks.old.words.items }
        ensures fixed { IsOrdered self.now → result ≡ not (list_any (is_fixed_at self.now) (lane_points self.now.live.table unit (number_in self.now.live.table.lanes (owners.Range v k)))) }
        ensures marked { IsOrdered self.now → result ≡ true → (w : ℕ) → w < length marks.old.words.items * 64
            → is_marked marks.new.words.items w ≡ (are_taken self.now v (lane_points self.now.live.table unit (number_in self.now.live.table.lanes (owners.Range v k))) w || is_marked marks.old.words.items w) }
    {
        let Some(lane) = self.live.lane_of(v, k) else {
            return true;
        };
        'cells: for place in 0..self.live.cell_count(lane) {
            if !self.mark_cell(v, unit, lane, place, marks) {
                return false;
            }
        }
        true
    }

    fn mark_cell(&self, v: u32, unit: u32, lane: u32, place: usize, marks: &mut Marks) -> bool
        ensures room { length marks.new.words.items ≡ length marks.old.words.items }
        ensures fixed { IsOrdered self.now → result ≡ not (list_any (is_fixed_at self.now) (some_cell_points self.now.live.table.order.slots unit (slice_get (cells_of self.now.live.table.rows.rows.items lane) place))) }
        ensures marked { IsOrdered self.now → result ≡ true → (w : ℕ) → w < length marks.old.words.items * 64
            → is_marked marks.new.words.items w ≡ (are_taken self.now v (some_cell_points self.now.live.table.order.slots unit (slice_get (cells_of self.now.live.table.rows.rows.items lane) place)) w || is_marked marks.old.words.items w) }
    {
        let Some(block) = self.live.cell_block(lane, place) else {
            return true;
        };
        'pieces: for index in 0..self.live.piece_count(lane, place) {
            if let Some(extent) = self.live.extent(lane, place, index) {
                let at = extent.stretch(self.live.slots());
                if self.live.meets(unit, block, at) {
                    return false;
                }
                self.mark_held(unit, v, block, at, marks);
            }
        }
        true
    }

    /// Marks the ranges other than one that hold a unit at some of these points.
    fn mark_held(&self, unit: u32, but: u32, block: u32, at: Stretch, marks: &mut Marks)
        ensures room { length marks.new.words.items ≡ length marks.old.words.items }
        ensures marked { IsOrdered self.now → (w : ℕ) → w < length marks.old.words.items * 64
            → is_marked marks.new.words.items w ≡ ((not (nat_eq w but) && is_taken_by self.now.live.table.order.slots (holds self.now unit block) w at) || is_marked marks.old.words.items w) }
    {
        if let Some(list) = self.held.list(unit, block) {
            list.mark(self.live.slots(), at, but, marks);
        }
    }

    /// One of the ranges that a range in a register would clash with, found sooner than all of them.
    /// None where it would clash with none.
    pub fn some_clasher(&self, v: u32, p: Reg) -> Option<u32>
        ensures { IsOrdered self.now → MatchOption result ((w : ℕ) → is_in_way self.now v p w ≡ false) (λ w. is_in_way self.now v p w ≡ true) }
    {
        let mut k = 0usize;
        'units: for u in self.live.target().units_at(p) {
            if let Some(w) = self.clasher_of_lane(v, k, u.0 as u32) {
                return Some(w);
            }
            k = k.saturating_add(1);
        }
        None
    }

    fn clasher_of_lane(&self, v: u32, k: usize, unit: u32) -> Option<u32>
        ensures { IsOrdered self.now → MatchOption result ((w : ℕ) → are_taken self.now v (lane_points self.now.live.table unit (number_in self.now.live.table.lanes (owners.Range v k))) w ≡ false)
            (λ w. are_taken self.now v (lane_points self.now.live.table unit (number_in self.now.live.table.lanes (owners.Range v k))) w ≡ true) }
    {
        let lane = self.live.lane_of(v, k)?;
        'cells: for place in 0..self.live.cell_count(lane) {
            if let Some(w) = self.clasher_in_cell(v, unit, lane, place) {
                return Some(w);
            }
        }
        None
    }

    fn clasher_in_cell(&self, v: u32, unit: u32, lane: u32, place: usize) -> Option<u32>
        ensures { IsOrdered self.now → MatchOption result ((w : ℕ) → are_taken self.now v (some_cell_points self.now.live.table.order.slots unit (slice_get (cells_of self.now.live.table.rows.rows.items lane) place)) w ≡ false)
            (λ w. are_taken self.now v (some_cell_points self.now.live.table.order.slots unit (slice_get (cells_of self.now.live.table.rows.rows.items lane) place)) w ≡ true) }
    {
        let block = self.live.cell_block(lane, place)?;
        let list = self.held.list(unit, block)?;
        'pieces: for index in 0..self.live.piece_count(lane, place) {
            if let Some(extent) = self.live.extent(lane, place, index) {
                let at = extent.stretch(self.live.slots());
                if let Some(w) = list.other(self.live.slots(), at, v) {
                    return Some(w);
                }
            }
        }
        None
    }

    /// Gives a range a register. After a refusal the range is unassigned, and all else unchanged.
    pub fn assign(&mut self, v: u32, p: Reg) -> Result<(), AllocError>
        ensures live { self.new.live ≡ self.old.live }
        ensures count { length self.new.registers.items ≡ length self.old.registers.items }
        ensures given { v < length self.old.registers.items → OnOk result ((w : ℕ) → register_in self.new.registers.items w ≡ cond (nat_eq v w) (Some p) (register_in self.old.registers.items w)) }
        ensures refused { OnErr result ((w : ℕ) → register_in self.new.registers.items w ≡ cond (nat_eq v w) None (register_in self.old.registers.items w)) }
        ensures kept { MayHold self.old v p → KeepsLists self.new }
        ensures others { MayHold self.old v p → (u b : ℕ) → others_of v (holds self.new u b) ≡ others_of v (holds self.old u b) }
    {
        self.unassign(v);
        match self.held.add_range(&self.live, v, p) {
            Ok(()) => {
                self.set_register(v, Some(p));
                Ok(())
            }
            Err(e) => {
                self.held.remove_range(&self.live, v, p);
                Err(e)
            }
        }
    }

    /// Gives a range another register, or none, in the list of registers alone.
    fn set_register(&mut self, v: u32, p: Option<Reg>)
        ensures rest { self.new ≡ record self.old { registers = self.new.registers } }
        ensures registers { self.new.registers.items ≡ slice_set self.old.registers.items v p }
    {
        let at = v as usize;
        if at >= self.registers.len() {
            return;
        }
        self.registers[at] = p;
    }

    /// Takes its register from a range, where it has one.
    pub fn unassign(&mut self, v: u32)
        ensures live { self.new.live ≡ self.old.live }
        ensures count { length self.new.registers.items ≡ length self.old.registers.items }
        ensures registers { (w : ℕ) → register_in self.new.registers.items w ≡ cond (nat_eq v w) None (register_in self.old.registers.items w) }
        ensures kept { KeepsLists self.old → KeepsLists self.new }
        ensures held { KeepsLists self.old → (u b : ℕ) → holds self.new u b ≡ others_of v (holds self.old u b) }
    {
        let Some(p) = self.register_of(v) else {
            return;
        };
        self.held.remove_range(&self.live, v, p);
        self.set_register(v, None);
    }

    /// Whether a unit is live or occupied at the entry of an instruction, or an assigned range other
    /// than `but` holds it there.
    pub fn held_in(&self, u: Unit, but: u32, id: u32) -> bool
        ensures { IsOrdered self.now → result ≡ is_held self.now u.0 but (slice_index self.now.live.table.order.block_of.items id) (point (entry_rank self.now.live.table.order.slots id)) }
    {
        self.is_held_at(u, but, self.live.position_of(id), self.live.entry_of(id))
    }

    /// The same at the exit of an instruction.
    pub fn held_out(&self, u: Unit, but: u32, id: u32) -> bool
        ensures { IsOrdered self.now → result ≡ is_held self.now u.0 but (slice_index self.now.live.table.order.block_of.items id) (point (exit_rank self.now.live.table.order.slots id)) }
    {
        self.is_held_at(u, but, self.live.position_of(id), self.live.exit_of(id))
    }

    /// The same at the start of the block of that number.
    pub fn held_at(&self, u: Unit, but: u32, block: u32) -> bool
        ensures { IsOrdered self.now → result ≡ is_held_at_start self.now u.0 but (get nat_cmp self.now.live.table.order.positions block) }
    {
        match self.live.block_position(block) {
            Some(position) => self.is_held_at(u, but, position, 0),
            None => false,
        }
    }

    /// Whether a unit is live or occupied at some of these points of the block at a position, or an
    /// assigned range other than `but` holds it there.
    pub fn is_held_along(&self, u: Unit, but: u32, position: u32, at: Stretch) -> bool
        ensures { IsOrdered self.now → at.first ≤ at.last → result ≡ is_held self.now u.0 but position at }
    {
        self.is_held(u.0 as u32, but, position, at)
    }

    fn is_held_at(&self, u: Unit, but: u32, block: u32, at: u128) -> bool
        ensures { IsOrdered self.now → result ≡ is_held self.now u.0 but block (point at) }
    {
        let point = Stretch {
            first: at,
            last: at,
        };
        self.is_held(u.0 as u32, but, block, point)
    }

    /// A new range number, which no operand names yet, for a class. The range is unassigned.
    pub fn fresh(&mut self, class: ClassId) -> Result<u32, AllocError>
        ensures held { self.new.held ≡ self.old.held }
        ensures target { self.new.live.target ≡ self.old.live.target }
        ensures registers { OnOk result (self.new.registers.items ≡ self.old.registers.items ++ None ∷ []) }
        ensures func { length self.old.live.func.classes < 2 ^ 31 → IfOk result (λ v. (v ≡ length self.old.live.func.classes) × (self.new.live.func ≡ record self.old.live.func { classes = self.old.live.func.classes ++ Some class ∷ [] })) }
        ensures refused { OnErr result ((self.new.live.func ≡ self.old.live.func) × (self.new.registers.items ≡ self.old.registers.items)) }
        ensures computed { length self.old.live.func.classes < 2 ^ 31 → IsComputed self.old.live.target self.old.live.func self.old.live.table → KeepsRules self.old.live.target self.old.live.func → KeepsLast self.old.live.target self.old.live.func → IsComputed self.new.live.target self.new.live.func self.new.live.table }
        ensures kept { length self.old.live.func.classes < 2 ^ 31 → KeepsExtents (length self.old.registers.items) self.old.live.table self.new.live.table → KeepsLists self.old → KeepsLists self.new }
        ensures extents { length self.old.live.func.classes < 2 ^ 31 → IsComputed self.old.live.target self.old.live.func self.old.live.table → KeepsRules self.old.live.target self.old.live.func → KeepsLast self.old.live.target self.old.live.func → length self.old.registers.items ≤ length self.old.live.func.classes → KeepsExtents (length self.old.registers.items) self.old.live.table self.new.live.table }
        ensures lists { length self.old.live.func.classes < 2 ^ 31 → IsComputed self.old.live.target self.old.live.func self.old.live.table → KeepsRules self.old.live.target self.old.live.func → KeepsLast self.old.live.target self.old.live.func → KeepsLists self.old → KeepsLists self.new }
    {
        let count = self.registers.len();
        self.registers.push(None)?;
        match self.live.fresh(class) {
            Ok(v) => Ok(v),
            Err(e) => {
                self.registers.truncate(count);
                Err(e)
            }
        }
    }
}
