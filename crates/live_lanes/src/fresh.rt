//! New ranges.

ghost use Rattle.std.specs.Prelude.{◌≡◌, ℕ, ◌+◌, ◌<◌, ◌^◌, ◌++◌, ◌∷◌, [], Some, length, take, IfOk, OnOk, OnErr};
ghost use Rattle.target_base.specs.Registers.{widths_of};
ghost use Rattle.instr_effects.specs.Numbered.{NumbersAll, AddsLanes, NumbersNext};
ghost use Rattle.live_lanes.specs.Entered.{rows_seen};
ghost use Rattle.live_lanes.specs.Further.{HasFurtherLanes};

use crate::live::LiveFunc;
use crate::row::LaneRange;
use crate::table::Table;
use instr_effects::lanes::LaneTable;
use instr_effects::registers::class_lanes;
use std::alloc::AllocError;
use target_base::ClassId;

/// The number of range numbers that there are.
const MOST: usize = 1 << 31;

/// How many owners and ranges there are.
fn counts(lanes: &LaneTable) -> (usize, usize)
    ensures owners { result.0 ≡ length lanes.now.owners.items }
    ensures ranges { result.1 ≡ length lanes.now.ranges.items }
{
    (lanes.owners.len(), lanes.ranges.len())
}

/// Takes the numbers away that come behind those of so many owners and ranges.
fn take_back(lanes: &mut LaneTable, owners: usize, ranges: usize)
    ensures owners { lanes.new.owners.items ≡ take owners lanes.old.owners.items }
    ensures ranges { lanes.new.ranges.items ≡ take ranges lanes.old.ranges.items }
    ensures reserved { lanes.new.reserved ≡ lanes.old.reserved }
    ensures slots { lanes.new.slots ≡ lanes.old.slots }
{
    lanes.owners.truncate(owners);
    lanes.ranges.truncate(ranges);
}

impl Table {
    /// Makes rows for the lanes that have none yet.
    fn add_rows(&mut self) -> Result<(), AllocError>
        ensures rest { self.new ≡ record self.old { rows = self.new.rows } }
        ensures seen { (l b : ℕ) → rows_seen self.new.rows.rows.items l b ≡ rows_seen self.old.rows.rows.items l b }
        ensures few { length self.old.rows.rows.items < 4294967296 → length self.old.lanes.owners.items < 4294967296 → length self.new.rows.rows.items < 4294967296 }
    {
        let alloc = self.rows.alloc;
        'lanes: for _ in self.rows.rows.len()..self.lanes.len() {
            self.rows.rows.push(LaneRange::new(alloc))?;
        }
        Ok(())
    }
}

impl LiveFunc {
    /// The next range number, which no operand names yet, for a class. Where all are given, none is
    /// made. After a refusal the function is unchanged, and lanes have the numbers that they had.
    pub fn fresh(&mut self, class: ClassId) -> Result<u32, AllocError>
        ensures ok { length self.old.func.classes < 2 ^ 31 → IfOk result (λ v. (v ≡ length self.old.func.classes) × (self.new.func ≡ record self.old.func { classes = self.old.func.classes ++ Some class ∷ [] })) }
        ensures err { OnErr result (self.new.func ≡ self.old.func) }
        ensures target { self.new.target ≡ self.old.target }
        ensures further { length self.old.table.rows.rows.items < 4294967296 → HasFurtherLanes self.old.table self.new.table }
        ensures numbers { NumbersAll self.old.target self.old.func self.old.table.lanes → NumbersAll self.new.target self.new.func self.new.table.lanes }
    {
        let count = self.func.classes.len();
        if count >= MOST {
            return Ok((count & 0xffff_ffff) as u32);
        }
        let (owners, ranges) = counts(&self.table.lanes);
        match self.make_fresh(class) {
            Ok(v) => Ok(v),
            Err(e) => {
                take_back(&mut self.table.lanes, owners, ranges);
                Err(e)
            }
        }
    }

    /// The same where a number is left. After a refusal lanes may have rows, or owners behind the last
    /// number.
    fn make_fresh(&mut self, class: ClassId) -> Result<u32, AllocError>
        requires { length self.old.func.classes < 2 ^ 31 }
        ensures ok { IfOk result (λ v. (v ≡ length self.old.func.classes) × (self.new.func ≡ record self.old.func { classes = self.old.func.classes ++ Some class ∷ [] })) }
        ensures err { OnErr result (self.new.func ≡ self.old.func) }
        ensures target { self.new.target ≡ self.old.target }
        ensures rest { self.new.table ≡ record self.old.table { lanes = self.new.table.lanes; rows = self.new.table.rows } }
        ensures adds { AddsLanes self.old.table.lanes self.new.table.lanes }
        ensures numbered { OnOk result (NumbersNext self.old.table.lanes self.new.table.lanes (length (widths_of self.old.target class))) }
        ensures seen { (l b : ℕ) → rows_seen self.new.table.rows.rows.items l b ≡ rows_seen self.old.table.rows.rows.items l b }
        ensures few { length self.old.table.rows.rows.items < 4294967296 → length self.new.table.rows.rows.items < 4294967296 }
    {
        let alloc = self.table.rows.alloc;
        let count = class_lanes(self.target.get(), class);
        self.table.lanes.add_range(alloc, count)?;
        self.table.add_rows()?;
        self.func.fresh(class)
    }
}
