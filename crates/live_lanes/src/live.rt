//! A function with what is live in it.

ghost use Rattle.std.specs.Prelude.{◌≡◌, Some, IfOk};
ghost use Rattle.std.specs.Ordering.{nat_cmp};
ghost use Rattle.std.specs.BTreeMap.{get};
ghost use Rattle.instr_effects.specs.Numbered.{number_in};
ghost use Rattle.instr_effects.specs.declared.owner.Owner.TheVariants as owners;
ghost use Rattle.live_lanes.specs.Marks.{marked_at};
ghost use Rattle.live_lanes.specs.Doing.{IsComputed};
ghost use Rattle.live_lanes.specs.Looks.{InOrder, entry_at, exit_at};

use crate::compute::enter::enter_pieces;
use crate::compute::flow::flow_of;
use crate::order::Order;
use crate::row::{entry_rank, exit_rank};
use crate::table::Table;
use instr_effects::lanes_of;
use instr_effects::owner::Owner;
use mir_func::Func;
use std::alloc::{AllocError, Global};
use target_base::{Shared, Target, Unit};

/// Exactly where each lane of a function is live and written, without the function and its target.
#[derive(Drop)]
pub struct LiveTable {
    pub table: Table,
}

/// A function, its target, and exactly where each lane is live and written.
#[derive(Drop)]
pub struct LiveFunc {
    pub target: Shared<Target>,
    pub func: Func,
    pub table: Table,
}

impl Table {
    /// What is known of a function besides its text.
    fn of(alloc: Global, target: &Target, func: &Func) -> Result<Table, AllocError>
        ensures { IfOk result (IsComputed target.now func.now) }
    {
        let lanes = lanes_of(alloc, target, func)?;
        let order = Order::of(alloc, func)?;
        let flow = flow_of(alloc, target, &order, func)?;
        let mut rows = enter_pieces(alloc, target, &lanes, &order, func)?;
        rows.grow(&order, flow.as_slice())?;
        rows.end_all(&order, flow.as_slice());
        Ok(Table {
            lanes,
            order,
            flow,
            rows,
        })
    }

    /// The number of a lane of a virtual register.
    fn lane(&self, v: u32, lane: usize) -> Option<u32>
        ensures { result ≡ number_in self.now.lanes (owners.Range v lane) }
    {
        let own = self.lanes.of_range(v);
        match u32::try_from(lane) {
            Ok(k) => own.lane(k),
            Err(_) => None,
        }
    }

    /// The number of the lane of a unit. Reserved units have none.
    fn unit_lane(&self, u: Unit) -> Option<u32>
        ensures { result ≡ number_in self.now.lanes (owners.Unit u.0) }
    {
        self.lanes.number(Owner::Unit(u.0 as u32))
    }

    /// Whether the lane of that number is live at the entry of the instruction of that id.
    fn enters(&self, lane: u32, id: u32) -> bool
        ensures { InOrder self.now → result ≡ entry_at self.now (Some lane) id }
    {
        let at = entry_rank(&self.order.slots, id);
        self.is_live_at(lane, self.order.block_of(id), at)
    }

    /// Whether the lane of that number is live at the exit of the instruction of that id.
    fn leaves(&self, lane: u32, id: u32) -> bool
        ensures { InOrder self.now → result ≡ exit_at self.now (Some lane) id }
    {
        let at = exit_rank(&self.order.slots, id);
        self.is_live_at(lane, self.order.block_of(id), at)
    }

    /// Whether a lane of a virtual register is live at the start of the block of that number.
    fn live_at(&self, v: u32, lane: usize, block: u32) -> bool
        ensures { result ≡ marked_at self.now.rows.rows.items (number_in self.now.lanes (owners.Range v lane)) (get nat_cmp self.now.order.positions block) }
    {
        match self.lane(v, lane) {
            Some(lane) => self.is_live_in(lane, block),
            None => false,
        }
    }

    /// Whether a unit is live at the start of the block of that number. Reserved units are not.
    fn unit_at(&self, u: Unit, block: u32) -> bool
        ensures { result ≡ marked_at self.now.rows.rows.items (number_in self.now.lanes (owners.Unit u.0)) (get nat_cmp self.now.order.positions block) }
    {
        match self.unit_lane(u) {
            Some(lane) => self.is_live_in(lane, block),
            None => false,
        }
    }
}

impl LiveTable {
    /// What is live in a function under a target. The function may have phis.
    pub fn compute(alloc: Global, target: &Target, func: &Func) -> Result<LiveTable, AllocError>
        ensures { IfOk result (λ x. IsComputed target.now func.now x.table) }
    {
        Ok(LiveTable {
            table: Table::of(alloc, target, func)?,
        })
    }

    /// Whether a lane of a virtual register is live at the start of the block of that number.
    pub fn live_at(&self, v: u32, lane: usize, block: u32) -> bool
        ensures { result ≡ marked_at self.now.table.rows.rows.items (number_in self.now.table.lanes (owners.Range v lane)) (get nat_cmp self.now.table.order.positions block) }
    {
        self.table.live_at(v, lane, block)
    }

    /// Whether a unit is live at the start of the block of that number. Reserved units are not.
    pub fn unit_at(&self, u: Unit, block: u32) -> bool
        ensures { result ≡ marked_at self.now.table.rows.rows.items (number_in self.now.table.lanes (owners.Unit u.0)) (get nat_cmp self.now.table.order.positions block) }
    {
        self.table.unit_at(u, block)
    }
}

impl LiveFunc {
    /// The function with what is live in it under a target, which is copied. It may have phis.
    pub fn compute(alloc: Global, target: &Target, f: Func) -> Result<LiveFunc, AllocError>
        ensures parts { IfOk result (λ x. (x.target ≡ target.now) × (x.func ≡ f)) }
        ensures exact { IfOk result (λ x. IsComputed target.now f x.table) }
    {
        let table = Table::of(alloc, target, &f)?;
        let target = Shared::new(alloc, target.copy(alloc)?)?;
        Ok(LiveFunc {
            target,
            func: f,
            table,
        })
    }

    /// The function with what is live in it under a target, of which it is an owner. It may have phis.
    pub fn compute_within(
        alloc: Global,
        target: Shared<Target>,
        f: Func,
    ) -> Result<LiveFunc, AllocError>
        ensures parts { IfOk result (λ x. (x.target ≡ target) × (x.func ≡ f)) }
        ensures exact { IfOk result (λ x. IsComputed target f x.table) }
    {
        let table = Table::of(alloc, target.get(), &f)?;
        Ok(LiveFunc {
            target,
            func: f,
            table,
        })
    }

    /// The function with a table that was computed of it under the target.
    pub fn of_parts(target: Shared<Target>, func: Func, table: LiveTable) -> LiveFunc
        requires { IsComputed target func table.table }
        ensures parts { (result.target ≡ target) × (result.func ≡ func) }
        ensures exact { IsComputed result.target result.func result.table }
    {
        LiveFunc {
            target,
            func,
            table: table.table,
        }
    }

    /// The function.
    pub fn func(&self) -> &Func
        ensures { result.now ≡ self.now.func }
    {
        &self.func
    }

    /// The target.
    pub fn target(&self) -> &Target
        ensures { result.now ≡ self.now.target }
    {
        self.target.get()
    }

    /// The function alone.
    pub fn into_func(self) -> Func
        ensures { result ≡ self.func }
    {
        let LiveFunc { func, .. } = self;
        func
    }

    /// The function and the target, without what is live.
    pub fn into_parts(self) -> (Shared<Target>, Func)
        ensures target { result.0 ≡ self.target }
        ensures func { result.1 ≡ self.func }
    {
        let LiveFunc { target, func, .. } = self;
        (target, func)
    }

    /// Whether a lane of a virtual register is live at the entry of the instruction of that id.
    pub fn live_in(&self, v: u32, lane: usize, id: u32) -> bool
        ensures { InOrder self.now.table → result ≡ entry_at self.now.table (number_in self.now.table.lanes (owners.Range v lane)) id }
    {
        match self.table.lane(v, lane) {
            Some(lane) => self.table.enters(lane, id),
            None => false,
        }
    }

    /// Whether a lane of a virtual register is live at the exit of the instruction of that id.
    pub fn live_out(&self, v: u32, lane: usize, id: u32) -> bool
        ensures { InOrder self.now.table → result ≡ exit_at self.now.table (number_in self.now.table.lanes (owners.Range v lane)) id }
    {
        match self.table.lane(v, lane) {
            Some(lane) => self.table.leaves(lane, id),
            None => false,
        }
    }

    /// Whether a lane of a virtual register is live at the start of the block of that number.
    pub fn live_at(&self, v: u32, lane: usize, block: u32) -> bool
        ensures { result ≡ marked_at self.now.table.rows.rows.items (number_in self.now.table.lanes (owners.Range v lane)) (get nat_cmp self.now.table.order.positions block) }
    {
        self.table.live_at(v, lane, block)
    }

    /// Whether a unit is live at the entry of the instruction of that id. Reserved units are not.
    pub fn unit_in(&self, u: Unit, id: u32) -> bool
        ensures { InOrder self.now.table → result ≡ entry_at self.now.table (number_in self.now.table.lanes (owners.Unit u.0)) id }
    {
        match self.table.unit_lane(u) {
            Some(lane) => self.table.enters(lane, id),
            None => false,
        }
    }

    /// Whether a unit is live at the exit of the instruction of that id. Reserved units are not.
    pub fn unit_out(&self, u: Unit, id: u32) -> bool
        ensures { InOrder self.now.table → result ≡ exit_at self.now.table (number_in self.now.table.lanes (owners.Unit u.0)) id }
    {
        match self.table.unit_lane(u) {
            Some(lane) => self.table.leaves(lane, id),
            None => false,
        }
    }

    /// Whether a unit is live at the start of the block of that number. Reserved units are not.
    pub fn unit_at(&self, u: Unit, block: u32) -> bool
        ensures { result ≡ marked_at self.now.table.rows.rows.items (number_in self.now.table.lanes (owners.Unit u.0)) (get nat_cmp self.now.table.order.positions block) }
    {
        self.table.unit_at(u, block)
    }
}
