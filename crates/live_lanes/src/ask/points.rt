//! The points of a range: those at which some lane of it is live or occupied.

ghost use Rattle.std.specs.Prelude.{◌≡◌, ◌<◌, ◌≤◌, ◌-◌, ◌||◌, ℕ, Bool, true, length, nat_le, nat_lt, slice_get};
ghost use Rattle.live_lanes.specs.Table.{entry_rank, exit_rank, leading, rises_from, seen_cell, unseen, seen_in};
ghost use Rattle.live_lanes.specs.Entered.{rows_seen};
ghost use Rattle.live_lanes.specs.Ordered.{ids_of, AreRising};
ghost use Rattle.live_lanes.specs.Looks.{InOrder};
ghost use Rattle.live_lanes.specs.Held.{IsSpan, IsLastBefore, later_place, AreUnseen, AreRanked, next_rank, exits_at, begins_at, held_at, any_held, passing, block_held, sum_below, range_held};

use crate::live::LiveFunc;
use crate::row::{Cell, LaneRange, entry_rank, exit_rank, rank, reaches};
use crate::table::{LaneRanges, Table};
use instr_effects::row::LaneSpan;
use mir_func::{Block, Instr};
use slot_index::Slots;
use target_base::Boxed;

/// What holds of lanes from a point on: whether one is live or occupied, and the rank before which
/// this stays so.
#[derive(Clone, Copy)]
pub(crate) struct LiveSpan {
    pub is_held: bool,
    pub end: u128,
}

impl LiveSpan {
    /// What holds of two lanes together.
    fn with(self, other: LiveSpan) -> LiveSpan
        ensures further { (at : ℕ) → at < self.end → at < other.end → at < result.end }
        ensures span { (p q : ℕ → Bool) (at : ℕ) → IsSpan p at self → IsSpan q at other → IsSpan (λ x. p x || q x) at result }
    {
        if self.is_held != other.is_held {
            if self.is_held {
                return self;
            }
            return other;
        }
        let end = if self.is_held {
            self.end.max(other.end)
        } else {
            self.end.min(other.end)
        };
        LiveSpan {
            is_held: self.is_held,
            end,
        }
    }
}

impl Cell {
    /// The first point at which the lane is occupied by the writing that begins the piece behind
    /// that number; behind all points, where there is none.
    fn next_rank(&self, slots: &Slots, index: usize) -> u128
        ensures { result ≡ next_rank slots.now (seen_cell self.now).segments index }
    {
        match self.segments.as_slice().get(index) {
            Some(segment) => {
                if segment.early {
                    entry_rank(slots, segment.start)
                } else {
                    exit_rank(slots, segment.start)
                }
            }
            None => u128::MAX,
        }
    }

    /// Whether the piece of that number begins with a writing at this point, which is an exit.
    fn begins_at(&self, slots: &Slots, at: u128, index: usize) -> bool
        ensures { result ≡ begins_at slots.now at (seen_cell self.now).segments index }
    {
        if index == 0 {
            return false;
        }
        self.exits_at(slots, at, index - 1)
    }

    /// Whether the writing of that number is done at this point, which is an exit.
    fn exits_at(&self, slots: &Slots, at: u128, index: usize) -> bool
        ensures { result ≡ exits_at slots.now at (slice_get (seen_cell self.now).segments index) }
    {
        match self.segments.as_slice().get(index) {
            Some(segment) => exit_rank(slots, segment.start) == at,
            None => false,
        }
    }

    /// What holds of the lane from the point of this rank on.
    fn span(&self, slots: &Slots, at: u128) -> LiveSpan
        requires { at < 340282366920938463463374607431768211455 }
        ensures further { at < result.end }
        ensures span { rises_from slots.now 0 (seen_cell self.now).segments ≡ true
            → IsSpan (held_at slots.now (seen_cell self.now)) at result }
    {
        let index = self.piece_at(slots, at);
        let next = self.next_rank(slots, index);
        if next <= at {
            return LiveSpan {
                is_held: true,
                end: at + 1,
            };
        }
        let end = self.end_of(index);
        if reaches(slots, end, at) {
            return LiveSpan {
                is_held: true,
                end: rank(slots, end).saturating_add(1).min(next),
            };
        }
        if self.begins_at(slots, at, index) {
            return LiveSpan {
                is_held: true,
                end: at + 1,
            };
        }
        LiveSpan {
            is_held: false,
            end: next,
        }
    }
}

impl LaneRange {
    /// Whether a place is behind the cells of the blocks from a position on, and those alone.
    fn is_place_before(&self, at: usize, bound: usize) -> bool
        ensures { result ≡ true → at ≡ leading (λ c. nat_le bound c.block) self.now.cells.items }
    {
        let count = self.cells.len();
        if at > count {
            return false;
        }
        if at > 0 && (self.cells[at - 1].block as usize) < bound {
            return false;
        }
        at == count || (self.cells[at].block as usize) < bound
    }

    /// The place behind the cells of the blocks from a position on, which may be this one.
    fn place_before(&self, near: usize, bound: usize) -> usize
        ensures { result ≡ leading (λ c. nat_le bound c.block) self.now.cells.items }
    {
        if self.is_place_before(near, bound) {
            return near;
        }
        self.cells
            .as_slice()
            .partition_point(|c| c.block as usize >= bound)
    }

    /// The last block before a position that has a cell, which is looked for at a place first.
    fn last_before(&self, near: usize, bound: usize) -> Option<u32>
        ensures { IsLastBefore (λ b. seen_in self.now.cells.items b ≡ unseen) bound result }
    {
        let at = self.place_before(near, bound);
        if at >= self.cells.len() {
            return None;
        }
        Some(self.cells[at].block)
    }
}

/// The later one of two positions, where there are such.
fn later(one: Option<u32>, other: Option<u32>) -> Option<u32>
    ensures { result ≡ later_place one other }
{
    match one {
        Some(a) => match other {
            Some(b) => Some(a.max(b)),
            None => one,
        },
        None => other,
    }
}

impl Table {
    /// What holds of the lanes of a range in a block from the point of this rank on. The cells of
    /// the block are looked for at a place and behind it first.
    fn span(&self, own: LaneSpan, near: usize, block: u32, at: u128) -> LiveSpan
        requires { at < 340282366920938463463374607431768211455 }
        ensures further { at < result.end }
        ensures span { InOrder self.now → IsSpan (any_held self.now.order.slots self.now.rows.rows.items own.first own.count block) at result }
    {
        let mut span = LiveSpan {
            is_held: false,
            end: u128::MAX,
        };
        'lanes: for k in 0..own.count {
            span = self.lane_span(own.first + k, near, block, at).with(span);
        }
        span
    }

    /// The same of one lane.
    fn lane_span(&self, lane: u32, near: usize, block: u32, at: u128) -> LiveSpan
        requires { at < 340282366920938463463374607431768211455 }
        ensures further { at < result.end }
        ensures span { InOrder self.now → IsSpan (held_at self.now.order.slots (rows_seen self.now.rows.rows.items lane block)) at result }
    {
        match self.rows.cell_near(lane, near, block) {
            Some(cell) => cell.span(&self.order.slots, at),
            None => LiveSpan {
                is_held: false,
                end: u128::MAX,
            },
        }
    }

    /// How many points of a block lie before a rank.
    fn points_below(&self, instrs: &[Boxed<Instr>], at: u128) -> u64
        ensures { AreRising self.now.order.slots 0 (ids_of instrs.now)
            → result ≡ passing self.now.order.slots (λ x. nat_lt x at) (ids_of instrs.now) }
    {
        if at == 0 {
            return 0;
        }
        if at == u128::MAX {
            return (instrs.len() as u64) * 2 + 1;
        }
        let slots = &self.order.slots;
        let entries = instrs.partition_point(|i| entry_rank(slots, i.get().id) < at);
        let exits = self.exits_below(instrs, entries, at);
        (entries as u64) + (exits as u64) + 1
    }

    /// How many exits of a block lie before a rank, before which that many entries do. The ranks
    /// rise along the block, so that only the exit of the last of these instructions may not.
    fn exits_below(&self, instrs: &[Boxed<Instr>], entries: usize, at: u128) -> usize
        requires { entries ≤ length instrs.now }
        ensures bound { result ≤ entries }
        ensures exits { AreRising self.now.order.slots 0 (ids_of instrs.now)
            → entries ≡ leading (λ i. nat_lt (entry_rank self.now.order.slots i.id) at) instrs.now
            → result ≡ leading (λ i. nat_lt (exit_rank self.now.order.slots i.id) at) instrs.now }
    {
        if entries == 0 {
            return 0;
        }
        let last = entries - 1;
        if exit_rank(&self.order.slots, instrs[last].get().id) < at {
            entries
        } else {
            last
        }
    }

    /// How many points of a block lie from one rank on up to before another one.
    fn points_between(&self, instrs: &[Boxed<Instr>], first: u128, end: u128) -> u64
        ensures few { AreRising self.now.order.slots 0 (ids_of instrs.now)
            → passing self.now.order.slots (λ x. nat_lt x end) (ids_of instrs.now) < 18446744073709551616 }
        ensures between { AreRising self.now.order.slots 0 (ids_of instrs.now)
            → result ≡ passing self.now.order.slots (λ x. nat_lt x end) (ids_of instrs.now) - passing self.now.order.slots (λ x. nat_lt x first) (ids_of instrs.now) }
    {
        let before = self.points_below(instrs, end);
        before.saturating_sub(self.points_below(instrs, first))
    }

    /// The number of points in a block at which some of the lanes is live or occupied. The cells of
    /// the block are looked for at a place and behind it first.
    fn points_in(&self, instrs: &[Boxed<Instr>], own: LaneSpan, near: usize, block: u32) -> u64
        ensures { InOrder self.now → AreRising self.now.order.slots 0 (ids_of instrs.now)
            → result ≡ passing self.now.order.slots (any_held self.now.order.slots self.now.rows.rows.items own.first own.count block) (ids_of instrs.now) }
    {
        let mut count = 0u64;
        let mut at = 0u128;
        'spans: while at < u128::MAX {
            let span = self.span(own, near, block, at);
            if span.is_held {
                count = count.saturating_add(self.points_between(instrs, at, span.end));
            }
            at = span.end;
        }
        count
    }

    /// The last block before a position in which one of the lanes has a cell. It is looked for at a
    /// place in each row first.
    fn last_before(&self, own: LaneSpan, near: usize, bound: usize) -> Option<u32>
        ensures { IsLastBefore (AreUnseen self.now.rows.rows.items own.first own.count) bound result }
    {
        let mut last = None;
        'lanes: for k in 0..own.count {
            if let Some(lane) = own.lane(k) {
                last = later(self.rows.last_before(lane, near, bound), last);
            }
        }
        last
    }
}

impl LaneRanges {
    /// The last block before a position in which the lane has a cell, which is looked for at a place
    /// first.
    fn last_before(&self, lane: u32, near: usize, bound: usize) -> Option<u32>
        ensures { IsLastBefore (λ b. rows_seen self.now.rows.items lane b ≡ unseen) bound result }
    {
        match self.rows.as_slice().get(lane as usize) {
            Some(row) => row.last_before(near, bound),
            None => None,
        }
    }
}

impl Table {
    /// The number of points at which some lane of a range is live or occupied, in a function of
    /// these blocks.
    fn points(&self, blocks: &[Block], v: u32) -> u64
        ensures { InOrder self.now → AreRanked self.now.order.slots blocks.now
            → range_held self.now blocks.now v < 18446744073709551616
            → result ≡ range_held self.now blocks.now v }
    {
        let own = self.lanes.of_range(v);
        self.points_of(blocks, self.counted_lanes(own))
    }

    /// The number of points at which one of these lanes is live or occupied. A row has its cells
    /// from the last block to the first, so that a lane alone has those of the blocks that are
    /// counted place by place.
    fn points_of(&self, blocks: &[Block], own: LaneSpan) -> u64
        ensures { InOrder self.now → AreRanked self.now.order.slots blocks.now
            → sum_below (block_held self.now blocks.now own.first own.count) (length blocks.now) < 18446744073709551616
            → result ≡ sum_below (block_held self.now blocks.now own.first own.count) (length blocks.now) }
    {
        let mut total = 0u64;
        let mut bound = blocks.len();
        let mut near = 0usize;
        'layout: while let Some(block) = self.last_before(own, near, bound) {
            total = total.saturating_add(self.points_at(blocks, own, near, block));
            bound = block as usize;
            near = near.saturating_add(1);
        }
        total
    }

    /// The number of points in the block at a position at which some of the lanes is live or
    /// occupied. The cells of the block are looked for at a place and behind it first.
    fn points_at(&self, blocks: &[Block], own: LaneSpan, near: usize, block: u32) -> u64
        ensures { InOrder self.now → AreRanked self.now.order.slots blocks.now
            → result ≡ block_held self.now blocks.now own.first own.count block }
    {
        let at = block as usize;
        if at >= blocks.len() {
            return 0;
        }
        let here = &blocks[at];
        self.points_in(here.instrs.as_slice(), own, near, block)
    }
}

impl LiveFunc {
    /// The number of points at which some lane of a range is live or occupied.
    pub fn points(&self, v: u32) -> u64
        ensures { InOrder self.now.table → AreRanked self.now.table.order.slots self.now.func.blocks
            → range_held self.now.table self.now.func.blocks v < 18446744073709551616
            → result ≡ range_held self.now.table self.now.func.blocks v }
    {
        self.table.points(self.func.blocks.as_slice(), v)
    }
}
