//! Which spill slots clash: at one point a lane of each is live or occupied.

ghost use Rattle.std.specs.Prelude.{◌≡◌, slice_get};
ghost use Rattle.std.specs.List.{list_any};
ghost use Rattle.live_lanes.specs.Entered.{cells_of};
ghost use Rattle.live_lanes.specs.Looks.{InOrder};
ghost use Rattle.slot_colour.specs.Clashes.{is_met_in, do_meet, numbers_in, is_clash};

use instr_effects::LaneSpan;
use live_lanes::LiveFunc;

/// Whether a lane has a point at which another one has one in the block of one of its cells.
fn is_met_in(live: &LiveFunc, one: u32, place: usize, other: u32) -> bool
    ensures { InOrder live.now.table → result ≡ is_met_in live.now.table other (slice_get (cells_of live.now.table.rows.rows.items one) place) }
{
    let Some(block) = live.cell_block(one, place) else {
        return false;
    };
    'pieces: for index in 0..live.piece_count(one, place) {
        if let Some(extent) = live.extent(one, place, index) {
            if live.meets(other, block, extent.stretch(live.slots())) {
                return true;
            }
        }
    }
    false
}

/// Whether two lanes have a point in common.
fn do_meet(live: &LiveFunc, one: u32, other: u32) -> bool
    ensures { InOrder live.now.table → result ≡ do_meet live.now.table one other }
{
    'cells: for place in 0..live.cell_count(one) {
        if is_met_in(live, one, place, other) {
            return true;
        }
    }
    false
}

/// Whether a lane has a point in common with one of some lanes.
fn meets_one(live: &LiveFunc, one: u32, others: LaneSpan) -> bool
    ensures { InOrder live.now.table → result ≡ list_any (do_meet live.now.table one) (numbers_in others) }
{
    if live.cell_count(one) == 0 {
        return false;
    }
    'lanes: for k in 0..others.count {
        if do_meet(live, one, others.first + k) {
            return true;
        }
    }
    false
}

/// Whether some of these lanes has a point in common with one of those.
fn some_meet(live: &LiveFunc, these: LaneSpan, those: LaneSpan) -> bool
    ensures { InOrder live.now.table → result ≡ list_any (λ one. list_any (do_meet live.now.table one) (numbers_in those)) (numbers_in these) }
{
    'lanes: for k in 0..these.count {
        if meets_one(live, these.first + k, those) {
            return true;
        }
    }
    false
}

/// Whether two slots clash.
pub(crate) fn is_clash(live: &LiveFunc, s: u32, r: u32) -> bool
    ensures { InOrder live.now.table → result ≡ is_clash live.now.table s r }
{
    match live.lanes_of_slot(s) {
        None => false,
        Some(these) => match live.lanes_of_slot(r) {
            None => false,
            Some(those) => some_meet(live, these, those),
        },
    }
}
