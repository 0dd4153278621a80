//! Whether a join loses no value: where a lane is written, no other lane that would be one with it
//! is live behind the instruction or written by it.

ghost use Rattle.std.specs.Prelude.{◌≡◌, ◌≤◌, ℕ, true, length, Decides, nat_eq, position, slice_get, Some};
ghost use Rattle.std.specs.List.{list_all};
ghost use Rattle.mir_meaning.specs.Points.{is_range};
ghost use Rattle.live_lanes.specs.Table.{begun, rises_from, seen_cell};
ghost use Rattle.live_lanes.specs.Entered.{rows_seen};
ghost use Rattle.live_lanes.specs.Held.{begins_at, exits_at};
ghost use Rattle.coalescer.specs.Asked.{AsksQuiet, IsFoundOf, IsQuietLane, IsQuietNumbered, IsQuietTo, copies_lane, first_writing, is_apart, is_quiet_in, is_quiet_writing, is_written_at, lane_in, partner, piece_stretch, place_in, same_place};
ghost use Rattle.coalescer.specs.Coalescing.{MayCoalesce, instr_of, sides_in};

use crate::sides::sides_at;
use live_edits::Join;
use live_lanes::row::{Cell, DefPiece, entry_rank, exit_rank, rank};
use live_lanes::{LiveFunc, Stretch};
use mir_func::{Loc, RegOp};
use slot_index::Slots;
use target_base::{IndexId, Target};

/// A lane: its range, and its number in it.
type RangeLane = (u32, usize);

/// Two lanes that become one, with the numbers that they have among all; the writings of the first are
/// looked at.
#[derive(Clone, Copy)]
struct LanePair {
    own: RangeLane,
    own_number: u32,
    other: RangeLane,
    other_number: u32,
}

/// Whether a join loses no value.
pub(crate) fn is_quiet(target: &Target, live: &LiveFunc, join: Join) -> bool
    ensures { MayCoalesce target.now live.now → Decides result (AsksQuiet target.now live.now join) }
{
    if !is_quiet_for(target, live, join, join.keep) {
        return false;
    }
    is_quiet_for(target, live, join, join.gone)
}

/// Whether the writings of a range lose none.
fn is_quiet_for(target: &Target, live: &LiveFunc, join: Join, v: u32) -> bool
    ensures { MayCoalesce target.now live.now → Decides result ((k : ℕ) → IsQuietLane target.now live.now join v k) }
{
    'lanes: for k in 0..live.lane_count(v) {
        if !is_quiet_lane(target, live, join, v, k as usize) {
            return false;
        }
    }
    true
}

/// Whether those of a lane of it lose none.
fn is_quiet_lane(target: &Target, live: &LiveFunc, join: Join, v: u32, k: usize) -> bool
    ensures { MayCoalesce target.now live.now → Decides result (IsQuietLane target.now live.now join v k) }
{
    match partner(target, join, v, k) {
        Some(other) => is_quiet_to(target, live, (v, k), other),
        None => true,
    }
}

/// Whether the writings of a lane lose no value of another one.
fn is_quiet_to(target: &Target, live: &LiveFunc, own: RangeLane, other: RangeLane) -> bool
    ensures { MayCoalesce target.now live.now → Decides result (IsQuietTo target.now live.now own other) }
{
    match live.lane_of(own.0, own.1) {
        Some(number) => is_quiet_numbered(target, live, own, number, other),
        None => true,
    }
}

/// The same of a lane of this number.
fn is_quiet_numbered(
    target: &Target,
    live: &LiveFunc,
    own: RangeLane,
    own_number: u32,
    other: RangeLane,
) -> bool
    ensures { MayCoalesce target.now live.now → Decides result (IsQuietNumbered target.now live.now own own_number other) }
{
    match live.lane_of(other.0, other.1) {
        Some(other_number) => {
            let pair = LanePair {
                own,
                own_number,
                other,
                other_number,
            };
            is_quiet_pair(target, live, pair)
        }
        None => true,
    }
}

/// Whether the writings of the first of two lanes lose no value of the other. In a block in which
/// either has no cell they lose none, so that the blocks of the one that has fewer are looked at.
fn is_quiet_pair(target: &Target, live: &LiveFunc, pair: LanePair) -> bool
    ensures { MayCoalesce target.now live.now
        → Decides result ((p : ℕ) → is_quiet_in target.now live.now pair.own pair.own_number pair.other pair.other_number p ≡ true) }
{
    let own = live.table.rows.cells(pair.own_number);
    let other = live.table.rows.cells(pair.other_number);
    if other.len() < own.len() {
        are_quiet_in(target, live, pair, other)
    } else {
        are_quiet_in(target, live, pair, own)
    }
}

/// Whether they lose none in the blocks of these cells.
fn are_quiet_in(target: &Target, live: &LiveFunc, pair: LanePair, cells: &[Cell]) -> bool
    ensures { MayCoalesce target.now live.now
        → result ≡ list_all (λ c. is_quiet_in target.now live.now pair.own pair.own_number pair.other pair.other_number c.block) cells.now }
{
    'cells: for i in 0..cells.len() {
        if !is_quiet_in(target, live, pair, cells[i].block) {
            return false;
        }
    }
    true
}

/// Whether they lose none in the block at a position.
fn is_quiet_in(target: &Target, live: &LiveFunc, pair: LanePair, block: u32) -> bool
    ensures { MayCoalesce target.now live.now
        → result ≡ is_quiet_in target.now live.now pair.own pair.own_number pair.other pair.other_number block }
{
    match live.table.rows.cell(pair.own_number, block) {
        Some(here) => is_quiet_cell(target, live, pair, here, block),
        None => true,
    }
}

/// Whether the writings in a cell, which stands in that block, lose none.
fn is_quiet_cell(target: &Target, live: &LiveFunc, pair: LanePair, here: &Cell, block: u32) -> bool
    ensures { MayCoalesce target.now live.now → rises_from live.now.table.order.slots 0 (seen_cell here.now).segments ≡ true
        → result ≡ list_all (is_quiet_writing target.now live.now pair.own pair.other (rows_seen live.now.table.rows.rows.items pair.other_number block)) (seen_cell here.now).segments }
{
    match live.table.rows.cell(pair.other_number, block) {
        Some(there) => is_quiet_beside(target, live, pair, here, there),
        None => true,
    }
}

/// Whether the writings in a cell of the first lane lose no value of the other, which stands so in the
/// same block. Away from its points they lose none, so that it is asked along them where it has fewer
/// pieces.
fn is_quiet_beside(
    target: &Target,
    live: &LiveFunc,
    pair: LanePair,
    here: &Cell,
    there: &Cell,
) -> bool
    ensures { MayCoalesce target.now live.now → rises_from live.now.table.order.slots 0 (seen_cell here.now).segments ≡ true → rises_from live.now.table.order.slots 0 (seen_cell there.now).segments ≡ true
        → result ≡ list_all (is_quiet_writing target.now live.now pair.own pair.other (seen_cell there.now)) (seen_cell here.now).segments }
{
    if there.segments.len() < here.segments.len() {
        are_quiet_at_points(target, live, pair, here, there)
    } else {
        are_all_quiet(target, live, pair, here, there)
    }
}

/// The same, asked of each writing.
fn are_all_quiet(
    target: &Target,
    live: &LiveFunc,
    pair: LanePair,
    here: &Cell,
    there: &Cell,
) -> bool
    ensures { MayCoalesce target.now live.now → rises_from live.now.table.order.slots 0 (seen_cell there.now).segments ≡ true
        → result ≡ list_all (is_quiet_writing target.now live.now pair.own pair.other (seen_cell there.now)) (seen_cell here.now).segments }
{
    'writings: for i in 0..here.segments.len() {
        if !is_quiet_writing(target, live, pair, there, &here.segments[i]) {
            return false;
        }
    }
    true
}

/// The same, asked along the points of the other lane.
fn are_quiet_at_points(
    target: &Target,
    live: &LiveFunc,
    pair: LanePair,
    here: &Cell,
    there: &Cell,
) -> bool
    ensures { MayCoalesce target.now live.now → rises_from live.now.table.order.slots 0 (seen_cell here.now).segments ≡ true → rises_from live.now.table.order.slots 0 (seen_cell there.now).segments ≡ true
        → result ≡ list_all (is_quiet_writing target.now live.now pair.own pair.other (seen_cell there.now)) (seen_cell here.now).segments }
{
    let count = there.segments.len() + 1;
    'pieces: for i in 0..count {
        if !are_quiet_within(
            target,
            live,
            pair,
            here,
            there,
            piece_stretch(live.slots(), there, i),
        ) {
            return false;
        }
    }
    true
}

/// Whether those writings lose none whose entry or exit is one of these points.
fn are_quiet_within(
    target: &Target,
    live: &LiveFunc,
    pair: LanePair,
    here: &Cell,
    there: &Cell,
    at: Stretch,
) -> bool
    ensures { MayCoalesce target.now live.now → rises_from live.now.table.order.slots 0 (seen_cell here.now).segments ≡ true → rises_from live.now.table.order.slots 0 (seen_cell there.now).segments ≡ true
        → IsFoundOf live.now.table.order.slots (is_quiet_writing target.now live.now pair.own pair.other (seen_cell there.now)) at (seen_cell here.now).segments result }
{
    'writings: for i in first_writing(live.slots(), here, at.first)..here.segments.len() {
        if entry_rank(live.slots(), here.segments[i].start) > at.last {
            return true;
        }
        if !is_quiet_writing(target, live, pair, there, &here.segments[i]) {
            return false;
        }
    }
    true
}

/// The first writing in a cell whose exit is at a point or behind it; the number of writings where
/// there is none.
fn first_writing(slots: &Slots, here: &Cell, at: u128) -> usize
    ensures within { result ≤ length (seen_cell here.now).segments }
    ensures value { rises_from slots.now 0 (seen_cell here.now).segments ≡ true → result ≡ first_writing slots.now at (seen_cell here.now).segments }
{
    if at == 0 {
        return 0;
    }
    here.piece_at(slots, at - 1)
}

/// The points of a piece of a cell, by its number, and those of the writing that begins it.
fn piece_stretch(slots: &Slots, there: &Cell, index: usize) -> Stretch
    ensures { result ≡ piece_stretch slots.now (seen_cell there.now) index }
{
    if index == 0 {
        return Stretch {
            first: 0,
            last: rank(slots, there.first.end),
        };
    }
    match there.segments.get(index - 1) {
        Some(segment) => {
            let exit = exit_rank(slots, segment.start);
            Stretch {
                first: exit,
                last: rank(slots, segment.piece.end).max(exit),
            }
        }
        None => Stretch { first: 0, last: 0 },
    }
}

/// Whether a writing of the first lane loses no value of the other.
fn is_quiet_writing(
    target: &Target,
    live: &LiveFunc,
    pair: LanePair,
    there: &Cell,
    writing: &DefPiece,
) -> bool
    ensures { MayCoalesce target.now live.now → rises_from live.now.table.order.slots 0 (seen_cell there.now).segments ≡ true
        → result ≡ is_quiet_writing target.now live.now pair.own pair.other (seen_cell there.now) (begun writing.now) }
{
    if is_apart(live.slots(), there, writing) {
        return true;
    }
    match sides_at(target, live, writing.start) {
        Some(sides) => {
            copies_lane(target, &sides, pair.own, pair.other)
                || copies_lane(target, &sides, pair.own, pair.own)
        }
        None => false,
    }
}

/// Whether a lane, which stands so in a block, isn't live behind a writing of another one there, nor
/// written by the same instruction; nor live before it, where the writing is early.
fn is_apart(slots: &Slots, there: &Cell, writing: &DefPiece) -> bool
    ensures { rises_from slots.now 0 (seen_cell there.now).segments ≡ true → result ≡ is_apart slots.now (seen_cell there.now) (begun writing.now) }
{
    let exit = exit_rank(slots, writing.start);
    if there.is_live_at(slots, exit) {
        return false;
    }
    if is_written_at(slots, there, exit) {
        return false;
    }
    if !writing.early {
        return true;
    }
    !there.is_live_at(slots, entry_rank(slots, writing.start))
}

/// Whether the lane of a cell is written at the exit that a point is.
fn is_written_at(slots: &Slots, there: &Cell, at: u128) -> bool
    ensures { rises_from slots.now 0 (seen_cell there.now).segments ≡ true → result ≡ is_written_at slots.now (seen_cell there.now) at }
{
    begins_at(slots, there, at, there.piece_at(slots, at))
}

/// Whether the piece of a number begins at the exit that a point is.
fn begins_at(slots: &Slots, there: &Cell, at: u128, index: usize) -> bool
    ensures { result ≡ begins_at slots.now at (seen_cell there.now).segments index }
{
    if index == 0 {
        return false;
    }
    exits_at(slots, there, at, index - 1)
}

/// Whether the writing of a number has that exit.
fn exits_at(slots: &Slots, there: &Cell, at: u128, index: usize) -> bool
    ensures { result ≡ exits_at slots.now at (slice_get (seen_cell there.now).segments index) }
{
    match there.segments.as_slice().get(index) {
        Some(segment) => exit_rank(slots, segment.start) == at,
        None => false,
    }
}

/// The lane of the other range that becomes one with a lane, and its range.
fn partner(target: &Target, join: Join, v: u32, k: usize) -> Option<RangeLane>
    ensures { result ≡ partner target.now join v k }
{
    if v == join.keep {
        match place_in(target, join.index, k) {
            Some(place) => Some((join.gone, place)),
            None => None,
        }
    } else {
        match lane_in(target, join.index, k) {
            Some(lane) => Some((join.keep, lane)),
            None => None,
        }
    }
}

/// The place of a lane among those of an index; its number without one.
fn place_in(target: &Target, index: Option<IndexId>, k: usize) -> Option<usize>
    ensures { result ≡ place_in target.now index k }
{
    match index {
        None => Some(k),
        Some(index) => lane_place(target.lanes_at(index), k),
    }
}

/// The first place of a lane in a list of them.
fn lane_place(lanes: &[u8], k: usize) -> Option<usize>
    ensures { result ≡ position (λ l. nat_eq l k) lanes.now }
{
    lanes.iter().position(|lane| *lane as usize == k)
}

/// The lane at a place among those of an index; that of the number without one.
fn lane_in(target: &Target, index: Option<IndexId>, k: usize) -> Option<usize>
    ensures { result ≡ lane_in target.now index k }
{
    match index {
        None => Some(k),
        Some(index) => match target.lanes_at(index).get(k) {
            Some(lane) => Some(*lane as usize),
            None => None,
        },
    }
}

/// Whether a copy with these sides copies the first lane from the second.
fn copies_lane(target: &Target, sides: &(RegOp, RegOp), to: RangeLane, from: RangeLane) -> bool
    ensures { result ≡ copies_lane target.now (Some sides.now) to from }
{
    if !is_on(sides.0.loc, to.0) || !is_on(sides.1.loc, from.0) {
        return false;
    }
    is_same_place(
        place_in(target, sides.0.index, to.1),
        place_in(target, sides.1.index, from.1),
    )
}

/// Whether a location is a range.
fn is_on(loc: Loc, v: u32) -> bool
    ensures { result ≡ is_range v loc }
{
    match loc {
        Loc::Virtual(w) => v == w,
        Loc::Fixed(_) => false,
    }
}

/// Whether there are two places, and they are one.
fn is_same_place(a: Option<usize>, b: Option<usize>) -> bool
    ensures { result ≡ same_place a b }
{
    match a {
        None => false,
        Some(p) => match b {
            None => false,
            Some(q) => p == q,
        },
    }
}
