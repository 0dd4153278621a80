//! Lanes of a range that have the same points, of which one is counted for all.

ghost use Rattle.std.specs.Prelude.{◌≡◌, ◌<◌, ◌+◌, ℕ, true, map};
ghost use Rattle.live_lanes.specs.Alike.{bounds, outline};
ghost use Rattle.live_lanes.specs.Entered.{rows_seen};
ghost use Rattle.live_lanes.specs.Held.{any_held};
ghost use Rattle.live_lanes.specs.Table.{begun, seen_cell, seen_in};

use crate::row::{Cell, DefPiece, PieceEnd};
use crate::table::{LaneRanges, Table};
use instr_effects::row::LaneSpan;

/// Whether two ends are the same.
fn is_same_end(a: PieceEnd, b: PieceEnd) -> bool
    ensures { result ≡ true → a ≡ b }
{
    match a {
        PieceEnd::Never => matches!(b, PieceEnd::Never),
        PieceEnd::Entry(id) => matches!(b, PieceEnd::Entry(other) if other == id),
        PieceEnd::Exit(id) => matches!(b, PieceEnd::Exit(other) if other == id),
        PieceEnd::Last => matches!(b, PieceEnd::Last),
    }
}

/// Whether two pieces that begin with writings have the same points.
fn are_alike(a: &DefPiece, b: &DefPiece) -> bool
    ensures { result ≡ true → bounds (begun a.now) ≡ bounds (begun b.now) }
{
    a.start == b.start && a.early == b.early && is_same_end(a.piece.end, b.piece.end)
}

/// Whether two lists of pieces that begin with writings have the same points.
fn are_all_alike(a: &[DefPiece], b: &[DefPiece]) -> bool
    ensures { result ≡ true → map (λ s. bounds (begun s)) a.now ≡ map (λ s. bounds (begun s)) b.now }
{
    if a.len() != b.len() {
        return false;
    }
    'segments: for k in 0..a.len() {
        if !are_alike(&a[k], &b[k]) {
            return false;
        }
    }
    true
}

/// Whether two cells have the same points of one block.
fn have_same_points(a: &Cell, b: &Cell) -> bool
    ensures { result ≡ true → (a.now.block ≡ b.now.block) × (outline (seen_cell a.now) ≡ outline (seen_cell b.now)) }
{
    if a.block != b.block || !is_same_end(a.first.end, b.first.end) {
        return false;
    }
    are_all_alike(a.segments.as_slice(), b.segments.as_slice())
}

/// Whether two lanes with these cells have the same points.
fn are_cells_alike(a: &[Cell], b: &[Cell]) -> bool
    ensures { result ≡ true → (n : ℕ) → outline (seen_in a.now n) ≡ outline (seen_in b.now n) }
{
    if a.len() != b.len() {
        return false;
    }
    'cells: for k in 0..a.len() {
        if !have_same_points(&a[k], &b[k]) {
            return false;
        }
    }
    true
}

impl LaneRanges {
    /// Whether all lanes of a range have the same points as the first one.
    fn are_lanes_alike(&self, own: LaneSpan) -> bool
        ensures { result ≡ true → (k n : ℕ) → k < own.count → outline (rows_seen self.now.rows.items own.first n) ≡ outline (rows_seen self.now.rows.items (own.first + k) n) }
    {
        let first = self.cells(own.first);
        'lanes: for k in 1..own.count {
            if !are_cells_alike(first, self.cells(own.first + k)) {
                return false;
            }
        }
        true
    }
}

impl Table {
    /// The first lane of a range alone, where all have the same points; else all of them.
    pub fn counted_lanes(&self, own: LaneSpan) -> LaneSpan
        ensures { (b at : ℕ) → any_held self.now.order.slots self.now.rows.rows.items result.first result.count b at ≡ any_held self.now.order.slots self.now.rows.rows.items own.first own.count b at }
    {
        if own.count <= 1 {
            return own;
        }
        if !self.rows.are_lanes_alike(own) {
            return own;
        }
        LaneSpan {
            first: own.first,
            count: 1,
        }
    }
}
