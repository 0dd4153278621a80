//! What ranges hold of one unit in one block, in order.

ghost use Rattle.std.specs.Prelude.{map, set, ◌≡◌, ◌≤◌, ◌<◌, ◌-◌, ◌*◌, ℕ, suc, [], true, false, not, ◌&&◌, ◌||◌, nat_eq, length, filter, MatchOption, IfOk, OnOk, OnErr, Some, slice_get};
ghost use Rattle.std.specs.List.{list_any, list_all, insert, remove};
ghost use Rattle.mir_meaning.specs.Paths.{Among};
ghost use Rattle.live_lanes.specs.Table.{leading};
ghost use Rattle.live_lanes.specs.Extents.{first_rank, is_same_start};
ghost use Rattle.interference.specs.Clashes.{part_of, held_of, AreApart, AreFilled, begins_by, is_none, is_taken, is_taken_by};
ghost use Rattle.interference.specs.Parts.{parts_of, part_in, part_before, before, part_begins, lies_before, IsBehind, IsMet, IsGap};
ghost use Rattle.interference.specs.declared.held.RangeExtent.{RangeExtent};
ghost use Rattle.interference.specs.Changes.{is_piece, low_rank, high_rank, own_of, starting, IsSought, IsFound, IsCut, IsInserted};
ghost use Rattle.interference.specs.Marked.{is_marked};
ghost use Rattle.interference.specs.ChangedLists.{PutsExtent, PutsPiece, TakesPiece};
ghost use Rattle.interference.specs.SavedLists.{restored, with_behind, without_behind, ChangesPart, IsLogged, Logs, Saves};

use crate::marks::Marks;
use crate::saved_lists::{AssignedPiece, SavedList};
use live_lanes::{Extent, Stretch};
use slot_index::Slots;
use std::alloc::{AllocError, Global};

/// So many stretches stand in one part of a list at most, so that few move when one comes or goes.
const MOST_IN_A_PART: usize = 64;

/// Points in a row at which a range holds the unit.
#[derive(Clone, Copy, PartialEq, Eq)]
pub(crate) struct RangeExtent {
    pub range: u32,
    pub extent: Extent,
}

/// A place between two stretches of a list: behind so many of one part.
#[derive(Clone, Copy)]
pub(crate) struct ListPosition {
    part: usize,
    count: usize,
}

/// What is known of some points when those that are held of them are gone through.
#[derive(Clone, Copy, PartialEq, Eq)]
enum OverlapResult {
    /// Another range, this one, holds the unit there.
    Other(u32),
    /// All that is held from there on lies before these points.
    Behind,
    /// There may be more.
    Open,
}

/// Whether a stretch is among some.
#[derive(Clone, Copy, PartialEq, Eq)]
enum SearchResult {
    /// It is the last one of so many.
    UpTo(usize),
    /// It isn't there.
    Nowhere,
    /// It may stand before these.
    Open,
}

/// What stood in a list.
#[derive(Drop)]
pub(crate) enum SavedParts {
    /// What stands there but for the stretch behind a place.
    Less(ListPosition),
    /// In one part, these; in the others, what stands there.
    One(usize, Vec<RangeExtent>),
    /// These parts.
    All(Vec<Vec<RangeExtent>>),
}

/// The points at which ranges hold the unit, in order of their first ones. No two ranges hold it at
/// one point.
#[derive(Drop)]
pub(crate) struct HeldList {
    alloc: Global,
    /// Each has some stretches, but for one that is alone.
    parts: Vec<Vec<RangeExtent>>,
}

/// Whether the first stretch of a part begins at or before a point.
fn begins_by(slots: &Slots, part: &Vec<RangeExtent>, at: u128) -> bool
    ensures { result ≡ part_begins slots.now at part.now.items }
{
    match part.first() {
        Some(held) => held.extent.first(slots) <= at,
        None => false,
    }
}

/// How many stretches of a part begin at or before a point.
fn count_by(slots: &Slots, part: &Vec<RangeExtent>, at: u128) -> usize
    ensures within { result ≤ length part.now.items }
    ensures count { (n : ℕ) → AreApart slots.now n part.now.items → result ≡ leading (begins_by slots.now at) part.now.items }
{
    part.as_slice()
        .partition_point(|held| held.extent.first(slots) <= at)
}

/// Whether another range than one holds the unit at some of these points, by some stretches that
/// begin before their end.
fn met_by(slots: &Slots, stretches: &[RangeExtent], at: Stretch, but: u32) -> OverlapResult
    ensures { list_all (begins_by slots.now at.last) stretches.now ≡ true → (n : ℕ) → AreApart slots.now n stretches.now → IsMet slots.now stretches.now at but result }
{
    'stretches: for k in (0..stretches.len()).rev() {
        let held = &stretches[k];
        if held.extent.last(slots) < at.first {
            return OverlapResult::Behind;
        }
        if held.range != but {
            return OverlapResult::Other(held.range);
        }
    }
    OverlapResult::Open
}

/// Marks the ranges other than one that hold the unit at some of these points, by some stretches that
/// begin before their end. Answers whether there may be more.
fn mark_met(
    slots: &Slots,
    stretches: &[RangeExtent],
    at: Stretch,
    but: u32,
    marks: &mut Marks,
) -> bool
    ensures room { length marks.new.words.items ≡ length marks.old.words.items }
    ensures marked { list_all (begins_by slots.now at.last) stretches.now ≡ true → (n : ℕ) → AreApart slots.now n stretches.now → (w : ℕ) → w < length marks.old.words.items * 64
        → is_marked marks.new.words.items w ≡ ((not (nat_eq w but) && is_taken_by slots.now stretches.now w at) || is_marked marks.old.words.items w) }
    ensures behind { result ≡ false → list_any (lies_before slots.now at.first) stretches.now ≡ true }
{
    'stretches: for k in (0..stretches.len()).rev() {
        let held = &stretches[k];
        if held.extent.last(slots) < at.first {
            return false;
        }
        if held.range != but {
            marks.mark(held.range);
        }
    }
    true
}

/// Whether two pieces begin with the same instruction, or both with the block.
fn same_start(a: Option<u32>, b: Option<u32>) -> bool
    ensures { result ≡ is_same_start a b }
{
    match (a, b) {
        (None, None) => true,
        (Some(a), Some(b)) => a == b,
        _ => false,
    }
}

/// Whether a stretch is a range's and begins with an instruction or with the block.
fn is_piece(held: &RangeExtent, range: u32, start: Option<u32>) -> bool
    ensures { result ≡ is_piece range start held.now }
{
    held.range == range && same_start(held.extent.start, start)
}

/// The first point that a piece which begins with an instruction, or with the block, may have.
fn low_rank(slots: &Slots, start: Option<u32>) -> u128
    ensures { result ≡ low_rank slots.now start }
{
    match start {
        None => 0,
        Some(id) => slots.number(id) as u128 * 2,
    }
}

/// The last point that such a piece may begin at.
fn high_rank(slots: &Slots, start: Option<u32>) -> u128
    ensures { result ≡ high_rank slots.now start }
{
    match start {
        None => 0,
        Some(id) => slots.number(id) as u128 * 2 + 1,
    }
}

/// Looks for a stretch of a range that begins with an instruction or with the block, among some whose
/// last ones are those that begin at the first of some points or behind it.
fn seek(
    slots: &Slots,
    stretches: &[RangeExtent],
    range: u32,
    start: Option<u32>,
    first: u128,
) -> SearchResult
    ensures { first ≡ low_rank slots.now start → (n : ℕ) → AreApart slots.now n stretches.now → IsSought slots.now stretches.now range start result }
{
    'stretches: for k in (0..stretches.len()).rev() {
        let held = &stretches[k];
        if is_piece(held, range, start) {
            return SearchResult::UpTo(k + 1);
        }
        if held.extent.first(slots) < first {
            return SearchResult::Nowhere;
        }
    }
    SearchResult::Open
}

/// Puts a stretch behind so many of a part. After a refusal the part is unchanged.
fn put(part: &mut Vec<RangeExtent>, count: usize, held: RangeExtent) -> Result<(), AllocError>
    ensures ok { count ≤ length part.old.items → OnOk result (part.new.items ≡ insert part.old.items count held) }
    ensures err { OnErr result (part.new.items ≡ part.old.items) }
    ensures some { is_none part.old.items ≡ false → is_none part.new.items ≡ false }
{
    if count > part.len() {
        return Ok(());
    }
    part.insert(count, held)?;
    Ok(())
}

/// Takes the last one of so many stretches out of a part.
fn take_out(part: &mut Vec<RangeExtent>, count: usize)
    ensures removed { 0 < count → count ≤ length part.old.items → part.new.items ≡ remove part.old.items (count - 1) }
    ensures some { 2 ≤ length part.old.items → is_none part.new.items ≡ false }
{
    if count == 0 {
        return;
    }
    if count > part.len() {
        return;
    }
    let _ = part.remove(count - 1);
}

/// Whether the last one of so many stretches is this one.
fn is_last_of(stretches: &[RangeExtent], count: usize, held: RangeExtent) -> bool
    ensures { result ≡ true → Among held stretches.now }
{
    if count == 0 {
        return false;
    }
    if count > stretches.len() {
        return false;
    }
    stretches[count - 1] == held
}

/// Takes the stretch behind so many out of a part, if there is one.
fn remove_at(part: &mut Vec<RangeExtent>, count: usize)
    ensures { part.new.items ≡ remove part.old.items count }
{
    if count >= part.len() {
        return;
    }
    let _ = part.remove(count);
}

impl HeldList {
    /// Nothing is held, which takes no memory.
    pub fn new(alloc: Global) -> HeldList
        ensures { result.parts.items ≡ [] }
    {
        HeldList {
            alloc,
            parts: Vec::new(alloc),
        }
    }

    /// Copies of all parts.
    fn copied(&self) -> Result<Vec<Vec<RangeExtent>>, AllocError>
        ensures { IfOk result (λ ps. map part_of ps.items ≡ parts_of self.now) }
    {
        let mut parts = Vec::with_capacity(self.alloc, self.parts.len())?;
        'parts: for part in self.parts.as_slice() {
            parts.push(Vec::from_slice(self.alloc, part.as_slice())?)?;
        }
        Ok(parts)
    }

    /// A copy of a part; of all parts, where more than that part may change.
    fn saved(&self, part: usize, all: bool) -> Result<SavedParts, AllocError>
        ensures { IfOk result (Saves self.now part all) }
    {
        if all {
            return Ok(SavedParts::All(self.copied()?));
        }
        if part >= self.parts.len() {
            return Ok(SavedParts::All(self.copied()?));
        }
        let stretches = Vec::from_slice(self.alloc, self.parts[part].as_slice())?;
        Ok(SavedParts::One(part, stretches))
    }

    /// Adds a copy of a part to what is saved; of all parts, where more than that part may change.
    fn save(
        &self,
        part: usize,
        all: bool,
        at: &AssignedPiece,
        log: &mut Vec<SavedList>,
    ) -> Result<(), AllocError>
        ensures ok { OnOk result (IsLogged at.now (Saves self.now part all) log.old.items log.new.items) }
        ensures err { OnErr result (log.new.items ≡ log.old.items) }
    {
        let parts = self.saved(part, all)?;
        log.push(SavedList {
            unit: at.unit,
            block: at.piece.block,
            parts,
        })?;
        Ok(())
    }

    /// Puts back what stood.
    pub fn restore(&mut self, saved: SavedParts)
        ensures { parts_of self.new ≡ restored saved (parts_of self.old) }
    {
        match saved {
            SavedParts::Less(gap) => self.cut_behind(gap),
            SavedParts::One(part, stretches) => self.set_part(part, stretches),
            SavedParts::All(parts) => self.parts = parts,
        }
    }

    /// Takes away the stretch behind a place, if there is one.
    fn cut_behind(&mut self, gap: ListPosition)
        ensures { parts_of self.new ≡ without_behind gap (parts_of self.old) }
    {
        if gap.part >= self.parts.len() {
            return;
        }
        remove_at(&mut self.parts[gap.part], gap.count);
    }

    fn set_part(&mut self, part: usize, stretches: Vec<RangeExtent>)
        ensures { parts_of self.new ≡ set (parts_of self.old) part stretches.items }
    {
        if part >= self.parts.len() {
            return;
        }
        self.parts[part] = stretches;
    }

    /// The place behind the stretches that begin at or before a point.
    fn behind(&self, slots: &Slots, at: u128) -> ListPosition
        ensures part { result.part ≤ length self.now.parts.items }
        ensures room { 0 < length self.now.parts.items → result.part < length self.now.parts.items }
        ensures within { result.count ≤ length (part_in (parts_of self.now) result.part) }
        ensures before { AreFilled self.now → AreApart slots.now 0 (held_of self.now)
            → before (parts_of self.now) result (suc result.part) ≡ filter (begins_by slots.now at) (held_of self.now) }
    {
        let parts = self.parts.as_slice();
        let part = parts
            .partition_point(|part| begins_by(slots, part, at))
            .saturating_sub(1);
        let count = match parts.get(part) {
            Some(there) => count_by(slots, there, at),
            None => 0,
        };
        ListPosition { part, count }
    }

    /// The stretches of a part that stand before a place.
    fn part_before(&self, part: usize, gap: ListPosition) -> &[RangeExtent]
        ensures { gap.count ≤ length (part_in (parts_of self.now) gap.part) → result.now ≡ part_before (parts_of self.now) gap part }
    {
        let Some(there) = self.parts.get(part) else {
            return &[];
        };
        if part != gap.part {
            return there.as_slice();
        }
        match there.as_slice().get(..gap.count) {
            Some(some) => some,
            None => &[],
        }
    }

    /// Whether another range than one holds the unit at some of these points.
    pub fn meets(&self, slots: &Slots, at: Stretch, but: u32) -> bool
        ensures { AreFilled self.now → AreApart slots.now 0 (held_of self.now) → result ≡ is_taken slots.now (held_of self.now) but at }
    {
        self.other(slots, at, but).is_some()
    }

    /// A range other than one that holds the unit at some of these points: the last one there.
    pub fn other(&self, slots: &Slots, at: Stretch, but: u32) -> Option<u32>
        ensures { AreFilled self.now → AreApart slots.now 0 (held_of self.now) → MatchOption result (is_taken slots.now (held_of self.now) but at ≡ false) (λ w. (nat_eq w but ≡ false)
            × (is_taken_by slots.now (held_of self.now) w at ≡ true)) }
    {
        let gap = self.behind(slots, at.last);
        'parts: for part in (0..gap.part + 1).rev() {
            match met_by(slots, self.part_before(part, gap), at, but) {
                OverlapResult::Other(range) => return Some(range),
                OverlapResult::Behind => return None,
                OverlapResult::Open => {}
            }
        }
        None
    }

    /// Marks the ranges other than one that hold the unit at some of these points.
    pub fn mark(&self, slots: &Slots, at: Stretch, but: u32, marks: &mut Marks)
        ensures room { length marks.new.words.items ≡ length marks.old.words.items }
        ensures marked { AreFilled self.now → AreApart slots.now 0 (held_of self.now) → (w : ℕ) → w < length marks.old.words.items * 64
            → is_marked marks.new.words.items w ≡ ((not (nat_eq w but) && is_taken_by slots.now (held_of self.now) w at) || is_marked marks.old.words.items w) }
    {
        let gap = self.behind(slots, at.last);
        'parts: for part in (0..gap.part + 1).rev() {
            if !mark_met(slots, self.part_before(part, gap), at, but, marks) {
                return;
            }
        }
    }

    /// Adds points that a range holds. After a refusal nothing is added.
    pub fn add(&mut self, slots: &Slots, range: u32, extent: Extent) -> Result<(), AllocError>
        ensures filled { AreFilled self.old → AreFilled self.new }
        ensures err { OnErr result (held_of self.new ≡ held_of self.old) }
        ensures ok { AreFilled self.old → AreApart slots.now 0 (held_of self.old)
            → OnOk result (IsInserted (filter (begins_by slots.now (first_rank slots.now extent)) (held_of self.old)) (record { range = range; extent = extent }) (held_of self.old) (held_of self.new)) }
    {
        let gap = self.gap_for(slots, extent.first(slots))?;
        self.insert(gap, RangeExtent { range, extent })?;
        Ok(())
    }

    /// The place behind the stretches that begin at or before a point, in a part that has room. What
    /// is held stays as it is.
    fn gap_for(&mut self, slots: &Slots, at: u128) -> Result<ListPosition, AllocError>
        ensures gap { IfOk result (λ gap. IsGap slots.now at self.new gap) }
        ensures held { held_of self.new ≡ held_of self.old }
        ensures filled { AreFilled self.old → AreFilled self.new }
    {
        self.begin()?;
        let gap = self.behind(slots, at);
        if !self.is_full(gap.part) {
            return Ok(gap);
        }
        self.halve(gap.part)?;
        Ok(self.behind(slots, at))
    }

    /// Sees that there is a part.
    fn begin(&mut self) -> Result<(), AllocError>
        ensures some { OnOk result (0 < length self.new.parts.items) }
        ensures held { held_of self.new ≡ held_of self.old }
        ensures filled { AreFilled self.old → AreFilled self.new }
    {
        if !self.parts.is_empty() {
            return Ok(());
        }
        self.parts.push(Vec::new(self.alloc))?;
        Ok(())
    }

    /// Whether there is such a part, which has room.
    fn has_room(&self, part: usize) -> bool
        ensures { result ≡ true → part < length self.now.parts.items }
    {
        if part >= self.parts.len() {
            return false;
        }
        self.parts[part].len() < MOST_IN_A_PART
    }

    /// Whether a part has one stretch at most.
    fn is_single(&self, part: usize) -> bool
        ensures { result ≡ false → 2 ≤ length (part_in (parts_of self.now) part) }
    {
        if part >= self.parts.len() {
            return true;
        }
        self.parts[part].len() < 2
    }

    fn is_full(&self, part: usize) -> bool
        ensures { result ≡ true → 2 ≤ length (part_in (parts_of self.now) part) }
    {
        if part >= self.parts.len() {
            return false;
        }
        self.parts[part].len() >= MOST_IN_A_PART
    }

    /// Makes two parts of one. What is held stays as it is.
    fn halve(&mut self, part: usize) -> Result<(), AllocError>
        ensures some { 0 < length self.old.parts.items → 0 < length self.new.parts.items }
        ensures held { held_of self.new ≡ held_of self.old }
        ensures filled { 2 ≤ length (part_in (parts_of self.old) part) → AreFilled self.old → AreFilled self.new }
    {
        if part >= self.parts.len() {
            return Ok(());
        }
        let there = &self.parts[part];
        let half = there.len() / 2;
        let rest = Vec::from_slice(self.alloc, &there.as_slice()[half..])?;
        self.parts.insert(part + 1, rest)?;
        self.parts[part].truncate(half);
        Ok(())
    }

    /// Puts a stretch at a place. After a refusal nothing is put.
    fn insert(&mut self, gap: ListPosition, held: RangeExtent) -> Result<(), AllocError>
        ensures filled { AreFilled self.old → AreFilled self.new }
        ensures err { OnErr result (held_of self.new ≡ held_of self.old) }
        ensures ok { gap.part < length self.old.parts.items → gap.count ≤ length (part_in (parts_of self.old) gap.part)
            → OnOk result (IsInserted (before (parts_of self.old) gap (suc gap.part)) held (held_of self.old) (held_of self.new)) }
        ensures put { gap.part < length self.old.parts.items → gap.count ≤ length (part_in (parts_of self.old) gap.part)
            → OnOk result (parts_of self.new ≡ with_behind gap held (parts_of self.old)) }
        ensures same { OnErr result (parts_of self.new ≡ parts_of self.old) }
    {
        if gap.part >= self.parts.len() {
            return Ok(());
        }
        put(&mut self.parts[gap.part], gap.count, held)?;
        Ok(())
    }

    /// The place behind the stretch of a range that begins with an instruction or with the block.
    fn find(&self, slots: &Slots, range: u32, start: Option<u32>) -> Option<ListPosition>
        ensures { AreFilled self.now → AreApart slots.now 0 (held_of self.now) → MatchOption result (list_any (is_piece range start) (held_of self.now) ≡ false) (IsFound self.now range start) }
    {
        let gap = self.behind(slots, high_rank(slots, start));
        self.find_from(slots, gap, range, start)
    }

    /// The same, where the place is known behind all stretches that may begin so.
    fn find_from(
        &self,
        slots: &Slots,
        gap: ListPosition,
        range: u32,
        start: Option<u32>,
    ) -> Option<ListPosition>
        requires { gap.part ≤ length self.now.parts.items }
        ensures { IsBehind slots.now (high_rank slots.now start) self.now gap → AreFilled self.now → AreApart slots.now 0 (held_of self.now) → MatchOption result (list_any (is_piece range start) (held_of self.now) ≡ false) (IsFound self.now range start) }
    {
        let low = low_rank(slots, start);
        'parts: for part in (0..gap.part + 1).rev() {
            match seek(slots, self.part_before(part, gap), range, start, low) {
                SearchResult::UpTo(count) => return Some(ListPosition { part, count }),
                SearchResult::Nowhere => return None,
                SearchResult::Open => {}
            }
        }
        None
    }

    /// Takes away the points of a range that begin with an instruction or with the block.
    pub fn remove(&mut self, slots: &Slots, range: u32, start: Option<u32>)
        ensures filled { AreFilled self.old → AreFilled self.new }
        ensures held { AreFilled self.old → AreApart slots.now 0 (held_of self.old) → starting start (own_of range (held_of self.old)) ≤ 1
            → held_of self.new ≡ filter (λ h. not (is_piece range start h)) (held_of self.old) }
    {
        let Some(gap) = self.find(slots, range, start) else {
            return;
        };
        self.cut(gap);
    }

    /// Takes away the points of the range of a piece that begin with an instruction or with the block.
    /// What stood is added to what is saved. After a refusal nothing is taken away.
    pub fn take_piece(
        &mut self,
        slots: &Slots,
        at: &AssignedPiece,
        start: Option<u32>,
        log: &mut Vec<SavedList>,
    ) -> Result<(), AllocError>
        ensures ok { OnOk result (TakesPiece slots.now at.now.range start self.old self.new) }
        ensures logged { Logs at.now log.old.items log.new.items self.old self.new }
    {
        let Some(gap) = self.find(slots, at.range, start) else {
            return Ok(());
        };
        self.save(gap.part, self.is_single(gap.part), at, log)?;
        self.cut(gap);
        Ok(())
    }

    /// Adds points of the range of a piece. What stood is added to what is saved. After a refusal
    /// nothing is added.
    pub fn put_piece(
        &mut self,
        slots: &Slots,
        at: &AssignedPiece,
        extent: Extent,
        log: &mut Vec<SavedList>,
    ) -> Result<(), AllocError>
        ensures ok { OnOk result (PutsExtent slots.now at.now.range extent self.old self.new) }
        ensures logged { Logs at.now log.old.items log.new.items self.old self.new }
    {
        let gap = self.behind(slots, extent.first(slots));
        self.put_at(slots, gap, at, extent, log)
    }

    /// Adds points of the range of a piece, in the place of those that begin so. What stood is added to
    /// what is saved.
    pub fn replace_piece(
        &mut self,
        slots: &Slots,
        at: &AssignedPiece,
        extent: Extent,
        log: &mut Vec<SavedList>,
    ) -> Result<(), AllocError>
        ensures ok { OnOk result (PutsPiece slots.now at.now.range extent self.old self.new) }
        ensures logged { Logs at.now log.old.items log.new.items self.old self.new }
    {
        let high = high_rank(slots, extent.start);
        let gap = self.behind(slots, high);
        let held = RangeExtent {
            range: at.range,
            extent,
        };
        match self.find_from(slots, gap, at.range, extent.start) {
            // (a piece that changed several times comes several times)
            Some(found) if self.is_at(found, held) => Ok(()),
            Some(_) => {
                self.take_piece(slots, at, extent.start, log)?;
                self.put_piece(slots, at, extent, log)
            }
            None if extent.first(slots) == high => self.put_at(slots, gap, at, extent, log),
            None => self.put_piece(slots, at, extent, log),
        }
    }

    /// Whether the stretch before a place is this one.
    fn is_at(&self, gap: ListPosition, held: RangeExtent) -> bool
        ensures { result ≡ true → Among held (held_of self.now) }
    {
        if gap.part >= self.parts.len() {
            return false;
        }
        is_last_of(self.parts[gap.part].as_slice(), gap.count, held)
    }

    /// Adds points of the range of a piece at a place, if it has room.
    fn put_at(
        &mut self,
        slots: &Slots,
        gap: ListPosition,
        at: &AssignedPiece,
        extent: Extent,
        log: &mut Vec<SavedList>,
    ) -> Result<(), AllocError>
        ensures ok { IsBehind slots.now (first_rank slots.now extent) self.old gap → OnOk result (PutsExtent slots.now at.now.range extent self.old self.new) }
        ensures logged { gap.count ≤ length (part_in (parts_of self.old) gap.part) → Logs at.now log.old.items log.new.items self.old self.new }
    {
        if self.has_room(gap.part) {
            let range = at.range;
            return self.insert_saved(gap, RangeExtent { range, extent }, at, log);
        }
        self.save(gap.part, true, at, log)?;
        self.add(slots, at.range, extent)
    }

    /// Puts a stretch at a place. What stood is added to what is saved. After a refusal nothing is put.
    fn insert_saved(
        &mut self,
        gap: ListPosition,
        held: RangeExtent,
        at: &AssignedPiece,
        log: &mut Vec<SavedList>,
    ) -> Result<(), AllocError>
        ensures filled { AreFilled self.old → AreFilled self.new }
        ensures ok { gap.part < length self.old.parts.items → gap.count ≤ length (part_in (parts_of self.old) gap.part)
            → OnOk result (IsInserted (before (parts_of self.old) gap (suc gap.part)) held (held_of self.old) (held_of self.new)) }
        ensures logged { gap.part < length self.old.parts.items → gap.count ≤ length (part_in (parts_of self.old) gap.part)
            → Logs at.now log.old.items log.new.items self.old self.new }
    {
        log.push(SavedList {
            unit: at.unit,
            block: at.piece.block,
            parts: SavedParts::Less(gap),
        })?;
        if let Err(e) = self.insert(gap, held) {
            let _ = log.pop();
            return Err(e);
        }
        Ok(())
    }

    /// Takes away the stretch before a place.
    fn cut(&mut self, gap: ListPosition)
        ensures filled { AreFilled self.old → AreFilled self.new }
        ensures held { (h : RangeExtent) → 0 < gap.count → slice_get (part_in (parts_of self.old) gap.part) (gap.count - 1) ≡ Some h → IsCut h (held_of self.old) (held_of self.new) }
        ensures part { 2 ≤ length (part_in (parts_of self.old) gap.part) → ChangesPart gap.part self.old self.new }
    {
        if gap.part >= self.parts.len() {
            return;
        }
        take_out(&mut self.parts[gap.part], gap.count);
        self.drop_empty(gap.part);
    }

    /// Takes a part away that is empty, unless it is alone.
    fn drop_empty(&mut self, part: usize)
        ensures held { held_of self.new ≡ held_of self.old }
        ensures filled { part < length self.old.parts.items → (1 < length self.old.parts.items → list_any is_none (remove (parts_of self.old) part) ≡ false) → AreFilled self.new }
        ensures part { is_none (part_in (parts_of self.old) part) ≡ false → parts_of self.new ≡ parts_of self.old }
    {
        if self.parts.len() <= 1 {
            return;
        }
        if part >= self.parts.len() {
            return;
        }
        if !self.parts[part].is_empty() {
            return;
        }
        let _ = self.parts.remove(part);
    }
}
