//! The pieces of one lane, block by block.
//!
//! A piece of a lane begins at a block's start or with a writing, and lasts until the next writing
//! or the block's end. In it the lane is live up to the last reading that counts.

ghost use Rattle.std.specs.Prelude.{◌≡◌, ℕ, ◌<◌, ◌≤◌, ◌+◌, ◌*◌, length, IfOk, IsTrue, true, option_copied, slice_get, find, reverse, [], OnOk, OnErr, cond, is_ok, is_some, map, nat_eq, not, MatchOption, Some, if◌then◌else◌, vec_capacity};
ghost use Rattle.std.specs.List.{insert};
ghost use Rattle.live_lanes.specs.Certain.{blocks_of, KeepsCertain, RaisesCertain};
ghost use Rattle.live_lanes.specs.Table.{entry_rank, exit_rank, end_rank, descends, leading, is_before, find_cell, cell_room, seen_in, seen_cell, unseen, rises_from, piece_at, piece_in, cause_in, end_in, with_cause, with_end, certain_cause, is_certain, cause_of, read_at_end, IsRaised, with_last, with_reading, with_segment, ends_with, starts_last, begun, with_end_at, begun_move, moved_in};
ghost use Rattle.live_lanes.specs.Graph.{is_live};
ghost use Rattle.live_lanes.specs.Reach.{is_never, reaches, seen_at};

use slot_index::Slots;
use std::alloc::{AllocError, Global};

/// Up to where a lane is live in a piece.
#[derive(Clone, Copy, PartialEq, Eq)]
pub enum PieceEnd {
    /// Nowhere.
    Never,
    /// The entry of an instruction, which reads it.
    Entry(u32),
    /// The exit of a terminator.
    Exit(u32),
    /// The end of the block.
    Last,
}

/// Why a lane is live in a piece. Along the causes one comes to a reading that needs no other lane.
#[derive(Clone, Copy, PartialEq, Eq)]
pub enum Cause {
    /// It isn't live.
    None,
    /// An instruction reads the lane, or moves it into one that is live behind the instruction.
    Reading(u32),
    /// The lane is live at the start of the block at this position, which follows.
    Follower(u32),
    /// A phi of a block that follows reads it.
    Phi,
}

impl Cause {
    /// Whether a piece with this cause isn't live.
    fn is_none(self) -> bool
        ensures { result ≡ not (is_live self) }
    {
        matches!(self, Cause::None)
    }
}

/// An instruction that reads the lane, or that moves it into another one.
#[derive(Clone, Copy, PartialEq, Eq)]
pub struct LaneUse {
    /// The instruction.
    pub id: u32,
    /// The lane into which it is moved; none where it is read in any case.
    pub into: Option<u32>,
}

/// A piece: why the lane is live in it, up to where, and its readings in order.
#[derive(Drop)]
pub struct Piece {
    pub cause: Cause,
    pub end: PieceEnd,
    pub readings: Vec<LaneUse>,
}

/// An instruction that writes the lane, and the piece that begins with this.
#[derive(Drop)]
pub struct DefPiece {
    /// The instruction.
    pub start: u32,
    /// Whether the lane is occupied at the instruction's entry too.
    pub early: bool,
    /// The lane that is moved here.
    pub from: Option<u32>,
    pub piece: Piece,
}

/// A lane in one block.
#[derive(Drop)]
pub struct Cell {
    /// The block's position in the layout.
    pub block: u32,
    /// Whether a phi reads the lane at the block's end.
    pub is_read_last: bool,
    /// The piece that begins with the block.
    pub first: Piece,
    /// The other pieces, in order.
    pub segments: Vec<DefPiece>,
}

/// A lane's cells, from the last block to the first: as lanes are found live from their readings
/// backwards, new cells mostly come at the end.
#[derive(Drop)]
pub struct LaneRange {
    pub cells: Vec<Cell>,
    ghost sorted: { IsTrue (descends cells.items) },
}

/// A number of an entry, which rises along the layout.
pub fn entry_rank(slots: &Slots, id: u32) -> u128
    ensures { result ≡ entry_rank slots.now id }
{
    slots.number(id) as u128 * 2
}

/// A number of an exit, which rises along the layout.
pub fn exit_rank(slots: &Slots, id: u32) -> u128
    ensures { result ≡ exit_rank slots.now id }
{
    slots.number(id) as u128 * 2 + 1
}

/// A number of an end, which rises along the block.
pub fn rank(slots: &Slots, end: PieceEnd) -> u128
    ensures { result ≡ end_rank slots.now end }
{
    match end {
        PieceEnd::Never => 0,
        PieceEnd::Entry(id) => entry_rank(slots, id),
        PieceEnd::Exit(id) => exit_rank(slots, id),
        PieceEnd::Last => u128::MAX,
    }
}

/// Whether an end is none.
pub fn is_never(end: PieceEnd) -> bool
    ensures { result ≡ is_never end }
{
    matches!(end, PieceEnd::Never)
}

/// Whether a piece with this end isn't over before the point of this rank.
pub fn reaches(slots: &Slots, end: PieceEnd, at: u128) -> bool
    ensures { result ≡ reaches slots.now end at }
{
    !is_never(end) && at <= rank(slots, end)
}

/// Between cells of blocks that are at most so far apart, those of the blocks between are made too.
const NEAR: u32 = 4;

/// Makes room for one element in a list that has none, and for no more: most lanes have one cell, and
/// most pieces one reading.
pub fn make_first_room<T>(list: &mut Vec<T>) -> Result<(), AllocError>
    ensures { list.new.items ≡ list.old.items }
{
    if list.is_empty() {
        list.reserve_exact(1)?;
    }
    Ok(())
}

/// Puts an element at a place of a list.
pub fn insert_one<T: Drop>(list: &mut Vec<T>, at: usize, element: T) -> Result<(), AllocError>
    requires { at ≤ length list.old.items }
    ensures items { list.new.items ≡ (if is_ok result then insert list.old.items at element else list.old.items) }
{
    make_first_room(list)?;
    list.insert(at, element)?;
    Ok(())
}

/// Where the cell of a block stands or would stand, as a hint. Each cell has a block of its own: so it
/// can't be farther from the first and the last cell than its block from theirs.
fn near_of(cells: &[Cell], block: u32) -> usize {
    let (Some(first), Some(last)) = (cells.first(), cells.last()) else {
        return 0;
    };
    if block < last.block {
        return cells.len();
    }
    let behind = cells.len().saturating_sub(1);
    let to = behind.min(first.block.saturating_sub(block) as usize);
    let from = behind.saturating_sub(block.saturating_sub(last.block) as usize);
    match cells.get(from..to) {
        Some(between) => from.saturating_add(between.partition_point(|c| c.block > block)),
        None => to,
    }
}

/// Where the cell of a block would stand, if the lane had one in each block from it on up to that of the
/// last cell, as a hint.
fn dense_place(cells: &[Cell], block: u32) -> usize {
    match cells.last() {
        Some(last) => {
            if block < last.block {
                cells.len()
            } else {
                let behind = cells.len().saturating_sub(1);
                behind.saturating_sub((block - last.block) as usize)
            }
        }
        None => 0,
    }
}

impl LaneRange {
    /// No cells, which takes no memory.
    pub fn new(alloc: Global) -> LaneRange
        ensures { result.cells.items ≡ [] }
    {
        LaneRange {
            cells: Vec::new(alloc),
        }
    }

    /// The place of a block's cell, or where it would stand.
    pub fn place(&self, block: u32) -> usize
        ensures within { result ≤ length self.now.cells.items }
        ensures place { result ≡ leading (is_before block) self.now.cells.items }
    {
        let dense = dense_place(self.cells.as_slice(), block);
        if self.is_place(dense, block) {
            return dense;
        }
        self.sparse_place(block)
    }

    /// Whether a place is that of a block's cell, or where it would stand.
    fn is_place(&self, at: usize, block: u32) -> bool
        ensures within { result ≡ true → at ≤ length self.now.cells.items }
        ensures place { result ≡ true → at ≡ leading (is_before block) self.now.cells.items }
    {
        let count = self.cells.len();
        if at > count {
            return false;
        }
        if at > 0 && self.cells[at - 1].block <= block {
            return false;
        }
        at == count || self.cells[at].block <= block
    }

    /// The place of a block's cell, or where it would stand, which is looked for at this place and
    /// behind it first.
    pub fn place_near(&self, near: usize, block: u32) -> usize
        ensures within { result ≤ length self.now.cells.items }
        ensures place { result ≡ leading (is_before block) self.now.cells.items }
    {
        if self.is_place(near, block) {
            return near;
        }
        let behind = near.saturating_add(1);
        if self.is_place(behind, block) {
            return behind;
        }
        self.place(block)
    }

    /// The place of the cell of a block, or at which it would stand, where that isn't the dense one.
    fn sparse_place(&self, block: u32) -> usize
        ensures within { result ≤ length self.now.cells.items }
        ensures place { result ≡ leading (is_before block) self.now.cells.items }
    {
        let near = near_of(self.cells.as_slice(), block);
        if self.is_place(near, block) {
            return near;
        }
        self.cells.as_slice().partition_point(|c| c.block > block)
    }

    /// The cell of a block.
    pub fn cell(&self, block: u32) -> Option<&Cell>
        ensures { option_copied result ≡ find_cell block self.now.cells.items }
    {
        self.cell_at(self.place(block), block)
    }

    /// The cell of a block, which is looked for at a place and behind it first.
    pub fn cell_near(&self, near: usize, block: u32) -> Option<&Cell>
        ensures { option_copied result ≡ find_cell block self.now.cells.items }
    {
        self.cell_at(self.place_near(near, block), block)
    }

    /// The cell of a block, where this is its place or where it would stand.
    pub fn cell_at(&self, at: usize, block: u32) -> Option<&Cell>
        requires { at ≡ leading (is_before block) self.now.cells.items }
        ensures { option_copied result ≡ find_cell block self.now.cells.items }
    {
        if at >= self.cells.len() {
            return None;
        }
        let cell = &self.cells[at];
        if cell.block != block {
            return None;
        }
        Some(cell)
    }

    /// Whether there is a cell of a block, where this is its place or where it would stand.
    fn has_at(&self, at: usize, block: u32) -> bool
        requires { at ≡ leading (is_before block) self.now.cells.items }
        ensures { result ≡ is_some (find_cell block self.now.cells.items) }
    {
        self.cell_at(at, block).is_some()
    }

    /// The place of a block's cell, which is made where there is none. It is looked for at a place and
    /// behind it first.
    pub fn make(&mut self, alloc: Global, near: usize, block: u32) -> Result<usize, AllocError>
        ensures within { IfOk result (λ at. at < length self.new.cells.items) }
        ensures there { IfOk result (λ at. slice_get self.new.cells.items at
            ≡ find_cell block self.new.cells.items) }
        ensures same { (b : ℕ) → seen_in self.new.cells.items b ≡ seen_in self.old.cells.items b }
        ensures rooms { (b : ℕ) → cell_room (find_cell b self.old.cells.items) ≤ cell_room (find_cell b self.new.cells.items) }
        ensures kept { (b : ℕ) → is_some (find_cell b self.old.cells.items) ≡ true → is_some (find_cell b self.new.cells.items) ≡ true }
    {
        let at = self.place_near(near, block);
        if self.has_at(at, block) {
            return Ok(at);
        }
        insert_one(&mut self.cells, at, Cell::new(alloc, block))?;
        Ok(at)
    }
}

impl LaneRange {
    /// Makes cells for the blocks between the last one that has a cell and this one, where these are
    /// few: a lane that is named on both sides of them is mostly live all through them, and so no
    /// cell has to be put between others for it.
    fn fill(&mut self, alloc: Global, block: u32) -> Result<(), AllocError>
        ensures { (b : ℕ) → seen_in self.new.cells.items b ≡ seen_in self.old.cells.items b }
    {
        let bound = self.last_block();
        if bound <= block || bound - block > NEAR {
            return Ok(());
        }
        'between: for between in (block + 1..bound).rev() {
            let behind = self.cells.len();
            let _ = self.make(alloc, behind, between)?;
        }
        Ok(())
    }

    /// The block of the last cell; 0 where there is none.
    fn last_block(&self) -> u32 {
        match self.cells.last() {
            Some(cell) => cell.block,
            None => 0,
        }
    }

    /// The place of a block's cell, which is made where there is none, with those of the few blocks
    /// behind it up to the last cell.
    pub fn make_behind(&mut self, alloc: Global, block: u32) -> Result<usize, AllocError>
        ensures within { IfOk result (λ at. at < length self.new.cells.items) }
        ensures there { IfOk result (λ at. slice_get self.new.cells.items at
            ≡ find_cell block self.new.cells.items) }
        ensures same { (b : ℕ) → seen_in self.new.cells.items b ≡ seen_in self.old.cells.items b }
    {
        self.fill(alloc, block)?;
        let near = self.cells.len().saturating_sub(1);
        self.make(alloc, near, block)
    }
}

impl LaneRange {
    /// Notes that a phi reads the lane at the end of a block.
    pub fn read_last(&mut self, alloc: Global, block: u32) -> Result<(), AllocError>
        ensures { OnOk result ((b : ℕ) → seen_in self.new.cells.items b
            ≡ cond (nat_eq block b) (read_at_end (seen_in self.old.cells.items block)) (seen_in self.old.cells.items b)) }
    {
        let place = self.make_behind(alloc, block)?;
        self.cells[place].is_read_last = true;
        Ok(())
    }

    /// Adds a reading to the last piece in a block.
    pub fn add_reading(
        &mut self,
        alloc: Global,
        block: u32,
        reading: LaneUse,
    ) -> Result<(), AllocError>
        ensures { OnOk result ((b : ℕ) → seen_in self.new.cells.items b
            ≡ cond (nat_eq block b) (with_reading reading (seen_in self.old.cells.items block)) (seen_in self.old.cells.items b)) }
    {
        let place = self.make_behind(alloc, block)?;
        self.cells[place].add_reading(reading)
    }

    /// Adds a piece behind the others in a block.
    pub fn add_segment(
        &mut self,
        alloc: Global,
        block: u32,
        start: u32,
        early: bool,
        from: Option<u32>,
    ) -> Result<(), AllocError>
        ensures { OnOk result ((b : ℕ) → seen_in self.new.cells.items b
            ≡ cond (nat_eq block b) (with_segment start early from (seen_in self.old.cells.items block)) (seen_in self.old.cells.items b)) }
    {
        let place = self.make_behind(alloc, block)?;
        self.cells[place].add_segment(alloc, start, early, from)
    }

    /// Gives a cause to the piece of a block that the point of this rank lies in. Answers its
    /// number, or None where the piece was live, which then stays as it is.
    pub fn raise(
        &mut self,
        alloc: Global,
        slots: &Slots,
        block: u32,
        at: u128,
        cause: Cause,
    ) -> Result<Option<usize>, AllocError>
        ensures { IfOk result (λ index. IsTrue (rises_from slots.now 0 (seen_in self.old.cells.items block).segments)
            → IsRaised slots.now self.old.cells.items self.new.cells.items block at cause index) }
    {
        let near = self.cells.len().saturating_sub(1);
        let place = self.make(alloc, near, block)?;
        let index = self.cells[place].piece_at(slots, at);
        if self.cells[place].is_live(index) {
            return Ok(None);
        }
        self.cells[place].set_cause(index, cause);
        Ok(Some(index))
    }

    /// Gives a cause to a piece of the cell at a place, where it needs no other lane and isn't live.
    /// Answers the cell's block then.
    pub fn raise_certain(&mut self, place: usize, index: usize) -> Option<u32>
        ensures blocks { blocks_of self.new.cells.items ≡ blocks_of self.old.cells.items }
        ensures raised { MatchOption result (KeepsCertain self.old.cells.items self.new.cells.items place index) (λ block. (slice_get (blocks_of self.old.cells.items) place ≡ Some block)
            × RaisesCertain self.old.cells.items self.new.cells.items block index) }
    {
        if place >= self.cells.len() {
            return None;
        }
        let block = self.cells[place].block;
        if self.cells[place].is_live(index) {
            return None;
        }
        let cause = self.cells[place].certain_cause(index);
        if cause.is_none() {
            return None;
        }
        self.cells[place].set_cause(index, cause);
        Some(block)
    }

    /// Gives a piece of the cell at a place an end.
    pub fn set_end(&mut self, place: usize, index: usize, end: PieceEnd)
        ensures blocks { blocks_of self.new.cells.items ≡ blocks_of self.old.cells.items }
        ensures set { (b : ℕ) → seen_in self.new.cells.items b
            ≡ with_end_at (slice_get self.old.cells.items place) index end (seen_in self.old.cells.items b) b }
    {
        if place < self.cells.len() {
            self.cells[place].set_end(index, end);
        }
    }
}

/// Whether the last of these readings is that of an instruction.
fn ends_with(readings: &[LaneUse], id: u32) -> bool
    ensures { result ≡ ends_with id readings.now }
{
    match readings.last() {
        Some(last) => last.id == id,
        None => false,
    }
}

/// Whether the last of these segments begins with an instruction.
fn starts_last(segments: &[DefPiece], id: u32) -> bool
    ensures { result ≡ starts_last id (map begun segments.now) }
{
    match segments.last() {
        Some(last) => last.start == id,
        None => false,
    }
}

impl Piece {
    /// A piece without readings, which isn't live.
    fn new(alloc: Global) -> Piece
        ensures cause { result.cause ≡ Cause.None }
        ensures end { result.end ≡ PieceEnd.Never }
        ensures readings { result.readings.items ≡ [] }
    {
        Piece {
            cause: Cause::None,
            end: PieceEnd::Never,
            readings: Vec::new(alloc),
        }
    }

    /// Whether the lane is live in it.
    pub fn is_live(&self) -> bool
        ensures { result ≡ is_live self.now.cause }
    {
        !matches!(self.cause, Cause::None)
    }

    /// Adds a reading behind the others. An instruction's first reading of the lane counts.
    fn add_reading(&mut self, reading: LaneUse) -> Result<(), AllocError>
        ensures cause { self.new.cause ≡ self.old.cause }
        ensures end { self.new.end ≡ self.old.end }
        ensures added { OnOk result (self.new.readings.items ≡ with_last reading self.old.readings.items) }
    {
        if ends_with(self.readings.as_slice(), reading.id) {
            return Ok(());
        }
        make_first_room(&mut self.readings)?;
        self.readings.push(reading)?;
        Ok(())
    }

    /// Its last reading that needs no other lane.
    fn certain_reading(&self) -> Option<&LaneUse>
        ensures { option_copied result ≡ find is_certain (reverse self.now.readings.items) }
    {
        self.readings.iter().rev().find(|r| r.into.is_none())
    }

    /// Its last reading that needs no other lane, as a cause.
    fn certain_cause(&self) -> Cause
        ensures { result ≡ cause_of (find is_certain (reverse self.now.readings.items)) }
    {
        match self.certain_reading() {
            Some(reading) => Cause::Reading(reading.id),
            None => Cause::None,
        }
    }
}

impl DefPiece {
    /// The instruction, and the lane that it moves here, if it moves one.
    fn move_source(&self) -> Option<(u32, u32)>
        ensures { result ≡ begun_move (begun self.now) }
    {
        match self.from {
            Some(from) => Some((self.start, from)),
            None => None,
        }
    }
}

impl Cell {
    /// A cell without readings and writings.
    pub fn new(alloc: Global, block: u32) -> Cell
        ensures block { result.block ≡ block }
        ensures unseen { seen_cell result ≡ unseen }
    {
        Cell {
            block,
            is_read_last: false,
            first: Piece::new(alloc),
            segments: Vec::new(alloc),
        }
    }

    /// Adds a reading to the last piece. An instruction's first reading of the lane counts.
    pub fn add_reading(&mut self, reading: LaneUse) -> Result<(), AllocError>
        ensures block { self.new.block ≡ self.old.block }
        ensures added { OnOk result (seen_cell self.new ≡ with_reading reading (seen_cell self.old)) }
    {
        let count = self.segments.len();
        if count == 0 {
            self.first.add_reading(reading)
        } else {
            self.segments[count - 1].piece.add_reading(reading)
        }
    }

    /// Adds a piece behind the others. An instruction's first writing of the lane counts.
    pub fn add_segment(
        &mut self,
        alloc: Global,
        start: u32,
        early: bool,
        from: Option<u32>,
    ) -> Result<(), AllocError>
        ensures block { self.new.block ≡ self.old.block }
        ensures added { OnOk result (seen_cell self.new ≡ with_segment start early from (seen_cell self.old)) }
    {
        if starts_last(self.segments.as_slice(), start) {
            return Ok(());
        }
        make_first_room(&mut self.segments)?;
        self.segments.push(DefPiece {
            start,
            early,
            from,
            piece: Piece::new(alloc),
        })?;
        Ok(())
    }

    /// The piece that the point of this rank lies in: 0 is the one that begins with the block.
    pub fn piece_at(&self, slots: &Slots, at: u128) -> usize
        ensures within { result ≤ length self.now.segments.items }
        ensures piece { IsTrue (rises_from slots.now 0 (seen_cell self.now).segments)
            → result ≡ piece_at slots.now at (seen_cell self.now).segments }
    {
        self.segments
            .as_slice()
            .partition_point(|s| exit_rank(slots, s.start) <= at)
    }

    /// A piece by its place: 0 is the one that begins with the block.
    pub fn piece(&self, index: usize) -> Option<&Piece>
        ensures { option_copied result ≡ piece_in self.now index }
    {
        if index == 0 {
            return Some(&self.first);
        }
        match self.segments.get(index - 1) {
            Some(segment) => Some(&segment.piece),
            None => None,
        }
    }

    /// The instruction that begins a piece by a move, and the lane that it moves.
    pub fn move_source(&self, index: usize) -> Option<(u32, u32)>
        ensures { result ≡ moved_in (seen_cell self.now) index }
    {
        if index == 0 {
            return None;
        }
        if index > self.segments.len() {
            return None;
        }
        self.segments[index - 1].move_source()
    }

    /// Whether a piece is live.
    pub fn is_live(&self, index: usize) -> bool
        ensures { result ≡ is_live (cause_in (seen_cell self.now) index) }
    {
        match self.piece(index) {
            Some(piece) => piece.is_live(),
            None => false,
        }
    }

    /// Gives a piece a cause.
    pub fn set_cause(&mut self, index: usize, cause: Cause)
        ensures block { self.new.block ≡ self.old.block }
        ensures room { vec_capacity self.old.segments ≤ vec_capacity self.new.segments }
        ensures changed { seen_cell self.new ≡ with_cause (seen_cell self.old) index cause }
    {
        if index == 0 {
            self.first.cause = cause;
        } else if index - 1 < self.segments.len() {
            self.segments[index - 1].piece.cause = cause;
        }
    }

    /// Gives a piece an end.
    pub fn set_end(&mut self, index: usize, end: PieceEnd)
        ensures block { self.new.block ≡ self.old.block }
        ensures room { vec_capacity self.old.segments ≤ vec_capacity self.new.segments }
        ensures changed { seen_cell self.new ≡ with_end (seen_cell self.old) index end }
    {
        if index == 0 {
            self.first.end = end;
        } else if index - 1 < self.segments.len() {
            self.segments[index - 1].piece.end = end;
        }
    }

    /// Why a piece is live without any other lane.
    pub fn certain_cause(&self, index: usize) -> Cause
        ensures { result ≡ certain_cause (seen_cell self.now) index }
    {
        if self.is_read_last && index == self.segments.len() {
            return Cause::Phi;
        }
        match self.piece(index) {
            Some(piece) => piece.certain_cause(),
            None => Cause::None,
        }
    }

    /// Up to where a piece is live.
    pub fn end_of(&self, index: usize) -> PieceEnd
        ensures { result ≡ end_in (seen_cell self.now) index }
    {
        match self.piece(index) {
            Some(piece) => piece.end,
            None => PieceEnd::Never,
        }
    }

    /// Whether the lane is live at the point of this rank.
    pub fn is_live_at(&self, slots: &Slots, at: u128) -> bool
        ensures { rises_from slots.now 0 (seen_cell self.now).segments ≡ true
            → result ≡ seen_at slots.now (seen_cell self.now) at }
    {
        reaches(slots, self.end_of(self.piece_at(slots, at)), at)
    }
}
