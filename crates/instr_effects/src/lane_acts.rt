//! What an instruction does to each lane, which stands once however often it is read and written.

ghost use Rattle.std.specs.Prelude.{◌≡◌, ℕ, true, cond, nat_eq, find, position, Some, None, OnOk, IfOk};
ghost use Rattle.instr_effects.specs.LaneActs.{first_of, read_at, move_at, write_at, lane_act, is_on, has_act, act_on, is_once, add_read, add_write};

use crate::effects::Effects;
use mir_meaning::LaneDef;
use std::alloc::{AllocError, Global};

/// How an instruction reads a lane.
#[derive(Clone, Copy, PartialEq, Eq)]
pub struct LaneRead {
    /// The lane into which it is moved; none where it is read in any case.
    pub into: Option<u32>,
}

/// How an instruction writes a lane.
#[derive(Clone, Copy, PartialEq, Eq)]
pub struct LaneWrite {
    /// The lane that is moved here, if it is one that isn't reserved.
    pub from: Option<u32>,
    /// Whether the lane is occupied at the entry too.
    pub early: bool,
}

/// What an instruction does to a lane.
#[derive(Clone, Copy, PartialEq, Eq)]
pub struct LaneAct {
    /// The lane.
    pub lane: u32,
    /// Its reading of the lane, if there is one.
    pub read: Option<LaneRead>,
    /// Its writing of the lane, if there is one.
    pub write: Option<LaneWrite>,
}

/// Whether an act is on a lane.
fn is_on(act: &LaneAct, lane: u32) -> bool
    ensures { result ≡ is_on lane act.now }
{
    act.lane == lane
}

/// Whether one of these acts is on a lane.
pub fn has_act(acts: &[LaneAct], lane: u32) -> bool
    ensures { result ≡ has_act acts.now lane }
{
    acts.iter().any(|act| is_on(act, lane))
}

/// The act on a lane, if there is one.
fn find_act(acts: &[LaneAct], lane: u32) -> Option<LaneAct>
    ensures { result ≡ find (is_on lane) acts.now }
{
    acts.iter().copied().find(|act| is_on(act, lane))
}

/// The place of the act on a lane, if there is one.
fn place_of(acts: &[LaneAct], lane: u32) -> Option<usize>
    ensures { result ≡ position (is_on lane) acts.now }
{
    acts.iter().position(|act| is_on(act, lane))
}

/// What one of these acts does to a lane; nothing where none is on it.
pub fn act_on(acts: &[LaneAct], lane: u32) -> LaneAct
    ensures { result ≡ act_on acts.now lane }
{
    match find_act(acts, lane) {
        Some(act) => act,
        None => LaneAct {
            lane,
            read: None,
            write: None,
        },
    }
}

/// An act with a reading, unless it has one.
fn with_read(act: LaneAct, read: LaneRead) -> LaneAct
    ensures { result ≡ add_read act (Some read) }
{
    match act.read {
        Some(_) => act,
        None => LaneAct {
            read: Some(read),
            ..act
        },
    }
}

/// An act with a writing, unless it has one.
fn with_write(act: LaneAct, write: LaneWrite) -> LaneAct
    ensures { result ≡ add_write act (Some write) }
{
    match act.write {
        Some(_) => act,
        None => LaneAct {
            write: Some(write),
            ..act
        },
    }
}

/// Makes an act the one on its lane.
fn put_act(acts: &mut Vec<LaneAct>, act: LaneAct) -> Result<(), AllocError>
    ensures told { OnOk result ((l : ℕ) → act_on acts.new.items l ≡ cond (nat_eq act.lane l) act (act_on acts.old.items l)) }
    ensures once { OnOk result (is_once acts.old.items ≡ true → is_once acts.new.items ≡ true) }
{
    match place_of(acts.as_slice(), act.lane) {
        Some(at) => acts[at] = act,
        None => acts.push(act)?,
    }
    Ok(())
}

/// Notes a reading of a lane, where none is noted yet.
fn note_read(acts: &mut Vec<LaneAct>, lane: u32, read: LaneRead) -> Result<(), AllocError>
    ensures told { OnOk result ((l : ℕ) → act_on acts.new.items l ≡ add_read (act_on acts.old.items l) (cond (nat_eq lane l) (Some read) None)) }
    ensures once { OnOk result (is_once acts.old.items ≡ true → is_once acts.new.items ≡ true) }
{
    let act = act_on(acts.as_slice(), lane);
    put_act(acts, with_read(act, read))?;
    Ok(())
}

/// Notes a writing of a lane, where none is noted yet.
fn note_write(acts: &mut Vec<LaneAct>, lane: u32, write: LaneWrite) -> Result<(), AllocError>
    ensures told { OnOk result ((l : ℕ) → act_on acts.new.items l ≡ add_write (act_on acts.old.items l) (cond (nat_eq lane l) (Some write) None)) }
    ensures once { OnOk result (is_once acts.old.items ≡ true → is_once acts.new.items ≡ true) }
{
    let act = act_on(acts.as_slice(), lane);
    put_act(acts, with_write(act, write))?;
    Ok(())
}

/// Notes the lanes that are read in any case.
fn note_reads(reads: &[u32], acts: &mut Vec<LaneAct>) -> Result<(), AllocError>
    ensures told { OnOk result ((l : ℕ) → act_on acts.new.items l ≡ add_read (act_on acts.old.items l) (first_of (read_at l) reads.now)) }
    ensures once { OnOk result (is_once acts.old.items ≡ true → is_once acts.new.items ≡ true) }
{
    'reads: for lane in reads {
        note_read(acts, *lane, LaneRead { into: None })?;
    }
    Ok(())
}

/// Notes the lane that is moved, if one is.
fn note_move(w: &LaneDef, acts: &mut Vec<LaneAct>) -> Result<(), AllocError>
    ensures told { OnOk result ((l : ℕ) → act_on acts.new.items l ≡ add_read (act_on acts.old.items l) (move_at l w.now)) }
    ensures once { OnOk result (is_once acts.old.items ≡ true → is_once acts.new.items ≡ true) }
{
    match w.from {
        Some(from) => {
            let into = Some(w.lane);
            note_read(acts, from, LaneRead { into })
        }
        None => Ok(()),
    }
}

/// Notes the lanes that are moved.
fn note_moves(writes: &[LaneDef], acts: &mut Vec<LaneAct>) -> Result<(), AllocError>
    ensures told { OnOk result ((l : ℕ) → act_on acts.new.items l ≡ add_read (act_on acts.old.items l) (first_of (move_at l) writes.now)) }
    ensures once { OnOk result (is_once acts.old.items ≡ true → is_once acts.new.items ≡ true) }
{
    'writes: for w in writes {
        note_move(w, acts)?;
    }
    Ok(())
}

/// Notes the lanes that are written.
fn note_writes(writes: &[LaneDef], acts: &mut Vec<LaneAct>) -> Result<(), AllocError>
    ensures told { OnOk result ((l : ℕ) → act_on acts.new.items l ≡ add_write (act_on acts.old.items l) (first_of (write_at l) writes.now)) }
    ensures once { OnOk result (is_once acts.old.items ≡ true → is_once acts.new.items ≡ true) }
{
    'writes: for w in writes {
        let write = LaneWrite {
            from: w.from,
            early: w.early,
        };
        note_write(acts, w.lane, write)?;
    }
    Ok(())
}

impl Effects {
    /// What is done to lanes, each lane once.
    pub fn acts(&self, alloc: Global) -> Result<Vec<LaneAct>, AllocError>
        ensures told { IfOk result (λ v. (l : ℕ) → act_on v.items l ≡ lane_act self.now.reads.items self.now.writes.items l) }
        ensures once { IfOk result (λ v. is_once v.items ≡ true) }
    {
        let mut acts = Vec::with_capacity(alloc, 8)?;
        note_reads(self.reads.as_slice(), &mut acts)?;
        note_moves(self.writes.as_slice(), &mut acts)?;
        note_writes(self.writes.as_slice(), &mut acts)?;
        Ok(acts)
    }
}
