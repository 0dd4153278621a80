//! Notes of what the instructions that edits touched do now, for each lane that an edit noted.

ghost use Rattle.std.specs.Prelude.{◌≡◌, ℕ, List, IfOk, OnOk, nat_eq};
ghost use Rattle.std.specs.List.{list_any};
ghost use Rattle.target_base.specs.declared.types.Target.{Target};
ghost use Rattle.mir_func.specs.Value.{Function};
ghost use Rattle.mir_meaning.specs.Paths.{Among};
ghost use Rattle.instr_effects.specs.Steps.{Numbering};
ghost use Rattle.live_edits.specs.Noted.{HasNotes, TellLatest};
ghost use Rattle.live_edits.specs.NotedTable.{cell_key, with_note, IsListAt, HasNote, AreFilled, AreOld, AddsNotes, IsNoteTable, IsNoteOf};

use crate::cells::{CellNotes, Note};
use instr_effects::lane_acts::LaneAct;
use std::alloc::{AllocError, Global};
use std::collections::BTreeMap;

/// What an edit noted of an instruction.
#[derive(Drop)]
pub struct TouchedInstr {
    /// Its id.
    pub id: u32,
    /// The position of its block in the layout.
    pub block: u32,
    /// What it does after the edit to each lane to which it did something else before.
    pub acts: Vec<LaneAct>,
}

/// Notes, in one list for each lane in each block.
#[derive(Drop)]
struct NoteTable {
    /// The lists.
    all: Vec<CellNotes>,
    /// The place of each list, by its key.
    places: BTreeMap<u64, usize>,
}

/// The key of a lane in a block.
fn cell_key(lane: u32, block: u32) -> u64
    ensures { result ≡ cell_key lane block }
{
    u64::from(lane) * 4294967296 + u64::from(block)
}

/// Whether one of the notes is of an instruction.
fn is_noted(notes: &[Note], id: u32) -> bool
    ensures { result ≡ list_any (λ n. nat_eq n.id id) notes.now }
{
    notes.iter().any(|note| note.id == id)
}

/// Adds a note, unless there is one of its instruction.
fn add_note(notes: &mut Vec<Note>, note: Note) -> Result<(), AllocError>
    ensures { OnOk result (notes.new.items ≡ with_note note notes.old.items) }
{
    if !is_noted(notes.as_slice(), note.id) {
        notes.push(note)?;
    }
    Ok(())
}

impl NoteTable {
    /// The place of the list of a lane in a block, which comes as the last one where there is none.
    fn place(&mut self, alloc: Global, lane: u32, block: u32) -> Result<usize, AllocError>
        requires { IsNoteTable self.old }
        ensures table { OnOk result (IsNoteTable self.new) }
        ensures added { OnOk result (AddsNotes self.old.all.items self.new.all.items (λ l b n. ⊥)) }
        ensures found { IfOk result (λ k. IsListAt self.new.all.items k lane block) }
        ensures others { IfOk result (λ k. AreOld self.old.all.items self.new.all.items k) }
    {
        let key = cell_key(lane, block);
        if let Some(place) = self.places.get(&key) {
            return Ok(*place);
        }
        let place = self.all.len();
        self.all.push(CellNotes {
            lane,
            block,
            notes: Vec::new(alloc),
        })?;
        self.places.insert(key, place)?;
        Ok(place)
    }

    /// Adds a note to the list of a lane in a block.
    fn add(&mut self, alloc: Global, lane: u32, block: u32, note: Note) -> Result<(), AllocError>
        requires { IsNoteTable self.old }
        ensures table { OnOk result (IsNoteTable self.new) }
        ensures added { OnOk result (AddsNotes self.old.all.items self.new.all.items (λ l b n. (l ≡ lane) × (b ≡ block) × (n ≡ note))) }
        ensures noted { OnOk result (HasNote self.new.all.items lane block note.id) }
        ensures filled { OnOk result (AreFilled self.old.all.items → AreFilled self.new.all.items) }
    {
        let place = self.place(alloc, lane, block)?;
        add_note(&mut self.all[place].notes, note)
    }

    /// Adds what an edit noted of an instruction.
    fn add_touched(&mut self, alloc: Global, touched: &TouchedInstr) -> Result<(), AllocError>
        requires { IsNoteTable self.old }
        ensures table { OnOk result (IsNoteTable self.new) }
        ensures added { OnOk result (AddsNotes self.old.all.items self.new.all.items (IsNoteOf touched.now touched.now.acts.items)) }
        ensures noted { OnOk result ((a : LaneAct) → Among a touched.now.acts.items → HasNote self.new.all.items a.lane touched.now.block touched.now.id) }
        ensures filled { OnOk result (AreFilled self.old.all.items → AreFilled self.new.all.items) }
    {
        'acts: for act in touched.acts.as_slice() {
            let note = Note {
                id: touched.id,
                act: *act,
            };
            self.add(alloc, act.lane, touched.block, note)?;
        }
        Ok(())
    }
}

/// Notes of what the touched instructions do now: at each lane what the last edit noted that touched
/// the instruction there.
pub fn notes_of(alloc: Global, touched: &[TouchedInstr]) -> Result<Vec<CellNotes>, AllocError>
    ensures { IfOk result (λ all. (t : Target) (f : Function) (num : Numbering) (gone : List ℕ) → TellLatest t f num gone touched.now → HasNotes t f num gone touched.now all.items) }
{
    let mut table = NoteTable {
        all: Vec::new(alloc),
        places: BTreeMap::new(alloc),
    };
    let mut left = touched.len();
    // The note that comes first stays, so the last edit comes first.
    'edits: while left > 0 {
        left -= 1;
        table.add_touched(alloc, &touched[left])?;
    }
    let NoteTable { all, .. } = table;
    Ok(all)
}
