//! Names in the order of their declaration, found fast.

ghost use Rattle.std.specs.Prelude.{◌≡◌, ◌<◌, ◌≤◌, [], ◌∷◌, ◌++◌, length, position, OnOk, OnErr, IfOk, IsTrue};
ghost use Rattle.word_set.specs.Words.{with_name, is_fresh};
ghost use Rattle.target_desc.specs.Resolving.{is_new};
ghost use Rattle.target_desc.specs.Keeping.{AreFew};
ghost use Rattle.target_desc.specs.Adding.{noted};
ghost use Rattle.target_base.specs.Storage.{same_numbers};

use crate::draft::Line;
use std::alloc::{AllocError, Global};
use std::marker::Model;
use word_set::WordSet;

/// Distinct names in the order of their declaration, at most 65,535 of them.
#[derive(Drop)]
pub(crate) struct DeclaredNames {
    words: WordSet,
}

impl Model for DeclaredNames {
    ghost use Rattle.std.specs.Prelude.{ℕ, List, length, ◌≤◌};

    ghost Value = { List (List ℕ) };

    ghost view = { λ n. n.words };

    ghost invariant = { λ n. length n.words ≤ 65535 };
}

impl DeclaredNames {
    /// No names.
    pub(crate) fn new(alloc: Global) -> DeclaredNames
        ensures { result ≡ [] }
    {
        DeclaredNames {
            words: WordSet::new(alloc),
        }
    }

    /// The place of a name, from 0. None where it isn't declared.
    pub(crate) fn place(&self, name: &[u8]) -> Option<u16>
        ensures { result ≡ position (same_numbers name.now) self.now }
    {
        match self.words.place(name) {
            None => None,
            Some(place) => Some(place as u16),
        }
    }

    /// Puts a name at the end, unless it is there. After a refusal the names are unchanged.
    pub(crate) fn add(&mut self, alloc: Global, name: &[u8]) -> Result<(), AllocError>
        requires { length self.old < 65535 }
        ensures ok { OnOk result (self.new ≡ with_name self.old name.now) }
        ensures err { OnErr result (self.new ≡ self.old) }
    {
        self.words.add(alloc, name)
    }

    /// Puts a new name at the end.
    fn declare(&mut self, alloc: Global, name: &[u8]) -> Result<(), AllocError>
        requires new { IsTrue (is_fresh self.old name.now) }
        requires room { length self.old ≤ 1024 }
        ensures { OnOk result (self.new ≡ self.old ++ name.now ∷ []) }
    {
        self.add(alloc, name)?;
        Ok(())
    }
}

/// The names of each sort that are declared so far.
#[derive(Drop)]
pub(crate) struct NameTables {
    pub(crate) units: DeclaredNames,
    pub(crate) regs: DeclaredNames,
    pub(crate) indexes: DeclaredNames,
    pub(crate) classes: DeclaredNames,
    pub(crate) masks: DeclaredNames,
    pub(crate) opcodes: DeclaredNames,
}

impl NameTables {
    /// Puts the name that a line declares into the table of its sort.
    #[tactic(auto, unfolding(crate::specs::Adding::noted, crate::specs::Resolving::is_new))]
    pub(crate) fn note(&mut self, alloc: Global, line: &Line) -> Result<(), AllocError>
        requires new { IsTrue (is_new self.old line.now) }
        requires room { AreFew self.old }
        ensures { OnOk result (self.new ≡ noted self.old line.now) }
    {
        match line {
            Line::Unit(unit) => self.units.declare(alloc, unit.name.as_slice()),
            Line::Reg(reg) => self.regs.declare(alloc, reg.name.as_slice()),
            Line::Index(index) => self.indexes.declare(alloc, index.name.as_slice()),
            Line::Class(class) => self.classes.declare(alloc, class.name.as_slice()),
            Line::Mask(mask) => self.masks.declare(alloc, mask.name.as_slice()),
            Line::Opcode(opcode) => self.opcodes.declare(alloc, opcode.name.as_slice()),
            Line::Target(_) | Line::Reserved(_) | Line::Forms(_) | Line::Flags(_) => Ok(()),
        }
    }
}
