//! Names and numbers in the order in which they come, found fast.

ghost use Rattle.std.specs.Prelude.{◌≡◌, ◌<◌, ◌≤◌, ◌==◌, [], length, position, OnOk, OnErr, IfOk, IsTrue, option_map, map};
ghost use Rattle.target_base.specs.Names.{are_distinct_names};
ghost use Rattle.mir_read.specs.Names.{with_number, place_of, reg_named, index_named, class_named, mask_named, op_named, has_flag, name_lists};
ghost use Rattle.target_base.specs.Storage.{same_numbers};
ghost use Rattle.word_set.specs.Words.{with_name};

use indexmap::IndexSet;
use std::alloc::{AllocError, Global};
use std::marker::Model;
use target_base::{
    Bytes, ClassDesc, ClassId, IndexDesc, IndexId, MaskDesc, MaskId, OpId, OpcodeDesc, Reg,
    RegDesc, Target,
};
use word_set::WordSet;

/// Distinct names in order, fewer than 2^32 of them.
#[derive(Drop)]
pub struct NameSet {
    words: WordSet,
}

impl Model for NameSet {
    ghost use Rattle.std.specs.Prelude.{ℕ, List, length, ◌≤◌};

    ghost Value = { List (List ℕ) };

    ghost view = { λ n. n.words };

    ghost invariant = { λ n. length n.words ≤ 4294967295 };
}

impl NameSet {
    /// No names.
    pub fn new(alloc: Global) -> NameSet
        ensures { result ≡ [] }
    {
        NameSet {
            words: WordSet::new(alloc),
        }
    }

    /// The place of a name, from 0. None where it isn't there.
    pub fn place(&self, name: &[u8]) -> Option<u32>
        ensures { result ≡ position (same_numbers name.now) self.now }
    {
        match self.words.place(name) {
            None => None,
            Some(place) => Some(place as u32),
        }
    }

    /// How many names there are.
    pub fn len(&self) -> u32
        ensures { result ≡ length self.now }
    {
        self.words.len() as u32
    }

    /// Puts a name at the end, unless it is there. After a refusal the names are unchanged.
    pub fn add(&mut self, alloc: Global, name: &[u8]) -> Result<(), AllocError>
        requires { length self.old < 4294967295 }
        ensures ok { OnOk result (self.new ≡ with_name self.old name.now) }
        ensures err { OnErr result (self.new ≡ self.old) }
    {
        self.words.add(alloc, name)
    }
}

/// Distinct numbers in order, fewer than 2^32 of them.
#[derive(Drop)]
pub struct NumberSet {
    set: IndexSet<u32>,
}

impl Model for NumberSet {
    ghost use Rattle.std.specs.Prelude.{ℕ, List, length, ◌≤◌};

    ghost Value = { List ℕ };

    ghost view = { λ n. n.set.keys };

    ghost invariant = { λ n. length n.set.keys ≤ 4294967295 };
}

impl NumberSet {
    /// No numbers.
    pub fn new(alloc: Global) -> NumberSet
        ensures { result ≡ [] }
    {
        NumberSet {
            set: IndexSet::new(alloc),
        }
    }

    /// The place of a number, from 0. None where it isn't there.
    pub fn place(&self, number: u32) -> Option<usize>
        ensures value { result ≡ position (λ n. n == number) self.now }
    {
        self.set.get_index_of(&number)
    }

    /// The numbers in order.
    pub fn as_slice(&self) -> &[u32]
        ensures { result.now ≡ self.now }
    {
        self.set.as_slice()
    }

    /// Puts a number at the end, unless it is there. After a refusal the numbers are unchanged.
    pub fn add(&mut self, number: u32) -> Result<(), AllocError>
        requires { length self.old < 4294967295 }
        ensures ok { OnOk result (self.new ≡ with_number self.old number) }
        ensures err { OnErr result (self.new ≡ self.old) }
    {
        self.set.insert(number)?;
        Ok(())
    }
}

/// The names of a target, for looking up their numbers, and its words of `target-flags`.
#[derive(Drop)]
pub struct TargetNames {
    regs: NameSet,
    indexes: NameSet,
    classes: NameSet,
    masks: NameSet,
    opcodes: NameSet,
    flags: WordSet,
}

impl Model for TargetNames {
    ghost use Rattle.mir_read.specs.Names.{NameLists, AreFew};

    ghost Value = { NameLists };

    ghost view = { λ n. record { regs = n.regs; indexes = n.indexes; classes = n.classes; masks = n.masks; opcodes = n.opcodes; flags = n.flags } };

    ghost invariant = { λ n. AreFew (record { regs = n.regs; indexes = n.indexes; classes = n.classes; masks = n.masks; opcodes = n.opcodes; flags = n.flags }) };
}

/// The number of a name.
fn number_in(names: &NameSet, name: &[u8]) -> Option<u16>
    requires { length names.now ≤ 65536 }
    ensures { result ≡ place_of names.now name.now }
{
    match names.place(name) {
        None => None,
        Some(k) => Some(k as u16),
    }
}

fn reg_names(alloc: Global, regs: &[RegDesc]) -> Result<NameSet, AllocError>
    requires few { length regs.now ≤ 65536 }
    requires distinct { IsTrue (are_distinct_names (map (λ r. r.name) regs.now)) }
    ensures value { IfOk result (λ names. names ≡ map (λ r. r.name) regs.now) }
    ensures few { IfOk result (λ names. length names ≤ 65536) }
{
    let mut names = NameSet::new(alloc);
    for d in regs {
        names.add(alloc, d.name.as_slice())?;
    }
    Ok(names)
}

fn index_names(alloc: Global, indexes: &[IndexDesc]) -> Result<NameSet, AllocError>
    requires few { length indexes.now ≤ 65536 }
    requires distinct { IsTrue (are_distinct_names (map (λ i. i.name) indexes.now)) }
    ensures value { IfOk result (λ names. names ≡ map (λ i. i.name) indexes.now) }
    ensures few { IfOk result (λ names. length names ≤ 65536) }
{
    let mut names = NameSet::new(alloc);
    for d in indexes {
        names.add(alloc, d.name.as_slice())?;
    }
    Ok(names)
}

fn class_names(alloc: Global, classes: &[ClassDesc]) -> Result<NameSet, AllocError>
    requires few { length classes.now ≤ 65536 }
    requires distinct { IsTrue (are_distinct_names (map (λ c. c.name) classes.now)) }
    ensures value { IfOk result (λ names. names ≡ map (λ c. c.name) classes.now) }
    ensures few { IfOk result (λ names. length names ≤ 65536) }
{
    let mut names = NameSet::new(alloc);
    for d in classes {
        names.add(alloc, d.name.as_slice())?;
    }
    Ok(names)
}

fn mask_names(alloc: Global, masks: &[MaskDesc]) -> Result<NameSet, AllocError>
    requires few { length masks.now ≤ 65536 }
    requires distinct { IsTrue (are_distinct_names (map (λ m. m.name) masks.now)) }
    ensures value { IfOk result (λ names. names ≡ map (λ m. m.name) masks.now) }
    ensures few { IfOk result (λ names. length names ≤ 65536) }
{
    let mut names = NameSet::new(alloc);
    for d in masks {
        names.add(alloc, d.name.as_slice())?;
    }
    Ok(names)
}

fn opcode_names(alloc: Global, opcodes: &[OpcodeDesc]) -> Result<NameSet, AllocError>
    requires few { length opcodes.now ≤ 65536 }
    requires distinct { IsTrue (are_distinct_names (map (λ o. o.name) opcodes.now)) }
    ensures value { IfOk result (λ names. names ≡ map (λ o. o.name) opcodes.now) }
    ensures few { IfOk result (λ names. length names ≤ 65536) }
{
    let mut names = NameSet::new(alloc);
    for d in opcodes {
        names.add(alloc, d.name.as_slice())?;
    }
    Ok(names)
}

fn flag_words(alloc: Global, words: &[Bytes]) -> Result<WordSet, AllocError>
    requires { IsTrue (are_distinct_names words.now) }
    ensures { IfOk result (λ flags. flags ≡ words.now) }
{
    let mut flags = WordSet::new(alloc);
    for word in words {
        flags.add(alloc, word.as_slice())?;
    }
    Ok(flags)
}

impl TargetNames {
    /// The names of a target.
    #[tactic(auto, unfolding(crate::specs::Names::name_lists))]
    pub fn new(alloc: Global, target: &Target) -> Result<TargetNames, AllocError>
        ensures { IfOk result (λ names. names ≡ name_lists target.now) }
    {
        Ok(TargetNames {
            regs: reg_names(alloc, target.regs.as_slice())?,
            indexes: index_names(alloc, target.indexes.as_slice())?,
            classes: class_names(alloc, target.classes.as_slice())?,
            masks: mask_names(alloc, target.masks.as_slice())?,
            opcodes: opcode_names(alloc, target.opcodes.as_slice())?,
            flags: flag_words(alloc, target.options.flags.as_slice())?,
        })
    }

    /// The register of a name.
    pub fn reg(&self, name: &[u8]) -> Option<Reg>
        ensures { result ≡ reg_named self.now name.now }
    {
        match number_in(&self.regs, name) {
            None => None,
            Some(n) => Some(Reg(n)),
        }
    }

    /// The subregister index of a name.
    pub fn index(&self, name: &[u8]) -> Option<IndexId>
        ensures { result ≡ index_named self.now name.now }
    {
        match number_in(&self.indexes, name) {
            None => None,
            Some(n) => Some(IndexId(n)),
        }
    }

    /// The class of a name.
    pub fn class(&self, name: &[u8]) -> Option<ClassId>
        ensures { result ≡ class_named self.now name.now }
    {
        match number_in(&self.classes, name) {
            None => None,
            Some(n) => Some(ClassId(n)),
        }
    }

    /// The call mask of a name.
    pub fn mask(&self, name: &[u8]) -> Option<MaskId>
        ensures { result ≡ mask_named self.now name.now }
    {
        match number_in(&self.masks, name) {
            None => None,
            Some(n) => Some(MaskId(n)),
        }
    }

    /// Whether a word may stand in `target-flags(..)`.
    pub fn has_flag(&self, word: &[u8]) -> bool
        ensures { result ≡ has_flag self.now word.now }
    {
        self.flags.place(word).is_some()
    }

    /// The opcode of a name.
    pub fn opcode(&self, name: &[u8]) -> Option<OpId>
        ensures { result ≡ op_named self.now name.now }
    {
        match number_in(&self.opcodes, name) {
            None => None,
            Some(n) => Some(OpId(n)),
        }
    }
}
