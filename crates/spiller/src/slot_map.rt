//! The spill slots of ranges. The ranges that come from one range of the prepared function, its
//! original, share one slot.

ghost use Rattle.std.specs.Prelude.{◌≡◌, ◌<◌, ◌≤◌, ◌++◌, ◌∷◌, ◌||◌, ℕ, [], true, false, cond, nat_eq, length, map, flat_map, filter_map, min, IfOk, OnOk, OnErr, Some};
ghost use Rattle.std.specs.Ordering.{nat_cmp};
ghost use Rattle.std.specs.BTreeMap.{get};
ghost use Rattle.std.proofs.Props.{props};
ghost use Rattle.mir_func.specs.Binding.{as_slot};
ghost use Rattle.mir_meaning.specs.Registers.{numbers, has_number};
ghost use Rattle.spiller.specs.Slots.{named_slots, slot_among, given_numbers};
ghost use Rattle.spiller.specs.RangeSlots.{pairs_of};

use mir_func::operands::{as_slot, class_of};
use mir_func::{Block, Func, Instr, Operand};
use std::alloc::{AllocError, Global};
use std::collections::{BTreeMap, BTreeSet};
use target_base::{Boxed, ClassId};

/// A spill slot that was given.
#[derive(Clone, Copy, Debug, PartialEq, Eq)]
pub struct RangeSlot {
    /// The original to which it was given.
    pub original: u32,
    /// The number of the frame object.
    pub number: u32,
    /// The class of the original, whose lanes the slot holds.
    pub class: ClassId,
}

/// The slot of each original, and the original of each range.
#[derive(Drop)]
pub struct SlotMap {
    /// By range.
    originals: Vec<u32>,
    /// By original: the number of its slot.
    slots: BTreeMap<u32, u32>,
    /// The slots that were given, in order.
    given: Vec<RangeSlot>,
    /// The numbers that the prepared function declares or names.
    taken: BTreeSet<u32>,
    /// The least number that is neither taken nor given, or the last of 32 bits.
    next: u32,
    // The map finds what the list has.
    ghost finds: { (o : ℕ) → get nat_cmp slots o ≡ slot_among (pairs_of given.items) o } by { Prim.hlevel props },
    // Each number below the next one is taken or given, ..
    ghost none_below: { (n : ℕ) → n < next → has_number (taken.keys ++ given_numbers (pairs_of given.items)) n ≡ true },
    // .. the next one isn't taken, but for the last of 32 bits, ..
    ghost not_taken: { next < 4294967295 → has_number taken.keys next ≡ false },
    // .. and those that were given are below it.
    ghost given_below: { (n : ℕ) → next < 4294967295 → has_number (given_numbers (pairs_of given.items)) n ≡ true → n < next },
}

/// Adds a number to a set.
fn add_number(number: u32, taken: &mut BTreeSet<u32>) -> Result<(), AllocError>
    ensures { OnOk result ((n : ℕ) → has_number taken.new.keys n ≡ (nat_eq n number || has_number taken.old.keys n)) }
{
    taken.insert(number)?;
    Ok(())
}

/// Adds the numbers of declared frame objects to a set.
fn add_declared(frames: &[(u32, bool)], taken: &mut BTreeSet<u32>) -> Result<(), AllocError>
    ensures { OnOk result ((n : ℕ) → has_number taken.new.keys n ≡ (has_number (map (λ p. p.0) frames.now) n || has_number taken.old.keys n)) }
{
    'frames: for frame in frames {
        add_number(frame.0, taken)?;
    }
    Ok(())
}

/// Adds the number of the frame object that an operand names, if it names one, to a set.
fn add_operand(operand: &Operand, taken: &mut BTreeSet<u32>) -> Result<(), AllocError>
    ensures { OnOk result ((n : ℕ) → has_number taken.new.keys n ≡ (has_number (filter_map as_slot (operand.now ∷ [])) n || has_number taken.old.keys n)) }
{
    match as_slot(operand) {
        Some(number) => add_number(number, taken),
        None => Ok(()),
    }
}

/// Adds the numbers of the frame objects that operands name to a set.
fn add_operands(operands: &[Operand], taken: &mut BTreeSet<u32>) -> Result<(), AllocError>
    ensures { OnOk result ((n : ℕ) → has_number taken.new.keys n ≡ (has_number (filter_map as_slot operands.now) n || has_number taken.old.keys n)) }
{
    'operands: for operand in operands {
        add_operand(operand, taken)?;
    }
    Ok(())
}

/// Adds the numbers of the frame objects that instructions name to a set.
fn add_instrs(instrs: &[Boxed<Instr>], taken: &mut BTreeSet<u32>) -> Result<(), AllocError>
    ensures { OnOk result ((n : ℕ) → has_number taken.new.keys n ≡ (has_number (flat_map (λ i. filter_map as_slot i.operands) instrs.now) n || has_number taken.old.keys n)) }
{
    'instrs: for instr in instrs {
        let instr = instr.get();
        add_operands(instr.operands.as_slice(), taken)?;
    }
    Ok(())
}

/// Adds the numbers of the frame objects that instructions of blocks name to a set.
fn add_blocks(blocks: &[Block], taken: &mut BTreeSet<u32>) -> Result<(), AllocError>
    ensures { OnOk result ((n : ℕ) → has_number taken.new.keys n ≡ (has_number (flat_map (λ b. flat_map (λ i. filter_map as_slot i.operands) b.instrs) blocks.now) n || has_number taken.old.keys n)) }
{
    'each: for block in blocks {
        add_instrs(block.instrs.as_slice(), taken)?;
    }
    Ok(())
}

/// The numbers of frame objects that a function declares or names.
fn named_slots(alloc: Global, f: &Func) -> Result<BTreeSet<u32>, AllocError>
    ensures { IfOk result (λ taken. (n : ℕ) → has_number taken.keys n ≡ has_number (named_slots f.now) n) }
{
    let mut taken = BTreeSet::new(alloc);
    add_declared(f.frames.as_slice(), &mut taken)?;
    add_blocks(f.blocks.as_slice(), &mut taken)?;
    Ok(taken)
}

/// So many numbers from 0 on, of 32 bits.
fn numbers_below(alloc: Global, count: usize) -> Result<Vec<u32>, AllocError>
    ensures { IfOk result (λ ns. ns.items ≡ numbers 0 (min count 4294967296)) }
{
    let mut ns = Vec::new(alloc);
    'numbers: for n in 0..count.min(0x1_0000_0000) {
        ns.push(n as u32)?;
    }
    Ok(ns)
}

/// Whether a number is in a set.
fn has_number(taken: &BTreeSet<u32>, number: u32) -> bool
    ensures { result ≡ has_number taken.now.keys number }
{
    taken.contains(&number)
}

/// The least number from one on that isn't in a set, or the last of 32 bits.
fn free_from(taken: &BTreeSet<u32>, first: u32) -> u32
    ensures from { first ≤ result }
    ensures below { (n : ℕ) → first ≤ n → n < result → has_number taken.now.keys n ≡ true }
    ensures free { result < 4294967295 → has_number taken.now.keys result ≡ false }
{
    'numbers: for number in first..u32::MAX {
        if !has_number(taken, number) {
            return number;
        }
    }
    u32::MAX
}

/// Puts a slot that is given at the end of the list, and its number at its original. After a refusal
/// nothing was put.
fn put_slot(
    slot: RangeSlot,
    given: &mut Vec<RangeSlot>,
    slots: &mut BTreeMap<u32, u32>,
) -> Result<(), AllocError>
    ensures list { OnOk result (given.new.items ≡ given.old.items ++ slot ∷ []) }
    ensures number { OnOk result ((o : ℕ) → get nat_cmp slots.new o ≡ cond (nat_eq slot.original o) (Some slot.number) (get nat_cmp slots.old o)) }
    ensures same_list { OnErr result (given.new.items ≡ given.old.items) }
    ensures same_numbers { OnErr result ((o : ℕ) → get nat_cmp slots.new o ≡ get nat_cmp slots.old o) }
{
    given.reserve(1)?;
    slots.insert(slot.original, slot.number)?;
    given.push(slot)?;
    Ok(())
}

impl SlotMap {
    ghost use Rattle.spiller.specs.Slots.{original_of, slot_of, own_slot, with_slot, with_original, HasFreeSlot};
    ghost use Rattle.spiller.specs.RangeSlots.{with_class};
    ghost use Rattle.spiller.specs.SlotMaps.{slots_of, slot_classes};

    /// Each range of a prepared function is its own original, and none has a slot.
    pub fn new(alloc: Global, f: &Func) -> Result<SlotMap, AllocError>
        ensures originals { IfOk result (λ m. length f.now.classes ≤ 4294967296 → (slots_of m).originals ≡ numbers 0 (length f.now.classes)) }
        ensures given { IfOk result (λ m. m.given.items ≡ []) }
        ensures taken { IfOk result (λ m. (n : ℕ) → has_number (slots_of m).taken n ≡ has_number (named_slots f.now) n) }
    {
        let taken = named_slots(alloc, f)?;
        let originals = numbers_below(alloc, f.classes.len())?;
        let next = free_from(&taken, 0);
        Ok(SlotMap {
            originals,
            slots: BTreeMap::new(alloc),
            given: Vec::new(alloc),
            taken,
            next,
        })
    }

    /// The number of ranges.
    pub fn len(&self) -> usize
        ensures { result ≡ length (slots_of self.now).originals }
    {
        self.originals.len()
    }

    /// The original of a range.
    pub fn original(&self, v: u32) -> u32
        ensures { result ≡ original_of (slots_of self.now) v }
    {
        self.originals.get(v as usize).copied().unwrap_or(v)
    }

    /// Gives a range, which has the next number, the original of another. After a refusal nothing has
    /// changed.
    pub fn adopt(&mut self, child: u32, parent: u32) -> Result<(), AllocError>
        ensures ok { OnOk result (slots_of self.new ≡ with_original (slots_of self.old) child (original_of (slots_of self.old) parent)) }
        ensures err { OnErr result (slots_of self.new ≡ slots_of self.old) }
        ensures given { self.new.given.items ≡ self.old.given.items }
    {
        let original = self.original(parent);
        self.add(child, original)
    }

    /// Makes a range, which has the next number, its own original. After a refusal nothing has changed.
    pub fn add_original(&mut self, v: u32) -> Result<(), AllocError>
        ensures ok { OnOk result (slots_of self.new ≡ with_original (slots_of self.old) v v) }
        ensures err { OnErr result (slots_of self.new ≡ slots_of self.old) }
        ensures given { self.new.given.items ≡ self.old.given.items }
    {
        self.add(v, v)
    }

    fn add(&mut self, v: u32, original: u32) -> Result<(), AllocError>
        ensures ok { OnOk result (slots_of self.new ≡ with_original (slots_of self.old) v original) }
        ensures err { OnErr result (slots_of self.new ≡ slots_of self.old) }
        ensures given { self.new.given.items ≡ self.old.given.items }
    {
        if self.originals.len() == v as usize {
            self.originals.push(original)?;
        }
        Ok(())
    }

    /// The number of the slot of a range's original, if it has one.
    pub fn slot_of(&self, v: u32) -> Option<u32>
        ensures { result ≡ slot_of (slots_of self.now) v }
    {
        self.slots.get(&self.original(v)).copied()
    }

    /// The number of the slot that a range has, or that it gets: the least that is free.
    pub(crate) fn own_slot(&self, v: u32) -> u32
        ensures { HasFreeSlot (slots_of self.now) → result ≡ own_slot (slots_of self.now) v }
    {
        match self.slot_of(v) {
            Some(number) => number,
            None => self.next,
        }
    }

    /// The slots that were given, in order.
    pub fn given_slots(&self) -> &[RangeSlot]
        ensures { result.now ≡ self.now.given.items }
    {
        self.given.as_slice()
    }

    /// The number of the slot of a range's original. Where it has none it is given the least number
    /// that is free, with the class of the original. After a refusal nothing has changed.
    pub fn give(&mut self, f: &Func, v: u32) -> Result<u32, AllocError>
        ensures number { IfOk result (λ n. HasFreeSlot (slots_of self.old) → n ≡ own_slot (slots_of self.old) v) }
        ensures slots { OnOk result (HasFreeSlot (slots_of self.old) → slots_of self.new ≡ with_slot (slots_of self.old) v) }
        ensures classes { OnOk result (slot_classes self.new ≡ with_class f.now (slots_of self.old) v (slot_classes self.old)) }
        ensures err { OnErr result (slots_of self.new ≡ slots_of self.old) }
        ensures same_given { OnErr result (self.new.given.items ≡ self.old.given.items) }
    {
        if let Some(number) = self.slot_of(v) {
            return Ok(number);
        }
        let original = self.original(v);
        let number = self.next;
        let slot = RangeSlot {
            original,
            number,
            class: class_of(f, original).unwrap_or(ClassId(0)),
        };
        put_slot(slot, &mut self.given, &mut self.slots)?;
        self.next = free_from(&self.taken, number.saturating_add(1));
        Ok(number)
    }
}
